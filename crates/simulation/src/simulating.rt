//! What an events file comes to over a network.

ghost use Rattle.std.specs.Prelude.{◌≡◌, ◌≢◌, ◌-◌, ◌<◌, ◌^◌, All, IfErr, IfOk, Ok, Err, length};
ghost use Rattle.simulation.specs.declared.causes.SimulationCause.TheVariants as causes;
ghost use Rattle.simulation.specs.Lines.{events_part, opening_part};
ghost use Rattle.simulation.specs.Simulating as specs;

use crate::causes::SimulationRefused;
use crate::opening::Start;
use crate::opening_lines::read_start;
use crate::reading::opening_count;
use crate::steps::take_lines;
use async_machine::Machine;
use cex_json::write_tables;
use mw_text::{Line, List, lines_of, list_of};
use net_model::Net;
use std::alloc::{AllocError, Global};

/// Whether the last state is quiet, and the lines that say so: `quiet` or `busy`, then the tables as compact JSON.
#[derive(Drop)]
pub struct Simulated {
    pub is_quiet: bool,
    pub text: List<u8>,
}

fn state_word(is_quiet: bool) -> &'static [u8]
    ensures { result.now ≡ specs.state_word is_quiet }
{
    if is_quiet { b"quiet\n" } else { b"busy\n" }
}

fn answer_text(alloc: Global, is_quiet: bool, tables: &[u8]) -> Result<List<u8>, AllocError>
    ensures { IfOk result (λ text. text ≡ specs.answer_of is_quiet tables.now) }
{
    let mut text = list_of(alloc, state_word(is_quiet))?;
    text.items.extend_from_slice(tables)?;
    text.items.extend_from_slice(b"\n")?;
    Ok(text)
}

// What is said of the state of a machine.
fn told(alloc: Global, machine: &Machine) -> Result<Simulated, AllocError>
    ensures { IfOk result (specs.IsTold machine.now.net.files
        (specs.last_at machine.now.destination machine.now.state)) }
{
    let is_quiet = machine.is_quiet()?;
    let tables = write_tables(alloc, machine.net(), machine.tables())?;
    let text = answer_text(alloc, is_quiet, tables.as_slice())?;
    Ok(Simulated { is_quiet, text })
}

// Does what the lines say, and says what the last state is.
fn finish(
    alloc: Global,
    machine: &mut Machine,
    events: &[Line],
) -> Result<Simulated, SimulationRefused>
    requires few { All (λ line. length line.words < 2 ^ 32 - 1) events.now }
    ensures ok { IfOk result (specs.IsToldFrom machine.old.net.files events.now
        (specs.last_at machine.old.destination machine.old.state)) }
    ensures refused { IfErr result (λ refused. refused.cause ≢ causes.Memory →
        specs.run_lines machine.old.net.files events.now
        (specs.last_at machine.old.destination machine.old.state) ≡ Err refused) }
{
    take_lines(alloc, machine, events)?;
    Ok(told(alloc, machine)?)
}

// The machine of the network at its start.
fn begin(
    alloc: Global,
    net: Net,
    lines: &[Line],
    events: &[Line],
) -> Result<Machine, SimulationRefused>
    requires lines { All (λ line. length line.words < 2 ^ 32 - 1) lines.now }
    requires events { All (λ line. length line.words < 2 ^ 32 - 1) events.now }
    ensures ok { IfOk result (λ machine. specs.begun net.files lines.now events.now
        ≡ Ok (specs.last_at machine.destination machine.state)) }
    ensures net { IfOk result (λ machine. machine.net ≡ net) }
    ensures refused { IfErr result (λ refused. refused.cause ≢ causes.Memory →
        specs.begun net.files lines.now events.now ≡ Err refused) }
{
    let Start { destination, ids } = read_start(alloc, &net, lines, events)?;
    Ok(Machine::new(alloc, net, destination, ids)?)
}

fn simulate_parts(
    alloc: Global,
    net: Net,
    lines: &[Line],
    events: &[Line],
) -> Result<Simulated, SimulationRefused>
    requires lines { All (λ line. length line.words < 2 ^ 32 - 1) lines.now }
    requires events { All (λ line. length line.words < 2 ^ 32 - 1) events.now }
    ensures ok { IfOk result (specs.IsToldOf net.files lines.now events.now) }
    ensures refused { IfErr result (λ refused. refused.cause ≢ causes.Memory →
        specs.last_of net.files lines.now events.now ≡ Err refused) }
{
    let mut machine = begin(alloc, net, lines, events)?;
    finish(alloc, &mut machine, events)
}

#[tactic(auto, using(crate::proofs::Ends::few_first, crate::proofs::Ends::few_last))]
fn simulate_lines(alloc: Global, net: Net, lines: &[Line]) -> Result<Simulated, SimulationRefused>
    requires few { All (λ line. length line.words < 2 ^ 32 - 1) lines.now }
    ensures ok { IfOk result (specs.IsToldOf net.files (opening_part lines.now) (events_part lines.now)) }
    ensures refused { IfErr result (λ refused. refused.cause ≢ causes.Memory →
        specs.last_of net.files (opening_part lines.now) (events_part lines.now) ≡ Err refused) }
{
    let (opening, events) = lines.split_at(opening_count(lines));
    simulate_parts(alloc, net, opening, events)
}

/// What an events file comes to over a network. Its lines order, in their turn: the destination, identifiers of
/// external peers, and events of the machine of messages. `is_quiet` comes exactly where the last state is quiet, and
/// then its tables are a stable routing for the failures and announcements of that moment; the text has the tables of
/// the last state.
///
/// # Errors
///
/// The file is refused at its first line that is refused. Of several causes at a line the first counts in this order:
/// no form of lines (`UnknownCommand`), a bad word, a line that stands where it may not (`OutOfPlace`), a second
/// identifier for a peer (`Repeated`), a name that is not there (`UnknownName`), and then those of an event, which are
/// the machine's. A file without a destination is refused at line 1 where no line is refused. Want of memory is at
/// line 0.
pub fn simulate(alloc: Global, net: Net, events: &[u8]) -> Result<Simulated, SimulationRefused>
    requires { length events.now < 2 ^ 32 }
    ensures ok { IfOk result (specs.IsSimulated net.files events.now) }
    ensures refused { IfErr result (λ refused. refused.cause ≢ causes.Memory →
        specs.simulation_of net.files events.now ≡ Err refused) }
{
    let lines = lines_of(alloc, events)?;
    simulate_lines(alloc, net, lines.as_slice())
}
