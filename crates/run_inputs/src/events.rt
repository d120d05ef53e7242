//! Reads and parses the files of a simulation, and lets its events happen.

ghost use Rattle.std.specs.Prelude.{◌≡◌, ◌≢◌, ◌≤◌, ◌++◌, ◌∷◌, [], Ok, Err, IfOk, IfErr, IfSome, length, map};
ghost use Rattle.mw_outside.specs.Faults.{Rose};
ghost use Rattle.run_inputs.specs.Due as due;
ghost use Rattle.run_inputs.specs.Due.{Outcome};
ghost use Rattle.run_inputs.specs.Loading.{AreSmall, IsSaidOf, OnStop, UnlessReadFault};
ghost use Rattle.run_inputs.specs.Order.{StopsAt};
ghost use Rattle.run_inputs.specs.Texts as texts;
ghost use Rattle.simulation.specs.Simulating.{IsTold, Last};

use crate::load::{MOST_BYTES, Stop, parse_network, read_text, read_texts, stop_with};
use crate::text::{Text, simulation_refusal};
use mw_outside::Files;
use net_model::Net;
use simulation::{Simulated, SimulationCause, SimulationRefused, simulate};
use std::alloc::Global;

// A run that ends at the refusal of the events.
fn stop_at_event(alloc: Global, name: &[u8], refused: SimulationRefused) -> Stop
    ensures { OnStop result (λ line. (refused.cause ≢ SimulationCause.Memory) × (line ≡ texts.simulation_refusal name.now refused)) ⊥ }
{
    match refused.cause {
        SimulationCause::Memory => Stop::Memory,
        _ => stop_with(simulation_refusal(alloc, name, refused)),
    }
}

// What is said of the state to which the events of a text lead.
fn take_events(alloc: Global, net: Net, events: &Text) -> Result<Simulated, Stop>
    requires { length events.now.bytes ≤ MOST_BYTES }
    ensures ok { IfOk result (λ answer. (last : Last) × (due.events_of events.now net.files ≡ Ok (due.simulating net.files last)) × IsTold net.files last answer) }
    ensures stop { IfErr result (λ stop. OnStop stop (λ line. due.events_of events.now net.files ≡ Err (due.refused line)) ⊥) }
{
    match simulate(alloc, net, events.bytes.as_slice()) {
        Ok(answer) => Ok(answer),
        Err(refused) => Err(stop_at_event(alloc, events.name.as_slice(), refused)),
    }
}

// The same, of the network of some texts.
fn parse_simulation(alloc: Global, texts: &[Text], events: &Text) -> Result<Simulated, Stop>
    requires texts { AreSmall texts.now }
    requires events { length events.now.bytes ≤ MOST_BYTES }
    ensures ok { IfOk result (λ answer. (outcome : Outcome) × (due.simulation_due texts.now events.now ≡ Ok outcome) × IsSaidOf outcome answer) }
    ensures stop { IfErr result (λ stop. OnStop stop (λ line. due.simulation_due texts.now events.now ≡ Err (due.refused line)) ⊥) }
{
    let net = parse_network(alloc, texts)?;
    take_events(alloc, net, events)
}

/// Reads the configurations of these names and then the events file, parses them in this order, and lets the events happen:
/// whether the state to which they lead is quiet, and its tables. A read fault is answered only where a read of one of these
/// files failed in this call, and a refusal is the first in this order, that of an event included.
pub fn load_simulation<F: Files>(
    alloc: Global,
    files: &mut F,
    events: &str,
    names: &[&str],
) -> Result<Simulated, Stop>
    ensures kept { F.contents files.new ≡ F.contents files.old }
    ensures ok { IfOk result (λ answer. (outcome : Outcome) × IfSome (F.contents files.old) (λ contents.
        due.simulated_due contents events.now (map (λ s. s.now) names.now) ≡ Ok outcome) × IsSaidOf outcome answer) }
    ensures quiet { UnlessReadFault result (F.faults files.new ≡ F.faults files.old) }
    ensures name_stays { UnlessReadFault result (F.last_failed files.new ≡ F.last_failed files.old) }
    ensures stop { IfErr result (λ stop. OnStop stop
        (λ line. IfSome (F.contents files.old) (λ contents.
        due.simulated_due contents events.now (map (λ s. s.now) names.now) ≡ Err (due.refused line)))
        (Rose (F.faults files.old) (F.faults files.new)
        × StopsAt (F.contents files.old) (map (λ s. s.now) names.now ++ events.now ∷ []) (F.last_failed files.new))) }
{
    let texts = read_texts(alloc, files, names)?;
    let events = read_text(alloc, files, events, MOST_BYTES)?;
    parse_simulation(alloc, texts.as_slice(), &events)
}
