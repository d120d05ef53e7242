//! Reads the lines that open an events file.

ghost use Rattle.std.specs.Prelude.{◌≡◌, ◌≢◌, ◌-◌, ◌<◌, ◌^◌, All, IfErr, IfOk, OnErr, OnOk, Ok, Err, length};
ghost use Rattle.mw_text.specs.Reading.{following, in_turn};
ghost use Rattle.net_parts.specs.Sessions.{external_ends};
ghost use Rattle.simulation.specs.declared.causes.SimulationCause.TheVariants as causes;
ghost use Rattle.simulation.specs.Lines as lines_of_file;
ghost use Rattle.simulation.specs.Opening as opening;

use crate::causes::{MEMORY, SimulationCause, SimulationRefused, at_line};
use crate::opening::{Opening, Start, open_by, unopened};
use crate::reading::read_line;
use ios_policy_reader::Cause;
use mw_text::{Line, List, says_nothing};
use net_model::Net;
use std::alloc::Global;

fn open_words(
    alloc: Global,
    net: &Net,
    said: &mut Opening,
    words: &[List<u8>],
) -> Result<(), SimulationCause>
    requires few { length words.now < 2 ^ 32 - 1 }
    ensures ok { OnOk result (following (opening.opened_by net.now.files said.old)
        (lines_of_file.ordered net.now.files words.now) ≡ Ok said.new) }
    ensures refused { IfErr result (λ why. why ≢ causes.Memory →
        following (opening.opened_by net.now.files said.old)
        (lines_of_file.ordered net.now.files words.now) ≡ Err why) }
{
    match read_line(alloc, net, words) {
        Err(why) => Err(why),
        Ok(order) => match open_by(net, said, order) {
            Ok(()) => Ok(()),
            Err(why) => Err(why),
        },
    }
}

// What is said with one line more.
#[tactic(auto, unfolding(crate::specs::Opening::next_opened))]
fn open_line(
    alloc: Global,
    net: &Net,
    said: &mut Opening,
    line: &Line,
) -> Result<(), SimulationRefused>
    requires few { length line.now.words < 2 ^ 32 - 1 }
    ensures ok { OnOk result (opening.next_opened net.now.files said.old line.now ≡ Ok said.new) }
    ensures refused { IfErr result (λ refused. refused.cause ≢ causes.Memory →
        opening.next_opened net.now.files said.old line.now ≡ Err refused) }
{
    if says_nothing(line.words.as_slice()) {
        return Ok(());
    }
    match open_words(alloc, net, said, line.words.as_slice()) {
        Ok(()) => Ok(()),
        Err(why) => Err(at_line(line.number, why)),
    }
}

#[tactic(auto, unfolding(mw_text::specs::Reading::in_turn))]
fn open_lines(
    alloc: Global,
    net: &Net,
    said: &mut Opening,
    lines: &[Line],
) -> Result<(), SimulationRefused>
    requires few { All (λ line. length line.words < 2 ^ 32 - 1) lines.now }
    ensures ok { OnOk result (in_turn (opening.next_opened net.now.files) said.old lines.now ≡ Ok said.new) }
    ensures refused { IfErr result (λ refused. refused.cause ≢ causes.Memory →
        in_turn (opening.next_opened net.now.files) said.old lines.now ≡ Err refused) }
{
    for line in lines {
        open_line(alloc, net, said, line)?;
    }
    Ok(())
}

fn misplaced(alloc: Global, net: &Net, line: &Line) -> SimulationCause
    requires few { length line.now.words < 2 ^ 32 - 1 }
    ensures { result ≢ causes.Memory → result ≡ opening.misplaced (lines_of_file.ordered net.now.files line.now.words) }
{
    match read_line(alloc, net, line.words.as_slice()) {
        Ok(_) => SimulationCause::Line(Cause::OutOfPlace),
        Err(why) => why,
    }
}

// Why events without a destination are refused.
fn no_start(alloc: Global, net: &Net, events: &[Line]) -> SimulationRefused
    requires few { All (λ line. length line.words < 2 ^ 32 - 1) events.now }
    ensures { result.cause ≢ causes.Memory → result ≡ opening.no_start net.now.files events.now }
{
    match events {
        [] => SimulationRefused {
            line: 1,
            cause: SimulationCause::Line(Cause::OutOfPlace),
        },
        [line, ..] => at_line(line.number, misplaced(alloc, net, line)),
    }
}

fn start_by(
    alloc: Global,
    net: &Net,
    events: &[Line],
    said: Opening,
) -> Result<Start, SimulationRefused>
    requires few { All (λ line. length line.words < 2 ^ 32 - 1) events.now }
    ensures ok { IfOk result (λ start. opening.start_by net.now.files events.now said ≡ Ok start) }
    ensures refused { IfErr result (λ refused. refused.cause ≢ causes.Memory →
        opening.start_by net.now.files events.now said ≡ Err refused) }
{
    match said.destination {
        Some(destination) => Ok(Start {
            destination,
            ids: said.ids,
        }),
        None => Err(no_start(alloc, net, events)),
    }
}

fn opened(alloc: Global, net: &Net, lines: &[Line]) -> Result<Opening, SimulationRefused>
    requires few { All (λ line. length line.words < 2 ^ 32 - 1) lines.now }
    ensures ok { IfOk result (λ said.
        in_turn (opening.next_opened net.now.files) (opening.unopened net.now.files) lines.now ≡ Ok said) }
    ensures refused { IfErr result (λ refused. refused.cause ≢ causes.Memory →
        in_turn (opening.next_opened net.now.files) (opening.unopened net.now.files) lines.now ≡ Err refused) }
{
    let mut said = unopened(alloc, net)?;
    match open_lines(alloc, net, &mut said, lines) {
        Ok(()) => Ok(said),
        Err(refused) => Err(refused),
    }
}

/// The destination and the identifiers that the opening lines say, before those events.
#[tactic(auto, unfolding(crate::specs::Opening::started))]
pub fn read_start(
    alloc: Global,
    net: &Net,
    lines: &[Line],
    events: &[Line],
) -> Result<Start, SimulationRefused>
    requires lines { All (λ line. length line.words < 2 ^ 32 - 1) lines.now }
    requires events { All (λ line. length line.words < 2 ^ 32 - 1) events.now }
    ensures ok { IfOk result (λ start. opening.started net.now.files lines.now events.now ≡ Ok start) }
    ensures refused { IfErr result (λ refused. refused.cause ≢ causes.Memory →
        opening.started net.now.files lines.now events.now ≡ Err refused) }
    ensures ids { IfOk result (λ start. length start.ids ≡ length (external_ends net.now.files)) }
{
    match opened(alloc, net, lines) {
        Err(refused) => Err(refused),
        Ok(said) => match start_by(alloc, net, events, said) {
            Ok(start) => Ok(start),
            Err(refused) => Err(refused),
        },
    }
}
