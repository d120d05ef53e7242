//! Takes what the lines of an events file order.

ghost use Rattle.std.specs.Prelude.{◌≡◌, ◌≢◌, ◌-◌, ◌<◌, ◌^◌, All, IfErr, OnErr, OnOk, Ok, Err, Some, length};
ghost use Rattle.mw_text.specs.Reading.{following, in_turn};
ghost use Rattle.simulation.specs.declared.causes.SimulationCause.TheVariants as causes;
ghost use Rattle.simulation.specs.Lines as lines_of_file;
ghost use Rattle.simulation.specs.Simulating as simulating;
ghost use Rattle.simulation.specs.Turns.{turned};

use crate::causes::{SimulationCause, SimulationRefused, at_line, event_cause};
use crate::reading::read_line;
use crate::turns::run;
use async_machine::Machine;
use event_lines::Order;
use ios_policy_reader::Cause;
use machine_laws::{Event, EventRefused};
use mw_text::{Line, List, says_nothing};
use std::alloc::Global;

fn take_event(machine: &mut Machine, event: Event) -> Result<(), SimulationCause>
    ensures ok { OnOk result (simulating.taken machine.old.net.files machine.old.destination machine.old.state
        (Some event) ≡ Ok machine.new.state) }
    ensures refused { IfErr result (λ why. why ≢ causes.Memory →
        simulating.taken machine.old.net.files machine.old.destination machine.old.state (Some event) ≡ Err why) }
    ensures net { machine.new.net ≡ machine.old.net }
    ensures destination { machine.new.destination ≡ machine.old.destination }
{
    match machine.step(event) {
        Ok(()) => Ok(()),
        Err(why) => Err(event_cause(why)),
    }
}

fn take_turns(machine: &mut Machine, count: u32) -> Result<(), SimulationCause>
    ensures ok { OnOk result (lines_of_file.as_event
        (turned machine.old.net.files machine.old.destination count machine.old.state) ≡ Ok machine.new.state) }
    ensures refused { IfErr result (λ why. why ≢ causes.Memory → lines_of_file.as_event
        (turned machine.old.net.files machine.old.destination count machine.old.state) ≡ Err why) }
    ensures net { machine.new.net ≡ machine.old.net }
    ensures destination { machine.new.destination ≡ machine.old.destination }
{
    match run(machine, count) {
        Ok(()) => Ok(()),
        Err(why) => Err(event_cause(why)),
    }
}

// Does what a line orders.
fn follow(machine: &mut Machine, order: Order) -> Result<(), SimulationCause>
    ensures ok { OnOk result (simulating.done_by machine.old.net.files machine.old.destination machine.old.state order
        ≡ Ok machine.new.state) }
    ensures refused { IfErr result (λ why. why ≢ causes.Memory →
        simulating.done_by machine.old.net.files machine.old.destination machine.old.state order ≡ Err why) }
    ensures net { machine.new.net ≡ machine.old.net }
    ensures destination { machine.new.destination ≡ machine.old.destination }
{
    match order {
        Order::Destination(_) => Err(SimulationCause::Line(Cause::OutOfPlace)),
        Order::Identify(_, _) => Err(SimulationCause::Line(Cause::OutOfPlace)),
        Order::Take(None) => Err(SimulationCause::Event(EventRefused::UnknownName)),
        Order::Take(Some(event)) => take_event(machine, event),
        Order::Run(count) => take_turns(machine, count),
    }
}

fn take_words(
    alloc: Global,
    machine: &mut Machine,
    words: &[List<u8>],
) -> Result<(), SimulationCause>
    requires few { length words.now < 2 ^ 32 - 1 }
    ensures ok { OnOk result (following
        (simulating.done_by machine.old.net.files machine.old.destination machine.old.state)
        (lines_of_file.ordered machine.old.net.files words.now) ≡ Ok machine.new.state) }
    ensures refused { IfErr result (λ why. why ≢ causes.Memory → following
        (simulating.done_by machine.old.net.files machine.old.destination machine.old.state)
        (lines_of_file.ordered machine.old.net.files words.now) ≡ Err why) }
    ensures net { machine.new.net ≡ machine.old.net }
    ensures destination { machine.new.destination ≡ machine.old.destination }
{
    match read_line(alloc, machine.net(), words) {
        Err(why) => Err(why),
        Ok(order) => match follow(machine, order) {
            Ok(()) => Ok(()),
            Err(why) => Err(why),
        },
    }
}

// Does what a line says.
#[tactic(auto, unfolding(crate::specs::Simulating::next_state))]
fn take_line(alloc: Global, machine: &mut Machine, line: &Line) -> Result<(), SimulationRefused>
    requires few { length line.now.words < 2 ^ 32 - 1 }
    ensures ok { OnOk result (simulating.next_state machine.old.net.files machine.old.destination machine.old.state
        line.now ≡ Ok machine.new.state) }
    ensures refused { IfErr result (λ refused. refused.cause ≢ causes.Memory →
        simulating.next_state machine.old.net.files machine.old.destination machine.old.state line.now ≡ Err refused) }
    ensures net { machine.new.net ≡ machine.old.net }
    ensures destination { machine.new.destination ≡ machine.old.destination }
{
    if says_nothing(line.words.as_slice()) {
        return Ok(());
    }
    match take_words(alloc, machine, line.words.as_slice()) {
        Ok(()) => Ok(()),
        Err(why) => Err(at_line(line.number, why)),
    }
}

/// Does what the lines say, in their order.
#[tactic(auto, unfolding(mw_text::specs::Reading::in_turn), using(crate::proofs::Ends::step_there))]
pub fn take_lines(
    alloc: Global,
    machine: &mut Machine,
    lines: &[Line],
) -> Result<(), SimulationRefused>
    requires few { All (λ line. length line.words < 2 ^ 32 - 1) lines.now }
    ensures ok { OnOk result (in_turn
        (simulating.next_state machine.old.net.files machine.old.destination) machine.old.state lines.now
        ≡ Ok machine.new.state) }
    ensures refused { IfErr result (λ refused. refused.cause ≢ causes.Memory → in_turn
        (simulating.next_state machine.old.net.files machine.old.destination) machine.old.state lines.now
        ≡ Err refused) }
    ensures net { machine.new.net ≡ machine.old.net }
    ensures destination { machine.new.destination ≡ machine.old.destination }
{
    for line in lines {
        take_line(alloc, machine, line)?;
    }
    Ok(())
}
