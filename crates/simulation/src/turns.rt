//! Events that come by themselves.

ghost use Rattle.std.specs.Prelude.{◌≡◌, ◌≢◌, true, false, IfErr, IfOk, OnOk, Some, None, Ok, Err};
ghost use Rattle.simulation.specs.Turns as turns;

use async_machine::Machine;
use machine_laws::EventRefused;

// Takes the event that comes next. False where none does, and then nothing changes.
#[tactic(auto, using(crate::proofs::Turned::turn_is, crate::proofs::Turned::turn_none))]
fn turn(machine: &mut Machine) -> Result<bool, EventRefused>
    ensures taken { IfOk result (λ more. more ≡ true →
        turns.turn machine.old.net.files machine.old.destination machine.old.state ≡ Some (Ok machine.new.state)) }
    ensures none { IfOk result (λ more. more ≡ false →
        turns.turn machine.old.net.files machine.old.destination machine.old.state ≡ None) }
    ensures still { IfOk result (λ more. more ≡ false → machine.new.state ≡ machine.old.state) }
    ensures refused { IfErr result (λ why. why ≢ EventRefused.Memory →
        turns.turn machine.old.net.files machine.old.destination machine.old.state ≡ Some (Err why)) }
    ensures net { machine.new.net ≡ machine.old.net }
    ensures destination { machine.new.destination ≡ machine.old.destination }
{
    match machine.next() {
        Err(_) => Err(EventRefused::Memory),
        Ok(None) => Ok(false),
        Ok(Some(event)) => match machine.step(event) {
            Ok(()) => Ok(true),
            Err(why) => Err(why),
        },
    }
}

/// Takes the event that comes next, again and again, until so many were taken or none comes.
pub fn run(machine: &mut Machine, count: u32) -> Result<(), EventRefused>
    ensures ok { OnOk result (turns.turned machine.old.net.files machine.old.destination count machine.old.state
        ≡ Ok machine.new.state) }
    ensures refused { IfErr result (λ why. why ≢ EventRefused.Memory →
        turns.turned machine.old.net.files machine.old.destination count machine.old.state ≡ Err why) }
    ensures net { machine.new.net ≡ machine.old.net }
    ensures destination { machine.new.destination ≡ machine.old.destination }
{
    for at in 0..count {
        let more = turn(machine)?;
        if !more {
            return Ok(());
        }
    }
    Ok(())
}
