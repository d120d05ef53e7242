//! Prints what is said of the state to which events led.

ghost use Rattle.std.specs.Prelude.{◌≡◌, ◌≢◌, ℕ, List as ListOf, Option as OptionOf};
ghost use Rattle.ios_ast.specs.declared.file.File.{File};
ghost use Rattle.mw_outside.specs.Faults.{Rose};
ghost use Rattle.run_answers.specs.Running.{AnswersSo};
ghost use Rattle.run_inputs.specs.Due as due;
ghost use Rattle.simulation.specs.Simulating.{IsTold, Last};

use crate::status::Status;
use mw_outside::Sink;
use simulation::Simulated;

/// Prints whether the state to which events led is quiet, and its tables.
pub fn put_simulated<O: Sink>(answer: &Simulated, out: &mut O) -> Status
    // Nothing of it is logged, and no decider is asked.
    ensures answers { (files : ListOf File) (last : Last) (logged : OptionOf (ListOf ℕ)) (tolds : ListOf (OptionOf (ListOf ℕ))) →
        IsTold files last answer.now → AnswersSo (due.simulating files last) result
        (O.taken out.old) (O.taken out.new) logged logged tolds (Rose (O.faults out.old) (O.faults out.new)) }
    ensures writes { result ≢ Status.WriteFault → O.faults out.new ≡ O.faults out.old }
{
    match out.write(answer.text.as_slice()) {
        Ok(()) => if answer.is_quiet {
            Status::Good
        } else {
            Status::Bad
        },
        Err(_) => Status::WriteFault,
    }
}
