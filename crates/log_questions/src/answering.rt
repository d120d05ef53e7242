//! The answer about a log that is told.

ghost use Rattle.std.specs.Prelude.{◌≡◌, ◌≢◌, ℕ, List as ListOf, Option as OptionOf, IfOk};
ghost use Rattle.mw_outside.specs.Faults.{Rose};
ghost use Rattle.run_answers.specs.Checks.{IsLogLine};
ghost use Rattle.run_answers.specs.Running.{AnswersSo};
ghost use Rattle.run_inputs.specs.Due as due;

use crate::checking::check_log;
use log_answers::log_answer_text;
use mw_outside::Sink;
use mw_text::List;
use run_answers::Status;
use run_inputs::told::Logged;
use std::alloc::{AllocError, Global};

// The line of a right answer, and whether that is yes.
#[derive(Drop)]
struct LogLine {
    yes: bool,
    text: List<u8>,
}

fn log_line(alloc: Global, logged: &Logged) -> Result<LogLine, AllocError>
    ensures { IfOk result (λ line.
        IsLogLine logged.now.net.files logged.now.questions logged.now.log.name logged.now.log.bytes line.yes line.text) }
{
    let answer = check_log(
        alloc,
        &logged.net,
        logged.questions.as_slice(),
        logged.log.bytes.as_slice(),
    )?;
    let yes = answer.is_yes();
    let text = log_answer_text(alloc, logged.log.name.as_slice(), &answer)?;
    Ok(LogLine { yes, text })
}

/// Prints whether the log shows that all questions hold.
pub fn put_check<O: Sink>(alloc: Global, logged: &Logged, out: &mut O) -> Status
    // Nothing of it is logged, and no decider is asked.
    ensures answers { (log : OptionOf (ListOf ℕ)) (tolds : ListOf (OptionOf (ListOf ℕ))) →
        AnswersSo (due.checking logged.now.net.files logged.now.questions logged.now.log) result
        (O.taken out.old) (O.taken out.new) log log tolds (Rose (O.faults out.old) (O.faults out.new)) }
    ensures writes { result ≢ Status.WriteFault → O.faults out.new ≡ O.faults out.old }
{
    let line = match log_line(alloc, logged) {
        Ok(line) => line,
        Err(_) => return Status::Memory,
    };
    match out.write(line.text.as_slice()) {
        Ok(()) => if line.yes { Status::Good } else { Status::Bad },
        Err(_) => Status::WriteFault,
    }
}
