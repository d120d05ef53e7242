//! The whole run of the program.

ghost use Rattle.std.specs.Prelude.{◌≡◌, ◌≢◌, ◌⊎◌, ℕ, List as ListOf, false, length, map, string_bytes};
ghost use Rattle.mw_outside.specs.Faults.{Rose};
ghost use Rattle.mw_outside.specs.Taken.{Takes};
ghost use Rattle.run_answers.specs.Running.{AnswersSo, IsAnswered, OnAnswered, OnCut, OnUnanswered, Stands};
ghost use Rattle.run_inputs.specs.Due as due;
ghost use Rattle.run_inputs.specs.Due.{IsDue, Outcome};
ghost use Rattle.run_inputs.specs.Loading.{ComesTo, IsReady};
ghost use Rattle.run_inputs.specs.Order.{StopsIn, in_order};
ghost use Rattle.run_inputs.specs.Texts.{usage_text};
ghost use Rattle.mw_verify.specs.Completeness.{IsComplete};
ghost use Rattle.mw_verify.specs.Runs.{EndsSo, PrintsSo};

use crate::generated::put_ring;
use crate::verdicts::put_verdicts;
use deciders::Decider;
use log_questions::put_check;
use mw_outside::{Files, Sink};
use run_answers::{Status, put_replay, put_simulated};
use run_inputs::{Stop, Work, work_of};
use std::alloc::Global;

const USAGE: &[u8] = b"usage: mw_cli verify, check, replay, simulate or gen\n";

// Does the work, and prints its answers.
fn put_answers<O: Sink, L: Sink>(
    alloc: Global,
    work: &Work,
    out: &mut O,
    log: &mut L,
    deciders: &mut Vec<Box<dyn Decider>>,
) -> Status
    requires { IsReady work.now }
    ensures answers { (outcome : Outcome) → ComesTo work.now outcome → AnswersSo outcome result
        (O.taken out.old) (O.taken out.new) (L.taken log.old) (L.taken log.new) (map (λ b. told b) deciders.new.items)
        (Rose (O.faults out.old) (O.faults out.new) ⊎ Rose (L.faults log.old) (L.faults log.new)) }
    ensures writes { result ≢ Status.WriteFault → (O.faults out.new ≡ O.faults out.old) × (L.faults log.new ≡ L.faults log.old) }
    ensures deciders { length deciders.new.items ≡ length deciders.old.items }
{
    match work {
        Work::Answer(loaded) => put_verdicts(alloc, loaded, out, log, deciders),
        Work::Replay(told) => put_replay(alloc, told, out),
        Work::Check(logged) => put_check(alloc, logged, out),
        Work::Simulate(answer) => put_simulated(answer, out),
        Work::Gen(ring) => put_ring(alloc, ring, out, log, deciders),
    }
}

// The same, after which the work goes.
fn end_work<O: Sink, L: Sink>(
    alloc: Global,
    work: Work,
    out: &mut O,
    log: &mut L,
    deciders: &mut Vec<Box<dyn Decider>>,
) -> Status
    requires { IsReady work }
    ensures answers { (outcome : Outcome) → ComesTo work outcome → AnswersSo outcome result
        (O.taken out.old) (O.taken out.new) (L.taken log.old) (L.taken log.new) (map (λ b. told b) deciders.new.items)
        (Rose (O.faults out.old) (O.faults out.new) ⊎ Rose (L.faults log.old) (L.faults log.new)) }
    ensures writes { result ≢ Status.WriteFault → (O.faults out.new ≡ O.faults out.old) × (L.faults log.new ≡ L.faults log.old) }
    ensures deciders { length deciders.new.items ≡ length deciders.old.items }
{
    let status = put_answers(alloc, &work, out, log, deciders);
    drop(work);
    status
}

// Prints a line, with which a run ends with that status.
fn put_line<O: Sink>(line: &[u8], status: Status, out: &mut O) -> Status
    ensures { PrintsSo line.now status result (O.taken out.old) (O.taken out.new) (O.faults out.old) (O.faults out.new) }
{
    match out.write(line) {
        Ok(()) => status,
        Err(_) => Status::WriteFault,
    }
}

// Reads what the words ask for, does it, and prints its answers.
fn do_work<F: Files, O: Sink, L: Sink>(
    alloc: Global,
    words: &[String],
    files: &mut F,
    out: &mut O,
    log: &mut L,
    deciders: &mut Vec<Box<dyn Decider>>,
) -> Status
    ensures so { EndsSo (record {
      told = F.contents files.old;
      words = map string_bytes words.now;
      before = O.taken out.old;
      now = O.taken out.new;
      logged_before = L.taken log.old;
      logged_now = L.taken log.new;
      tolds = map (λ b. told b) deciders.new.items;
      reads = F.faults files.old;
      reads_now = F.faults files.new;
      last = F.last_failed files.old;
      last_now = F.last_failed files.new;
      writes = O.faults out.old;
      writes_now = O.faults out.new;
      logs = L.faults log.old;
      logs_now = L.faults log.new;
    })
        (log.new ≡ log.old) result }
    ensures kept { F.contents files.new ≡ F.contents files.old }
    ensures deciders { length deciders.new.items ≡ length deciders.old.items }
{
    match work_of(alloc, files, words) {
        Ok(Some(work)) => end_work(alloc, work, out, log, deciders),
        Ok(None) => put_line(USAGE, Status::Usage, out),
        Err(Stop::Refused(line)) => put_line(line.as_slice(), Status::Refused, out),
        Err(Stop::ReadFault) => Status::ReadFault,
        Err(Stop::Memory) => Status::Memory,
    }
}

/// The whole run: reads the words and the files that they name, and prints the answers. For `verify [--conflicts N]
/// QUESTIONS CONFIG...` they are a verdict for each question, found by learning at most N clauses, 1,000,000 where the
/// words do not say it; for `gen [--conflicts N] COUNT` the size of a ring of so many routers, whose texts are made
/// here and read as those of files, and then the same of its question; for `replay CEX QUESTIONS CONFIG...` whether the
/// counterexample is true of the network, and else why not; for `check LOG QUESTIONS CONFIG...` whether the log shows
/// that nothing breaks any question, and else where it does not; for `simulate EVENTS CONFIG...` whether the state to
/// which the events lead is quiet, and its tables. Which words are a command, and what each argument is, is as `clap`
/// reads them. The log takes what shows each verdict. The deciders choose by turns what a search decides, and the
/// answers are right whichever they are, and without any.
pub fn run<F: Files, O: Sink, L: Sink>(
    alloc: Global,
    words: &[String],
    files: &mut F,
    out: &mut O,
    log: &mut L,
    deciders: &mut Vec<Box<dyn Decider>>,
) -> Status
    // With 0, 1 or 2 what is due is answered: each question has a right verdict in its order, the status is theirs, and the
    // whole text and each section of the log stand, and each decider that tells its bumps tells those of its turns in the
    // last section; or the counterexample is true or not as printed; or of the state to which the events lead it stands
    // whether it is quiet, which comes with a stable routing alone, and its tables.
    ensures answered { OnAnswered result ((outcome : Outcome) × IsDue (F.contents files.old) (map string_bytes words.now) outcome
        × IsAnswered outcome result (O.taken out.old) (O.taken out.new) (L.taken log.old) (L.taken log.new)
        (map (λ b. told b) deciders.new.items)) }

    // Completeness: where no count of faults rose and the contents of the files are told (`gen` reads none), what is due comes
    // whole, or memory was wanting. Of words that are a command, over files in the profile and its limits, `verify` and `gen`
    // print a verdict for each question with 0, 1 or 2; `check`, `replay` and `simulate`, whose own file is read without a
    // refusal, print their answer with 0 or 1. Other words get the usage line with 3, another file its refusal with 4.
    ensures complete { IsComplete (record {
      told = F.contents files.old;
      words = map string_bytes words.now;
      before = O.taken out.old;
      now = O.taken out.new;
      logged_before = L.taken log.old;
      logged_now = L.taken log.new;
      tolds = map (λ b. told b) deciders.new.items;
      reads = F.faults files.old;
      reads_now = F.faults files.new;
      last = F.last_failed files.old;
      last_now = F.last_failed files.new;
      writes = O.faults out.old;
      writes_now = O.faults out.new;
      logs = L.faults log.old;
      logs_now = L.faults log.new;
    })
        result }

    // With 3 the words are no command, and exactly the usage line stands. Where they are none, only a fault of writing and
    // want of memory come in its place.
    ensures usage { result ≡ Status.Usage →
        (due.is_command (map string_bytes words.now) ≡ false) × Takes (O.taken out.old) (O.taken out.new) usage_text }
    ensures no_command { due.is_command (map string_bytes words.now) ≡ false →
        (result ≡ Status.Usage) ⊎ ((result ≡ Status.WriteFault) ⊎ (result ≡ Status.Memory)) }

    // With 4 exactly one line stands: that of the first refusal.
    ensures refused { result ≡ Status.Refused → (line : ListOf ℕ) × Takes (O.taken out.old) (O.taken out.new) line
        × IsDue (F.contents files.old) (map string_bytes words.now) (due.refused line) }

    // With 5 a read of a file that the words name failed in this call, the first in the order of work that cannot be read,
    // and nothing is printed. With any other status no read failed.
    ensures read_fault { result ≡ Status.ReadFault → Rose (F.faults files.old) (F.faults files.new)
        × StopsIn (F.contents files.old) (in_order (map string_bytes words.now)) (F.last_failed files.new)
        × (O.taken out.new ≡ O.taken out.old) }
    ensures reads { result ≢ Status.ReadFault → (F.faults files.new ≡ F.faults files.old) × (F.last_failed files.new ≡ F.last_failed files.old) }

    // With 6 a write failed in this call. With any other status none did.
    ensures write_fault { result ≡ Status.WriteFault → Rose (O.faults out.old) (O.faults out.new) ⊎ Rose (L.faults log.old) (L.faults log.new) }
    ensures writes { result ≢ Status.WriteFault → (O.faults out.new ≡ O.faults out.old) × (L.faults log.new ≡ L.faults log.old) }

    // With 6 or 7 a front stands of the line that is due, or of right verdicts for the first questions with their sections.
    ensures cut { OnCut result ((outcome : Outcome) × IsDue (F.contents files.old) (map string_bytes words.now) outcome
        × Stands outcome (O.taken out.old) (O.taken out.new) (L.taken log.old) (L.taken log.new)) }

    // With 3, 4 or 5 nothing is logged.
    ensures not_logged { OnUnanswered result (log.new ≡ log.old) }
    ensures kept { F.contents files.new ≡ F.contents files.old }
    ensures deciders { length deciders.new.items ≡ length deciders.old.items }
{
    do_work(alloc, words, files, out, log, deciders)
}
