//! The whole command.

ghost use Rattle.std.specs.Prelude.{◌≡◌, length, map, string_bytes};
ghost use Rattle.asked_files.specs.Ending.{IsComplete, NoFault};
ghost use Rattle.least_failures.specs.Answering.{AnswersSo};
ghost use Rattle.least_failures.specs.Loading.{IsReady};
ghost use Rattle.least_failures.specs.Running.{EndsSo, IsAccepted};

use crate::answers::put_answers;
use crate::loading::work_of;
use asked_files::put_refusal;
use deciders::Decider;
use log_trim::running::put_usage;
use mw_load::Ended;
use mw_outside::{Files, Sink};
use run_inputs::Stop;
use run_inputs::load::Loaded;
use std::alloc::Global;

/// Answers the questions that were loaded, in their order, after which these and the network go.
pub fn end_work<O: Sink, L: Sink>(
    alloc: Global,
    loaded: Loaded,
    out: &mut O,
    log: &mut L,
    deciders: &mut Vec<Box<dyn Decider>>,
) -> Ended
    requires ready { IsReady loaded }
    ensures so { AnswersSo loaded.net.files loaded.questions loaded.budget (record {
      taken = O.taken out.old;
      taken_now = O.taken out.new;
      faults = O.faults out.old;
      faults_now = O.faults out.new;
      logged = L.taken log.old;
      logged_now = L.taken log.new;
      log_faults = L.faults log.old;
      log_faults_now = L.faults log.new;
      tolds = map (λ b. told b) deciders.new.items;
    }) result }
    ensures deciders { length deciders.new.items ≡ length deciders.old.items }
{
    let questions = loaded.questions.as_slice();
    let ended = put_answers(
        alloc,
        &loaded.net,
        questions,
        loaded.budget,
        out,
        log,
        deciders,
    );
    drop(loaded);
    ended
}

// Reads what the words ask for, answers it, and prints the answers.
fn do_work<F: Files, O: Sink, L: Sink>(
    alloc: Global,
    words: &[String],
    files: &mut F,
    out: &mut O,
    log: &mut L,
    deciders: &mut Vec<Box<dyn Decider>>,
) -> Ended
    ensures so { EndsSo (F.contents files.old) (map string_bytes words.now)
        (record {
          faults = F.faults files.old;
          faults_now = F.faults files.new;
          last = F.last_failed files.old;
          last_now = F.last_failed files.new;
        })
        (record {
          taken = O.taken out.old;
          taken_now = O.taken out.new;
          faults = O.faults out.old;
          faults_now = O.faults out.new;
          logged = L.taken log.old;
          logged_now = L.taken log.new;
          log_faults = L.faults log.old;
          log_faults_now = L.faults log.new;
          tolds = map (λ b. told b) deciders.new.items;
        })
        (log.new ≡ log.old) result }
    ensures kept { F.contents files.new ≡ F.contents files.old }
    ensures deciders { length deciders.new.items ≡ length deciders.old.items }
{
    match work_of(alloc, files, words) {
        Ok(Some(loaded)) => end_work(alloc, loaded, out, log, deciders),
        Ok(None) => put_usage(out),
        Err(Stop::Refused(line)) => put_refusal(&line, out),
        Err(Stop::ReadFault) => Ended::ReadFault,
        Err(Stop::Memory) => Ended::Memory,
    }
}

/// The command `least [--conflicts N] QUESTIONS CONFIG...`: prints for each question of the file with how few failed links
/// something breaks it. The number that a question has is the ceiling: the numbers from 0 up to it are tried in turn, each
/// by a search that learns at most N clauses, 1,000,000 where the words do not say it. `least NAME k` comes with a true
/// counterexample in which k links have failed, and where nothing breaks the question with fewer; `none NAME up to K` where
/// nothing does with as many as it allows; `unknown NAME at k after N conflicts` where nothing does with fewer than k, and
/// the search for k learnt N clauses without finding out. The log takes a section `NAME@k` for each number tried, which
/// shows what it came to. Which words are the command is as `clap` reads them. The deciders choose by turns what a search
/// decides, and the answers are right whichever they are, and without any.
pub fn run_least<F: Files, O: Sink, L: Sink>(
    alloc: Global,
    words: &[String],
    files: &mut F,
    out: &mut O,
    log: &mut L,
    deciders: &mut Vec<Box<dyn Decider>>,
) -> Ended
    // By how it ends: what was read, and what stands.
    ensures so { EndsSo (F.contents files.old) (map string_bytes words.now)
        (record {
          faults = F.faults files.old;
          faults_now = F.faults files.new;
          last = F.last_failed files.old;
          last_now = F.last_failed files.new;
        })
        (record {
          taken = O.taken out.old;
          taken_now = O.taken out.new;
          faults = O.faults out.old;
          faults_now = O.faults out.new;
          logged = L.taken log.old;
          logged_now = L.taken log.new;
          log_faults = L.faults log.old;
          log_faults_now = L.faults log.new;
          tolds = map (λ b. told b) deciders.new.items;
        })
        (log.new ≡ log.old) result }

    // Accepted words and files and no fault: every question is answered, but for want of memory.
    ensures complete { IsAccepted (F.contents files.old) (map string_bytes words.now) → NoFault
        (record {
          faults = F.faults files.old;
          faults_now = F.faults files.new;
          last = F.last_failed files.old;
          last_now = F.last_failed files.new;
        })
        (record {
          taken = O.taken out.old;
          taken_now = O.taken out.new;
          faults = O.faults out.old;
          faults_now = O.faults out.new;
          logged = L.taken log.old;
          logged_now = L.taken log.new;
          log_faults = L.faults log.old;
          log_faults_now = L.faults log.new;
          tolds = map (λ b. told b) deciders.new.items;
        }) → IsComplete result }
    ensures kept { F.contents files.new ≡ F.contents files.old }
    ensures deciders { length deciders.new.items ≡ length deciders.old.items }
{
    do_work(alloc, words, files, out, log, deciders)
}
