//! The whole command.

ghost use Rattle.std.specs.Prelude.{◌≡◌, length, map, string_bytes};
ghost use Rattle.asked_files.specs.Answering.{AnswersSo};
ghost use Rattle.asked_files.specs.Ending.{IsComplete, NoFault};
ghost use Rattle.asked_files.specs.Running.{EndsSo, IsAccepted};
ghost use Rattle.compare_files.specs.Loading.{IsReady};
ghost use Rattle.compare_words.specs.Words.{asked_of};
ghost use Rattle.net_compare.specs.Answering.{answering};
ghost use Rattle.net_compare.specs.Running.{comparing};

use crate::answers::put_answers;
use asked_files::put_refusal;
use compare_files::{Loaded, work_of};
use deciders::Decider;
use log_trim::running::put_usage;
use mw_load::Ended;
use mw_outside::{Files, Sink};
use run_inputs::Stop;
use std::alloc::Global;

/// Answers the asks that were loaded, in their order, after which these and the networks go.
pub fn end_work<O: Sink, L: Sink>(
    alloc: Global,
    loaded: Loaded,
    out: &mut O,
    log: &mut L,
    deciders: &mut Vec<Box<dyn Decider>>,
) -> Ended
    requires ready { IsReady loaded }
    ensures so { AnswersSo (answering loaded.left.files loaded.right.files loaded.budget) loaded.asks (record {
      taken = O.taken out.old;
      taken_now = O.taken out.new;
      faults = O.faults out.old;
      faults_now = O.faults out.new;
      logged = L.taken log.old;
      logged_now = L.taken log.new;
      log_faults = L.faults log.old;
      log_faults_now = L.faults log.new;
      tolds = map (λ b. told b) deciders.new.items;
    }) result }
    ensures deciders { length deciders.new.items ≡ length deciders.old.items }
{
    let asks = loaded.asks.as_slice();
    let left = &loaded.left;
    let ended = put_answers(
        alloc,
        left,
        &loaded.right,
        asks,
        loaded.budget,
        out,
        log,
        deciders,
    );
    drop(loaded);
    ended
}

// Reads what the words ask for, answers it, and prints the answers.
fn do_work<F: Files, O: Sink, L: Sink>(
    alloc: Global,
    words: &[String],
    files: &mut F,
    out: &mut O,
    log: &mut L,
    deciders: &mut Vec<Box<dyn Decider>>,
) -> Ended
    ensures so { EndsSo comparing (F.contents files.old) (asked_of (map string_bytes words.now))
        (record {
          faults = F.faults files.old;
          faults_now = F.faults files.new;
          last = F.last_failed files.old;
          last_now = F.last_failed files.new;
        })
        (record {
          taken = O.taken out.old;
          taken_now = O.taken out.new;
          faults = O.faults out.old;
          faults_now = O.faults out.new;
          logged = L.taken log.old;
          logged_now = L.taken log.new;
          log_faults = L.faults log.old;
          log_faults_now = L.faults log.new;
          tolds = map (λ b. told b) deciders.new.items;
        })
        (log.new ≡ log.old) result }
    ensures kept { F.contents files.new ≡ F.contents files.old }
    ensures deciders { length deciders.new.items ≡ length deciders.old.items }
{
    match work_of(alloc, files, words) {
        Ok(Some(loaded)) => end_work(alloc, loaded, out, log, deciders),
        Ok(None) => put_usage(out),
        Err(Stop::Refused(line)) => put_refusal(&line, out),
        Err(Stop::ReadFault) => Ended::ReadFault,
        Err(Stop::Memory) => Ended::Memory,
    }
}

/// The command `compare [--conflicts C] COUNT ASKS CONFIG...`: the first COUNT configurations are the left network, the
/// others the right one. Prints for each ask of the file whether packets of its set that begin at its router have the same
/// fates in both, whatever stable routings the two have under one environment and one set of failed links, of which there
/// are as many as the ask allows. Each is searched for by learning at most C clauses, 1,000,000 where the words do not say
/// it. `same NAME` comes where they do; `different NAME` with two counterexamples on lines of their own, the left network's
/// and the right one's, of one packet, and with the first fate that one side alone has, `only left FATE` or
/// `only right FATE`; `unknown NAME after C conflicts` where C clauses were learnt without finding out. The log takes a
/// section of each ask, which shows what the search came to. Which words are the command is as `clap` reads them. The
/// deciders choose by turns what a search decides, and the answers are right whichever they are, and without any.
pub fn run_compare<F: Files, O: Sink, L: Sink>(
    alloc: Global,
    words: &[String],
    files: &mut F,
    out: &mut O,
    log: &mut L,
    deciders: &mut Vec<Box<dyn Decider>>,
) -> Ended
    // By how it ends: what was read, and what stands.
    ensures so { EndsSo comparing (F.contents files.old) (asked_of (map string_bytes words.now))
        (record {
          faults = F.faults files.old;
          faults_now = F.faults files.new;
          last = F.last_failed files.old;
          last_now = F.last_failed files.new;
        })
        (record {
          taken = O.taken out.old;
          taken_now = O.taken out.new;
          faults = O.faults out.old;
          faults_now = O.faults out.new;
          logged = L.taken log.old;
          logged_now = L.taken log.new;
          log_faults = L.faults log.old;
          log_faults_now = L.faults log.new;
          tolds = map (λ b. told b) deciders.new.items;
        })
        (log.new ≡ log.old) result }

    // Accepted words and files and no fault: every ask is answered, but for want of memory.
    ensures complete { IsAccepted comparing (F.contents files.old) (asked_of (map string_bytes words.now)) → NoFault
        (record {
          faults = F.faults files.old;
          faults_now = F.faults files.new;
          last = F.last_failed files.old;
          last_now = F.last_failed files.new;
        })
        (record {
          taken = O.taken out.old;
          taken_now = O.taken out.new;
          faults = O.faults out.old;
          faults_now = O.faults out.new;
          logged = L.taken log.old;
          logged_now = L.taken log.new;
          log_faults = L.faults log.old;
          log_faults_now = L.faults log.new;
          tolds = map (λ b. told b) deciders.new.items;
        }) → IsComplete result }
    ensures kept { F.contents files.new ≡ F.contents files.old }
    ensures deciders { length deciders.new.items ≡ length deciders.old.items }
{
    do_work(alloc, words, files, out, log, deciders)
}
