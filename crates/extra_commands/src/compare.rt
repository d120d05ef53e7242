//! The command `compare` by its two halves: what is read for it, and what is answered.
//!
//! The call `run_compare` is these two in a row. Here they stand one after the other once more, since a call that reads words
//! makes boxed values of its own, and one that takes the deciders must call none such in another crate.

ghost use Rattle.std.specs.Prelude.{◌≡◌, length, map, string_bytes};
ghost use Rattle.asked_files.specs.Ending.{IsComplete, NoFault};
ghost use Rattle.asked_files.specs.Running.{EndsSo, IsAccepted};
ghost use Rattle.compare_words.specs.Words.{asked_of};
ghost use Rattle.net_compare.specs.Running.{comparing};

use asked_files::put_refusal;
use compare_files::work_of;
use deciders::Decider;
use log_trim::put_usage;
use mw_load::Ended;
use mw_outside::{Files, Sink};
use net_compare::running::end_work;
use run_inputs::Stop;
use std::alloc::Global;

// Reads what the words ask for, answers it, and prints the answers.
fn do_compare<F: Files, O: Sink, L: Sink>(
    alloc: Global,
    words: &[String],
    files: &mut F,
    out: &mut O,
    log: &mut L,
    deciders: &mut Vec<Box<dyn Decider>>,
) -> Ended
    ensures so { EndsSo comparing (F.contents files.old) (asked_of (map string_bytes words.now))
        (record {
          faults = F.faults files.old;
          faults_now = F.faults files.new;
          last = F.last_failed files.old;
          last_now = F.last_failed files.new;
        })
        (record {
          taken = O.taken out.old;
          taken_now = O.taken out.new;
          faults = O.faults out.old;
          faults_now = O.faults out.new;
          logged = L.taken log.old;
          logged_now = L.taken log.new;
          log_faults = L.faults log.old;
          log_faults_now = L.faults log.new;
          tolds = map (λ b. told b) deciders.new.items;
        })
        (log.new ≡ log.old) result }
    ensures kept { F.contents files.new ≡ F.contents files.old }
    ensures deciders { length deciders.new.items ≡ length deciders.old.items }
{
    match work_of(alloc, files, words) {
        Ok(Some(loaded)) => end_work(alloc, loaded, out, log, deciders),
        Ok(None) => put_usage(out),
        Err(Stop::Refused(line)) => put_refusal(&line, out),
        Err(Stop::ReadFault) => Ended::ReadFault,
        Err(Stop::Memory) => Ended::Memory,
    }
}

/// The command `compare`, as `net_compare::run_compare` has it.
pub fn compare_pair<F: Files, O: Sink, L: Sink>(
    alloc: Global,
    words: &[String],
    files: &mut F,
    out: &mut O,
    log: &mut L,
    deciders: &mut Vec<Box<dyn Decider>>,
) -> Ended
    // By how it ends: what was read, and what stands.
    ensures so { EndsSo comparing (F.contents files.old) (asked_of (map string_bytes words.now))
        (record {
          faults = F.faults files.old;
          faults_now = F.faults files.new;
          last = F.last_failed files.old;
          last_now = F.last_failed files.new;
        })
        (record {
          taken = O.taken out.old;
          taken_now = O.taken out.new;
          faults = O.faults out.old;
          faults_now = O.faults out.new;
          logged = L.taken log.old;
          logged_now = L.taken log.new;
          log_faults = L.faults log.old;
          log_faults_now = L.faults log.new;
          tolds = map (λ b. told b) deciders.new.items;
        })
        (log.new ≡ log.old) result }

    // Accepted words and files and no fault: every ask is answered, but for want of memory.
    ensures complete { IsAccepted comparing (F.contents files.old) (asked_of (map string_bytes words.now)) → NoFault
        (record {
          faults = F.faults files.old;
          faults_now = F.faults files.new;
          last = F.last_failed files.old;
          last_now = F.last_failed files.new;
        })
        (record {
          taken = O.taken out.old;
          taken_now = O.taken out.new;
          faults = O.faults out.old;
          faults_now = O.faults out.new;
          logged = L.taken log.old;
          logged_now = L.taken log.new;
          log_faults = L.faults log.old;
          log_faults_now = L.faults log.new;
          tolds = map (λ b. told b) deciders.new.items;
        }) → IsComplete result }
    ensures kept { F.contents files.new ≡ F.contents files.old }
    ensures deciders { length deciders.new.items ≡ length deciders.old.items }
{
    do_compare(alloc, words, files, out, log, deciders)
}
