//! The whole command.

ghost use Rattle.std.specs.Prelude.{◌≡◌, ℕ, List as ListOf, Option as OptionOf, length, map, string_bytes};
ghost use Rattle.mw_outside.specs.Contents.{Contents};
ghost use Rattle.log_trim.specs.Texts.{usage_text};
ghost use Rattle.log_trim.specs.Running.{EndsSo, WorksSo, Reads};
ghost use Rattle.log_trim.specs.Printing.{PrintsSo};

use crate::work::{Work, work_of};
use deciders::Decider;
use mw_load::Ended;
use mw_outside::{Files, Sink};
use std::alloc::Global;

const USAGE: &[u8] = b"usage: mw_extra advert, compare, least or trim\n";

// Prints the text, and ends so where that does not fail.
fn put<O: Sink>(out: &mut O, text: &[u8], ended: Ended) -> Ended
    ensures { PrintsSo (O.taken out.old) (O.taken out.new) (O.faults out.old) (O.faults out.new) text.now ended result }
{
    match out.write(text) {
        Ok(()) => ended,
        Err(_) => Ended::WriteFault,
    }
}

/// Prints the line of usage of the program.
pub fn put_usage<O: Sink>(out: &mut O) -> Ended
    ensures { PrintsSo (O.taken out.old) (O.taken out.new) (O.faults out.old) (O.faults out.new) usage_text Ended.Usage result }
{
    put(out, USAGE, Ended::Usage)
}

// Prints what the words come to.
fn put_work<O: Sink>(work: Work, out: &mut O) -> Ended
    ensures { (told : OptionOf Contents) → (words : ListOf (ListOf ℕ)) → (r : Reads) → WorksSo told words r work →
        EndsSo told words r (record {
          taken = O.taken out.old;
          taken_now = O.taken out.new;
          faults = O.faults out.old;
          faults_now = O.faults out.new;
        }) result }
{
    match work {
        Work::Usage => put_usage(out),
        Work::Refused(line) => put(out, line.as_slice(), Ended::Refused),
        Work::Trimmed(text) => put(out, text.as_slice(), Ended::Good),
        Work::ReadFault => Ended::ReadFault,
        Work::Memory => Ended::Memory,
    }
}

/// The command `trim LOG` over files and an output alone.
pub fn trim_words<F: Files, O: Sink>(
    alloc: Global,
    words: &[String],
    files: &mut F,
    out: &mut O,
) -> Ended
    // By how it ends: what was read, and what stands.
    ensures so { EndsSo (F.contents files.old) (map string_bytes words.now)
        (record {
          faults = F.faults files.old;
          faults_now = F.faults files.new;
          last = F.last_failed files.old;
          last_now = F.last_failed files.new;
        })
        (record {
          taken = O.taken out.old;
          taken_now = O.taken out.new;
          faults = O.faults out.old;
          faults_now = O.faults out.new;
        }) result }
    ensures kept { F.contents files.new ≡ F.contents files.old }
{
    put_work(work_of(alloc, files, words), out)
}

/// The command `trim LOG`: reads the log, of at most 268,435,456 bytes, and prints its trimmed form, section by section.
/// The whole log is tested before anything is printed; a log that is not one is refused at its first line that is wrong.
/// Which words are the command is as `clap` reads them. Nothing is logged.
pub fn run_trim<F: Files, O: Sink, L: Sink>(
    alloc: Global,
    words: &[String],
    files: &mut F,
    out: &mut O,
    log: &mut L,
    deciders: &mut Vec<Box<dyn Decider>>,
) -> Ended
    // By how it ends: what was read, and what stands.
    ensures so { EndsSo (F.contents files.old) (map string_bytes words.now)
        (record {
          faults = F.faults files.old;
          faults_now = F.faults files.new;
          last = F.last_failed files.old;
          last_now = F.last_failed files.new;
        })
        (record {
          taken = O.taken out.old;
          taken_now = O.taken out.new;
          faults = O.faults out.old;
          faults_now = O.faults out.new;
        }) result }
    ensures kept { F.contents files.new ≡ F.contents files.old }
    ensures not_logged { log.new ≡ log.old }
    ensures deciders { length deciders.new.items ≡ length deciders.old.items }
{
    trim_words(alloc, words, files, out)
}
