//! The whole run of the second program.

ghost use Rattle.std.specs.Prelude.{◌≡◌, length, map, string_bytes};
ghost use Rattle.extra_commands.specs.Commands as commands;
ghost use Rattle.extra_commands.specs.Running.{Runs};

use crate::advert::advert_words;
use crate::commands::{Command, command_of};
use crate::compare::compare_pair;
use crate::least::least_words;
use deciders::Decider;
use log_trim::{put_usage, trim_words};
use mw_load::Ended;
use mw_outside::{Files, Sink};
use std::alloc::Global;

/// The whole run of the second program: hands the words to the call of their first word, `advert ASKS CONFIG...`,
/// `compare COUNT ASKS CONFIG...`, `least QUESTIONS CONFIG...` or `trim LOG`. Where that is none, the line of usage is
/// printed, and nothing is read or logged.
pub fn run_extra<F: Files, O: Sink, L: Sink>(
    alloc: Global,
    words: &[String],
    files: &mut F,
    out: &mut O,
    log: &mut L,
    deciders: &mut Vec<Box<dyn Decider>>,
) -> Ended
    ensures runs { Runs (commands.command_of (map string_bytes words.now))
        (record {
          told = F.contents files.old;
          words = map string_bytes words.now;
          reads = record {
            faults = F.faults files.old;
            faults_now = F.faults files.new;
            last = F.last_failed files.old;
            last_now = F.last_failed files.new;
          };
          writes = record {
            taken = O.taken out.old;
            taken_now = O.taken out.new;
            faults = O.faults out.old;
            faults_now = O.faults out.new;
            logged = L.taken log.old;
            logged_now = L.taken log.new;
            log_faults = L.faults log.old;
            log_faults_now = L.faults log.new;
            tolds = map (λ b. told b) deciders.new.items;
          };
        })
        (log.new ≡ log.old) result }
    ensures kept { F.contents files.new ≡ F.contents files.old }
    ensures deciders { length deciders.new.items ≡ length deciders.old.items }
{
    match command_of(words) {
        Command::Advert => advert_words(alloc, words, files, out, log, deciders),
        Command::Compare => compare_pair(alloc, words, files, out, log, deciders),
        Command::Least => least_words(alloc, words, files, out, log, deciders),
        Command::Trim => trim_words(alloc, words, files, out),
        Command::Unknown => put_usage(out),
    }
}
