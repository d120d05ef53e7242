//! Runs a script of whole runs over files in memory, and prints the status and the output of each.
//!
//! `%file NAME` begins a file, in the place of an earlier one of that name, and its lines follow; `%clear` forgets all files.
//! `%raw TEXT` adds a text to the last file in which `|` is the end of a line, `~` a carriage return and `^` a byte 0;
//! `%pad N` adds `!` up to so many bytes. `%run WORDS` runs these words; `%verdicts WORDS` leaves out the lines of
//! counterexamples, `%logged WORDS` prints the log as well, `%kept WORDS` keeps it as the file `k.log`, and `%saved WORDS`
//! keeps the output as the file `t.log` in place of printing it. Words behind `mw_extra` are the second program's. Before
//! it `%read N`, `%write N` and `%log N` say that its Nth read, write of the output and write of the log fails, and
//! `%deciders N` that it has so many deciders in the place of two. `%replayed NAMES` runs `verify` with these names, and
//! then `replay` of each counterexample. `%slowly WORDS` runs these words over files that give one byte a read.
//! `%reads WORDS`, `%writes WORDS` and `%logs WORDS` run them again and again, of which the first read, write of the output
//! or write of the log fails, then the second, and so on until a run meets no fault, and print each that left what it
//! should not. `% TEXT` is printed.
#![tactic(auto)]

mod failing;
mod files;
mod runs;
mod slow;

use crate::failing::{Failing, show_faults};
use crate::files::{add_line, add_raw, begin_file, keep_bytes, pad};
use crate::runs::{Setup, Shown, show_replayed, show_run};
use crate::slow::show_slowly;
use mw_outside::TestFile;
use mw_text::List;
use std::io;

/// The files so far, and what is otherwise in the next run.
#[derive(Drop)]
struct Case {
    files: List<TestFile>,
    setup: Setup,
}

fn number(word: &str) -> u64 {
    word.parse::<u64>().unwrap_or(0)
}

fn run_next(
    rt: &(impl Print + AllocGlobal),
    case: &mut Case,
    words: &str,
    shown: Shown,
) -> io::Result<()> {
    let setup = case.setup;
    case.setup = Setup::usual();
    let left = show_run(rt, case.files.as_slice(), setup, words, shown)?;
    match shown {
        Shown::Kept => keep_bytes(rt.alloc(), &mut case.files, "k.log", left.taken()),
        Shown::Saved => keep_bytes(rt.alloc(), &mut case.files, "t.log", left.taken()),
        _ => Ok(()),
    }
}

// What an order that needs no memory says of the files and of the next run.
fn set(case: &mut Case, word: &str, count: u64) {
    match word {
        "clear" => case.files.items.clear(),
        "read" => case.setup.read = count,
        "write" => case.setup.write = count,
        "log" => case.setup.log = count,
        "deciders" => case.setup.deciders = count,
        _ => {}
    }
}

// An order for more runs than one, or for one over other files.
fn take_more(
    rt: &(impl Print + AllocGlobal),
    case: &mut Case,
    word: &str,
    rest: &str,
) -> io::Result<()> {
    match word {
        "replayed" => show_replayed(rt, case.files.as_slice(), rest),
        "slowly" => show_slowly(rt, case.files.as_slice(), rest),
        "reads" => show_faults(rt, case.files.as_slice(), Failing::Read, rest),
        "writes" => show_faults(rt, case.files.as_slice(), Failing::Write, rest),
        "logs" => show_faults(rt, case.files.as_slice(), Failing::Log, rest),
        _ => {
            set(case, word, number(rest));
            Ok(())
        }
    }
}

fn take_order(
    rt: &(impl Print + AllocGlobal),
    case: &mut Case,
    word: &str,
    rest: &str,
) -> io::Result<()> {
    match word {
        "" => println!(rt; "% {rest}"),
        "file" => begin_file(rt.alloc(), &mut case.files, rest),
        "raw" => add_raw(&mut case.files, rest),
        "pad" => pad(&mut case.files, number(rest)),
        "run" => run_next(rt, case, rest, Shown::Output),
        "verdicts" => run_next(rt, case, rest, Shown::Verdicts),
        "logged" => run_next(rt, case, rest, Shown::Log),
        "kept" => run_next(rt, case, rest, Shown::Kept),
        "saved" => run_next(rt, case, rest, Shown::Saved),
        _ => take_more(rt, case, word, rest),
    }
}

fn take_line(rt: &(impl Print + AllocGlobal), case: &mut Case, line: &str) -> io::Result<()> {
    match line.strip_prefix('%') {
        Some(order) => {
            let (word, rest) = order.split_once(' ').unwrap_or((order, ""));
            take_order(rt, case, word, rest)
        }
        None => add_line(&mut case.files, line),
    }
}

fn read_script(rt: &(impl Input + Print + AllocGlobal), case: &mut Case) -> io::Result<()> {
    for line in rt.lines(rt.alloc()) {
        take_line(rt, case, line?.as_str())?;
    }
    Ok(())
}

fn main(rt: HostRuntime) -> io::Result<()> {
    let mut case = Case {
        files: List::new(rt.alloc()),
        setup: Setup::usual(),
    };
    read_script(&rt, &mut case)
}
