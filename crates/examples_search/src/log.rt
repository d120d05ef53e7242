//! Lines of a log, and a checker that reads them.

use crate::printed::{first_word, show_bytes};
use resolution_check::{Checker, read_entry, write_entry};
use std::io;

/// Prints the text of the entry that a line is, or why it is none.
fn show_line(rt: &(impl Print + AllocGlobal), line: &str) -> io::Result<()> {
    match read_entry(rt.alloc(), line.as_bytes()) {
        Ok(entry) => {
            show_bytes(rt, write_entry(rt.alloc(), &entry)?.as_slice())?;
            println!(rt; "")
        }
        Err(refused) => println!(rt; "{refused}"),
    }
}

/// Hands the checker the entry that a line is, and prints whether it takes it.
fn step(rt: &(impl Print + AllocGlobal), checker: &mut Checker, line: &str) -> io::Result<()> {
    match read_entry(rt.alloc(), line.as_bytes()) {
        Ok(entry) => match checker.step(entry) {
            Ok(()) => println!(rt; "taken"),
            Err(bad) => println!(rt; "{bad}"),
        },
        Err(refused) => println!(rt; "{refused}"),
    }
}

/// `new` begins with a new checker, `line` reads a line and writes it again, `entry` hands it to the checker, and
/// `verdict` prints whether the empty clause was added, and how many additions there were.
pub fn take(rt: &(impl Print + AllocGlobal), checker: &mut Checker, order: &str) -> io::Result<()> {
    let (word, line) = first_word(order);
    match word {
        "line" => show_line(rt, line),
        "entry" => step(rt, checker, line),
        "verdict" => {
            println!(rt;
                "refuted: {}, additions: {}",
                checker.refuted(),
                checker.added()
            )
        }
        _ => {
            *checker = Checker::new(rt.alloc());
            Ok(())
        }
    }
}
