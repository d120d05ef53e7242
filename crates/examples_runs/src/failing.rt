//! Runs of which one call after another fails.

use crate::runs::{Setup, contents_of, sink, status_of, words_of};
use mw_outside::{TestFile, TestSink};
use std::alloc::Global;
use std::io;

/// Which calls fail.
#[derive(Clone, Copy)]
pub enum Failing {
    /// Reads of files.
    Read,
    /// Writes of the output.
    Write,
    /// Writes of the log.
    Log,
}

/// No run has so many calls of one kind.
const MOST_CALLS: u64 = 100_000;

/// What a run left: its status, and what its sinks took.
#[derive(Drop)]
struct Left {
    status: u8,
    out: TestSink,
    log: TestSink,
}

fn setup_for(failing: Failing, call: u64) -> Setup {
    let mut setup = Setup::usual();
    match failing {
        Failing::Read => setup.read = call,
        Failing::Write => setup.write = call,
        Failing::Log => setup.log = call,
    }
    setup
}

fn left_by(alloc: Global, files: &[TestFile], setup: Setup, line: &str) -> io::Result<Left> {
    let mut contents = contents_of(alloc, files, setup.read)?;
    let words = words_of(alloc, line)?;
    let mut out = sink(alloc, setup.write)?;
    let mut log = sink(alloc, setup.log)?;
    let (words, count) = (words.as_slice(), setup.deciders);
    let status = status_of(alloc, words, &mut contents, &mut out, &mut log, count)?;
    Ok(Left { status, out, log })
}

// After a read that failed nothing is printed or logged; after a write that failed fronts stand of what a run without a
// fault prints and logs.
fn is_as_due(failing: Failing, left: &Left, whole: &Left) -> bool {
    let (out, log) = (left.out.taken(), left.log.taken());
    match failing {
        Failing::Read => left.status == 5 && out.is_empty() && log.is_empty(),
        _ => {
            left.status == 6
                && whole.out.taken().starts_with(out)
                && whole.log.taken().starts_with(log)
        }
    }
}

fn name_of(failing: Failing) -> &'static str {
    match failing {
        Failing::Read => "reads",
        Failing::Write => "writes of the output",
        Failing::Log => "writes of the log",
    }
}

/// Runs the words of a line with the first call of that kind failing, then the second, and so on until a run ends as one
/// without a fault does. Prints each that left what it should not, and that this was the last.
pub fn show_faults(
    rt: &(impl Print + AllocGlobal),
    files: &[TestFile],
    failing: Failing,
    line: &str,
) -> io::Result<()> {
    let whole = left_by(rt.alloc(), files, Setup::usual(), line)?;
    for call in 1..MOST_CALLS {
        let left = left_by(rt.alloc(), files, setup_for(failing, call), line)?;
        if left.status == whole.status {
            return match call {
                1 => println!(rt; "{line}: no {}", name_of(failing)),
                _ => println!(rt; "{line}: each of the {} failed once", name_of(failing)),
            };
        }
        if !is_as_due(failing, &left, &whole) {
            println!(rt;
                "{line}: {} {call} leaves what it should not",
                name_of(failing)
            )?;
        }
    }
    println!(rt; "{line}: the {} have no end", name_of(failing))
}
