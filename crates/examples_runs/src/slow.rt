//! Files that give one byte a read.

ghost use Rattle.std.specs.Prelude.{◌≡◌, ◌-◌, ◌^◌, ◌<◌, ◌≤◌, ◌↔◌, length, take, drop, Option as OptionOf, IfOk, OnOk, OnErr};

use crate::runs::{Setup, Shown, contents_of, show_result, sink, status_of, words_of};
use mw_outside::{Failed, Files, TestFile, TestFiles};
use std::io;

/// Files in memory of which each read asks for one byte.
#[derive(Drop)]
struct SlowFiles {
    files: TestFiles,
}

impl Files for SlowFiles {
    ghost use Rattle.mw_outside.specs.Faults.{HasCause};
    ghost use Rattle.mw_outside.specs.Contents.{Has, TellsOnly};

    ghost contents = { λ slow. ⟦<TestFiles as Files>⟧.contents slow.files };

    ghost faults = { λ slow. ⟦<TestFiles as Files>⟧.faults slow.files };

    ghost last_failed = { λ slow. ⟦<TestFiles as Files>⟧.last_failed slow.files };

    fn read_at(&mut self, name: &str, at: u64, into: &mut [u8]) -> Result<usize, Failed> {
        let most = into.len().min(1);
        self.files.read_at(name, at, &mut into[..most])
    }
}

/// Runs the words of a line over such files, and prints the status and the output.
pub fn show_slowly(
    rt: &(impl Print + AllocGlobal),
    files: &[TestFile],
    line: &str,
) -> io::Result<()> {
    let mut slow = SlowFiles {
        files: contents_of(rt.alloc(), files, 0)?,
    };
    let words = words_of(rt.alloc(), line)?;
    let mut out = sink(rt.alloc(), 0)?;
    let mut log = sink(rt.alloc(), 0)?;
    let count = Setup::usual().deciders;
    let status = status_of(
        rt.alloc(),
        words.as_slice(),
        &mut slow,
        &mut out,
        &mut log,
        count,
    )?;
    show_result(rt, line, status, out.taken(), log.taken(), Shown::Output)
}
