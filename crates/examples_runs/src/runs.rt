//! A run over files in memory.

use crate::files::{add_line, begin_file, copy_files};
use deciders::{Decider, OrderDecider, ScoreDecider};
use extra_commands::run_extra;
use mw_outside::{Files, TestFile, TestFiles, TestSink};
use mw_text::List;
use mw_verify::run;
use std::alloc::{AllocError, Global};
use std::io;

/// The numbers of the read, of the write of the output and of the write of the log that fail, or 0; and how many deciders
/// there are, of which the first follows scores and the second goes by the order of the variables.
#[derive(Clone, Copy)]
pub struct Setup {
    pub read: u64,
    pub write: u64,
    pub log: u64,
    pub deciders: u64,
}

impl Setup {
    /// Nothing fails, and there are two deciders.
    pub fn usual() -> Setup {
        Setup {
            read: 0,
            write: 0,
            log: 0,
            deciders: 2,
        }
    }
}

/// What is printed of a run beside its status.
#[derive(Clone, Copy)]
pub enum Shown {
    /// The output.
    Output,
    /// The output without its counterexamples.
    Verdicts,
    /// The output, and then the log.
    Log,
    /// The output, and the log is kept as a file.
    Kept,
    /// Nothing, and the output is kept as a file.
    Saved,
}

/// The words of a line.
pub fn words_of(alloc: Global, line: &str) -> Result<Vec<String>, AllocError> {
    let mut all = Vec::new(alloc);
    for word in line.split_whitespace() {
        all.push(String::from_str(alloc, word)?)?;
    }
    Ok(all)
}

fn lone(alloc: Global, number: u64) -> Result<List<u64>, AllocError> {
    let mut numbers = List::new(alloc);
    numbers.items.push(number)?;
    Ok(numbers)
}

/// Files of which that read fails.
pub fn contents_of(alloc: Global, files: &[TestFile], read: u64) -> io::Result<TestFiles> {
    let reads = lone(alloc, read)?;
    let files = copy_files(alloc, files)?;
    Ok(TestFiles::new(alloc, files, reads))
}

/// A sink of which that write fails.
pub fn sink(alloc: Global, write: u64) -> Result<TestSink, AllocError> {
    let writes = lone(alloc, write)?;
    TestSink::new(alloc, 10_000_000, writes)
}

/// Runs the words with so many deciders, and answers the status: where the first is `mw_extra` the second program takes
/// those behind it, and else the first program takes all. What the run leaves in the files and the sinks is looked at
/// afterwards, not said here.
pub fn status_of<F: Files>(
    alloc: Global,
    words: &[String],
    contents: &mut F,
    out: &mut TestSink,
    log: &mut TestSink,
    count: u64,
) -> Result<u8, AllocError> {
    let mut deciders: Vec<Box<dyn Decider>> = Vec::new(alloc);
    if count > 0 {
        deciders.push(Box::new(alloc, ScoreDecider::new(alloc))?)?;
    }
    if count > 1 {
        deciders.push(Box::new(alloc, OrderDecider::new())?)?;
    }
    if words.is_empty() || words[0].as_str() != "mw_extra" {
        let status = run(alloc, words, contents, out, log, &mut deciders);
        return Ok(mw_verify::number_of(status));
    }
    let (_, others) = words.split_at(1);
    let ended = run_extra(alloc, others, contents, out, log, &mut deciders);
    Ok(extra_commands::number_of(ended))
}

fn show_bytes(rt: &impl Print, bytes: &[u8]) -> io::Result<()> {
    match std::str::from_utf8(bytes) {
        Ok(text) => print!(rt; "{text}"),
        Err(_) => println!(rt; "no UTF-8"),
    }
}

fn show_lines(rt: &impl Print, text: &str) -> io::Result<()> {
    for line in text.lines() {
        if !line.starts_with('{') {
            println!(rt; "{line}")?;
        }
    }
    Ok(())
}

fn show_verdicts(rt: &impl Print, bytes: &[u8]) -> io::Result<()> {
    match std::str::from_utf8(bytes) {
        Ok(text) => show_lines(rt, text),
        Err(_) => println!(rt; "no UTF-8"),
    }
}

fn show_both(rt: &impl Print, out: &[u8], log: &[u8]) -> io::Result<()> {
    show_bytes(rt, out)?;
    show_bytes(rt, log)
}

fn show_taken(rt: &impl Print, out: &[u8], log: &[u8], shown: Shown) -> io::Result<()> {
    match shown {
        Shown::Output | Shown::Kept => show_bytes(rt, out),
        Shown::Verdicts => show_verdicts(rt, out),
        Shown::Log => show_both(rt, out, log),
        Shown::Saved => Ok(()),
    }
}

/// Prints a line, the status of its run and what is asked of the sinks.
pub fn show_result(
    rt: &impl Print,
    line: &str,
    status: u8,
    out: &[u8],
    log: &[u8],
    shown: Shown,
) -> io::Result<()> {
    println!(rt; "{line}: status {status}")?;
    show_taken(rt, out, log, shown)
}

fn show_sinks(
    rt: &(impl Print + AllocGlobal),
    contents: &mut TestFiles,
    setup: Setup,
    line: &str,
    shown: Shown,
) -> io::Result<TestSink> {
    let words = words_of(rt.alloc(), line)?;
    let mut out = sink(rt.alloc(), setup.write)?;
    let mut log = sink(rt.alloc(), setup.log)?;
    let (words, count) = (words.as_slice(), setup.deciders);
    let status = status_of(rt.alloc(), words, contents, &mut out, &mut log, count)?;
    show_result(rt, line, status, out.taken(), log.taken(), shown)?;
    match shown {
        Shown::Saved => Ok(out),
        _ => Ok(log),
    }
}

// Files with a counterexample as one more of them.
fn with_counterexample(
    alloc: Global,
    files: &[TestFile],
    text: &str,
) -> io::Result<List<TestFile>> {
    let mut all = copy_files(alloc, files)?;
    begin_file(alloc, &mut all, "counterexample.json")?;
    add_line(&mut all, text)?;
    Ok(all)
}

// The words `replay counterexample.json` with what stands behind `verify`.
fn replay_words(alloc: Global, names: &str) -> Result<String, AllocError> {
    let mut line = String::from_str(alloc, "replay counterexample.json ")?;
    line.push_str(names)?;
    Ok(line)
}

fn replay_one(
    rt: &(impl Print + AllocGlobal),
    files: &[TestFile],
    names: &str,
    text: &str,
) -> io::Result<()> {
    let line = replay_words(rt.alloc(), names)?;
    let all = with_counterexample(rt.alloc(), files, text)?;
    show_run(
        rt,
        all.as_slice(),
        Setup::usual(),
        line.as_str(),
        Shown::Output,
    )?;
    Ok(())
}

fn replay_lines(
    rt: &(impl Print + AllocGlobal),
    files: &[TestFile],
    names: &str,
    text: &str,
) -> io::Result<()> {
    for line in text.lines() {
        if line.starts_with('{') {
            replay_one(rt, files, names, line)?;
        }
    }
    Ok(())
}

fn show_then_replay(
    rt: &(impl Print + AllocGlobal),
    files: &[TestFile],
    names: &str,
    status: u8,
    out: &[u8],
) -> io::Result<()> {
    println!(rt; "verify {names}: status {status}")?;
    show_verdicts(rt, out)?;
    match std::str::from_utf8(out) {
        Ok(text) => replay_lines(rt, files, names, text),
        Err(_) => println!(rt; "no UTF-8"),
    }
}

fn verify_words(alloc: Global, names: &str) -> Result<String, AllocError> {
    let mut line = String::from_str(alloc, "verify ")?;
    line.push_str(names)?;
    Ok(line)
}

/// Runs `verify` with these names, prints its verdicts, and then what `replay` says of each counterexample.
pub fn show_replayed(
    rt: &(impl Print + AllocGlobal),
    files: &[TestFile],
    names: &str,
) -> io::Result<()> {
    let mut contents = contents_of(rt.alloc(), files, 0)?;
    let line = verify_words(rt.alloc(), names)?;
    let words = words_of(rt.alloc(), line.as_str())?;
    let mut out = sink(rt.alloc(), 0)?;
    let mut log = sink(rt.alloc(), 0)?;
    let status = status_of(
        rt.alloc(),
        words.as_slice(),
        &mut contents,
        &mut out,
        &mut log,
        2,
    )?;
    show_then_replay(rt, files, names, status, out.taken())
}

/// Runs the words of a line, prints the status and what is asked of the output and the log, and answers what can be kept:
/// the output where it is saved, and else the log.
pub fn show_run(
    rt: &(impl Print + AllocGlobal),
    files: &[TestFile],
    setup: Setup,
    line: &str,
    shown: Shown,
) -> io::Result<TestSink> {
    let mut contents = contents_of(rt.alloc(), files, setup.read)?;
    show_sinks(rt, &mut contents, setup, line, shown)
}
