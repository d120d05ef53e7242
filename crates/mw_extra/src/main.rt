//! The second program: it hands the words, the files of the machine, the standard output and the log to `run_extra`.
#![tactic(auto)]

use deciders::{Decider, OrderDecider, ScoreDecider};
use extra_commands::{Ended, number_of, run_extra};
use mw_outside::{DirFiles, FileSink, NoSink, OutSink, Sink};
use std::alloc::{AllocError, Global};
use std::process::ExitCode;
use std::rt::Env;
use std::{env, io};

// The words after the program's name. A word that is not UTF-8 makes the whole line no command.
fn words_of(rt: &(impl Env + AllocGlobal)) -> Result<Vec<String>, Ended> {
    let alloc: Global = rt.alloc();
    match env::args(rt) {
        Ok(args) => args.skip(1).collect(alloc).map_err(|_| Ended::Memory),
        Err(error) if error.kind() == io::ErrorKind::OutOfMemory => Err(Ended::Memory),
        Err(_) => Ok(Vec::new(alloc)),
    }
}

// Of the deciders one goes by the order of the variables, and one follows scores.
fn run_with<L: Sink>(rt: HostRuntime, words: &[String], log: &mut L) -> Result<Ended, AllocError> {
    let alloc: Global = rt.alloc();
    let mut deciders: Vec<Box<dyn Decider>> = Vec::new(alloc);
    deciders.push(Box::new(alloc, OrderDecider::new())?)?;
    deciders.push(Box::new(alloc, ScoreDecider::new(alloc))?)?;
    Ok(run_extra(
        alloc,
        words,
        &mut DirFiles::new(rt),
        &mut OutSink::new(rt.stdout()),
        log,
        &mut deciders,
    ))
}

// Where the first two words are `--log NAME` the log is that file, which is created.
fn run_words(rt: HostRuntime, words: &[String]) -> Result<Ended, AllocError> {
    if words.len() < 2 || words[0].as_str() != "--log" {
        return run_with(rt, words, &mut NoSink::new());
    }
    let (_, others) = words.split_at(2);
    match FileSink::new(&rt, words[1].as_str()) {
        Ok(mut log) => run_with(rt, others, &mut log),
        Err(_) => Ok(Ended::WriteFault),
    }
}

fn main(rt: HostRuntime) -> ExitCode {
    let ended = match words_of(&rt) {
        Err(ended) => ended,
        Ok(words) => run_words(rt, words.as_slice()).unwrap_or(Ended::Memory),
    };
    ExitCode::from(number_of(ended))
}
