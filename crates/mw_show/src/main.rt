//! The program: it hands the words, the files of the machine and the standard output to `run`.
#![tactic(auto)]

use mw_outside::{DirFiles, OutSink};
use run_answers::{Status, number_of};
use show_run::run;
use std::alloc::Global;
use std::process::ExitCode;
use std::rt::Env;
use std::{env, io};

// The words after the program's name. A word that is not UTF-8 makes the whole line no command.
fn words_of(rt: &(impl Env + AllocGlobal)) -> Result<Vec<String>, Status> {
    let alloc: Global = rt.alloc();
    match env::args(rt) {
        Ok(args) => args.skip(1).collect(alloc).map_err(|_| Status::Memory),
        Err(error) if error.kind() == io::ErrorKind::OutOfMemory => Err(Status::Memory),
        Err(_) => Ok(Vec::new(alloc)),
    }
}

fn run_words(rt: HostRuntime, words: &[String]) -> Status {
    let alloc: Global = rt.alloc();
    run(
        alloc,
        words,
        &mut DirFiles::new(rt),
        &mut OutSink::new(rt.stdout()),
    )
}

fn main(rt: HostRuntime) -> ExitCode {
    let status = match words_of(&rt) {
        Err(status) => status,
        Ok(words) => run_words(rt, words.as_slice()),
    };
    ExitCode::from(number_of(status))
}
