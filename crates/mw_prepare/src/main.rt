//! The program: it hands the words, the files of the machine, the file that is written and the standard output on.
#![tactic(auto)]

use config_prepare::run::{names_of, prepare_file, put_other, put_prepared, put_refused};
use config_prepare::{Status, number_of};
use mw_outside::{DirFiles, FileSink, OutSink};
use std::alloc::Global;
use std::process::ExitCode;
use std::rt::Env;
use std::{env, io};

// The words after the program's name. A word that is not UTF-8 makes the whole line no command.
fn words_of(rt: &(impl Env + AllocGlobal)) -> Result<Vec<String>, Status> {
    let alloc: Global = rt.alloc();
    match env::args(rt) {
        Ok(args) => args.skip(1).collect(alloc).map_err(|_| Status::Memory),
        Err(error) if error.kind() == io::ErrorKind::OutOfMemory => Err(Status::Memory),
        Err(_) => Ok(Vec::new(alloc)),
    }
}

// Nothing is written before the file was read whole, so that both names may be one.
fn run_with(rt: HostRuntime, from: &str, to: &str) -> Status {
    let alloc: Global = rt.alloc();
    let mut out = OutSink::new(rt.stdout());
    let prepared = match prepare_file(alloc, &mut DirFiles::new(rt), from) {
        Ok(prepared) => prepared,
        Err(why) => return put_refused(alloc, from, why, &mut out),
    };
    match FileSink::new(&rt, to) {
        Ok(mut into) => put_prepared(&prepared, &mut into, &mut out),
        Err(_) => Status::WriteFault,
    }
}

fn run_words(rt: HostRuntime, words: &[String]) -> Status {
    match names_of(words) {
        Some((from, to)) => run_with(rt, from, to),
        None => put_other(rt.alloc(), words, &mut OutSink::new(rt.stdout())),
    }
}

fn main(rt: HostRuntime) -> ExitCode {
    let status = match words_of(&rt) {
        Err(status) => status,
        Ok(words) => run_words(rt, words.as_slice()),
    };
    ExitCode::from(number_of(status))
}
