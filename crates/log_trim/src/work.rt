//! Reads the log and trims it.

ghost use Rattle.std.specs.Prelude.{◌≡◌, ◌≤◌, Ok, length, map, string_bytes};
ghost use Rattle.log_trim.specs.Due as due;
ghost use Rattle.log_trim.specs.Running.{WorksSo};
ghost use Rattle.log_trim.specs.Texts as texts;
ghost use Rattle.log_trim.specs.Bytes.{BecomesOf, LogWorksSo, OnRefused};
ghost use Rattle.trimmed_logs.specs.Logs.{sections_in};

use crate::causes::{cause_number, cause_words};
use crate::words::log_name;
use log_checker::Cause;
use mw_load::refusal_text;
use mw_outside::{Files, ReadRefused, read_whole};
use mw_text::List;
use std::alloc::{AllocError, Global};
use trimmed_logs::{Answer, trim_log};

/// How many bytes a log has at most.
pub const MOST_BYTES: u64 = 268_435_456;

/// What the words and the log that they name come to.
#[derive(Drop)]
pub enum Work {
    /// The words are no command.
    Usage,
    /// The log is refused, with this line.
    Refused(List<u8>),
    /// This is its trimmed form.
    Trimmed(List<u8>),
    /// A read failed.
    ReadFault,
    /// Memory was refused.
    Memory,
}

// A refusal with that line.
fn refused_with(line: Result<List<u8>, AllocError>) -> Work
    ensures { OnRefused result (λ printed. line ≡ Ok printed) }
{
    match line {
        Ok(line) => Work::Refused(line),
        Err(_) => Work::Memory,
    }
}

// A line of the log is wrong.
fn wrong_line(alloc: Global, name: &str, line: u32, cause: &Cause) -> Work
    ensures { OnRefused result (λ printed. printed ≡ texts.log_refused name.now (record { line = line; cause = cause.now })) }
{
    refused_with(refusal_text(alloc, name, line, cause_number(cause), cause_words(cause)))
}

// The log has too many bytes.
fn too_long(alloc: Global, name: &str) -> Work
    ensures { OnRefused result (λ printed. printed ≡ texts.log_too_long name.now) }
{
    refused_with(refusal_text(alloc, name, 0, 25, b"TooLong"))
}

// What the bytes of the log come to.
fn trim_bytes(alloc: Global, name: &str, bytes: &[u8]) -> Work
    requires { length bytes.now ≤ MOST_BYTES }
    ensures { BecomesOf (due.read_as name.now (sections_in bytes.now)) result }
{
    match trim_log(alloc, bytes) {
        Ok(Answer::Trimmed(text)) => Work::Trimmed(text),
        Ok(Answer::Wrong { line, cause }) => wrong_line(alloc, name, line as u32, &cause),
        Err(_) => Work::Memory,
    }
}

// What the log of that name comes to.
fn log_work<F: Files>(alloc: Global, files: &mut F, name: &str) -> Work
    ensures kept { F.contents files.new ≡ F.contents files.old }
    ensures so { LogWorksSo (F.contents files.old) name.now (record {
      faults = F.faults files.old;
      faults_now = F.faults files.new;
      last = F.last_failed files.old;
      last_now = F.last_failed files.new;
    }) result }
{
    match read_whole(alloc, files, name, MOST_BYTES) {
        Ok(bytes) => trim_bytes(alloc, name, bytes.as_slice()),
        Err(ReadRefused::TooLong) => too_long(alloc, name),
        Err(ReadRefused::Failed) => Work::ReadFault,
        Err(ReadRefused::Memory) => Work::Memory,
    }
}

/// What the words come to.
pub fn work_of<F: Files>(alloc: Global, files: &mut F, words: &[String]) -> Work
    ensures kept { F.contents files.new ≡ F.contents files.old }
    ensures so { WorksSo (F.contents files.old) (map string_bytes words.now) (record {
      faults = F.faults files.old;
      faults_now = F.faults files.new;
      last = F.last_failed files.old;
      last_now = F.last_failed files.new;
    }) result }
{
    match log_name(alloc, words) {
        Ok(Some(name)) => log_work(alloc, files, name),
        Ok(None) => Work::Usage,
        Err(_) => Work::Memory,
    }
}
