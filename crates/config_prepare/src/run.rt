//! A run: a file is read, made ready and written.

ghost use Rattle.std.specs.Prelude.{◌≡◌, ◌≢◌, ◌⊎◌, ◌≤◌, ◌<◌, ◌^◌, IfOk, length, map, string_bytes, option_map};
ghost use Rattle.mw_outside.specs.Faults.{Rose};
ghost use Rattle.mw_outside.specs.Contents.{Has, TellsOnly};
ghost use Rattle.mw_outside.specs.Reads.{OnFailed, UnlessFailed, OnTooLong};
ghost use Rattle.mw_outside.specs.Taken.{Takes, TakesPart};
ghost use Rattle.config_prepare.specs.Runs as runs;
ghost use Rattle.config_prepare.specs.Runs.{IsReady, Puts, PutsRefusal, PutsOther, names_in, asks_table, usage_text};

use crate::lines::{marks_of, pieces_of};
use crate::report::{report_text, table_text};
use crate::text::{joined, text_of};
use mw_outside::{Files, ReadRefused, Sink, read_whole};
use mw_text::List;
use std::alloc::{AllocError, Global};

/// How many bytes a configuration has at most.
pub const MOST_BYTES: u64 = 1_048_576;

/// How a run ends.
#[derive(Clone, Copy)]
pub enum Status {
    /// The text is written.
    Done,
    /// The words are no command.
    Usage,
    /// The file is refused.
    Refused,
    /// A read failed.
    ReadFault,
    /// A write failed.
    WriteFault,
    /// Memory is wanting.
    Memory,
}

/// The exit status.
pub fn number_of(status: Status) -> u8
    ensures { result ≡ runs.number_of status }
{
    match status {
        Status::Done => 0,
        Status::Usage => 3,
        Status::Refused => 4,
        Status::ReadFault => 5,
        Status::WriteFault => 6,
        Status::Memory => 7,
    }
}

/// A text that is made ready, and what is said of it.
#[derive(Drop)]
pub struct Prepared {
    pub text: List<u8>,
    pub report: List<u8>,
}

/// Makes a text ready: exactly the lines of kinds without an effect, with their blocks, become comments.
#[tactic(auto, using(crate::proofs::Steps::marks_fit))]
pub fn prepare(alloc: Global, bytes: &[u8]) -> Result<Prepared, AllocError>
    requires { length bytes.now < 2 ^ 32 }
    ensures { IfOk result (IsReady bytes.now) }
{
    let marks = marks_of(alloc, bytes)?;
    let lines = pieces_of(alloc, bytes)?;
    let text = text_of(alloc, lines.as_slice(), marks.as_slice())?;
    let report = report_text(alloc, marks.as_slice())?;
    Ok(Prepared { text, report })
}

/// Reads a file of at most 1,048,576 bytes, and makes its text ready.
pub fn prepare_file<F: Files>(
    alloc: Global,
    files: &mut F,
    name: &str,
) -> Result<Prepared, ReadRefused>
    ensures kept { F.contents files.new ≡ F.contents files.old }
    ensures ready { IfOk result (λ it. Has (F.contents files.old) name.now (λ file. IsReady file it)) }
    ensures too_long { OnTooLong result (Has (F.contents files.old) name.now (λ file. MOST_BYTES < length file)) }
    ensures cause { OnFailed result (Rose (F.faults files.old) (F.faults files.new)) }
    ensures stays { UnlessFailed result (F.faults files.new ≡ F.faults files.old) }
    ensures failed_name { OnFailed result (TellsOnly name.now (F.last_failed files.new)) }
    ensures name_stays { UnlessFailed result (F.last_failed files.new ≡ F.last_failed files.old) }
{
    let bytes = read_whole(alloc, files, name, MOST_BYTES)?;
    match prepare(alloc, bytes.as_slice()) {
        Ok(prepared) => Ok(prepared),
        Err(_) => Err(ReadRefused::Memory),
    }
}

/// The two names that the words are.
pub fn names_of(words: &[String]) -> Option<(&str, &str)>
    ensures { option_map (λ pair. (pair.0.now, pair.1.now)) result ≡ names_in (map string_bytes words.now) }
{
    match words {
        [from, to] => Some((from.as_str(), to.as_str())),
        _ => None,
    }
}

/// Whether the words ask for the table.
fn is_table_asked(words: &[String]) -> bool
    ensures { result ≡ asks_table (map string_bytes words.now) }
{
    match words {
        [word] => word.as_str() == "--table",
        _ => false,
    }
}

/// Writes a text, and ends so.
fn put<O: Sink>(text: &[u8], status: Status, out: &mut O) -> Status
    ensures { Puts (O.taken out.old) (O.taken out.new) (O.faults out.old) (O.faults out.new) text.now status result }
{
    match out.write(text) {
        Ok(()) => status,
        Err(_) => Status::WriteFault,
    }
}

/// Writes a text that is made ready into one sink, and then what is said of it into another.
pub fn put_prepared<T: Sink, O: Sink>(prepared: &Prepared, into: &mut T, out: &mut O) -> Status
    ensures done { result ≡ Status.Done → Takes (T.taken into.old) (T.taken into.new) prepared.now.text
        × Takes (O.taken out.old) (O.taken out.new) prepared.now.report
        × (T.faults into.new ≡ T.faults into.old) × (O.faults out.new ≡ O.faults out.old) }
    ensures fault { result ≢ Status.Done → (result ≡ Status.WriteFault)
        × (Rose (T.faults into.old) (T.faults into.new) ⊎ Rose (O.faults out.old) (O.faults out.new)) }
    ensures part { TakesPart (T.taken into.old) (T.taken into.new) prepared.now.text }
{
    match into.write(prepared.text.as_slice()) {
        Ok(()) => put(prepared.report.as_slice(), Status::Done, out),
        Err(_) => Status::WriteFault,
    }
}

/// The line of a file that is too long.
fn too_long_text(alloc: Global, name: &str) -> Result<List<u8>, AllocError>
    ensures { IfOk result (λ text. text ≡ runs.too_long_text name.now) }
{
    joined(alloc, &[b"refused ", name.as_bytes(), b":0 25 TooLong\n"])
}

/// Ends a run whose file was not read: with the line of a refusal, where it is one.
pub fn put_refused<O: Sink>(alloc: Global, name: &str, why: ReadRefused, out: &mut O) -> Status
    ensures { PutsRefusal (O.taken out.old) (O.taken out.new) (O.faults out.old) (O.faults out.new) name.now why result }
{
    match why {
        ReadRefused::Failed => Status::ReadFault,
        ReadRefused::Memory => Status::Memory,
        ReadRefused::TooLong => match too_long_text(alloc, name) {
            Ok(line) => put(line.as_slice(), Status::Refused, out),
            Err(_) => Status::Memory,
        },
    }
}

/// Ends a run whose words are no two names: with the table where they ask for it, else with the usage line.
pub fn put_other<O: Sink>(alloc: Global, words: &[String], out: &mut O) -> Status
    ensures { PutsOther (O.taken out.old) (O.taken out.new) (O.faults out.old) (O.faults out.new) (map string_bytes words.now) result }
{
    if !is_table_asked(words) {
        return put(
            b"usage: mw_prepare IN OUT, or mw_prepare --table\n",
            Status::Usage,
            out,
        );
    }
    match table_text(alloc) {
        Ok(table) => put(table.as_slice(), Status::Done, out),
        Err(_) => Status::Memory,
    }
}
