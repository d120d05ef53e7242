//! The whole run of the program.

ghost use Rattle.std.specs.Prelude.{◌≡◌, ◌≢◌, ◌⊎◌, IfOk, IfErr, IfSome, Err, map, string_bytes};
ghost use Rattle.mw_text.specs.Reading.{each};
ghost use Rattle.mw_outside.specs.Faults.{Rose};
ghost use Rattle.mw_outside.specs.Taken.{Takes, TakesPart};
ghost use Rattle.run_inputs.specs.Due as due;
ghost use Rattle.run_inputs.specs.Loading.{AreSmall, OnStop, UnlessReadFault};
ghost use Rattle.run_inputs.specs.Order.{StopsAt};
ghost use Rattle.config_lint.specs.Linted as linted;
ghost use Rattle.config_lint.specs.Linted.{AreEntries};
ghost use Rattle.config_lint.specs.Runs.{IsOfTexts, IsOfNames, IsDue, Due, Front, usage_text};

use crate::groups::{entries_of_all, grouped_text};
use crate::labels::Entry;
use config_prepare::run::Status;
use mw_outside::{Files, Sink};
use mw_text::{List, list_of};
use run_inputs::Stop;
use run_inputs::load::{parse_network, read_texts};
use run_inputs::text::Text;
use std::alloc::{AllocError, Global};

const USAGE: &[u8] = b"usage: mw_lint CONFIG...\n";

/// What is printed, and how the run ends.
#[derive(Drop)]
pub struct Said {
    pub text: List<u8>,
    pub status: Status,
}

/// What is printed of texts of which no line is refused.
fn say_network(alloc: Global, texts: &[Text]) -> Result<Said, AllocError>
    requires { AreSmall texts.now }
    ensures { IfOk result (λ said. (said.text ≡ linted.network_text (due.network_due texts.now))
        × (said.status ≡ linted.network_status (due.network_due texts.now))) }
{
    match parse_network(alloc, texts) {
        Ok(_) => Ok(Said {
            text: list_of(alloc, b"no line is refused\n")?,
            status: Status::Done,
        }),
        Err(Stop::Refused(line)) => Ok(Said {
            text: line,
            status: Status::Refused,
        }),
        Err(_) => Err(AllocError),
    }
}

/// What is printed of texts with these refusals.
fn say_entries(alloc: Global, texts: &[Text], entries: &[Entry]) -> Result<Said, AllocError>
    requires { AreSmall texts.now }
    ensures { IfOk result (λ said. (said.text ≡ linted.linted_text texts.now entries.now)
        × (said.status ≡ linted.linted_status texts.now entries.now)) }
{
    match entries {
        [] => say_network(alloc, texts),
        [_, ..] => Ok(Said {
            text: grouped_text(alloc, entries)?,
            status: Status::Refused,
        }),
    }
}

/// What is printed of texts: all their refusals by the kinds of their lines, or the first of the network.
pub fn say_texts(alloc: Global, texts: &[Text]) -> Result<Said, AllocError>
    requires { AreSmall texts.now }
    ensures { IfOk result (λ said. IsOfTexts texts.now said.text said.status) }
{
    let entries = entries_of_all(alloc, texts)?;
    say_entries(alloc, texts, entries.as_slice())
}

/// What is printed for files of these names.
fn say_files<F: Files>(alloc: Global, files: &mut F, names: &[&str]) -> Result<Said, Stop>
    ensures kept { F.contents files.new ≡ F.contents files.old }
    ensures ok { IfOk result (λ said. IsOfNames (F.contents files.old) (map (λ s. s.now) names.now) said.text said.status) }
    ensures quiet { UnlessReadFault result (F.faults files.new ≡ F.faults files.old) }
    ensures name_stays { UnlessReadFault result (F.last_failed files.new ≡ F.last_failed files.old) }
    ensures stop { IfErr result (λ stop. OnStop stop (λ line. ⊥) (Rose (F.faults files.old) (F.faults files.new)
        × StopsAt (F.contents files.old) (map (λ s. s.now) names.now) (F.last_failed files.new))) }
{
    match read_texts(alloc, files, names) {
        Ok(texts) => Ok(say_texts(alloc, texts.as_slice())?),
        Err(Stop::Refused(line)) => Ok(Said {
            text: line,
            status: Status::Refused,
        }),
        Err(stop) => Err(stop),
    }
}

fn names_of(alloc: Global, words: &[String]) -> Result<Vec<&str>, AllocError>
    ensures { IfOk result (λ names. map (λ s. s.now) names.items ≡ map string_bytes words.now) }
{
    let mut names = Vec::new(alloc);
    for word in words {
        names.push(word.as_str())?;
    }
    Ok(names)
}

fn say_usage(alloc: Global) -> Result<Said, AllocError>
    ensures { IfOk result (λ said. (said.text ≡ usage_text) × (said.status ≡ Status.Usage)) }
{
    Ok(Said {
        text: list_of(alloc, USAGE)?,
        status: Status::Usage,
    })
}

/// What is printed for these words.
fn say_words<F: Files>(alloc: Global, files: &mut F, words: &[String]) -> Result<Said, Stop>
    ensures kept { F.contents files.new ≡ F.contents files.old }
    ensures ok { IfOk result (λ said. IsDue (F.contents files.old) (map string_bytes words.now) said.text said.status) }
    ensures quiet { UnlessReadFault result (F.faults files.new ≡ F.faults files.old) }
    ensures name_stays { UnlessReadFault result (F.last_failed files.new ≡ F.last_failed files.old) }
    ensures stop { IfErr result (λ stop. OnStop stop (λ line. ⊥) (Rose (F.faults files.old) (F.faults files.new)
        × StopsAt (F.contents files.old) (map string_bytes words.now) (F.last_failed files.new))) }
{
    if words.is_empty() {
        return Ok(say_usage(alloc)?);
    }
    let names = names_of(alloc, words)?;
    say_files(alloc, files, names.as_slice())
}

/// The whole run: reads the files that the words name, and prints every refusal of each, grouped by the kinds of their
/// lines, or where no line is refused the first rule of networks that they break, or that nothing is refused.
pub fn run<F: Files, O: Sink>(alloc: Global, words: &[String], files: &mut F, out: &mut O) -> Status
    // With 0, 3 or 4 the text that is due stands.
    ensures answered { result ≢ Status.ReadFault → result ≢ Status.WriteFault → result ≢ Status.Memory →
        Due (F.contents files.old) (map string_bytes words.now) (O.taken out.old) (O.taken out.new) result }

    // With 5 a read of a file that the words name failed in this call, and nothing is printed. With any other status no
    // read failed.
    ensures read_fault { result ≡ Status.ReadFault → Rose (F.faults files.old) (F.faults files.new)
        × StopsAt (F.contents files.old) (map string_bytes words.now) (F.last_failed files.new)
        × (O.taken out.new ≡ O.taken out.old) }
    ensures reads { result ≢ Status.ReadFault → F.faults files.new ≡ F.faults files.old }

    // With 6 a write failed in this call, and a front of the text that is due stands. With any other status none did.
    ensures write_fault { result ≡ Status.WriteFault → Rose (O.faults out.old) (O.faults out.new)
        × Front (F.contents files.old) (map string_bytes words.now) (O.taken out.old) (O.taken out.new) }
    ensures writes { result ≢ Status.WriteFault → O.faults out.new ≡ O.faults out.old }
    ensures kept { F.contents files.new ≡ F.contents files.old }
{
    match say_words(alloc, files, words) {
        Ok(said) => match out.write(said.text.as_slice()) {
            Ok(()) => said.status,
            Err(_) => Status::WriteFault,
        },
        Err(Stop::Refused(_)) | Err(Stop::Memory) => Status::Memory,
        Err(Stop::ReadFault) => Status::ReadFault,
    }
}
