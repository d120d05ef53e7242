//! Reads and parses the configurations that are named.

ghost use Rattle.std.specs.Prelude.{◌≡◌, ◌≢◌, ◌≤◌, Ok, Err, true, IfOk, IfErr, IfSome, length, map, string_bytes};
ghost use Rattle.std.specs.List.{list_all};
ghost use Rattle.ios_ast.specs.Limits.{keeps_limits};
ghost use Rattle.mw_text.specs.Reading.{each};
ghost use Rattle.mw_outside.specs.Faults.{Rose};
ghost use Rattle.mw_outside.specs.Contents.{TellsOnly};
ghost use Rattle.mw_load.specs.Loading as due;
ghost use Rattle.mw_load.specs.Loading.{AreSmall, StopsAt};
ghost use Rattle.mw_load.specs.Refused.{OnRefused, UnlessFault};
ghost use Rattle.net_parts.specs.Tracked.{tracked_of};

use crate::causes::{cause_number, cause_words, net_cause_number, net_cause_words};
use crate::refused::LoadRefused;
use ios_ast::File;
use ios_policy_reader::{Cause, Refused};
use ios_reader::read_file;
use mw_outside::{Files, ReadRefused, read_whole};
use mw_text::{List, list_of};
use net_model::{Net, NetCause, NetRefused};
use std::alloc::{AllocError, Global};

/// How many bytes a configuration has at most.
pub const MOST_BYTES: u64 = 1_048_576;

/// The bytes of a file, with its place among the names.
#[derive(Drop)]
pub struct Placed {
    pub at: u64,
    pub bytes: List<u8>,
}

// The words of a refusal, where there is memory for them.
fn refused_with(
    name: u64,
    line: u32,
    number: u32,
    cause: Result<List<u8>, AllocError>,
) -> LoadRefused
    ensures { OnRefused result (λ refusal. (cause ≡ Ok refusal.cause) × (refusal.name ≡ name) × (refusal.line ≡ line) × (refusal.number ≡ number)) ⊥ }
{
    match cause {
        Ok(cause) => LoadRefused::Refused {
            name,
            line,
            number,
            cause,
        },
        Err(_) => LoadRefused::Memory,
    }
}

// A file with too many bytes.
fn too_long(alloc: Global, at: u64) -> LoadRefused
    ensures { OnRefused result (λ refusal. refusal ≡ due.too_long at) ⊥ }
{
    refused_with(at, 0, 25, list_of(alloc, b"TooLong"))
}

// A file that is refused at a line.
fn refused_at(alloc: Global, at: u64, why: Refused) -> LoadRefused
    ensures { OnRefused result (λ refusal. (why.cause ≢ Cause.Memory) × (refusal ≡ due.refused_at at why)) ⊥ }
{
    match why.cause {
        Cause::Memory => LoadRefused::Memory,
        _ => refused_with(
            at,
            why.line,
            cause_number(why.cause),
            cause_words(alloc, why.cause),
        ),
    }
}

// Files that form no network.
fn net_refusal(alloc: Global, why: NetRefused) -> LoadRefused
    ensures { OnRefused result (λ refusal. (why.cause ≢ NetCause.Memory) × (refusal ≡ due.net_refusal why)) ⊥ }
{
    match why.cause {
        NetCause::Memory => LoadRefused::Memory,
        _ => refused_with(
            why.file,
            why.line,
            net_cause_number(why.cause),
            list_of(alloc, net_cause_words(why.cause)),
        ),
    }
}

/// The bytes of the file of that name, which has that place among the names.
#[tactic(auto, using(crate::proofs::OneByOne::text_whole, crate::proofs::OneByOne::text_too_long))]
pub fn read_text<F: Files>(
    alloc: Global,
    files: &mut F,
    at: u64,
    name: &str,
) -> Result<Placed, LoadRefused>
    ensures kept { F.contents files.new ≡ F.contents files.old }
    ensures ok { IfOk result (λ text. IfSome (F.contents files.old) (λ contents. due.text_of contents (at, name.now) ≡ Ok text)) }
    ensures small { IfOk result (λ text. length text.bytes ≤ MOST_BYTES) }
    ensures quiet { UnlessFault result (F.faults files.new ≡ F.faults files.old) }
    ensures name_stays { UnlessFault result (F.last_failed files.new ≡ F.last_failed files.old) }
    ensures stop { IfErr result (λ why. OnRefused why
        (λ refusal. IfSome (F.contents files.old) (λ contents. due.text_of contents (at, name.now) ≡ Err (due.refused refusal)))
        (Rose (F.faults files.old) (F.faults files.new) × TellsOnly name.now (F.last_failed files.new))) }
{
    match read_whole(alloc, files, name, MOST_BYTES) {
        Ok(bytes) => Ok(Placed { at, bytes }),
        Err(ReadRefused::TooLong) => Err(too_long(alloc, at)),
        Err(ReadRefused::Failed) => Err(LoadRefused::Fault),
        Err(ReadRefused::Memory) => Err(LoadRefused::Memory),
    }
}

/// The bytes of the files of these names.
pub fn read_texts<F: Files>(
    alloc: Global,
    files: &mut F,
    names: &[String],
) -> Result<List<Placed>, LoadRefused>
    ensures kept { F.contents files.new ≡ F.contents files.old }
    ensures ok { IfOk result (λ texts. IfSome (F.contents files.old) (λ contents.
        each (due.text_of contents) (due.placed 0 (map string_bytes names.now)) ≡ Ok texts)) }
    ensures small { IfOk result AreSmall }
    ensures quiet { UnlessFault result (F.faults files.new ≡ F.faults files.old) }
    ensures name_stays { UnlessFault result (F.last_failed files.new ≡ F.last_failed files.old) }
    ensures stop { IfErr result (λ why. OnRefused why
        (λ refusal. IfSome (F.contents files.old) (λ contents.
        each (due.text_of contents) (due.placed 0 (map string_bytes names.now)) ≡ Err (due.refused refusal)))
        (Rose (F.faults files.old) (F.faults files.new) × StopsAt (F.contents files.old) (map string_bytes names.now) (F.last_failed files.new))) }
{
    let mut texts = List::new(alloc);
    for (i, name) in names.iter().enumerate() {
        let text = read_text(alloc, files, i as u64, name.as_str())?;
        texts.items.push(text)?;
    }
    Ok(texts)
}

// The file that a text reads as.
fn parse_file(alloc: Global, text: &Placed) -> Result<File, LoadRefused>
    requires { length text.now.bytes ≤ MOST_BYTES }
    ensures ok { IfOk result (λ file. due.file_of text.now ≡ Ok file) }
    ensures limits { IfOk result (λ file. keeps_limits file ≡ true) }
    ensures stop { IfErr result (λ why. OnRefused why (λ refusal. due.file_of text.now ≡ Err (due.refused refusal)) ⊥) }
{
    match read_file(alloc, text.bytes.as_slice()) {
        Ok(file) => Ok(file),
        Err(refused) => Err(refused_at(alloc, text.at, refused)),
    }
}

// The files that the texts read as.
fn parse_files(alloc: Global, texts: &[Placed]) -> Result<List<File>, LoadRefused>
    requires { AreSmall texts.now }
    ensures ok { IfOk result (λ files. each due.file_of texts.now ≡ Ok files) }
    ensures limits { IfOk result (λ files. list_all keeps_limits files ≡ true) }
    ensures stop { IfErr result (λ why. OnRefused why (λ refusal. each due.file_of texts.now ≡ Err (due.refused refusal)) ⊥) }
{
    let mut files = List::new(alloc);
    for text in texts {
        let file = parse_file(alloc, text)?;
        files.items.push(file)?;
    }
    Ok(files)
}

// The network of some files, where they form one.
fn network_of(alloc: Global, files: List<File>) -> Result<Net, LoadRefused>
    requires limits { list_all keeps_limits files ≡ true }
    ensures ok { IfOk result (λ net. due.network_of files ≡ Ok net.files) }
    ensures tracks { IfOk result (λ net. net.tracked ≡ tracked_of net.files) }
    ensures stop { IfErr result (λ why. OnRefused why (λ refusal. due.network_of files ≡ Err (due.refused refusal)) ⊥) }
{
    match Net::build(alloc, files) {
        Ok(net) => Ok(net),
        Err(why) => Err(net_refusal(alloc, why)),
    }
}

/// The network of the texts.
pub fn parse_network(alloc: Global, texts: &[Placed]) -> Result<Net, LoadRefused>
    requires { AreSmall texts.now }
    ensures ok { IfOk result (λ net. due.parsed_due texts.now ≡ Ok net.files) }
    ensures tracks { IfOk result (λ net. net.tracked ≡ tracked_of net.files) }
    ensures stop { IfErr result (λ why. OnRefused why (λ refusal. due.parsed_due texts.now ≡ Err (due.refused refusal)) ⊥) }
{
    let files = parse_files(alloc, texts)?;
    network_of(alloc, files)
}

/// Reads the configurations of these names in their order, then parses them in this order, then builds their network, which
/// tracks what they name.
///
/// # Errors
/// `Fault` only where a read of one of these files failed in this call. `Refused` exactly for the first refusal in this
/// order: a file of more than 1,048,576 bytes, a text that is no configuration, or files that form no network. `Memory`
/// where memory was refused.
pub fn load<F: Files>(alloc: Global, files: &mut F, names: &[String]) -> Result<Net, LoadRefused>
    ensures kept { F.contents files.new ≡ F.contents files.old }
    ensures ok { IfOk result (λ net. IfSome (F.contents files.old) (λ contents.
        due.network_due contents (map string_bytes names.now) ≡ Ok net.files)) }
    ensures tracks { IfOk result (λ net. net.tracked ≡ tracked_of net.files) }
    ensures quiet { UnlessFault result (F.faults files.new ≡ F.faults files.old) }
    ensures name_stays { UnlessFault result (F.last_failed files.new ≡ F.last_failed files.old) }
    ensures stop { IfErr result (λ why. OnRefused why
        (λ refusal. IfSome (F.contents files.old) (λ contents.
        due.network_due contents (map string_bytes names.now) ≡ Err (due.refused refusal)))
        (Rose (F.faults files.old) (F.faults files.new) × StopsAt (F.contents files.old) (map string_bytes names.now) (F.last_failed files.new))) }
{
    let texts = read_texts(alloc, files, names)?;
    parse_network(alloc, texts.as_slice())
}
