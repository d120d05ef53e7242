//! Reads and parses the files that the words name.

ghost use Rattle.std.specs.Prelude.{◌≡◌, ◌≢◌, ◌≤◌, ◌++◌, ◌∷◌, [], Ok, Err, true, IfOk, IfErr, IfSome, length, map};
ghost use Rattle.std.specs.List.{list_all};
ghost use Rattle.ios_ast.specs.Limits.{keeps_limits};
ghost use Rattle.mw_text.specs.Reading.{each};
ghost use Rattle.run_inputs.specs.Texts as lines;
ghost use Rattle.mw_outside.specs.Faults.{Rose};
ghost use Rattle.mw_outside.specs.Contents.{TellsOnly};
ghost use Rattle.question_lang.specs.Known.{AreKnown};
ghost use Rattle.run_inputs.specs.Due as due;
ghost use Rattle.run_inputs.specs.Order.{StopsAt};
ghost use Rattle.run_inputs.specs.Loading.{OnStop, UnlessReadFault, AreSmall};

use crate::text::{Text, net_refused, refusal, too_long};
use ios_ast::File;
use ios_policy_reader::{Cause, Refused};
use ios_reader::read_file;
use mw_outside::{Files, ReadRefused, read_whole};
use mw_text::{List, list_of};
use net_model::{Net, NetCause, NetRefused};
use question_lang::{MOST_QUESTIONS, Question, read_questions};
use std::alloc::{AllocError, AllocFailed, Global};

/// How many bytes a configuration or a questions file has at most.
pub const MOST_BYTES: u64 = 1_048_576;

/// How many bytes a counterexample has at most.
pub const MOST_CEX_BYTES: u64 = 16_777_216;

/// How many bytes a log has at most.
pub const MOST_LOG_BYTES: u64 = 268_435_456;

/// How many clauses a search may learn for a question, where the words do not say it.
pub const DEFAULT_CONFLICTS: u64 = 1_000_000;

/// How many the words may say at most.
pub const MOST_CONFLICTS: u64 = 1_000_000_000;

/// Why a run ends before the answers: with the line of a refusal, at a read that failed, or for want of memory.
#[derive(Drop)]
pub enum Stop {
    Refused(List<u8>),
    ReadFault,
    Memory,
}

impl From<AllocError> for Stop {
    ghost use Rattle.run_inputs.specs.declared.load.Stop.TheVariants.{Memory};

    ghost from_gives = { λ _ stop. stop ≡ Memory };

    fn from(_error: AllocError) -> Stop {
        Stop::Memory
    }
}

impl<T: Drop> From<AllocFailed<T>> for Stop {
    ghost use Rattle.run_inputs.specs.declared.load.Stop.TheVariants.{Memory};

    ghost from_gives = { λ _ stop. stop ≡ Memory };

    fn from(_error: AllocFailed<T>) -> Stop {
        Stop::Memory
    }
}

/// A run that ends with that line.
pub fn stop_with(line: Result<List<u8>, AllocError>) -> Stop
    ensures { OnStop result (λ printed. line ≡ Ok printed) ⊥ }
{
    match line {
        Ok(line) => Stop::Refused(line),
        Err(_) => Stop::Memory,
    }
}

// A run that ends at the refusal of a file.
fn stop_at(alloc: Global, name: &[u8], refused: &Refused) -> Stop
    ensures { OnStop result (λ line. (refused.now.cause ≢ Cause.Memory) × (line ≡ lines.refusal name.now refused.now)) ⊥ }
{
    match refused.cause {
        Cause::Memory => Stop::Memory,
        _ => stop_with(refusal(alloc, name, refused)),
    }
}

fn named(alloc: Global, name: &str, bytes: List<u8>) -> Result<Text, AllocError>
    ensures { IfOk result (λ text. text ≡ record { name = name.now; bytes = bytes }) }
{
    Ok(Text {
        name: list_of(alloc, name.as_bytes())?,
        bytes,
    })
}

/// The text of the file of that name, of at most so many bytes.
#[tactic(auto, using(crate::proofs::Loading::text_whole, crate::proofs::Loading::text_too_long))]
pub fn read_text<F: Files>(
    alloc: Global,
    files: &mut F,
    name: &str,
    most: u64,
) -> Result<Text, Stop>
    ensures kept { F.contents files.new ≡ F.contents files.old }
    ensures ok { IfOk result (λ text. IfSome (F.contents files.old) (λ contents. due.text_within most contents name.now ≡ Ok text)) }
    ensures small { IfOk result (λ text. length text.bytes ≤ most) }
    ensures quiet { UnlessReadFault result (F.faults files.new ≡ F.faults files.old) }
    ensures name_stays { UnlessReadFault result (F.last_failed files.new ≡ F.last_failed files.old) }
    ensures stop { IfErr result (λ stop. OnStop stop
        (λ line. IfSome (F.contents files.old) (λ contents. due.text_within most contents name.now ≡ Err (due.refused line)))
        (Rose (F.faults files.old) (F.faults files.new) × TellsOnly name.now (F.last_failed files.new))) }
{
    match read_whole(alloc, files, name, most) {
        Ok(bytes) => Ok(named(alloc, name, bytes)?),
        Err(ReadRefused::TooLong) => Err(stop_with(too_long(alloc, name.as_bytes()))),
        Err(ReadRefused::Failed) => Err(Stop::ReadFault),
        Err(ReadRefused::Memory) => Err(Stop::Memory),
    }
}

/// The texts of the files of these names.
pub fn read_texts<F: Files>(
    alloc: Global,
    files: &mut F,
    names: &[&str],
) -> Result<List<Text>, Stop>
    ensures kept { F.contents files.new ≡ F.contents files.old }
    ensures ok { IfOk result (λ texts. IfSome (F.contents files.old) (λ contents.
        each (due.text_of contents) (map (λ s. s.now) names.now) ≡ Ok texts)) }
    ensures small { IfOk result AreSmall }
    ensures quiet { UnlessReadFault result (F.faults files.new ≡ F.faults files.old) }
    ensures name_stays { UnlessReadFault result (F.last_failed files.new ≡ F.last_failed files.old) }
    ensures stop { IfErr result (λ stop. OnStop stop
        (λ line. IfSome (F.contents files.old) (λ contents. each (due.text_of contents) (map (λ s. s.now) names.now) ≡ Err (due.refused line)))
        (Rose (F.faults files.old) (F.faults files.new) × StopsAt (F.contents files.old) (map (λ s. s.now) names.now) (F.last_failed files.new))) }
{
    let mut texts = List::new(alloc);
    for name in names {
        let text = read_text(alloc, files, name, MOST_BYTES)?;
        texts.items.push(text)?;
    }
    Ok(texts)
}

// The file that a text reads as.
fn parse_file(alloc: Global, text: &Text) -> Result<File, Stop>
    requires { length text.now.bytes ≤ MOST_BYTES }
    ensures ok { IfOk result (λ file. due.file_of text.now ≡ Ok file) }
    ensures limits { IfOk result (λ file. keeps_limits file ≡ true) }
    ensures stop { IfErr result (λ stop. OnStop stop (λ line. due.file_of text.now ≡ Err (due.refused line)) ⊥) }
{
    match read_file(alloc, text.bytes.as_slice()) {
        Ok(file) => Ok(file),
        Err(refused) => Err(stop_at(alloc, text.name.as_slice(), &refused)),
    }
}

// The files that the texts read as.
fn parse_files(alloc: Global, texts: &[Text]) -> Result<List<File>, Stop>
    requires { AreSmall texts.now }
    ensures ok { IfOk result (λ files. each due.file_of texts.now ≡ Ok files) }
    ensures limits { IfOk result (λ files. list_all keeps_limits files ≡ true) }
    ensures stop { IfErr result (λ stop. OnStop stop (λ line. each due.file_of texts.now ≡ Err (due.refused line)) ⊥) }
{
    let mut files = List::new(alloc);
    for text in texts {
        let file = parse_file(alloc, text)?;
        files.items.push(file)?;
    }
    Ok(files)
}

fn name_at(texts: &[Text], at: usize) -> &[u8]
    ensures { result.now ≡ due.name_at texts.now at }
{
    match texts.get(at) {
        Some(text) => text.name.as_slice(),
        None => b"",
    }
}

// The line of files that form no network.
fn net_refusal(alloc: Global, texts: &[Text], why: NetRefused) -> Result<List<u8>, AllocError>
    ensures { IfOk result (λ line. line ≡ due.net_refusal texts.now why) }
{
    net_refused(alloc, name_at(texts, why.file as usize), &why)
}

// A run that ends at the refusal of files that form no network.
fn stop_at_network(alloc: Global, texts: &[Text], why: NetRefused) -> Stop
    ensures { OnStop result (λ line. (why.cause ≢ NetCause.Memory) × (line ≡ due.net_refusal texts.now why)) ⊥ }
{
    match why.cause {
        NetCause::Memory => Stop::Memory,
        _ => stop_with(net_refusal(alloc, texts, why)),
    }
}

// The network of some files, where they form one.
fn network_of(alloc: Global, texts: &[Text], files: List<File>) -> Result<Net, Stop>
    requires limits { list_all keeps_limits files ≡ true }
    ensures ok { IfOk result (λ net. due.network_of texts.now files ≡ Ok net.files) }
    ensures stop { IfErr result (λ stop. OnStop stop (λ line. due.network_of texts.now files ≡ Err (due.refused line)) ⊥) }
{
    match Net::build(alloc, files) {
        Ok(net) => Ok(net),
        Err(why) => Err(stop_at_network(alloc, texts, why)),
    }
}

/// The network of the texts.
pub fn parse_network(alloc: Global, texts: &[Text]) -> Result<Net, Stop>
    requires { AreSmall texts.now }
    ensures ok { IfOk result (λ net. due.network_due texts.now ≡ Ok net.files) }
    ensures stop { IfErr result (λ stop. OnStop stop (λ line. due.network_due texts.now ≡ Err (due.refused line)) ⊥) }
{
    let files = parse_files(alloc, texts)?;
    network_of(alloc, texts, files)
}

/// The questions of the text over the network.
pub fn read_asked(alloc: Global, asked: &Text, net: &Net) -> Result<List<Question>, Stop>
    requires { length asked.now.bytes ≤ MOST_BYTES }
    ensures ok { IfOk result (λ questions. due.questions_of asked.now net.now.files ≡ Ok questions) }
    ensures known { IfOk result (AreKnown net.now.files) }
    ensures few { IfOk result (λ questions. length questions ≤ MOST_QUESTIONS) }
    ensures stop { IfErr result (λ stop. OnStop stop (λ line. due.questions_of asked.now net.now.files ≡ Err (due.refused line)) ⊥) }
{
    match read_questions(alloc, asked.bytes.as_slice(), net) {
        Ok(questions) => Ok(questions),
        Err(refused) => Err(stop_at(alloc, asked.name.as_slice(), &refused)),
    }
}

/// A network, and questions about it.
#[derive(Drop)]
pub struct Parsed {
    pub net: Net,
    pub questions: List<Question>,
}

/// The network and the questions of the texts.
pub fn parse(alloc: Global, texts: &[Text], asked: &Text) -> Result<Parsed, Stop>
    requires texts { AreSmall texts.now }
    requires asked { length asked.now.bytes ≤ MOST_BYTES }
    ensures ok { IfOk result (λ parsed. due.parsed_of texts.now asked.now ≡ Ok (parsed.net.files, parsed.questions)) }
    ensures few { IfOk result (λ parsed. length parsed.questions ≤ MOST_QUESTIONS) }
    ensures stop { IfErr result (λ stop. OnStop stop (λ line. due.parsed_of texts.now asked.now ≡ Err (due.refused line)) ⊥) }
{
    let net = parse_network(alloc, texts)?;
    let questions = read_asked(alloc, asked, &net)?;
    Ok(Parsed { net, questions })
}

/// A network, the questions about it, and how many clauses a search may learn for each.
#[derive(Drop)]
pub struct Loaded {
    pub net: Net,
    pub questions: List<Question>,
    pub budget: u64,
}

// The network and the questions of the texts, each question with so many clauses.
fn parse_loaded(alloc: Global, budget: u64, texts: &[Text], asked: &Text) -> Result<Loaded, Stop>
    requires texts { AreSmall texts.now }
    requires asked { length asked.now.bytes ≤ MOST_BYTES }
    ensures ok { IfOk result (λ loaded. due.texts_due budget texts.now asked.now ≡ Ok (due.answering loaded.net.files loaded.questions loaded.budget)) }
    ensures budget { IfOk result (λ loaded. loaded.budget ≡ budget) }
    ensures few { IfOk result (λ loaded. length loaded.questions ≤ MOST_QUESTIONS) }
    ensures stop { IfErr result (λ stop. OnStop stop (λ line. due.texts_due budget texts.now asked.now ≡ Err (due.refused line)) ⊥) }
{
    let Parsed { net, questions } = parse(alloc, texts, asked)?;
    Ok(Loaded {
        net,
        questions,
        budget,
    })
}

/// Reads the configurations of these names and then the questions file, and parses them in this order. A read fault is
/// answered only where a read of one of these files failed in this call, and a refusal is the first in this order.
pub fn load<F: Files>(
    alloc: Global,
    files: &mut F,
    budget: u64,
    questions: &str,
    names: &[&str],
) -> Result<Loaded, Stop>
    ensures kept { F.contents files.new ≡ F.contents files.old }
    ensures ok { IfOk result (λ loaded. IfSome (F.contents files.old) (λ contents.
        due.files_due contents budget questions.now (map (λ s. s.now) names.now) ≡ Ok (due.answering loaded.net.files loaded.questions budget))) }
    ensures budget { IfOk result (λ loaded. loaded.budget ≡ budget) }
    ensures few { IfOk result (λ loaded. length loaded.questions ≤ MOST_QUESTIONS) }
    ensures quiet { UnlessReadFault result (F.faults files.new ≡ F.faults files.old) }
    ensures name_stays { UnlessReadFault result (F.last_failed files.new ≡ F.last_failed files.old) }
    ensures stop { IfErr result (λ stop. OnStop stop
        (λ line. IfSome (F.contents files.old) (λ contents.
        due.files_due contents budget questions.now (map (λ s. s.now) names.now) ≡ Err (due.refused line)))
        (Rose (F.faults files.old) (F.faults files.new)
        × StopsAt (F.contents files.old) (map (λ s. s.now) names.now ++ questions.now ∷ []) (F.last_failed files.new))) }
{
    let texts = read_texts(alloc, files, names)?;
    let asked = read_text(alloc, files, questions, MOST_BYTES)?;
    parse_loaded(alloc, budget, texts.as_slice(), &asked)
}
