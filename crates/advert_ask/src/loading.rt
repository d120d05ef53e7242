//! Reads and parses what the words ask for.

ghost use Rattle.std.specs.Prelude.{◌≡◌, ◌≢◌, ◌≤◌, Ok, Err, Some, IfOk, IfErr, IfSome, length, map, string_bytes};
ghost use Rattle.advert_ask.specs.Due as due;
ghost use Rattle.advert_ask.specs.Loading.{LoadsSo, WorksBy};
ghost use Rattle.advert_ask.specs.Words.{asked_of};
ghost use Rattle.asked_files.specs.Network.{in_order};
ghost use Rattle.asked_files.specs.Words.{asking};
ghost use Rattle.mw_load.specs.Loading.{StopsAt};
ghost use Rattle.mw_outside.specs.Contents.{TellsOnly};
ghost use Rattle.mw_outside.specs.Faults.{Rose};
ghost use Rattle.run_inputs.specs.Due.{refused};
ghost use Rattle.run_inputs.specs.Loading.{IsBudget, OnStop, UnlessReadFault};
ghost use Rattle.run_inputs.specs.Texts as lines;

use asked_files::{Asked, load_network, read_asked_words};
use export_asks::reader::MOST_ASKS;
use export_asks::{Ask, read_asks};
use ios_policy_reader::{Cause, Refused};
use mw_outside::Files;
use mw_text::List;
use net_model::Net;
use run_inputs::Stop;
use run_inputs::load::{MOST_BYTES, read_text, stop_with};
use run_inputs::text::{Text, refusal};
use std::alloc::Global;

/// A network, asks over it, and how many clauses a search may learn for each.
#[derive(Drop)]
pub struct Loaded {
    pub net: Net,
    pub asks: List<Ask>,
    pub budget: u64,
}

// The refusal of the asks file.
fn stop_at_ask(alloc: Global, name: &[u8], refused: &Refused) -> Stop
    ensures { OnStop result (λ line. (refused.now.cause ≢ Cause.Memory) × (line ≡ lines.refusal name.now refused.now)) ⊥ }
{
    match refused.cause {
        Cause::Memory => Stop::Memory,
        _ => stop_with(refusal(alloc, name, refused)),
    }
}

// The asks of the text over the network.
fn parse_asks(alloc: Global, text: &Text, net: &Net) -> Result<List<Ask>, Stop>
    requires { length text.now.bytes ≤ MOST_BYTES }
    ensures ok { IfOk result (λ asks. due.asks_of text.now net.now.files ≡ Ok asks) }
    ensures few { IfOk result (λ asks. length asks ≤ MOST_ASKS) }
    ensures stop { IfErr result (λ stop. OnStop stop (λ line. due.asks_of text.now net.now.files ≡ Err (refused line)) ⊥) }
{
    match read_asks(alloc, text.bytes.as_slice(), net) {
        Ok(asks) => Ok(asks),
        Err(refused) => Err(stop_at_ask(alloc, text.name.as_slice(), &refused)),
    }
}

// The asks of the file of that name over the network.
fn load_asks<F: Files>(
    alloc: Global,
    files: &mut F,
    name: &str,
    net: &Net,
) -> Result<List<Ask>, Stop>
    ensures kept { F.contents files.new ≡ F.contents files.old }
    ensures ok { IfOk result (λ asks. IfSome (F.contents files.old) (λ contents.
        due.asks_in contents name.now net.now.files ≡ Ok asks)) }
    ensures few { IfOk result (λ asks. length asks ≤ MOST_ASKS) }
    ensures quiet { UnlessReadFault result (F.faults files.new ≡ F.faults files.old) }
    ensures name_stays { UnlessReadFault result (F.last_failed files.new ≡ F.last_failed files.old) }
    ensures stop { IfErr result (λ stop. OnStop stop
        (λ line. IfSome (F.contents files.old) (λ contents.
        due.asks_in contents name.now net.now.files ≡ Err (refused line)))
        (Rose (F.faults files.old) (F.faults files.new) × TellsOnly name.now (F.last_failed files.new))) }
{
    let text = read_text(alloc, files, name, MOST_BYTES)?;
    parse_asks(alloc, &text, net)
}

// The network and the asks over it.
fn load_asked<F: Files>(alloc: Global, files: &mut F, asked: &Asked) -> Result<Loaded, Stop>
    ensures kept { F.contents files.new ≡ F.contents files.old }
    ensures ok { IfOk result (λ loaded. due.ComesTo (F.contents files.old) (asking asked.now)
        (Ok (loaded.net.files, loaded.asks))) }
    ensures budget { IfOk result (λ loaded. loaded.budget ≡ asked.now.budget) }
    ensures few { IfOk result (λ loaded. length loaded.asks ≤ MOST_ASKS) }
    ensures quiet { UnlessReadFault result (F.faults files.new ≡ F.faults files.old) }
    ensures name_stays { UnlessReadFault result (F.last_failed files.new ≡ F.last_failed files.old) }
    ensures stop { IfErr result (λ stop. OnStop stop
        (λ line. due.ComesTo (F.contents files.old) (asking asked.now) (Err (refused line)))
        (Rose (F.faults files.old) (F.faults files.new)
        × StopsAt (F.contents files.old) (in_order (asking asked.now)) (F.last_failed files.new))) }
{
    let net = load_network(alloc, files, asked.configs.as_slice())?;
    let asks = load_asks(alloc, files, asked.own.as_str(), &net)?;
    Ok(Loaded {
        net,
        asks,
        budget: asked.budget,
    })
}

// What is asked for, read and parsed.
fn asked_work<F: Files>(alloc: Global, files: &mut F, asked: &Asked) -> Result<Loaded, Stop>
    requires { IsBudget asked.now.budget }
    ensures kept { F.contents files.new ≡ F.contents files.old }
    ensures so { LoadsSo (F.contents files.old) (asking asked.now) (record {
      faults = F.faults files.old;
      faults_now = F.faults files.new;
      last = F.last_failed files.old;
      last_now = F.last_failed files.new;
    }) result }
{
    load_asked(alloc, files, asked)
}

/// What the words ask for, read and parsed: the configurations are read, parsed and built, and then the asks are read and
/// parsed. None where the words are not the command.
pub fn work_of<F: Files>(
    alloc: Global,
    files: &mut F,
    words: &[String],
) -> Result<Option<Loaded>, Stop>
    ensures kept { F.contents files.new ≡ F.contents files.old }
    ensures so { WorksBy (F.contents files.old) (asked_of (map string_bytes words.now)) (record {
      faults = F.faults files.old;
      faults_now = F.faults files.new;
      last = F.last_failed files.old;
      last_now = F.last_failed files.new;
    }) result }
{
    let asked = match read_asked_words(alloc, "advert", words) {
        Ok(Some(asked)) => asked,
        Ok(None) => return Ok(None),
        Err(_) => return Err(Stop::Memory),
    };
    match asked_work(alloc, files, &asked) {
        Ok(loaded) => Ok(Some(loaded)),
        Err(stop) => Err(stop),
    }
}
