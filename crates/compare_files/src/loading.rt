//! Reads and parses what the words ask for.

ghost use Rattle.std.specs.Prelude.{◌≡◌, ◌≢◌, ◌≤◌, Ok, Err, None, IfOk, IfErr, IfSome, length, map, string_bytes};
ghost use Rattle.compare_files.specs.Due as due;
ghost use Rattle.compare_files.specs.Loading.{AreBeside, AreBuilt, LoadsSo, WorksBy, in_order};
ghost use Rattle.compare_words.specs.Words.{asked_of, asks as asking, parts_as};
ghost use Rattle.mw_load.specs.Loading.{StopsAt};
ghost use Rattle.mw_outside.specs.Contents.{TellsOnly};
ghost use Rattle.mw_outside.specs.Faults.{Rose};
ghost use Rattle.paired_nets.specs.Refusals.{pair_refusal as refusal_of};
ghost use Rattle.run_inputs.specs.Due.{refused};
ghost use Rattle.run_inputs.specs.Loading.{IsBudget, OnStop, UnlessReadFault};
ghost use Rattle.run_inputs.specs.Texts as lines;
ghost use Rattle.same_asks.specs.Asking.{AreKnown};

use crate::cause::{cause_number, cause_words};
use asked_files::{load_network, stop_at};
use compare_words::words::Parts;
use compare_words::{Asked, read_asked_words};
use ios_policy_reader::{Cause, Refused};
use mw_outside::Files;
use mw_text::List;
use net_model::Net;
use paired_nets::{PairRefused, pair_refusal};
use run_inputs::Stop;
use run_inputs::load::{MOST_BYTES, read_text, stop_with};
use run_inputs::text::{Text, refusal};
use same_asks::{MOST_ASKS, Same, read_same};
use std::alloc::Global;
use tracked_alike::track_both;

/// Two networks that track the same values, asks over both, and how many clauses a search may learn for each.
#[derive(Drop)]
pub struct Loaded {
    pub left: Net,
    pub right: Net,
    pub asks: List<Same>,
    pub budget: u64,
}

// Two networks as they are built.
#[derive(Drop)]
struct Pair {
    left: Net,
    right: Net,
}

// ---- the networks

// The left network, and then the right one.
fn load_both<F: Files>(alloc: Global, files: &mut F, parts: &Parts) -> Result<Pair, Stop>
    ensures kept { F.contents files.new ≡ F.contents files.old }
    ensures ok { IfOk result (λ pair. AreBuilt (F.contents files.old) (parts_as parts.now) pair.left pair.right) }
    ensures quiet { UnlessReadFault result (F.faults files.new ≡ F.faults files.old) }
    ensures name_stays { UnlessReadFault result (F.last_failed files.new ≡ F.last_failed files.old) }
    ensures stop { IfErr result (λ stop. OnStop stop
        (λ line. IfSome (F.contents files.old) (λ contents.
        due.pair_in contents (parts_as parts.now) ≡ Err (refused line)))
        (Rose (F.faults files.old) (F.faults files.new)
        × StopsAt (F.contents files.old) (due.configs_of (parts_as parts.now)) (F.last_failed files.new))) }
{
    let left = load_network(alloc, files, parts.left.as_slice())?;
    let right = load_network(alloc, files, parts.right.as_slice())?;
    Ok(Pair { left, right })
}

// The line of a pair that is refused, the right one of the files of these names.
fn stop_at_pair(alloc: Global, names: &[String], why: PairRefused) -> Stop
    ensures { OnStop result (λ line. line ≡ due.pair_line (map string_bytes names.now) why) ⊥ }
{
    let number = cause_number(why.cause);
    stop_at(
        alloc,
        names,
        why.file,
        why.line,
        number,
        cause_words(why.cause),
    )
}

// Nothing, where the networks are compared.
fn compared(alloc: Global, left: &Net, right: &Net, names: &[String]) -> Result<(), Stop>
    ensures ok { IfOk result (λ _. refusal_of left.now right.now ≡ None) }
    ensures stop { IfErr result (λ stop. OnStop stop
        (λ line. due.pair_of (map string_bytes names.now) left.now right.now ≡ Err (refused line)) ⊥) }
{
    match pair_refusal(alloc, left, right) {
        Ok(None) => Ok(()),
        Ok(Some(why)) => Err(stop_at_pair(alloc, names, why)),
        Err(_) => Err(Stop::Memory),
    }
}

// ---- the asks

// The refusal of the asks file.
fn stop_at_ask(alloc: Global, name: &[u8], refused: &Refused) -> Stop
    ensures { OnStop result (λ line. (refused.now.cause ≢ Cause.Memory) × (line ≡ lines.refusal name.now refused.now)) ⊥ }
{
    match refused.cause {
        Cause::Memory => Stop::Memory,
        _ => stop_with(refusal(alloc, name, refused)),
    }
}

// The asks of the text over both networks.
fn parse_asks(alloc: Global, text: &Text, left: &Net, right: &Net) -> Result<List<Same>, Stop>
    requires { length text.now.bytes ≤ MOST_BYTES }
    ensures ok { IfOk result (λ asks. due.asks_of text.now left.now.files right.now.files ≡ Ok asks) }
    ensures known { IfOk result (AreKnown left.now.files right.now.files) }
    ensures few { IfOk result (λ asks. length asks ≤ MOST_ASKS) }
    ensures stop { IfErr result (λ stop. OnStop stop
        (λ line. due.asks_of text.now left.now.files right.now.files ≡ Err (refused line)) ⊥) }
{
    match read_same(alloc, text.bytes.as_slice(), left, right) {
        Ok(asks) => Ok(asks),
        Err(refused) => Err(stop_at_ask(alloc, text.name.as_slice(), &refused)),
    }
}

// The asks of the file of that name over both networks.
fn load_asks<F: Files>(
    alloc: Global,
    files: &mut F,
    name: &str,
    left: &Net,
    right: &Net,
) -> Result<List<Same>, Stop>
    ensures kept { F.contents files.new ≡ F.contents files.old }
    ensures ok { IfOk result (λ asks. IfSome (F.contents files.old) (λ contents.
        due.asks_in contents name.now left.now.files right.now.files ≡ Ok asks)) }
    ensures known { IfOk result (AreKnown left.now.files right.now.files) }
    ensures few { IfOk result (λ asks. length asks ≤ MOST_ASKS) }
    ensures quiet { UnlessReadFault result (F.faults files.new ≡ F.faults files.old) }
    ensures name_stays { UnlessReadFault result (F.last_failed files.new ≡ F.last_failed files.old) }
    ensures stop { IfErr result (λ stop. OnStop stop
        (λ line. IfSome (F.contents files.old) (λ contents.
        due.asks_in contents name.now left.now.files right.now.files ≡ Err (refused line)))
        (Rose (F.faults files.old) (F.faults files.new) × TellsOnly name.now (F.last_failed files.new))) }
{
    let text = read_text(alloc, files, name, MOST_BYTES)?;
    parse_asks(alloc, &text, left, right)
}

// ---- all of it

// The asks over both networks, where these are compared. Both track the same values then.
fn asks_over<F: Files>(
    alloc: Global,
    files: &mut F,
    asked: &Asked,
    left: &mut Net,
    right: &mut Net,
) -> Result<List<Same>, Stop>
    requires { AreBuilt (F.contents files.old) (parts_as asked.now.parts) left.old right.old }
    ensures kept { F.contents files.new ≡ F.contents files.old }
    ensures ok { IfOk result (λ asks. due.ComesTo (F.contents files.old) (asking asked.now)
        (Ok (left.new.files, right.new.files, asks))) }
    ensures beside { IfOk result (AreBeside left.new right.new) }
    ensures quiet { UnlessReadFault result (F.faults files.new ≡ F.faults files.old) }
    ensures name_stays { UnlessReadFault result (F.last_failed files.new ≡ F.last_failed files.old) }
    ensures stop { IfErr result (λ stop. OnStop stop
        (λ line. due.ComesTo (F.contents files.old) (asking asked.now) (Err (refused line)))
        (Rose (F.faults files.old) (F.faults files.new)
        × StopsAt (F.contents files.old) (in_order (asking asked.now)) (F.last_failed files.new))) }
{
    compared(alloc, left, right, asked.parts.right.as_slice())?;
    let asks = load_asks(alloc, files, asked.asks.as_str(), left, right)?;
    track_both(alloc, left, right)?;
    Ok(asks)
}

// Both networks and the asks over them.
fn load_asked<F: Files>(alloc: Global, files: &mut F, asked: &Asked) -> Result<Loaded, Stop>
    ensures kept { F.contents files.new ≡ F.contents files.old }
    ensures ok { IfOk result (λ loaded. due.ComesTo (F.contents files.old) (asking asked.now)
        (Ok (loaded.left.files, loaded.right.files, loaded.asks))) }
    ensures beside { IfOk result (λ loaded. AreBeside loaded.left loaded.right loaded.asks) }
    ensures budget { IfOk result (λ loaded. loaded.budget ≡ asked.now.budget) }
    ensures quiet { UnlessReadFault result (F.faults files.new ≡ F.faults files.old) }
    ensures name_stays { UnlessReadFault result (F.last_failed files.new ≡ F.last_failed files.old) }
    ensures stop { IfErr result (λ stop. OnStop stop
        (λ line. due.ComesTo (F.contents files.old) (asking asked.now) (Err (refused line)))
        (Rose (F.faults files.old) (F.faults files.new)
        × StopsAt (F.contents files.old) (in_order (asking asked.now)) (F.last_failed files.new))) }
{
    let mut pair = load_both(alloc, files, &asked.parts)?;
    let asks = asks_over(alloc, files, asked, &mut pair.left, &mut pair.right)?;
    Ok(Loaded {
        left: pair.left,
        right: pair.right,
        asks,
        budget: asked.budget,
    })
}

// What is asked for, read and parsed.
fn asked_work<F: Files>(alloc: Global, files: &mut F, asked: &Asked) -> Result<Loaded, Stop>
    requires { IsBudget asked.now.budget }
    ensures kept { F.contents files.new ≡ F.contents files.old }
    ensures so { LoadsSo (F.contents files.old) (asking asked.now) (record {
      faults = F.faults files.old;
      faults_now = F.faults files.new;
      last = F.last_failed files.old;
      last_now = F.last_failed files.new;
    }) result }
{
    load_asked(alloc, files, asked)
}

/// What the words ask for, read and parsed: the left network is read, parsed and built, and then the right one; a pair that
/// is not compared is refused; then the asks over both are read and parsed, and both networks track the same values. None
/// where the words are not the command.
///
/// # Errors
/// The line of the first refusal, in that order; a read of one of the files that failed; want of memory.
pub fn work_of<F: Files>(
    alloc: Global,
    files: &mut F,
    words: &[String],
) -> Result<Option<Loaded>, Stop>
    ensures kept { F.contents files.new ≡ F.contents files.old }
    ensures so { WorksBy (F.contents files.old) (asked_of (map string_bytes words.now)) (record {
      faults = F.faults files.old;
      faults_now = F.faults files.new;
      last = F.last_failed files.old;
      last_now = F.last_failed files.new;
    }) result }
{
    let asked = match read_asked_words(alloc, words) {
        Ok(Some(asked)) => asked,
        Ok(None) => return Ok(None),
        Err(_) => return Err(Stop::Memory),
    };
    match asked_work(alloc, files, &asked) {
        Ok(loaded) => Ok(Some(loaded)),
        Err(stop) => Err(stop),
    }
}
