//! Reads and parses the files of what is told: a counterexample, or a log.

ghost use Rattle.std.specs.Prelude.{◌≡◌, ◌≢◌, ◌≤◌, ◌++◌, ◌∷◌, [], Ok, Err, IfOk, IfErr, IfSome, length, map};
ghost use Rattle.mw_outside.specs.Faults.{Rose};
ghost use Rattle.run_inputs.specs.Due as due;
ghost use Rattle.run_inputs.specs.Loading.{AreSmall, IsAdmitted, OnStop, UnlessReadFault};
ghost use Rattle.run_inputs.specs.Order.{StopsAt};
ghost use Rattle.run_inputs.specs.Texts as texts;

use crate::load::{
    MOST_BYTES, MOST_CEX_BYTES, MOST_LOG_BYTES, Parsed, Stop, parse, parse_network, read_asked,
    read_text, read_texts, stop_with,
};
use crate::text::{Text, cex_refusal};
use cex_json::{CexRefused, Counterexample, read_cex};
use mw_outside::Files;
use mw_text::List;
use net_model::Net;
use question_lang::{MOST_QUESTIONS, Question};
use std::alloc::Global;

/// A network, questions about it, and a counterexample to one of them.
#[derive(Drop)]
pub struct Told {
    pub net: Net,
    pub questions: List<Question>,
    pub cex: Counterexample,
}

// A run that ends at the refusal of the counterexample.
fn stop_at_cex(alloc: Global, name: &[u8], why: &CexRefused) -> Stop
    ensures { OnStop result (λ line. (why.now ≢ CexRefused.Memory) × (line ≡ texts.cex_refusal name.now why.now)) ⊥ }
{
    match why {
        CexRefused::Memory => Stop::Memory,
        _ => stop_with(cex_refusal(alloc, name, why)),
    }
}

// The counterexample that the text states.
fn parse_cex(
    alloc: Global,
    told: &Text,
    net: &Net,
    questions: &[Question],
) -> Result<Counterexample, Stop>
    ensures ok { IfOk result (λ cex. due.cex_of told.now net.now.files questions.now ≡ Ok (due.replaying net.now.files questions.now cex)) }
    ensures admitted { IfOk result (λ cex. IsAdmitted net.now.files questions.now cex) }
    ensures stop { IfErr result (λ stop. OnStop stop (λ line. due.cex_of told.now net.now.files questions.now ≡ Err (due.refused line)) ⊥) }
{
    match read_cex(alloc, net, questions, told.bytes.as_slice()) {
        Ok(cex) => Ok(cex),
        Err(why) => Err(stop_at_cex(alloc, told.name.as_slice(), &why)),
    }
}

// The network, the questions and the counterexample of the texts.
fn parse_replay(alloc: Global, texts: &[Text], asked: &Text, told: &Text) -> Result<Told, Stop>
    requires texts { AreSmall texts.now }
    requires asked { length asked.now.bytes ≤ MOST_BYTES }
    ensures ok { IfOk result (λ work. due.replay_due texts.now asked.now told.now ≡ Ok (due.replaying work.net.files work.questions work.cex)) }
    ensures admitted { IfOk result (λ work. IsAdmitted work.net.files work.questions work.cex) }
    ensures stop { IfErr result (λ stop. OnStop stop (λ line. due.replay_due texts.now asked.now told.now ≡ Err (due.refused line)) ⊥) }
{
    let net = parse_network(alloc, texts)?;
    let questions = read_asked(alloc, asked, &net)?;
    let cex = parse_cex(alloc, told, &net, questions.as_slice())?;
    Ok(Told {
        net,
        questions,
        cex,
    })
}

/// Reads the configurations of these names, then the questions file, then the counterexample, and parses them in this
/// order. A read fault is answered only where a read of one of these files failed in this call, and a refusal is the first
/// in this order.
pub fn load_replay<F: Files>(
    alloc: Global,
    files: &mut F,
    cex: &str,
    questions: &str,
    names: &[&str],
) -> Result<Told, Stop>
    ensures kept { F.contents files.new ≡ F.contents files.old }
    ensures ok { IfOk result (λ work. IfSome (F.contents files.old) (λ contents.
        due.replayed_due contents cex.now questions.now (map (λ s. s.now) names.now) ≡ Ok (due.replaying work.net.files work.questions work.cex))) }
    ensures admitted { IfOk result (λ work. IsAdmitted work.net.files work.questions work.cex) }
    ensures quiet { UnlessReadFault result (F.faults files.new ≡ F.faults files.old) }
    ensures name_stays { UnlessReadFault result (F.last_failed files.new ≡ F.last_failed files.old) }
    ensures stop { IfErr result (λ stop. OnStop stop
        (λ line. IfSome (F.contents files.old) (λ contents.
        due.replayed_due contents cex.now questions.now (map (λ s. s.now) names.now) ≡ Err (due.refused line)))
        (Rose (F.faults files.old) (F.faults files.new)
        × StopsAt (F.contents files.old) (map (λ s. s.now) names.now ++ questions.now ∷ cex.now ∷ []) (F.last_failed files.new))) }
{
    let texts = read_texts(alloc, files, names)?;
    let asked = read_text(alloc, files, questions, MOST_BYTES)?;
    let told = read_text(alloc, files, cex, MOST_CEX_BYTES)?;
    parse_replay(alloc, texts.as_slice(), &asked, &told)
}

/// A network, questions about it, and a log that is held against them.
#[derive(Drop)]
pub struct Logged {
    pub net: Net,
    pub questions: List<Question>,
    pub log: Text,
}

// The network and the questions of the texts, with the log.
fn parse_check(alloc: Global, texts: &[Text], asked: &Text, log: Text) -> Result<Logged, Stop>
    requires texts { AreSmall texts.now }
    requires asked { length asked.now.bytes ≤ MOST_BYTES }
    ensures ok { IfOk result (λ work. due.check_due texts.now asked.now log ≡ Ok (due.checking work.net.files work.questions work.log)) }
    ensures log { IfOk result (λ work. work.log ≡ log) }
    ensures few { IfOk result (λ work. length work.questions ≤ MOST_QUESTIONS) }
    ensures stop { IfErr result (λ stop. OnStop stop (λ line. due.check_due texts.now asked.now log ≡ Err (due.refused line)) ⊥) }
{
    let Parsed { net, questions } = parse(alloc, texts, asked)?;
    Ok(Logged {
        net,
        questions,
        log,
    })
}

/// Reads the configurations of these names, then the questions file, then the log, and parses the configurations and the
/// questions in this order. A read fault is answered only where a read of one of these files failed in this call, and a
/// refusal is the first in this order.
pub fn load_check<F: Files>(
    alloc: Global,
    files: &mut F,
    log: &str,
    questions: &str,
    names: &[&str],
) -> Result<Logged, Stop>
    ensures kept { F.contents files.new ≡ F.contents files.old }
    ensures ok { IfOk result (λ work. IfSome (F.contents files.old) (λ contents.
        due.checked_due contents log.now questions.now (map (λ s. s.now) names.now) ≡ Ok (due.checking work.net.files work.questions work.log))) }
    ensures few { IfOk result (λ work. length work.questions ≤ MOST_QUESTIONS) }
    ensures small { IfOk result (λ work. length work.log.bytes ≤ MOST_LOG_BYTES) }
    ensures quiet { UnlessReadFault result (F.faults files.new ≡ F.faults files.old) }
    ensures name_stays { UnlessReadFault result (F.last_failed files.new ≡ F.last_failed files.old) }
    ensures stop { IfErr result (λ stop. OnStop stop
        (λ line. IfSome (F.contents files.old) (λ contents.
        due.checked_due contents log.now questions.now (map (λ s. s.now) names.now) ≡ Err (due.refused line)))
        (Rose (F.faults files.old) (F.faults files.new)
        × StopsAt (F.contents files.old) (map (λ s. s.now) names.now ++ questions.now ∷ log.now ∷ []) (F.last_failed files.new))) }
{
    let texts = read_texts(alloc, files, names)?;
    let asked = read_text(alloc, files, questions, MOST_BYTES)?;
    let log = read_text(alloc, files, log, MOST_LOG_BYTES)?;
    parse_check(alloc, texts.as_slice(), &asked, log)
}
