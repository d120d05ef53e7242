//! Reads and parses the files: a network, questions about it, and what was printed.

ghost use Rattle.std.specs.Prelude.{◌≡◌, ◌≢◌, ◌≤◌, ◌++◌, ◌∷◌, [], Ok, Err, IfOk, IfErr, IfSome, length, map};
ghost use Rattle.mw_text.specs.Reading.{each};
ghost use Rattle.mw_outside.specs.Faults.{Rose};
ghost use Rattle.run_inputs.specs.Due.{refused};
ghost use Rattle.run_inputs.specs.Loading.{AreSmall, IsAdmitted, OnStop, UnlessReadFault};
ghost use Rattle.run_inputs.specs.Order.{StopsAt};
ghost use Rattle.run_inputs.specs.Texts as texts;
ghost use Rattle.show_run.specs.Due as due;
ghost use Rattle.show_run.specs.Pieces.{told_in as pieces_in};
ghost use Rattle.show_run.specs.Said.{AreAdmitted};

use crate::pieces::told_in;
use cex_json::{CexRefused, Counterexample, read_cex};
use mw_outside::Files;
use mw_text::List;
use net_model::Net;
use question_lang::Question;
use run_inputs::Stop;
use run_inputs::load::{
    MOST_BYTES, MOST_CEX_BYTES, Parsed, parse, read_text, read_texts, stop_with,
};
use run_inputs::text::{Text, cex_refusal};
use std::alloc::Global;

/// The texts of the configurations, of the questions, and of what was printed.
#[derive(Drop)]
pub struct Texts {
    pub configs: List<Text>,
    pub asked: Text,
    pub told: Text,
}

/// Reads the configurations of these names, then the questions file, and then what was printed. A read fault is answered
/// only where a read of one of these files failed in this call, and a refusal is the first in this order.
pub fn read_all<F: Files>(
    alloc: Global,
    files: &mut F,
    printed: &str,
    questions: &str,
    names: &[&str],
) -> Result<Texts, Stop>
    ensures kept { F.contents files.new ≡ F.contents files.old }
    ensures ok { IfOk result (λ all. IfSome (F.contents files.old) (λ contents.
        due.texts_of contents printed.now questions.now (map (λ s. s.now) names.now) ≡ Ok (all.configs, all.asked, all.told))) }
    ensures small { IfOk result (λ all. AreSmall all.configs × (length all.asked.bytes ≤ MOST_BYTES)
        × (length all.told.bytes ≤ MOST_CEX_BYTES)) }
    ensures quiet { UnlessReadFault result (F.faults files.new ≡ F.faults files.old) }
    ensures name_stays { UnlessReadFault result (F.last_failed files.new ≡ F.last_failed files.old) }
    ensures stop { IfErr result (λ stop. OnStop stop
        (λ line. IfSome (F.contents files.old) (λ contents.
        due.texts_of contents printed.now questions.now (map (λ s. s.now) names.now) ≡ Err (refused line)))
        (Rose (F.faults files.old) (F.faults files.new)
        × StopsAt (F.contents files.old) (map (λ s. s.now) names.now ++ questions.now ∷ printed.now ∷ []) (F.last_failed files.new))) }
{
    let configs = read_texts(alloc, files, names)?;
    let asked = read_text(alloc, files, questions, MOST_BYTES)?;
    let told = read_text(alloc, files, printed, MOST_CEX_BYTES)?;
    Ok(Texts {
        configs,
        asked,
        told,
    })
}

// A run that ends at the refusal of a counterexample.
fn stop_at_cex(alloc: Global, name: &[u8], why: &CexRefused) -> Stop
    ensures { OnStop result (λ line. (why.now ≢ CexRefused.Memory) × (line ≡ texts.cex_refusal name.now why.now)) ⊥ }
{
    match why {
        CexRefused::Memory => Stop::Memory,
        _ => stop_with(cex_refusal(alloc, name, why)),
    }
}

// The counterexample that a text states.
fn parse_cex(
    alloc: Global,
    piece: &Text,
    net: &Net,
    questions: &[Question],
) -> Result<Counterexample, Stop>
    ensures ok { IfOk result (λ cex. due.cex_of net.now.files questions.now piece.now ≡ Ok cex) }
    ensures admitted { IfOk result (λ cex. IsAdmitted net.now.files questions.now cex) }
    ensures stop { IfErr result (λ stop. OnStop stop (λ line. due.cex_of net.now.files questions.now piece.now ≡ Err (refused line)) ⊥) }
{
    match read_cex(alloc, net, questions, piece.bytes.as_slice()) {
        Ok(cex) => Ok(cex),
        Err(why) => Err(stop_at_cex(alloc, piece.name.as_slice(), &why)),
    }
}

// The counterexamples that texts state.
fn parse_cexes(
    alloc: Global,
    pieces: &[Text],
    net: &Net,
    questions: &[Question],
) -> Result<List<Counterexample>, Stop>
    ensures ok { IfOk result (λ cexes. each (due.cex_of net.now.files questions.now) pieces.now ≡ Ok cexes) }
    ensures admitted { IfOk result (AreAdmitted net.now.files questions.now) }
    ensures stop { IfErr result (λ stop. OnStop stop (λ line. each (due.cex_of net.now.files questions.now) pieces.now ≡ Err (refused line)) ⊥) }
{
    let mut cexes = List::new(alloc);
    for piece in pieces {
        let cex = parse_cex(alloc, piece, net, questions)?;
        cexes.items.push(cex)?;
    }
    Ok(cexes)
}

// The counterexamples in what was printed.
fn parse_told(
    alloc: Global,
    told: Text,
    net: &Net,
    questions: &[Question],
) -> Result<List<Counterexample>, Stop>
    requires { length told.bytes ≤ MOST_CEX_BYTES }
    ensures ok { IfOk result (λ cexes. each (due.cex_of net.now.files questions.now) (pieces_in told) ≡ Ok cexes) }
    ensures admitted { IfOk result (AreAdmitted net.now.files questions.now) }
    ensures stop { IfErr result (λ stop. OnStop stop (λ line. each (due.cex_of net.now.files questions.now) (pieces_in told) ≡ Err (refused line)) ⊥) }
{
    let pieces = told_in(alloc, told)?;
    parse_cexes(alloc, pieces.as_slice(), net, questions)
}

/// A network, questions about it, and counterexamples to these.
#[derive(Drop)]
pub struct Told {
    pub net: Net,
    pub questions: List<Question>,
    pub cexes: List<Counterexample>,
}

/// The network, the questions and the counterexamples of the texts, parsed in this order.
pub fn parse_all(alloc: Global, configs: &[Text], asked: &Text, told: Text) -> Result<Told, Stop>
    requires configs { AreSmall configs.now }
    requires asked { length asked.now.bytes ≤ MOST_BYTES }
    requires told { length told.bytes ≤ MOST_CEX_BYTES }
    ensures ok { IfOk result (λ all. due.told_due configs.now asked.now told ≡ Ok ((all.net.files, all.questions), all.cexes)) }
    ensures admitted { IfOk result (λ all. AreAdmitted all.net.files all.questions all.cexes) }
    ensures stop { IfErr result (λ stop. OnStop stop (λ line. due.told_due configs.now asked.now told ≡ Err (refused line)) ⊥) }
{
    let Parsed { net, questions } = parse(alloc, configs, asked)?;
    let cexes = parse_told(alloc, told, &net, questions.as_slice())?;
    Ok(Told {
        net,
        questions,
        cexes,
    })
}
