//! Verdicts on asks, and their lines.

ghost use Rattle.std.specs.Prelude.{◌≡◌, ◌∷◌, [], IfOk};
ghost use Rattle.ask_search.specs.Exporting.{question_of};
ghost use Rattle.ask_search.specs.Verdicts.{verdict_text};
ghost use Rattle.cex_json.specs.Text.{cex_text};
ghost use Rattle.run_answers.specs.Lines.{holds_text, unknown_text};

use crate::question::questions_for;
use cex_json::{Counterexample, write_cex};
use export_asks::Ask;
use mw_text::List;
use net_model::Net;
use run_inputs::text::joined;
use std::alloc::{AllocError, Global};

/// What is found out of an ask.
#[derive(Drop)]
pub enum AskVerdict {
    /// No stable routing exports such a route.
    Holds,
    /// This one does, first at that prefix length.
    Broken { len: u8, cex: Counterexample },
    /// Neither was found after so many clauses were learnt.
    Unknown(u64),
}

fn holds_line(alloc: Global, ask: &Ask) -> Result<List<u8>, AllocError>
    ensures { IfOk result (λ text. text ≡ holds_text (question_of ask.now)) }
{
    joined(alloc, &[b"holds ", ask.name.as_slice(), b"\n"])
}

// The line of a counterexample to the ask.
fn told(alloc: Global, net: &Net, ask: &Ask, cex: &Counterexample) -> Result<List<u8>, AllocError>
    ensures { IfOk result (λ text. text ≡ cex_text net.now.files (question_of ask.now ∷ []) cex.now) }
{
    let questions = questions_for(alloc, ask)?;
    write_cex(alloc, net, questions.as_slice(), cex)
}

fn broken_lines(
    alloc: Global,
    net: &Net,
    ask: &Ask,
    len: u8,
    cex: &Counterexample,
) -> Result<List<u8>, AllocError>
    ensures { IfOk result (λ text. text ≡ verdict_text net.now.files ask.now (AskVerdict.Broken len cex.now)) }
{
    let least = len.to_string(alloc)?;
    let line = told(alloc, net, ask, cex)?;
    let pieces: [&[u8]; 7] = [
        b"broken ",
        ask.name.as_slice(),
        b" ",
        least.as_bytes(),
        b"\n",
        line.as_slice(),
        b"\n",
    ];
    joined(alloc, &pieces)
}

fn unknown_line(alloc: Global, ask: &Ask, after: u64) -> Result<List<u8>, AllocError>
    ensures { IfOk result (λ text. text ≡ unknown_text (question_of ask.now) after) }
{
    let count = after.to_string(alloc)?;
    let pieces: [&[u8]; 5] = [
        b"unknown ",
        ask.name.as_slice(),
        b" after ",
        count.as_bytes(),
        b" conflicts\n",
    ];
    joined(alloc, &pieces)
}

/// The lines of a verdict.
pub fn verdict_lines(
    alloc: Global,
    net: &Net,
    ask: &Ask,
    verdict: &AskVerdict,
) -> Result<List<u8>, AllocError>
    ensures { IfOk result (λ text. text ≡ verdict_text net.now.files ask.now verdict.now) }
{
    match verdict {
        AskVerdict::Holds => holds_line(alloc, ask),
        AskVerdict::Broken { len, cex } => broken_lines(alloc, net, ask, *len, cex),
        AskVerdict::Unknown(after) => unknown_line(alloc, ask, *after),
    }
}
