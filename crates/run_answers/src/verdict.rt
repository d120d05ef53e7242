//! Verdicts, and their lines.

ghost use Rattle.std.specs.Prelude.{◌≡◌, IfOk};
ghost use Rattle.run_answers.specs.Lines.{holds_text, unknown_text};
ghost use Rattle.run_answers.specs.Verdicts.{verdict_text};

use cex_json::{Counterexample, write_cex};
use mw_text::List;
use net_model::Net;
use question_lang::Question;
use run_inputs::text::joined;
use std::alloc::{AllocError, Global};

/// What is found out of a question.
#[derive(Drop)]
pub enum Verdict {
    /// Nothing breaks it.
    Holds,
    /// This breaks it.
    Broken(Counterexample),
    /// Neither was found after so many clauses were learnt.
    Unknown(u64),
}

fn holds_line(alloc: Global, question: &Question) -> Result<List<u8>, AllocError>
    ensures { IfOk result (λ text. text ≡ holds_text question.now) }
{
    joined(alloc, &[b"holds ", question.name.as_slice(), b"\n"])
}

fn broken_lines(
    alloc: Global,
    net: &Net,
    questions: &[Question],
    question: &Question,
    cex: &Counterexample,
) -> Result<List<u8>, AllocError>
    ensures { IfOk result (λ text. text ≡ verdict_text net.now.files questions.now question.now (Verdict.Broken cex.now)) }
{
    let told = write_cex(alloc, net, questions, cex)?;
    let pieces: [&[u8]; 5] = [
        b"broken ",
        question.name.as_slice(),
        b"\n",
        told.as_slice(),
        b"\n",
    ];
    joined(alloc, &pieces)
}

fn unknown_line(alloc: Global, question: &Question, after: u64) -> Result<List<u8>, AllocError>
    ensures { IfOk result (λ text. text ≡ unknown_text question.now after) }
{
    let count = after.to_string(alloc)?;
    let pieces: [&[u8]; 5] = [
        b"unknown ",
        question.name.as_slice(),
        b" after ",
        count.as_bytes(),
        b" conflicts\n",
    ];
    joined(alloc, &pieces)
}

/// The lines of a verdict.
pub fn verdict_lines(
    alloc: Global,
    net: &Net,
    questions: &[Question],
    question: &Question,
    verdict: &Verdict,
) -> Result<List<u8>, AllocError>
    ensures { IfOk result (λ text. text ≡ verdict_text net.now.files questions.now question.now verdict.now) }
{
    match verdict {
        Verdict::Holds => holds_line(alloc, question),
        Verdict::Broken(cex) => broken_lines(alloc, net, questions, question, cex),
        Verdict::Unknown(after) => unknown_line(alloc, question, *after),
    }
}
