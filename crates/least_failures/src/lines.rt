//! The lines of what is found.

ghost use Rattle.std.specs.Prelude.{◌≡◌, IfOk, OnOk};
ghost use Rattle.least_failures.specs.Lines.{at_text, least_text, none_text, unknown_text, unknown_with};
ghost use Rattle.mw_outside.specs.Faults.{Rose};
ghost use Rattle.mw_outside.specs.Taken.{Takes, TakesPart};
ghost use Rattle.run_answers.specs.Answering.{OnWriteFault, UnlessWriteFault};

use crate::outcome::Least;
use cex_json::{Counterexample, write_cex};
use mw_outside::Sink;
use mw_text::List;
use net_model::Net;
use question_lang::Question;
use run_answers::Halt;
use run_inputs::text::joined;
use std::alloc::{AllocError, Global};

fn at_lines(
    alloc: Global,
    net: &Net,
    questions: &[Question],
    question: &Question,
    k: u32,
    cex: &Counterexample,
) -> Result<List<u8>, AllocError>
    ensures { IfOk result (λ text. text ≡ at_text net.now.files questions.now question.now k cex.now) }
{
    let count = k.to_string(alloc)?;
    let told = write_cex(alloc, net, questions, cex)?;
    let pieces: [&[u8]; 7] = [
        b"least ",
        question.name.as_slice(),
        b" ",
        count.as_bytes(),
        b"\n",
        told.as_slice(),
        b"\n",
    ];
    joined(alloc, &pieces)
}

fn none_line(alloc: Global, question: &Question, k: u32) -> Result<List<u8>, AllocError>
    ensures { IfOk result (λ text. text ≡ none_text question.now k) }
{
    let count = k.to_string(alloc)?;
    let pieces: [&[u8]; 5] = [
        b"none ",
        question.name.as_slice(),
        b" up to ",
        count.as_bytes(),
        b"\n",
    ];
    joined(alloc, &pieces)
}

// The number of clauses is written out.
fn unknown_joined(
    alloc: Global,
    question: &Question,
    k: u32,
    learnt: &[u8],
) -> Result<List<u8>, AllocError>
    ensures { IfOk result (λ text. text ≡ unknown_with question.now k learnt.now) }
{
    let count = k.to_string(alloc)?;
    let pieces: [&[u8]; 8] = [
        b"unknown ",
        question.name.as_slice(),
        b" at ",
        count.as_bytes(),
        b" after ",
        learnt,
        b" conflicts",
        b"\n",
    ];
    joined(alloc, &pieces)
}

fn unknown_line(
    alloc: Global,
    question: &Question,
    k: u32,
    after: u64,
) -> Result<List<u8>, AllocError>
    ensures { IfOk result (λ text. text ≡ unknown_text question.now k after) }
{
    let learnt = after.to_string(alloc)?;
    unknown_joined(alloc, question, k, learnt.as_bytes())
}

/// The lines of what is found of a question, for which so many clauses may be learnt.
pub fn least_lines(
    alloc: Global,
    net: &Net,
    questions: &[Question],
    question: &Question,
    budget: u64,
    found: &Least,
) -> Result<List<u8>, AllocError>
    ensures { IfOk result (λ text. text ≡ least_text net.now.files questions.now question.now budget found.now) }
{
    match found {
        Least::At { k, cex } => at_lines(alloc, net, questions, question, *k, cex),
        Least::NoneUpTo { k } => none_line(alloc, question, *k),
        Least::Unknown { k } => unknown_line(alloc, question, *k, budget),
    }
}

/// Prints them.
pub fn put_lines<O: Sink>(
    alloc: Global,
    net: &Net,
    questions: &[Question],
    question: &Question,
    budget: u64,
    found: &Least,
    out: &mut O,
) -> Result<(), Halt>
    ensures takes { OnOk result (Takes (O.taken out.old) (O.taken out.new)
        (least_text net.now.files questions.now question.now budget found.now)) }
    ensures part { TakesPart (O.taken out.old) (O.taken out.new)
        (least_text net.now.files questions.now question.now budget found.now) }
    ensures fault { OnWriteFault result (Rose (O.faults out.old) (O.faults out.new)) }
    ensures writes { UnlessWriteFault result (O.faults out.new ≡ O.faults out.old) }
{
    let text = match least_lines(alloc, net, questions, question, budget, found) {
        Ok(text) => text,
        Err(_) => return Err(Halt::Memory),
    };
    match out.write(text.as_slice()) {
        Ok(()) => Ok(()),
        Err(_) => Err(Halt::WriteFault),
    }
}
