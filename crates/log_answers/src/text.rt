//! The line of an answer about a log.

ghost use Rattle.std.specs.Prelude.{◌≡◌, ◌++◌, IfOk, OnOk};
ghost use Rattle.std.specs.List.{flat_map};
ghost use Rattle.std.specs.String.{string_bytes};
ghost use Rattle.log_answers.specs.Answers as answers;

use crate::answer::LogAnswer;
use log_checker::Cause;
use mw_text::{List, list_of};
use resolution_check::{Bad, Clause, Lit};
use std::alloc::{AllocError, Global};

// Writes a literal and a space.
fn write_lit(out: &mut String, lit: Lit) -> Result<(), AllocError>
    ensures { OnOk result (string_bytes out.new ≡ string_bytes out.old ++ answers.lit_word lit) }
{
    out.push_str(if lit.negated { "-" } else { "" })?;
    let number = lit.var as u128 + 1;
    write!(out, "{number} ")
}

// Writes literals, each with a space behind it.
fn write_lits(out: &mut String, lits: &[Lit]) -> Result<(), AllocError>
    ensures { OnOk result (string_bytes out.new ≡ string_bytes out.old ++ flat_map answers.lit_word lits.now) }
{
    for lit in lits {
        write_lit(out, *lit)?;
    }
    Ok(())
}

// The literals of a clause, and 0.
fn clause_text(alloc: Global, clause: &Clause) -> Result<List<u8>, AllocError>
    ensures { IfOk result (λ text. text ≡ answers.clause_text clause.now) }
{
    let mut out = String::new(alloc);
    write_lits(&mut out, clause.lits.as_slice())?;
    out.push_str("0")?;
    Ok(List {
        items: out.into_bytes(),
    })
}

fn wanted_text(alloc: Global, wanted: &Option<Clause>) -> Result<List<u8>, AllocError>
    ensures { IfOk result (λ text. text ≡ answers.wanted_clause_text wanted.now) }
{
    match wanted {
        Some(clause) => clause_text(alloc, clause),
        None => list_of(alloc, b"none"),
    }
}

fn differs_text(alloc: Global, wanted: &Option<Clause>) -> Result<List<u8>, AllocError>
    ensures { IfOk result (λ text. text ≡ answers.log_cause_text (Cause.InputDiffers wanted.now)) }
{
    let wanted = wanted_text(alloc, wanted)?;
    let mut text = list_of(alloc, b"37 InputDiffers ")?;
    text.items.extend_from_slice(wanted.as_slice())?;
    Ok(text)
}

fn bad_text(bad: Bad) -> &'static [u8]
    ensures { result.now ≡ answers.bad_text bad }
{
    match bad {
        Bad::UnknownId { .. } => b"31 UnknownId",
        Bad::NoPivot { .. } => b"32 NoPivot",
        Bad::NotCovered => b"33 NotCovered",
        Bad::UsedId { .. } => b"34 UsedId",
        Bad::AfterEnd => b"35 AfterEnd",
        Bad::Memory => b"",
    }
}

fn cause_text(alloc: Global, cause: &Cause) -> Result<List<u8>, AllocError>
    ensures { IfOk result (λ text. text ≡ answers.log_cause_text cause.now) }
{
    match cause {
        Cause::BadLine => list_of(alloc, b"36 BadLine"),
        Cause::InputDiffers(wanted) => differs_text(alloc, wanted),
        Cause::Refused(bad) => list_of(alloc, bad_text(*bad)),
        Cause::NotRefuted => list_of(alloc, b"38 NotRefuted"),
        Cause::Missing => list_of(alloc, b"39 Missing"),
    }
}

// no FILE:LINE and a space
fn place_text(alloc: Global, name: &[u8], line: u64) -> Result<List<u8>, AllocError>
    ensures { IfOk result (λ text. text ≡ answers.place_text name.now line) }
{
    let number = line.to_string(alloc)?;
    let mut text = list_of(alloc, b"no ")?;
    text.items.extend_from_slice(name)?;
    text.items.push(b':')?;
    text.items.extend_from_slice(number.as_bytes())?;
    text.items.push(b' ')?;
    Ok(text)
}

fn no_text(alloc: Global, name: &[u8], line: u64, cause: &Cause) -> Result<List<u8>, AllocError>
    ensures { IfOk result (λ text. text ≡ answers.log_answer_text name.now (LogAnswer.No line cause.now)) }
{
    let cause = cause_text(alloc, cause)?;
    let mut text = place_text(alloc, name, line)?;
    text.items.extend_from_slice(cause.as_slice())?;
    text.items.push(b'\n')?;
    Ok(text)
}

/// The line of an answer about the log of that name.
pub fn log_answer_text(
    alloc: Global,
    name: &[u8],
    answer: &LogAnswer,
) -> Result<List<u8>, AllocError>
    ensures { IfOk result (λ text. text ≡ answers.log_answer_text name.now answer.now) }
{
    match answer {
        LogAnswer::Yes => list_of(alloc, b"yes\n"),
        LogAnswer::No { line, cause } => no_text(alloc, name, *line, cause),
    }
}
