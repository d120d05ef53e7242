//! The text of a whole log: its trimmed form, or the first line that is wrong.

ghost use Rattle.std.specs.Prelude.{◌≡◌, ◌≢◌, ◌≤◌, ◌+◌, ◌++◌, ◌<◌, ◌^◌, not, [], List as ListOf, None, Some, IfOk, IfSome, drop, length, option_map};
ghost use Rattle.std.specs.List.{list_all};
ghost use Rattle.mw_text.specs.Words.{is_blank};
ghost use Rattle.log_checker.specs.Sections.{opening_text};
ghost use Rattle.resolution_check.specs.Text.{log_text};
ghost use Rattle.resolution_check.specs.declared.log.Entry.{Entry};
ghost use Rattle.trimmed_logs.specs.Logs as logs;
ghost use Rattle.trimmed_logs.specs.Steps.{IsAppended, IsWhole, IsWrongBehind};
ghost use Rattle.trimmed_logs.specs.Texts.{IsTrimmedOf};
ghost use Rattle.trimmed_logs.specs.Answers.{IsAnswerTo, IsWithin, answer_at_end};

use crate::sections::{Read, read_entries};
use crate::texts::push_trimmed;
use log_checker::lines::first_line;
use log_checker::{Cause, Checked};
use mw_text::{List, same_bytes};
use std::alloc::{AllocError, Global};

/// What the text of a log comes to.
#[derive(Drop)]
pub enum Answer {
    /// Its trimmed form.
    Trimmed(List<u8>),
    /// The first line that is wrong, counted from 1, and what is wrong with it.
    Wrong { line: u64, cause: Cause },
}

fn has_no_blank(name: &[u8]) -> bool
    ensures { result ≡ list_all (λ byte. not (is_blank byte)) name.now }
{
    for byte in name {
        if *byte == b' ' || *byte == b'\t' {
            return false;
        }
    }
    true
}

// The name of the section that the line opens.
fn name_in(line: &[u8]) -> Option<&[u8]>
    ensures { option_map (λ name. name.now) result ≡ logs.name_in line.now }
{
    let (front, name) = line.split_at(line.len().min(2));
    if same_bytes(front, b"q ") && !name.is_empty() && has_no_blank(name) {
        Some(name)
    } else {
        None
    }
}

// Trims what was read of a section behind its opening, of so many bytes.
fn trim_read(
    alloc: Global,
    text: &mut Vec<u8>,
    name: &[u8],
    opening: usize,
    read: Read,
) -> Result<Checked, AllocError>
    requires whole { read.wrong ≡ None → IsWhole read.entries.items }
    requires used { opening + read.used < 2 ^ 63 }
    requires lines { read.lines ≤ read.used }
    ensures lines { IfOk result (λ c. c.lines ≡ read.lines + 1) }
    ensures used { IfOk result (λ c. c.used ≡ opening + read.used) }
    ensures wrong { IfOk result (λ c. c.wrong ≡ read.wrong) }
    ensures trimmed { IfOk result (λ c. c.wrong ≡ None → (trimmed : ListOf Entry)
        × IsTrimmedOf (record { name = name.now; entries = read.entries.items }) trimmed
        × (text.new.items ≡ text.old.items ++ (opening_text name.now ++ log_text trimmed))) }
{
    let Read {
        lines,
        used,
        mut entries,
        wrong,
    } = read;
    if wrong.is_none() {
        push_trimmed(alloc, text, name, &mut entries)?;
    }
    Ok(Checked {
        lines: lines + 1,
        used: opening + used,
        wrong,
    })
}

// A section whose first line is wrong.
fn unopened() -> Checked
    ensures { result ≡ record { lines = 0; used = 0; wrong = Some Cause.BadLine } }
{
    Checked {
        lines: 0,
        used: 0,
        wrong: Some(Cause::BadLine),
    }
}

// Trims the section with which these bytes, which are some, begin.
fn trim_section(alloc: Global, text: &mut Vec<u8>, bytes: &[u8]) -> Result<Checked, AllocError>
    requires { bytes.now ≢ [] }
    ensures whole { IfOk result (λ c. c.wrong ≡ None → IsAppended bytes.now (drop c.used bytes.now) c.lines text.old.items text.new.items) }
    ensures wrong { IfOk result (λ c. IfSome c.wrong (IsWrongBehind bytes.now c.lines)) }
    ensures used { IfOk result (λ c. c.used ≤ length bytes.now) }
    ensures lines { IfOk result (λ c. c.lines ≤ c.used) }
    ensures some { IfOk result (λ c. c.wrong ≡ None → 0 < c.lines) }
{
    let Some(line) = first_line(bytes) else {
        return Ok(unopened());
    };
    let Some(name) = name_in(line.text) else {
        return Ok(unopened());
    };
    let read = read_entries(alloc, line.rest)?;
    trim_read(alloc, text, name, bytes.len() - line.rest.len(), read)
}

// The answer where so many lines were right, and no byte is left.
fn ended(lines: usize, text: Vec<u8>) -> Answer
    ensures { result ≡ answer_at_end lines text.items }
{
    if lines == 0 {
        Answer::Wrong {
            line: 1,
            cause: Cause::Missing,
        }
    } else {
        Answer::Trimmed(List { items: text })
    }
}

/// The trimmed form of a log, section by section, or its first line that is wrong: one that is no line of a log, or is out of
/// order, or that the checker refuses, or ends a section that adds no empty clause; or a line that is missing.
///
/// # Errors
/// Memory was refused.
pub fn trim_log(alloc: Global, bytes: &[u8]) -> Result<Answer, AllocError>
    ensures answers { IfOk result (IsAnswerTo bytes.now) }
    ensures within { IfOk result (IsWithin bytes.now) }
{
    let mut text = Vec::new(alloc);
    let mut rest = bytes;
    let mut lines = 0usize;
    for _turn in 0..bytes.len() {
        if rest.is_empty() {
            return Ok(ended(lines, text));
        }
        let Checked {
            lines: count,
            used,
            wrong,
        } = trim_section(alloc, &mut text, rest)?;
        if let Some(cause) = wrong {
            return Ok(Answer::Wrong {
                line: (lines + count) as u64 + 1,
                cause,
            });
        }
        lines += count;
        let (_, left) = rest.split_at(used);
        rest = left;
    }
    Ok(ended(lines, text))
}
