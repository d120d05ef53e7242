//! A section of a log: its lines up to its end.

ghost use Rattle.std.specs.Prelude.{◌≡◌, ◌≤◌, ◌+◌, ◌++◌, ◌∷◌, [], ℕ, false, List as ListOf, Some, None, Ok, Err, IfOk, IfSome, OnOk, drop, length};
ghost use Rattle.resolution_check.specs.Entries.{is_end};
ghost use Rattle.resolution_check.specs.declared.log.Entry.{Entry};
ghost use Rattle.log_checker.specs.Lines.{pieces};
ghost use Rattle.trimmed_logs.specs.Held.{IsHeld};
ghost use Rattle.trimmed_logs.specs.Logs as logs;
ghost use Rattle.trimmed_logs.specs.Logs.{Section};
ghost use Rattle.trimmed_logs.specs.Steps.{IsWhole, TakesInner, WithinEnds, WithinWrong};
ghost use Rattle.log_checker.specs.Sections.{unended_cause};

use crate::holding::{Order, take_entry};
use log_checker::Cause;
use log_checker::lines::first_line;
use resolution_check::{Checker, Entry, LineRefused, read_entry};
use std::alloc::{AllocError, Global};

/// What a line does to an open section.
#[derive(Drop)]
pub enum Step {
    /// It goes on.
    Goes,
    /// It ends, and adds the empty clause.
    Ends,
    /// The line is wrong.
    Wrong(Cause),
}

fn is_end(entry: &Entry) -> bool
    ensures { result ≡ is_end entry.now }
{
    matches!(entry, Entry::End)
}

// Takes a line of an open section.
fn take_line(
    alloc: Global,
    checker: &mut Checker,
    order: &mut Order,
    entries: &mut Vec<Entry>,
    line: &[u8],
) -> Result<Step, AllocError>
    requires { IsHeld checker.old order.old entries.old.items }
    ensures takes { IfOk result (TakesInner entries.old.items entries.new.items line.now) }
    ensures held { IfOk result (λ step. step ≡ Step.Goes → IsHeld checker.new order.new entries.new.items) }
    ensures stays { IfOk result (λ step. step ≡ Step.Ends → IsHeld checker.old order.old entries.new.items) }
{
    match read_entry(alloc, line) {
        Ok(entry) => {
            if is_end(&entry) {
                return Ok(if checker.refuted() {
                    Step::Ends
                } else {
                    Step::Wrong(Cause::NotRefuted)
                });
            }
            match take_entry(checker, order, entries, entry)? {
                None => Ok(Step::Goes),
                Some(cause) => Ok(Step::Wrong(cause)),
            }
        }
        Err(LineRefused::BadLine) => Ok(Step::Wrong(Cause::BadLine)),
        Err(LineRefused::Memory) => Err(AllocError),
    }
}

/// The entries of a section, as far as they are right.
#[derive(Drop)]
pub struct Read {
    /// How many lines are right.
    pub lines: usize,
    /// How many bytes these lines are.
    pub used: usize,
    /// The entries before the end.
    pub entries: Vec<Entry>,
    /// What is wrong with the next line; none where the section is whole.
    pub wrong: Option<Cause>,
}

// What is wrong where no line feed comes.
fn unended(rest: &[u8]) -> Cause
    ensures { result ≡ unended_cause rest.now }
{
    match rest {
        [] => Cause::Missing,
        [_, ..] => Cause::BadLine,
    }
}

/// Reads the lines behind the opening of a section, up to its end or the first that is wrong.
///
/// # Errors
/// Memory was refused.
pub fn read_entries(alloc: Global, bytes: &[u8]) -> Result<Read, AllocError>
    ensures ends { IfOk result (λ r. r.wrong ≡ None → WithinEnds bytes.now (drop r.used bytes.now) r.lines r.entries.items) }
    ensures whole { IfOk result (λ r. r.wrong ≡ None → IsWhole r.entries.items) }
    ensures wrong { IfOk result (λ r. IfSome r.wrong (WithinWrong bytes.now r.lines)) }
    ensures used { IfOk result (λ r. r.used ≤ length bytes.now) }
    ensures lines { IfOk result (λ r. r.lines ≤ r.used) }
{
    let mut checker = Checker::new(alloc);
    let mut order = Order {
        top: 0,
        begun: false,
    };
    let mut entries = Vec::new(alloc);
    let mut rest = bytes;
    for lines in 0..=bytes.len() {
        let Some(line) = first_line(rest) else {
            return Ok(Read {
                lines,
                used: bytes.len() - rest.len(),
                entries,
                wrong: Some(unended(rest)),
            });
        };
        match take_line(alloc, &mut checker, &mut order, &mut entries, line.text)? {
            Step::Goes => rest = line.rest,
            Step::Ends => {
                return Ok(Read {
                    lines: lines + 1,
                    used: bytes.len() - line.rest.len(),
                    entries,
                    wrong: None,
                });
            }
            Step::Wrong(cause) => {
                return Ok(Read {
                    lines,
                    used: bytes.len() - rest.len(),
                    entries,
                    wrong: Some(cause),
                });
            }
        }
    }
    Ok(Read {
        lines: 0,
        used: 0,
        entries,
        wrong: Some(Cause::Missing),
    })
}
