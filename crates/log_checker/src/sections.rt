//! A section of a log, from its opening to its end.

ghost use Rattle.std.specs.Prelude.{◌≡◌, ◌≢◌, ℕ, ◌≤◌, ◌++◌, List as ListOf, None, IfOk, IfSome, drop, length};
ghost use Rattle.log_checker.specs.Sections.{IsEndedBefore, IsShownBefore, IsWrongAfter, IsWrongWithin, opening_text, unended_cause};

use crate::cause::Cause;
use crate::entries::{Step, take_line};
use crate::lines::first_line;
use mw_text::{List, same_bytes};
use resolution_check::{Checker, Clause};
use std::alloc::{AllocError, Global};

/// How far a log is right.
#[derive(Drop)]
pub struct Checked {
    /// How many lines are right.
    pub lines: usize,
    /// How many bytes these lines are.
    pub used: usize,
    /// What is wrong with the next line; none where the section is whole.
    pub wrong: Option<Cause>,
}

// What is wrong where no line feed comes.
fn unended(rest: &[u8]) -> Cause
    ensures { result ≡ unended_cause rest.now }
{
    match rest {
        [] => Cause::Missing,
        [_, ..] => Cause::BadLine,
    }
}

// Holds the entries of a section against the clauses.
fn check_entries(alloc: Global, clauses: &[Clause], bytes: &[u8]) -> Result<Checked, AllocError>
    ensures ended { IfOk result (λ c. c.wrong ≡ None → IsEndedBefore clauses.now bytes.now c.lines (drop c.used bytes.now)) }
    ensures wrong { IfOk result (λ c. IfSome c.wrong (IsWrongWithin clauses.now bytes.now c.lines)) }
    ensures used { IfOk result (λ c. c.used ≤ length bytes.now) }
    ensures lines { IfOk result (λ c. c.lines ≤ c.used) }
{
    let mut checker = Checker::new(alloc);
    let mut rest = bytes;
    for lines in 0..=bytes.len() {
        let Some(line) = first_line(rest) else {
            return Ok(Checked {
                lines,
                used: bytes.len() - rest.len(),
                wrong: Some(unended(rest)),
            });
        };
        match take_line(alloc, &mut checker, clauses, line.text)? {
            Step::Goes => rest = line.rest,
            Step::Ends => {
                return Ok(Checked {
                    lines: lines + 1,
                    used: bytes.len() - line.rest.len(),
                    wrong: None,
                });
            }
            Step::Wrong(cause) => {
                return Ok(Checked {
                    lines,
                    used: bytes.len() - rest.len(),
                    wrong: Some(cause),
                });
            }
        }
    }
    Ok(Checked {
        lines: 0,
        used: 0,
        wrong: Some(Cause::Missing),
    })
}

// What comes after that text, where the bytes begin with it.
fn after_text<'a>(bytes: &'a [u8], text: &[u8]) -> Option<&'a [u8]>
    ensures some { IfSome result (λ rest. bytes.now ≡ text.now ++ rest.now) }
    ensures none { result ≡ None → (more : ListOf ℕ) → bytes.now ≢ text.now ++ more }
{
    if bytes.len() < text.len() {
        return None;
    }
    let (front, rest) = bytes.split_at(text.len());
    if same_bytes(front, text) {
        Some(rest)
    } else {
        None
    }
}

// The line that opens a section of that name.
fn opening(alloc: Global, name: &[u8]) -> Result<List<u8>, AllocError>
    ensures { IfOk result (λ text. text ≡ opening_text name.now) }
{
    let mut text = List::new(alloc);
    text.items.extend_from_slice(b"q ")?;
    text.items.extend_from_slice(name)?;
    text.items.push(b'\n')?;
    Ok(text)
}

/// Holds the section of that name, with which a log begins, against the clauses. The log is right up to the first line that
/// is wrong, or up to the end of the section, which then adds the empty clause.
pub fn check_section(
    alloc: Global,
    name: &[u8],
    clauses: &[Clause],
    bytes: &[u8],
) -> Result<Checked, AllocError>
    ensures shown { IfOk result (λ c. c.wrong ≡ None → IsShownBefore name.now clauses.now bytes.now c.lines (drop c.used bytes.now)) }
    ensures wrong { IfOk result (λ c. IfSome c.wrong (IsWrongAfter name.now clauses.now bytes.now c.lines)) }
    ensures used { IfOk result (λ c. c.used ≤ length bytes.now) }
    ensures lines { IfOk result (λ c. c.lines ≤ c.used) }
{
    let opening = opening(alloc, name)?;
    let Some(body) = after_text(bytes, opening.as_slice()) else {
        return Ok(Checked {
            lines: 0,
            used: 0,
            wrong: Some(unended(bytes)),
        });
    };
    let Checked { lines, used, wrong } = check_entries(alloc, clauses, body)?;
    Ok(Checked {
        lines: lines + 1,
        used: bytes.len() - body.len() + used,
        wrong,
    })
}
