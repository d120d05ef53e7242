//! One line of a section after another.

ghost use Rattle.std.specs.Prelude.{◌≡◌, ◌↔◌, [], None, Some, IfOk, IfSome, IsTrue};
ghost use Rattle.std.specs.Option.{option_map};
ghost use Rattle.resolution_check.specs.Entries.{is_end};
ghost use Rattle.resolution_check.specs.Known.{Known};
ghost use Rattle.resolution_check.specs.Text.{text_of};
ghost use Rattle.resolution_check.specs.declared.log.Entry.{Entry};
ghost use Rattle.log_checker.specs.Entries.{IsWrongEntry, TakesEntry, TakesLine};
ghost use Rattle.log_checker.specs.Sections.{IsInputOf, clause_numbered};

use crate::cause::Cause;
use resolution_check::{Bad, Checker, Clause, Entry, LineRefused, Lit, read_entry};
use std::alloc::{AllocError, Global};

/// What a line does to a section.
#[derive(Drop)]
pub enum Step {
    /// The section goes on.
    Goes,
    /// It is ended, and adds the empty clause.
    Ends,
    /// The line is wrong.
    Wrong(Cause),
}

// The clause of that number.
fn clause_numbered(clauses: &[Clause], id: u64) -> Option<&Clause>
    ensures { option_map (λ clause. clause.now) result ≡ clause_numbered clauses.now id }
{
    if id == 0 {
        return None;
    }
    clauses.get((id - 1) as usize)
}

// Whether two clauses have the same literals in one order.
fn same_literals(a: &[Lit], b: &[Lit]) -> bool
    ensures { IsTrue result ↔ (a.now ≡ b.now) }
{
    a == b
}

// Whether the clause of that number is this one.
fn is_numbered(clauses: &[Clause], id: u64, clause: &Clause) -> bool
    ensures { IsTrue result ↔ (clause_numbered clauses.now id ≡ Some clause.now) }
{
    match clause_numbered(clauses, id) {
        Some(wanted) => same_literals(wanted.lits.as_slice(), clause.lits.as_slice()),
        None => false,
    }
}

// A copy of the clause of that number.
fn wanted_clause(alloc: Global, clauses: &[Clause], id: u64) -> Result<Option<Clause>, AllocError>
    ensures { IfOk result (λ wanted. wanted ≡ clause_numbered clauses.now id) }
{
    match clause_numbered(clauses, id) {
        Some(wanted) => Ok(Some(wanted.clone()?)),
        None => Ok(None),
    }
}

// What is wrong with an input that is not the clause of its number.
fn differing(alloc: Global, clauses: &[Clause], entry: &Entry) -> Result<Option<Cause>, AllocError>
    ensures none { IfOk result (λ cause. cause ≡ None → IsInputOf clauses.now entry.now) }
    ensures some { (known : Known) → IfOk result (λ cause. IfSome cause (IsWrongEntry clauses.now known entry.now)) }
{
    match entry {
        Entry::Input { id, clause } => {
            if is_numbered(clauses, *id, clause) {
                return Ok(None);
            }
            let wanted = wanted_clause(alloc, clauses, *id)?;
            Ok(Some(Cause::InputDiffers(wanted)))
        }
        _ => Ok(None),
    }
}

// Takes an entry other than the end.
fn take_entry(
    alloc: Global,
    checker: &mut Checker,
    clauses: &[Clause],
    entry: Entry,
) -> Result<Step, AllocError>
    ensures { IfOk result (TakesEntry clauses.now checker.old checker.new entry) }
{
    if let Some(cause) = differing(alloc, clauses, &entry)? {
        return Ok(Step::Wrong(cause));
    }
    match checker.step(entry) {
        Ok(()) => Ok(Step::Goes),
        Err(Bad::Memory) => Err(AllocError),
        Err(bad) => Ok(Step::Wrong(Cause::Refused(bad))),
    }
}

// Takes the end.
fn take_end(checker: &Checker) -> Step
    ensures { TakesLine [] checker.now checker.now (text_of Entry.End) result }
{
    if checker.refuted() {
        Step::Ends
    } else {
        Step::Wrong(Cause::NotRefuted)
    }
}

fn is_end(entry: &Entry) -> bool
    ensures { result ≡ is_end entry.now }
{
    matches!(entry, Entry::End)
}

/// Takes a line, without its line feed. What the checker has read is kept where the line is wrong.
pub fn take_line(
    alloc: Global,
    checker: &mut Checker,
    clauses: &[Clause],
    line: &[u8],
) -> Result<Step, AllocError>
    ensures { IfOk result (TakesLine clauses.now checker.old checker.new line.now) }
{
    match read_entry(alloc, line) {
        Ok(entry) => {
            if is_end(&entry) {
                Ok(take_end(checker))
            } else {
                take_entry(alloc, checker, clauses, entry)
            }
        }
        Err(LineRefused::BadLine) => Ok(Step::Wrong(Cause::BadLine)),
        Err(LineRefused::Memory) => Err(AllocError),
    }
}
