//! Which additions stay.

ghost use Rattle.std.specs.Prelude.{◌≡◌, ◌==◌, ◌||◌, ◌++◌, ◌∷◌, ℕ, [], List as ListOf, IfOk, OnOk, map, reverse};
ghost use Rattle.std.specs.List.{list_any};
ghost use Rattle.std.specs.Ordering.{nat_cmp};
ghost use Rattle.std.specs.BTreeSet.{contains};
ghost use Rattle.trimmed_logs.specs.Trimmed.{is_used_by, uses};
ghost use Rattle.trimmed_logs.specs.Kept.{IsFound, kept};
ghost use Rattle.resolution_check.specs.declared.log.Entry.{Entry};

use resolution_check::Entry;
use std::alloc::{AllocError, Global};
use std::collections::BTreeSet;

// Marks a number.
fn mark(marks: &mut BTreeSet<u64>, number: u64) -> Result<(), AllocError>
    ensures { OnOk result ((id : ℕ) → contains nat_cmp marks.new id ≡ ((number == id) || contains nat_cmp marks.old id)) }
{
    marks.insert(number)?;
    Ok(())
}

// Marks each of these numbers.
fn mark_all(marks: &mut BTreeSet<u64>, chain: &[u64]) -> Result<(), AllocError>
    ensures { OnOk result ((id : ℕ) → contains nat_cmp marks.new id ≡ (list_any (λ other. other == id) chain.now || contains nat_cmp marks.old id)) }
{
    for id in chain {
        mark(marks, *id)?;
    }
    Ok(())
}

// Marks the numbers in the chain of an entry.
fn mark_chain(marks: &mut BTreeSet<u64>, entry: &Entry) -> Result<(), AllocError>
    ensures { OnOk result ((id : ℕ) → contains nat_cmp marks.new id ≡ (uses id entry.now || contains nat_cmp marks.old id)) }
{
    match entry {
        Entry::Add { chain, .. } => mark_all(marks, chain.as_slice()),
        _ => Ok(()),
    }
}

// Whether the entry is an addition that stands in the chain of one of those whose chains are marked.
fn is_marked(marks: &BTreeSet<u64>, entry: &Entry) -> bool
    ensures { (later : ListOf Entry) → ((id : ℕ) → contains nat_cmp marks.now id ≡ list_any (uses id) later) →
        result ≡ is_used_by later entry.now }
{
    match entry {
        Entry::Add { id, .. } => marks.contains(id),
        _ => false,
    }
}

// Keeps the entry before those that were looked at, where it is used by one that stays.
fn keep<'a>(
    marks: &mut BTreeSet<u64>,
    found: &mut Vec<&'a Entry>,
    entry: &'a Entry,
) -> Result<(), AllocError>
    ensures { OnOk result ((last : Entry) → (later : ListOf Entry) →
        IsFound (λ id. contains nat_cmp marks.old id) (map (λ e. e.now) found.old.items) last later →
        IsFound (λ id. contains nat_cmp marks.new id) (map (λ e. e.now) found.new.items) last (entry.entry.now ∷ later)) }
{
    if is_marked(marks, entry) {
        mark_chain(marks, entry)?;
        found.push(entry)?;
    }
    Ok(())
}

// The additions that stay, the last first.
fn kept_backwards<'a>(
    alloc: Global,
    before: &'a [Entry],
    last: &'a Entry,
) -> Result<Vec<&'a Entry>, AllocError>
    ensures { IfOk result (λ v. map (λ e. e.now) v.items ≡ reverse (kept last.entry.now before.entry.now ++ last.entry.now ∷ [])) }
{
    let mut marks = BTreeSet::new(alloc);
    mark_chain(&mut marks, last)?;
    let mut found = Vec::new(alloc);
    found.push(last)?;
    for i in (0..before.len()).rev() {
        keep(&mut marks, &mut found, &before[i])?;
    }
    Ok(found)
}

/// The additions before the last one that stay, and the last one: each of the others stands in the chain of a later one
/// that stays.
///
/// # Errors
/// Memory was refused.
pub fn kept_entries<'a>(
    alloc: Global,
    before: &'a [Entry],
    last: &'a Entry,
) -> Result<Vec<&'a Entry>, AllocError>
    ensures { IfOk result (λ v. map (λ e. e.now) v.items ≡ kept last.entry.now before.entry.now ++ last.entry.now ∷ []) }
{
    let mut found = kept_backwards(alloc, before, last)?;
    found.reverse();
    Ok(found)
}
