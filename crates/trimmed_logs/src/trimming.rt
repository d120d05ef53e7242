//! The trimmed form of a list of entries.

ghost use Rattle.std.specs.Prelude.{◌≡◌, ◌+◌, ◌==◌, ◌<◌, ◌++◌, ◌∷◌, ℕ, [], List as ListOf, IfOk, OnOk, Some, if◌then◌else◌, length, map, position};
ghost use Rattle.std.specs.Ordering.{nat_cmp};
ghost use Rattle.std.specs.BTreeMap.{get};
ghost use Rattle.resolution_check.specs.declared.log.Entry.{Entry};
ghost use Rattle.resolution_check.specs.Entries.{Refutes, is_refutation};
ghost use Rattle.trimmed_logs.specs.Trimmed.{HasInputsFirst, IsTrimmed, input_entries};
ghost use Rattle.trimmed_logs.specs.Kept.{kept, named, numbered, trimmed_of};

use crate::marking::kept_entries;
use mw_text::List;
use resolution_check::{Clause, Entry};
use std::alloc::{AllocError, Global};
use std::collections::BTreeMap;

// Appends a copy of the entry where it is an input.
fn push_input(out: &mut Vec<Entry>, entry: &Entry) -> Result<(), AllocError>
    ensures { OnOk result (out.new.items ≡ out.old.items ++ input_entries (entry.now ∷ [])) }
{
    if let Entry::Input { id, clause } = entry {
        let clause = clause.clone()?;
        out.push(Entry::Input { id: *id, clause })?;
    }
    Ok(())
}

// The inputs of the entries.
fn copied_inputs(alloc: Global, entries: &[Entry]) -> Result<Vec<Entry>, AllocError>
    ensures { IfOk result (λ v. v.items ≡ input_entries entries.now) }
{
    let mut inputs = Vec::new(alloc);
    for entry in entries {
        push_input(&mut inputs, entry)?;
    }
    Ok(inputs)
}

// The new name of a number.
fn name_of(names: &BTreeMap<u64, u64>, id: u64) -> u64
    ensures { result ≡ named (λ n. get nat_cmp names.now n) id }
{
    match names.get(&id) {
        Some(name) => *name,
        None => id,
    }
}

// One name more.
fn set_name(names: &mut BTreeMap<u64, u64>, id: u64, name: u64) -> Result<(), AllocError>
    ensures { OnOk result ((n : ℕ) → get nat_cmp names.new n ≡ (if id == n then Some name else get nat_cmp names.old n)) }
{
    names.insert(id, name)?;
    Ok(())
}

// The new names of the numbers of a chain.
fn renamed_chain(
    alloc: Global,
    names: &BTreeMap<u64, u64>,
    chain: &[u64],
) -> Result<List<u64>, AllocError>
    ensures { IfOk result (λ new. new ≡ map (named (λ n. get nat_cmp names.now n)) chain.now) }
{
    let mut renamed = Vec::new(alloc);
    for id in chain {
        renamed.push(name_of(names, *id))?;
    }
    Ok(List { items: renamed })
}

// An addition under another number.
fn renamed_addition(
    alloc: Global,
    names: &BTreeMap<u64, u64>,
    number: u64,
    clause: &Clause,
    chain: &[u64],
) -> Result<Entry, AllocError>
    ensures { IfOk result (λ e. e ≡ Entry.Add number clause.now (map (named (λ n. get nat_cmp names.now n)) chain.now)) }
{
    let chain = renamed_chain(alloc, names, chain)?;
    let clause = clause.clone()?;
    Ok(Entry::Add {
        id: number,
        clause,
        chain,
    })
}

// Appends an addition under the next number.
fn push_renamed(
    alloc: Global,
    out: &mut Vec<Entry>,
    names: &mut BTreeMap<u64, u64>,
    entry: &Entry,
) -> Result<(), AllocError>
    ensures { OnOk result ((rest : ListOf Entry) →
        out.new.items ++ numbered (length out.new.items + 1) (named (λ n. get nat_cmp names.new n)) rest
        ≡ out.old.items ++ numbered (length out.old.items + 1) (named (λ n. get nat_cmp names.old n)) (entry.now ∷ rest)) }
{
    if let Entry::Add { id, clause, chain } = entry {
        let number = out.len() as u64 + 1;
        let addition = renamed_addition(alloc, names, number, clause, chain.as_slice())?;
        out.push(addition)?;
        set_name(names, *id, number)?;
    }
    Ok(())
}

// Appends additions under the numbers that follow.
fn push_all(alloc: Global, out: &mut Vec<Entry>, kept: &[&Entry]) -> Result<(), AllocError>
    ensures { OnOk result (out.new.items ≡ out.old.items ++ numbered (length out.old.items + 1) (λ n. n) (map (λ e. e.now) kept.now)) }
{
    let mut names = BTreeMap::new(alloc);
    for entry in kept {
        push_renamed(alloc, out, &mut names, entry)?;
    }
    Ok(())
}

// The place of the first addition of the empty clause.
fn find_empty(entries: &[Entry]) -> Option<usize>
    ensures { result ≡ position is_refutation entries.now }
{
    entries.iter().position(|entry| match entry {
        Entry::Add { clause, .. } => clause.lits.as_slice().is_empty(),
        _ => false,
    })
}

// The inputs, the additions that stay where the one at that place is the last, and the end.
fn trimmed_at(alloc: Global, entries: &[Entry], at: usize) -> Result<List<Entry>, AllocError>
    requires { at < length entries.now }
    ensures { IfOk result (λ t. (before : ListOf Entry) → (last : Entry) → (after : ListOf Entry) → entries.now ≡ before ++ last ∷ after →
        length before ≡ at → t ≡ trimmed_of entries.now before last) }
{
    let (before, _) = entries.split_at(at);
    let kept = kept_entries(alloc, before, &entries[at])?;
    let mut trimmed = copied_inputs(alloc, entries)?;
    push_all(alloc, &mut trimmed, kept.as_slice())?;
    trimmed.push(Entry::End)?;
    Ok(List { items: trimmed })
}

/// The trimmed form of a list that refutes, in which the inputs stand first with numbers from 1 upwards: the same inputs,
/// then those additions on which the first empty clause rests, each under the next number, and the end. It refutes too.
///
/// # Errors
/// Memory was refused.
pub fn trim(alloc: Global, entries: &[Entry]) -> Result<List<Entry>, AllocError>
    requires refutes { Refutes entries.now }
    requires inputs { HasInputsFirst entries.now }
    ensures trimmed { IfOk result (IsTrimmed entries.now) }
    ensures refutes { IfOk result Refutes }
{
    let Some(at) = find_empty(entries) else {
        unreachable!()
    };
    trimmed_at(alloc, entries, at)
}
