//! Chains of clauses, resolved from the front by marks of the literals of the resolvent so far.

ghost use Rattle.std.specs.Prelude.{◌≡◌, ◌||◌, ◌&&◌, not, List, OnOk};
ghost use Rattle.resolution_check.specs.declared.log.Lit.{Lit};
ghost use Rattle.resolution_check.specs.Clauses.{has, without, clashing, the_one, is_inside};
ghost use Rattle.resolution_check.specs.Entries.{resolved, resolved_next};
ghost use Rattle.resolution_check.specs.Known.{held_on};
ghost use Rattle.resolution_check.specs.Marked.{marked, Shows, Resolves, IsShown};

use crate::log::{Bad, Lit};
use crate::marks::Marks;
use crate::shelf::Shelf;
use std::alloc::{AllocError, Global};

/// The one marked literal whose negation stands in the clause.
fn find_pivot(marks: &Marks, clause: &[Lit]) -> Option<Lit>
    ensures { (r : List Lit) → Shows marks.now r → result ≡ the_one (clashing r clause.now) }
{
    let mut found: Option<Lit> = None;
    for lit in clause {
        let met = lit.opposite();
        if marks.has(met) {
            match found {
                Some(pivot) => {
                    if pivot != met {
                        return None;
                    }
                }
                None => found = Some(met),
            }
        }
    }
    found
}

/// Marks each literal of the clause.
fn mark_all(marks: &mut Marks, clause: &[Lit]) -> Result<(), AllocError>
    ensures { OnOk result ((l : Lit) → marked marks.new l ≡ (has clause.now l || marked marks.old l)) }
{
    for lit in clause {
        marks.mark(*lit)?;
    }
    Ok(())
}

/// Marks each literal of the clause but one.
fn mark_without(marks: &mut Marks, clause: &[Lit], gone: Lit) -> Result<(), AllocError>
    ensures { OnOk result ((l : Lit) →
        marked marks.new l ≡ (has (without clause.now gone) l || marked marks.old l)) }
{
    for lit in clause {
        if *lit != gone {
            marks.mark(*lit)?;
        }
    }
    Ok(())
}

/// Takes the marks of each literal of the clause away.
fn unmark_all(marks: &mut Marks, clause: &[Lit])
    ensures { (l : Lit) → marked marks.new l ≡ (not (has clause.now l) && marked marks.old l) }
{
    for lit in clause {
        marks.unmark(*lit);
    }
}

/// Resolves what is marked with the clause of a number, which stands at this place of the chain.
fn resolve_next(marks: &mut Marks, shelf: &Shelf, at: u64, id: u64) -> Result<(), Bad>
    ensures { (r : List Lit) → Shows marks.old r →
        Resolves marks.new result (resolved_next (held_on shelf.now) r at id) }
{
    let Some(clause) = shelf.find(id) else {
        return Err(Bad::UnknownId { id });
    };
    let lits = clause.lits.as_slice();
    let Some(pivot) = find_pivot(marks, lits) else {
        return Err(Bad::NoPivot { at });
    };
    marks.unmark(pivot);
    mark_without(marks, lits, pivot.opposite())?;
    Ok(())
}

/// Resolves the clauses of a chain from its front. What is marked then is the last resolvent.
pub(crate) fn resolve_chain(alloc: Global, shelf: &Shelf, chain: &[u64]) -> Result<Marks, Bad>
    ensures { IsShown result (resolved (held_on shelf.now) chain.now) }
{
    let Some((first, others)) = chain.split_first() else {
        return Err(Bad::NoPivot { at: 0 });
    };
    let Some(clause) = shelf.find(*first) else {
        return Err(Bad::UnknownId { id: *first });
    };
    let mut marks = Marks::new(alloc);
    mark_all(&mut marks, clause.lits.as_slice())?;
    for (i, id) in others.iter().enumerate() {
        resolve_next(&mut marks, shelf, i as u64 + 1, *id)?;
    }
    Ok(marks)
}

/// Whether each marked literal stands in the clause.
pub(crate) fn is_covered(mut marks: Marks, clause: &[Lit]) -> bool
    ensures { (r : List Lit) → Shows marks r → result ≡ is_inside r clause.now }
{
    unmark_all(&mut marks, clause);
    marks.is_empty()
}
