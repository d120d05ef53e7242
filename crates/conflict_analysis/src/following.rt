//! Steps that are followed back from a false clause.

ghost use Rattle.std.specs.Prelude.{◌≡◌, ℕ, ◌+◌, ◌<◌, ◌≤◌, ◌==◌, ◌||◌, ◌∷◌, [], ◌++◌, true, false, Some, length, slice_get, vec_len, vec_capacity, if◌then◌else◌};
ghost use Rattle.std.specs.Prelude.{◌⊎◌, List};
ghost use Rattle.resolution_check.specs.declared.log.Lit.{Lit};
ghost use Rattle.resolution_check.specs.Clauses.{opposite, is_below};
ghost use Rattle.resolution_check.specs.Earned.{has_var};
ghost use Rattle.clause_arena.specs.Held.{IsHeld, lits_of, number_of, held_in};
ghost use Rattle.conflict_analysis.specs.Lessons.{marked, IsOnWay, IsSecond};
ghost use Rattle.conflict_analysis.specs.Steps.{IsTrail};

use crate::marks::{mark_clause, set_mark};
use crate::staying::{is_marked, stays};
use crate::trail::{Trail, level_at, literal_at, reason_at};
use clause_arena::{Arena, ClauseRef};
use resolution_check::Lit;

/// Follows a literal back to the other literals of its reason.
fn follow_reason(
    marks: &mut [bool],
    chain: &mut Vec<u64>,
    arena: &Arena,
    lit: Lit,
    reason: ClauseRef,
)
    requires room { vec_len chain.old < vec_capacity chain.old }
    requires held { IsHeld arena.now reason }
    requires below { is_below (length marks.old) (lits_of arena.now reason.0) ≡ true }
    requires var { lit.var < length marks.old }
    ensures chain { chain.new.items ≡ chain.old.items ++ number_of arena.now reason ∷ [] }
    ensures numbered { held_in arena.now (number_of arena.now reason)
        ≡ Some (record { lits = lits_of arena.now reason.0 }) }
    ensures room { vec_capacity chain.new ≡ vec_capacity chain.old }
    ensures count { vec_len chain.new ≡ vec_len chain.old + 1 }
    ensures marks { (v : ℕ) → marked marks.new v
        ≡ (if lit.var == v then false else (has_var (lits_of arena.now reason.0) v || marked marks.old v)) }
{
    chain.push_reserved(arena.id(reason));
    mark_clause(marks, arena, reason);
    set_mark(marks, lit.var, false);
}

/// Keeps the negation of a literal.
fn keep(marks: &mut [bool], clause: &mut Vec<Lit>, lit: Lit)
    requires room { vec_len clause.old < vec_capacity clause.old }
    requires var { lit.var < length marks.old }
    ensures clause { clause.new.items ≡ clause.old.items ++ opposite lit ∷ [] }
    ensures room { vec_capacity clause.new ≡ vec_capacity clause.old }
    ensures count { vec_len clause.new ≡ vec_len clause.old + 1 }
    ensures marks { (v : ℕ) → marked marks.new v ≡ (if lit.var == v then false else marked marks.old v) }
{
    clause.push_reserved(lit.opposite());
    set_mark(marks, lit.var, false);
}

/// Follows the step at a place back, where its variable is marked: to the other literals of its reason, or, where it is
/// to stay or has no reason, by keeping its negation.
fn follow_step(
    marks: &mut [bool],
    clause: &mut Vec<Lit>,
    chain: &mut Vec<u64>,
    arena: &Arena,
    trail: &Trail,
    at: usize,
    top: u64,
)
    requires trail { IsTrail arena.now (length marks.old) trail.now.lits.items trail.now.levels.items trail.now.reasons.items }
    requires at { at < length trail.now.lits.items }
    requires clause_room { vec_len clause.old < vec_capacity clause.old }
    requires chain_room { vec_len chain.old < vec_capacity chain.old }
    ensures way { IsOnWay arena.now trail.now.lits.items trail.now.levels.items top (at + 1) (marked marks.old) clause.old.items chain.old.items
        → IsOnWay arena.now trail.now.lits.items trail.now.levels.items top at (marked marks.new) clause.new.items chain.new.items }
    ensures clause_room { vec_capacity clause.new ≡ vec_capacity clause.old }
    ensures chain_room { vec_capacity chain.new ≡ vec_capacity chain.old }
    ensures count { vec_len clause.new + vec_len chain.new ≤ vec_len clause.old + vec_len chain.old + 1 }
    ensures chain_grows { vec_len chain.old ≤ vec_len chain.new }
    ensures kept { (l : Lit) → slice_get trail.now.lits.items at ≡ Some l
        → (clause.new.items ≡ clause.old.items) ⊎ (clause.new.items ≡ clause.old.items ++ opposite l ∷ []) }
{
    let lit = literal_at(trail, at);
    if !marks[lit.var as usize] {
        return;
    }
    let stays = stays(marks, arena, trail, at, top);
    match reason_at(trail, at) {
        Some(reason) if !stays => follow_reason(marks, chain, arena, lit, reason),
        _ => keep(marks, clause, lit),
    }
}

/// The level of the second literal, where the step at this place was followed back and there were so many literals
/// before.
fn level_back(clause: &[Lit], before: usize, trail: &Trail, at: usize, back: u64) -> u64
    requires at { at < length trail.now.levels.items }
    ensures { (kept : List Lit) (t : Lit) → IsSecond trail.now.lits.items trail.now.levels.items kept back
        → length kept ≡ before → slice_get trail.now.lits.items at ≡ Some t
        → (clause.now ≡ kept) ⊎ (clause.now ≡ kept ++ opposite t ∷ [])
        → IsSecond trail.now.lits.items trail.now.levels.items clause.now result }
{
    if before != 1 {
        return back;
    }
    if clause.len() != 2 {
        return back;
    }
    level_at(trail, at)
}

/// Follows all steps back that are marked, from the last one; most are not, and are passed at once. Answers the level of the second literal that is kept, 0 where there is
/// none.
pub(crate) fn follow_all(
    marks: &mut [bool],
    clause: &mut Vec<Lit>,
    chain: &mut Vec<u64>,
    arena: &Arena,
    trail: &Trail,
    top: u64,
) -> u64
    requires trail { IsTrail arena.now (length marks.old) trail.now.lits.items trail.now.levels.items trail.now.reasons.items }
    requires few { length trail.now.lits.items ≤ length marks.old }
    requires clause { vec_len clause.old ≡ 0 }
    requires chain { vec_len chain.old ≡ 1 }
    requires clause_room { length marks.old ≤ vec_capacity clause.old }
    requires chain_room { length marks.old < vec_capacity chain.old }
    ensures way { IsOnWay arena.now trail.now.lits.items trail.now.levels.items top (length trail.now.lits.items) (marked marks.old) clause.old.items chain.old.items
        → IsOnWay arena.now trail.now.lits.items trail.now.levels.items top 0 (marked marks.new) clause.new.items chain.new.items }
    ensures second { IsSecond trail.now.lits.items trail.now.levels.items clause.new.items result }
    ensures clause_room { vec_capacity clause.new ≡ vec_capacity clause.old }
    ensures chain_room { vec_capacity chain.new ≡ vec_capacity chain.old }
{
    let mut back = 0;
    for at in (0..trail.lits.len()).rev() {
        if !is_marked(marks, trail, at) {
            continue;
        }
        let before = clause.len();
        follow_step(marks, clause, chain, arena, trail, at, top);
        back = level_back(clause, before, trail, at, back);
    }
    back
}
