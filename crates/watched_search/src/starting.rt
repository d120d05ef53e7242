//! Input clauses, held before the first decision.

ghost use Rattle.std.specs.Prelude.{◌≡◌, ℕ, ◌+◌, ◌<◌, ◌++◌, ◌∷◌, [], true, not, nat_lt, None, IfOk, IfSome, length, take};
ghost use Rattle.std.specs.List.{list_all};
ghost use Rattle.resolution_check.specs.Clauses.{is_below};
ghost use Rattle.resolution_check.specs.Entries.{is_empty};
ghost use Rattle.resolution_check.specs.Earned.{vars_differ};
ghost use Rattle.resolution_check.specs.Trails.{holds};
ghost use Rattle.clause_arena.specs.Held.{IsHeld, clauses, lits_of};
ghost use Rattle.conflict_analysis.specs.Steps.{IsConflict, IsTrail};
ghost use Rattle.conflict_analysis.specs.Levels.{ContainsNone};
ghost use Rattle.conflict_analysis.specs.Lessons.{IsLesson};
ghost use Rattle.watched_search.specs.Trails.{last_level};
ghost use Rattle.watched_search.specs.Watches.{Extends, IsKept};
ghost use Rattle.watched_search.specs.Starts.{AreBelow, IsGround, OnesHold, numbered_from};

use crate::assigned::Assigned;
use crate::stepping::assign;
use clause_arena::{Arena, ClauseRef};
use conflict_analysis::{Work, analyse};
use resolution_check::{Clause, Lit};
use std::alloc::AllocError;

/// Makes the only literal of a clause true at the last level. Answers the clause where the literal is false.
fn make_true(
    arena: &Arena,
    assigned: &mut Assigned,
    clause: ClauseRef,
    lit: Lit,
) -> Option<ClauseRef>
    requires trail { IsTrail arena.now assigned.old.vars assigned.old.lits assigned.old.levels assigned.old.reasons }
    requires held { IsHeld arena.now clause }
    requires only { lits_of arena.now clause.0 ≡ lit ∷ [] }
    requires below { lit.var < assigned.old.vars }
    ensures vars { assigned.new.vars ≡ assigned.old.vars }
    ensures trail { IsTrail arena.now assigned.new.vars assigned.new.lits assigned.new.levels assigned.new.reasons }
    ensures extends { Extends assigned.old.lits assigned.new.lits }
    ensures level { last_level assigned.new.levels ≡ last_level assigned.old.levels }
    ensures holds { result ≡ None → holds assigned.new.lits lit ≡ true }
    ensures conflict { IfSome result (IsConflict arena.now assigned.new.lits) }
{
    if assigned.is_true(lit) {
        return None;
    }
    if assigned.is_false(lit) {
        return Some(clause);
    }
    let level = assigned.level();
    assign(arena, assigned, lit, level, Some(clause));
    None
}

/// Holds an input clause that is not empty, before the first decision, and makes its literal true where it has one alone.
/// Answers the clause where that literal is false.
pub fn hold_input(
    arena: &mut Arena,
    assigned: &mut Assigned,
    id: u64,
    clause: &[Lit],
) -> Result<Option<ClauseRef>, AllocError>
    requires vars { assigned.old.vars ≡ arena.old.vars }
    requires trail { IsTrail arena.old assigned.old.vars assigned.old.lits assigned.old.levels assigned.old.reasons }
    requires ground { IsGround arena.old assigned.old.levels }
    requires ones { OnesHold arena.old assigned.old.lits }
    requires below { is_below arena.old.vars clause.now ≡ true }
    requires differ { vars_differ clause.now ≡ true }
    requires some { 0 < length clause.now }
    requires above { AreBelow arena.old id }
    ensures vars { IfOk result (λ _. assigned.new.vars ≡ arena.new.vars) }
    ensures arena_vars { IfOk result (λ _. arena.new.vars ≡ arena.old.vars) }
    ensures clauses { IfOk result (λ _. clauses arena.new ≡ clauses arena.old ++ (id, clause.now) ∷ []) }
    ensures above { IfOk result (λ _. AreBelow arena.new (id + 1)) }
    ensures trail { IfOk result (λ _. IsTrail arena.new assigned.new.vars assigned.new.lits assigned.new.levels assigned.new.reasons) }
    ensures ground { IfOk result (λ _. IsGround arena.new assigned.new.levels) }
    ensures ones { IfOk result (λ found. found ≡ None → OnesHold arena.new assigned.new.lits) }
    ensures conflict { IfOk result (λ found. IfSome found (IsConflict arena.new assigned.new.lits)) }
{
    arena.words_are_sound();
    let reference = arena.add(id, clause)?;
    arena.words_are_sound();
    if clause.len() > 1 {
        return Ok(None);
    }
    let found = make_true(arena, assigned, reference, clause[0]);
    Ok(found)
}

/// Holds the inputs, numbered from 1, and makes the literals of those that have one alone true. Answers one that is false,
/// if there is one; those behind it are then not held.
pub fn hold_inputs(
    arena: &mut Arena,
    assigned: &mut Assigned,
    inputs: &[Clause],
) -> Result<Option<ClauseRef>, AllocError>
    requires vars { assigned.old.vars ≡ arena.old.vars }
    requires no_clauses { clauses arena.old ≡ [] }
    requires no_lits { assigned.old.lits ≡ [] }
    requires no_levels { assigned.old.levels ≡ [] }
    requires no_reasons { assigned.old.reasons ≡ [] }
    requires filled { list_all (λ c. not (is_empty c.lits)) inputs.now ≡ true }
    requires once { list_all (λ c. vars_differ c.lits) inputs.now ≡ true }
    requires below { list_all (λ c. is_below arena.old.vars c.lits) inputs.now ≡ true }
    ensures vars { IfOk result (λ _. assigned.new.vars ≡ arena.new.vars) }
    ensures arena_vars { IfOk result (λ _. arena.new.vars ≡ arena.old.vars) }
    ensures trail { IfOk result (λ _. IsTrail arena.new assigned.new.vars assigned.new.lits assigned.new.levels assigned.new.reasons) }
    ensures ground { IfOk result (λ _. IsGround arena.new assigned.new.levels) }
    ensures kept { IfOk result (λ found. found ≡ None → IsKept arena.new assigned.new.lits assigned.new.levels 0) }
    ensures clauses { IfOk result (λ found. found ≡ None → clauses arena.new ≡ numbered_from 1 inputs.now) }
    ensures above { IfOk result (λ found. found ≡ None → AreBelow arena.new (length inputs.now + 1)) }
    ensures conflict { IfOk result (λ found. IfSome found (IsConflict arena.new assigned.new.lits)) }
    ensures front { IfOk result (λ _. (n : ℕ) × (clauses arena.new ≡ numbered_from 1 (take n inputs.now))) }
{
    for at in 0..inputs.len() {
        let found = hold_input(arena, assigned, at as u64 + 1, inputs[at].lits.as_slice())?;
        if found.is_some() {
            return Ok(found);
        }
    }
    Ok(None)
}

/// Learns the empty clause from a clause that is false at level 0.
pub fn refute(work: &mut Work, arena: &Arena, assigned: &Assigned, conflict: ClauseRef)
    requires vars { work.old.vars ≡ assigned.now.vars }
    requires trail { IsTrail arena.now assigned.now.vars assigned.now.lits assigned.now.levels assigned.now.reasons }
    requires ground { IsGround arena.now assigned.now.levels }
    requires conflict { IsConflict arena.now assigned.now.lits conflict }
    ensures vars { work.new.vars ≡ work.old.vars }
    ensures lesson { IsLesson arena.now assigned.now.lits work.new.lits work.new.chain }
    ensures earned { ContainsNone arena.now work.new.lits }
    ensures empty { work.new.lits ≡ [] }
{
    arena.words_are_sound();
    let _back = analyse(work, arena, assigned.trail(), conflict);
}
