//! What a false clause teaches, and the way back from it.

ghost use Rattle.std.specs.Prelude.{◌≡◌, ◌+◌, ◌<◌, ◌≤◌, ◌^◌, [], ◌∷◌, ◌++◌, Some, IfOk, length, slice_get};
ghost use Rattle.resolution_check.specs.declared.log.Lit.{Lit};
ghost use Rattle.clause_arena.specs.declared.names.ClauseRef.{ClauseRef};
ghost use Rattle.clause_arena.specs.Held.{IsHeld, clauses, lits_of, number_of};
ghost use Rattle.conflict_analysis.specs.Steps.{IsConflict, IsTrail};
ghost use Rattle.conflict_analysis.specs.Levels.{ContainsNone, NeverRises, steps_to};
ghost use Rattle.conflict_analysis.specs.Lessons.{IsBack, IsLesson, IsPointed};
ghost use Rattle.watched_search.specs.Watches.{IsKept};

use crate::assigned::Assigned;
use crate::holding::hold;
use crate::laws::watches_settle;
use crate::stepping::back_to;
use clause_arena::{Arena, ClauseRef};
use conflict_analysis::{Work, analyse};
use std::alloc::AllocError;

/// Learns from a false clause. Answers the level to go back to.
pub fn learn(work: &mut Work, arena: &Arena, assigned: &Assigned, conflict: ClauseRef) -> u64
    requires vars { work.old.vars ≡ assigned.now.vars }
    requires trail { IsTrail arena.now assigned.now.vars assigned.now.lits assigned.now.levels assigned.now.reasons }
    requires kept { IsKept arena.now assigned.now.lits assigned.now.levels 0 }
    requires conflict { IsConflict arena.now assigned.now.lits conflict }
    ensures vars { work.new.vars ≡ work.old.vars }
    ensures lesson { IsLesson arena.now assigned.now.lits work.new.lits work.new.chain }
    ensures point { IsPointed arena.now assigned.now.lits assigned.now.levels (lits_of arena.now conflict.0) work.new.lits work.new.chain }
    ensures earned { ContainsNone arena.now work.new.lits }
    ensures back { IsBack assigned.now.lits assigned.now.levels work.new.lits result }
    ensures order { NeverRises assigned.now.lits assigned.now.levels work.new.lits }
{
    watches_settle(arena, assigned);
    analyse(work, arena, assigned.trail(), conflict)
}

/// Goes back to the level of a learnt clause that is not empty, holds it and makes its first literal true. Answers from
/// which literal on is to be propagated.
pub fn assert_clause(
    work: &Work,
    arena: &mut Arena,
    assigned: &mut Assigned,
    id: u64,
    back: u64,
) -> Result<usize, AllocError>
    requires vars { assigned.old.vars ≡ arena.old.vars }
    requires trail { IsTrail arena.old assigned.old.vars assigned.old.lits assigned.old.levels assigned.old.reasons }
    requires kept { IsKept arena.old assigned.old.lits assigned.old.levels 0 }
    requires lesson { IsLesson arena.old assigned.old.lits work.now.lits work.now.chain }
    requires back { IsBack assigned.old.lits assigned.old.levels work.now.lits back }
    requires some { 0 < length work.now.lits }
    requires above { (c : ClauseRef) → IsHeld arena.old c → number_of arena.old c < id }
    ensures vars { IfOk result (λ _. assigned.new.vars ≡ assigned.old.vars) }
    ensures arena_vars { IfOk result (λ _. arena.new.vars ≡ arena.old.vars) }
    ensures clauses { IfOk result (λ _. clauses arena.new ≡ clauses arena.old ++ (id, work.now.lits) ∷ []) }
    ensures few { IfOk result (λ _. length (clauses arena.new) ≤ 2 ^ 62) }
    ensures trail { IfOk result (λ _. IsTrail arena.new assigned.new.vars assigned.new.lits assigned.new.levels assigned.new.reasons) }
    ensures kept { IfOk result (λ from. IsKept arena.new assigned.new.lits assigned.new.levels from) }
    ensures within { IfOk result (λ from. from ≤ length assigned.new.lits) }
    ensures last { IfOk result (λ from. from + 1 ≡ length assigned.new.lits) }
    ensures lits { IfOk result (λ _. (l : Lit) → slice_get work.now.lits 0 ≡ Some l
        → assigned.new.lits ≡ steps_to assigned.old.lits assigned.old.levels back ++ l ∷ []) }
{
    let from = back_to(arena, assigned, back);
    let _held = hold(arena, assigned, id, work.clause())?;
    Ok(from)
}
