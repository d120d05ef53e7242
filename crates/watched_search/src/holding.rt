//! Learnt clauses that are held, and make their first literals true.

ghost use Rattle.std.specs.Prelude.{◌≡◌, ◌<◌, ◌≤◌, ◌^◌, ◌++◌, ◌∷◌, [], true, Some, IfOk, length, slice_get};
ghost use Rattle.resolution_check.specs.declared.log.Lit.{Lit};
ghost use Rattle.resolution_check.specs.Clauses.{is_below};
ghost use Rattle.resolution_check.specs.Earned.{vars_differ};
ghost use Rattle.clause_arena.specs.declared.names.ClauseRef.{ClauseRef};
ghost use Rattle.clause_arena.specs.Held.{IsHeld, clauses, number_of};
ghost use Rattle.conflict_analysis.specs.Steps.{IsTrail};
ghost use Rattle.watched_search.specs.Trails.{last_level};
ghost use Rattle.watched_search.specs.Watches.{Extends, IsAsserting, IsKept};

use crate::assigned::Assigned;
use crate::stepping::assign;
use clause_arena::{Arena, ClauseRef};
use resolution_check::Lit;
use std::alloc::AllocError;

/// Holds a learnt clause, and makes its first literal true.
pub fn hold(
    arena: &mut Arena,
    assigned: &mut Assigned,
    id: u64,
    clause: &[Lit],
) -> Result<ClauseRef, AllocError>
    requires vars { assigned.old.vars ≡ arena.old.vars }
    requires trail { IsTrail arena.old assigned.old.vars assigned.old.lits assigned.old.levels assigned.old.reasons }
    requires kept { IsKept arena.old assigned.old.lits assigned.old.levels (length assigned.old.lits) }
    requires below { is_below arena.old.vars clause.now ≡ true }
    requires differ { vars_differ clause.now ≡ true }
    requires above { (c : ClauseRef) → IsHeld arena.old c → number_of arena.old c < id }
    requires asserting { IsAsserting assigned.old.lits assigned.old.levels clause.now }
    ensures held { IfOk result (λ c. IsHeld arena.new c × (number_of arena.new c ≡ id)) }
    ensures lits { IfOk result (λ _. Extends assigned.old.lits assigned.new.lits) }
    ensures first { IfOk result (λ _. (l : Lit) → slice_get clause.now 0 ≡ Some l
        → assigned.new.lits ≡ assigned.old.lits ++ l ∷ []) }
    ensures levels { IfOk result (λ _. assigned.new.levels ≡ assigned.old.levels ++ last_level assigned.old.levels ∷ []) }
    ensures reasons { IfOk result (λ c. assigned.new.reasons ≡ assigned.old.reasons ++ Some c ∷ []) }
    ensures vars { IfOk result (λ _. assigned.new.vars ≡ assigned.old.vars) }
    ensures arena_vars { IfOk result (λ _. arena.new.vars ≡ arena.old.vars) }
    ensures clauses { IfOk result (λ _. clauses arena.new ≡ clauses arena.old ++ (id, clause.now) ∷ []) }
    ensures few { IfOk result (λ _. length (clauses arena.new) ≤ 2 ^ 62) }
    ensures kept { IfOk result (λ _. IsKept arena.new assigned.new.lits assigned.new.levels (length assigned.old.lits)) }
    ensures trail { IfOk result (λ _. IsTrail arena.new assigned.new.vars assigned.new.lits assigned.new.levels assigned.new.reasons) }
{
    arena.words_are_sound();
    let reference = arena.add(id, clause)?;
    arena.words_are_sound();
    let level = assigned.level();
    assign(arena, assigned, clause[0], level, Some(reference));
    Ok(reference)
}
