//! From conflict to conflict, until an outcome.

ghost use Rattle.std.specs.Prelude.{◌≡◌, ℕ, ◌+◌, ◌<◌, ◌≤◌, ◌^◌, true, List, Option, Some, IfOk, OnErr, length, map};
ghost use Rattle.term_store.specs.Terms.{truth};
ghost use Rattle.resolution_check.specs.declared.log.Clause.{Clause};
ghost use Rattle.resolution_check.specs.Entries.{clause_value};
ghost use Rattle.resolution_check.specs.Trails.{is_value, value_of};
ghost use Rattle.mw_outside.specs.Faults.{Rose};
ghost use Rattle.clause_arena.specs.Held.{held_in};
ghost use Rattle.cdcl_search.specs.Outcomes.{IsCut, IsLogged, OnLogFault, OnSat, OnUnknown, UnlessLogFault};
ghost use Rattle.cdcl_search.specs.Going.{IsGoing, IsReady};

use crate::learning::{Addition, take_lesson};
use crate::outcome::{Outcome, SolveFault};
use crate::reducing::reduce;
use crate::turns::turn_of;
use clause_arena::Arena;
use conflict_analysis::Work;
use deciders::Decider;
use mw_outside::Sink;
use mw_text::List;
use resolution_check::Lit;
use std::alloc::{AllocError, Global};
use watched_search::{Assigned, end_round, find_conflict, totals_hold};

/// The value of each variable, false where it has none.
fn values_of(alloc: Global, assigned: &Assigned) -> Result<List<bool>, AllocError>
    ensures len { IfOk result (λ values. length values ≡ assigned.now.vars) }
    ensures values { IfOk result (λ values. (var : ℕ) → var < assigned.now.vars
        → truth values var ≡ is_value (value_of assigned.now.lits var) true) }
{
    let mut values = List::new(alloc);
    for var in 0..assigned.vars() {
        let lit = Lit {
            var,
            negated: false,
        };
        values.items.push(assigned.is_true(lit))?;
    }
    Ok(values)
}

/// Searches from the clauses held, until an outcome or until `budget` clauses were added, which are numbered from `first`.
pub(crate) fn search<L: Sink>(
    alloc: Global,
    log: &mut L,
    deciders: &mut Vec<Box<dyn Decider>>,
    work: &mut Work,
    arena: &mut Arena,
    assigned: &mut Assigned,
    first: u64,
    budget: u64,
) -> Result<Outcome, SolveFault>
    requires work_vars { work.old.vars ≡ assigned.old.vars }
    requires small { assigned.old.vars ≤ 2 ^ 63 }
    requires ready { IsReady arena.old assigned.old first 0 }
    ensures done { IfOk result (λ outcome. (before : Option (List ℕ)) (ins : List Clause) →
        IsGoing before (L.taken log.old) ins (held_in arena.old) first 0 0 (map (λ b. told b) deciders.old.items)
        → IsLogged before (L.taken log.new) ins budget (map (λ b. told b) deciders.new.items) outcome) }
    ensures sat { IfOk result (λ outcome. OnSat outcome (λ values. (id : ℕ) (c : Clause) → held_in arena.old id ≡ Some c
        → clause_value (truth values) c.lits ≡ true)) }
    ensures values { IfOk result (λ outcome. OnSat outcome (λ values. length values ≡ assigned.old.vars)) }
    ensures unknown { IfOk result (λ outcome. OnUnknown outcome (λ added. added ≡ budget)) }
    ensures cut { OnErr result ((before : Option (List ℕ)) (ins : List Clause) →
        IsGoing before (L.taken log.old) ins (held_in arena.old) first 0 0 (map (λ b. told b) deciders.old.items)
        → IsCut before (L.taken log.new) ins budget) }
    ensures fault { OnLogFault result (Rose (L.faults log.old) (L.faults log.new)) }
    ensures stays { UnlessLogFault result (L.faults log.new ≡ L.faults log.old) }
    ensures later { L.faults log.old ≤ L.faults log.new }
    ensures deciders { length deciders.new.items ≡ length deciders.old.items }
{
    let mut from = 0;
    let mut runs = 0;
    for added in 0..budget {
        let turn = turn_of(deciders.len(), added);
        let Some(conflict) = find_conflict(arena, assigned, deciders, turn, from) else {
            totals_hold(arena, assigned);
            let values = values_of(alloc, assigned)?;
            return Ok(Outcome::Sat { values });
        };
        let addition = Addition {
            id: first + added,
            turn,
        };
        let Some(next) = take_lesson(
            alloc, log, deciders, work, arena, assigned, addition, conflict,
        )?
        else {
            return Ok(Outcome::Unsat);
        };
        from = end_round(arena, assigned, next, added + 1);
        runs = reduce(alloc, log, arena, assigned, first, added + 1, from, runs)?;
    }
    Ok(Outcome::Unknown { added: budget })
}
