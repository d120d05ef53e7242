//! What a false clause teaches is logged, and then held.

ghost use Rattle.std.specs.Prelude.{◌≡◌, ◌+◌, ◌≤◌, ◌^◌, [], length, map, None, IfOk, OnOk, OnErr, IfSome};
ghost use Rattle.mw_outside.specs.Faults.{Rose};
ghost use Rattle.mw_outside.specs.Taken.{Takes, TakesPart};
ghost use Rattle.resolution_check.specs.declared.log.Entry.{Entry};
ghost use Rattle.resolution_check.specs.Text.{line_of, HasText};
ghost use Rattle.clause_arena.specs.Held.{held_in};
ghost use Rattle.conflict_analysis.specs.Steps.{IsConflict};
ghost use Rattle.watched_search.specs.Sets.{GivesSets};
ghost use Rattle.cdcl_search.specs.Outcomes.{OnLogFault, UnlessLogFault};
ghost use Rattle.cdcl_search.specs.Going.{Cuts, GoesOn, IsReady, Refutes};
ghost use Rattle.cdcl_search.specs.Turns.{TellsAt, vars_of};

use crate::logging::write_addition;
use crate::outcome::SolveFault;
use crate::turns::tell_at;
use clause_arena::{Arena, ClauseRef};
use conflict_analysis::Work;
use deciders::Decider;
use mw_outside::Sink;
use std::alloc::Global;
use watched_search::{Assigned, assert_clause, learn};

/// An addition to come: the number under which it is logged, and the place of the decider whose turn it is.
#[derive(Clone, Copy)]
pub(crate) struct Addition {
    pub(crate) id: u64,
    pub(crate) turn: usize,
}

/// Logs what was learnt as this addition, and tells the decider whose turn it is.
pub(crate) fn log_lesson<L: Sink>(
    alloc: Global,
    log: &mut L,
    deciders: &mut Vec<Box<dyn Decider>>,
    addition: Addition,
    work: &Work,
) -> Result<(), SolveFault>
    requires { HasText (Entry.Add addition.id (record { lits = work.now.lits }) work.now.chain) }
    ensures takes { OnOk result (Takes (L.taken log.old) (L.taken log.new) (line_of (Entry.Add addition.id (record { lits = work.now.lits }) work.now.chain))) }
    ensures part { TakesPart (L.taken log.old) (L.taken log.new) (line_of (Entry.Add addition.id (record { lits = work.now.lits }) work.now.chain)) }
    ensures tells { OnOk result (TellsAt (map (λ b. told b) deciders.old.items) (map (λ b. told b) deciders.new.items) addition.turn (vars_of work.now.lits)) }
    ensures fault { OnLogFault result (Rose (L.faults log.old) (L.faults log.new)) }
    ensures stays { UnlessLogFault result (L.faults log.new ≡ L.faults log.old) }
    ensures later { L.faults log.old ≤ L.faults log.new }
    ensures deciders { length deciders.new.items ≡ length deciders.old.items }
{
    let Addition { id, turn } = addition;
    write_addition(alloc, log, id, work.clause(), work.chain())?;
    tell_at(deciders, turn, work.clause());
    Ok(())
}

/// Learns from a false clause, logs what it learnt as this addition, and holds it. Answers from which literal on is to be
/// propagated; none where the addition is empty, which is not held.
pub(crate) fn take_lesson<L: Sink>(
    alloc: Global,
    log: &mut L,
    deciders: &mut Vec<Box<dyn Decider>>,
    work: &mut Work,
    arena: &mut Arena,
    assigned: &mut Assigned,
    addition: Addition,
    conflict: ClauseRef,
) -> Result<Option<usize>, SolveFault>
    requires work_vars { work.old.vars ≡ assigned.old.vars }
    requires small { assigned.old.vars ≤ 2 ^ 63 }
    requires ready { IsReady arena.old assigned.old addition.id 0 }
    requires conflict { IsConflict arena.old assigned.old.lits conflict }
    ensures work_vars { work.new.vars ≡ work.old.vars }
    ensures vars { IfOk result (λ _. assigned.new.vars ≡ assigned.old.vars) }
    ensures ready { IfOk result (λ next. IfSome next (IsReady arena.new assigned.new (addition.id + 1))) }
    ensures gives { IfOk result (λ next. IfSome next (λ _. GivesSets (held_in arena.old) (held_in arena.new))) }
    ensures going { IfOk result (λ next. IfSome next (λ _. GoesOn (L.taken log.old) (L.taken log.new)
        (map (λ b. told b) deciders.old.items) (map (λ b. told b) deciders.new.items) (held_in arena.old) (held_in arena.new) addition.id addition.turn)) }
    ensures refuted { IfOk result (λ next. next ≡ None → Refutes (L.taken log.old) (L.taken log.new)
        (map (λ b. told b) deciders.old.items) (map (λ b. told b) deciders.new.items) (held_in arena.old) addition.id addition.turn) }
    ensures cut { OnErr result (Cuts (L.taken log.old) (L.taken log.new) (map (λ b. told b) deciders.old.items) (held_in arena.old) addition.id) }
    ensures fault { OnLogFault result (Rose (L.faults log.old) (L.faults log.new)) }
    ensures stays { UnlessLogFault result (L.faults log.new ≡ L.faults log.old) }
    ensures later { L.faults log.old ≤ L.faults log.new }
    ensures deciders { length deciders.new.items ≡ length deciders.old.items }
{
    let back = learn(work, arena, assigned, conflict);
    log_lesson(alloc, log, deciders, addition, work)?;
    if work.clause().len() == 0 {
        return Ok(None);
    }
    let from = assert_clause(work, arena, assigned, addition.id, back)?;
    Ok(Some(from))
}
