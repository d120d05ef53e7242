//! Reductions: from time to time learnt clauses are deleted.
//!
//! Clauses bound this from one side alone: no reduction comes early, and no input, no clause of one or two literals and no
//! reason goes. That a reduction comes where it may, and which clauses go then, is in no clause: it changes time and memory,
//! never an outcome.

ghost use Rattle.std.specs.Prelude.{◌≡◌, ◌+◌, ◌<◌, ◌≤◌, ◌^◌, true, IfOk, IfSome, OnOk, OnErr};
ghost use Rattle.mw_outside.specs.Faults.{Rose};
ghost use Rattle.clause_arena.specs.Held.{IsHeld};
ghost use Rattle.cdcl_search.specs.Outcomes.{OnLogFault, UnlessLogFault};
ghost use Rattle.cdcl_search.specs.Going.{IsReady};
ghost use Rattle.cdcl_search.specs.Reductions.{CutsDown, CutsReduced, GoesDown, GoesOnReduced, IsDue, IsNoReason, KeepsBelow, MayGo};

use crate::logging::write_deletion;
use crate::outcome::SolveFault;
use clause_arena::{Arena, ClauseRef};
use mw_outside::Sink;
use resolution_check::Lit;
use std::alloc::Global;
use watched_search::{Assigned, ROUND, compact};

/// No clause is deleted once numbers are above this one, nor after so many reductions.
const LAST_NUMBER: u64 = 1 << 62;

const LAST_REDUCTION: u64 = 1_000_000;

/// A reduction: learnt clauses have numbers from `first` on, and so many were added; the literals before `from` are
/// propagated; and clauses of at most `longest` literals are kept.
#[derive(Clone, Copy)]
struct Reduction {
    first: u64,
    added: u64,
    from: usize,
    longest: u64,
}

/// Whether so many clauses were added that another reduction may come, and a round is over.
fn is_due(next: u64, added: u64, runs: u64) -> bool
    ensures due { result ≡ true → IsDue next added runs }
    ensures few { result ≡ true → runs < 1000000 }
{
    if added % ROUND != 0 || next > LAST_NUMBER || runs >= LAST_REDUCTION {
        return false;
    }
    1000 * (runs + 1) * (runs + 2) <= added
}

/// Whether a clause is the reason of a literal that is true.
fn is_reason(assigned: &Assigned, c: ClauseRef) -> bool
    ensures { (result ≡ true → ⊥) → IsNoReason c assigned.now.reasons }
{
    assigned.trail().reasons.contains(&Some(c))
}

/// Whether a clause was learnt, has more than two literals and more than are kept, and is no reason.
fn may_go(arena: &Arena, assigned: &Assigned, reduction: Reduction, c: ClauseRef) -> bool
    requires { IsHeld arena.now c }
    ensures { result ≡ true → MayGo arena.now assigned.now.reasons reduction.first c }
{
    let size = arena.size(c);
    if arena.id(c) < reduction.first || size < 3 || size <= reduction.longest {
        return false;
    }
    !is_reason(assigned, c)
}

/// A clause that may go among those that are watched by a literal.
fn next_to_go(
    arena: &Arena,
    assigned: &Assigned,
    reduction: Reduction,
    lit: Lit,
) -> Option<ClauseRef>
    requires { lit.var < arena.now.vars }
    ensures { IfSome result (MayGo arena.now assigned.now.reasons reduction.first) }
{
    let mut at = arena.first_watch(lit);
    for _ in 0..u64::MAX {
        let Some(w) = at else {
            return None;
        };
        if may_go(arena, assigned, reduction, w.clause) {
            return Some(w.clause);
        }
        at = arena.next_watch(w);
    }
    None
}

/// Logs that a clause goes, and deletes it.
fn delete_clause<L: Sink>(
    alloc: Global,
    log: &mut L,
    arena: &mut Arena,
    assigned: &Assigned,
    reduction: Reduction,
    c: ClauseRef,
) -> Result<(), SolveFault>
    requires ready { IsReady arena.old assigned.now (reduction.first + reduction.added) reduction.from }
    requires few { reduction.first + reduction.added ≤ 2 ^ 62 }
    requires may { MayGo arena.old assigned.now.reasons reduction.first c }
    ensures ready { OnOk result (IsReady arena.new assigned.now (reduction.first + reduction.added) reduction.from) }
    ensures down { OnOk result (GoesDown (L.taken log.old) (L.taken log.new) arena.old arena.new reduction.first reduction.added) }
    ensures cut { OnErr result (CutsDown (L.taken log.old) (L.taken log.new) arena.old reduction.first reduction.added) }
    ensures fault { OnLogFault result (Rose (L.faults log.old) (L.faults log.new)) }
    ensures stays { UnlessLogFault result (L.faults log.new ≡ L.faults log.old) }
    ensures later { L.faults log.old ≤ L.faults log.new }
{
    arena.words_are_sound();
    write_deletion(alloc, log, arena.id(c))?;
    arena.delete(c);
    arena.words_are_sound();
    Ok(())
}

/// Deletes the clauses that may go among those that are watched by a literal.
fn delete_watched<L: Sink>(
    alloc: Global,
    log: &mut L,
    arena: &mut Arena,
    assigned: &Assigned,
    reduction: Reduction,
    lit: Lit,
) -> Result<(), SolveFault>
    requires ready { IsReady arena.old assigned.now (reduction.first + reduction.added) reduction.from }
    requires few { reduction.first + reduction.added ≤ 2 ^ 62 }
    requires below { lit.var < assigned.now.vars }
    ensures ready { OnOk result (IsReady arena.new assigned.now (reduction.first + reduction.added) reduction.from) }
    ensures down { OnOk result (GoesDown (L.taken log.old) (L.taken log.new) arena.old arena.new reduction.first reduction.added) }
    ensures cut { OnErr result (CutsDown (L.taken log.old) (L.taken log.new) arena.old reduction.first reduction.added) }
    ensures fault { OnLogFault result (Rose (L.faults log.old) (L.faults log.new)) }
    ensures stays { UnlessLogFault result (L.faults log.new ≡ L.faults log.old) }
    ensures later { L.faults log.old ≤ L.faults log.new }
{
    for _ in 0..u64::MAX {
        let Some(c) = next_to_go(arena, assigned, reduction, lit) else {
            return Ok(());
        };
        delete_clause(alloc, log, arena, assigned, reduction, c)?;
    }
    Ok(())
}

/// Learnt clauses that were counted, and their literals.
#[derive(Clone, Copy)]
struct Counted {
    clauses: u64,
    literals: u64,
}

/// One clause more, where it was learnt.
fn count_clause(arena: &Arena, first: u64, c: ClauseRef, counted: Counted) -> Counted
    requires { IsHeld arena.now c }
{
    if arena.id(c) < first {
        return counted;
    }
    Counted {
        clauses: counted.clauses.saturating_add(1),
        literals: counted.literals.saturating_add(arena.size(c)),
    }
}

/// The learnt clauses that are watched by a literal more.
fn count_watched(arena: &Arena, first: u64, lit: Lit, before: Counted) -> Counted
    requires { lit.var < arena.now.vars }
{
    let mut counted = before;
    let mut at = arena.first_watch(lit);
    for _ in 0..u64::MAX {
        let Some(w) = at else {
            return counted;
        };
        counted = count_clause(arena, first, w.clause, counted);
        at = arena.next_watch(w);
    }
    counted
}

/// How many literals a learnt clause may have to be kept: three quarters of what learnt clauses of two or more literals
/// have on average, each being counted once for each of its watches.
fn longest_kept(arena: &Arena, assigned: &Assigned, first: u64) -> u64
    requires { assigned.now.vars ≡ arena.now.vars }
{
    let mut counted = Counted {
        clauses: 0,
        literals: 0,
    };
    for code in 0..assigned.vars().saturating_mul(2) {
        let lit = Lit {
            var: code / 2,
            negated: code % 2 == 1,
        };
        counted = count_watched(arena, first, lit, counted);
    }
    counted.literals / 4 * 3 / counted.clauses.max(1)
}

/// Deletes the clauses that may go.
fn delete_all<L: Sink>(
    alloc: Global,
    log: &mut L,
    arena: &mut Arena,
    assigned: &Assigned,
    reduction: Reduction,
) -> Result<(), SolveFault>
    requires ready { IsReady arena.old assigned.now (reduction.first + reduction.added) reduction.from }
    requires few { reduction.first + reduction.added ≤ 2 ^ 62 }
    ensures ready { OnOk result (IsReady arena.new assigned.now (reduction.first + reduction.added) reduction.from) }
    ensures down { OnOk result (GoesDown (L.taken log.old) (L.taken log.new) arena.old arena.new reduction.first reduction.added) }
    ensures cut { OnErr result (CutsDown (L.taken log.old) (L.taken log.new) arena.old reduction.first reduction.added) }
    ensures fault { OnLogFault result (Rose (L.faults log.old) (L.faults log.new)) }
    ensures stays { UnlessLogFault result (L.faults log.new ≡ L.faults log.old) }
    ensures later { L.faults log.old ≤ L.faults log.new }
{
    for code in 0..assigned.vars().saturating_mul(2) {
        let lit = Lit {
            var: code / 2,
            negated: code % 2 == 1,
        };
        delete_watched(alloc, log, arena, assigned, reduction, lit)?;
    }
    Ok(())
}

/// Where a reduction is due, deletes learnt clauses, all but the shorter ones, those of one or two literals, and reasons,
/// and moves the others together. Answers how many reductions there were.
pub(crate) fn reduce<L: Sink>(
    alloc: Global,
    log: &mut L,
    arena: &mut Arena,
    assigned: &mut Assigned,
    first: u64,
    added: u64,
    from: usize,
    runs: u64,
) -> Result<u64, SolveFault>
    requires ready { IsReady arena.old assigned.old (first + added) from }
    ensures ready { IfOk result (λ _. IsReady arena.new assigned.new (first + added) from) }
    ensures vars { IfOk result (λ _. assigned.new.vars ≡ assigned.old.vars) }
    ensures keeps { IfOk result (λ _. KeepsBelow first arena.old arena.new) }
    ensures goes { IfOk result (λ more. GoesOnReduced (L.taken log.old) (L.taken log.new) arena.old arena.new first added runs more) }
    ensures cut { OnErr result (CutsReduced (L.taken log.old) (L.taken log.new) arena.old first added runs) }
    ensures fault { OnLogFault result (Rose (L.faults log.old) (L.faults log.new)) }
    ensures stays { UnlessLogFault result (L.faults log.new ≡ L.faults log.old) }
    ensures later { L.faults log.old ≤ L.faults log.new }
{
    let next = first + added;
    if !is_due(next, added, runs) {
        return Ok(runs);
    }
    let reduction = Reduction {
        first,
        added,
        from,
        longest: longest_kept(arena, assigned, first),
    };
    delete_all(alloc, log, arena, assigned, reduction)?;
    compact(arena, assigned);
    Ok(runs + 1)
}
