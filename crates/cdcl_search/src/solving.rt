//! The search as a whole.

ghost use Rattle.std.specs.Prelude.{◌≡◌, ℕ, ◌+◌, ◌*◌, ◌<◌, ◌≤◌, ◌^◌, true, List, Option, IfOk, OnErr, length, map};
ghost use Rattle.term_store.specs.Terms.{truth};
ghost use Rattle.resolution_check.specs.Entries.{satisfies, IsUnsatisfiable};
ghost use Rattle.resolution_check.specs.Text.{log_text};
ghost use Rattle.cnf_blaster.specs.Proper.{IsProper};
ghost use Rattle.mw_outside.specs.Faults.{Rose};
ghost use Rattle.mw_outside.specs.Taken.{Takes};
ghost use Rattle.cdcl_search.specs.Outcomes.{IsCut, IsLogged, OnLogFault, OnSat, OnUnknown, OnUnsat, UnlessLogFault, input_entries};
ghost use Rattle.cdcl_search.specs.Turns.{AreUntold};

use crate::learning::{Addition, log_lesson};
use crate::logging::write_inputs;
use crate::outcome::{Outcome, SolveFault};
use crate::searching::search;
use crate::turns::prepare_all;
use clause_arena::Arena;
use cnf_blaster::Cnf;
use conflict_analysis::Work;
use deciders::Decider;
use mw_outside::Sink;
use std::alloc::Global;
use watched_search::{Assigned, hold_inputs, refute};

/// Searches for an assignment that satisfies the clauses, which were logged as inputs.
fn solve_written<L: Sink>(
    alloc: Global,
    cnf: &Cnf,
    budget: u64,
    log: &mut L,
    deciders: &mut Vec<Box<dyn Decider>>,
) -> Result<Outcome, SolveFault>
    requires proper { IsProper cnf.now }
    requires vars { cnf.now.vars ≤ 2 ^ 63 }
    requires few { length cnf.now.clauses < 2 ^ 63 }
    requires budget { 1 ≤ budget }
    requires untold { AreUntold (map (λ b. told b) deciders.old.items) }
    ensures done { IfOk result (λ outcome. (before : Option (List ℕ)) →
        Takes before (L.taken log.old) (log_text (input_entries 1 cnf.now.clauses))
        → IsLogged before (L.taken log.new) cnf.now.clauses budget (map (λ b. told b) deciders.new.items) outcome) }
    ensures sat { IfOk result (λ outcome. OnSat outcome (λ values. satisfies (truth values) cnf.now.clauses ≡ true)) }
    ensures values { IfOk result (λ outcome. OnSat outcome (λ values. length values ≡ cnf.now.vars)) }
    ensures unknown { IfOk result (λ outcome. OnUnknown outcome (λ added. added ≡ budget)) }
    ensures cut { OnErr result ((before : Option (List ℕ)) →
        Takes before (L.taken log.old) (log_text (input_entries 1 cnf.now.clauses))
        → IsCut before (L.taken log.new) cnf.now.clauses budget) }
    ensures fault { OnLogFault result (Rose (L.faults log.old) (L.faults log.new)) }
    ensures stays { UnlessLogFault result (L.faults log.new ≡ L.faults log.old) }
    ensures later { L.faults log.old ≤ L.faults log.new }
    ensures deciders { length deciders.new.items ≡ length deciders.old.items }
{
    let mut work = Work::new(alloc, cnf.vars)?;
    let mut arena = Arena::new(alloc, cnf.vars)?;
    let mut assigned = Assigned::new(alloc, cnf.vars)?;
    let inputs = cnf.clauses.as_slice();
    let first = inputs.len() as u64 + 1;
    if let Some(conflict) = hold_inputs(&mut arena, &mut assigned, inputs)? {
        refute(&mut work, &arena, &assigned, conflict);
        let addition = Addition { id: first, turn: 0 };
        log_lesson(alloc, log, deciders, addition, &work)?;
        return Ok(Outcome::Unsat);
    }
    search(
        alloc,
        log,
        deciders,
        &mut work,
        &mut arena,
        &mut assigned,
        first,
        budget,
    )
}

/// Looks for an assignment that satisfies the clauses, and logs the clauses as inputs and then each clause that it learns.
/// It learns at most `budget` clauses, and fewer where it finds an assignment. The deciders are prepared first. Each has
/// its turn for 256 additions, chooses what is decided, and is told of the variables of these additions; a choice that is
/// no free variable gives way to the least free one, false first, which is also taken where there is no decider.
///
/// # Errors
/// `LogFault` where a write of the log failed; `Memory` where memory was refused and no write failed. A front of the log
/// then stands.
pub fn solve<L: Sink>(
    alloc: Global,
    cnf: &Cnf,
    budget: u64,
    log: &mut L,
    deciders: &mut Vec<Box<dyn Decider>>,
) -> Result<Outcome, SolveFault>
    requires proper { IsProper cnf.now }
    requires vars { cnf.now.vars ≤ 2 ^ 63 }
    requires budget { 1 ≤ budget }

    ensures unsat { IfOk result (λ outcome. OnUnsat outcome (IsUnsatisfiable cnf.now.clauses)) }
    ensures sat { IfOk result (λ outcome. OnSat outcome (λ values. satisfies (truth values) cnf.now.clauses ≡ true)) }
    ensures values { IfOk result (λ outcome. OnSat outcome (λ values. length values ≡ cnf.now.vars)) }
    ensures unknown { IfOk result (λ outcome. OnUnknown outcome (λ added. added ≡ budget)) }
    ensures bound { IfOk result (λ outcome. OnUnknown outcome (λ added. added ≤ 3 ^ cnf.now.vars * (3 ^ cnf.now.vars + 1))) }

    ensures logged { IfOk result (IsLogged (L.taken log.old) (L.taken log.new) cnf.now.clauses budget (map (λ b. told b) deciders.new.items)) }
    ensures deciders { length deciders.new.items ≡ length deciders.old.items }
    ensures cut { OnErr result (IsCut (L.taken log.old) (L.taken log.new) cnf.now.clauses budget) }
    ensures fault { OnLogFault result (Rose (L.faults log.old) (L.faults log.new)) }
    ensures stays { UnlessLogFault result (L.faults log.new ≡ L.faults log.old) }
    ensures later { L.faults log.old ≤ L.faults log.new }
{
    let clauses = cnf.clauses.as_slice();
    prepare_all(deciders, alloc, cnf.vars)?;
    write_inputs(alloc, log, clauses)?;
    solve_written(alloc, cnf, budget, log, deciders)
}
