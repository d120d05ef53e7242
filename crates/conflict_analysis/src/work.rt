//! The work space of an analysis, and the analysis.

ghost use Rattle.std.specs.Prelude.{◌≡◌, ℕ, [], false, length, IfOk, vec_capacity, vec_len};
ghost use Rattle.conflict_analysis.specs.Steps.{IsStart};
ghost use Rattle.clause_arena.specs.Held.{lits_of};
ghost use Rattle.conflict_analysis.specs.Levels.{AreFilled, AreFull, ContainsNone, NeverRises};
ghost use Rattle.conflict_analysis.specs.Lessons.{marked, IsBegun, IsReady, IsOnWay, IsLesson, IsPointed, IsBack};

use crate::following::follow_all;
use crate::marks::mark_clause;
use crate::staying::top_level;
use crate::trail::Trail;
use clause_arena::{Arena, ClauseRef};
use resolution_check::Lit;
use std::alloc::{AllocError, Global};
use std::marker::Model;

/// Room for a clause, its chain and a mark for each variable. An analysis takes no more memory.
#[derive(Drop)]
pub struct Work {
    clause: Vec<Lit>,
    chain: Vec<u64>,
    // None is set between two analyses.
    marks: Vec<bool>,
}

impl Model for Work {
    ghost use Rattle.std.specs.Prelude.{length, vec_capacity};
    ghost use Rattle.conflict_analysis.specs.Lessons.{Lesson, IsReady};

    ghost Value = { Lesson };

    ghost view = { λ w. record { vars = length w.marks.items; lits = w.clause.items; chain = w.chain.items } };

    ghost invariant = { λ w. IsReady w.marks.items (vec_capacity w.clause) (vec_capacity w.chain) };
}

/// So many marks that are not set.
fn no_marks(alloc: Global, vars: u64) -> Result<Vec<bool>, AllocError>
    ensures count { IfOk result (λ marks. length marks.items ≡ vars) }
    ensures none { IfOk result (λ marks. (v : ℕ) → marked marks.items v ≡ false) }
{
    let mut marks = Vec::new(alloc);
    marks.resize(vars as usize, false)?;
    Ok(marks)
}

impl Work {
    /// Room for the variables below `vars`.
    pub fn new(alloc: Global, vars: u64) -> Result<Work, AllocError>
        ensures vars { IfOk result (λ work. work.vars ≡ vars) }
        ensures lits { IfOk result (λ work. work.lits ≡ []) }
        ensures chain { IfOk result (λ work. work.chain ≡ []) }
    {
        let numbers = vars.checked_add(1).ok_or(AllocError)?;
        Ok(Work {
            clause: Vec::with_capacity(alloc, vars as usize)?,
            chain: Vec::with_capacity(alloc, numbers as usize)?,
            marks: no_marks(alloc, vars)?,
        })
    }

    /// The clause that the last analysis learnt.
    pub fn clause(&self) -> &[Lit]
        ensures { result.now ≡ self.now.lits }
    {
        &self.clause
    }

    /// The numbers of its chain.
    pub fn chain(&self) -> &[u64]
        ensures { result.now ≡ self.now.chain }
    {
        &self.chain
    }
}

/// Names the false clause and marks its variables. Answers the highest of their levels.
fn begin(
    clause: &mut Vec<Lit>,
    chain: &mut Vec<u64>,
    marks: &mut [bool],
    arena: &Arena,
    trail: &Trail,
    conflict: ClauseRef,
) -> u64
    requires ready { IsReady marks.old (vec_capacity clause.old) (vec_capacity chain.old) }
    requires start { IsStart arena.now (length marks.old) trail.now conflict }
    ensures begun { IsBegun trail.now.lits.items trail.now.levels.items (lits_of arena.now conflict.0) (marked marks.new) result }
    ensures way { IsOnWay arena.now trail.now.lits.items trail.now.levels.items result (length trail.now.lits.items) (marked marks.new) clause.new.items chain.new.items }
    ensures none { vec_len clause.new ≡ 0 }
    ensures one { vec_len chain.new ≡ 1 }
    ensures clause_room { vec_capacity clause.new ≡ vec_capacity clause.old }
    ensures chain_room { vec_capacity chain.new ≡ vec_capacity chain.old }
{
    clause.clear();
    chain.clear();
    chain.push_reserved(arena.id(conflict));
    mark_clause(marks, arena, conflict);
    top_level(marks, trail)
}

/// Analyses a conflict in vectors that have room.
fn analyse_in(
    clause: &mut Vec<Lit>,
    chain: &mut Vec<u64>,
    marks: &mut [bool],
    arena: &Arena,
    trail: &Trail,
    conflict: ClauseRef,
) -> u64
    requires ready { IsReady marks.old (vec_capacity clause.old) (vec_capacity chain.old) }
    requires start { IsStart arena.now (length marks.old) trail.now conflict }
    ensures ready { IsReady marks.new (vec_capacity clause.new) (vec_capacity chain.new) }
    ensures lesson { IsLesson arena.now trail.now.lits.items clause.new.items chain.new.items }
    ensures point { IsPointed arena.now trail.now.lits.items trail.now.levels.items (lits_of arena.now conflict.0) clause.new.items chain.new.items }
    ensures earned { AreFilled arena.now → AreFull arena.now trail.now.lits.items trail.now.levels.items
        → ContainsNone arena.now clause.new.items }
    ensures back { IsBack trail.now.lits.items trail.now.levels.items clause.new.items result }
    ensures order { NeverRises trail.now.lits.items trail.now.levels.items clause.new.items }
{
    let top = begin(clause, chain, marks, arena, trail, conflict);
    follow_all(marks, clause, chain, arena, trail, top)
}

/// Learns from a clause all of whose literals are false on the trail. Leaves in `work` the learnt clause, the first
/// unique implication point first, its literals from the last step to the first, and the numbers of the clauses that
/// give it when they are resolved from the front. A literal below the point's level is left out where its reason has no
/// other literals than those that are already to come; no clause says which are left out, since any choice gives a lesson
/// that follows. Where everything was propagated before each decision the learnt clause contains no clause that is held.
/// Answers the lowest level at which all its literals but one are false, 0 where it has fewer than two.
pub fn analyse(work: &mut Work, arena: &Arena, trail: &Trail, conflict: ClauseRef) -> u64
    requires { IsStart arena.now work.old.vars trail.now conflict }
    ensures vars { work.new.vars ≡ work.old.vars }
    ensures lesson { IsLesson arena.now trail.now.lits.items work.new.lits work.new.chain }
    ensures point { IsPointed arena.now trail.now.lits.items trail.now.levels.items (lits_of arena.now conflict.0) work.new.lits work.new.chain }
    ensures earned { AreFilled arena.now → AreFull arena.now trail.now.lits.items trail.now.levels.items
        → ContainsNone arena.now work.new.lits }
    ensures back { IsBack trail.now.lits.items trail.now.levels.items work.new.lits result }
    ensures order { NeverRises trail.now.lits.items trail.now.levels.items work.new.lits }
{
    analyse_in(
        &mut work.clause,
        &mut work.chain,
        &mut work.marks,
        arena,
        trail,
        conflict,
    )
}
