//! Marks of variables.

ghost use Rattle.std.specs.Prelude.{◌≡◌, ℕ, ◌<◌, ◌==◌, ◌||◌, true, length, if◌then◌else◌};
ghost use Rattle.resolution_check.specs.Clauses.{is_below};
ghost use Rattle.resolution_check.specs.Earned.{has_var};
ghost use Rattle.clause_arena.specs.Held.{IsHeld, lits_of};
ghost use Rattle.conflict_analysis.specs.Levels.{others_marked};
ghost use Rattle.conflict_analysis.specs.Lessons.{marked};

use clause_arena::{Arena, ClauseRef};

/// Marks a variable, or takes its mark.
pub(crate) fn set_mark(marks: &mut [bool], var: u64, mark: bool)
    requires { var < length marks.old }
    ensures { (v : ℕ) → marked marks.new v ≡ (if var == v then mark else marked marks.old v) }
{
    marks[var as usize] = mark;
}

/// Marks the variables of a clause.
pub(crate) fn mark_clause(marks: &mut [bool], arena: &Arena, clause: ClauseRef)
    requires held { IsHeld arena.now clause }
    requires below { is_below (length marks.old) (lits_of arena.now clause.0) ≡ true }
    ensures { (v : ℕ) → marked marks.new v ≡ (has_var (lits_of arena.now clause.0) v || marked marks.old v) }
{
    for at in 0..arena.size(clause) {
        let lit = arena.lit(clause, at);
        set_mark(marks, lit.var, true);
    }
}

/// Whether a variable is this one or marked.
fn is_covered(marks: &[bool], var: u64, other: u64) -> bool
    requires { other < length marks.now }
    ensures { result ≡ ((other == var) || marked marks.now other) }
{
    other == var || marks[other as usize]
}

/// Whether each variable of a clause is this one or marked.
pub(crate) fn are_others_marked(marks: &[bool], arena: &Arena, clause: ClauseRef, var: u64) -> bool
    requires held { IsHeld arena.now clause }
    requires below { is_below (length marks.now) (lits_of arena.now clause.0) ≡ true }
    ensures { result ≡ others_marked (marked marks.now) var (lits_of arena.now clause.0) }
{
    for at in 0..arena.size(clause) {
        let lit = arena.lit(clause, at);
        if !is_covered(marks, var, lit.var) {
            return false;
        }
    }
    true
}
