//! Which literals of a level are kept.

ghost use Rattle.std.specs.Prelude.{◌≡◌, ◌≤◌, ◌<◌, true, false, Option, Some, length, slice_get};
ghost use Rattle.resolution_check.specs.declared.log.Lit.{Lit};
ghost use Rattle.clause_arena.specs.declared.names.ClauseRef.{ClauseRef};
ghost use Rattle.conflict_analysis.specs.Steps.{IsTrail, NeverFalls, NoneMarked};
ghost use Rattle.conflict_analysis.specs.Levels.{HasMarked, Stays, IsTop, is_implied};
ghost use Rattle.conflict_analysis.specs.Lessons.{marked};
ghost use Rattle.resolution_check.specs.Clauses.{is_below};

use crate::marks::are_others_marked;
use crate::trail::{Trail, level_at, literal_at, reason_at};
use clause_arena::Arena;

/// Whether the variable of the step at this place is marked.
pub(crate) fn is_marked(marks: &[bool], trail: &Trail, at: usize) -> bool
    requires at { at < length trail.now.lits.items }
    requires below { is_below (length marks.now) trail.now.lits.items ≡ true }
    ensures { (l : Lit) → slice_get trail.now.lits.items at ≡ Some l → marked marks.now l.var ≡ result }
{
    marks[literal_at(trail, at).var as usize]
}

/// Whether no step before this place is marked that has this level or a higher one.
fn is_last(marks: &[bool], trail: &Trail, at: usize, top: u64) -> bool
    requires at { at ≤ length trail.now.lits.items }
    requires levels { length trail.now.levels.items ≡ length trail.now.lits.items }
    requires below { is_below (length marks.now) trail.now.lits.items ≡ true }
    requires rising { NeverFalls trail.now.levels.items }
    ensures last { result ≡ true
        → NoneMarked trail.now.lits.items trail.now.levels.items (marked marks.now) top 0 at }
    ensures another { result ≡ false
        → HasMarked trail.now.lits.items trail.now.levels.items (marked marks.now) top at }
{
    for earlier in (0..at).rev() {
        if level_at(trail, earlier) < top {
            return true;
        }
        if is_marked(marks, trail, earlier) {
            return false;
        }
    }
    true
}

/// Whether the reason of the step at this place has no variables but the step's own and marked ones.
fn is_implied_at(marks: &[bool], arena: &Arena, trail: &Trail, at: usize) -> bool
    requires trail { IsTrail arena.now (length marks.now) trail.now.lits.items trail.now.levels.items trail.now.reasons.items }
    requires at { at < length trail.now.lits.items }
    ensures { (l : Lit) (r : Option ClauseRef) → slice_get trail.now.lits.items at ≡ Some l
        → slice_get trail.now.reasons.items at ≡ Some r → result ≡ is_implied arena.now (marked marks.now) l.var r }
{
    match reason_at(trail, at) {
        Some(reason) => are_others_marked(marks, arena, reason, literal_at(trail, at).var),
        None => false,
    }
}

/// Whether the literal of the step at this place is kept where it is marked: it is of a level above 0, and below the
/// top level with a reason that has other variables than marked ones, or the last one of the top level that is marked.
pub(crate) fn stays(marks: &[bool], arena: &Arena, trail: &Trail, at: usize, top: u64) -> bool
    requires trail { IsTrail arena.now (length marks.now) trail.now.lits.items trail.now.levels.items trail.now.reasons.items }
    requires at { at < length trail.now.lits.items }
    ensures { Stays arena.now trail.now.lits.items trail.now.levels.items trail.now.reasons.items (marked marks.now) top at result }
{
    let level = level_at(trail, at);
    if level == 0 {
        return false;
    }
    if level < top {
        return !is_implied_at(marks, arena, trail, at);
    }
    is_last(marks, trail, at, top)
}

/// The highest level of a step that is marked, 0 where there is none.
pub(crate) fn top_level(marks: &[bool], trail: &Trail) -> u64
    requires levels { length trail.now.levels.items ≡ length trail.now.lits.items }
    requires below { is_below (length marks.now) trail.now.lits.items ≡ true }
    requires rising { NeverFalls trail.now.levels.items }
    ensures { IsTop trail.now.lits.items trail.now.levels.items (marked marks.now) result }
{
    for at in (0..trail.lits.len()).rev() {
        if is_marked(marks, trail, at) {
            return level_at(trail, at);
        }
    }
    0
}
