//! Walks along the list of a literal that became false, and propagation.

ghost use Rattle.std.specs.Prelude.{◌≡◌, ◌<◌, ◌≤◌, true, None, IfSome, length};
ghost use Rattle.resolution_check.specs.Trails.{fails};
ghost use Rattle.clause_arena.specs.Held.{code_of};
ghost use Rattle.conflict_analysis.specs.Steps.{IsConflict, IsTrail};
ghost use Rattle.watched_search.specs.Trails.{last_level};
ghost use Rattle.watched_search.specs.Watches.{AllTrue, Extends, IsKept, IsSameView};

use crate::assigned::Assigned;
use crate::visiting::{Visited, move_watch, pass_watch, visit};
use clause_arena::{Arena, ClauseRef, Watch};
use resolution_check::Lit;

/// Looks at each watch of a literal that is false. Answers a clause that is false, if there is one.
pub fn visit_watches(
    arena: &mut Arena,
    assigned: &mut Assigned,
    looked_at: usize,
    lit: Lit,
) -> Option<ClauseRef>
    requires vars { assigned.old.vars ≡ arena.old.vars }
    requires trail { IsTrail arena.old assigned.old.vars assigned.old.lits assigned.old.levels assigned.old.reasons }
    requires kept { IsKept arena.old assigned.old.lits assigned.old.levels looked_at }
    requires within { looked_at ≤ length assigned.old.lits }
    requires below { lit.var < arena.old.vars }
    requires is_false { fails assigned.old.lits lit ≡ true }
    ensures vars { assigned.new.vars ≡ assigned.old.vars }
    ensures view { IsSameView arena.old arena.new }
    ensures trail { IsTrail arena.new assigned.new.vars assigned.new.lits assigned.new.levels assigned.new.reasons }
    ensures kept { IsKept arena.new assigned.new.lits assigned.new.levels looked_at }
    ensures level { last_level assigned.new.levels ≡ last_level assigned.old.levels }
    ensures extends { Extends assigned.old.lits assigned.new.lits }
    ensures conflict { IfSome result (IsConflict arena.new assigned.new.lits) }
    ensures walked { result ≡ None → AllTrue arena.new assigned.new.lits (code_of lit) }
{
    arena.words_are_sound();
    let mut before: Option<Watch> = None;
    let mut at = arena.first_watch(lit);
    while let Some(w) = at {
        match visit(arena, assigned, looked_at, w) {
            Visited::Conflict => return Some(w.clause),
            Visited::Moves(to) => at = move_watch(arena, assigned, looked_at, before, w, to),
            Visited::Stays => {
                before = Some(w);
                at = pass_watch(arena, assigned, w);
            }
        }
    }
    arena.words_are_sound();
    None
}

/// Propagates: looks at the literals from one on, and at those that are forced on the way. Answers a clause that is false,
/// if there is one.
pub fn propagate(arena: &mut Arena, assigned: &mut Assigned, from: usize) -> Option<ClauseRef>
    requires vars { assigned.old.vars ≡ arena.old.vars }
    requires trail { IsTrail arena.old assigned.old.vars assigned.old.lits assigned.old.levels assigned.old.reasons }
    requires kept { IsKept arena.old assigned.old.lits assigned.old.levels from }
    requires within { from ≤ length assigned.old.lits }
    ensures vars { assigned.new.vars ≡ assigned.old.vars }
    ensures view { IsSameView arena.old arena.new }
    ensures trail { IsTrail arena.new assigned.new.vars assigned.new.lits assigned.new.levels assigned.new.reasons }
    ensures kept { IsKept arena.new assigned.new.lits assigned.new.levels from }
    ensures level { last_level assigned.new.levels ≡ last_level assigned.old.levels }
    ensures extends { Extends assigned.old.lits assigned.new.lits }
    ensures conflict { IfSome result (IsConflict arena.new assigned.new.lits) }
    ensures full { result ≡ None → IsKept arena.new assigned.new.lits assigned.new.levels (length assigned.new.lits) }
{
    for at in from..usize::MAX {
        if at >= assigned.len() {
            return None;
        }
        let falsified = assigned.lit(at).opposite();
        let found = visit_watches(arena, assigned, at, falsified);
        if found.is_some() {
            return found;
        }
        arena.words_are_sound();
    }
    assigned.is_short();
    None
}
