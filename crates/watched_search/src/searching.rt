//! From one conflict to the next.

ghost use Rattle.std.specs.Prelude.{◌≡◌, ◌≤◌, None, IfSome, length, map};
ghost use Rattle.resolution_check.specs.Trails.{IsTotal};
ghost use Rattle.conflict_analysis.specs.Steps.{IsConflict, IsTrail};
ghost use Rattle.watched_search.specs.Watches.{Extends, IsKept, IsSameView};

use crate::assigned::Assigned;
use crate::deciding::{choose, decide};
use crate::walking::propagate;
use clause_arena::{Arena, ClauseRef};
use deciders::Decider;

/// Propagates and decides, by the decider whose turn it is, until a clause is false, which is answered, or until every
/// variable has a value and no clause is false.
pub fn find_conflict(
    arena: &mut Arena,
    assigned: &mut Assigned,
    deciders: &mut Vec<Box<dyn Decider>>,
    turn: usize,
    from: usize,
) -> Option<ClauseRef>
    requires vars { assigned.old.vars ≡ arena.old.vars }
    requires trail { IsTrail arena.old assigned.old.vars assigned.old.lits assigned.old.levels assigned.old.reasons }
    requires kept { IsKept arena.old assigned.old.lits assigned.old.levels from }
    requires within { from ≤ length assigned.old.lits }
    ensures vars { assigned.new.vars ≡ assigned.old.vars }
    ensures view { IsSameView arena.old arena.new }
    ensures trail { IsTrail arena.new assigned.new.vars assigned.new.lits assigned.new.levels assigned.new.reasons }
    ensures kept { IsKept arena.new assigned.new.lits assigned.new.levels 0 }
    ensures extends { Extends assigned.old.lits assigned.new.lits }
    ensures conflict { IfSome result (IsConflict arena.new assigned.new.lits) }
    ensures full { result ≡ None → IsKept arena.new assigned.new.lits assigned.new.levels (length assigned.new.lits) }
    ensures total { result ≡ None → IsTotal assigned.new.vars assigned.new.lits }
    ensures told { map (λ b. told b) deciders.new.items ≡ map (λ b. told b) deciders.old.items }
{
    let mut next = from;
    for _ in 0..usize::MAX {
        let found = propagate(arena, assigned, next);
        if found.is_some() {
            return found;
        }
        next = assigned.len();
        let Some(lit) = choose(deciders, turn, assigned) else {
            return None;
        };
        decide(arena, assigned, lit);
    }
    assigned.is_short();
    None
}
