//! Steps of a trail: one more, and back to a level. The arena is passed for the conditions alone.

ghost use Rattle.std.specs.Prelude.{◌≡◌, ◌<◌, [], ◌∷◌, ◌++◌, None, length, take};
ghost use Rattle.resolution_check.specs.Trails.{value_of};
ghost use Rattle.conflict_analysis.specs.Steps.{IsTrail, NeverFalls};
ghost use Rattle.conflict_analysis.specs.Levels.{count_to, steps_to};
ghost use Rattle.watched_search.specs.Trails.{MayFollow, last_level};
ghost use Rattle.watched_search.specs.Watches.{IsKept};

use crate::assigned::Assigned;
use clause_arena::{Arena, ClauseRef};
use resolution_check::Lit;

/// Makes a literal true that was chosen, or that a clause forces at the last level.
pub fn assign(
    arena: &Arena,
    assigned: &mut Assigned,
    lit: Lit,
    level: u64,
    reason: Option<ClauseRef>,
)
    requires trail { IsTrail arena.now assigned.old.vars assigned.old.lits assigned.old.levels assigned.old.reasons }
    requires below { lit.var < assigned.old.vars }
    requires free { value_of assigned.old.lits lit.var ≡ None }
    requires may { MayFollow arena.now assigned.old.lits assigned.old.levels lit level reason }
    ensures trail { IsTrail arena.now assigned.new.vars assigned.new.lits assigned.new.levels assigned.new.reasons }
    ensures lits { assigned.new.lits ≡ assigned.old.lits ++ lit ∷ [] }
    ensures levels { assigned.new.levels ≡ assigned.old.levels ++ level ∷ [] }
    ensures reasons { assigned.new.reasons ≡ assigned.old.reasons ++ reason ∷ [] }
    ensures vars { assigned.new.vars ≡ assigned.old.vars }
{
    assigned.push(lit, level, reason);
}

/// How many steps there are up to a level.
fn count_up_to(levels: &[u64], level: u64) -> usize
    requires { NeverFalls levels.now }
    ensures { result ≡ count_to levels.now level }
{
    for at in (0..levels.len()).rev() {
        if levels[at] <= level {
            return at + 1;
        }
    }
    0
}

/// Takes back the steps of levels above this one, of which there are some. Answers how many are left.
pub fn back_to(arena: &Arena, assigned: &mut Assigned, level: u64) -> usize
    requires trail { IsTrail arena.now assigned.old.vars assigned.old.lits assigned.old.levels assigned.old.reasons }
    requires kept { IsKept arena.now assigned.old.lits assigned.old.levels 0 }
    requires some { level < last_level assigned.old.levels }
    ensures trail { IsTrail arena.now assigned.new.vars assigned.new.lits assigned.new.levels assigned.new.reasons }
    ensures kept { IsKept arena.now assigned.new.lits assigned.new.levels result }
    ensures lits { assigned.new.lits ≡ steps_to assigned.old.lits assigned.old.levels level }
    ensures levels { assigned.new.levels ≡ take (count_to assigned.old.levels level) assigned.old.levels }
    ensures reasons { assigned.new.reasons ≡ take (count_to assigned.old.levels level) assigned.old.reasons }
    ensures all { result ≡ length assigned.new.lits }
    ensures vars { assigned.new.vars ≡ assigned.old.vars }
{
    let left = count_up_to(&assigned.trail().levels, level);
    assigned.cut(left);
    left
}
