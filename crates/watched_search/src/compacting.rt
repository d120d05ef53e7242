//! Compaction of the clauses that are held.

ghost use Rattle.std.specs.Prelude.{◌≡◌, ℕ};
ghost use Rattle.clause_arena.specs.Compacted.{Compacts};
ghost use Rattle.clause_arena.specs.Held.{clauses};
ghost use Rattle.conflict_analysis.specs.Steps.{IsTrail};
ghost use Rattle.watched_search.specs.Starts.{AreBelow};
ghost use Rattle.watched_search.specs.Watches.{IsKept};

use crate::assigned::Assigned;
use clause_arena::Arena;

/// Moves the clauses that are held together, so that deleted ones take no words any more, and gives each reason its
/// clause's new reference.
pub fn compact(arena: &mut Arena, assigned: &mut Assigned)
    requires trail { IsTrail arena.old assigned.old.vars assigned.old.lits assigned.old.levels assigned.old.reasons }
    ensures trail { IsTrail arena.new assigned.new.vars assigned.new.lits assigned.new.levels assigned.new.reasons }
    ensures kept { (head : ℕ) → IsKept arena.old assigned.old.lits assigned.old.levels head
        → IsKept arena.new assigned.new.lits assigned.new.levels head }
    ensures compacts { Compacts arena.old arena.new }
    ensures vars { assigned.new.vars ≡ assigned.old.vars }
    ensures arena_vars { arena.new.vars ≡ arena.old.vars }
    ensures lits { assigned.new.lits ≡ assigned.old.lits }
    ensures clauses { clauses arena.new ≡ clauses arena.old }
    ensures below { (next : ℕ) → AreBelow arena.old next → AreBelow arena.new next }
{
    arena.words_are_sound();
    assigned.compact(arena);
    arena.words_are_sound();
}
