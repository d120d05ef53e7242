//! What watches promise, for the functions that rely on it.

ghost use Rattle.std.specs.Prelude.{◌≡◌, ℕ, ◌≤◌, false, List, [], ◌∷◌, ◌++◌, Option, Some, length};
ghost use Rattle.resolution_check.specs.declared.log.Lit.{Lit};
ghost use Rattle.resolution_check.specs.declared.log.Clause.{Clause};
ghost use Rattle.resolution_check.specs.declared.log.Entry.{Entry};
ghost use Rattle.resolution_check.specs.Entries.{clause_held, has_ended, is_given};
ghost use Rattle.resolution_check.specs.Earned.{IsEarnedAddition};
ghost use Rattle.resolution_check.specs.Trails.{HasTrue, IsSettled, IsTotal};
ghost use Rattle.clause_arena.specs.Store.{Store};
ghost use Rattle.clause_arena.specs.Held.{clause_numbered, held_in};
ghost use Rattle.conflict_analysis.specs.Levels.{AreFilled, AreFull};
ghost use Rattle.watched_search.specs.Watches.{IsKept, IsSameView};
ghost use Rattle.watched_search.specs.Sets.{AreSameSets, IsAddition};

use crate::assigned::Assigned;
use clause_arena::Arena;

/// A law, with no effect: where the watches are kept, no clause is empty, each was settled before each decision, and each
/// is settled now where all literals were looked at.
pub fn watches_settle(arena: &Arena, assigned: &Assigned)
    requires { IsKept arena.now assigned.now.lits assigned.now.levels 0 }
    ensures filled { AreFilled arena.now }
    ensures full { AreFull arena.now assigned.now.lits assigned.now.levels }
    ensures settled { IsKept arena.now assigned.now.lits assigned.now.levels (length assigned.now.lits) → (id : ℕ) (c : Clause)
        → held_in arena.now id ≡ Some c → IsSettled assigned.now.lits c.lits }
{
    arena.words_are_sound();
}

/// A law, with no effect: what a search adds to clauses it adds to the same clauses in another order of literals, and while
/// watches move the same clauses are held. Where a log holds the same clauses the addition is earned in it.
pub fn additions_are_of_sets()
    ensures addition { (old new : ℕ → Option Clause) (lits : List Lit) (chain : List ℕ) → AreSameSets old new
        → IsAddition old lits chain → IsAddition new lits chain }
    ensures view { (old new : Store) → IsSameView old new → AreSameSets (held_in old) (held_in new) }
    ensures more { (xs ys : List (ℕ × List Lit)) (id : ℕ) (lits : List Lit)
        → AreSameSets (clause_numbered xs) (clause_numbered ys)
        → AreSameSets (clause_numbered (xs ++ (id, lits) ∷ [])) (clause_numbered (ys ++ (id, lits) ∷ [])) }
    ensures earned { (es : List Entry) (held : ℕ → Option Clause) (id : ℕ) (clause : Clause) (chain : List ℕ)
        → has_ended es ≡ false → is_given es id ≡ false → AreSameSets held (clause_held es)
        → IsAddition held clause.lits chain → IsEarnedAddition es id clause chain }
{}

/// A law, with no effect: where every literal was looked at and every variable has a value, each clause that is held has a
/// true literal.
pub fn totals_hold(arena: &Arena, assigned: &Assigned)
    requires vars { assigned.now.vars ≡ arena.now.vars }
    requires kept { IsKept arena.now assigned.now.lits assigned.now.levels (length assigned.now.lits) }
    requires total { IsTotal assigned.now.vars assigned.now.lits }
    ensures { (id : ℕ) (c : Clause) → held_in arena.now id ≡ Some c → HasTrue assigned.now.lits c.lits }
{
    arena.words_are_sound();
}
