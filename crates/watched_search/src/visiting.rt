//! Visits of watches whose literals have become false.

ghost use Rattle.std.specs.Prelude.{◌≡◌, ◌<◌, ◌≤◌, true, Option, Some, IfSome, length};
ghost use Rattle.resolution_check.specs.Trails.{holds, fails, IsUnit};
ghost use Rattle.clause_arena.specs.Held.{IsHeld, lits_of, size_of};
ghost use Rattle.clause_arena.specs.declared.names.Watch.{Watch};
ghost use Rattle.clause_arena.specs.Moved.{Moves};
ghost use Rattle.watched_search.specs.declared.visiting.Visited.TheVariants.{Stays};
ghost use Rattle.clause_arena.specs.Watched.{Stands, head, left, own, place, place_or};
ghost use Rattle.conflict_analysis.specs.Steps.{IsTrail};
ghost use Rattle.watched_search.specs.Trails.{last_level};
ghost use Rattle.watched_search.specs.Watches.{literal, Extends, IsFound, IsKept, IsReplacement, IsSameView, IsWalked};

use crate::assigned::Assigned;
use crate::stepping::assign;
use clause_arena::{Arena, ClauseRef, Watch};
use resolution_check::Lit;

/// What was found at a watch.
#[derive(Clone, Copy)]
pub enum Visited {
    /// The other watch is true.
    Stays,
    /// The literal at this place is not false.
    Moves(u64),
    /// All literals are false.
    Conflict,
}

/// The literal of a clause at a place.
fn literal_of(arena: &Arena, clause: ClauseRef, at: u64) -> Lit
    requires held { IsHeld arena.now clause }
    requires at { at < size_of arena.now clause }
    ensures value { result ≡ literal arena.now clause.0 at }
    ensures below { result.var < arena.now.vars }
{
    arena.words_are_sound();
    arena.lit(clause, at)
}

/// The place of a literal that is not false, from place 2 on.
fn replacement(arena: &Arena, assigned: &Assigned, clause: ClauseRef) -> Option<u64>
    requires vars { assigned.now.vars ≡ arena.now.vars }
    requires held { IsHeld arena.now clause }
    ensures { IsReplacement arena.now assigned.now.lits clause.0 result }
{
    for at in 2..arena.size(clause) {
        if !assigned.is_false(literal_of(arena, clause, at)) {
            return Some(at);
        }
    }
    None
}

/// Makes the literal true that a clause forces.
fn force(arena: &Arena, assigned: &mut Assigned, looked_at: usize, clause: ClauseRef, lit: Lit)
    requires trail { IsTrail arena.now assigned.old.vars assigned.old.lits assigned.old.levels assigned.old.reasons }
    requires kept { IsKept arena.now assigned.old.lits assigned.old.levels looked_at }
    requires within { looked_at ≤ length assigned.old.lits }
    requires held { IsHeld arena.now clause }
    requires unit { IsUnit assigned.old.lits (lits_of arena.now clause.0) lit }
    requires below { lit.var < assigned.old.vars }
    ensures trail { IsTrail arena.now assigned.new.vars assigned.new.lits assigned.new.levels assigned.new.reasons }
    ensures kept { IsKept arena.now assigned.new.lits assigned.new.levels looked_at }
    ensures level { last_level assigned.new.levels ≡ last_level assigned.old.levels }
    ensures extends { Extends assigned.old.lits assigned.new.lits }
    ensures vars { assigned.new.vars ≡ assigned.old.vars }
    ensures holds { holds assigned.new.lits lit ≡ true }
{
    let level = assigned.level();
    assign(arena, assigned, lit, level, Some(clause));
}

/// Looks at a watch whose literal is false, and makes the other watch true where it is forced.
pub fn visit(arena: &Arena, assigned: &mut Assigned, looked_at: usize, w: Watch) -> Visited
    requires vars { assigned.old.vars ≡ arena.now.vars }
    requires trail { IsTrail arena.now assigned.old.vars assigned.old.lits assigned.old.levels assigned.old.reasons }
    requires kept { IsKept arena.now assigned.old.lits assigned.old.levels looked_at }
    requires within { looked_at ≤ length assigned.old.lits }
    requires stands { Stands arena.now (own arena.now w) w }
    requires is_false { fails assigned.old.lits (literal arena.now w.clause.0 w.side) ≡ true }
    ensures trail { IsTrail arena.now assigned.new.vars assigned.new.lits assigned.new.levels assigned.new.reasons }
    ensures kept { IsKept arena.now assigned.new.lits assigned.new.levels looked_at }
    ensures level { last_level assigned.new.levels ≡ last_level assigned.old.levels }
    ensures extends { Extends assigned.old.lits assigned.new.lits }
    ensures vars { assigned.new.vars ≡ assigned.old.vars }
    ensures found { IsFound arena.now assigned.new.lits w result }
{
    arena.words_are_sound();
    let other = literal_of(arena, w.clause, 1 - u64::from(w.side));
    if assigned.is_true(other) {
        return Visited::Stays;
    }
    if let Some(to) = replacement(arena, assigned, w.clause) {
        return Visited::Moves(to);
    }
    if assigned.is_false(other) {
        return Visited::Conflict;
    }
    force(arena, assigned, looked_at, w.clause, other);
    Visited::Stays
}

/// Moves a watch whose literal is false to one that is not. Answers what came after it in its list.
pub fn move_watch(
    arena: &mut Arena,
    assigned: &Assigned,
    looked_at: usize,
    before: Option<Watch>,
    w: Watch,
    to: u64,
) -> Option<Watch>
    requires trail { IsTrail arena.old assigned.now.vars assigned.now.lits assigned.now.levels assigned.now.reasons }
    requires kept { IsKept arena.old assigned.now.lits assigned.now.levels looked_at }
    requires stands { Stands arena.old (own arena.old w) w }
    requires before { head arena.old before (own arena.old w) ≡ place w }
    requires is_false { fails assigned.now.lits (literal arena.old w.clause.0 w.side) ≡ true }
    requires not_false { IsReplacement arena.old assigned.now.lits w.clause.0 (Some to) }
    ensures trail { IsTrail arena.new assigned.now.vars assigned.now.lits assigned.now.levels assigned.now.reasons }
    ensures kept { IsKept arena.new assigned.now.lits assigned.now.levels looked_at }
    ensures moves { Moves arena.old arena.new before w to }
    ensures view { IsSameView arena.old arena.new }
    ensures head { place_or result ≡ head arena.new before (own arena.old w) }
    ensures stands { IfSome result (Stands arena.new (own arena.old w)) }
    ensures fewer { left arena.new before (own arena.old w) < left arena.old before (own arena.old w) }
    ensures walked { IsWalked arena.old assigned.now.lits before (own arena.old w)
        → IsWalked arena.new assigned.now.lits before (own arena.old w) }
{
    arena.words_are_sound();
    let next = arena.watch_move(before, w, to);
    arena.words_are_sound();
    next
}

/// Passes a watch that stays, since the other one is true. Answers what comes after it in its list.
pub fn pass_watch(arena: &Arena, assigned: &Assigned, w: Watch) -> Option<Watch>
    requires stands { Stands arena.now (own arena.now w) w }
    requires other { IsFound arena.now assigned.now.lits w Stays }
    ensures head { place_or result ≡ head arena.now (Some w) (own arena.now w) }
    ensures stands { IfSome result (Stands arena.now (own arena.now w)) }
    ensures fewer { (before : Option Watch) → head arena.now before (own arena.now w) ≡ place w
        → left arena.now (Some w) (own arena.now w) < left arena.now before (own arena.now w) }
    ensures walked { (before : Option Watch) → head arena.now before (own arena.now w) ≡ place w
        → IsWalked arena.now assigned.now.lits before (own arena.now w)
        → IsWalked arena.now assigned.now.lits (Some w) (own arena.now w) }
{
    arena.words_are_sound();
    arena.next_watch(w)
}
