//! Decisions, restarts and rounds.

ghost use Rattle.std.specs.Prelude.{◌≡◌, ◌+◌, ◌%◌, ◌==◌, ◌≤◌, ◌++◌, ◌∷◌, [], false, None, IfSome, length, map};
ghost use Rattle.resolution_check.specs.Trails.{value_of, IsTotal};
ghost use Rattle.conflict_analysis.specs.Steps.{IsTrail};
ghost use Rattle.conflict_analysis.specs.Levels.{steps_to};
ghost use Rattle.watched_search.specs.Trails.{IsFree, IsLeast, last_level, literal_chosen};
ghost use Rattle.watched_search.specs.Watches.{Extends, IsKept};

use crate::assigned::Assigned;
use crate::stepping::{assign, back_to};
use clause_arena::Arena;
use deciders::{Choice, Decider, Value};
use resolution_check::Lit;

/// The least variable without a value, to be false.
fn least_free(assigned: &Assigned) -> Option<Lit>
    ensures some { IfSome result (IsFree assigned.now.vars assigned.now.lits) }
    ensures least { IfSome result (IsLeast assigned.now.lits) }
    ensures none { result ≡ None → IsTotal assigned.now.vars assigned.now.lits }
{
    for var in 0..assigned.vars() {
        if assigned.value(var) == Value::Free {
            return Some(Lit { var, negated: true });
        }
    }
    None
}

/// The literal of a choice, where its variable is one and has no value.
fn literal_of_choice(assigned: &Assigned, choice: Choice) -> Option<Lit>
    ensures some { IfSome result (IsFree assigned.now.vars assigned.now.lits) }
    ensures is { IfSome result (λ l. l ≡ literal_chosen choice) }
    ensures none { result ≡ None → IsFree assigned.now.vars assigned.now.lits (literal_chosen choice) → ⊥ }
{
    if choice.var >= assigned.vars() {
        return None;
    }
    if assigned.value(choice.var) != Value::Free {
        return None;
    }
    Some(Lit {
        var: choice.var,
        negated: !choice.positive,
    })
}

/// What a decider chooses.
fn pick(decider: &mut Box<dyn Decider>, values: &[Value]) -> Choice
    ensures { told decider.new ≡ told decider.old }
{
    decider.pick(values)
}

/// What the decider at a place chooses, where one stands there.
fn pick_at(deciders: &mut Vec<Box<dyn Decider>>, at: usize, values: &[Value]) -> Option<Choice>
    ensures none { length deciders.old.items ≤ at → result ≡ None }
    ensures told { map (λ b. told b) deciders.new.items ≡ map (λ b. told b) deciders.old.items }
{
    if at >= deciders.len() {
        return None;
    }
    Some(pick(&mut deciders[at], values))
}

/// The literal to decide next: the choice of the decider whose turn it is, and where that is none the least free variable,
/// false first. None where every variable has a value.
pub fn choose(deciders: &mut Vec<Box<dyn Decider>>, turn: usize, assigned: &Assigned) -> Option<Lit>
    ensures some { IfSome result (IsFree assigned.now.vars assigned.now.lits) }
    ensures none { result ≡ None → IsTotal assigned.now.vars assigned.now.lits }
    ensures no_decider { length deciders.old.items ≤ turn → IfSome result (IsLeast assigned.now.lits) }
    ensures told { map (λ b. told b) deciders.new.items ≡ map (λ b. told b) deciders.old.items }
{
    if let Some(choice) = pick_at(deciders, turn, assigned.values()) {
        let lit = literal_of_choice(assigned, choice);
        if lit.is_some() {
            return lit;
        }
    }
    least_free(assigned)
}

/// Decides a literal, where all literals were looked at.
pub fn decide(arena: &Arena, assigned: &mut Assigned, lit: Lit)
    requires trail { IsTrail arena.now assigned.old.vars assigned.old.lits assigned.old.levels assigned.old.reasons }
    requires kept { IsKept arena.now assigned.old.lits assigned.old.levels (length assigned.old.lits) }
    requires free { IsFree assigned.old.vars assigned.old.lits lit }
    ensures trail { IsTrail arena.now assigned.new.vars assigned.new.lits assigned.new.levels assigned.new.reasons }
    ensures kept { IsKept arena.now assigned.new.lits assigned.new.levels (length assigned.old.lits) }
    ensures longer { length assigned.new.lits ≡ length assigned.old.lits + 1 }
    ensures lits { assigned.new.lits ≡ assigned.old.lits ++ lit ∷ [] }
    ensures levels { assigned.new.levels ≡ assigned.old.levels ++ (last_level assigned.old.levels + 1) ∷ [] }
    ensures reasons { assigned.new.reasons ≡ assigned.old.reasons ++ None ∷ [] }
    ensures vars { assigned.new.vars ≡ assigned.old.vars }
{
    assigned.is_short();
    let level = assigned.level();
    assign(arena, assigned, lit, level + 1, None);
}

/// Goes back to level 0. Answers from which literal on is to be propagated.
pub fn restart(arena: &Arena, assigned: &mut Assigned, looked_at: usize) -> usize
    requires trail { IsTrail arena.now assigned.old.vars assigned.old.lits assigned.old.levels assigned.old.reasons }
    requires kept { IsKept arena.now assigned.old.lits assigned.old.levels looked_at }
    requires within { looked_at ≤ length assigned.old.lits }
    ensures trail { IsTrail arena.now assigned.new.vars assigned.new.lits assigned.new.levels assigned.new.reasons }
    ensures kept { IsKept arena.now assigned.new.lits assigned.new.levels result }
    ensures within { result ≤ length assigned.new.lits }
    ensures ground { last_level assigned.new.levels ≡ 0 }
    ensures lits { assigned.new.lits ≡ steps_to assigned.old.lits assigned.old.levels 0 }
    ensures vars { assigned.new.vars ≡ assigned.old.vars }
{
    if assigned.level() == 0 {
        return looked_at;
    }
    back_to(arena, assigned, 0)
}

/// After so many additions a search goes back to level 0.
pub const ROUND: u64 = 256;

/// Goes back to level 0 where a round of additions is over. Answers from which literal on is to be propagated.
pub fn end_round(arena: &Arena, assigned: &mut Assigned, from: usize, added: u64) -> usize
    requires trail { IsTrail arena.now assigned.old.vars assigned.old.lits assigned.old.levels assigned.old.reasons }
    requires kept { IsKept arena.now assigned.old.lits assigned.old.levels from }
    requires within { from ≤ length assigned.old.lits }
    ensures trail { IsTrail arena.now assigned.new.vars assigned.new.lits assigned.new.levels assigned.new.reasons }
    ensures kept { IsKept arena.now assigned.new.lits assigned.new.levels result }
    ensures within { result ≤ length assigned.new.lits }
    ensures vars { assigned.new.vars ≡ assigned.old.vars }
    ensures round { added % 256 ≡ 0 → last_level assigned.new.levels ≡ 0 }
    ensures lits { added % 256 ≡ 0 → assigned.new.lits ≡ steps_to assigned.old.lits assigned.old.levels 0 }
    ensures stays { (added % 256 == 0) ≡ false → assigned.new ≡ assigned.old }
    ensures stands { (added % 256 == 0) ≡ false → result ≡ from }
{
    if added % ROUND != 0 {
        return from;
    }
    restart(arena, assigned, from)
}
