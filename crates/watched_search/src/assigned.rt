//! The literals that were made true, in their order, and the values that they give.

ghost use Rattle.std.specs.Prelude.{◌≡◌, ℕ, ◌<◌, ◌-◌, ◌^◌, [], ◌∷◌, ◌++◌, replicate, Some, None, IfOk, IfSome, length, map, take, slice_get, vec_capacity};
ghost use Rattle.std.specs.List.{All};
ghost use Rattle.clause_arena.specs.Held.{IsHeld, clauses};
ghost use Rattle.clause_arena.specs.Compacted.{Compacts, reason_renamed};
ghost use Rattle.resolution_check.specs.Trails.{value_of, holds, fails};
ghost use Rattle.deciders.specs.declared.decider.Value.TheVariants.{Free};
ghost use Rattle.watched_search.specs.Trails.{IsSound, HasRoom, last_level, shown};

use clause_arena::{Arena, ClauseRef};
use conflict_analysis::Trail;
use deciders::Value;
use resolution_check::Lit;
use std::alloc::{AllocError, Global};
use std::marker::Model;

/// The trail of a search, and the value of each variable.
#[derive(Drop)]
pub struct Assigned {
    trail: Trail,
    values: Vec<Value>,
}

impl Model for Assigned {
    ghost use Rattle.std.specs.Prelude.{length as count, vec_capacity};
    ghost use Rattle.watched_search.specs.Trails.{Assigned as Kept, IsSound as Sound, HasRoom as Room};

    ghost Value = { Kept };

    ghost view = { λ s. record {
      vars = count s.values.items;
      lits = s.trail.lits.items;
      levels = s.trail.levels.items;
      reasons = s.trail.reasons.items;
    } };

    ghost invariant = { λ s. Sound s.trail.lits.items s.trail.levels.items s.trail.reasons.items s.values.items
        × Room (count s.values.items) (vec_capacity s.trail.lits) (vec_capacity s.trail.levels) (vec_capacity s.trail.reasons) };
}

/// The value of a literal's variable where the literal is true.
fn value_where_true(lit: Lit) -> Value
    ensures { result ≡ shown (value_of (lit ∷ []) lit.var) }
{
    if lit.negated {
        Value::False
    } else {
        Value::True
    }
}

/// Makes a literal true.
fn put(trail: &mut Trail, values: &mut [Value], lit: Lit, level: u64, reason: Option<ClauseRef>)
    requires sound { IsSound trail.old.lits.items trail.old.levels.items trail.old.reasons.items values.old }
    requires room { HasRoom (length values.old) (vec_capacity trail.old.lits) (vec_capacity trail.old.levels) (vec_capacity trail.old.reasons) }
    requires below { lit.var < length values.old }
    requires free { value_of trail.old.lits.items lit.var ≡ None }
    ensures sound { IsSound trail.new.lits.items trail.new.levels.items trail.new.reasons.items values.new }
    ensures room { HasRoom (length values.new) (vec_capacity trail.new.lits) (vec_capacity trail.new.levels) (vec_capacity trail.new.reasons) }
    ensures lits { trail.new.lits.items ≡ trail.old.lits.items ++ lit ∷ [] }
    ensures levels { trail.new.levels.items ≡ trail.old.levels.items ++ level ∷ [] }
    ensures reasons { trail.new.reasons.items ≡ trail.old.reasons.items ++ reason ∷ [] }
{
    trail.lits.push_reserved(lit);
    trail.levels.push_reserved(level);
    trail.reasons.push_reserved(reason);
    values[lit.var as usize] = value_where_true(lit);
}

/// Takes the last literal back.
fn take_back(trail: &mut Trail, values: &mut [Value])
    requires sound { IsSound trail.old.lits.items trail.old.levels.items trail.old.reasons.items values.old }
    requires room { HasRoom (length values.old) (vec_capacity trail.old.lits) (vec_capacity trail.old.levels) (vec_capacity trail.old.reasons) }
    ensures sound { IsSound trail.new.lits.items trail.new.levels.items trail.new.reasons.items values.new }
    ensures room { HasRoom (length values.new) (vec_capacity trail.new.lits) (vec_capacity trail.new.levels) (vec_capacity trail.new.reasons) }
    ensures lits { trail.new.lits.items ≡ take (length trail.old.lits.items - 1) trail.old.lits.items }
    ensures levels { trail.new.levels.items ≡ take (length trail.old.levels.items - 1) trail.old.levels.items }
    ensures reasons { trail.new.reasons.items ≡ take (length trail.old.reasons.items - 1) trail.old.reasons.items }
{
    if let Some(lit) = trail.lits.pop() {
        values[lit.var as usize] = Value::Free;
        let len = trail.lits.len();
        trail.levels.truncate(len);
        trail.reasons.truncate(len);
    }
}

/// Moves the clauses of an arena together, and gives each reason its clause's new reference.
fn compact_reasons(trail: &mut Trail, values: &[Value], arena: &mut Arena)
    requires sound { IsSound trail.old.lits.items trail.old.levels.items trail.old.reasons.items values.now }
    requires room { HasRoom (length values.now) (vec_capacity trail.old.lits) (vec_capacity trail.old.levels) (vec_capacity trail.old.reasons) }
    requires held { All (λ r. IfSome r (IsHeld arena.old)) trail.old.reasons.items }
    ensures sound { IsSound trail.new.lits.items trail.new.levels.items trail.new.reasons.items values.now }
    ensures room { HasRoom (length values.now) (vec_capacity trail.new.lits) (vec_capacity trail.new.levels) (vec_capacity trail.new.reasons) }
    ensures lits { trail.new.lits.items ≡ trail.old.lits.items }
    ensures levels { trail.new.levels.items ≡ trail.old.levels.items }
    ensures reasons { trail.new.reasons.items ≡ map (reason_renamed arena.old.refs arena.new.refs) trail.old.reasons.items }
    ensures compacts { Compacts arena.old arena.new }
    ensures clauses { clauses arena.new ≡ clauses arena.old }
{
    arena.compact(&mut trail.reasons);
}

/// The last number, 0 where there is none.
fn last_of(levels: &[u64]) -> u64
    ensures { result ≡ last_level levels.now }
{
    if levels.len() == 0 {
        return 0;
    }
    levels[levels.len() - 1]
}

impl Assigned {
    /// No literal so far. All memory is taken here.
    pub fn new(alloc: Global, vars: u64) -> Result<Assigned, AllocError>
        ensures vars { IfOk result (λ assigned. assigned.vars ≡ vars) }
        ensures lits { IfOk result (λ assigned. assigned.lits ≡ []) }
        ensures levels { IfOk result (λ assigned. assigned.levels ≡ []) }
        ensures reasons { IfOk result (λ assigned. assigned.reasons ≡ []) }
    {
        let trail = Trail {
            lits: Vec::with_capacity(alloc, vars as usize)?,
            levels: Vec::with_capacity(alloc, vars as usize)?,
            reasons: Vec::with_capacity(alloc, vars as usize)?,
        };
        let values = vec![in alloc; Value::Free; vars as usize]?;
        Ok(Assigned { trail, values })
    }

    /// The trail, as an analysis takes it.
    pub fn trail(&self) -> &Trail
        ensures lits { result.now.lits.items ≡ self.now.lits }
        ensures levels { result.now.levels.items ≡ self.now.levels }
        ensures reasons { result.now.reasons.items ≡ self.now.reasons }
    {
        &self.trail
    }

    /// How many literals there are.
    pub fn len(&self) -> usize
        ensures len { result ≡ length self.now.lits }
        ensures levels { result ≡ length self.now.levels }
        ensures reasons { result ≡ length self.now.reasons }
        ensures small { result < 2 ^ 63 }
    {
        self.trail.lits.len()
    }

    /// A law, with no effect: a trail is shorter than the numbers of its places reach.
    pub fn is_short(&self)
        ensures { length self.now.lits < 2 ^ 63 }
    {
        let _ = &self.trail;
    }

    /// The literal at a place.
    pub fn lit(&self, at: usize) -> Lit
        requires { at < length self.now.lits }
        ensures there { slice_get self.now.lits at ≡ Some result }
        ensures below { result.var < self.now.vars }
    {
        self.trail.lits[at]
    }

    /// The level of the last literal, 0 where there is none.
    pub fn level(&self) -> u64
        ensures { result ≡ last_level self.now.levels }
    {
        last_of(&self.trail.levels)
    }

    /// How many variables there are.
    pub fn vars(&self) -> u64
        ensures { result ≡ self.now.vars }
    {
        self.values.len() as u64
    }

    /// The values of all variables, as deciders see them.
    pub fn values(&self) -> &[Value]
        ensures len { length result.now ≡ self.now.vars }
        ensures each { (v : ℕ) → v < self.now.vars → slice_get result.now v ≡ Some (shown (value_of self.now.lits v)) }
    {
        &self.values
    }

    /// The value of a variable.
    pub fn value(&self, var: u64) -> Value
        requires { var < self.now.vars }
        ensures { result ≡ shown (value_of self.now.lits var) }
    {
        self.values[var as usize]
    }

    /// Whether a literal is true.
    pub fn is_true(&self, lit: Lit) -> bool
        requires { lit.var < self.now.vars }
        ensures { result ≡ holds self.now.lits lit }
    {
        self.value(lit.var) == value_where_true(lit)
    }

    /// Whether a literal is false.
    pub fn is_false(&self, lit: Lit) -> bool
        requires { lit.var < self.now.vars }
        ensures { result ≡ fails self.now.lits lit }
    {
        self.value(lit.var) == value_where_true(lit.opposite())
    }

    /// Makes a literal true whose variable has no value yet.
    pub fn push(&mut self, lit: Lit, level: u64, reason: Option<ClauseRef>)
        requires below { lit.var < self.old.vars }
        requires free { value_of self.old.lits lit.var ≡ None }
        ensures lits { self.new.lits ≡ self.old.lits ++ lit ∷ [] }
        ensures levels { self.new.levels ≡ self.old.levels ++ level ∷ [] }
        ensures reasons { self.new.reasons ≡ self.old.reasons ++ reason ∷ [] }
        ensures vars { self.new.vars ≡ self.old.vars }
    {
        put(&mut self.trail, &mut self.values, lit, level, reason);
    }

    /// Takes the last literal back.
    fn pop(&mut self)
        ensures lits { self.new.lits ≡ take (length self.old.lits - 1) self.old.lits }
        ensures levels { self.new.levels ≡ take (length self.old.levels - 1) self.old.levels }
        ensures reasons { self.new.reasons ≡ take (length self.old.reasons - 1) self.old.reasons }
        ensures vars { self.new.vars ≡ self.old.vars }
    {
        take_back(&mut self.trail, &mut self.values);
    }

    /// Moves the clauses of an arena together, and gives each reason its clause's new reference.
    pub fn compact(&mut self, arena: &mut Arena)
        requires { All (λ r. IfSome r (IsHeld arena.old)) self.old.reasons }
        ensures compacts { Compacts arena.old arena.new }
        ensures clauses { clauses arena.new ≡ clauses arena.old }
        ensures reasons { self.new.reasons ≡ map (reason_renamed arena.old.refs arena.new.refs) self.old.reasons }
        ensures lits { self.new.lits ≡ self.old.lits }
        ensures levels { self.new.levels ≡ self.old.levels }
        ensures vars { self.new.vars ≡ self.old.vars }
    {
        compact_reasons(&mut self.trail, &self.values, arena);
    }

    /// Takes back all literals but the first `len`.
    pub fn cut(&mut self, len: usize)
        ensures lits { self.new.lits ≡ take len self.old.lits }
        ensures levels { self.new.levels ≡ take len self.old.levels }
        ensures reasons { self.new.reasons ≡ take len self.old.reasons }
        ensures vars { self.new.vars ≡ self.old.vars }
    {
        let end = self.len();
        for _ in len..end {
            self.pop();
        }
    }
}
