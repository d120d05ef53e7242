//! The arena.

ghost use Rattle.std.specs.Prelude.{◌≡◌, ℕ, ◌+◌, ◌*◌, ◌<◌, ◌≤◌, ◌==◌, [], ◌∷◌, ◌++◌, IfOk, IfSome, OnErr, Option, Some, None, map, filter};
ghost use Rattle.std.specs.Prelude.{true, not, length, replicate, slice_get};
ghost use Rattle.std.specs.List.{All};
ghost use Rattle.std.specs.Option.{option_map};
ghost use Rattle.resolution_check.specs.Clauses.{is_below};
ghost use Rattle.resolution_check.specs.Earned.{vars_differ};

use crate::adding::add_in;
use crate::compacting::compact_in;
use crate::deleting::delete_in;
use crate::moving::move_in;
use crate::names::{ClauseRef, Watch};
use crate::numbers::Words;
use crate::reading::{code, code_in, literal, number_in, size_in};
use crate::walking::{first_in, next_in};
use resolution_check::Lit;
use std::alloc::{AllocError, Global};
use std::marker::Model;

/// Clauses by their references, and for each literal the list of its watches.
#[derive(Drop)]
pub struct Arena {
    words: Words,
    // By number.
    refs: Vec<u64>,
    // As many words, for the references after a compaction.
    moved: Vec<u64>,
    vars: u64,
}

impl Model for Arena {
    ghost use Rattle.std.specs.Prelude.{◌≡◌, length};
    ghost use Rattle.clause_arena.specs.Store.{Store, IsSound};

    ghost Value = { Store };

    ghost view = { λ a. record { vars = a.vars; words = a.words; refs = a.refs.items } };

    ghost invariant = { λ a. IsSound a.vars a.words a.refs.items
        × (length a.moved.items ≡ length a.refs.items) };
}

/// The heads of empty lists.
fn no_watches(alloc: Global, vars: u64) -> Result<Words, AllocError>
    ensures { IfOk result (λ words. words ≡ replicate (vars * 2) 0) }
{
    let heads = vars.checked_mul(2).ok_or(AllocError)?;
    Words::zeros(alloc, heads)
}

impl Arena {
    ghost use Rattle.resolution_check.specs.declared.log.Lit.{Lit};
    ghost use Rattle.clause_arena.specs.Links.{places};
    ghost use Rattle.clause_arena.specs.declared.names.ClauseRef.{ClauseRef};
    ghost use Rattle.clause_arena.specs.declared.names.Watch.{Watch};
    ghost use Rattle.clause_arena.specs.Store.{IsSound};
    ghost use Rattle.clause_arena.specs.Changes.{Adds};
    ghost use Rattle.clause_arena.specs.Moved.{Moves};
    ghost use Rattle.clause_arena.specs.Deleted.{Deletes};
    ghost use Rattle.clause_arena.specs.Compacted.{Compacts, reason_renamed};
    ghost use Rattle.clause_arena.specs.Held.{IsHeld, size_of, number_of, lit_at, lits_of, clauses, held_in, code_of};
    ghost use Rattle.clause_arena.specs.Watched.{place, place_or, own, Stands, head, left};

    #[tactic(auto, using(crate::proofs::Empty::sound_zeros, crate::proofs::Empty::places_of_zeros))]
    /// No clauses so far, over the variables below `vars`.
    pub fn new(alloc: Global, vars: u64) -> Result<Arena, AllocError>
        ensures vars { IfOk result (λ arena. arena.vars ≡ vars) }
        ensures clauses { IfOk result (λ arena. clauses arena ≡ []) }
        ensures unwatched { IfOk result (λ arena. (n : ℕ) → n < 2 * vars → places arena.words n ≡ []) }
    {
        Ok(Arena {
            words: no_watches(alloc, vars)?,
            refs: Vec::new(alloc),
            moved: Vec::new(alloc),
            vars,
        })
    }

    /// Adds a clause of different variables, whose number is above all numbers held. It keeps the order of the literals.
    ///
    /// # Errors
    /// Want of memory alone. The arena is then unchanged.
    pub fn add(&mut self, id: u64, lits: &[Lit]) -> Result<ClauseRef, AllocError>
        requires below { is_below self.old.vars lits.now ≡ true }
        requires differ { vars_differ lits.now ≡ true }
        requires above { (c : ClauseRef) → IsHeld self.old c → number_of self.old c < id }
        ensures ok { IfOk result (λ c. Adds self.old self.new c.0 id (map code_of lits.now)) }
        ensures clauses { IfOk result (λ _. clauses self.new ≡ clauses self.old ++ (id, lits.now) ∷ []) }
        ensures unchanged { OnErr result (self.new ≡ self.old) }
    {
        let clause = add_in(
            &mut self.words,
            &mut self.refs,
            &mut self.moved,
            self.vars,
            id,
            lits,
        )?;
        Ok(ClauseRef(clause))
    }

    /// A law, with no effect: clauses stand one behind another, and each literal's list has exactly its watches.
    pub fn words_are_sound(&self)
        ensures { IsSound self.now.vars self.now.words self.now.refs }
    {
        let _ = &self.words;
    }

    /// How many literals a clause has.
    pub fn size(&self, c: ClauseRef) -> u64
        requires { IsHeld self.now c }
        ensures value { result ≡ size_of self.now c }
        ensures count { length (lits_of self.now c.0) ≡ result }
    {
        size_in(&self.words, &self.refs, self.vars, c.0)
    }

    /// A clause's number.
    pub fn id(&self, c: ClauseRef) -> u64
        requires { IsHeld self.now c }
        ensures value { result ≡ number_of self.now c }
        ensures numbered { held_in self.now result ≡ Some (record { lits = lits_of self.now c.0 }) }
    {
        number_in(&self.words, &self.refs, self.vars, c.0)
    }

    /// A clause's literal at a place.
    pub fn lit(&self, c: ClauseRef, at: u64) -> Lit
        requires held { IsHeld self.now c }
        requires at { at < size_of self.now c }
        ensures value { result ≡ lit_at self.now c at }
        ensures listed { slice_get (lits_of self.now c.0) at ≡ Some result }
    {
        literal(code_in(&self.words, &self.refs, self.vars, c.0, at))
    }

    /// The first watch in a literal's list. None at its end.
    pub fn first_watch(&self, lit: Lit) -> Option<Watch>
        requires { lit.var < self.now.vars }
        ensures head { place_or result ≡ head self.now None (code_of lit) }
        ensures stands { IfSome result (Stands self.now (code_of lit)) }
    {
        self.words.is_short();
        first_in(&self.words, &self.refs, self.vars, code(lit))
    }

    /// The watch that follows another in the list of its literal. None at its end.
    pub fn next_watch(&self, w: Watch) -> Option<Watch>
        requires { Stands self.now (own self.now w) w }
        ensures head { place_or result ≡ head self.now (Some w) (own self.now w) }
        ensures stands { IfSome result (Stands self.now (own self.now w)) }
        ensures fewer { (before : Option Watch) → head self.now before (own self.now w) ≡ place w
            → left self.now (Some w) (own self.now w) < left self.now before (own self.now w) }
    {
        next_in(&self.words, &self.refs, self.vars, w)
    }

    /// Exchanges the literal at a watch's side with one that is not watched, and puts the watch in front of the list of
    /// its new literal. `before` stands directly before it in its list, or is None where it is the first. Answers what
    /// came after it there.
    pub fn watch_move(&mut self, before: Option<Watch>, w: Watch, to: u64) -> Option<Watch>
        requires stands { Stands self.old (own self.old w) w }
        requires before { head self.old before (own self.old w) ≡ place w }
        requires behind { 2 ≤ to }
        requires within { to < size_of self.old w.clause }
        ensures moves { Moves self.old self.new before w to }
        ensures head { place_or result ≡ head self.new before (own self.old w) }
        ensures stands { IfSome result (Stands self.new (own self.old w)) }
        ensures fewer { left self.new before (own self.old w) < left self.old before (own self.old w) }
    {
        move_in(&mut self.words, &self.refs, self.vars, before, w, to)
    }

    /// Takes a clause out of the arena, and its two watches out of their lists. Other references stay.
    pub fn delete(&mut self, c: ClauseRef)
        requires { IsHeld self.old c }
        ensures deletes { Deletes self.old self.new c.0 }
        ensures clauses { clauses self.new
            ≡ filter (λ k. not (k.0 == number_of self.old c)) (clauses self.old) }
    {
        delete_in(
            &mut self.words,
            &mut self.refs,
            &mut self.moved,
            self.vars,
            c.0,
        );
    }

    /// Moves the clauses together, so that deleted ones take no words any more. Each clause gets a new reference, and
    /// each reason that of its clause; numbers, the order of literals and the lists of watches stay.
    pub fn compact(&mut self, reasons: &mut [Option<ClauseRef>])
        requires { All (λ r. IfSome r (IsHeld self.old)) reasons.old }
        ensures compacts { Compacts self.old self.new }
        ensures clauses { clauses self.new ≡ clauses self.old }
        ensures reasons { reasons.new ≡ map (reason_renamed self.old.refs self.new.refs) reasons.old }
        ensures held { All (λ r. IfSome r (IsHeld self.new)) reasons.new }
        ensures numbers { map (option_map (number_of self.new)) reasons.new
            ≡ map (option_map (number_of self.old)) reasons.old }
    {
        compact_in(
            &mut self.words,
            &mut self.refs,
            &mut self.moved,
            self.vars,
            reasons,
        );
    }
}
