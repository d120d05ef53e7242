//! Adding of a clause behind all others.

ghost use Rattle.std.specs.Prelude.{◌≡◌, ◌≢◌, ℕ, ◌+◌, ◌*◌, ◌<◌, ◌≤◌, ◌∷◌, [], ◌++◌, IfOk, OnErr, length, map, true};
ghost use Rattle.resolution_check.specs.Clauses.{is_below};
ghost use Rattle.resolution_check.specs.Earned.{vars_differ};
ghost use Rattle.clause_arena.specs.Links.{word};
ghost use Rattle.mw_text.specs.Members.{In};
ghost use Rattle.clause_arena.specs.Store.{IsSound, store};
ghost use Rattle.clause_arena.specs.Held.{code_of, clauses};
ghost use Rattle.clause_arena.specs.Changes.{HasCodes, IsWritten, IsPut, IsPlaced, Adds};

use crate::numbers::Words;
use crate::reading::code;
use resolution_check::Lit;
use std::alloc::AllocError;

/// Writes the codes of literals from a place on.
fn write_codes(words: &mut Words, vars: u64, at: u64, lits: &[Lit])
    requires room { at + length lits.now ≤ length words.old }
    requires heads { 2 * vars ≤ length words.old }
    requires below { is_below vars lits.now ≡ true }
    ensures codes { HasCodes (word words.old) (word words.new) at (map code_of lits.now) }
    ensures len { length words.new ≡ length words.old }
{
    words.is_short();
    for (i, lit) in lits.iter().enumerate() {
        words.put(at + i as u64, code(*lit));
    }
}

/// Writes a clause, but for its links and its number, which stands there.
fn write_clause(words: &mut Words, vars: u64, clause: u64, lits: &[Lit])
    requires room { clause + 4 + length lits.now ≤ length words.old }
    requires heads { 2 * vars ≤ length words.old }
    requires below { is_below vars lits.now ≡ true }
    ensures clause { IsWritten (word words.old) (word words.new) clause (word words.old (clause + 1)) (map code_of lits.now) }
    ensures len { length words.new ≡ length words.old }
{
    words.is_short();
    write_codes(words, vars, clause + 4, lits);
    words.put(clause, lits.len() as u64);
}

#[tactic(auto, using(crate::proofs::Placing::put_of))]
/// Puts a place in front of the list of a code.
pub(crate) fn put_link(words: &mut Words, code: u64, place: u64)
    requires code { code < length words.old }
    requires place { place < length words.old }
    requires apart { code ≢ place }
    ensures put { IsPut (word words.old) (word words.new) code place }
    ensures len { length words.new ≡ length words.old }
{
    words.copy(code, place);
    words.put(code, place);
}

/// Writes a clause, whose number stands there, and puts its watches in front of their lists.
fn place_clause(words: &mut Words, vars: u64, clause: u64, lits: &[Lit])
    requires room { clause + 4 + length lits.now ≤ length words.old }
    requires heads { 2 * vars ≤ clause }
    requires below { is_below vars lits.now ≡ true }
    requires differ { vars_differ lits.now ≡ true }
    ensures placed { IsPlaced (word words.old) (word words.new) clause (word words.old (clause + 1)) (map code_of lits.now) }
    ensures len { length words.new ≡ length words.old }
{
    words.is_short();
    write_clause(words, vars, clause, lits);
    if lits.len() >= 2 {
        put_link(words, code(lits[0]), clause + 2);
        put_link(words, code(lits[1]), clause + 3);
    }
}

/// Adds a clause. The third vector keeps a word for each reference.
pub(crate) fn add_in(
    words: &mut Words,
    refs: &mut Vec<u64>,
    moved: &mut Vec<u64>,
    vars: u64,
    id: u64,
    lits: &[Lit],
) -> Result<u64, AllocError>
    requires sound { IsSound vars words.old refs.old.items }
    requires count { length moved.old.items ≡ length refs.old.items }
    requires below { is_below vars lits.now ≡ true }
    requires differ { vars_differ lits.now ≡ true }
    requires above { (s : ℕ) → In s refs.old.items → word words.old (s + 1) < id }
    ensures sound { IsSound vars words.new refs.new.items }
    ensures count { length moved.new.items ≡ length refs.new.items }
    ensures ok { IfOk result (λ r. Adds (store vars words.old refs.old.items)
        (store vars words.new refs.new.items) r id (map code_of lits.now)) }
    ensures clauses { IfOk result (λ _. clauses (store vars words.new refs.new.items)
        ≡ clauses (store vars words.old refs.old.items) ++ (id, lits.now) ∷ []) }
    ensures words { OnErr result (words.new ≡ words.old) }
    ensures refs { OnErr result (refs.new.items ≡ refs.old.items) }
{
    words.is_short();
    refs.reserve(1)?;
    moved.reserve(1)?;
    let clause = words.len() + words.len() % 2;
    words.grow(clause + 4 + lits.len(), clause + 1, id)?;
    place_clause(words, vars, clause as u64, lits);
    refs.push_reserved(clause as u64);
    moved.push_reserved(0);
    Ok(clause as u64)
}
