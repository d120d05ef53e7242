//! Reading of clauses in words. References and the number of variables are passed for the conditions alone.

ghost use Rattle.std.specs.Prelude.{◌≡◌, ◌+◌, ◌*◌, ◌<◌, Some, length, slice_get};
ghost use Rattle.clause_arena.specs.Links.{word};
ghost use Rattle.mw_text.specs.Members.{In};
ghost use Rattle.clause_arena.specs.Store.{IsSound, store};
ghost use Rattle.clause_arena.specs.Held.{lit_of, code_of, lits_of, held_in};

use crate::numbers::Words;
use resolution_check::Lit;

/// The literal of a code.
pub(crate) fn literal(code: u64) -> Lit
    ensures { result ≡ lit_of code }
{
    Lit {
        var: code / 2,
        negated: code % 2 == 1,
    }
}

/// The code of a literal.
pub(crate) fn code(lit: Lit) -> u64
    requires { code_of lit < 18446744073709551616 }
    ensures { result ≡ code_of lit }
{
    if lit.negated {
        2 * lit.var + 1
    } else {
        2 * lit.var
    }
}

/// The word at a place.
pub(crate) fn read(words: &Words, at: u64) -> u64
    requires { at < length words.now }
    ensures { result ≡ word words.now at }
{
    words.get(at)
}

/// The size of a clause.
pub(crate) fn size_in(words: &Words, refs: &[u64], vars: u64, clause: u64) -> u64
    requires sound { IsSound vars words.now refs.now }
    requires held { In clause refs.now }
    ensures value { result ≡ word words.now clause }
    ensures count { length (lits_of (store vars words.now refs.now) clause) ≡ result }
{
    read(words, clause)
}

/// The number of a clause.
pub(crate) fn number_in(words: &Words, refs: &[u64], vars: u64, clause: u64) -> u64
    requires sound { IsSound vars words.now refs.now }
    requires held { In clause refs.now }
    ensures value { result ≡ word words.now (clause + 1) }
    ensures numbered { held_in (store vars words.now refs.now) result
        ≡ Some (record { lits = lits_of (store vars words.now refs.now) clause }) }
{
    words.is_short();
    read(words, clause + 1)
}

/// The code of a clause's literal.
pub(crate) fn code_in(words: &Words, refs: &[u64], vars: u64, clause: u64, at: u64) -> u64
    requires sound { IsSound vars words.now refs.now }
    requires held { In clause refs.now }
    requires at { at < word words.now clause }
    ensures value { result ≡ word words.now (clause + 4 + at) }
    ensures below { result < 2 * vars }
    ensures listed { slice_get (lits_of (store vars words.now refs.now) clause) at ≡ Some (lit_of result) }
{
    words.is_short();
    read(words, clause + 4 + at)
}
