//! Deletions of clauses. References and the number of variables are passed for the conditions alone.

ghost use Rattle.std.specs.Prelude.{◌≡◌, ◌≢◌, ◌⊎◌, ◌+◌, ◌*◌, ◌<◌, ◌==◌, not, filter, length};
ghost use Rattle.clause_arena.specs.Links.{word, places};
ghost use Rattle.mw_text.specs.Members.{In};
ghost use Rattle.clause_arena.specs.Store.{Rises, IsSound, store};
ghost use Rattle.clause_arena.specs.Held.{clauses};
ghost use Rattle.clause_arena.specs.Deleted.{others, Deletes, IsUnlinked, IsFreed};

use crate::numbers::Words;
use crate::reading::{code_in, read, size_in};

/// The link that leads to a place in the list of a code.
fn link_to(words: &Words, refs: &[u64], vars: u64, code: u64, place: u64) -> u64
    requires sound { IsSound vars words.now refs.now }
    requires code { code < 2 * vars }
    requires place { In place (places words.now code) }
    ensures leads { word words.now result ≡ place }
    ensures link { (result ≡ code) ⊎ In result (places words.now code) }
{
    let mut link = code;
    while read(words, link) != place {
        link = read(words, link);
    }
    link
}

#[tactic(auto, using(crate::proofs::Unlinks::unlinked_of))]
/// Takes two places from behind their links.
fn unlink(words: &mut Words, link: u64, place: u64, other_link: u64, other_place: u64)
    requires link { link < length words.old }
    requires place { place < length words.old }
    requires other_link { other_link < length words.old }
    requires other_place { other_place < length words.old }
    requires links { link ≢ other_link }
    requires apart { link ≢ other_place }
    ensures unlinked { IsUnlinked (word words.old) (word words.new) link place other_link other_place }
    ensures len { length words.new ≡ length words.old }
{
    words.copy(place, link);
    words.copy(other_place, other_link);
}

/// Takes the watches of a clause out of their lists.
fn unwatch(words: &mut Words, refs: &[u64], vars: u64, clause: u64)
    requires sound { IsSound vars words.old refs.now }
    requires held { In clause refs.now }
    ensures freed { IsFreed vars (word words.old) (word words.new) refs.now (places words.old) clause }
    ensures len { length words.new ≡ length words.old }
{
    words.is_short();
    if size_in(words, refs, vars, clause) < 2 {
        return;
    }
    let one = code_in(words, refs, vars, clause, 0);
    let link = link_to(words, refs, vars, one, clause + 2);
    let other = code_in(words, refs, vars, clause, 1);
    let other_link = link_to(words, refs, vars, other, clause + 3);
    unlink(words, link, clause + 2, other_link, clause + 3);
}

/// Takes a reference out.
fn forget(refs: &mut Vec<u64>, clause: u64)
    requires { Rises refs.old.items }
    ensures { refs.new.items ≡ others clause refs.old.items }
{
    if let Ok(at) = refs.binary_search(&clause) {
        refs.remove(at);
    }
}

/// Deletes a clause. The last vector keeps a word for each reference.
pub(crate) fn delete_in(
    words: &mut Words,
    refs: &mut Vec<u64>,
    moved: &mut Vec<u64>,
    vars: u64,
    clause: u64,
)
    requires sound { IsSound vars words.old refs.old.items }
    requires count { length moved.old.items ≡ length refs.old.items }
    requires held { In clause refs.old.items }
    ensures sound { IsSound vars words.new refs.new.items }
    ensures count { length moved.new.items ≡ length refs.new.items }
    ensures deletes { Deletes (store vars words.old refs.old.items) (store vars words.new refs.new.items) clause }
    ensures clauses { clauses (store vars words.new refs.new.items)
        ≡ filter (λ k. not (k.0 == word words.old (clause + 1))) (clauses (store vars words.old refs.old.items)) }
{
    unwatch(words, refs, vars, clause);
    forget(refs, clause);
    moved.truncate(refs.len());
}
