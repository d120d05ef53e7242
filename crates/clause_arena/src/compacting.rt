//! Compaction. References and the number of variables are passed for the conditions alone where they are not read.

ghost use Rattle.std.specs.Prelude.{◌≡◌, ℕ, ◌+◌, ◌-◌, ◌*◌, ◌%◌, ◌<◌, ◌≤◌, Option, IfSome, length, map};
ghost use Rattle.std.specs.List.{All};
ghost use Rattle.std.specs.Option.{option_map};
ghost use Rattle.clause_arena.specs.declared.names.ClauseRef.{ClauseRef};
ghost use Rattle.clause_arena.specs.Links.{word};
ghost use Rattle.clause_arena.specs.Store.{Rises, IsLaid, IsSound, store};
ghost use Rattle.clause_arena.specs.Held.{IsHeld, number_of, clauses};
ghost use Rattle.clause_arena.specs.Compacted.{renamed, slid, reason_renamed, packed, Compacts, IsPlan};
ghost use Rattle.clause_arena.specs.Compacted.{SlidesOne, MendsHeads, Slides, IsLinkWord, IsMended};
ghost use Rattle.clause_arena.specs.Compacted.{HasLinks, SlidesAll};

use crate::names::ClauseRef;
use crate::numbers::Words;
use crate::reading::{read, size_in};
use std::mem::swap;

/// New references, one clause behind another. Answers where the last one ends.
fn plan(words: &Words, refs: &[u64], moved: &mut [u64], vars: u64) -> u64
    requires sound { IsSound vars words.now refs.now }
    requires count { length moved.old ≡ length refs.now }
    ensures plan { IsPlan vars (length words.now) (word words.now) refs.now moved.new result }
    ensures dense { result ≡ packed (2 * vars) (map (word words.now) refs.now) }
{
    words.is_short();
    let mut end = 2 * vars;
    for (i, clause) in refs.iter().enumerate() {
        let start = end + end % 2;
        moved[i] = start;
        end = start + 4 + size_in(words, refs, vars, *clause);
    }
    end
}

/// The new reference of a clause.
fn new_ref(refs: &[u64], moved: &[u64], clause: u64) -> u64
    requires rising { Rises refs.now }
    requires count { length moved.now ≡ length refs.now }
    ensures { result ≡ renamed refs.now moved.now clause }
{
    match refs.binary_search(&clause) {
        Ok(at) => moved[at],
        Err(_) => 0,
    }
}

/// The new place of a watch.
fn new_place(refs: &[u64], moved: &[u64], place: u64) -> u64
    requires rising { Rises refs.now }
    requires count { length moved.now ≡ length refs.now }
    requires down { (r : ℕ) → renamed refs.now moved.now r ≤ r }
    requires link { IsLinkWord place }
    ensures value { result ≡ slid refs.now moved.now place }
    ensures down { result ≤ place }
{
    if place == 0 {
        return 0;
    }
    let side = place % 2;
    new_ref(refs, moved, place - 2 - side) + 2 + side
}

/// Mends the heads of the lists.
fn mend_heads(words: &mut Words, refs: &[u64], moved: &[u64], vars: u64)
    requires rising { Rises refs.now }
    requires count { length moved.now ≡ length refs.now }
    requires down { (r : ℕ) → renamed refs.now moved.now r ≤ r }
    requires heads { 2 * vars ≤ length words.old }
    requires links { (n : ℕ) → n < 2 * vars → IsLinkWord (word words.old n) }
    ensures mends { MendsHeads refs.now moved.now (word words.old) (word words.new) vars }
    ensures len { length words.new ≡ length words.old }
{
    words.is_short();
    for n in 0..2 * vars {
        words.lower(n, new_place(refs, moved, words.get(n)));
    }
}

#[tactic(auto, using(crate::proofs::Renaming::mended_of))]
/// Mends a link.
fn mend_link(words: &mut Words, refs: &[u64], moved: &[u64], at: u64)
    requires rising { Rises refs.now }
    requires count { length moved.now ≡ length refs.now }
    requires down { (r : ℕ) → renamed refs.now moved.now r ≤ r }
    requires within { at < length words.old }
    requires link { IsLinkWord (word words.old at) }
    ensures mended { IsMended refs.now moved.now (word words.old) (word words.new) at }
    ensures len { length words.new ≡ length words.old }
{
    words.lower(at, new_place(refs, moved, words.get(at)));
}

/// Moves a clause down, and mends its links.
fn slide(words: &mut Words, refs: &[u64], moved: &[u64], from: u64, to: u64)
    requires rising { Rises refs.now }
    requires count { length moved.now ≡ length refs.now }
    requires down { (r : ℕ) → renamed refs.now moved.now r ≤ r }
    requires inside { from + 4 + word words.old from ≤ length words.old }
    requires below { to ≤ from }
    requires links { (side : ℕ) → 2 ≤ word words.old from → side < 2 → IsLinkWord (word words.old (from + 2 + side)) }
    ensures slides { SlidesOne refs.now moved.now (word words.old) (word words.new) from to }
    ensures len { length words.new ≡ length words.old }
{
    words.is_short();
    let size = read(words, from);
    words.copy_down(from, to, 4 + size);
    if size >= 2 {
        mend_link(words, refs, moved, to + 2);
        mend_link(words, refs, moved, to + 3);
    }
}

/// Moves all clauses down, and mends their links.
fn slide_all(words: &mut Words, refs: &[u64], moved: &[u64], vars: u64, end: u64)
    requires laid { IsLaid vars (length words.old) (word words.old) refs.now }
    requires plan { IsPlan vars (length words.old) (word words.old) refs.now moved.now end }
    requires links { HasLinks (word words.old) refs.now }
    ensures slides { SlidesAll refs.now moved.now (word words.old) (word words.new) vars }
    ensures len { length words.new ≡ length words.old }
{
    for (i, clause) in refs.iter().enumerate() {
        slide(words, refs, moved, *clause, moved[i]);
    }
}

/// Moves all clauses down, and mends all links. Answers where the last clause ends.
fn slide_words(words: &mut Words, refs: &[u64], moved: &mut [u64], vars: u64) -> u64
    requires sound { IsSound vars words.old refs.now }
    requires count { length moved.old ≡ length refs.now }
    ensures plan { IsPlan vars (length words.old) (word words.old) refs.now moved.new result }
    ensures slides { Slides refs.now moved.new (word words.old) (word words.new) vars }
    ensures dense { result ≡ packed (2 * vars) (map (word words.old) refs.now) }
    ensures len { length words.new ≡ length words.old }
{
    let end = plan(words, refs, moved, vars);
    mend_heads(words, refs, moved, vars);
    slide_all(words, refs, moved, vars, end);
    end
}

/// The reason with its clause's new reference.
fn rename_reason(refs: &[u64], moved: &[u64], reason: Option<ClauseRef>) -> Option<ClauseRef>
    requires rising { Rises refs.now }
    requires count { length moved.now ≡ length refs.now }
    ensures { result ≡ reason_renamed refs.now moved.now reason }
{
    match reason {
        Some(clause) => Some(ClauseRef(new_ref(refs, moved, clause.0))),
        None => None,
    }
}

#[tactic(auto, using(std::proofs::lemmas::List::Edits::map_over_more))]
/// Gives each reason its clause's new reference.
fn rename_reasons(refs: &[u64], moved: &[u64], reasons: &mut [Option<ClauseRef>])
    requires rising { Rises refs.now }
    requires count { length moved.now ≡ length refs.now }
    ensures { reasons.new ≡ map (reason_renamed refs.now moved.now) reasons.old }
{
    for reason in reasons.iter_mut() {
        *reason = rename_reason(refs, moved, *reason);
    }
}

/// Moves clauses together. Answers as the references say it; the last vector keeps a word for each.
pub(crate) fn compact_in(
    words: &mut Words,
    refs: &mut Vec<u64>,
    moved: &mut Vec<u64>,
    vars: u64,
    reasons: &mut [Option<ClauseRef>],
)
    requires sound { IsSound vars words.old refs.old.items }
    requires count { length moved.old.items ≡ length refs.old.items }
    requires held { All (λ r. IfSome r (IsHeld (store vars words.old refs.old.items))) reasons.old }
    ensures sound { IsSound vars words.new refs.new.items }
    ensures count { length moved.new.items ≡ length refs.new.items }
    ensures compacts { Compacts (store vars words.old refs.old.items) (store vars words.new refs.new.items) }
    ensures clauses { clauses (store vars words.new refs.new.items)
        ≡ clauses (store vars words.old refs.old.items) }
    ensures reasons { reasons.new ≡ map (reason_renamed refs.old.items refs.new.items) reasons.old }
    ensures held { All (λ r. IfSome r (IsHeld (store vars words.new refs.new.items))) reasons.new }
    ensures numbers { map (option_map (number_of (store vars words.new refs.new.items))) reasons.new
        ≡ map (option_map (number_of (store vars words.old refs.old.items))) reasons.old }
{
    let end = slide_words(words, refs, moved, vars);
    words.truncate(end);
    rename_reasons(refs, moved, reasons);
    swap(refs, moved);
}
