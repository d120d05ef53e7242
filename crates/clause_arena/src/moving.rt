//! Moves of watches. References and the number of variables are passed for the conditions alone.

ghost use Rattle.std.specs.Prelude.{◌≡◌, ◌≢◌, ◌+◌, ◌*◌, ◌^◌, ◌<◌, ◌≤◌, Option, IfSome, length};
ghost use Rattle.clause_arena.specs.declared.names.Watch.{Watch};
ghost use Rattle.clause_arena.specs.Links.{word};
ghost use Rattle.clause_arena.specs.Store.{IsSound, store};
ghost use Rattle.clause_arena.specs.Held.{size_of};
ghost use Rattle.clause_arena.specs.Watched.{place, place_or, own, Stands, head, left, link_of};
ghost use Rattle.clause_arena.specs.Changes.{IsClear, IsRelinked, IsTwo, IsMoved};
ghost use Rattle.clause_arena.specs.Moved.{Moves};

use crate::names::Watch;
use crate::numbers::Words;
use crate::reading::{code_in, read};
use crate::walking::{place_of, watch_of};

/// The link that leads to what follows a watch, or to the list of a code.
fn link_in(before: Option<Watch>, code: u64) -> u64
    requires { link_of before code < 2 ^ 64 }
    ensures { result ≡ link_of before code }
{
    match before {
        Some(watch) => place_of(watch),
        None => code,
    }
}

#[tactic(auto, using(crate::proofs::Shifts::relinked_of))]
/// Takes a place from behind a link and puts it in front of the list of a code.
fn relink(words: &mut Words, link: u64, place: u64, code: u64)
    requires link { link < length words.old }
    requires place { place < length words.old }
    requires code { code < length words.old }
    requires link_place { link ≢ place }
    requires link_code { link ≢ code }
    requires place_code { place ≢ code }
    ensures relinked { IsRelinked (word words.old) (word words.new) link place code }
    ensures len { length words.new ≡ length words.old }
{
    words.copy(place, link);
    words.copy(code, place);
    words.put(code, place);
}

#[tactic(auto, using(crate::proofs::Shifts::two_of))]
/// Writes two codes.
fn write_two(words: &mut Words, one: u64, first: u64, other: u64, second: u64)
    requires one { one < length words.old }
    requires other { other < length words.old }
    requires first { first < length words.old }
    requires second { second < length words.old }
    requires apart { one ≢ other }
    ensures two { IsTwo (word words.old) (word words.new) one first other second }
    ensures len { length words.new ≡ length words.old }
{
    words.put(one, first);
    words.put(other, second);
}

#[tactic(auto, using(crate::proofs::Shifts::moved_of))]
/// Moves a watch: its link, and the two codes.
fn turn(words: &mut Words, link: u64, place: u64, new: u64, old: u64, one: u64, other: u64)
    requires clear { IsClear (length words.old) link place new one other }
    requires old { old < length words.old }
    ensures moved { IsMoved (word words.old) (word words.new) link place new old one other }
    ensures len { length words.new ≡ length words.old }
{
    relink(words, link, place, new);
    write_two(words, one, new, other, old);
}

/// Moves a watch and answers what came after it.
pub(crate) fn move_in(
    words: &mut Words,
    refs: &[u64],
    vars: u64,
    before: Option<Watch>,
    w: Watch,
    to: u64,
) -> Option<Watch>
    requires sound { IsSound vars words.old refs.now }
    requires stands { let a = store vars words.old refs.now in Stands a (own a w) w }
    requires before { let a = store vars words.old refs.now in head a before (own a w) ≡ place w }
    requires behind { 2 ≤ to }
    requires within { to < word words.old w.clause.0 }
    ensures sound { IsSound vars words.new refs.now }
    ensures moves { Moves (store vars words.old refs.now) (store vars words.new refs.now) before w to }
    ensures head { place_or result ≡ head (store vars words.new refs.now) before (own (store vars words.old refs.now) w) }
    ensures stands { IfSome result (Stands (store vars words.new refs.now) (own (store vars words.old refs.now) w)) }
    ensures fewer { left (store vars words.new refs.now) before (own (store vars words.old refs.now) w)
        < left (store vars words.old refs.now) before (own (store vars words.old refs.now) w) }
{
    words.is_short();
    let side = w.side as u64;
    let old = code_in(words, refs, vars, w.clause.0, side);
    let new = code_in(words, refs, vars, w.clause.0, to);
    let link = link_in(before, old);
    turn(
        words,
        link,
        place_of(w),
        new,
        old,
        w.clause.0 + 4 + side,
        w.clause.0 + 4 + to,
    );
    watch_of(read(words, link))
}
