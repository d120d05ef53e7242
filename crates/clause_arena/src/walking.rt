//! Walks along the lists of watches. References and the number of variables are passed for the conditions alone.

ghost use Rattle.std.specs.Prelude.{◌≡◌, ◌+◌, ◌*◌, ◌^◌, ◌<◌, ◌≤◌, ◌⊎◌, Option, Some, None, IfSome, length};
ghost use Rattle.clause_arena.specs.declared.names.Watch.{Watch};
ghost use Rattle.clause_arena.specs.Store.{IsSound, store};
ghost use Rattle.clause_arena.specs.Watched.{place, place_or, own, Stands, head, left, watch_at};

use crate::names::{ClauseRef, Watch};
use crate::numbers::Words;
use crate::reading::read;

/// The watch whose link stands at a place, none at 0.
pub(crate) fn watch_of(place: u64) -> Option<Watch>
    requires { (place ≡ 0) ⊎ (3 < place + 2) }
    ensures { result ≡ watch_at place }
{
    if place == 0 {
        return None;
    }
    let side = place % 2;
    Some(Watch {
        clause: ClauseRef(place - 2 - side),
        side: side as u8,
    })
}

/// The place of a watch's link.
pub(crate) fn place_of(w: Watch) -> u64
    requires { place w < 2 ^ 64 }
    ensures { result ≡ place w }
{
    w.clause.0 + 2 + u64::from(w.side)
}

/// The first watch in the list of a code.
pub(crate) fn first_in(words: &Words, refs: &[u64], vars: u64, code: u64) -> Option<Watch>
    requires sound { IsSound vars words.now refs.now }
    requires below { code < 2 * vars }
    ensures head { place_or result ≡ head (store vars words.now refs.now) None code }
    ensures stands { IfSome result (Stands (store vars words.now refs.now) code) }
{
    watch_of(read(words, code))
}

/// The watch that follows another in the list of its literal.
pub(crate) fn next_in(words: &Words, refs: &[u64], vars: u64, w: Watch) -> Option<Watch>
    requires sound { IsSound vars words.now refs.now }
    requires stands { let a = store vars words.now refs.now in Stands a (own a w) w }
    ensures head { let a = store vars words.now refs.now in place_or result ≡ head a (Some w) (own a w) }
    ensures stands { let a = store vars words.now refs.now in IfSome result (Stands a (own a w)) }
    ensures fewer { let a = store vars words.now refs.now in (before : Option Watch) → head a before (own a w) ≡ place w
        → left a (Some w) (own a w) < left a before (own a w) }
{
    words.is_short();
    watch_of(read(words, place_of(w)))
}
