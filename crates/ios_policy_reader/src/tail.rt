//! Reads the words of a line after its head.

ghost use Rattle.std.specs.Prelude.{◌≡◌, ◌≢◌, ℕ, ◌+◌, ◌-◌, ◌<◌, ◌≤◌, ◌^◌, IfOk, IfErr, Ok, Err, [], length, drop};
ghost use Rattle.ios_policy_reader.specs.Edges.{read_from};

use crate::cause::Cause;
use crate::edges::{Edge, can_end, find_way};
use crate::said::Said;
use mw_text::List;
use std::alloc::Global;

/// What the words say after the head, along the edges from a state on.
pub fn read_tail(
    alloc: Global,
    edges: &[Edge],
    from: u8,
    head: u32,
    words: &[List<u8>],
) -> Result<List<Said>, Cause>
    requires few { length words.now < 2 ^ 32 - 1 }
    requires head { head ≤ length words.now }
    ensures ok { IfOk result (λ said. read_from edges.now from [] head (drop head words.now) ≡ Ok said) }
    ensures refused { IfErr result (λ cause. cause ≢ Cause.Memory → read_from edges.now from [] head (drop head words.now) ≡ Err cause) }
{
    let mut said = List::new(alloc);
    let mut state = from;
    for at in head..words.len() as u32 {
        let word = words[at as usize].as_slice();
        let Some(way) = find_way(edges, state, said.as_slice(), at, word) else {
            return Err(Cause::BadWord { word: at + 1 });
        };
        said.items.push(way.said)?;
        state = way.to;
    }
    if can_end(edges, state) {
        Ok(said)
    } else {
        let count = words.len() as u32;
        Err(Cause::BadWord { word: count + 1 })
    }
}
