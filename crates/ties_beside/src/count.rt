//! Whether at most so many links of two networks fail.

ghost use Rattle.std.specs.Prelude.{◌≡◌, ◌==◌, ◌+◌, ◌≤◌, ◌<◌, ◌++◌, ◌∷◌};
ghost use Rattle.std.specs.Prelude.{[], IfOk, OnOk, count_by, length, map, nat_le, if◌then◌else◌};
ghost use Rattle.std.specs.List.{list_any};
ghost use Rattle.joined_terms.specs.Joining as joining;
ghost use Rattle.term_arith.specs.Bits.{ids_end};
ghost use Rattle.term_store.specs.Reading.{Builds, Gives};
ghost use Rattle.term_store.specs.Terms.{at as value_at, size};
ghost use Rattle.ties_beside.specs.Count as counting;

use crate::placed::place_of;
use mw_text::List;
use paired_nets::LinkPair;
use std::alloc::{AllocError, Global};
use term_arith::at_most;
use term_arith::lists::put;
use term_store::{NodeId, Terms};

fn has_other(pair: &LinkPair, at: u64) -> bool
    ensures { result ≡ (pair.now.other == at) }
{
    u64::from(pair.other) == at
}

fn some_has(pairs: &[LinkPair], at: u64) -> bool
    ensures { result ≡ list_any (λ pair. pair.other == at) pairs.now }
{
    pairs.iter().any(|pair| has_other(pair, at))
}

// Whether no pair has the link of a place.
fn is_own(pairs: &[LinkPair], at: u64) -> bool
    ensures { result ≡ counting.is_own pairs.now at }
{
    !some_has(pairs, at)
}

fn put_where(out: &mut List<NodeId>, id: NodeId, own: bool) -> Result<(), AllocError>
    ensures { OnOk result (out.new ≡ (if own then out.old ++ id ∷ [] else out.old)) }
{
    if own {
        put(out, id)?;
    }
    Ok(())
}

// Puts the nodes of the links that no pair has, by their places.
fn put_own(
    out: &mut List<NodeId>,
    places: &[NodeId],
    ids: &[NodeId],
    pairs: &[LinkPair],
) -> Result<(), AllocError>
    ensures { OnOk result (out.new
        ≡ out.old ++ map (joining.place_of places.now) (counting.own_from pairs.now 0 ids.now)) }
{
    for at in 0..ids.len() {
        let own = is_own(pairs, at as u64);
        put_where(out, place_of(places, ids[at]), own)?;
    }
    Ok(())
}

/// Whether at most so many links of both networks fail, those of a pair counted once: the nodes of the first one
/// stand for its links, by their places, and those of the second one, at these places, for the other's. Err is want
/// of memory.
#[tactic(auto, using(crate::proofs::Counting::all_end, crate::proofs::Counting::count_all))]
pub fn few_fail(
    alloc: Global,
    terms: &mut Terms,
    places: &[NodeId],
    a: &[NodeId],
    b: &[NodeId],
    pairs: &[LinkPair],
    most: u32,
) -> Result<NodeId, AllocError>
    requires first { ids_end a.now ≤ size terms.old }
    requires second { ids_end b.now ≤ length places.now }
    requires places { ids_end places.now ≤ size terms.old }
    ensures builds { Builds terms.old terms.new }
    ensures within { IfOk result (λ r. r.0 < size terms.new) }
    ensures value { Gives terms.new result (λ w r. value_at w r
        ≡ nat_le (count_by (value_at w) a.now
        + count_by (value_at (joining.behind places.now w)) (counting.own_from pairs.now 0 b.now)) most) }
{
    let items = Vec::from_slice(alloc, a)?;
    let mut nodes = List { items };
    put_own(&mut nodes, places, b, pairs)?;
    let few = at_most(alloc, terms, nodes.as_slice(), most)?;
    Ok(few)
}
