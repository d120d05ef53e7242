//! Whether the links that two networks have in common fail in both or in neither.

ghost use Rattle.std.specs.Prelude.{◌≡◌, ◌<◌, ◌≤◌, IfOk, length};
ghost use Rattle.std.specs.List.{list_all};
ghost use Rattle.joined_terms.specs.Joining.{behind};
ghost use Rattle.term_arith.specs.Bits.{ids_end};
ghost use Rattle.term_store.specs.Reading.{Builds, Gives};
ghost use Rattle.term_store.specs.Terms.{at, size};
ghost use Rattle.ties_beside.specs.Links.{fail_alike, fails};

use crate::placed::place_of;
use paired_nets::LinkPair;
use std::alloc::AllocError;
use term_arith::gates::{agree, both, constant_node};
use term_store::{NodeId, Terms};

// Whether the link of a place has failed.
#[tactic(auto, using(crate::proofs::Placing::some_read, crate::proofs::Placing::none_read))]
fn failed_here(terms: &mut Terms, ids: &[NodeId], place: u32) -> Result<NodeId, AllocError>
    requires { ids_end ids.now ≤ size terms.old }
    ensures builds { Builds terms.old terms.new }
    ensures within { IfOk result (λ r. r.0 < size terms.new) }
    ensures value { Gives terms.new result (λ w r. at w r ≡ fails w ids.now place) }
{
    match ids.get(place as usize) {
        Some(id) => Ok(*id),
        None => constant_node(terms, false),
    }
}

// Whether that of the second network has.
#[tactic(auto, using(crate::proofs::Placing::some_read, crate::proofs::Placing::none_read))]
fn failed_there(
    terms: &mut Terms,
    places: &[NodeId],
    ids: &[NodeId],
    place: u32,
) -> Result<NodeId, AllocError>
    requires ids { ids_end ids.now ≤ length places.now }
    requires places { ids_end places.now ≤ size terms.old }
    ensures builds { Builds terms.old terms.new }
    ensures within { IfOk result (λ r. r.0 < size terms.new) }
    ensures value { Gives terms.new result (λ w r. at w r ≡ fails (behind places.now w) ids.now place) }
{
    match ids.get(place as usize) {
        Some(id) => Ok(place_of(places, *id)),
        None => constant_node(terms, false),
    }
}

// Whether the links of a pair fail in both networks or in neither.
fn same_link(
    terms: &mut Terms,
    places: &[NodeId],
    a: &[NodeId],
    b: &[NodeId],
    pair: &LinkPair,
) -> Result<NodeId, AllocError>
    requires first { ids_end a.now ≤ size terms.old }
    requires second { ids_end b.now ≤ length places.now }
    requires places { ids_end places.now ≤ size terms.old }
    ensures builds { Builds terms.old terms.new }
    ensures within { IfOk result (λ r. r.0 < size terms.new) }
    ensures value { Gives terms.new result (λ w r. at w r ≡ fail_alike w places.now a.now b.now pair.now) }
{
    let here = failed_here(terms, a, pair.one)?;
    let there = failed_there(terms, places, b, pair.other)?;
    agree(terms, here, there)
}

/// Whether the links of these pairs fail in both networks or in neither: the nodes of the first one stand for its
/// links, by their places, and those of the second one, at these places, for the other's. Err is want of memory.
pub fn same_links(
    terms: &mut Terms,
    places: &[NodeId],
    a: &[NodeId],
    b: &[NodeId],
    pairs: &[LinkPair],
) -> Result<NodeId, AllocError>
    requires first { ids_end a.now ≤ size terms.old }
    requires second { ids_end b.now ≤ length places.now }
    requires places { ids_end places.now ≤ size terms.old }
    ensures builds { Builds terms.old terms.new }
    ensures within { IfOk result (λ r. r.0 < size terms.new) }
    ensures value { Gives terms.new result (λ w r. at w r ≡ list_all (fail_alike w places.now a.now b.now) pairs.now) }
{
    let mut all = constant_node(terms, true)?;
    for pair in pairs {
        let same = same_link(terms, places, a, b, pair)?;
        all = both(terms, all, same)?;
    }
    Ok(all)
}
