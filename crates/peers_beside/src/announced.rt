//! Whether announcements of two networks are the same, wherever they are made.

ghost use Rattle.std.specs.Prelude.{◌≡◌, ◌==◌, ◌&&◌, ◌↔◌, ◌<◌, ◌≤◌, IfOk, length, map, not, true};
ghost use Rattle.joined_terms.specs.Joining.{behind};
ghost use Rattle.term_arith.specs.Bits.{ids_end, number};
ghost use Rattle.term_store.specs.Reading.{Builds, Gives};
ghost use Rattle.term_store.specs.Terms.{at, differ, size};
ghost use Rattle.sym_policy.specs.Held.{bgp_end};
ghost use Rattle.sym_rib.specs.Into.{list_end};
ghost use Rattle.peers_beside.specs.Same.{HaveLists, HaveSameLists, announced_at, announced_by};

use std::alloc::{AllocError, Global};
use sym_policy::SymBgp;
use term_arith::gates::{agree, both, constant_node, implies};
use term_store::{NodeId, Terms};
use ties_beside::placed::place_of;
use ties_beside::same_number;

// Whether the paths have the same first and the same last number.
fn same_ends(
    alloc: Global,
    terms: &mut Terms,
    places: &[NodeId],
    a: &SymBgp,
    b: &SymBgp,
) -> Result<NodeId, AllocError>
    requires first { bgp_end a.now ≤ size terms.old }
    requires second { bgp_end b.now ≤ length places.now }
    requires places { ids_end places.now ≤ size terms.old }
    ensures builds { Builds terms.old terms.new }
    ensures within { IfOk result (λ r. r.0 < size terms.new) }
    ensures value { Gives terms.new result (λ w r. at w r
        ≡ ((number w a.now.first.nodes.items == number (behind places.now w) b.now.first.nodes.items)
        && (number w a.now.last.nodes.items == number (behind places.now w) b.now.last.nodes.items))) }
{
    let first = same_number(alloc, terms, places, &a.first, &b.first)?;
    let last = same_number(alloc, terms, places, &a.last, &b.last)?;
    both(terms, first, last)
}

// Whether they are as long, and have the same ends.
fn same_path(
    alloc: Global,
    terms: &mut Terms,
    places: &[NodeId],
    a: &SymBgp,
    b: &SymBgp,
) -> Result<NodeId, AllocError>
    requires first { bgp_end a.now ≤ size terms.old }
    requires second { bgp_end b.now ≤ length places.now }
    requires places { ids_end places.now ≤ size terms.old }
    ensures builds { Builds terms.old terms.new }
    ensures within { IfOk result (λ r. r.0 < size terms.new) }
    ensures value { Gives terms.new result (λ w r. at w r
        ≡ ((number w a.now.len.nodes.items == number (behind places.now w) b.now.len.nodes.items)
        && ((number w a.now.first.nodes.items == number (behind places.now w) b.now.first.nodes.items)
        && (number w a.now.last.nodes.items == number (behind places.now w) b.now.last.nodes.items)))) }
{
    let len = same_number(alloc, terms, places, &a.len, &b.len)?;
    let ends = same_ends(alloc, terms, places, a, b)?;
    both(terms, len, ends)
}

// Whether the same tracked numbers stand in the paths, and the same tracked communities among the communities.
fn same_lists(
    alloc: Global,
    terms: &mut Terms,
    places: &[NodeId],
    a: &SymBgp,
    b: &SymBgp,
) -> Result<NodeId, AllocError>
    requires lists { HaveSameLists a.now b.now }
    requires first { bgp_end a.now ≤ size terms.old }
    requires second { bgp_end b.now ≤ length places.now }
    requires places { ids_end places.now ≤ size terms.old }
    ensures builds { Builds terms.old terms.new }
    ensures within { IfOk result (λ r. r.0 < size terms.new) }
    ensures value { Gives terms.new result (λ w r. at w r
        ≡ ((number w a.now.numbers.nodes.items == number (behind places.now w) b.now.numbers.nodes.items)
        && (number w a.now.communities.nodes.items == number (behind places.now w) b.now.communities.nodes.items))) }
{
    let numbers = same_number(alloc, terms, places, &a.numbers, &b.numbers)?;
    let communities = same_number(alloc, terms, places, &a.communities, &b.communities)?;
    both(terms, numbers, communities)
}

// Whether metric and origin are the same.
fn same_merits(
    alloc: Global,
    terms: &mut Terms,
    places: &[NodeId],
    a: &SymBgp,
    b: &SymBgp,
) -> Result<NodeId, AllocError>
    requires first { bgp_end a.now ≤ size terms.old }
    requires second { bgp_end b.now ≤ length places.now }
    requires places { ids_end places.now ≤ size terms.old }
    ensures builds { Builds terms.old terms.new }
    ensures within { IfOk result (λ r. r.0 < size terms.new) }
    ensures value { Gives terms.new result (λ w r. at w r
        ≡ ((number w a.now.med.nodes.items == number (behind places.now w) b.now.med.nodes.items)
        && (number w a.now.origin.nodes.items == number (behind places.now w) b.now.origin.nodes.items))) }
{
    let med = same_number(alloc, terms, places, &a.med, &b.med)?;
    let origin = same_number(alloc, terms, places, &a.origin, &b.origin)?;
    both(terms, med, origin)
}

// Whether the announcements are the same, as if both were there.
fn same_shape(
    alloc: Global,
    terms: &mut Terms,
    places: &[NodeId],
    a: &SymBgp,
    b: &SymBgp,
) -> Result<NodeId, AllocError>
    requires lists { HaveSameLists a.now b.now }
    requires first { bgp_end a.now ≤ size terms.old }
    requires second { bgp_end b.now ≤ length places.now }
    requires places { ids_end places.now ≤ size terms.old }
    ensures builds { Builds terms.old terms.new }
    ensures within { IfOk result (λ r. r.0 < size terms.new) }
    ensures value { Gives terms.new result (λ w r.
        at w r ≡ true ↔ announced_at w a.now ≡ announced_at (behind places.now w) b.now) }
{
    let path = same_path(alloc, terms, places, a, b)?;
    let lists = same_lists(alloc, terms, places, a, b)?;
    let merits = same_merits(alloc, terms, places, a, b)?;
    let rest = both(terms, lists, merits)?;
    both(terms, path, rest)
}

// Whether both are there or neither is.
#[tactic(auto, using(crate::proofs::Alike::valid_placed))]
fn both_there(
    terms: &mut Terms,
    places: &[NodeId],
    a: &SymBgp,
    b: &SymBgp,
) -> Result<NodeId, AllocError>
    requires first { bgp_end a.now ≤ size terms.old }
    requires second { bgp_end b.now ≤ length places.now }
    requires places { ids_end places.now ≤ size terms.old }
    ensures builds { Builds terms.old terms.new }
    ensures within { IfOk result (λ r. r.0 < size terms.new) }
    ensures value { Gives terms.new result (λ w r.
        at w r ≡ not (differ (at w a.now.valid) (at (behind places.now w) b.now.valid))) }
{
    agree(terms, a.valid, place_of(places, b.valid))
}

// Whether the same is announced, or nothing by both.
#[tactic(auto, using(crate::proofs::Alike::there_tells))]
fn same_announced(
    alloc: Global,
    terms: &mut Terms,
    places: &[NodeId],
    a: &SymBgp,
    b: &SymBgp,
) -> Result<NodeId, AllocError>
    requires lists { HaveSameLists a.now b.now }
    requires first { bgp_end a.now ≤ size terms.old }
    requires second { bgp_end b.now ≤ length places.now }
    requires places { ids_end places.now ≤ size terms.old }
    ensures builds { Builds terms.old terms.new }
    ensures within { IfOk result (λ r. r.0 < size terms.new) }
    ensures value { Gives terms.new result (λ w r.
        at w r ≡ true ↔ announced_by w a.now ≡ announced_by (behind places.now w) b.now) }
{
    let there = both_there(terms, places, a, b)?;
    let same = same_shape(alloc, terms, places, a, b)?;
    let if_there = implies(terms, a.valid, same)?;
    both(terms, there, if_there)
}

// Whether that is so of the announcements of two lists, place by place.
pub(crate) fn same_rows(
    alloc: Global,
    terms: &mut Terms,
    places: &[NodeId],
    a: &[SymBgp],
    b: &[SymBgp],
) -> Result<NodeId, AllocError>
    requires long { length a.now ≡ length b.now }
    requires lists { HaveLists a.now b.now }
    requires first { list_end bgp_end a.now ≤ size terms.old }
    requires second { list_end bgp_end b.now ≤ length places.now }
    requires places { ids_end places.now ≤ size terms.old }
    ensures builds { Builds terms.old terms.new }
    ensures within { IfOk result (λ r. r.0 < size terms.new) }
    ensures value { Gives terms.new result (λ w r.
        at w r ≡ true ↔ map (announced_by w) a.now ≡ map (announced_by (behind places.now w)) b.now) }
{
    let mut all = constant_node(terms, true)?;
    for i in 0..a.len() {
        let same = same_announced(alloc, terms, places, &a[i], &b[i])?;
        all = both(terms, all, same)?;
    }
    Ok(all)
}
