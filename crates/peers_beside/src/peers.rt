//! Whether the external peers that two networks have in common are the same and announce the same.

ghost use Rattle.std.specs.Prelude.{◌≡◌, ◌==◌, ◌+◌, ◌*◌, ◌↔◌, ◌<◌, ◌≤◌, All, IfOk, IfSome, Some, length, map, option_copied, slice_get, take, true};
ghost use Rattle.net_parts.specs.Decisions.{external_count};
ghost use Rattle.net_parts.specs.Sessions.{ends_of};
ghost use Rattle.joined_terms.specs.Joining.{behind};
ghost use Rattle.term_arith.specs.Bits.{ids_end};
ghost use Rattle.term_store.specs.Reading.{Builds, Gives};
ghost use Rattle.term_store.specs.Terms.{at, size};
ghost use Rattle.sym_policy.specs.Held.{bgp_end};
ghost use Rattle.sym_rib.specs.Into.{list_end};
ghost use Rattle.announced_places.specs.Announced.{Ascend};
ghost use Rattle.paired_nets.specs.Ends.{AreEndPairs, AreOneEnd};
ghost use Rattle.bgp_equations.specs.Environments.{FitsNet, env_end, environment_read};
ghost use Rattle.peers_beside.specs.Same as same;
ghost use Rattle.peers_beside.specs.Shared.{AreCommonShapes};

use crate::announced::same_rows;
use bgp_equations::SymEnv;
use net_model::Net;
use net_parts::SessionEnd;
use net_parts::ends::is_outside;
use paired_nets::EndPair;
use std::alloc::{AllocError, Global};
use sym_policy::SymBgp;
use term_arith::Bits;
use term_arith::gates::{both, constant_node};
use term_store::{NodeId, Terms};
use ties_beside::same_number;

/// Two networks and their environments over the same prefix lengths, side by side: the nodes of the first environment
/// stand in the store, and those of the second one at these places.
#[derive(Clone, Copy)]
pub struct Sides<'a> {
    /// Where the nodes of the second environment stand.
    pub places: &'a [NodeId],
    /// The first network.
    pub left: &'a Net,
    /// The second network.
    pub right: &'a Net,
    /// The prefix lengths, rising.
    pub lens: &'a [u8],
    /// The first environment.
    pub a: &'a SymEnv,
    /// The second environment.
    pub b: &'a SymEnv,
}

// How many external ends stand before a place.
#[tactic(auto, using(bgp_equations::proofs::Environments::count_is))]
fn external_number(ends: &[SessionEnd], at: u64) -> usize
    requires { at ≤ length ends.now }
    ensures { result ≡ external_count (take at ends.now) }
{
    let before = &ends[..at as usize];
    before.iter().filter(|end| is_outside(end)).count()
}

// How many stand before that of a network.
fn number_of(net: &Net, at: u64) -> usize
    requires { at ≤ length (ends_of net.now.files) }
    ensures { result ≡ same.number_at net.now.files at }
{
    external_number(net.ends(), at)
}

fn item(ids: &[Bits], k: usize) -> Option<&Bits>
    ensures { option_copied result ≡ slice_get ids.now k }
{
    ids.get(k)
}

// The identifier at a place.
#[tactic(auto, using(bgp_equations::proofs::Environments::ids_steps))]
fn id_at(ids: &[Bits], k: usize) -> Option<&Bits>
    requires wide { All (λ id. length id.nodes.items ≡ 32) ids.now }
    ensures place { option_copied result ≡ slice_get ids.now k }
    ensures wide { IfSome result (λ id. length id.now.nodes.items ≡ 32) }
    ensures within { IfSome result (λ id. ids_end id.now.nodes.items ≤ list_end
        (λ id. ids_end id.nodes.items) ids.now) }
{
    item(ids, k)
}

// Whether the identifiers at two places are one, or neither is there.
fn same_ids(
    alloc: Global,
    terms: &mut Terms,
    places: &[NodeId],
    a: &[Bits],
    b: &[Bits],
    i: usize,
    j: usize,
) -> Result<NodeId, AllocError>
    requires wide { All (λ id. length id.nodes.items ≡ 32) a.now }
    requires also_wide { All (λ id. length id.nodes.items ≡ 32) b.now }
    requires first { list_end (λ id. ids_end id.nodes.items) a.now ≤ size terms.old }
    requires second { list_end (λ id. ids_end id.nodes.items) b.now ≤ length places.now }
    requires places { ids_end places.now ≤ size terms.old }
    ensures builds { Builds terms.old terms.new }
    ensures within { IfOk result (λ r. r.0 < size terms.new) }
    ensures value { Gives terms.new result (λ w r.
        at w r ≡ same.same_id w (behind places.now w) (slice_get a.now i) (slice_get b.now j)) }
{
    match (id_at(a, i), id_at(b, j)) {
        (Some(x), Some(y)) => same_number(alloc, terms, places, x, y),
        (None, None) => constant_node(terms, true),
        _ => constant_node(terms, false),
    }
}

// The announcements of a row, of so many each.
fn row(announced: &[SymBgp], count: usize, k: usize) -> &[SymBgp]
    requires { k * count + count ≤ length announced.now }
    ensures { result.now ≡ same.row count announced.now k }
{
    &announced[k * count..k * count + count]
}

// Whether the same is announced at each length in rows of two lists.
#[tactic(auto, using(crate::proofs::AlikeRows::row_full, crate::proofs::AlikeRows::row_end))]
fn same_lengths(
    alloc: Global,
    terms: &mut Terms,
    places: &[NodeId],
    count: usize,
    a: &[SymBgp],
    b: &[SymBgp],
    i: usize,
    j: usize,
) -> Result<NodeId, AllocError>
    requires here { i * count + count ≤ length a.now }
    requires there { j * count + count ≤ length b.now }
    requires lists { same.HaveLists (same.row count a.now i) (same.row count b.now j) }
    requires first { list_end bgp_end a.now ≤ size terms.old }
    requires second { list_end bgp_end b.now ≤ length places.now }
    requires places { ids_end places.now ≤ size terms.old }
    ensures builds { Builds terms.old terms.new }
    ensures within { IfOk result (λ r. r.0 < size terms.new) }
    ensures value { Gives terms.new result (λ w r. at w r ≡ true
        ↔ map (same.announced_by w) (same.row count a.now i)
        ≡ map (same.announced_by (behind places.now w)) (same.row count b.now j)) }
{
    let here = row(a, count, i);
    let there = row(b, count, j);
    same_rows(alloc, terms, places, here, there)
}

// Whether the external peers of a pair of ends have one identifier, and announce the same.
fn is_one_peer(
    alloc: Global,
    terms: &mut Terms,
    sides: &Sides<'_>,
    pair: &EndPair,
) -> Result<NodeId, AllocError>
    requires first { env_end sides.now.a.now ≤ size terms.old }
    requires second { env_end sides.now.b.now ≤ length sides.now.places.now }
    requires places { ids_end sides.now.places.now ≤ size terms.old }
    requires fits { FitsNet sides.now.left.now.files sides.now.left.now.tracked sides.now.lens.now sides.now.a.now }
    requires fits_too { FitsNet sides.now.right.now.files sides.now.right.now.tracked sides.now.lens.now
        sides.now.b.now }
    requires tracked { sides.now.left.now.tracked ≡ sides.now.right.now.tracked }
    requires pair { AreOneEnd sides.now.left.now.files sides.now.right.now.files pair.now.one pair.now.other }
    ensures builds { Builds terms.old terms.new }
    ensures within { IfOk result (λ r. r.0 < size terms.new) }
    ensures value { Gives terms.new result (λ w r. at w r ≡ true
        ↔ same.IsOnePeer sides.now.left.now.files sides.now.right.now.files (length sides.now.lens.now) w
        (behind sides.now.places.now w) sides.now.a.now sides.now.b.now pair.now) }
{
    let one = number_of(sides.left, pair.one);
    let other = number_of(sides.right, pair.other);
    let id = same_ids(
        alloc,
        terms,
        sides.places,
        sides.a.ids.as_slice(),
        sides.b.ids.as_slice(),
        one,
        other,
    )?;
    let announced = same_lengths(
        alloc,
        terms,
        sides.places,
        sides.lens.len(),
        sides.a.announced.as_slice(),
        sides.b.announced.as_slice(),
        one,
        other,
    )?;
    both(terms, id, announced)
}

// Whether that is so of each of these pairs.
fn are_one_peer(
    alloc: Global,
    terms: &mut Terms,
    sides: &Sides<'_>,
    pairs: &[EndPair],
) -> Result<NodeId, AllocError>
    requires first { env_end sides.now.a.now ≤ size terms.old }
    requires second { env_end sides.now.b.now ≤ length sides.now.places.now }
    requires places { ids_end sides.now.places.now ≤ size terms.old }
    requires fits { FitsNet sides.now.left.now.files sides.now.left.now.tracked sides.now.lens.now sides.now.a.now }
    requires fits_too { FitsNet sides.now.right.now.files sides.now.right.now.tracked sides.now.lens.now
        sides.now.b.now }
    requires tracked { sides.now.left.now.tracked ≡ sides.now.right.now.tracked }
    requires pairs { All (λ pair. AreOneEnd sides.now.left.now.files sides.now.right.now.files pair.one pair.other)
        pairs.now }
    ensures builds { Builds terms.old terms.new }
    ensures within { IfOk result (λ r. r.0 < size terms.new) }
    ensures value { Gives terms.new result (λ w r. at w r ≡ true
        ↔ All (same.IsOnePeer sides.now.left.now.files sides.now.right.now.files (length sides.now.lens.now) w
        (behind sides.now.places.now w) sides.now.a.now sides.now.b.now) pairs.now) }
{
    let mut all = constant_node(terms, true)?;
    for pair in pairs {
        let one = is_one_peer(alloc, terms, sides, pair)?;
        all = both(terms, all, one)?;
    }
    Ok(all)
}

/// Whether the external peers that two networks have in common have the same identifiers and announce the same at each
/// of these prefix lengths: the nodes of the first environment stand in the store, and those of the second one at these
/// places. Err is want of memory.
pub fn same_peers(
    alloc: Global,
    terms: &mut Terms,
    sides: &Sides<'_>,
    pairs: &[EndPair],
) -> Result<NodeId, AllocError>
    requires first { env_end sides.now.a.now ≤ size terms.old }
    requires second { env_end sides.now.b.now ≤ length sides.now.places.now }
    requires places { ids_end sides.now.places.now ≤ size terms.old }
    requires lens { Ascend sides.now.lens.now }
    requires fits { FitsNet sides.now.left.now.files sides.now.left.now.tracked sides.now.lens.now sides.now.a.now }
    requires fits_too { FitsNet sides.now.right.now.files sides.now.right.now.tracked sides.now.lens.now
        sides.now.b.now }
    requires tracked { sides.now.left.now.tracked ≡ sides.now.right.now.tracked }
    requires pairs { AreEndPairs sides.now.left.now.files sides.now.right.now.files pairs.now }
    ensures builds { Builds terms.old terms.new }
    ensures within { IfOk result (λ r. r.0 < size terms.new) }
    ensures value { Gives terms.new result (λ w r. at w r ≡ true ↔ AreCommonShapes sides.now.left.now.files
        sides.now.right.now.files
        (environment_read w sides.now.left.now.files sides.now.lens.now sides.now.a.now)
        (environment_read (behind sides.now.places.now w) sides.now.right.now.files sides.now.lens.now
        sides.now.b.now)) }
{
    are_one_peer(alloc, terms, sides, pairs)
}
