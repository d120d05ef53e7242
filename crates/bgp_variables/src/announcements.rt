//! Whether a route may be announced by an external peer, as a term.

ghost use Rattle.std.specs.Prelude.{◌≡◌, ◌==◌, ◌||◌, ◌&&◌, ℕ, ◌+◌, ◌<◌, ◌≤◌, ◌^◌, Bool, not, nat_lt, nat_le, IfOk, if◌then◌else◌, length};
ghost use Rattle.route_record.specs.declared.tracked.TheConstants as constants;
ghost use Rattle.term_store.specs.Terms.{Reading, at, size};
ghost use Rattle.term_store.specs.Reading.{Reads, Builds, Gives};
ghost use Rattle.term_arith.specs.Bits.{bits, number, ids_end};
ghost use Rattle.sym_policy.specs.Held.{bgp_at, bgp_end};
ghost use Rattle.net_parts.specs.World.{is_as_number};
ghost use Rattle.announced_shapes.specs.Paths.{has_path_ends, has_path_length, has_path_marks};
ghost use Rattle.bgp_variables.specs.Announced.{are_fit, inner_count, is_announced, is_one_of};

use route_record::Tracked;
use std::alloc::{AllocError, Global};
use sym_policy::SymBgp;
use term_arith::gates::{both, constant_node, either, implies, negate};
use term_arith::{
    Bits, above_number, add, add_within, choose, constant, equal, equal_number, less,
};
use term_store::{NodeId, Terms};

/// Most numbers of a path.
const MOST_NUMBERS: u64 = 255;

// Whether a number is at most another one that is known.
#[tactic(auto, using(crate::proofs::AnnouncedSteps::not_above))]
fn sym_at_most(terms: &mut Terms, n: &Bits, most: u64) -> Result<NodeId, AllocError>
    requires { ids_end n.now.nodes.items ≤ size terms.old }
    ensures builds { Builds terms.old terms.new }
    ensures within { IfOk result (λ r. r.0 < size terms.new) }
    ensures value { Gives terms.new result (λ w r. at w r ≡ nat_le (number w n.now.nodes.items) most) }
{
    let more = above_number(terms, n.nodes.as_slice(), most)?;
    negate(terms, more)
}

// Whether a path has 1 to 255 numbers.
fn sym_length(terms: &mut Terms, len: &Bits) -> Result<NodeId, AllocError>
    requires { ids_end len.now.nodes.items ≤ size terms.old }
    ensures builds { Builds terms.old terms.new }
    ensures within { IfOk result (λ r. r.0 < size terms.new) }
    ensures value { Gives terms.new result (λ w r. at w r
        ≡ (nat_lt 0 (number w len.now.nodes.items) && nat_le (number w len.now.nodes.items) 255)) }
{
    let some = above_number(terms, len.nodes.as_slice(), 0)?;
    let short = sym_at_most(terms, len, MOST_NUMBERS)?;
    both(terms, some, short)
}

// Whether a number is an AS number.
#[tactic(auto, using(crate::proofs::AnnouncedSteps::as_number))]
fn sym_as_number(terms: &mut Terms, n: &Bits) -> Result<NodeId, AllocError>
    requires wide { length n.now.nodes.items ≡ 32 }
    requires nodes { ids_end n.now.nodes.items ≤ size terms.old }
    ensures builds { Builds terms.old terms.new }
    ensures within { IfOk result (λ r. r.0 < size terms.new) }
    ensures value { Gives terms.new result (λ w r. at w r ≡ is_as_number (number w n.now.nodes.items)) }
{
    above_number(terms, n.nodes.as_slice(), 0)
}

// Whether the first number is that of the peer's AS.
fn sym_first(terms: &mut Terms, asn: u32, first: &Bits) -> Result<NodeId, AllocError>
    requires wide { length first.now.nodes.items ≡ 32 }
    requires nodes { ids_end first.now.nodes.items ≤ size terms.old }
    ensures builds { Builds terms.old terms.new }
    ensures within { IfOk result (λ r. r.0 < size terms.new) }
    ensures value { Gives terms.new result (λ w r. at w r
        ≡ ((number w first.now.nodes.items == asn) && is_as_number (number w first.now.nodes.items))) }
{
    let peer = equal_number(terms, first.nodes.as_slice(), u64::from(asn))?;
    let known = sym_as_number(terms, first)?;
    both(terms, peer, known)
}

// Whether the last number is an AS number, and that of the first where there is one number.
fn sym_last(terms: &mut Terms, s: &SymBgp) -> Result<NodeId, AllocError>
    requires { bgp_end s.now ≤ size terms.old }
    ensures builds { Builds terms.old terms.new }
    ensures within { IfOk result (λ r. r.0 < size terms.new) }
    ensures value { Gives terms.new result (λ w r. at w r ≡ (is_as_number (bgp_at w s.now).path.last
        && (not ((bgp_at w s.now).path.len == 1) || ((bgp_at w s.now).path.first == (bgp_at w s.now).path.last)))) }
{
    let known = sym_as_number(terms, &s.last)?;
    let one = equal_number(terms, s.len.nodes.as_slice(), 1)?;
    let same = equal(terms, &s.first, &s.last)?;
    let single = implies(terms, one, same)?;
    both(terms, known, single)
}

// What the ends of a path must be.
fn sym_ends(terms: &mut Terms, asn: u32, s: &SymBgp) -> Result<NodeId, AllocError>
    requires { bgp_end s.now ≤ size terms.old }
    ensures builds { Builds terms.old terms.new }
    ensures within { IfOk result (λ r. r.0 < size terms.new) }
    ensures value { Gives terms.new result (λ w r. at w r ≡ has_path_ends asn (bgp_at w s.now).path) }
{
    let first = sym_first(terms, asn, &s.first)?;
    let last = sym_last(terms, s)?;
    both(terms, first, last)
}

// ---- marks

/// A tracked number of a path: whether its mark may be so, and whether it stands between the ends alone.
#[derive(Clone, Copy)]
struct MarkTest {
    fit: NodeId,
    inner: NodeId,
}

// Whether a number is one of the ends of a path.
fn sym_is_end(terms: &mut Terms, s: &SymBgp, t: u32) -> Result<NodeId, AllocError>
    requires { bgp_end s.now ≤ size terms.old }
    ensures builds { Builds terms.old terms.new }
    ensures within { IfOk result (λ r. r.0 < size terms.new) }
    ensures value { Gives terms.new result (λ w r. at w r
        ≡ is_one_of (bgp_at w s.now).path.first (bgp_at w s.now).path.last t) }
{
    let first = equal_number(terms, s.first.nodes.as_slice(), u64::from(t))?;
    let last = equal_number(terms, s.last.nodes.as_slice(), u64::from(t))?;
    either(terms, first, last)
}

// A number that is no AS number is not marked.
#[tactic(auto, using(crate::proofs::AnnouncedSteps::known_word))]
fn sym_may(terms: &mut Terms, t: u32, mark: NodeId) -> Result<NodeId, AllocError>
    requires { mark.0 < size terms.old }
    ensures builds { Builds terms.old terms.new }
    ensures within { IfOk result (λ r. r.0 < size terms.new) }
    ensures value { Gives terms.new result (λ w r. at w r ≡ (is_as_number t || not (at w mark))) }
{
    if t == 0 {
        negate(terms, mark)
    } else {
        constant_node(terms, true)
    }
}

fn sym_mark(terms: &mut Terms, s: &SymBgp, t: u32, mark: NodeId) -> Result<MarkTest, AllocError>
    requires nodes { bgp_end s.now ≤ size terms.old }
    requires mark { mark.0 < size terms.old }
    ensures builds { Builds terms.old terms.new }
    ensures fit_within { IfOk result (λ r. r.fit.0 < size terms.new) }
    ensures inner_within { IfOk result (λ r. r.inner.0 < size terms.new) }
    ensures fit { Gives terms.new result (λ w r. at w r.fit
        ≡ ((not (is_one_of (bgp_at w s.now).path.first (bgp_at w s.now).path.last t) || at w mark)
        && (is_as_number t || not (at w mark)))) }
    ensures inner { Gives terms.new result (λ w r. at w r.inner
        ≡ (at w mark && not (is_one_of (bgp_at w s.now).path.first (bgp_at w s.now).path.last t))) }
{
    let end = sym_is_end(terms, s, t)?;
    let known = sym_may(terms, t, mark)?;
    let marked = implies(terms, end, mark)?;
    let fit = both(terms, marked, known)?;
    let other = negate(terms, end)?;
    let inner = both(terms, mark, other)?;
    Ok(MarkTest { fit, inner })
}

// A count of 8 bits with one more, where a node is true.
#[tactic(auto, using(crate::proofs::AnnouncedSteps::one_more))]
fn counted(alloc: Global, terms: &mut Terms, count: &Bits, node: NodeId) -> Result<Bits, AllocError>
    requires wide { length count.now.nodes.items ≡ 8 }
    requires nodes { ids_end count.now.nodes.items ≤ size terms.old }
    requires node { node.0 < size terms.old }
    ensures builds { Builds terms.old terms.new }
    ensures within { IfOk result (λ r. ids_end r.nodes.items ≤ size terms.new) }
    ensures width { IfOk result (λ r. length r.nodes.items ≡ 8) }
    ensures value { Gives terms.new result (λ w r. number w count.now.nodes.items < 255 → number w r.nodes.items
        ≡ number w count.now.nodes.items + (if at w node then 1 else 0)) }
{
    let one = constant(alloc, terms, 1, 8)?;
    let more = add_within(alloc, terms, count, &one)?;
    choose(alloc, terms, node, &more.sum, count)
}

/// The tracked numbers of a path: whether their marks may be so, and how many stand between the ends alone.
#[derive(Drop)]
struct MarksTest {
    fit: NodeId,
    count: Bits,
}

#[tactic(auto, using(crate::proofs::AnnouncedSteps::mark_steps))]
fn sym_marks(
    alloc: Global,
    terms: &mut Terms,
    tracked: &[u32],
    s: &SymBgp,
) -> Result<MarksTest, AllocError>
    requires few { length tracked.now ≤ constants.MOST_TRACKED }
    requires rows { length s.now.numbers.nodes.items ≡ length tracked.now }
    requires nodes { bgp_end s.now ≤ size terms.old }
    ensures builds { Builds terms.old terms.new }
    ensures fit_within { IfOk result (λ r. r.fit.0 < size terms.new) }
    ensures count_within { IfOk result (λ r. ids_end r.count.nodes.items ≤ size terms.new) }
    ensures width { IfOk result (λ r. length r.count.nodes.items ≡ 8) }
    ensures fit { Gives terms.new result (λ w r. at w r.fit
        ≡ are_fit (is_one_of (bgp_at w s.now).path.first (bgp_at w s.now).path.last) tracked.now
        (bits w s.now.numbers.nodes.items)) }
    ensures count { Gives terms.new result (λ w r. number w r.count.nodes.items
        ≡ inner_count (is_one_of (bgp_at w s.now).path.first (bgp_at w s.now).path.last) tracked.now
        (bits w s.now.numbers.nodes.items)) }
{
    let marks = s.numbers.nodes.as_slice();
    let mut fit = constant_node(terms, true)?;
    let mut count = constant(alloc, terms, 0, 8)?;
    for i in 0..tracked.len() {
        let test = sym_mark(terms, s, tracked[i], marks[i])?;
        fit = both(terms, fit, test.fit)?;
        count = counted(alloc, terms, &count, test.inner)?;
    }
    Ok(MarksTest { fit, count })
}

// How many numbers the ends of a path are.
fn sym_ends_count(alloc: Global, terms: &mut Terms, len: &Bits) -> Result<Bits, AllocError>
    requires { ids_end len.now.nodes.items ≤ size terms.old }
    ensures builds { Builds terms.old terms.new }
    ensures within { IfOk result (λ r. ids_end r.nodes.items ≤ size terms.new) }
    ensures width { IfOk result (λ r. length r.nodes.items ≡ 8) }
    ensures value { Gives terms.new result (λ w r. number w r.nodes.items
        ≡ (if number w len.now.nodes.items == 1 then 1 else 2)) }
{
    let single = equal_number(terms, len.nodes.as_slice(), 1)?;
    let one = constant(alloc, terms, 1, 8)?;
    let two = constant(alloc, terms, 2, 8)?;
    choose(alloc, terms, single, &one, &two)
}

// A number in 32 bits.
#[tactic(auto, using(failed_links::proofs::Steps::number_above, sym_policy::proofs::NetworkBits::joined_ends, world_variables::proofs::Steps::nothing_above))]
fn widened(alloc: Global, terms: &mut Terms, n: Bits) -> Result<Bits, AllocError>
    requires wide { length n.nodes.items ≡ 9 }
    requires nodes { ids_end n.nodes.items ≤ size terms.old }
    ensures builds { Builds terms.old terms.new }
    ensures within { IfOk result (λ r. ids_end r.nodes.items ≤ size terms.new) }
    ensures width { IfOk result (λ r. length r.nodes.items ≡ 32) }
    ensures value { Gives terms.new result (λ w r. number w r.nodes.items ≡ number w n.nodes.items) }
{
    let zeros = constant(alloc, terms, 0, 23)?;
    let mut all = n;
    all.nodes.extend_from_slice(zeros.nodes.as_slice())?;
    Ok(all)
}

// Whether the path has room for its ends and so many other numbers.
#[tactic(auto, using(crate::proofs::AnnouncedSteps::not_above))]
fn sym_has_room(
    alloc: Global,
    terms: &mut Terms,
    len: &Bits,
    count: &Bits,
) -> Result<NodeId, AllocError>
    requires wide { length len.now.nodes.items ≡ 32 }
    requires narrow { length count.now.nodes.items ≡ 8 }
    requires nodes { ids_end len.now.nodes.items ≤ size terms.old }
    requires count { ids_end count.now.nodes.items ≤ size terms.old }
    ensures builds { Builds terms.old terms.new }
    ensures within { IfOk result (λ r. r.0 < size terms.new) }
    ensures value { Gives terms.new result (λ w r. at w r ≡ nat_le
        (number w count.now.nodes.items + (if number w len.now.nodes.items == 1 then 1 else 2))
        (number w len.now.nodes.items)) }
{
    let ends = sym_ends_count(alloc, terms, len)?;
    let sum = add(alloc, terms, count, &ends)?;
    let all = widened(alloc, terms, sum)?;
    let over = less(terms, len, &all)?;
    negate(terms, over)
}

// What the marks of a path must be.
fn sym_path_marks(
    alloc: Global,
    terms: &mut Terms,
    tracked: &[u32],
    s: &SymBgp,
) -> Result<NodeId, AllocError>
    requires few { length tracked.now ≤ constants.MOST_TRACKED }
    requires rows { length s.now.numbers.nodes.items ≡ length tracked.now }
    requires nodes { bgp_end s.now ≤ size terms.old }
    ensures builds { Builds terms.old terms.new }
    ensures within { IfOk result (λ r. r.0 < size terms.new) }
    ensures value { Gives terms.new result (λ w r. at w r ≡ has_path_marks tracked.now (bgp_at w s.now).path) }
{
    let marks = sym_marks(alloc, terms, tracked, s)?;
    let room = sym_has_room(alloc, terms, &s.len, &marks.count)?;
    let all = both(terms, marks.fit, room)?;
    Ok(all)
}

// What length and ends of a path must be.
fn sym_plain(terms: &mut Terms, asn: u32, s: &SymBgp) -> Result<NodeId, AllocError>
    requires { bgp_end s.now ≤ size terms.old }
    ensures builds { Builds terms.old terms.new }
    ensures within { IfOk result (λ r. r.0 < size terms.new) }
    ensures value { Gives terms.new result (λ w r. at w r ≡ (nat_le (bgp_at w s.now).preferences.origin 2
        && (has_path_length (bgp_at w s.now).path && has_path_ends asn (bgp_at w s.now).path))) }
{
    let origin = sym_at_most(terms, &s.origin, 2)?;
    let length = sym_length(terms, &s.len)?;
    let ends = sym_ends(terms, asn, s)?;
    let path = both(terms, length, ends)?;
    both(terms, origin, path)
}

/// Whether the external peer of that AS may announce the route, if it is there (RFC 4271, sections 4.3 and 5.1.2; RFC 6793).
pub fn sym_is_announced(
    alloc: Global,
    terms: &mut Terms,
    tracked: &Tracked,
    asn: u32,
    s: &SymBgp,
) -> Result<NodeId, AllocError>
    requires few { length tracked.now.numbers ≤ constants.MOST_TRACKED }
    requires rows { length s.now.numbers.nodes.items ≡ length tracked.now.numbers }
    requires nodes { bgp_end s.now ≤ size terms.old }
    ensures builds { Builds terms.old terms.new }
    ensures within { IfOk result (λ r. r.0 < size terms.new) }
    ensures value { Gives terms.new result (λ w r. at w r ≡ is_announced tracked.now asn (bgp_at w s.now)) }
{
    let plain = sym_plain(terms, asn, s)?;
    let marks = sym_path_marks(alloc, terms, tracked.numbers.as_slice(), s)?;
    let all = both(terms, plain, marks)?;
    Ok(all)
}
