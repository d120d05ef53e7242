//! Whether two symbolic routes have one shape.

ghost use Rattle.std.specs.Prelude.{◌≡◌, ◌==◌, ℕ, ◌+◌, ◌<◌, ◌≤◌, Bool, ◌&&◌, IfOk, length, max};
ghost use Rattle.term_store.specs.Terms.{Reading, size, at};
ghost use Rattle.term_store.specs.Reading.{Reads, Builds, Gives};
ghost use Rattle.term_arith.specs.Bits.{bits, number, ids_end};
ghost use Rattle.sym_policy.specs.Held.{bgp_at, bgp_end};
ghost use Rattle.bgp_shapes.specs.Held.{same_marks, same_path, same_peers, same_preferences, same_shape};
ghost use Rattle.sym_bgp.specs.Candidates.{SameMarks};

use std::alloc::AllocError;
use sym_policy::SymBgp;
use term_arith::gates::both;
use term_arith::{Bits, equal};
use term_store::{NodeId, Terms};

/// Whether two pairs of numbers are equal.
fn equal_pairs(
    terms: &mut Terms,
    a: &Bits,
    b: &Bits,
    c: &Bits,
    d: &Bits,
) -> Result<NodeId, AllocError>
    requires first_width { length a.now.nodes.items ≡ length b.now.nodes.items }
    requires second_width { length c.now.nodes.items ≡ length d.now.nodes.items }
    requires a { ids_end a.now.nodes.items ≤ size terms.old }
    requires b { ids_end b.now.nodes.items ≤ size terms.old }
    requires c { ids_end c.now.nodes.items ≤ size terms.old }
    requires d { ids_end d.now.nodes.items ≤ size terms.old }
    ensures builds { Builds terms.old terms.new }
    ensures within { IfOk result (λ r. r.0 < size terms.new) }
    ensures value { Gives terms.new result (λ w r. at w r
        ≡ ((number w a.now.nodes.items == number w b.now.nodes.items)
        && (number w c.now.nodes.items == number w d.now.nodes.items))) }
{
    let first = equal(terms, a, b)?;
    let second = equal(terms, c, d)?;
    both(terms, first, second)
}

fn sym_same_preferences(terms: &mut Terms, a: &SymBgp, b: &SymBgp) -> Result<NodeId, AllocError>
    requires first { bgp_end a.now ≤ size terms.old }
    requires second { bgp_end b.now ≤ size terms.old }
    ensures builds { Builds terms.old terms.new }
    ensures within { IfOk result (λ r. r.0 < size terms.new) }
    ensures value { Gives terms.new result (λ w r. at w r ≡ same_preferences (bgp_at w a.now) (bgp_at w b.now)) }
{
    let numbers = equal_pairs(terms, &a.weight, &b.weight, &a.local_pref, &b.local_pref)?;
    let codes = equal_pairs(terms, &a.med, &b.med, &a.origin, &b.origin)?;
    both(terms, numbers, codes)
}

#[tactic(auto, using(crate::proofs::Marks::marked_bits))]
fn sym_same_path(terms: &mut Terms, a: &SymBgp, b: &SymBgp) -> Result<NodeId, AllocError>
    requires marks { SameMarks a.now b.now }
    requires first { bgp_end a.now ≤ size terms.old }
    requires second { bgp_end b.now ≤ size terms.old }
    ensures builds { Builds terms.old terms.new }
    ensures within { IfOk result (λ r. r.0 < size terms.new) }
    ensures value { Gives terms.new result (λ w r. at w r ≡ same_path (bgp_at w a.now) (bgp_at w b.now)) }
{
    let begins = equal_pairs(terms, &a.len, &b.len, &a.first, &b.first)?;
    let rest = equal_pairs(terms, &a.last, &b.last, &a.numbers, &b.numbers)?;
    both(terms, begins, rest)
}

fn sym_same_peers(terms: &mut Terms, a: &SymBgp, b: &SymBgp) -> Result<NodeId, AllocError>
    requires first { bgp_end a.now ≤ size terms.old }
    requires second { bgp_end b.now ≤ size terms.old }
    ensures builds { Builds terms.old terms.new }
    ensures within { IfOk result (λ r. r.0 < size terms.new) }
    ensures value { Gives terms.new result (λ w r. at w r ≡ same_peers (bgp_at w a.now) (bgp_at w b.now)) }
{
    let addresses = equal_pairs(
        terms,
        &a.next_hop,
        &b.next_hop,
        &a.originator,
        &b.originator,
    )?;
    let peers = equal_pairs(terms, &a.from, &b.from, &a.cluster_len, &b.cluster_len)?;
    both(terms, addresses, peers)
}

#[tactic(auto, using(crate::proofs::Marks::marked_bits))]
fn sym_same_marks(terms: &mut Terms, a: &SymBgp, b: &SymBgp) -> Result<NodeId, AllocError>
    requires marks { SameMarks a.now b.now }
    requires first { bgp_end a.now ≤ size terms.old }
    requires second { bgp_end b.now ≤ size terms.old }
    ensures builds { Builds terms.old terms.new }
    ensures within { IfOk result (λ r. r.0 < size terms.new) }
    ensures value { Gives terms.new result (λ w r. at w r ≡ same_marks (bgp_at w a.now) (bgp_at w b.now)) }
{
    equal_pairs(
        terms,
        &a.communities,
        &b.communities,
        &a.clusters,
        &b.clusters,
    )
}

/// Whether two routes have the same preferences and the same path.
fn sym_same_seen(terms: &mut Terms, a: &SymBgp, b: &SymBgp) -> Result<NodeId, AllocError>
    requires marks { SameMarks a.now b.now }
    requires first { bgp_end a.now ≤ size terms.old }
    requires second { bgp_end b.now ≤ size terms.old }
    ensures builds { Builds terms.old terms.new }
    ensures within { IfOk result (λ r. r.0 < size terms.new) }
    ensures value { Gives terms.new result (λ w r. at w r
        ≡ (same_preferences (bgp_at w a.now) (bgp_at w b.now) && same_path (bgp_at w a.now) (bgp_at w b.now))) }
{
    let preferences = sym_same_preferences(terms, a, b)?;
    let path = sym_same_path(terms, a, b)?;
    both(terms, preferences, path)
}

/// Whether two routes have one shape.
#[tactic(auto, unfolding(bgp_shapes::specs::Held::same_shape))]
pub(crate) fn sym_same(terms: &mut Terms, a: &SymBgp, b: &SymBgp) -> Result<NodeId, AllocError>
    requires marks { SameMarks a.now b.now }
    requires first { bgp_end a.now ≤ size terms.old }
    requires second { bgp_end b.now ≤ size terms.old }
    ensures builds { Builds terms.old terms.new }
    ensures within { IfOk result (λ r. r.0 < size terms.new) }
    ensures value { Gives terms.new result (λ w r. at w r ≡ same_shape (bgp_at w a.now) (bgp_at w b.now)) }
{
    let seen = sym_same_seen(terms, a, b)?;
    let peers = sym_same_peers(terms, a, b)?;
    let marks = sym_same_marks(terms, a, b)?;
    let rest = both(terms, peers, marks)?;
    both(terms, seen, rest)
}
