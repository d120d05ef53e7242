//! Addition over lists of nodes.

ghost use Rattle.std.specs.Prelude.{◌≡◌, ℕ, ◌+◌, ◌*◌, ◌^◌, ◌<◌, ◌≤◌, ◌∷◌, ◌++◌, [], Bool, true, not, nat_lt, IfOk, length};
ghost use Rattle.term_store.specs.Terms.{Reading, size, at};
ghost use Rattle.term_store.specs.Reading.{Reads, Builds, Gives};
ghost use Rattle.term_arith.specs.Bits.{bit, number, ids_end};

use crate::Bits;
use crate::gates::{constant_node, differs, negate, select};
use crate::lists::put;
use mw_text::List;
use std::alloc::{AllocError, Global};
use term_store::{NodeId, Terms};

/// The sum of three bits: its low bit, and the carry.
#[derive(Clone, Copy)]
struct BitSum {
    low: NodeId,
    carry: NodeId,
}

/// Adds three bits. Where the first two differ, the third one is the carry, else the first is.
#[tactic(auto, using(crate::proofs::NumberLemmas::full_adder))]
fn add_bits(terms: &mut Terms, a: NodeId, b: NodeId, carry: NodeId) -> Result<BitSum, AllocError>
    requires first { a.0 < size terms.old }
    requires second { b.0 < size terms.old }
    requires third { carry.0 < size terms.old }
    ensures builds { Builds terms.old terms.new }
    ensures low { IfOk result (λ r. r.low.0 < size terms.new) }
    ensures carry { IfOk result (λ r. r.carry.0 < size terms.new) }
    ensures value { Gives terms.new result (λ w r. bit (at w r.low) + 2 * bit (at w r.carry) ≡ bit (at w a) + bit (at w b) + bit (at w carry)) }
{
    let half = differs(terms, a, b)?;
    let low = differs(terms, half, carry)?;
    let carry = select(terms, half, carry, a)?;
    Ok(BitSum { low, carry })
}

/// The sum of two numbers by its nodes: the low ones, as many as each number has, and the highest.
#[derive(Drop)]
struct Sum {
    low: List<NodeId>,
    carry: NodeId,
}

/// The sum of two numbers of equal widths, one bit wider.
#[tactic(auto, using(crate::proofs::NumberLemmas::ids_end_push))]
pub fn add(alloc: Global, terms: &mut Terms, a: &Bits, b: &Bits) -> Result<Bits, AllocError>
    requires same_width { length a.now.nodes.items ≡ length b.now.nodes.items }
    requires first { ids_end a.now.nodes.items ≤ size terms.old }
    requires second { ids_end b.now.nodes.items ≤ size terms.old }
    ensures builds { Builds terms.old terms.new }
    ensures within { IfOk result (λ r. ids_end r.nodes.items ≤ size terms.new) }
    ensures width { IfOk result (λ r. length r.nodes.items ≡ length a.now.nodes.items + 1) }
    ensures value { Gives terms.new result (λ w r. number w r.nodes.items ≡ number w a.now.nodes.items + number w b.now.nodes.items) }
{
    let sum = add_nodes(alloc, terms, a.nodes.as_slice(), b.nodes.as_slice())?;
    let mut nodes = sum.low;
    put(&mut nodes, sum.carry)?;
    Ok(Bits { nodes: nodes.items })
}

/// A sum in the width of its operands, and whether it fits there.
#[derive(Debug, Drop)]
pub struct Summed {
    pub sum: Bits,
    pub fits: NodeId,
}

/// The sum of two numbers of equal widths in that width, where it fits.
pub fn add_within(
    alloc: Global,
    terms: &mut Terms,
    a: &Bits,
    b: &Bits,
) -> Result<Summed, AllocError>
    requires same_width { length a.now.nodes.items ≡ length b.now.nodes.items }
    requires first { ids_end a.now.nodes.items ≤ size terms.old }
    requires second { ids_end b.now.nodes.items ≤ size terms.old }
    ensures builds { Builds terms.old terms.new }
    ensures within { IfOk result (λ r. ids_end r.sum.nodes.items ≤ size terms.new) }
    ensures fits_within { IfOk result (λ r. r.fits.0 < size terms.new) }
    ensures width { IfOk result (λ r. length r.sum.nodes.items ≡ length a.now.nodes.items) }
    ensures fits { Gives terms.new result (λ w r. at w r.fits ≡ nat_lt (number w a.now.nodes.items + number w b.now.nodes.items) (2 ^ length a.now.nodes.items)) }
    ensures value { Gives terms.new result (λ w r. at w r.fits ≡ true → number w r.sum.nodes.items ≡ number w a.now.nodes.items + number w b.now.nodes.items) }
{
    let sum = add_nodes(alloc, terms, a.nodes.as_slice(), b.nodes.as_slice())?;
    let fits = negate(terms, sum.carry)?;
    Ok(Summed {
        sum: Bits {
            nodes: sum.low.items,
        },
        fits,
    })
}

/// The sum of two numbers by their nodes. Where the highest is false, the low ones are the whole sum.
#[tactic(auto, using(crate::proofs::NumberLemmas::node_steps))]
fn add_nodes(
    alloc: Global,
    terms: &mut Terms,
    a: &[NodeId],
    b: &[NodeId],
) -> Result<Sum, AllocError>
    requires same_width { length a.now ≡ length b.now }
    requires first { ids_end a.now ≤ size terms.old }
    requires second { ids_end b.now ≤ size terms.old }
    ensures builds { Builds terms.old terms.new }
    ensures within { IfOk result (λ r. ids_end r.low ≤ size terms.new) }
    ensures carry_within { IfOk result (λ r. r.carry.0 < size terms.new) }
    ensures width { IfOk result (λ r. length r.low ≡ length a.now) }
    ensures whole { Gives terms.new result (λ w r. number w (r.low ++ r.carry ∷ []) ≡ number w a.now + number w b.now) }
    ensures fits { Gives terms.new result (λ w r. not (at w r.carry) ≡ nat_lt (number w a.now + number w b.now) (2 ^ length a.now)) }
    ensures low { Gives terms.new result (λ w r. not (at w r.carry) ≡ true → number w r.low ≡ number w a.now + number w b.now) }
{
    let mut out = List::new(alloc);
    let mut carry = constant_node(terms, false)?;
    for i in 0..a.len() {
        let sum = add_bits(terms, a[i], b[i], carry)?;
        put(&mut out, sum.low)?;
        carry = sum.carry;
    }
    Ok(Sum { low: out, carry })
}
