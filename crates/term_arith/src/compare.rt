//! Comparisons of numbers, and a choice between two.

ghost use Rattle.std.specs.Prelude.{◌≡◌, ◌==◌, ℕ, ◌+◌, ◌<◌, ◌≤◌, Bool, not, nat_lt, if◌then◌else◌, IfOk, length};
ghost use Rattle.term_store.specs.Terms.{Reading, size, at, differ};
ghost use Rattle.term_store.specs.Reading.{Reads, Builds, Gives};
ghost use Rattle.term_arith.specs.Bits.{bits, number, ids_end};

use crate::Bits;
use crate::gates::{both, constant_node, differs, either, negate, select};
use crate::lists::put;
use mw_text::List;
use std::alloc::{AllocError, Global};
use term_store::{NodeId, Terms};

/// Whether the first number is the smaller one. The widths are equal.
pub fn less(terms: &mut Terms, a: &Bits, b: &Bits) -> Result<NodeId, AllocError>
    requires same_width { length a.now.nodes.items ≡ length b.now.nodes.items }
    requires first { ids_end a.now.nodes.items ≤ size terms.old }
    requires second { ids_end b.now.nodes.items ≤ size terms.old }
    ensures builds { Builds terms.old terms.new }
    ensures within { IfOk result (λ r. r.0 < size terms.new) }
    ensures value { Gives terms.new result (λ w r. at w r ≡ nat_lt (number w a.now.nodes.items) (number w b.now.nodes.items)) }
{
    less_nodes(terms, a.nodes.as_slice(), b.nodes.as_slice())
}

/// The comparison from the lowest bit on: the highest bit in which the numbers differ decides.
#[tactic(auto, using(crate::proofs::NumberLemmas::node_steps))]
fn less_nodes(terms: &mut Terms, a: &[NodeId], b: &[NodeId]) -> Result<NodeId, AllocError>
    requires same_width { length a.now ≡ length b.now }
    requires first { ids_end a.now ≤ size terms.old }
    requires second { ids_end b.now ≤ size terms.old }
    ensures builds { Builds terms.old terms.new }
    ensures within { IfOk result (λ r. r.0 < size terms.new) }
    ensures value { Gives terms.new result (λ w r. at w r ≡ nat_lt (number w a.now) (number w b.now)) }
{
    let mut below = constant_node(terms, false)?;
    for i in 0..a.len() {
        let apart = differs(terms, a[i], b[i])?;
        below = select(terms, apart, b[i], below)?;
    }
    Ok(below)
}

/// Whether two numbers of equal widths are equal.
pub fn equal(terms: &mut Terms, a: &Bits, b: &Bits) -> Result<NodeId, AllocError>
    requires same_width { length a.now.nodes.items ≡ length b.now.nodes.items }
    requires first { ids_end a.now.nodes.items ≤ size terms.old }
    requires second { ids_end b.now.nodes.items ≤ size terms.old }
    ensures builds { Builds terms.old terms.new }
    ensures within { IfOk result (λ r. r.0 < size terms.new) }
    ensures value { Gives terms.new result (λ w r. at w r ≡ (number w a.now.nodes.items == number w b.now.nodes.items)) }
{
    equal_nodes(terms, a.nodes.as_slice(), b.nodes.as_slice())
}

/// Whether the numbers differ in no bit.
#[tactic(auto, using(crate::proofs::NumberLemmas::node_steps))]
fn equal_nodes(terms: &mut Terms, a: &[NodeId], b: &[NodeId]) -> Result<NodeId, AllocError>
    requires same_width { length a.now ≡ length b.now }
    requires first { ids_end a.now ≤ size terms.old }
    requires second { ids_end b.now ≤ size terms.old }
    ensures builds { Builds terms.old terms.new }
    ensures within { IfOk result (λ r. r.0 < size terms.new) }
    ensures value { Gives terms.new result (λ w r. at w r ≡ (number w a.now == number w b.now)) }
{
    let mut apart = constant_node(terms, false)?;
    for i in 0..a.len() {
        let here = differs(terms, a[i], b[i])?;
        apart = either(terms, apart, here)?;
    }
    negate(terms, apart)
}

/// Whether a node has a known value.
fn is_bit(terms: &mut Terms, node: NodeId, value: bool) -> Result<NodeId, AllocError>
    requires { node.0 < size terms.old }
    ensures builds { Builds terms.old terms.new }
    ensures within { IfOk result (λ r. r.0 < size terms.new) }
    ensures value { Gives terms.new result (λ w r. at w r ≡ not (differ (at w node) value)) }
{
    if value { Ok(node) } else { negate(terms, node) }
}

/// Whether the number of some nodes, lowest first, is a known one. They may be part of a number.
#[tactic(auto, using(crate::proofs::NumberLemmas::node_steps))]
pub fn equal_number(terms: &mut Terms, nodes: &[NodeId], value: u64) -> Result<NodeId, AllocError>
    requires { ids_end nodes.now ≤ size terms.old }
    ensures builds { Builds terms.old terms.new }
    ensures within { IfOk result (λ r. r.0 < size terms.new) }
    ensures value { Gives terms.new result (λ w r. at w r ≡ (number w nodes.now == value)) }
{
    let mut all = constant_node(terms, true)?;
    let mut rest = value;
    for node in nodes {
        let same = is_bit(terms, *node, rest % 2 == 1)?;
        all = both(terms, all, same)?;
        rest /= 2;
    }
    if rest == 0 {
        Ok(all)
    } else {
        constant_node(terms, false)
    }
}

/// Whether the number of some nodes, lowest first, is larger than a known one. A bit that is 1 in the known number and a
/// bit that is 0 there take one gate each.
#[tactic(auto, using(crate::proofs::NumberLemmas::node_steps))]
pub fn above_number(terms: &mut Terms, nodes: &[NodeId], value: u64) -> Result<NodeId, AllocError>
    requires { ids_end nodes.now ≤ size terms.old }
    ensures builds { Builds terms.old terms.new }
    ensures within { IfOk result (λ r. r.0 < size terms.new) }
    ensures value { Gives terms.new result (λ w r. at w r ≡ nat_lt value (number w nodes.now)) }
{
    let mut above = constant_node(terms, false)?;
    let mut rest = value;
    for node in nodes {
        above = if rest % 2 == 1 {
            both(terms, *node, above)?
        } else {
            either(terms, *node, above)?
        };
        rest /= 2;
    }
    if rest == 0 {
        Ok(above)
    } else {
        constant_node(terms, false)
    }
}

/// The first number where `c` is true, else the second. The widths are equal.
pub fn choose(
    alloc: Global,
    terms: &mut Terms,
    c: NodeId,
    a: &Bits,
    b: &Bits,
) -> Result<Bits, AllocError>
    requires same_width { length a.now.nodes.items ≡ length b.now.nodes.items }
    requires test { c.0 < size terms.old }
    requires first { ids_end a.now.nodes.items ≤ size terms.old }
    requires second { ids_end b.now.nodes.items ≤ size terms.old }
    ensures builds { Builds terms.old terms.new }
    ensures within { IfOk result (λ r. ids_end r.nodes.items ≤ size terms.new) }
    ensures width { IfOk result (λ r. length r.nodes.items ≡ length a.now.nodes.items) }
    ensures value { Gives terms.new result (λ w r. bits w r.nodes.items ≡ (if at w c then bits w a.now.nodes.items else bits w b.now.nodes.items)) }
    ensures number { Gives terms.new result (λ w r. number w r.nodes.items ≡ (if at w c then number w a.now.nodes.items else number w b.now.nodes.items)) }
{
    let nodes = choose_nodes(alloc, terms, c, a.nodes.as_slice(), b.nodes.as_slice())?;
    Ok(Bits { nodes: nodes.items })
}

/// The choice bit by bit.
#[tactic(auto, using(crate::proofs::NumberLemmas::node_steps))]
fn choose_nodes(
    alloc: Global,
    terms: &mut Terms,
    c: NodeId,
    a: &[NodeId],
    b: &[NodeId],
) -> Result<List<NodeId>, AllocError>
    requires same_width { length a.now ≡ length b.now }
    requires test { c.0 < size terms.old }
    requires first { ids_end a.now ≤ size terms.old }
    requires second { ids_end b.now ≤ size terms.old }
    ensures builds { Builds terms.old terms.new }
    ensures within { IfOk result (λ r. ids_end r ≤ size terms.new) }
    ensures width { IfOk result (λ r. length r ≡ length a.now) }
    ensures value { Gives terms.new result (λ w r. bits w r ≡ (if at w c then bits w a.now else bits w b.now)) }
{
    let mut out = List::new(alloc);
    for i in 0..a.len() {
        let node = select(terms, c, a[i], b[i])?;
        put(&mut out, node)?;
    }
    Ok(out)
}
