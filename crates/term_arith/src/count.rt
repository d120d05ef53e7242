//! How many of many nodes are true.

ghost use Rattle.std.specs.Prelude.{◌≡◌, ℕ, ◌+◌, ◌<◌, ◌≤◌, Bool, nat_le, count_by, replicate, IfOk, length};
ghost use Rattle.term_store.specs.Terms.{Reading, size, at};
ghost use Rattle.term_store.specs.Reading.{Reads, Builds, Gives};
ghost use Rattle.term_arith.specs.Bits.{bits, ids_end, raised};

use crate::gates::{both, constant_node, either, negate};
use crate::lists::put;
use mw_text::List;
use std::alloc::{AllocError, Global};
use term_store::{NodeId, Terms};

/// One more bit is counted by a row that says "more than 0", "more than 1" and so on. `before` is the bit before the row.
#[tactic(auto, using(crate::proofs::NumberLemmas::node_steps))]
fn raise(
    alloc: Global,
    terms: &mut Terms,
    row: &[NodeId],
    before: NodeId,
    node: NodeId,
) -> Result<List<NodeId>, AllocError>
    requires row { ids_end row.now ≤ size terms.old }
    requires before { before.0 < size terms.old }
    requires node { node.0 < size terms.old }
    ensures builds { Builds terms.old terms.new }
    ensures within { IfOk result (λ r. ids_end r ≤ size terms.new) }
    ensures width { IfOk result (λ r. length r ≡ length row.now) }
    ensures value { Gives terms.new result (λ w r. bits w r ≡ raised (at w before) (at w node) (bits w row.now)) }
{
    let mut out = List::new(alloc);
    let mut last = before;
    for i in 0..row.len() {
        let passed = both(terms, last, node)?;
        let raised = either(terms, row[i], passed)?;
        put(&mut out, raised)?;
        last = row[i];
    }
    Ok(out)
}

/// A row of one node.
#[tactic(auto, using(crate::proofs::NumberLemmas::node_steps))]
fn copies(alloc: Global, node: NodeId, count: u64) -> Result<List<NodeId>, AllocError>
    ensures items { IfOk result (λ r. r ≡ replicate count node) }
    ensures within { IfOk result (λ r. ids_end r ≤ node.0 + 1) }
{
    let mut row = List::new(alloc);
    for i in 0..count {
        put(&mut row, node)?;
    }
    Ok(row)
}

/// Whether at most `k` of the nodes are true, by a row of k + 1 counting bits.
#[tactic(auto, using(crate::proofs::NumberLemmas::node_steps))]
pub fn at_most(
    alloc: Global,
    terms: &mut Terms,
    bits: &[NodeId],
    k: u32,
) -> Result<NodeId, AllocError>
    requires { ids_end bits.now ≤ size terms.old }
    ensures builds { Builds terms.old terms.new }
    ensures within { IfOk result (λ r. r.0 < size terms.new) }
    ensures value { Gives terms.new result (λ w r. at w r ≡ nat_le (count_by (at w) bits.now) k) }
{
    if bits.len() <= k as usize {
        return constant_node(terms, true);
    }
    let yes = constant_node(terms, true)?;
    let no = constant_node(terms, false)?;
    let mut row = copies(alloc, no, k as u64 + 1)?;
    for node in bits {
        row = raise(alloc, terms, row.as_slice(), yes, *node)?;
    }
    let more = row.as_slice()[k as usize];
    let few = negate(terms, more)?;
    Ok(few)
}
