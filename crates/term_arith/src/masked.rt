//! Comparisons in which some bits do not count.

ghost use Rattle.std.specs.Prelude.{◌≡◌, ◌==◌, ℕ, ◌+◌, ◌<◌, ◌≤◌, Bool, not, ◌||◌, IfOk, bit_or};
ghost use Rattle.term_store.specs.Terms.{Reading, size, at, differ};
ghost use Rattle.term_store.specs.Reading.{Reads, Builds, Gives};
ghost use Rattle.term_arith.specs.Bits.{number, ids_end};

use crate::gates::{both, constant_node, negate};
use std::alloc::AllocError;
use term_store::{NodeId, Terms};

/// Whether a node has a known value, or does not count.
fn is_counted_bit(
    terms: &mut Terms,
    node: NodeId,
    value: bool,
    ignored: bool,
) -> Result<NodeId, AllocError>
    requires { node.0 < size terms.old }
    ensures builds { Builds terms.old terms.new }
    ensures within { IfOk result (λ r. r.0 < size terms.new) }
    ensures value { Gives terms.new result (λ w r. at w r ≡ (ignored || not (differ (at w node) value))) }
{
    if ignored {
        constant_node(terms, true)
    } else if value {
        Ok(node)
    } else {
        negate(terms, node)
    }
}

/// Whether the number of some nodes, lowest first, agrees with a known one in each bit that `ignored` has 0.
#[tactic(auto, using(crate::proofs::MaskLemmas::masked_steps))]
pub fn equal_masked(
    terms: &mut Terms,
    nodes: &[NodeId],
    value: u64,
    ignored: u64,
) -> Result<NodeId, AllocError>
    requires { ids_end nodes.now ≤ size terms.old }
    ensures builds { Builds terms.old terms.new }
    ensures within { IfOk result (λ r. r.0 < size terms.new) }
    ensures value { Gives terms.new result (λ w r. at w r ≡ (bit_or (number w nodes.now) ignored == bit_or value ignored)) }
{
    let mut all = constant_node(terms, true)?;
    let mut rest = value;
    let mut mask = ignored;
    for node in nodes {
        let same = is_counted_bit(terms, *node, rest % 2 == 1, mask % 2 == 1)?;
        all = both(terms, all, same)?;
        rest /= 2;
        mask /= 2;
    }
    if rest | mask == mask {
        Ok(all)
    } else {
        constant_node(terms, false)
    }
}
