//! Numbers that are known.

ghost use Rattle.std.specs.Prelude.{◌≡◌, ℕ, ◌+◌, ◌^◌, ◌<◌, ◌≤◌, Bool, false, IfOk, length, replicate};
ghost use Rattle.term_store.specs.Terms.{Reading, size};
ghost use Rattle.term_store.specs.Reading.{Reads, Builds, Gives};
ghost use Rattle.term_arith.specs.Bits.{bits, number, ids_end};

use crate::Bits;
use crate::gates::constant_node;
use crate::lists::put;
use mw_text::List;
use std::alloc::{AllocError, Global};
use term_store::Terms;

/// So many bits that are all 0, of one node.
#[tactic(auto, using(crate::proofs::NumberLemmas::zero_steps))]
pub fn zeros(alloc: Global, terms: &mut Terms, count: usize) -> Result<Bits, AllocError>
    ensures builds { Builds terms.old terms.new }
    ensures within { IfOk result (λ r. ids_end r.nodes.items ≤ size terms.new) }
    ensures width { IfOk result (λ r. length r.nodes.items ≡ count) }
    ensures value { Gives terms.new result (λ w r. bits w r.nodes.items ≡ replicate count false) }
    ensures number { Gives terms.new result (λ w r. number w r.nodes.items ≡ 0) }
{
    let zero = constant_node(terms, false)?;
    let nodes = vec![in alloc; zero; count]?;
    Ok(Bits { nodes })
}

/// The bits of a number of which all bits from `width` on are 0.
#[tactic(auto, using(crate::proofs::NumberLemmas::node_steps))]
pub fn constant(alloc: Global, terms: &mut Terms, value: u64, width: u8) -> Result<Bits, AllocError>
    requires at_most_64 { width ≤ 64 }
    requires fits { value < 2 ^ width }
    ensures builds { Builds terms.old terms.new }
    ensures within { IfOk result (λ r. ids_end r.nodes.items ≤ size terms.new) }
    ensures width { IfOk result (λ r. length r.nodes.items ≡ width) }
    ensures value { Gives terms.new result (λ w r. number w r.nodes.items ≡ value) }
{
    if value == 0 && width > 0 {
        return zeros(alloc, terms, width as usize);
    }
    let mut nodes = List::new(alloc);
    let mut rest = value;
    for i in 0..width {
        let node = constant_node(terms, rest % 2 == 1)?;
        put(&mut nodes, node)?;
        rest /= 2;
    }
    Ok(Bits { nodes: nodes.items })
}
