//! Gates over lists of nodes.

ghost use Rattle.std.specs.Prelude.{◌≡◌, ℕ, ◌+◌, ◌<◌, ◌≤◌, Bool, IfOk, OnOk, [], ◌∷◌, ◌++◌, length};
ghost use Rattle.std.specs.List.{list_all, list_any};
ghost use Rattle.term_store.specs.Terms.{Reading, size, at};
ghost use Rattle.term_store.specs.Reading.{Reads, Grows, Builds, Gives};
ghost use Rattle.term_arith.specs.Bits.{bits, ids_end, variables};

use crate::Bits;
use crate::gates::{both, constant_node, either};
use mw_text::List;
use std::alloc::{AllocError, Global};
use term_store::{Node, NodeId, Terms};

/// True where all nodes are.
#[tactic(auto, using(crate::proofs::NumberLemmas::ids_end_at))]
pub fn all_of(terms: &mut Terms, ids: &[NodeId]) -> Result<NodeId, AllocError>
    requires { ids_end ids.now ≤ size terms.old }
    ensures builds { Builds terms.old terms.new }
    ensures within { IfOk result (λ r. r.0 < size terms.new) }
    ensures value { Gives terms.new result (λ w r. at w r ≡ list_all (at w) ids.now) }
{
    let mut all = constant_node(terms, true)?;
    for id in ids {
        all = both(terms, all, *id)?;
    }
    Ok(all)
}

/// True where at least one node is.
#[tactic(auto, using(crate::proofs::NumberLemmas::ids_end_at))]
pub fn any_of(terms: &mut Terms, ids: &[NodeId]) -> Result<NodeId, AllocError>
    requires { ids_end ids.now ≤ size terms.old }
    ensures builds { Builds terms.old terms.new }
    ensures within { IfOk result (λ r. r.0 < size terms.new) }
    ensures value { Gives terms.new result (λ w r. at w r ≡ list_any (at w) ids.now) }
{
    let mut any = constant_node(terms, false)?;
    for id in ids {
        any = either(terms, any, *id)?;
    }
    Ok(any)
}

/// A copy of a number's nodes.
pub fn copy(alloc: Global, bits: &Bits) -> Result<Bits, AllocError>
    ensures { IfOk result (λ r. r.nodes.items ≡ bits.now.nodes.items) }
{
    let nodes = Vec::from_slice(alloc, bits.nodes.as_slice())?;
    Ok(Bits { nodes })
}

/// A number of new variables, lowest bit first.
#[tactic(auto, using(crate::proofs::NumberLemmas::fresh_steps))]
pub fn fresh_bits(alloc: Global, terms: &mut Terms, width: u8) -> Result<Bits, AllocError>
    ensures grows { Grows terms.old terms.new }
    ensures within { IfOk result (λ r. ids_end r.nodes.items ≤ size terms.new) }
    ensures width { IfOk result (λ r. length r.nodes.items ≡ width) }
    ensures vars { OnOk result (terms.new.vars ≡ terms.old.vars + width) }
    ensures value { Gives terms.new result (λ w r. bits w r.nodes.items ≡ variables w terms.old.vars width) }
{
    let mut nodes = List::new(alloc);
    for i in 0..width {
        let node = terms.fresh()?;
        put(&mut nodes, node)?;
    }
    Ok(Bits { nodes: nodes.items })
}

/// The number of these variables of the store, lowest bit first.
#[tactic(auto, using(crate::proofs::NumberLemmas::fresh_steps))]
pub fn bits_at(alloc: Global, terms: &mut Terms, first: u64, width: u8) -> Result<Bits, AllocError>
    requires there { first + width ≤ terms.old.vars }
    ensures builds { Builds terms.old terms.new }
    ensures within { IfOk result (λ r. ids_end r.nodes.items ≤ size terms.new) }
    ensures width { IfOk result (λ r. length r.nodes.items ≡ width) }
    ensures value { Gives terms.new result (λ w r. bits w r.nodes.items ≡ variables w first width) }
{
    let _few = terms.vars();
    let mut nodes = List::new(alloc);
    for i in 0..width {
        let node = terms.add(Node::Var(first + u64::from(i)))?;
        put(&mut nodes, node)?;
    }
    Ok(Bits { nodes: nodes.items })
}

/// Puts a node at the end of a list.
pub fn put(nodes: &mut List<NodeId>, node: NodeId) -> Result<(), AllocError>
    ensures { OnOk result (nodes.new ≡ nodes.old ++ node ∷ []) }
{
    nodes.items.push(node)?;
    Ok(())
}
