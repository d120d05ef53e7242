//! The terms of one store in another: two formulas side by side in one store, each over variables of its own.
#![tactic(auto)]

ghost use Rattle.std.specs.Prelude.{◌≡◌, ◌+◌, ◌<◌, ◌≤◌, IfOk, OnOk, length};
ghost use Rattle.term_store.specs.Terms.{Reading, size, at, gate, reading_by, values_of, IsBelow};
ghost use Rattle.term_store.specs.Reading.{Reads, Grows, Gives};
ghost use Rattle.term_arith.specs.Bits.{bits, ids_end, variables as row};

use mw_text::List;
use std::alloc::{AllocError, Global};
use term_arith::lists::put;
use term_store::{Node, NodeId, Terms};

/// So many new variables.
#[tactic(auto, using(term_arith::proofs::NumberLemmas::fresh_steps))]
fn fresh_row(alloc: Global, terms: &mut Terms, count: u64) -> Result<List<NodeId>, AllocError>
    ensures grows { Grows terms.old terms.new }
    ensures within { IfOk result (λ r. ids_end r ≤ size terms.new) }
    ensures length { IfOk result (λ r. length r ≡ count) }
    ensures vars { OnOk result (terms.new.vars ≡ terms.old.vars + count) }
    ensures value { Gives terms.new result (λ w r. bits w r ≡ row w terms.old.vars count) }
{
    let mut nodes = List::new(alloc);
    for number in 0..count {
        let node = terms.fresh()?;
        put(&mut nodes, node)?;
    }
    Ok(nodes)
}

/// The node over copies of its operands, or the copy of its variable.
#[tactic(auto, using(crate::proofs::Copies::copy_steps))]
fn put_copy(
    terms: &mut Terms,
    node: Node,
    variables: &[NodeId],
    copies: &[NodeId],
) -> Result<NodeId, AllocError>
    requires below { IsBelow (length copies.now) (length variables.now) node }
    requires variables { ids_end variables.now ≤ size terms.old }
    requires copies { ids_end copies.now ≤ size terms.old }
    ensures grows { Grows terms.old terms.new }
    ensures vars { terms.new.vars ≡ terms.old.vars }
    ensures within { IfOk result (λ id. id.0 < size terms.new) }
    ensures value { Gives terms.new result (λ w id. at w id ≡ gate (reading_by (bits w variables.now) (bits w copies.now)) node) }
{
    match node {
        Node::Var(number) => Ok(variables[number as usize]),
        Node::Const(value) => terms.add(Node::Const(value)),
        Node::Not(a) => terms.add(Node::Not(copies[a.0 as usize])),
        Node::And(a, b) => terms.add(Node::And(copies[a.0 as usize], copies[b.0 as usize])),
        Node::Or(a, b) => terms.add(Node::Or(copies[a.0 as usize], copies[b.0 as usize])),
        Node::Xor(a, b) => terms.add(Node::Xor(copies[a.0 as usize], copies[b.0 as usize])),
        Node::Ite(c, a, b) => terms.add(Node::Ite(
            copies[c.0 as usize],
            copies[a.0 as usize],
            copies[b.0 as usize],
        )),
    }
}

/// The copies of all nodes, in their order.
#[tactic(auto, using(crate::proofs::Copies::row_steps))]
fn copy_nodes(
    alloc: Global,
    into: &mut Terms,
    from: &Terms,
    variables: &[NodeId],
) -> Result<List<NodeId>, AllocError>
    requires counted { length variables.now ≡ from.now.vars }
    requires variables { ids_end variables.now ≤ size into.old }
    ensures grows { Grows into.old into.new }
    ensures vars { into.new.vars ≡ into.old.vars }
    ensures within { IfOk result (λ r. ids_end r ≤ size into.new) }
    ensures length { IfOk result (λ r. length r ≡ size from.now) }
    ensures value { Gives into.new result (λ w r. bits w r ≡ values_of from.now.nodes (bits w variables.now)) }
{
    let mut copies = List::new(alloc);
    for number in 0..from.len() {
        let node = from.get(NodeId(number));
        let copy = put_copy(into, node, variables, copies.as_slice())?;
        put(&mut copies, copy)?;
    }
    Ok(copies)
}

/// Copies all nodes of a store into another and answers their new numbers, in their order. The variables of the copies
/// are new, in their order: under each reading of the larger store the copies have the values that their originals have
/// under the values of the new variables.
pub fn graft(alloc: Global, into: &mut Terms, from: &Terms) -> Result<List<NodeId>, AllocError>
    ensures grows { Grows into.old into.new }
    ensures vars { OnOk result (into.new.vars ≡ into.old.vars + from.now.vars) }
    ensures within { IfOk result (λ r. ids_end r ≤ size into.new) }
    ensures length { IfOk result (λ r. length r ≡ size from.now) }
    ensures values { Gives into.new result (λ w r. bits w r ≡ values_of from.now.nodes (row w into.old.vars from.now.vars)) }
{
    let variables = fresh_row(alloc, into, from.vars())?;
    copy_nodes(alloc, into, from, variables.as_slice())
}
