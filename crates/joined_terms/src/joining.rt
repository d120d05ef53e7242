//! Puts the nodes of one store into another.

ghost use Rattle.std.specs.Prelude.{◌≡◌, ℕ, ◌<◌, ◌≤◌, IfOk, Some, length, slice_get};
ghost use Rattle.term_arith.specs.Bits.{ids_end};
ghost use Rattle.term_store.specs.declared.Node.{Node as NodeOf};
ghost use Rattle.term_store.specs.Reading.{Builds, Gives, Reads};
ghost use Rattle.term_store.specs.Terms.{at, gate, size};
ghost use Rattle.joined_terms.specs.Joining as joining;

use std::alloc::{AllocError, Global};
use term_store::{Node, NodeId, Terms};

// The node at which an operand stands in the other store.
fn place_of(places: &[NodeId], id: NodeId) -> NodeId
    ensures { result ≡ joining.place_of places.now id }
{
    match places.get(id.0 as usize) {
        Some(place) => *place,
        None => NodeId(0),
    }
}

// The node over operands of the other store.
fn moved(places: &[NodeId], node: Node) -> Node
    ensures { result ≡ joining.moved places.now node }
{
    match node {
        Node::Const(value) => Node::Const(value),
        Node::Var(number) => Node::Var(number),
        Node::Not(a) => Node::Not(place_of(places, a)),
        Node::And(a, b) => Node::And(place_of(places, a), place_of(places, b)),
        Node::Or(a, b) => Node::Or(place_of(places, a), place_of(places, b)),
        Node::Xor(a, b) => Node::Xor(place_of(places, a), place_of(places, b)),
        Node::Ite(c, a, b) => Node::Ite(
            place_of(places, c),
            place_of(places, a),
            place_of(places, b),
        ),
    }
}

// One node more, whose operands stand at these places.
fn join_one(
    into: &mut Terms,
    from: &Terms,
    places: &[NodeId],
    id: NodeId,
) -> Result<NodeId, AllocError>
    requires there { id.0 < size from.now }
    requires count { length places.now ≡ id.0 }
    requires within { ids_end places.now ≤ size into.old }
    requires vars { from.now.vars ≤ into.old.vars }
    ensures builds { Builds into.old into.new }
    ensures within { IfOk result (λ r. r.0 < size into.new) }
    ensures value { Gives into.new result (λ w r. (node : NodeOf) → slice_get from.now.nodes id.0 ≡ Some node →
        at w r ≡ gate (joining.behind places.now w) node) }
{
    let node = from.get(id);
    into.add(moved(places, node))
}

/// Puts all nodes of a store into another, over the same variables, and answers where they stand there, by their numbers.
/// Whatever reads the other store gives, by these places, a reading of the first one with the same variables.
///
/// # Errors
/// Memory was refused; the other store then has some of the nodes.
pub fn join(alloc: Global, into: &mut Terms, from: &Terms) -> Result<Vec<NodeId>, AllocError>
    requires vars { from.now.vars ≤ into.old.vars }
    ensures builds { Builds into.old into.new }
    ensures within { IfOk result (λ places. ids_end places.items ≤ size into.new) }
    ensures count { IfOk result (λ places. length places.items ≡ size from.now) }
    ensures value { Gives into.new result (λ w places. Reads (joining.behind places.items w) from.now) }
{
    from.stands_in_order();
    let mut places = Vec::new(alloc);
    for i in 0..from.len() {
        let place = join_one(into, from, places.as_slice(), NodeId(i))?;
        places.push(place)?;
    }
    Ok(places)
}
