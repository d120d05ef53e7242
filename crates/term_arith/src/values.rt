//! The values of nodes under a valuation.

ghost use Rattle.std.specs.Prelude.{◌≡◌, ℕ, ◌≤◌, Bool, IfOk, length};
ghost use Rattle.term_store.specs.Terms.{IsBelow, gate, reading_by, values_of as node_values};

use mw_text::List;
use std::alloc::{AllocError, Global};
use term_store::{Node, NodeId, Terms};

/// The value of a node, from the values of the variables and of the nodes before it.
fn value_of_node(node: Node, values: &[bool], found: &[bool]) -> bool
    requires { IsBelow (length found.now) (length values.now) node }
    ensures { result ≡ gate (reading_by values.now found.now) node }
{
    match node {
        Node::Const(value) => value,
        Node::Var(var) => values[var as usize],
        Node::Not(a) => !found[a.0 as usize],
        Node::And(a, b) => found[a.0 as usize] && found[b.0 as usize],
        Node::Or(a, b) => found[a.0 as usize] || found[b.0 as usize],
        Node::Xor(a, b) => found[a.0 as usize] != found[b.0 as usize],
        Node::Ite(c, a, b) => {
            if found[c.0 as usize] {
                found[a.0 as usize]
            } else {
                found[b.0 as usize]
            }
        }
    }
}

/// The values of all nodes, in the order of their numbers, where the variables have the given values.
pub fn values_of(alloc: Global, terms: &Terms, values: &[bool]) -> Result<List<bool>, AllocError>
    requires { terms.now.vars ≤ length values.now }
    ensures { IfOk result (λ r. r ≡ node_values terms.now.nodes values.now) }
{
    let mut found = List::new(alloc);
    for number in 0..terms.len() {
        let node = terms.get(NodeId(number));
        let value = value_of_node(node, values, found.as_slice());
        found.items.push(value)?;
    }
    Ok(found)
}
