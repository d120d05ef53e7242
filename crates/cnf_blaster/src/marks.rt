//! Which nodes are reached, by a list of truth values, and their variables.

ghost use Rattle.std.specs.Prelude.{◌≡◌, ℕ, ◌<◌, ◌≤◌, ◌||◌, ◌==◌, replicate, false, IfOk, length};
ghost use Rattle.cnf_blaster.specs.Cnf.{names, operands, reached, reached_from, members, variable_of};
ghost use Rattle.cnf_blaster.specs.Laws.{marked, number_at, AreBelow, IsOver};
ghost use Rattle.term_store.specs.Terms.{size};

use crate::lists::put_last;
use mw_text::List;
use std::alloc::{AllocError, Global};
use term_store::{Node, NodeId, Terms};

/// The nodes that have a variable, in the order of their variables, and for each node how many of those are below it.
#[derive(Drop)]
pub(crate) struct Numbering {
    pub(crate) node_of: List<NodeId>,
    pub(crate) numbers: List<u64>,
}

/// A list in which nothing is marked.
pub(crate) fn unmarked(alloc: Global, count: u64) -> Result<List<bool>, AllocError>
    ensures { IfOk result (λ marks. marks ≡ replicate count false) }
{
    let mut marks = List::new(alloc);
    for i in 0..count {
        put_last(&mut marks, false)?;
    }
    Ok(marks)
}

/// Marks one node.
fn mark(marks: &mut [bool], id: NodeId)
    requires { id.0 < length marks.old }
    ensures { (i : ℕ) → marked marks.new i ≡ (marked marks.old i || (id.0 == i)) }
{
    marks[id.0 as usize] = true;
}

/// Marks nodes.
fn mark_all(marks: &mut [bool], ids: &[NodeId])
    requires { AreBelow (length marks.old) ids.now }
    ensures { (i : ℕ) → marked marks.new i ≡ (marked marks.old i || names ids.now i) }
{
    for id in ids {
        mark(marks, *id);
    }
}

/// Marks the operands of a node.
fn mark_operands(marks: &mut [bool], node: Node)
    requires { IsOver (length marks.old) node }
    ensures { (i : ℕ) → marked marks.new i ≡ (marked marks.old i || names (operands node) i) }
{
    match node {
        Node::Const(_) | Node::Var(_) => {}
        Node::Not(a) => mark(marks, a),
        Node::And(a, b) | Node::Or(a, b) | Node::Xor(a, b) => {
            mark(marks, a);
            mark(marks, b);
        }
        Node::Ite(c, a, b) => {
            mark(marks, c);
            mark(marks, a);
            mark(marks, b);
        }
    }
}

/// Marks what the marked nodes reach, from the last node down.
fn mark_reached(marks: &mut [bool], terms: &Terms)
    requires { length marks.old ≡ size terms.now }
    ensures { (i : ℕ) → marked marks.new i ≡ reached_from (marked marks.old) 0 terms.now.nodes i }
{
    for number in (0..terms.len()).rev() {
        if marks[number as usize] {
            mark_operands(marks, terms.get(NodeId(number)));
        }
    }
}

/// Marks what the roots reach, where nothing was marked.
fn mark_from(marks: &mut [bool], terms: &Terms, roots: &[NodeId])
    requires len { length marks.old ≡ size terms.now }
    requires none { (i : ℕ) → marked marks.old i ≡ false }
    requires roots { AreBelow (size terms.now) roots.now }
    ensures { marked marks.new ≡ reached terms.now.nodes roots.now }
{
    mark_all(marks, roots);
    mark_reached(marks, terms);
}

/// What the roots reach, in a list with one truth value for each node.
pub(crate) fn reached_marks(
    alloc: Global,
    terms: &Terms,
    roots: &[NodeId],
) -> Result<List<bool>, AllocError>
    requires { AreBelow (size terms.now) roots.now }
    ensures len { IfOk result (λ marks. length marks ≡ size terms.now) }
    ensures marks { IfOk result (λ marks. marked marks ≡ reached terms.now.nodes roots.now) }
{
    let mut marks = unmarked(alloc, terms.len())?;
    mark_from(marks.items.as_mut_slice(), terms, roots);
    Ok(marks)
}

/// Numbers the marked nodes in ascending order.
pub(crate) fn number_marked(alloc: Global, marks: &[bool]) -> Result<Numbering, AllocError>
    ensures nodes { IfOk result (λ r. r.node_of ≡ members (marked marks.now) (length marks.now)) }
    ensures len { IfOk result (λ r. length r.numbers ≡ length marks.now) }
    ensures numbers { IfOk result (λ r. (i : ℕ) → i < length marks.now → number_at r.numbers i ≡ variable_of (marked marks.now) i) }
{
    let mut node_of = List::new(alloc);
    let mut numbers = List::new(alloc);
    for i in 0..marks.len() {
        put_last(&mut numbers, node_of.as_slice().len() as u64)?;
        if marks[i] {
            put_last(&mut node_of, NodeId(i as u64))?;
        }
    }
    Ok(Numbering { node_of, numbers })
}
