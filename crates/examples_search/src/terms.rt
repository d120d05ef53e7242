//! Terms, the values of their nodes and their clauses.

ghost use Rattle.std.specs.Prelude.{ℕ, ◌<◌, ◌≤◌};
ghost use Rattle.term_store.specs.Terms.{size};
ghost use Rattle.term_arith.specs.Bits.{ids_end};

use crate::clauses::show;
use crate::printed::{first_word, number_in, numbers_in, show_values};
use cnf_blaster::{blast, decoded};
use grafted_terms::graft;
use std::alloc::{AllocError, Global};
use std::io;
use term_arith::gates::{
    agree, both, constant_node, differs, either, implies, is_never, negate, select,
};
use term_arith::lists::{all_of, any_of};
use term_arith::{at_most, values_of};
use term_store::{Node, NodeId, Terms};

/// The node of a number, or the last one.
pub fn node_in(terms: &Terms, number: u64) -> NodeId
    requires { 0 < size terms.now }
    ensures { result.0 < size terms.now }
{
    NodeId(number.min(terms.len() - 1))
}

/// Adds a node of a kind over other nodes.
fn add_node(
    terms: &mut Terms,
    kind: &str,
    a: NodeId,
    b: NodeId,
    c: NodeId,
) -> Result<NodeId, AllocError>
    requires first { a.0 < size terms.old }
    requires second { b.0 < size terms.old }
    requires third { c.0 < size terms.old }
{
    match kind {
        "not" => terms.add(Node::Not(a)),
        "and" => terms.add(Node::And(a, b)),
        "or" => terms.add(Node::Or(a, b)),
        "xor" => terms.add(Node::Xor(a, b)),
        _ => terms.add(Node::Ite(a, b, c)),
    }
}

/// Makes a gate over two nodes or three.
fn gate(
    terms: &mut Terms,
    name: &str,
    a: NodeId,
    b: NodeId,
    c: NodeId,
) -> Result<NodeId, AllocError>
    requires first { a.0 < size terms.old }
    requires second { b.0 < size terms.old }
    requires third { c.0 < size terms.old }
{
    match name {
        "negate" => negate(terms, a),
        "both" => both(terms, a, b),
        "either" => either(terms, a, b),
        "differs" => differs(terms, a, b),
        "agree" => agree(terms, a, b),
        "implies" => implies(terms, a, b),
        "select" => select(terms, a, b, c),
        _ => add_node(terms, name, a, b, c),
    }
}

/// Makes a gate over three nodes as a list.
fn count(
    alloc: Global,
    terms: &mut Terms,
    name: &str,
    three: &[NodeId; 3],
    most: u64,
) -> Result<NodeId, AllocError>
    requires { ids_end three.now ≤ size terms.old }
{
    match name {
        "all" => all_of(terms, three),
        "any" => any_of(terms, three),
        _ => at_most(alloc, terms, three, most.min(64) as u32),
    }
}

/// Makes a node of a name, over the nodes whose numbers stand behind it.
fn make(alloc: Global, terms: &mut Terms, order: &str) -> Result<NodeId, AllocError> {
    let (name, rest) = first_word(order);
    match name {
        "fresh" => terms.fresh(),
        "true" => constant_node(terms, true),
        "false" => constant_node(terms, false),
        _ if terms.len() == 0 => terms.fresh(),
        _ => make_over(alloc, terms, name, numbers_in(rest)),
    }
}

/// Makes a node over the nodes of these numbers.
fn make_over(
    alloc: Global,
    terms: &mut Terms,
    name: &str,
    numbers: [u64; 4],
) -> Result<NodeId, AllocError>
    requires { 0 < size terms.old }
{
    let a = node_in(terms, numbers[0]);
    let b = node_in(terms, numbers[1]);
    let c = node_in(terms, numbers[2]);
    match name {
        "all" | "any" | "most" => count(alloc, terms, name, &[a, b, c], numbers[3]),
        _ => gate(terms, name, a, b, c),
    }
}

/// The values that the digits of a word stand for.
pub fn values_in(alloc: Global, word: &str) -> Result<Vec<bool>, AllocError> {
    let mut values = Vec::new(alloc);
    for byte in word.as_bytes() {
        values.push(*byte == b'1')?;
    }
    Ok(values)
}

/// Prints the values of the nodes that were made last, where the variables have these values.
fn show_marked(
    rt: &(impl Print + AllocGlobal),
    terms: &Terms,
    marked: &[NodeId],
    word: &str,
) -> io::Result<()> {
    let values = values_in(rt.alloc(), word)?;
    if (values.len() as u64) < terms.vars() {
        return println!(rt; "too few values");
    }
    let found = values_of(rt.alloc(), terms, values.as_slice())?;
    print!(rt; "values ")?;
    for node in marked {
        show_value(rt, found.as_slice().get(node.0 as usize))?;
    }
    println!(rt; "")
}

/// Prints a value, if there is one.
fn show_value(rt: &impl Print, value: Option<&bool>) -> io::Result<()> {
    match value {
        Some(true) => print!(rt; "1"),
        Some(false) => print!(rt; "0"),
        None => print!(rt; "?"),
    }
}

/// Prints the clauses of a node as a root, and what these values of their variables are decoded to.
fn show_clauses(
    rt: &(impl Print + AllocGlobal),
    terms: &Terms,
    root: NodeId,
    values: &[bool],
) -> io::Result<()>
    requires { root.0 < size terms.now }
{
    let cnf = blast(rt.alloc(), terms, &[root])?;
    show(rt, &cnf)?;
    let nodes = cnf.node_of.as_slice();
    if nodes.len() != values.len() {
        return println!(rt; "{} variables", nodes.len());
    }
    let valuation = decoded(rt.alloc(), terms, &[root], nodes, values)?;
    show_values(rt, "decoded", valuation.as_slice())
}

/// Reads the node and the values of an order for clauses.
fn take_clauses(rt: &(impl Print + AllocGlobal), terms: &Terms, order: &str) -> io::Result<()> {
    let (number, word) = first_word(order);
    if terms.len() == 0 {
        return println!(rt; "no node");
    }
    let values = values_in(rt.alloc(), word)?;
    show_clauses(
        rt,
        terms,
        node_in(terms, number_in(number)),
        values.as_slice(),
    )
}

/// Prints whether a node is the constant false.
fn show_never(rt: &impl Print, terms: &Terms, number: &str) -> io::Result<()> {
    if terms.len() == 0 {
        return println!(rt; "no node");
    }
    println!(rt;
        "never: {}",
        is_never(terms, node_in(terms, number_in(number)))
    )
}

/// Makes a node, and prints its number.
fn take_node(
    rt: &(impl Print + AllocGlobal),
    terms: &mut Terms,
    marked: &mut Vec<NodeId>,
    order: &str,
) -> io::Result<()> {
    let node = make(rt.alloc(), terms, order)?;
    marked.clear();
    marked.push(node)?;
    println!(rt; "node {}", node.0)
}

/// Copies the nodes into a store that has one variable before them. The copies are what was made last.
fn graft_behind(
    alloc: Global,
    terms: &mut Terms,
    marked: &mut Vec<NodeId>,
) -> Result<(), AllocError> {
    let mut into = Terms::new(alloc);
    into.fresh()?;
    let copies = graft(alloc, &mut into, terms)?;
    *terms = into;
    *marked = copies.items;
    Ok(())
}

/// `new` begins with an empty store, `graft` copies the store behind a variable, `at VALUES` prints the values of what was made last where the variables have these,
/// `clauses ROOT VALUES` prints the clauses of a root and decodes values of their variables, `never NODE` prints whether a
/// node is the constant false, `size` how many nodes and variables there are, and any other order makes a node.
pub fn take(
    rt: &(impl Print + AllocGlobal),
    terms: &mut Terms,
    marked: &mut Vec<NodeId>,
    order: &str,
) -> io::Result<()> {
    let (word, rest) = first_word(order);
    match word {
        "at" => show_marked(rt, terms, marked.as_slice(), rest),
        "clauses" => take_clauses(rt, terms, rest),
        "never" => show_never(rt, terms, rest),
        "size" => println!(rt; "{} nodes, {} variables", terms.len(), terms.vars()),
        "new" => {
            *terms = Terms::new(rt.alloc());
            Ok(())
        }
        "graft" => Ok(graft_behind(rt.alloc(), terms, marked)?),
        _ => take_node(rt, terms, marked, order),
    }
}
