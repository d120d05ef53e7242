//! Gates over nodes. Constants fold, equal operands and a node with its negation too, and a double negation vanishes.

ghost use Rattle.std.specs.Prelude.{◌≡◌, ℕ, ◌+◌, ◌<◌, ◌≤◌, Bool, false, true, not, ◌&&◌, ◌||◌, if◌then◌else◌, IfOk, IfSome, Some};
ghost use Rattle.term_arith.specs.Gates.{Ties};
ghost use Rattle.term_store.specs.Terms.{Reading, size, at, differ};
ghost use Rattle.term_store.specs.Reading.{Reads, Stands, Builds, Gives};
ghost use Rattle.term_store.specs.declared.Node.TheVariants.{Const};

use std::alloc::AllocError;
use term_store::{Node, NodeId, Terms};

/// How the values of two nodes hang together, as far as their kinds alone show it.
#[derive(Clone, Copy)]
enum Tie {
    /// The first one is a constant.
    First(bool),
    /// The second one is.
    Second(bool),
    Same,
    /// One is the negation of the other.
    Opposite,
    /// Nothing is known.
    Free,
}

/// The value of a node that is a constant.
fn known(terms: &Terms, id: NodeId) -> Option<bool>
    requires { id.0 < size terms.now }
    ensures value { IfSome result (λ b. (w : Reading) → Reads w terms.now → at w id ≡ b) }
    ensures constant { (b : Bool) → Stands terms.now id.0 (Const b) → result ≡ Some b }
{
    match terms.get(id) {
        Node::Const(value) => Some(value),
        _ => None,
    }
}

/// Whether the first node is the negation of the second.
fn is_negation(terms: &Terms, a: NodeId, b: NodeId) -> bool
    requires { a.0 < size terms.now }
    ensures { result ≡ true → (w : Reading) → Reads w terms.now → at w a ≡ not (at w b) }
{
    match terms.get(a) {
        Node::Not(inner) => inner == b,
        _ => false,
    }
}

/// Whether one of two nodes is the negation of the other.
fn are_opposite(terms: &Terms, a: NodeId, b: NodeId) -> bool
    requires first { a.0 < size terms.now }
    requires second { b.0 < size terms.now }
    ensures { result ≡ true → (w : Reading) → Reads w terms.now → at w a ≡ not (at w b) }
{
    is_negation(terms, a, b) || is_negation(terms, b, a)
}

/// How the values of two nodes hang together.
fn tie_of(terms: &Terms, a: NodeId, b: NodeId) -> Tie
    requires first { a.0 < size terms.now }
    requires second { b.0 < size terms.now }
    ensures { (w : Reading) → Reads w terms.now → Ties result (at w a) (at w b) }
{
    if let Some(value) = known(terms, a) {
        return Tie::First(value);
    }
    if let Some(value) = known(terms, b) {
        return Tie::Second(value);
    }
    if a == b {
        return Tie::Same;
    }
    if are_opposite(terms, a, b) {
        return Tie::Opposite;
    }
    Tie::Free
}

/// Whether the node is the constant false.
pub fn is_never(terms: &Terms, node: NodeId) -> bool
    requires { node.0 < size terms.now }
    ensures never { result ≡ true → (w : Reading) → Reads w terms.now → at w node ≡ false }
    ensures constant { Stands terms.now node.0 (Const false) → result ≡ true }
{
    known(terms, node) == Some(false)
}

/// A constant.
pub fn constant_node(terms: &mut Terms, value: bool) -> Result<NodeId, AllocError>
    ensures builds { Builds terms.old terms.new }
    ensures within { IfOk result (λ r. r.0 < size terms.new) }
    ensures value { Gives terms.new result (λ w r. at w r ≡ value) }
{
    terms.add(Node::Const(value))
}

/// The negation of a node.
pub fn negate(terms: &mut Terms, a: NodeId) -> Result<NodeId, AllocError>
    requires { a.0 < size terms.old }
    ensures builds { Builds terms.old terms.new }
    ensures within { IfOk result (λ r. r.0 < size terms.new) }
    ensures value { Gives terms.new result (λ w r. at w r ≡ not (at w a)) }
{
    match terms.get(a) {
        Node::Const(value) => constant_node(terms, !value),
        Node::Not(inner) => Ok(inner),
        _ => terms.add(Node::Not(a)),
    }
}

/// True where both nodes are.
pub fn both(terms: &mut Terms, a: NodeId, b: NodeId) -> Result<NodeId, AllocError>
    requires first { a.0 < size terms.old }
    requires second { b.0 < size terms.old }
    ensures builds { Builds terms.old terms.new }
    ensures within { IfOk result (λ r. r.0 < size terms.new) }
    ensures value { Gives terms.new result (λ w r. at w r ≡ (at w a && at w b)) }
{
    match tie_of(terms, a, b) {
        Tie::First(false) | Tie::Second(true) | Tie::Same => Ok(a),
        Tie::First(true) | Tie::Second(false) => Ok(b),
        Tie::Opposite => constant_node(terms, false),
        Tie::Free => terms.add(Node::And(a, b)),
    }
}

/// True where one of two nodes is.
pub fn either(terms: &mut Terms, a: NodeId, b: NodeId) -> Result<NodeId, AllocError>
    requires first { a.0 < size terms.old }
    requires second { b.0 < size terms.old }
    ensures builds { Builds terms.old terms.new }
    ensures within { IfOk result (λ r. r.0 < size terms.new) }
    ensures value { Gives terms.new result (λ w r. at w r ≡ (at w a || at w b)) }
{
    match tie_of(terms, a, b) {
        Tie::First(true) | Tie::Second(false) | Tie::Same => Ok(a),
        Tie::First(false) | Tie::Second(true) => Ok(b),
        Tie::Opposite => constant_node(terms, true),
        Tie::Free => terms.add(Node::Or(a, b)),
    }
}

/// True where exactly one of two nodes is.
pub fn differs(terms: &mut Terms, a: NodeId, b: NodeId) -> Result<NodeId, AllocError>
    requires first { a.0 < size terms.old }
    requires second { b.0 < size terms.old }
    ensures builds { Builds terms.old terms.new }
    ensures within { IfOk result (λ r. r.0 < size terms.new) }
    ensures value { Gives terms.new result (λ w r. at w r ≡ differ (at w a) (at w b)) }
{
    match tie_of(terms, a, b) {
        Tie::First(true) => negate(terms, b),
        Tie::First(false) => Ok(b),
        Tie::Second(true) => negate(terms, a),
        Tie::Second(false) => Ok(a),
        Tie::Same => constant_node(terms, false),
        Tie::Opposite => constant_node(terms, true),
        Tie::Free => terms.add(Node::Xor(a, b)),
    }
}

/// True where two nodes have one value.
pub fn agree(terms: &mut Terms, a: NodeId, b: NodeId) -> Result<NodeId, AllocError>
    requires first { a.0 < size terms.old }
    requires second { b.0 < size terms.old }
    ensures builds { Builds terms.old terms.new }
    ensures within { IfOk result (λ r. r.0 < size terms.new) }
    ensures value { Gives terms.new result (λ w r. at w r ≡ not (differ (at w a) (at w b))) }
{
    let apart = differs(terms, a, b)?;
    negate(terms, apart)
}

/// False only where the first node is true and the second is not.
pub fn implies(terms: &mut Terms, a: NodeId, b: NodeId) -> Result<NodeId, AllocError>
    requires first { a.0 < size terms.old }
    requires second { b.0 < size terms.old }
    ensures builds { Builds terms.old terms.new }
    ensures within { IfOk result (λ r. r.0 < size terms.new) }
    ensures value { Gives terms.new result (λ w r. at w r ≡ (not (at w a) || at w b)) }
{
    let otherwise = negate(terms, a)?;
    either(terms, otherwise, b)
}

/// The value of `a` where `c` is true, else that of `b`.
pub fn select(terms: &mut Terms, c: NodeId, a: NodeId, b: NodeId) -> Result<NodeId, AllocError>
    requires test { c.0 < size terms.old }
    requires first { a.0 < size terms.old }
    requires second { b.0 < size terms.old }
    ensures builds { Builds terms.old terms.new }
    ensures within { IfOk result (λ r. r.0 < size terms.new) }
    ensures value { Gives terms.new result (λ w r. at w r ≡ (if at w c then at w a else at w b)) }
{
    if let Some(value) = known(terms, c) {
        return Ok(if value { a } else { b });
    }
    match tie_of(terms, a, b) {
        Tie::First(true) => either(terms, c, b),
        Tie::First(false) => {
            let otherwise = negate(terms, c)?;
            both(terms, otherwise, b)
        }
        Tie::Second(true) => implies(terms, c, a),
        Tie::Second(false) => both(terms, c, a),
        Tie::Same => Ok(a),
        Tie::Opposite => differs(terms, c, b),
        Tie::Free if a == c => either(terms, c, b),
        Tie::Free if b == c => both(terms, c, a),
        Tie::Free if are_opposite(terms, a, c) => both(terms, a, b),
        Tie::Free if are_opposite(terms, b, c) => either(terms, b, a),
        Tie::Free => terms.add(Node::Ite(c, a, b)),
    }
}
