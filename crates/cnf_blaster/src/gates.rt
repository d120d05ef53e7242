//! The clauses of gates.

ghost use Rattle.std.specs.Prelude.{◌≡◌, ℕ, ◌<◌, ◌≤◌, ◌++◌, ◌∷◌, [], OnOk, IfOk, length};
ghost use Rattle.cnf_blaster.specs.Cnf.{has_both_signs, distinct, kept, all_kept, not_clauses, and_clauses, or_clauses, xor_clauses, ite_clauses, gate_clauses, clauses_below, root_clauses, yes, no};
ghost use Rattle.cnf_blaster.specs.Laws.{marked, number_at, AreBelow, IsOver};
ghost use Rattle.term_store.specs.Terms.{size};

use crate::lists::put_last;
use mw_text::List;
use resolution_check::{Clause, Lit, has_literal};
use smallvec::SmallVec;
use std::alloc::{AllocError, Global};
use term_store::{Node, NodeId, Terms};

/// The variable.
fn yes_of(var: u64) -> Lit
    ensures { result ≡ yes var }
{
    Lit {
        var,
        negated: false,
    }
}

/// The variable's negation.
fn no_of(var: u64) -> Lit
    ensures { result ≡ no var }
{
    Lit { var, negated: true }
}

/// Whether a variable stands among these in both signs.
fn clashes(lits: &[Lit]) -> bool
    ensures { result ≡ has_both_signs lits.now }
{
    for lit in lits {
        if has_literal(lits, lit.opposite()) {
            return true;
        }
    }
    false
}

/// The literals, each once.
fn once_each(alloc: Global, lits: &[Lit]) -> Result<SmallVec<Lit, 3>, AllocError>
    ensures { IfOk result (λ once. once.items ≡ distinct lits.now) }
{
    let mut once = SmallVec::new(alloc);
    for i in 0..lits.len() {
        if !has_literal(&lits[i + 1..], lits[i]) {
            once.push(lits[i])?;
        }
    }
    Ok(once)
}

/// Puts the clause of these literals last, unless a variable stands in it in both signs.
fn put(alloc: Global, clauses: &mut List<Clause>, lits: &[Lit]) -> Result<(), AllocError>
    ensures { OnOk result (clauses.new ≡ clauses.old ++ kept lits.now) }
{
    if clashes(lits) {
        return Ok(());
    }
    let once = once_each(alloc, lits)?;
    let lits = List {
        items: Vec::from_slice(alloc, once.as_slice())?,
    };
    put_last(clauses, Clause { lits })
}

/// The clauses of the negation `a`.
fn put_not(alloc: Global, clauses: &mut List<Clause>, g: u64, a: u64) -> Result<(), AllocError>
    ensures { OnOk result (clauses.new ≡ clauses.old ++ all_kept (not_clauses g a)) }
{
    put(alloc, clauses, &[no_of(g), no_of(a)])?;
    put(alloc, clauses, &[yes_of(g), yes_of(a)])
}

/// The clauses of `a` and `b`.
fn put_and(
    alloc: Global,
    clauses: &mut List<Clause>,
    g: u64,
    a: u64,
    b: u64,
) -> Result<(), AllocError>
    ensures { OnOk result (clauses.new ≡ clauses.old ++ all_kept (and_clauses g a b)) }
{
    put(alloc, clauses, &[no_of(g), yes_of(a)])?;
    put(alloc, clauses, &[no_of(g), yes_of(b)])?;
    put(alloc, clauses, &[yes_of(g), no_of(a), no_of(b)])
}

/// The clauses of `a` or `b`.
fn put_or(
    alloc: Global,
    clauses: &mut List<Clause>,
    g: u64,
    a: u64,
    b: u64,
) -> Result<(), AllocError>
    ensures { OnOk result (clauses.new ≡ clauses.old ++ all_kept (or_clauses g a b)) }
{
    put(alloc, clauses, &[yes_of(g), no_of(a)])?;
    put(alloc, clauses, &[yes_of(g), no_of(b)])?;
    put(alloc, clauses, &[no_of(g), yes_of(a), yes_of(b)])
}

/// The clauses of exactly one of `a` and `b`.
fn put_xor(
    alloc: Global,
    clauses: &mut List<Clause>,
    g: u64,
    a: u64,
    b: u64,
) -> Result<(), AllocError>
    ensures { OnOk result (clauses.new ≡ clauses.old ++ all_kept (xor_clauses g a b)) }
{
    put(alloc, clauses, &[no_of(g), yes_of(a), yes_of(b)])?;
    put(alloc, clauses, &[no_of(g), no_of(a), no_of(b)])?;
    put(alloc, clauses, &[yes_of(g), no_of(a), yes_of(b)])?;
    put(alloc, clauses, &[yes_of(g), yes_of(a), no_of(b)])
}

/// The clauses of `a` where `c` is true, else `b`.
fn put_ite(
    alloc: Global,
    clauses: &mut List<Clause>,
    g: u64,
    c: u64,
    a: u64,
    b: u64,
) -> Result<(), AllocError>
    ensures { OnOk result (clauses.new ≡ clauses.old ++ all_kept (ite_clauses g c a b)) }
{
    put(alloc, clauses, &[no_of(c), no_of(a), yes_of(g)])?;
    put(alloc, clauses, &[no_of(c), yes_of(a), no_of(g)])?;
    put(alloc, clauses, &[yes_of(c), no_of(b), yes_of(g)])?;
    put(alloc, clauses, &[yes_of(c), yes_of(b), no_of(g)])
}

/// The clauses of a node, where `numbers` has the variables of its operands.
fn put_node(
    alloc: Global,
    clauses: &mut List<Clause>,
    g: u64,
    node: Node,
    numbers: &[u64],
) -> Result<(), AllocError>
    requires { IsOver (length numbers.now) node }
    ensures { OnOk result (clauses.new ≡ clauses.old ++ all_kept (gate_clauses (number_at numbers.now) g node)) }
{
    match node {
        Node::Const(value) => put(
            alloc,
            clauses,
            &[Lit {
                var: g,
                negated: !value,
            }],
        ),
        Node::Var(_) => Ok(()),
        Node::Not(a) => put_not(alloc, clauses, g, numbers[a.0 as usize]),
        Node::And(a, b) => put_and(
            alloc,
            clauses,
            g,
            numbers[a.0 as usize],
            numbers[b.0 as usize],
        ),
        Node::Or(a, b) => put_or(
            alloc,
            clauses,
            g,
            numbers[a.0 as usize],
            numbers[b.0 as usize],
        ),
        Node::Xor(a, b) => put_xor(
            alloc,
            clauses,
            g,
            numbers[a.0 as usize],
            numbers[b.0 as usize],
        ),
        Node::Ite(c, a, b) => put_ite(
            alloc,
            clauses,
            g,
            numbers[c.0 as usize],
            numbers[a.0 as usize],
            numbers[b.0 as usize],
        ),
    }
}

/// The clauses of the marked nodes.
pub(crate) fn put_nodes(
    alloc: Global,
    clauses: &mut List<Clause>,
    terms: &Terms,
    marks: &[bool],
    numbers: &[u64],
) -> Result<(), AllocError>
    requires marks { length marks.now ≡ size terms.now }
    requires numbers { length numbers.now ≡ size terms.now }
    ensures { OnOk result ((var : ℕ → ℕ) → ((i : ℕ) → i < size terms.now → number_at numbers.now i ≡ var i)
        → clauses.new ≡ clauses.old ++ clauses_below (marked marks.now) var terms.now.nodes (size terms.now)) }
{
    for number in 0..terms.len() {
        if marks[number as usize] {
            put_node(
                alloc,
                clauses,
                numbers[number as usize],
                terms.get(NodeId(number)),
                numbers,
            )?;
        }
    }
    Ok(())
}

/// One clause for each root.
pub(crate) fn put_roots(
    alloc: Global,
    clauses: &mut List<Clause>,
    roots: &[NodeId],
    numbers: &[u64],
) -> Result<(), AllocError>
    requires { AreBelow (length numbers.now) roots.now }
    ensures { OnOk result ((var : ℕ → ℕ) → ((i : ℕ) → i < length numbers.now → number_at numbers.now i ≡ var i)
        → clauses.new ≡ clauses.old ++ root_clauses var roots.now) }
{
    for root in roots {
        put(alloc, clauses, &[yes_of(numbers[root.0 as usize])])?;
    }
    Ok(())
}
