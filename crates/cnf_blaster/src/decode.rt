//! From the values of the clauses' variables back to values of the terms' variables.

ghost use Rattle.std.specs.Prelude.{◌≡◌, ℕ, ◌<◌, Bool, true, false, IfOk, IfSome, Some, length, slice_get};
ghost use Rattle.cnf_blaster.specs.Cnf.{clauses_of, nodes_of};
ghost use Rattle.cnf_blaster.specs.Laws.{AreBelow};
ghost use Rattle.cnf_blaster.specs.Meaning.{IsDecoded, IsUnspoken, roots_value, variable_in, with_value};
ghost use Rattle.resolution_check.specs.Entries.{satisfies};
ghost use Rattle.term_store.specs.Terms.{size, truth, StandsOnce};
ghost use Rattle.term_store.specs.Reading.{Stands};
ghost use Rattle.term_store.specs.declared.Node.{Node as NodeOf};

use crate::marks::unmarked;
use mw_text::List;
use std::alloc::{AllocError, Global};
use term_store::{Node, NodeId, Terms};

/// The variable that a node is, if it is one.
#[tactic(auto, unfolding(term_store::specs::Reading::Stands))]
fn variable_at(terms: &Terms, id: NodeId) -> Option<u64>
    requires { id.0 < size terms.now }
    ensures value { (node : NodeOf) → slice_get terms.now.nodes id.0 ≡ Some node → result ≡ variable_in node }
    ensures within { IfSome result (λ k. k < terms.now.vars) }
{
    match terms.get(id) {
        Node::Var(k) => Some(k),
        _ => None,
    }
}

/// Gives a variable its value, if there is one.
fn put_value(valuation: &mut [bool], variable: Option<u64>, value: bool)
    requires { IfSome variable (λ k. k < length valuation.old) }
    ensures { valuation.new ≡ with_value variable value valuation.old }
{
    if let Some(k) = variable {
        valuation[k as usize] = value;
    }
}

/// Gives each variable of the terms the value of the variable of the clauses that stands for it.
fn put_values(
    valuation: &mut [bool],
    terms: &Terms,
    roots: &[NodeId],
    node_of: &[NodeId],
    values: &[bool],
)
    requires all { length valuation.old ≡ terms.now.vars }
    requires none { (k : ℕ) → truth valuation.old k ≡ false }
    requires nodes { node_of.now ≡ nodes_of terms.now.nodes roots.now }
    requires length { length values.now ≡ length node_of.now }
    ensures decoded { IsDecoded terms.now.nodes node_of.now (truth values.now) valuation.new }
    ensures others { (k : ℕ) → IsUnspoken terms.now.nodes node_of.now k → truth valuation.new k ≡ false }
{
    terms.stands_in_order();
    for x in 0..node_of.len() {
        put_value(valuation, variable_at(terms, node_of[x]), values[x]);
    }
}

/// A value for each variable of the terms, from those of the variables of their clauses: false where no clause speaks of
/// it. Where the values satisfy the clauses every root is true under it.
pub fn decoded(
    alloc: Global,
    terms: &Terms,
    roots: &[NodeId],
    node_of: &[NodeId],
    values: &[bool],
) -> Result<List<bool>, AllocError>
    requires nodes { node_of.now ≡ nodes_of terms.now.nodes roots.now }
    requires length { length values.now ≡ length node_of.now }
    ensures length { IfOk result (λ r. length r ≡ terms.now.vars) }
    ensures decoded { IfOk result (λ r. IsDecoded terms.now.nodes node_of.now (truth values.now) r) }
    ensures others { IfOk result (λ r. (k : ℕ) → IsUnspoken terms.now.nodes node_of.now k → truth r k ≡ false) }
    ensures roots { IfOk result (λ r. satisfies (truth values.now) (clauses_of terms.now.nodes roots.now) ≡ true
        → roots_value terms.now.nodes roots.now r ≡ true) }
{
    terms.stands_in_order();
    let mut valuation = unmarked(alloc, terms.vars())?;
    put_values(
        valuation.items.as_mut_slice(),
        terms,
        roots,
        node_of,
        values,
    );
    Ok(valuation)
}
