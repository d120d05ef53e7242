//! The clauses of terms: a variable for each node that a root reaches, clauses that tie it to its operands' variables,
//! and a clause for each root.
#![tactic(auto)]

mod decode;
mod gates;
pub mod laws;
mod lists;
mod marks;
mod proper;

ghost use Rattle.std.specs.Prelude.{◌≡◌, ℕ, Bool, true, List as ListOf, ◌↔◌, IfOk, IsTrue, length};
ghost use Rattle.cnf_blaster.specs.Cnf.{clauses_by, clauses_of, members, nodes_of};
ghost use Rattle.cnf_blaster.specs.Laws.{marked, AreBelow};
ghost use Rattle.cnf_blaster.specs.Meaning.{roots_value, DecodesTrue, encoded, IsSatisfiable, CanBeTrue};
ghost use Rattle.cnf_blaster.specs.Proper.{IsProper};
ghost use Rattle.resolution_check.specs.Entries.{satisfies};
ghost use Rattle.term_store.specs.Terms.{size};

pub use crate::decode::decoded;
use crate::gates::{put_nodes, put_roots};
use crate::marks::{number_marked, reached_marks};
use crate::proper::is_fit_clause;
use mw_text::List;
use resolution_check::Clause;
use std::alloc::{AllocError, Global};
use term_store::{NodeId, Terms};

/// Clauses over variables that are numbered from 0.
#[derive(Drop)]
pub struct Cnf {
    /// How many variables there are.
    pub vars: u64,
    pub clauses: List<Clause>,
    /// The node of each variable.
    pub node_of: List<NodeId>,
}

impl Cnf {
    /// Whether no clause is empty, none has a variable twice, and all variables are below their number.
    pub fn is_proper(&self, alloc: Global) -> Result<bool, AllocError>
        ensures { IfOk result (λ proper. IsTrue proper ↔ IsProper self.now) }
    {
        for clause in self.clauses.as_slice() {
            if !is_fit_clause(alloc, clause.lits.as_slice(), self.vars)? {
                return Ok(false);
            }
        }
        Ok(true)
    }
}

/// The clauses of the marked nodes and the roots.
fn clauses_from(
    alloc: Global,
    terms: &Terms,
    roots: &[NodeId],
    marks: &[bool],
) -> Result<Cnf, AllocError>
    requires roots { AreBelow (size terms.now) roots.now }
    requires marks { length marks.now ≡ size terms.now }
    ensures clauses { IfOk result (λ cnf. cnf.clauses ≡ clauses_by (marked marks.now) terms.now.nodes roots.now) }
    ensures nodes { IfOk result (λ cnf. cnf.node_of ≡ members (marked marks.now) (size terms.now)) }
    ensures vars { IfOk result (λ cnf. cnf.vars ≡ length cnf.node_of) }
{
    let numbering = number_marked(alloc, marks)?;
    let numbers = numbering.numbers.as_slice();
    let mut clauses = List::new(alloc);
    put_nodes(alloc, &mut clauses, terms, marks, numbers)?;
    put_roots(alloc, &mut clauses, roots, numbers)?;
    Ok(Cnf {
        vars: numbering.node_of.as_slice().len() as u64,
        clauses,
        node_of: numbering.node_of,
    })
}

/// The clauses of the terms that the roots reach.
pub fn blast(alloc: Global, terms: &Terms, roots: &[NodeId]) -> Result<Cnf, AllocError>
    requires { AreBelow (size terms.now) roots.now }
    ensures clauses { IfOk result (λ cnf. cnf.clauses ≡ clauses_of terms.now.nodes roots.now) }
    ensures nodes { IfOk result (λ cnf. cnf.node_of ≡ nodes_of terms.now.nodes roots.now) }
    ensures vars { IfOk result (λ cnf. cnf.vars ≡ length cnf.node_of) }
    ensures proper { IfOk result (λ cnf. IsProper cnf) }

    ensures decodes { IfOk result (λ cnf. (v : ℕ → Bool) → satisfies v cnf.clauses ≡ true
        → DecodesTrue terms.now.nodes roots.now cnf.node_of v) }
    ensures encodes { IfOk result (λ cnf. (valuation : ListOf Bool) → roots_value terms.now.nodes roots.now valuation ≡ true
        → satisfies (encoded terms.now.nodes cnf.node_of valuation) cnf.clauses ≡ true) }
    ensures equal { IfOk result (λ cnf. IsSatisfiable cnf.clauses ↔ CanBeTrue terms.now.nodes roots.now) }
{
    terms.stands_in_order();
    let marks = reached_marks(alloc, terms, roots)?;
    clauses_from(alloc, terms, roots, marks.as_slice())
}
