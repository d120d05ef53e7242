//! Rows of marks as terms.

ghost use Rattle.std.specs.Prelude.{◌≡◌, ℕ, ◌+◌, ◌<◌, ◌≤◌, ◌&&◌, Bool, IfOk, OnOk, length};
ghost use Rattle.term_store.specs.Terms.{Reading, at, size};
ghost use Rattle.term_store.specs.Reading.{Reads, Grows, Gives};
ghost use Rattle.term_arith.specs.Bits.{bits, ids_end};
ghost use Rattle.bgp_variables.specs.Marks.{mark_width, marks_from, marks_width};

use mw_text::List;
use std::alloc::{AllocError, Global};
use term_arith::Bits;
use term_arith::gates::constant_node;
use term_arith::lists::put;
use term_store::{NodeId, Terms};

// A mark: a new variable where it can be set.
#[tactic(auto, using(failed_links::proofs::Steps::grows_built))]
fn open_mark(terms: &mut Terms, may: bool) -> Result<NodeId, AllocError>
    ensures grows { Grows terms.old terms.new }
    ensures within { IfOk result (λ r. r.0 < size terms.new) }
    ensures vars { OnOk result (terms.new.vars ≡ terms.old.vars + mark_width may) }
    ensures value { Gives terms.new result (λ w r. at w r ≡ (may && w.variable terms.old.vars)) }
{
    if may {
        terms.fresh()
    } else {
        constant_node(terms, false)
    }
}

/// A row of marks, each of which is a new variable where it can be set.
#[tactic(auto, using(crate::proofs::Steps::mark_steps))]
pub(crate) fn open_marks(alloc: Global, terms: &mut Terms, may: &[bool]) -> Result<Bits, AllocError>
    ensures grows { Grows terms.old terms.new }
    ensures within { IfOk result (λ r. ids_end r.nodes.items ≤ size terms.new) }
    ensures width { IfOk result (λ r. length r.nodes.items ≡ length may.now) }
    ensures vars { OnOk result (terms.new.vars ≡ terms.old.vars + marks_width may.now) }
    ensures value { Gives terms.new result (λ w r. bits w r.nodes.items
        ≡ marks_from may.now w.variable terms.old.vars) }
{
    let mut nodes = List::new(alloc);
    for can in may {
        let node = open_mark(terms, *can)?;
        put(&mut nodes, node)?;
    }
    Ok(Bits { nodes: nodes.items })
}
