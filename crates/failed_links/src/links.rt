//! The failed links as terms: a variable for each link, and none where no link may fail.

ghost use Rattle.std.specs.Prelude.{◌≡◌, ◌+◌, ◌≤◌, ◌<◌, IfOk, OnOk, length};
ghost use Rattle.term_store.specs.Terms.{size};
ghost use Rattle.term_store.specs.Reading.{Builds, Gives};
ghost use Rattle.term_arith.specs.Bits.{bits, ids_end};
ghost use Rattle.failed_links.specs.Failures.{downs_from, downs_width, none_of};
ghost use Rattle.failed_links.specs.Rows.{row};

use mw_text::List;
use std::alloc::{AllocError, Global};
use term_arith::gates::constant_node;
use term_arith::lists::put;
use term_store::{Node, NodeId, Terms};

/// So many nodes that are false.
#[tactic(auto, using(crate::proofs::Steps::none_steps))]
pub fn none_down(alloc: Global, terms: &mut Terms, links: usize) -> Result<List<NodeId>, AllocError>
    ensures builds { Builds terms.old terms.new }
    ensures within { IfOk result (λ r. ids_end r ≤ size terms.new) }
    ensures length { IfOk result (λ r. length r ≡ links) }
    ensures value { Gives terms.new result (λ w r. bits w r ≡ none_of links) }
{
    let mut downs = List::new(alloc);
    for i in 0..links {
        let node = constant_node(terms, false)?;
        put(&mut downs, node)?;
    }
    Ok(downs)
}

// The variables of so many links, from a first one on.
#[tactic(auto, using(crate::proofs::Steps::row_steps))]
fn row_of(
    alloc: Global,
    terms: &mut Terms,
    first: u64,
    links: usize,
) -> Result<List<NodeId>, AllocError>
    requires there { first + links ≤ terms.old.vars }
    ensures builds { Builds terms.old terms.new }
    ensures within { IfOk result (λ r. ids_end r ≤ size terms.new) }
    ensures length { IfOk result (λ r. length r ≡ links) }
    ensures value { Gives terms.new result (λ w r. bits w r ≡ row w.variable first links) }
{
    let _few = terms.vars();
    let mut nodes = List::new(alloc);
    for i in 0..links {
        let node = terms.add(Node::Var(first + i as u64))?;
        put(&mut nodes, node)?;
    }
    Ok(nodes)
}

/// Puts the variables of the links that are not marked into the store, so that theirs are the lower nodes.
pub fn put_unmarked(terms: &mut Terms, first: u64, marked: &[bool]) -> Result<(), AllocError>
    requires there { first + length marked.now ≤ terms.old.vars }
    ensures builds { Builds terms.old terms.new }
{
    let _few = terms.vars();
    for i in 0..marked.len() {
        if !marked[i] {
            terms.add(Node::Var(first + i as u64))?;
        }
    }
    Ok(())
}

/// Which of some links are down, where at most so many are: by the variables of the store from a first one on.
#[tactic(auto, unfolding(crate::specs::Failures::downs_from, crate::specs::Failures::downs_width))]
pub fn downs_at(
    alloc: Global,
    terms: &mut Terms,
    first: u64,
    most: u32,
    links: usize,
) -> Result<List<NodeId>, AllocError>
    requires there { first + downs_width most links ≤ terms.old.vars }
    ensures builds { Builds terms.old terms.new }
    ensures within { IfOk result (λ r. ids_end r ≤ size terms.new) }
    ensures length { IfOk result (λ r. length r ≡ links) }
    ensures value { Gives terms.new result (λ w r. bits w r ≡ downs_from most links w.variable first) }
{
    if most == 0 {
        none_down(alloc, terms, links)
    } else {
        row_of(alloc, terms, first, links)
    }
}
