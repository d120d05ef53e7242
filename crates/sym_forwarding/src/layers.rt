//! From which routers a walk goes on, or ends as a question asks, layer by layer: each has a node for each router, and
//! costs as many gates as there are edges.

ghost use Rattle.std.specs.Prelude.{◌≡◌, ℕ, ◌+◌, ◌<◌, ◌≤◌, Bool, true, false, IfOk, IfSome, length, map};
ghost use Rattle.std.specs.List.{list_any};
ghost use Rattle.std.specs.Option.{option_map_or};
ghost use Rattle.term_store.specs.Terms.{Reading, size, at};
ghost use Rattle.term_store.specs.Reading.{Reads, Builds, Gives};
ghost use Rattle.term_arith.specs.Bits.{bits, ids_end};
ghost use Rattle.walk_def.specs.Marks.{known};
ghost use Rattle.sym_forwarding.specs.Layers.{leads, going, arrives, loops};
ghost use Rattle.sym_forwarding.specs.Symbolic.{edge_of, edges_of, edges_end, forwarding_of, forwarding_end, table_of};
ghost use Rattle.sym_forwarding.specs.Symbolic.{table_end, marked_on, marked_first, layered};

use crate::forwarding::{SymEdge, SymForwarding};
use mw_text::List;
use std::alloc::{AllocError, Global};
use term_arith::gates::{both, constant_node, either};
use term_arith::lists::put;
use term_store::{NodeId, Terms};

// The mark of a router, where it has one.
#[tactic(auto, using(crate::proofs::Tables::table_steps))]
fn mark_of(marks: &[NodeId], router: u32) -> Option<NodeId>
    ensures within { IfSome result (λ id. id.0 < ids_end marks.now) }
    ensures value { (w : Reading) → option_map_or (at w) result false ≡ known (bits w marks.now) router }
{
    let place = router as usize;
    if place < marks.len() {
        Some(marks[place])
    } else {
        None
    }
}

/// The mark of a router. One that is past the marks has none.
pub(crate) fn sym_known(
    terms: &mut Terms,
    marks: &[NodeId],
    router: u32,
) -> Result<NodeId, AllocError>
    requires { ids_end marks.now ≤ size terms.old }
    ensures builds { Builds terms.old terms.new }
    ensures within { IfOk result (λ r. r.0 < size terms.new) }
    ensures value { Gives terms.new result (λ w r. at w r ≡ known (bits w marks.now) router) }
{
    match mark_of(marks, router) {
        None => constant_node(terms, false),
        Some(mark) => Ok(mark),
    }
}

// Whether the edge leads to a router that is marked.
fn sym_leads(terms: &mut Terms, marks: &[NodeId], edge: &SymEdge) -> Result<NodeId, AllocError>
    requires marks { ids_end marks.now ≤ size terms.old }
    requires nodes { edge.now.when.0 < size terms.old }
    ensures builds { Builds terms.old terms.new }
    ensures within { IfOk result (λ r. r.0 < size terms.new) }
    ensures value { Gives terms.new result (λ w r. at w r ≡ leads (bits w marks.now) (edge_of w edge.now)) }
{
    let mark = sym_known(terms, marks, edge.to)?;
    both(terms, edge.when, mark)
}

// Whether one of the edges does.
#[tactic(auto, using(crate::proofs::Tables::edge_steps))]
fn sym_sends(terms: &mut Terms, marks: &[NodeId], next: &[SymEdge]) -> Result<NodeId, AllocError>
    requires marks { ids_end marks.now ≤ size terms.old }
    requires nodes { edges_end next.now ≤ size terms.old }
    ensures builds { Builds terms.old terms.new }
    ensures within { IfOk result (λ r. r.0 < size terms.new) }
    ensures value { Gives terms.new result (λ w r. at w r ≡ list_any (leads (bits w marks.now)) (edges_of w next.now)) }
{
    let mut any = constant_node(terms, false)?;
    for edge in next {
        let leads = sym_leads(terms, marks, edge)?;
        any = either(terms, any, leads)?;
    }
    Ok(any)
}

// The mark of a router one layer on.
fn sym_mark(
    terms: &mut Terms,
    marks: &[NodeId],
    ends_count: bool,
    forwarding: &SymForwarding,
) -> Result<NodeId, AllocError>
    requires marks { ids_end marks.now ≤ size terms.old }
    requires nodes { forwarding_end forwarding.now ≤ size terms.old }
    ensures builds { Builds terms.old terms.new }
    ensures within { IfOk result (λ r. r.0 < size terms.new) }
    ensures value { Gives terms.new result (λ w r. at w r ≡ marked_on ends_count (bits w marks.now) (forwarding_of w
        forwarding.now)) }
{
    let sends = sym_sends(terms, marks, forwarding.next.as_slice())?;
    if ends_count {
        either(terms, forwarding.ends, sends)
    } else {
        Ok(sends)
    }
}

// The marks of all routers one layer on.
#[tactic(auto, using(crate::proofs::Tables::layer_steps))]
fn sym_layer(
    alloc: Global,
    terms: &mut Terms,
    marks: &[NodeId],
    ends_count: bool,
    table: &[SymForwarding],
) -> Result<List<NodeId>, AllocError>
    requires marks { ids_end marks.now ≤ size terms.old }
    requires nodes { table_end table.now ≤ size terms.old }
    ensures builds { Builds terms.old terms.new }
    ensures within { IfOk result (λ r. ids_end r ≤ size terms.new) }
    ensures value { Gives terms.new result (λ w r. bits w r ≡
        map (marked_on ends_count (bits w marks.now)) (table_of w table.now)) }
{
    let mut out = List::new(alloc);
    for forwarding in table {
        let mark = sym_mark(terms, marks, ends_count, forwarding)?;
        put(&mut out, mark)?;
    }
    Ok(out)
}

// The mark of a router in the first layer.
fn first_mark(
    terms: &mut Terms,
    ends_count: bool,
    forwarding: &SymForwarding,
) -> Result<NodeId, AllocError>
    requires { forwarding_end forwarding.now ≤ size terms.old }
    ensures builds { Builds terms.old terms.new }
    ensures within { IfOk result (λ r. r.0 < size terms.new) }
    ensures value { Gives terms.new result (λ w r. at w r ≡ marked_first ends_count (forwarding_of w forwarding.now)) }
{
    if ends_count {
        Ok(forwarding.ends)
    } else {
        constant_node(terms, true)
    }
}

// The first layer.
#[tactic(auto, using(crate::proofs::Tables::layer_steps))]
fn first_layer(
    alloc: Global,
    terms: &mut Terms,
    ends_count: bool,
    table: &[SymForwarding],
) -> Result<List<NodeId>, AllocError>
    requires { table_end table.now ≤ size terms.old }
    ensures builds { Builds terms.old terms.new }
    ensures within { IfOk result (λ r. ids_end r ≤ size terms.new) }
    ensures value { Gives terms.new result (λ w r. bits w r ≡ map (marked_first ends_count) (table_of w table.now)) }
{
    let mut out = List::new(alloc);
    for forwarding in table {
        let mark = first_mark(terms, ends_count, forwarding)?;
        put(&mut out, mark)?;
    }
    Ok(out)
}

// The marks of the layer of so many hops.
#[tactic(auto, using(crate::proofs::Tables::layered_steps))]
fn sym_layers(
    alloc: Global,
    terms: &mut Terms,
    ends_count: bool,
    table: &[SymForwarding],
    hops: usize,
) -> Result<List<NodeId>, AllocError>
    requires { table_end table.now ≤ size terms.old }
    ensures builds { Builds terms.old terms.new }
    ensures within { IfOk result (λ r. ids_end r ≤ size terms.new) }
    ensures value { Gives terms.new result (λ w r. bits w r ≡ layered ends_count (table_of w table.now) hops) }
{
    let mut marks = first_layer(alloc, terms, ends_count, table)?;
    for hop in 0..hops {
        marks = sym_layer(alloc, terms, marks.as_slice(), ends_count, table)?;
    }
    Ok(marks)
}

/// Whether a walk from the router ends as the question asks.
#[tactic(auto, using(crate::proofs::Tables::arrives_layers))]
pub(crate) fn sym_arrives(
    alloc: Global,
    terms: &mut Terms,
    table: &[SymForwarding],
    router: u32,
) -> Result<NodeId, AllocError>
    requires { table_end table.now ≤ size terms.old }
    ensures builds { Builds terms.old terms.new }
    ensures within { IfOk result (λ r. r.0 < size terms.new) }
    ensures value { Gives terms.new result (λ w r. at w r ≡ arrives (table_of w table.now) router) }
{
    let marks = sym_layers(alloc, terms, true, table, table.len())?;
    sym_known(terms, marks.as_slice(), router)
}

/// Whether a walk from the router comes back to one.
#[tactic(auto, using(crate::proofs::Tables::loops_layers))]
pub fn sym_loops(
    alloc: Global,
    terms: &mut Terms,
    table: &[SymForwarding],
    router: u32,
) -> Result<NodeId, AllocError>
    requires { table_end table.now ≤ size terms.old }
    ensures builds { Builds terms.old terms.new }
    ensures within { IfOk result (λ r. r.0 < size terms.new) }
    ensures value { Gives terms.new result (λ w r. at w r ≡ loops (table_of w table.now) router) }
{
    let marks = sym_layers(alloc, terms, false, table, table.len())?;
    sym_known(terms, marks.as_slice(), router)
}

/// Whether a walk from the router has so many hops.
#[tactic(auto, using(crate::proofs::Tables::goes_layers))]
pub(crate) fn sym_goes(
    alloc: Global,
    terms: &mut Terms,
    table: &[SymForwarding],
    router: u32,
    hops: usize,
) -> Result<NodeId, AllocError>
    requires { table_end table.now ≤ size terms.old }
    ensures builds { Builds terms.old terms.new }
    ensures within { IfOk result (λ r. r.0 < size terms.new) }
    ensures value { Gives terms.new result (λ w r. at w r ≡ known (going (table_of w table.now) hops) router) }
{
    let marks = sym_layers(alloc, terms, false, table, hops)?;
    sym_known(terms, marks.as_slice(), router)
}
