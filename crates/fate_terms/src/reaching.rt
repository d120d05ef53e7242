//! To which routers a packet comes, as terms: the marks of all routers, hop by hop from the start, each layer at the cost
//! of the edges.

ghost use Rattle.std.specs.Prelude.{◌≡◌, ◌↔◌, ◌&&◌, ◌<◌, ◌≤◌, true, IfOk, length};
ghost use Rattle.std.specs.List.{list_any};
ghost use Rattle.term_store.specs.Terms.{at, size};
ghost use Rattle.term_store.specs.Reading.{Builds, Gives};
ghost use Rattle.term_arith.specs.Bits.{bits, ids_end};
ghost use Rattle.sym_forwarding.specs.Forwardings.{sends_to};
ghost use Rattle.sym_forwarding.specs.Symbolic.{edge_of, edges_end, edges_of, forwarding_end, forwarding_of};
ghost use Rattle.sym_forwarding.specs.Symbolic.{table_end, table_of};
ghost use Rattle.fate_terms.specs.Reaching.{AreReached, AreSpread, ComesFrom, ComesOn, EndsAmong, EndsIn, GoesOver, IsStart};

use mw_text::List;
use std::alloc::{AllocError, Global};
use sym_walk::{SymEdge, SymForwarding};
use term_arith::gates::{both, constant_node, either};
use term_arith::lists::put;
use term_store::{NodeId, Terms};

// ---- over edges

// Whether the edge leads to that router.
fn sym_leads_to(terms: &mut Terms, edge: &SymEdge, router: u32) -> Result<NodeId, AllocError>
    requires { edge.now.when.0 < size terms.old }
    ensures builds { Builds terms.old terms.new }
    ensures within { IfOk result (λ r. r.0 < size terms.new) }
    ensures value { Gives terms.new result (λ w r. at w r ≡ sends_to router (edge_of w edge.now)) }
{
    if edge.to == router {
        Ok(edge.when)
    } else {
        constant_node(terms, false)
    }
}

// Whether one of the edges does.
#[tactic(auto, using(sym_forwarding::proofs::Tables::edge_steps))]
fn sym_sends_to(terms: &mut Terms, next: &[SymEdge], router: u32) -> Result<NodeId, AllocError>
    requires { edges_end next.now ≤ size terms.old }
    ensures builds { Builds terms.old terms.new }
    ensures within { IfOk result (λ r. r.0 < size terms.new) }
    ensures value { Gives terms.new result (λ w r. at w r ≡ list_any (sends_to router) (edges_of w next.now)) }
{
    let mut any = constant_node(terms, false)?;
    for edge in next {
        let leads = sym_leads_to(terms, edge, router)?;
        any = either(terms, any, leads)?;
    }
    Ok(any)
}

// Whether a router is marked and sends the packet to the other.
fn sym_sent(
    terms: &mut Terms,
    mark: NodeId,
    forwarding: &SymForwarding,
    router: u32,
) -> Result<NodeId, AllocError>
    requires mark { mark.0 < size terms.old }
    requires nodes { forwarding_end forwarding.now ≤ size terms.old }
    ensures builds { Builds terms.old terms.new }
    ensures within { IfOk result (λ r. r.0 < size terms.new) }
    ensures value { Gives terms.new result (λ w r.
        at w r ≡ (at w mark && list_any (sends_to router) (forwarding_of w forwarding.now).next)) }
{
    let sends = sym_sends_to(terms, forwarding.next.as_slice(), router)?;
    both(terms, mark, sends)
}

// The same of the router at that place.
#[tactic(auto, using(crate::proofs::Spreading::over_steps))]
fn sym_over(
    terms: &mut Terms,
    marks: &[NodeId],
    table: &[SymForwarding],
    router: u32,
    via: usize,
) -> Result<NodeId, AllocError>
    requires marks { ids_end marks.now ≤ size terms.old }
    requires nodes { table_end table.now ≤ size terms.old }
    requires long { length marks.now ≡ length table.now }
    requires there { via < length table.now }
    ensures builds { Builds terms.old terms.new }
    ensures within { IfOk result (λ r. r.0 < size terms.new) }
    ensures value { Gives terms.new result (λ w r.
        at w r ≡ true ↔ GoesOver (bits w marks.now) (table_of w table.now) router via) }
{
    sym_sent(terms, marks[via], &table[via], router)
}

// Whether one that is marked sends it to the router.
fn sym_from(
    terms: &mut Terms,
    marks: &[NodeId],
    table: &[SymForwarding],
    router: u32,
) -> Result<NodeId, AllocError>
    requires marks { ids_end marks.now ≤ size terms.old }
    requires nodes { table_end table.now ≤ size terms.old }
    requires long { length marks.now ≡ length table.now }
    ensures builds { Builds terms.old terms.new }
    ensures within { IfOk result (λ r. r.0 < size terms.new) }
    ensures value { Gives terms.new result (λ w r.
        at w r ≡ true ↔ ComesFrom (bits w marks.now) (table_of w table.now) router (length table.now)) }
{
    let mut any = constant_node(terms, false)?;
    for via in 0..table.len() {
        let over = sym_over(terms, marks, table, router, via)?;
        let more = either(terms, any, over)?;
        any = more;
    }
    Ok(any)
}

// ---- hop by hop

// The mark of a router one hop on.
#[tactic(auto, using(crate::proofs::Spreading::on_steps))]
fn sym_on(
    terms: &mut Terms,
    marks: &[NodeId],
    table: &[SymForwarding],
    router: u32,
) -> Result<NodeId, AllocError>
    requires marks { ids_end marks.now ≤ size terms.old }
    requires nodes { table_end table.now ≤ size terms.old }
    requires long { length marks.now ≡ length table.now }
    requires there { router < length table.now }
    ensures builds { Builds terms.old terms.new }
    ensures within { IfOk result (λ r. r.0 < size terms.new) }
    ensures value { Gives terms.new result (λ w r.
        at w r ≡ true ↔ ComesOn (bits w marks.now) (table_of w table.now) router) }
{
    let from = sym_from(terms, marks, table, router)?;
    either(terms, marks[router as usize], from)
}

// The marks of all routers one hop on.
fn sym_spread(
    alloc: Global,
    terms: &mut Terms,
    marks: &[NodeId],
    table: &[SymForwarding],
    routers: u32,
) -> Result<List<NodeId>, AllocError>
    requires marks { ids_end marks.now ≤ size terms.old }
    requires nodes { table_end table.now ≤ size terms.old }
    requires long { length marks.now ≡ length table.now }
    requires count { routers ≡ length table.now }
    ensures builds { Builds terms.old terms.new }
    ensures within { IfOk result (λ ids. ids_end ids ≤ size terms.new) }
    ensures long { IfOk result (λ ids. length ids ≡ length table.now) }
    ensures value { Gives terms.new result (λ w ids.
        AreSpread (bits w marks.now) (table_of w table.now) (bits w ids)) }
{
    let mut later = List::new(alloc);
    for router in 0..routers {
        let mark = sym_on(terms, marks, table, router)?;
        put(&mut later, mark)?;
    }
    Ok(later)
}

// The start alone is marked.
fn start_marks(
    alloc: Global,
    terms: &mut Terms,
    start: u32,
    routers: u32,
) -> Result<List<NodeId>, AllocError>
    ensures builds { Builds terms.old terms.new }
    ensures within { IfOk result (λ ids. ids_end ids ≤ size terms.new) }
    ensures long { IfOk result (λ ids. length ids ≡ routers) }
    ensures value { Gives terms.new result (λ w ids. IsStart start (bits w ids)) }
{
    let mut marks = List::new(alloc);
    for router in 0..routers {
        let mark = constant_node(terms, start == router)?;
        put(&mut marks, mark)?;
    }
    Ok(marks)
}

/// The marks of the routers to which a packet comes that begins at the start, where the table has what each of so many
/// routers does with it.
///
/// # Errors
/// Memory was refused.
pub fn sym_reached(
    alloc: Global,
    terms: &mut Terms,
    table: &[SymForwarding],
    start: u32,
    routers: u32,
) -> Result<List<NodeId>, AllocError>
    requires nodes { table_end table.now ≤ size terms.old }
    requires count { routers ≡ length table.now }
    ensures builds { Builds terms.old terms.new }
    ensures within { IfOk result (λ ids. ids_end ids ≤ size terms.new) }
    ensures long { IfOk result (λ ids. length ids ≡ length table.now) }
    ensures value { Gives terms.new result (λ w ids.
        AreReached (table_of w table.now) start (length table.now) (bits w ids)) }
{
    let mut marks = start_marks(alloc, terms, start, routers)?;
    for hop in 0..table.len() {
        let later = sym_spread(alloc, terms, marks.as_slice(), table, routers)?;
        marks = later;
    }
    Ok(marks)
}

// ---- ends

// Whether a router is marked and a walk may end there.
fn sym_ended(
    terms: &mut Terms,
    mark: NodeId,
    forwarding: &SymForwarding,
) -> Result<NodeId, AllocError>
    requires mark { mark.0 < size terms.old }
    requires nodes { forwarding_end forwarding.now ≤ size terms.old }
    ensures builds { Builds terms.old terms.new }
    ensures within { IfOk result (λ r. r.0 < size terms.new) }
    ensures value { Gives terms.new result (λ w r. at w r ≡ (at w mark && (forwarding_of w forwarding.now).ends)) }
{
    both(terms, mark, forwarding.ends)
}

// The same of the router at that place.
#[tactic(auto, using(crate::proofs::Spreading::ended_steps))]
fn sym_ends_in(
    terms: &mut Terms,
    marks: &[NodeId],
    table: &[SymForwarding],
    router: usize,
) -> Result<NodeId, AllocError>
    requires marks { ids_end marks.now ≤ size terms.old }
    requires nodes { table_end table.now ≤ size terms.old }
    requires long { length marks.now ≡ length table.now }
    requires there { router < length table.now }
    ensures builds { Builds terms.old terms.new }
    ensures within { IfOk result (λ r. r.0 < size terms.new) }
    ensures value { Gives terms.new result (λ w r.
        at w r ≡ true ↔ EndsIn (bits w marks.now) (table_of w table.now) router) }
{
    sym_ended(terms, marks[router], &table[router])
}

/// Whether a walk may end at one of the routers to which the packet comes.
///
/// # Errors
/// Memory was refused.
pub fn sym_ends(
    terms: &mut Terms,
    marks: &[NodeId],
    table: &[SymForwarding],
) -> Result<NodeId, AllocError>
    requires marks { ids_end marks.now ≤ size terms.old }
    requires nodes { table_end table.now ≤ size terms.old }
    requires long { length marks.now ≡ length table.now }
    ensures builds { Builds terms.old terms.new }
    ensures within { IfOk result (λ r. r.0 < size terms.new) }
    ensures value { Gives terms.new result (λ w r.
        at w r ≡ true ↔ EndsAmong (bits w marks.now) (table_of w table.now) (length table.now)) }
{
    let mut any = constant_node(terms, false)?;
    for router in 0..table.len() {
        let ends = sym_ends_in(terms, marks, table, router)?;
        let more = either(terms, any, ends)?;
        any = more;
    }
    Ok(any)
}
