//! Whether a route comes from an external peer, as terms.

ghost use Rattle.std.specs.Prelude.{◌≡◌, ◌==◌, ℕ, ◌+◌, ◌*◌, ◌^◌, ◌<◌, ◌≤◌, Bool, false, true, if◌then◌else◌, IfOk, length, option_copied};
ghost use Rattle.std.specs.Option.{option_map_or};
ghost use Rattle.term_store.specs.Terms.{size, at};
ghost use Rattle.term_store.specs.Reading.{Builds, Gives};
ghost use Rattle.term_arith.specs.Bits.{number, ids_end};
ghost use Rattle.net_parts.specs.Sessions.{ends_of};
ghost use Rattle.bgp_shapes.specs.Crossings.{end_numbered, is_from};
ghost use Rattle.sym_policy.specs.Held.{bgp_end, bgp_of};
ghost use Rattle.sym_rib.specs.Worlds.{slots_end};
ghost use Rattle.export_terms.specs.Routes.{node_in, routes_read};
ghost use Rattle.export_terms.specs.Shapes as shapes;

use export_asks::AskPeer;
use ios_ast::File;
use mw_text::Addr;
use net_model::{Far, Net, SessionEnd};
use net_parts::ends::{is_towards, neighbour_of};
use std::alloc::{AllocError, Global};
use sym_policy::SymBgp;
use sym_rib::{SymTables, slot_for};
use term_arith::gates::{both, constant_node, select};
use term_arith::{Bits, equal_number};
use term_store::{NodeId, Terms};

/// What one step of the traces goes by: the files and the ends of their sessions, the peer at which traces are to end, and
/// the node of each router that says whether the trace of its route does.
#[derive(Clone, Copy)]
struct Step<'a> {
    files: &'a [File],
    ends: &'a [SessionEnd],
    peer: &'a AskPeer,
    next: &'a [NodeId],
}

/// The number of an address in a field that says by its highest bit that there is one.
fn numbered(a: Addr) -> u64
    ensures { result ≡ 2 ^ 32 + a.0 }
{
    0x1_0000_0000 + u64::from(a.0)
}

/// Whether a route was learnt over an end, by the number of its peer.
#[tactic(auto, using(sym_bgp::proofs::WaySteps::equal_back))]
fn sym_is_from(
    terms: &mut Terms,
    files: &[File],
    router: u32,
    from: &Bits,
    end: &SessionEnd,
) -> Result<NodeId, AllocError>
    requires { ids_end from.now.nodes.items ≤ size terms.old }
    ensures builds { Builds terms.old terms.new }
    ensures within { IfOk result (λ r. r.0 < size terms.new) }
    ensures value { Gives terms.new result (λ w r. at w r
        ≡ is_from files.now router (number w from.now.nodes.items) end.now) }
{
    if end.router != router {
        return constant_node(terms, false);
    }
    match neighbour_of(files, end) {
        None => constant_node(terms, false),
        Some(neighbour) => equal_number(terms, from.nodes.as_slice(), numbered(neighbour.addr)),
    }
}

/// The node at a place, and false where there is none.
pub(crate) fn node_of(terms: &mut Terms, nodes: &[NodeId], place: u32) -> Result<NodeId, AllocError>
    requires { ids_end nodes.now ≤ size terms.old }
    ensures builds { Builds terms.old terms.new }
    ensures within { IfOk result (λ r. r.0 < size terms.new) }
    ensures value { Gives terms.new result (λ w r. at w r ≡ node_in w nodes.now place) }
{
    match nodes.get(place as usize) {
        None => constant_node(terms, false),
        Some(node) => Ok(*node),
    }
}

/// Whether a route that came over the end is from the peer, or from a router whose route is, by the nodes of these.
fn sym_leads_to(terms: &mut Terms, step: &Step<'_>, end: &SessionEnd) -> Result<NodeId, AllocError>
    requires ends { step.now.ends.now ≡ ends_of step.now.files.now }
    requires next { ids_end step.now.next.now ≤ size terms.old }
    ensures builds { Builds terms.old terms.new }
    ensures within { IfOk result (λ r. r.0 < size terms.new) }
    ensures value { Gives terms.new result (λ w r. at w r
        ≡ shapes.leads_to step.now.files.now step.now.peer.now (node_in w step.now.next.now) end.now) }
{
    match end.far {
        Far::Outside => constant_node(
            terms,
            is_towards(step.files, step.peer.router, step.peer.addr, end),
        ),
        Far::Inside(at) => match step.ends.get(at as usize) {
            None => constant_node(terms, false),
            Some(far) => node_of(terms, step.next, far.router),
        },
    }
}

/// The same where the route of the router came over this end, else what is known of the other ends.
fn sym_over(
    terms: &mut Terms,
    step: &Step<'_>,
    router: u32,
    from: &Bits,
    end: &SessionEnd,
    rest: NodeId,
) -> Result<NodeId, AllocError>
    requires ends { step.now.ends.now ≡ ends_of step.now.files.now }
    requires next { ids_end step.now.next.now ≤ size terms.old }
    requires from { ids_end from.now.nodes.items ≤ size terms.old }
    requires rest { rest.0 < size terms.old }
    ensures builds { Builds terms.old terms.new }
    ensures within { IfOk result (λ r. r.0 < size terms.new) }
    ensures value { Gives terms.new result (λ w r. at w r
        ≡ (if is_from step.now.files.now router (number w from.now.nodes.items) end.now
        then shapes.leads_to step.now.files.now step.now.peer.now (node_in w step.now.next.now) end.now else at w rest)) }
{
    let here = sym_is_from(terms, step.files, router, from, end)?;
    let leads = sym_leads_to(terms, step, end)?;
    select(terms, here, leads, rest)
}

/// The same over the end by which the route of the router was learnt, by the number of its peer.
fn sym_learnt_over(
    terms: &mut Terms,
    step: &Step<'_>,
    router: u32,
    from: &Bits,
) -> Result<NodeId, AllocError>
    requires ends { step.now.ends.now ≡ ends_of step.now.files.now }
    requires next { ids_end step.now.next.now ≤ size terms.old }
    requires from { ids_end from.now.nodes.items ≤ size terms.old }
    ensures builds { Builds terms.old terms.new }
    ensures within { IfOk result (λ r. r.0 < size terms.new) }
    ensures value { Gives terms.new result (λ w r. at w r
        ≡ option_map_or (shapes.leads_to step.now.files.now step.now.peer.now (node_in w step.now.next.now))
        (end_numbered step.now.files.now router (number w from.now.nodes.items)) false) }
{
    let mut rest = constant_node(terms, false)?;
    for i in (0..step.ends.len()).rev() {
        let over = &step.ends[i];
        rest = sym_over(terms, step, router, from, over, rest)?;
    }
    Ok(rest)
}

/// One step of the trace of a route that a router may hold.
#[tactic(auto, using(crate::proofs::Layers::where_valid))]
fn sym_traced_by(
    terms: &mut Terms,
    step: &Step<'_>,
    router: u32,
    held: &SymBgp,
) -> Result<NodeId, AllocError>
    requires ends { step.now.ends.now ≡ ends_of step.now.files.now }
    requires next { ids_end step.now.next.now ≤ size terms.old }
    requires held { bgp_end held.now ≤ size terms.old }
    ensures builds { Builds terms.old terms.new }
    ensures within { IfOk result (λ r. r.0 < size terms.new) }
    ensures value { Gives terms.new result (λ w r. at w r
        ≡ shapes.traced_by step.now.files.now step.now.peer.now (node_in w step.now.next.now) router (bgp_of w held.now)) }
{
    let leads = sym_learnt_over(terms, step, router, &held.from)?;
    both(terms, held.valid, leads)
}

/// One step of the trace of the route of a router at a length.
fn sym_traced_at(
    terms: &mut Terms,
    net: &Net,
    peer: &AskPeer,
    next: &[NodeId],
    tables: &SymTables<'_>,
    len: u8,
    router: u32,
) -> Result<NodeId, AllocError>
    requires next { ids_end next.now ≤ size terms.old }
    requires slots { slots_end tables.now.slots.now ≤ size terms.old }
    ensures builds { Builds terms.old terms.new }
    ensures within { IfOk result (λ r. r.0 < size terms.new) }
    ensures value { Gives terms.new result (λ w r. at w r
        ≡ shapes.traced_by net.now.files peer.now (node_in w next.now) router (routes_read w tables.now len router)) }
{
    match slot_for(tables, router, len) {
        None => constant_node(terms, false),
        Some(slot) => {
            let step = Step {
                files: net.routers(),
                ends: net.ends(),
                peer,
                next,
            };
            sym_traced_by(terms, &step, router, &slot.bgp)
        }
    }
}

/// One step of the traces of all routers at a length, by router.
fn sym_layer(
    alloc: Global,
    terms: &mut Terms,
    net: &Net,
    peer: &AskPeer,
    next: &[NodeId],
    tables: &SymTables<'_>,
    len: u8,
) -> Result<Vec<NodeId>, AllocError>
    requires next { ids_end next.now ≤ size terms.old }
    requires slots { slots_end tables.now.slots.now ≤ size terms.old }
    ensures builds { Builds terms.old terms.new }
    ensures within { IfOk result (λ r. ids_end r.items ≤ size terms.new) }
    ensures count { IfOk result (λ r. length r.items ≡ length net.now.files) }
    ensures value { Gives terms.new result (λ w r. (router : ℕ) → router < length net.now.files → node_in w r.items router
        ≡ shapes.traced_by net.now.files peer.now (node_in w next.now) router (routes_read w tables.now len router)) }
{
    let mut nodes = Vec::new(alloc);
    for router in 0..net.routers().len() {
        let node = sym_traced_at(terms, net, peer, next, tables, len, router as u32)?;
        nodes.push(node)?;
    }
    Ok(nodes)
}

/// Whether the trace of the route of a router at a length ends at the peer.
pub(crate) fn sym_comes_from(
    alloc: Global,
    terms: &mut Terms,
    net: &Net,
    peer: &AskPeer,
    tables: &SymTables<'_>,
    len: u8,
    router: u32,
) -> Result<NodeId, AllocError>
    requires routers { tables.now.routers ≡ length net.now.files }
    requires slots { slots_end tables.now.slots.now ≤ size terms.old }
    ensures builds { Builds terms.old terms.new }
    ensures within { IfOk result (λ r. r.0 < size terms.new) }
    ensures value { Gives terms.new result (λ w r. at w r
        ≡ shapes.comes_from net.now.files (routes_read w tables.now len) peer.now (length net.now.files) router) }
{
    let mut nodes = Vec::new(alloc);
    for _step in 0..net.routers().len() {
        nodes = sym_layer(alloc, terms, net, peer, nodes.as_slice(), tables, len)?;
    }
    node_of(terms, nodes.as_slice(), router)
}

/// Whether the route of a router at a length comes from that peer. It does where no peer is named.
pub(crate) fn sym_learnt(
    alloc: Global,
    terms: &mut Terms,
    net: &Net,
    learnt: &Option<AskPeer>,
    tables: &SymTables<'_>,
    len: u8,
    router: u32,
) -> Result<NodeId, AllocError>
    requires routers { tables.now.routers ≡ length net.now.files }
    requires slots { slots_end tables.now.slots.now ≤ size terms.old }
    ensures builds { Builds terms.old terms.new }
    ensures within { IfOk result (λ r. r.0 < size terms.new) }
    ensures value { Gives terms.new result (λ w r. at w r
        ≡ shapes.shape_learnt net.now.files (routes_read w tables.now len) router learnt.now) }
{
    match learnt {
        None => constant_node(terms, true),
        Some(peer) => sym_comes_from(alloc, terms, net, peer, tables, len, router),
    }
}
