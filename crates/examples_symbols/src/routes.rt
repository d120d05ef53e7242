//! The calls that make routes: through a map, over links, into and out of a table.

ghost use Rattle.std.specs.Prelude.{◌≡◌, ◌≤◌, IfOk, length, true};
ghost use Rattle.term_store.specs.Terms.{size};
ghost use Rattle.term_arith.specs.Bits.{ids_end};
ghost use Rattle.sym_policy.specs.MapRecs.{HasMarks, HasTracked};
ghost use Rattle.sym_rib.specs.Slots.{slot_end};

use crate::fresh::{fresh_bgp, fresh_ospf, fresh_slot};
use crate::rows::{fresh_links, fresh_net, fresh_rows, has_rows};
use ios_ast::{Policies, RouteMap};
use mw_text::List;
use net_model::Net;
use route_record::{Side, Tracked};
use std::alloc::{AllocError, Global};
use sym_ospf::{sym_best, sym_resolve, sym_transfer};
use sym_policy::{SymBgp, SymMapRec, SymNet, SymOspf, sym_route_map};
use sym_rib::{SymRib, SymSlot, sym_entry, sym_originate, sym_redistribute};
use term_arith::gates::constant_node;
use term_arith::{Bits, fresh_bits};
use term_store::Terms;

/// Whether the record has a node for each tracked number and community.
fn has_marks(tracked: &Tracked, rec: &SymMapRec) -> bool
    ensures { result ≡ true → HasMarks tracked.now rec.now }
{
    rec.bgp.numbers.nodes.as_slice().len() == tracked.numbers.as_slice().len()
        && rec.bgp.communities.nodes.as_slice().len() == tracked.communities.as_slice().len()
}

/// Whether the route has a node for each number, community and cluster that is tracked in the network.
fn has_tracked(net: &Net, bgp: &SymBgp) -> bool
    ensures { result ≡ true → HasTracked net.now.tracked bgp.now }
{
    let tracked = net.tracked();
    bgp.numbers.nodes.as_slice().len() == tracked.numbers.as_slice().len()
        && bgp.communities.nodes.as_slice().len() == tracked.communities.as_slice().len()
        && bgp.clusters.nodes.as_slice().len() == tracked.clusters.as_slice().len()
}

/// What an external neighbour's map makes of a route to the prefix of length 16 of an address: first the variables of
/// the address, then whether the metric is of type 1, and the route.
fn through(
    alloc: Global,
    terms: &mut Terms,
    tracked: &Tracked,
    policies: &Policies,
    map: &RouteMap,
) -> Result<Option<SymMapRec>, AllocError> {
    let dst = fresh_bits(alloc, terms, 32)?;
    let type1 = terms.fresh()?;
    let bgp = fresh_bgp(alloc, terms, tracked)?;
    let rec = SymMapRec { bgp, type1 };
    if !has_marks(tracked, &rec) {
        return Ok(None);
    }
    let made = sym_route_map(
        alloc,
        terms,
        tracked,
        policies,
        map,
        &dst,
        16,
        &rec,
        Side::External,
    )?;
    Ok(Some(made))
}

/// What the first map of the last router makes of a route.
pub fn mapped(
    alloc: Global,
    terms: &mut Terms,
    net: &Net,
) -> Result<Option<SymMapRec>, AllocError> {
    let Some(file) = net.routers().last() else {
        return Ok(None);
    };
    match file.policies.maps.as_slice().first() {
        Some(map) => through(alloc, terms, net.tracked(), &file.policies, map),
        None => Ok(None),
    }
}

/// How far an address is from a router: first the failed links and the rows, then the address.
pub fn resolved(
    alloc: Global,
    terms: &mut Terms,
    net: &Net,
    router: u32,
) -> Result<Option<SymOspf>, AllocError> {
    let sym = fresh_net(alloc, terms, net)?;
    let a = fresh_bits(alloc, terms, 32)?;
    if !has_rows(net, &sym) {
        return Ok(None);
    }
    Ok(Some(sym_resolve(alloc, terms, net, &sym, router, &a)?))
}

/// The better of two routes.
pub fn best(alloc: Global, terms: &mut Terms) -> Result<SymOspf, AllocError> {
    let routes = fresh_rows(alloc, terms, 2)?;
    sym_best(alloc, terms, routes.as_slice())
}

/// A route over a link of that cost, behind whether the link is up.
pub fn transferred(alloc: Global, terms: &mut Terms, cost: u32) -> Result<SymOspf, AllocError> {
    let up = terms.fresh()?;
    let rec = fresh_ospf(alloc, terms)?;
    sym_transfer(alloc, terms, &rec, up, cost)
}

/// A destination, and what a router holds for its prefix of a length.
#[derive(Drop)]
struct Held {
    dst: Bits,
    slot: SymSlot,
    ghost wide: { length dst.nodes.items ≡ 32 },
}

fn fresh_held(alloc: Global, terms: &mut Terms, net: &Net) -> Result<Held, AllocError>
    ensures larger { size terms.old ≤ size terms.new }
    ensures dst { IfOk result (λ r. ids_end r.dst.nodes.items ≤ size terms.new) }
    ensures slot { IfOk result (λ r. slot_end r.slot ≤ size terms.new) }
{
    let dst = fresh_bits(alloc, terms, 32)?;
    let slot = fresh_slot(alloc, terms, net.tracked())?;
    Ok(Held { dst, slot })
}

/// The entry of a router's table for the prefix of a length, of which it is no own origin.
pub fn entry(
    alloc: Global,
    terms: &mut Terms,
    net: &Net,
    router: u32,
    len: u8,
) -> Result<SymRib, AllocError>
    requires { len ≤ 32 }
{
    let held = fresh_held(alloc, terms, net)?;
    let own = constant_node(terms, false)?;
    let down = fresh_links(alloc, terms, net)?;
    let sym = SymNet {
        down,
        igp: List::new(alloc),
    };
    sym_entry(
        alloc, terms, net, &sym, router, &held.dst, len, &held.slot, own,
    )
}

/// What BGP takes of the entry of a router.
pub fn originated(
    alloc: Global,
    terms: &mut Terms,
    net: &Net,
    router: u32,
    len: u8,
) -> Result<List<SymBgp>, AllocError>
    requires { len ≤ 32 }
{
    let held = fresh_held(alloc, terms, net)?;
    sym_originate(alloc, terms, net, router, &held.dst, len, &held.slot)
}

/// What OSPF takes of the entry of a router.
pub fn redistributed(
    alloc: Global,
    terms: &mut Terms,
    net: &Net,
    router: u32,
    len: u8,
) -> Result<List<SymOspf>, AllocError>
    requires { len ≤ 32 }
{
    let held = fresh_held(alloc, terms, net)?;
    if !has_tracked(net, &held.slot.bgp) {
        return Ok(List::new(alloc));
    }
    sym_redistribute(alloc, terms, net, router, &held.dst, len, &held.slot)
}
