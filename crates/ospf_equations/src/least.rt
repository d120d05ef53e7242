//! What internal routes cost at least, as a term. With failed links an internal route only becomes dearer than with none,
//! so none costs less than the distance to the nearest interface that advertises its prefix. That follows from what all
//! routers hold; a term that says so spares a search the costs below.

ghost use Rattle.std.specs.Prelude.{◌≡◌, ◌*◌, ◌+◌, ◌≤◌, ◌<◌, IfOk, length, not, true};
ghost use Rattle.std.specs.List.{list_all};
ghost use Rattle.route_record.specs.declared.Tables.{Tables as TablesOf};
ghost use Rattle.route_record.specs.declared.TheConstants.{LENGTHS};
ghost use Rattle.route_record.specs.declared.tracked.Tracked.{Tracked as TrackedOf};
ghost use Rattle.net_parts.specs.Ospf as model;
ghost use Rattle.sym_policy.specs.Held.{failures_of};
ghost use Rattle.sym_policy.specs.Records.{prefix_of as prefix_read};
ghost use Rattle.sym_rib.specs.Worlds.{slots_end};
ghost use Rattle.ospf_equations.specs.Equations.{StandFor};
ghost use Rattle.ospf_equations.specs.Least.{begins_at, holds_cheaper, least_of, none_cheaper, rises_over};
ghost use Rattle.ospf_equations.specs.Levels.{of_length};
ghost use Rattle.ospf_equations.specs.Reached.{AreHeld};
ghost use Rattle.term_store.specs.Terms.{at, size};
ghost use Rattle.term_store.specs.Reading.{Builds, Gives};
ghost use Rattle.term_arith.specs.Bits.{ids_end};

use crate::costs::{Failed, Graph, costs_to};
use crate::levels::sym_within;
use crate::limits::{AllLimits, NO_ROUTE};
use crate::origins::SlotPlace;
use mw_text::{List, Prefix};
use net_model::{Adjacency, Net, OspfInterface};
use net_parts::ospf::advertisement;
use std::alloc::{AllocError, Global};
use sym_rib::prefixes::sym_same_prefix;
use sym_rib::{SymTables, slot_for};
use term_arith::gates::{both, constant_node, implies, negate};
use term_store::{NodeId, Terms};

// What a router's route costs at least; 0 where nothing is known.
fn least_at(least: &[u32], router: u32) -> u32
    ensures { result ≡ least_of least.now router }
{
    match least.get(router as usize) {
        None => 0,
        Some(cost) => *cost,
    }
}

// Whether the costs of two adjacent routers are no further apart than the link costs.
fn rises(least: &[u32], a: &Adjacency) -> bool
    ensures { result ≡ rises_over least.now a.now }
{
    u64::from(least_at(least, a.from.router))
        <= u64::from(least_at(least, a.to.router)) + u64::from(a.cost)
}

// The same of all adjacencies.
fn all_rise(least: &[u32], adjacencies: &[Adjacency]) -> bool
    ensures { result ≡ list_all (rises_over least.now) adjacencies.now }
{
    adjacencies.iter().all(|a| rises(least, a))
}

// Whether an interface, if it advertises the prefix, costs no less than its router.
fn begins(least: &[u32], p: &Prefix, x: &OspfInterface) -> bool
    ensures { result ≡ begins_at least.now p.now x.now }
{
    advertisement(x) != *p || least_at(least, x.at.id.router) <= x.cost
}

// The same of all interfaces.
fn all_begin(least: &[u32], p: &Prefix, interfaces: &[OspfInterface]) -> bool
    ensures { result ≡ list_all (begins_at least.now p.now) interfaces.now }
{
    interfaces.iter().all(|x| begins(least, p, x))
}

// The lesser costs of two lists, where the other one has some.
fn keep_lesser(least: &mut [u32], others: &[u32]) {
    for at in 0..least.len() {
        if at < others.len() && others[at] < least[at] {
            least[at] = others[at];
        }
    }
}

// What each router's route costs at least to the interfaces that advertise a prefix, while no link has failed.
fn least_to(alloc: Global, net: &Net, graph: &Graph, p: &Prefix) -> Result<List<u32>, AllocError> {
    let mut least = List {
        items: vec![in alloc; NO_ROUTE; net.routers().len()]?,
    };
    for x in net.ospf_interfaces() {
        if advertisement(x) == *p {
            let none = Failed {
                first: None,
                second: None,
            };
            let costs = costs_to(alloc, graph, x.at.id.router, x.cost, &none)?;
            keep_lesser(&mut least.items, costs.as_slice());
        }
    }
    Ok(least)
}

// Whether no internal route for the prefix can cost less than these costs by router.
fn are_least(net: &Net, p: &Prefix, least: &[u32]) -> bool
    ensures over { result ≡ true → list_all (rises_over least.now) (model.adjacencies net.now.files) ≡ true }
    ensures origins { result ≡ true →
        list_all (begins_at least.now p.now) (model.ospf_interfaces net.now.files) ≡ true }
{
    all_rise(least, net.adjacencies()) && all_begin(least, p, net.ospf_interfaces())
}

// Whether a router's internal route at a length, if it holds one, costs that at least.
fn sym_dear(
    terms: &mut Terms,
    tables: &SymTables<'_>,
    router: u32,
    len: u8,
    least: u32,
) -> Result<NodeId, AllocError>
    requires long { len ≤ 32 }
    requires tables { slots_end tables.now.slots.now ≤ size terms.old }
    ensures builds { Builds terms.old terms.new }
    ensures within { IfOk result (λ r. r.0 < size terms.new) }
    ensures value { Gives terms.new result (λ w r. (tracked : TrackedOf) (real : TablesOf) →
        StandFor w tracked tables.now real → at w r ≡ not (holds_cheaper real (of_length len) least router)) }
{
    if least == 0 {
        return constant_node(terms, true);
    }
    match slot_for(tables, router, len) {
        None => constant_node(terms, true),
        Some(slot) => {
            let less = sym_within(terms, &slot.ospf, least - 1)?;
            negate(terms, less)
        }
    }
}

// The same of all routers.
#[tactic(auto, using(sym_ospf::proofs::EquationTests::all_steps))]
fn sym_all_dear(
    terms: &mut Terms,
    tables: &SymTables<'_>,
    len: u8,
    least: &[u32],
) -> Result<NodeId, AllocError>
    requires long { len ≤ 32 }
    requires tables { slots_end tables.now.slots.now ≤ size terms.old }
    ensures builds { Builds terms.old terms.new }
    ensures within { IfOk result (λ r. r.0 < size terms.new) }
    ensures value { Gives terms.new result (λ w r. (tracked : TrackedOf) (real : TablesOf) →
        StandFor w tracked tables.now real →
        at w r ≡ none_cheaper real (of_length len) least.now tables.now.routers) }
{
    let mut all = constant_node(terms, true)?;
    for router in 0..tables.routers {
        let here = sym_dear(terms, tables, router, len, least_at(least, router))?;
        all = both(terms, all, here)?;
    }
    Ok(all)
}

// True where each OSPF route of some tables for the prefix of that length of a destination is the one that its router
// holds: if it is this prefix, none costs less than these costs by router.
fn sym_dearer_by(
    terms: &mut Terms,
    place: &SlotPlace<'_>,
    tables: &SymTables<'_>,
    p: &Prefix,
    least: &[u32],
) -> Result<NodeId, AllocError>
    requires long { place.now.len ≤ 32 }
    requires wide { length place.now.dst.now.nodes.items ≡ 32 }
    requires nodes { ids_end place.now.dst.now.nodes.items ≤ size terms.old }
    requires tables { slots_end tables.now.slots.now ≤ size terms.old }
    requires routers { tables.now.routers ≡ length place.now.net.now.files }
    ensures builds { Builds terms.old terms.new }
    ensures within { IfOk result (λ r. r.0 < size terms.new) }
    ensures value { Gives terms.new result (λ w r. (real : TablesOf) →
        StandFor w place.now.net.now.tracked tables.now real → length real.slots ≡ LENGTHS * length place.now.net.now.files →
        AreHeld place.now.net.now.files (failures_of w place.now.sym.now) real
        (prefix_read w place.now.dst.now place.now.len) → at w r ≡ true) }
{
    place.net.routers();
    if !are_least(place.net, p, least) {
        return constant_node(terms, true);
    }
    let here = sym_same_prefix(terms, p, place.dst, place.len)?;
    let dear = sym_all_dear(terms, tables, place.len, least)?;
    let so = implies(terms, here, dear)?;
    Ok(so)
}

// The same with the costs to an interface, if limits are looked at for what it advertises.
fn sym_dearer_to(
    alloc: Global,
    terms: &mut Terms,
    place: &SlotPlace<'_>,
    tables: &SymTables<'_>,
    limits: &AllLimits,
    x: &OspfInterface,
) -> Result<NodeId, AllocError>
    requires long { place.now.len ≤ 32 }
    requires wide { length place.now.dst.now.nodes.items ≡ 32 }
    requires nodes { ids_end place.now.dst.now.nodes.items ≤ size terms.old }
    requires tables { slots_end tables.now.slots.now ≤ size terms.old }
    requires routers { tables.now.routers ≡ length place.now.net.now.files }
    ensures builds { Builds terms.old terms.new }
    ensures within { IfOk result (λ r. r.0 < size terms.new) }
    ensures value { Gives terms.new result (λ w r. (real : TablesOf) →
        StandFor w place.now.net.now.tracked tables.now real → length real.slots ≡ LENGTHS * length place.now.net.now.files →
        AreHeld place.now.net.now.files (failures_of w place.now.sym.now) real
        (prefix_read w place.now.dst.now place.now.len) → at w r ≡ true) }
{
    let p = advertisement(x);
    if p.len != place.len || !limits.are_for(x) {
        return constant_node(terms, true);
    }
    let least = least_to(alloc, place.net, limits.graph(), &p)?;
    let so = sym_dearer_by(terms, place, tables, &p, least.as_slice())?;
    Ok(so)
}

/// True where each OSPF route of some tables for the prefix of that length of a destination is the one that its router
/// holds: no internal one of them costs less than a route to the nearest interface that advertises the prefix, while no
/// link has failed (RFC 2328, section 16.1). Prefixes for which no limits are looked at are passed over, and so is the
/// place's router. Whatever is looked at, the term excludes nothing: it helps a search alone.
pub fn sym_dearer(
    alloc: Global,
    terms: &mut Terms,
    place: &SlotPlace<'_>,
    tables: &SymTables<'_>,
    limits: &AllLimits,
) -> Result<NodeId, AllocError>
    requires long { place.now.len ≤ 32 }
    requires wide { length place.now.dst.now.nodes.items ≡ 32 }
    requires nodes { ids_end place.now.dst.now.nodes.items ≤ size terms.old }
    requires tables { slots_end tables.now.slots.now ≤ size terms.old }
    requires routers { tables.now.routers ≡ length place.now.net.now.files }
    ensures builds { Builds terms.old terms.new }
    ensures within { IfOk result (λ r. r.0 < size terms.new) }
    ensures value { Gives terms.new result (λ w r. (real : TablesOf) →
        StandFor w place.now.net.now.tracked tables.now real → length real.slots ≡ LENGTHS * length place.now.net.now.files →
        AreHeld place.now.net.now.files (failures_of w place.now.sym.now) real
        (prefix_read w place.now.dst.now place.now.len) → at w r ≡ true) }
{
    let interfaces = place.net.ospf_interfaces();
    let mut all = constant_node(terms, true)?;
    for x in interfaces {
        let so = sym_dearer_to(alloc, terms, place, tables, limits, x)?;
        all = both(terms, all, so)?;
    }
    Ok(all)
}
