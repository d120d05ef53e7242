//! Which routers reach an origin of an internal route over adjacencies that are up, as terms. That each router which holds
//! an internal route does follows from what all routers hold. A term that says so excludes routes that support one another
//! without an origin, which a search would try cost by cost.

ghost use Rattle.std.specs.Prelude.{◌≡◌, ℕ, ◌+◌, ◌*◌, ◌≤◌, ◌<◌, ◌&&◌, ◌||◌, IfOk, IfSome, List as ListOf, Some, true, length, map, not, slice_get};
ghost use Rattle.std.specs.List.{filter_map, list_any};
ghost use Rattle.mw_text.specs.declared.address.Prefix.{Prefix as PrefixOf};
ghost use Rattle.mw_text.specs.Members.{all_below};
ghost use Rattle.ios_ast.specs.declared.file.File.{File as FileOf};
ghost use Rattle.ios_ast.specs.declared.ospf.Ospf.{Ospf as OspfOf};
ghost use Rattle.route_record.specs.declared.Failures.{Failures as FailuresOf};
ghost use Rattle.route_record.specs.declared.Slot.{Slot as SlotOf};
ghost use Rattle.route_record.specs.declared.Tables.{Tables as TablesOf};
ghost use Rattle.route_record.specs.declared.TheConstants.{LENGTHS};
ghost use Rattle.route_record.specs.declared.tracked.Tracked.{Tracked as TrackedOf};
ghost use Rattle.net_parts.specs.Ospf as model;
ghost use Rattle.net_parts.specs.OspfRoutes.{own_origins};
ghost use Rattle.sym_ospf.specs.Rows.{is_internal};
ghost use Rattle.sym_policy.specs.Held.{failures_of, ospf_of, ospf_end};
ghost use Rattle.sym_policy.specs.Records.{prefix_of as prefix_read};
ghost use Rattle.sym_policy.specs.MapRecs.{HasTracked};
ghost use Rattle.sym_rib.specs.Into.{list_end};
ghost use Rattle.sym_rib.specs.Slots.{StandsForSlot, slot_end};
ghost use Rattle.sym_rib.specs.Worlds.{slots_end};
ghost use Rattle.ospf_equations.specs.Adjacent.{ups_end};
ghost use Rattle.ospf_equations.specs.Equations.{HaveTracked, StandFor};
ghost use Rattle.ospf_equations.specs.Levels.{of_length};
ghost use Rattle.ospf_equations.specs.Reached.{AreHeld, TellOrigins, TellReached, are_reached, has_internal, holds_internal};
ghost use Rattle.ospf_equations.specs.Reached.{is_led, is_origin, originates_internal, told, up_in, up_read};
ghost use Rattle.term_store.specs.Terms.{Reading, at, size};
ghost use Rattle.term_store.specs.Reading.{Builds, Gives};
ghost use Rattle.term_arith.specs.Bits.{ids_end};

use crate::adjacent::{SymAdjacency, sym_all_up};
use crate::origins::{SlotPlace, own_routes};
use mw_text::List;
use net_model::Net;
use net_parts::ends::file_of;
use std::alloc::{AllocError, Global};
use sym_policy::SymOspf;
use sym_rib::{SymSlot, SymTables, slot_for};
use term_arith::equal_number;
use term_arith::gates::{both, constant_node, either, implies, negate};
use term_arith::lists::put;
use term_store::{NodeId, Terms};

// Whether the route is there and is internal.
#[tactic(auto, using(crate::proofs::ReachedSteps::internal_is))]
fn sym_internal(terms: &mut Terms, rec: &SymOspf) -> Result<NodeId, AllocError>
    requires nodes { ospf_end rec.now ≤ size terms.old }
    ensures builds { Builds terms.old terms.new }
    ensures within { IfOk result (λ r. r.0 < size terms.new) }
    ensures value { Gives terms.new result (λ w r. at w r ≡ has_internal (ospf_of w rec.now)) }
{
    let internal = equal_number(terms, rec.kind.nodes.as_slice(), 0)?;
    both(terms, rec.valid, internal)
}

// Whether one of some is.
#[tactic(auto, using(crate::proofs::HoldingSteps::any_steps))]
fn sym_some_internal(terms: &mut Terms, own: &[SymOspf]) -> Result<NodeId, AllocError>
    requires own { list_end ospf_end own.now ≤ size terms.old }
    ensures builds { Builds terms.old terms.new }
    ensures within { IfOk result (λ r. r.0 < size terms.new) }
    ensures value { Gives terms.new result (λ w r. at w r
        ≡ list_any (λ r. is_internal r.kind) (filter_map (ospf_of w) own.now)) }
{
    let mut any = constant_node(terms, false)?;
    for rec in own {
        let here = sym_internal(terms, rec)?;
        any = either(terms, any, here)?;
    }
    Ok(any)
}

// Whether a router that runs OSPF originates one.
fn sym_own_internal(
    alloc: Global,
    terms: &mut Terms,
    place: &SlotPlace<'_>,
    slot: &SymSlot,
) -> Result<NodeId, AllocError>
    requires long { place.now.len ≤ 32 }
    requires wide { length place.now.dst.now.nodes.items ≡ 32 }
    requires nodes { ids_end place.now.dst.now.nodes.items ≤ size terms.old }
    requires down { ids_end place.now.sym.now.down ≤ size terms.old }
    requires rows { HasTracked place.now.net.now.tracked slot.now.bgp }
    requires slot { slot_end slot.now ≤ size terms.old }
    ensures builds { Builds terms.old terms.new }
    ensures within { IfOk result (λ r. r.0 < size terms.new) }
    ensures value { Gives terms.new result (λ w r. (file : FileOf) (process : OspfOf) (held : SlotOf) →
        slice_get place.now.net.now.files place.now.router ≡ Some file → file.ospf ≡ Some process →
        StandsForSlot w place.now.net.now.tracked slot.now held → at w r
        ≡ list_any (λ r. is_internal r.kind) (own_origins place.now.net.now.files (failures_of w place.now.sym.now)
        place.now.router file process (prefix_read w place.now.dst.now place.now.len) held)) }
{
    let own = own_routes(alloc, terms, place, slot)?;
    let some = sym_some_internal(terms, own.as_slice())?;
    Ok(some)
}

// The same of each router, whether it runs OSPF or not.
fn sym_originates(
    alloc: Global,
    terms: &mut Terms,
    place: &SlotPlace<'_>,
    slot: &SymSlot,
) -> Result<NodeId, AllocError>
    requires long { place.now.len ≤ 32 }
    requires wide { length place.now.dst.now.nodes.items ≡ 32 }
    requires nodes { ids_end place.now.dst.now.nodes.items ≤ size terms.old }
    requires down { ids_end place.now.sym.now.down ≤ size terms.old }
    requires rows { HasTracked place.now.net.now.tracked slot.now.bgp }
    requires slot { slot_end slot.now ≤ size terms.old }
    ensures builds { Builds terms.old terms.new }
    ensures within { IfOk result (λ r. r.0 < size terms.new) }
    ensures value { Gives terms.new result (λ w r. (held : SlotOf) →
        StandsForSlot w place.now.net.now.tracked slot.now held → at w r
        ≡ originates_internal place.now.net.now.files (failures_of w place.now.sym.now)
        (prefix_read w place.now.dst.now place.now.len) place.now.router held) }
{
    match file_of(place.net.routers(), place.router) {
        None => constant_node(terms, false),
        Some(file) => match &file.ospf {
            None => constant_node(terms, false),
            Some(_) => {
                let made = sym_own_internal(alloc, terms, place, slot)?;
                Ok(made)
            }
        },
    }
}

// Whether a router holds an internal route at a length.
fn sym_holds_internal(
    terms: &mut Terms,
    tables: &SymTables<'_>,
    router: u32,
    len: u8,
) -> Result<NodeId, AllocError>
    requires long { len ≤ 32 }
    requires tables { slots_end tables.now.slots.now ≤ size terms.old }
    ensures builds { Builds terms.old terms.new }
    ensures within { IfOk result (λ r. r.0 < size terms.new) }
    ensures value { Gives terms.new result (λ w r. (tracked : TrackedOf) (real : TablesOf) →
        StandFor w tracked tables.now real → at w r ≡ holds_internal real (of_length len) router) }
{
    match slot_for(tables, router, len) {
        None => constant_node(terms, false),
        Some(slot) => sym_internal(terms, &slot.ospf),
    }
}

// Whether it holds one and originates one.
fn sym_origin(
    alloc: Global,
    terms: &mut Terms,
    place: &SlotPlace<'_>,
    tables: &SymTables<'_>,
) -> Result<NodeId, AllocError>
    requires long { place.now.len ≤ 32 }
    requires wide { length place.now.dst.now.nodes.items ≡ 32 }
    requires nodes { ids_end place.now.dst.now.nodes.items ≤ size terms.old }
    requires down { ids_end place.now.sym.now.down ≤ size terms.old }
    requires rows { HaveTracked place.now.net.now.tracked tables.now.slots.now }
    requires tables { slots_end tables.now.slots.now ≤ size terms.old }
    ensures builds { Builds terms.old terms.new }
    ensures within { IfOk result (λ r. r.0 < size terms.new) }
    ensures value { Gives terms.new result (λ w r. (real : TablesOf) →
        StandFor w place.now.net.now.tracked tables.now real → at w r
        ≡ is_origin place.now.net.now.files (failures_of w place.now.sym.now) real
        (prefix_read w place.now.dst.now place.now.len) place.now.router) }
{
    match slot_for(tables, place.router, place.len) {
        None => constant_node(terms, false),
        Some(slot) => {
            let own = sym_originates(alloc, terms, place, slot)?;
            let held = sym_internal(terms, &slot.ospf)?;
            both(terms, held, own)
        }
    }
}

// The same of all routers.
#[tactic(auto, using(crate::proofs::ReachedSteps::node_steps))]
fn sym_origins(
    alloc: Global,
    terms: &mut Terms,
    place: &SlotPlace<'_>,
    tables: &SymTables<'_>,
) -> Result<List<NodeId>, AllocError>
    requires long { place.now.len ≤ 32 }
    requires wide { length place.now.dst.now.nodes.items ≡ 32 }
    requires nodes { ids_end place.now.dst.now.nodes.items ≤ size terms.old }
    requires down { ids_end place.now.sym.now.down ≤ size terms.old }
    requires rows { HaveTracked place.now.net.now.tracked tables.now.slots.now }
    requires tables { slots_end tables.now.slots.now ≤ size terms.old }
    ensures builds { Builds terms.old terms.new }
    ensures within { IfOk result (λ r. ids_end r ≤ size terms.new) }
    ensures long { IfOk result (λ r. length r ≡ tables.now.routers) }
    ensures value { Gives terms.new result (λ w r. (real : TablesOf) →
        StandFor w place.now.net.now.tracked tables.now real → (router : ℕ) → router < tables.now.routers →
        told w r router ≡ is_origin place.now.net.now.files (failures_of w place.now.sym.now) real
        (prefix_read w place.now.dst.now place.now.len) router) }
{
    let first = *place;
    let mut made = List::new(alloc);
    for router in 0..tables.routers {
        let at = SlotPlace { router, ..first };
        let node = sym_origin(alloc, terms, &at, tables)?;
        put(&mut made, node)?;
    }
    Ok(made)
}

// The node of a router, if there is one.
#[tactic(auto, using(crate::proofs::ReachedSteps::node_there))]
fn node_of(nodes: &[NodeId], router: u32) -> Option<NodeId>
    ensures value { result ≡ slice_get nodes.now router }
    ensures within { IfSome result (λ r. r.0 < ids_end nodes.now) }
{
    match nodes.get(router as usize) {
        None => None,
        Some(node) => Some(*node),
    }
}

// Whether a node is true, or that of the far router of an adjacency over which a router receives.
fn sym_or_led(
    terms: &mut Terms,
    any: NodeId,
    s: &SymAdjacency,
    router: u32,
    reached: &[NodeId],
) -> Result<NodeId, AllocError>
    requires any { any.0 < size terms.old }
    requires up { s.now.up.0 < size terms.old }
    requires reached { ids_end reached.now ≤ size terms.old }
    ensures builds { Builds terms.old terms.new }
    ensures within { IfOk result (λ r. r.0 < size terms.new) }
    ensures value { Gives terms.new result (λ w r. at w r ≡ (at w any || is_led w reached.now router s.now)) }
{
    if s.adjacency.from.router != router {
        return Ok(any);
    }
    match node_of(reached, s.adjacency.to.router) {
        None => Ok(any),
        Some(far) => {
            let led = both(terms, s.up, far)?;
            either(terms, any, led)
        }
    }
}

// Whether a node is true, or that of the far router of one of some adjacencies over which a router receives.
#[tactic(auto, using(crate::proofs::ReachedSteps::led_steps))]
fn sym_led(
    terms: &mut Terms,
    origin: NodeId,
    over: &[SymAdjacency],
    router: u32,
    reached: &[NodeId],
) -> Result<NodeId, AllocError>
    requires origin { origin.0 < size terms.old }
    requires over { ups_end over.now ≤ size terms.old }
    requires reached { ids_end reached.now ≤ size terms.old }
    ensures builds { Builds terms.old terms.new }
    ensures within { IfOk result (λ r. r.0 < size terms.new) }
    ensures value { Gives terms.new result (λ w r.
        at w r ≡ (at w origin || list_any (is_led w reached.now router) over.now)) }
{
    let mut any = origin;
    for s in over {
        any = sym_or_led(terms, any, s, router, reached)?;
    }
    Ok(any)
}

// The same of so many routers.
#[tactic(auto, using(crate::proofs::ReachedSteps::node_steps))]
fn sym_step(
    alloc: Global,
    terms: &mut Terms,
    over: &[SymAdjacency],
    origins: &[NodeId],
    reached: &[NodeId],
    count: u32,
) -> Result<List<NodeId>, AllocError>
    requires over { ups_end over.now ≤ size terms.old }
    requires origins { ids_end origins.now ≤ size terms.old }
    requires reached { ids_end reached.now ≤ size terms.old }
    requires long { length origins.now ≡ count }
    ensures builds { Builds terms.old terms.new }
    ensures within { IfOk result (λ r. ids_end r ≤ size terms.new) }
    ensures long { IfOk result (λ r. length r ≡ count) }
    ensures value { Gives terms.new result (λ w r. (router : ℕ) → router < count →
        told w r router ≡ (told w origins.now router || list_any (is_led w reached.now router) over.now)) }
{
    let mut made = List::new(alloc);
    for router in 0..count {
        let node = sym_led(terms, origins[router as usize], over, router, reached)?;
        put(&mut made, node)?;
    }
    Ok(made)
}

// From which of so many routers as many adjacencies lead to an origin.
#[tactic(auto, using(crate::proofs::ReachedSteps::node_steps))]
fn sym_steps(
    alloc: Global,
    terms: &mut Terms,
    over: &[SymAdjacency],
    origins: &[NodeId],
    count: u32,
) -> Result<List<NodeId>, AllocError>
    requires over { ups_end over.now ≤ size terms.old }
    requires origins { ids_end origins.now ≤ size terms.old }
    requires long { length origins.now ≡ count }
    ensures builds { Builds terms.old terms.new }
    ensures within { IfOk result (λ r. ids_end r ≤ size terms.new) }
    ensures long { IfOk result (λ r. length r ≡ count) }
    ensures value { Gives terms.new result (λ w r. (files : ListOf FileOf) (failures : FailuresOf) (real : TablesOf)
        (p : PrefixOf) → length files ≡ count → map (up_read w) over.now ≡ map (up_in files failures) (model.adjacencies files) →
        TellOrigins w files failures real p origins.now → TellReached w files failures real p count r) }
{
    let nodes = Vec::from_slice(alloc, origins)?;
    let mut made = List { items: nodes };
    for step in 0..count {
        made = sym_step(alloc, terms, over, origins, made.as_slice(), count)?;
    }
    Ok(made)
}

// From which routers adjacencies lead to an origin.
fn sym_led_routers(
    alloc: Global,
    terms: &mut Terms,
    place: &SlotPlace<'_>,
    tables: &SymTables<'_>,
) -> Result<List<NodeId>, AllocError>
    requires long { place.now.len ≤ 32 }
    requires wide { length place.now.dst.now.nodes.items ≡ 32 }
    requires nodes { ids_end place.now.dst.now.nodes.items ≤ size terms.old }
    requires down { ids_end place.now.sym.now.down ≤ size terms.old }
    requires rows { HaveTracked place.now.net.now.tracked tables.now.slots.now }
    requires tables { slots_end tables.now.slots.now ≤ size terms.old }
    requires routers { tables.now.routers ≡ length place.now.net.now.files }
    ensures builds { Builds terms.old terms.new }
    ensures within { IfOk result (λ r. ids_end r ≤ size terms.new) }
    ensures value { Gives terms.new result (λ w r. (real : TablesOf) →
        StandFor w place.now.net.now.tracked tables.now real → TellReached w place.now.net.now.files
        (failures_of w place.now.sym.now) real (prefix_read w place.now.dst.now place.now.len)
        (length place.now.net.now.files) r) }
{
    let origins = sym_origins(alloc, terms, place, tables)?;
    let over = sym_all_up(alloc, terms, place.net, place.sym)?;
    let reached = sym_steps(
        alloc,
        terms,
        over.as_slice(),
        origins.as_slice(),
        tables.routers,
    )?;
    Ok(reached)
}

// Whether a router holds no internal route, or its node is true.
fn sym_supported(
    terms: &mut Terms,
    tables: &SymTables<'_>,
    router: u32,
    len: u8,
    reached: &[NodeId],
) -> Result<NodeId, AllocError>
    requires long { len ≤ 32 }
    requires tables { slots_end tables.now.slots.now ≤ size terms.old }
    requires reached { ids_end reached.now ≤ size terms.old }
    ensures builds { Builds terms.old terms.new }
    ensures within { IfOk result (λ r. r.0 < size terms.new) }
    ensures value { Gives terms.new result (λ w r. (tracked : TrackedOf) (real : TablesOf) →
        StandFor w tracked tables.now real →
        at w r ≡ (not (holds_internal real (of_length len) router) || told w reached.now router)) }
{
    let held = sym_holds_internal(terms, tables, router, len)?;
    match node_of(reached, router) {
        None => negate(terms, held),
        Some(node) => implies(terms, held, node),
    }
}

// The same of all routers.
#[tactic(auto, using(sym_ospf::proofs::EquationTests::all_steps))]
fn sym_all_supported(
    terms: &mut Terms,
    tables: &SymTables<'_>,
    len: u8,
    reached: &[NodeId],
) -> Result<NodeId, AllocError>
    requires long { len ≤ 32 }
    requires tables { slots_end tables.now.slots.now ≤ size terms.old }
    requires reached { ids_end reached.now ≤ size terms.old }
    ensures builds { Builds terms.old terms.new }
    ensures within { IfOk result (λ r. r.0 < size terms.new) }
    ensures value { Gives terms.new result (λ w r. (tracked : TrackedOf) (real : TablesOf) →
        StandFor w tracked tables.now real → at w r ≡ all_below (λ router.
        not (holds_internal real (of_length len) router) || told w reached.now router) tables.now.routers) }
{
    let mut all = constant_node(terms, true)?;
    for router in 0..tables.routers {
        let here = sym_supported(terms, tables, router, len, reached)?;
        all = both(terms, all, here)?;
    }
    Ok(all)
}

/// Where each OSPF route of some tables for a prefix is the one that its router holds, each router with an internal route
/// reaches one that originates such: a route costs more than the one that it is made of, so from step to step fewer routers
/// hold a cheaper one. The function only carries that law.
pub fn reached_law(net: &Net)
    ensures { (failures : FailuresOf) (real : TablesOf) (p : PrefixOf) → p.len ≤ 32 →
        length real.slots ≡ LENGTHS * length net.now.files → AreHeld net.now.files failures real p →
        are_reached net.now.files failures real p ≡ true }
{
    net.routers();
}

/// Whether from each router that holds an internal route for the prefix of that length of a destination adjacencies that
/// are up lead to one that originates such a route (RFC 2328, section 16.1). The place's router is not looked at.
pub fn sym_reached(
    alloc: Global,
    terms: &mut Terms,
    place: &SlotPlace<'_>,
    tables: &SymTables<'_>,
) -> Result<NodeId, AllocError>
    requires long { place.now.len ≤ 32 }
    requires wide { length place.now.dst.now.nodes.items ≡ 32 }
    requires nodes { ids_end place.now.dst.now.nodes.items ≤ size terms.old }
    requires down { ids_end place.now.sym.now.down ≤ size terms.old }
    requires rows { HaveTracked place.now.net.now.tracked tables.now.slots.now }
    requires tables { slots_end tables.now.slots.now ≤ size terms.old }
    requires routers { tables.now.routers ≡ length place.now.net.now.files }
    ensures builds { Builds terms.old terms.new }
    ensures within { IfOk result (λ r. r.0 < size terms.new) }
    ensures value { Gives terms.new result (λ w r. (real : TablesOf) →
        StandFor w place.now.net.now.tracked tables.now real → at w r
        ≡ are_reached place.now.net.now.files (failures_of w place.now.sym.now) real
        (prefix_read w place.now.dst.now place.now.len)) }
{
    let reached = sym_led_routers(alloc, terms, place, tables)?;
    let all = sym_all_supported(terms, tables, place.len, reached.as_slice())?;
    Ok(all)
}
