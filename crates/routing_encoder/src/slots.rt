//! The slots of a routing at the places of a plan: what is open of them, and the entries that follow.

ghost use Rattle.std.specs.Prelude.{◌≡◌, ◌≤◌, ◌<◌, All, IfOk, OnOk, None, Some, false, ◌++◌, ◌∷◌, [], length, map, option_and_then, option_map, slice_get};
ghost use Rattle.std.specs.Option.{option_copied};
ghost use Rattle.mw_text.specs.Address.{prefix_at};
ghost use Rattle.route_record.specs.declared.TheConstants as constants;
ghost use Rattle.slot_places.specs.Rooms.{can_be_used as can_be_used_at, room_for as room_read};
ghost use Rattle.sym_policy.specs.Held.{bgp_end, bgp_of, failures_of, ospf_end, ospf_of};
ghost use Rattle.sym_policy.specs.Records.{address_of};
ghost use Rattle.sym_policy.specs.MapRecs.{HasTracked};
ghost use Rattle.sym_rib.specs.Into.{list_end};
ghost use Rattle.sym_rib.specs.Slots.{rib_end, rib_of, slot_end};
ghost use Rattle.sym_rib.specs.Sources.{entry_from};
ghost use Rattle.sym_rib.specs.Worlds.{slots_end};
ghost use Rattle.bgp_equations.specs.Equations.{HaveTracked, slot_read};
ghost use Rattle.bgp_worlds.specs.Opens.{empty_shape, open_shape, shape_entry, shape_slot_of};
ghost use Rattle.routing_worlds.specs.Worlds.{open_with, opens_with};
ghost use Rattle.world_variables.specs.declared.unknowns.Unknown.{Unknown};
ghost use Rattle.world_variables.specs.Symbols.{open_of, open_end, opens_end};
ghost use Rattle.routing_encoder.specs.Frames.{IsFrame};
ghost use Rattle.routing_encoder.specs.Slots.{shapes_over};
ghost use Rattle.term_store.specs.Terms.{Reading, at, size};
ghost use Rattle.term_store.specs.Reading.{Reads, Builds, Gives};
ghost use Rattle.term_arith.specs.Bits.{ids_end};

use crate::copies::copy_bgp;
use crate::frame::Frame;
use mw_text::List;
use net_model::Net;
use ospf_equations::with_dynamic;
use plan_places::Place;
use question_lang::Question;
use route_record::{Plan, Tracked};
use slot_places::{Room, can_be_used, room_for};
use std::alloc::{AllocError, Global};
use sym_policy::{SymBgp, SymNet, SymOspf};
use sym_rib::{SymRib, SymSlot, bare_slot, sym_entry};
use term_arith::Bits;
use term_arith::gates::{constant_node, negate};
use term_store::Terms;
use world_variables::SymOpen;
use world_variables::opens::no_route;

/// A network while the links of `sym` have failed, and the destination towards which it has routes.
#[derive(Clone, Copy)]
pub(crate) struct Towards<'a> {
    pub(crate) net: &'a Net,
    pub(crate) sym: &'a SymNet,
    pub(crate) dst: &'a Bits,
}

// The place of that number.
pub(crate) fn place_at(places: &[Place], at: usize) -> Place
    requires { at < length places.now }
    ensures { slice_get places.now at ≡ Some result }
{
    places[at]
}

// Puts one more slot at the end.
fn put_slot(made: &mut List<SymSlot>, next: SymSlot) -> Result<(), AllocError>
    ensures { OnOk result (made.new ≡ made.old ++ next ∷ []) }
{
    made.items.push(next)?;
    Ok(())
}

// A slot in which nothing stands.
fn no_slot(alloc: Global, terms: &mut Terms, tracked: &Tracked) -> Result<SymSlot, AllocError>
    ensures builds { Builds terms.old terms.new }
    ensures within { IfOk result (λ r. slot_end r ≤ size terms.new) }
    ensures rows { IfOk result (λ r. HasTracked tracked.now r.bgp) }
    ensures value { Gives terms.new result (λ w r. slot_read w r ≡ empty_shape) }
{
    let none = no_route(alloc, terms)?;
    let slot = bare_slot(alloc, terms, tracked, &none)?;
    Ok(slot)
}

// A slot of these routes, without an entry.
fn slot_of(
    alloc: Global,
    terms: &mut Terms,
    tracked: &Tracked,
    ospf: &SymOspf,
    route: &SymBgp,
) -> Result<SymSlot, AllocError>
    requires ospf { ospf_end ospf.now ≤ size terms.old }
    requires route { bgp_end route.now ≤ size terms.old }
    requires rows { HasTracked tracked.now route.now }
    ensures builds { Builds terms.old terms.new }
    ensures within { IfOk result (λ r. slot_end r ≤ size terms.new) }
    ensures rows { IfOk result (λ r. HasTracked tracked.now r.bgp) }
    ensures ospf { Gives terms.new result (λ w r. ospf_of w r.ospf ≡ ospf_of w ospf.now) }
    ensures bgp { Gives terms.new result (λ w r. bgp_of w r.bgp ≡ bgp_of w route.now) }
{
    let bare = bare_slot(alloc, terms, tracked, ospf)?;
    let bgp = copy_bgp(alloc, route)?;
    Ok(SymSlot {
        ospf: bare.ospf,
        bgp,
        rib: bare.rib,
    })
}

// The slot of a router without room for an OSPF route: its BGP route, and the entry that follows.
fn closed_slot(
    alloc: Global,
    terms: &mut Terms,
    towards: &Towards<'_>,
    p: Place,
    route: &SymBgp,
) -> Result<SymSlot, AllocError>
    requires short { p.len < constants.LENGTHS }
    requires wide { length towards.now.dst.now.nodes.items ≡ 32 }
    requires nodes { ids_end towards.now.dst.now.nodes.items ≤ size terms.old }
    requires down { ids_end towards.now.sym.now.down ≤ size terms.old }
    requires route { bgp_end route.now ≤ size terms.old }
    requires rows { HasTracked towards.now.net.now.tracked route.now }
    ensures builds { Builds terms.old terms.new }
    ensures within { IfOk result (λ r. slot_end r ≤ size terms.new) }
    ensures rows { IfOk result (λ r. HasTracked towards.now.net.now.tracked r.bgp) }
    ensures value { Gives terms.new result (λ w r. (u : Unknown) → slot_read w r
        ≡ open_shape towards.now.net.now.files (failures_of w towards.now.sym.now) (address_of w towards.now.dst.now)
        p.router p.len (open_with towards.now.net.now.files (failures_of w towards.now.sym.now)
        (address_of w towards.now.dst.now) None p u (bgp_of w route.now))) }
{
    let none = no_route(alloc, terms)?;
    let before = slot_of(alloc, terms, towards.net.tracked(), &none, route)?;
    let own = constant_node(terms, false)?;
    let rib = sym_entry(
        alloc,
        terms,
        towards.net,
        towards.sym,
        p.router,
        towards.dst,
        p.len,
        &before,
        own,
    )?;
    Ok(SymSlot {
        ospf: before.ospf,
        bgp: before.bgp,
        rib,
    })
}

// The slot of a router with room for an OSPF route: its routes, and the entry that follows.
fn open_slot(
    alloc: Global,
    terms: &mut Terms,
    towards: &Towards<'_>,
    p: Place,
    part: &SymOpen,
    route: &SymBgp,
) -> Result<SymSlot, AllocError>
    requires short { p.len < constants.LENGTHS }
    requires wide { length towards.now.dst.now.nodes.items ≡ 32 }
    requires nodes { ids_end towards.now.dst.now.nodes.items ≤ size terms.old }
    requires down { ids_end towards.now.sym.now.down ≤ size terms.old }
    requires part { open_end part.now ≤ size terms.old }
    requires route { bgp_end route.now ≤ size terms.old }
    requires rows { HasTracked towards.now.net.now.tracked route.now }
    ensures builds { Builds terms.old terms.new }
    ensures within { IfOk result (λ r. slot_end r ≤ size terms.new) }
    ensures rows { IfOk result (λ r. HasTracked towards.now.net.now.tracked r.bgp) }
    ensures value { Gives terms.new result (λ w r. slot_read w r
        ≡ open_shape towards.now.net.now.files (failures_of w towards.now.sym.now) (address_of w towards.now.dst.now)
        p.router p.len (record { unknown = open_of w part.now; bgp = bgp_of w route.now })) }
{
    let before = slot_of(alloc, terms, towards.net.tracked(), &part.ospf, route)?;
    let own = negate(terms, part.dynamic)?;
    let rib = sym_entry(
        alloc,
        terms,
        towards.net,
        towards.sym,
        p.router,
        towards.dst,
        p.len,
        &before,
        own,
    )?;
    Ok(SymSlot {
        ospf: before.ospf,
        bgp: before.bgp,
        rib: with_dynamic(rib, part.dynamic),
    })
}

// The slot of a router at a place with that room.
fn slot_with(
    alloc: Global,
    terms: &mut Terms,
    towards: &Towards<'_>,
    room: Option<&Room>,
    p: Place,
    part: &SymOpen,
    route: &SymBgp,
) -> Result<SymSlot, AllocError>
    requires short { p.len < constants.LENGTHS }
    requires wide { length towards.now.dst.now.nodes.items ≡ 32 }
    requires nodes { ids_end towards.now.dst.now.nodes.items ≤ size terms.old }
    requires down { ids_end towards.now.sym.now.down ≤ size terms.old }
    requires part { open_end part.now ≤ size terms.old }
    requires route { bgp_end route.now ≤ size terms.old }
    requires rows { HasTracked towards.now.net.now.tracked route.now }
    ensures builds { Builds terms.old terms.new }
    ensures within { IfOk result (λ r. slot_end r ≤ size terms.new) }
    ensures rows { IfOk result (λ r. HasTracked towards.now.net.now.tracked r.bgp) }
    ensures value { Gives terms.new result (λ w r. slot_read w r
        ≡ open_shape towards.now.net.now.files (failures_of w towards.now.sym.now) (address_of w towards.now.dst.now)
        p.router p.len (open_with towards.now.net.now.files (failures_of w towards.now.sym.now)
        (address_of w towards.now.dst.now) (option_copied room.entry) p (open_of w part.now) (bgp_of w route.now))) }
{
    match room {
        None => {
            let made = closed_slot(alloc, terms, towards, p, route)?;
            Ok(made)
        }
        Some(_) => {
            let made = open_slot(alloc, terms, towards, p, part, route)?;
            Ok(made)
        }
    }
}

// Whether anything can stand at a place.
pub(crate) fn is_used(net: &Net, frame: &Frame, plan: &Plan, p: Place) -> bool
    requires frame { IsFrame net.now.files net.now.tracked plan.now frame.now }
    ensures { result ≡ can_be_used_at net.now.files frame.now.destinations p.router p.len }
{
    let rooms = frame.rooms.as_slice();
    can_be_used(
        net.routers(),
        net.addresses(),
        rooms,
        &frame.destinations,
        p.router,
        p.len,
    )
}

// The slot at a place.
#[tactic(auto, using(slot_places::proofs::RoomSteps::room_there))]
fn slot_at(
    alloc: Global,
    terms: &mut Terms,
    towards: &Towards<'_>,
    frame: &Frame,
    plan: &Plan,
    p: Place,
    part: &SymOpen,
    route: &SymBgp,
) -> Result<SymSlot, AllocError>
    requires frame { IsFrame towards.now.net.now.files towards.now.net.now.tracked plan.now frame.now }
    requires short { p.len < constants.LENGTHS }
    requires wide { length towards.now.dst.now.nodes.items ≡ 32 }
    requires nodes { ids_end towards.now.dst.now.nodes.items ≤ size terms.old }
    requires down { ids_end towards.now.sym.now.down ≤ size terms.old }
    requires part { open_end part.now ≤ size terms.old }
    requires route { bgp_end route.now ≤ size terms.old }
    requires rows { HasTracked towards.now.net.now.tracked route.now }
    ensures builds { Builds terms.old terms.new }
    ensures within { IfOk result (λ r. slot_end r ≤ size terms.new) }
    ensures rows { IfOk result (λ r. HasTracked towards.now.net.now.tracked r.bgp) }
    ensures value { Gives terms.new result (λ w r. slot_read w r
        ≡ shape_slot_of towards.now.net.now.files frame.now.destinations (failures_of w towards.now.sym.now)
        (address_of w towards.now.dst.now) p (open_with towards.now.net.now.files (failures_of w towards.now.sym.now)
        (address_of w towards.now.dst.now) (room_read towards.now.net.now.files frame.now.destinations p.router p.len) p
        (open_of w part.now) (bgp_of w route.now))) }
{
    if is_used(towards.net, frame, plan, p) {
        let room = room_for(
            towards.net.routers(),
            frame.rooms.as_slice(),
            p.router,
            p.len,
        );
        slot_with(alloc, terms, towards, room, p, part, route)
    } else {
        no_slot(alloc, terms, towards.net.tracked())
    }
}

/// The slots of a routing at their places: what is open of them, and the entries that follow.
#[tactic(auto, using(crate::proofs::LoopSteps::slot_steps))]
pub fn slots(
    alloc: Global,
    terms: &mut Terms,
    towards: &Towards<'_>,
    question: &Question,
    frame: &Frame,
    plan: &Plan,
    parts: &[SymOpen],
    routes: &[SymBgp],
) -> Result<List<SymSlot>, AllocError>
    requires frame { IsFrame towards.now.net.now.files towards.now.net.now.tracked plan.now frame.now }
    requires destinations { frame.now.destinations ≡ question.now.packets.dst }
    requires parts_long { length parts.now ≡ length frame.now.places }
    requires routes_long { length routes.now ≡ length frame.now.places }
    requires wide { length towards.now.dst.now.nodes.items ≡ 32 }
    requires nodes { ids_end towards.now.dst.now.nodes.items ≤ size terms.old }
    requires down { ids_end towards.now.sym.now.down ≤ size terms.old }
    requires parts { opens_end parts.now ≤ size terms.old }
    requires routes { list_end bgp_end routes.now ≤ size terms.old }
    requires rows { All (HasTracked towards.now.net.now.tracked) routes.now }
    ensures builds { Builds terms.old terms.new }
    ensures within { IfOk result (λ r. slots_end r ≤ size terms.new) }
    ensures rows { IfOk result (λ r. HaveTracked towards.now.net.now.tracked r) }
    ensures long { IfOk result (λ r. length r ≡ length frame.now.places) }
    ensures value { Gives terms.new result (λ w r. map (slot_read w) r
        ≡ shapes_over (shape_slot_of towards.now.net.now.files question.now.packets.dst
        (failures_of w towards.now.sym.now) (address_of w towards.now.dst.now)) frame.now.places
        (opens_with towards.now.net.now.files question.now (failures_of w towards.now.sym.now)
        (address_of w towards.now.dst.now) frame.now.places (map (open_of w) parts.now) (map (bgp_of w) routes.now))) }
{
    let places = frame.places.as_slice();
    let mut made = List::new(alloc);
    for (at, part) in parts.iter().enumerate() {
        let p = place_at(places, at);
        let route = &routes[at];
        let next = slot_at(alloc, terms, towards, frame, plan, p, part, route)?;
        put_slot(&mut made, next)?;
    }
    Ok(made)
}
