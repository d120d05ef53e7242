//! Slots without their BGP routes, and the routes that they hold.

ghost use Rattle.std.specs.Prelude.{◌≡◌, ◌*◌, ◌≤◌, false, IfOk, if◌then◌else◌, length, map, None, not, option_map};
ghost use Rattle.std.specs.Option.{option_copied};
ghost use Rattle.route_record.specs.declared.TheConstants as constants;
ghost use Rattle.route_shapes.specs.Bgp.{learnt_number};
ghost use Rattle.plan_places.specs.Places.{item_at as item_of, places_below};
ghost use Rattle.slot_places.specs.Rooms as rooms_spec;
ghost use Rattle.world_variables.specs.Slots.{entry_of_bit};
ghost use Rattle.path_rebuild.specs.Shapes.{route_of};
ghost use Rattle.bgp_decoding.specs.Placed.{thing_in};
ghost use Rattle.bgp_decoding.specs.Slots.{entry_learnt, learnt_of, slot_learnt, slot_without};

use crate::placing::{bare_route, placed_at, route_there};
use mw_text::{Addr, Prefix, prefix_of};
use net_model::Net;
use path_rebuild::ShapeRec;
use plan_places::{Place, item_among};
use proto_rib::best_entry;
use route_record::{Failures, OspfRec, RibEntry, Slot};
use slot_places::{Room, can_be_used, room_for};
use std::alloc::{AllocError, Global};
use world_variables::{Unknown, entry_with_bit};

/// What slots are decoded by: the network, of which these links have failed, the rooms of OSPF routes to these destinations,
/// and the address to which packets go.
#[derive(Clone, Copy)]
pub(crate) struct Setting<'a> {
    pub(crate) net: &'a Net,
    pub(crate) destinations: &'a Prefix,
    pub(crate) rooms: &'a [Option<Room>],
    pub(crate) failures: &'a Failures,
    pub(crate) d: Addr,
}

// A slot without an entry, whose BGP route has empty lists.
fn bare_slot(alloc: Global, ospf: Option<OspfRec>, route: Option<&ShapeRec>) -> Slot
    ensures ospf { result.ospf ≡ ospf }
    ensures learnt { option_map (λ r. learnt_number r.from) result.bgp ≡ learnt_of (option_copied route.entry) }
{
    let bgp = match route {
        None => None,
        Some(s) => Some(bare_route(alloc, s)),
    };
    Slot {
        ospf,
        bgp,
        rib: None,
    }
}

// The entry of the table, where an own origin of OSPF is as good or is not.
fn entry_at(setting: &Setting<'_>, p: Place, slot: &Slot, own: bool) -> Option<RibEntry>
    ensures { result ≡ entry_learnt setting.now.net.now.files setting.now.failures.now setting.now.d p
        (option_map (λ r. learnt_number r.from) slot.now.bgp) slot.now.ospf own }
{
    let prefix = prefix_of(setting.d, p.len);
    best_entry(setting.net, setting.failures, p.router, &prefix, slot, own)
}

// A slot that can hold no route of OSPF.
fn slot_alone(alloc: Global, setting: &Setting<'_>, p: Place, route: Option<&ShapeRec>) -> Slot
    ensures { result ≡ record {
      ospf = None;
      bgp = None;
      rib = entry_learnt setting.now.net.now.files setting.now.failures.now setting.now.d p
          (learnt_of (option_copied route.entry)) None false;
    } }
{
    let bare = bare_slot(alloc, None, route);
    let rib = entry_at(setting, p, &bare, false);
    Slot {
        ospf: None,
        bgp: None,
        rib,
    }
}

// A slot that can hold one.
fn slot_with(
    alloc: Global,
    setting: &Setting<'_>,
    p: Place,
    unknown: Unknown,
    route: Option<&ShapeRec>,
) -> Slot
    ensures { result ≡ record {
      ospf = unknown.ospf;
      bgp = None;
      rib = option_map (entry_of_bit unknown.dynamic) (entry_learnt setting.now.net.now.files
          setting.now.failures.now setting.now.d p
          (learnt_of (option_copied route.entry)) unknown.ospf (not unknown.dynamic));
    } }
{
    let bare = bare_slot(alloc, unknown.ospf, route);
    let best = entry_at(setting, p, &bare, !unknown.dynamic);
    let rib = best.map(|entry| entry_with_bit(unknown.dynamic, entry));
    Slot {
        ospf: unknown.ospf,
        bgp: None,
        rib,
    }
}

// The slot of that room.
fn slot_of(
    alloc: Global,
    setting: &Setting<'_>,
    room: Option<&Room>,
    p: Place,
    unknown: Unknown,
    route: Option<&ShapeRec>,
) -> Slot
    ensures { result ≡ slot_learnt setting.now.net.now.files setting.now.failures.now setting.now.d
        (option_copied room.entry) p unknown (learnt_of (option_copied route.entry)) }
{
    match room {
        None => slot_alone(alloc, setting, p, route),
        Some(_) => slot_with(alloc, setting, p, unknown, route),
    }
}

// The slot at a place: an empty one off the places of the plan, and where nothing can stand.
fn slot_at(
    alloc: Global,
    setting: &Setting<'_>,
    p: Place,
    unknown: Option<&Unknown>,
    route: Option<&ShapeRec>,
) -> Slot
    requires rooms { setting.now.rooms.now ≡ rooms_spec.rooms_of setting.now.net.now.files setting.now.destinations.now }
    ensures { result ≡ slot_without setting.now.net.now.files setting.now.destinations.now setting.now.failures.now
        setting.now.d p (option_copied unknown.entry) (learnt_of (option_copied route.entry)) }
{
    let files = setting.net.routers();
    let addresses = setting.net.addresses();
    let rooms = setting.rooms;
    let dst = setting.destinations;
    match unknown {
        Some(unknown) if can_be_used(files, addresses, rooms, dst, p.router, p.len) => {
            let room = room_for(files, rooms, p.router, p.len);
            slot_of(alloc, setting, room, p, *unknown, route)
        }
        _ => Slot {
            ospf: None,
            bgp: None,
            rib: None,
        },
    }
}

/// The slots at places, of what is open at the places of a plan: each router has one thing at each of these lengths.
pub(crate) fn slots_at(
    alloc: Global,
    setting: &Setting<'_>,
    lens: &[u8],
    unknowns: &[Unknown],
    told: &[Option<ShapeRec>],
    places: &[Place],
) -> Result<Vec<Slot>, AllocError>
    requires rooms { setting.now.rooms.now ≡ rooms_spec.rooms_of setting.now.net.now.files setting.now.destinations.now }
    requires few { length lens.now ≤ constants.LENGTHS }
    requires open { length unknowns.now ≡ length setting.now.net.now.files * length lens.now }
    requires long { length told.now ≡ length setting.now.net.now.files * length lens.now }
    ensures { IfOk result (λ made. made.items ≡ map (λ p. slot_without setting.now.net.now.files
        setting.now.destinations.now setting.now.failures.now setting.now.d p
        (item_of (places_below lens.now (length setting.now.net.now.files)) unknowns.now p.router p.len)
        (learnt_of (thing_in lens.now (length setting.now.net.now.files) told.now p))) places.now) }
{
    let mut made = Vec::new(alloc);
    for p in places {
        let unknown = item_among(lens, unknowns, p.router, p.len);
        let route = route_there(lens, told, *p);
        let slot = slot_at(alloc, setting, *p, unknown, route);
        made.push(slot)?;
    }
    Ok(made)
}

// The route that a slot holds: none off the places of the plan, and where nothing can stand.
fn held_at(
    alloc: Global,
    net: &Net,
    destinations: &Prefix,
    rooms: &[Option<Room>],
    lens: &[u8],
    told: &[Option<ShapeRec>],
    p: Place,
) -> Option<ShapeRec>
    requires rooms { rooms.now ≡ rooms_spec.rooms_of net.now.files destinations.now }
    requires few { length lens.now ≤ constants.LENGTHS }
    requires long { length told.now ≡ length net.now.files * length lens.now }
    ensures { option_map (route_of net.now.tracked) result
        ≡ (if rooms_spec.can_be_used net.now.files destinations.now p.router p.len
        then option_map (route_of net.now.tracked) (thing_in lens.now (length net.now.files) told.now p) else None) }
{
    let files = net.routers();
    let addresses = net.addresses();
    if can_be_used(files, addresses, rooms, destinations, p.router, p.len) {
        placed_at(alloc, lens, told, p)
    } else {
        None
    }
}

/// The routes that the slots at places hold.
pub fn held_routes(
    alloc: Global,
    net: &Net,
    destinations: &Prefix,
    rooms: &[Option<Room>],
    lens: &[u8],
    told: &[Option<ShapeRec>],
    places: &[Place],
) -> Result<Vec<Option<ShapeRec>>, AllocError>
    requires rooms { rooms.now ≡ rooms_spec.rooms_of net.now.files destinations.now }
    requires few { length lens.now ≤ constants.LENGTHS }
    requires long { length told.now ≡ length net.now.files * length lens.now }
    ensures { IfOk result (λ made. map (option_map (route_of net.now.tracked)) made.items
        ≡ map (λ p. if rooms_spec.can_be_used net.now.files destinations.now p.router p.len
        then option_map (route_of net.now.tracked) (thing_in lens.now (length net.now.files) told.now p) else None)
        places.now) }
{
    let mut made = Vec::new(alloc);
    for p in places {
        made.push(held_at(alloc, net, destinations, rooms, lens, told, *p))?;
    }
    Ok(made)
}
