//! Which slots of a routing anything can stand in.

ghost use Rattle.std.specs.Prelude.{◌≡◌, ◌==◌, ◌&&◌, ◌++◌, ◌∷◌, [], IfOk, OnOk, if◌then◌else◌};
ghost use Rattle.std.specs.List.{list_any};
ghost use Rattle.net_interfaces.specs.Interfaces.{addressed};
ghost use Rattle.slot_places.specs.Origins as origins;
ghost use Rattle.slot_places.specs.Rooms as rooms;

use crate::origins::{is_static_at, is_subnet_at};
use crate::rooms::{Room, room_for};
use ios_ast::{File, StaticRoute};
use mw_text::{List, Prefix};
use net_model::Addressed;
use net_parts::ends::file_of;
use plan_places::Place;
use std::alloc::{AllocError, Global};

fn is_subnet_of(x: &Addressed, destinations: &Prefix, router: u32, len: u8) -> bool
    ensures { result ≡ ((x.now.id.router == router) && origins.is_subnet_at destinations.now len x.now) }
{
    x.id.router == router && is_subnet_at(destinations, len, x)
}

// Whether the router has a subnet of that length that shares an address with the destinations.
fn has_subnet(addresses: &[Addressed], destinations: &Prefix, router: u32, len: u8) -> bool
    ensures { result ≡ list_any (λ x. (x.id.router == router) && origins.is_subnet_at destinations.now len x) addresses.now }
{
    addresses
        .iter()
        .any(|x| is_subnet_of(x, destinations, router, len))
}

fn has_static(destinations: &Prefix, len: u8, statics: &[StaticRoute]) -> bool
    ensures { result ≡ list_any (origins.is_static_at destinations.now len) statics.now }
{
    statics
        .iter()
        .any(|route| is_static_at(destinations, len, route))
}

// Whether it has a static route to such a prefix, or runs BGP.
fn has_sources(destinations: &Prefix, len: u8, file: &File) -> bool
    ensures { result ≡ rooms.has_sources destinations.now len file.now }
{
    has_static(destinations, len, file.statics.as_slice()) || file.bgp.is_some()
}

/// Whether anything can stand in the slot of that router and length, in some stable routing for one of the destinations.
pub fn can_be_used(
    files: &[File],
    addresses: &[Addressed],
    all: &[Option<Room>],
    destinations: &Prefix,
    router: u32,
    len: u8,
) -> bool
    requires addresses { addresses.now ≡ addressed files.now }
    requires rooms { all.now ≡ rooms.rooms_of files.now destinations.now }
    ensures { result ≡ rooms.can_be_used files.now destinations.now router len }
{
    has_subnet(addresses, destinations, router, len)
        || match file_of(files, router) {
            None => false,
            Some(file) => has_sources(destinations, len, file),
        }
        || room_for(files, all, router, len).is_some()
}

// Puts a place at the end where anything can stand there.
fn put_used(
    used: &mut List<Place>,
    files: &[File],
    addresses: &[Addressed],
    all: &[Option<Room>],
    destinations: &Prefix,
    p: Place,
) -> Result<(), AllocError>
    requires addresses { addresses.now ≡ addressed files.now }
    requires rooms { all.now ≡ rooms.rooms_of files.now destinations.now }
    ensures { OnOk result (used.new ≡ used.old
        ++ (if rooms.can_be_used files.now destinations.now p.router p.len then p ∷ [] else [])) }
{
    if can_be_used(files, addresses, all, destinations, p.router, p.len) {
        used.items.push(p)?;
    }
    Ok(())
}

/// Of some places those at which anything can stand, in their order.
pub fn used_among(
    alloc: Global,
    files: &[File],
    addresses: &[Addressed],
    all: &[Option<Room>],
    destinations: &Prefix,
    places: &[Place],
) -> Result<List<Place>, AllocError>
    requires addresses { addresses.now ≡ addressed files.now }
    requires rooms { all.now ≡ rooms.rooms_of files.now destinations.now }
    ensures { IfOk result (λ used. used ≡ rooms.used_among files.now destinations.now places.now) }
{
    let mut used = List::new(alloc);
    for p in places {
        put_used(&mut used, files, addresses, all, destinations, *p)?;
    }
    Ok(used)
}
