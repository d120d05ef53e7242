//! Which slots of a routing can hold an OSPF route, and what it can be.

ghost use Rattle.std.specs.Prelude.{◌≡◌, ◌≤◌, ◌++◌, ◌∷◌, [], IfOk, OnOk, fold, length, map, max};
ghost use Rattle.std.specs.Option.{option_copied};
ghost use Rattle.net_parts.specs.Ospf as model;
ghost use Rattle.net_parts.specs.OspfRoutes as routes;
ghost use Rattle.slot_places.specs.Rooms as rooms;
ghost use Rattle.slot_places.specs.Values.{once};

use crate::fields::{Field, field_of, put_once, width_for};
use crate::origins::origins_at;
use ios_ast::File;
use mw_text::{List, Prefix};
use net_model::{Adjacency, Net, OspfInterface};
use net_parts::ends::file_of;
use route_record::{LENGTHS, OspfKind, OspfRec};
use std::alloc::{AllocError, Global};

/// What an OSPF route can be: its kind, by its rank in preference, its metric, and the bits of its cost.
#[derive(Drop)]
pub struct Room {
    pub kind: Field,
    pub metric: Field,
    pub cost: u8,
}

fn kind_rank(kind: OspfKind) -> u32
    ensures { result ≡ routes.kind_rank kind }
{
    match kind {
        OspfKind::Internal => 0,
        OspfKind::Ext1 => 1,
        OspfKind::Ext2 => 2,
    }
}

fn kinds_of(alloc: Global, origins: &[OspfRec]) -> Result<List<u32>, AllocError>
    ensures { IfOk result (λ kinds. kinds ≡ once (map (λ r. routes.kind_rank r.kind) origins.now)) }
{
    let mut kinds = List::new(alloc);
    for r in origins {
        put_once(&mut kinds, kind_rank(r.kind))?;
    }
    Ok(kinds)
}

fn metrics_of(alloc: Global, origins: &[OspfRec]) -> Result<List<u32>, AllocError>
    ensures { IfOk result (λ metrics. metrics ≡ once (map (λ r. r.metric) origins.now)) }
{
    let mut metrics = List::new(alloc);
    for r in origins {
        put_once(&mut metrics, r.metric)?;
    }
    Ok(metrics)
}

fn dearest_of(origins: &[OspfRec]) -> u32
    ensures { result ≡ rooms.dearest_of origins.now }
{
    let mut most = 0u32;
    for r in origins {
        most = most.max(r.cost);
    }
    most
}

/// The greatest cost of these interfaces, 0 of none.
pub fn dearest_interface(interfaces: &[OspfInterface]) -> u32
    ensures { result ≡ fold (λ most x. max most x.cost) 0 interfaces.now }
{
    let mut most = 0u32;
    for x in interfaces {
        most = most.max(x.cost);
    }
    most
}

fn dearest_adjacency(adjacencies: &[Adjacency]) -> u32
    ensures { result ≡ fold (λ most a. max most a.cost) 0 adjacencies.now }
{
    let mut most = 0u32;
    for a in adjacencies {
        most = most.max(a.cost);
    }
    most
}

/// No walk over adjacencies that comes to each router once costs more.
pub fn dearest_walk(files: &[File], adjacencies: &[Adjacency]) -> u64
    requires few { length files.now ≤ 64 }
    requires adjacencies { adjacencies.now ≡ model.adjacencies files.now }
    ensures value { result ≡ rooms.dearest_walk files.now }
    ensures few { result ≤ 0xffff_ffff_ffff }
{
    files.len() as u64 * u64::from(dearest_adjacency(adjacencies))
}

// What routes can be that come from these by a walk that costs no more than that.
fn room_around(alloc: Global, origins: &[OspfRec], walk: u64) -> Result<Room, AllocError>
    requires { walk ≤ 0xffff_ffff_ffff }
    ensures { IfOk result (λ room. room ≡ rooms.room_around origins.now walk) }
{
    let kinds = kinds_of(alloc, origins)?;
    let metrics = metrics_of(alloc, origins)?;
    Ok(Room {
        kind: field_of(kinds),
        metric: field_of(metrics),
        cost: width_for(u64::from(dearest_of(origins)) + walk),
    })
}

fn room_of(alloc: Global, origins: &[OspfRec], walk: u64) -> Result<Option<Room>, AllocError>
    requires { walk ≤ 0xffff_ffff_ffff }
    ensures { IfOk result (λ room. room ≡ rooms.room_of origins.now walk) }
{
    if origins.is_empty() {
        return Ok(None);
    }
    let room = room_around(alloc, origins, walk)?;
    Ok(Some(room))
}

fn put_room(made: &mut List<Option<Room>>, room: Option<Room>) -> Result<(), AllocError>
    ensures { OnOk result (made.new ≡ made.old ++ room ∷ []) }
{
    made.items.push(room)?;
    Ok(())
}

// What an OSPF route can be for a prefix of that length that contains some of the destinations.
#[tactic(auto, unfolding(crate::specs::Rooms::room_at))]
fn room_at(
    alloc: Global,
    net: &Net,
    destinations: &Prefix,
    len: u8,
    walk: u64,
) -> Result<Option<Room>, AllocError>
    requires small { walk ≤ 0xffff_ffff_ffff }
    requires walk { walk ≡ rooms.dearest_walk net.now.files }
    ensures { IfOk result (λ room. room ≡ rooms.room_at net.now.files destinations.now len) }
{
    let origins = origins_at(
        alloc,
        net.routers(),
        net.addresses(),
        net.ospf_interfaces(),
        destinations,
        len,
    )?;
    room_of(alloc, origins.as_slice(), walk)
}

/// What an OSPF route can be for a prefix of each length that contains some of the destinations: of lengths 0 to 32. None
/// for a length at which there can be no such route, since no line of a file brings one into OSPF.
#[tactic(auto, using(crate::proofs::RoomSteps::rooms_more, crate::proofs::RoomSteps::rooms_none))]
pub fn rooms_of(
    alloc: Global,
    net: &Net,
    destinations: &Prefix,
) -> Result<List<Option<Room>>, AllocError>
    ensures { IfOk result (λ all. all ≡ rooms.rooms_of net.now.files destinations.now) }
{
    let walk = dearest_walk(net.routers(), net.adjacencies());
    let mut made = List::new(alloc);
    for len in 0..LENGTHS as u8 {
        let room = room_at(alloc, net, destinations, len, walk)?;
        put_room(&mut made, room)?;
    }
    Ok(made)
}

fn runs_ospf(files: &[File], router: u32) -> bool
    ensures { result ≡ rooms.runs_ospf files.now router }
{
    match file_of(files, router) {
        None => false,
        Some(file) => file.ospf.is_some(),
    }
}

/// Of the rooms of all lengths that of a router for one length: what an OSPF route can be that the router holds for a
/// prefix of that length. None where it can hold none.
pub fn room_for<'a>(
    files: &[File],
    all: &'a [Option<Room>],
    router: u32,
    len: u8,
) -> Option<&'a Room>
    ensures { option_copied result ≡ rooms.room_among files.now all.now router len }
{
    if !runs_ospf(files, router) {
        return None;
    }
    match all.get(usize::from(len)) {
        None => None,
        Some(room) => room.as_ref(),
    }
}
