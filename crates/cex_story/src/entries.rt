//! The entry of a table that sends a packet on, with the lines behind it.

use crate::imports::put_import;
use crate::origins::{put_bgp_origin, put_ospf_origin};
use crate::page::Page;
use crate::places::{own_on, put_line};
use crate::routes::put_attributes;
use crate::scenes::Scene;
use crate::steps::Leg;
use ios_ast::{File, Neighbour, OspfNet, StaticRoute, Via};
use mw_text::{Addr, Prefix, prefix_of};
use net_model::{Addressed, IfaceId};
use net_parts::routing::route_counts;
use route_record::{BgpRec, LENGTHS, Learnt, OspfKind, OspfRec, RibEntry, RibSource, Slot, Tables};

/// The longest prefix with an entry: its length, its slot and that entry.
pub type Longest<'a> = (u8, &'a Slot, RibEntry);

fn entry_of(tables: &Tables, router: u32, len: u8) -> Option<Longest<'_>> {
    match tables.slot(router, len) {
        None => None,
        Some(slot) => match slot.rib {
            None => None,
            Some(entry) => Some((len, slot, entry)),
        },
    }
}

/// The entry of the longest prefix.
pub fn longest_of(tables: &Tables, router: u32) -> Option<Longest<'_>> {
    for shorter in 0..LENGTHS as u8 {
        if let Some(found) = entry_of(tables, router, 32 - shorter) {
            return Some(found);
        }
    }
    None
}

/// Puts the interface of a connected entry.
fn put_connected(page: &mut Page, scene: &Scene<'_>, own: &[Addressed], p: &Prefix) {
    if let Some(x) = own_on(own, p) {
        crate::places::put_iface(page, scene, b" of ", x.id);
    }
}

/// Whether a static route leads to the address; to any where none is known.
fn leads_to(via: &Via, to: Option<Addr>) -> bool {
    match (via, to) {
        (Via::Null0, _) => to.is_none(),
        (Via::Next(a), Some(to)) => *a == to,
        (Via::Out(_, a), Some(to)) => *a == to,
        (Via::Next(_), None) => true,
        (Via::Out(_, _), None) => true,
    }
}

/// Puts where a static route leads, and its line.
fn put_static(page: &mut Page, scene: &Scene<'_>, router: u32, route: &StaticRoute) {
    match &route.via {
        Via::Null0 => page.bytes(b", to Null0"),
        Via::Next(a) => page.address(b", to ", *a),
        Via::Out(named, a) => {
            page.put(&[b", out of ", named.name.as_slice()]);
            page.address(b" to ", *a)
        }
    }
    put_line(page, scene, router, route.line)
}

/// Puts the static routes of the prefix with that distance that lead there.
fn put_statics(
    page: &mut Page,
    scene: &Scene<'_>,
    own: &[Addressed],
    leg: &Leg,
    file: &File,
    p: &Prefix,
    distance: u8,
) {
    for route in file.statics.as_slice() {
        if route.prefix == *p
            && route.distance == distance
            && route_counts(own, route)
            && leads_to(&route.via, leg.to)
        {
            put_static(page, scene, leg.router, route);
        }
    }
}

fn matches_line(line: &OspfNet, a: Addr) -> bool {
    (a.0 | line.wild) == (line.addr.0 | line.wild)
}

/// The `network` line by which a process runs on an address.
fn network_line(networks: &[OspfNet], a: Addr) -> Option<u32> {
    match networks.iter().find(|line| matches_line(line, a)) {
        None => None,
        Some(line) => Some(line.line),
    }
}

/// Puts the `network` line by which OSPF runs on the interface with that address.
fn put_network(page: &mut Page, scene: &Scene<'_>, router: u32, file: &File, a: Addr) {
    if let Some(process) = &file.ospf {
        if let Some(line) = network_line(process.networks.as_slice(), a) {
            page.bytes(b"\n      OSPF runs on the way out by the network line");
            put_line(page, scene, router, line);
        }
    }
}

/// Puts an OSPF route (RFC 2328, section 11).
fn put_ospf(page: &mut Page, route: &OspfRec) {
    match route.kind {
        OspfKind::Internal => page.bytes(b", internal"),
        OspfKind::Ext1 => page.counted(b", external type 1, metric ", route.metric),
        OspfKind::Ext2 => page.counted(b", external type 2, metric ", route.metric),
    }
    page.counted(b", cost ", route.cost)
}

/// The interface by which the packet goes out.
fn sent_by<'a>(own: &'a [Addressed], leg: &Leg) -> Option<&'a Addressed> {
    match leg.out {
        None => None,
        Some(out) => own.iter().find(|x| x.id == out),
    }
}

/// Puts the OSPF route of a slot, and why OSPF runs on the interface by which the packet goes out.
fn put_interior(
    page: &mut Page,
    scene: &Scene<'_>,
    own: &[Addressed],
    leg: &Leg,
    file: &File,
    p: &Prefix,
    slot: &Slot,
) {
    if let Some(route) = &slot.ospf {
        put_ospf(page, route);
        put_ospf_origin(page, scene, p, route);
    }
    if let Some(x) = sent_by(own, leg) {
        put_network(page, scene, leg.router, file, x.addr);
    }
}

/// The neighbour of a router with that address.
fn neighbour_at(file: &File, a: Addr) -> Option<&Neighbour> {
    match &file.bgp {
        None => None,
        Some(process) => process
            .neighbours
            .as_slice()
            .iter()
            .find(|neighbour| neighbour.addr == a),
    }
}

/// Puts where a BGP route was learnt.
fn put_learnt(page: &mut Page, scene: &Scene<'_>, router: u32, file: &File, from: &Learnt) {
    match from {
        Learnt::Local => page.bytes(b", of the router itself"),
        Learnt::Peer(a) => {
            page.address(b", learnt from ", *a);
            if let Some(neighbour) = neighbour_at(file, *a) {
                put_line(page, scene, router, neighbour.line);
            }
        }
    }
}

/// Puts what let a BGP route in.
fn put_taken(
    page: &mut Page,
    scene: &Scene<'_>,
    router: u32,
    file: &File,
    p: &Prefix,
    from: &Learnt,
) {
    if let Learnt::Peer(a) = from {
        if let Some(neighbour) = neighbour_at(file, *a) {
            put_import(page, scene, router, file, neighbour, p);
        }
    }
}

/// Puts a BGP route.
fn put_bgp(
    page: &mut Page,
    scene: &Scene<'_>,
    router: u32,
    file: &File,
    p: &Prefix,
    route: &BgpRec,
) {
    page.address(b", next hop ", route.next_hop);
    put_learnt(page, scene, router, file, &route.from);
    page.counted(b"\n      weight ", route.weight);
    page.counted(b", local preference ", route.local_pref);
    page.bytes(b", ");
    put_attributes(
        page,
        &route.path,
        route.med,
        route.origin,
        &route.communities,
    );
    if let Some(originator) = route.originator {
        page.address(b", reflected for ", originator);
    }
    put_taken(page, scene, router, file, p, &route.from);
    if let Some(process) = &file.bgp {
        put_bgp_origin(page, scene, process.asn, p, route);
    }
}

/// Puts the BGP route of a slot.
fn put_exterior(
    page: &mut Page,
    scene: &Scene<'_>,
    router: u32,
    file: &File,
    p: &Prefix,
    slot: &Slot,
) {
    if let Some(route) = &slot.bgp {
        put_bgp(page, scene, router, file, p, route);
    }
}

/// The name of the protocol of an entry.
fn source_text(source: RibSource) -> &'static [u8] {
    match source {
        RibSource::Connected => b"connected ",
        RibSource::Static => b"static ",
        RibSource::Ebgp => b"external BGP ",
        RibSource::Ospf => b"OSPF ",
        RibSource::Ibgp => b"internal BGP ",
    }
}

/// Puts the lines behind an entry.
fn put_behind(
    page: &mut Page,
    scene: &Scene<'_>,
    own: &[Addressed],
    leg: &Leg,
    file: &File,
    found: &Longest<'_>,
) {
    let (len, slot, entry) = found;
    let p = prefix_of(scene.cex.packet.dst, *len);
    match entry.source {
        RibSource::Connected => put_connected(page, scene, own, &p),
        RibSource::Static => put_statics(page, scene, own, leg, file, &p, entry.distance),
        RibSource::Ospf => put_interior(page, scene, own, leg, file, &p, slot),
        RibSource::Ebgp => put_exterior(page, scene, leg.router, file, &p, slot),
        RibSource::Ibgp => put_exterior(page, scene, leg.router, file, &p, slot),
    }
}

/// Puts an entry: where it is from, its prefix and its distance, and what stands behind it.
pub fn put_found(
    page: &mut Page,
    scene: &Scene<'_>,
    own: &[Addressed],
    leg: &Leg,
    file: &File,
    found: &Longest<'_>,
) {
    let (len, _, entry) = found;
    page.bytes(b"    by ");
    page.prefix(
        source_text(entry.source),
        &prefix_of(scene.cex.packet.dst, *len),
    );
    page.counted(b", distance ", u32::from(entry.distance));
    put_behind(page, scene, own, leg, file, found);
    page.bytes(b"\n")
}
