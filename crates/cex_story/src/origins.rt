//! Where the route of an entry comes from: the lines by which a router brings it into OSPF or BGP.

use crate::page::Page;
use crate::places::{put_iface, put_line, router_name};
use crate::scenes::Scene;
use ios_ast::{Bgp, BgpNet, File, Ospf, Redist, Source};
use mw_text::Prefix;
use proto_rib::into_ospf::redistribute_of;
use route_record::{BgpRec, Learnt, OspfKind, OspfRec, RibEntry, RibSource, Slot};

/// Whether a line takes routes from the source of an entry.
fn takes(source: Source, entry: &Option<RibEntry>) -> bool {
    let Some(entry) = entry else {
        return false;
    };
    match (source, entry.source) {
        (Source::Connected, RibSource::Connected) => true,
        (Source::Static, RibSource::Static) => true,
        (Source::Bgp(_), RibSource::Ebgp) => true,
        (Source::Ospf(_), RibSource::Ospf) => true,
        _ => false,
    }
}

/// Puts a router with a line by which it brings the route in.
fn put_by(page: &mut Page, scene: &Scene<'_>, words: &[u8], router: u32, line: u32) {
    page.bytes(words);
    page.bytes(router_name(scene.net.routers(), router));
    put_line(page, scene, router, line)
}

/// Puts the `redistribute` lines that take routes from the source of a slot's entry.
fn put_redistributed(
    page: &mut Page,
    scene: &Scene<'_>,
    words: &[u8],
    router: u32,
    lines: &[Redist],
    slot: &Slot,
) {
    for line in lines {
        if takes(line.source, &slot.rib) {
            put_by(page, scene, words, router, line.line);
        }
    }
}

/// Whether a redistributed route is such a one: of the same type, and of type 2 with the same metric.
fn is_like(made: &OspfRec, held: &OspfRec) -> bool {
    match (made.kind, held.kind) {
        (OspfKind::Ext1, OspfKind::Ext1) => true,
        (OspfKind::Ext2, OspfKind::Ext2) => made.metric == held.metric,
        _ => false,
    }
}

/// Puts the lines by which a process takes the route of a slot.
fn put_process(
    page: &mut Page,
    scene: &Scene<'_>,
    router: u32,
    process: &Ospf,
    p: &Prefix,
    slot: &Slot,
) {
    let lines = process.redistribute.as_slice();
    put_redistributed(
        page,
        scene,
        b"\n      redistributed into OSPF at ",
        router,
        lines,
        slot,
    );
    if let Some(default) = process.default {
        if p.len == 0 {
            put_by(
                page,
                scene,
                b"\n      the default route of ",
                router,
                default.line,
            );
        }
    }
}

/// Puts what a router redistributes into OSPF, where such a route is among it.
fn put_taken(
    page: &mut Page,
    scene: &Scene<'_>,
    router: u32,
    file: &File,
    p: &Prefix,
    held: &OspfRec,
) {
    let (Some(process), Some(slot)) = (&file.ospf, scene.cex.tables.slot(router, p.len)) else {
        return;
    };
    match redistribute_of(page.alloc, file, p, slot) {
        Err(_) => page.full = true,
        Ok(made) => {
            if made.as_slice().iter().any(|rec| is_like(rec, held)) {
                put_process(page, scene, router, process, p, slot)
            }
        }
    }
}

/// Puts the routers that bring an external route into OSPF.
fn put_external(page: &mut Page, scene: &Scene<'_>, p: &Prefix, held: &OspfRec) {
    let mut router = 0u32;
    for file in scene.net.routers() {
        put_taken(page, scene, router, file, p, held);
        router = router.saturating_add(1);
    }
}

/// Puts the interfaces that advertise a prefix into OSPF.
fn put_internal(page: &mut Page, scene: &Scene<'_>, p: &Prefix) {
    for x in scene.net.ospf_interfaces() {
        if x.at.subnet == *p && scene.net.is_up_with(&scene.cex.failures, &x.at) {
            page.bytes(b"\n      advertised by ");
            page.bytes(router_name(scene.net.routers(), x.at.id.router));
            put_iface(page, scene, b" on ", x.at.id);
        }
    }
}

/// Puts where an OSPF route comes from.
pub fn put_ospf_origin(page: &mut Page, scene: &Scene<'_>, p: &Prefix, held: &OspfRec) {
    match held.kind {
        OspfKind::Internal => put_internal(page, scene, p),
        _ => put_external(page, scene, p, held),
    }
}

/// Whether the route of a slot is the router's own.
fn is_local(slot: &Slot) -> bool {
    match &slot.bgp {
        None => false,
        Some(route) => matches!(route.from, Learnt::Local),
    }
}

/// Whether a route with that path comes from an autonomous system; `own` is the one in which it is held.
fn comes_from(route: &BgpRec, own: u32, asn: u32) -> bool {
    match route.path.as_slice().last() {
        None => asn == own,
        Some(last) => *last == asn,
    }
}

/// Puts the `network` lines of the prefix.
fn put_networks(page: &mut Page, scene: &Scene<'_>, router: u32, lines: &[BgpNet], p: &Prefix) {
    for line in lines {
        if line.prefix == *p {
            put_by(
                page,
                scene,
                b"\n      brought into BGP by the network line of ",
                router,
                line.line,
            );
        }
    }
}

/// Puts the lines by which a process originates the route of a slot.
fn put_originated(
    page: &mut Page,
    scene: &Scene<'_>,
    router: u32,
    process: &Bgp,
    p: &Prefix,
    slot: &Slot,
) {
    let lines = process.redistribute.as_slice();
    put_networks(page, scene, router, process.networks.as_slice(), p);
    put_redistributed(
        page,
        scene,
        b"\n      redistributed into BGP at ",
        router,
        lines,
        slot,
    )
}

/// Puts the lines by which a router originates the route, where it does.
fn put_origin_at(
    page: &mut Page,
    scene: &Scene<'_>,
    router: u32,
    file: &File,
    own: u32,
    p: &Prefix,
    route: &BgpRec,
) {
    let (Some(process), Some(slot)) = (&file.bgp, scene.cex.tables.slot(router, p.len)) else {
        return;
    };
    if is_local(slot) && comes_from(route, own, process.asn) {
        put_originated(page, scene, router, process, p, slot)
    }
}

/// Puts where a BGP route comes from that a router of that autonomous system holds.
pub fn put_bgp_origin(page: &mut Page, scene: &Scene<'_>, own: u32, p: &Prefix, route: &BgpRec) {
    let mut router = 0u32;
    for file in scene.net.routers() {
        put_origin_at(page, scene, router, file, own, p, route);
        router = router.saturating_add(1);
    }
}
