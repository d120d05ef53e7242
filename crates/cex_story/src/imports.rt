//! The entry of an incoming route map that let a route in.

use crate::page::Page;
use crate::places::put_line;
use crate::scenes::Scene;
use arriving_messages::arriving;
use ios_ast::{File, Neighbour, RouteMap, Use};
use mw_text::{Addr, Prefix};
use net_model::SessionEnd;
use net_parts::ends::neighbour_of;
use policy_eval::{deciding_entry, map_named, map_rec};
use route_record::{BgpMsg, BgpRec, Learnt};
use std::alloc::{AllocError, Global};

/// The end of a session, by its place among all.
type Placed<'a> = (u32, &'a SessionEnd);

/// Whether an end is one of the router towards that neighbour.
fn is_towards(scene: &Scene<'_>, router: u32, a: Addr, end: &SessionEnd) -> bool {
    end.router == router
        && match neighbour_of(scene.net.routers(), end) {
            None => false,
            Some(neighbour) => neighbour.addr == a,
        }
}

/// The end of the router towards that neighbour.
fn end_towards<'a>(scene: &'a Scene<'_>, router: u32, a: Addr) -> Option<Placed<'a>> {
    let mut at = 0u32;
    for end in scene.net.ends() {
        if is_towards(scene, router, a, end) {
            return Some((at, end));
        }
        at = at.saturating_add(1);
    }
    None
}

/// What route maps match of a message: its path and its communities.
fn matched(msg: BgpMsg) -> BgpRec {
    BgpRec {
        from: Learnt::Local,
        weight: 0,
        local_pref: 0,
        path: msg.path,
        origin: msg.origin,
        med: 0,
        communities: msg.communities,
        next_hop: msg.next_hop,
        originator: msg.originator,
        clusters: msg.clusters,
    }
}

/// The message that arrived from that neighbour for the prefix.
fn message(
    alloc: Global,
    scene: &Scene<'_>,
    router: u32,
    a: Addr,
    p: &Prefix,
) -> Result<Option<BgpMsg>, AllocError> {
    match end_towards(scene, router, a) {
        None => Ok(None),
        Some((at, end)) => arriving(
            alloc,
            scene.net,
            &scene.cex.env,
            &scene.cex.tables,
            p,
            at,
            end,
        ),
    }
}

/// Puts the entry of a map that decides about a message.
fn put_deciding(
    page: &mut Page,
    scene: &Scene<'_>,
    router: u32,
    file: &File,
    map: &RouteMap,
    p: &Prefix,
    msg: BgpMsg,
) {
    let rec = map_rec(matched(msg));
    if let Some(entry) = deciding_entry(map, &file.policies, p, &rec) {
        page.counted(b" by its entry ", entry.seq);
        put_line(page, scene, router, entry.line);
    }
}

/// Puts the entry of an incoming map that let the message in.
fn put_entry(
    page: &mut Page,
    scene: &Scene<'_>,
    router: u32,
    file: &File,
    map: &RouteMap,
    a: Addr,
    p: &Prefix,
) {
    match message(page.alloc, scene, router, a, p) {
        Err(_) => page.full = true,
        Ok(None) => {}
        Ok(Some(msg)) => put_deciding(page, scene, router, file, map, p, msg),
    }
}

/// Puts the incoming map of a neighbour, and its entry that let the route in.
fn put_map(
    page: &mut Page,
    scene: &Scene<'_>,
    router: u32,
    file: &File,
    named: &Use,
    a: Addr,
    p: &Prefix,
) {
    page.put(&[b"\n      let in by route map ", named.name.as_slice()]);
    put_line(page, scene, router, named.line);
    if let Some(map) = map_named(&file.policies, named) {
        put_entry(page, scene, router, file, map, a, p);
    }
}

/// Puts what let a route from a neighbour in, where a route map did.
pub fn put_import(
    page: &mut Page,
    scene: &Scene<'_>,
    router: u32,
    file: &File,
    neighbour: &Neighbour,
    p: &Prefix,
) {
    if let Some(named) = &neighbour.map_in {
        put_map(page, scene, router, file, named, neighbour.addr, p);
    }
}
