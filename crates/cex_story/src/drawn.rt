//! A counterexample as a graph in the language of Graphviz (DOT): routers as boxes, links with their subnets, failed ones
//! dashed, external peers as ellipses with what they announce, and the walk in red with its end.

use crate::ended::end_words;
use crate::page::Page;
use crate::places::router_name;
use crate::scenes::Scene;
use ios_ast::Neighbour;
use mw_text::{Addr, List, prefix_of};
use net_model::{IfaceId, Link, SessionEnd};
use net_parts::ends::{is_outside, neighbour_of};
use question_lang::{End, Start, Walk};
use std::alloc::{AllocError, Global};

/// Puts a router as a node.
fn put_router(page: &mut Page, router: u32, name: &[u8]) {
    page.counted(b"  r", router);
    page.bytes(b" [label=\"");
    page.quoted(name);
    page.bytes(b"\"];\n")
}

/// Puts all routers.
fn put_routers(page: &mut Page, scene: &Scene<'_>) {
    let mut router = 0u32;
    for _file in scene.net.routers() {
        put_router(page, router, router_name(scene.net.routers(), router));
        router = router.saturating_add(1);
    }
}

/// Puts an edge between two routers.
fn put_edge(page: &mut Page, from: u32, to: u32) {
    page.counted(b"  r", from);
    page.counted(b" -> r", to)
}

/// Puts a link between two routers.
fn put_link(page: &mut Page, link: &Link, is_failed: bool, a: &IfaceId, b: &IfaceId) {
    put_edge(page, a.router, b.router);
    page.prefix(b" [dir=none, label=\"", &link.prefix);
    if is_failed {
        page.bytes(b" failed\", style=dashed, color=gray];\n")
    } else {
        page.bytes(b"\"];\n")
    }
}

/// Puts the links between routers.
fn put_links(page: &mut Page, scene: &Scene<'_>) {
    let mut at = 0u32;
    for link in scene.net.links() {
        if let [a, b] = link.ifaces.as_slice() {
            let is_failed = scene.cex.failures.links.as_slice().contains(&at);
            put_link(page, link, is_failed, a, b);
        }
        at = at.saturating_add(1);
    }
}

/// Puts the prefixes that an external peer announces.
fn put_announced(page: &mut Page, scene: &Scene<'_>, at: u32) {
    for a in scene.cex.env.announced.as_slice() {
        if a.end == at {
            page.prefix(b"\\nannounces ", &prefix_of(scene.cex.packet.dst, a.len));
        }
    }
}

/// Puts an external peer, and its session.
fn put_peer(page: &mut Page, scene: &Scene<'_>, at: u32, end: &SessionEnd, neighbour: &Neighbour) {
    page.counted(b"  e", at);
    page.address(b" [shape=ellipse, label=\"", neighbour.addr);
    page.counted(b"\\nAS ", neighbour.asn);
    put_announced(page, scene, at);
    page.counted(b"\"];\n  r", end.router);
    page.counted(b" -> e", at);
    if scene.net.is_up(&scene.cex.failures, end.own) {
        page.bytes(b" [dir=none];\n")
    } else {
        page.bytes(b" [dir=none, label=\"failed\", style=dashed, color=gray];\n")
    }
}

/// Puts the external peers.
fn put_peers(page: &mut Page, scene: &Scene<'_>) {
    let mut at = 0u32;
    for end in scene.net.ends() {
        if is_outside(end) {
            if let Some(neighbour) = neighbour_of(scene.net.routers(), end) {
                put_peer(page, scene, at, end, neighbour);
            }
        }
        at = at.saturating_add(1);
    }
}

/// Puts the way from one router to the next.
fn put_way(page: &mut Page, from: u32, to: u32) {
    put_edge(page, from, to);
    page.bytes(b" [color=red, penwidth=2];\n")
}

/// Puts the ways between the standings.
fn put_ways(page: &mut Page, standings: &[Start]) {
    let mut before: Option<u32> = None;
    for standing in standings {
        if let Some(from) = before {
            put_way(page, from, standing.router);
        }
        before = Some(standing.router);
    }
}

/// Puts the end of the walk as a node, and the way to it.
fn put_ended(page: &mut Page, router: u32, end: &End) {
    page.put(&[
        b"  end [shape=octagon, color=red, label=\"",
        end_words(end),
        b"\"];\n",
    ]);
    page.counted(b"  r", router);
    page.bytes(b" -> end [color=red, penwidth=2];\n")
}

/// Whether an end is the session of the router with an external peer of that address.
fn is_peer(scene: &Scene<'_>, router: u32, a: Addr, end: &SessionEnd) -> bool {
    end.router == router
        && is_outside(end)
        && match neighbour_of(scene.net.routers(), end) {
            None => false,
            Some(neighbour) => neighbour.addr == a,
        }
}

/// The external peer of the router with that address, by its place among all ends.
fn peer_at(scene: &Scene<'_>, router: u32, a: Addr) -> Option<u32> {
    let mut at = 0u32;
    for end in scene.net.ends() {
        if is_peer(scene, router, a, end) {
            return Some(at);
        }
        at = at.saturating_add(1);
    }
    None
}

/// Puts the way out of the network.
fn put_left(page: &mut Page, scene: &Scene<'_>, router: u32, a: Addr, end: &End) {
    match peer_at(scene, router, a) {
        None => put_ended(page, router, end),
        Some(at) => {
            page.counted(b"  r", router);
            page.counted(b" -> e", at);
            page.bytes(b" [color=red, penwidth=2];\n")
        }
    }
}

/// Puts how a walk ends that stood last at a router.
fn put_last(page: &mut Page, scene: &Scene<'_>, router: u32, end: &End) {
    match end {
        End::Left(a) => put_left(page, scene, router, *a, end),
        End::DeniedIn(i) => {
            if i.router != router {
                put_way(page, router, i.router);
            }
            put_ended(page, i.router, end)
        }
        _ => put_ended(page, router, end),
    }
}

/// Puts a walk.
fn put_walk(page: &mut Page, scene: &Scene<'_>, walk: &Walk) {
    put_ways(page, walk.hops.as_slice());
    match (walk.hops.as_slice().last(), &walk.end) {
        (Some(standing), _) => put_last(page, scene, standing.router, &walk.end),
        (None, End::DeniedIn(i)) => put_ended(page, i.router, &walk.end),
        (None, _) => {}
    }
}

/// The graph of a counterexample. The one error is want of memory.
pub fn drawing(alloc: Global, scene: &Scene<'_>) -> Result<List<u8>, AllocError> {
    let mut page = Page::new(alloc);
    page.bytes(b"digraph \"");
    page.quoted(scene.question.name.as_slice());
    page.bytes(b"\" {\n  rankdir=LR;\n  node [shape=box];\n");
    put_routers(&mut page, scene);
    put_links(&mut page, scene);
    put_peers(&mut page, scene);
    if let Some(walk) = &scene.cex.walk {
        put_walk(&mut page, scene, walk);
    }
    page.bytes(b"}\n");
    page.done()
}
