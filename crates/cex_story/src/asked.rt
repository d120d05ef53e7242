//! What a question wants, in words.

use crate::page::Page;
use crate::places::{iface_name, router_name};
use crate::scenes::Scene;
use net_model::IfaceId;
use question_lang::{Kind, Start, Target};

/// Puts a router, and the interface at which a packet comes in there.
fn put_start(page: &mut Page, scene: &Scene<'_>, words: &[u8], start: &Start) {
    let files = scene.net.routers();
    page.put(&[words, router_name(files, start.router)]);
    if let Some(at) = start.iface {
        let i = IfaceId {
            router: start.router,
            at,
        };
        page.put(&[b", in by ", iface_name(files, i)]);
    }
}

/// Puts a target.
fn put_target(page: &mut Page, scene: &Scene<'_>, words: &[u8], target: &Target) {
    let files = scene.net.routers();
    page.bytes(words);
    match target {
        Target::Router(router) => page.put(&[b"router ", router_name(files, *router)]),
        Target::Subnet(p) => page.prefix(b"subnet ", p),
        Target::Peer { router, addr } => {
            page.address(b"peer ", *addr);
            page.put(&[b" of ", router_name(files, *router)])
        }
    }
}

/// Puts where a walk from a start should end, or should not.
fn put_reach(page: &mut Page, scene: &Scene<'_>, words: &[u8], start: &Start, target: &Target) {
    put_start(page, scene, words, start);
    put_target(page, scene, b" ends at ", target)
}

/// Puts that of two routers.
fn put_alike(page: &mut Page, scene: &Scene<'_>, a: u32, b: u32, target: &Target) {
    let files = scene.net.routers();
    page.put(&[
        b"from both of ",
        router_name(files, a),
        b" and ",
        router_name(files, b),
        b", or from neither, a walk ends at ",
    ]);
    put_target(page, scene, b"", target)
}

/// Puts that a walk stands at a router.
fn put_waypoint(page: &mut Page, scene: &Scene<'_>, start: &Start, target: &Target, via: u32) {
    put_start(page, scene, b"every walk from ", start);
    put_target(page, scene, b" that ends at ", target);
    page.put(&[b" passes ", router_name(scene.net.routers(), via)])
}

/// Puts how many hops a walk has at most.
fn put_within(page: &mut Page, scene: &Scene<'_>, start: &Start, most: u32) {
    put_start(page, scene, b"every walk from ", start);
    page.counted(b" has at most ", most);
    page.bytes(if most == 1 { b" hop" } else { b" hops" })
}

/// Puts what the question wants.
pub fn put_wanted(page: &mut Page, scene: &Scene<'_>) {
    page.bytes(b"  wanted: ");
    match &scene.question.kind {
        Kind::Reach(start, target) => put_reach(page, scene, b"every walk from ", start, target),
        Kind::Isolate(start, target) => put_reach(page, scene, b"no walk from ", start, target),
        Kind::Waypoint(start, target, via) => put_waypoint(page, scene, start, target, *via),
        Kind::NoLoop(start) => {
            put_start(page, scene, b"no walk from ", start);
            page.bytes(b" comes back to a router")
        }
        Kind::NoBlackHole(start) => {
            put_start(page, scene, b"no walk from ", start);
            page.bytes(b" ends without a route or at Null0")
        }
        Kind::Within(most, start) => put_within(page, scene, start, *most),
        Kind::Alike(a, b, target) => put_alike(page, scene, *a, *b, target),
        Kind::NoStable => page.bytes(b"no stable routing"),
    }
    page.bytes(b"\n")
}
