//! What external peers announce.

use crate::page::Page;
use crate::places::{put_line, router_name};
use crate::routes::put_attributes;
use crate::scenes::Scene;
use ios_ast::Neighbour;
use mw_text::prefix_of;
use net_model::SessionEnd;
use net_parts::ends::neighbour_of;
use route_record::Announcement;

/// Puts an external peer, and the router to which it speaks.
fn put_peer(page: &mut Page, scene: &Scene<'_>, end: &SessionEnd, neighbour: &Neighbour) {
    page.address(b"  announced by ", neighbour.addr);
    page.counted(b" of AS ", neighbour.asn);
    page.put(&[b" to ", router_name(scene.net.routers(), end.router)]);
    put_line(page, scene, end.router, neighbour.line)
}

/// Puts an announcement over the session of that end.
fn put_over(page: &mut Page, scene: &Scene<'_>, a: &Announcement, end: &SessionEnd) {
    if let Some(neighbour) = neighbour_of(scene.net.routers(), end) {
        put_peer(page, scene, end, neighbour);
        page.prefix(b": ", &prefix_of(scene.cex.packet.dst, a.len));
        page.bytes(b", ");
        put_attributes(page, &a.path, a.med, a.origin, &a.communities);
        page.bytes(b"\n")
    }
}

/// Puts what external peers announce.
pub fn put_announcements(page: &mut Page, scene: &Scene<'_>) {
    for a in scene.cex.env.announced.as_slice() {
        if let Some(end) = scene.net.ends().get(a.end as usize) {
            put_over(page, scene, a, end);
        }
    }
}
