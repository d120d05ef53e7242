//! How a walk ends.

ghost use Rattle.std.specs.Prelude.{◌≡◌};
ghost use Rattle.cex_story.specs.Stories as stories;

use crate::lists::{denies, put_list};
use crate::page::Page;
use crate::places::{iface_at, iface_name, router_name};
use crate::scenes::Scene;
use ios_ast::{File, Iface, Use};
use mw_text::Addr;
use net_model::IfaceId;
use net_parts::ends::neighbour_of;
use question_lang::End;

/// The words for an end.
pub fn end_words(end: &End) -> &'static [u8]
    ensures { result.now ≡ stories.end_words end.now }
{
    match end {
        End::Delivered => b"delivered",
        End::Left(_) => b"left the network",
        End::NoRoute => b"no route",
        End::Discarded => b"discarded at Null0",
        End::DeniedIn(_) => b"denied coming in",
        End::DeniedOut => b"denied going out",
        End::Loop => b"a loop",
        End::Open => b"further on",
    }
}

/// Puts the in list of an interface, which denies the packet.
fn put_list_in(page: &mut Page, scene: &Scene<'_>, i: IfaceId, file: &File) {
    page.put(&[b" by ", iface_name(scene.net.routers(), i)]);
    if let Some(iface) = iface_at(scene.net.routers(), i) {
        if let Some(named) = &iface.list_in {
            put_list(page, scene, i.router, file, named);
        }
    }
}

/// Puts that the packet is denied as it comes in there.
fn put_denied_in(page: &mut Page, scene: &Scene<'_>, i: IfaceId) {
    let files = scene.net.routers();
    page.put(&[b", at ", router_name(files, i.router)]);
    if let Some(file) = files.get(i.router as usize) {
        put_list_in(page, scene, i, file);
    }
}

/// Puts an out list that denies the packet.
fn put_out(
    page: &mut Page,
    scene: &Scene<'_>,
    router: u32,
    file: &File,
    iface: &Iface,
    named: &Use,
) {
    if denies(file, named, &scene.cex.packet) {
        page.put(&[b", by ", iface.name.as_slice()]);
        put_list(page, scene, router, file, named);
    }
}

/// Puts the interfaces of a router whose out lists deny the packet: it is one of them by which the router sends it.
fn put_denied_out(page: &mut Page, scene: &Scene<'_>, router: u32, file: &File) {
    for iface in file.interfaces.as_slice() {
        if let Some(named) = &iface.list_out {
            put_out(page, scene, router, file, iface, named);
        }
    }
}

/// Puts the external peer of a router that has that address.
fn put_outside(page: &mut Page, scene: &Scene<'_>, router: u32, a: Addr) {
    let files = scene.net.routers();
    page.address(b" to ", a);
    for end in scene.net.ends() {
        if end.router == router {
            if let Some(neighbour) = neighbour_of(files, end) {
                if neighbour.addr == a {
                    page.counted(b" of AS ", neighbour.asn);
                }
            }
        }
    }
}

/// Puts what is to be said of an end beside its words, where the walk stood last at that router.
fn put_more(page: &mut Page, scene: &Scene<'_>, router: u32, end: &End) {
    let files = scene.net.routers();
    page.put(&[b", at ", router_name(files, router)]);
    match end {
        End::Left(a) => put_outside(page, scene, router, *a),
        End::DeniedOut => {
            if let Some(file) = files.get(router as usize) {
                put_denied_out(page, scene, router, file);
            }
        }
        End::Loop => page.bytes(b", where it was before"),
        _ => {}
    }
}

/// Puts what is to be said of the end beside its words.
pub fn put_end(page: &mut Page, scene: &Scene<'_>, last: Option<u32>, end: &End) {
    match (end, last) {
        (End::DeniedIn(i), _) => put_denied_in(page, scene, *i),
        (_, Some(router)) => put_more(page, scene, router, end),
        (_, None) => {}
    }
    page.bytes(b"\n")
}
