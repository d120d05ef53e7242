//! What a router does with the packet.

use crate::entries::{longest_of, put_found};
use crate::page::Page;
use crate::places::{addressed, own_at, own_on, own_over, put_iface};
use crate::scenes::Scene;
use ios_ast::File;
use mw_text::Addr;
use net_model::{Addressed, IfaceId};
use question_lang::{End, Start};
use std::alloc::{AllocError, Global};

/// A leg of the walk: the router, the address to which it sends the packet, and the interface by which that goes out, as
/// far as these are known.
#[derive(Clone, Copy)]
pub struct Leg {
    pub router: u32,
    pub to: Option<Addr>,
    pub out: Option<IfaceId>,
}

/// The interfaces of a router that have an address and are up.
fn own_up(alloc: Global, scene: &Scene<'_>, router: u32) -> Result<Vec<Addressed>, AllocError> {
    scene
        .net
        .addresses()
        .iter()
        .copied()
        .filter(|x| x.id.router == router && scene.net.is_up_with(&scene.cex.failures, x))
        .collect(alloc)
}

fn id_of(x: Option<&Addressed>) -> Option<IfaceId> {
    match x {
        None => None,
        Some(x) => Some(x.id),
    }
}

/// The leg to an interface of the next router, over the subnet that both share.
fn leg_in(scene: &Scene<'_>, own: &[Addressed], router: u32, i: IfaceId) -> Leg {
    match addressed(scene, i) {
        None => Leg {
            router,
            to: None,
            out: None,
        },
        Some(x) => Leg {
            router,
            to: Some(x.addr),
            out: id_of(own_on(own, &x.subnet)),
        },
    }
}

/// The leg out of the network to an address.
fn leg_out(own: &[Addressed], router: u32, a: Addr) -> Leg {
    Leg {
        router,
        to: Some(a),
        out: id_of(own_over(own, a)),
    }
}

/// The leg on which the walk ends.
fn last_leg(scene: &Scene<'_>, own: &[Addressed], router: u32, end: &End) -> Leg {
    match end {
        End::Left(a) => leg_out(own, router, *a),
        End::DeniedIn(i) => leg_in(scene, own, router, *i),
        _ => Leg {
            router,
            to: None,
            out: None,
        },
    }
}

/// The leg from a router to the next standing.
fn leg_to(scene: &Scene<'_>, own: &[Addressed], router: u32, next: &Start) -> Leg {
    match next.iface {
        None => Leg {
            router,
            to: None,
            out: None,
        },
        Some(at) => leg_in(
            scene,
            own,
            router,
            IfaceId {
                router: next.router,
                at,
            },
        ),
    }
}

/// Puts that a router has the destination itself, or the entry of its table that sends the packet on.
fn put_decision(page: &mut Page, scene: &Scene<'_>, own: &[Addressed], leg: &Leg, file: &File) {
    let dst = scene.cex.packet.dst;
    if let Some(x) = own_at(own, dst) {
        page.address(b"    has ", dst);
        put_iface(page, scene, b" on ", x.id);
        page.bytes(b"\n");
        return;
    }
    match longest_of(&scene.cex.tables, leg.router) {
        None => {
            page.address(b"    no entry of its table has ", dst);
            page.bytes(b"\n")
        }
        Some(found) => put_found(page, scene, own, leg, file, &found),
    }
}

/// Puts what a router does on a leg.
fn put_leg(page: &mut Page, scene: &Scene<'_>, own: &[Addressed], leg: &Leg) {
    if let Some(file) = scene.net.routers().get(leg.router as usize) {
        put_decision(page, scene, own, leg, file);
    }
    if let Some(out) = leg.out {
        put_iface(page, scene, b"    out of ", out);
        page.bytes(b"\n");
    }
}

/// What the router of a standing does: to the next standing, or with the end of the walk where there is none. At a loop's
/// end and where the walk goes on nothing is said, since the walk does not leave from there.
pub fn step_text(
    page: &mut Page,
    scene: &Scene<'_>,
    now: &Start,
    next: Option<&Start>,
    end: &End,
) -> Result<(), AllocError> {
    let own = own_up(page.alloc, scene, now.router)?;
    let leg = match next {
        Some(next) => leg_to(scene, own.as_slice(), now.router, next),
        None => last_leg(scene, own.as_slice(), now.router, end),
    };
    put_leg(page, scene, own.as_slice(), &leg);
    Ok(())
}
