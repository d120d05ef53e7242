//! The next hops of all routers, with the ends that a question looks for.

ghost use Rattle.std.specs.Prelude.{◌≡◌, Contains, None, true, false, IfOk, IfSome};
ghost use Rattle.proto_ospf.specs.Reached.{all_reached};
ghost use Rattle.question_lang.specs.declared.walk.End.{End as EndOf};
ghost use Rattle.sym_forwarding.specs.Forwardings.{IsAtTarget, IsSought};
ghost use Rattle.walk_finder.specs.Sought.{AreRows, IsRow};

use crate::rows::Row;
use mw_text::List;
use net_model::Net;
use proto_ospf::{Reached, all_distances};
use question_lang::{End, Hop, Kind, Target};
use route_record::World;
use std::alloc::{AllocError, Global};
use walk_def::arriving::{is_target_router, target_end};
use walk_def::breaking::{is_black_hole, is_same_end};
use walk_def::hops::list_hops;

// Whether a walk that ends so at that router ends at the target.
fn is_at_target(net: &Net, world: &World, target: &Target, router: u32, end: &End) -> bool
    ensures yes { result ≡ true → IsAtTarget net.now.files world.now target.now router end.now }
    ensures no { result ≡ false → IsAtTarget net.now.files world.now target.now router end.now → ⊥ }
{
    is_same_end(end, &target_end(target)) && is_target_router(net, world, target, router)
}

// Whether the question looks for walks that end so at that router.
fn is_sought(net: &Net, world: &World, kind: &Kind, router: u32, end: &End) -> bool
    ensures yes { result ≡ true → IsSought net.now.files world.now kind.now router end.now }
    ensures no { result ≡ false → IsSought net.now.files world.now kind.now router end.now → ⊥ }
{
    match kind {
        Kind::Reach(_, target) => !is_at_target(net, world, target, router, end),
        Kind::Isolate(_, target) => is_at_target(net, world, target, router, end),
        Kind::Waypoint(_, target, _) => is_at_target(net, world, target, router, end),
        Kind::NoLoop(_) => false,
        Kind::NoBlackHole(_) => is_black_hole(end),
        Kind::Within(_, _) => false,
        Kind::Alike(_, _, target) => is_at_target(net, world, target, router, end),
        Kind::NoStable => false,
    }
}

// The end of the hop, where it is one that the question looks for.
fn sought_here(net: &Net, world: &World, kind: &Kind, router: u32, hop: &Hop) -> Option<End>
    ensures some { IfSome result (λ end. (hop.now ≡ Hop.Ends end) × IsSought net.now.files world.now kind.now router end) }
    ensures none { result ≡ None → (end : EndOf) → hop.now ≡ Hop.Ends end →
        IsSought net.now.files world.now kind.now router end → ⊥ }
{
    match hop {
        Hop::To(_) => None,
        Hop::Ends(end) => {
            if is_sought(net, world, kind, router, end) {
                Some(*end)
            } else {
                None
            }
        }
    }
}

// The first end among the hops of a router that the question looks for.
fn sought_end(net: &Net, world: &World, kind: &Kind, router: u32, own: &[Hop]) -> Option<End>
    ensures some { IfSome result (λ end. Contains own.now (Hop.Ends end)
        × IsSought net.now.files world.now kind.now router end) }
    ensures none { result ≡ None → (end : EndOf) → Contains own.now (Hop.Ends end) →
        IsSought net.now.files world.now kind.now router end → ⊥ }
{
    for hop in own {
        if let Some(end) = sought_here(net, world, kind, router, hop) {
            return Some(end);
        }
    }
    None
}

fn row_of(
    alloc: Global,
    net: &Net,
    world: &World,
    all: &[Reached],
    kind: &Kind,
    router: u32,
) -> Result<Row, AllocError>
    requires { all.now ≡ all_reached net.now.files world.now.failures }
    ensures { IfOk result (IsRow net.now.files world.now kind.now router) }
{
    let hops = list_hops(alloc, net, world, all, router)?;
    let end = sought_end(net, world, kind, router, hops.as_slice());
    Ok(Row { hops, end })
}

/// The rows of all routers, for a question of that kind.
pub fn rows_of(
    alloc: Global,
    net: &Net,
    world: &World,
    kind: &Kind,
) -> Result<List<Row>, AllocError>
    ensures { IfOk result (AreRows net.now.files world.now kind.now) }
{
    let distances = all_distances(alloc, net, &world.failures)?;
    let mut rows = List::new(alloc);
    for at in 0..net.routers().len() {
        let row = row_of(alloc, net, world, distances.as_slice(), kind, at as u32)?;
        rows.items.push(row)?;
    }
    Ok(rows)
}
