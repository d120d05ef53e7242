//! Routes that are followed back over the sessions over which they were learnt.

ghost use Rattle.std.specs.Prelude.{◌≡◌, ◌<◌, ◌≤◌, ◌+◌, ◌*◌, ◌^◌, IfOk, IfSome, Some, length, option_and_then};
ghost use Rattle.std.specs.Prelude.{slice_get};
ghost use Rattle.std.specs.List.{find};
ghost use Rattle.std.specs.Option.{option_copied};
ghost use Rattle.route_record.specs.Places.{slot_at};
ghost use Rattle.net_parts.specs.Exports as exports;
ghost use Rattle.net_parts.specs.Sessions as sessions;
ghost use Rattle.bgp_shapes.specs.Held.{same_shape};
ghost use Rattle.route_shapes.specs.Bgp.{bgp_shape};
ghost use Rattle.rebuilt_routes.specs.Following as routes;
ghost use Rattle.path_rebuild.specs.Shapes.{AreFew, route_of};
ghost use Rattle.path_rebuild.specs.Sources.{router_behind, source_of};
ghost use Rattle.path_rebuild.specs.Tables.{known_at, slots_of};

use crate::ShapeRec;
use crate::shapes::has_shape;
use mw_text::{Addr, List, Prefix};
use net_model::{Far, Net, SessionEnd};
use net_parts::ends::is_towards;
use proto_bgp::{export, import};
use proto_rib::originate;
use route_candidates::from_outside;
use route_record::{BgpMsg, BgpRec, Environment, LENGTHS, Learnt, Slot, Tables, Tracked};
use std::alloc::{AllocError, Global};

// ---- what is known of a route

/// What routes for a prefix are followed back by: what external peers announce, the shapes by router and then by prefix
/// length, and the tables without these routes.
#[derive(Clone, Copy)]
struct Solution<'a> {
    net: &'a Net,
    env: &'a Environment,
    held: &'a [Option<ShapeRec>],
    rest: &'a Tables,
    p: &'a Prefix,
}

// The shape that stands for a router and a prefix length.
fn known_at(held: &[Option<ShapeRec>], len: u8, router: u32) -> Option<&ShapeRec>
    ensures { option_copied result ≡ known_at held.now len router }
{
    match held.get(LENGTHS * router as usize + len as usize) {
        None => None,
        Some(known) => known.as_ref(),
    }
}

// The end of the router whose neighbour has that address, with its place.
#[tactic(auto, using(crate::proofs::Ends::numbered_here, crate::proofs::Ends::numbered_next, crate::proofs::Ends::numbered_none, route_candidates::proofs::FewEnds::few_ends))]
fn numbered_end(net: &Net, router: u32, a: Addr) -> Option<(u32, SessionEnd)>
    ensures value { result ≡ routes.numbered_end net.now.files router (2 ^ 32 + a.0) }
    ensures within { IfSome result (λ e. e.0 < length (sessions.ends_of net.now.files)) }
    ensures there { IfSome result (λ e. slice_get (sessions.ends_of net.now.files) e.0 ≡ Some e.1) }
{
    let files = net.routers();
    for (at, end) in net.ends().iter().enumerate() {
        if is_towards(files, router, a, end) {
            return Some((at as u32, *end));
        }
    }
    None
}

// The router at the far side of a session.
fn router_behind(net: &Net, end: &SessionEnd) -> Option<u32>
    ensures { result ≡ router_behind net.now.files end.now.far }
{
    match end.far {
        Far::Outside => None,
        Far::Inside(far_at) => match net.ends().get(far_at as usize) {
            None => None,
            Some(far) => Some(far.router),
        },
    }
}

// The router from which a route was learnt.
fn source(net: &Net, router: u32, known: &ShapeRec) -> Option<u32>
    ensures { result ≡ source_of net.now.files router (route_of net.now.tracked known.now) }
{
    match known.rec.from {
        Learnt::Local => None,
        Learnt::Peer(a) => match numbered_end(net, router, a) {
            None => None,
            Some((_, end)) => router_behind(net, &end),
        },
    }
}

// ---- a local route

// The first of some routes that has the shape.
fn first_of_shape(routes: List<BgpRec>, tracked: &Tracked, known: &ShapeRec) -> Option<BgpRec>
    requires { AreFew tracked.now }
    ensures { result ≡ find (λ r. same_shape (bgp_shape tracked.now r) (route_of tracked.now known.now)) routes }
{
    routes
        .items
        .into_iter()
        .find(|rec| has_shape(tracked, rec, known))
}

// The first local route of that shape that the router has beside the rest of its slot.
fn local_route(
    alloc: Global,
    solution: &Solution<'_>,
    router: u32,
    known: &ShapeRec,
) -> Result<Option<BgpRec>, AllocError>
    requires { AreFew solution.now.net.now.tracked }
    ensures { IfOk result (λ r. r ≡ find (λ q. same_shape (bgp_shape solution.now.net.now.tracked q)
        (route_of solution.now.net.now.tracked known.now))
        (routes.own_routes solution.now.net.now.files (slots_of solution.now.net.now.tracked solution.now.held.now
        solution.now.rest.now solution.now.p.now.len) solution.now.p.now router)) }
{
    let Some(slot) = solution.rest.slot(router, solution.p.len) else {
        return Ok(None);
    };
    let bare = Slot {
        ospf: slot.ospf,
        bgp: None,
        rib: slot.rib,
    };
    let routes = originate(alloc, solution.net, router, solution.p, &bare)?;
    Ok(first_of_shape(routes, solution.net.tracked(), known))
}

// ---- a route that was learnt

// What the far router sends of its route, if it has one.
fn from_inside(
    alloc: Global,
    net: &Net,
    p: &Prefix,
    far_at: u32,
    route: &Option<BgpRec>,
) -> Result<Option<BgpMsg>, AllocError>
    ensures { IfOk result (λ msg. msg ≡ option_and_then (λ far. option_and_then (exports.exported net.now.files far p.now)
        route.now) (slice_get (sessions.ends_of net.now.files) far_at)) }
{
    if net.ends().len() <= far_at as usize {
        return Ok(None);
    }
    match route {
        None => Ok(None),
        Some(held) => export(alloc, net, far_at, p, held),
    }
}

// The message that arrives over the session of an end, where the far router has that route.
#[tactic(auto, unfolding(rebuilt_routes::specs::Following::arriving_of))]
fn arriving(
    alloc: Global,
    solution: &Solution<'_>,
    at: u32,
    end: &SessionEnd,
    route: &Option<BgpRec>,
) -> Result<Option<BgpMsg>, AllocError>
    ensures { IfOk result (λ msg. msg ≡ routes.arriving_of solution.now.net.now.files solution.now.env.now
        (λ _. route.now) solution.now.p.now at end.now) }
{
    match end.far {
        Far::Outside => from_outside(alloc, solution.net, solution.env, solution.p, at, end),
        Far::Inside(far_at) => from_inside(alloc, solution.net, solution.p, far_at, route),
    }
}

// What the router makes of the message that arrives from the neighbour with that address, where the far router has that
// route.
fn learnt_route(
    alloc: Global,
    solution: &Solution<'_>,
    router: u32,
    a: Addr,
    route: &Option<BgpRec>,
) -> Result<Option<BgpRec>, AllocError>
    ensures { IfOk result (λ r. r ≡ option_and_then (λ e. option_and_then
        (exports.imported solution.now.net.now.files e.1 solution.now.p.now)
        (routes.arriving_of solution.now.net.now.files solution.now.env.now (λ _. route.now) solution.now.p.now e.0 e.1))
        (routes.numbered_end solution.now.net.now.files router (2 ^ 32 + a.0))) }
{
    let Some((at, end)) = numbered_end(solution.net, router, a) else {
        return Ok(None);
    };
    match arriving(alloc, solution, at, &end, route)? {
        None => Ok(None),
        Some(msg) => import(alloc, solution.net, at, solution.p, &msg),
    }
}

// The route of the router whose shape is known, where the router from which it was learnt has that route.
#[tactic(auto, using(crate::proofs::Steps::has_address))]
fn follow(
    alloc: Global,
    solution: &Solution<'_>,
    router: u32,
    known: &ShapeRec,
    route: &Option<BgpRec>,
) -> Result<Option<BgpRec>, AllocError>
    requires { AreFew solution.now.net.now.tracked }
    ensures { IfOk result (λ r. r ≡ routes.followed solution.now.net.now.tracked solution.now.net.now.files
        solution.now.env.now (slots_of solution.now.net.now.tracked solution.now.held.now solution.now.rest.now
        solution.now.p.now.len) solution.now.p.now (λ _. route.now) router
        (route_of solution.now.net.now.tracked known.now)) }
{
    match known.rec.from {
        Learnt::Local => local_route(alloc, solution, router, known),
        Learnt::Peer(a) => learnt_route(alloc, solution, router, a, route),
    }
}

// The shape that stands for a router that has a slot for the prefix.
fn held_at<'a>(
    held: &'a [Option<ShapeRec>],
    rest: &Tables,
    len: u8,
    router: u32,
) -> Option<&'a ShapeRec>
    ensures { option_copied result ≡ option_and_then (λ _. known_at held.now len router) (slot_at rest.now router len) }
{
    match rest.slot(router, len) {
        None => None,
        Some(_) => known_at(held, len, router),
    }
}

/// The route of a router for the prefix, followed back over the sessions of so many routers at most: where its shape is
/// that of a local route, the first local route of that shape that the router has beside the rest of its slot; and else
/// what the router makes of what the far side of the session really sends. `env` is what external peers announce, and
/// `held` has the shapes by router and then by prefix length. None where the router has no shape, or the way back does
/// not end.
#[tactic(auto, using(crate::proofs::Steps::real_none, crate::proofs::Steps::real_unknown, crate::proofs::Steps::real_more))]
pub fn real_route(
    alloc: Global,
    net: &Net,
    env: &Environment,
    held: &[Option<ShapeRec>],
    rest: &Tables,
    p: &Prefix,
    fuel: u32,
    router: u32,
) -> Result<Option<BgpRec>, AllocError>
    requires { AreFew net.now.tracked }
    ensures { IfOk result (λ r. r ≡ routes.real_route net.now.tracked net.now.files env.now
        (slots_of net.now.tracked held.now rest.now p.now.len) p.now fuel router) }
{
    if fuel == 0 {
        return Ok(None);
    }
    let Some(known) = held_at(held, rest, p.len, router) else {
        return Ok(None);
    };
    let route = match source(net, router, known) {
        None => None,
        Some(far) => real_route(alloc, net, env, held, rest, p, fuel - 1, far)?,
    };
    let solution = Solution {
        net,
        env,
        held,
        rest,
        p,
    };
    follow(alloc, &solution, router, known, &route)
}
