//! A walk that breaks a question, for each kind.

ghost use Rattle.std.specs.Prelude.{◌≡◌, ◌⊎◌, None, Some, true, false, set, IfOk, IfSome};
ghost use Rattle.question_lang.specs.declared.question.Target.{Target as TargetOf};
ghost use Rattle.question_lang.specs.Breaking as breaking;
ghost use Rattle.question_lang.specs.Walks.{IsTestedIn};
ghost use Rattle.sym_forwarding.specs.Forwardings.{IsDenied};
ghost use Rattle.sym_forwarding.specs.Layers.{arrives, loops};
ghost use Rattle.walk_finder.specs.Following.{EndsOrLoops};
ghost use Rattle.walk_finder.specs.Rows.{silent_row, table_of};
ghost use Rattle.walk_finder.specs.Sought.{IsBroken, IsDeniedWalk};

use crate::following::{find_end, find_hops, find_round};
use crate::rows::Row;
use crate::sought::rows_of;
use mw_text::List;
use net_model::{IfaceId, Net};
use question_lang::{End, Kind, Start, Target, Walk};
use route_record::World;
use std::alloc::{AllocError, Global};
use walk_def::is_walk;

// The walk that stands nowhere, where the in list of the interface denies the packet.
fn denied_at(
    alloc: Global,
    net: &Net,
    world: &World,
    i: IfaceId,
) -> Result<Option<Walk>, AllocError>
    ensures some { IfOk result (λ found. IfSome found (IsDeniedWalk net.now.files world.now i)) }
    ensures none { IfOk result (λ found. found ≡ None → IsTestedIn net.now.files world.now i false → ⊥) }
{
    let walk = Walk {
        hops: List::new(alloc),
        end: End::DeniedIn(i),
    };
    if is_walk(alloc, net, world, &walk)? {
        return Ok(Some(walk));
    }
    Ok(None)
}

// The walk that is denied at the start, which breaks that any target is reached.
fn find_denied(
    alloc: Global,
    net: &Net,
    world: &World,
    start: Start,
) -> Result<Option<Walk>, AllocError>
    ensures some { IfOk result (λ found. IfSome found (λ walk. (target : TargetOf) →
        breaking.Breaks net.now.files world.now (Kind.Reach start target) (Some walk))) }
    ensures none { IfOk result (λ found. found ≡ None → IsDenied net.now.files world.now start → ⊥) }
{
    match start.iface {
        None => Ok(None),
        Some(at) => {
            let i = IfaceId {
                router: start.router,
                at,
            };
            let found = denied_at(alloc, net, world, i)?;
            Ok(found)
        }
    }
}

// A walk that ends as looked for, or else one that comes back to where it stood.
fn end_or_round(alloc: Global, rows: &[Row], start: Start) -> Result<Walk, AllocError>
    requires { (arrives (table_of rows.now) start.router ≡ true) ⊎ (loops (table_of rows.now) start.router ≡ true) }
    ensures { IfOk result (EndsOrLoops rows.now start) }
{
    if let Some(walk) = find_end(alloc, rows, start)? {
        return Ok(walk);
    }
    let walk = find_round(alloc, rows, start)?;
    Ok(walk)
}

// A walk that ends, and not at the target.
fn reach_walk(
    alloc: Global,
    net: &Net,
    world: &World,
    start: Start,
    target: Target,
) -> Result<Option<Walk>, AllocError>
    requires { IsBroken net.now.files world.now (Kind.Reach start target) }
    ensures { IfOk result (breaking.Breaks net.now.files world.now (Kind.Reach start target)) }
{
    let denied = find_denied(alloc, net, world, start)?;
    if denied.is_some() {
        return Ok(denied);
    }
    let rows = rows_of(alloc, net, world, &Kind::Reach(start, target))?;
    let walk = end_or_round(alloc, rows.as_slice(), start)?;
    Ok(Some(walk))
}

// A walk that ends at the target.
fn isolate_walk(
    alloc: Global,
    net: &Net,
    world: &World,
    start: Start,
    target: Target,
) -> Result<Option<Walk>, AllocError>
    requires { IsBroken net.now.files world.now (Kind.Isolate start target) }
    ensures { IfOk result (breaking.Breaks net.now.files world.now (Kind.Isolate start target)) }
{
    let rows = rows_of(alloc, net, world, &Kind::Isolate(start, target))?;
    let found = find_end(alloc, rows.as_slice(), start)?;
    Ok(found)
}

// These rows, where that router does nothing with the packet.
fn without(alloc: Global, rows: List<Row>, via: u32) -> List<Row>
    ensures { result ≡ set rows via silent_row }
{
    let mut rows = rows;
    if (via as usize) < rows.items.len() {
        rows.items[via as usize] = Row {
            hops: List::new(alloc),
            end: None,
        };
    }
    rows
}

// A walk that ends at the target and does not stand at the waypoint.
fn waypoint_walk(
    alloc: Global,
    net: &Net,
    world: &World,
    start: Start,
    target: Target,
    via: u32,
) -> Result<Option<Walk>, AllocError>
    requires { IsBroken net.now.files world.now (Kind.Waypoint start target via) }
    ensures { IfOk result (breaking.Breaks net.now.files world.now (Kind.Waypoint start target via)) }
{
    let rows = rows_of(alloc, net, world, &Kind::Waypoint(start, target, via))?;
    let others = without(alloc, rows, via);
    let found = find_end(alloc, others.as_slice(), start)?;
    Ok(found)
}

// A walk that comes back to where it stood.
fn loop_walk(
    alloc: Global,
    net: &Net,
    world: &World,
    start: Start,
) -> Result<Option<Walk>, AllocError>
    requires { IsBroken net.now.files world.now (Kind.NoLoop start) }
    ensures { IfOk result (breaking.Breaks net.now.files world.now (Kind.NoLoop start)) }
{
    let rows = rows_of(alloc, net, world, &Kind::NoLoop(start))?;
    let walk = find_round(alloc, rows.as_slice(), start)?;
    Ok(Some(walk))
}

// A walk that ends without a route or at Null0.
fn lost_walk(
    alloc: Global,
    net: &Net,
    world: &World,
    start: Start,
) -> Result<Option<Walk>, AllocError>
    requires { IsBroken net.now.files world.now (Kind.NoBlackHole start) }
    ensures { IfOk result (breaking.Breaks net.now.files world.now (Kind.NoBlackHole start)) }
{
    let rows = rows_of(alloc, net, world, &Kind::NoBlackHole(start))?;
    let found = find_end(alloc, rows.as_slice(), start)?;
    Ok(found)
}

// A walk that has one hop more than allowed.
fn long_walk(
    alloc: Global,
    net: &Net,
    world: &World,
    most: u32,
    start: Start,
) -> Result<Option<Walk>, AllocError>
    requires { IsBroken net.now.files world.now (Kind.Within most start) }
    ensures { IfOk result (breaking.Breaks net.now.files world.now (Kind.Within most start)) }
{
    let rows = rows_of(alloc, net, world, &Kind::Within(most, start))?;
    let walk = find_hops(alloc, rows.as_slice(), start, most as usize + 1)?;
    Ok(Some(walk))
}

// At a router, without an incoming interface.
fn at_router(router: u32) -> Start
    ensures { result ≡ breaking.at_router router }
{
    Start {
        router,
        iface: None,
    }
}

// A walk that ends at the target from one of the two routers, where none from the other does.
fn alike_walk(
    alloc: Global,
    net: &Net,
    world: &World,
    a: u32,
    b: u32,
    target: Target,
) -> Result<Option<Walk>, AllocError>
    requires { IsBroken net.now.files world.now (Kind.Alike a b target) }
    ensures { IfOk result (breaking.Breaks net.now.files world.now (Kind.Alike a b target)) }
{
    let rows = rows_of(alloc, net, world, &Kind::Alike(a, b, target))?;
    let first = find_end(alloc, rows.as_slice(), at_router(a))?;
    if first.is_some() {
        return Ok(first);
    }
    let second = find_end(alloc, rows.as_slice(), at_router(b))?;
    Ok(second)
}

/// What breaks a question of that kind in a world in which something does: a walk of the world's packet, or none where
/// the question asks for no stable routing.
pub fn find_walk(
    alloc: Global,
    net: &Net,
    world: &World,
    kind: &Kind,
) -> Result<Option<Walk>, AllocError>
    requires { IsBroken net.now.files world.now kind.now }
    ensures { IfOk result (breaking.Breaks net.now.files world.now kind.now) }
{
    match *kind {
        Kind::Reach(start, target) => reach_walk(alloc, net, world, start, target),
        Kind::Isolate(start, target) => isolate_walk(alloc, net, world, start, target),
        Kind::Waypoint(start, target, via) => waypoint_walk(alloc, net, world, start, target, via),
        Kind::NoLoop(start) => loop_walk(alloc, net, world, start),
        Kind::NoBlackHole(start) => lost_walk(alloc, net, world, start),
        Kind::Within(most, start) => long_walk(alloc, net, world, most, start),
        Kind::Alike(a, b, target) => alike_walk(alloc, net, world, a, b, target),
        Kind::NoStable => Ok(None),
    }
}
