//! Whether a walk breaks a question.

ghost use Rattle.std.specs.Prelude.{◌≡◌, ◌≢◌, ◌+◌, ◌⊎◌, All, List as ListOf, Some, true, false, IfOk, length};
ghost use Rattle.std.specs.Option.{option_copied};
ghost use Rattle.question_lang.specs.declared.question.Kind.{Kind};
ghost use Rattle.question_lang.specs.Breaking as breaking;
ghost use Rattle.walk_def.specs.Arriving.{IsTargetRouter, LastIn};

use crate::arriving::{is_target_router, none_arrives, target_end};
use crate::walking::{is_among, is_walk};
use net_model::Net;
use question_lang::{End, Kind, Question, Start, Target, Walk};
use route_record::World;
use std::alloc::{AllocError, Global};

fn is_same_start(a: &Start, b: &Start) -> bool
    ensures yes { result ≡ true → a.now ≡ b.now }
    ensures no { result ≡ false → a.now ≢ b.now }
{
    a.router == b.router && a.iface == b.iface
}

/// Whether two ends are one.
pub fn is_same_end(a: &End, b: &End) -> bool
    ensures yes { result ≡ true → a.now ≡ b.now }
    ensures no { result ≡ false → a.now ≢ b.now }
{
    *a == *b
}

// Where a walk would have begun that was denied there.
fn denied_start(end: &End) -> Option<Start>
    ensures { result ≡ breaking.denied_start end.now }
{
    match end {
        End::DeniedIn(i) => Some(Start {
            router: i.router,
            iface: Some(i.at),
        }),
        _ => None,
    }
}

fn start_of(standings: &[Start], end: &End) -> Option<Start>
    ensures { result ≡ breaking.start_of standings.now end.now }
{
    if standings.is_empty() {
        return denied_start(end);
    }
    Some(standings[0])
}

// Whether the walk begins there.
fn begins_at(start: &Start, walk: &Walk) -> bool
    ensures yes { result ≡ true → breaking.BeginsAt start.now walk.now }
    ensures no { result ≡ false → breaking.BeginsAt start.now walk.now → ⊥ }
{
    match start_of(walk.hops.as_slice(), &walk.end) {
        None => false,
        Some(first) => is_same_start(&first, start),
    }
}

// Whether the last standing is at a router where a walk to the target ends.
#[tactic(auto, using(crate::proofs::Lasts::no_last, crate::proofs::Lasts::last_in, crate::proofs::Lasts::not_last))]
fn stops_at(net: &Net, world: &World, target: &Target, standings: &[Start]) -> bool
    ensures yes { result ≡ true → LastIn (IsTargetRouter net.now.files world.now target.now) standings.now }
    ensures no { result ≡ false → LastIn (IsTargetRouter net.now.files world.now target.now) standings.now → ⊥ }
{
    if standings.is_empty() {
        return false;
    }
    let last = standings[standings.len() - 1];
    is_target_router(net, world, target, last.router)
}

// Whether the walk ends at the target.
#[tactic(auto, using(crate::proofs::Arrivals::at_target, crate::proofs::Arrivals::from_target))]
fn ends_at(net: &Net, world: &World, target: &Target, walk: &Walk) -> bool
    ensures yes { result ≡ true → breaking.EndsAt net.now.files world.now target.now walk.now }
    ensures no { result ≡ false → breaking.EndsAt net.now.files world.now target.now walk.now → ⊥ }
{
    let end = target_end(target);
    is_same_end(&walk.end, &end) && stops_at(net, world, target, walk.hops.as_slice())
}

// It ends, and not at the target.
fn breaks_reach(net: &Net, world: &World, start: &Start, target: &Target, walk: &Walk) -> bool
    ensures yes { result ≡ true → breaking.BreaksBy net.now.files world.now (Kind.Reach start.now target.now) walk.now }
    ensures no { result ≡ false → breaking.BreaksBy net.now.files world.now (Kind.Reach start.now target.now) walk.now → ⊥ }
{
    begins_at(start, walk)
        && !is_same_end(&walk.end, &End::Open)
        && !ends_at(net, world, target, walk)
}

// It ends at the target.
fn breaks_isolate(net: &Net, world: &World, start: &Start, target: &Target, walk: &Walk) -> bool
    ensures yes { result ≡ true → breaking.BreaksBy net.now.files world.now (Kind.Isolate start.now target.now) walk.now }
    ensures no { result ≡ false → breaking.BreaksBy net.now.files world.now (Kind.Isolate start.now target.now) walk.now → ⊥ }
{
    begins_at(start, walk) && ends_at(net, world, target, walk)
}

// Whether no standing is at the router.
#[tactic(auto, using(crate::proofs::Lasts::all_avoid, crate::proofs::Lasts::not_avoiding))]
fn avoids(standings: &[Start], via: u32) -> bool
    ensures yes { result ≡ true → All (λ stood. stood.router ≢ via) standings.now }
    ensures no { result ≡ false → All (λ stood. stood.router ≢ via) standings.now → ⊥ }
{
    !is_among(standings, via)
}

// It ends at the target and does not stand at the waypoint.
fn breaks_waypoint(
    net: &Net,
    world: &World,
    start: &Start,
    target: &Target,
    via: u32,
    walk: &Walk,
) -> bool
    ensures yes { result ≡ true → breaking.BreaksBy net.now.files world.now (Kind.Waypoint start.now target.now via) walk.now }
    ensures no { result ≡ false →
        breaking.BreaksBy net.now.files world.now (Kind.Waypoint start.now target.now via) walk.now → ⊥ }
{
    begins_at(start, walk) && ends_at(net, world, target, walk) && avoids(walk.hops.as_slice(), via)
}

// Whether the walk begins there and comes back to where it stood.
fn is_loop_from(start: &Start, walk: &Walk) -> bool
    ensures yes { result ≡ true → breaking.BeginsAt start.now walk.now × (walk.now.end ≡ End.Loop) }
    ensures no { result ≡ false → breaking.BeginsAt start.now walk.now × (walk.now.end ≡ End.Loop) → ⊥ }
{
    begins_at(start, walk) && is_same_end(&walk.end, &End::Loop)
}

/// Whether the packet is lost: without a route or at Null0.
pub fn is_black_hole(end: &End) -> bool
    ensures yes { result ≡ true → (end.now ≡ End.NoRoute) ⊎ (end.now ≡ End.Discarded) }
    ensures no { result ≡ false → (end.now ≡ End.NoRoute) ⊎ (end.now ≡ End.Discarded) → ⊥ }
{
    is_same_end(end, &End::NoRoute) || is_same_end(end, &End::Discarded)
}

fn is_lost_from(start: &Start, walk: &Walk) -> bool
    ensures yes { result ≡ true → breaking.BeginsAt start.now walk.now
        × ((walk.now.end ≡ End.NoRoute) ⊎ (walk.now.end ≡ End.Discarded)) }
    ensures no { result ≡ false → breaking.BeginsAt start.now walk.now
        × ((walk.now.end ≡ End.NoRoute) ⊎ (walk.now.end ≡ End.Discarded)) → ⊥ }
{
    begins_at(start, walk) && is_black_hole(&walk.end)
}

// Whether the walk begins there and has one hop more than allowed, and so two standings more than that number.
fn is_longer_from(most: u32, start: &Start, walk: &Walk) -> bool
    ensures yes { result ≡ true → breaking.BeginsAt start.now walk.now × (length walk.now.hops ≡ most + 2) }
    ensures no { result ≡ false → breaking.BeginsAt start.now walk.now × (length walk.now.hops ≡ most + 2) → ⊥ }
{
    begins_at(start, walk) && walk.hops.as_slice().len() as u64 == u64::from(most) + 2
}

// Whether the walk begins at the one router, and none from the other ends at the target.
fn is_alone(
    alloc: Global,
    net: &Net,
    world: &World,
    from: u32,
    other: u32,
    target: &Target,
    walk: &Walk,
) -> Result<bool, AllocError>
    ensures yes { IfOk result (λ yes. yes ≡ true → breaking.BeginsAt (breaking.at_router from) walk.now
        × breaking.NoneArrives net.now.files world.now (breaking.at_router other) target.now) }
    ensures no { IfOk result (λ yes. yes ≡ false → breaking.BeginsAt (breaking.at_router from) walk.now
        × breaking.NoneArrives net.now.files world.now (breaking.at_router other) target.now → ⊥) }
{
    let start = Start {
        router: from,
        iface: None,
    };
    if !begins_at(&start, walk) {
        return Ok(false);
    }
    none_arrives(alloc, net, world, other, target)
}

// It ends at the target from one of the two routers, and none from the other does.
fn breaks_alike(
    alloc: Global,
    net: &Net,
    world: &World,
    a: u32,
    b: u32,
    target: &Target,
    walk: &Walk,
) -> Result<bool, AllocError>
    ensures yes { IfOk result (λ yes. yes ≡ true →
        breaking.BreaksBy net.now.files world.now (Kind.Alike a b target.now) walk.now) }
    ensures no { IfOk result (λ yes. yes ≡ false →
        breaking.BreaksBy net.now.files world.now (Kind.Alike a b target.now) walk.now → ⊥) }
{
    if !ends_at(net, world, target, walk) {
        return Ok(false);
    }
    if is_alone(alloc, net, world, a, b, target, walk)? {
        return Ok(true);
    }
    is_alone(alloc, net, world, b, a, target, walk)
}

// Whether the walk is what it has to be, to break a question of that kind.
fn breaks_by(
    alloc: Global,
    net: &Net,
    kind: &Kind,
    world: &World,
    walk: &Walk,
) -> Result<bool, AllocError>
    ensures yes { IfOk result (λ yes. yes ≡ true → breaking.BreaksBy net.now.files world.now kind.now walk.now) }
    ensures no { IfOk result (λ yes. yes ≡ false → breaking.BreaksBy net.now.files world.now kind.now walk.now → ⊥) }
{
    match kind {
        Kind::Reach(start, target) => Ok(breaks_reach(net, world, start, target, walk)),
        Kind::Isolate(start, target) => Ok(breaks_isolate(net, world, start, target, walk)),
        Kind::Waypoint(start, target, via) => {
            Ok(breaks_waypoint(net, world, start, target, *via, walk))
        }
        Kind::NoLoop(start) => Ok(is_loop_from(start, walk)),
        Kind::NoBlackHole(start) => Ok(is_lost_from(start, walk)),
        Kind::Within(most, start) => Ok(is_longer_from(*most, start, walk)),
        Kind::Alike(a, b, target) => breaks_alike(alloc, net, world, *a, *b, target, walk),
        Kind::NoStable => Ok(true),
    }
}

fn breaks_with(
    alloc: Global,
    net: &Net,
    kind: &Kind,
    world: &World,
    walk: &Walk,
) -> Result<bool, AllocError>
    ensures yes { IfOk result (λ yes. yes ≡ true → breaking.Breaks net.now.files world.now kind.now (Some walk.now)) }
    ensures no { IfOk result (λ yes. yes ≡ false → breaking.Breaks net.now.files world.now kind.now (Some walk.now) → ⊥) }
{
    if !is_walk(alloc, net, world, walk)? {
        return Ok(false);
    }
    breaks_by(alloc, net, kind, world, walk)
}

/// Whether a question asks for no stable routing, and so speaks of no walk.
pub fn asks_no_stable(kind: &Kind) -> bool
    ensures yes { result ≡ true → kind.now ≡ Kind.NoStable }
    ensures no { result ≡ false → kind.now ≢ Kind.NoStable }
{
    matches!(kind, Kind::NoStable)
}

/// Whether the world breaks the question by that walk: it is a walk of the world's packet, and what it has to be to break
/// a question of that kind. Without a walk, whether the question asks for no stable routing, which any routing breaks.
pub fn breaks(
    alloc: Global,
    net: &Net,
    question: &Question,
    world: &World,
    walk: Option<&Walk>,
) -> Result<bool, AllocError>
    ensures yes { IfOk result (λ yes. yes ≡ true →
        breaking.Breaks net.now.files world.now question.now.kind (option_copied walk.entry)) }
    ensures no { IfOk result (λ yes. yes ≡ false →
        breaking.Breaks net.now.files world.now question.now.kind (option_copied walk.entry) → ⊥) }
{
    match walk {
        None => Ok(asks_no_stable(&question.kind)),
        Some(walk) => breaks_with(alloc, net, &question.kind, world, walk),
    }
}
