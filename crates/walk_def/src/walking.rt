//! Whether a list of standings with an end is a walk.

ghost use Rattle.std.specs.Prelude.{◌≡◌, ◌<◌, ◌==◌, ℕ, List as ListOf, true, false, IfOk, [], length};
ghost use Rattle.std.specs.List.{list_any};
ghost use Rattle.proto_ospf.specs.Reached.{all_reached};
ghost use Rattle.question_lang.specs.Hops.{next_hops};
ghost use Rattle.question_lang.specs.Walks as walks;
ghost use Rattle.walk_def.specs.Going.{LeadsIn};

use crate::filters::permits_in;
use crate::hops::list_hops;
use crate::once::stands_in;
use net_model::{IfaceId, Net};
use proto_ospf::{Reached, all_distances};
use question_lang::{End, Hop, Start, Walk};
use route_record::World;
use std::alloc::{AllocError, Global};

// Whether a packet comes in at the interface, and its in list says so.
fn is_tested_in(net: &Net, world: &World, i: IfaceId, says: bool) -> bool
    ensures yes { result ≡ true → walks.IsTestedIn net.now.files world.now i says }
    ensures no { result ≡ false → walks.IsTestedIn net.now.files world.now i says → ⊥ }
{
    net.is_up(&world.failures, i) && permits_in(net, &world.packet, i) == says
}

fn may_begin(net: &Net, world: &World, start: &Start) -> bool
    ensures yes { result ≡ true → walks.MayBegin net.now.files world.now start.now }
    ensures no { result ≡ false → walks.MayBegin net.now.files world.now start.now → ⊥ }
{
    match start.iface {
        None => true,
        Some(at) => {
            let i = IfaceId {
                router: start.router,
                at,
            };
            is_tested_in(net, world, i, true)
        }
    }
}

fn is_denied_at_once(net: &Net, world: &World, end: &End) -> bool
    ensures yes { result ≡ true → walks.IsDeniedAtOnce net.now.files world.now end.now }
    ensures no { result ≡ false → walks.IsDeniedAtOnce net.now.files world.now end.now → ⊥ }
{
    match end {
        End::DeniedIn(i) => is_tested_in(net, world, *i, false),
        _ => false,
    }
}

// Whether one of these hops leads to the standing.
#[tactic(auto, using(crate::proofs::Going::not_without, crate::proofs::Going::not_in))]
fn leads_in(own: &[Hop], to: &Start) -> bool
    ensures yes { result ≡ true → LeadsIn own.now to.now }
    ensures no { result ≡ false → LeadsIn own.now to.now → ⊥ }
{
    match to.iface {
        None => false,
        Some(at) => {
            let hop = Hop::To(IfaceId {
                router: to.router,
                at,
            });
            stands_in(own, &hop)
        }
    }
}

// Whether a hop of the first router leads in at the interface of the second.
fn leads_to(
    alloc: Global,
    net: &Net,
    world: &World,
    all: &[Reached],
    from: &Start,
    to: &Start,
) -> Result<bool, AllocError>
    requires all { all.now ≡ all_reached net.now.files world.now.failures }
    ensures yes { IfOk result (λ leads. leads ≡ true → walks.LeadsTo (next_hops net.now.files world.now) from.now to.now) }
    ensures no { IfOk result (λ leads. leads ≡ false → walks.LeadsTo (next_hops net.now.files world.now) from.now to.now → ⊥) }
{
    let own = list_hops(alloc, net, world, all, from.router)?;
    Ok(leads_in(own.as_slice(), to))
}

/// Whether a standing is at the router.
pub fn is_among(before: &[Start], router: u32) -> bool
    ensures { result ≡ list_any (λ s. s.router == router) before.now }
{
    before.iter().any(|s| s.router == router)
}

// Whether a walk that stood before, and whose router has these hops, may end so.
#[tactic(auto, using(crate::proofs::Going::stood, crate::proofs::Going::not_stood))]
fn may_end_by(own: &[Hop], before: &[Start], now: &Start, end: &End) -> bool
    ensures yes { result ≡ true → walks.MayEnd (λ router. own.now) before.now now.now end.now }
    ensures no { result ≡ false → walks.MayEnd (λ router. own.now) before.now now.now end.now → ⊥ }
{
    match end {
        End::Loop => is_among(before, now.router),
        End::Open => true,
        other => stands_in(own, &Hop::Ends(*other)),
    }
}

fn may_end(
    alloc: Global,
    net: &Net,
    world: &World,
    all: &[Reached],
    before: &[Start],
    now: &Start,
    end: &End,
) -> Result<bool, AllocError>
    requires all { all.now ≡ all_reached net.now.files world.now.failures }
    ensures yes { IfOk result (λ may. may ≡ true → walks.MayEnd (next_hops net.now.files world.now) before.now now.now end.now) }
    ensures no { IfOk result (λ may. may ≡ false →
        walks.MayEnd (next_hops net.now.files world.now) before.now now.now end.now → ⊥) }
{
    let own = list_hops(alloc, net, world, all, now.router)?;
    Ok(may_end_by(own.as_slice(), before, now, end))
}

// Whether each standing is led to by the one before it, and the walk may end so.
#[tactic(auto, using(crate::proofs::Going::one_led, crate::proofs::Going::one_more, crate::proofs::Going::may_at_end, crate::proofs::Going::ends_at_last))]
fn goes_on(
    alloc: Global,
    net: &Net,
    world: &World,
    all: &[Reached],
    standings: &[Start],
    end: &End,
) -> Result<bool, AllocError>
    requires all { all.now ≡ all_reached net.now.files world.now.failures }
    requires some { 0 < length standings.now }
    ensures yes { IfOk result (λ goes. goes ≡ true → walks.GoesOn (next_hops net.now.files world.now) [] standings.now end.now) }
    ensures no { IfOk result (λ goes. goes ≡ false → walks.GoesOn (next_hops net.now.files world.now) [] standings.now end.now → ⊥) }
{
    let last = standings.len() - 1;
    for at in 0..last {
        if !leads_to(alloc, net, world, all, &standings[at], &standings[at + 1])? {
            return Ok(false);
        }
    }
    may_end(
        alloc,
        net,
        world,
        all,
        &standings[..last],
        &standings[last],
        end,
    )
}

// Whether these standings, with this end, are a walk of the packet of the world.
fn is_walk_over(
    alloc: Global,
    net: &Net,
    world: &World,
    standings: &[Start],
    end: &End,
) -> Result<bool, AllocError>
    ensures yes { IfOk result (λ yes. yes ≡ true → walks.IsWalkOver net.now.files world.now standings.now end.now) }
    ensures no { IfOk result (λ yes. yes ≡ false → walks.IsWalkOver net.now.files world.now standings.now end.now → ⊥) }
{
    if standings.is_empty() {
        return Ok(is_denied_at_once(net, world, end));
    }
    if !may_begin(net, world, &standings[0]) {
        return Ok(false);
    }
    let all = all_distances(alloc, net, &world.failures)?;
    goes_on(alloc, net, world, all.as_slice(), standings, end)
}

/// Whether it is a walk of the world's packet: it begins where the packet may come in, each standing is led to by a next
/// hop of the one before it, and it may end so. One that stands nowhere was denied where it would begin.
pub fn is_walk(alloc: Global, net: &Net, world: &World, walk: &Walk) -> Result<bool, AllocError>
    ensures yes { IfOk result (λ yes. yes ≡ true → walks.IsWalk net.now.files world.now walk.now) }
    ensures no { IfOk result (λ yes. yes ≡ false → walks.IsWalk net.now.files world.now walk.now → ⊥) }
{
    is_walk_over(alloc, net, world, walk.hops.as_slice(), &walk.end)
}
