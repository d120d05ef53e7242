//! From which routers a walk ends at a target.

ghost use Rattle.std.specs.Prelude.{◌≡◌, ◌<◌, ◌^◌, ℕ, List as ListOf, Some, true, false, IfOk, IfNone, IfSome, length, slice_get};
ghost use Rattle.std.specs.List.{list_any};
ghost use Rattle.question_lang.specs.declared.walk.Hop.{Hop as HopOf};
ghost use Rattle.question_lang.specs.Breaking.{IsOnSubnet, NoneArrives, at_router};
ghost use Rattle.question_lang.specs.Hops.{next_hops};
ghost use Rattle.walk_def.specs.Arriving as arriving;
ghost use Rattle.walk_def.specs.Marks.{known};
ghost use Rattle.walk_def.specs.Sending.{AreSent};

use crate::hops::all_hops;
use crate::marks::is_known;
use crate::once::stands_in;
use mw_text::{List, Prefix, contains};
use net_model::Net;
use question_lang::{End, Hop, Target};
use route_record::World;
use std::alloc::{AllocError, Global};

/// How a walk to the target ends.
pub fn target_end(target: &Target) -> End
    ensures { result ≡ arriving.target_end target.now }
{
    match target {
        Target::Router(_) => End::Delivered,
        Target::Subnet(_) => End::Delivered,
        Target::Peer { addr, .. } => End::Left(*addr),
    }
}

fn is_on_subnet(net: &Net, world: &World, p: &Prefix, router: u32) -> bool
    ensures yes { result ≡ true → IsOnSubnet net.now.files world.now p.now router }
    ensures no { result ≡ false → IsOnSubnet net.now.files world.now p.now router → ⊥ }
{
    net.is_direct(&world.failures, router, p) && contains(p, world.packet.dst)
}

/// Whether a walk to the target ends at that router.
pub fn is_target_router(net: &Net, world: &World, target: &Target, at: u32) -> bool
    ensures yes { result ≡ true → arriving.IsTargetRouter net.now.files world.now target.now at }
    ensures no { result ≡ false → arriving.IsTargetRouter net.now.files world.now target.now at → ⊥ }
{
    match target {
        Target::Router(router) => at == *router,
        Target::Subnet(p) => is_on_subnet(net, world, p, at),
        Target::Peer { router, .. } => at == *router,
    }
}

fn lands(net: &Net, world: &World, target: &Target, router: u32, own: &[Hop]) -> bool
    ensures yes { result ≡ true → arriving.Lands net.now.files world.now target.now router own.now }
    ensures no { result ≡ false → arriving.Lands net.now.files world.now target.now router own.now → ⊥ }
{
    let end = Hop::Ends(target_end(target));
    stands_in(own, &end) && is_target_router(net, world, target, router)
}

#[tactic(auto, using(crate::proofs::Arrivals::landing_mark))]
fn landing_mark(net: &Net, world: &World, hops: &[List<Hop>], target: &Target, at: u32) -> bool
    requires sent { AreSent net.now.files world.now hops.now }
    requires within { at < length hops.now }
    ensures { arriving.IsLandingMark net.now.files world.now target.now hops.now at result }
{
    lands(net, world, target, at, hops[at as usize].as_slice())
}

// For each router whether a walk may end there at the target.
fn landing(
    alloc: Global,
    net: &Net,
    world: &World,
    hops: &[List<Hop>],
    target: &Target,
) -> Result<Vec<bool>, AllocError>
    requires few { length hops.now < 2 ^ 32 }
    requires sent { AreSent net.now.files world.now hops.now }
    ensures len { IfOk result (λ marks. length marks.items ≡ length hops.now) }
    ensures landing { IfOk result (λ marks. arriving.AreLanding net.now.files world.now target.now hops.now marks.items) }
{
    let mut marks = Vec::new(alloc);
    for at in 0..hops.len() {
        marks.push(landing_mark(net, world, hops, target, at as u32))?;
    }
    Ok(marks)
}

/// Whether the hop leads to a router that is marked.
pub fn leads_to_known(marks: &[bool], hop: &Hop) -> bool
    ensures { result ≡ arriving.leads_to_known marks.now hop.now }
{
    match hop {
        Hop::To(i) => is_known(marks, i.router),
        Hop::Ends(_) => false,
    }
}

/// Whether one of the hops leads to a router that is marked.
pub fn some_leads(marks: &[bool], own: &[Hop]) -> bool
    ensures { result ≡ list_any (arriving.leads_to_known marks.now) own.now }
{
    own.iter().any(|hop| leads_to_known(marks, hop))
}

// A router that is not marked, though it leads to one that is.
fn next_arriving(hops: &[List<Hop>], marks: &[bool]) -> Option<u32>
    requires few { length hops.now < 2 ^ 32 }
    requires same { length marks.now ≡ length hops.now }
    ensures found { IfSome result (λ router. (router < length hops.now) × (known marks.now router ≡ false) × ((own : ListOf HopOf) →
        slice_get hops.now router ≡ Some own → list_any (arriving.leads_to_known marks.now) own ≡ true)) }
    ensures none { IfNone result (arriving.AreShut hops.now marks.now) }
{
    for (at, own) in hops.iter().enumerate() {
        let router = at as u32;
        if !is_known(marks, router) && some_leads(marks, own.as_slice()) {
            return Some(router);
        }
    }
    None
}

// The routers from which hops lead to one of these marks.
fn arriving_from(hops: &[List<Hop>], landing: &[bool], first: Vec<bool>) -> Vec<bool>
    requires few { length hops.now < 2 ^ 32 }
    requires same { length landing.now ≡ length hops.now }
    requires first { first.items ≡ landing.now }
    ensures sound { arriving.AreArriving hops.now landing.now result.items }
    ensures kept { (router : ℕ) → known landing.now router ≡ true → known result.items router ≡ true }
    ensures shut { arriving.AreShut hops.now result.items }
{
    let _count = landing.len();
    let mut marks = first;
    'rounds: while let Some(router) = next_arriving(hops, marks.as_slice()) {
        marks[router as usize] = true;
    }
    marks
}

/// Whether no walk from the router ends at the target.
pub fn none_arrives(
    alloc: Global,
    net: &Net,
    world: &World,
    start: u32,
    target: &Target,
) -> Result<bool, AllocError>
    ensures yes { IfOk result (λ none. none ≡ true → NoneArrives net.now.files world.now (at_router start) target.now) }
    ensures no { IfOk result (λ none. none ≡ false → NoneArrives net.now.files world.now (at_router start) target.now → ⊥) }
{
    let hops = all_hops(alloc, net, world)?;
    let landing = landing(alloc, net, world, hops.as_slice(), target)?;
    let first = landing.clone()?;
    let marks = arriving_from(hops.as_slice(), landing.as_slice(), first);
    Ok(!is_known(marks.as_slice(), start))
}
