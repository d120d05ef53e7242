//! The BGP part of a slot: the route of some candidate that the decision process leaves (RFC 4271, section 9.1.2.2).

ghost use Rattle.std.specs.Prelude.{◌≡◌, ◌≤◌, [], false, IfOk, None, Some, length, map, slice_get};
ghost use Rattle.std.specs.Bool.{Decides};
ghost use Rattle.std.specs.List.{list_any};
ghost use Rattle.std.specs.Option.{option_map_or};
ghost use Rattle.net_parts.specs.Decisions as decisions;
ghost use Rattle.net_parts.specs.Sessions.{ends_of};
ghost use Rattle.net_parts.specs.Stable as stable;
ghost use Rattle.proto_bgp.specs.Places.{candidate_at, candidates_at};
ghost use Rattle.proto_bgp.specs.Steps.{seen};
ghost use Rattle.route_candidates.specs.Underlays.{IsUnderlay};
ghost use Rattle.stable_replay.specs.Parts as parts;
ghost use Rattle.same_routes.specs.Same.{same_rec};

use crate::candidates::candidates;
use crate::routing::Routing;
use ios_ast::{Bgp, File};
use mw_text::{List, Prefix};
use policy_eval::copy_route;
use proto_bgp::{Candidate, survivors};
use route_record::{BgpRec, Slot};
use same_routes::same_route;
use std::alloc::{AllocError, Global};

// Whether the candidate at that place has the route.
fn has_route(candidates: &[Candidate], at: u64, held: &BgpRec) -> bool
    ensures { result ≡ option_map_or (λ c. same_rec c.rec held.now) (candidate_at candidates.now at) false }
{
    match candidates.get(at as usize) {
        None => false,
        Some(c) => same_route(&c.rec, held),
    }
}

fn some_has(candidates: &[Candidate], left: &[u64], held: &BgpRec) -> bool
    ensures { result ≡ list_any (λ at. option_map_or (λ c. same_rec c.rec held.now) (candidate_at candidates.now at) false) left.now }
{
    left.iter().any(|at| has_route(candidates, *at, held))
}

// Whether what is held is the route of a candidate that is left, or none where there is no candidate.
fn is_held(candidates: &[Candidate], left: &[u64], held: &Option<BgpRec>) -> bool
    ensures { Decides result (decisions.IsHeld (map seen candidates.now) (candidates_at candidates.now left.now) held.now) }
{
    match held {
        None => candidates.is_empty(),
        Some(rec) => some_has(candidates, left, rec),
    }
}

// The slot of that route alone.
fn slot_of(alloc: Global, rec: &BgpRec) -> Result<Slot, AllocError>
    ensures { IfOk result (λ slot. slot ≡ parts.bgp_slot (Some rec.now)) }
{
    Ok(Slot {
        ospf: None,
        bgp: Some(copy_route(alloc, rec)?),
        rib: None,
    })
}

// That of the candidate at a place.
fn slot_left(alloc: Global, candidates: &[Candidate], at: u64) -> Result<Option<Slot>, AllocError>
    ensures { IfOk result (λ slot. slot ≡ parts.slot_left candidates.now at) }
{
    match candidates.get(at as usize) {
        None => Ok(None),
        Some(c) => Ok(Some(slot_of(alloc, &c.rec)?)),
    }
}

// The routes of the candidates that are left, each as a slot.
fn slots_left(
    alloc: Global,
    candidates: &[Candidate],
    left: &[u64],
) -> Result<List<Slot>, AllocError>
    ensures { IfOk result (λ made. made ≡ parts.bgp_slots (candidates_at candidates.now left.now)) }
{
    let mut made = List::new(alloc);
    for at in left {
        if let Some(slot) = slot_left(alloc, candidates, *at)? {
            made.items.push(slot)?;
        }
    }
    Ok(made)
}

// Tests what is held against what the decision process of the router leaves of these candidates.
fn test_left(
    alloc: Global,
    process: &Bgp,
    all: &[Candidate],
    held: &Option<BgpRec>,
) -> Result<Option<List<Slot>>, AllocError>
    ensures { IfOk result (parts.IsTested
        (decisions.IsDecidedAmong process.now (map seen all.now) held.now)
        (parts.bgp_slots (decisions.survivors process.now.always_compare process.now.compare_routerid (map seen all.now)))) }
{
    let left = survivors(alloc, process.always_compare, process.compare_routerid, all)?;
    if is_held(all, left.as_slice(), held) {
        return Ok(None);
    }
    Ok(Some(slots_left(alloc, all, left.as_slice())?))
}

// Tests what is held against the candidates that the process leaves.
#[tactic(auto, unfolding(net_parts::specs::Decisions::DecidedByBgp))]
fn test_process(
    alloc: Global,
    routing: &Routing<'_>,
    router: u32,
    file: &File,
    process: &Bgp,
    p: &Prefix,
    held: &Option<BgpRec>,
) -> Result<Option<List<Slot>>, AllocError>
    requires underlay { IsUnderlay routing.now.net.now.files routing.now.failures.now routing.now.underlay.now }
    requires file { slice_get routing.now.net.now.files router ≡ Some file.now }
    requires process { file.now.bgp ≡ Some process.now }
    ensures { IfOk result (parts.IsTested
        (decisions.DecidedByBgp routing.now.net.now.files routing.now.failures.now routing.now.env.now
        routing.now.tables.now router file.now process.now p.now held.now)
        (parts.bgp_slots (parts.left_by routing.now.net.now.files routing.now.failures.now routing.now.env.now
        routing.now.tables.now router file.now p.now process.now))) }
{
    let made = candidates(alloc, routing, router, file, process, p)?;
    test_left(alloc, process, made.as_slice(), held)
}

// What the test answers of a router without BGP.
fn test_none(alloc: Global, held: &Option<BgpRec>) -> Option<List<Slot>>
    ensures { parts.IsTested (held.now ≡ None) [] result }
{
    match held {
        None => None,
        Some(_) => Some(List::new(alloc)),
    }
}

/// Tests the BGP part of a slot. None where the route that is held is that of some candidate that the decision process
/// leaves, or there is none of either; else the routes of all that it leaves, each as often as it comes.
pub fn test_bgp(
    alloc: Global,
    routing: &Routing<'_>,
    router: u32,
    file: &File,
    p: &Prefix,
    held: &Option<BgpRec>,
) -> Result<Option<List<Slot>>, AllocError>
    requires underlay { IsUnderlay routing.now.net.now.files routing.now.failures.now routing.now.underlay.now }
    requires file { slice_get routing.now.net.now.files router ≡ Some file.now }
    ensures { IfOk result (parts.IsTested
        (stable.IsDecided routing.now.net.now.files routing.now.failures.now routing.now.env.now
        routing.now.tables.now router file.now p.now held.now)
        (parts.bgp_wanted routing.now.net.now.files routing.now.failures.now routing.now.env.now
        routing.now.tables.now router file.now p.now)) }
{
    match &file.bgp {
        None => Ok(test_none(alloc, held)),
        Some(process) => test_process(alloc, routing, router, file, process, p, held),
    }
}
