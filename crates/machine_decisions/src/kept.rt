//! Which BGP route a router holds of those that its decision process leaves: the one that it holds, if it is among them,
//! and else the first.

ghost use Rattle.std.specs.Prelude.{◌≡◌, ◌<◌, false, All, IfOk, Some, length, option_map};
ghost use Rattle.std.specs.List.{list_any};
ghost use Rattle.std.specs.Option.{option_map_or};
ghost use Rattle.machine_laws.specs.Deciding as deciding;
ghost use Rattle.proto_bgp.specs.Places.{candidate_at, candidates_at};

use policy_eval::copy_route;
use proto_bgp::Candidate;
use route_record::BgpRec;
use same_routes::same_route;
use std::alloc::{AllocError, Global};

// Whether the candidate at that place has the route.
fn has_route(all: &[Candidate], at: u64, held: &BgpRec) -> bool
    ensures { result ≡ option_map_or (deciding.has_route held.now) (candidate_at all.now at) false }
{
    match all.get(at as usize) {
        None => false,
        Some(c) => same_route(&c.rec, held),
    }
}

fn some_has(all: &[Candidate], left: &[u64], held: &BgpRec) -> bool
    ensures { result ≡ list_any
        (λ at. option_map_or (deciding.has_route held.now) (candidate_at all.now at) false) left.now }
{
    left.iter().any(|at| has_route(all, *at, held))
}

// The route of the candidate at that place.
fn route_at(alloc: Global, all: &[Candidate], at: u64) -> Result<Option<BgpRec>, AllocError>
    ensures { IfOk result (λ made. made ≡ option_map (λ c. c.rec) (candidate_at all.now at)) }
{
    match all.get(at as usize) {
        None => Ok(None),
        Some(c) => Ok(Some(copy_route(alloc, &c.rec)?)),
    }
}

// The route of the first candidate that is left.
#[tactic(auto, using(crate::proofs::Left::first_there, crate::proofs::Left::first_none))]
fn first_left(alloc: Global, all: &[Candidate], left: &[u64]) -> Result<Option<BgpRec>, AllocError>
    requires { All (λ at. at < length all.now) left.now }
    ensures { IfOk result (λ made. made ≡ deciding.first_route (candidates_at all.now left.now)) }
{
    match left.first() {
        None => Ok(None),
        Some(at) => route_at(alloc, all, *at),
    }
}

// What becomes of a route that is held.
#[tactic(auto, using(crate::proofs::Left::stays, crate::proofs::Left::goes))]
fn held_or_first(
    alloc: Global,
    held: &BgpRec,
    all: &[Candidate],
    left: &[u64],
) -> Result<Option<BgpRec>, AllocError>
    requires { All (λ at. at < length all.now) left.now }
    ensures { IfOk result (λ made. made ≡ deciding.kept (Some held.now) (candidates_at all.now left.now)) }
{
    if some_has(all, left, held) {
        return Ok(Some(copy_route(alloc, held)?));
    }
    first_left(alloc, all, left)
}

/// The route that a router holds where these of the candidates are left and it held that one.
pub fn kept(
    alloc: Global,
    held: &Option<BgpRec>,
    all: &[Candidate],
    left: &[u64],
) -> Result<Option<BgpRec>, AllocError>
    requires { All (λ at. at < length all.now) left.now }
    ensures { IfOk result (λ made. made ≡ deciding.kept held.now (candidates_at all.now left.now)) }
{
    match held {
        None => first_left(alloc, all, left),
        Some(rec) => held_or_first(alloc, rec, all, left),
    }
}
