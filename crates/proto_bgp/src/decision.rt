//! The decision process of BGP (RFC 4271, section 9.1.2.2; Cisco IOS, best path selection).

ghost use Rattle.std.specs.Prelude.{◌≡◌, false, IfOk, fold, length, map};
ghost use Rattle.std.specs.List.{list_any};
ghost use Rattle.std.specs.Option.{option_map_or};
ghost use Rattle.net_parts.specs.Decisions as decisions;
ghost use Rattle.proto_bgp.specs.Places.{ArePlaces, candidate_at, candidates_at, removes_at, places_left};
ghost use Rattle.proto_bgp.specs.Steps.{seen};

use crate::steps::removes;
use mw_text::{Addr, List};
use net_model::Step;
use route_record::BgpRec;
use std::alloc::{AllocError, Global};

/// A route that may be held: whether it was learnt over an external session, the cost to its next hop, and the
/// identifier of the peer from which it came, which of a local route is the router's own.
#[derive(Drop)]
pub struct Candidate {
    pub rec: BgpRec,
    pub external: bool,
    pub cost: u32,
    pub peer_id: Addr,
}

/// Whether the candidate at the second place removes that at the first.
fn removes_at(always: bool, step: Step, candidates: &[Candidate], at: u64, other: u64) -> bool
    ensures { result ≡ removes_at always step candidates.now at other }
{
    match (candidates.get(at as usize), candidates.get(other as usize)) {
        (Some(c), Some(o)) => removes(always, step, c, o),
        _ => false,
    }
}

/// Whether a candidate that is left removes that at the place.
fn is_removed(always: bool, step: Step, candidates: &[Candidate], left: &[u64], at: u64) -> bool
    ensures { result ≡ list_any (removes_at always step candidates.now at) left.now }
{
    left.iter()
        .any(|other| removes_at(always, step, candidates, at, *other))
}

/// The places that a step leaves.
fn after_step(
    alloc: Global,
    always: bool,
    step: Step,
    candidates: &[Candidate],
    left: &[u64],
) -> Result<Vec<u64>, AllocError>
    ensures { IfOk result (λ kept. kept.items ≡ places_left always candidates.now left.now step) }
{
    left.iter()
        .copied()
        .filter(|at| !is_removed(always, step, candidates, left, *at))
        .collect(alloc)
}

/// The places that these steps leave, one after another.
fn after_steps(
    alloc: Global,
    always: bool,
    steps: &[Step],
    candidates: &[Candidate],
    all: Vec<u64>,
) -> Result<Vec<u64>, AllocError>
    ensures { IfOk result (λ kept. kept.items ≡ fold (places_left always candidates.now) all.items steps.now) }
{
    let mut left = all;
    for step in steps {
        left = after_step(alloc, always, *step, candidates, left.as_slice())?;
    }
    Ok(left)
}

/// The places of all candidates.
fn places(alloc: Global, candidates: &[Candidate]) -> Result<Vec<u64>, AllocError>
    ensures every { IfOk result (λ all. candidates_at candidates.now all.items ≡ map seen candidates.now) }
    ensures are { IfOk result (λ all. ArePlaces (length candidates.now) all.items) }
{
    let mut all = Vec::new(alloc);
    for at in 0..candidates.len() {
        all.push(at as u64)?;
    }
    Ok(all)
}

/// What the steps up to that of the cost leave.
fn up_to_cost(
    alloc: Global,
    always: bool,
    candidates: &[Candidate],
    all: Vec<u64>,
) -> Result<Vec<u64>, AllocError>
    ensures { IfOk result (λ kept. kept.items ≡ fold (places_left always candidates.now) all.items decisions.to_cost) }
{
    let steps = [
        Step::Weight,
        Step::Preference,
        Step::Origination,
        Step::PathLength,
        Step::Origin,
        Step::Med,
        Step::Session,
        Step::Cost,
    ];
    after_steps(alloc, always, &steps, candidates, all)
}

/// What the steps after that of the cost leave.
fn after_cost(
    alloc: Global,
    always: bool,
    candidates: &[Candidate],
    all: Vec<u64>,
) -> Result<Vec<u64>, AllocError>
    ensures { IfOk result (λ kept. kept.items ≡ fold (places_left always candidates.now) all.items decisions.after_cost) }
{
    let steps = [Step::Identifier, Step::Clusters, Step::Address];
    after_steps(alloc, always, &steps, candidates, all)
}

/// Whether the candidate at the place is external.
fn is_external_at(candidates: &[Candidate], at: u64) -> bool
    ensures { result ≡ option_map_or (λ c. c.external) (candidate_at candidates.now at) false }
{
    match candidates.get(at as usize) {
        None => false,
        Some(c) => c.external,
    }
}

fn has_external(candidates: &[Candidate], left: &[u64]) -> bool
    ensures { result ≡ list_any (λ at. option_map_or (λ c. c.external) (candidate_at candidates.now at) false) left.now }
{
    left.iter().any(|at| is_external_at(candidates, *at))
}

/// Whether one of the candidates at these places is external.
fn some_external(candidates: &[Candidate], left: &[u64]) -> bool
    ensures { result ≡ list_any (λ c. c.external) (candidates_at candidates.now left.now) }
{
    has_external(candidates, left)
}

/// Whether identifiers are compared: where the router says so, or where no external route is left.
fn is_compared(compare_id: bool, candidates: &[Candidate], left: &[u64]) -> bool
    ensures { result ≡ decisions.is_compared_by decisions.key_of compare_id (candidates_at candidates.now left.now) }
{
    compare_id || !some_external(candidates, left)
}

/// The places of the candidates that all steps of the decision process leave, in ascending order (RFC 4271, section
/// 9.1.2.2; RFC 4456, section 9; Cisco IOS, best path selection). With `always_compare` the MED is compared across
/// neighbouring AS numbers. Without `compare_id` the identifiers are not compared where external routes are left: the
/// oldest of these is held, and a routing does not tell which that is, so all of them survive. Each step looks at what
/// the one before left.
pub fn survivors(
    alloc: Global,
    always_compare: bool,
    compare_id: bool,
    candidates: &[Candidate],
) -> Result<List<u64>, AllocError>
    ensures survive { IfOk result (λ places. candidates_at candidates.now places
        ≡ decisions.survivors always_compare compare_id (map seen candidates.now)) }
    ensures places { IfOk result (λ places. ArePlaces (length candidates.now) places) }
{
    let all = places(alloc, candidates)?;
    let left = up_to_cost(alloc, always_compare, candidates, all)?;
    if !is_compared(compare_id, candidates, left.as_slice()) {
        return Ok(List { items: left });
    }
    let held = after_cost(alloc, always_compare, candidates, left)?;
    Ok(List { items: held })
}
