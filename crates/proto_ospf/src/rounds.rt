//! The interior distances of all routers to one prefix, in rounds: each round allows one adjacency more.

ghost use Rattle.std.specs.Prelude.{◌≡◌, ◌≤◌, ◌*◌, ◌+◌, ◌<◌, ◌↔◌, All, IfOk, IsTrue, map};
ghost use Rattle.proto_ospf.specs.Rounds as rounds;

use mw_text::List;
use net_model::{Adjacency, MOST_FILES};
use std::alloc::{AllocError, Global};

/// The highest output cost of an interface.
pub const MOST_COST: u32 = 65_535;

/// A router with the adjacencies over which it receives and that are up.
#[derive(Drop)]
pub struct Receiver {
    pub router: u32,
    pub adjacencies: List<Adjacency>,
}

/// The distance of a router among those of all routers.
pub fn of_router(distances: &[Option<u32>], router: u32) -> Option<u32>
    ensures { result ≡ rounds.of_router distances.now router }
{
    match distances.get(router as usize) {
        None => None,
        Some(distance) => *distance,
    }
}

fn over(before: &[Option<u32>], a: &Adjacency) -> Option<u32>
    requires cheap { a.now.cost ≤ MOST_COST }
    requires small { rounds.AtMost 0x7fff_ffff before.now }
    ensures { result ≡ rounds.over before.now a.now }
{
    match of_router(before, a.to.router) {
        None => None,
        Some(d) => Some(a.cost + d),
    }
}

/// The lower of the best so far and a further number.
pub fn lower(best: Option<u32>, n: u32) -> Option<u32>
    ensures { result ≡ rounds.lower best n }
{
    match best {
        None => Some(n),
        Some(held) => Some(n.min(held)),
    }
}

fn nearest(own: &[Option<u32>], before: &[Option<u32>], x: &Receiver) -> Option<u32>
    requires cheap { All (λ a. a.cost ≤ MOST_COST) x.now.adjacencies }
    requires small { rounds.AtMost 0x7fff_ffff before.now }
    ensures { result ≡ rounds.nearest own.now before.now x.now }
{
    let mut best = of_router(own, x.router);
    for a in x.adjacencies.as_slice() {
        if let Some(d) = over(before, a) {
            best = lower(best, d);
        }
    }
    best
}

fn round(
    alloc: Global,
    own: &[Option<u32>],
    before: &[Option<u32>],
    receivers: &[Receiver],
) -> Result<List<Option<u32>>, AllocError>
    requires cheap { rounds.AreCheap receivers.now }
    requires small { rounds.AtMost 0x7fff_ffff before.now }
    ensures { IfOk result (λ after. after ≡ map (rounds.nearest own.now before.now) receivers.now) }
{
    let mut after = List::new(alloc);
    for x in receivers {
        after.items.push(nearest(own, before, x))?;
    }
    Ok(after)
}

fn are_same(a: &[Option<u32>], b: &[Option<u32>]) -> bool
    ensures { IsTrue result ↔ (a.now ≡ b.now) }
{
    a == b
}

/// The least costs of walks with at most so many adjacencies. A round that changes nothing is the last.
#[tactic(auto, using(crate::proofs::Bounds::rounds_small))]
pub fn distances_after(
    alloc: Global,
    own: &[Option<u32>],
    receivers: &[Receiver],
    most: usize,
) -> Result<List<Option<u32>>, AllocError>
    requires own_cheap { rounds.AtMost MOST_COST own.now }
    requires cheap { rounds.AreCheap receivers.now }
    requires few { most ≤ MOST_FILES }
    ensures { IfOk result (λ all. all ≡ rounds.rounds own.now receivers.now most) }
{
    let mut before = List {
        items: Vec::from_slice(alloc, own)?,
    };
    for _ in 0..most {
        let after = round(alloc, own, before.as_slice(), receivers)?;
        if are_same(after.as_slice(), before.as_slice()) {
            return Ok(before);
        }
        before = after;
    }
    Ok(before)
}
