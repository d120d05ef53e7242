//! Over which adjacencies a packet goes on towards an address that OSPF resolves.

ghost use Rattle.std.specs.Prelude.{◌≡◌, IfOk, filter};
ghost use Rattle.net_parts.specs.Sending as sending;
ghost use Rattle.proto_ospf.specs.Reached.{all_reached};
ghost use Rattle.proto_ospf.specs.Steps as specs;

use crate::reached::Reached;
use crate::rounds::of_router;
use crate::states::up_adjacencies;
use mw_text::{Addr, List, contains};
use net_model::{Adjacency, Net};
use route_record::Failures;
use std::alloc::{AllocError, Global};

fn goes_on(distances: &[Option<u32>], d: u32, a: &Adjacency) -> bool
    ensures { result ≡ specs.goes_on distances.now d a.now }
{
    match of_router(distances, a.to.router) {
        None => false,
        Some(further) => u64::from(d) == u64::from(a.cost) + u64::from(further),
    }
}

fn is_step(distances: &[Option<u32>], router: u32, a: &Adjacency) -> bool
    ensures { result ≡ specs.is_step distances.now router a.now }
{
    match of_router(distances, router) {
        None => false,
        Some(d) => goes_on(distances, d, a),
    }
}

fn steps_by(
    alloc: Global,
    distances: &[Option<u32>],
    up: &[Adjacency],
    router: u32,
) -> Result<List<Adjacency>, AllocError>
    ensures { IfOk result (λ all. all ≡ filter (specs.is_step distances.now router) up.now) }
{
    let items = up
        .iter()
        .copied()
        .filter(|a| is_step(distances, router, a))
        .collect(alloc)?;
    Ok(List { items })
}

fn steps(
    alloc: Global,
    all: &[Reached],
    up: &[Adjacency],
    router: u32,
    a: Addr,
) -> Result<List<Adjacency>, AllocError>
    ensures { IfOk result (λ over. over ≡ specs.steps all.now up.now router a) }
{
    for x in all {
        if contains(&x.to, a) {
            return steps_by(alloc, x.distances.as_slice(), up, router);
        }
    }
    Ok(List::new(alloc))
}

/// The adjacencies over which a router sends towards an address, over these distances: each that is up and begins a least
/// walk to the advertised prefix that contains the address; no one where none does.
#[tactic(auto, using(crate::proofs::Steps::steps_are), unfolding(net_parts::specs::Sending::sent_towards))]
pub fn sent_towards(
    alloc: Global,
    net: &Net,
    failures: &Failures,
    all: &[Reached],
    router: u32,
    a: Addr,
) -> Result<List<Adjacency>, AllocError>
    requires all { all.now ≡ all_reached net.now.files failures.now }
    ensures { IfOk result (λ over. over ≡ sending.sent_towards net.now.files failures.now router a) }
{
    let up = up_adjacencies(alloc, net, failures, router)?;
    steps(alloc, all, up.as_slice(), router, a)
}
