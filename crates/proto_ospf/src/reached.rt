//! The interior distances to all that OSPF advertises, and the resolution of next hops (RFC 4271, section 5.1.3).

ghost use Rattle.std.specs.Prelude.{◌≡◌, IfOk};
ghost use Rattle.std.specs.List.{find};
ghost use Rattle.mw_text.specs.Address.{covers};
ghost use Rattle.net_parts.specs.Resolution.{resolved};
ghost use Rattle.proto_ospf.specs.Reached.{all_reached, to_first};
ghost use Rattle.proto_ospf.specs.Reached as specs;

use crate::distances::{distances_over, igp_distance};
use crate::rounds::of_router;
use crate::states::receivers;
use mw_text::{Addr, List, Prefix, contains};
use net_model::Net;
use route_record::Failures;
use std::alloc::{AllocError, Global};

/// A prefix that OSPF advertises, with the interior distance of each router.
#[derive(Drop)]
pub struct Reached {
    pub to: Prefix,
    pub distances: List<Option<u32>>,
}

/// The interior distance of each router to each advertised prefix.
pub fn all_distances(
    alloc: Global,
    net: &Net,
    failures: &Failures,
) -> Result<List<Reached>, AllocError>
    ensures { IfOk result (λ all. all ≡ all_reached net.now.files failures.now) }
{
    let routers = receivers(alloc, net, failures)?;
    let mut all = List::new(alloc);
    for p in net.advertised() {
        let distances = distances_over(alloc, net, failures, routers.as_slice(), p)?;
        all.items.push(Reached { to: *p, distances })?;
    }
    Ok(all)
}

fn to_first(all: &[Reached], router: u32, a: Addr) -> Option<u32>
    ensures { result ≡ specs.to_first all.now router a }
{
    for x in all {
        if contains(&x.to, a) {
            return of_router(x.distances.as_slice(), router);
        }
    }
    None
}

/// The cost to an address, over these distances: 0 where it is on a subnet of an interface of the router that is up, else
/// the interior distance to the advertised prefix that contains it. None exactly where it is not resolved.
#[tactic(auto, using(crate::proofs::Resolved::first_is), unfolding(net_parts::specs::Resolution::resolved))]
pub fn resolve_over(
    net: &Net,
    failures: &Failures,
    all: &[Reached],
    router: u32,
    a: Addr,
) -> Option<u32>
    requires all { all.now ≡ all_reached net.now.files failures.now }
    ensures { result ≡ resolved net.now.files failures.now router a }
{
    if net.is_reached(failures, router, a) {
        return Some(0);
    }
    to_first(all, router, a)
}

fn first_over(advertised: &[Prefix], a: Addr) -> Option<Prefix>
    ensures { result ≡ find (λ p. covers p a) advertised.now }
{
    advertised.iter().copied().find(|p| contains(p, a))
}

/// The cost to an address: 0 where it is on a subnet of an interface of the router that is up, else the interior distance
/// to the advertised prefix that contains it. None exactly where it is not resolved. Of many addresses `resolve_over`
/// answers the same over one table.
#[tactic(auto, unfolding(net_parts::specs::Resolution::resolved))]
pub fn resolve(
    alloc: Global,
    net: &Net,
    failures: &Failures,
    router: u32,
    a: Addr,
) -> Result<Option<u32>, AllocError>
    ensures { IfOk result (λ cost. cost ≡ resolved net.now.files failures.now router a) }
{
    if net.is_reached(failures, router, a) {
        return Ok(Some(0));
    }
    match first_over(net.advertised(), a) {
        None => Ok(None),
        Some(p) => igp_distance(alloc, net, failures, router, &p),
    }
}
