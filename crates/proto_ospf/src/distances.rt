//! Interior distances (RFC 2328, section 16.1).

ghost use Rattle.std.specs.Prelude.{◌≡◌, ◌==◌, ◌&&◌, ◌<◌, ◌≤◌, All, IfOk, length};
ghost use Rattle.mw_text.specs.Address.{same_prefix};
ghost use Rattle.net_parts.specs.Distances as distances;
ghost use Rattle.net_parts.specs.Ospf as ospf;
ghost use Rattle.net_parts.specs.World.{is_up as is_up_in};
ghost use Rattle.proto_ospf.specs.Origins as specs;
ghost use Rattle.proto_ospf.specs.Rounds.{everywhere, interior_distances, receiver};

use crate::rounds::{MOST_COST, Receiver, distances_after, lower, of_router};
use crate::states::receivers;
use mw_text::{List, Prefix};
use net_model::{Net, OspfInterface};
use net_parts::ospf::advertisement;
use route_record::Failures;
use std::alloc::{AllocError, Global};

fn is_origin(net: &Net, failures: &Failures, p: &Prefix, x: &OspfInterface) -> bool
    ensures { result ≡ (same_prefix (ospf.advertisement x.now) p.now && is_up_in net.now.files failures.now x.now.at) }
{
    advertisement(x) == *p && net.is_up_with(failures, &x.at)
}

/// Whether the router originates the prefix by this interface: it is the router's own, advertises the prefix and is up.
pub fn originates(
    net: &Net,
    failures: &Failures,
    router: u32,
    p: &Prefix,
    x: &OspfInterface,
) -> bool
    ensures { result ≡ ((x.now.at.id.router == router)
        && (same_prefix (ospf.advertisement x.now) p.now && is_up_in net.now.files failures.now x.now.at)) }
{
    x.at.id.router == router && is_origin(net, failures, p, x)
}

/// The least cost of an interface by which the router originates the prefix: one that advertises it and is up. None
/// exactly where there is none.
#[tactic(auto, unfolding(net_parts::specs::Distances::own_cost))]
pub fn own_cost(net: &Net, failures: &Failures, router: u32, p: &Prefix) -> Option<u32>
    ensures { result ≡ distances.own_cost net.now.files failures.now p.now router }
{
    let mut best = None;
    for x in net.ospf_interfaces() {
        if originates(net, failures, router, p, x) {
            best = lower(best, x.cost);
        }
    }
    best
}

// The interfaces that originate the prefix.
fn origins(
    alloc: Global,
    net: &Net,
    failures: &Failures,
    p: &Prefix,
) -> Result<Vec<OspfInterface>, AllocError>
    ensures { IfOk result (λ all. all.items ≡ specs.origins net.now.files failures.now p.now) }
{
    net.ospf_interfaces()
        .iter()
        .copied()
        .filter(|x| is_origin(net, failures, p, x))
        .collect(alloc)
}

// The least cost of those of the router.
fn least_cost(origins: &[OspfInterface], router: u32) -> Option<u32>
    ensures { result ≡ specs.least_cost origins.now router }
{
    let mut best = None;
    for x in origins {
        if x.at.id.router == router {
            best = lower(best, x.cost);
        }
    }
    best
}

// The own costs of all routers.
#[tactic(auto, using(crate::proofs::Everywhere::next_router, crate::proofs::Origins::own_of_origins))]
fn own_costs(
    alloc: Global,
    net: &Net,
    failures: &Failures,
    p: &Prefix,
) -> Result<List<Option<u32>>, AllocError>
    ensures { IfOk result (λ own. own ≡ everywhere net.now.files (distances.own_cost net.now.files failures.now p.now)) }
{
    let origins = origins(alloc, net, failures, p)?;
    let mut own = List::new(alloc);
    for router in 0..net.routers().len() {
        own.items
            .push(least_cost(origins.as_slice(), router as u32))?;
    }
    Ok(own)
}

// The least sums of walks from each router, over these adjacencies.
#[tactic(auto, using(crate::proofs::Bounds::own_costs_below, crate::proofs::Bounds::receivers_cheap, crate::proofs::Interior::rounds_interior))]
fn least_sums(
    alloc: Global,
    net: &Net,
    failures: &Failures,
    receivers: &[Receiver],
    own: &[Option<u32>],
    p: &Prefix,
) -> Result<List<Option<u32>>, AllocError>
    requires receivers { receivers.now ≡ everywhere net.now.files (receiver net.now.files failures.now) }
    requires own { own.now ≡ everywhere net.now.files (distances.own_cost net.now.files failures.now p.now) }
    requires costs { All (λ x. (0 < x.cost) × (x.cost ≤ MOST_COST)) (ospf.ospf_interfaces net.now.files) }
    requires costs_over { All (λ a. (0 < a.cost) × (a.cost ≤ MOST_COST)) (ospf.adjacencies net.now.files) }
    ensures { IfOk result (λ all. all ≡ interior_distances net.now.files failures.now p.now) }
{
    let _failed = failures.links.as_slice();
    let _to = *p;
    distances_after(alloc, own, receivers, net.routers().len())
}

/// The interior distance of each router to the prefix, over these adjacencies. A set of failures has one list of
/// receivers, which serves all prefixes.
pub fn distances_over(
    alloc: Global,
    net: &Net,
    failures: &Failures,
    receivers: &[Receiver],
    to: &Prefix,
) -> Result<List<Option<u32>>, AllocError>
    requires receivers { receivers.now ≡ everywhere net.now.files (receiver net.now.files failures.now) }
    ensures { IfOk result (λ all. all ≡ interior_distances net.now.files failures.now to.now) }
{
    let own = own_costs(alloc, net, failures, to)?;
    let _running = net.ospf_interfaces();
    let _adjacencies = net.adjacencies();
    least_sums(alloc, net, failures, receivers, own.as_slice(), to)
}

/// The interior distance of each router to the prefix: the least sum, over walks of adjacencies that are up to a router
/// that originates the prefix, of the receivers' costs and that router's own; None where there is no walk.
pub fn distances_to(
    alloc: Global,
    net: &Net,
    failures: &Failures,
    to: &Prefix,
) -> Result<List<Option<u32>>, AllocError>
    ensures { IfOk result (λ all. all ≡ interior_distances net.now.files failures.now to.now) }
{
    let routers = receivers(alloc, net, failures)?;
    distances_over(alloc, net, failures, routers.as_slice(), to)
}

/// The interior distance from a router to a prefix (RFC 2328, section 16.1). None exactly where no router that originates
/// the prefix is reached.
#[tactic(auto, using(crate::proofs::Interior::interior_there))]
pub fn igp_distance(
    alloc: Global,
    net: &Net,
    failures: &Failures,
    router: u32,
    to: &Prefix,
) -> Result<Option<u32>, AllocError>
    ensures { IfOk result (λ d. d ≡ distances.interior_distance net.now.files failures.now router to.now) }
{
    let all = distances_to(alloc, net, failures, to)?;
    Ok(of_router(all.as_slice(), router))
}
