//! Which interfaces and adjacencies are up while some links have failed.

ghost use Rattle.std.specs.Prelude.{◌≡◌, IfOk, map};
ghost use Rattle.net_parts.specs.Ospf as ospf;
ghost use Rattle.proto_ospf.specs.Rounds.{everywhere, receiver};

use crate::rounds::Receiver;
use mw_text::List;
use net_model::{Adjacency, Net};
use route_record::Failures;
use std::alloc::{AllocError, Global};

fn is_up(net: &Net, failures: &Failures, a: &Adjacency) -> bool
    ensures { result ≡ ospf.is_adjacency_up net.now.files failures.now a.now }
{
    net.is_up(failures, a.from) && net.is_up(failures, a.to)
}

fn receives(net: &Net, failures: &Failures, router: u32, a: &Adjacency) -> bool
    ensures { result ≡ ospf.receives net.now.files failures.now router a.now }
{
    a.from.router == router && is_up(net, failures, a)
}

/// Which adjacencies are up, by their places.
pub fn adjacencies_up(
    alloc: Global,
    net: &Net,
    failures: &Failures,
) -> Result<List<bool>, AllocError>
    ensures { IfOk result (λ up. up ≡ map (ospf.is_adjacency_up net.now.files failures.now) (ospf.adjacencies net.now.files)) }
{
    let mut up = List::new(alloc);
    for a in net.adjacencies() {
        up.items.push(is_up(net, failures, a))?;
    }
    Ok(up)
}

/// The adjacencies over which a router receives and that are up: both interfaces are (RFC 2328, section 9).
#[tactic(auto, unfolding(net_parts::specs::Ospf::up_adjacencies))]
pub fn up_adjacencies(
    alloc: Global,
    net: &Net,
    failures: &Failures,
    router: u32,
) -> Result<List<Adjacency>, AllocError>
    ensures { IfOk result (λ up. up ≡ ospf.up_adjacencies net.now.files failures.now router) }
{
    let mut up = List::new(alloc);
    for a in net.adjacencies() {
        if receives(net, failures, router, a) {
            up.items.push(*a)?;
        }
    }
    Ok(up)
}

/// All routers, each with the adjacencies over which it receives and that are up.
#[tactic(auto, using(crate::proofs::Everywhere::next_router))]
pub fn receivers(
    alloc: Global,
    net: &Net,
    failures: &Failures,
) -> Result<List<Receiver>, AllocError>
    ensures { IfOk result (λ routers. routers ≡ everywhere net.now.files (receiver net.now.files failures.now)) }
{
    let mut routers = List::new(alloc);
    for router in 0..net.routers().len() {
        let adjacencies = up_adjacencies(alloc, net, failures, router as u32)?;
        routers.items.push(Receiver {
            router: router as u32,
            adjacencies,
        })?;
    }
    Ok(routers)
}
