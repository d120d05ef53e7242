//! The destinations whose routes decide a question. For these limits of costs are looked at, so which they are changes how
//! long a search takes, and no answer.

use ios_ast::File;
use mw_text::address::block_size;
use mw_text::{List, Prefix};
use net_interfaces::Addressed;
use net_interfaces::connected::prefixes_overlap;
use net_model::Net;
use question_lang::{Kind, Question, Target};
use std::alloc::{AllocError, Global};

// What two prefixes that overlap have both: the longer one.
fn shared(p: &Prefix, q: &Prefix) -> Prefix {
    if p.len < q.len { *q } else { *p }
}

// One prefix alone.
fn alone(alloc: Global, p: Prefix) -> Result<List<Prefix>, AllocError> {
    let mut made = List::new(alloc);
    made.items.push(p)?;
    Ok(made)
}

// The destinations on interfaces of a router that run OSPF.
fn at_router(
    alloc: Global,
    net: &Net,
    router: u32,
    destinations: &Prefix,
) -> Result<List<Prefix>, AllocError> {
    let mut made = List::new(alloc);
    for x in net.ospf_interfaces() {
        if x.at.id.router == router && prefixes_overlap(&x.at.subnet, destinations) {
            made.items.push(shared(&x.at.subnet, destinations))?;
        }
    }
    Ok(made)
}

// The destinations that can be delivered at a target.
fn at_target(
    alloc: Global,
    net: &Net,
    target: &Target,
    destinations: &Prefix,
) -> Result<List<Prefix>, AllocError> {
    match target {
        Target::Router(router) => at_router(alloc, net, *router, destinations),
        Target::Subnet(p) if prefixes_overlap(p, destinations) => {
            alone(alloc, shared(p, destinations))
        }
        _ => alone(alloc, *destinations),
    }
}

// Whether an interface is one of the router, if one is named.
fn is_of(x: &Addressed, router: Option<u32>) -> bool {
    match router {
        None => true,
        Some(router) => x.id.router == router,
    }
}

// Whether the subnets of a router's interfaces, or of all interfaces where none is named, may have all destinations.
fn may_have_all(net: &Net, router: Option<u32>, destinations: &Prefix) -> bool {
    let mut count: u64 = 0;
    for x in net.addresses() {
        if is_of(x, router) && prefixes_overlap(&x.subnet, destinations) {
            count = count.saturating_add(block_size(shared(&x.subnet, destinations).len));
        }
    }
    count >= block_size(destinations.len)
}

// Whether some destination cannot be delivered at a target, so that a packet to it does not reach the target.
fn has_others(net: &Net, target: &Target, destinations: &Prefix) -> bool {
    match target {
        Target::Router(router) => !may_have_all(net, Some(*router), destinations),
        Target::Subnet(p) => destinations.len < p.len || !prefixes_overlap(p, destinations),
        _ => false,
    }
}

// Whether a router has routes to subnets of the network alone.
fn is_inside(file: &File) -> bool {
    let has_default = match &file.ospf {
        None => false,
        Some(process) => process.default.is_some(),
    };
    file.statics.as_slice().is_empty() && file.bgp.is_none() && !has_default
}

// Whether no router has a route to some destination.
fn has_unrouted(net: &Net, destinations: &Prefix) -> bool {
    net.routers().iter().all(|file| is_inside(file)) && !may_have_all(net, None, destinations)
}

/// The destinations of a question's packets; of one that only a packet delivered at its target breaks those there; and none
/// of one that a packet breaks to where it cannot be delivered.
pub(crate) fn sought(
    alloc: Global,
    net: &Net,
    question: &Question,
) -> Result<List<Prefix>, AllocError> {
    let destinations = &question.packets.dst;
    match &question.kind {
        Kind::Isolate(_, target) => at_target(alloc, net, target, destinations),
        Kind::Waypoint(_, target, _) => at_target(alloc, net, target, destinations),
        Kind::Alike(_, _, target) => at_target(alloc, net, target, destinations),
        Kind::Reach(_, target) if has_others(net, target, destinations) => Ok(List::new(alloc)),
        Kind::NoBlackHole(_) if has_unrouted(net, destinations) => Ok(List::new(alloc)),
        _ => alone(alloc, *destinations),
    }
}
