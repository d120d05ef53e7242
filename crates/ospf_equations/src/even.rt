//! Limits of costs at equal steps, for networks in which no costs are computed.

ghost use Rattle.std.specs.Prelude.{◌≢◌};

use crate::costs::{Failed, Graph, costs_to};
use crate::limits::{MOST_LIMITS, MOST_TESTS};
use mw_text::List;
use net_model::{Net, OspfInterface};
use slot_places::rooms::dearest_interface;
use std::alloc::{AllocError, Global};

// At most so many limits, and at most so many tests of one adjacency against one limit, where limits do not reach as far as
// routes cost.
const FEW_LIMITS: u32 = 128;

const FEW_TESTS: u32 = 40_000;

// In a network of more adjacencies no failed link is tried.
const MOST_TRIED: usize = 512;

// The greatest number that divides both; 0 where both are 0. Numbers below 2^32 take no more than 47 divisions.
fn common_divisor(a: u32, b: u32) -> u32 {
    let mut greater = a;
    let mut less = b;
    for _ in 0..48u8 {
        if less == 0 {
            return greater;
        }
        let rest = greater % less;
        greater = less;
        less = rest;
    }
    1
}

// What the costs of all interfaces that run OSPF are multiples of, and with them the costs of all internal routes.
fn common_step(interfaces: &[OspfInterface]) -> u32 {
    let mut step = 0u32;
    for x in interfaces {
        step = common_divisor(step, x.cost);
    }
    step
}

// The greatest of those numbers that are costs at all, and where it stands.
fn farthest(least: &[u32]) -> (u32, u32) {
    let mut found = (0u32, 0u32);
    for at in 0..least.len() {
        let cost = least[at];
        if cost != u32::MAX && cost > found.1 {
            found = (at.min(u32::MAX as usize) as u32, cost);
        }
    }
    found
}

// The greatest cost of a route to a router while any one link has failed.
fn farthest_without_one(
    alloc: Global,
    graph: &Graph,
    end: u32,
    origin: u32,
) -> Result<u32, AllocError> {
    let links = graph.links(alloc)?;
    let mut most = 0u32;
    for over in links.as_slice() {
        let failed = Failed {
            first: Some(over.edge.link),
            second: None,
        };
        let costs = costs_to(alloc, graph, end, origin, &failed)?;
        most = most.max(farthest(costs.as_slice()).1);
    }
    Ok(most)
}

// About the greatest cost of a route while so many links may have failed: to a router that is as far as any from the
// first, and what one failed link makes it dearer for each of them.
fn longest(
    alloc: Global,
    net: &Net,
    graph: &Graph,
    origin: u32,
    failures: u32,
) -> Result<u32, AllocError> {
    let none = Failed {
        first: None,
        second: None,
    };
    let (end, _) = farthest(costs_to(alloc, graph, 0, origin, &none)?.as_slice());
    let (_, whole) = farthest(costs_to(alloc, graph, end, origin, &none)?.as_slice());
    if failures == 0 {
        return Ok(whole);
    }
    if net.adjacencies().len() > MOST_TRIED {
        return Ok(whole.saturating_mul(2));
    }
    let one = farthest_without_one(alloc, graph, end, origin)?;
    Ok(
        one.saturating_sub(whole)
            .saturating_mul(failures)
            .saturating_add(whole),
    )
}

// So many limits, and fewer where they were too many.
fn capped_count(count: u32, adjacencies: u32) -> u32
    requires { adjacencies ≢ 0 }
{
    if count <= MOST_LIMITS && count.saturating_mul(adjacencies) <= MOST_TESTS {
        count
    } else {
        count.min(FEW_LIMITS).min(FEW_TESTS / adjacencies)
    }
}

// How many limits reach up to what routes cost.
fn reaching_count(
    alloc: Global,
    net: &Net,
    graph: &Graph,
    step: u32,
    failures: u32,
    adjacencies: u32,
) -> Result<u32, AllocError>
    requires step { step ≢ 0 }
    requires adjacencies { adjacencies ≢ 0 }
{
    let dearest = dearest_interface(net.ospf_interfaces());
    let most = longest(alloc, net, graph, dearest, failures)? / step;
    Ok(capped_count(most.saturating_add(1), adjacencies))
}

/// The limits, ascending from 0: no route costs nothing, and from there each limit follows from the one before. They reach
/// up to about the greatest cost of a route while so many links may have failed.
pub(crate) fn even_limits(
    alloc: Global,
    net: &Net,
    graph: &Graph,
    failures: u32,
) -> Result<List<u32>, AllocError> {
    let mut made = List::new(alloc);
    let step = common_step(net.ospf_interfaces());
    if step == 0 {
        return Ok(made);
    }
    let adjacencies = net.adjacencies().len().max(1).min(FEW_TESTS as usize) as u32;
    let count = reaching_count(alloc, net, graph, step, failures, adjacencies)?;
    for at in 0..count {
        made.items.push(at.saturating_mul(step))?;
    }
    Ok(made)
}
