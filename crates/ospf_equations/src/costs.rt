//! What routes to one router cost while links have failed.

use mw_text::List;
use net_model::{Adjacency, Net};
use std::alloc::{AllocError, Global};
use std::collections::VecDeque;

/// An adjacency of a router: the router at its other end, what a route over it costs, what one in the other direction
/// costs, and the number of its link.
#[derive(Clone, Copy)]
pub(crate) struct Edge {
    pub router: u32,
    pub cost: u32,
    pub back: u32,
    pub link: u32,
}

/// A link, by an adjacency of the earlier one of its routers.
#[derive(Clone, Copy)]
pub(crate) struct Over {
    pub router: u32,
    pub edge: Edge,
}

/// The links that have failed, at most two, by their numbers.
#[derive(Clone, Copy)]
pub(crate) struct Failed {
    pub first: Option<u32>,
    pub second: Option<u32>,
}

/// The adjacencies of each router.
#[derive(Drop)]
pub(crate) struct Graph {
    edges: List<List<Edge>>,
}

impl Failed {
    // Whether the link of that number has failed.
    fn has(&self, link: u32) -> bool {
        self.first == Some(link) || self.second == Some(link)
    }
}

// Where the adjacency in the other direction stands among all, which are in the order of routers.
fn reverse_of(adjacencies: &[Adjacency], a: &Adjacency) -> Option<usize> {
    let from = adjacencies.partition_point(|b| b.from.router < a.to.router);
    for at in from..adjacencies.len() {
        let b = &adjacencies[at];
        if b.from.router != a.to.router {
            return None;
        }
        if b.from == a.to && b.to == a.from {
            return Some(at);
        }
    }
    None
}

// An adjacency that stands at that place among all, as an edge. A link has the lesser place of its two as its number.
fn edge_of(adjacencies: &[Adjacency], a: &Adjacency, at: usize) -> Edge {
    let (back, other) = match reverse_of(adjacencies, a) {
        None => (u32::MAX, at),
        Some(other) => match adjacencies.get(other) {
            None => (u32::MAX, at),
            Some(b) => (b.cost, other),
        },
    };
    Edge {
        router: a.to.router,
        cost: a.cost,
        back,
        link: at.min(other).min(u32::MAX as usize) as u32,
    }
}

// Whether a route of that cost can be one over an adjacency.
fn is_tight(costs: &[u32], cost: u32, e: &Edge) -> bool {
    match costs.get(e.router as usize) {
        None => false,
        Some(far) => cost != u32::MAX && far.saturating_add(e.cost) == cost,
    }
}

impl Graph {
    /// No adjacencies.
    pub(crate) fn none(alloc: Global) -> Graph {
        Graph {
            edges: List::new(alloc),
        }
    }

    /// Those of a network.
    pub(crate) fn of(alloc: Global, net: &Net) -> Result<Graph, AllocError> {
        let mut edges = List::new(alloc);
        for _ in 0..net.routers().len() {
            edges.items.push(List::new(alloc))?;
        }
        for (at, a) in net.adjacencies().iter().enumerate() {
            if let Some(own) = edges.items.get_mut(a.from.router as usize) {
                own.items.push(edge_of(net.adjacencies(), a, at))?;
            }
        }
        Ok(Graph { edges })
    }

    // Those of a router.
    fn edges_of(&self, router: u32) -> &[Edge] {
        match self.edges.items.get(router as usize) {
            None => &[],
            Some(edges) => edges.as_slice(),
        }
    }

    /// All links, each once.
    pub(crate) fn links(&self, alloc: Global) -> Result<List<Over>, AllocError> {
        let mut links = List::new(alloc);
        for router in 0..self.edges.items.len().min(u32::MAX as usize) as u32 {
            for edge in self.edges_of(router) {
                if router < edge.router {
                    links.items.push(Over {
                        router,
                        edge: *edge,
                    })?;
                }
            }
        }
        Ok(links)
    }

    // Whether a router with these costs has its own over an adjacency, and over no other one whose link has not failed.
    fn depends(&self, costs: &[u32], router: u32, e: &Edge, failed: &Failed) -> bool {
        let cost = match costs.get(router as usize) {
            None => return false,
            Some(cost) => *cost,
        };
        is_tight(costs, cost, e)
            && !self
                .edges_of(router)
                .iter()
                .any(|x| !failed.has(x.link) && is_tight(costs, cost, x))
    }

    /// Whether routes that have these costs can cost more where a link has failed as well, which is among the failed ones: a
    /// router at one of its ends has its route over this link alone. Costs of links are above 0.
    pub(crate) fn needs(&self, costs: &[u32], over: &Over, failed: &Failed) -> bool {
        let there = &over.edge;
        let back = Edge {
            router: over.router,
            cost: there.back,
            back: there.cost,
            link: there.link,
        };
        self.depends(costs, over.router, there, failed)
            || self.depends(costs, there.router, &back, failed)
    }
}

// What was found so far, and the routers whose costs fell and whose neighbours were not looked at since.
#[derive(Drop)]
struct Search {
    least: List<u32>,
    is_open: List<bool>,
    open: VecDeque<u32>,
}

// A search in which nothing was found.
fn begin(alloc: Global, count: usize) -> Result<Search, AllocError> {
    Ok(Search {
        least: List {
            items: vec![in alloc; u32::MAX; count]?,
        },
        is_open: List {
            items: vec![in alloc; false; count]?,
        },
        open: VecDeque::new(alloc),
    })
}

// Whether a cost is less than what was found for the router, which has it then.
fn lower(least: &mut [u32], router: u32, cost: u32) -> bool {
    match least.get_mut(router as usize) {
        Some(near) if cost < *near => {
            *near = cost;
            true
        }
        _ => false,
    }
}

// Marks a router as open, or as not. Whether that is new.
fn turn(is_open: &mut [bool], router: u32, to: bool) -> bool {
    match is_open.get_mut(router as usize) {
        Some(open) if *open != to => {
            *open = to;
            true
        }
        _ => false,
    }
}

// A route of a router.
fn offer(search: &mut Search, router: u32, cost: u32) -> Result<(), AllocError> {
    if lower(&mut search.least.items, router, cost)
        && turn(&mut search.is_open.items, router, true)
    {
        search.open.push_back(router)?;
    }
    Ok(())
}

// The routes of a router's neighbours over it, where links have not failed.
fn spread(
    search: &mut Search,
    graph: &Graph,
    router: u32,
    failed: &Failed,
) -> Result<(), AllocError> {
    turn(&mut search.is_open.items, router, false);
    let cost = match search.least.items.get(router as usize) {
        None => return Ok(()),
        Some(cost) => *cost,
    };
    for e in graph.edges_of(router) {
        if !failed.has(e.link) {
            offer(search, e.router, cost.saturating_add(e.back))?;
        }
    }
    Ok(())
}

/// What each router's route costs that another originates at some cost; the greatest number where it has none. A router
/// whose cost falls is looked at once more (the way of Bellman and Ford, by a queue).
pub(crate) fn costs_to(
    alloc: Global,
    graph: &Graph,
    end: u32,
    origin: u32,
    failed: &Failed,
) -> Result<List<u32>, AllocError> {
    let mut search = begin(alloc, graph.edges.items.len())?;
    offer(&mut search, end, origin)?;
    for _ in 0..u64::MAX {
        match search.open.pop_front() {
            None => break,
            Some(router) => spread(&mut search, graph, router, failed)?,
        }
    }
    let Search { least, .. } = search;
    Ok(least)
}
