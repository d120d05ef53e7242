//! Which limits of costs are looked at, by the length of a prefix and by router. Whatever they are, a formula says the
//! same: they only help a search.

ghost use Rattle.std.specs.Prelude.{◌≡◌, ◌≢◌, ◌<◌};

use crate::costs::{Failed, Graph, Over, costs_to};
use crate::even::even_limits;
use mw_text::{List, Prefix};
use net_interfaces::connected::prefixes_overlap;
use net_model::{Adjacency, Net, OspfInterface};
use net_parts::ospf::advertisement;
use route_record::LENGTHS;
use std::alloc::{AllocError, Global};

/// At most so many costs of a route, so many limits below them, and so many tests of one adjacency against one limit.
pub(crate) const MOST_LIMITS: u32 = 2_048;

pub(crate) const MOST_TESTS: u32 = 250_000;

// Adjacencies, once for each origin and each choice of failed links: no more of these.
const MOST_ROUNDS: u64 = 16_000_000;

/// What the route of a router costs at least from which no origin is reached: more than any route.
pub(crate) const NO_ROUTE: u32 = 1 << 30;

// At most so many failed links are tried together.
const MOST_FAILED: u32 = 2;

// Where not all choices of failed links are tried there are limits at equal steps, too, if they are so few.
const FEW_EVEN: usize = 64;

/// The limits of a router's route at a length, each list ascending.
#[derive(Drop)]
pub(crate) struct Limits {
    /// What the route costs while no link has failed, or few.
    pub(crate) costs: List<u32>,
    /// One less than each of these, and what neighbours need of the router for theirs.
    pub(crate) below: List<u32>,
    /// All of these, and one less than the least cost.
    pub(crate) all: List<u32>,
    /// What an internal route costs at least: as much as that to the nearest origin while no link has failed.
    pub(crate) least: u32,
}

/// The limits of each router's route at each length.
#[derive(Drop)]
pub struct AllLimits {
    // the destinations for whose routes they are
    destinations: List<Prefix>,
    graph: Graph,
    // whether costs are computed to where these originate
    is_by_costs: bool,
    routers: u32,
    // how long each list of costs, and each of limits below them, can become
    most: usize,
    // by length, and then by router
    each: List<Limits>,
}

// The least of ascending numbers that is no less; the greatest number of all where there is none.
fn least_from(numbers: &[u32], from: u32) -> u32 {
    match numbers.get(count_less(numbers, from)) {
        None => u32::MAX,
        Some(number) => *number,
    }
}

// The greatest of ascending numbers that is no more; 0 where there is none.
fn greatest_to(numbers: &[u32], to: u32) -> u32 {
    let count = numbers.partition_point(|number| *number <= to);
    if count == 0 {
        return 0;
    }
    match numbers.get(count - 1) {
        None => 0,
        Some(number) => *number,
    }
}

// How many of ascending numbers are less.
fn count_less(numbers: &[u32], number: u32) -> usize {
    numbers.partition_point(|one| *one < number)
}

impl AllLimits {
    // Where a router's limits stand.
    fn place(&self, router: u32, len: u8) -> usize {
        (len as usize)
            .saturating_mul(self.routers as usize)
            .saturating_add(router as usize)
    }

    /// Those of a router at a length.
    pub(crate) fn of(&self, router: u32, len: u8) -> Option<&Limits> {
        self.each.items.get(self.place(router, len))
    }

    /// What a router's internal route at a length costs at least.
    pub(crate) fn least_cost(&self, router: u32, len: u8) -> u32 {
        match self.of(router, len) {
            None => 0,
            Some(limits) => limits.least,
        }
    }

    /// The adjacencies of the network.
    pub(crate) fn graph(&self) -> &Graph {
        &self.graph
    }

    /// Whether costs to an interface are looked at: it advertises a prefix that has such destinations.
    pub(crate) fn are_for(&self, x: &OspfInterface) -> bool {
        self.is_by_costs && is_origin(x, self.destinations.as_slice())
    }

    /// The least limit below a cost that is no less than a number; one less than what the route costs at least where it is
    /// no cost.
    pub(crate) fn least_from(&self, router: u32, len: u8, from: u32) -> u32 {
        match self.of(router, len) {
            None => u32::MAX,
            Some(limits) if from < limits.least => limits.least - 1,
            Some(limits) => least_from(limits.below.as_slice(), from),
        }
    }

    /// The greatest cost that is no more than a number.
    pub(crate) fn greatest_to(&self, router: u32, len: u8, to: u32) -> u32 {
        match self.of(router, len) {
            None => 0,
            Some(limits) => greatest_to(limits.costs.as_slice(), to),
        }
    }
}

// Puts a number at its place among ascending ones, unless it is there or they are so many.
fn insert(numbers: &mut List<u32>, number: u32, most: usize) -> Result<(), AllocError> {
    if numbers.items.len() >= most || least_from(numbers.as_slice(), number) == number {
        return Ok(());
    }
    let at = count_less(numbers.as_slice(), number).min(numbers.items.len());
    numbers.items.insert(at, number)?;
    Ok(())
}

// Puts all of some numbers there.
fn insert_all(numbers: &mut List<u32>, more: &[u32]) -> Result<(), AllocError> {
    for number in more {
        insert(numbers, *number, usize::MAX)?;
    }
    Ok(())
}

// What is one below each cost but the least.
fn insert_below(below: &mut List<u32>, costs: &[u32], least: u32) -> Result<(), AllocError> {
    for cost in costs {
        if *cost > least {
            insert(below, *cost - 1, usize::MAX)?;
        }
    }
    Ok(())
}

// An origin: a router that advertises a prefix of that length at a cost.
#[derive(Clone, Copy)]
struct Origin<'a> {
    graph: &'a Graph,
    router: u32,
    cost: u32,
    len: u8,
}

// Puts what a router's route costs into its list.
fn add_cost(all: &mut AllLimits, router: u32, len: u8, cost: u32) -> Result<(), AllocError> {
    let at = all.place(router, len);
    let most = all.most;
    match all.each.items.get_mut(at) {
        Some(limits) if cost != u32::MAX => {
            limits.least = limits.least.min(cost);
            insert(&mut limits.costs, cost, most)
        }
        _ => Ok(()),
    }
}

// The costs of all routers to an origin.
fn add_costs(all: &mut AllLimits, len: u8, costs: &[u32]) -> Result<(), AllocError> {
    for router in 0..all.routers {
        let cost = match costs.get(router as usize) {
            None => u32::MAX,
            Some(found) => *found,
        };
        add_cost(all, router, len, cost)?;
    }
    Ok(())
}

// While a router's link has failed, and links before it that leave these costs; none where it leaves them, too.
fn add_failed(
    alloc: Global,
    all: &mut AllLimits,
    origin: &Origin<'_>,
    before: &[u32],
    over: &Over,
    failed: &Failed,
) -> Result<Option<List<u32>>, AllocError> {
    if !origin.graph.needs(before, over, failed) {
        return Ok(None);
    }
    let costs = costs_to(alloc, origin.graph, origin.router, origin.cost, failed)?;
    add_costs(all, origin.len, costs.as_slice())?;
    Ok(Some(costs))
}

// While a link has failed that leaves these costs, and each later one.
fn add_second(
    alloc: Global,
    all: &mut AllLimits,
    origin: &Origin<'_>,
    before: &[u32],
    links: &[Over],
    first: u32,
) -> Result<(), AllocError> {
    for over in links {
        let failed = Failed {
            first: Some(first),
            second: Some(over.edge.link),
        };
        add_failed(alloc, all, origin, before, over, &failed)?;
    }
    Ok(())
}

// While the first of some links has failed, and each later one with it where two are tried.
fn add_first(
    alloc: Global,
    all: &mut AllLimits,
    origin: &Origin<'_>,
    before: &[u32],
    links: &[Over],
    depth: u32,
) -> Result<(), AllocError> {
    let Some((over, later)) = links.split_first() else {
        return Ok(());
    };
    let failed = Failed {
        first: Some(over.edge.link),
        second: None,
    };
    let costs = add_failed(alloc, all, origin, before, over, &failed)?;
    if depth < MOST_FAILED {
        return Ok(());
    }
    match costs {
        None => add_second(alloc, all, origin, before, later, over.edge.link),
        Some(costs) => add_second(alloc, all, origin, costs.as_slice(), later, over.edge.link),
    }
}

// While none has failed, and while each one has, or each two.
fn add_origin(
    alloc: Global,
    all: &mut AllLimits,
    origin: &Origin<'_>,
    links: &[Over],
    depth: u32,
) -> Result<(), AllocError> {
    let none = Failed {
        first: None,
        second: None,
    };
    let costs = costs_to(alloc, origin.graph, origin.router, origin.cost, &none)?;
    add_costs(all, origin.len, costs.as_slice())?;
    if depth == 0 {
        return Ok(());
    }
    for at in 0..links.len() {
        add_first(alloc, all, origin, costs.as_slice(), &links[at..], depth)?;
    }
    Ok(())
}

// Whether an interface advertises a prefix that has some of these destinations.
fn is_origin(x: &OspfInterface, destinations: &[Prefix]) -> bool {
    let advertised = advertisement(x);
    destinations
        .iter()
        .any(|p| prefixes_overlap(&advertised, p))
}

// The costs to all such origins.
fn add_origins(
    alloc: Global,
    net: &Net,
    graph: &Graph,
    all: &mut AllLimits,
    destinations: &[Prefix],
    depth: u32,
) -> Result<(), AllocError> {
    let links = graph.links(alloc)?;
    for x in net.ospf_interfaces() {
        if is_origin(x, destinations) {
            let origin = Origin {
                graph,
                router: x.at.id.router,
                cost: x.cost,
                len: advertisement(x).len,
            };
            add_origin(alloc, all, &origin, links.as_slice(), depth)?;
        }
    }
    Ok(())
}

// How many origins there are.
fn count_origins(net: &Net, destinations: &[Prefix]) -> u64 {
    let mut count = 0u64;
    for x in net.ospf_interfaces() {
        if is_origin(x, destinations) {
            count = count.saturating_add(1);
        }
    }
    count
}

// With how many failed links costs are computed; none where they are not at all.
fn depth_for(origins: u64, adjacencies: u64, failures: u32) -> Option<u32> {
    let none = origins.saturating_mul(adjacencies);
    let one = none.saturating_mul(adjacencies);
    if none > MOST_ROUNDS {
        return None;
    }
    if failures == 0 || one > MOST_ROUNDS {
        return Some(0);
    }
    if failures == 1 || one.saturating_mul(adjacencies) > MOST_ROUNDS {
        return Some(1);
    }
    Some(MOST_FAILED)
}

// Where the near router of an adjacency has a limit, a route over it wants one of the far router's that is less than that,
// and no less than the limit less the cost of the link.
fn follow(all: &mut AllLimits, len: u8, a: &Adjacency, limit: u32) -> Result<(), AllocError> {
    if a.cost > limit || all.least_from(a.from.router, len, limit) != limit {
        return Ok(());
    }
    let wanted = limit - a.cost;
    if wanted < all.least_cost(a.to.router, len)
        || all.least_from(a.to.router, len, wanted) < limit
    {
        return Ok(());
    }
    let at = all.place(a.to.router, len);
    let most = all.most;
    match all.each.items.get_mut(at) {
        None => Ok(()),
        Some(far) => insert(&mut far.below, wanted, most),
    }
}

// The same over all adjacencies.
fn follow_all(net: &Net, all: &mut AllLimits, len: u8, limit: u32) -> Result<(), AllocError> {
    for a in net.adjacencies() {
        follow(all, len, a, limit)?;
    }
    Ok(())
}

// The greatest limit of some router at a length that is less than a number; 0 where there is none.
fn next_limit(all: &AllLimits, len: u8, bound: u32) -> u32
    ensures { bound ≢ 0 → result < bound }
{
    let most = bound.saturating_sub(1);
    let mut next = 0u32;
    for router in 0..all.routers {
        if let Some(limits) = all.of(router, len) {
            next = next.max(greatest_to(limits.below.as_slice(), most));
        }
    }
    next.min(most)
}

// From the greatest limit of a length down, since what follows is less.
fn close(net: &Net, all: &mut AllLimits, len: u8) -> Result<(), AllocError> {
    let mut limit = next_limit(all, len, u32::MAX);
    while limit != 0 {
        follow_all(net, all, len, limit)?;
        limit = next_limit(all, len, limit);
    }
    Ok(())
}

// The same at each length.
fn close_all(net: &Net, all: &mut AllLimits) -> Result<(), AllocError> {
    for len in 0..LENGTHS as u8 {
        close(net, all, len)?;
    }
    Ok(())
}

// What follows from the costs of each list.
fn begin_all(all: &mut AllLimits) -> Result<(), AllocError> {
    for limits in all.each.items.iter_mut() {
        insert_below(&mut limits.below, limits.costs.as_slice(), limits.least)?;
    }
    Ok(())
}

fn end_one(limits: &mut Limits) -> Result<(), AllocError> {
    insert(&mut limits.all, limits.least.saturating_sub(1), usize::MAX)?;
    insert_all(&mut limits.all, limits.costs.as_slice())?;
    insert_all(&mut limits.all, limits.below.as_slice())
}

// All limits in one list.
fn end_all(all: &mut AllLimits) -> Result<(), AllocError> {
    for limits in all.each.items.iter_mut() {
        end_one(limits)?;
    }
    Ok(())
}

// No limits yet.
fn no_limits(alloc: Global, net: &Net) -> Result<AllLimits, AllocError> {
    let routers = net.routers().len().min(u32::MAX as usize) as u32;
    let adjacencies = net.adjacencies().len().max(1).min(u32::MAX as usize) as u32;
    let most = MOST_LIMITS.min(MOST_TESTS / adjacencies) as usize;
    let mut each = List::new(alloc);
    for _ in 0..(LENGTHS as u32).saturating_mul(routers) {
        let one = Limits {
            costs: List::new(alloc),
            below: List::new(alloc),
            all: List::new(alloc),
            least: NO_ROUTE,
        };
        each.items.push(one)?;
    }
    Ok(AllLimits {
        destinations: List::new(alloc),
        graph: Graph::none(alloc),
        is_by_costs: false,
        routers,
        most,
        each,
    })
}

// The same limits for all, but those below a router's least cost.
fn fill(all: &mut AllLimits, even: &[u32]) -> Result<(), AllocError> {
    for limits in all.each.items.iter_mut() {
        let from = count_less(even, limits.least).min(even.len());
        fill_one(limits, &even[from..])?;
    }
    Ok(())
}

fn fill_one(limits: &mut Limits, even: &[u32]) -> Result<(), AllocError> {
    insert_all(&mut limits.costs, even)?;
    insert_all(&mut limits.below, even)?;
    insert_all(&mut limits.all, even)
}

// Limits at equal steps for all, where these are few.
fn fill_few(
    alloc: Global,
    net: &Net,
    graph: &Graph,
    all: &mut AllLimits,
    failures: u32,
) -> Result<(), AllocError> {
    let even = even_limits(alloc, net, graph, failures)?;
    if even.items.len() > FEW_EVEN {
        return Ok(());
    }
    fill(all, even.as_slice())
}

// Limits at equal steps for all, where no costs are computed: none is known that a route costs at least.
fn fill_even(
    alloc: Global,
    net: &Net,
    graph: &Graph,
    all: &mut AllLimits,
    failures: u32,
) -> Result<(), AllocError> {
    let even = even_limits(alloc, net, graph, failures)?;
    for limits in all.each.items.iter_mut() {
        limits.least = 0;
    }
    fill(all, even.as_slice())
}

// The limits where costs are computed to where these destinations originate, with so many failed links.
fn fill_by_costs(
    alloc: Global,
    net: &Net,
    graph: &Graph,
    all: &mut AllLimits,
    failures: u32,
    destinations: &[Prefix],
    depth: u32,
) -> Result<(), AllocError> {
    add_origins(alloc, net, graph, all, destinations, depth)?;
    if depth < failures.min(MOST_FAILED) {
        fill_few(alloc, net, graph, all, failures)?;
    }
    all.is_by_costs = true;
    begin_all(all)?;
    close_all(net, all)?;
    end_all(all)
}

/// The limits of routes to some destinations while so many links may have failed. The costs of a router at a length are those
/// to each interface that advertises a prefix of that length in which such destinations are, while no link has failed, any
/// one, or any two, as far as there are not too many choices. Else there are limits at equal steps. Err is want of memory.
pub fn limits_of(
    alloc: Global,
    net: &Net,
    failures: u32,
    destinations: List<Prefix>,
) -> Result<AllLimits, AllocError> {
    let graph = Graph::of(alloc, net)?;
    let mut all = no_limits(alloc, net)?;
    let origins = count_origins(net, destinations.as_slice());
    match depth_for(origins, net.adjacencies().len() as u64, failures) {
        None => fill_even(alloc, net, &graph, &mut all, failures)?,
        Some(depth) => fill_by_costs(
            alloc,
            net,
            &graph,
            &mut all,
            failures,
            destinations.as_slice(),
            depth,
        )?,
    }
    all.destinations = destinations;
    all.graph = graph;
    Ok(all)
}
