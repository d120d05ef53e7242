//! Limits of what OSPF routes cost, as terms. A route within a limit is one that the router originates, or a neighbour's is
//! within a limit of its own; where a neighbour's is within a cost of its own, the router's is within its cost. That follows
//! from what a router holds and says nothing new; but with it the costs follow, one after another, from which links have
//! failed, and a search need not guess them.

ghost use Rattle.std.specs.Prelude.{◌≡◌, ◌+◌, ◌≤◌, ◌<◌, ◌*◌, true, IfOk, None, ◌++◌, if◌then◌else◌};
ghost use Rattle.std.specs.List.{filter_map, list_any};
ghost use Rattle.net_parts.specs.Ospf as model;
ghost use Rattle.net_parts.specs.OspfRoutes.{first_best, offer_over};
ghost use Rattle.route_record.specs.declared.Tables.{Tables as TablesOf};
ghost use Rattle.route_record.specs.declared.tracked.Tracked.{Tracked as TrackedOf};
ghost use Rattle.sym_policy.specs.Held.{failures_of, ospf_of, ospf_end};
ghost use Rattle.sym_policy.specs.Records.{prefix_of as prefix_read};
ghost use Rattle.sym_rib.specs.Into.{list_end};
ghost use Rattle.sym_rib.specs.Worlds.{slots_end};
ghost use Rattle.ospf_equations.specs.Adjacent.{offers_read, ups_end};
ghost use Rattle.ospf_equations.specs.Equations.{StandFor, offers_by};
ghost use Rattle.ospf_equations.specs.Levels.{has_within, is_within, of_length};
ghost use Rattle.world_variables.specs.Slots.{same_ospf};
ghost use Rattle.term_store.specs.Terms.{Reading, at, size};
ghost use Rattle.term_store.specs.Reading.{Reads, Builds, Gives};
ghost use Rattle.term_arith.specs.Bits.{ids_end};

use crate::adjacent::{SymAdjacency, sym_adjacencies};
use crate::limits::{AllLimits, Limits};
use crate::offers::with_offers;
use crate::origins::SlotPlace;
use mw_text::List;
use net_model::Adjacency;
use std::alloc::{AllocError, Global};
use sym_ospf::{sym_best, sym_same_record};
use sym_policy::SymOspf;
use sym_rib::{SymTables, slot_for};
use term_arith::gates::{both, constant_node, either, implies, is_never, negate};
use term_arith::{above_number, equal_number};
use term_store::{NodeId, Terms};

/// Whether the route is there, is internal and costs no more.
#[tactic(auto, using(crate::proofs::LevelSteps::within_is))]
pub(crate) fn sym_within(terms: &mut Terms, rec: &SymOspf, most: u32) -> Result<NodeId, AllocError>
    requires nodes { ospf_end rec.now ≤ size terms.old }
    ensures builds { Builds terms.old terms.new }
    ensures within { IfOk result (λ r. r.0 < size terms.new) }
    ensures value { Gives terms.new result (λ w r. at w r ≡ has_within most (ospf_of w rec.now)) }
{
    let internal = equal_number(terms, rec.kind.nodes.as_slice(), 0)?;
    let there = both(terms, rec.valid, internal)?;
    let dearer = above_number(terms, rec.cost.nodes.as_slice(), u64::from(most))?;
    let cheap = negate(terms, dearer)?;
    both(terms, there, cheap)
}

// Whether one of some is.
#[tactic(auto, using(crate::proofs::HoldingSteps::any_steps))]
fn sym_some_within(terms: &mut Terms, own: &[SymOspf], most: u32) -> Result<NodeId, AllocError>
    requires own { list_end ospf_end own.now ≤ size terms.old }
    ensures builds { Builds terms.old terms.new }
    ensures within { IfOk result (λ r. r.0 < size terms.new) }
    ensures value { Gives terms.new result (λ w r. at w r
        ≡ list_any (is_within most) (filter_map (ospf_of w) own.now)) }
{
    let mut any = constant_node(terms, false)?;
    for rec in own {
        let here = sym_within(terms, rec, most)?;
        any = either(terms, any, here)?;
    }
    Ok(any)
}

// Whether the route that the far router of an adjacency offers is, where a node is true.
fn sym_far_within(
    terms: &mut Terms,
    tables: &SymTables<'_>,
    len: u8,
    a: &Adjacency,
    up: NodeId,
    most: u32,
) -> Result<NodeId, AllocError>
    requires long { len ≤ 32 }
    requires tables { slots_end tables.now.slots.now ≤ size terms.old }
    requires up { up.0 < size terms.old }
    ensures builds { Builds terms.old terms.new }
    ensures within { IfOk result (λ r. r.0 < size terms.new) }
    ensures value { Gives terms.new result (λ w r. (tracked : TrackedOf) (real : TablesOf) →
        StandFor w tracked tables.now real →
        at w r ≡ has_within most (if at w up then offer_over real (of_length len) a.now else None)) }
{
    if a.cost > most {
        return constant_node(terms, false);
    }
    match slot_for(tables, a.to.router, len) {
        None => constant_node(terms, false),
        Some(far) => {
            let there = sym_within(terms, &far.ospf, most - a.cost)?;
            both(terms, up, there)
        }
    }
}

// Whether two routes are one, or neither is there.
#[tactic(auto, using(crate::proofs::HoldingSteps::same_steps))]
fn sym_same(terms: &mut Terms, a: &SymOspf, b: &SymOspf) -> Result<NodeId, AllocError>
    requires first { ospf_end a.now ≤ size terms.old }
    requires second { ospf_end b.now ≤ size terms.old }
    ensures builds { Builds terms.old terms.new }
    ensures within { IfOk result (λ r. r.0 < size terms.new) }
    ensures value { Gives terms.new result (λ w r. at w r ≡ same_ospf (ospf_of w a.now) (ospf_of w b.now)) }
{
    let same = sym_same_record(terms, a, b)?;
    let there = both(terms, a.valid, b.valid)?;
    let one = both(terms, there, same)?;
    let some = either(terms, a.valid, b.valid)?;
    let gone = negate(terms, some)?;
    either(terms, gone, one)
}

/// A router's route at a length, and what it is the best of: its own routes and what it is offered over adjacencies. The
/// far routers' routes stand in the tables, and all have limits.
#[derive(Clone, Copy)]
pub(crate) struct Leveled<'a, 'b> {
    pub tables: &'a SymTables<'a>,
    pub over: &'b [SymAdjacency],
    pub len: u8,
    pub own: &'b [SymOspf],
    pub held: &'a SymOspf,
    pub limits: &'a AllLimits,
}

// The least limit of an adjacency's far router, with the cost of the link, that is no less than a number.
fn raised(limits: &AllLimits, len: u8, a: &Adjacency, most: u32) -> u32
    ensures { most ≤ result }
{
    if a.cost > most {
        return most;
    }
    limits
        .least_from(a.to.router, len, most - a.cost)
        .saturating_add(a.cost)
        .max(most)
}

// The greatest cost of an adjacency's far router, with the cost of the link, that is no more than a number.
fn lowered(limits: &AllLimits, len: u8, a: &Adjacency, most: u32) -> u32
    ensures { result ≤ most }
{
    if a.cost > most {
        return most;
    }
    limits
        .greatest_to(a.to.router, len, most - a.cost)
        .saturating_add(a.cost)
        .min(most)
}

// True where one of all offers is within a limit.
#[tactic(auto, using(crate::proofs::AdjacentSteps::within_steps))]
fn sym_some_near(terms: &mut Terms, c: &Leveled<'_, '_>, most: u32) -> Result<NodeId, AllocError>
    requires long { c.now.len ≤ 32 }
    requires tables { slots_end c.now.tables.now.slots.now ≤ size terms.old }
    requires over { ups_end c.now.over.now ≤ size terms.old }
    ensures builds { Builds terms.old terms.new }
    ensures within { IfOk result (λ r. r.0 < size terms.new) }
    ensures value { Gives terms.new result (λ w r. (tracked : TrackedOf) (real : TablesOf) →
        StandFor w tracked c.now.tables.now real →
        list_any (is_within most) (offers_read w real (of_length c.now.len) c.now.over.now) ≡ true → at w r ≡ true) }
{
    let over = c.over;
    let mut any = constant_node(terms, false)?;
    for s in over {
        let limit = raised(c.limits, c.len, &s.adjacency, most);
        let here = sym_far_within(terms, c.tables, c.len, &s.adjacency, s.up, limit)?;
        any = either(terms, any, here)?;
    }
    Ok(any)
}

// True only where one of all offers is within a limit.
#[tactic(auto, using(crate::proofs::AdjacentSteps::within_steps))]
fn sym_some_far(terms: &mut Terms, c: &Leveled<'_, '_>, most: u32) -> Result<NodeId, AllocError>
    requires long { c.now.len ≤ 32 }
    requires tables { slots_end c.now.tables.now.slots.now ≤ size terms.old }
    requires over { ups_end c.now.over.now ≤ size terms.old }
    ensures builds { Builds terms.old terms.new }
    ensures within { IfOk result (λ r. r.0 < size terms.new) }
    ensures value { Gives terms.new result (λ w r. (tracked : TrackedOf) (real : TablesOf) →
        StandFor w tracked c.now.tables.now real → at w r ≡ true →
        list_any (is_within most) (offers_read w real (of_length c.now.len) c.now.over.now) ≡ true) }
{
    let over = c.over;
    let mut any = constant_node(terms, false)?;
    for s in over {
        let limit = lowered(c.limits, c.len, &s.adjacency, most);
        let here = sym_far_within(terms, c.tables, c.len, &s.adjacency, s.up, limit)?;
        any = either(terms, any, here)?;
    }
    Ok(any)
}

// True where the held route is the best of all: within a limit it is an own one, or a neighbour's is within its own limit.
fn sym_below(terms: &mut Terms, c: &Leveled<'_, '_>, most: u32) -> Result<NodeId, AllocError>
    requires long { c.now.len ≤ 32 }
    requires tables { slots_end c.now.tables.now.slots.now ≤ size terms.old }
    requires over { ups_end c.now.over.now ≤ size terms.old }
    requires own { list_end ospf_end c.now.own.now ≤ size terms.old }
    requires held { ospf_end c.now.held.now ≤ size terms.old }
    ensures builds { Builds terms.old terms.new }
    ensures within { IfOk result (λ r. r.0 < size terms.new) }
    ensures value { Gives terms.new result (λ w r. (tracked : TrackedOf) (real : TablesOf) →
        StandFor w tracked c.now.tables.now real → same_ospf (ospf_of w c.now.held.now) (first_best (filter_map
        (ospf_of w) c.now.own.now ++ offers_read w real (of_length c.now.len) c.now.over.now)) ≡ true →
        at w r ≡ true) }
{
    let here = sym_within(terms, c.held, most)?;
    let own = sym_some_within(terms, c.own, most)?;
    let near = sym_some_near(terms, c, most)?;
    let some = either(terms, own, near)?;
    let level = implies(terms, here, some)?;
    Ok(level)
}

// True where the held route is the best of all: it is within a cost where an own one is, or a neighbour's is within a cost
// of its own.
fn sym_at_cost(terms: &mut Terms, c: &Leveled<'_, '_>, most: u32) -> Result<NodeId, AllocError>
    requires long { c.now.len ≤ 32 }
    requires tables { slots_end c.now.tables.now.slots.now ≤ size terms.old }
    requires over { ups_end c.now.over.now ≤ size terms.old }
    requires own { list_end ospf_end c.now.own.now ≤ size terms.old }
    requires held { ospf_end c.now.held.now ≤ size terms.old }
    ensures builds { Builds terms.old terms.new }
    ensures within { IfOk result (λ r. r.0 < size terms.new) }
    ensures value { Gives terms.new result (λ w r. (tracked : TrackedOf) (real : TablesOf) →
        StandFor w tracked c.now.tables.now real → same_ospf (ospf_of w c.now.held.now) (first_best (filter_map
        (ospf_of w) c.now.own.now ++ offers_read w real (of_length c.now.len) c.now.over.now)) ≡ true →
        at w r ≡ true) }
{
    let here = sym_within(terms, c.held, most)?;
    let own = sym_some_within(terms, c.own, most)?;
    let far = sym_some_far(terms, c, most)?;
    let some = either(terms, own, far)?;
    let level = implies(terms, some, here)?;
    Ok(level)
}

// The same at each limit below a cost.
fn sym_all_below(
    terms: &mut Terms,
    c: &Leveled<'_, '_>,
    below: &[u32],
) -> Result<NodeId, AllocError>
    requires long { c.now.len ≤ 32 }
    requires tables { slots_end c.now.tables.now.slots.now ≤ size terms.old }
    requires over { ups_end c.now.over.now ≤ size terms.old }
    requires own { list_end ospf_end c.now.own.now ≤ size terms.old }
    requires held { ospf_end c.now.held.now ≤ size terms.old }
    ensures builds { Builds terms.old terms.new }
    ensures within { IfOk result (λ r. r.0 < size terms.new) }
    ensures value { Gives terms.new result (λ w r. (tracked : TrackedOf) (real : TablesOf) →
        StandFor w tracked c.now.tables.now real → same_ospf (ospf_of w c.now.held.now) (first_best (filter_map
        (ospf_of w) c.now.own.now ++ offers_read w real (of_length c.now.len) c.now.over.now)) ≡ true →
        at w r ≡ true) }
{
    let mut all = constant_node(terms, true)?;
    for most in below {
        let level = sym_below(terms, c, *most)?;
        all = both(terms, all, level)?;
    }
    Ok(all)
}

// And at each cost.
fn sym_all_at(terms: &mut Terms, c: &Leveled<'_, '_>, costs: &[u32]) -> Result<NodeId, AllocError>
    requires long { c.now.len ≤ 32 }
    requires tables { slots_end c.now.tables.now.slots.now ≤ size terms.old }
    requires over { ups_end c.now.over.now ≤ size terms.old }
    requires own { list_end ospf_end c.now.own.now ≤ size terms.old }
    requires held { ospf_end c.now.held.now ≤ size terms.old }
    ensures builds { Builds terms.old terms.new }
    ensures within { IfOk result (λ r. r.0 < size terms.new) }
    ensures value { Gives terms.new result (λ w r. (tracked : TrackedOf) (real : TablesOf) →
        StandFor w tracked c.now.tables.now real → same_ospf (ospf_of w c.now.held.now) (first_best (filter_map
        (ospf_of w) c.now.own.now ++ offers_read w real (of_length c.now.len) c.now.over.now)) ≡ true →
        at w r ≡ true) }
{
    let mut all = constant_node(terms, true)?;
    for most in costs {
        let level = sym_at_cost(terms, c, *most)?;
        all = both(terms, all, level)?;
    }
    Ok(all)
}

// A route within a number is within each greater one.
fn sym_wider(terms: &mut Terms, held: &SymOspf, least: u32, next: u32) -> Result<NodeId, AllocError>
    requires held { ospf_end held.now ≤ size terms.old }
    ensures builds { Builds terms.old terms.new }
    ensures within { IfOk result (λ r. r.0 < size terms.new) }
    ensures value { Gives terms.new result (λ w r. at w r ≡ true) }
{
    let less = sym_within(terms, held, least)?;
    let more = sym_within(terms, held, next.max(least))?;
    let step = implies(terms, less, more)?;
    Ok(step)
}

// The same of some numbers, one after another.
fn sym_ordered(terms: &mut Terms, held: &SymOspf, numbers: &[u32]) -> Result<NodeId, AllocError>
    requires held { ospf_end held.now ≤ size terms.old }
    ensures builds { Builds terms.old terms.new }
    ensures within { IfOk result (λ r. r.0 < size terms.new) }
    ensures value { Gives terms.new result (λ w r. at w r ≡ true) }
{
    let mut all = constant_node(terms, true)?;
    for at in 1..numbers.len() {
        let step = sym_wider(terms, held, numbers[at - 1], numbers[at])?;
        all = both(terms, all, step)?;
    }
    Ok(all)
}

// True where the held route is the best of the own ones and the offers, whatever the limits.
fn sym_all_levels(
    terms: &mut Terms,
    c: &Leveled<'_, '_>,
    limits: &Limits,
) -> Result<NodeId, AllocError>
    requires long { c.now.len ≤ 32 }
    requires tables { slots_end c.now.tables.now.slots.now ≤ size terms.old }
    requires over { ups_end c.now.over.now ≤ size terms.old }
    requires own { list_end ospf_end c.now.own.now ≤ size terms.old }
    requires held { ospf_end c.now.held.now ≤ size terms.old }
    ensures builds { Builds terms.old terms.new }
    ensures within { IfOk result (λ r. r.0 < size terms.new) }
    ensures value { Gives terms.new result (λ w r. (tracked : TrackedOf) (real : TablesOf) →
        StandFor w tracked c.now.tables.now real → same_ospf (ospf_of w c.now.held.now) (first_best (filter_map
        (ospf_of w) c.now.own.now ++ offers_read w real (of_length c.now.len) c.now.over.now)) ≡ true →
        at w r ≡ true) }
{
    let below = sym_all_below(terms, c, limits.below.as_slice())?;
    let costs = sym_all_at(terms, c, limits.costs.as_slice())?;
    let order = sym_ordered(terms, c.held, limits.all.as_slice())?;
    let levels = both(terms, below, costs)?;
    let all = both(terms, levels, order)?;
    Ok(all)
}

// The same with the limits of that router, where there can be a route.
fn sym_levels(terms: &mut Terms, c: &Leveled<'_, '_>, router: u32) -> Result<NodeId, AllocError>
    requires long { c.now.len ≤ 32 }
    requires tables { slots_end c.now.tables.now.slots.now ≤ size terms.old }
    requires over { ups_end c.now.over.now ≤ size terms.old }
    requires own { list_end ospf_end c.now.own.now ≤ size terms.old }
    requires held { ospf_end c.now.held.now ≤ size terms.old }
    ensures builds { Builds terms.old terms.new }
    ensures within { IfOk result (λ r. r.0 < size terms.new) }
    ensures value { Gives terms.new result (λ w r. (tracked : TrackedOf) (real : TablesOf) →
        StandFor w tracked c.now.tables.now real → same_ospf (ospf_of w c.now.held.now) (first_best (filter_map
        (ospf_of w) c.now.own.now ++ offers_read w real (of_length c.now.len) c.now.over.now)) ≡ true →
        at w r ≡ true) }
{
    let can_be = !is_never(terms, c.held.valid);
    match c.limits.of(router, c.len) {
        Some(limits) if can_be => {
            let levels = sym_all_levels(terms, c, limits)?;
            Ok(levels)
        }
        _ => {
            let none = constant_node(terms, true)?;
            Ok(none)
        }
    }
}

/// Whether the held route is the best of some own ones and what the router is offered; with the limits of its cost, from
/// which it follows without a search.
pub(crate) fn sym_held<'a>(
    alloc: Global,
    terms: &mut Terms,
    place: &SlotPlace<'_>,
    tables: &'a SymTables<'a>,
    own: List<SymOspf>,
    held: &'a SymOspf,
    limits: &'a AllLimits,
) -> Result<NodeId, AllocError>
    requires down { ids_end place.now.sym.now.down ≤ size terms.old }
    requires long { place.now.len ≤ 32 }
    requires tables { slots_end tables.now.slots.now ≤ size terms.old }
    requires own { list_end ospf_end own ≤ size terms.old }
    requires held { ospf_end held.now ≤ size terms.old }
    ensures builds { Builds terms.old terms.new }
    ensures within { IfOk result (λ r. r.0 < size terms.new) }
    ensures value { Gives terms.new result (λ w r. (real : TablesOf) →
        StandFor w place.now.net.now.tracked tables.now real →
        at w r ≡ same_ospf (ospf_of w held.now) (first_best (filter_map (ospf_of w) own
        ++ offers_by place.now.net.now.files (failures_of w place.now.sym.now) real place.now.router
        (prefix_read w place.now.dst.now place.now.len)
        (model.adjacencies place.now.net.now.files)))) }
{
    let over = sym_adjacencies(alloc, terms, place.net, place.sym, place.router)?;
    let c = Leveled {
        tables,
        over: over.as_slice(),
        len: place.len,
        own: own.as_slice(),
        held,
        limits,
    };
    let levels = sym_levels(terms, &c, place.router)?;
    let all = with_offers(
        alloc,
        terms,
        tables,
        over.as_slice(),
        place.dst,
        place.len,
        own,
    )?;
    let best = sym_best(alloc, terms, all.as_slice())?;
    let same = sym_same(terms, held, &best)?;
    let firm = both(terms, same, levels)?;
    Ok(firm)
}
