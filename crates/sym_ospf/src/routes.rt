//! OSPF routes as terms: which is the better one, the first best of some, and one that is handed on.

ghost use Rattle.std.specs.Prelude.{◌≡◌, ◌==◌, ◌<◌, ◌≤◌, ◌&&◌, ◌||◌, true, false, not, nat_lt, if◌then◌else◌, IfOk};
ghost use Rattle.std.specs.Prelude.{Some, None, option_and_then};
ghost use Rattle.std.specs.List.{filter_map};
ghost use Rattle.term_store.specs.Terms.{size, at};
ghost use Rattle.term_store.specs.Reading.{Builds, Gives};
ghost use Rattle.net_parts.specs.OspfRoutes.{kind_rank, is_type2, is_better, first_best, extended};
ghost use Rattle.net_parts.specs.Sending.{same_record};
ghost use Rattle.sym_policy.specs.Held.{ospf_at, ospf_of, ospf_end, internal_route};
ghost use Rattle.sym_ospf.specs.Routes.{routes_end, kept};

use std::alloc::{AllocError, Global};
use sym_policy::SymOspf;
use term_arith::gates::{both, constant_node, either, negate, select};
use term_arith::{Summed, add_within, choose, constant, copy, equal, equal_number, less};
use term_store::{NodeId, Terms};

/// The first route where `c` is true, else the second.
pub(crate) fn choose_ospf(
    alloc: Global,
    terms: &mut Terms,
    c: NodeId,
    a: &SymOspf,
    b: &SymOspf,
) -> Result<SymOspf, AllocError>
    requires test { c.0 < size terms.old }
    requires first { ospf_end a.now ≤ size terms.old }
    requires second { ospf_end b.now ≤ size terms.old }
    ensures builds { Builds terms.old terms.new }
    ensures within { IfOk result (λ r. ospf_end r ≤ size terms.new) }
    ensures value { Gives terms.new result (λ w r. ospf_of w r
        ≡ (if at w c then ospf_of w a.now else ospf_of w b.now)) }
{
    let valid = select(terms, c, a.valid, b.valid)?;
    let kind = choose(alloc, terms, c, &a.kind, &b.kind)?;
    let metric = choose(alloc, terms, c, &a.metric, &b.metric)?;
    let cost = choose(alloc, terms, c, &a.cost, &b.cost)?;
    Ok(SymOspf {
        valid,
        kind,
        metric,
        cost,
    })
}

/// An internal route of a known cost, which is there where `valid` is true.
pub fn known_ospf(
    alloc: Global,
    terms: &mut Terms,
    valid: bool,
    cost: u32,
) -> Result<SymOspf, AllocError>
    ensures builds { Builds terms.old terms.new }
    ensures within { IfOk result (λ r. ospf_end r ≤ size terms.new) }
    ensures value { Gives terms.new result (λ w r. ospf_of w r ≡ (if valid then Some (internal_route cost) else None)) }
{
    let there = constant_node(terms, valid)?;
    let kind = constant(alloc, terms, 0, 2)?;
    let metric = constant(alloc, terms, 0, 32)?;
    let cost = constant(alloc, terms, u64::from(cost), 32)?;
    Ok(SymOspf {
        valid: there,
        kind,
        metric,
        cost,
    })
}

/// Whether the route is external of type 2.
#[tactic(auto, using(crate::proofs::RouteKinds::type2_is))]
fn sym_type2(terms: &mut Terms, rec: &SymOspf) -> Result<NodeId, AllocError>
    requires nodes { ospf_end rec.now ≤ size terms.old }
    ensures builds { Builds terms.old terms.new }
    ensures within { IfOk result (λ r. r.0 < size terms.new) }
    ensures value { Gives terms.new result (λ w r. at w r ≡ is_type2 (ospf_at w rec.now).kind) }
{
    let internal = equal_number(terms, rec.kind.nodes.as_slice(), 0)?;
    let type1 = equal_number(terms, rec.kind.nodes.as_slice(), 1)?;
    let other = either(terms, internal, type1)?;
    negate(terms, other)
}

/// Whether the kind of the first route comes before that of the second.
#[tactic(auto, using(crate::proofs::RouteKinds::before_is))]
fn sym_kind_before(terms: &mut Terms, a: &SymOspf, b: &SymOspf) -> Result<NodeId, AllocError>
    requires first { ospf_end a.now ≤ size terms.old }
    requires second { ospf_end b.now ≤ size terms.old }
    ensures builds { Builds terms.old terms.new }
    ensures within { IfOk result (λ r. r.0 < size terms.new) }
    ensures value { Gives terms.new result (λ w r. at w r
        ≡ nat_lt (kind_rank (ospf_at w a.now).kind) (kind_rank (ospf_at w b.now).kind)) }
{
    let below = less(terms, &a.kind, &b.kind)?;
    let last = sym_type2(terms, a)?;
    let earlier = negate(terms, last)?;
    both(terms, below, earlier)
}

/// Whether two routes are of one kind.
#[tactic(auto, using(crate::proofs::RouteKinds::same_is))]
fn sym_same_kind(terms: &mut Terms, a: &SymOspf, b: &SymOspf) -> Result<NodeId, AllocError>
    requires first { ospf_end a.now ≤ size terms.old }
    requires second { ospf_end b.now ≤ size terms.old }
    ensures builds { Builds terms.old terms.new }
    ensures within { IfOk result (λ r. r.0 < size terms.new) }
    ensures value { Gives terms.new result (λ w r. at w r
        ≡ (kind_rank (ospf_at w a.now).kind == kind_rank (ospf_at w b.now).kind)) }
{
    let same = equal(terms, &a.kind, &b.kind)?;
    let first = sym_type2(terms, a)?;
    let second = sym_type2(terms, b)?;
    let last = both(terms, first, second)?;
    either(terms, same, last)
}

/// Whether two routes are one, as if both were there.
pub fn sym_same_record(terms: &mut Terms, a: &SymOspf, b: &SymOspf) -> Result<NodeId, AllocError>
    requires first { ospf_end a.now ≤ size terms.old }
    requires second { ospf_end b.now ≤ size terms.old }
    ensures builds { Builds terms.old terms.new }
    ensures within { IfOk result (λ r. r.0 < size terms.new) }
    ensures value { Gives terms.new result (λ w r. at w r ≡ same_record (ospf_at w a.now) (ospf_at w b.now)) }
{
    let kind = sym_same_kind(terms, a, b)?;
    let metric = equal(terms, &a.metric, &b.metric)?;
    let cost = equal(terms, &a.cost, &b.cost)?;
    let numbers = both(terms, metric, cost)?;
    both(terms, kind, numbers)
}

/// Whether of two routes of one kind the first is the better one: of type 2 by the metric and then by the cost, else by
/// the cost.
fn sym_nearer(terms: &mut Terms, a: &SymOspf, b: &SymOspf) -> Result<NodeId, AllocError>
    requires first { ospf_end a.now ≤ size terms.old }
    requires second { ospf_end b.now ≤ size terms.old }
    ensures builds { Builds terms.old terms.new }
    ensures within { IfOk result (λ r. r.0 < size terms.new) }
    ensures value { Gives terms.new result (λ w r. at w r
        ≡ ((is_type2 (ospf_at w a.now).kind && nat_lt (ospf_at w a.now).metric (ospf_at w b.now).metric)
        || ((not (is_type2 (ospf_at w a.now).kind) || (ospf_at w a.now).metric == (ospf_at w b.now).metric)
        && nat_lt (ospf_at w a.now).cost (ospf_at w b.now).cost))) }
{
    let type2 = sym_type2(terms, a)?;
    let less_metric = less(terms, &a.metric, &b.metric)?;
    let by_metric = both(terms, type2, less_metric)?;
    let other = negate(terms, type2)?;
    let same_metric = equal(terms, &a.metric, &b.metric)?;
    let by_cost = either(terms, other, same_metric)?;
    let less_cost = less(terms, &a.cost, &b.cost)?;
    let cheaper = both(terms, by_cost, less_cost)?;
    either(terms, by_metric, cheaper)
}

/// Whether the first route is the better one, as if both were there (RFC 2328, section 16.4).
pub fn sym_better(terms: &mut Terms, a: &SymOspf, b: &SymOspf) -> Result<NodeId, AllocError>
    requires first { ospf_end a.now ≤ size terms.old }
    requires second { ospf_end b.now ≤ size terms.old }
    ensures builds { Builds terms.old terms.new }
    ensures within { IfOk result (λ r. r.0 < size terms.new) }
    ensures value { Gives terms.new result (λ w r. at w r ≡ is_better (ospf_at w a.now) (ospf_at w b.now)) }
{
    let before = sym_kind_before(terms, a, b)?;
    let same = sym_same_kind(terms, a, b)?;
    let nearer = sym_nearer(terms, a, b)?;
    let within = both(terms, same, nearer)?;
    either(terms, before, within)
}

/// Whether the next route takes the place of the best so far.
fn sym_takes_over(terms: &mut Terms, best: &SymOspf, next: &SymOspf) -> Result<NodeId, AllocError>
    requires best { ospf_end best.now ≤ size terms.old }
    requires next { ospf_end next.now ≤ size terms.old }
    ensures builds { Builds terms.old terms.new }
    ensures within { IfOk result (λ r. r.0 < size terms.new) }
    ensures value { Gives terms.new result (λ w r. at w r
        ≡ (at w next.now.valid && (not (at w best.now.valid)
        || is_better (ospf_at w next.now) (ospf_at w best.now)))) }
{
    let first = negate(terms, best.valid)?;
    let better = sym_better(terms, next, best)?;
    let wins = either(terms, first, better)?;
    both(terms, next.valid, wins)
}

/// The better one of the best route so far and the next: the next only where it is better.
#[tactic(auto, using(crate::proofs::RouteKinds::kept_is))]
fn sym_keep(
    alloc: Global,
    terms: &mut Terms,
    best: &SymOspf,
    next: &SymOspf,
) -> Result<SymOspf, AllocError>
    requires best { ospf_end best.now ≤ size terms.old }
    requires next { ospf_end next.now ≤ size terms.old }
    ensures builds { Builds terms.old terms.new }
    ensures within { IfOk result (λ r. ospf_end r ≤ size terms.new) }
    ensures value { Gives terms.new result (λ w r. ospf_of w r ≡ kept (ospf_of w best.now) (ospf_of w next.now)) }
{
    let takes = sym_takes_over(terms, best, next)?;
    choose_ospf(alloc, terms, takes, next, best)
}

/// The first best of the routes that are there (RFC 2328, section 16.4): internal ones before those of type 1 and these
/// before those of type 2; of type 2 by the metric and then by the cost, else by the cost.
#[tactic(auto, using(crate::proofs::RouteKinds::best_steps))]
pub fn sym_best(alloc: Global, terms: &mut Terms, recs: &[SymOspf]) -> Result<SymOspf, AllocError>
    requires nodes { routes_end recs.now ≤ size terms.old }
    ensures builds { Builds terms.old terms.new }
    ensures within { IfOk result (λ r. ospf_end r ≤ size terms.new) }
    ensures value { Gives terms.new result (λ w r. ospf_of w r ≡ first_best (filter_map (ospf_of w) recs.now)) }
{
    let mut best = known_ospf(alloc, terms, false, 0)?;
    for rec in recs {
        best = sym_keep(alloc, terms, &best, rec)?;
    }
    Ok(best)
}

/// The route that costs more by so much, where the sum has no more than 32 bits.
fn sym_extended(
    alloc: Global,
    terms: &mut Terms,
    rec: &SymOspf,
    cost: u32,
) -> Result<SymOspf, AllocError>
    requires nodes { ospf_end rec.now ≤ size terms.old }
    ensures builds { Builds terms.old terms.new }
    ensures within { IfOk result (λ r. ospf_end r ≤ size terms.new) }
    ensures value { Gives terms.new result (λ w r. ospf_of w r ≡ option_and_then (extended cost) (ospf_of w rec.now)) }
{
    let more = constant(alloc, terms, u64::from(cost), 32)?;
    let Summed { sum, fits } = add_within(alloc, terms, &rec.cost, &more)?;
    let valid = both(terms, rec.valid, fits)?;
    Ok(SymOspf {
        valid,
        kind: copy(alloc, &rec.kind)?,
        metric: copy(alloc, &rec.metric)?,
        cost: sum,
    })
}

/// The route as it is received over an adjacency (RFC 2328, section 16.1). Where `up` is true it costs more by the
/// output cost of the receiving interface, and there is none where that cost would have more than 32 bits. Where `up` is
/// false there is none.
pub fn sym_transfer(
    alloc: Global,
    terms: &mut Terms,
    rec: &SymOspf,
    up: NodeId,
    cost: u32,
) -> Result<SymOspf, AllocError>
    requires nodes { ospf_end rec.now ≤ size terms.old }
    requires up { up.0 < size terms.old }
    ensures builds { Builds terms.old terms.new }
    ensures within { IfOk result (λ r. ospf_end r ≤ size terms.new) }
    ensures value { Gives terms.new result (λ w r. ospf_of w r
        ≡ (if at w up then option_and_then (extended cost) (ospf_of w rec.now) else None)) }
{
    let mut made = sym_extended(alloc, terms, rec, cost)?;
    made.valid = both(terms, up, made.valid)?;
    Ok(made)
}
