//! Interior distances as terms: the least of what a router's own interfaces and its adjacencies offer.

ghost use Rattle.std.specs.Prelude.{◌≡◌, ◌+◌, ◌*◌, ◌<◌, ◌≤◌, ◌||◌, true, false, if◌then◌else◌, IfOk, Some, None};
ghost use Rattle.std.specs.Prelude.{length, option_map, slice_get};
ghost use Rattle.term_store.specs.Terms.{size, at};
ghost use Rattle.term_store.specs.Reading.{Builds, Gives};
ghost use Rattle.net_parts.specs.Distances.{own_cost, nearest, beyond};
ghost use Rattle.net_parts.specs.Ospf as ospf;
ghost use Rattle.sym_policy.specs.Held.{failures_of, ospf_of, ospf_end};
ghost use Rattle.sym_ospf.specs.Routes.{routes_end};
ghost use Rattle.sym_ospf.specs.Rows.{net_end, distance_of, distance_end, nearer, own_offer, far_offer, costs_at};

use crate::parts::SymDistance;
use mw_text::Prefix;
use net_model::{Adjacency, Net, OspfInterface};
use net_parts::ospf::advertisement;
use std::alloc::{AllocError, Global};
use sym_interfaces::{sym_up, sym_up_at};
use sym_policy::{SymNet, SymOspf};
use term_arith::gates::{both, constant_node, either, negate};
use term_arith::{add, choose, constant, less};
use term_store::{NodeId, Terms};

/// A known distance, which is there where `there` is true.
fn known_distance(
    alloc: Global,
    terms: &mut Terms,
    there: NodeId,
    cost: u32,
) -> Result<SymDistance, AllocError>
    requires nodes { there.0 < size terms.old }
    ensures builds { Builds terms.old terms.new }
    ensures within { IfOk result (λ r. distance_end r ≤ size terms.new) }
    ensures value { Gives terms.new result (λ w r. distance_of w r ≡ (if at w there then Some cost else None)) }
{
    let sum = constant(alloc, terms, u64::from(cost), 33)?;
    Ok(SymDistance { there, sum })
}

/// No distance.
fn no_distance(alloc: Global, terms: &mut Terms) -> Result<SymDistance, AllocError>
    ensures builds { Builds terms.old terms.new }
    ensures within { IfOk result (λ r. distance_end r ≤ size terms.new) }
    ensures value { Gives terms.new result (λ w r. distance_of w r ≡ None) }
{
    let no = constant_node(terms, false)?;
    known_distance(alloc, terms, no, 0)
}

/// The less of the least distance so far and the next.
#[tactic(auto, using(crate::proofs::LeastOffers::nearer_is))]
fn sym_nearer(
    alloc: Global,
    terms: &mut Terms,
    best: &SymDistance,
    next: &SymDistance,
) -> Result<SymDistance, AllocError>
    requires best { distance_end best.now ≤ size terms.old }
    requires next { distance_end next.now ≤ size terms.old }
    ensures builds { Builds terms.old terms.new }
    ensures within { IfOk result (λ r. distance_end r ≤ size terms.new) }
    ensures value { Gives terms.new result (λ w r. distance_of w r
        ≡ nearer (distance_of w best.now) (distance_of w next.now)) }
{
    let closer = less(terms, &next.sum, &best.sum)?;
    let first = negate(terms, best.there)?;
    let wins = either(terms, first, closer)?;
    let takes = both(terms, next.there, wins)?;
    let sum = choose(alloc, terms, takes, &next.sum, &best.sum)?;
    let there = either(terms, best.there, next.there)?;
    Ok(SymDistance { there, sum })
}

/// The least distance so far, after an interface by which the router may originate the prefix.
#[tactic(auto, unfolding(crate::specs::Rows::own_offer))]
fn sym_own_after(
    alloc: Global,
    terms: &mut Terms,
    net: &Net,
    sym: &SymNet,
    router: u32,
    p: &Prefix,
    x: &OspfInterface,
    best: SymDistance,
) -> Result<SymDistance, AllocError>
    requires nodes { net_end sym.now ≤ size terms.old }
    requires best { distance_end best ≤ size terms.old }
    ensures builds { Builds terms.old terms.new }
    ensures within { IfOk result (λ r. distance_end r ≤ size terms.new) }
    ensures value { Gives terms.new result (λ w r. distance_of w r
        ≡ nearer (distance_of w best) (own_offer net.now.files (failures_of w sym.now) p.now router x.now)) }
{
    if x.at.id.router != router || advertisement(x) != *p {
        return Ok(best);
    }
    let up = sym_up(alloc, terms, net, sym, &x.at)?;
    let next = known_distance(alloc, terms, up, x.cost)?;
    sym_nearer(alloc, terms, &best, &next)
}

/// The least cost of an interface by which the router originates the prefix.
#[tactic(auto, using(crate::proofs::LeastOffers::own_steps))]
fn sym_own_cost(
    alloc: Global,
    terms: &mut Terms,
    net: &Net,
    sym: &SymNet,
    router: u32,
    p: &Prefix,
) -> Result<SymDistance, AllocError>
    requires nodes { net_end sym.now ≤ size terms.old }
    ensures builds { Builds terms.old terms.new }
    ensures within { IfOk result (λ r. distance_end r ≤ size terms.new) }
    ensures value { Gives terms.new result (λ w r. distance_of w r
        ≡ own_cost net.now.files (failures_of w sym.now) p.now router) }
{
    let mut best = no_distance(alloc, terms)?;
    for x in net.ospf_interfaces() {
        best = sym_own_after(alloc, terms, net, sym, router, p, x, best)?;
    }
    Ok(best)
}

/// The cost of an interface beyond which a route lies, and the route's cost, where `up` is true.
fn sym_sum(
    alloc: Global,
    terms: &mut Terms,
    far: &SymOspf,
    up: NodeId,
    cost: u32,
) -> Result<SymDistance, AllocError>
    requires nodes { ospf_end far.now ≤ size terms.old }
    requires up { up.0 < size terms.old }
    ensures builds { Builds terms.old terms.new }
    ensures within { IfOk result (λ r. distance_end r ≤ size terms.new) }
    ensures value { Gives terms.new result (λ w r. distance_of w r
        ≡ (if at w up then option_map (λ n. cost + n) (option_map (λ x. x.cost) (ospf_of w far.now)) else None)) }
{
    let more = constant(alloc, terms, u64::from(cost), 32)?;
    let sum = add(alloc, terms, &more, &far.cost)?;
    let there = both(terms, up, far.valid)?;
    Ok(SymDistance { there, sum })
}

/// The route of a router of the files to the advertised prefix at a place.
#[tactic(auto, using(crate::proofs::LeastOffers::held_steps))]
pub(crate) fn igp_of<'a>(net: &Net, sym: &'a SymNet, router: u32, k: usize) -> &'a SymOspf
    requires rows { length sym.now.igp ≡ length net.now.files * length (ospf.advertised net.now.files) }
    requires router { router < length net.now.files }
    requires place { k < length (ospf.advertised net.now.files) }
    ensures value { slice_get sym.now.igp (router * length (ospf.advertised net.now.files) + k) ≡ Some result.now }
    ensures within { ospf_end result.now ≤ routes_end sym.now.igp }
{
    let rows = sym.igp.as_slice();
    let at = router as usize * net.advertised().len() + k;
    &rows[at]
}

/// The distance over an adjacency whose interfaces are up where `up` is true.
#[tactic(auto, using(crate::proofs::LeastOffers::beyond_past))]
fn sym_beyond(
    alloc: Global,
    terms: &mut Terms,
    net: &Net,
    sym: &SymNet,
    k: usize,
    up: NodeId,
    a: &Adjacency,
) -> Result<SymDistance, AllocError>
    requires rows { length sym.now.igp ≡ length net.now.files * length (ospf.advertised net.now.files) }
    requires place { k < length (ospf.advertised net.now.files) }
    requires nodes { net_end sym.now ≤ size terms.old }
    requires up { up.0 < size terms.old }
    ensures builds { Builds terms.old terms.new }
    ensures within { IfOk result (λ r. distance_end r ≤ size terms.new) }
    ensures value { Gives terms.new result (λ w r. distance_of w r
        ≡ (if at w up then beyond (costs_at w net.now.files sym.now k) a.now else None)) }
{
    if (a.to.router as usize) < net.routers().len() {
        let far = igp_of(net, sym, a.to.router, k);
        sym_sum(alloc, terms, far, up, a.cost)
    } else {
        no_distance(alloc, terms)
    }
}

/// The least distance so far, after an adjacency over which the router may receive.
#[tactic(auto, unfolding(crate::specs::Rows::far_offer))]
fn sym_far_after(
    alloc: Global,
    terms: &mut Terms,
    net: &Net,
    sym: &SymNet,
    router: u32,
    k: usize,
    a: &Adjacency,
    best: SymDistance,
) -> Result<SymDistance, AllocError>
    requires rows { length sym.now.igp ≡ length net.now.files * length (ospf.advertised net.now.files) }
    requires place { k < length (ospf.advertised net.now.files) }
    requires nodes { net_end sym.now ≤ size terms.old }
    requires best { distance_end best ≤ size terms.old }
    ensures builds { Builds terms.old terms.new }
    ensures within { IfOk result (λ r. distance_end r ≤ size terms.new) }
    ensures value { Gives terms.new result (λ w r. distance_of w r
        ≡ nearer (distance_of w best)
        (far_offer net.now.files (failures_of w sym.now) (costs_at w net.now.files sym.now k) router a.now)) }
{
    if a.from.router != router {
        return Ok(best);
    }
    let from = sym_up_at(alloc, terms, net, sym, a.from)?;
    let to = sym_up_at(alloc, terms, net, sym, a.to)?;
    let up = both(terms, from, to)?;
    let next = sym_beyond(alloc, terms, net, sym, k, up, a)?;
    sym_nearer(alloc, terms, &best, &next)
}

/// The least of the router's own cost and of what its adjacencies lead to.
#[tactic(auto, using(crate::proofs::LeastOffers::far_steps))]
pub(crate) fn sym_nearest(
    alloc: Global,
    terms: &mut Terms,
    net: &Net,
    sym: &SymNet,
    router: u32,
    k: usize,
    p: &Prefix,
) -> Result<SymDistance, AllocError>
    requires rows { length sym.now.igp ≡ length net.now.files * length (ospf.advertised net.now.files) }
    requires place { k < length (ospf.advertised net.now.files) }
    requires nodes { net_end sym.now ≤ size terms.old }
    ensures builds { Builds terms.old terms.new }
    ensures within { IfOk result (λ r. distance_end r ≤ size terms.new) }
    ensures value { Gives terms.new result (λ w r. distance_of w r
        ≡ nearest net.now.files (failures_of w sym.now) p.now (costs_at w net.now.files sym.now k) router) }
{
    let mut best = sym_own_cost(alloc, terms, net, sym, router, p)?;
    for a in net.adjacencies() {
        best = sym_far_after(alloc, terms, net, sym, router, k, a, best)?;
    }
    Ok(best)
}
