//! Whether external peers may announce what they do in a routing, as a term.

ghost use Rattle.std.specs.Prelude.{◌≡◌, ℕ, ◌≤◌, ◌<◌, All, IfOk, drop, length, take, true};
ghost use Rattle.std.specs.List.{list_all};
ghost use Rattle.std.specs.Option.{option_copied};
ghost use Rattle.route_record.specs.declared.tracked.TheConstants as constants;
ghost use Rattle.net_parts.specs.Sessions.{ends_of};
ghost use Rattle.sym_policy.specs.Held.{bgp_end, bgp_of};
ghost use Rattle.sym_rib.specs.Into.{list_end};
ghost use Rattle.net_parts.specs.World.{is_word};
ghost use Rattle.bgp_equations.specs.Environments.{HasLists};
ghost use Rattle.shape_worlds.specs.Worlds.{may_be_announced};
ghost use Rattle.routing_worlds.specs.Worlds.{announced_by};
ghost use Rattle.routing_encoder.specs.Announced.{may_come, rows_pass};
ghost use Rattle.routing_encoder.specs.Opened.{ReadsAs, StandsIn};
ghost use Rattle.term_store.specs.Terms.{at, size};
ghost use Rattle.term_store.specs.Reading.{Builds, Gives};

use crate::opening::OpenRouting;
use bgp_variables::sym_is_announced;
use ios_ast::{File, Neighbour};
use net_model::Net;
use net_parts::SessionEnd;
use net_parts::ends::{is_outside, neighbour_of};
use question_lang::Question;
use route_record::{Plan, Tracked};
use std::alloc::{AllocError, Global};
use sym_policy::SymBgp;
use term_arith::gates::{both, constant_node, implies};
use term_store::{NodeId, Terms};

// Whether the peer of a neighbour line may announce a route, if it is there.
#[tactic(auto, using(crate::proofs::ComingSteps::comes_where))]
fn sym_may_come(
    alloc: Global,
    terms: &mut Terms,
    tracked: &Tracked,
    line: Option<&Neighbour>,
    s: &SymBgp,
) -> Result<NodeId, AllocError>
    requires few { length tracked.now.numbers ≤ constants.MOST_TRACKED }
    requires lists { HasLists tracked.now s.now }
    requires nodes { bgp_end s.now ≤ size terms.old }
    ensures builds { Builds terms.old terms.new }
    ensures within { IfOk result (λ r. r.0 < size terms.new) }
    ensures value { Gives terms.new result (λ w r. at w r
        ≡ may_come tracked.now (option_copied line.entry) (bgp_of w s.now)) }
{
    match line {
        None => constant_node(terms, true),
        Some(neighbour) => {
            let may = sym_is_announced(alloc, terms, tracked, neighbour.asn, s)?;
            implies(terms, s.valid, may)
        }
    }
}

// Whether the peer of a neighbour line may announce all of some routes that are there.
#[tactic(auto, using(crate::proofs::ComingSteps::row_steps))]
fn sym_row(
    alloc: Global,
    terms: &mut Terms,
    tracked: &Tracked,
    line: Option<&Neighbour>,
    row: &[SymBgp],
) -> Result<NodeId, AllocError>
    requires few { length tracked.now.numbers ≤ constants.MOST_TRACKED }
    requires lists { All (HasLists tracked.now) row.now }
    requires nodes { list_end bgp_end row.now ≤ size terms.old }
    ensures builds { Builds terms.old terms.new }
    ensures within { IfOk result (λ r. r.0 < size terms.new) }
    ensures value { Gives terms.new result (λ w r. at w r
        ≡ list_all (λ s. may_come tracked.now (option_copied line.entry) (bgp_of w s)) row.now) }
{
    let mut all = constant_node(terms, true)?;
    for i in 0..row.len() {
        let may = sym_may_come(alloc, terms, tracked, line, &row[i])?;
        all = both(terms, all, may)?;
    }
    Ok(all)
}

// The first of some routes, so many, and those behind them.
fn split(routes: &[SymBgp], count: usize) -> (&[SymBgp], &[SymBgp])
    ensures first { result.0.now ≡ take count routes.now }
    ensures rest { result.1.now ≡ drop count routes.now }
{
    if routes.len() <= count {
        (routes, &[])
    } else {
        routes.split_at(count)
    }
}

// Whether each external end's peer may announce the next so many routes.
#[tactic(auto, using(crate::proofs::ComingSteps::rows_steps))]
fn sym_rows(
    alloc: Global,
    terms: &mut Terms,
    net: &Net,
    count: usize,
    announced: &[SymBgp],
) -> Result<NodeId, AllocError>
    requires lists { All (HasLists net.now.tracked) announced.now }
    requires nodes { list_end bgp_end announced.now ≤ size terms.old }
    ensures builds { Builds terms.old terms.new }
    ensures within { IfOk result (λ r. r.0 < size terms.new) }
    ensures value { Gives terms.new result (λ w r. at w r
        ≡ rows_pass (λ line s. may_come net.now.tracked line (bgp_of w s)) net.now.files count
        (ends_of net.now.files) announced.now) }
{
    let files = net.routers();
    let tracked = net.tracked();
    let mut all = constant_node(terms, true)?;
    let mut rest = announced;
    for end in net.ends() {
        if is_outside(end) {
            let (row, behind) = split(rest, count);
            let may = sym_row(alloc, terms, tracked, neighbour_of(files, end), row)?;
            all = both(terms, all, may)?;
            rest = behind;
        }
    }
    Ok(all)
}

/// Whether external peers may announce what they do in a routing (RFC 4271, sections 4.3 and 5.1.2; RFC 6793), in a network
/// of which each tracked community has 32 bits (RFC 1997).
#[tactic(auto, using(crate::proofs::PassingRows::announced_ready))]
pub fn sym_all_announced(
    alloc: Global,
    terms: &mut Terms,
    net: &Net,
    question: &Question,
    plan: &Plan,
    made: &OpenRouting,
) -> Result<NodeId, AllocError>
    requires stands { StandsIn net.now.files net.now.tracked question.now plan.now terms.old made.now }
    requires words { list_all is_word net.now.tracked.communities ≡ true }
    ensures builds { Builds terms.old terms.new }
    ensures within { IfOk result (λ r. r.0 < size terms.new) }
    ensures value { Gives terms.new result (λ w r. (from : ℕ) →
        ReadsAs net.now.files net.now.tracked question.now plan.now from w made.now →
        at w r ≡ may_be_announced net.now.files net.now.tracked
        (announced_by net.now.files net.now.tracked question.now plan.now w.variable from)) }
{
    let count = made.frame.lens.len();
    let announced = made.env.announced.as_slice();
    let holds = sym_rows(alloc, terms, net, count, announced)?;
    Ok(holds)
}
