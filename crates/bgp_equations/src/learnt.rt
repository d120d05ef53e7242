//! The candidates that a router learns over its sessions, as terms.

ghost use Rattle.std.specs.Prelude.{◌≡◌, ◌<◌, ◌≤◌, ◌*◌, ◌+◌, ◌++◌, [], ◌∷◌, ◌==◌, ℕ, All, IfOk, OnOk, length, map, max, None, Some, slice_get};
ghost use Rattle.std.specs.Prelude.{◌&&◌, drop, filter, if◌then◌else◌, not, true};
ghost use Rattle.std.specs.List.{enumerate_from, filter_map};
ghost use Rattle.std.specs.Option.{option_and_then, option_map, option_to_list};
ghost use Rattle.term_store.specs.Terms.{Reading, size, at as node_at};
ghost use Rattle.term_store.specs.Reading.{Builds, Gives, Reads};
ghost use Rattle.term_arith.specs.Bits.{ids_end, number};
ghost use Rattle.bgp_shapes.specs.Candidates.{shape_arriving, shape_learnt};
ghost use Rattle.net_parts.specs.Sessions.{ends_of};
ghost use Rattle.announced_places.specs.Announced.{Ascend};
ghost use Rattle.sym_policy.specs.Held.{bgp_at, bgp_end, bgp_of, failures_of};
ghost use Rattle.sym_policy.specs.Records.{address_of, prefix_of};
ghost use Rattle.sym_bgp.specs.Candidates.{candidate_of, candidate_end, candidates_end};
ghost use Rattle.silent_routers.specs.Silent as silent;
ghost use Rattle.sym_policy.specs.MapRecs.{HasTracked};
ghost use Rattle.sym_ospf.specs.Rows.{net_end};
ghost use Rattle.sym_rib.specs.Worlds.{slots_end};
ghost use Rattle.bgp_equations.specs.Beside.{HaveAllMarks, beside_end, candidate_with};
ghost use Rattle.bgp_equations.specs.Environments.{FitsNet, env_end, environment_read};
ghost use Rattle.bgp_equations.specs.Equations.{DistancesForSessions, HaveTracked, RowsForSessions, learnt_by, learnt_read, slots_read};
ghost use Rattle.route_record.specs.declared.tracked.Tracked.{Tracked as TrackedOf};

use crate::beside::beside;
use crate::environment::item;
use crate::messages::arrived;
use crate::parts::SymBeside;
use crate::routing::Routing;
use mw_text::List;
use net_model::{Net, SessionEnd};
use silent_routers::is_behind_silent;
use std::alloc::{AllocError, Global};
use sym_bgp::SymCand;
use sym_policy::SymBgp;
use term_store::Terms;

/// The candidate of a route and of what it has beside it.
#[tactic(auto, using(crate::proofs::LearntOver::remarked))]
fn with_beside(rec: SymBgp, beside: SymBeside) -> SymCand
    ensures within { candidate_end result ≤ max (bgp_end rec) (beside_end beside) }
    ensures marks { (tracked : TrackedOf) → HasTracked tracked rec → HasTracked tracked result.rec }
    ensures value { (w : Reading) → candidate_of w result ≡ candidate_with w rec beside }
{
    let mut rec = rec;
    rec.valid = beside.there;
    SymCand {
        rec,
        external: beside.external,
        cost: beside.cost,
        peer_id: beside.peer_id,
    }
}

/// The candidate that the router learns over the session of its end at that place.
fn learnt(
    alloc: Global,
    terms: &mut Terms,
    routing: &Routing<'_>,
    at: u32,
    end: &SessionEnd,
) -> Result<SymCand, AllocError>
    requires there { slice_get (ends_of routing.now.net.now.files) at ≡ Some end.now }
    requires distances { RowsForSessions routing.now.net.now.files routing.now.sym.now }
    requires sym { net_end routing.now.sym.now ≤ size terms.old }
    requires long { routing.now.len ≤ 32 }
    requires wide { length routing.now.dst.now.nodes.items ≡ 32 }
    requires dst { ids_end routing.now.dst.now.nodes.items ≤ size terms.old }
    requires ascend { Ascend routing.now.tables.now.lens.now }
    requires fits { FitsNet routing.now.net.now.files routing.now.net.now.tracked routing.now.tables.now.lens.now
        routing.now.env.now }
    requires nodes { env_end routing.now.env.now ≤ size terms.old }
    requires rows { HaveTracked routing.now.net.now.tracked routing.now.tables.now.slots.now }
    requires slots { slots_end routing.now.tables.now.slots.now ≤ size terms.old }
    ensures builds { Builds terms.old terms.new }
    ensures within { IfOk result (λ r. candidate_end r ≤ size terms.new) }
    ensures marks { IfOk result (λ r. HasTracked routing.now.net.now.tracked r.rec) }
    ensures value { Gives terms.new result (λ w r.
        DistancesForSessions w routing.now.net.now.files routing.now.sym.now →
        candidate_of w r
        ≡ shape_learnt routing.now.net.now.tracked routing.now.net.now.files (failures_of w routing.now.sym.now)
        (map (address_of w) routing.now.env.now.ids) (prefix_of w routing.now.dst.now routing.now.len) at end.now
        (shape_arriving routing.now.net.now.tracked routing.now.net.now.files
        (environment_read w routing.now.net.now.files routing.now.tables.now.lens.now routing.now.env.now)
        (slots_read w routing.now.tables.now routing.now.len) (prefix_of w routing.now.dst.now routing.now.len)
        at end.now)) }
{
    let rec = arrived(alloc, terms, routing, at, end)?;
    let aside = beside(
        alloc,
        terms,
        routing.net,
        routing.sym,
        routing.env,
        at,
        end,
        &rec,
    )?;
    Ok(with_beside(rec, aside))
}

/// Puts a candidate at the end.
pub(crate) fn put_cand(cands: &mut List<SymCand>, cand: SymCand) -> Result<(), AllocError>
    ensures { OnOk result (cands.new ≡ cands.old ++ cand ∷ []) }
{
    cands.items.push(cand)?;
    Ok(())
}

// Whether the end is one of the router, and what lies at its far side may send something.
fn hears(net: &Net, router: u32, end: &SessionEnd) -> bool
    ensures { result ≡ ((end.now.router == router) && not (silent.is_behind_silent net.now.files end.now)) }
{
    end.router == router && !is_behind_silent(net.routers(), net.ends(), end)
}

/// Puts the candidate that a router learns over the session of the end at that place behind some, if it is its own and no
/// silent router lies at its far side.
fn put_learnt(
    alloc: Global,
    terms: &mut Terms,
    routing: &Routing<'_>,
    router: u32,
    at: u32,
    end: &SessionEnd,
    cands: &mut List<SymCand>,
) -> Result<(), AllocError>
    requires there { slice_get (ends_of routing.now.net.now.files) at ≡ Some end.now }
    requires distances { RowsForSessions routing.now.net.now.files routing.now.sym.now }
    requires sym { net_end routing.now.sym.now ≤ size terms.old }
    requires long { routing.now.len ≤ 32 }
    requires wide { length routing.now.dst.now.nodes.items ≡ 32 }
    requires dst { ids_end routing.now.dst.now.nodes.items ≤ size terms.old }
    requires ascend { Ascend routing.now.tables.now.lens.now }
    requires fits { FitsNet routing.now.net.now.files routing.now.net.now.tracked routing.now.tables.now.lens.now
        routing.now.env.now }
    requires nodes { env_end routing.now.env.now ≤ size terms.old }
    requires rows { HaveTracked routing.now.net.now.tracked routing.now.tables.now.slots.now }
    requires slots { slots_end routing.now.tables.now.slots.now ≤ size terms.old }
    requires before { candidates_end cands.old ≤ size terms.old }
    requires marks { HaveAllMarks routing.now.net.now.tracked cands.old }
    ensures builds { Builds terms.old terms.new }
    ensures within { OnOk result (candidates_end cands.new ≤ size terms.new) }
    ensures marks { OnOk result (HaveAllMarks routing.now.net.now.tracked cands.new) }
    ensures value { Gives terms.new result (λ w _.
        DistancesForSessions w routing.now.net.now.files routing.now.sym.now →
        filter_map (candidate_of w) cands.new ≡ filter_map (candidate_of w) cands.old ++ option_to_list (learnt_by
        (learnt_read w routing.now.net.now.tracked routing.now.net.now.files routing.now.sym.now routing.now.env.now
        routing.now.tables.now routing.now.dst.now routing.now.len) router at end.now)) }
{
    if !hears(routing.net, router, end) {
        return Ok(());
    }
    let cand = learnt(alloc, terms, routing, at, end)?;
    put_cand(cands, cand)
}

/// Puts what a router learns over the session of the end at that place behind some candidates, if it is its own.
#[tactic(auto, using(crate::proofs::CandidateSteps::nothing_put))]
fn put_at(
    alloc: Global,
    terms: &mut Terms,
    routing: &Routing<'_>,
    router: u32,
    at: u32,
    cands: &mut List<SymCand>,
) -> Result<(), AllocError>
    requires distances { RowsForSessions routing.now.net.now.files routing.now.sym.now }
    requires sym { net_end routing.now.sym.now ≤ size terms.old }
    requires long { routing.now.len ≤ 32 }
    requires wide { length routing.now.dst.now.nodes.items ≡ 32 }
    requires dst { ids_end routing.now.dst.now.nodes.items ≤ size terms.old }
    requires ascend { Ascend routing.now.tables.now.lens.now }
    requires fits { FitsNet routing.now.net.now.files routing.now.net.now.tracked routing.now.tables.now.lens.now
        routing.now.env.now }
    requires nodes { env_end routing.now.env.now ≤ size terms.old }
    requires rows { HaveTracked routing.now.net.now.tracked routing.now.tables.now.slots.now }
    requires slots { slots_end routing.now.tables.now.slots.now ≤ size terms.old }
    requires before { candidates_end cands.old ≤ size terms.old }
    requires marks { HaveAllMarks routing.now.net.now.tracked cands.old }
    ensures builds { Builds terms.old terms.new }
    ensures within { OnOk result (candidates_end cands.new ≤ size terms.new) }
    ensures marks { OnOk result (HaveAllMarks routing.now.net.now.tracked cands.new) }
    ensures value { Gives terms.new result (λ w _.
        DistancesForSessions w routing.now.net.now.files routing.now.sym.now →
        filter_map (candidate_of w) cands.new ≡ filter_map (candidate_of w) cands.old ++ option_to_list
        (option_and_then (learnt_by
        (learnt_read w routing.now.net.now.tracked routing.now.net.now.files routing.now.sym.now routing.now.env.now
        routing.now.tables.now routing.now.dst.now routing.now.len) router at)
        (slice_get (ends_of routing.now.net.now.files) at))) }
{
    match item(routing.net.ends(), at) {
        None => Ok(()),
        Some(end) => put_learnt(alloc, terms, routing, router, at, end, cands),
    }
}

// How many ends there are.
#[tactic(auto, using(crate::proofs::CandidateSteps::few_ends))]
fn count_ends(net: &Net) -> u32
    ensures { result ≡ length (ends_of net.now.files) }
{
    let _files = net.routers();
    net.ends().len() as u32
}

/// Some candidates, and behind them those that a router learns over its sessions.
pub(crate) fn with_learnt(
    alloc: Global,
    terms: &mut Terms,
    routing: &Routing<'_>,
    router: u32,
    before: List<SymCand>,
) -> Result<List<SymCand>, AllocError>
    requires distances { RowsForSessions routing.now.net.now.files routing.now.sym.now }
    requires sym { net_end routing.now.sym.now ≤ size terms.old }
    requires long { routing.now.len ≤ 32 }
    requires wide { length routing.now.dst.now.nodes.items ≡ 32 }
    requires dst { ids_end routing.now.dst.now.nodes.items ≤ size terms.old }
    requires ascend { Ascend routing.now.tables.now.lens.now }
    requires fits { FitsNet routing.now.net.now.files routing.now.net.now.tracked routing.now.tables.now.lens.now
        routing.now.env.now }
    requires nodes { env_end routing.now.env.now ≤ size terms.old }
    requires rows { HaveTracked routing.now.net.now.tracked routing.now.tables.now.slots.now }
    requires slots { slots_end routing.now.tables.now.slots.now ≤ size terms.old }
    requires before { candidates_end before ≤ size terms.old }
    requires marks { HaveAllMarks routing.now.net.now.tracked before }
    ensures builds { Builds terms.old terms.new }
    ensures within { IfOk result (λ r. candidates_end r ≤ size terms.new) }
    ensures marks { IfOk result (λ r. HaveAllMarks routing.now.net.now.tracked r) }
    ensures value { Gives terms.new result (λ w r.
        DistancesForSessions w routing.now.net.now.files routing.now.sym.now →
        filter_map (candidate_of w) r ≡ filter_map (candidate_of w) before ++ filter_map
        (learnt_read w routing.now.net.now.tracked routing.now.net.now.files routing.now.sym.now routing.now.env.now
        routing.now.tables.now routing.now.dst.now routing.now.len)
        (filter (λ e. e.1.router == router) (enumerate_from 0 (ends_of routing.now.net.now.files)))) }
{
    let many = count_ends(routing.net);
    let mut cands = before;
    for at in 0..many {
        put_at(alloc, terms, routing, router, at, &mut cands)?;
    }
    Ok(cands)
}
