//! The candidates of the decision process for a slot, as terms: local routes, and then what is learnt over sessions.

ghost use Rattle.std.specs.Prelude.{◌≡◌, ◌<◌, ◌≤◌, ◌*◌, ◌+◌, ◌++◌, [], ◌∷◌, ℕ, All, false, IfOk, OnOk, length, map, max, None, Some, slice_get};
ghost use Rattle.std.specs.Prelude.{drop};
ghost use Rattle.std.specs.List.{filter_map};
ghost use Rattle.std.specs.Option.{option_map};
ghost use Rattle.ios_ast.specs.declared.bgp.Bgp.{Bgp as BgpOf};
ghost use Rattle.ios_ast.specs.declared.file.File.{File as FileOf};
ghost use Rattle.term_store.specs.Terms.{Reading, size, at as node_at};
ghost use Rattle.term_store.specs.Reading.{Builds, Gives, Reads};
ghost use Rattle.term_arith.specs.Bits.{ids_end, number};
ghost use Rattle.bgp_shapes.specs.Candidates.{shape_candidates, shape_local, shape_local_routes};
ghost use Rattle.net_parts.specs.Exports.{router_id as identifier};
ghost use Rattle.announced_places.specs.Announced.{Ascend};
ghost use Rattle.sym_policy.specs.Held.{bgp_at, bgp_end, bgp_of, failures_of};
ghost use Rattle.sym_policy.specs.Records.{prefix_of};
ghost use Rattle.sym_policy.specs.SameNodes.{IsSeen};
ghost use Rattle.route_record.specs.declared.tracked.Tracked.{Tracked as TrackedOf};
ghost use Rattle.sym_bgp.specs.Candidates.{candidate_of, candidate_end, candidates_end};
ghost use Rattle.sym_ospf.specs.Rows.{net_end};
ghost use Rattle.sym_policy.specs.MapRecs.{HasTracked};
ghost use Rattle.sym_rib.specs.Into.{list_end};
ghost use Rattle.sym_rib.specs.Slots.{slot_end};
ghost use Rattle.sym_rib.specs.Worlds.{slot_placed, slots_end};
ghost use Rattle.bgp_equations.specs.Beside.{HaveAllMarks};
ghost use Rattle.bgp_equations.specs.Environments.{FitsNet, env_end, environment_read};
ghost use Rattle.bgp_equations.specs.Equations.{DistancesForSessions, HaveTracked, RowsForSessions, local_with, sending_read, slot_read};

use crate::learnt::{put_cand, with_learnt};
use crate::routing::Routing;
use mw_text::{Addr, List};
use net_parts::router_ids::router_id;
use route_record::Tracked;
use std::alloc::{AllocError, Global};
use sym_bgp::SymCand;
use sym_policy::{SymBgp, SymMapRec, SymRoute, joined, path_of, preferences_of, rest_of};
use sym_rib::{SymSlot, sym_originate};
use term_arith::gates::constant_node;
use term_arith::{constant, copy};
use term_store::Terms;

/// A copy of what route maps see of a route.
fn copy_seen(alloc: Global, rec: &SymBgp) -> Result<SymRoute, AllocError>
    ensures { IfOk result (λ r. IsSeen (record { bgp = rec.now; type1 = rec.now.valid }) r) }
{
    let communities = copy(alloc, &rec.communities)?;
    let path = path_of(alloc, rec)?;
    let preferences = preferences_of(alloc, rec)?;
    Ok(SymRoute {
        preferences,
        path,
        communities,
        type1: rec.valid,
    })
}

/// A copy of a route.
#[tactic(auto, using(crate::proofs::LocalSteps::copy_steps))]
fn copy_bgp(alloc: Global, rec: &SymBgp) -> Result<SymBgp, AllocError>
    ensures within { IfOk result (λ r. bgp_end r ≡ bgp_end rec.now) }
    ensures marks { IfOk result (λ r. (tracked : TrackedOf) → HasTracked tracked rec.now → HasTracked tracked r) }
    ensures value { IfOk result (λ r. (w : Reading) → bgp_of w r ≡ bgp_of w rec.now) }
{
    let rest = rest_of(alloc, rec)?;
    let route = copy_seen(alloc, rec)?;
    let made = joined(rec.valid, route, rest);
    let SymMapRec { bgp, .. } = made;
    Ok(bgp)
}

/// The candidate of a local route of a router with that identifier.
#[tactic(auto, using(crate::proofs::LocalSteps::local_is))]
fn local_cand(
    alloc: Global,
    terms: &mut Terms,
    id: Addr,
    rec: &SymBgp,
) -> Result<SymCand, AllocError>
    requires { bgp_end rec.now ≤ size terms.old }
    ensures builds { Builds terms.old terms.new }
    ensures within { IfOk result (λ r. candidate_end r ≤ size terms.new) }
    ensures marks { IfOk result (λ r. (tracked : TrackedOf) → HasTracked tracked rec.now → HasTracked tracked r.rec) }
    ensures value { Gives terms.new result (λ w r. candidate_of w r ≡ option_map (local_with id.0) (bgp_of w rec.now)) }
{
    let external = constant_node(terms, false)?;
    let cost = constant(alloc, terms, 0, 32)?;
    let peer_id = constant(alloc, terms, u64::from(id.0), 32)?;
    let rec = copy_bgp(alloc, rec)?;
    Ok(SymCand {
        rec,
        external,
        cost,
        peer_id,
    })
}

/// The candidates of the local routes of a router with that identifier.
fn local_cands(
    alloc: Global,
    terms: &mut Terms,
    tracked: &Tracked,
    id: Addr,
    own: &[SymBgp],
) -> Result<List<SymCand>, AllocError>
    requires own { list_end bgp_end own.now ≤ size terms.old }
    requires rows { All (HasTracked tracked.now) own.now }
    ensures builds { Builds terms.old terms.new }
    ensures within { IfOk result (λ r. candidates_end r ≤ size terms.new) }
    ensures marks { IfOk result (λ r. HaveAllMarks tracked.now r) }
    ensures value { Gives terms.new result (λ w r. filter_map (candidate_of w) r
        ≡ map (local_with id.0) (filter_map (bgp_of w) own.now)) }
{
    let mut cands = List::new(alloc);
    for rec in own {
        let cand = local_cand(alloc, terms, id, rec)?;
        put_cand(&mut cands, cand)?;
    }
    Ok(cands)
}

/// Those of the slot of a router for the prefix of that length of a destination.
fn own_cands(
    alloc: Global,
    terms: &mut Terms,
    routing: &Routing<'_>,
    router: u32,
    slot: &SymSlot,
) -> Result<List<SymCand>, AllocError>
    requires long { routing.now.len ≤ 32 }
    requires wide { length routing.now.dst.now.nodes.items ≡ 32 }
    requires dst { ids_end routing.now.dst.now.nodes.items ≤ size terms.old }
    requires slot { slot_end slot.now ≤ size terms.old }
    ensures builds { Builds terms.old terms.new }
    ensures within { IfOk result (λ r. candidates_end r ≤ size terms.new) }
    ensures marks { IfOk result (λ r. HaveAllMarks routing.now.net.now.tracked r) }
    ensures value { Gives terms.new result (λ w r. (file : FileOf) (process : BgpOf) →
        slice_get routing.now.net.now.files router ≡ Some file → file.bgp ≡ Some process →
        filter_map (candidate_of w) r ≡ map (shape_local routing.now.net.now.files router)
        (shape_local_routes routing.now.net.now.tracked routing.now.net.now.files router file process
        (prefix_of w routing.now.dst.now routing.now.len) (slot_read w slot.now))) }
{
    let id = router_id(
        alloc,
        routing.net.routers(),
        routing.net.addresses(),
        router,
    )?;
    let own = sym_originate(
        alloc,
        terms,
        routing.net,
        router,
        routing.dst,
        routing.len,
        slot,
    )?;
    local_cands(alloc, terms, routing.net.tracked(), id, own.as_slice())
}

/// All candidates of a router that runs BGP, whose slot stands there. Nothing is asked of what silent routers hold.
pub(crate) fn sym_candidates(
    alloc: Global,
    terms: &mut Terms,
    routing: &Routing<'_>,
    router: u32,
    slot: &SymSlot,
) -> Result<List<SymCand>, AllocError>
    requires distances { RowsForSessions routing.now.net.now.files routing.now.sym.now }
    requires sym { net_end routing.now.sym.now ≤ size terms.old }
    requires long { routing.now.len ≤ 32 }
    requires wide { length routing.now.dst.now.nodes.items ≡ 32 }
    requires dst { ids_end routing.now.dst.now.nodes.items ≤ size terms.old }
    requires ascend { Ascend routing.now.tables.now.lens.now }
    requires fits { FitsNet routing.now.net.now.files routing.now.net.now.tracked routing.now.tables.now.lens.now
        routing.now.env.now }
    requires nodes { env_end routing.now.env.now ≤ size terms.old }
    requires rows { HaveTracked routing.now.net.now.tracked routing.now.tables.now.slots.now }
    requires slots { slots_end routing.now.tables.now.slots.now ≤ size terms.old }
    requires there { slot_placed routing.now.tables.now router routing.now.len ≡ Some slot.now }
    requires slot { slot_end slot.now ≤ size terms.old }
    ensures builds { Builds terms.old terms.new }
    ensures within { IfOk result (λ r. candidates_end r ≤ size terms.new) }
    ensures marks { IfOk result (λ r. HaveAllMarks routing.now.net.now.tracked r) }
    ensures value { Gives terms.new result (λ w r. (file : FileOf) (process : BgpOf) →
        DistancesForSessions w routing.now.net.now.files routing.now.sym.now →
        slice_get routing.now.net.now.files router ≡ Some file → file.bgp ≡ Some process →
        filter_map (candidate_of w) r ≡ shape_candidates routing.now.net.now.tracked routing.now.net.now.files
        (failures_of w routing.now.sym.now)
        (environment_read w routing.now.net.now.files routing.now.tables.now.lens.now routing.now.env.now)
        (sending_read w routing.now.net.now.files routing.now.tables.now routing.now.len) router file process
        (prefix_of w routing.now.dst.now routing.now.len)) }
{
    let own = own_cands(alloc, terms, routing, router, slot)?;
    let all = with_learnt(alloc, terms, routing, router, own)?;
    Ok(all)
}
