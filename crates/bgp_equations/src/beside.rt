//! What a candidate has beside its route, as terms: whether its session is up and its next hop is resolved, the cost to
//! that, and who sent it.

ghost use Rattle.std.specs.Prelude.{◌≡◌, ◌<◌, ◌≤◌, ◌*◌, ◌+◌, ◌&&◌, ℕ, All, Bool, false, true, not, IfOk, length, map, max, None, Some, slice_get};
ghost use Rattle.std.specs.Prelude.{if◌then◌else◌, take};
ghost use Rattle.std.specs.Option.{option_and_then, option_map, option_map_or};
ghost use Rattle.term_store.specs.Terms.{Reading, size, at as node_at};
ghost use Rattle.term_store.specs.Reading.{Builds, Gives, Reads};
ghost use Rattle.term_arith.specs.Bits.{bits, ids_end, number};
ghost use Rattle.mw_text.specs.declared.address.Prefix.{Prefix as PrefixOf};
ghost use Rattle.bgp_shapes.specs.Candidates.{ShapeCandidate, ShapeEnvironment, ShapeSlot, shape_arriving, shape_learnt};
ghost use Rattle.bgp_shapes.specs.Importing.{shape_imported};
ghost use Rattle.net_parts.specs.Decisions.{peer_identifier};
ghost use Rattle.net_parts.specs.Exports.{router_id as identifier};
ghost use Rattle.net_parts.specs.Ospf as ospf;
ghost use Rattle.net_parts.specs.Resolution.{resolved, session_up};
ghost use Rattle.net_parts.specs.Sessions.{ends_of, is_outside as is_outer};
ghost use Rattle.std.specs.Prelude.{Option as OptionOf};
ghost use Rattle.sym_policy.specs.Held.{bgp_at, bgp_end, bgp_of, failures_of};
ghost use Rattle.sym_policy.specs.Records.{address_of, prefix_of};
ghost use Rattle.sym_policy.specs.declared.records.SymBgp.{SymBgp as SymBgpOf};
ghost use Rattle.sym_ospf.specs.Rows.{net_end, HasDistances};
ghost use Rattle.sym_rib.specs.Into.{list_end};
ghost use Rattle.bgp_equations.specs.Beside.{beside_end, candidate_with};
ghost use Rattle.bgp_equations.specs.Environments.{env_end};
ghost use Rattle.bgp_equations.specs.Equations.{DistancesForSessions, RowsForSessions, has_inner};

use crate::environment::{SymEnv, external_number, id_at};
use crate::parts::SymBeside;
use net_model::{Far, Net, SessionEnd};
use net_parts::router_ids::router_id;
use std::alloc::{AllocError, Global};
use sym_interfaces::sym_up_at;
use sym_ospf::{sym_resolve, sym_session_up};
use sym_policy::{SymBgp, SymNet};
use term_arith::gates::{both, constant_node};
use term_arith::{Bits, constant};
use term_store::{NodeId, Terms};

// ---- who sent it

/// The identifier of the router of the end at a place, 0 where there is no such end.
fn router_id_at(alloc: Global, terms: &mut Terms, net: &Net, at: u32) -> Result<Bits, AllocError>
    ensures builds { Builds terms.old terms.new }
    ensures within { IfOk result (λ r. ids_end r.nodes.items ≤ size terms.new) }
    ensures width { IfOk result (λ r. length r.nodes.items ≡ 32) }
    ensures value { Gives terms.new result (λ w r. number w r.nodes.items ≡ (option_map_or
        (λ far. identifier net.now.files far.router) (slice_get (ends_of net.now.files) at) (record { 0 = 0 })).0) }
{
    match net.ends().get(at as usize) {
        None => constant(alloc, terms, 0, 32),
        Some(far) => {
            let id = router_id(alloc, net.routers(), net.addresses(), far.router)?;
            constant(alloc, terms, u64::from(id.0), 32)
        }
    }
}

/// The identifier of the peer at the far side of the end at that place.
fn peer_id(
    alloc: Global,
    terms: &mut Terms,
    net: &Net,
    env: &SymEnv,
    at: u32,
    end: &SessionEnd,
) -> Result<Bits, AllocError>
    requires place { at ≤ length (ends_of net.now.files) }
    requires wide { All (λ id. length id.nodes.items ≡ 32) env.now.ids }
    requires nodes { env_end env.now ≤ size terms.old }
    ensures builds { Builds terms.old terms.new }
    ensures within { IfOk result (λ r. ids_end r.nodes.items ≤ size terms.new) }
    ensures width { IfOk result (λ r. length r.nodes.items ≡ 32) }
    ensures value { Gives terms.new result (λ w r. number w r.nodes.items
        ≡ (peer_identifier net.now.files (map (address_of w) env.now.ids) at end.now).0) }
{
    match end.far {
        Far::Outside => {
            let k = external_number(net.ends(), at);
            id_at(alloc, terms, env.ids.as_slice(), k)
        }
        Far::Inside(far_at) => router_id_at(alloc, terms, net, far_at),
    }
}

/// A candidate that is there where a node is true, with that cost.
fn with_peer(
    alloc: Global,
    terms: &mut Terms,
    net: &Net,
    env: &SymEnv,
    at: u32,
    end: &SessionEnd,
    there: NodeId,
    cost: Bits,
) -> Result<SymBeside, AllocError>
    requires place { at ≤ length (ends_of net.now.files) }
    requires wide { All (λ id. length id.nodes.items ≡ 32) env.now.ids }
    requires nodes { env_end env.now ≤ size terms.old }
    requires there { there.0 < size terms.old }
    requires cost { ids_end cost.nodes.items ≤ size terms.old }
    requires cost_wide { length cost.nodes.items ≡ 32 }
    ensures builds { Builds terms.old terms.new }
    ensures within { IfOk result (λ r. beside_end r ≤ size terms.new) }
    ensures value { Gives terms.new result (λ w r. (rec : SymBgpOf) → candidate_with w rec r
        ≡ (if node_at w there then Some (record {
          rec = bgp_at w rec;
          external = not end.now.internal;
          cost = number w cost.nodes.items;
          peer_id = (peer_identifier net.now.files (map (address_of w) env.now.ids) at end.now).0;
        }) else None)) }
{
    let external = constant_node(terms, !end.internal)?;
    let peer_id = peer_id(alloc, terms, net, env, at, end)?;
    Ok(SymBeside {
        there,
        external,
        cost,
        peer_id,
    })
}

// ---- over a session with an external peer

/// Whether a route is there and the interface at that place is up.
fn outer_there(
    alloc: Global,
    terms: &mut Terms,
    net: &Net,
    sym: &SymNet,
    end: &SessionEnd,
    rec: &SymBgp,
) -> Result<NodeId, AllocError>
    requires down { ids_end sym.now.down ≤ size terms.old }
    requires route { bgp_end rec.now ≤ size terms.old }
    ensures builds { Builds terms.old terms.new }
    ensures within { IfOk result (λ r. r.0 < size terms.new) }
    ensures value { Gives terms.new result (λ w r. node_at w r
        ≡ (node_at w rec.now.valid && ospf.is_up_at net.now.files (failures_of w sym.now) end.now.own)) }
{
    let up = sym_up_at(alloc, terms, net, sym, end.own)?;
    both(terms, rec.valid, up)
}

/// What a candidate has beside its route that came from an external peer: its cost is 0.
#[tactic(auto, using(crate::proofs::LearntOver::outer_with))]
fn outer_beside(
    alloc: Global,
    terms: &mut Terms,
    net: &Net,
    sym: &SymNet,
    env: &SymEnv,
    at: u32,
    end: &SessionEnd,
    rec: &SymBgp,
) -> Result<SymBeside, AllocError>
    requires place { at ≤ length (ends_of net.now.files) }
    requires outer { is_outer end.now.far ≡ true }
    requires wide { All (λ id. length id.nodes.items ≡ 32) env.now.ids }
    requires nodes { env_end env.now ≤ size terms.old }
    requires down { ids_end sym.now.down ≤ size terms.old }
    requires route { bgp_end rec.now ≤ size terms.old }
    ensures builds { Builds terms.old terms.new }
    ensures within { IfOk result (λ r. beside_end r ≤ size terms.new) }
    ensures value { Gives terms.new result (λ w r. candidate_with w rec.now r
        ≡ (if session_up net.now.files (failures_of w sym.now) end.now then option_map (λ s. record {
          rec = s;
          external = not end.now.internal;
          cost = 0;
          peer_id = (peer_identifier net.now.files (map (address_of w) env.now.ids) at end.now).0;
        }) (bgp_of w rec.now) else None)) }
{
    let there = outer_there(alloc, terms, net, sym, end, rec)?;
    let cost = constant(alloc, terms, 0, 32)?;
    let beside = with_peer(alloc, terms, net, env, at, end, there, cost)?;
    Ok(beside)
}

// ---- over a session between two routers

/// What a candidate has beside its route that came from another router.
#[tactic(auto, using(crate::proofs::LearntOver::inner_with))]
fn inner_beside(
    alloc: Global,
    terms: &mut Terms,
    net: &Net,
    sym: &SymNet,
    env: &SymEnv,
    at: u32,
    end: &SessionEnd,
    rec: &SymBgp,
) -> Result<SymBeside, AllocError>
    requires there { slice_get (ends_of net.now.files) at ≡ Some end.now }
    requires place { at ≤ length (ends_of net.now.files) }
    requires distances { length sym.now.igp ≡ length net.now.files * length (ospf.advertised net.now.files) }
    requires wide { All (λ id. length id.nodes.items ≡ 32) env.now.ids }
    requires nodes { env_end env.now ≤ size terms.old }
    requires sym { net_end sym.now ≤ size terms.old }
    requires route { bgp_end rec.now ≤ size terms.old }
    ensures builds { Builds terms.old terms.new }
    ensures within { IfOk result (λ r. beside_end r ≤ size terms.new) }
    ensures value { Gives terms.new result (λ w r. HasDistances w net.now.files sym.now → candidate_with w rec.now r
        ≡ (if session_up net.now.files (failures_of w sym.now) end.now then option_and_then (λ s. option_map (λ cost.
        record {
          rec = s;
          external = not end.now.internal;
          cost = cost;
          peer_id = (peer_identifier net.now.files (map (address_of w) env.now.ids) at end.now).0;
        }) (resolved net.now.files (failures_of w sym.now) end.now.router (record { 0 = s.next_hop })))
        (bgp_of w rec.now) else None)) }
{
    let up = sym_session_up(alloc, terms, net, sym, at)?;
    let way = sym_resolve(alloc, terms, net, sym, end.router, &rec.next_hop)?;
    let reached = both(terms, up, way.valid)?;
    let there = both(terms, rec.valid, reached)?;
    let beside = with_peer(alloc, terms, net, env, at, end, there, way.cost)?;
    Ok(beside)
}

// ---- both

/// What a candidate has beside its route, which is what the router made of what arrived over the session of the end at
/// that place.
pub(crate) fn beside(
    alloc: Global,
    terms: &mut Terms,
    net: &Net,
    sym: &SymNet,
    env: &SymEnv,
    at: u32,
    end: &SessionEnd,
    rec: &SymBgp,
) -> Result<SymBeside, AllocError>
    requires there { slice_get (ends_of net.now.files) at ≡ Some end.now }
    requires distances { RowsForSessions net.now.files sym.now }
    requires wide { All (λ id. length id.nodes.items ≡ 32) env.now.ids }
    requires nodes { env_end env.now ≤ size terms.old }
    requires sym { net_end sym.now ≤ size terms.old }
    requires route { bgp_end rec.now ≤ size terms.old }
    ensures builds { Builds terms.old terms.new }
    ensures within { IfOk result (λ r. beside_end r ≤ size terms.new) }
    ensures value { Gives terms.new result (λ w r. (environment : ShapeEnvironment) (slots : ℕ → OptionOf ShapeSlot)
        (p : PrefixOf) → DistancesForSessions w net.now.files sym.now → bgp_of w rec.now
        ≡ option_and_then (shape_imported net.now.tracked net.now.files end.now p)
        (shape_arriving net.now.tracked net.now.files environment slots p at end.now) →
        candidate_with w rec.now r ≡ shape_learnt net.now.tracked net.now.files (failures_of w sym.now)
        (map (address_of w) env.now.ids) p at end.now
        (shape_arriving net.now.tracked net.now.files environment slots p at end.now)) }
{
    match end.far {
        Far::Outside => outer_beside(alloc, terms, net, sym, env, at, end, rec),
        Far::Inside(_) => inner_beside(alloc, terms, net, sym, env, at, end, rec),
    }
}
