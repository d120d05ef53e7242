//! Copies of routes, and what the map of a neighbour makes of a route, as terms.

ghost use Rattle.std.specs.Prelude.{◌≡◌, ℕ, ◌+◌, ◌<◌, ◌≤◌, Bool, false, if◌then◌else◌, Some, None, IfOk, length, max};
ghost use Rattle.std.specs.Option.{option_and_then};
ghost use Rattle.term_store.specs.Terms.{Reading, size, at};
ghost use Rattle.term_store.specs.Reading.{Reads, Builds, Gives};
ghost use Rattle.term_arith.specs.Bits.{bits, ids_end};
ghost use Rattle.route_record.specs.Sides.{at_external};
ghost use Rattle.bgp_shapes.specs.Messages.{seen_by_maps};
ghost use Rattle.sym_policy.specs.Held.{bgp_at, bgp_end, bgp_of};
ghost use Rattle.sym_policy.specs.MapRecs.{HasTracked, map_rec_end};
ghost use Rattle.sym_policy.specs.Records.{prefix_of};
ghost use Rattle.sym_policy.specs.Routes.{route_at, route_end, HasRows};
ghost use Rattle.sym_bgp.specs.Joined.{shape_through};

use ios_ast::Use;
use route_record::{Side, Tracked};
use std::alloc::{AllocError, Global};
use sym_policy::{
    Grounds, SymBgp, SymMapRec, SymRoute, joined, path_of, preferences_of, rest_of, sym_through,
};
use term_arith::copy;
use term_arith::gates::constant_node;
use term_store::{NodeId, Terms};

/// A copy of what route maps see of a route.
#[tactic(auto, using(crate::proofs::JoinedRoutes::route_steps))]
pub(crate) fn seen_of(
    alloc: Global,
    terms: &mut Terms,
    tracked: &Tracked,
    held: &SymBgp,
) -> Result<SymRoute, AllocError>
    requires marks { HasTracked tracked.now held.now }
    requires nodes { bgp_end held.now ≤ size terms.old }
    ensures builds { Builds terms.old terms.new }
    ensures within { IfOk result (λ r. route_end r ≤ size terms.new) }
    ensures rows { IfOk result (λ r. HasRows tracked.now r) }
    ensures value { Gives terms.new result (λ w r. route_at w r ≡ seen_by_maps (bgp_at w held.now)) }
{
    let preferences = preferences_of(alloc, held)?;
    let path = path_of(alloc, held)?;
    let communities = copy(alloc, &held.communities)?;
    let type1 = constant_node(terms, false)?;
    Ok(SymRoute {
        preferences,
        path,
        communities,
        type1,
    })
}

/// A copy of a route, which is there where a node is true.
#[tactic(auto, using(crate::proofs::JoinedRoutes::route_steps))]
pub(crate) fn copied(
    alloc: Global,
    terms: &mut Terms,
    tracked: &Tracked,
    there: NodeId,
    held: &SymBgp,
) -> Result<SymMapRec, AllocError>
    requires marks { HasTracked tracked.now held.now }
    requires there { there.0 < size terms.old }
    requires nodes { bgp_end held.now ≤ size terms.old }
    ensures builds { Builds terms.old terms.new }
    ensures within { IfOk result (λ r. map_rec_end r ≤ size terms.new) }
    ensures marks { IfOk result (λ r. HasTracked tracked.now r.bgp) }
    ensures type1 { Gives terms.new result (λ w r. at w r.type1 ≡ false) }
    ensures value { Gives terms.new result (λ w r. bgp_of w r.bgp
        ≡ (if at w there then Some (bgp_at w held.now) else None)) }
{
    let route = seen_of(alloc, terms, tracked, held)?;
    let rest = rest_of(alloc, held)?;
    Ok(joined(there, route, rest))
}

/// No route, with the nodes of another.
pub(crate) fn nothing(
    alloc: Global,
    terms: &mut Terms,
    tracked: &Tracked,
    held: &SymBgp,
) -> Result<SymBgp, AllocError>
    requires marks { HasTracked tracked.now held.now }
    requires nodes { bgp_end held.now ≤ size terms.old }
    ensures builds { Builds terms.old terms.new }
    ensures within { IfOk result (λ r. bgp_end r ≤ size terms.new) }
    ensures marks { IfOk result (λ r. HasTracked tracked.now r) }
    ensures value { Gives terms.new result (λ w r. bgp_of w r ≡ None) }
{
    let never = constant_node(terms, false)?;
    let rec = copied(alloc, terms, tracked, never, held)?;
    let SymMapRec { bgp, .. } = rec;
    Ok(bgp)
}

/// What the map of a neighbour that is applied, if one is, makes of a route to the prefix.
pub(crate) fn sym_mapped(
    alloc: Global,
    terms: &mut Terms,
    by: &Grounds<'_>,
    used: &Option<Use>,
    rec: SymMapRec,
    side: Side,
) -> Result<SymBgp, AllocError>
    requires long { by.now.len ≤ 32 }
    requires wide { length by.now.dst.now.nodes.items ≡ 32 }
    requires dst { ids_end by.now.dst.now.nodes.items ≤ size terms.old }
    requires marks { HasTracked by.now.tracked.now rec.bgp }
    requires nodes { map_rec_end rec ≤ size terms.old }
    ensures builds { Builds terms.old terms.new }
    ensures within { IfOk result (λ r. bgp_end r ≤ size terms.new) }
    ensures marks { IfOk result (λ r. HasTracked by.now.tracked.now r) }
    ensures value { Gives terms.new result (λ w r. at w rec.type1 ≡ false → bgp_of w r
        ≡ option_and_then (shape_through by.now.tracked.now by.now.policies.now used.now
        (prefix_of w by.now.dst.now by.now.len) (at_external side)) (bgp_of w rec.bgp)) }
{
    let left = sym_through(alloc, terms, by, used, rec, side)?;
    let SymMapRec { bgp, .. } = left;
    Ok(bgp)
}
