//! Static routes of a router as terms.

ghost use Rattle.std.specs.Prelude.{◌≡◌, ◌==◌, ◌&&◌, ℕ, ◌+◌, ◌<◌, ◌≤◌, Bool, true, false, fold, map, if◌then◌else◌};
ghost use Rattle.std.specs.Prelude.{Some, None, IfOk, length};
ghost use Rattle.net_parts.specs.Routing as routing;
ghost use Rattle.route_record.specs.declared.RibSource as source;
ghost use Rattle.sym_policy.specs.Held.{failures_of};
ghost use Rattle.sym_policy.specs.Records.{prefix_of};
ghost use Rattle.sym_rib.specs.Slots.{rib_of, rib_end, IsNumbered};
ghost use Rattle.sym_rib.specs.Sources.{closer_of, static_entry, static_candidate};
ghost use Rattle.term_store.specs.Terms.{Reading, size, at};
ghost use Rattle.term_store.specs.Reading.{Reads, Builds, Gives};
ghost use Rattle.term_arith.specs.Bits.{number, ids_end};

use crate::interfaces::sym_reached;
use crate::lookup::Lookup;
use crate::prefixes::sym_same_prefix;
use crate::ribs::{closer_rib, entry_where};
use crate::slots::SymRib;
use ios_ast::{StaticRoute, Via};
use net_model::Net;
use route_record::RibSource;
use std::alloc::{AllocError, Global};
use sym_policy::SymNet;
use term_arith::gates::{both, constant_node, is_never};
use term_store::{NodeId, Terms};

/// Whether a static route counts: it goes to Null0 or its next hop is on the subnet of an interface of the router
/// that is up, and its distance is not 255.
fn sym_counts(
    alloc: Global,
    terms: &mut Terms,
    net: &Net,
    sym: &SymNet,
    router: u32,
    route: &StaticRoute,
) -> Result<NodeId, AllocError>
    requires down { ids_end sym.now.down ≤ size terms.old }
    ensures builds { Builds terms.old terms.new }
    ensures within { IfOk result (λ r. r.0 < size terms.new) }
    ensures value { Gives terms.new result (λ w r. at w r
        ≡ routing.counts (routing.up_interfaces net.now.files (failures_of w sym.now) router) route.now) }
{
    if route.distance == 255 {
        return constant_node(terms, false);
    }
    match &route.via {
        Via::Null0 => constant_node(terms, true),
        Via::Next(a) => sym_reached(alloc, terms, net, sym, router, *a),
        Via::Out(_, a) => sym_reached(alloc, terms, net, sym, router, *a),
    }
}

/// The entry of a static route, which is there where the route is one to the prefix and counts.
fn static_rib(
    alloc: Global,
    terms: &mut Terms,
    net: &Net,
    sym: &SymNet,
    router: u32,
    same: NodeId,
    route: &StaticRoute,
) -> Result<SymRib, AllocError>
    requires same { same.0 < size terms.old }
    requires down { ids_end sym.now.down ≤ size terms.old }
    ensures builds { Builds terms.old terms.new }
    ensures within { IfOk result (λ r. rib_end r ≤ size terms.new) }
    ensures numbered { Gives terms.new result (λ w r. IsNumbered w r) }
    ensures value { Gives terms.new result (λ w r. rib_of w r
        ≡ (if at w same && routing.counts (routing.up_interfaces net.now.files (failures_of w sym.now) router) route.now
        then Some (static_candidate route.now) else None)) }
{
    let counted = sym_counts(alloc, terms, net, sym, router, route)?;
    let valid = both(terms, same, counted)?;
    entry_where(alloc, terms, valid, RibSource::Static, route.distance)
}

/// The closer of an entry and that of a static route.
fn after_static(
    alloc: Global,
    terms: &mut Terms,
    lookup: &Lookup<'_>,
    sym: &SymNet,
    best: SymRib,
    route: &StaticRoute,
) -> Result<SymRib, AllocError>
    requires long { lookup.now.len ≤ 32 }
    requires wide { length lookup.now.dst.now.nodes.items ≡ 32 }
    requires nodes { ids_end lookup.now.dst.now.nodes.items ≤ size terms.old }
    requires down { ids_end sym.now.down ≤ size terms.old }
    requires best { rib_end best ≤ size terms.old }
    ensures builds { Builds terms.old terms.new }
    ensures within { IfOk result (λ r. rib_end r ≤ size terms.new) }
    ensures numbered { Gives terms.new result (λ w r. IsNumbered w best → IsNumbered w r) }
    ensures value { Gives terms.new result (λ w r. rib_of w r ≡ closer_of (rib_of w best)
        (static_entry (routing.up_interfaces lookup.now.net.now.files (failures_of w sym.now) lookup.now.router)
        (prefix_of w lookup.now.dst.now lookup.now.len) route.now)) }
{
    if route.prefix.len != lookup.len {
        return Ok(best);
    }
    let same = sym_same_prefix(terms, &route.prefix, lookup.dst, lookup.len)?;
    if is_never(terms, same) {
        return Ok(best);
    }
    let next = static_rib(alloc, terms, lookup.net, sym, lookup.router, same, route)?;
    closer_rib(alloc, terms, &best, &next)
}

/// The best of an entry and those of the static routes.
pub(crate) fn best_static(
    alloc: Global,
    terms: &mut Terms,
    lookup: &Lookup<'_>,
    sym: &SymNet,
    first: SymRib,
    statics: &[StaticRoute],
) -> Result<SymRib, AllocError>
    requires long { lookup.now.len ≤ 32 }
    requires wide { length lookup.now.dst.now.nodes.items ≡ 32 }
    requires nodes { ids_end lookup.now.dst.now.nodes.items ≤ size terms.old }
    requires down { ids_end sym.now.down ≤ size terms.old }
    requires first { rib_end first ≤ size terms.old }
    ensures builds { Builds terms.old terms.new }
    ensures within { IfOk result (λ r. rib_end r ≤ size terms.new) }
    ensures numbered { Gives terms.new result (λ w r. IsNumbered w first → IsNumbered w r) }
    ensures value { Gives terms.new result (λ w r. rib_of w r
        ≡ fold routing.closer (rib_of w first) (map static_candidate
        (routing.static_routes
        (routing.up_interfaces lookup.now.net.now.files (failures_of w sym.now) lookup.now.router) statics.now
        (prefix_of w lookup.now.dst.now lookup.now.len)))) }
{
    let mut best = first;
    for route in statics {
        best = after_static(alloc, terms, lookup, sym, best, route)?;
    }
    Ok(best)
}
