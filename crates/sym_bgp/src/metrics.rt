//! Whether a map sets the metric of a route, as terms.

ghost use Rattle.std.specs.Prelude.{◌≡◌, ◌==◌, ℕ, ◌+◌, ◌<◌, ◌≤◌, ◌||◌, Bool, false, if◌then◌else◌, IfOk, length, map};
ghost use Rattle.std.specs.List.{find, list_any};
ghost use Rattle.std.specs.Option.{option_map_or};
ghost use Rattle.term_store.specs.Terms.{Reading, size, at};
ghost use Rattle.term_store.specs.Reading.{Reads, Builds, Gives};
ghost use Rattle.term_arith.specs.Bits.{bits, ids_end};
ghost use Rattle.ios_ast.specs.Deciding.{in_order};
ghost use Rattle.net_parts.specs.Exports as exports;
ghost use Rattle.route_shapes.specs.Shapes.{shape_route_taken};
ghost use Rattle.bgp_shapes.specs.Messages.{seen_by_maps, shape_sets_metric};
ghost use Rattle.sym_policy.specs.Held.{bgp_at, bgp_end};
ghost use Rattle.sym_policy.specs.Order.{entries_of};
ghost use Rattle.sym_policy.specs.Records.{prefix_of};
ghost use Rattle.sym_policy.specs.Routes.{route_at, route_end};
ghost use Rattle.sym_policy.specs.MapRecs.{HasTracked};

use crate::routers::sets_metric;
use crate::through::seen_of;
use ios_ast::{MapEntry, Use};
use policy_eval::map_named;
use std::alloc::{AllocError, Global};
use sym_policy::{Grounds, SymBgp, SymRoute, ordered, sym_takes};
use term_arith::equal_number;
use term_arith::gates::{constant_node, either, select};
use term_store::{NodeId, Terms};

/// Whether an entry sets the metric of a route that it takes, and else what those behind it do.
fn sym_entry_sets(
    alloc: Global,
    terms: &mut Terms,
    by: &Grounds<'_>,
    route: &SymRoute,
    entry: &MapEntry,
    behind: NodeId,
) -> Result<NodeId, AllocError>
    requires long { by.now.len ≤ 32 }
    requires wide { length by.now.dst.now.nodes.items ≡ 32 }
    requires dst { ids_end by.now.dst.now.nodes.items ≤ size terms.old }
    requires nodes { route_end route.now ≤ size terms.old }
    requires behind { behind.0 < size terms.old }
    ensures builds { Builds terms.old terms.new }
    ensures within { IfOk result (λ r. r.0 < size terms.new) }
    ensures value { Gives terms.new result (λ w r. at w r
        ≡ (if shape_route_taken by.now.policies.now by.now.tracked.now (prefix_of w by.now.dst.now by.now.len)
        (route_at w route.now) entry.now then list_any exports.is_metric entry.now.sets else at w behind)) }
{
    let takes = sym_takes(
        alloc,
        terms,
        by.policies,
        by.tracked,
        by.dst,
        by.len,
        route,
        entry,
    )?;
    let sets = constant_node(terms, sets_metric(entry))?;
    select(terms, takes, sets, behind)
}

/// Whether the first of some entries that takes a route sets its metric.
fn sym_entries_set(
    alloc: Global,
    terms: &mut Terms,
    by: &Grounds<'_>,
    route: &SymRoute,
    entries: &[&MapEntry],
) -> Result<NodeId, AllocError>
    requires long { by.now.len ≤ 32 }
    requires wide { length by.now.dst.now.nodes.items ≡ 32 }
    requires dst { ids_end by.now.dst.now.nodes.items ≤ size terms.old }
    requires nodes { route_end route.now ≤ size terms.old }
    ensures builds { Builds terms.old terms.new }
    ensures within { IfOk result (λ r. r.0 < size terms.new) }
    ensures value { Gives terms.new result (λ w r. at w r ≡ option_map_or (λ e. list_any exports.is_metric e.sets)
        (find (shape_route_taken by.now.policies.now by.now.tracked.now (prefix_of w by.now.dst.now by.now.len)
        (route_at w route.now)) (entries_of entries.now)) false) }
{
    let mut rest = constant_node(terms, false)?;
    for i in (0..entries.len()).rev() {
        let entry = entries[i];
        rest = sym_entry_sets(alloc, terms, by, route, entry, rest)?;
    }
    Ok(rest)
}

/// Whether the deciding one of some entries sets the metric of a route.
fn sym_deciding_sets(
    alloc: Global,
    terms: &mut Terms,
    by: &Grounds<'_>,
    route: &SymRoute,
    entries: &[MapEntry],
) -> Result<NodeId, AllocError>
    requires long { by.now.len ≤ 32 }
    requires wide { length by.now.dst.now.nodes.items ≡ 32 }
    requires dst { ids_end by.now.dst.now.nodes.items ≤ size terms.old }
    requires nodes { route_end route.now ≤ size terms.old }
    ensures builds { Builds terms.old terms.new }
    ensures within { IfOk result (λ r. r.0 < size terms.new) }
    ensures value { Gives terms.new result (λ w r. at w r ≡ option_map_or (λ e. list_any exports.is_metric e.sets)
        (find (shape_route_taken by.now.policies.now by.now.tracked.now (prefix_of w by.now.dst.now by.now.len)
        (route_at w route.now)) (in_order (λ e. e.seq) entries.now)) false) }
{
    let in_order = ordered(alloc, entries)?;
    let entries = in_order.as_slice();
    let sets = sym_entries_set(alloc, terms, by, route, entries)?;
    Ok(sets)
}

/// Whether the deciding entry of the map that is applied, if one is, sets the metric of a route.
fn sym_sets_metric(
    alloc: Global,
    terms: &mut Terms,
    by: &Grounds<'_>,
    used: &Option<Use>,
    route: &SymRoute,
) -> Result<NodeId, AllocError>
    requires long { by.now.len ≤ 32 }
    requires wide { length by.now.dst.now.nodes.items ≡ 32 }
    requires dst { ids_end by.now.dst.now.nodes.items ≤ size terms.old }
    requires nodes { route_end route.now ≤ size terms.old }
    ensures builds { Builds terms.old terms.new }
    ensures within { IfOk result (λ r. r.0 < size terms.new) }
    ensures value { Gives terms.new result (λ w r. at w r
        ≡ shape_sets_metric by.now.tracked.now by.now.policies.now used.now (prefix_of w by.now.dst.now by.now.len)
        (route_at w route.now)) }
{
    let Some(named) = used else {
        return constant_node(terms, false);
    };
    let Some(map) = map_named(by.policies, named) else {
        return constant_node(terms, false);
    };
    sym_deciding_sets(alloc, terms, by, route, map.entries.as_slice())
}

/// Whether an external message carries the metric of a route: where the path was empty before, or the map sets one.
pub(crate) fn sym_keeps_metric(
    alloc: Global,
    terms: &mut Terms,
    by: &Grounds<'_>,
    used: &Option<Use>,
    held: &SymBgp,
) -> Result<NodeId, AllocError>
    requires long { by.now.len ≤ 32 }
    requires wide { length by.now.dst.now.nodes.items ≡ 32 }
    requires dst { ids_end by.now.dst.now.nodes.items ≤ size terms.old }
    requires marks { HasTracked by.now.tracked.now held.now }
    requires nodes { bgp_end held.now ≤ size terms.old }
    ensures builds { Builds terms.old terms.new }
    ensures within { IfOk result (λ r. r.0 < size terms.new) }
    ensures value { Gives terms.new result (λ w r. at w r ≡ (((bgp_at w held.now).path.len == 0)
        || shape_sets_metric by.now.tracked.now by.now.policies.now used.now (prefix_of w by.now.dst.now by.now.len)
        (seen_by_maps (bgp_at w held.now)))) }
{
    let empty = equal_number(terms, held.len.nodes.as_slice(), 0)?;
    let route = seen_of(alloc, terms, by.tracked, held)?;
    let sets = sym_sets_metric(alloc, terms, by, used, &route)?;
    let keeps = either(terms, empty, sets)?;
    Ok(keeps)
}
