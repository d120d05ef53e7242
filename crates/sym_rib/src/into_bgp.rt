//! What a router takes from its own table into BGP, as terms (RFC 4271, section 9.4; Cisco IOS, `network` and
//! `redistribute`).

ghost use Rattle.std.specs.Prelude.{◌≡◌, ◌==◌, ◌&&◌, ◌++◌, ◌∷◌, [], ℕ, ◌+◌, ◌<◌, ◌≤◌, ◌^◌, Bool, false, true};
ghost use Rattle.std.specs.Prelude.{if◌then◌else◌, Some, None, IfOk, IfSome, OnOk, length, map, max, All};
ghost use Rattle.std.specs.Prelude.{option_and_then, slice_get};
ghost use Rattle.std.specs.List.{filter_map};
ghost use Rattle.std.specs.Option.{option_map, option_map_or, option_to_list};
ghost use Rattle.net_parts.specs.Mapping as mapping;
ghost use Rattle.net_parts.specs.Origins as origins;
ghost use Rattle.route_record.specs.declared.Slot.{Slot};
ghost use Rattle.sym_policy.specs.Held.{bgp_of, bgp_end, ospf_of};
ghost use Rattle.route_shapes.specs.Bgp.{bgp_shape};
ghost use Rattle.sym_policy.specs.MapRecs.{HasMarks, HasTracked, attributes_at, map_rec_at, map_rec_end};
ghost use Rattle.sym_policy.specs.Records.{prefix_of};
ghost use Rattle.route_shapes.specs.Shapes.{all_tracked, route_shape};
ghost use Rattle.sym_rib.specs.Into.{list_end};
ghost use Rattle.sym_rib.specs.IntoBgp.{metric_of, metric_end};
ghost use Rattle.sym_rib.specs.Known.{IsOwn};
ghost use Rattle.sym_rib.specs.Slots.{rib_of, slot_end, StandsBesideBgp};
ghost use Rattle.term_store.specs.Terms.{Reading, size, at};
ghost use Rattle.term_store.specs.Reading.{Reads, Builds, Gives};
ghost use Rattle.term_arith.specs.Bits.{ids_end};

use crate::known::{Known, known_rec};
use crate::lookup::Lookup;
use crate::metric::SymMetric;
use crate::metrics::{metric_where, named_metric, sym_entry_metric, sym_taken_metric};
use crate::prefixes::sym_same_prefix;
use crate::slots::SymSlot;
use ios_ast::{Bgp, BgpNet, Redist, Use};
use mw_text::List;
use net_model::Net;
use net_parts::ends::file_of;
use route_record::{Origin, Side, Tracked};
use std::alloc::{AllocError, Global};
use sym_policy::{Grounds, SymBgp, SymMapRec, sym_through};
use term_arith::Bits;
use term_arith::gates::is_never;
use term_store::{NodeId, Terms};

/// A local route before the map of its line, which is there where its metric is.
fn local_rec(
    alloc: Global,
    terms: &mut Terms,
    tracked: &Tracked,
    origin: Origin,
    metric: SymMetric,
) -> Result<SymMapRec, AllocError>
    requires { metric_end metric ≤ size terms.old }
    ensures builds { Builds terms.old terms.new }
    ensures within { IfOk result (λ r. map_rec_end r ≤ size terms.new) }
    ensures rows { IfOk result (λ r. HasTracked tracked.now r.bgp) }
    ensures marks { IfOk result (λ r. HasMarks tracked.now r) }
    ensures own { Gives terms.new result (λ w r. IsOwn w tracked.now r) }
    ensures value { Gives terms.new result (λ w r. map_rec_at w r ≡ option_map (route_shape tracked.now)
        (option_map (λ med. mapping.attributes_of (origins.local_route origin med)) (metric_of w metric))) }
{
    let SymMetric { valid, value } = metric;
    let known = Known {
        weight: 32_768,
        local_pref: 100,
        origin,
        type1: false,
    };
    known_rec(alloc, terms, tracked, valid, &known, value)
}

/// A local route with that metric as the map of its line leaves it.
fn mapped_bgp(
    alloc: Global,
    terms: &mut Terms,
    lookup: &Lookup<'_>,
    tracked: &Tracked,
    used: &Option<Use>,
    origin: Origin,
    metric: SymMetric,
) -> Result<SymBgp, AllocError>
    requires long { lookup.now.len ≤ 32 }
    requires wide { length lookup.now.dst.now.nodes.items ≡ 32 }
    requires dst { ids_end lookup.now.dst.now.nodes.items ≤ size terms.old }
    requires metric { metric_end metric ≤ size terms.old }
    ensures builds { Builds terms.old terms.new }
    ensures within { IfOk result (λ r. bgp_end r ≤ size terms.new) }
    ensures rows { IfOk result (λ r. HasTracked tracked.now r) }
    ensures value { Gives terms.new result (λ w r. all_tracked tracked.now lookup.now.file.now.policies ≡ true
        → bgp_of w r ≡ option_map (bgp_shape tracked.now) (option_and_then (λ med.
        origins.local_through lookup.now.file.now used.now (prefix_of w lookup.now.dst.now lookup.now.len)
        (origins.local_route origin med)) (metric_of w metric))) }
{
    let before = local_rec(alloc, terms, tracked, origin, metric)?;
    let grounds = Grounds {
        policies: &lookup.file.policies,
        tracked,
        dst: lookup.dst,
        len: lookup.len,
    };
    let left = sym_through(alloc, terms, &grounds, used, before, Side::Redistribution)?;
    let SymMapRec { bgp, .. } = left;
    Ok(bgp)
}

/// The same, and no record at all where its metric is known not to be there.
fn local_bgp(
    alloc: Global,
    terms: &mut Terms,
    lookup: &Lookup<'_>,
    tracked: &Tracked,
    used: &Option<Use>,
    origin: Origin,
    metric: SymMetric,
) -> Result<Option<SymBgp>, AllocError>
    requires long { lookup.now.len ≤ 32 }
    requires wide { length lookup.now.dst.now.nodes.items ≡ 32 }
    requires dst { ids_end lookup.now.dst.now.nodes.items ≤ size terms.old }
    requires metric { metric_end metric ≤ size terms.old }
    ensures builds { Builds terms.old terms.new }
    ensures within { IfOk result (λ r. list_end bgp_end (option_to_list r) ≤ size terms.new) }
    ensures rows { IfOk result (λ r. IfSome r (HasTracked tracked.now)) }
    ensures value { Gives terms.new result (λ w r. all_tracked tracked.now lookup.now.file.now.policies ≡ true
        → option_and_then (bgp_of w) r ≡ option_map (bgp_shape tracked.now) (option_and_then (λ med.
        origins.local_through lookup.now.file.now used.now (prefix_of w lookup.now.dst.now lookup.now.len)
        (origins.local_route origin med)) (metric_of w metric))) }
{
    if is_never(terms, metric.valid) {
        return Ok(None);
    }
    let made = mapped_bgp(alloc, terms, lookup, tracked, used, origin, metric)?;
    Ok(Some(made))
}

/// The route of a `network` line.
fn network_bgp(
    alloc: Global,
    terms: &mut Terms,
    lookup: &Lookup<'_>,
    tracked: &Tracked,
    line: &BgpNet,
    slot: &SymSlot,
) -> Result<Option<SymBgp>, AllocError>
    requires long { lookup.now.len ≤ 32 }
    requires wide { length lookup.now.dst.now.nodes.items ≡ 32 }
    requires dst { ids_end lookup.now.dst.now.nodes.items ≤ size terms.old }
    requires slot { slot_end slot.now ≤ size terms.old }
    ensures builds { Builds terms.old terms.new }
    ensures within { IfOk result (λ r. list_end bgp_end (option_to_list r) ≤ size terms.new) }
    ensures rows { IfOk result (λ r. IfSome r (HasTracked tracked.now)) }
    ensures value { Gives terms.new result (λ w r. (held : Slot)
        → all_tracked tracked.now lookup.now.file.now.policies ≡ true → StandsBesideBgp w slot.now held
        → option_and_then (bgp_of w) r
        ≡ option_map (bgp_shape tracked.now) (origins.by_network lookup.now.file.now
        (prefix_of w lookup.now.dst.now lookup.now.len) held line.now)) }
{
    let same = sym_same_prefix(terms, &line.prefix, lookup.dst, lookup.len)?;
    if is_never(terms, same) {
        return Ok(None);
    }
    let metric = sym_entry_metric(alloc, terms, slot)?;
    let here = metric_where(terms, metric, same)?;
    local_bgp(alloc, terms, lookup, tracked, &line.map, Origin::Igp, here)
}

/// The route that a `redistribute` line brings into BGP: never the default route.
fn line_bgp(
    alloc: Global,
    terms: &mut Terms,
    lookup: &Lookup<'_>,
    tracked: &Tracked,
    line: &Redist,
    slot: &SymSlot,
) -> Result<Option<SymBgp>, AllocError>
    requires long { lookup.now.len ≤ 32 }
    requires wide { length lookup.now.dst.now.nodes.items ≡ 32 }
    requires dst { ids_end lookup.now.dst.now.nodes.items ≤ size terms.old }
    requires slot { slot_end slot.now ≤ size terms.old }
    ensures builds { Builds terms.old terms.new }
    ensures within { IfOk result (λ r. list_end bgp_end (option_to_list r) ≤ size terms.new) }
    ensures rows { IfOk result (λ r. IfSome r (HasTracked tracked.now)) }
    ensures value { Gives terms.new result (λ w r. (held : Slot)
        → all_tracked tracked.now lookup.now.file.now.policies ≡ true → StandsBesideBgp w slot.now held
        → option_and_then (bgp_of w) r ≡ option_map (bgp_shape tracked.now)
        (origins.into_bgp lookup.now.net.now.files lookup.now.router lookup.now.file.now
        (prefix_of w lookup.now.dst.now lookup.now.len) held line.now)) }
{
    if lookup.len == 0 {
        return Ok(None);
    }
    let taken = sym_taken_metric(
        alloc,
        terms,
        lookup.net,
        lookup.router,
        line,
        lookup.dst,
        lookup.len,
        slot,
    )?;
    let metric = named_metric(alloc, terms, line, taken)?;
    local_bgp(
        alloc,
        terms,
        lookup,
        tracked,
        &line.map,
        Origin::Incomplete,
        metric,
    )
}

/// Puts a record, if there is one, at the end.
fn put_bgp(made: &mut List<SymBgp>, rec: Option<SymBgp>) -> Result<(), AllocError>
    ensures { OnOk result (made.new ≡ made.old ++ option_to_list rec) }
{
    if let Some(one) = rec {
        made.items.push(one)?;
    }
    Ok(())
}

/// The routes of `network` lines.
fn by_networks(
    alloc: Global,
    terms: &mut Terms,
    lookup: &Lookup<'_>,
    tracked: &Tracked,
    lines: &[BgpNet],
    slot: &SymSlot,
) -> Result<List<SymBgp>, AllocError>
    requires long { lookup.now.len ≤ 32 }
    requires wide { length lookup.now.dst.now.nodes.items ≡ 32 }
    requires dst { ids_end lookup.now.dst.now.nodes.items ≤ size terms.old }
    requires slot { slot_end slot.now ≤ size terms.old }
    ensures builds { Builds terms.old terms.new }
    ensures within { IfOk result (λ r. list_end bgp_end r ≤ size terms.new) }
    ensures rows { IfOk result (λ r. All (HasTracked tracked.now) r) }
    ensures value { Gives terms.new result (λ w r. (held : Slot)
        → all_tracked tracked.now lookup.now.file.now.policies ≡ true → StandsBesideBgp w slot.now held
        → filter_map (bgp_of w) r ≡ map (bgp_shape tracked.now)
        (filter_map (origins.by_network lookup.now.file.now (prefix_of w lookup.now.dst.now lookup.now.len) held)
        lines.now)) }
{
    let mut made = List::new(alloc);
    for line in lines {
        let rec = network_bgp(alloc, terms, lookup, tracked, line, slot)?;
        put_bgp(&mut made, rec)?;
    }
    Ok(made)
}

/// Some routes, and those that `redistribute` lines bring in behind them.
fn with_redistributed(
    alloc: Global,
    terms: &mut Terms,
    lookup: &Lookup<'_>,
    tracked: &Tracked,
    lines: &[Redist],
    slot: &SymSlot,
    before: List<SymBgp>,
) -> Result<List<SymBgp>, AllocError>
    requires long { lookup.now.len ≤ 32 }
    requires wide { length lookup.now.dst.now.nodes.items ≡ 32 }
    requires dst { ids_end lookup.now.dst.now.nodes.items ≤ size terms.old }
    requires slot { slot_end slot.now ≤ size terms.old }
    requires before { list_end bgp_end before ≤ size terms.old }
    ensures builds { Builds terms.old terms.new }
    ensures within { IfOk result (λ r. list_end bgp_end r ≤ size terms.new) }
    ensures rows { IfOk result (λ r. All (HasTracked tracked.now) before → All (HasTracked tracked.now) r) }
    ensures value { Gives terms.new result (λ w r. (held : Slot)
        → all_tracked tracked.now lookup.now.file.now.policies ≡ true → StandsBesideBgp w slot.now held
        → filter_map (bgp_of w) r ≡ filter_map (bgp_of w) before ++ map (bgp_shape tracked.now)
        (filter_map (origins.into_bgp lookup.now.net.now.files lookup.now.router lookup.now.file.now
        (prefix_of w lookup.now.dst.now lookup.now.len) held) lines.now)) }
{
    let mut made = before;
    for line in lines {
        let rec = line_bgp(alloc, terms, lookup, tracked, line, slot)?;
        put_bgp(&mut made, rec)?;
    }
    Ok(made)
}

/// The local routes of the BGP process of a router.
fn of_process(
    alloc: Global,
    terms: &mut Terms,
    lookup: &Lookup<'_>,
    tracked: &Tracked,
    process: &Bgp,
    slot: &SymSlot,
) -> Result<List<SymBgp>, AllocError>
    requires long { lookup.now.len ≤ 32 }
    requires wide { length lookup.now.dst.now.nodes.items ≡ 32 }
    requires dst { ids_end lookup.now.dst.now.nodes.items ≤ size terms.old }
    requires slot { slot_end slot.now ≤ size terms.old }
    ensures builds { Builds terms.old terms.new }
    ensures within { IfOk result (λ r. list_end bgp_end r ≤ size terms.new) }
    ensures rows { IfOk result (λ r. All (HasTracked tracked.now) r) }
    ensures value { Gives terms.new result (λ w r. (held : Slot)
        → all_tracked tracked.now lookup.now.file.now.policies ≡ true → StandsBesideBgp w slot.now held
        → filter_map (bgp_of w) r ≡ map (bgp_shape tracked.now)
        (origins.local_routes lookup.now.net.now.files lookup.now.router lookup.now.file.now process.now
        (prefix_of w lookup.now.dst.now lookup.now.len) held)) }
{
    let networks = process.networks.as_slice();
    let made = by_networks(alloc, terms, lookup, tracked, networks, slot)?;
    let lines = process.redistribute.as_slice();
    let all = with_redistributed(alloc, terms, lookup, tracked, lines, slot, made)?;
    Ok(all)
}

/// Those of the BGP process of a file, if it has one.
fn of_file(
    alloc: Global,
    terms: &mut Terms,
    lookup: &Lookup<'_>,
    tracked: &Tracked,
    slot: &SymSlot,
) -> Result<List<SymBgp>, AllocError>
    requires long { lookup.now.len ≤ 32 }
    requires wide { length lookup.now.dst.now.nodes.items ≡ 32 }
    requires dst { ids_end lookup.now.dst.now.nodes.items ≤ size terms.old }
    requires slot { slot_end slot.now ≤ size terms.old }
    ensures builds { Builds terms.old terms.new }
    ensures within { IfOk result (λ r. list_end bgp_end r ≤ size terms.new) }
    ensures rows { IfOk result (λ r. All (HasTracked tracked.now) r) }
    ensures value { Gives terms.new result (λ w r. (held : Slot)
        → all_tracked tracked.now lookup.now.file.now.policies ≡ true → StandsBesideBgp w slot.now held
        → filter_map (bgp_of w) r ≡ map (bgp_shape tracked.now) (option_map_or (λ process.
        origins.local_routes lookup.now.net.now.files lookup.now.router lookup.now.file.now process
        (prefix_of w lookup.now.dst.now lookup.now.len) held) lookup.now.file.now.bgp [])) }
{
    match &lookup.file.bgp {
        None => Ok(List::new(alloc)),
        Some(process) => {
            let made = of_process(alloc, terms, lookup, tracked, process, slot)?;
            Ok(made)
        }
    }
}

/// The local BGP routes of a router from its own entry for the prefix of that length of a destination: by `network`
/// lines, and then by redistribution, each through the route map of its line (RFC 4271, section 9.4). Each item is a
/// route that may be there, with one node for each tracked number, community and cluster. None where there is no such
/// router, or where it runs no BGP. Of the slot it looks at the OSPF route and the entry alone, so `value` holds
/// whatever its BGP route is.
pub fn sym_originate(
    alloc: Global,
    terms: &mut Terms,
    net: &Net,
    router: u32,
    dst: &Bits,
    len: u8,
    slot: &SymSlot,
) -> Result<List<SymBgp>, AllocError>
    requires long { len ≤ 32 }
    requires wide { length dst.now.nodes.items ≡ 32 }
    requires dst { ids_end dst.now.nodes.items ≤ size terms.old }
    requires slot { slot_end slot.now ≤ size terms.old }
    ensures builds { Builds terms.old terms.new }
    ensures within { IfOk result (λ r. list_end bgp_end r ≤ size terms.new) }
    ensures rows { IfOk result (λ r. All (HasTracked net.now.tracked) r) }
    ensures value { Gives terms.new result (λ w r. (held : Slot) → StandsBesideBgp w slot.now held
        → filter_map (bgp_of w) r ≡ map (bgp_shape net.now.tracked) (option_map_or (λ file. option_map_or
        (λ process. origins.local_routes net.now.files router file process (prefix_of w dst.now len) held) file.bgp [])
        (slice_get net.now.files router) [])) }
{
    match file_of(net.routers(), router) {
        None => Ok(List::new(alloc)),
        Some(file) => {
            let lookup = Lookup {
                net,
                router,
                file,
                dst,
                len,
            };
            let made = of_file(alloc, terms, &lookup, net.tracked(), slot)?;
            Ok(made)
        }
    }
}
