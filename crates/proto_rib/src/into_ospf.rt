//! What a router takes from its own table into OSPF: redistribution and the default route (RFC 2328, section 12.4.4; Cisco
//! IOS, `redistribute` and `default-information originate`).

ghost use Rattle.std.specs.Prelude.{◌≡◌, [], IfOk, false, not, option_and_then, option_map};
ghost use Rattle.std.specs.List.{filter_map};
ghost use Rattle.std.specs.Option.{option_map_or};
ghost use Rattle.ios_ast.specs.Maps as maps;
ghost use Rattle.net_parts.specs.Origins as origins;
ghost use Rattle.policy_eval.specs.Attributes.{attributes_of};
ghost use Rattle.proto_rib.specs.Taken.{redistributed_at};

use crate::prefixes::{is_classful, is_default};
use ios_ast::{DefaultOrigin, File, Ospf, Redist, Source};
use mw_text::{Addr, List, Prefix};
use net_model::Net;
use policy_eval::{copy_list, record_through_map};
use route_record::{
    BgpRec, Learnt, MapRec, Origin, OspfKind, OspfRec, RibEntry, RibSource, Side, Slot,
};
use std::alloc::{AllocError, Global};

fn external_record(type1: bool, metric: u32) -> OspfRec
    ensures { result ≡ origins.external_record type1 metric }
{
    if type1 {
        OspfRec {
            kind: OspfKind::Ext1,
            metric: 0,
            cost: metric,
        }
    } else {
        OspfRec {
            kind: OspfKind::Ext2,
            metric,
            cost: 0,
        }
    }
}

fn is_from(source: Source, entry: RibSource) -> bool
    ensures { result ≡ origins.is_from source entry }
{
    match (source, entry) {
        (Source::Connected, RibSource::Connected) => true,
        (Source::Static, RibSource::Static) => true,
        (Source::Bgp(_), RibSource::Ebgp) => true,
        _ => false,
    }
}

// What the route map of a line sees: a route with that path and these communities, of no weight and no preference.
fn seen_route(
    alloc: Global,
    line: &Redist,
    metric: u32,
    path: List<u32>,
    communities: List<u32>,
) -> MapRec
    ensures { attributes_of result ≡ record (origins.plain_route line.now metric) { path = path; communities = communities } }
{
    MapRec {
        bgp: BgpRec {
            from: Learnt::Local,
            weight: 0,
            local_pref: 0,
            path,
            origin: Origin::Incomplete,
            med: line.metric.unwrap_or(metric),
            communities,
            next_hop: Addr(0),
            originator: None,
            clusters: List::new(alloc),
        },
        type1: line.type1,
    }
}

// What it sees of a route that is no BGP route.
fn plain_route(alloc: Global, line: &Redist) -> MapRec
    ensures { attributes_of result ≡ origins.plain_route line.now 20 }
{
    seen_route(alloc, line, 20, List::new(alloc), List::new(alloc))
}

// What it sees of a BGP route: its path and communities besides.
fn bgp_route(alloc: Global, line: &Redist, held: &BgpRec) -> Result<MapRec, AllocError>
    ensures { IfOk result (λ made. attributes_of made
        ≡ record (origins.plain_route line.now 1) { path = held.now.path; communities = held.now.communities }) }
{
    let path = copy_list(alloc, &held.path)?;
    let communities = copy_list(alloc, &held.communities)?;
    Ok(seen_route(alloc, line, 1, path, communities))
}

fn held_route(
    alloc: Global,
    line: &Redist,
    held: &Option<BgpRec>,
) -> Result<Option<MapRec>, AllocError>
    ensures { IfOk result (λ made. option_map attributes_of made
        ≡ option_map (λ h. record (origins.plain_route line.now 1) { path = h.path; communities = h.communities }) held.now) }
{
    match held {
        None => Ok(None),
        Some(held) => Ok(Some(bgp_route(alloc, line, held)?)),
    }
}

fn redistributed_route(
    alloc: Global,
    line: &Redist,
    slot: &Slot,
) -> Result<Option<MapRec>, AllocError>
    ensures { IfOk result (λ made. option_map attributes_of made ≡ origins.redistributed_route line.now slot.now) }
{
    match line.source {
        Source::Connected => Ok(Some(plain_route(alloc, line))),
        Source::Static => Ok(Some(plain_route(alloc, line))),
        Source::Bgp(_) => held_route(alloc, line, &slot.bgp),
        Source::Ospf(_) => Ok(None),
    }
}

// What the map of the line leaves of the route that it sees.
fn route_left(
    alloc: Global,
    file: &File,
    line: &Redist,
    p: &Prefix,
    slot: &Slot,
) -> Result<Option<MapRec>, AllocError>
    ensures { IfOk result (λ made. option_map attributes_of made
        ≡ option_and_then (maps.through_map file.now.policies line.now.map p.now false)
        (origins.redistributed_route line.now slot.now)) }
{
    match redistributed_route(alloc, line, slot)? {
        None => Ok(None),
        Some(route) => record_through_map(
            alloc,
            &file.policies,
            &line.map,
            p,
            Side::Redistribution,
            route,
        ),
    }
}

fn is_taken(line: &Redist, p: &Prefix, entry: RibSource) -> bool
    ensures { result ≡ origins.is_taken line.now p.now entry }
{
    is_from(line.source, entry) && !is_default(p) && (line.subnets || is_classful(p))
}

fn taken_record(
    alloc: Global,
    file: &File,
    line: &Redist,
    p: &Prefix,
    slot: &Slot,
) -> Result<Option<OspfRec>, AllocError>
    ensures { IfOk result (λ made. made ≡ option_map (λ r. origins.external_record r.type1 r.med)
        (option_and_then (maps.through_map file.now.policies line.now.map p.now false)
        (origins.redistributed_route line.now slot.now))) }
{
    match route_left(alloc, file, line, p, slot)? {
        None => Ok(None),
        Some(route) => Ok(Some(external_record(route.type1, route.bgp.med))),
    }
}

// The record that a line brings into OSPF.
fn into_ospf(
    alloc: Global,
    file: &File,
    p: &Prefix,
    slot: &Slot,
    line: &Redist,
) -> Result<Option<OspfRec>, AllocError>
    ensures { IfOk result (λ made. made ≡ origins.into_ospf file.now p.now slot.now line.now) }
{
    match slot.rib {
        Some(entry) if is_taken(line, p, entry.source) => taken_record(alloc, file, line, p, slot),
        _ => Ok(None),
    }
}

fn is_foreign(entry: &Option<RibEntry>) -> bool
    ensures { result ≡ option_map_or (λ e. not (origins.is_ospf_entry e.source)) entry.now false }
{
    match entry {
        None => false,
        Some(entry) => match entry.source {
            RibSource::Ospf => false,
            _ => true,
        },
    }
}

fn originated_default(p: &Prefix, slot: &Slot, line: &DefaultOrigin) -> Option<OspfRec>
    ensures { result ≡ origins.originated_default p.now slot.now line.now }
{
    if is_default(p) && (line.always || is_foreign(&slot.rib)) {
        Some(external_record(line.type1, line.metric))
    } else {
        None
    }
}

fn default_of(process: &Ospf, p: &Prefix, slot: &Slot) -> Option<OspfRec>
    ensures { result ≡ option_and_then (origins.originated_default p.now slot.now) process.now.default }
{
    match &process.default {
        None => None,
        Some(line) => originated_default(p, slot, line),
    }
}

fn by_lines(
    alloc: Global,
    file: &File,
    process: &Ospf,
    p: &Prefix,
    slot: &Slot,
) -> Result<List<OspfRec>, AllocError>
    ensures { IfOk result (λ made. made ≡ filter_map (origins.into_ospf file.now p.now slot.now) process.now.redistribute) }
{
    let mut made = List::new(alloc);
    for line in process.redistribute.as_slice() {
        if let Some(rec) = into_ospf(alloc, file, p, slot, line)? {
            made.items.push(rec)?;
        }
    }
    Ok(made)
}

#[tactic(auto, unfolding(net_parts::specs::Origins::redistributed))]
fn of_process(
    alloc: Global,
    file: &File,
    process: &Ospf,
    p: &Prefix,
    slot: &Slot,
) -> Result<List<OspfRec>, AllocError>
    ensures { IfOk result (λ made. made ≡ origins.redistributed file.now process.now p.now slot.now) }
{
    let mut made = by_lines(alloc, file, process, p, slot)?;
    if let Some(rec) = default_of(process, p, slot) {
        made.items.push(rec)?;
    }
    Ok(made)
}

/// What the OSPF process of that file takes from such a slot: nothing where the file has none.
pub fn redistribute_of(
    alloc: Global,
    file: &File,
    p: &Prefix,
    slot: &Slot,
) -> Result<List<OspfRec>, AllocError>
    ensures { IfOk result (λ made. made
        ≡ option_map_or (λ process. origins.redistributed file.now process p.now slot.now) file.now.ospf []) }
{
    match &file.ospf {
        None => Ok(List::new(alloc)),
        Some(process) => of_process(alloc, file, process, p, slot),
    }
}

/// What the OSPF process of a router takes from its own entry for the prefix: by each `redistribute` line, and the default
/// route (RFC 2328, section 12.4.4). Nothing where the router runs no OSPF.
pub fn redistribute(
    alloc: Global,
    net: &Net,
    router: u32,
    p: &Prefix,
    slot: &Slot,
) -> Result<List<OspfRec>, AllocError>
    ensures { IfOk result (λ made. made ≡ redistributed_at net.now.files router p.now slot.now) }
{
    match net.routers().get(router as usize) {
        None => Ok(List::new(alloc)),
        Some(file) => redistribute_of(alloc, file, p, slot),
    }
}
