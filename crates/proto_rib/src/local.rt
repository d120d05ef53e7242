//! Local BGP routes: what a router brings into BGP from its own table (RFC 4271, section 9.4; Cisco IOS, `network` and
//! `redistribute`).

ghost use Rattle.std.specs.Prelude.{◌≡◌, ◌==◌, ◌&&◌, ◌++◌, [], None, Some, IfOk, OnOk, option_and_then, option_map, if◌then◌else◌};
ghost use Rattle.std.specs.List.{filter_map};
ghost use Rattle.std.specs.Option.{option_map_or};
ghost use Rattle.mw_text.specs.Address.{same_prefix};
ghost use Rattle.net_parts.specs.Origins as origins;
ghost use Rattle.proto_rib.specs.Taken.{local_routes_at};

use crate::prefixes::is_default;
use ios_ast::{Bgp, BgpNet, File, Redist, Source, Use};
use mw_text::{Addr, List, Prefix};
use net_model::{Net, OspfInterface};
use policy_eval::through_map;
use route_record::{BgpRec, Learnt, Origin, OspfKind, OspfRec, RibSource, Slot};
use std::alloc::{AllocError, Global};

// A local route: weight 32768, local preference 100, no next hop and an empty path.
fn local_route(alloc: Global, origin: Origin, med: u32) -> BgpRec
    ensures { result ≡ origins.local_route origin med }
{
    BgpRec {
        from: Learnt::Local,
        weight: 32_768,
        local_pref: 100,
        path: List::new(alloc),
        origin,
        med,
        communities: List::new(alloc),
        next_hop: Addr(0),
        originator: None,
        clusters: List::new(alloc),
    }
}

fn ospf_metric(held: &OspfRec) -> u32
    ensures { result ≡ origins.ospf_metric held.now }
{
    match held.kind {
        OspfKind::Internal => held.cost,
        OspfKind::Ext1 => held.cost,
        OspfKind::Ext2 => held.metric,
    }
}

fn held_metric(held: &Option<OspfRec>) -> Option<u32>
    ensures { result ≡ option_map origins.ospf_metric held.now }
{
    match held {
        None => None,
        Some(held) => Some(ospf_metric(held)),
    }
}

// The metric of the entry of a slot from connected, static or OSPF.
fn entry_metric(slot: &Slot, source: RibSource) -> Option<u32>
    ensures { result ≡ origins.entry_metric slot.now source }
{
    match source {
        RibSource::Connected => Some(0),
        RibSource::Static => Some(0),
        RibSource::Ospf => held_metric(&slot.ospf),
        RibSource::Ebgp => None,
        RibSource::Ibgp => None,
    }
}

// What the map of a `network` line leaves of the route.
fn through_network(
    alloc: Global,
    file: &File,
    used: &Option<Use>,
    p: &Prefix,
    med: u32,
) -> Result<Option<BgpRec>, AllocError>
    ensures { IfOk result (λ made. made ≡ origins.local_through file.now used.now p.now (origins.local_route Origin.Igp med)) }
{
    let route = local_route(alloc, Origin::Igp, med);
    through_map(alloc, &file.policies, used, p, false, route)
}

// What the map of a `redistribute` line leaves of the route.
fn through_redistribution(
    alloc: Global,
    file: &File,
    used: &Option<Use>,
    p: &Prefix,
    med: u32,
) -> Result<Option<BgpRec>, AllocError>
    ensures { IfOk result (λ made. made ≡ origins.local_through file.now used.now p.now (origins.local_route Origin.Incomplete med)) }
{
    let route = local_route(alloc, Origin::Incomplete, med);
    through_map(alloc, &file.policies, used, p, false, route)
}

// The route of a `network` line.
fn by_network(
    alloc: Global,
    file: &File,
    p: &Prefix,
    slot: &Slot,
    line: &BgpNet,
) -> Result<Option<BgpRec>, AllocError>
    ensures { IfOk result (λ made. made ≡ origins.by_network file.now p.now slot.now line.now) }
{
    let Some(entry) = slot.rib else {
        return Ok(None);
    };
    match entry_metric(slot, entry.source) {
        Some(med) if line.prefix == *p => through_network(alloc, file, &line.map, p, med),
        _ => Ok(None),
    }
}

fn is_ospf_on(x: &OspfInterface, router: u32, p: &Prefix) -> bool
    ensures { result ≡ ((x.now.at.id.router == router) && same_prefix x.now.at.subnet p.now) }
{
    x.at.id.router == router && x.at.subnet == *p
}

fn is_ospf_subnet(net: &Net, router: u32, p: &Prefix) -> bool
    ensures { result ≡ origins.is_ospf_subnet net.now.files router p.now }
{
    net.ospf_interfaces()
        .iter()
        .any(|x| is_ospf_on(x, router, p))
}

fn takes_kind(line: &Redist, kind: OspfKind) -> bool
    ensures { result ≡ origins.takes_kind line.now kind }
{
    match kind {
        OspfKind::Internal => line.internal,
        OspfKind::Ext1 => line.ext1,
        OspfKind::Ext2 => line.ext2,
    }
}

fn metric_from_ospf(slot: &Slot, line: &Redist) -> Option<u32>
    ensures { result ≡ option_and_then (λ held.
        if origins.takes_kind line.now held.kind then Some (origins.ospf_metric held) else None) slot.now.ospf }
{
    match slot.ospf {
        Some(held) if takes_kind(line, held.kind) => Some(ospf_metric(&held)),
        _ => None,
    }
}

fn metric_from_connected(net: &Net, router: u32, p: &Prefix, line: &Redist) -> Option<u32>
    ensures { result ≡ (if line.now.internal && origins.is_ospf_subnet net.now.files router p.now then Some 0 else None) }
{
    if line.internal && is_ospf_subnet(net, router, p) {
        Some(0)
    } else {
        None
    }
}

// The metric with which a `redistribute` line takes the entry of a slot.
fn taken_metric(
    net: &Net,
    router: u32,
    p: &Prefix,
    slot: &Slot,
    line: &Redist,
    entry: RibSource,
) -> Option<u32>
    ensures { result ≡ origins.taken_metric net.now.files router p.now slot.now line.now entry }
{
    match (line.source, entry) {
        (Source::Connected, RibSource::Connected) => Some(0),
        (Source::Static, RibSource::Static) => Some(0),
        (Source::Ospf(_), RibSource::Connected) => metric_from_connected(net, router, p, line),
        (Source::Ospf(_), RibSource::Ospf) => metric_from_ospf(slot, line),
        _ => None,
    }
}

// The route that a `redistribute` line brings into BGP.
fn into_bgp(
    alloc: Global,
    net: &Net,
    router: u32,
    file: &File,
    p: &Prefix,
    slot: &Slot,
    line: &Redist,
) -> Result<Option<BgpRec>, AllocError>
    ensures { IfOk result (λ made. made ≡ origins.into_bgp net.now.files router file.now p.now slot.now line.now) }
{
    let Some(entry) = slot.rib else {
        return Ok(None);
    };
    match taken_metric(net, router, p, slot, line, entry.source) {
        Some(metric) if !is_default(p) => {
            let med = line.metric.unwrap_or(metric);
            through_redistribution(alloc, file, &line.map, p, med)
        }
        _ => Ok(None),
    }
}

fn by_networks(
    alloc: Global,
    file: &File,
    process: &Bgp,
    p: &Prefix,
    slot: &Slot,
) -> Result<List<BgpRec>, AllocError>
    ensures { IfOk result (λ made. made ≡ filter_map (origins.by_network file.now p.now slot.now) process.now.networks) }
{
    let mut made = List::new(alloc);
    for line in process.networks.as_slice() {
        if let Some(rec) = by_network(alloc, file, p, slot, line)? {
            made.items.push(rec)?;
        }
    }
    Ok(made)
}

// Puts the routes of `redistribute` lines at the end.
fn add_redistributed(
    alloc: Global,
    out: &mut List<BgpRec>,
    net: &Net,
    router: u32,
    file: &File,
    process: &Bgp,
    p: &Prefix,
    slot: &Slot,
) -> Result<(), AllocError>
    ensures { OnOk result (out.new ≡ out.old
        ++ filter_map (origins.into_bgp net.now.files router file.now p.now slot.now) process.now.redistribute) }
{
    for line in process.redistribute.as_slice() {
        if let Some(rec) = into_bgp(alloc, net, router, file, p, slot, line)? {
            out.items.push(rec)?;
        }
    }
    Ok(())
}

#[tactic(auto, unfolding(net_parts::specs::Origins::local_routes))]
fn of_process(
    alloc: Global,
    net: &Net,
    router: u32,
    file: &File,
    process: &Bgp,
    p: &Prefix,
    slot: &Slot,
) -> Result<List<BgpRec>, AllocError>
    ensures { IfOk result (λ made. made ≡ origins.local_routes net.now.files router file.now process.now p.now slot.now) }
{
    let mut made = by_networks(alloc, file, process, p, slot)?;
    add_redistributed(alloc, &mut made, net, router, file, process, p, slot)?;
    Ok(made)
}

fn of_file(
    alloc: Global,
    net: &Net,
    router: u32,
    file: &File,
    p: &Prefix,
    slot: &Slot,
) -> Result<List<BgpRec>, AllocError>
    ensures { IfOk result (λ made. made
        ≡ option_map_or (λ process. origins.local_routes net.now.files router file.now process p.now slot.now) file.now.bgp []) }
{
    match &file.bgp {
        None => Ok(List::new(alloc)),
        Some(process) => of_process(alloc, net, router, file, process, p, slot),
    }
}

/// The local BGP routes of a router for the prefix, from its own entry: by `network` lines, and then by redistribution
/// (RFC 4271, section 9.4). None where the router runs no BGP.
pub fn originate(
    alloc: Global,
    net: &Net,
    router: u32,
    p: &Prefix,
    slot: &Slot,
) -> Result<List<BgpRec>, AllocError>
    ensures { IfOk result (λ made. made ≡ local_routes_at net.now.files router p.now slot.now) }
{
    match net.routers().get(router as usize) {
        None => Ok(List::new(alloc)),
        Some(file) => of_file(alloc, net, router, file, p, slot),
    }
}
