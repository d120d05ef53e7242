//! What lines of the files can bring into OSPF for the prefixes of one length that contain some destination of a set (RFC
//! 2328, section 12.4; Cisco IOS, `redistribute` and `default-information originate`).

ghost use Rattle.std.specs.Prelude.{◌≡◌, ◌++◌, ◌∷◌, [], IfOk, OnOk, filter, fold, map, unwrap_or};
ghost use Rattle.std.specs.List.{flat_map};
ghost use Rattle.std.specs.Option.{option_map_or};
ghost use Rattle.net_interfaces.specs.Interfaces.{addressed};
ghost use Rattle.ios_ast.specs.Maps.{entries_named};
ghost use Rattle.net_parts.specs.Origins as model;
ghost use Rattle.net_parts.specs.Ospf.{ospf_interfaces};
ghost use Rattle.slot_places.specs.Origins as origins;

use ios_ast::{DefaultOrigin, File, MapEntry, Ospf, Redist, SetAct, Source, StaticRoute, Use};
use mw_text::{List, Prefix};
use net_interfaces::connected::prefixes_overlap;
use net_model::{Addressed, OspfInterface};
use net_parts::ends::file_of;
use net_parts::ospf::advertisement;
use policy_eval::map_named;
use proto_rib::into_ospf::redistribute_of;
use route_record::{OspfKind, OspfRec, RibEntry, RibSource, Slot};
use std::alloc::{AllocError, Global};

// Whether the prefix has that length, and shares an address with the destinations.
fn meets(destinations: &Prefix, len: u8, p: &Prefix) -> bool
    ensures { result ≡ origins.meets destinations.now len p.now }
{
    p.len == len && prefixes_overlap(p, destinations)
}

// ---- interfaces that advertise a prefix

fn internal(cost: u32) -> OspfRec
    ensures { result ≡ record { kind = OspfKind.Internal; metric = 0; cost = cost } }
{
    OspfRec {
        kind: OspfKind::Internal,
        metric: 0,
        cost,
    }
}

fn add_advertised(
    made: &mut List<OspfRec>,
    destinations: &Prefix,
    len: u8,
    x: &OspfInterface,
) -> Result<(), AllocError>
    ensures { OnOk result (made.new ≡ made.old ++ origins.advertised_by destinations.now len x.now) }
{
    if !x.at.shutdown && meets(destinations, len, &advertisement(x)) {
        made.items.push(internal(x.cost))?;
    }
    Ok(())
}

fn add_interfaces(
    made: &mut List<OspfRec>,
    destinations: &Prefix,
    len: u8,
    running: &[OspfInterface],
) -> Result<(), AllocError>
    ensures { OnOk result (made.new ≡ made.old ++ flat_map (origins.advertised_by destinations.now len) running.now) }
{
    for x in running {
        add_advertised(made, destinations, len, x)?;
    }
    Ok(())
}

// ---- connected and static routes that are redistributed

// A slot whose entry is from that source.
fn slot_from(source: RibSource) -> Slot
    ensures { result ≡ origins.slot_from source }
{
    Slot {
        ospf: None,
        bgp: None,
        rib: Some(RibEntry {
            source,
            distance: 0,
        }),
    }
}

fn add_all(made: &mut List<OspfRec>, more: &[OspfRec]) -> Result<(), AllocError>
    ensures { OnOk result (made.new ≡ made.old ++ more.now) }
{
    made.items.extend_from_slice(more)
}

// Puts what the process of a router takes of a prefix whose entry is from that source at the end.
fn add_taken(
    alloc: Global,
    made: &mut List<OspfRec>,
    source: RibSource,
    file: &File,
    p: &Prefix,
) -> Result<(), AllocError>
    ensures { OnOk result (made.new ≡ made.old ++ origins.taken_from source file.now p.now) }
{
    let taken = redistribute_of(alloc, file, p, &slot_from(source))?;
    add_all(made, taken.as_slice())
}

/// Whether an interface has a subnet of that length that shares an address with the destinations, and is not shut down.
pub fn is_subnet_at(destinations: &Prefix, len: u8, x: &Addressed) -> bool
    ensures { result ≡ origins.is_subnet_at destinations.now len x.now }
{
    !x.shutdown && meets(destinations, len, &x.subnet)
}

fn add_subnet(
    alloc: Global,
    made: &mut List<OspfRec>,
    files: &[File],
    destinations: &Prefix,
    len: u8,
    x: &Addressed,
) -> Result<(), AllocError>
    ensures { OnOk result (made.new ≡ made.old ++ origins.taken_of_subnet files.now destinations.now len x.now) }
{
    if !is_subnet_at(destinations, len, x) {
        return Ok(());
    }
    match file_of(files, x.id.router) {
        None => Ok(()),
        Some(file) => add_taken(alloc, made, RibSource::Connected, file, &x.subnet),
    }
}

fn add_subnets(
    alloc: Global,
    made: &mut List<OspfRec>,
    files: &[File],
    destinations: &Prefix,
    len: u8,
    addresses: &[Addressed],
) -> Result<(), AllocError>
    ensures { OnOk result (made.new
        ≡ made.old ++ flat_map (origins.taken_of_subnet files.now destinations.now len) addresses.now) }
{
    for x in addresses {
        add_subnet(alloc, made, files, destinations, len, x)?;
    }
    Ok(())
}

/// Whether a static route leads to such a prefix, with a distance below 255.
pub fn is_static_at(destinations: &Prefix, len: u8, route: &StaticRoute) -> bool
    ensures { result ≡ origins.is_static_at destinations.now len route.now }
{
    route.distance != 255 && meets(destinations, len, &route.prefix)
}

fn add_static(
    alloc: Global,
    made: &mut List<OspfRec>,
    destinations: &Prefix,
    len: u8,
    file: &File,
    route: &StaticRoute,
) -> Result<(), AllocError>
    ensures { OnOk result (made.new ≡ made.old ++ origins.taken_of_static destinations.now len file.now route.now) }
{
    if is_static_at(destinations, len, route) {
        add_taken(alloc, made, RibSource::Static, file, &route.prefix)?;
    }
    Ok(())
}

fn add_statics(
    alloc: Global,
    made: &mut List<OspfRec>,
    destinations: &Prefix,
    len: u8,
    file: &File,
) -> Result<(), AllocError>
    ensures { OnOk result (made.new
        ≡ made.old ++ flat_map (origins.taken_of_static destinations.now len file.now) file.now.statics) }
{
    for route in file.statics.as_slice() {
        add_static(alloc, made, destinations, len, file, route)?;
    }
    Ok(())
}

// ---- the default route

fn external_record(type1: bool, metric: u32) -> OspfRec
    ensures { result ≡ model.external_record type1 metric }
{
    if type1 {
        OspfRec {
            kind: OspfKind::Ext1,
            metric: 0,
            cost: metric,
        }
    } else {
        OspfRec {
            kind: OspfKind::Ext2,
            metric,
            cost: 0,
        }
    }
}

fn default_record(line: &DefaultOrigin) -> OspfRec
    ensures { result ≡ origins.default_record line.now }
{
    external_record(line.type1, line.metric)
}

fn add_default(made: &mut List<OspfRec>, len: u8, process: &Ospf) -> Result<(), AllocError>
    ensures { OnOk result (made.new ≡ made.old ++ origins.default_of len process.now) }
{
    if len != 0 {
        return Ok(());
    }
    if let Some(line) = &process.default {
        made.items.push(default_record(line))?;
    }
    Ok(())
}

// ---- BGP routes that are redistributed

fn metric_after(metric: u32, act: &SetAct) -> u32
    ensures { result ≡ origins.metric_after metric act.now }
{
    match act {
        SetAct::Metric(n) => *n,
        _ => metric,
    }
}

fn type1_after(type1: bool, act: &SetAct) -> bool
    ensures { result ≡ origins.type1_after type1 act.now }
{
    match act {
        SetAct::Type1(wanted) => *wanted,
        _ => type1,
    }
}

fn metric_left(line: &Redist, sets: &[SetAct]) -> u32
    ensures { result ≡ fold origins.metric_after (unwrap_or line.now.metric 1) sets.now }
{
    let mut metric = line.metric.unwrap_or(1);
    for act in sets {
        metric = metric_after(metric, act);
    }
    metric
}

fn type1_left(line: &Redist, sets: &[SetAct]) -> bool
    ensures { result ≡ fold origins.type1_after line.now.type1 sets.now }
{
    let mut type1 = line.type1;
    for act in sets {
        type1 = type1_after(type1, act);
    }
    type1
}

fn external_after(line: &Redist, sets: &[SetAct]) -> OspfRec
    ensures { result ≡ origins.external_after line.now sets.now }
{
    external_record(type1_left(line, sets), metric_left(line, sets))
}

// By each entry of a map that permits.
fn add_entries(
    made: &mut List<OspfRec>,
    line: &Redist,
    entries: &[MapEntry],
) -> Result<(), AllocError>
    ensures { OnOk result (made.new
        ≡ made.old ++ map (λ e. origins.external_after line.now e.sets) (filter (λ e. e.permit) entries.now)) }
{
    for e in entries {
        if e.permit {
            made.items.push(external_after(line, e.sets.as_slice()))?;
        }
    }
    Ok(())
}

fn add_through_map(
    made: &mut List<OspfRec>,
    file: &File,
    line: &Redist,
    named: &Use,
) -> Result<(), AllocError>
    ensures { OnOk result (made.new ≡ made.old ++ map (λ e. origins.external_after line.now e.sets)
        (filter (λ e. e.permit) (entries_named file.now.policies named.now))) }
{
    match map_named(&file.policies, named) {
        None => Ok(()),
        Some(map) => add_entries(made, line, map.entries.as_slice()),
    }
}

fn is_of_bgp(source: Source) -> bool
    ensures { result ≡ origins.is_of_bgp source }
{
    matches!(source, Source::Bgp(_))
}

fn add_of_bgp(made: &mut List<OspfRec>, file: &File, line: &Redist) -> Result<(), AllocError>
    ensures { OnOk result (made.new ≡ made.old ++ origins.taken_of_bgp file.now line.now) }
{
    if !is_of_bgp(line.source) {
        return Ok(());
    }
    match &line.map {
        Some(named) => add_through_map(made, file, line, named),
        None => {
            made.items.push(external_after(line, &[]))?;
            Ok(())
        }
    }
}

fn add_bgp_lines(
    made: &mut List<OspfRec>,
    len: u8,
    file: &File,
    process: &Ospf,
) -> Result<(), AllocError>
    ensures { OnOk result (made.new ≡ made.old ++ origins.taken_of_bgp_lines len file.now process.now) }
{
    if file.bgp.is_none() || len == 0 {
        return Ok(());
    }
    for line in process.redistribute.as_slice() {
        add_of_bgp(made, file, line)?;
    }
    Ok(())
}

// ---- all together

fn add_process(made: &mut List<OspfRec>, len: u8, file: &File) -> Result<(), AllocError>
    ensures { OnOk result (made.new ≡ made.old ++ option_map_or (origins.by_process len file.now) file.now.ospf []) }
{
    match &file.ospf {
        None => Ok(()),
        Some(process) => {
            add_default(made, len, process)?;
            add_bgp_lines(made, len, file, process)
        }
    }
}

fn add_file(
    alloc: Global,
    made: &mut List<OspfRec>,
    destinations: &Prefix,
    len: u8,
    file: &File,
) -> Result<(), AllocError>
    ensures { OnOk result (made.new ≡ made.old ++ origins.by_file destinations.now len file.now) }
{
    add_statics(alloc, made, destinations, len, file)?;
    add_process(made, len, file)
}

fn add_files(
    alloc: Global,
    made: &mut List<OspfRec>,
    destinations: &Prefix,
    len: u8,
    files: &[File],
) -> Result<(), AllocError>
    ensures { OnOk result (made.new ≡ made.old ++ flat_map (origins.by_file destinations.now len) files.now) }
{
    for file in files {
        add_file(alloc, made, destinations, len, file)?;
    }
    Ok(())
}

/// All records that lines of the files can bring into OSPF for a prefix of that length that contains some of the
/// destinations, whatever routing is stable: by interfaces that advertise it, by redistribution of connected, static and
/// BGP routes, and by default origination. Of a BGP route only what it becomes is known. One that several lines bring in
/// stands as often.
#[tactic(auto, unfolding(crate::specs::Origins::origins_at))]
pub fn origins_at(
    alloc: Global,
    files: &[File],
    addresses: &[Addressed],
    running: &[OspfInterface],
    destinations: &Prefix,
    len: u8,
) -> Result<List<OspfRec>, AllocError>
    requires addresses { addresses.now ≡ addressed files.now }
    requires running { running.now ≡ ospf_interfaces files.now }
    ensures { IfOk result (λ made. made ≡ origins.origins_at files.now destinations.now len) }
{
    let mut made = List::new(alloc);
    add_interfaces(&mut made, destinations, len, running)?;
    add_subnets(alloc, &mut made, files, destinations, len, addresses)?;
    add_files(alloc, &mut made, destinations, len, files)?;
    Ok(made)
}
