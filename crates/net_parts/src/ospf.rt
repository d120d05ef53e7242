//! Interfaces that run OSPF, what they advertise and what they cost (RFC 2328, sections 9 and 10; Cisco IOS, `network
//! area`, `passive-interface`, `auto-cost` and `ip ospf cost`).

ghost use Rattle.std.specs.Prelude.{◌≡◌, [], ◌==◌, ◌&&◌, not, IfOk, OnOk, ◌++◌, fold, filter, map, option_and_then, option_map, slice_get};
ghost use Rattle.std.specs.List.{list_any, find};
ghost use Rattle.net_interfaces.specs.Interfaces.{addressed};
ghost use Rattle.net_parts.specs.Ospf as ospf;
ghost use Rattle.mw_text.specs.Text.{same_text};

use crate::links::put_in_order;
use ios_ast::{File, Iface, Ospf, OspfNet, Use};
use mw_text::{Addr, List, Prefix, prefix_of, same_bytes};
use net_interfaces::limits::MOST_COST;
use net_interfaces::{Addressed, IfaceId};
use std::alloc::{AllocError, Global};

/// An interface that runs OSPF, with its output cost. Over a passive one no adjacency is formed.
#[derive(Clone, Copy)]
pub struct OspfInterface {
    pub at: Addressed,
    pub cost: u32,
    pub passive: bool,
}

fn line_matches(line: &OspfNet, a: Addr) -> bool
    ensures { result ≡ ospf.is_matched_by a line.now }
{
    (a.0 | line.wild) == (line.addr.0 | line.wild)
}

fn is_matched(process: &Ospf, a: Addr) -> bool
    ensures { result ≡ ospf.is_matched process.now a }
{
    process
        .networks
        .as_slice()
        .iter()
        .any(|line| line_matches(line, a))
}

fn is_named(uses: &[Use], name: &[u8]) -> bool
    ensures { result ≡ list_any (λ named. same_text named.name name.now) uses.now }
{
    uses.iter()
        .any(|named| same_bytes(named.name.as_slice(), name))
}

/// Whether no adjacency is formed over the interface of that name: `passive-interface` names it, or the default is
/// passive and `no passive-interface` does not name it.
pub fn is_passive(process: &Ospf, name: &[u8]) -> bool
    ensures { result ≡ ospf.is_passive process.now name.now }
{
    is_named(process.passive.as_slice(), name)
        || (process.passive_default && !is_named(process.active.as_slice(), name))
}

// The reference bandwidth, in megabits a second, over the interface's, in kilobits a second, from 1 to 65535.
fn bandwidth_cost(reference: u32, bandwidth: u32) -> u32
    ensures { result ≡ ospf.bandwidth_cost reference bandwidth }
{
    let ratio = if bandwidth == 0 {
        0
    } else {
        u64::from(reference) * 1000 / u64::from(bandwidth)
    };
    ratio.min(MOST_COST).max(1) as u32
}

/// The output cost of an interface in a process: as `ip ospf cost` says; else 1 of a loopback; else by its bandwidth.
pub fn interface_cost(process: &Ospf, iface: &Iface, loopback: bool) -> u32
    ensures { result ≡ ospf.interface_cost process.now iface.now loopback }
{
    match iface.cost {
        Some(cost) => cost,
        None if loopback => 1,
        None => bandwidth_cost(process.reference, iface.bandwidth),
    }
}

fn running(process: &Ospf, iface: &Iface, x: &Addressed) -> OspfInterface
    ensures { result ≡ ospf.running process.now iface.now x.now }
{
    OspfInterface {
        at: *x,
        cost: interface_cost(process, iface, x.loopback),
        passive: is_passive(process, iface.name.as_slice()),
    }
}

fn running_in(file: &File, process: &Ospf, x: &Addressed) -> Option<OspfInterface>
    ensures { result ≡ ospf.running_in file.now process.now x.now }
{
    if !is_matched(process, x.addr) {
        return None;
    }
    match file.interfaces.items.get(x.id.at as usize) {
        None => None,
        Some(iface) => Some(running(process, iface, x)),
    }
}

fn running_on(file: &File, x: &Addressed) -> Option<OspfInterface>
    ensures { result ≡ option_and_then (λ process. ospf.running_in file.now process x.now) file.now.ospf }
{
    match &file.ospf {
        None => None,
        Some(process) => running_in(file, process, x),
    }
}

/// The interface as the process of its router runs it. None exactly where it does not run OSPF.
pub fn ospf_at(files: &[File], x: &Addressed) -> Option<OspfInterface>
    ensures { result ≡ ospf.ospf_at files.now x.now }
{
    match files.get(x.id.router as usize) {
        None => None,
        Some(file) => running_on(file, x),
    }
}

/// All interfaces that run OSPF, shut down or not, in the order of the files.
#[tactic(auto, unfolding(crate::specs::Ospf::ospf_interfaces))]
pub fn ospf_interfaces(
    alloc: Global,
    files: &[File],
    addresses: &[Addressed],
) -> Result<List<OspfInterface>, AllocError>
    requires addresses { addresses.now ≡ addressed files.now }
    ensures { IfOk result (λ all. all ≡ ospf.ospf_interfaces files.now) }
{
    let mut all = List::new(alloc);
    for x in addresses {
        if let Some(one) = ospf_at(files, x) {
            all.items.push(one)?;
        }
    }
    Ok(all)
}

/// What an interface advertises: its subnet, and a loopback its address.
pub fn advertisement(x: &OspfInterface) -> Prefix
    ensures { result ≡ ospf.advertisement x.now }
{
    if x.at.loopback {
        prefix_of(x.at.addr, 32)
    } else {
        x.at.subnet
    }
}

/// Every prefix that some interface advertises, ascending, each once.
#[tactic(auto, unfolding(crate::specs::Ospf::advertised))]
pub fn advertised(
    alloc: Global,
    files: &[File],
    running: &[OspfInterface],
) -> Result<List<Prefix>, AllocError>
    requires running { running.now ≡ ospf.ospf_interfaces files.now }
    ensures { IfOk result (λ all. all ≡ ospf.advertised files.now) }
{
    let _routers = files.len();
    let mut ordered = List::new(alloc);
    for x in running {
        put_in_order(&mut ordered, advertisement(x))?;
    }
    Ok(ordered)
}

fn is_at(x: &OspfInterface, i: IfaceId) -> bool
    ensures { result ≡ ospf.is_ospf_at i x.now }
{
    x.at.id.router == i.router && x.at.id.at == i.at
}

/// The output cost of an interface. None exactly where it does not run OSPF.
#[tactic(auto, unfolding(crate::specs::Ospf::ospf_cost))]
pub fn ospf_cost(files: &[File], running: &[OspfInterface], i: IfaceId) -> Option<u32>
    requires running { running.now ≡ ospf.ospf_interfaces files.now }
    ensures { result ≡ ospf.ospf_cost files.now i }
{
    let _routers = files.len();
    match running.iter().find(|x| is_at(x, i)) {
        None => None,
        Some(x) => Some(x.cost),
    }
}
