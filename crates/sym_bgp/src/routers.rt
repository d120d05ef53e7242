//! What export and import ask of routers and their sessions.

ghost use Rattle.std.specs.Prelude.{◌≡◌, ◌==◌, ◌+◌, ◌^◌, ◌<◌, ◌&&◌, ◌||◌, false, not, IfOk, unwrap_or};
ghost use Rattle.std.specs.List.{find, list_any};
ghost use Rattle.net_interfaces.specs.Interfaces.{addressed};
ghost use Rattle.net_parts.specs.Sessions.{ends_of};
ghost use Rattle.route_record.specs.Sides.{at_external};
ghost use Rattle.net_parts.specs.Exports as exports;

use ios_ast::{Bgp, File, MapEntry, Neighbour, SetAct};
use mw_text::Addr;
use net_interfaces::{Addressed, IfaceId};
use net_parts::ends::neighbour_of;
use net_parts::router_ids::router_id;
use net_parts::{Far, SessionEnd};
use route_record::{Side, Tracked};
use std::alloc::{AllocError, Global};

/// A session as the router at an end of it goes by it: the values that the network tracks, the files of all routers, the
/// router's own file and process, the neighbour as it is configured there, the end, and the router's identifier.
#[derive(Clone, Copy)]
pub(crate) struct Session<'a> {
    pub(crate) tracked: &'a Tracked,
    pub(crate) files: &'a [File],
    pub(crate) file: &'a File,
    pub(crate) process: &'a Bgp,
    pub(crate) neighbour: &'a Neighbour,
    pub(crate) end: &'a SessionEnd,
    pub(crate) id: Addr,
}

/// The number of an address in a field that says by its highest bit that there is one.
pub(crate) fn numbered(a: Addr) -> u64
    ensures value { result ≡ 2 ^ 32 + a.0 }
    ensures small { result < 2 ^ 33 }
{
    0x1_0000_0000 + u64::from(a.0)
}

/// Whether a neighbour of the process is a client of it, so that it reflects routes (RFC 4456, section 6).
pub(crate) fn is_reflector(process: &Bgp) -> bool
    ensures { result ≡ exports.is_reflector process.now }
{
    process
        .neighbours
        .as_slice()
        .iter()
        .any(|neighbour| neighbour.client)
}

/// The side of a session on which its maps are used.
pub(crate) fn side_of(end: &SessionEnd) -> Side
    ensures { at_external result ≡ not end.now.internal }
{
    if end.internal {
        Side::Internal
    } else {
        Side::External
    }
}

fn is_client(files: &[File], end: &SessionEnd) -> bool
    ensures { result ≡ exports.is_client files.now end.now }
{
    match neighbour_of(files, end) {
        None => false,
        Some(neighbour) => neighbour.client,
    }
}

/// Whether a reflector sends a route of the one internal peer to the other: a client's to all, another's to clients.
fn may_reflect(files: &[File], process: &Bgp, from: &SessionEnd, to: &SessionEnd) -> bool
    ensures { result ≡ exports.may_reflect files.now process.now from.now to.now }
{
    is_reflector(process) && (is_client(files, from) || is_client(files, to))
}

/// Whether a route that came over the one session may go over the other.
pub(crate) fn may_go_on(files: &[File], process: &Bgp, from: &SessionEnd, end: &SessionEnd) -> bool
    ensures { result ≡ (not (from.now.neighbour == end.now.neighbour)
        && (not (from.now.internal && end.now.internal)
        || exports.may_reflect files.now process.now from.now end.now)) }
{
    from.neighbour != end.neighbour
        && (!(from.internal && end.internal) || may_reflect(files, process, from, end))
}

/// The identifier of the internal peer at the far side of an end, 0.0.0.0 where there is none.
pub(crate) fn peer_of(
    alloc: Global,
    files: &[File],
    addresses: &[Addressed],
    ends: &[SessionEnd],
    end: &SessionEnd,
) -> Result<Addr, AllocError>
    requires addresses { addresses.now ≡ addressed files.now }
    requires ends { ends.now ≡ ends_of files.now }
    ensures { IfOk result (λ id. id ≡ unwrap_or (exports.learnt_id files.now end.now) (record { 0 = 0 })) }
{
    let Far::Inside(at) = end.far else {
        return Ok(Addr(0));
    };
    match ends.get(at as usize) {
        None => Ok(Addr(0)),
        Some(far) => router_id(alloc, files, addresses, far.router),
    }
}

/// The interface of that router and place.
fn interface_at(addresses: &[Addressed], own: IfaceId) -> Option<Addressed>
    ensures { result ≡ find (λ x. (x.id.router == own.router) && (x.id.at == own.at)) addresses.now }
{
    addresses
        .iter()
        .copied()
        .find(|x| x.id.router == own.router && x.id.at == own.at)
}

/// The address from which the router speaks over the session.
pub(crate) fn own_address(files: &[File], addresses: &[Addressed], end: &SessionEnd) -> Addr
    requires addresses { addresses.now ≡ addressed files.now }
    ensures { result ≡ exports.own_address files.now end.now }
{
    let _routers = files.len();
    match interface_at(addresses, end.own) {
        None => Addr(0),
        Some(x) => x.addr,
    }
}

fn is_metric(line: &SetAct) -> bool
    ensures { result ≡ exports.is_metric line.now }
{
    matches!(line, SetAct::Metric(_))
}

/// Whether a set line of the entry sets the metric.
pub(crate) fn sets_metric(entry: &MapEntry) -> bool
    ensures { result ≡ list_any exports.is_metric entry.now.sets }
{
    entry.sets.as_slice().iter().any(|line| is_metric(line))
}
