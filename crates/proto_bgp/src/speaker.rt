//! What a router knows where it sends a route over a session.

ghost use Rattle.std.specs.Prelude.{◌≡◌, ◌==◌, ◌&&◌, false, IfOk, option_and_then};
ghost use Rattle.std.specs.List.{find};
ghost use Rattle.std.specs.Option.{option_map_or};
ghost use Rattle.net_parts.specs.Exports as exports;
ghost use Rattle.net_interfaces.specs.Interfaces.{addressed};
ghost use Rattle.net_parts.specs.Sessions as sessions;
ghost use Rattle.proto_bgp.specs.Sending.{Speaks};

use crate::policies::with_front;
use ios_ast::{File, Neighbour};
use mw_text::{Addr, List};
use net_model::{Addressed, Far, IfaceId, Net, SessionEnd};
use net_parts::router_ids::router_id;
use policy_eval::copy_list;
use route_record::{BgpRec, Learnt};
use std::alloc::{AllocError, Global};

/// The router's own address over the session and its identifier, the end over which the route was learnt, and the
/// identifier of the internal peer there.
#[derive(Clone, Copy)]
pub struct Speaker {
    pub address: Addr,
    pub id: Addr,
    pub from: Option<SessionEnd>,
    pub peer: Option<Addr>,
}

/// The next hop over an internal session: the own address for a local route, and with `next-hop-self` for one of an
/// external peer.
pub fn internal_next_hop(
    neighbour: &Neighbour,
    own: Addr,
    held: &BgpRec,
    from: &Option<SessionEnd>,
) -> Addr
    ensures { result ≡ exports.internal_next_hop neighbour.now own held.now from.now }
{
    match from {
        None => own,
        Some(end) => {
            if neighbour.next_hop_self && !end.internal {
                own
            } else {
                held.next_hop
            }
        }
    }
}

/// The originator of a route that goes to an internal peer: where it came from one, and has none, the identifier of
/// that peer (RFC 4456, section 8).
pub fn reflected_originator(
    files: &[File],
    held: &BgpRec,
    from: &Option<SessionEnd>,
    peer: Option<Addr>,
) -> Option<Addr>
    requires peer { peer ≡ option_and_then (exports.learnt_id files.now) from.now }
    ensures { result ≡ exports.reflected_originator files.now held.now from.now }
{
    let _routers = files.len();
    match from {
        None => held.originator,
        Some(end) => {
            if end.internal {
                Some(held.originator.unwrap_or(peer.unwrap_or(Addr(0))))
            } else {
                held.originator
            }
        }
    }
}

/// The clusters of a route that goes to an internal peer: where it came from one, the own cluster in front of those
/// that it has (RFC 4456, section 8).
pub fn reflected_clusters(
    alloc: Global,
    files: &[File],
    router: u32,
    own: Addr,
    held: &BgpRec,
    from: &Option<SessionEnd>,
) -> Result<List<Addr>, AllocError>
    requires own { own ≡ exports.router_id files.now router }
    ensures { IfOk result (λ clusters. clusters ≡ exports.reflected_clusters files.now router held.now from.now) }
{
    let _routers = files.len();
    match from {
        None => copy_list(alloc, &held.clusters),
        Some(end) => {
            if end.internal {
                with_front(alloc, own, &held.clusters)
            } else {
                copy_list(alloc, &held.clusters)
            }
        }
    }
}

/// The interface of that router and place.
fn interface_at(addresses: &[Addressed], own: IfaceId) -> Option<Addressed>
    ensures { result ≡ find (λ x. (x.id.router == own.router) && (x.id.at == own.at)) addresses.now }
{
    addresses
        .iter()
        .copied()
        .find(|x| x.id.router == own.router && x.id.at == own.at)
}

/// The address from which the router speaks over the session.
fn own_address(files: &[File], addresses: &[Addressed], end: &SessionEnd) -> Addr
    requires addresses { addresses.now ≡ addressed files.now }
    ensures { result ≡ exports.own_address files.now end.now }
{
    let _routers = files.len();
    match interface_at(addresses, end.own) {
        None => Addr(0),
        Some(x) => x.addr,
    }
}

/// The identifier of the internal peer at the far side of an end.
fn learnt_id(
    alloc: Global,
    files: &[File],
    addresses: &[Addressed],
    ends: &[SessionEnd],
    end: &SessionEnd,
) -> Result<Option<Addr>, AllocError>
    requires addresses { addresses.now ≡ addressed files.now }
    requires ends { ends.now ≡ sessions.ends_of files.now }
    ensures { IfOk result (λ id. id ≡ exports.learnt_id files.now end.now) }
{
    let Far::Inside(at) = end.far else {
        return Ok(None);
    };
    match ends.get(at as usize) {
        None => Ok(None),
        Some(far) => Ok(Some(router_id(alloc, files, addresses, far.router)?)),
    }
}

/// The identifier of the internal peer from which a route was learnt, by the end over which it came.
fn peer_of(
    alloc: Global,
    files: &[File],
    addresses: &[Addressed],
    ends: &[SessionEnd],
    from: &Option<SessionEnd>,
) -> Result<Option<Addr>, AllocError>
    requires addresses { addresses.now ≡ addressed files.now }
    requires ends { ends.now ≡ sessions.ends_of files.now }
    ensures { IfOk result (λ id. id ≡ option_and_then (exports.learnt_id files.now) from.now) }
{
    match from {
        None => Ok(None),
        Some(end) => learnt_id(alloc, files, addresses, ends, end),
    }
}

/// What the router at an end knows where it sends the route over the session.
pub fn speaker_of(
    alloc: Global,
    net: &Net,
    end: &SessionEnd,
    held: &BgpRec,
) -> Result<Speaker, AllocError>
    ensures { IfOk result (λ speaker. Speaks net.now.files end.now held.now speaker) }
{
    let files = net.routers();
    let from = net.learnt_over(end.router, held.from);
    Ok(Speaker {
        address: own_address(files, net.addresses(), end),
        id: router_id(alloc, files, net.addresses(), end.router)?,
        from,
        peer: peer_of(alloc, files, net.addresses(), net.ends(), &from)?,
    })
}
