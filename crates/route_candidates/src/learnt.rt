//! What a router makes of a message that it received over a BGP session: a route that it may hold.

ghost use Rattle.std.specs.Prelude.{◌≡◌, ◌<◌, IfOk, Some, length, option_map, slice_get, take, unwrap_or};
ghost use Rattle.std.specs.Option.{option_map_or};
ghost use Rattle.net_parts.specs.Decisions as decisions;
ghost use Rattle.net_parts.specs.Exports.{router_id};
ghost use Rattle.net_parts.specs.Sessions as sessions;
ghost use Rattle.proto_bgp.specs.Steps.{seen};
ghost use Rattle.route_candidates.specs.Underlays.{IsUnderlay};

use crate::underlay::{Underlay, is_session_up};
use mw_text::{Addr, Prefix};
use net_model::{Far, Net, SessionEnd};
use net_parts::ends::is_outside;
use proto_bgp::{Candidate, import};
use proto_ospf::resolve_over;
use route_record::{BgpMsg, BgpRec, Failures};
use std::alloc::{AllocError, Global};

/// What was last received over a session.
#[derive(Clone, Copy)]
pub struct Heard<'a> {
    /// The number of the session's end at the router.
    pub at: u32,
    /// That end.
    pub end: &'a SessionEnd,
    /// The message, none where nothing was received or a withdrawal.
    pub received: &'a Option<BgpMsg>,
}

// How many ends before that place are towards external peers.
fn external_before(ends: &[SessionEnd], at: u32) -> usize
    requires within { at < length ends.now }
    ensures { result ≡ decisions.external_count (take at ends.now) }
{
    ends[..at as usize]
        .iter()
        .filter(|end| is_outside(end))
        .count()
}

// The identifier of the external peer of the end at that place.
fn outside_id(ends: &[SessionEnd], ids: &[Addr], at: u32) -> Addr
    requires within { at < length ends.now }
    ensures { result ≡ unwrap_or (slice_get ids.now (decisions.external_count (take at ends.now))) (record { 0 = 0 }) }
{
    match ids.get(external_before(ends, at)) {
        None => Addr(0),
        Some(id) => *id,
    }
}

// The identifier of the router of the end at that place.
#[tactic(auto, using(crate::proofs::Placed::router_within))]
fn inside_id(net: &Net, far_at: u32) -> Addr
    ensures { result ≡ option_map_or (λ far. router_id net.now.files far.router)
        (slice_get (sessions.ends_of net.now.files) far_at) (record { 0 = 0 }) }
{
    match net.ends().get(far_at as usize) {
        None => Addr(0),
        Some(far) => net.bgp_id(far.router),
    }
}

// The identifier of the peer at the far side.
fn peer_identifier(net: &Net, ids: &[Addr], at: u32, end: &SessionEnd) -> Addr
    requires within { at < length (sessions.ends_of net.now.files) }
    ensures { result ≡ decisions.peer_identifier net.now.files ids.now at end.now }
{
    match end.far {
        Far::Outside => outside_id(net.ends(), ids, at),
        Far::Inside(far_at) => inside_id(net, far_at),
    }
}

// The candidate of a route that was taken, where its next hop is resolved.
fn taken_candidate(
    net: &Net,
    failures: &Failures,
    ids: &[Addr],
    underlay: &Underlay,
    at: u32,
    end: &SessionEnd,
    rec: BgpRec,
) -> Option<Candidate>
    requires underlay { IsUnderlay net.now.files failures.now underlay.now }
    requires within { at < length (sessions.ends_of net.now.files) }
    ensures { option_map seen result ≡ decisions.taken_candidate net.now.files failures.now ids.now at end.now rec }
{
    let peer_id = peer_identifier(net, ids, at, end);
    let Some(cost) = resolve_over(
        net,
        failures,
        underlay.distances.as_slice(),
        end.router,
        rec.next_hop,
    ) else {
        return None;
    };
    Some(Candidate {
        rec,
        external: !end.internal,
        cost,
        peer_id,
    })
}

/// What was last received over a session, as a candidate for the prefix. None where the session is down, nothing was
/// received or a withdrawal, the router does not take the message (see `import`), or the next hop is not resolved
/// (RFC 4271, section 9.1.2). `ids` are the identifiers of the external peers, in the order of their ends.
pub fn learnt_candidate(
    alloc: Global,
    net: &Net,
    failures: &Failures,
    ids: &[Addr],
    underlay: &Underlay,
    p: &Prefix,
    heard: &Heard<'_>,
) -> Result<Option<Candidate>, AllocError>
    requires underlay { IsUnderlay net.now.files failures.now underlay.now }
    requires is { slice_get (sessions.ends_of net.now.files) heard.now.at ≡ Some heard.now.end.now }
    requires within { heard.now.at < length (sessions.ends_of net.now.files) }
    ensures { IfOk result (λ made. option_map seen made
        ≡ decisions.learnt_candidate net.now.files failures.now ids.now p.now heard.now.at heard.now.end.now
        heard.now.received.now) }
{
    let Some(msg) = heard.received else {
        return Ok(None);
    };
    if !is_session_up(net, failures, underlay, heard.at, heard.end) {
        return Ok(None);
    }
    match import(alloc, net, heard.at, p, msg)? {
        None => Ok(None),
        Some(rec) => Ok(taken_candidate(net, failures, ids, underlay, heard.at, heard.end, rec)),
    }
}
