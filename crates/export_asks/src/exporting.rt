//! Whether a routing exports a route to an external peer.

ghost use Rattle.std.specs.Prelude.{◌≡◌, ◌==◌, ◌&&◌, ◌<◌, ◌≤◌, false, nat_le, length, position, slice_get, is_some, Some, IfOk, IfSome, option_and_then};
ghost use Rattle.std.specs.Option.{option_map_or};
ghost use Rattle.mw_text.specs.Address.{prefix_at};
ghost use Rattle.net_parts.specs.Resolution.{session_up};
ghost use Rattle.net_parts.specs.Sessions.{ends_of};
ghost use Rattle.export_asks.specs.Exported as exports;

use crate::ask::{Ask, AskPeer};
use crate::tracing::{held_at, is_learnt};
use ios_ast::File;
use mw_text::{Addr, Prefix, contains, prefix_of};
use net_model::{Net, SessionEnd};
use net_parts::ends::{is_outside, is_towards};
use proto_bgp::export;
use proto_ospf::session_up;
use route_record::{Failures, LENGTHS, Tables};
use std::alloc::{AllocError, Global};

fn is_asked(ask: &Ask, p: &Prefix) -> bool
    ensures { result ≡ exports.is_asked ask.now p.now }
{
    ask.prefix.len <= p.len
        && contains(&ask.prefix, p.addr)
        && ask.low <= p.len
        && p.len <= ask.high
}

fn is_end_to(files: &[File], peer: &AskPeer, end: &SessionEnd) -> bool
    ensures { result ≡ exports.is_end_to files.now peer.now end.now }
{
    is_outside(end) && is_towards(files, peer.router, peer.addr, end)
}

fn place_to(files: &[File], ends: &[SessionEnd], peer: &AskPeer) -> Option<usize>
    ensures place { result ≡ position (exports.is_end_to files.now peer.now) ends.now }
    ensures within { IfSome result (λ at. at < length ends.now) }
{
    ends.iter().position(|end| is_end_to(files, peer, end))
}

/// The place of the end towards an external peer among the ends. None where there is no such session.
#[tactic(auto, using(route_candidates::proofs::FewEnds::few_ends))]
pub fn end_to(net: &Net, peer: &AskPeer) -> Option<u32>
    ensures place { result ≡ exports.end_to net.now.files peer.now }
    ensures within { IfSome result (λ at. at < length (ends_of net.now.files)) }
{
    match place_to(net.routers(), net.ends(), peer) {
        None => None,
        Some(at) => Some(at as u32),
    }
}

/// Whether the router at an end sends something over it of the route that it holds for the prefix.
fn is_sent(
    alloc: Global,
    net: &Net,
    tables: &Tables,
    end: u32,
    p: &Prefix,
) -> Result<bool, AllocError>
    requires within { end < length (ends_of net.now.files) }
    ensures { IfOk result (λ sent. sent ≡ option_map_or (λ at. is_some (exports.message_over net.now.files tables.now at p.now))
        (slice_get (ends_of net.now.files) end) false) }
{
    let at = net.ends()[end as usize];
    match held_at(tables, at.router, p.len) {
        None => Ok(false),
        Some(held) => {
            let message = export(alloc, net, end, p, held)?;
            Ok(message.is_some())
        }
    }
}

/// Whether the session of an end is up, a route for the prefix goes out over it, and that comes from the ask's peer.
fn goes_out(
    alloc: Global,
    net: &Net,
    ask: &Ask,
    failures: &Failures,
    tables: &Tables,
    p: &Prefix,
    end: u32,
) -> Result<bool, AllocError>
    requires within { end < length (ends_of net.now.files) }
    ensures { IfOk result (λ goes. goes ≡ option_map_or (exports.goes_out net.now.files ask.now failures.now tables.now p.now)
        (slice_get (ends_of net.now.files) end) false) }
{
    let router = net.ends()[end as usize].router;
    let up = session_up(alloc, net, failures, end)?;
    let sent = is_sent(alloc, net, tables, end, p)?;
    Ok(up && sent && is_learnt(net, tables, p.len, router, &ask.learnt))
}

/// Whether the tables export a route of the ask for the prefix of the destination of that length.
#[tactic(auto, unfolding(crate::specs::Exported::is_exported))]
fn is_exported(
    alloc: Global,
    net: &Net,
    ask: &Ask,
    d: Addr,
    failures: &Failures,
    tables: &Tables,
    len: u8,
) -> Result<bool, AllocError>
    ensures { IfOk result (λ is. is ≡ exports.is_exported net.now.files ask.now d failures.now tables.now len) }
{
    let p = prefix_of(d, len);
    if !is_asked(ask, &p) {
        return Ok(false);
    }
    match end_to(net, &ask.to) {
        None => Ok(false),
        Some(end) => goes_out(alloc, net, ask, failures, tables, &p, end),
    }
}

/// The least length for which, in these tables for the destination `d`, a route of the ask goes out to its peer: the
/// session is up, the prefix of `d` of that length is in the ask's range, the router sends something of the route that it
/// holds for it (RFC 4271, section 9; RFC 1997), and, where the ask names a second peer, the route came from that one. None
/// where there is no such length.
///
/// # Errors
/// Memory was refused.
#[tactic(auto, using(crate::proofs::Leasts::none_more))]
pub fn exported(
    alloc: Global,
    net: &Net,
    ask: &Ask,
    d: Addr,
    failures: &Failures,
    tables: &Tables,
) -> Result<Option<u8>, AllocError>
    ensures { IfOk result (exports.IsLeast (exports.is_exported net.now.files ask.now d failures.now tables.now)) }
{
    for len in 0..LENGTHS as u8 {
        if is_exported(alloc, net, ask, d, failures, tables, len)? {
            return Ok(Some(len));
        }
    }
    Ok(None)
}
