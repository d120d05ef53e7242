//! What a router makes of a message that it receives (RFC 4271, section 9; RFC 4456, section 8).

ghost use Rattle.std.specs.Prelude.{◌≡◌, ◌==◌, ◌&&◌, false, not, ◌<◌, length, slice_get, IfOk, option_and_then, unwrap_or, if◌then◌else◌};
ghost use Rattle.std.specs.Option.{option_map_or};
ghost use Rattle.ios_ast.specs.Maps as maps;
ghost use Rattle.net_parts.specs.Exports as exports;
ghost use Rattle.net_parts.specs.Mapping as mapping;
ghost use Rattle.net_parts.specs.Sessions.{ends_of};

use crate::policies::{passes_paths, passes_prefixes, through_map};
use crate::routers::{carries, has_id, is_reflector};
use ios_ast::{Bgp, File, Neighbour, Policies};
use mw_text::{Addr, Prefix};
use net_model::{Net, SessionEnd};
use net_parts::ends::{file_of, neighbour_of};
use net_parts::router_ids::router_id;
use policy_eval::copy_list;
use route_record::{BgpMsg, BgpRec, Learnt};
use std::alloc::{AllocError, Global};

/// How many numbers a path has at most.
pub const MOST_NUMBERS: usize = 255;

/// Whether the originator is the router itself.
fn is_own(originator: Option<Addr>, own: Addr) -> bool
    ensures { result ≡ option_map_or (λ id. id.0 == own.0) originator false }
{
    match originator {
        None => false,
        Some(id) => id.0 == own.0,
    }
}

/// Whether the router takes the message: no loop by its AS, by its identifier or by its cluster, and no path that is
/// too long. `own` is its identifier.
fn is_acceptable(files: &[File], router: u32, own: Addr, process: &Bgp, msg: &BgpMsg) -> bool
    requires own { own ≡ exports.router_id files.now router }
    ensures { result ≡ exports.is_acceptable files.now router process.now msg.now }
{
    let _routers = files.len();
    (!carries(msg.path.as_slice(), process.asn) && msg.path.items.len() <= MOST_NUMBERS)
        && (!is_own(msg.originator, own)
            && !(is_reflector(process) && has_id(msg.clusters.as_slice(), own)))
}

/// Whether the incoming lists of the neighbour permit the message.
fn passes_lists(policies: &Policies, neighbour: &Neighbour, p: &Prefix, msg: &BgpMsg) -> bool
    ensures { result ≡ (exports.passes_prefixes policies.now neighbour.now.prefix_in p.now
        && exports.passes_paths policies.now neighbour.now.filter_in msg.now.path) }
{
    passes_prefixes(policies, &neighbour.prefix_in, p)
        && passes_paths(policies, &neighbour.filter_in, msg.path.as_slice())
}

/// The local preference before the incoming map: 100 over an external session.
fn preference_of(end: &SessionEnd, msg: &BgpMsg) -> u32
    ensures { result ≡ (if end.now.internal then unwrap_or msg.now.local_pref 0 else 100) }
{
    if end.internal {
        msg.local_pref.unwrap_or(0)
    } else {
        100
    }
}

/// The record of a message before the incoming map.
fn received(
    alloc: Global,
    neighbour: &Neighbour,
    end: &SessionEnd,
    msg: &BgpMsg,
) -> Result<BgpRec, AllocError>
    ensures { IfOk result (λ rec. rec ≡ exports.received neighbour.now end.now msg.now) }
{
    let path = copy_list(alloc, &msg.path)?;
    let communities = copy_list(alloc, &msg.communities)?;
    let clusters = copy_list(alloc, &msg.clusters)?;
    Ok(BgpRec {
        from: Learnt::Peer(neighbour.addr),
        weight: neighbour.weight,
        local_pref: preference_of(end, msg),
        path,
        origin: msg.origin,
        med: msg.med.unwrap_or(0),
        communities,
        next_hop: msg.next_hop,
        originator: msg.originator,
        clusters,
    })
}

/// The record, where it is there and the map did not make its path too long.
fn if_short(made: Option<BgpRec>) -> Option<BgpRec>
    ensures { result ≡ option_and_then exports.if_short made }
{
    match made {
        None => None,
        Some(rec) => {
            if rec.path.items.len() <= MOST_NUMBERS {
                Some(rec)
            } else {
                None
            }
        }
    }
}

/// The record of a message after the incoming map.
#[tactic(auto, using(crate::proofs::Mapped::then_mapped))]
fn mapped_in(
    alloc: Global,
    file: &File,
    neighbour: &Neighbour,
    end: &SessionEnd,
    p: &Prefix,
    msg: &BgpMsg,
) -> Result<Option<BgpRec>, AllocError>
    ensures { IfOk result (λ made. made
        ≡ option_and_then (λ r. exports.if_short (mapping.with_attributes (exports.received neighbour.now end.now msg.now) r))
        (maps.through_map file.now.policies neighbour.now.map_in p.now (not end.now.internal)
        (mapping.attributes_of (exports.received neighbour.now end.now msg.now)))) }
{
    let rec = received(alloc, neighbour, end, msg)?;
    let made = through_map(
        alloc,
        &file.policies,
        &neighbour.map_in,
        p,
        !end.internal,
        rec,
    )?;
    Ok(if_short(made))
}

/// What the router at an end makes of a message that it receives over the session, if it takes it. `own` is the
/// router's identifier.
#[tactic(auto, unfolding(net_parts::specs::Exports::imported))]
fn imported(
    alloc: Global,
    files: &[File],
    end: &SessionEnd,
    own: Addr,
    p: &Prefix,
    msg: &BgpMsg,
) -> Result<Option<BgpRec>, AllocError>
    requires own { own ≡ exports.router_id files.now end.now.router }
    ensures { IfOk result (λ made. made ≡ exports.imported files.now end.now p.now msg.now) }
{
    let Some(file) = file_of(files, end.router) else {
        return Ok(None);
    };
    let (Some(process), Some(neighbour)) = (&file.bgp, neighbour_of(files, end)) else {
        return Ok(None);
    };
    if !is_acceptable(files, end.router, own, process, msg) {
        return Ok(None);
    }
    if !passes_lists(&file.policies, neighbour, p, msg) {
        return Ok(None);
    }
    mapped_in(alloc, file, neighbour, end, p, msg)
}

/// What the router at an end makes of a message for the prefix `p` that it receives over the session, after the
/// incoming lists and the incoming map of the neighbour (RFC 4271, section 9; RFC 4456, section 8). None where it does not take
/// it: its own AS, identifier or cluster is in it, its path has more than 255 numbers or the map makes it so, a list
/// denies it or the map drops it. `end` is a place in the network's ends.
pub fn import(
    alloc: Global,
    net: &Net,
    end: u32,
    p: &Prefix,
    msg: &BgpMsg,
) -> Result<Option<BgpRec>, AllocError>
    requires within { end < length (ends_of net.now.files) }
    ensures { IfOk result (λ made. made
        ≡ option_and_then (λ at. exports.imported net.now.files at p.now msg.now) (slice_get (ends_of net.now.files) end)) }
{
    let at = net.ends()[end as usize];
    let own = router_id(alloc, net.routers(), net.addresses(), at.router)?;
    imported(alloc, net.routers(), &at, own, p, msg)
}
