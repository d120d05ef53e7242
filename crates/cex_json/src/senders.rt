//! The announcements and the external peers, as they are read.

ghost use Rattle.std.specs.Prelude.{◌≡◌, ◌≢◌, ◌≤◌, ◌∷◌, ◌++◌, ◌==◌, ◌&&◌, ◌||◌, true, false, [], Some, None, codes, length, nat_le, nat_lt, option_and_then, option_map, position, slice_get, if◌then◌else◌, IfSome};
ghost use Rattle.std.specs.Option.{option_map_or};
ghost use Rattle.net_parts.specs.Sessions.{ends_of, external_ends as outer_ends};
ghost use Rattle.serde_json.specs.View.{view, items_view};
ghost use Rattle.serde_json.specs.Find.{get};
ghost use Rattle.cex_json.specs.Entries.{entry_path};
ghost use Rattle.cex_json.specs.Fields as fields;
ghost use Rattle.cex_json.specs.Fields.{Reads, in_order, passing};
ghost use Rattle.cex_json.specs.Surroundings as around;

use crate::entries::{origin_in, router_in};
use crate::fields::{addr_in, ascending_in, members_in, number_in, path_in, place_of, required};
use crate::refused::CexRefused;
use crate::worlds::external_ends;
use ios_ast::File;
use mw_text::{Addr, List};
use net_model::{Net, SessionEnd};
use net_parts::ends::{is_outside, is_towards, neighbour_of};
use route_record::Announcement;
use serde_json::Value;
use std::alloc::Global;

fn is_outer_end(files: &[File], router: u32, a: Addr, end: &SessionEnd) -> bool
    ensures { result ≡ around.is_outer_end files.now router a end.now }
{
    is_outside(end) && is_towards(files, router, a, end)
}

fn outer_place(files: &[File], ends: &[SessionEnd], router: u32, a: Addr) -> Option<usize>
    ensures { result ≡ position (around.is_outer_end files.now router a) ends.now }
{
    ends.iter()
        .position(|end| is_outer_end(files, router, a, end))
}

#[tactic(auto, unfolding(crate::specs::Fields::place_of))]
fn outer_end(files: &[File], ends: &[SessionEnd], router: u32, a: Addr) -> Option<u32>
    ensures { result ≡ fields.place_of (position (around.is_outer_end files.now router a) ends.now) }
{
    match outer_place(files, ends, router, a) {
        None => None,
        Some(at) => place_of(at),
    }
}

fn end_named(net: &Net, router: Option<u32>, a: Option<Addr>) -> Option<u32>
    ensures { result ≡ around.end_named net.now.files router a }
{
    match router {
        None => None,
        Some(router) => match a {
            None => None,
            Some(a) => outer_end(net.routers(), net.ends(), router, a),
        },
    }
}

#[tactic(auto, unfolding(crate::specs::Surroundings::end_in))]
fn end_in(net: &Net, entry: &Value) -> Option<u32>
    ensures { result ≡ around.end_in net.now.files (view entry.now) }
{
    end_named(net, router_in(net, entry), addr_in(entry, "address"))
}

#[tactic(auto, unfolding(crate::specs::Surroundings::is_later))]
fn is_later(so_far: &[Announcement], end: u32, len: u32) -> bool
    ensures { result ≡ around.is_later so_far.now end len }
{
    match so_far.last() {
        None => true,
        Some(last) => last.end < end || (last.end == end && u32::from(last.len) < len),
    }
}

fn later_length(so_far: &[Announcement], end: u32, entry: &Value) -> Option<u32>
    ensures value { result ≡ passing (around.is_later so_far.now end) (fields.number_in 32 (get (codes "len") (view entry.now))) }
    ensures small { IfSome result (λ n. n ≤ 32) }
{
    match number_in(entry, "len", 32) {
        None => None,
        Some(len) => {
            if is_later(so_far, end, len) {
                Some(len)
            } else {
                None
            }
        }
    }
}

#[tactic(auto, unfolding(crate::specs::Surroundings::asn_of_end))]
fn asn_of_end(net: &Net, at: u32) -> Option<u32>
    ensures { result ≡ around.asn_of_end net.now.files at }
{
    match net.ends().get(at as usize) {
        None => None,
        Some(end) => match neighbour_of(net.routers(), end) {
            None => None,
            Some(neighbour) => Some(neighbour.asn),
        },
    }
}

fn is_first(asn: Option<u32>, path: &[u32]) -> bool
    ensures { result ≡ option_map_or (λ n. option_map_or (λ first. first == n) (slice_get path.now 0) false) asn false }
{
    match asn {
        None => false,
        Some(asn) => match path.first() {
            None => false,
            Some(first) => *first == asn,
        },
    }
}

fn sendable(asn: Option<u32>, path: List<u32>) -> Option<List<u32>>
    ensures { result ≡ (if around.begins_with asn path then Some path else None) }
{
    if path.items.len() > 255 {
        return None;
    }
    if is_first(asn, path.as_slice()) {
        Some(path)
    } else {
        None
    }
}

#[tactic(auto, unfolding(crate::specs::Surroundings::sent_path))]
fn sent_path(
    alloc: Global,
    asn: Option<u32>,
    at: &str,
    entry: &Value,
) -> Result<List<u32>, CexRefused>
    ensures { Reads result (around.sent_path asn at.now (view entry.now)) }
{
    let path = path_in(alloc, at, "path", entry)?;
    required(alloc, at, "path", sendable(asn, path))
}

#[tactic(auto, unfolding(crate::specs::Surroundings::announcement_at))]
fn announcement_at(
    alloc: Global,
    net: &Net,
    so_far: &[Announcement],
    at: &str,
    entry: &Value,
) -> Result<Announcement, CexRefused>
    ensures { Reads result (around.announcement_at net.now.files so_far.now at.now (view entry.now)) }
{
    let end = required(alloc, at, "address", end_in(net, entry))?;
    let communities = ascending_in(alloc, at, "communities", entry)?;
    let len = required(alloc, at, "len", later_length(so_far, end, entry))?;
    let med = required(alloc, at, "med", number_in(entry, "med", u32::MAX))?;
    let origin = origin_in(alloc, at, entry)?;
    let path = sent_path(alloc, asn_of_end(net, end), at, entry)?;
    Ok(Announcement {
        end,
        len: len as u8,
        path,
        med,
        origin,
        communities,
    })
}

#[tactic(auto, unfolding(crate::specs::Surroundings::announcement_step))]
fn take_announcement(
    alloc: Global,
    net: &Net,
    place: usize,
    mut so_far: List<Announcement>,
    entry: &Value,
) -> Result<List<Announcement>, CexRefused>
    ensures { Reads result (around.announcement_step net.now.files place so_far (view entry.now)) }
{
    let at = format!(in alloc; "announcements/{place}/")?;
    let next = announcement_at(alloc, net, so_far.as_slice(), at.as_str(), entry)?;
    so_far.items.push(next)?;
    Ok(so_far)
}

fn take_announcements(
    alloc: Global,
    net: &Net,
    members: &[Value],
) -> Result<List<Announcement>, CexRefused>
    ensures { Reads result (in_order (around.announcement_step net.now.files) 0 [] (items_view members.now)) }
{
    let mut announced = List::new(alloc);
    for (place, entry) in members.iter().enumerate() {
        announced = take_announcement(alloc, net, place, announced, entry)?;
    }
    Ok(announced)
}

/// The announcements of the external peers.
#[tactic(auto, unfolding(crate::specs::Surroundings::announcements_in))]
pub fn announcements_in(
    alloc: Global,
    net: &Net,
    text: &Value,
) -> Result<List<Announcement>, CexRefused>
    ensures { Reads result (around.announcements_in net.now.files (view text.now)) }
{
    let members = members_in(alloc, "", "announcements", text)?;
    take_announcements(alloc, net, members)
}

#[tactic(auto, unfolding(crate::specs::Surroundings::names_end))]
fn names_end(net: &Net, entry: &Value, end: &SessionEnd) -> bool
    ensures { result ≡ around.names_end net.now.files (view entry.now) end.now }
{
    match router_in(net, entry) {
        None => false,
        Some(router) => match addr_in(entry, "address") {
            None => false,
            Some(a) => is_towards(net.routers(), router, a, end),
        },
    }
}

fn wanted_end(net: &Net, ends: &[SessionEnd], place: usize, entry: &Value) -> Option<SessionEnd>
    ensures { result ≡ passing (around.names_end net.now.files (view entry.now)) (slice_get ends.now place) }
{
    match ends.get(place) {
        None => None,
        Some(end) => {
            if names_end(net, entry, end) {
                Some(*end)
            } else {
                None
            }
        }
    }
}

fn has_asn(entry: &Value, asn: u32) -> bool
    ensures { result ≡ option_map_or (λ n. n == asn) (fields.number_in fields.greatest (get (codes "asn") (view entry.now))) false }
{
    match number_in(entry, "asn", u32::MAX) {
        None => false,
        Some(n) => n == asn,
    }
}

#[tactic(auto, unfolding(crate::specs::Surroundings::asn_fits))]
fn asn_fits(files: &[File], format: u32, end: &SessionEnd, entry: &Value) -> bool
    ensures { result ≡ around.asn_fits files.now format end.now (view entry.now) }
{
    if format == 1 {
        return true;
    }
    match neighbour_of(files, end) {
        None => false,
        Some(neighbour) => has_asn(entry, neighbour.asn),
    }
}

fn with_asn(files: &[File], format: u32, end: SessionEnd, entry: &Value) -> Option<SessionEnd>
    ensures { result ≡ (if around.asn_fits files.now format end (view entry.now) then Some end else None) }
{
    if asn_fits(files, format, &end, entry) {
        Some(end)
    } else {
        None
    }
}

#[tactic(auto, unfolding(crate::specs::Surroundings::peer_at))]
fn peer_at(
    alloc: Global,
    net: &Net,
    format: u32,
    ends: &[SessionEnd],
    place: usize,
    at: &str,
    entry: &Value,
) -> Result<Addr, CexRefused>
    ensures { Reads result (around.peer_at net.now.files format (slice_get ends.now place) at.now (view entry.now)) }
{
    let end = required(alloc, at, "address", wanted_end(net, ends, place, entry))?;
    let _known = required(
        alloc,
        at,
        "asn",
        with_asn(net.routers(), format, end, entry),
    )?;
    required(alloc, at, "id", addr_in(entry, "id"))
}

fn next_peer(
    alloc: Global,
    net: &Net,
    format: u32,
    ends: &[SessionEnd],
    place: usize,
    entry: &Value,
) -> Result<Addr, CexRefused>
    ensures { Reads result (around.peer_at net.now.files format (slice_get ends.now place) (entry_path (codes "peers/") place) (view entry.now)) }
{
    let at = format!(in alloc; "peers/{place}/")?;
    peer_at(alloc, net, format, ends, place, at.as_str(), entry)
}

fn take_ids(
    alloc: Global,
    net: &Net,
    format: u32,
    ends: &[SessionEnd],
    members: &[Value],
) -> Result<List<Addr>, CexRefused>
    ensures { Reads result (in_order (around.peer_step net.now.files format ends.now) 0 [] (items_view members.now)) }
{
    let mut ids = List::new(alloc);
    for (place, entry) in members.iter().enumerate() {
        let id = next_peer(alloc, net, format, ends, place, entry)?;
        ids.items.push(id)?;
    }
    Ok(ids)
}

fn all_ids(ids: List<Addr>, count: usize) -> Option<List<Addr>>
    ensures { result ≡ (if length ids == count then Some ids else None) }
{
    if ids.items.len() == count {
        Some(ids)
    } else {
        None
    }
}

fn complete_ids(alloc: Global, ids: List<Addr>, count: usize) -> Result<List<Addr>, CexRefused>
    ensures { Reads result (fields.required (entry_path (codes "peers/") (length ids)) (codes "address")
        (if length ids == count then Some ids else None)) }
{
    let place = ids.items.len();
    let at = format!(in alloc; "peers/{place}/")?;
    required(alloc, at.as_str(), "address", all_ids(ids, count))
}

/// The identifiers of all external peers, in the order of their sessions.
#[tactic(auto, unfolding(crate::specs::Surroundings::ids_in))]
pub fn ids_in(alloc: Global, net: &Net, format: u32, text: &Value) -> Result<List<Addr>, CexRefused>
    ensures { Reads result (around.ids_in net.now.files format (view text.now)) }
{
    let members = members_in(alloc, "", "peers", text)?;
    let ends = external_ends(alloc, net)?;
    let ids = take_ids(alloc, net, format, ends.as_slice(), members)?;
    complete_ids(alloc, ids, ends.len())
}
