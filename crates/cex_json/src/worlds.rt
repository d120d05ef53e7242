//! The JSON values of failed links, external peers and their announcements.

ghost use Rattle.std.specs.Prelude.{◌≡◌, IfOk, map, option_map, slice_get, string_bytes};
ghost use Rattle.net_parts.specs.Sessions as sessions;
ghost use Rattle.net_parts.specs.World.{links_of};
ghost use Rattle.serde_json.specs.View.{view};
ghost use Rattle.cex_json.specs.Worlds as worlds;

use crate::parts::{addr_string, addr_value, router_name, text_value};
use crate::routes::{number_values, origin_value};
use ios_ast::File;
use mw_text::{Addr, Prefix};
use net_model::{Link, Net, SessionEnd};
use net_parts::ends::{is_outside, neighbour_of};
use route_record::Announcement;
use serde_json::{Value, json};
use std::alloc::{AllocError, Global};

#[tactic(auto, unfolding(crate::specs::Worlds::prefix_text))]
fn prefix_string(alloc: Global, p: &Prefix) -> Result<String, AllocError>
    ensures { IfOk result (λ text. string_bytes text ≡ worlds.prefix_text p.now) }
{
    let addr = addr_string(alloc, p.addr)?;
    let len = p.len;
    format!(in alloc; "{addr}/{len}")
}

fn link_string(alloc: Global, links: &[Link], at: u32) -> Result<String, AllocError>
    ensures { IfOk result (λ text. string_bytes text ≡ worlds.link_text links.now at) }
{
    match links.get(at as usize) {
        None => Ok(String::new(alloc)),
        Some(link) => prefix_string(alloc, &link.prefix),
    }
}

fn link_value(alloc: Global, links: &[Link], at: u32) -> Result<Value, AllocError>
    ensures { IfOk result (λ value. view value ≡ worlds.link_data links.now at) }
{
    Ok(Value::String(link_string(alloc, links, at)?))
}

/// The failed links.
pub fn failure_values(alloc: Global, net: &Net, failed: &[u32]) -> Result<Vec<Value>, AllocError>
    ensures { IfOk result (λ values. map view values.items ≡ map (worlds.link_data (links_of net.now.files)) failed.now) }
{
    let links = net.links();
    let mut values = Vec::new(alloc);
    for at in failed {
        values.push(link_value(alloc, links, *at)?)?;
    }
    Ok(values)
}

fn peer_string(alloc: Global, files: &[File], end: &SessionEnd) -> Result<String, AllocError>
    ensures { IfOk result (λ text. string_bytes text ≡ worlds.peer_text files.now end.now) }
{
    match neighbour_of(files, end) {
        None => Ok(String::new(alloc)),
        Some(neighbour) => addr_string(alloc, neighbour.addr),
    }
}

fn peer_asn(files: &[File], end: &SessionEnd) -> u32
    ensures { result ≡ worlds.peer_asn files.now end.now }
{
    match neighbour_of(files, end) {
        None => 0,
        Some(neighbour) => neighbour.asn,
    }
}

#[tactic(auto, unfolding(crate::specs::Worlds::peer_data))]
fn peer_value(
    alloc: Global,
    files: &[File],
    end: &SessionEnd,
    id: Addr,
) -> Result<Value, AllocError>
    ensures { IfOk result (λ value. view value ≡ worlds.peer_data files.now end.now id) }
{
    let address = peer_string(alloc, files, end)?;
    let id = addr_value(alloc, id)?;
    let router = text_value(alloc, router_name(files, end.router as usize))?;
    let asn = peer_asn(files, end);
    json!(in alloc; {"address": address, "asn": asn, "id": id, "router": router})
}

/// The ends towards external peers.
pub fn external_ends(alloc: Global, net: &Net) -> Result<Vec<SessionEnd>, AllocError>
    ensures { IfOk result (λ ends. ends.items ≡ sessions.external_ends net.now.files) }
{
    net.ends()
        .iter()
        .copied()
        .filter(|end| is_outside(end))
        .collect(alloc)
}

// The value of a peer, where there is an identifier at its place.
fn peer_at(
    alloc: Global,
    files: &[File],
    end: &SessionEnd,
    ids: &[Addr],
    at: usize,
) -> Result<Option<Value>, AllocError>
    ensures { IfOk result (λ value. option_map view value ≡ option_map (worlds.peer_data files.now end.now) (slice_get ids.now at)) }
{
    match ids.get(at) {
        None => Ok(None),
        Some(id) => Ok(Some(peer_value(alloc, files, end, *id)?)),
    }
}

fn peers_of(
    alloc: Global,
    files: &[File],
    ends: &[SessionEnd],
    ids: &[Addr],
) -> Result<Vec<Value>, AllocError>
    ensures { IfOk result (λ values. map view values.items ≡ worlds.peers_from files.now ids.now 0 ends.now) }
{
    let mut values = Vec::new(alloc);
    for (at, end) in ends.iter().enumerate() {
        if let Some(value) = peer_at(alloc, files, end, ids, at)? {
            values.push(value)?;
        }
    }
    Ok(values)
}

/// All external peers, with the identifiers that they have.
pub fn peer_values(alloc: Global, net: &Net, ids: &[Addr]) -> Result<Vec<Value>, AllocError>
    ensures { IfOk result (λ values. map view values.items ≡ worlds.peers_from net.now.files ids.now 0 (sessions.external_ends net.now.files)) }
{
    let ends = external_ends(alloc, net)?;
    peers_of(alloc, net.routers(), ends.as_slice(), ids)
}

fn end_address(alloc: Global, net: &Net, at: u32) -> Result<String, AllocError>
    ensures { IfOk result (λ text. string_bytes text ≡ worlds.end_address net.now.files at) }
{
    match net.ends().get(at as usize) {
        None => Ok(String::new(alloc)),
        Some(end) => peer_string(alloc, net.routers(), end),
    }
}

fn end_router(net: &Net, at: u32) -> &[u8]
    ensures { result.now ≡ worlds.end_router net.entry.now.files at }
{
    match net.ends().get(at as usize) {
        None => b"",
        Some(end) => router_name(net.routers(), end.router as usize),
    }
}

#[tactic(auto, unfolding(crate::specs::Worlds::announcement_data))]
fn announcement_value(
    alloc: Global,
    net: &Net,
    announcement: &Announcement,
) -> Result<Value, AllocError>
    ensures { IfOk result (λ value. view value ≡ worlds.announcement_data net.now.files announcement.now) }
{
    let address = end_address(alloc, net, announcement.end)?;
    let communities = number_values(alloc, announcement.communities.as_slice())?;
    let origin = origin_value(alloc, announcement.origin)?;
    let path = number_values(alloc, announcement.path.as_slice())?;
    let router = text_value(alloc, end_router(net, announcement.end))?;
    json!(in alloc; {
        "address": address,
        "communities": communities,
        "len": announcement.len,
        "med": announcement.med,
        "origin": origin,
        "path": path,
        "router": router
    })
}

/// All announcements.
pub fn announcement_values(
    alloc: Global,
    net: &Net,
    announced: &[Announcement],
) -> Result<Vec<Value>, AllocError>
    ensures { IfOk result (λ values. map view values.items ≡ map (worlds.announcement_data net.now.files) announced.now) }
{
    let mut values = Vec::new(alloc);
    for announcement in announced {
        values.push(announcement_value(alloc, net, announcement)?)?;
    }
    Ok(values)
}
