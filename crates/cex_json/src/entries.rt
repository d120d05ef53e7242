//! Records and entries of the routing table, as they are read.

ghost use Rattle.std.specs.Prelude.{◌≡◌, codes, option_and_then, option_map};
ghost use Rattle.std.specs.List.{list_any};
ghost use Rattle.net_parts.specs.Exports as exports;
ghost use Rattle.net_parts.specs.Sessions.{ends_of};
ghost use Rattle.serde_json.specs.View.{view};
ghost use Rattle.serde_json.specs.Find.{get};
ghost use Rattle.cex_json.specs.Fields.{Reads, text_in as text_of};
ghost use Rattle.cex_json.specs.Entries as entries;

use crate::fields::{
    addr_in, addr_or_absent, addrs_in, ascending_in, number_in, path_in, required, text_in,
};
use crate::refused::CexRefused;
use ios_ast::File;
use mw_text::{Addr, List, read_addr, same_bytes};
use net_model::{Net, SessionEnd};
use net_parts::ends::is_towards;
use route_record::{BgpRec, Learnt, Origin, OspfKind, OspfRec, RibEntry, RibSource};
use serde_json::Value;
use std::alloc::Global;

fn kind_named(word: &[u8]) -> Option<OspfKind>
    ensures { result ≡ entries.kind_named word.now }
{
    if same_bytes(word, b"internal") {
        return Some(OspfKind::Internal);
    }
    if same_bytes(word, b"ext1") {
        return Some(OspfKind::Ext1);
    }
    if same_bytes(word, b"ext2") {
        return Some(OspfKind::Ext2);
    }
    None
}

fn kind_in(part: &Value) -> Option<OspfKind>
    ensures { result ≡ option_and_then entries.kind_named (text_of (get (codes "kind") (view part.now))) }
{
    match text_in(part, "kind") {
        None => None,
        Some(word) => kind_named(word),
    }
}

/// An OSPF record.
#[tactic(auto, unfolding(crate::specs::Entries::ospf_in))]
pub fn ospf_in(alloc: Global, at: &str, part: &Value) -> Result<OspfRec, CexRefused>
    ensures { Reads result (entries.ospf_in at.now (view part.now)) }
{
    let cost = required(alloc, at, "cost", number_in(part, "cost", u32::MAX))?;
    let kind = required(alloc, at, "kind", kind_in(part))?;
    let metric = required(alloc, at, "metric", number_in(part, "metric", u32::MAX))?;
    Ok(OspfRec { kind, metric, cost })
}

fn source_named(word: &[u8]) -> Option<RibSource>
    ensures { result ≡ entries.source_named word.now }
{
    if same_bytes(word, b"connected") {
        return Some(RibSource::Connected);
    }
    if same_bytes(word, b"static") {
        return Some(RibSource::Static);
    }
    if same_bytes(word, b"ebgp") {
        return Some(RibSource::Ebgp);
    }
    if same_bytes(word, b"ospf") {
        return Some(RibSource::Ospf);
    }
    if same_bytes(word, b"ibgp") {
        return Some(RibSource::Ibgp);
    }
    None
}

fn source_in(part: &Value) -> Option<RibSource>
    ensures { result ≡ option_and_then entries.source_named (text_of (get (codes "source") (view part.now))) }
{
    match text_in(part, "source") {
        None => None,
        Some(word) => source_named(word),
    }
}

/// An entry of the routing table.
#[tactic(auto, unfolding(crate::specs::Entries::rib_in))]
pub fn rib_in(alloc: Global, at: &str, part: &Value) -> Result<RibEntry, CexRefused>
    ensures { Reads result (entries.rib_in at.now (view part.now)) }
{
    let distance = required(alloc, at, "distance", number_in(part, "distance", 255))?;
    let source = required(alloc, at, "source", source_in(part))?;
    Ok(RibEntry {
        source,
        distance: distance as u8,
    })
}

fn origin_named(word: &[u8]) -> Option<Origin>
    ensures { result ≡ entries.origin_named word.now }
{
    if same_bytes(word, b"igp") {
        return Some(Origin::Igp);
    }
    if same_bytes(word, b"egp") {
        return Some(Origin::Egp);
    }
    if same_bytes(word, b"incomplete") {
        return Some(Origin::Incomplete);
    }
    None
}

fn origin_word(part: &Value) -> Option<Origin>
    ensures { result ≡ option_and_then entries.origin_named (text_of (get (codes "origin") (view part.now))) }
{
    match text_in(part, "origin") {
        None => None,
        Some(word) => origin_named(word),
    }
}

/// The ORIGIN of a route.
pub fn origin_in(alloc: Global, at: &str, part: &Value) -> Result<Origin, CexRefused>
    ensures { Reads result (entries.origin_in at.now (view part.now)) }
{
    required(alloc, at, "origin", origin_word(part))
}

/// The router that the field `router` names.
#[tactic(auto, unfolding(crate::specs::Entries::router_in))]
pub fn router_in(net: &Net, part: &Value) -> Option<u32>
    ensures { result ≡ entries.router_in net.now.files (view part.now) }
{
    match text_in(part, "router") {
        None => None,
        Some(name) => net.router_named(name),
    }
}

fn has_neighbour(files: &[File], ends: &[SessionEnd], router: u32, a: Addr) -> bool
    ensures { result ≡ list_any (exports.is_towards files.now router a) ends.now }
{
    ends.iter().any(|end| is_towards(files, router, a, end))
}

fn is_neighbour(net: &Net, router: Option<u32>, a: Addr) -> bool
    ensures { result ≡ entries.is_neighbour net.now.files router a }
{
    match router {
        None => true,
        Some(router) => has_neighbour(net.routers(), net.ends(), router, a),
    }
}

fn learnt_named(net: &Net, router: Option<u32>, word: &[u8]) -> Option<Learnt>
    ensures { result ≡ entries.learnt_named net.now.files router word.now }
{
    if same_bytes(word, b"local") {
        return Some(Learnt::Local);
    }
    match read_addr(word) {
        None => None,
        Some(a) => {
            if is_neighbour(net, router, a) {
                Some(Learnt::Peer(a))
            } else {
                None
            }
        }
    }
}

fn learnt_in(net: &Net, router: Option<u32>, part: &Value) -> Option<Learnt>
    ensures { result ≡ option_and_then (entries.learnt_named net.now.files router) (text_of (get (codes "from") (view part.now))) }
{
    match text_in(part, "from") {
        None => None,
        Some(word) => learnt_named(net, router, word),
    }
}

// The first five fields of a BGP record.
#[derive(Drop)]
struct BgpFront {
    clusters: List<Addr>,
    communities: List<u32>,
    from: Learnt,
    local_pref: u32,
    med: u32,
}

#[tactic(auto, unfolding(crate::specs::Entries::front_in))]
fn front_in(
    alloc: Global,
    net: &Net,
    router: Option<u32>,
    at: &str,
    part: &Value,
) -> Result<BgpFront, CexRefused>
    ensures { Reads result (entries.front_in net.now.files router at.now (view part.now)) }
{
    let clusters = addrs_in(alloc, at, "clusters", part)?;
    let communities = ascending_in(alloc, at, "communities", part)?;
    let from = required(alloc, at, "from", learnt_in(net, router, part))?;
    let local_pref = required(
        alloc,
        at,
        "localpref",
        number_in(part, "localpref", u32::MAX),
    )?;
    let med = required(alloc, at, "med", number_in(part, "med", u32::MAX))?;
    Ok(BgpFront {
        clusters,
        communities,
        from,
        local_pref,
        med,
    })
}

/// A BGP record of a router.
#[tactic(auto, unfolding(crate::specs::Entries::bgp_in))]
pub fn bgp_in(
    alloc: Global,
    net: &Net,
    router: Option<u32>,
    at: &str,
    part: &Value,
) -> Result<BgpRec, CexRefused>
    ensures { Reads result (entries.bgp_in net.now.files router at.now (view part.now)) }
{
    let front = front_in(alloc, net, router, at, part)?;
    let next_hop = required(alloc, at, "nexthop", addr_in(part, "nexthop"))?;
    let origin = origin_in(alloc, at, part)?;
    let originator = required(alloc, at, "originator", addr_or_absent(part, "originator"))?;
    let path = path_in(alloc, at, "path", part)?;
    let weight = required(alloc, at, "weight", number_in(part, "weight", u32::MAX))?;
    Ok(BgpRec {
        from: front.from,
        weight,
        local_pref: front.local_pref,
        path,
        origin,
        med: front.med,
        communities: front.communities,
        next_hop,
        originator,
        clusters: front.clusters,
    })
}
