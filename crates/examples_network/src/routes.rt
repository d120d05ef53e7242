//! Routes that an order writes, and routes as text.

use crate::page::Page;
use crate::words::{address, cut, number, numbers, parted};
use mw_text::{Addr, List, read_addr};
use route_record::{BgpMsg, BgpRec, Learnt, MapRec, Origin, OspfKind, OspfRec, RibEntry};

/// A path of so many numbers, all 8 but for the 7 at a place.
pub fn path_with(out: &mut Page, len: u32, place: u32) -> List<u32> {
    let mut path = out.none();
    for at in 0..len {
        out.add(&mut path, if at == place { 7 } else { 8 });
    }
    path
}

fn path_of(out: &mut Page, count: u32, number: u32) -> List<u32> {
    let mut path = out.none();
    for _ in 0..count {
        out.add(&mut path, number);
    }
    path
}

/// A route that was learnt from a peer, or originated here.
fn plain(out: &Page, from: Learnt, next_hop: Addr, path: List<u32>) -> BgpRec {
    BgpRec {
        from,
        weight: 0,
        local_pref: 100,
        path,
        origin: Origin::Igp,
        med: 0,
        communities: out.none(),
        next_hop,
        originator: None,
        clusters: out.none(),
    }
}

/// `PATH/COMMUNITIES`: a route of that path and these communities, whose origin is EGP.
pub fn carried(out: &mut Page, text: &str) -> MapRec {
    let (path, communities) = parted(text);
    let path = numbers(out, path);
    let mut bgp = plain(out, Learnt::Local, Addr(1), path);
    bgp.origin = Origin::Egp;
    bgp.communities = numbers(out, communities);
    MapRec { bgp, type1: false }
}

/// `LENGTH AS PEER`, and what follows them: a route that was learnt from a peer, or with `local` in its place a local one.
pub fn held<'a>(out: &mut Page, text: &'a str) -> (BgpRec, &'a str) {
    let (len, rest) = cut(text);
    let (asn, rest) = cut(rest);
    let (from, rest) = cut(rest);
    let path = path_of(out, number(len), number(asn));
    let learnt = if from == "local" {
        Learnt::Local
    } else {
        Learnt::Peer(address(from))
    };
    (plain(out, learnt, address(from), path), rest)
}

/// What may follow a route, a message or a candidate, in words `KEY=WORD`: `weight`, `preference`, `origin`, `med`,
/// `cost` and `session` with a number or a name, `path` and `communities` with numbers, `clusters` and `originator` with
/// addresses.
#[derive(Drop)]
pub struct Others {
    weight: u32,
    preference: Option<u32>,
    origin: Origin,
    med: Option<u32>,
    pub cost: u32,
    pub external: bool,
    path: List<u32>,
    communities: List<u32>,
    clusters: List<Addr>,
    originator: Option<Addr>,
}

/// Addresses with commas between them.
fn addresses(out: &mut Page, text: &str) -> List<Addr> {
    let mut all = out.none();
    for word in text.split(',') {
        out.add(&mut all, address(word));
    }
    all
}

fn origin_named(word: &str) -> Origin {
    match word {
        "egp" => Origin::Egp,
        "incomplete" => Origin::Incomplete,
        _ => Origin::Igp,
    }
}

fn put_word(made: &mut Others, key: &str, word: &str) {
    match key {
        "weight" => made.weight = number(word),
        "preference" => made.preference = Some(number(word)),
        "origin" => made.origin = origin_named(word),
        "cost" => made.cost = number(word),
        "session" => made.external = word == "external",
        "originator" => made.originator = Some(address(word)),
        _ => made.med = Some(number(word)),
    }
}

fn put_other(out: &mut Page, made: &mut Others, key: &str, word: &str) {
    match key {
        "path" => made.path = numbers(out, word),
        "communities" => made.communities = numbers(out, word),
        "clusters" => made.clusters = addresses(out, word),
        _ => put_word(made, key, word),
    }
}

pub fn others_in(out: &mut Page, text: &str) -> Others {
    let mut made = Others {
        weight: 0,
        preference: None,
        origin: Origin::Igp,
        med: None,
        cost: 0,
        external: true,
        path: out.none(),
        communities: out.none(),
        clusters: out.none(),
        originator: None,
    };
    for pair in text.split(' ') {
        if let Some((key, word)) = pair.split_once('=') {
            put_other(out, &mut made, key, word)
        }
    }
    made
}

/// Its path, or where that has no number the other.
fn path_or(path: List<u32>, other: List<u32>) -> List<u32> {
    if path.as_slice().is_empty() {
        other
    } else {
        path
    }
}

/// The route with what follows it.
pub fn with_others(rec: BgpRec, more: Others) -> BgpRec {
    BgpRec {
        from: rec.from,
        weight: more.weight,
        local_pref: more.preference.unwrap_or(rec.local_pref),
        path: path_or(more.path, rec.path),
        origin: more.origin,
        med: more.med.unwrap_or(0),
        communities: more.communities,
        next_hop: rec.next_hop,
        originator: more.originator,
        clusters: more.clusters,
    }
}

/// `LENGTH AS PEER OTHERS`: a route.
pub fn held_with(out: &mut Page, text: &str) -> BgpRec {
    let (rec, rest) = held(out, text);
    let more = others_in(out, rest);
    with_others(rec, more)
}

/// `LENGTH AS NEXT-HOP ORIGINATOR OTHERS`. An originator that is no address is none.
pub fn message(out: &mut Page, text: &str) -> BgpMsg {
    let (len, rest) = cut(text);
    let (asn, rest) = cut(rest);
    let (next_hop, rest) = cut(rest);
    let (originator, rest) = cut(rest);
    let path = path_of(out, number(len), number(asn));
    let more = others_in(out, rest);
    BgpMsg {
        local_pref: more.preference,
        path: path_or(more.path, path),
        origin: more.origin,
        med: more.med,
        communities: more.communities,
        next_hop: address(next_hop),
        originator: read_addr(originator.as_bytes()),
        clusters: more.clusters,
    }
}

fn kind(word: &str) -> OspfKind {
    match word {
        "ext1" => OspfKind::Ext1,
        "ext2" => OspfKind::Ext2,
        _ => OspfKind::Internal,
    }
}

/// `KIND METRIC COST`, and what follows them.
pub fn ospf_record(text: &str) -> (OspfRec, &str) {
    let (first, rest) = cut(text);
    let (metric, rest) = cut(rest);
    let (cost, rest) = cut(rest);
    let rec = OspfRec {
        kind: kind(first),
        metric: number(metric),
        cost: number(cost),
    };
    (rec, rest)
}

fn origin_name(origin: Origin) -> &'static str {
    match origin {
        Origin::Igp => " igp",
        Origin::Egp => " egp",
        Origin::Incomplete => " incomplete",
    }
}

/// The attributes that a route map may set.
pub fn show_map_rec(out: &mut Page, rec: &MapRec) {
    out.number(" preference ", rec.bgp.local_pref);
    out.number(" med ", rec.bgp.med);
    out.number(" weight ", rec.bgp.weight);
    out.put(origin_name(rec.bgp.origin));
    out.flag(" type1", rec.type1);
    out.put(" path");
    out.numbers(rec.bgp.path.as_slice());
    out.put(" communities");
    out.numbers(rec.bgp.communities.as_slice())
}

fn show_from(out: &mut Page, from: Learnt) {
    match from {
        Learnt::Local => out.put(" local"),
        Learnt::Peer(peer) => out.address(" peer ", peer),
    }
}

/// A path by its length, and by its numbers where it has two to eight.
fn show_path(out: &mut Page, path: &[u32]) {
    out.place(" path of ", path.len() as u64);
    if path.len() > 1 && path.len() < 9 {
        for asn in path {
            out.number(" ", *asn);
        }
    }
}

/// Communities, originator and clusters, each where there are any.
fn show_others(out: &mut Page, communities: &[u32], originator: Option<Addr>, clusters: &[Addr]) {
    if communities.len() > 0 {
        out.put(" communities");
        out.numbers(communities);
    }
    if let Some(originator) = originator {
        out.address(" originator ", originator)
    }
    for cluster in clusters {
        out.address(" cluster ", *cluster);
    }
}

/// A BGP route: where it came from, its numbers, its path, and what else it has.
pub fn show_route(out: &mut Page, rec: &BgpRec) {
    show_from(out, rec.from);
    out.number(" weight ", rec.weight);
    out.number(" preference ", rec.local_pref);
    out.put(origin_name(rec.origin));
    out.number(" med ", rec.med);
    show_path(out, rec.path.as_slice());
    out.address(" next hop ", rec.next_hop);
    show_others(
        out,
        rec.communities.as_slice(),
        rec.originator,
        rec.clusters.as_slice(),
    )
}

/// What is sent of a route.
pub fn show_sent(out: &mut Page, sent: &BgpMsg) {
    out.number_if(" preference ", sent.local_pref);
    out.put(origin_name(sent.origin));
    show_path(out, sent.path.as_slice());
    out.address(" next hop ", sent.next_hop);
    out.number_if(" med ", sent.med);
    show_others(
        out,
        sent.communities.as_slice(),
        sent.originator,
        sent.clusters.as_slice(),
    )
}

fn kind_name(kind: OspfKind) -> &'static str {
    match kind {
        OspfKind::Internal => " internal",
        OspfKind::Ext1 => " ext1",
        OspfKind::Ext2 => " ext2",
    }
}

/// An OSPF record as its kind, its metric and its cost.
pub fn show_ospf_record(out: &mut Page, rec: &OspfRec) {
    out.put(kind_name(rec.kind));
    out.number(" ", rec.metric);
    out.number(" ", rec.cost)
}

/// The distance of an entry of a table, or that there is none.
pub fn show_entry(out: &mut Page, entry: Option<RibEntry>) {
    match entry {
        None => out.put(" none"),
        Some(entry) => out.number(" distance ", u32::from(entry.distance)),
    }
}
