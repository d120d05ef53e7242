//! What lists and route maps make of prefixes, communities, paths, packets and routes.

use crate::page::Page;
use crate::routes::{carried, path_with, show_map_rec};
use crate::words::{address, cut, number, numbers, parted, port, prefix, small};
use ios_ast::Policies;
use mw_text::Addr;
use policy_eval::{access_list, as_path_list, community_list, prefix_list, route_map};
use route_record::{MapRec, Packet, Side};

fn permits_prefix(policies: &Policies, item: &str) -> bool {
    match policies.prefix_lists.as_slice().last() {
        Some(list) => prefix_list(list, &prefix(item)),
        None => false,
    }
}

/// Communities with commas between them.
fn permits_communities(out: &mut Page, policies: &Policies, item: &str) -> bool {
    let carried = numbers(out, item);
    match policies.communities.as_slice().last() {
        Some(list) => community_list(list, carried.as_slice()),
        None => false,
    }
}

/// `LENGTH/PLACE`: a path of so many numbers, all 8 but for the 7 at a place.
fn permits_path(out: &mut Page, policies: &Policies, item: &str) -> bool {
    let (len, place) = parted(item);
    let path = path_with(out, number(len), number(place));
    match policies.as_paths.as_slice().last() {
        Some(list) => as_path_list(list, path.as_slice()),
        None => false,
    }
}

/// `SOURCE/PROTOCOL/PORT`.
fn packet(item: &str) -> Packet {
    let (src, rest) = parted(item);
    let (proto, dport) = parted(rest);
    Packet {
        src: address(src),
        dst: Addr(9),
        proto: small(proto),
        sport: 1024,
        dport: port(dport),
    }
}

fn permits_packet(policies: &Policies, item: &str) -> bool {
    match policies.access.as_slice().last() {
        Some(list) => access_list(list, &packet(item)),
        None => false,
    }
}

fn permits(out: &mut Page, policies: &Policies, kind: &str, item: &str) -> bool {
    match kind {
        "prefix" => permits_prefix(policies, item),
        "community" => permits_communities(out, policies, item),
        "path" => permits_path(out, policies, item),
        _ => permits_packet(policies, item),
    }
}

/// What the last list of a kind says of each item.
pub fn show_permitted(out: &mut Page, policies: &Policies, kind: &str, items: &str) {
    for item in items.split_whitespace() {
        let permitted = permits(out, policies, kind, item);
        out.truth(permitted);
    }
}

fn side(word: &str) -> Side {
    match word {
        "external" => Side::External,
        "internal" => Side::Internal,
        _ => Side::Redistribution,
    }
}

fn show_left(out: &mut Page, left: &Option<MapRec>) {
    match left {
        Some(rec) => show_map_rec(out, rec),
        None => out.put(" dropped"),
    }
}

/// What the map at a place makes of the route to 10.1.0.0/16.
fn show_through(out: &mut Page, policies: &Policies, at: u32, side: Side, rec: &MapRec) {
    let Some(map) = policies.maps.as_slice().get(at as usize) else {
        return out.put(" no map");
    };
    let p = prefix("10.1.0.0/16");
    match route_map(out.alloc(), map, policies, &p, rec, side) {
        Ok(left) => show_left(out, &left),
        Err(wanting) => out.note(Err(wanting)),
    }
}

/// `PLACE SIDE PATH/COMMUNITIES`: what the map at a place makes of a route with that path and these communities.
pub fn show_mapped(out: &mut Page, policies: &Policies, order: &str) {
    let (at, rest) = cut(order);
    let (to, route) = cut(rest);
    let rec = carried(out, route);
    show_through(out, policies, number(at), side(to), &rec)
}
