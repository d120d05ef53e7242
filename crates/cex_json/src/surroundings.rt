//! The packet, the failed links, the announcements and the external peers, as they are read.

ghost use Rattle.std.specs.Prelude.{◌≡◌, ◌≢◌, ◌≤◌, ◌∷◌, ◌++◌, ◌==◌, ◌&&◌, ◌||◌, true, [], Some, None, Ok, Err, IfSome, codes, length, nat_le, option_and_then, option_map, position, slice_get, if◌then◌else◌};
ghost use Rattle.std.specs.Option.{option_map_or};
ghost use Rattle.mw_text.specs.Address.{covers, same_prefix};
ghost use Rattle.net_parts.specs.Sessions.{ends_of, external_ends as outer_ends};
ghost use Rattle.net_parts.specs.World.{links_of};
ghost use Rattle.serde_json.specs.View.{view, items_view};
ghost use Rattle.serde_json.specs.Find.{get};
ghost use Rattle.cex_json.specs.Fields as fields;
ghost use Rattle.cex_json.specs.Fields.{Reads, in_order, passing};
ghost use Rattle.cex_json.specs.Surroundings as around;

use crate::fields::{
    addr_in, bad_field, if_above, members_in, number_in, place_of, required, text_of,
};
use crate::refused::CexRefused;
use crate::slots::check_object;
use mw_text::{Addr, List, Prefix, contains, read_prefix};
use net_model::{Link, Net};
use question_lang::PacketSet;
use route_record::Packet;
use serde_json::Value;
use std::alloc::Global;

fn has_ports(proto: Option<u32>) -> bool
    ensures { result ≡ around.has_ports proto }
{
    match proto {
        None => true,
        Some(proto) => proto == 6 || proto == 17,
    }
}

fn is_in_range(range: Option<(u16, u16)>, n: u32) -> bool
    ensures { result ≡ option_map_or (λ r. nat_le r.0 n && nat_le n r.1) range true }
{
    match range {
        None => true,
        Some((low, high)) => u32::from(low) <= n && n <= u32::from(high),
    }
}

fn is_port(proto: Option<u32>, range: Option<(u16, u16)>, n: u32) -> bool
    ensures { result ≡ around.is_port proto range n }
{
    if n != 0 {
        if !has_ports(proto) {
            return false;
        }
    }
    is_in_range(range, n)
}

#[tactic(auto, unfolding(crate::specs::Surroundings::port_in))]
fn port_in(proto: Option<u32>, range: Option<(u16, u16)>, part: &Value, name: &str) -> Option<u32>
    ensures value { result ≡ around.port_in proto range (get name.now (view part.now)) }
    ensures small { IfSome result (λ n. n ≤ 65535) }
{
    match number_in(part, name, 65535) {
        None => None,
        Some(n) => {
            if is_port(proto, range, n) {
                Some(n)
            } else {
                None
            }
        }
    }
}

fn proto_fits(set: &Option<PacketSet>, n: u32) -> bool
    ensures { result ≡ around.proto_fits set.now n }
{
    match set {
        None => true,
        Some(set) => match set.proto {
            None => true,
            Some(wanted) => u32::from(wanted) == n,
        },
    }
}

#[tactic(auto, unfolding(crate::specs::Surroundings::proto_in))]
fn proto_in(set: &Option<PacketSet>, part: &Value) -> Option<u32>
    ensures value { result ≡ around.proto_in set.now (view part.now) }
    ensures small { IfSome result (λ n. n ≤ 255) }
{
    match number_in(part, "proto", 255) {
        None => None,
        Some(n) => { if proto_fits(set, n) { Some(n) } else { None } }
    }
}

fn is_under(prefix: &Option<Prefix>, a: Addr) -> bool
    ensures { result ≡ option_map_or (λ p. covers p a) prefix.now true }
{
    match prefix {
        None => true,
        Some(prefix) => contains(prefix, a),
    }
}

#[tactic(auto, unfolding(crate::specs::Surroundings::addr_under))]
fn addr_under(prefix: &Option<Prefix>, part: &Value, name: &str) -> Option<Addr>
    ensures { result ≡ around.addr_under prefix.now (get name.now (view part.now)) }
{
    match addr_in(part, name) {
        None => None,
        Some(a) => { if is_under(prefix, a) { Some(a) } else { None } }
    }
}

// The ranges of a set, where there is one.
#[derive(Clone, Copy)]
struct Ranges {
    dport: Option<(u16, u16)>,
    dst: Option<Prefix>,
    sport: Option<(u16, u16)>,
    src: Option<Prefix>,
}

fn ranges_of(set: &Option<PacketSet>) -> Ranges
    ensures dport { result.dport ≡ option_map (λ s. s.dport) set.now }
    ensures dst { result.dst ≡ option_map (λ s. s.dst) set.now }
    ensures sport { result.sport ≡ option_map (λ s. s.sport) set.now }
    ensures src { result.src ≡ option_map (λ s. s.src) set.now }
{
    match set {
        None => Ranges {
            dport: None,
            dst: None,
            sport: None,
            src: None,
        },
        Some(set) => Ranges {
            dport: Some(set.dport),
            dst: Some(set.dst),
            sport: Some(set.sport),
            src: Some(set.src),
        },
    }
}

#[tactic(auto, unfolding(crate::specs::Surroundings::packet_at))]
fn packet_at(
    alloc: Global,
    set: &Option<PacketSet>,
    at: &str,
    part: &Value,
) -> Result<Packet, CexRefused>
    ensures { Reads result (around.packet_at set.now at.now (view part.now)) }
{
    let ranges = ranges_of(set);
    let known = proto_in(set, part);
    let dport = required(
        alloc,
        at,
        "dport",
        port_in(known, ranges.dport, part, "dport"),
    )?;
    let dst = required(alloc, at, "dst", addr_under(&ranges.dst, part, "dst"))?;
    let proto = required(alloc, at, "proto", known)?;
    let sport = required(
        alloc,
        at,
        "sport",
        port_in(known, ranges.sport, part, "sport"),
    )?;
    let src = required(alloc, at, "src", addr_under(&ranges.src, part, "src"))?;
    Ok(Packet {
        src,
        dst,
        proto: proto as u8,
        sport: sport as u16,
        dport: dport as u16,
    })
}

/// The packet, inside the set where there is one.
pub fn packet_in(alloc: Global, set: &Option<PacketSet>, text: &Value) -> Result<Packet, CexRefused>
    ensures { Reads result (around.packet_in set.now (view text.now)) }
{
    match text.get("packet") {
        None => Err(bad_field(alloc, "", "packet")),
        Some(part) => {
            check_object(alloc, "", "packet", part)?;
            packet_at(alloc, set, "packet/", part)
        }
    }
}

fn is_same(p: &Prefix, q: &Prefix) -> bool
    ensures { result ≡ same_prefix p.now q.now }
{
    p.addr.0 == q.addr.0 && p.len == q.len
}

fn position_of(links: &[Link], p: &Prefix) -> Option<usize>
    ensures { result ≡ position (λ link. same_prefix p.now link.prefix) links.now }
{
    links.iter().position(|link| is_same(p, &link.prefix))
}

#[tactic(auto, unfolding(crate::specs::Fields::place_of))]
fn link_place(links: &[Link], p: &Prefix) -> Option<u32>
    ensures { result ≡ fields.place_of (position (λ link. same_prefix p.now link.prefix) links.now) }
{
    match position_of(links, p) {
        None => None,
        Some(at) => place_of(at),
    }
}

fn link_named(links: &[Link], word: &[u8]) -> Option<u32>
    ensures { result ≡ around.link_named links.now word.now }
{
    match read_prefix(word) {
        None => None,
        Some(p) => link_place(links, &p),
    }
}

fn link_of(links: &[Link], value: &Value) -> Option<u32>
    ensures { result ≡ option_and_then (around.link_named links.now) (fields.text_in (Some (view value.now))) }
{
    match text_of(value) {
        None => None,
        Some(word) => link_named(links, word),
    }
}

fn next_link(so_far: &[u32], links: &[Link], value: &Value) -> Option<u32>
    ensures { result ≡ passing (fields.is_above so_far.now)
        (option_and_then (around.link_named links.now) (fields.text_in (Some (view value.now)))) }
{
    match link_of(links, value) {
        None => None,
        Some(at) => if_above(so_far, at),
    }
}

fn take_links(alloc: Global, links: &[Link], members: &[Value]) -> Result<List<u32>, CexRefused>
    ensures { Reads result (in_order (around.link_step links.now) 0 [] (items_view members.now)) }
{
    let mut places = List::new(alloc);
    for member in members {
        let at = required(
            alloc,
            "",
            "failures",
            next_link(places.as_slice(), links, member),
        )?;
        places.items.push(at)?;
    }
    Ok(places)
}

fn is_few(count: usize, most: Option<u32>) -> bool
    ensures { result ≡ option_map_or (nat_le count) most true }
{
    match most {
        None => true,
        Some(most) => count <= most as usize,
    }
}

fn few_links(links: List<u32>, most: Option<u32>) -> Option<List<u32>>
    ensures { result ≡ (if option_map_or (nat_le (length links)) most true then Some links else None) }
{
    if is_few(links.items.len(), most) {
        Some(links)
    } else {
        None
    }
}

/// The failed links, at most so many where there is a most.
#[tactic(auto, unfolding(crate::specs::Surroundings::failures_in))]
pub fn failures_in(
    alloc: Global,
    net: &Net,
    most: Option<u32>,
    text: &Value,
) -> Result<List<u32>, CexRefused>
    ensures { Reads result (around.failures_in net.now.files most (view text.now)) }
{
    let members = members_in(alloc, "", "failures", text)?;
    let links = take_links(alloc, net.links(), members)?;
    required(alloc, "", "failures", few_links(links, most))
}
