//! What lines say of a BGP process.

ghost use Rattle.std.specs.Prelude.{◌≡◌, ◌==◌, ◌&&◌, ◌+◌, ◌<◌, IfOk, count_by};
ghost use Rattle.std.specs.List.{list_any};
ghost use Rattle.ios_policy_reader.specs.Said.{tag_number, number_in};
ghost use Rattle.ios_reader.specs.Bgp.{new_bgp, class_length, network_prefix, network_of, is_match, has_match, external_alone, into_bgp, new_neighbour};

use crate::names::{map_said, mask_length_said};
use crate::ospf::{metric_said, source_said};
use ios_ast::{Bgp, BgpNet, Neighbour, Redist};
use ios_policy_reader::said::{address_said_under, is_said, is_under, number_said};
use ios_policy_reader::{Said, Tag, Value};
use mw_text::{Addr, Line, List, Prefix, prefix_of};
use std::alloc::{AllocError, Global};

/// A BGP process of which only the number of its autonomous system is read.
pub fn bgp_process(alloc: Global, line: u32, asn: u32) -> Bgp
    ensures { result ≡ new_bgp line asn }
{
    Bgp {
        line,
        asn,
        router_id: None,
        always_compare: false,
        compare_routerid: false,
        networks: List::new(alloc),
        redistribute: List::new(alloc),
        neighbours: List::new(alloc),
    }
}

/// The length of the mask of an address's class, A, B or C. That of 0.0.0.0 is 0.
fn length_of_class(address: Addr) -> u8
    ensures { result ≡ class_length address }
{
    if address.0 == 0 {
        0
    } else if address.0 < 0x8000_0000 {
        8
    } else if address.0 < 0xc000_0000 {
        16
    } else {
        24
    }
}

/// The prefix of a `network` line, under its mask or that of the address's class.
fn prefix_said(said: &[Said]) -> Prefix
    ensures { result ≡ network_prefix said.now }
{
    let address = address_said_under(Tag::Address, said, Addr(0));
    let len = mask_length_said(Tag::Length, said, length_of_class(address));
    prefix_of(address, len)
}

/// A `network` line of a BGP block.
pub fn bgp_network(alloc: Global, line: &Line, said: &[Said]) -> Result<BgpNet, AllocError>
    ensures { IfOk result (λ network. network ≡ network_of line.now said.now) }
{
    let map = map_said(alloc, said, line)?;
    Ok(BgpNet {
        line: line.number,
        prefix: prefix_said(said),
        map,
    })
}

/// The kind of OSPF routes that this names by its number in the tables, or 4.
fn number_of_kind(value: Value) -> u32
    ensures { result ≡ number_in 4 value }
{
    match value {
        Value::Number(number) => number,
        _ => 4,
    }
}

/// Whether this names the kind of OSPF routes with that number in the tables.
fn names_kind(kind: u32, said: Said) -> bool
    ensures { result ≡ is_match kind said }
{
    is_under(Tag::Match, said) && number_of_kind(said.value) == kind
}

/// Whether the line names the kind of OSPF routes.
fn is_kind_said(kind: u32, said: &[Said]) -> bool
    ensures { result ≡ has_match kind said.now }
{
    said.iter().any(|one| names_kind(kind, *one))
}

/// How often the line names the kind of OSPF routes.
fn count_kind(kind: u32, said: &[Said]) -> usize
    ensures { result ≡ count_by (is_match kind) said.now }
{
    said.iter().filter(|one| names_kind(kind, **one)).count()
}

/// Whether some `external` has no number after it, and so names both types.
fn is_external_alone(said: &[Said]) -> bool
    ensures { result ≡ external_alone said.now }
{
    let all = count_kind(3, said) as u128;
    let first = count_kind(1, said) as u128;
    let second = count_kind(2, said) as u128;
    first + second < all
}

/// A `redistribute` line of a BGP block. Of OSPF routes it takes the kinds that it names, or internal ones.
pub fn redistribution(alloc: Global, line: &Line, said: &[Said]) -> Result<Redist, AllocError>
    ensures { IfOk result (λ redist. redist ≡ into_bgp line.now said.now) }
{
    let map = map_said(alloc, said, line)?;
    let both = is_external_alone(said);
    Ok(Redist {
        line: line.number,
        source: source_said(said),
        metric: metric_said(said),
        type1: false,
        subnets: false,
        internal: !is_said(Tag::Match, said) || is_kind_said(0, said),
        ext1: both || is_kind_said(1, said),
        ext2: both || is_kind_said(2, said),
        map,
    })
}

/// A neighbour of which only the address and the autonomous system are read.
pub fn neighbour_named(line: u32, said: &[Said]) -> Neighbour
    ensures { result ≡ new_neighbour line said.now }
{
    Neighbour {
        line,
        addr: address_said_under(Tag::Address, said, Addr(0)),
        asn: number_said(Tag::Number, said, 0),
        source: None,
        next_hop_self: false,
        client: false,
        send_community: false,
        weight: 0,
        shutdown: false,
        prefix_in: None,
        prefix_out: None,
        filter_in: None,
        filter_out: None,
        map_in: None,
        map_out: None,
    }
}
