//! What the words of a line say, as the entry of a list.

ghost use Rattle.std.specs.Prelude.{◌≡◌, IfOk};
ghost use Rattle.ios_policy_reader.specs.Entries.{permits, prefix_entry, path_entry, community_entry, map_entry, wild_under, ports_by, ports_under, protocol_in, access_entry};
ghost use Rattle.ios_policy_reader.specs.Said.{number_under};
ghost use Rattle.ios_policy_reader.specs.declared.said.Tag.TheVariants.{Protocol};

use crate::said::{Said, Tag, address_said_under, is_said, last_pattern, last_prefix, number_said};
use crate::values::numbers_said;
use ios_ast::{AccessEntry, AsPathEntry, CommunityEntry, MapEntry, Ports, PrefixEntry, Wild};
use mw_text::{Addr, List};
use std::alloc::{AllocError, Global};

/// Whether the line permits.
fn is_permit(said: &[Said]) -> bool
    ensures { result ≡ permits said.now }
{
    number_said(Tag::Action, said, 0) == 1
}

/// The entry of a prefix list, at its line and with its sequence number: the lengths from `ge` to `le` inside the prefix,
/// from `ge` to 32 without `le`, from the prefix's own to `le` without `ge`, and that one alone without both.
pub fn prefix_list_entry(line: u32, seq: u32, said: &[Said]) -> PrefixEntry
    ensures { result ≡ prefix_entry line seq said.now }
{
    let prefix = last_prefix(said);
    let own = u32::from(prefix.len);
    let widest = if is_said(Tag::Low, said) { 32 } else { own };
    let low = number_said(Tag::Low, said, own);
    let high = number_said(Tag::High, said, widest);
    PrefixEntry {
        line,
        seq,
        permit: is_permit(said),
        prefix,
        low: low.min(255) as u8,
        high: high.min(255) as u8,
    }
}

/// The entry of an AS-path list, at its line.
pub fn as_path_entry(line: u32, said: &[Said]) -> AsPathEntry
    ensures { result ≡ path_entry line said.now }
{
    AsPathEntry {
        line,
        permit: is_permit(said),
        pattern: last_pattern(said),
    }
}

/// The entry of a community list, at its line.
pub fn community_list_entry(
    alloc: Global,
    line: u32,
    said: &[Said],
) -> Result<CommunityEntry, AllocError>
    ensures { IfOk result (λ entry. entry ≡ community_entry line said.now) }
{
    Ok(CommunityEntry {
        line,
        permit: is_permit(said),
        values: numbers_said(alloc, Tag::Community, said)?,
    })
}

/// The entry of a route map, at its line.
pub fn route_map_entry(alloc: Global, line: u32, said: &[Said]) -> MapEntry
    ensures { result ≡ map_entry line said.now }
{
    MapEntry {
        line,
        seq: number_said(Tag::Sequence, said, 0),
        permit: is_permit(said),
        matches: List::new(alloc),
        sets: List::new(alloc),
    }
}

/// The addresses at an end of packets: any where none was said, and that one alone where no wildcard was.
fn wild_said(addr: Tag, wild: Tag, said: &[Said]) -> Wild
    ensures { result ≡ wild_under addr wild said.now }
{
    if is_said(addr, said) {
        Wild {
            addr: address_said_under(addr, said, Addr(0)),
            wild: address_said_under(wild, said, Addr(0)).0,
        }
    } else {
        Wild {
            addr: Addr(0),
            wild: 0xffff_ffff,
        }
    }
}

/// The ports that a test takes: `eq`, `neq`, `lt` and `gt` by their numbers in the tables, else `range`.
fn ports_of_test(test: u32, port: u16, top: u16) -> Ports
    ensures { result ≡ ports_by test port top }
{
    match test {
        0 => Ports::Range(port, port),
        1 => Ports::Not(port),
        2 if port == 0 => Ports::Empty,
        2 => Ports::Range(0, port - 1),
        3 if port == 65_535 => Ports::Empty,
        3 => Ports::Range(port + 1, 65_535),
        _ => Ports::Range(port, top),
    }
}

/// The ports at an end of packets.
fn ports_said(test: Tag, port: Tag, top: Tag, said: &[Said]) -> Ports
    ensures { result ≡ ports_under test port top said.now }
{
    if is_said(test, said) {
        ports_of_test(
            number_said(test, said, 0),
            number_said(port, said, 0).min(65_535) as u16,
            number_said(top, said, 0).min(65_535) as u16,
        )
    } else {
        Ports::Any
    }
}

/// The protocol of an entry, or every one.
fn protocol_said(said: &[Said]) -> Option<u8>
    ensures { result ≡ protocol_in (number_under Protocol said.now 256) }
{
    let protocol = number_said(Tag::Protocol, said, 256);
    if protocol < 256 {
        Some(protocol as u8)
    } else {
        None
    }
}

/// The entry of an access list, at its line.
pub fn access_list_entry(line: u32, said: &[Said]) -> AccessEntry
    ensures { result ≡ access_entry line said.now }
{
    AccessEntry {
        line,
        permit: is_permit(said),
        proto: protocol_said(said),
        src: wild_said(Tag::Source, Tag::SourceWild, said),
        sport: ports_said(Tag::SourceTest, Tag::SourcePort, Tag::SourceTop, said),
        dst: wild_said(Tag::Target, Tag::TargetWild, said),
        dport: ports_said(Tag::TargetTest, Tag::TargetPort, Tag::TargetTop, said),
    }
}
