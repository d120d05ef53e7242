//! Access lists.

ghost use Rattle.std.specs.Prelude.{◌≡◌, bit_or, ◌==◌};
ghost use Rattle.ios_ast.specs.Packets.{Header, address_matches, port_matches, packet_taken, packet_permitted};
ghost use Rattle.policy_eval.specs.Header.{header_of};

use ios_ast::{AccessEntry, AccessList, Ports, Wild};
use mw_text::Addr;
use route_record::Packet;

/// Whether an address agrees with the pattern's in each bit that the wildcard mask has 0.
fn matches_address(pattern: Wild, a: Addr) -> bool
    ensures { result ≡ address_matches pattern a.0 }
{
    (a.0 | pattern.wild) == (pattern.addr.0 | pattern.wild)
}

/// Whether the ports have this one.
fn matches_port(ports: Ports, port: u16) -> bool
    ensures { result ≡ port_matches ports port }
{
    match ports {
        Ports::Any => true,
        Ports::Range(low, high) => low <= port && port <= high,
        Ports::Not(other) => port != other,
        Ports::Empty => false,
    }
}

/// Whether each test of the entry holds.
fn takes_packet(entry: &AccessEntry, packet: &Packet) -> bool
    ensures { result ≡ packet_taken entry.now (header_of packet.now) }
{
    entry.proto.is_none_or(|proto| packet.proto == proto)
        && matches_address(entry.src, packet.src)
        && matches_port(entry.sport, packet.sport)
        && matches_address(entry.dst, packet.dst)
        && matches_port(entry.dport, packet.dport)
}

/// Whether the access list permits the packet: its first entry that takes it decides, and the end denies.
pub fn access_list(list: &AccessList, packet: &Packet) -> bool
    ensures { result ≡ packet_permitted list.now.entries (header_of packet.now) }
{
    for entry in list.entries.as_slice() {
        if takes_packet(entry, packet) {
            return entry.permit;
        }
    }
    false
}
