//! Access lists over terms.

ghost use Rattle.std.specs.Prelude.{◌≡◌, ◌==◌, ℕ, ◌+◌, ◌<◌, ◌≤◌, ◌^◌, Bool, true, not, ◌&&◌, nat_le, IfOk, length};
ghost use Rattle.std.specs.Option.{option_map_or};
ghost use Rattle.term_store.specs.Terms.{Reading, size, at};
ghost use Rattle.term_store.specs.Reading.{Reads, Builds, Gives};
ghost use Rattle.term_arith.specs.Bits.{number, ids_end};
ghost use Rattle.ios_ast.specs.Packets.{address_matches, port_matches, packet_taken, packet_permitted};
ghost use Rattle.sym_policy.specs.Records.{header_of, packet_end};

use crate::records::SymPacket;
use ios_ast::{AccessEntry, AccessList, Ports, Wild};
use std::alloc::{AllocError, Global};
use term_arith::gates::{both, constant_node, is_never, negate, select};
use term_arith::{Bits, constant, equal_masked, equal_number, less};
use term_store::{NodeId, Terms};

/// Whether a field is the protocol, where one is asked for.
fn sym_proto(terms: &mut Terms, proto: Option<u8>, field: &Bits) -> Result<NodeId, AllocError>
    requires { ids_end field.now.nodes.items ≤ size terms.old }
    ensures builds { Builds terms.old terms.new }
    ensures within { IfOk result (λ r. r.0 < size terms.new) }
    ensures value { Gives terms.new result (λ w r. at w r ≡ option_map_or (λ n. number w field.now.nodes.items == n) proto true) }
{
    match proto {
        Some(wanted) => equal_number(terms, field.nodes.as_slice(), u64::from(wanted)),
        None => constant_node(terms, true),
    }
}

/// Whether an address agrees with the pattern's in each bit that the wildcard mask has 0. `any` wants no look at it.
#[tactic(auto, using(crate::proofs::AnyAddress::any_matches))]
fn sym_address(terms: &mut Terms, pattern: Wild, address: &Bits) -> Result<NodeId, AllocError>
    requires wide { length address.now.nodes.items ≡ 32 }
    requires nodes { ids_end address.now.nodes.items ≤ size terms.old }
    ensures builds { Builds terms.old terms.new }
    ensures within { IfOk result (λ r. r.0 < size terms.new) }
    ensures value { Gives terms.new result (λ w r. at w r ≡ address_matches pattern (number w address.now.nodes.items)) }
{
    if pattern.wild == u32::MAX {
        return constant_node(terms, true);
    }
    equal_masked(
        terms,
        address.nodes.as_slice(),
        u64::from(pattern.addr.0),
        u64::from(pattern.wild),
    )
}

/// Whether a port is one, or in a range, by two comparisons with constants.
fn sym_range(
    alloc: Global,
    terms: &mut Terms,
    low: u16,
    high: u16,
    port: &Bits,
) -> Result<NodeId, AllocError>
    requires wide { length port.now.nodes.items ≡ 16 }
    requires nodes { ids_end port.now.nodes.items ≤ size terms.old }
    ensures builds { Builds terms.old terms.new }
    ensures within { IfOk result (λ r. r.0 < size terms.new) }
    ensures value { Gives terms.new result (λ w r. at w r ≡ (nat_le low (number w port.now.nodes.items) && nat_le (number w port.now.nodes.items) high)) }
{
    if low == high {
        return equal_number(terms, port.nodes.as_slice(), u64::from(low));
    }
    let least = constant(alloc, terms, u64::from(low), 16)?;
    let below = less(terms, port, &least)?;
    let greatest = constant(alloc, terms, u64::from(high), 16)?;
    let above = less(terms, &greatest, port)?;
    let not_below = negate(terms, below)?;
    let not_above = negate(terms, above)?;
    both(terms, not_below, not_above)
}

/// Whether the ports have this one.
fn sym_port(
    alloc: Global,
    terms: &mut Terms,
    ports: Ports,
    port: &Bits,
) -> Result<NodeId, AllocError>
    requires wide { length port.now.nodes.items ≡ 16 }
    requires nodes { ids_end port.now.nodes.items ≤ size terms.old }
    ensures builds { Builds terms.old terms.new }
    ensures within { IfOk result (λ r. r.0 < size terms.new) }
    ensures value { Gives terms.new result (λ w r. at w r ≡ port_matches ports (number w port.now.nodes.items)) }
{
    match ports {
        Ports::Any => constant_node(terms, true),
        Ports::Range(low, high) => sym_range(alloc, terms, low, high, port),
        Ports::Not(other) => {
            let same = equal_number(terms, port.nodes.as_slice(), u64::from(other))?;
            negate(terms, same)
        }
        Ports::Empty => constant_node(terms, false),
    }
}

/// Whether an address and a port are as an entry asks.
fn sym_side(
    alloc: Global,
    terms: &mut Terms,
    pattern: Wild,
    address: &Bits,
    ports: Ports,
    port: &Bits,
) -> Result<NodeId, AllocError>
    requires wide { length address.now.nodes.items ≡ 32 }
    requires port_wide { length port.now.nodes.items ≡ 16 }
    requires nodes { ids_end address.now.nodes.items ≤ size terms.old }
    requires port_nodes { ids_end port.now.nodes.items ≤ size terms.old }
    ensures builds { Builds terms.old terms.new }
    ensures within { IfOk result (λ r. r.0 < size terms.new) }
    ensures value { Gives terms.new result (λ w r. at w r ≡ (address_matches pattern (number w address.now.nodes.items)
        && port_matches ports (number w port.now.nodes.items))) }
{
    let there = sym_address(terms, pattern, address)?;
    if is_never(terms, there) {
        return Ok(there);
    }
    let open = sym_port(alloc, terms, ports, port)?;
    both(terms, there, open)
}

/// Whether each test of the entry holds. Where the packet is of another protocol, no other test is looked at.
fn sym_entry(
    alloc: Global,
    terms: &mut Terms,
    entry: &AccessEntry,
    packet: &SymPacket,
) -> Result<NodeId, AllocError>
    requires { packet_end packet.now ≤ size terms.old }
    ensures builds { Builds terms.old terms.new }
    ensures within { IfOk result (λ r. r.0 < size terms.new) }
    ensures value { Gives terms.new result (λ w r. at w r ≡ packet_taken entry.now (header_of w packet.now)) }
{
    let proto = sym_proto(terms, entry.proto, &packet.proto)?;
    if is_never(terms, proto) {
        return Ok(proto);
    }
    let from = sym_side(
        alloc,
        terms,
        entry.src,
        &packet.src,
        entry.sport,
        &packet.sport,
    )?;
    let to = sym_side(
        alloc,
        terms,
        entry.dst,
        &packet.dst,
        entry.dport,
        &packet.dport,
    )?;
    let ends = both(terms, from, to)?;
    both(terms, proto, ends)
}

/// Whether the access list permits the packet: its first entry that takes it decides, and the end denies.
pub fn sym_access_list(
    alloc: Global,
    terms: &mut Terms,
    list: &AccessList,
    packet: &SymPacket,
) -> Result<NodeId, AllocError>
    requires { packet_end packet.now ≤ size terms.old }
    ensures builds { Builds terms.old terms.new }
    ensures within { IfOk result (λ r. r.0 < size terms.new) }
    ensures value { Gives terms.new result (λ w r. at w r ≡ packet_permitted list.now.entries (header_of w packet.now)) }
{
    let entries = list.entries.as_slice();
    let mut rest = constant_node(terms, false)?;
    for i in (0..entries.len()).rev() {
        let takes = sym_entry(alloc, terms, &entries[i], packet)?;
        let permit = constant_node(terms, entries[i].permit)?;
        rest = select(terms, takes, permit, rest)?;
    }
    Ok(rest)
}
