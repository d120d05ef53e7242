//! Whether two packets are one.

ghost use Rattle.std.specs.Prelude.{◌≡◌, ◌==◌, ◌&&◌, ◌↔◌, ◌<◌, ◌≤◌, IfOk, length, true};
ghost use Rattle.joined_terms.specs.Joining.{behind};
ghost use Rattle.sym_policy.specs.Packets.{packet_of};
ghost use Rattle.sym_policy.specs.Records.{packet_end};
ghost use Rattle.term_arith.specs.Bits.{ids_end, number};
ghost use Rattle.term_store.specs.Reading.{Builds, Gives};
ghost use Rattle.term_store.specs.Terms.{at, size};

use crate::placed::all_placed;
use std::alloc::{AllocError, Global};
use sym_policy::SymPacket;
use term_arith::gates::both;
use term_arith::{Bits, equal};
use term_store::{NodeId, Terms};

/// Whether a number of the first formula is one of the second, whose nodes stand at these places. Err is want of memory.
#[tactic(auto, using(crate::proofs::Placing::placed_steps))]
pub fn same_number(
    alloc: Global,
    terms: &mut Terms,
    places: &[NodeId],
    a: &Bits,
    b: &Bits,
) -> Result<NodeId, AllocError>
    requires same_width { length a.now.nodes.items ≡ length b.now.nodes.items }
    requires first { ids_end a.now.nodes.items ≤ size terms.old }
    requires second { ids_end b.now.nodes.items ≤ length places.now }
    requires places { ids_end places.now ≤ size terms.old }
    ensures builds { Builds terms.old terms.new }
    ensures within { IfOk result (λ r. r.0 < size terms.new) }
    ensures value { Gives terms.new result (λ w r. at w r
        ≡ (number w a.now.nodes.items == number (behind places.now w) b.now.nodes.items)) }
{
    let nodes = all_placed(alloc, places, b.nodes.as_slice())?.items;
    equal(terms, a, &Bits { nodes })
}

// Whether sources and targets are the same.
fn same_addresses(
    alloc: Global,
    terms: &mut Terms,
    places: &[NodeId],
    a: &SymPacket,
    b: &SymPacket,
) -> Result<NodeId, AllocError>
    requires first { packet_end a.now ≤ size terms.old }
    requires second { packet_end b.now ≤ length places.now }
    requires places { ids_end places.now ≤ size terms.old }
    ensures builds { Builds terms.old terms.new }
    ensures within { IfOk result (λ r. r.0 < size terms.new) }
    ensures value { Gives terms.new result (λ w r. at w r
        ≡ ((number w a.now.src.nodes.items == number (behind places.now w) b.now.src.nodes.items)
        && (number w a.now.dst.nodes.items == number (behind places.now w) b.now.dst.nodes.items))) }
{
    let src = same_number(alloc, terms, places, &a.src, &b.src)?;
    let dst = same_number(alloc, terms, places, &a.dst, &b.dst)?;
    both(terms, src, dst)
}

// Whether the ports are.
fn same_ports(
    alloc: Global,
    terms: &mut Terms,
    places: &[NodeId],
    a: &SymPacket,
    b: &SymPacket,
) -> Result<NodeId, AllocError>
    requires first { packet_end a.now ≤ size terms.old }
    requires second { packet_end b.now ≤ length places.now }
    requires places { ids_end places.now ≤ size terms.old }
    ensures builds { Builds terms.old terms.new }
    ensures within { IfOk result (λ r. r.0 < size terms.new) }
    ensures value { Gives terms.new result (λ w r. at w r
        ≡ ((number w a.now.sport.nodes.items == number (behind places.now w) b.now.sport.nodes.items)
        && (number w a.now.dport.nodes.items == number (behind places.now w) b.now.dport.nodes.items))) }
{
    let sport = same_number(alloc, terms, places, &a.sport, &b.sport)?;
    let dport = same_number(alloc, terms, places, &a.dport, &b.dport)?;
    both(terms, sport, dport)
}

// Whether protocols and ports are.
fn same_kind(
    alloc: Global,
    terms: &mut Terms,
    places: &[NodeId],
    a: &SymPacket,
    b: &SymPacket,
) -> Result<NodeId, AllocError>
    requires first { packet_end a.now ≤ size terms.old }
    requires second { packet_end b.now ≤ length places.now }
    requires places { ids_end places.now ≤ size terms.old }
    ensures builds { Builds terms.old terms.new }
    ensures within { IfOk result (λ r. r.0 < size terms.new) }
    ensures value { Gives terms.new result (λ w r. at w r
        ≡ ((number w a.now.proto.nodes.items == number (behind places.now w) b.now.proto.nodes.items)
        && ((number w a.now.sport.nodes.items == number (behind places.now w) b.now.sport.nodes.items)
        && (number w a.now.dport.nodes.items == number (behind places.now w) b.now.dport.nodes.items)))) }
{
    let proto = same_number(alloc, terms, places, &a.proto, &b.proto)?;
    let ports = same_ports(alloc, terms, places, a, b)?;
    both(terms, proto, ports)
}

/// Whether a packet of the first formula and one of the second, whose nodes stand at these places, are one packet.
/// Err is want of memory.
pub fn same_packet(
    alloc: Global,
    terms: &mut Terms,
    places: &[NodeId],
    a: &SymPacket,
    b: &SymPacket,
) -> Result<NodeId, AllocError>
    requires first { packet_end a.now ≤ size terms.old }
    requires second { packet_end b.now ≤ length places.now }
    requires places { ids_end places.now ≤ size terms.old }
    ensures builds { Builds terms.old terms.new }
    ensures within { IfOk result (λ r. r.0 < size terms.new) }
    ensures value { Gives terms.new result (λ w r.
        at w r ≡ true ↔ packet_of w a.now ≡ packet_of (behind places.now w) b.now) }
{
    let addresses = same_addresses(alloc, terms, places, a, b)?;
    let kind = same_kind(alloc, terms, places, a, b)?;
    both(terms, addresses, kind)
}
