//! A packet of a set as terms: what the set fixes is constant, and all else variables.

ghost use Rattle.std.specs.Prelude.{◌≡◌, ◌==◌, ◌||◌, ◌&&◌, ℕ, ◌+◌, ◌-◌, ◌/◌, ◌^◌, ◌<◌, ◌≤◌, ◌++◌, Bool, IfOk, IfSome, OnOk, length, not};
ghost use Rattle.term_store.specs.Terms.{Reading, size};
ghost use Rattle.term_store.specs.Reading.{Reads, Builds, Gives};
ghost use Rattle.term_arith.specs.Bits.{number, ids_end};
ghost use Rattle.sym_policy.specs.Records.{packet_end};
ghost use Rattle.world_variables.specs.Packets.{address_from, field_from, fixed_port, is_portless, packet_from, packet_width};
ghost use Rattle.world_variables.specs.Packets as packets;
ghost use Rattle.sym_policy.specs.Packets.{packet_of};

use crate::decoding::field_width;
use mw_text::Prefix;
use question_lang::PacketSet;
use std::alloc::{AllocError, Global};
use sym_policy::SymPacket;
use term_arith::{Bits, bits_at, constant};
use term_store::Terms;

// A field: a number that is fixed, or that of the variables from the first one on.
#[tactic(auto, using(failed_links::proofs::Steps::number_fresh))]
fn field(
    alloc: Global,
    terms: &mut Terms,
    first: u64,
    fixed: Option<u16>,
    width: u8,
) -> Result<Bits, AllocError>
    requires small { width ≤ 64 }
    requires fits { IfSome fixed (λ n. n < 2 ^ width) }
    requires there { first + packets.field_width fixed width ≤ terms.old.vars }
    ensures builds { Builds terms.old terms.new }
    ensures within { IfOk result (λ r. ids_end r.nodes.items ≤ size terms.new) }
    ensures width { IfOk result (λ r. length r.nodes.items ≡ width) }
    ensures value { Gives terms.new result (λ w r. number w r.nodes.items ≡ field_from fixed width w.variable first) }
{
    match fixed {
        Some(n) => constant(alloc, terms, u64::from(n), width),
        None => bits_at(alloc, terms, first, width),
    }
}

// A number above another: its nodes come after the other's.
pub fn above(low: Bits, high: &Bits) -> Result<Bits, AllocError>
    ensures { IfOk result (λ r. r.nodes.items ≡ low.nodes.items ++ high.now.nodes.items) }
{
    let mut all = low;
    all.nodes.extend_from_slice(high.nodes.as_slice())?;
    Ok(all)
}

// An address under a prefix: its lowest bits are the variables from the first one on, and the others the prefix's.
#[tactic(auto, using(failed_links::proofs::Steps::number_fresh, failed_links::proofs::Steps::number_above, sym_policy::proofs::NetworkBits::joined_ends, crate::proofs::Steps::high_bits))]
fn address(
    alloc: Global,
    terms: &mut Terms,
    first: u64,
    prefix: &Prefix,
) -> Result<Bits, AllocError>
    requires addr { prefix.now.addr.0 < 2 ^ 32 }
    requires there { first + (32 - prefix.now.len) ≤ terms.old.vars }
    ensures builds { Builds terms.old terms.new }
    ensures within { IfOk result (λ r. ids_end r.nodes.items ≤ size terms.new) }
    ensures width { IfOk result (λ r. length r.nodes.items ≡ 32) }
    ensures value { Gives terms.new result (λ w r. number w r.nodes.items ≡ address_from prefix.now w.variable first) }
{
    let free = 32u8.saturating_sub(prefix.len);
    let high = u64::from(prefix.addr.0) >> free;
    let low = bits_at(alloc, terms, first, free)?;
    let fixed = constant(alloc, terms, high, 32 - free)?;
    above(low, &fixed)
}

fn has_no_ports(proto: u8) -> bool
    ensures { result ≡ is_portless proto }
{
    !(proto == 6 || proto == 17)
}

// A port that the set fixes.
pub fn known_port(proto: Option<u8>, range: (u16, u16)) -> Option<u16>
    ensures { result ≡ fixed_port proto range }
{
    let portless = match proto {
        Some(proto) => has_no_ports(proto),
        None => false,
    };
    if portless {
        Some(0)
    } else if range.0 == range.1 {
        Some(range.0)
    } else {
        None
    }
}

/// A packet of the set, by the variables of the store from a first one on.
#[tactic(auto, unfolding(crate::specs::Packets::packet_from, crate::specs::Packets::packet_width))]
pub fn packet_in(
    alloc: Global,
    terms: &mut Terms,
    first: u64,
    set: PacketSet,
) -> Result<SymPacket, AllocError>
    requires there { first + packet_width set ≤ terms.old.vars }
    ensures builds { Builds terms.old terms.new }
    ensures within { IfOk result (λ r. packet_end r ≤ size terms.new) }
    ensures value { Gives terms.new result (λ w r. packet_of w r ≡ packet_from set w.variable first) }
{
    let _few = terms.vars();
    let own_proto = set.proto.map(u16::from);
    let own_sport = known_port(set.proto, set.sport);
    let own_dport = known_port(set.proto, set.dport);
    let src_at = first + u64::from(field_width(own_proto, 8));
    let dst_at = src_at + u64::from(32u8.saturating_sub(set.src.len));
    let sport_at = dst_at + u64::from(32u8.saturating_sub(set.dst.len));
    let dport_at = sport_at + u64::from(field_width(own_sport, 16));
    let proto = field(alloc, terms, first, own_proto, 8)?;
    let src = address(alloc, terms, src_at, &set.src)?;
    let dst = address(alloc, terms, dst_at, &set.dst)?;
    let sport = field(alloc, terms, sport_at, own_sport, 16)?;
    let dport = field(alloc, terms, dport_at, own_dport, 16)?;
    Ok(SymPacket {
        src,
        dst,
        proto,
        sport,
        dport,
    })
}
