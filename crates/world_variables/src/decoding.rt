//! A packet that values of variables say, and the OSPF route of a slot.

ghost use Rattle.std.specs.Prelude.{◌≡◌, ◌+◌, ◌-◌, ◌/◌, ◌^◌, ◌<◌, ◌≤◌, ◌*◌, IfSome, Some, None, if◌then◌else◌, length};
ghost use Rattle.std.specs.Option.{option_copied};
ghost use Rattle.term_store.specs.Terms.{truth};
ghost use Rattle.sym_policy.specs.Held.{kind_of_number};
ghost use Rattle.slot_places.specs.Values.{field_width as told_width, read_as};
ghost use Rattle.failed_links.specs.Rows.{number_from};
ghost use Rattle.world_variables.specs.Packets as packets;
ghost use Rattle.world_variables.specs.Packets.{address_from, field_from, packet_from, packet_width};
ghost use Rattle.world_variables.specs.Unknowns as unknowns;
ghost use Rattle.world_variables.specs.Unknowns.{IsNarrow, TellsWithin, route_from, unknown_from};

use crate::packets::known_port;
use crate::unknowns::Unknown;
use failed_links::{number_at, value_at};
use mw_text::{Addr, prefix_of};
use question_lang::PacketSet;
use route_record::{OspfKind, OspfRec, Packet};
use slot_places::{Field, Room};

// How many variables a field has.
pub(crate) fn field_width(fixed: Option<u16>, width: u8) -> u8
    ensures { result ≡ packets.field_width fixed width }
{
    match fixed {
        Some(_) => 0,
        None => width,
    }
}

// A field: a number that is fixed, or that of its variables.
fn field_at(values: &[bool], from: usize, fixed: Option<u16>, width: u8) -> u16
    requires narrow { width ≤ 16 }
    requires fits { IfSome fixed (λ n. n < 2 ^ width) }
    requires within { from + packets.field_width fixed width ≤ length values.now }
    ensures value { result ≡ field_from fixed width (truth values.now) from }
    ensures small { result < 2 ^ width }
{
    match fixed {
        Some(n) => n,
        None => number_at(values, from, width) as u16,
    }
}

// An address under a prefix: its lowest bits are those of its variables, and the others the prefix's.
fn address_at(values: &[bool], from: usize, addr: u32, len: u8) -> Addr
    requires { from + (32 - len) ≤ length values.now }
    ensures { result ≡ record { 0 = address_from (record { addr = record { 0 = addr }; len = len }) (truth values.now) from } }
{
    let free = 32u8.saturating_sub(len);
    let first = prefix_of(Addr(addr), len);
    Addr(number_at(values, from, free) + first.addr.0)
}

/// How many variables a packet of the set has.
#[tactic(auto, unfolding(crate::specs::Packets::packet_width))]
pub fn packet_size(set: PacketSet) -> usize
    ensures value { result ≡ packet_width set }
    ensures few { result < 2 ^ 16 }
{
    let proto = field_width(set.proto.map(u16::from), 8);
    let src = 32u8.saturating_sub(set.src.len);
    let dst = 32u8.saturating_sub(set.dst.len);
    let sport = field_width(known_port(set.proto, set.sport), 16);
    let dport = field_width(known_port(set.proto, set.dport), 16);
    usize::from(proto)
        + usize::from(src)
        + usize::from(dst)
        + usize::from(sport)
        + usize::from(dport)
}

/// The packet, whose variables are the first.
#[tactic(auto, unfolding(crate::specs::Packets::packet_from, crate::specs::Packets::packet_width))]
pub fn packet_at(values: &[bool], set: PacketSet) -> Packet
    requires { packet_width set ≤ length values.now }
    ensures { result ≡ packet_from set (truth values.now) 0 }
{
    let proto = set.proto.map(u16::from);
    let own_sport = known_port(set.proto, set.sport);
    let own_dport = known_port(set.proto, set.dport);
    let src = usize::from(field_width(proto, 8));
    let dst = src + usize::from(32u8.saturating_sub(set.src.len));
    let sport = dst + usize::from(32u8.saturating_sub(set.dst.len));
    let dport = sport + usize::from(field_width(own_sport, 16));
    Packet {
        src: address_at(values, src, set.src.addr.0, set.src.len),
        dst: address_at(values, dst, set.dst.addr.0, set.dst.len),
        proto: field_at(values, 0, proto, 8) as u8,
        sport: field_at(values, sport, own_sport, 16),
        dport: field_at(values, dport, own_dport, 16),
    }
}

// The kind of a number.
fn kind_of(number: u32) -> OspfKind
    ensures { result ≡ kind_of_number number }
{
    match number {
        0 => OspfKind::Internal,
        1 => OspfKind::Ext1,
        _ => OspfKind::Ext2,
    }
}

// The number that a field tells by its variables.
#[tactic(auto, using(crate::proofs::RoomSteps::few_bits, crate::proofs::Worlds::told_small))]
fn told_at(values: &[bool], from: usize, field: &Field) -> u32
    requires narrow { TellsWithin 32 field.now }
    requires within { from + told_width field.now ≤ length values.now }
    ensures { result ≡ read_as field.now (number_from (truth values.now) from (told_width field.now)) }
{
    field.read(u64::from(number_at(values, from, field.width()))) as u32
}

// How many variables a route has.
#[tactic(auto, using(crate::proofs::RoomSteps::few_bits))]
fn route_width(room: &Room) -> usize
    requires narrow { IsNarrow room.now }
    ensures value { result ≡ unknowns.route_width room.now }
    ensures few { result ≤ 96 }
{
    usize::from(room.kind.width()) + usize::from(room.metric.width()) + usize::from(room.cost)
}

// The route of its variables.
fn route_at(values: &[bool], from: usize, room: &Room) -> OspfRec
    requires narrow { IsNarrow room.now }
    requires within { from + unknowns.route_width room.now ≤ length values.now }
    ensures { result ≡ route_from room.now (truth values.now) from }
{
    let metric = from + usize::from(room.kind.width());
    let cost = metric + usize::from(room.metric.width());
    OspfRec {
        kind: kind_of(told_at(values, from, &room.kind)),
        metric: told_at(values, metric, &room.metric),
        cost: number_at(values, cost, room.cost),
    }
}

/// How many variables a slot of that room has.
pub fn unknown_width(room: Option<&Room>) -> usize
    requires narrow { IfSome (option_copied room) IsNarrow }
    ensures value { result ≡ unknowns.unknown_width (option_copied room.entry) }
    ensures few { result ≤ 98 }
{
    match room {
        None => 0,
        Some(room) => 1 + route_width(room) + 1,
    }
}

// The route of a slot of that room, where there is one.
fn ospf_at(values: &[bool], from: usize, room: &Room) -> Option<OspfRec>
    requires narrow { IsNarrow room.now }
    requires within { from + 1 + unknowns.route_width room.now ≤ length values.now }
    ensures { result ≡ (if truth values.now from then Some (route_from room.now (truth values.now) (from + 1)) else None) }
{
    if value_at(values, from) {
        Some(route_at(values, from + 1, room))
    } else {
        None
    }
}

/// What is open of a slot of that room, by its variables.
pub fn unknown_at(values: &[bool], from: usize, room: Option<&Room>) -> Unknown
    requires narrow { IfSome (option_copied room) IsNarrow }
    requires within { from + unknowns.unknown_width (option_copied room) ≤ length values.now }
    ensures { result ≡ unknown_from (option_copied room.entry) (truth values.now) from }
{
    match room {
        None => Unknown {
            ospf: None,
            dynamic: false,
        },
        Some(room) => Unknown {
            ospf: ospf_at(values, from, room),
            dynamic: value_at(values, from + 1 + route_width(room)),
        },
    }
}
