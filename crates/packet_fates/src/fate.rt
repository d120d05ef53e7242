//! What becomes of a packet.

ghost use Rattle.std.specs.Prelude.{◌≡◌};
ghost use Rattle.packet_fates.specs.Order as order;

use mw_text::{Addr, List};
use std::cmp::Ordering;

/// What becomes of a packet: it is delivered at the router of that name, leaves the network there to that address, is
/// lost without a route or at Null0, or comes back to where it stood.
#[derive(Drop)]
pub enum Fate {
    Delivered(List<u8>),
    Left(List<u8>, Addr),
    BlackHole,
    Loop,
}

fn rank(fate: &Fate) -> u8
    ensures { result ≡ order.rank fate.now }
{
    match fate {
        Fate::Delivered(_) => 0,
        Fate::Left(_, _) => 1,
        Fate::BlackHole => 2,
        Fate::Loop => 3,
    }
}

fn name_of(fate: &Fate) -> &[u8]
    ensures { result.now ≡ order.name_of fate.now }
{
    match fate {
        Fate::Delivered(name) => name.as_slice(),
        Fate::Left(name, _) => name.as_slice(),
        Fate::BlackHole => b"",
        Fate::Loop => b"",
    }
}

fn address_of(fate: &Fate) -> u32
    ensures { result ≡ order.address_of fate.now }
{
    match fate {
        Fate::Left(_, a) => a.0,
        _ => 0,
    }
}

/// Which of two fates comes first: by their kinds, then by the bytes of the names, then by the addresses.
pub fn order_of(a: &Fate, b: &Fate) -> Ordering
    ensures { result ≡ order.fate_order a.now b.now }
{
    rank(a)
        .cmp(&rank(b))
        .then(name_of(a).cmp(name_of(b)))
        .then(address_of(a).cmp(&address_of(b)))
}
