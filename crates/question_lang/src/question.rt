//! A question about a network.

use mw_text::{Addr, List, Prefix};

/// Where packets should, or should not, end.
#[derive(Clone, Copy)]
pub enum Target {
    /// Delivered at this router.
    Router(u32),
    /// Delivered on an interface with this subnet.
    Subnet(Prefix),
    /// Left at this router, to this address.
    Peer { router: u32, addr: Addr },
}

/// A router that a packet stands at, with the interface at which it came in: a place among those of the router.
#[derive(Clone, Copy)]
pub struct Start {
    pub router: u32,
    pub iface: Option<u32>,
}

/// What a question asks.
#[derive(Clone, Copy)]
pub enum Kind {
    Reach(Start, Target),
    Isolate(Start, Target),
    Waypoint(Start, Target, u32),
    NoLoop(Start),
    NoBlackHole(Start),
    Within(u32, Start),
    Alike(u32, u32, Target),
    NoStable,
}

/// A set of packets: each field in its range.
#[derive(Clone, Copy)]
pub struct PacketSet {
    pub proto: Option<u8>,
    pub src: Prefix,
    pub sport: (u16, u16),
    pub dst: Prefix,
    pub dport: (u16, u16),
}

/// A question with its name, its packets and the greatest number of links that may fail.
#[derive(Drop)]
pub struct Question {
    pub name: List<u8>,
    pub kind: Kind,
    pub packets: PacketSet,
    pub failures: u32,
}
