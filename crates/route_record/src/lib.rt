//! Packets, and the records of routes that a router holds, as plain data.
#![tactic(auto)]

mod fitting;
mod shaping;
mod tracked;

ghost use Rattle.std.specs.Prelude.{◌≡◌};
ghost use Rattle.std.specs.Option.{option_copied};

pub use fitting::read_tables;
use mw_text::{Addr, List};
pub use shaping::{saturated_length, shape};
pub use tracked::{MOST_TRACKED, Shape, Tracked};

/// How many prefix lengths there are: 0 to 32.
pub const LENGTHS: usize = 33;

/// A packet, by the fields of its IP header (RFC 791) and the ports of TCP or UDP.
#[derive(Clone, Copy)]
pub struct Packet {
    pub src: Addr,
    pub dst: Addr,
    pub proto: u8,
    pub sport: u16,
    pub dport: u16,
}

/// The kind of an OSPF route (RFC 2328, section 11).
#[derive(Clone, Copy)]
pub enum OspfKind {
    Internal,
    Ext1,
    Ext2,
}

/// An OSPF route with its external metric and its cost.
#[derive(Clone, Copy)]
pub struct OspfRec {
    pub kind: OspfKind,
    pub metric: u32,
    pub cost: u32,
}

/// The ORIGIN of a BGP route (RFC 4271, section 5.1.1).
#[derive(Clone, Copy)]
pub enum Origin {
    Igp,
    Egp,
    Incomplete,
}

/// Where a BGP route was learnt.
#[derive(Clone, Copy)]
pub enum Learnt {
    Local,
    Peer(Addr),
}

/// A BGP route that a router holds (RFC 4271, section 5; RFC 4456; RFC 1997).
#[derive(Drop)]
pub struct BgpRec {
    pub from: Learnt,
    pub weight: u32,
    pub local_pref: u32,
    pub path: List<u32>,
    pub origin: Origin,
    pub med: u32,
    pub communities: List<u32>,
    pub next_hop: Addr,
    pub originator: Option<Addr>,
    pub clusters: List<Addr>,
}

/// A BGP route as it is sent over a session: what an UPDATE message carries (RFC 4271, section 4.3). Over an external
/// session it has no local preference, no originator and no clusters.
#[derive(Drop)]
pub struct BgpMsg {
    pub local_pref: Option<u32>,
    pub path: List<u32>,
    pub origin: Origin,
    pub med: Option<u32>,
    pub communities: List<u32>,
    pub next_hop: Addr,
    pub originator: Option<Addr>,
    pub clusters: List<Addr>,
}

/// Where a route map is used: on an external or an internal BGP session, or at a redistribution.
#[derive(Clone, Copy)]
pub enum Side {
    External,
    Internal,
    Redistribution,
}

impl Side {
    ghost use Rattle.route_record.specs.Sides.{at_external};

    /// Whether the route map is used on an external session.
    pub fn is_external(self) -> bool
        ensures { result ≡ at_external self }
    {
        matches!(self, Side::External)
    }
}

/// What a route map acts on: a route, and whether it is redistributed into OSPF as one of type 1. A route that is not
/// from BGP has an empty path and no communities, and its metric stands as the MED.
#[derive(Drop)]
pub struct MapRec {
    pub bgp: BgpRec,
    pub type1: bool,
}

/// Which prefix lengths share one slice of a routing: the class of each of the 33 lengths, and the slices of each class.
#[derive(Drop)]
pub struct Plan {
    pub class: List<u8>,
    pub slices: List<u8>,
}

/// What an external peer announces for one prefix length of the destination.
#[derive(Drop)]
pub struct Announcement {
    pub end: u32,
    pub len: u8,
    pub path: List<u32>,
    pub med: u32,
    pub origin: Origin,
    pub communities: List<u32>,
}

/// The identifier of each external peer, and all that these peers announce.
#[derive(Drop)]
pub struct Environment {
    pub ids: List<Addr>,
    pub announced: List<Announcement>,
}

/// The failed links, by their positions in ascending order.
#[derive(Drop)]
pub struct Failures {
    pub links: List<u32>,
}

/// The protocol from which an entry of the routing table comes.
#[derive(Clone, Copy)]
pub enum RibSource {
    Connected,
    Static,
    Ebgp,
    Ospf,
    Ibgp,
}

/// An entry of the routing table, with its administrative distance.
#[derive(Clone, Copy)]
pub struct RibEntry {
    pub source: RibSource,
    pub distance: u8,
}

/// What a router holds for one prefix of the destination.
#[derive(Drop)]
pub struct Slot {
    pub ospf: Option<OspfRec>,
    pub bgp: Option<BgpRec>,
    pub rib: Option<RibEntry>,
}

/// The slots of all routers: that of router `r` and length `l` stands at `33 * r + l`.
#[derive(Drop)]
pub struct Tables {
    pub slots: List<Slot>,
}

impl Tables {
    ghost use Rattle.route_record.specs.Places.{slot_at};

    /// The slot of a router for a prefix length. None exactly where the tables have none there.
    pub fn slot(&self, router: u32, len: u8) -> Option<&Slot>
        ensures { option_copied result ≡ slot_at self.entry.now router len }
    {
        let place = LENGTHS * router as usize + len as usize;
        self.slots.as_slice().get(place)
    }
}

/// What a packet meets: the links that have failed, the packet itself, and the tables of all routers.
#[derive(Drop)]
pub struct World {
    pub failures: Failures,
    pub packet: Packet,
    pub tables: Tables,
}
