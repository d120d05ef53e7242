//! Entries of routing tables and slots of routers as terms.

ghost use Rattle.std.specs.Prelude.{◌≡◌, ◌*◌, ◌≤◌, length};
ghost use Rattle.route_record.specs.declared.TheConstants as constants;

use sym_policy::{SymBgp, SymOspf};
use term_arith::Bits;
use term_store::NodeId;

/// An entry of a routing table as terms, which is there where `valid` is true. Its source is 0 for a connected
/// subnet, 1 for a static route, 2 for external BGP, 3 for OSPF and 4 for internal BGP; a greater number counts as 4.
#[derive(Drop)]
pub struct SymRib {
    pub valid: NodeId,
    pub source: Bits,
    pub distance: Bits,
    pub ghost source_wide: { length source.nodes.items ≡ 3 },
    pub ghost distance_wide: { length distance.nodes.items ≡ 8 },
}

/// What a router holds for one prefix of the destination, as terms: its OSPF route, its BGP route and the entry of its
/// routing table.
#[derive(Drop)]
pub struct SymSlot {
    pub ospf: SymOspf,
    pub bgp: SymBgp,
    pub rib: SymRib,
}

/// The slots of so many routers as terms, by router and then by length: each router has one at each of these prefix
/// lengths, which are at most 33.
#[derive(Clone, Copy)]
pub struct SymTables<'a> {
    pub lens: &'a [u8],
    pub routers: u32,
    pub slots: &'a [SymSlot],
    pub ghost few: { length lens.now ≤ constants.LENGTHS },
    pub ghost long: { length slots.now ≡ routers * length lens.now },
}
