//! How tables differ from a stable routing.

use mw_text::List;
use route_record::Slot;

/// A part of a slot.
#[derive(Clone, Copy)]
pub enum Part {
    Ospf,
    Bgp,
    Rib,
}

/// An equation that does not hold: at the router's slot of that prefix length, of that part. What is held stands alone in
/// a slot, and so does each that the equation wants: the list is empty where it wants none, and of a BGP part it has the
/// routes of all candidates that the decision process leaves.
#[derive(Drop)]
pub struct Differs {
    pub router: u32,
    pub len: u8,
    pub part: Part,
    pub held: Slot,
    pub wanted: List<Slot>,
}

/// Why a replay says no.
#[derive(Drop)]
pub enum ReplayNo {
    /// The tables are not a stable routing.
    Differs(Differs),
    /// What is said to be a walk of the packet is none.
    NotWalk,
    /// The walk does not break the question.
    NotBreak,
    /// Memory is wanting.
    Memory,
}
