//! The routing table of a router as terms: its entry toward a destination, and what it gives to OSPF and to BGP from
//! that entry.
//!
//! A reading of the store turns a symbolic slot into a plain one (`specs/Slots.antt`). Where a symbolic slot stands
//! for a slot, what a call here answers stands for what the definitions of the network make of that slot.
#![tactic(auto)]

mod bare;
mod brought;
mod entry;
mod interfaces;
mod into_bgp;
mod into_ospf;
mod known;
mod known_parts;
pub mod laws;
mod learnt;
mod lookup;
mod metric;
mod metrics;
mod places;
pub mod prefixes;
mod ribs;
mod slots;
mod statics;

pub use bare::{bare_slot, no_bgp};
pub use entry::sym_entry;
pub use into_bgp::sym_originate;
pub use into_ospf::sym_redistribute;
pub use places::slot_for;
pub use ribs::no_entry;
pub use slots::{SymRib, SymSlot, SymTables};
