//! Where the slots of a routing stand, which of them can hold an OSPF route, and what such a route can be: what a formula
//! of a question leaves open, as plain data.
#![tactic(auto)]

pub mod fields;
pub mod laws;
pub mod origins;
pub mod rooms;
pub mod usable;

pub use fields::{Field, MOST_ADDRESSES, MOST_VALUES, width_for};
pub use rooms::{Room, room_for, rooms_of};
pub use usable::{can_be_used, used_among};
