//! The routes that a router may hold: by its own slot, and by what it last received over its BGP sessions and heard
//! over its OSPF adjacencies.
//!
//! Whoever calls says what that was. Of BGP one message is handed in at a time, by reference: a machine of messages
//! lends it from the channel that keeps it, and a replay from what it has just made of the far side's slot. Of OSPF,
//! whose records are small, a list is handed in, by the places of the adjacencies.
#![tactic(auto)]

mod announced;
mod held;
mod learnt;
mod local;
mod own;
mod underlay;

pub use announced::from_outside;
pub use held::held_from;
pub use learnt::{Heard, learnt_candidate};
pub use local::local_candidates;
pub use own::{is_own, origins};
pub use underlay::{Underlay, is_adjacency_up, is_session_up, underlay_of};
