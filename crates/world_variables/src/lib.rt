//! The variables of the worlds of a question over the places of a plan, beside those of BGP: a packet and what is open of
//! slots, as terms and as values say them.
#![tactic(auto)]

mod decoding;
pub mod fields;
pub mod laws;
pub mod opens;
mod packets;
mod rooms;
mod tables;
mod unknowns;

pub use decoding::{packet_at, packet_size, unknown_width};
pub use opens::SymOpen;
pub use packets::packet_in;
pub use rooms::read_rooms;
pub use tables::{entry_with_bit, unknowns_at};
pub use unknowns::Unknown;
