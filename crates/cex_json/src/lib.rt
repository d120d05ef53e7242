//! Counterexamples to questions, and their text.
#![tactic(auto)]

pub mod counterexample;
mod entries;
mod fields;
pub mod laws;
mod parts;
pub mod reader;
pub mod refused;
mod routes;
mod senders;
mod slots;
mod standings;
mod surroundings;
mod tables;
mod walks;
mod worlds;

pub use counterexample::{Counterexample, write_cex, write_part, write_part_list, write_tables};
pub use reader::read_cex;
pub use refused::CexRefused;
