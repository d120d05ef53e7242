//! Arithmetic over terms: numbers as lists of nodes, and gates over nodes.
//!
//! `fresh_bits` alone adds variables. What a call says of its result holds under every reading of the store
//! (`term_store`), so it holds while the store grows.
#![tactic(auto)]

mod compare;
mod constants;
mod count;
pub mod gates;
pub mod lists;
mod masked;
mod sum;
mod values;

pub use compare::{above_number, choose, equal, equal_number, less};
pub use constants::{constant, zeros};
pub use count::at_most;
pub use lists::{bits_at, copy, fresh_bits};
pub use masked::equal_masked;
pub use sum::{Summed, add, add_within};
use term_store::NodeId;
pub use values::values_of;

/// A number by its bits, lowest first.
#[derive(Debug, Drop)]
pub struct Bits {
    pub nodes: Vec<NodeId>,
}
