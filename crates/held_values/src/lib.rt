//! Which values the numbers of held BGP routes can have in any stable routing, as the lines of the files say, and
//! fields that tell them.
#![tactic(auto)]

pub mod laws;
pub mod numbers;
pub mod values;

pub use numbers::HeldNumber;
pub use values::{HeldValues, held_values};
