//! Terms that tie two formulas which stand side by side in one store: what one of them says, and what the other.
#![tactic(auto)]

pub mod count;
pub mod laws;
pub mod links;
pub mod packets;
pub mod placed;

pub use count::few_fail;
pub use links::same_links;
pub use packets::{same_number, same_packet};
pub use placed::all_placed;
