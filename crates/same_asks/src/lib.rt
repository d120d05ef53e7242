//! Asks whether two networks do the same with packets that begin at a router of both: their lines.
#![tactic(auto)]

pub mod asking;
pub mod laws;
pub mod reader;
pub mod same;
pub mod table;

pub use reader::{MOST_ASKS, read_same};
pub use same::Same;
