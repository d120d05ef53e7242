//! What is said of the counterexamples that `verify` printed: each that is true as a story, each that is not by the first
//! reason why.
#![tactic(auto)]

pub mod pieces;
pub mod running;
pub mod telling;
pub mod texts;

pub use running::run;
