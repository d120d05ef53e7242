//! Whether a route of an ask goes out to its external peer, as terms over Boolean variables.
#![tactic(auto)]

pub mod laws;
pub mod lengths;
pub mod sending;
pub mod tracing;

pub use lengths::sym_out;
