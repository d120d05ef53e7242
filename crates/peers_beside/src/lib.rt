//! External peers that two networks have in common: whether they have the same identifiers and announce the same, as a
//! term over both networks' environments, which stand side by side in one store.
#![tactic(auto)]

pub mod announced;
pub mod laws;
pub mod peers;

pub use peers::{Sides, same_peers};
