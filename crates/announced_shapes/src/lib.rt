//! What external peers announce, by its shape: which shapes there are, and an announcement of each.
#![tactic(auto)]

pub mod laws;
mod paths;

pub use paths::{rebuilt_communities, rebuilt_path};
