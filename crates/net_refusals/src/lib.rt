//! Which configuration files form no network, and why.
#![tactic(auto)]

mod apart;
pub mod clashes;
pub mod connections;
pub mod lines;
pub mod many;
pub mod refusals;
pub mod undefined;

pub use refusals::{NetCause, NetRefused, refuse};
