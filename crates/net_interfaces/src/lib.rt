//! The interfaces of configuration files that have an address, the limits of a file, and the values that policies name.
#![tactic(auto)]

pub mod connected;
pub mod interfaces;
pub mod limits;
pub mod values;

pub use interfaces::{Addressed, IfaceId, MOST_FILES};
pub use limits::keep_limits;
