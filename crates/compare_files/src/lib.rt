//! What the command that compares two networks reads: both networks and the asks over them, or the first refusal.
#![tactic(auto)]

pub mod cause;
pub mod loading;

pub use loading::{Loaded, work_of};
