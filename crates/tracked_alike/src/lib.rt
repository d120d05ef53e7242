//! Two networks that track the same values: those that either tracks. The one error of its calls is want of memory.
#![tactic(auto)]

pub mod both;
pub mod laws;

pub use both::track_both;
