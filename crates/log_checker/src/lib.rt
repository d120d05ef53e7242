//! Holds the text of a log against the clauses that it is to refute, section by section.
#![tactic(auto)]

pub mod cause;
pub mod entries;
pub mod laws;
pub mod lines;
pub mod sections;

pub use cause::Cause;
pub use sections::{Checked, check_section};
