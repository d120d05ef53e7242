//! Terms of one store put into another, over the same variables.
#![tactic(auto)]

pub mod joining;

pub use joining::join;
