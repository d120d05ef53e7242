//! Routings that stand at the slices of a plan alone: the cuts of files, the plans that fit them, and that such routings
//! are enough.
#![tactic(auto)]

pub mod laws;
