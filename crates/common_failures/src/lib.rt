//! What two sets of failed links say that are tied by the pairs of common links and counted together.
#![tactic(auto)]

pub mod laws;
