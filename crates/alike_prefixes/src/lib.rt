//! Prefixes that are the same to every line of the files, and routes that are moved between their lengths.
#![tactic(auto)]

pub mod laws;
