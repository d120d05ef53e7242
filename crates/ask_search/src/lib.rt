//! Answers one ask about what goes out to an external peer, by a search whose log shows the answer.
#![tactic(auto)]

pub mod answer;
pub mod decoding;
pub mod encoding;
pub mod formula;
pub mod laws;
pub mod question;
pub mod terms;
pub mod verdict;
pub mod world;

pub use terms::sym_exported;
