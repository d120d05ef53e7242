//! Answers one question by a search for what breaks it.
#![tactic(auto)]

pub mod answer;
pub mod formula;
