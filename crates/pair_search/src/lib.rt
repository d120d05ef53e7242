//! Answers one ask whether two networks do the same with packets, by a search whose log shows the answer.
#![tactic(auto)]

pub mod answer;
pub mod decoding;
pub mod formula;
pub mod question;
pub mod verdict;
