//! Answers about logs: when one is right of the questions of a network, and its line.
#![tactic(auto)]

pub mod answer;
pub mod laws;
pub mod text;

pub use answer::{LogAnswer, ended, wrong_after};
pub use text::log_answer_text;
