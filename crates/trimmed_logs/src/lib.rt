//! Shortens logs: of a list of entries that refutes, only the additions stay on which the empty clause rests.
#![tactic(auto)]

pub mod answer;
pub mod holding;
pub mod marking;
pub mod sections;
pub mod texts;
pub mod trimming;

pub use answer::{Answer, trim_log};
pub use trimming::trim;
