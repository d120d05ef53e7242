//! The words of the command that compares two networks. The one error of its calls is want of memory.
#![tactic(auto)]

pub mod words;

pub use words::{Asked, read_asked_words};
