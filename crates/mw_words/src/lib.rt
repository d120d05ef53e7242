//! The words of a command line, read by `clap`: which command they are, and which word is the value of which argument.
#![tactic(auto)]

pub mod forms;
pub mod request;
pub mod values;

pub use request::{Request, read_words};
