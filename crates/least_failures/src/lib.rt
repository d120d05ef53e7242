//! The command `least`: with how few failed links something breaks a question.
#![tactic(auto)]

pub mod answers;
pub mod finding;
pub mod lines;
pub mod loading;
pub mod outcome;
pub mod running;
pub mod trial;

pub use finding::least;
pub use outcome::{Least, LeastFault};
pub use running::run_least;
