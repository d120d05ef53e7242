//! Verifies questions about a network: reads the files that the words name, and answers each question; or tests a
//! counterexample or a log; or lets events happen to the machine of messages. It prints the answers.
#![tactic(auto)]

pub mod generated;
pub mod running;
pub mod verdicts;

pub use run_answers::{Status, number_of};
pub use running::run;
