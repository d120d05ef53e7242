//! A search for an assignment that satisfies clauses. Each answer is shown: by the values found, or by a log of learnt
//! clauses that anybody can check.
#![tactic(auto)]

pub mod laws;
mod learning;
mod logging;
mod outcome;
mod reducing;
mod searching;
mod solving;
mod turns;

pub use outcome::{Outcome, SolveFault};
pub use solving::solve;
