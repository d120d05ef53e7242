//! Holds the sections of a log against the questions of a network, whose clauses it makes anew.
#![tactic(auto)]

pub mod answering;
pub mod checking;

pub use answering::put_check;
pub use checking::check_log;
