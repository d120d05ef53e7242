//! A log of clauses, the checker that decides whether each entry follows from those before it, and
//! the log's text.
#![tactic(auto)]

mod chain;
mod checking;
pub mod laws;
mod log;
mod marks;
mod reading;
mod shelf;
mod writing;

pub use checking::Checker;
pub use log::{Bad, Clause, Entry, LineRefused, Lit, has_literal};
pub use reading::read_entry;
pub use writing::{put_input, write_entry};
