//! Makes configurations ready: lines of kinds that cannot change which packets are forwarded where become comments, with
//! their blocks, and every other line stays as it is.
#![tactic(auto)]

pub mod kind_table;
pub mod kinds;
pub mod laws;
pub mod lines;
pub mod places;
pub mod report;
pub mod run;
pub mod text;

pub use kind_table::KINDS;
pub use kinds::{Class, Kind, find_kind};
pub use run::{Prepared, Status, number_of, prepare};
