//! The commands of the second program, by the first word.
#![tactic(auto)]

mod advert;
pub mod commands;
mod compare;
mod least;
pub mod running;

pub use mw_load::{Ended, number_of};
pub use running::run_extra;
