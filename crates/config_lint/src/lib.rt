//! Lists every refusal of configurations in one run.
#![tactic(auto)]

pub mod asides;
pub mod groups;
pub mod labels;
pub mod run;
pub mod search;

pub use search::refusals_of;
