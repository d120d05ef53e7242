//! BGP: which routes a router sends and takes, and which of them survive its decision process.
#![tactic(auto)]

pub mod decision;
pub mod exporting;
pub mod importing;
mod policies;
mod routers;
mod speaker;
mod steps;

pub use decision::{Candidate, survivors};
pub use exporting::export;
pub use importing::import;
