//! What an events file comes to over a network: a machine of messages whose events its lines order, and at the end its
//! tables, and whether it is quiet.
#![tactic(auto)]

mod causes;
mod opening;
mod opening_lines;
mod reading;
mod simulating;
mod steps;
mod turns;

pub use causes::{SimulationCause, SimulationRefused};
pub use simulating::{Simulated, simulate};
