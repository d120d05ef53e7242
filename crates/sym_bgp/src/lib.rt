//! BGP as terms over Boolean variables: what a router sends, what it makes of what it receives, and whether a route is
//! held by the decision process.
//!
//! Under every reading of the store a symbolic route is the shape of a plain one (`sym_policy`), and a call here reads
//! as the function on shapes of its name (`bgp_shapes`), whose laws say what it stands for.
#![tactic(auto)]

mod beside;
mod candidates;
mod exporting;
mod importing;
mod lists;
mod messages;
mod metrics;
mod numbers;
mod parts;
mod routers;
mod same;
mod steps;
mod survives;
mod through;
mod ways;

pub use exporting::sym_export;
pub use importing::sym_import;
pub use parts::SymCand;
pub use survives::sym_survives;
