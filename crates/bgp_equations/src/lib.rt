//! Whether the BGP routes of a routing are those that its routers hold, as a term: what a router holds for a prefix is what
//! the decision process leaves of its local routes and of what arrives over its sessions.
//!
//! A reading of the store turns a symbolic route into the shape of a plain one, so a call here reads as the function on
//! shapes of its name (`bgp_shapes`), at the environment and the slots that are read.
#![tactic(auto)]

mod beside;
mod candidates;
mod environment;
mod holding;
pub mod laws;
mod learnt;
mod messages;
mod parts;
mod routing;

pub use environment::SymEnv;
pub use holding::sym_bgp_holds;
pub use routing::Routing;
