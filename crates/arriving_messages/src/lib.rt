//! What arrives at a router by the tables of its neighbours: over its BGP sessions what external peers announce and far
//! routers export, and over its OSPF adjacencies what far routers hold.
#![tactic(auto)]

mod adjacencies;
mod sessions;

pub use adjacencies::far_record;
pub use sessions::arriving;
