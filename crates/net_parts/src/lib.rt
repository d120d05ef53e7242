//! What files that form a network give: links, sessions and adjacencies; and, in specs/, what a stable routing over them is.
#![tactic(auto)]

pub mod adjacencies;
pub mod ends;
mod grouped;
pub mod links;
pub mod ospf;
pub mod router_ids;
pub mod routing;
pub mod sessions;
pub mod states;
pub mod steps;
pub mod tracking;

pub use adjacencies::Adjacency;
pub use links::Link;
pub use ospf::OspfInterface;
pub use sessions::{Far, Peering, SessionEnd};
pub use steps::Step;
