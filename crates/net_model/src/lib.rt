//! The network that a list of configuration files forms.
#![tactic(auto)]

pub mod laws;
pub mod network;

pub use net_interfaces::{Addressed, IfaceId, MOST_FILES, keep_limits};
pub use net_parts::{Adjacency, Far, Link, OspfInterface, Peering, SessionEnd, Step};
pub use net_refusals::{NetCause, NetRefused, refuse};
pub use network::Net;
