//! Whether what two slots hold is the same: their OSPF routes, their BGP routes and their table entries.
#![tactic(auto)]

pub mod laws;
mod parts;
mod routes;

pub use parts::{same_bgp, same_ospf, same_rib, same_slot};
pub use routes::same_route;
