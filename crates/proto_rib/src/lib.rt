//! Routing tables: what a router takes from its own table into OSPF and BGP, the entry for a prefix from all sources, and
//! the tables of a network that runs no routing protocol.
#![tactic(auto)]

pub mod entry;
pub mod into_ospf;
pub mod local;
mod prefixes;
pub mod tables;

pub use entry::best_entry;
pub use into_ospf::redistribute;
pub use local::originate;
pub use tables::tables_of;
