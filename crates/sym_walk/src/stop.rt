//! A packet at a router, and all by which the router sends it on.

use net_model::Net;
use sym_policy::{SymNet, SymPacket};
use sym_rib::SymTables;

/// A packet at a router of the network, which sends it on by these tables, while the links of `sym` have failed.
#[derive(Clone, Copy)]
pub(crate) struct Stop<'a> {
    pub(crate) net: &'a Net,
    pub(crate) sym: &'a SymNet,
    pub(crate) tables: &'a SymTables<'a>,
    pub(crate) packet: &'a SymPacket,
    pub(crate) router: u32,
}
