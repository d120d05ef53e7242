//! A routing of a network as terms, at the slots of one prefix.

use crate::environment::SymEnv;
use net_model::Net;
use sym_policy::SymNet;
use sym_rib::SymTables;
use term_arith::Bits;

/// The tables of a network, while the links of `sym` have failed and the external peers announce this; and the prefix of
/// that length of a destination at which they are looked at.
#[derive(Clone, Copy)]
pub struct Routing<'a> {
    /// The network.
    pub net: &'a Net,
    /// Which of its links have failed, and the interior distances.
    pub sym: &'a SymNet,
    /// What the external peers announce.
    pub env: &'a SymEnv,
    /// The slots of the routers.
    pub tables: &'a SymTables<'a>,
    /// The destination.
    pub dst: &'a Bits,
    /// The length of the prefix, at most 32.
    pub len: u8,
}
