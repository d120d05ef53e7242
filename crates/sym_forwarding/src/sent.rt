//! A packet that is sent through a network, and all by which its next hops are told.

use crate::aims::SymAim;
use net_model::Net;
use sym_policy::{SymNet, SymPacket};

/// A packet that is sent through the network while the links of `sym` have failed, and the ends that its walk is to have.
#[derive(Clone, Copy)]
pub struct Sent<'a> {
    /// The network.
    pub net: &'a Net,
    /// Which of its links have failed.
    pub sym: &'a SymNet,
    /// The packet.
    pub packet: &'a SymPacket,
    /// The ends that are sought.
    pub aim: &'a SymAim,
}
