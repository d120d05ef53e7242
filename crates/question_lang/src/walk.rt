//! Walks of a packet through a network.

use crate::question::Start;
use mw_text::{Addr, List};
use net_model::IfaceId;

/// How a walk ends.
#[derive(Clone, Copy, PartialEq, Eq)]
pub enum End {
    /// At the packet's destination, or on its subnet.
    Delivered,
    /// Out of the network, to this address.
    Left(Addr),
    /// At a router without an entry for the destination.
    NoRoute,
    /// At Null0.
    Discarded,
    /// At the list of an incoming interface.
    DeniedIn(IfaceId),
    /// At the list of an outgoing interface.
    DeniedOut,
    /// At a router that was stood at before.
    Loop,
    /// Not yet.
    Open,
}

/// What a router does with a packet: it sends it in at an interface of a router, or the walk ends.
#[derive(Clone, Copy, PartialEq, Eq)]
pub enum Hop {
    To(IfaceId),
    Ends(End),
}

/// The routers that a packet stands at, in their order, and how it ends.
#[derive(Drop)]
pub struct Walk {
    pub hops: List<Start>,
    pub end: End,
}
