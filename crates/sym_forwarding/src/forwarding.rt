//! What routers do with a packet, as terms.

use term_store::NodeId;

/// A router to which another may send the packet, by its place, and the node that says whether it does.
#[derive(Clone, Copy, Drop)]
pub struct SymEdge {
    pub when: NodeId,
    pub to: u32,
}

/// Where a router may send the packet, and whether a walk may end there as the question asks.
#[derive(Drop)]
pub struct SymForwarding {
    pub next: Vec<SymEdge>,
    pub ends: NodeId,
}

/// What is known of the start of a walk: a walk may begin there, or the in list of its interface denies the packet.
#[derive(Clone, Copy, Drop)]
pub struct SymBeginning {
    pub begins: NodeId,
    pub denied: NodeId,
}
