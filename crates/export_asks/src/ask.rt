//! An ask about what a router exports.

use mw_text::{Addr, List, Prefix};

/// An external peer: its router, by its place in the order of the files, and its address.
#[derive(Clone, Copy)]
pub struct AskPeer {
    pub router: u32,
    pub addr: Addr,
}

/// An ask whether some route goes out to an external peer: one for a prefix inside `prefix` whose length is from `low` to
/// `high`; where `learnt` is there, one that was learnt from that external peer. At most so many links may fail.
#[derive(Drop)]
pub struct Ask {
    pub name: List<u8>,
    pub to: AskPeer,
    pub learnt: Option<AskPeer>,
    pub prefix: Prefix,
    pub low: u8,
    pub high: u8,
    pub failures: u32,
}
