//! An ask about two networks.

use mw_text::List;
use question_lang::PacketSet;

/// An ask whether packets of the set that begin at the router have the same fates in both networks, with the places
/// of that router in the two. At most so many links may fail.
#[derive(Drop)]
pub struct Same {
    pub name: List<u8>,
    pub left: u32,
    pub right: u32,
    pub packets: PacketSet,
    pub failures: u32,
}
