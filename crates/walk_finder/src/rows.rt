//! What each router does with a packet, as a question looks at it.

use mw_text::List;
use question_lang::{End, Hop};

/// The next hops of a router, with one of its ends that a question looks for, where there is one.
#[derive(Drop)]
pub struct Row {
    pub hops: List<Hop>,
    pub end: Option<End>,
}
