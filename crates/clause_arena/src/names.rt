//! The names of clauses and of watches.

/// A clause that is held. Compaction changes it; the clause's number stays.
#[derive(Clone, Copy, PartialEq, Eq)]
pub struct ClauseRef(pub u64);

/// A watch of a clause: its literal is the clause's literal at place 0 or 1.
#[derive(Clone, Copy)]
pub struct Watch {
    pub clause: ClauseRef,
    pub side: u8,
}
