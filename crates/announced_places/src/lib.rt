//! Announcements by place: of each external end at each prefix length one may be there; and the environment that follows
//! from their shapes. Plain data: the laws say where an announcement is found, and in which order they stand.
#![tactic(auto)]

pub mod laws;
