//! Routers that send nothing of what they hold in BGP: all their neighbours are internal peers and none is a client, and
//! they originate nothing (RFC 4271, section 9.2; RFC 4456, section 5).
#![tactic(auto)]

pub mod laws;
pub mod silent;

pub use silent::{is_behind_silent, is_silent};
