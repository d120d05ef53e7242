//! Whether tables are a stable routing of a network.
#![tactic(auto)]

mod candidates;
mod checking;
mod decided;
mod differs;
mod entry;
mod ospf;
mod replaying;
mod routing;
mod slots;

pub use arriving_messages::arriving;
pub use checking::check;
pub use differs::{Differs, Part, ReplayNo};
pub use replaying::replay;
