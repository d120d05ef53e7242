//! What becomes of channels: deliveries, and changes that are planned for all of them before any is made, so that want of
//! memory leaves all as they were.
#![tactic(auto)]

mod channels;
mod making;

pub use channels::{Change, change_all, deliver_at, have_room, post};
pub use making::{add_greeting, nothing_received, one, silent};
