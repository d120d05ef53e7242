//! What goes out over the channels of the machine: which are up, what their far sides send, and what becomes of all
//! channels where a slot was written or links failed, planned before any channel is changed.
#![tactic(auto)]

mod places;
mod plans;
mod renewing;
mod sending;

pub use places::{arriving_at, is_outside_at, session_up_at};
pub use plans::{Plan, Written, install, plan_renewed, plan_told};
