//! The machine of messages between the routers of a network, for one destination: one state that events change, one by
//! one. A quiet state's tables are a stable routing, after whatever list of events.
#![tactic(auto)]

mod announcements;
mod announcing;
mod deciding;
mod failing;
mod next;
mod running;
mod starting;
mod taking;

pub use machine_laws::{Event, EventRefused};
pub use machine_sending::is_outside_at;
pub use running::Machine;
