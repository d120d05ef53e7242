//! The machine of messages between routers, as plain data: its states and events, what each event makes of a state, and
//! that every quiet state is a stable routing.
#![tactic(auto)]

pub mod laws;
mod state;

pub use state::{Channel, Event, EventRefused, Mail, State};
