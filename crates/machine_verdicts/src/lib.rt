//! What a verdict on a question says of the machine of messages.
#![tactic(auto)]

pub mod laws;
