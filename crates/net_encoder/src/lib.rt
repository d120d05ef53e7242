//! A question about a network as a formula: its solutions are the routings that break the question, and from one of them a
//! counterexample is made.
#![tactic(auto)]

mod decoding;

pub use decoding::decode;
pub use routing_encoder::{Encoding, encode};
