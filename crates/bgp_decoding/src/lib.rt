//! The routing that values of the variables of a question say, in a network with BGP: the real world and its environment.
#![tactic(auto)]

mod decoding;
mod inside;
mod outside;
mod placing;
mod slots;

pub use decoding::{Decoded, decode_routing};
