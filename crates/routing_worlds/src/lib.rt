//! The worlds and environments that values of variables stand for in a network with BGP, and the laws that tie them to its
//! routings.
#![tactic(auto)]

pub mod laws;
mod words;

pub use words::{read_network, read_words};
