//! Interfaces and their prefixes over Boolean variables: which interfaces are up while some links have failed.
//!
//! A reading of the store turns the nodes of the links into the links that have failed, so a call here stands for what
//! the definitions of `net_model` say of these.
#![tactic(auto)]

mod links;
pub mod prefixes;

pub use links::{sym_up, sym_up_at};
