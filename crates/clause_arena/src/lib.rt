//! The clauses of a search, in one vector of words, with the lists of the literals that are watched.
#![tactic(auto)]

mod adding;
mod arena;
mod compacting;
mod deleting;
mod moving;
mod names;
mod numbers;
mod reading;
mod walking;

pub use arena::Arena;
pub use names::{ClauseRef, Watch};
