//! A walk of a packet that breaks a question, of every kind. The one error of its calls is want of memory.
#![tactic(auto)]

mod finding;
mod following;
mod layers;
mod rows;
mod sought;

pub use finding::find_walk;
