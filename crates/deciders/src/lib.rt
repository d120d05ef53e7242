//! Who chooses the variable that a search decides next.
//!
//! A search asks a decider for each choice, and tells it the variables of each clause that it learns. What a decider
//! answers changes how long a search takes, never what it finds.
#![tactic(auto)]

mod decider;
mod heap;
mod order;
mod recorder;
mod score;

pub use decider::{Choice, Decider, Value};
pub use order::OrderDecider;
pub use recorder::Recorder;
pub use score::ScoreDecider;
