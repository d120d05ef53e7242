//! What a false clause teaches: the clause of the first unique implication point, with the chain that gives it.
#![tactic(auto)]

mod following;
mod marks;
mod staying;
mod trail;
mod work;

pub use trail::Trail;
pub use work::{Work, analyse};
