//! Walks of a packet: the next hops of each router, and whether a list of standings is a walk and breaks a question. The one
//! error of its calls is want of memory.
#![tactic(auto)]

mod adjacent;
pub mod arriving;
pub mod breaking;
mod filters;
pub mod hops;
pub mod marks;
pub mod once;
mod open;
pub mod walking;

pub use breaking::{asks_no_stable, breaks};
pub use once::next_hops;
pub use route_record::World;
pub use walking::is_walk;
