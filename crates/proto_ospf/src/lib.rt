//! OSPF: interior distances, next-hop resolution, the states of BGP sessions, and the routes that a router offers. The one
//! error of its calls is want of memory.
#![tactic(auto)]

mod distances;
mod offers;
mod reached;
mod rounds;
mod sending;
mod sessions;
mod states;

pub use distances::{distances_over, distances_to, igp_distance, originates, own_cost};
pub use offers::{better_of, first_best, offer, prefer, transfer};
pub use reached::{Reached, all_distances, resolve, resolve_over};
pub use rounds::Receiver;
pub use sending::sent_towards;
pub use sessions::{is_up_at_end, session_up, sessions_up};
pub use states::{adjacencies_up, receivers, up_adjacencies};
