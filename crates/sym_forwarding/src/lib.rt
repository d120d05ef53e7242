//! Where routers send a packet, and which walks follow from that, as terms over Boolean variables: next hops out of
//! interfaces, over adjacencies and of static routes, and the layers of walks over a table of what each router does.
//! The entries of routing tables, which decide between them, are those of `sym_walk`.
#![tactic(auto)]

mod adjacent;
mod aims;
mod begins;
mod broken;
mod choices;
mod connected;
mod distances;
mod firsts;
mod forwarding;
mod here;
pub mod laws;
mod layers;
mod lists;
mod over;
mod own;
mod owners;
mod permits;
mod prefixes;
mod reaching;
mod sending;
mod sent;
mod statics;
mod still;
mod towards;

pub use adjacent::{sym_send_adjacent, sym_up_from};
pub use aims::SymAim;
pub use begins::sym_begin;
pub use broken::sym_broken;
pub use choices::{choose_forwarding, join_forwarding};
pub use connected::sym_connected;
pub use forwarding::{SymBeginning, SymEdge, SymForwarding};
pub use here::sym_here;
pub use layers::sym_loops;
pub use lists::sym_ends;
pub use over::sym_send_over;
pub use own::sym_own;
pub use permits::{sym_permits_in, sym_permits_out};
pub use sent::Sent;
pub use statics::{sym_static, sym_statics};
pub use still::still_forwarding;
pub use towards::sym_bgp_hops;
