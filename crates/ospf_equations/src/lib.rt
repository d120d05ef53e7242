//! Whether the OSPF routes of a routing are those that its routers hold, as a term: a route is the best of what its
//! router originates and is offered. Beside that, limits of costs help a search alone.
#![tactic(auto)]

mod adjacent;
mod costs;
mod dynamic;
mod even;
mod holding;
mod least;
mod levels;
mod limits;
mod offers;
mod origins;
mod reached;

pub use dynamic::{sym_dynamic, with_dynamic};
pub use holding::sym_slot_holds;
pub use least::sym_dearer;
pub use limits::{AllLimits, limits_of};
pub use origins::SlotPlace;
pub use reached::{reached_law, sym_reached};
