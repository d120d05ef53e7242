//! What becomes of the packets of a world that begin at a router: the fates of all walks from there. The one error of
//! its calls is want of memory.
#![tactic(auto)]

pub mod apart;
mod comparing;
mod ends;
mod fate;
mod ordered;
mod reaching;
mod rounds;

pub use apart::{Apart, Side};
pub use comparing::fate_apart;
pub use ends::fates;
pub use fate::Fate;
pub use ordered::put_fate;
