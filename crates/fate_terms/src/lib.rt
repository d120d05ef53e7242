//! Which fates the packet of a world has that begins at a router, as terms over Boolean variables.
#![tactic(auto)]

pub mod ending;
pub mod named;
mod reaching;

pub use ending::Ending;
pub use named::sym_fates;
