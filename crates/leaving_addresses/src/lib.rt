//! To which addresses packets can leave a network at a router, in any stable routing. The one error of its calls is want
//! of memory.
#![tactic(auto)]

pub mod laws;
mod leaving;

pub use leaving::leaving_addresses;
