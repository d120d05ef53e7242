//! Two networks as one formula, which is true exactly of what makes them answer an ask differently: one packet, one
//! environment and one set of failed links with two stable routings, one of each network, in which the packet's fates
//! are not the same. The one error of its calls is want of memory.
#![tactic(auto)]

mod differing;
pub mod encoding;
mod tied;

pub use encoding::{ComparedTerms, encode_compared};
