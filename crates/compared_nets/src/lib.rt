//! When two networks answer an ask alike: under one packet, one environment and one set of failed links. The one error
//! of its calls is want of memory.
#![tactic(auto)]

pub mod differing;

pub use differing::difference;
