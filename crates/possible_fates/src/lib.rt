//! Which fates packets can have in a network at all, from any router and in any stable routing: a finite list. The one
//! error of its calls is want of memory.
#![tactic(auto)]

mod possible;

pub use possible::{all_possible, possible_fates};
