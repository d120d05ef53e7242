//! Length classes: prefix lengths that are the same to every line of the files share slices, and so a routing has few
//! slots.
#![tactic(auto)]

mod cuts;
mod plans;

pub use plans::plan_of;
