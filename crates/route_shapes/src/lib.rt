//! Routes by their shapes, as plain data: a path by its length, its ends and the tracked numbers that stand in it,
//! communities and clusters by the tracked ones among them. What lists and route maps answer for a route they answer
//! for its shape, where the values that they name are tracked.
#![tactic(auto)]

pub mod laws;
