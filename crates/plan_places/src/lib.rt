//! The places of a plan: at which router and prefix length each slot stands that a formula has, and the tables that follow
//! from what stands there.
#![tactic(auto)]

pub mod places;

pub use places::{Place, find_place, item_among, item_at, lens_of, places_of, single_plan};
