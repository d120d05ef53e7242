//! What values of variables say of BGP routes: numbers, paths and sets of marks, as fields of routes.
#![tactic(auto)]

mod ids;
pub mod laws;
mod marks;
mod routes;
mod rows;

pub use ids::addresses_at;
pub use marks::{marks_at, marks_size};
pub use routes::{
    PathTold, address_of, known_at, learnt_of, lists_at, long_told_at, path_at, told_at,
    with_preferences,
};
pub use rows::{routes_at, routes_end};
