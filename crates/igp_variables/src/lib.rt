//! The interior distances of a network as unknowns of a formula: their routes of new variables, and whether they are the
//! distances, as a term.
#![tactic(auto)]

mod equations;
pub mod laws;
mod rows;

pub use equations::sym_distances;
pub use rows::open_rows;
