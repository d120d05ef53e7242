//! A counterexample as it is told to a person: what was wanted, the packet, the failed links, what external peers announce,
//! and the walk, router by router, with the entry of the table that sent the packet on and the lines behind it.
#![tactic(auto)]

mod asked;
pub mod drawn;
mod ended;
mod entries;
mod imports;
mod lists;
mod origins;
mod outside;
pub mod page;
mod places;
mod routes;
pub mod scenes;
mod steps;
mod surroundings;
pub mod telling;

pub use drawn::drawing;
pub use scenes::Scene;
pub use telling::story;
