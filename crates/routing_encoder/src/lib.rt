//! The routings of a question as a formula over Boolean variables, whose solutions are those that break the question.
#![tactic(auto)]

mod announced;
mod asked;
mod copies;
mod decided;
mod encoding;
mod ending;
mod following;
mod frame;
mod last;
mod looping;
mod opening;
mod outside;
mod possible;
mod routes;
mod routing;
mod slots;
mod sought;
mod wanted;
mod world;

pub use announced::sym_all_announced;
pub use asked::sym_asked;
pub use decided::sym_all_decided;
pub use encoding::{Encoding, encode};
pub use frame::Frame;
pub use opening::OpenRouting;
pub use wanted::sym_all_wanted;
pub use world::{OpenWorld, open_world};
