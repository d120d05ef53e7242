//! The lines of an events file: what each orders of a machine of messages, or why it is none.
#![tactic(auto)]

mod heads;
mod named;
mod orders;
mod said;
mod table;

pub use heads::{Form, Head, find_head};
pub use orders::{Order, read_order};
pub use table::MOST_TURNS;
