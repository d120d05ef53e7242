//! What commands of the second program share: their words, the network of their configurations, and how they end.
#![tactic(auto)]

pub mod ending;
pub mod network;
pub mod words;

pub use ending::{ended_by, put_refusal};
pub use network::{load_network, stop_at};
pub use words::{Asked, owned, read_asked_words};
