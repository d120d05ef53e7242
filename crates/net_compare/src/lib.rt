//! The command `compare`: whether packets have the same fates in two networks.
#![tactic(auto)]

pub mod answers;
pub mod running;

pub use compared_nets::difference;
pub use packet_fates::{Apart, Fate, Side, fates};
pub use pair_search::verdict::SameVerdict;
pub use running::run_compare;
pub use same_asks::{Same, read_same};
