//! Two networks side by side: which external peers, environments and failed links they have in common, and which
//! pairs are refused. The one error of its calls is want of memory.
#![tactic(auto)]

pub mod ends;
pub mod limits;
pub mod links;
pub mod peers;
pub mod refused;

pub use ends::{EndPair, common_ends};
pub use links::{LinkPair, common_links};
pub use refused::{PairCause, PairRefused, pair_refusal};
