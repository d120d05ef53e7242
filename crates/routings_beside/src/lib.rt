//! Stable routings of two networks side by side, as one formula.
#![tactic(auto)]

pub mod encoding;
pub mod question;
pub mod sides;

pub use encoding::{PairTerms, encode_pair};
pub use sides::Side;
