//! The command `trim`: writes the trimmed form of a log.
#![tactic(auto)]

pub mod causes;
pub mod running;
pub mod words;
pub mod work;

pub use running::{put_usage, run_trim, trim_words};
pub use trimmed_logs::trim;
