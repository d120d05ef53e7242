//! What is found of a question.

use cex_json::Counterexample;

/// With how few failed links something breaks a question.
#[derive(Drop)]
pub enum Least {
    /// With k, as this shows, and with no fewer.
    At { k: u32, cex: Counterexample },
    /// Not with k, as many as the question allows.
    NoneUpTo { k: u32 },
    /// With no fewer than k; whether with k was not found out.
    Unknown { k: u32 },
}

/// Why nothing is said of it.
#[derive(Clone, Copy)]
pub enum LeastFault {
    /// A write of the log failed.
    LogFault,
    /// Memory was refused.
    Memory,
}
