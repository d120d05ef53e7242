//! What a search answers.

use mw_outside::Failed;
use mw_text::List;
use std::alloc::{AllocError, AllocFailed};
use thiserror::Error;

/// What a search found.
#[derive(Drop)]
pub enum Outcome {
    /// No assignment satisfies the clauses: the log adds the empty clause.
    Unsat,
    /// The value of each variable, by its number: together they satisfy the clauses.
    Sat { values: List<bool> },
    /// So many clauses were added, none of them empty, and no more were allowed.
    Unknown { added: u64 },
}

/// Why a search stopped without an outcome.
#[derive(Clone, Copy, Debug, PartialEq, Eq, Error)]
pub enum SolveFault {
    /// A write of the log failed.
    #[error("a write of the log failed")]
    LogFault,
    /// Memory was refused.
    #[error("out of memory")]
    Memory,
}

impl From<Failed> for SolveFault {
    ghost use Rattle.std.specs.Prelude.{◌≡◌};
    ghost use Rattle.cdcl_search.specs.declared.outcome.SolveFault.TheVariants.{LogFault};

    ghost from_gives = { λ _ fault. fault ≡ LogFault };

    fn from(_error: Failed) -> SolveFault {
        SolveFault::LogFault
    }
}

impl From<AllocError> for SolveFault {
    ghost use Rattle.std.specs.Prelude.{◌≡◌};
    ghost use Rattle.cdcl_search.specs.declared.outcome.SolveFault.TheVariants.{Memory};

    ghost from_gives = { λ _ fault. fault ≡ Memory };

    fn from(_error: AllocError) -> SolveFault {
        SolveFault::Memory
    }
}

impl<T: Drop> From<AllocFailed<T>> for SolveFault {
    ghost use Rattle.std.specs.Prelude.{◌≡◌};
    ghost use Rattle.cdcl_search.specs.declared.outcome.SolveFault.TheVariants.{Memory};

    ghost from_gives = { λ _ fault. fault ≡ Memory };

    fn from(_error: AllocFailed<T>) -> SolveFault {
        SolveFault::Memory
    }
}
