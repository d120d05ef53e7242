ghost use Rattle.std.specs.Prelude.{◌≡◌};
ghost use Rattle.resolution_check.specs.Clauses.{has};

use mw_text::List;
use std::alloc::{AllocError, AllocFailed};
use thiserror::Error;

/// A literal: a variable, or its negation.
#[derive(Clone, Copy, Default, PartialEq, Eq)]
pub struct Lit {
    /// The variable's number, from 0 on.
    pub var: u64,
    /// Whether the literal is the variable's negation.
    pub negated: bool,
}

/// A clause: true where one of its literals is. Their order and repetitions mean nothing.
#[derive(Clone, Drop)]
pub struct Clause {
    pub lits: List<Lit>,
}

/// One entry of a log.
#[derive(Drop)]
pub enum Entry {
    /// A clause that is given.
    Input {
        id: u64,
        clause: Clause,
    },
    /// A clause that follows from those of the chain, resolved from its front.
    Add {
        id: u64,
        clause: Clause,
        chain: List<u64>,
    },
    /// The clause of this number is not used any more.
    Delete {
        id: u64,
    },
    /// Nothing follows.
    End,
}

/// Why an entry is refused.
#[derive(Clone, Copy, Debug, PartialEq, Eq, Error)]
pub enum Bad {
    /// No clause is held under this number.
    #[error("no clause is held under number {id}")]
    UnknownId { id: u64 },
    /// At this place of the chain, counted from 0, no literal or more than one meets its negation.
    #[error("no pivot at place {at} of the chain")]
    NoPivot { at: u64 },
    /// The last resolvent has a literal that the claimed clause has not.
    #[error("the last resolvent is not inside the claimed clause")]
    NotCovered,
    /// The number was given before.
    #[error("number {id} was given before")]
    UsedId { id: u64 },
    /// The log has ended.
    #[error("the log has ended")]
    AfterEnd,
    /// Memory was refused.
    #[error("out of memory")]
    Memory,
}

/// Why a line is refused.
#[derive(Clone, Copy, Debug, PartialEq, Eq, Error)]
pub enum LineRefused {
    /// The line is no entry's text.
    #[error("the line is no entry's text")]
    BadLine,
    /// Memory was refused.
    #[error("out of memory")]
    Memory,
}

impl From<AllocError> for Bad {
    ghost use Rattle.resolution_check.specs.declared.log.Bad.TheVariants.{Memory};

    ghost from_gives = { λ _ bad. bad ≡ Memory };

    fn from(_error: AllocError) -> Bad {
        Bad::Memory
    }
}

impl<T: Drop> From<AllocFailed<T>> for Bad {
    ghost use Rattle.resolution_check.specs.declared.log.Bad.TheVariants.{Memory};

    ghost from_gives = { λ _ bad. bad ≡ Memory };

    fn from(_error: AllocFailed<T>) -> Bad {
        Bad::Memory
    }
}

impl<T: Drop> From<AllocFailed<T>> for LineRefused {
    ghost use Rattle.resolution_check.specs.declared.log.LineRefused.TheVariants.{Memory};

    ghost from_gives = { λ _ refusal. refusal ≡ Memory };

    fn from(_error: AllocFailed<T>) -> LineRefused {
        LineRefused::Memory
    }
}

impl Lit {
    ghost use Rattle.resolution_check.specs.Clauses.{opposite};

    /// The same variable in the other sign.
    pub fn opposite(self) -> Lit
        ensures { result ≡ opposite self }
    {
        Lit {
            var: self.var,
            negated: !self.negated,
        }
    }
}

/// Whether the literal stands among these.
pub fn has_literal(lits: &[Lit], lit: Lit) -> bool
    ensures { result ≡ has lits.now lit }
{
    for other in lits {
        if *other == lit {
            return true;
        }
    }
    false
}
