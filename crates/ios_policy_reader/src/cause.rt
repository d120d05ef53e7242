//! Why a file is refused, and at which line.

ghost use Rattle.std.specs.Prelude.{◌≡◌};

use std::alloc::{AllocError, AllocFailed};

/// Why a line of a file is refused.
#[derive(Clone, Copy, Debug)]
pub enum Cause {
    UnknownCommand,
    BadWord { word: u32 },
    Repeated,
    OutOfPlace,
    Limit,
    NoHostname,
    UnknownRouter,
    UnknownPeer,
    TooManyQuestions,
    Undefined,
    Memory,
}

impl From<AllocError> for Cause {
    ghost use Rattle.ios_policy_reader.specs.declared.cause.Cause.TheVariants.{Memory};

    ghost from_gives = { λ _ cause. cause ≡ Memory };

    fn from(_error: AllocError) -> Cause {
        Cause::Memory
    }
}

impl<T: Drop> From<AllocFailed<T>> for Cause {
    ghost use Rattle.ios_policy_reader.specs.declared.cause.Cause.TheVariants.{Memory};

    ghost from_gives = { λ _ cause. cause ≡ Memory };

    fn from(_error: AllocFailed<T>) -> Cause {
        Cause::Memory
    }
}

/// The line at which a file is refused, counted from 1, and the cause. Want of memory is at line 0.
#[derive(Clone, Copy, Debug)]
pub struct Refused {
    pub line: u32,
    pub cause: Cause,
}

impl From<AllocError> for Refused {
    ghost use Rattle.ios_policy_reader.specs.declared.cause.Cause.TheVariants.{Memory};

    ghost from_gives = { λ _ refused. refused ≡ record { line = 0; cause = Memory } };

    fn from(_error: AllocError) -> Refused {
        Refused {
            line: 0,
            cause: Cause::Memory,
        }
    }
}
