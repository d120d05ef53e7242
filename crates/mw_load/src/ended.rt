//! How a command ends.

ghost use Rattle.std.specs.Prelude.{◌≡◌};
ghost use Rattle.mw_load.specs.Ended.{number_of};

/// How a command ends.
#[derive(Clone, Copy, PartialEq, Eq)]
pub enum Ended {
    /// All is well: no answer is against what was asked.
    Good,
    /// Some answer is.
    Bad,
    /// Some answer is not known, and no other is against what was asked.
    Unknown,
    /// The words are no command.
    Usage,
    /// A file is refused.
    Refused,
    /// A read failed.
    ReadFault,
    /// A write failed.
    WriteFault,
    /// Memory was refused.
    Memory,
}

/// The status of the program, from 0 to 7.
pub fn number_of(ended: Ended) -> u8
    ensures { result ≡ number_of ended }
{
    match ended {
        Ended::Good => 0,
        Ended::Bad => 1,
        Ended::Unknown => 2,
        Ended::Usage => 3,
        Ended::Refused => 4,
        Ended::ReadFault => 5,
        Ended::WriteFault => 6,
        Ended::Memory => 7,
    }
}
