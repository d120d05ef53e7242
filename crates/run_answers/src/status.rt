//! How a run ends.

ghost use Rattle.std.specs.Prelude.{◌≡◌};
ghost use Rattle.run_answers.specs.Numbers.{status_number};

/// How a run ends.
#[derive(Clone, Copy)]
pub enum Status {
    /// Every verdict is `holds`, or the answer is `yes` or `quiet`.
    Good,
    /// Some verdict is `broken`, or the answer is `no` or `busy`.
    Bad,
    /// Some verdict is `unknown`, and none is `broken`.
    Unknown,
    /// The words are no command.
    Usage,
    /// A file is refused.
    Refused,
    /// A read of a named file failed.
    ReadFault,
    /// A write failed.
    WriteFault,
    /// Memory is wanting.
    Memory,
}

/// The number that is the program's exit status: 0 to 7.
pub fn number_of(status: Status) -> u8
    ensures { result ≡ status_number status }
{
    match status {
        Status::Good => 0,
        Status::Bad => 1,
        Status::Unknown => 2,
        Status::Usage => 3,
        Status::Refused => 4,
        Status::ReadFault => 5,
        Status::WriteFault => 6,
        Status::Memory => 7,
    }
}
