//! What is wrong with a line of a log, by its number and its name.

ghost use Rattle.std.specs.Prelude.{◌≡◌};
ghost use Rattle.log_trim.specs.Texts as texts;

use log_checker::Cause;
use resolution_check::Bad;

fn bad_number(bad: Bad) -> u32
    ensures { result ≡ texts.bad_number bad }
{
    match bad {
        Bad::UnknownId { .. } => 31,
        Bad::NoPivot { .. } => 32,
        Bad::NotCovered => 33,
        Bad::UsedId { .. } => 34,
        Bad::AfterEnd => 35,
        Bad::Memory => 0,
    }
}

fn bad_words(bad: Bad) -> &'static [u8]
    ensures { result.now ≡ texts.bad_words bad }
{
    match bad {
        Bad::UnknownId { .. } => b"UnknownId",
        Bad::NoPivot { .. } => b"NoPivot",
        Bad::NotCovered => b"NotCovered",
        Bad::UsedId { .. } => b"UsedId",
        Bad::AfterEnd => b"AfterEnd",
        Bad::Memory => b"",
    }
}

/// The number of a cause.
pub fn cause_number(cause: &Cause) -> u32
    ensures { result ≡ texts.cause_number cause.now }
{
    match cause {
        Cause::BadLine => 36,
        Cause::InputDiffers(_) => 37,
        Cause::Refused(bad) => bad_number(*bad),
        Cause::NotRefuted => 38,
        Cause::Missing => 39,
    }
}

/// The name of a cause.
pub fn cause_words(cause: &Cause) -> &'static [u8]
    ensures { result.now ≡ texts.cause_words cause.now }
{
    match cause {
        Cause::BadLine => b"BadLine",
        Cause::InputDiffers(_) => b"InputDiffers",
        Cause::Refused(bad) => bad_words(*bad),
        Cause::NotRefuted => b"NotRefuted",
        Cause::Missing => b"Missing",
    }
}
