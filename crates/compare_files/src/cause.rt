//! The causes of pairs of networks that are refused, by their numbers and their words.

ghost use Rattle.std.specs.Prelude.{◌≡◌};
ghost use Rattle.compare_files.specs.Causes as causes;

use paired_nets::PairCause;

/// The number of a cause.
pub fn cause_number(cause: PairCause) -> u32
    ensures { result ≡ causes.cause_number cause }
{
    match cause {
        PairCause::PeerDiffers => 40,
        PairCause::PairLimit => 41,
    }
}

/// The words of a cause, which stand behind its number.
pub fn cause_words(cause: PairCause) -> &'static [u8]
    ensures { result.now ≡ causes.cause_words cause }
{
    match cause {
        PairCause::PeerDiffers => b"PeerDiffers",
        PairCause::PairLimit => b"PairLimit",
    }
}
