//! The status of a run of verdicts.

ghost use Rattle.std.specs.Prelude.{◌≡◌, ◌||◌};
ghost use Rattle.run_answers.specs.Answering.{status_seen};
ghost use Rattle.run_answers.specs.Verdicts.{is_broken_verdict, is_unknown_verdict};

use crate::status::Status;
use crate::verdict::Verdict;

/// Which verdicts came so far.
#[derive(Clone, Copy)]
pub struct Seen {
    /// Some was `broken`.
    pub broken: bool,
    /// Some was `unknown`.
    pub unknown: bool,
}

impl Seen {
    /// With one verdict more.
    pub fn with(self, verdict: &Verdict) -> Seen
        ensures broken { result.broken ≡ (self.broken || is_broken_verdict verdict.now) }
        ensures unknown { result.unknown ≡ (self.unknown || is_unknown_verdict verdict.now) }
    {
        match verdict {
            Verdict::Holds => self,
            Verdict::Broken(_) => Seen {
                broken: true,
                unknown: self.unknown,
            },
            Verdict::Unknown(_) => Seen {
                broken: self.broken,
                unknown: true,
            },
        }
    }

    /// How a run of these verdicts ends.
    pub fn status(self) -> Status
        ensures { result ≡ status_seen self }
    {
        if self.broken {
            Status::Bad
        } else if self.unknown {
            Status::Unknown
        } else {
            Status::Good
        }
    }
}
