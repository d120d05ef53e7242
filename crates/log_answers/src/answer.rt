//! Whether a log shows that all questions hold.

ghost use Rattle.std.specs.Prelude.{◌≡◌, ◌<◌, ◌^◌};
ghost use Rattle.log_answers.specs.Answers.{is_yes};
ghost use Rattle.log_answers.specs.Sections.{answer_at_end, no_after};

use log_checker::Cause;

/// Whether a log shows that all questions hold.
#[derive(Drop)]
pub enum LogAnswer {
    /// It does.
    Yes,
    /// It does not: this is wrong with the line of that number, the first that is wrong. Lines count from 1.
    No { line: u64, cause: Cause },
}

impl LogAnswer {
    /// Whether it does.
    pub fn is_yes(&self) -> bool
        ensures { result ≡ is_yes self.now }
    {
        matches!(self, LogAnswer::Yes)
    }
}

/// The answer where so many lines are right and this is wrong with the next.
pub fn wrong_after(lines: usize, cause: Cause) -> LogAnswer
    requires { lines < 2 ^ 63 }
    ensures { result ≡ no_after lines cause }
{
    LogAnswer::No {
        line: lines as u64 + 1,
        cause,
    }
}

/// The answer where so many lines are right, which are all sections, and these bytes are left.
pub fn ended(lines: usize, rest: &[u8]) -> LogAnswer
    requires { lines < 2 ^ 63 }
    ensures { result ≡ answer_at_end lines rest.now }
{
    match rest {
        [] => LogAnswer::Yes,
        [_, ..] => wrong_after(lines, Cause::BadLine),
    }
}
