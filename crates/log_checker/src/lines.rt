//! The lines of a log.

ghost use Rattle.std.specs.Prelude.{◌≡◌, ◌++◌, ◌∷◌, [], None, IfSome, position};
ghost use Rattle.resolution_check.specs.Text.{is_line_feed};
ghost use Rattle.log_checker.specs.Lines.{pieces};

/// A line without its line feed, and what comes after it.
#[derive(Clone, Copy)]
pub struct Line<'a> {
    pub text: &'a [u8],
    pub rest: &'a [u8],
}

// The place of the first line feed.
fn find_feed(bytes: &[u8]) -> Option<usize>
    ensures { result ≡ position is_line_feed bytes.now }
{
    bytes.iter().position(|byte| *byte == b'\n')
}

/// The first line of these bytes; none where no line feed comes.
#[tactic(auto, using(crate::proofs::Cutting::cut_whole, crate::proofs::Cutting::cut_here, crate::proofs::Cutting::cut_none))]
pub fn first_line(bytes: &[u8]) -> Option<Line<'_>>
    ensures line { IfSome result (λ line. bytes.now ≡ line.text.now ++ 10 ∷ line.rest.now) }
    ensures piece { IfSome result (λ line. pieces bytes.now ≡ line.text.now ∷ pieces line.rest.now) }
    ensures none { result ≡ None → pieces bytes.now ≡ bytes.now ∷ [] }
{
    match find_feed(bytes) {
        Some(at) => {
            let (text, _) = bytes.split_at(at);
            let (_, rest) = bytes.split_at(at + 1);
            Some(Line { text, rest })
        }
        None => None,
    }
}
