//! Words that are AS-path patterns.

ghost use Rattle.std.specs.Prelude.{◌≡◌, ◌≤◌, length};
ghost use Rattle.ios_policy_reader.specs.Patterns.{is_between, number_inside, numbered_pattern, pattern_of};

use crate::words::read_range;
use ios_ast::Pattern;
use mw_text::same_bytes;

fn stands_between(word: &[u8], first: u8, last: u8) -> bool
    ensures { result ≡ is_between first last word.now }
{
    word.len() >= 2 && word[0] == first && word[word.len() - 1] == last
}

/// The number of an autonomous system between the first and the last byte.
fn read_inside(word: &[u8]) -> Option<u32>
    requires { 2 ≤ length word.now }
    ensures { result ≡ number_inside word.now }
{
    read_range(&word[1..word.len() - 1], 1, 0xffff_ffff)
}

fn read_numbered(word: &[u8]) -> Option<Pattern>
    ensures { result ≡ numbered_pattern word.now }
{
    if stands_between(word, b'^', b'$') {
        Some(Pattern::Only(read_inside(word)?))
    } else if stands_between(word, b'^', b'_') {
        Some(Pattern::First(read_inside(word)?))
    } else if stands_between(word, b'_', b'$') {
        Some(Pattern::Last(read_inside(word)?))
    } else if stands_between(word, b'_', b'_') {
        Some(Pattern::Has(read_inside(word)?))
    } else {
        None
    }
}

/// The pattern that the word is.
pub fn read_pattern(word: &[u8]) -> Option<Pattern>
    ensures { result ≡ pattern_of word.now }
{
    if same_bytes(word, b"^$") {
        Some(Pattern::Empty)
    } else if same_bytes(word, b".*") {
        Some(Pattern::Any)
    } else {
        read_numbered(word)
    }
}
