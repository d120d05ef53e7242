//! Which lines are left aside with a refused one, and the text without them.

ghost use Rattle.std.specs.Prelude.{◌≡◌, ◌≤◌, ◌<◌, ◌+◌, ◌||◌, ◌++◌, IfOk, OnOk, not, length, map, position};
ghost use Rattle.mw_text.specs.Words.{is_blank};
ghost use Rattle.config_lint.specs.Asides.{depth, is_deeper, block_size, second_word, is_of_neighbour, with_line, EachIsWith, EachGoesWith, cut_line, cut_lines};

use config_prepare::kinds::begins_with;
use config_prepare::text::put_piece;
use mw_text::{Line, List, same_bytes, says_nothing};
use std::alloc::{AllocError, Global};

fn is_blank_byte(b: u8) -> bool
    ensures { result ≡ is_blank b }
{
    b == b' ' || b == b'\t'
}

/// The place of the first byte that is no blank.
fn word_place(raw: &[u8]) -> Option<usize>
    ensures { result ≡ position (λ b. not (is_blank b)) raw.now }
{
    raw.iter().position(|b| !is_blank_byte(*b))
}

/// How many blanks a line begins with.
fn depth_of(raw: &[u8]) -> usize
    ensures { result ≡ depth raw.now }
{
    match word_place(raw) {
        Some(at) => at,
        None => raw.len(),
    }
}

/// Whether a line is in the block that another one opens.
fn is_in_block(line: &Line, other: &Line) -> bool
    ensures { result ≡ is_deeper line.now other.now }
{
    says_nothing(other.words.as_slice())
        || depth_of(line.raw.as_slice()) < depth_of(other.raw.as_slice())
}

/// How many of the lines after a line its block has.
fn size_of_block(line: &Line, rest: &[Line]) -> usize
    ensures value { result ≡ block_size line.now rest.now }
    ensures within { result ≤ length rest.now }
{
    rest.iter()
        .take_while(|other| is_in_block(line, other))
        .count()
}

/// The word after the first.
fn word_after_first(line: &Line) -> &[u8]
    ensures { result.now ≡ second_word line.now }
{
    match line.words.as_slice().get(1) {
        Some(word) => word.as_slice(),
        None => b"",
    }
}

/// Whether a line is on the neighbour that another one names by `remote-as`.
fn is_on_neighbour(line: &Line, other: &Line) -> bool
    ensures { result ≡ is_of_neighbour line.now other.now }
{
    begins_with(b"neighbor * remote-as", line.words.as_slice())
        && begins_with(b"neighbor", other.words.as_slice())
        && same_bytes(word_after_first(line), word_after_first(other))
}

/// Whether a line goes with another one, by their numbers and the last one of that one's block.
fn is_with(line: &Line, n: usize, end: usize, other: &Line, k: usize) -> bool
    ensures { result ≡ with_line line.now n end other.now k }
{
    k == n || (n < k && (k <= end || is_on_neighbour(line, other)))
}

fn either(a: bool, b: bool) -> bool
    ensures { result ≡ (a || b) }
{
    a || b
}

/// Sets the sign of each line that goes with a line, whose block ends at that number.
fn mark_with(lines: &[Line], line: &Line, n: usize, end: usize, flags: &mut [bool])
    requires { length flags.old ≡ length lines.now }
    ensures { EachIsWith lines.now line.now n end flags.old flags.new }
{
    for k in 0..flags.len() {
        flags[k] = either(flags[k], is_with(line, n, end, &lines[k], k + 1));
    }
}

/// Leaves aside the line of that number, with its block and with the later lines on the neighbour that it names.
pub fn leave_aside(lines: &[Line], n: usize, flags: &mut [bool])
    requires some { 0 < n }
    requires within { n ≤ length lines.now }
    requires fit { length flags.old ≡ length lines.now }
    ensures { EachGoesWith lines.now n flags.old flags.new }
{
    let line = &lines[n - 1];
    let end = n + size_of_block(line, &lines[n..]);
    mark_with(lines, line, n, end, flags);
}

/// Puts a line, or an empty one in its place, behind a text.
fn put_cut(text: &mut List<u8>, is_cut: bool, line: &[u8]) -> Result<(), AllocError>
    ensures { OnOk result (text.new ≡ text.old ++ cut_line (line.now, is_cut)) }
{
    if is_cut {
        put_piece(text, b"\n")
    } else {
        put_piece(text, line)
    }
}

/// The text of these lines, of which each that is left aside is empty.
pub fn cut_text(alloc: Global, lines: &[&[u8]], flags: &[bool]) -> Result<List<u8>, AllocError>
    requires { length lines.now ≡ length flags.now }
    ensures { IfOk result (λ text. text ≡ cut_lines (map (λ line. line.now) lines.now) flags.now) }
{
    let mut text = List::new(alloc);
    for at in 0..lines.len() {
        put_cut(&mut text, flags[at], lines[at])?;
    }
    Ok(text)
}
