//! Banners: texts between two delimiters, over one or more lines.

ghost use Rattle.std.specs.Prelude.{◌≡◌, ◌==◌, not, position, slice_index};
ghost use Rattle.std.specs.List.{list_any};
ghost use Rattle.mw_text.specs.Words.{is_blank};
ghost use Rattle.ios_reader.specs.Banners.{after_word, after_blanks, banner_text, begins_caret, has_caret, delimiter_of, after_delimiter, holds, ends_on_line, has_end};

use crate::draft::Delimiter;
use mw_text::Line;

fn is_blank_byte(b: u8) -> bool
    ensures { result ≡ is_blank b }
{
    b == b' ' || b == b'\t'
}

fn blank_place(raw: &[u8]) -> Option<usize>
    ensures { result ≡ position is_blank raw.now }
{
    raw.iter().position(|b| is_blank_byte(*b))
}

fn word_place(raw: &[u8]) -> Option<usize>
    ensures { result ≡ position (λ b. not (is_blank b)) raw.now }
{
    raw.iter().position(|b| !is_blank_byte(*b))
}

/// What stands from the first blank on.
fn skip_word(raw: &[u8]) -> &[u8]
    ensures { result.now ≡ after_word raw.now }
{
    match blank_place(raw) {
        Some(at) => &raw[at..],
        None => &[],
    }
}

/// What stands from the first byte on that is no blank.
fn skip_blanks(raw: &[u8]) -> &[u8]
    ensures { result.now ≡ after_blanks raw.now }
{
    match word_place(raw) {
        Some(at) => &raw[at..],
        None => &[],
    }
}

/// The text of a banner: what stands from the third word of its line on.
fn text_of(raw: &[u8]) -> &[u8]
    ensures { result.now ≡ banner_text raw.now }
{
    skip_blanks(skip_word(skip_blanks(skip_word(raw))))
}

/// Whether the text begins with `^C`.
fn begins_with_caret(text: &[u8]) -> bool
    ensures { result ≡ begins_caret text.now }
{
    text.len() >= 2 && text[0] == b'^' && text[1] == b'C'
}

/// Whether `^C` stands in the text.
#[tactic(auto, using(crate::proofs::Carets::caret_found, crate::proofs::Carets::caret_passed))]
fn contains_caret(text: &[u8]) -> bool
    ensures { result ≡ has_caret text.now }
{
    for at in 0..text.len() {
        if begins_with_caret(&text[at..]) {
            return true;
        }
    }
    false
}

fn contains_byte(byte: u8, text: &[u8]) -> bool
    ensures { result ≡ list_any (λ b. b == byte) text.now }
{
    text.iter().any(|b| *b == byte)
}

/// Whether the delimiter stands in the text.
pub fn contains_delimiter(delimiter: Delimiter, text: &[u8]) -> bool
    ensures { result ≡ holds delimiter text.now }
{
    match delimiter {
        Delimiter::CaretC => contains_caret(text),
        Delimiter::Byte(byte) => contains_byte(byte, text),
    }
}

/// The delimiter with which a text begins.
fn first_delimiter(text: &[u8]) -> Delimiter
    ensures { result ≡ delimiter_of text.now }
{
    if begins_with_caret(text) {
        return Delimiter::CaretC;
    }
    match text.first() {
        Some(byte) => Delimiter::Byte(*byte),
        None => Delimiter::Byte(0),
    }
}

/// The text after the delimiter with which it begins.
fn skip_delimiter(text: &[u8]) -> &[u8]
    ensures { result.now ≡ after_delimiter text.now }
{
    if begins_with_caret(text) {
        &text[2..]
    } else if text.is_empty() {
        text
    } else {
        &text[1..]
    }
}

/// The delimiter of the banner of a line.
pub fn delimiter_of_line(raw: &[u8]) -> Delimiter
    ensures { result ≡ delimiter_of (banner_text raw.now) }
{
    first_delimiter(text_of(raw))
}

/// Whether a banner ends on its own line.
pub fn ends_on_its_line(raw: &[u8]) -> bool
    ensures { result ≡ ends_on_line raw.now }
{
    let text = text_of(raw);
    contains_delimiter(first_delimiter(text), skip_delimiter(text))
}

/// Whether some of the lines has the delimiter.
pub fn is_ended_in(delimiter: Delimiter, lines: &[Line]) -> bool
    ensures { result ≡ has_end delimiter lines.now }
{
    lines
        .iter()
        .any(|line| contains_delimiter(delimiter, line.raw.as_slice()))
}
