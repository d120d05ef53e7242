//! Lines and words of a text.

ghost use Rattle.std.specs.Prelude.{◌≡◌, ◌-◌, ◌<◌, ◌^◌, IfOk, length, map};
ghost use Rattle.std.specs.List.{All, slice_split};
ghost use Rattle.mw_text.specs.Words.{is_blank, is_skipped, words_in, line_at, text_lines};

use crate::list::{List, list_of};
use bstr::ByteSlice;
use std::alloc::{AllocError, Global};

/// A line of a text: its number from 1 on, whether it begins with a blank (a space or a tab), its words,
/// which blanks separate, and its bytes without the line feed.
#[derive(Drop)]
pub struct Line {
    pub number: u32,
    pub indented: bool,
    pub words: List<List<u8>>,
    pub raw: List<u8>,
}

fn is_blank_byte(b: u8) -> bool
    ensures { result ≡ is_blank b }
{
    b == b' ' || b == b'\t'
}

// The pieces between blanks.
fn pieces_of(alloc: Global, raw: &[u8]) -> Result<Vec<&[u8]>, AllocError>
    ensures { IfOk result (λ pieces. map (λ piece. piece.now) pieces.items ≡ slice_split is_blank raw.now) }
{
    raw.split(|b| is_blank_byte(*b)).collect(alloc)
}

// The words of a line.
fn words_of(alloc: Global, raw: &[u8]) -> Result<List<List<u8>>, AllocError>
    ensures { IfOk result (λ words. words ≡ words_in raw.now) }
{
    let pieces = pieces_of(alloc, raw)?;
    let mut words = List::new(alloc);
    for piece in &pieces {
        if !piece.is_empty() {
            let word = list_of(alloc, piece)?;
            words.items.push(word)?;
        }
    }
    Ok(words)
}

fn read_line(alloc: Global, number: u32, raw: &[u8]) -> Result<Line, AllocError>
    ensures { IfOk result (λ line. line ≡ line_at number raw.now) }
{
    let indented = !raw.is_empty() && is_blank_byte(raw[0]);
    let words = words_of(alloc, raw)?;
    let raw = list_of(alloc, raw)?;
    Ok(Line {
        number,
        indented,
        words,
        raw,
    })
}

fn split_lines(alloc: Global, bytes: &[u8]) -> Result<List<Line>, AllocError>
    requires { length bytes.now < 2 ^ 32 }
    ensures { IfOk result (λ lines. lines ≡ text_lines bytes.now) }
{
    let mut lines = List::new(alloc);
    let mut number = 0u32;
    for raw in bytes.lines() {
        number += 1;
        lines.items.push(read_line(alloc, number, raw)?)?;
    }
    Ok(lines)
}

/// The lines of a text. A line feed ends a line, and one carriage return before it is dropped; bytes after the
/// last line feed are a line as they stand. No line has as many words as a `u32` can count.
#[tactic(auto, using(crate::proofs::WordCounts::lines_few))]
pub fn lines_of(alloc: Global, bytes: &[u8]) -> Result<List<Line>, AllocError>
    requires { length bytes.now < 2 ^ 32 }
    ensures value { IfOk result (λ lines. lines ≡ text_lines bytes.now) }
    ensures few { IfOk result (λ lines. All (λ line. length line.words < 2 ^ 32 - 1) lines) }
{
    split_lines(alloc, bytes)
}

/// Whether a line of these words says nothing: there are none, or the first begins with `!`. Such a line is counted all
/// the same.
pub fn says_nothing(words: &[List<u8>]) -> bool
    ensures { result ≡ is_skipped words.now }
{
    match words {
        [] => true,
        [word, ..] => word.as_slice().first() == Some(&b'!'),
    }
}
