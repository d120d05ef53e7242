//! The counterexamples in what `verify` printed.

ghost use Rattle.std.specs.Prelude.{◌≡◌, ◌∷◌, [], ◌<◌, ◌^◌, ◌==◌, ◌||◌, IfOk, codes, filter, length, map};
ghost use Rattle.std.specs.List.{list_any};
ghost use Rattle.mw_text.specs.Words.{text_lines};
ghost use Rattle.show_run.specs.Pieces as pieces;

use mw_text::{Line, List, lines_of, list_of, same_bytes};
use run_inputs::text::{Text, joined};
use std::alloc::{AllocError, Global};

/// Whether a word begins the line of a verdict.
fn is_verdict_word(word: &[u8]) -> bool
    ensures { result ≡ pieces.is_verdict_word word.now }
{
    same_bytes(word, b"holds") || (same_bytes(word, b"broken") || same_bytes(word, b"unknown"))
}

fn is_verdict(line: &Line) -> bool
    ensures { result ≡ pieces.is_verdict line.now }
{
    match line.words.as_slice() {
        [] => false,
        [word, ..] => is_verdict_word(word.as_slice()),
    }
}

/// Whether verdicts stand among these lines.
fn has_verdict(lines: &[Line]) -> bool
    ensures { result ≡ list_any pieces.is_verdict lines.now }
{
    lines.iter().any(|line| is_verdict(line))
}

/// Whether a line is a counterexample's: it begins with a brace.
fn is_told(line: &Line) -> bool
    ensures { result ≡ pieces.is_told line.now }
{
    match line.raw.as_slice() {
        [] => false,
        [byte, ..] => *byte == b'{',
    }
}

/// The counterexample of a line. Its name is that of the text and the line's number.
fn piece_of(alloc: Global, name: &[u8], line: &Line) -> Result<Text, AllocError>
    ensures { IfOk result (λ piece. piece ≡ pieces.piece_of name.now line.now) }
{
    let number = line.number.to_string(alloc)?;
    let name = joined(alloc, &[name, b":", number.as_bytes()])?;
    let bytes = list_of(alloc, line.raw.as_slice())?;
    Ok(Text { name, bytes })
}

/// Those of all lines.
fn told_lines(alloc: Global, name: &[u8], lines: &[Line]) -> Result<List<Text>, AllocError>
    ensures { IfOk result (λ told. told ≡ map (pieces.piece_of name.now) (filter pieces.is_told lines.now)) }
{
    let mut told = List::new(alloc);
    for line in lines {
        if is_told(line) {
            told.items.push(piece_of(alloc, name, line)?)?;
        }
    }
    Ok(told)
}

/// The text as one counterexample.
fn whole(alloc: Global, text: Text) -> Result<List<Text>, AllocError>
    ensures { IfOk result (λ told. told ≡ text ∷ []) }
{
    let mut told = List::new(alloc);
    told.items.push(text)?;
    Ok(told)
}

/// The counterexamples in a text: where it has the line of a verdict, each line of it that begins with a brace; else the
/// whole text is one.
pub fn told_in(alloc: Global, text: Text) -> Result<List<Text>, AllocError>
    requires { length text.bytes < 2 ^ 32 }
    ensures { IfOk result (λ told. told ≡ pieces.told_in text) }
{
    let lines = lines_of(alloc, text.bytes.as_slice())?;
    if has_verdict(lines.as_slice()) {
        return told_lines(alloc, text.name.as_slice(), lines.as_slice());
    }
    whole(alloc, text)
}
