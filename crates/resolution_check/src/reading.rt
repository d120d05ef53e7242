//! An entry from its line of text.

ghost use Rattle.std.specs.Prelude.{◌≡◌, ◌≢◌, ◌⊎◌, ◌≤◌, ◌==◌, ◌∷◌, Some, None, Ok, Err, IfOk, length, position, if◌then◌else◌};
ghost use Rattle.std.specs.List.{list_all};
ghost use Rattle.mw_text.specs.Digits.{is_digit, value_of};
ghost use Rattle.resolution_check.specs.declared.log.Entry.{Entry};
ghost use Rattle.resolution_check.specs.Text.{text_of, HasText};
ghost use Rattle.resolution_check.specs.Words.{words_in, words_left, number_in, lit_in, list_in, input_in, addition_in, entry_in, finished, is_space, ReadsAs};

use crate::log::{Clause, Entry, LineRefused, Lit};
use mw_text::{List, same_bytes};
use std::alloc::Global;

/// The greatest number of a log's text.
const MOST: u64 = 9_223_372_036_854_775_808;

/// The value of at most 19 bytes, where all are digits.
fn digits_value(word: &[u8]) -> Option<u64>
    requires { length word.now ≤ 19 }
    ensures { result ≡ (if list_all is_digit word.now then Some (value_of word.now) else None) }
{
    let mut value = 0u64;
    for b in word {
        if *b < b'0' || *b > b'9' {
            return None;
        }
        value = value * 10 + u64::from(*b - b'0');
    }
    Some(value)
}

/// The number that a word writes: decimal, without leading zeros, from 1 to 2^63.
fn read_number(word: &[u8]) -> Option<u64>
    ensures { result ≡ number_in word.now }
{
    if word.is_empty() || word.len() > 19 || word[0] == b'0' {
        return None;
    }
    let value = digits_value(word)?;
    if value <= MOST { Some(value) } else { None }
}

/// The literal that a word writes.
fn read_lit(word: &[u8]) -> Option<Lit>
    ensures { result ≡ lit_in word.now }
{
    let Some((first, digits)) = word.split_first() else {
        return None;
    };
    let negated = *first == b'-';
    let number = read_number(if negated { digits } else { word })?;
    Some(Lit {
        var: number - 1,
        negated,
    })
}

/// The place of the first space.
fn find_space(text: &[u8]) -> Option<usize>
    ensures { result ≡ position is_space text.now }
{
    text.iter().position(|b| *b == b' ')
}

/// The first word, up to the first space, and what comes after the space, if there is one.
fn cut_word(text: &[u8]) -> (&[u8], Option<&[u8]>)
    ensures { words_in text.now ≡ result.0.now ∷ words_left result.1 }
{
    match find_space(text) {
        None => (text, None),
        Some(at) => {
            let (word, _) = text.split_at(at);
            let (_, rest) = text.split_at(at + 1);
            (word, Some(rest))
        }
    }
}

/// The entry, where nothing comes after it.
fn finish(rest: Option<&[u8]>, entry: Entry) -> Result<Entry, LineRefused>
    ensures { ReadsAs (λ e. e) result (finished (words_left rest.entry) entry) }
{
    match rest {
        None => Ok(entry),
        Some(_) => Err(LineRefused::BadLine),
    }
}

/// The literals up to the first word `0`, and what comes after it.
fn read_lits<'a>(
    alloc: Global,
    rest: Option<&'a [u8]>,
) -> Result<(List<Lit>, Option<&'a [u8]>), LineRefused>
    ensures { ReadsAs (λ found. (found.0, words_left found.1)) result (list_in lit_in (words_left rest.entry)) }
{
    let mut lits = List::new(alloc);
    let mut left = rest;
    while let Some(text) = left {
        let (word, after) = cut_word(text);
        left = after;
        if same_bytes(word, b"0") {
            return Ok((lits, left));
        }
        let lit = read_lit(word).ok_or(LineRefused::BadLine)?;
        lits.items.push(lit)?;
    }
    Err(LineRefused::BadLine)
}

/// The numbers up to the first word `0`, and what comes after it.
fn read_numbers<'a>(
    alloc: Global,
    rest: Option<&'a [u8]>,
) -> Result<(List<u64>, Option<&'a [u8]>), LineRefused>
    ensures { ReadsAs (λ found. (found.0, words_left found.1)) result (list_in number_in (words_left rest.entry)) }
{
    let mut numbers = List::new(alloc);
    let mut left = rest;
    while let Some(text) = left {
        let (word, after) = cut_word(text);
        left = after;
        if same_bytes(word, b"0") {
            return Ok((numbers, left));
        }
        let number = read_number(word).ok_or(LineRefused::BadLine)?;
        numbers.items.push(number)?;
    }
    Err(LineRefused::BadLine)
}

/// An input, after its number.
fn read_input(alloc: Global, id: u64, rest: Option<&[u8]>) -> Result<Entry, LineRefused>
    ensures { ReadsAs (λ e. e) result (input_in id (words_left rest.entry)) }
{
    let (lits, rest) = read_lits(alloc, rest)?;
    let clause = Clause { lits };
    finish(rest, Entry::Input { id, clause })
}

/// An addition, after its number.
fn read_addition(alloc: Global, id: u64, rest: Option<&[u8]>) -> Result<Entry, LineRefused>
    ensures { ReadsAs (λ e. e) result (addition_in id (words_left rest.entry)) }
{
    let (lits, rest) = read_lits(alloc, rest)?;
    let (chain, rest) = read_numbers(alloc, rest)?;
    let clause = Clause { lits };
    finish(rest, Entry::Add { id, clause, chain })
}

/// The entry that the words of a line write.
fn read_words(alloc: Global, line: &[u8]) -> Result<Entry, LineRefused>
    ensures { ReadsAs (λ e. e) result (entry_in (words_in line.now)) }
{
    let (kind, rest) = cut_word(line);
    let Some(rest) = rest else {
        return if same_bytes(kind, b"e") {
            Ok(Entry::End)
        } else {
            Err(LineRefused::BadLine)
        };
    };
    let (number, rest) = cut_word(rest);
    let id = read_number(number).ok_or(LineRefused::BadLine)?;
    if same_bytes(kind, b"i") {
        read_input(alloc, id, rest)
    } else if same_bytes(kind, b"a") {
        read_addition(alloc, id, rest)
    } else if same_bytes(kind, b"d") {
        finish(rest, Entry::Delete { id })
    } else {
        Err(LineRefused::BadLine)
    }
}

/// The entry that a line writes, taken without its line feed.
///
/// # Errors
/// `BadLine` exactly where the line is no entry's text; `Memory` where memory was refused.
pub fn read_entry(alloc: Global, line: &[u8]) -> Result<Entry, LineRefused>
    ensures found { IfOk result (λ e. (line.now ≡ text_of e) × HasText e) }
    ensures exact { (e : Entry) → HasText e → line.now ≡ text_of e →
        (result ≡ Ok e) ⊎ (result ≡ Err LineRefused.Memory) }
{
    read_words(alloc, line)
}
