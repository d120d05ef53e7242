//! Kinds of lines outside the profile: which one a line is of, by the words that it begins with.

ghost use Rattle.std.specs.Prelude.{◌≡◌, ◌==◌, position};
ghost use Rattle.ios_policy_reader.specs.Heads.{is_over, rest_of};
ghost use Rattle.ios_policy_reader.specs.Words.{keyword_of};
ghost use Rattle.config_prepare.specs.Kinds.{unfilled, is_open, begins_so, is_like, begins, fits, kind_of, left_out_kind, is_no_effect, no_effect_at};

use crate::kind_table::KINDS;
use ios_policy_reader::Context;
use ios_policy_reader::words::is_word;
use mw_text::List;

/// What a line of a kind can do to a verdict.
#[derive(Clone, Copy)]
pub enum Class {
    /// It cannot change which packets are forwarded where.
    NoEffect,
    /// It may change that.
    MayChange,
    /// The profile takes what it says in another spelling.
    OtherSpelling,
}

/// A kind of lines: where they stand, the words that they begin with, what they can do to a verdict, and why.
#[derive(Clone, Copy)]
pub struct Kind(pub Context, pub [u8; 36], pub Class, pub [u8; 48]);

/// The place of the first dot.
fn dot_place(text: &[u8]) -> Option<usize>
    ensures { result ≡ position (λ b. b == 46) text.now }
{
    text.iter().position(|b| *b == b'.')
}

/// What stands before the dots that fill up a text of the table.
pub fn unfilled_text(text: &[u8]) -> &[u8]
    ensures { result.now ≡ unfilled text.now }
{
    match dot_place(text) {
        Some(end) => &text[..end],
        None => text,
    }
}

/// Whether no word is left of a head.
fn is_empty_head(head: &[u8]) -> bool
    ensures { result ≡ is_over head.now }
{
    match head.first() {
        None => true,
        Some(byte) => *byte == b' ',
    }
}

/// The place of the first blank.
fn blank_place(head: &[u8]) -> Option<usize>
    ensures { result ≡ position (λ b. b == 32) head.now }
{
    head.iter().position(|b| *b == b' ')
}

/// The first word of a head.
pub fn first_word(head: &[u8]) -> &[u8]
    ensures { result.now ≡ keyword_of head.now }
{
    match blank_place(head) {
        Some(end) => &head[..end],
        None => head,
    }
}

/// What is left of a head after its first word.
pub fn after_word(head: &[u8]) -> &[u8]
    ensures { result.now ≡ rest_of head.now }
{
    let end = first_word(head).len();
    if end < head.len() {
        &head[end + 1..]
    } else {
        &head[end..]
    }
}

/// Whether a word of a head stands for each word that begins so.
fn is_open_word(key: &[u8]) -> bool
    ensures { result ≡ is_open key.now }
{
    !key.is_empty() && key[key.len() - 1] == b'*'
}

/// Whether the word begins with those bytes, in any case.
fn begins_with_front(word: &[u8], front: &[u8]) -> bool
    ensures { result ≡ begins_so front.now word.now }
{
    let size = front.len().min(word.len());
    is_word(&word[..size], front)
}

/// Whether the word is one for which a word of a head stands.
fn is_like_word(word: &[u8], key: &[u8]) -> bool
    ensures { result ≡ is_like key.now word.now }
{
    if is_open_word(key) {
        begins_with_front(word, &key[..key.len() - 1])
    } else {
        is_word(word, key)
    }
}

/// Whether the words begin with those of a head.
#[tactic(auto, using(crate::proofs::Steps::begins_over))]
pub fn begins_with(head: &[u8], words: &[List<u8>]) -> bool
    ensures { result ≡ begins head.now words.now }
{
    let mut rest = head;
    for word in words {
        if is_empty_head(rest) {
            return true;
        }
        if !is_like_word(word.as_slice(), first_word(rest)) {
            return false;
        }
        rest = after_word(rest);
    }
    is_empty_head(rest)
}

/// Whether a line of these words, which stands there, is of that kind.
fn fits_kind(context: Context, words: &[List<u8>], kind: &Kind) -> bool
    ensures { result ≡ fits context words.now kind.now }
{
    kind.0 as u8 == context as u8 && begins_with(unfilled_text(&kind.1), words)
}

/// The place in the table of the kind of a line of these words which stands there.
pub fn find_kind(context: Context, words: &[List<u8>]) -> Option<usize>
    ensures { result ≡ kind_of context words.now }
{
    KINDS
        .iter()
        .position(|kind| fits_kind(context, words, kind))
}

/// Whether a class is that without an effect.
fn is_without_effect(class: Class) -> bool
    ensures { result ≡ is_no_effect class }
{
    match class {
        Class::NoEffect => true,
        Class::MayChange | Class::OtherSpelling => false,
    }
}

/// Whether the kind at a place among these is of the class without an effect.
fn is_without_effect_at(kinds: &[Kind], at: usize) -> bool
    ensures { result ≡ no_effect_at kinds.now at }
{
    match kinds.get(at) {
        Some(kind) => is_without_effect(kind.2),
        None => false,
    }
}

/// The place in the table of the kind by which a line of these words, which stands there, is left out.
pub fn find_left_out(context: Context, words: &[List<u8>]) -> Option<usize>
    ensures { result ≡ left_out_kind context words.now }
{
    let at = find_kind(context, words)?;
    if is_without_effect_at(&KINDS, at) {
        Some(at)
    } else {
        None
    }
}
