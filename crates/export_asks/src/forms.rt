//! The kind of an ask, and what its words say.

ghost use Rattle.std.specs.Prelude.{◌≡◌, ◌≢◌, ◌-◌, ◌<◌, ◌^◌, IfOk, IfErr, Ok, Err, length, option_map};
ghost use Rattle.std.specs.List.{find};
ghost use Rattle.ios_policy_reader.specs.Words.{is_key};
ghost use Rattle.export_asks.specs.Grammar as grammar;

use crate::table::ASK;
use ios_policy_reader::words::is_table_word;
use ios_policy_reader::{Cause, Said, read_tail};
use mw_text::List;
use std::alloc::Global;

/// The kinds of asks, as their words name them.
#[derive(Clone, Copy)]
pub enum Form {
    /// No such route goes out.
    NoExport,
    /// None that was learnt from the other peer.
    NoLeak,
}

/// The word of a kind, in lower case and filled up with blanks, and the kind.
#[derive(Clone, Copy)]
pub struct FormName(pub [u8; 16], pub Form);

/// The words of all kinds.
pub const FORM_NAMES: [FormName; 2] = [
    FormName(*b"noexport        ", Form::NoExport),
    FormName(*b"noleak          ", Form::NoLeak),
];

fn name_among(names: &[FormName], word: &[u8]) -> Option<FormName>
    ensures { result ≡ find (λ name. is_key name.0 word.now) names.now }
{
    names
        .iter()
        .copied()
        .find(|name| is_table_word(word, &name.0))
}

fn form_among(names: &[FormName], word: &[u8]) -> Option<Form>
    ensures { result ≡ option_map (λ name. name.1) (find (λ name. is_key name.0 word.now) names.now) }
{
    match name_among(names, word) {
        None => None,
        Some(name) => Some(name.1),
    }
}

/// The kind that a word names, in any case.
#[tactic(auto, unfolding(crate::specs::Grammar::form_named))]
fn form_named(word: &[u8]) -> Option<Form>
    ensures { result ≡ grammar.form_named word.now }
{
    form_among(&FORM_NAMES, word)
}

/// The kind that the second word of a line names. None where there is no such word.
pub fn find_form(words: &[List<u8>]) -> Option<Form>
    ensures { result ≡ grammar.form_of words.now }
{
    match words.get(1) {
        None => None,
        Some(word) => form_named(word.as_slice()),
    }
}

/// What the words of an ask of that kind say, or the first of them that is bad.
#[tactic(auto, unfolding(crate::specs::Grammar::words_said))]
pub fn read_words(alloc: Global, form: Form, words: &[List<u8>]) -> Result<List<Said>, Cause>
    requires few { length words.now < 2 ^ 32 - 1 }
    ensures ok { IfOk result (λ said. grammar.words_said form words.now ≡ Ok said) }
    ensures refused { IfErr result (λ cause. cause ≢ Cause.Memory → grammar.words_said form words.now ≡ Err cause) }
{
    read_tail(alloc, &ASK, form as u8, 0, words)
}
