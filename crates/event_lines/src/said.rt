//! What the words of a line say.

ghost use Rattle.std.specs.Prelude.{◌≡◌, ◌≢◌, ◌-◌, ◌<◌, ◌≤◌, ◌^◌, IfErr, IfOk, Ok, Err, length, position};
ghost use Rattle.event_lines.specs.Grammar as grammar;
ghost use Rattle.ios_policy_reader.specs.Words.{is_key};

use crate::heads::Head;
use crate::table::{BEFORE_COMMUNITIES, EVENT_LINE, MOST_NUMBERS, PATH_WORD};
use ios_policy_reader::words::is_table_word;
use ios_policy_reader::{Cause, Said, read_tail};
use mw_text::List;
use std::alloc::Global;

fn first_path(words: &[List<u8>]) -> Option<usize>
    ensures { result ≡ position (is_key PATH_WORD) words.now }
{
    words
        .iter()
        .position(|word| is_table_word(word.as_slice(), &PATH_WORD))
}

// How many words a line may have: up to the last number that a path may have.
fn most_words(words: &[List<u8>]) -> usize
    ensures value { result ≡ grammar.most_words words.now }
    ensures within { result ≤ length words.now }
{
    if words.len() < BEFORE_COMMUNITIES {
        return words.len();
    }
    match first_path(&words[BEFORE_COMMUNITIES..]) {
        None => words.len(),
        Some(at) => words.len().min(BEFORE_COMMUNITIES + at + 1 + MOST_NUMBERS),
    }
}

/// What the words of a line say behind its head, or the first of them that is bad.
#[tactic(auto, unfolding(crate::specs::Grammar::words_said))]
pub fn read_words(alloc: Global, head: &Head, words: &[List<u8>]) -> Result<List<Said>, Cause>
    requires few { length words.now < 2 ^ 32 - 1 }
    requires head { head.now.2 ≤ length words.now }
    ensures ok { IfOk result (λ said. grammar.words_said head.now words.now ≡ Ok said) }
    ensures refused { IfErr result
        (λ cause. cause ≢ Cause.Memory → grammar.words_said head.now words.now ≡ Err cause) }
{
    let most = most_words(words);
    let said = read_tail(
        alloc,
        &EVENT_LINE,
        head.3 as u8,
        u32::from(head.2),
        &words[..most],
    )?;
    if most < words.len() {
        return Err(Cause::BadWord {
            word: most as u32 + 1,
        });
    }
    Ok(said)
}
