//! What the words ask for.

ghost use Rattle.std.specs.Prelude.{◌≡◌, IfOk, map, option_map, string_bytes};
ghost use Rattle.mw_text.specs.Text.{same_text};
ghost use Rattle.mw_words.specs.Asked as asked;

use crate::forms::{gen_form, simulate_form, telling_form, verify_form};
use crate::values::{all_values, first_value, matches_of, text_value};
use std::alloc::{AllocError, Global};

/// A command with the words that are the values of its arguments.
#[derive(Drop)]
pub enum Request<'a> {
    /// Questions are to be answered.
    Verify {
        conflicts: Option<&'a str>,
        questions: &'a str,
        configs: Vec<&'a str>,
    },
    /// A log is to be held against the questions.
    Check {
        log: &'a str,
        questions: &'a str,
        configs: Vec<&'a str>,
    },
    /// A counterexample is to be tested.
    Replay {
        cex: &'a str,
        questions: &'a str,
        configs: Vec<&'a str>,
    },
    /// Events are to happen to the routers.
    Simulate {
        events: &'a str,
        configs: Vec<&'a str>,
    },
    /// The question about a generated network is to be answered.
    Gen {
        conflicts: Option<&'a str>,
        count: &'a str,
    },
}

fn verify_request<'a>(alloc: Global, words: &'a [String]) -> Result<Option<Request<'a>>, AllocError>
    ensures { IfOk result (λ r. option_map asked.asks r ≡ asked.verify_of (map string_bytes words.entry.now)) }
{
    let form = verify_form(alloc)?;
    let Some(matches) = matches_of(form, words)? else {
        return Ok(None);
    };
    let configs = all_values(alloc, &matches, "config")?;
    Ok(Some(Request::Verify {
        conflicts: first_value(&matches, "conflicts"),
        questions: text_value(&matches, "questions"),
        configs,
    }))
}

fn check_request<'a>(alloc: Global, words: &'a [String]) -> Result<Option<Request<'a>>, AllocError>
    ensures { IfOk result (λ r. option_map asked.asks r ≡ asked.check_of (map string_bytes words.entry.now)) }
{
    let form = telling_form(alloc, "check")?;
    let Some(matches) = matches_of(form, words)? else {
        return Ok(None);
    };
    let configs = all_values(alloc, &matches, "config")?;
    Ok(Some(Request::Check {
        log: text_value(&matches, "own"),
        questions: text_value(&matches, "questions"),
        configs,
    }))
}

fn replay_request<'a>(alloc: Global, words: &'a [String]) -> Result<Option<Request<'a>>, AllocError>
    ensures { IfOk result (λ r. option_map asked.asks r ≡ asked.replay_of (map string_bytes words.entry.now)) }
{
    let form = telling_form(alloc, "replay")?;
    let Some(matches) = matches_of(form, words)? else {
        return Ok(None);
    };
    let configs = all_values(alloc, &matches, "config")?;
    Ok(Some(Request::Replay {
        cex: text_value(&matches, "own"),
        questions: text_value(&matches, "questions"),
        configs,
    }))
}

fn simulate_request<'a>(
    alloc: Global,
    words: &'a [String],
) -> Result<Option<Request<'a>>, AllocError>
    ensures { IfOk result (λ r. option_map asked.asks r ≡ asked.simulate_of (map string_bytes words.entry.now)) }
{
    let form = simulate_form(alloc)?;
    let Some(matches) = matches_of(form, words)? else {
        return Ok(None);
    };
    let configs = all_values(alloc, &matches, "config")?;
    Ok(Some(Request::Simulate {
        events: text_value(&matches, "events"),
        configs,
    }))
}

fn gen_request<'a>(alloc: Global, words: &'a [String]) -> Result<Option<Request<'a>>, AllocError>
    ensures { IfOk result (λ r. option_map asked.asks r ≡ asked.gen_of (map string_bytes words.entry.now)) }
{
    let form = gen_form(alloc)?;
    let Some(matches) = matches_of(form, words)? else {
        return Ok(None);
    };
    Ok(Some(Request::Gen {
        conflicts: first_value(&matches, "conflicts"),
        count: text_value(&matches, "count"),
    }))
}

fn is_word(word: &String, wanted: &str) -> bool
    ensures { result ≡ same_text (string_bytes word.now) wanted.now }
{
    word.as_str() == wanted
}

// What the words ask for, by their first one.
fn request_by<'a>(
    alloc: Global,
    command: &String,
    words: &'a [String],
) -> Result<Option<Request<'a>>, AllocError>
    ensures { IfOk result (λ r. option_map asked.asks r ≡ asked.asked_by (string_bytes command.now) (map string_bytes words.entry.now)) }
{
    if is_word(command, "verify") {
        return verify_request(alloc, words);
    }
    if is_word(command, "check") {
        return check_request(alloc, words);
    }
    if is_word(command, "replay") {
        return replay_request(alloc, words);
    }
    if is_word(command, "simulate") {
        return simulate_request(alloc, words);
    }
    if is_word(command, "gen") {
        return gen_request(alloc, words);
    }
    Ok(None)
}

/// What the words ask for, of which the first is the command; none where they are no command. Whether they are one, and
/// which word is whose value, is as `clap` reads them. Numbers are not read.
///
/// # Errors
/// Memory was refused.
#[tactic(auto, unfolding(crate::specs::Asked::asked_of))]
pub fn read_words<'a>(alloc: Global, words: &'a [String]) -> Result<Option<Request<'a>>, AllocError>
    ensures { IfOk result (λ r. option_map asked.asks r ≡ asked.asked_of (map string_bytes words.entry.now)) }
{
    match words {
        [] => Ok(None),
        [command, ..] => request_by(alloc, command, words),
    }
}
