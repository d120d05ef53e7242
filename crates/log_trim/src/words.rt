//! The words of the command.

ghost use Rattle.std.specs.Prelude.{◌≡◌, IfOk, codes, map, option_map, string_bytes};
ghost use Rattle.clap.specs.Words.{app_of};
ghost use Rattle.mw_text.specs.Text.{same_text};
ghost use Rattle.mw_words.specs.Asked.{value_of};
ghost use Rattle.mw_words.specs.Forms.{rows_due};
ghost use Rattle.log_trim.specs.Words.{log_named, trim_app};

use clap::{Arg, Command};
use mw_words::values::{matches_of, text_value};
use std::alloc::{AllocError, Global};

// `trim LOG`
fn trim_form<'a>(alloc: Global) -> Result<Command<'a>, AllocError>
    ensures { IfOk result (λ form. app_of form ≡ trim_app) }
{
    Command::new(alloc, "trim")
        .disable_help_flag(true)
        .disable_version_flag(true)
        .arg(Arg::new(alloc, "log").required(true))
}

fn is_trim(word: &String) -> bool
    ensures { result ≡ same_text (string_bytes word.now) (codes "trim") }
{
    word.as_str() == "trim"
}

// The name of the log, where the words are the command's.
fn log_in<'a>(alloc: Global, words: &'a [String]) -> Result<Option<&'a str>, AllocError>
    ensures { IfOk result (λ name. option_map (λ n. n.now) name ≡ option_map (value_of (codes "log")) (rows_due trim_app (map string_bytes words.entry.now))) }
{
    let form = trim_form(alloc)?;
    match matches_of(form, words)? {
        Some(matches) => Ok(Some(text_value(&matches, "log"))),
        None => Ok(None),
    }
}

/// The name of the log, where the words are `trim LOG` as `clap` reads them.
///
/// # Errors
/// Memory was refused.
#[tactic(auto, unfolding(crate::specs::Words::log_named))]
pub fn log_name<'a>(alloc: Global, words: &'a [String]) -> Result<Option<&'a str>, AllocError>
    ensures { IfOk result (λ name. option_map (λ n. n.now) name ≡ log_named (map string_bytes words.entry.now)) }
{
    match words {
        [] => Ok(None),
        [command, ..] if is_trim(command) => log_in(alloc, words),
        _ => Ok(None),
    }
}
