//! The values of a command's arguments.

ghost use Rattle.std.specs.Prelude.{◌≡◌, true, IfOk, map, option_map, string_bytes};
ghost use Rattle.clap.specs.Words.{app_of, first_of, found_of, is_simple_and_free, rows_of};
ghost use Rattle.mw_words.specs.Asked.{value_of, values_of};
ghost use Rattle.mw_words.specs.Forms.{rows_due};

use clap::error::ErrorKind;
use clap::{ArgMatches, Command};
use std::alloc::{AllocError, Global};

/// What `clap` reads the words as; none where it refuses them.
pub fn matches_of<'a>(
    form: Command<'a>,
    words: &'a [String],
) -> Result<Option<ArgMatches<'a>>, AllocError>
    requires { is_simple_and_free (app_of form) ≡ true }
    ensures { IfOk result (λ m. option_map (λ m. rows_of (found_of m)) m ≡ rows_due (app_of form.entry) (map string_bytes words.entry.now)) }
{
    match form.try_get_matches_from(words) {
        Ok(matches) => Ok(Some(matches)),
        Err(error) => match error.kind() {
            ErrorKind::OutOfMemory => Err(AllocError),
            _ => Ok(None),
        },
    }
}

/// The first value of an argument.
pub fn first_value<'a>(matches: &ArgMatches<'a>, id: &str) -> Option<&'a str>
    ensures { option_map (λ s. s.now) result ≡ first_of id.now (rows_of (found_of matches.now)) }
{
    matches.get_str(id)
}

/// The same as a text, which is empty where there is none.
pub fn text_value<'a>(matches: &ArgMatches<'a>, id: &str) -> &'a str
    ensures { result.now ≡ value_of id.now (rows_of (found_of matches.now)) }
{
    match matches.get_str(id) {
        Some(text) => text,
        None => "",
    }
}

/// All values of an argument.
pub fn all_values<'a>(
    alloc: Global,
    matches: &ArgMatches<'a>,
    id: &str,
) -> Result<Vec<&'a str>, AllocError>
    ensures { IfOk result (λ v. map (λ s. s.now) v.items ≡ values_of id.now (rows_of (found_of matches.now))) }
{
    match matches.get_strs(id) {
        Some(values) => Vec::from_slice(alloc, values),
        None => Ok(Vec::new(alloc)),
    }
}
