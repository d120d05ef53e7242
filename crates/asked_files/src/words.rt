//! The words of a command with a file of its own.

ghost use Rattle.std.specs.Prelude.{◌≡◌, false, IfOk, IfSome, codes, map, option_map, string_bytes};
ghost use Rattle.asked_files.specs.Words.{asked_by, asked_in, asked_of, asking, own_app};
ghost use Rattle.clap.specs.Words.{app_of, found_of, rows_of, rule_of};
ghost use Rattle.mw_text.specs.Text.{same_text};
ghost use Rattle.mw_words.specs.Forms as forms;
ghost use Rattle.run_inputs.specs.Due as due;
ghost use Rattle.run_inputs.specs.Loading.{IsBudget};

use clap::{Arg, ArgMatches, Command};
use mw_text::read_number;
use mw_words::values::{all_values, first_value, matches_of, text_value};
use run_inputs::load::{DEFAULT_CONFLICTS, MOST_CONFLICTS};
use std::alloc::{AllocError, Global};

/// What the words ask for.
#[derive(Drop)]
pub struct Asked {
    /// How many clauses a search may learn.
    pub budget: u64,
    /// The name of the command's own file.
    pub own: String,
    /// The names of the configurations.
    pub configs: Vec<String>,
}

// `--conflicts N`, which may stand once.
fn conflicts_arg<'a>(alloc: Global) -> Arg<'a>
    ensures rule { rule_of result ≡ forms.conflicts_rule }
    ensures alone { result.global ≡ false }
{
    Arg::new(alloc, "conflicts").long("conflicts")
}

// One word.
fn own_arg<'a>(alloc: Global) -> Arg<'a>
    ensures rule { rule_of result ≡ forms.single_rule (codes "own") }
    ensures alone { result.global ≡ false }
{
    Arg::new(alloc, "own").required(true)
}

// One word or more.
fn configs_arg<'a>(alloc: Global) -> Arg<'a>
    ensures rule { rule_of result ≡ forms.many_rule (codes "config") }
    ensures alone { result.global ≡ false }
{
    Arg::new(alloc, "config").required(true).num_args(1..)
}

// The command without arguments so far.
fn bare<'a>(alloc: Global, name: &'a str) -> Command<'a>
    ensures { app_of result ≡ forms.bare_app name.entry.now }
{
    Command::new(alloc, name)
        .disable_help_flag(true)
        .disable_version_flag(true)
}

// `NAME [--conflicts N] OWN CONFIG...`
fn own_form<'a>(alloc: Global, name: &'a str) -> Result<Command<'a>, AllocError>
    ensures { IfOk result (λ form. app_of form ≡ own_app name.entry.now) }
{
    bare(alloc, name)
        .arg(conflicts_arg(alloc))?
        .arg(own_arg(alloc))?
        .arg(configs_arg(alloc))
}

// A number of clauses from 1 to 1,000,000,000.
fn count_of(word: &str) -> Option<u64>
    ensures value { result ≡ due.count_of word.now }
    ensures budget { IfSome result IsBudget }
{
    match read_number(word.as_bytes(), MOST_CONFLICTS) {
        Some(0) => None,
        count => count,
    }
}

// How many clauses a search may learn; none where the number is out of its range.
fn budget_of(conflicts: Option<&str>) -> Option<u64>
    ensures value { result ≡ due.budget_of (option_map (λ s. s.now) conflicts.entry) }
    ensures budget { IfSome result IsBudget }
{
    match conflicts {
        None => Some(DEFAULT_CONFLICTS),
        Some(word) => count_of(word),
    }
}

/// The names as texts of their own. The one error is want of memory.
pub fn owned(alloc: Global, names: &[&str]) -> Result<Vec<String>, AllocError>
    ensures { IfOk result (λ all. map string_bytes all.items ≡ map (λ s. s.now) names.now) }
{
    let mut all = Vec::new(alloc);
    for name in names {
        let copy = String::from_str(alloc, name)?;
        all.push(copy)?;
    }
    Ok(all)
}

// What is asked for by the values of the arguments; none where the number is out of its range.
fn asked_values<'a>(alloc: Global, matches: &ArgMatches<'a>) -> Result<Option<Asked>, AllocError>
    ensures value { IfOk result (λ asked. option_map asking asked ≡ asked_by (rows_of (found_of matches.now))) }
    ensures budget { IfOk result (λ asked. IfSome asked (λ a. IsBudget a.budget)) }
{
    let Some(budget) = budget_of(first_value(matches, "conflicts")) else {
        return Ok(None);
    };
    let names = all_values(alloc, matches, "config")?;
    let own = String::from_str(alloc, text_value(matches, "own"))?;
    let configs = owned(alloc, names.as_slice())?;
    Ok(Some(Asked {
        budget,
        own,
        configs,
    }))
}

fn is_named(word: &String, name: &str) -> bool
    ensures { result ≡ same_text (string_bytes word.now) name.now }
{
    word.as_str() == name
}

// What the words ask for, where they are the command's.
fn asked_words<'a>(
    alloc: Global,
    name: &'a str,
    words: &'a [String],
) -> Result<Option<Asked>, AllocError>
    ensures value { IfOk result (λ asked. option_map asking asked ≡ asked_in name.now (map string_bytes words.now)) }
    ensures budget { IfOk result (λ asked. IfSome asked (λ a. IsBudget a.budget)) }
{
    let form = own_form(alloc, name)?;
    match matches_of(form, words)? {
        Some(matches) => asked_values(alloc, &matches),
        None => Ok(None),
    }
}

/// What the words ask for, where they are `NAME [--conflicts N] OWN CONFIG...` as `clap` reads them, and N is from 1 to
/// 1,000,000,000; 1,000,000 where it is not said.
///
/// # Errors
/// Memory was refused.
#[tactic(auto, unfolding(crate::specs::Words::asked_of))]
pub fn read_asked_words<'a>(
    alloc: Global,
    name: &'a str,
    words: &'a [String],
) -> Result<Option<Asked>, AllocError>
    ensures value { IfOk result (λ asked. option_map asking asked ≡ asked_of name.now (map string_bytes words.now)) }
    ensures budget { IfOk result (λ asked. IfSome asked (λ a. IsBudget a.budget)) }
{
    match words {
        [] => Ok(None),
        [command, ..] if is_named(command, name) => asked_words(alloc, name, words),
        _ => Ok(None),
    }
}
