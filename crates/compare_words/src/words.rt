//! The words of the command.

ghost use Rattle.std.specs.Prelude.{◌≡◌, ◌<◌, ◌≤◌, false, IfOk, IfSome, codes, length, map, option_map, string_bytes};
ghost use Rattle.clap.specs.Words.{app_of, found_of, rows_of, rule_of};
ghost use Rattle.compare_words.specs.Words.{asked_by, asked_by_words, asked_in, asked_of, asks, compare_app, count_in};
ghost use Rattle.compare_words.specs.Words.{parted, parts_as};
ghost use Rattle.mw_text.specs.Text.{same_text};
ghost use Rattle.mw_words.specs.Forms as forms;
ghost use Rattle.run_inputs.specs.Due as due;
ghost use Rattle.run_inputs.specs.Loading.{IsBudget};

use asked_files::owned;
use clap::{Arg, ArgMatches, Command};
use mw_text::read_number;
use mw_words::values::{all_values, first_value, matches_of, text_value};
use run_inputs::load::{DEFAULT_CONFLICTS, MOST_CONFLICTS};
use std::alloc::{AllocError, Global};

/// The greatest number of files that a word says.
pub const MOST_COUNT: u64 = 0xffff_ffff;

/// The names of the configurations of two networks.
#[derive(Drop)]
pub struct Parts {
    pub left: Vec<String>,
    pub right: Vec<String>,
}

/// What the words ask for.
#[derive(Drop)]
pub struct Asked {
    /// How many clauses a search may learn.
    pub budget: u64,
    /// The name of the asks file.
    pub asks: String,
    /// The names of the configurations.
    pub parts: Parts,
}

// `--conflicts C`, which may stand once.
fn conflicts_arg<'a>(alloc: Global) -> Arg<'a>
    ensures rule { rule_of result ≡ forms.conflicts_rule }
    ensures own { result.global ≡ false }
{
    Arg::new(alloc, "conflicts").long("conflicts")
}

// How many of the configurations are the left network's.
fn count_arg<'a>(alloc: Global) -> Arg<'a>
    ensures rule { rule_of result ≡ forms.single_rule (codes "count") }
    ensures own { result.global ≡ false }
{
    Arg::new(alloc, "count").required(true)
}

// One word.
fn asks_arg<'a>(alloc: Global) -> Arg<'a>
    ensures rule { rule_of result ≡ forms.single_rule (codes "asks") }
    ensures own { result.global ≡ false }
{
    Arg::new(alloc, "asks").required(true)
}

// One word or more.
fn configs_arg<'a>(alloc: Global) -> Arg<'a>
    ensures rule { rule_of result ≡ forms.many_rule (codes "config") }
    ensures own { result.global ≡ false }
{
    Arg::new(alloc, "config").required(true).num_args(1..)
}

// The command without arguments so far.
fn bare<'a>(alloc: Global) -> Command<'a>
    ensures { app_of result ≡ forms.bare_app (codes "compare") }
{
    Command::new(alloc, "compare")
        .disable_help_flag(true)
        .disable_version_flag(true)
}

// `compare [--conflicts C] COUNT ASKS CONFIG...`
fn compare_form<'a>(alloc: Global) -> Result<Command<'a>, AllocError>
    ensures { IfOk result (λ form. app_of form ≡ compare_app) }
{
    bare(alloc)
        .arg(conflicts_arg(alloc))?
        .arg(count_arg(alloc))?
        .arg(asks_arg(alloc))?
        .arg(configs_arg(alloc))
}

// A number of clauses from 1 to 1,000,000,000.
fn clauses_of(word: &str) -> Option<u64>
    ensures value { result ≡ due.count_of word.now }
    ensures budget { IfSome result IsBudget }
{
    match read_number(word.as_bytes(), MOST_CONFLICTS) {
        Some(0) => None,
        count => count,
    }
}

// How many clauses a search may learn; none where the number is out of its range.
fn budget_of(conflicts: Option<&str>) -> Option<u64>
    ensures value { result ≡ due.budget_of (option_map (λ s. s.now) conflicts.entry) }
    ensures budget { IfSome result IsBudget }
{
    match conflicts {
        None => Some(DEFAULT_CONFLICTS),
        Some(word) => clauses_of(word),
    }
}

// How many of so many configurations are the left network's, one at least, so that one at least is left.
fn count_of(word: &str, configs: usize) -> Option<usize>
    ensures value { result ≡ count_in word.now configs }
    ensures within { IfSome result (λ count. count ≤ configs) }
{
    match read_number(word.as_bytes(), MOST_COUNT) {
        None => None,
        Some(count) => {
            if count > 0 && count < configs as u64 {
                Some(count as usize)
            } else {
                None
            }
        }
    }
}

// The first so many names, and the others.
fn parts_of(alloc: Global, names: &[&str], count: usize) -> Result<Parts, AllocError>
    requires { count ≤ length names.now }
    ensures { IfOk result (λ parts. parts_as parts ≡ parted count (map (λ s. s.now) names.now)) }
{
    let (first, others) = names.split_at(count);
    let left = owned(alloc, first)?;
    let right = owned(alloc, others)?;
    Ok(Parts { left, right })
}

// What is asked for with so many clauses, by the values of the other arguments.
fn asked_with<'a>(
    alloc: Global,
    matches: &ArgMatches<'a>,
    budget: u64,
) -> Result<Option<Asked>, AllocError>
    requires { IsBudget budget }
    ensures value { IfOk result (λ asked. option_map asks asked ≡ asked_by budget (rows_of (found_of matches.now))) }
    ensures budget { IfOk result (λ asked. IfSome asked (λ a. IsBudget a.budget)) }
{
    let names = all_values(alloc, matches, "config")?;
    let Some(count) = count_of(text_value(matches, "count"), names.len()) else {
        return Ok(None);
    };
    let parts = parts_of(alloc, names.as_slice(), count)?;
    Ok(Some(Asked {
        budget,
        asks: String::from_str(alloc, text_value(matches, "asks"))?,
        parts,
    }))
}

// What is asked for by the values of the arguments; none where a number is out of its range.
fn asked_values<'a>(alloc: Global, matches: &ArgMatches<'a>) -> Result<Option<Asked>, AllocError>
    ensures value { IfOk result (λ asked. option_map asks asked ≡ asked_in (rows_of (found_of matches.now))) }
    ensures budget { IfOk result (λ asked. IfSome asked (λ a. IsBudget a.budget)) }
{
    match budget_of(first_value(matches, "conflicts")) {
        None => Ok(None),
        Some(budget) => asked_with(alloc, matches, budget),
    }
}

fn is_compare(word: &String) -> bool
    ensures { result ≡ same_text (string_bytes word.now) (codes "compare") }
{
    word.as_str() == "compare"
}

// What the words ask for, where they are the command's.
fn asked_words(alloc: Global, words: &[String]) -> Result<Option<Asked>, AllocError>
    ensures value { IfOk result (λ asked. option_map asks asked
        ≡ asked_by_words (map string_bytes words.now)) }
    ensures budget { IfOk result (λ asked. IfSome asked (λ a. IsBudget a.budget)) }
{
    let form = compare_form(alloc)?;
    match matches_of(form, words)? {
        Some(matches) => asked_values(alloc, &matches),
        None => Ok(None),
    }
}

/// What the words ask for, where they are `compare [--conflicts C] COUNT ASKS CONFIG...` as `clap` reads them, C is
/// from 1 to 1,000,000,000, and COUNT is from 1 to one less than the number of configurations; C is 1,000,000 where
/// it is not said.
///
/// # Errors
/// Memory was refused.
#[tactic(auto, unfolding(crate::specs::Words::asked_of))]
pub fn read_asked_words(alloc: Global, words: &[String]) -> Result<Option<Asked>, AllocError>
    ensures value { IfOk result (λ asked. option_map asks asked ≡ asked_of (map string_bytes words.now)) }
    ensures budget { IfOk result (λ asked. IfSome asked (λ a. IsBudget a.budget)) }
{
    match words {
        [] => Ok(None),
        [command, ..] if is_compare(command) => asked_words(alloc, words),
        _ => Ok(None),
    }
}
