//! The forms of the commands.

ghost use Rattle.std.specs.Prelude.{◌≡◌, false, IfOk};
ghost use Rattle.clap.specs.Words.{app_of, rule_of};
ghost use Rattle.mw_words.specs.Forms as forms;

use clap::{Arg, Command};
use std::alloc::{AllocError, Global};

// `--conflicts N`, which may stand once.
fn conflicts_arg<'a>(alloc: Global) -> Arg<'a>
    ensures rule { rule_of result ≡ forms.conflicts_rule }
    ensures own { result.global ≡ false }
{
    Arg::new(alloc, "conflicts").long("conflicts")
}

// One word.
fn single_arg<'a>(alloc: Global, id: &'a str) -> Arg<'a>
    ensures rule { rule_of result ≡ forms.single_rule id.entry.now }
    ensures own { result.global ≡ false }
{
    Arg::new(alloc, id).required(true)
}

// One word or more.
fn many_arg<'a>(alloc: Global, id: &'a str) -> Arg<'a>
    ensures rule { rule_of result ≡ forms.many_rule id.entry.now }
    ensures own { result.global ≡ false }
{
    Arg::new(alloc, id).required(true).num_args(1..)
}

// A command without flags for help and version, and without arguments so far.
fn bare<'a>(alloc: Global, name: &'a str) -> Command<'a>
    ensures { app_of result ≡ forms.bare_app name.entry.now }
{
    Command::new(alloc, name)
        .disable_help_flag(true)
        .disable_version_flag(true)
}

/// `verify [--conflicts N] QUESTIONS CONFIG...`
pub fn verify_form<'a>(alloc: Global) -> Result<Command<'a>, AllocError>
    ensures { IfOk result (λ form. app_of form ≡ forms.verify_app) }
{
    bare(alloc, "verify")
        .arg(conflicts_arg(alloc))?
        .arg(single_arg(alloc, "questions"))?
        .arg(many_arg(alloc, "config"))
}

/// `NAME OWN QUESTIONS CONFIG...`
pub fn telling_form<'a>(alloc: Global, name: &'a str) -> Result<Command<'a>, AllocError>
    ensures { IfOk result (λ form. app_of form ≡ forms.telling_app name.entry.now) }
{
    bare(alloc, name)
        .arg(single_arg(alloc, "own"))?
        .arg(single_arg(alloc, "questions"))?
        .arg(many_arg(alloc, "config"))
}

/// `simulate EVENTS CONFIG...`
pub fn simulate_form<'a>(alloc: Global) -> Result<Command<'a>, AllocError>
    ensures { IfOk result (λ form. app_of form ≡ forms.simulate_app) }
{
    bare(alloc, "simulate")
        .arg(single_arg(alloc, "events"))?
        .arg(many_arg(alloc, "config"))
}

/// `gen [--conflicts N] COUNT`
pub fn gen_form<'a>(alloc: Global) -> Result<Command<'a>, AllocError>
    ensures { IfOk result (λ form. app_of form ≡ forms.gen_app) }
{
    bare(alloc, "gen")
        .arg(conflicts_arg(alloc))?
        .arg(single_arg(alloc, "count"))
}
