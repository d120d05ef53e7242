//! The work that a command asks for.

ghost use Rattle.std.specs.Prelude.{◌≡◌, ℕ, List as ListOf, Option as OptionOf, true, false, IfOk, IfErr, IfSome, None, Some, map, option_map, string_bytes};
ghost use Rattle.mw_outside.specs.Contents.{Contents};
ghost use Rattle.mw_outside.specs.Faults.{Rose};
ghost use Rattle.mw_words.specs.Asked as asked;
ghost use Rattle.run_inputs.specs.Due as due;
ghost use Rattle.run_inputs.specs.Due.{IsDue, Outcome};
ghost use Rattle.run_inputs.specs.Loading.{ComesTo, IsBudget, IsReady, OnStop, UnlessReadFault, WorksSo};
ghost use Rattle.run_inputs.specs.Order.{StopsIn, in_order};

use crate::events::load_simulation;
use crate::load::{DEFAULT_CONFLICTS, Loaded, MOST_CONFLICTS, Stop, load};
use crate::ring::{Ring, make_ring};
use crate::told::{Logged, Told, load_check, load_replay};
use mw_gen::{LEAST_ROUTERS, MOST_ROUTERS};
use mw_outside::Files;
use mw_text::read_number;
use mw_words::{Request, read_words};
use simulation::Simulated;
use std::alloc::Global;

/// What a command asks for, read and parsed.
#[derive(Drop)]
pub enum Work {
    /// Questions to answer.
    Answer(Loaded),
    /// A counterexample to test.
    Replay(Told),
    /// A log to hold against questions.
    Check(Logged),
    /// What is said of the state to which events led.
    Simulate(Simulated),
    /// The question about a ring to answer.
    Gen(Ring),
}

// A number of clauses from 1 to 1,000,000,000.
fn count_of(word: &str) -> Option<u64>
    ensures value { result ≡ due.count_of word.now }
    ensures budget { IfSome result IsBudget }
{
    match read_number(word.as_bytes(), MOST_CONFLICTS) {
        Some(0) => None,
        count => count,
    }
}

// How many clauses a search may learn; none where the number is out of its range.
fn budget_of(conflicts: Option<&str>) -> Option<u64>
    ensures value { result ≡ due.budget_of (option_map (λ s. s.now) conflicts.entry) }
    ensures budget { IfSome result IsBudget }
{
    match conflicts {
        None => Some(DEFAULT_CONFLICTS),
        Some(word) => count_of(word),
    }
}

// How many routers a ring has; none where the number is out of its range.
fn routers_of(word: &str) -> Option<u64>
    ensures { result ≡ due.routers_of word.now }
{
    match read_number(word.as_bytes(), MOST_ROUTERS) {
        Some(count) if count < LEAST_ROUTERS => None,
        count => count,
    }
}

// The work of `verify` with that number.
fn verify_within<F: Files>(
    alloc: Global,
    files: &mut F,
    budget: u64,
    questions: &str,
    configs: &[&str],
) -> Result<Option<Work>, Stop>
    requires budget { IsBudget budget }
    ensures kept { F.contents files.new ≡ F.contents files.old }
    ensures so { WorksSo (F.contents files.old) (Some (due.to_verify budget questions.now (map (λ s. s.now) configs.now)))
        (F.faults files.old) (F.faults files.new) (F.last_failed files.old) (F.last_failed files.new) result }
{
    match load(alloc, files, budget, questions, configs) {
        Ok(loaded) => Ok(Some(Work::Answer(loaded))),
        Err(stop) => Err(stop),
    }
}

fn verify_work<F: Files>(
    alloc: Global,
    files: &mut F,
    conflicts: Option<&str>,
    questions: &str,
    configs: &[&str],
) -> Result<Option<Work>, Stop>
    ensures kept { F.contents files.new ≡ F.contents files.old }
    ensures so { WorksSo (F.contents files.old)
        (due.command_by (asked.verify (option_map (λ s. s.now) conflicts.entry) questions.now (map (λ s. s.now) configs.now)))
        (F.faults files.old) (F.faults files.new) (F.last_failed files.old) (F.last_failed files.new) result }
{
    match budget_of(conflicts) {
        Some(budget) => verify_within(alloc, files, budget, questions, configs),
        None => Ok(None),
    }
}

fn check_work<F: Files>(
    alloc: Global,
    files: &mut F,
    log: &str,
    questions: &str,
    configs: &[&str],
) -> Result<Option<Work>, Stop>
    ensures kept { F.contents files.new ≡ F.contents files.old }
    ensures so { WorksSo (F.contents files.old)
        (due.command_by (asked.check log.now questions.now (map (λ s. s.now) configs.now)))
        (F.faults files.old) (F.faults files.new) (F.last_failed files.old) (F.last_failed files.new) result }
{
    match load_check(alloc, files, log, questions, configs) {
        Ok(logged) => Ok(Some(Work::Check(logged))),
        Err(stop) => Err(stop),
    }
}

fn replay_work<F: Files>(
    alloc: Global,
    files: &mut F,
    cex: &str,
    questions: &str,
    configs: &[&str],
) -> Result<Option<Work>, Stop>
    ensures kept { F.contents files.new ≡ F.contents files.old }
    ensures so { WorksSo (F.contents files.old)
        (due.command_by (asked.replay cex.now questions.now (map (λ s. s.now) configs.now)))
        (F.faults files.old) (F.faults files.new) (F.last_failed files.old) (F.last_failed files.new) result }
{
    match load_replay(alloc, files, cex, questions, configs) {
        Ok(told) => Ok(Some(Work::Replay(told))),
        Err(stop) => Err(stop),
    }
}

fn simulate_work<F: Files>(
    alloc: Global,
    files: &mut F,
    events: &str,
    configs: &[&str],
) -> Result<Option<Work>, Stop>
    ensures kept { F.contents files.new ≡ F.contents files.old }
    ensures so { WorksSo (F.contents files.old)
        (due.command_by (asked.simulate events.now (map (λ s. s.now) configs.now)))
        (F.faults files.old) (F.faults files.new) (F.last_failed files.old) (F.last_failed files.new) result }
{
    match load_simulation(alloc, files, events, configs) {
        Ok(answer) => Ok(Some(Work::Simulate(answer))),
        Err(stop) => Err(stop),
    }
}

// The work of `gen` with its numbers, for which no file is read.
fn gen_within(alloc: Global, budget: u64, routers: u64) -> Result<Option<Work>, Stop>
    requires { IsBudget budget }
    ensures { (told : OptionOf Contents) (faults : ℕ) (last : OptionOf (ListOf ℕ)) →
        WorksSo told (Some (due.to_gen budget routers)) faults faults last last result }
{
    match make_ring(alloc, budget, routers) {
        Ok(ring) => Ok(Some(Work::Gen(ring))),
        Err(stop) => Err(stop),
    }
}

fn gen_counted(alloc: Global, budget: u64, count: &str) -> Result<Option<Work>, Stop>
    requires { IsBudget budget }
    ensures { (told : OptionOf Contents) (faults : ℕ) (last : OptionOf (ListOf ℕ)) →
        WorksSo told (option_map (due.to_gen budget) (due.routers_of count.now)) faults faults last last result }
{
    match routers_of(count) {
        Some(routers) => gen_within(alloc, budget, routers),
        None => Ok(None),
    }
}

fn gen_work(alloc: Global, conflicts: Option<&str>, count: &str) -> Result<Option<Work>, Stop>
    ensures { (told : OptionOf Contents) (faults : ℕ) (last : OptionOf (ListOf ℕ)) → WorksSo told
        (due.command_by (asked.gen (option_map (λ s. s.now) conflicts.entry) count.now)) faults faults last last result }
{
    match budget_of(conflicts) {
        Some(budget) => gen_counted(alloc, budget, count),
        None => Ok(None),
    }
}

// The work of a request.
fn request_work<F: Files>(
    alloc: Global,
    files: &mut F,
    request: &Request,
) -> Result<Option<Work>, Stop>
    ensures kept { F.contents files.new ≡ F.contents files.old }
    ensures so { WorksSo (F.contents files.old) (due.command_by (asked.asks request.now))
        (F.faults files.old) (F.faults files.new) (F.last_failed files.old) (F.last_failed files.new) result }
{
    match request {
        Request::Verify {
            conflicts,
            questions,
            configs,
        } => verify_work(alloc, files, *conflicts, questions, configs.as_slice()),
        Request::Check {
            log,
            questions,
            configs,
        } => check_work(alloc, files, log, questions, configs.as_slice()),
        Request::Replay {
            cex,
            questions,
            configs,
        } => replay_work(alloc, files, cex, questions, configs.as_slice()),
        Request::Simulate { events, configs } => simulate_work(
            alloc,
            files,
            events,
            configs.as_slice(),
        ),
        Request::Gen { conflicts, count } => gen_work(alloc, *conflicts, count),
    }
}

// The work of the words.
fn words_work<F: Files>(
    alloc: Global,
    files: &mut F,
    words: &[String],
) -> Result<Option<Work>, Stop>
    ensures kept { F.contents files.new ≡ F.contents files.old }
    ensures so { WorksSo (F.contents files.old) (due.command_of (map string_bytes words.now))
        (F.faults files.old) (F.faults files.new) (F.last_failed files.old) (F.last_failed files.new) result }
{
    match read_words(alloc, words) {
        Ok(Some(request)) => request_work(alloc, files, &request),
        Ok(None) => Ok(None),
        Err(_) => Err(Stop::Memory),
    }
}

/// The work that the words ask for, read and parsed, or where that stops. None where they are no command.
pub fn work_of<F: Files>(
    alloc: Global,
    files: &mut F,
    words: &[String],
) -> Result<Option<Work>, Stop>
    ensures none { IfOk result (λ work. work ≡ None → due.is_command (map string_bytes words.now) ≡ false) }
    ensures command { IfOk result (λ work. IfSome work (λ _. due.is_command (map string_bytes words.now) ≡ true)) }
    ensures stopped { IfErr result (λ stop. OnStop stop
        (λ _. due.is_command (map string_bytes words.now) ≡ true) (due.is_command (map string_bytes words.now) ≡ true)) }
    ensures kept { F.contents files.new ≡ F.contents files.old }
    ensures due { IfOk result (λ work. IfSome work (λ w. (outcome : Outcome)
        × IsDue (F.contents files.old) (map string_bytes words.now) outcome × ComesTo w outcome)) }
    ensures ready { IfOk result (λ work. IfSome work IsReady) }
    ensures quiet { UnlessReadFault result (F.faults files.new ≡ F.faults files.old) }
    ensures name_stays { UnlessReadFault result (F.last_failed files.new ≡ F.last_failed files.old) }
    ensures stop { IfErr result (λ stop. OnStop stop
        (λ line. IsDue (F.contents files.old) (map string_bytes words.now) (due.refused line))
        (Rose (F.faults files.old) (F.faults files.new)
        × StopsIn (F.contents files.old) (in_order (map string_bytes words.now)) (F.last_failed files.new))) }
{
    words_work(alloc, files, words)
}
