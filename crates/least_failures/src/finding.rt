//! Finds with how few failed links something breaks a question.

ghost use Rattle.std.specs.Prelude.{◌≡◌, ◌<◌, Some, IfOk, OnErr, length, map, slice_get};
ghost use Rattle.least_failures.specs.Finding.{IsFound, IsUnfound, OfQuestion, OnLogFault, UnlessLogFault};
ghost use Rattle.mw_outside.specs.Faults.{Rose};
ghost use Rattle.run_inputs.specs.Loading.{IsBudget};

use crate::outcome::{Least, LeastFault};
use crate::trial::try_with;
use cdcl_search::SolveFault;
use deciders::Decider;
use mw_outside::Sink;
use net_model::Net;
use question_lang::Question;
use run_answers::Verdict;
use std::alloc::Global;

/// The question of that number.
pub fn question_at(questions: &[Question], number: u32) -> &Question
    requires { number < length questions.now }
    ensures { slice_get questions.entry.now number ≡ Some result.now }
{
    &questions[number as usize]
}

// With how few failed links something breaks this question.
fn least_of<L: Sink>(
    alloc: Global,
    net: &Net,
    number: u32,
    question: &Question,
    budget: u64,
    log: &mut L,
    deciders: &mut Vec<Box<dyn Decider>>,
) -> Result<Least, LeastFault>
    requires budget { IsBudget budget }
    ensures ok { IfOk result (IsFound net.now.files budget number question.now (L.taken log.old) (L.taken log.new)
        (map (λ b. told b) deciders.new.items)) }
    ensures cut { OnErr result (IsUnfound net.now.files budget question.now (L.taken log.old) (L.taken log.new)) }
    ensures fault { OnLogFault result (Rose (L.faults log.old) (L.faults log.new)) }
    ensures stays { UnlessLogFault result (L.faults log.new ≡ L.faults log.old) }
    ensures deciders { length deciders.new.items ≡ length deciders.old.items }
{
    for count in 0..question.failures as u64 + 1 {
        let k = count as u32;
        match try_with(alloc, net, number, question, k, budget, log, deciders) {
            Ok(Verdict::Holds) => {}
            Ok(Verdict::Broken(cex)) => return Ok(Least::At { k, cex }),
            Ok(Verdict::Unknown(_)) => return Ok(Least::Unknown { k }),
            Err(SolveFault::LogFault) => return Err(LeastFault::LogFault),
            Err(SolveFault::Memory) => return Err(LeastFault::Memory),
        }
    }
    Ok(Least::NoneUpTo {
        k: question.failures,
    })
}

/// With how few failed links something breaks the question of that number: at most as many as it allows. The numbers from
/// 0 on are tried in turn, each by a search that learns at most so many clauses, and the sections `NAME@0`, `NAME@1` and so
/// on that show what they come to stand in the log. The deciders choose by turns what a search decides; those that tell
/// their bumps tell those of the last section.
///
/// # Errors
/// `LogFault` where a write of the log failed; `Memory` where memory was refused and no write failed. Whole sections, each
/// of which excludes its number, and a front of the next then stand.
pub fn least<L: Sink>(
    alloc: Global,
    net: &Net,
    questions: &[Question],
    number: u32,
    budget: u64,
    log: &mut L,
    deciders: &mut Vec<Box<dyn Decider>>,
) -> Result<Least, LeastFault>
    requires number { number < length questions.now }
    requires budget { IsBudget budget }
    ensures ok { IfOk result (λ found. OfQuestion questions.now number (λ question.
        IsFound net.now.files budget number question (L.taken log.old) (L.taken log.new)
        (map (λ b. told b) deciders.new.items) found)) }
    ensures cut { OnErr result (OfQuestion questions.now number (λ question.
        IsUnfound net.now.files budget question (L.taken log.old) (L.taken log.new))) }
    ensures fault { OnLogFault result (Rose (L.faults log.old) (L.faults log.new)) }
    ensures stays { UnlessLogFault result (L.faults log.new ≡ L.faults log.old) }
    ensures deciders { length deciders.new.items ≡ length deciders.old.items }
{
    let question = question_at(questions, number);
    least_of(alloc, net, number, question, budget, log, deciders)
}
