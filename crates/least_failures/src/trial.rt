//! A question, tried with another number of links that may fail.

ghost use Rattle.std.specs.Prelude.{◌≡◌, IfOk, OnErr, length, map};
ghost use Rattle.cdcl_search.specs.Outcomes.{OnLogFault, UnlessLogFault};
ghost use Rattle.least_failures.specs.Trials.{trial};
ghost use Rattle.mw_outside.specs.Faults.{Rose};
ghost use Rattle.run_answers.specs.Answering.{IsToldSo, IsUnfinished};
ghost use Rattle.run_inputs.specs.Loading.{IsBudget};

use cdcl_search::SolveFault;
use deciders::Decider;
use mw_outside::Sink;
use net_model::Net;
use question_lang::Question;
use question_search::answer::answer;
use run_answers::Verdict;
use run_inputs::text::joined;
use std::alloc::{AllocError, Global};

// The question with k for the greatest number of links that may fail, under the name of its section.
fn trial_of(alloc: Global, question: &Question, k: u32) -> Result<Question, AllocError>
    ensures { IfOk result (λ asked. asked ≡ trial k question.now) }
{
    let count = k.to_string(alloc)?;
    let name = joined(alloc, &[question.name.as_slice(), b"@", count.as_bytes()])?;
    Ok(Question {
        name,
        kind: question.kind,
        packets: question.packets,
        failures: k,
    })
}

/// A right verdict for the question where at most k links may fail, found by learning at most so many clauses. Its section,
/// under the name `NAME@k`, stands in the log.
///
/// # Errors
/// `LogFault` where a write of the log failed; `Memory` where memory was refused and no write failed. A front of what was
/// to be logged then stands.
pub fn try_with<L: Sink>(
    alloc: Global,
    net: &Net,
    number: u32,
    question: &Question,
    k: u32,
    budget: u64,
    log: &mut L,
    deciders: &mut Vec<Box<dyn Decider>>,
) -> Result<Verdict, SolveFault>
    requires budget { IsBudget budget }
    ensures ok { IfOk result (λ verdict. IsToldSo net.now.files budget number (trial k question.now) verdict
        (L.taken log.old) (L.taken log.new) (map (λ b. told b) deciders.new.items)) }
    ensures cut { OnErr result (IsUnfinished net.now.files budget (trial k question.now) (L.taken log.old) (L.taken log.new)) }
    ensures fault { OnLogFault result (Rose (L.faults log.old) (L.faults log.new)) }
    ensures stays { UnlessLogFault result (L.faults log.new ≡ L.faults log.old) }
    ensures deciders { length deciders.new.items ≡ length deciders.old.items }
{
    let asked = trial_of(alloc, question, k)?;
    answer(alloc, net, number, &asked, budget, log, deciders)
}
