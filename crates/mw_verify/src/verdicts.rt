//! Verdicts for the questions of a network, one after another.

ghost use Rattle.std.specs.Prelude.{◌≡◌, ◌≢◌, ◌⊎◌, IfOk, OnErr, length, map};
ghost use Rattle.mw_outside.specs.Faults.{Rose};
ghost use Rattle.run_answers.specs.Answering.{IsCutShort, IsPut, OnWriteFault, UnlessWriteFault};
ghost use Rattle.run_answers.specs.Running.{AnswersSo};
ghost use Rattle.run_inputs.specs.Due as due;
ghost use Rattle.run_inputs.specs.Loading.{IsBudget, IsReady};

use deciders::Decider;
use mw_outside::Sink;
use question_lang::Question;
use question_search::answer::answer;
use run_answers::halt::put_lines;
use run_answers::{Halt, Seen, Status, Verdict};
use run_inputs::Work;
use run_inputs::load::Loaded;
use std::alloc::Global;

// Answers a question: its section goes into the log, and then the lines of its verdict are printed.
fn put_verdict<O: Sink, L: Sink>(
    alloc: Global,
    loaded: &Loaded,
    number: u32,
    question: &Question,
    out: &mut O,
    log: &mut L,
    deciders: &mut Vec<Box<dyn Decider>>,
) -> Result<Verdict, Halt>
    requires budget { IsBudget loaded.now.budget }
    ensures ok { IfOk result (λ verdict. IsPut loaded.now.net.files loaded.now.questions loaded.now.budget number question.now verdict
        (O.taken out.old) (O.taken out.new) (L.taken log.old) (L.taken log.new) (map (λ b. told b) deciders.new.items)) }
    ensures cut { OnErr result (IsCutShort loaded.now.net.files loaded.now.questions loaded.now.budget number question.now
        (O.taken out.old) (O.taken out.new) (L.taken log.old) (L.taken log.new)) }
    ensures fault { OnWriteFault result (Rose (O.faults out.old) (O.faults out.new) ⊎ Rose (L.faults log.old) (L.faults log.new)) }
    ensures writes { UnlessWriteFault result ((O.faults out.new ≡ O.faults out.old) × (L.faults log.new ≡ L.faults log.old)) }
    ensures deciders { length deciders.new.items ≡ length deciders.old.items }
{
    let budget = loaded.budget;
    let verdict = answer(alloc, &loaded.net, number, question, budget, log, deciders)?;
    put_lines(alloc, loaded, question, &verdict, out)?;
    Ok(verdict)
}

/// Answers each question in turn.
pub fn put_verdicts<O: Sink, L: Sink>(
    alloc: Global,
    loaded: &Loaded,
    out: &mut O,
    log: &mut L,
    deciders: &mut Vec<Box<dyn Decider>>,
) -> Status
    requires { IsReady (Work.Answer loaded.now) }
    ensures answers { AnswersSo (due.answering loaded.now.net.files loaded.now.questions loaded.now.budget) result
        (O.taken out.old) (O.taken out.new) (L.taken log.old) (L.taken log.new) (map (λ b. told b) deciders.new.items)
        (Rose (O.faults out.old) (O.faults out.new) ⊎ Rose (L.faults log.old) (L.faults log.new)) }
    ensures writes { result ≢ Status.WriteFault → (O.faults out.new ≡ O.faults out.old) × (L.faults log.new ≡ L.faults log.old) }
    ensures deciders { length deciders.new.items ≡ length deciders.old.items }
{
    let mut seen = Seen {
        broken: false,
        unknown: false,
    };
    for (at, question) in loaded.questions.as_slice().iter().enumerate() {
        match put_verdict(alloc, loaded, at as u32, question, out, log, deciders) {
            Ok(verdict) => seen = seen.with(&verdict),
            Err(Halt::WriteFault) => return Status::WriteFault,
            Err(Halt::Memory) => return Status::Memory,
        }
    }
    seen.status()
}
