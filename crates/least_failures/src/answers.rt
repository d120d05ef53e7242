//! Answers to questions one after another.

ghost use Rattle.std.specs.Prelude.{◌≡◌, ◌⊎◌, ◌<◌, ◌≤◌, ◌||◌, IfOk, OnErr, length, map};
ghost use Rattle.least_failures.specs.Answering.{AnswersSo, IsCutShort, IsPut};
ghost use Rattle.least_failures.specs.Answering.{is_broken, is_unknown};
ghost use Rattle.least_failures.specs.Finding.{OfQuestion};
ghost use Rattle.mw_outside.specs.Faults.{Rose};
ghost use Rattle.run_answers.specs.Answering.{OnWriteFault, UnlessWriteFault};
ghost use Rattle.run_inputs.specs.Loading.{IsBudget};

use crate::finding::{least, question_at};
use crate::lines::put_lines;
use crate::outcome::{Least, LeastFault};
use asked_files::ended_by;
use deciders::Decider;
use mw_load::Ended;
use mw_outside::Sink;
use net_model::Net;
use question_lang::{MOST_QUESTIONS, Question};
use run_answers::{Halt, Seen};
use std::alloc::Global;

impl From<LeastFault> for Halt {
    ghost use Rattle.least_failures.specs.Answering.{halt_of};

    ghost from_gives = { λ fault halt. halt ≡ halt_of fault };

    fn from(fault: LeastFault) -> Halt {
        match fault {
            LeastFault::LogFault => Halt::WriteFault,
            LeastFault::Memory => Halt::Memory,
        }
    }
}

// With what is found of one question more.
fn with_found(seen: Seen, found: &Least) -> Seen
    ensures broken { result.broken ≡ (seen.broken || is_broken found.now) }
    ensures unknown { result.unknown ≡ (seen.unknown || is_unknown found.now) }
{
    match found {
        Least::At { .. } => Seen {
            broken: true,
            unknown: seen.unknown,
        },
        Least::NoneUpTo { .. } => seen,
        Least::Unknown { .. } => Seen {
            broken: seen.broken,
            unknown: true,
        },
    }
}

// Answers the question of that number: the sections of its trials go into the log, and then its lines are printed.
fn put_least<O: Sink, L: Sink>(
    alloc: Global,
    net: &Net,
    questions: &[Question],
    number: u32,
    budget: u64,
    out: &mut O,
    log: &mut L,
    deciders: &mut Vec<Box<dyn Decider>>,
) -> Result<Least, Halt>
    requires number { number < length questions.now }
    requires budget { IsBudget budget }
    ensures ok { IfOk result (λ found. OfQuestion questions.now number (λ question.
        IsPut net.now.files questions.now budget number question (O.taken out.old) (O.taken out.new)
        (L.taken log.old) (L.taken log.new) (map (λ b. told b) deciders.new.items) found)) }
    ensures cut { OnErr result (OfQuestion questions.now number (λ question.
        IsCutShort net.now.files questions.now budget number question (O.taken out.old) (O.taken out.new)
        (L.taken log.old) (L.taken log.new))) }
    ensures fault { OnWriteFault result (Rose (O.faults out.old) (O.faults out.new) ⊎ Rose (L.faults log.old) (L.faults log.new)) }
    ensures writes { UnlessWriteFault result ((O.faults out.new ≡ O.faults out.old) × (L.faults log.new ≡ L.faults log.old)) }
    ensures deciders { length deciders.new.items ≡ length deciders.old.items }
{
    let found = least(alloc, net, questions, number, budget, log, deciders)?;
    let question = question_at(questions, number);
    put_lines(alloc, net, questions, question, budget, &found, out)?;
    Ok(found)
}

/// Answers each question in turn.
pub fn put_answers<O: Sink, L: Sink>(
    alloc: Global,
    net: &Net,
    questions: &[Question],
    budget: u64,
    out: &mut O,
    log: &mut L,
    deciders: &mut Vec<Box<dyn Decider>>,
) -> Ended
    requires few { length questions.now ≤ MOST_QUESTIONS }
    requires budget { IsBudget budget }
    ensures so { AnswersSo net.now.files questions.now budget (record {
      taken = O.taken out.old;
      taken_now = O.taken out.new;
      faults = O.faults out.old;
      faults_now = O.faults out.new;
      logged = L.taken log.old;
      logged_now = L.taken log.new;
      log_faults = L.faults log.old;
      log_faults_now = L.faults log.new;
      tolds = map (λ b. told b) deciders.new.items;
    }) result }
    ensures deciders { length deciders.new.items ≡ length deciders.old.items }
{
    let mut seen = Seen {
        broken: false,
        unknown: false,
    };
    for at in 0..questions.len() {
        match put_least(alloc, net, questions, at as u32, budget, out, log, deciders) {
            Ok(found) => seen = with_found(seen, &found),
            Err(Halt::WriteFault) => return Ended::WriteFault,
            Err(Halt::Memory) => return Ended::Memory,
        }
    }
    ended_by(seen)
}
