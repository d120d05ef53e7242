//! Answers to asks one after another.

ghost use Rattle.std.specs.Prelude.{◌≡◌, ◌⊎◌, ◌<◌, ◌||◌, List as ListOf, Some, IfOk, OnErr, OnOk, length, map, slice_get};
ghost use Rattle.asked_files.specs.Answering.{AnswersSo, IsCutShort, IsPut};
ghost use Rattle.mw_outside.specs.Faults.{Rose};
ghost use Rattle.mw_outside.specs.Taken.{Takes, TakesPart};
ghost use Rattle.net_compare.specs.Answering.{answering, is_different, is_unknown};
ghost use Rattle.pair_search.specs.Verdicts.{verdict_text};
ghost use Rattle.resolution_check.specs.declared.log.Entry.{Entry};
ghost use Rattle.run_answers.specs.Answering.{OnWriteFault, UnlessWriteFault};
ghost use Rattle.run_inputs.specs.Loading.{IsBudget};
ghost use Rattle.same_asks.specs.Asking.{AreKnown, IsKnown};

use asked_files::ended_by;
use deciders::Decider;
use mw_load::Ended;
use mw_outside::Sink;
use net_model::Net;
use pair_search::answer::answer;
use pair_search::verdict::{SameVerdict, verdict_lines};
use run_answers::{Halt, Seen};
use same_asks::Same;
use std::alloc::Global;

// With one verdict more.
fn with_verdict(seen: Seen, verdict: &SameVerdict) -> Seen
    ensures broken { result.broken ≡ (seen.broken || is_different verdict.now) }
    ensures unknown { result.unknown ≡ (seen.unknown || is_unknown verdict.now) }
{
    match verdict {
        SameVerdict::Same => seen,
        SameVerdict::Different { .. } => Seen {
            broken: true,
            unknown: seen.unknown,
        },
        SameVerdict::Unknown(_) => Seen {
            broken: seen.broken,
            unknown: true,
        },
    }
}

// Prints the lines of a verdict.
fn put_lines<O: Sink>(
    alloc: Global,
    left: &Net,
    right: &Net,
    ask: &Same,
    verdict: &SameVerdict,
    out: &mut O,
) -> Result<(), Halt>
    ensures takes { OnOk result (Takes (O.taken out.old) (O.taken out.new)
        (verdict_text left.now.files right.now.files ask.now verdict.now)) }
    ensures part { TakesPart (O.taken out.old) (O.taken out.new)
        (verdict_text left.now.files right.now.files ask.now verdict.now) }
    ensures fault { OnWriteFault result (Rose (O.faults out.old) (O.faults out.new)) }
    ensures writes { UnlessWriteFault result (O.faults out.new ≡ O.faults out.old) }
{
    let text = match verdict_lines(alloc, left, right, ask, verdict) {
        Ok(text) => text,
        Err(_) => return Err(Halt::Memory),
    };
    match out.write(text.as_slice()) {
        Ok(()) => Ok(()),
        Err(_) => Err(Halt::WriteFault),
    }
}

// Answers an ask: its section goes into the log, and then its lines are printed.
fn put_answer<O: Sink, L: Sink>(
    alloc: Global,
    left: &Net,
    right: &Net,
    ask: &Same,
    budget: u64,
    out: &mut O,
    log: &mut L,
    deciders: &mut Vec<Box<dyn Decider>>,
) -> Result<SameVerdict, Halt>
    requires budget { IsBudget budget }
    requires known { IsKnown left.now.files right.now.files ask.now }
    requires tracked { left.now.tracked ≡ right.now.tracked }
    ensures ok { IfOk result (λ verdict. (section : ListOf Entry)
        × IsPut (answering left.now.files right.now.files budget) ask.now (O.taken out.old) (O.taken out.new)
        (L.taken log.old) (L.taken log.new) (map (λ b. told b) deciders.new.items)
        (record { verdict = verdict; section = section })) }
    ensures cut { OnErr result (IsCutShort (answering left.now.files right.now.files budget) ask.now
        (O.taken out.old) (O.taken out.new) (L.taken log.old) (L.taken log.new)) }
    ensures fault { OnWriteFault result (Rose (O.faults out.old) (O.faults out.new) ⊎ Rose (L.faults log.old) (L.faults log.new)) }
    ensures writes { UnlessWriteFault result ((O.faults out.new ≡ O.faults out.old) × (L.faults log.new ≡ L.faults log.old)) }
    ensures deciders { length deciders.new.items ≡ length deciders.old.items }
{
    let verdict = answer(alloc, left, right, ask, budget, log, deciders)?;
    put_lines(alloc, left, right, ask, &verdict, out)?;
    Ok(verdict)
}

fn ask_at(asks: &[Same], at: usize) -> &Same
    requires { at < length asks.now }
    ensures { slice_get asks.entry.now at ≡ Some result.now }
{
    &asks[at]
}

/// Answers each ask in turn.
pub fn put_answers<O: Sink, L: Sink>(
    alloc: Global,
    left: &Net,
    right: &Net,
    asks: &[Same],
    budget: u64,
    out: &mut O,
    log: &mut L,
    deciders: &mut Vec<Box<dyn Decider>>,
) -> Ended
    requires budget { IsBudget budget }
    requires known { AreKnown left.now.files right.now.files asks.now }
    requires tracked { left.now.tracked ≡ right.now.tracked }
    ensures so { AnswersSo (answering left.now.files right.now.files budget) asks.now (record {
      taken = O.taken out.old;
      taken_now = O.taken out.new;
      faults = O.faults out.old;
      faults_now = O.faults out.new;
      logged = L.taken log.old;
      logged_now = L.taken log.new;
      log_faults = L.faults log.old;
      log_faults_now = L.faults log.new;
      tolds = map (λ b. told b) deciders.new.items;
    }) result }
    ensures deciders { length deciders.new.items ≡ length deciders.old.items }
{
    let mut seen = Seen {
        broken: false,
        unknown: false,
    };
    for at in 0..asks.len() {
        let ask = ask_at(asks, at);
        match put_answer(alloc, left, right, ask, budget, out, log, deciders) {
            Ok(verdict) => seen = with_verdict(seen, &verdict),
            Err(Halt::WriteFault) => return Ended::WriteFault,
            Err(Halt::Memory) => return Ended::Memory,
        }
    }
    ended_by(seen)
}
