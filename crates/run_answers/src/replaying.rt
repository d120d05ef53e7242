//! Tests a counterexample that is told.

ghost use Rattle.std.specs.Prelude.{◌≡◌, ◌≢◌, ℕ, List as ListOf, Option as OptionOf, Some, IfOk};
ghost use Rattle.cex_json.specs.Parts.{router_name as name_of};
ghost use Rattle.mw_outside.specs.Faults.{Rose};
ghost use Rattle.run_answers.specs.Replays as replays;
ghost use Rattle.run_answers.specs.Running.{AnswersSo};
ghost use Rattle.run_inputs.specs.Due as due;
ghost use Rattle.run_inputs.specs.Loading.{IsAdmitted};

use crate::status::Status;
use cex_json::{Counterexample, write_part, write_part_list};
use mw_outside::Sink;
use mw_text::{List, list_of};
use net_model::Net;
use question_lang::Question;
use route_record::Slot;
use run_inputs::text::joined;
use run_inputs::told::Told;
use stable_replay::{Differs, Part, ReplayNo, replay};
use std::alloc::{AllocError, Global};

// What a replay that says no comes to: its reason, but for want of memory.
fn told_no(why: ReplayNo) -> Result<Option<ReplayNo>, AllocError>
    ensures { IfOk result (λ answer. (answer ≡ Some why) × (why ≢ ReplayNo.Memory)) }
{
    match why {
        ReplayNo::Memory => Err(AllocError),
        _ => Ok(Some(why)),
    }
}

// Why the counterexample is not true; None where it is.
fn replay_answer(
    alloc: Global,
    net: &Net,
    questions: &[Question],
    cex: &Counterexample,
) -> Result<Option<ReplayNo>, AllocError>
    requires { IsAdmitted net.now.files questions.now cex.now }
    ensures { IfOk result (replays.AnswersReplay net.now.files questions.now cex.now) }
{
    let question = &questions[cex.question as usize];
    match replay(alloc, net, question, cex) {
        Ok(()) => Ok(None),
        Err(why) => told_no(why),
    }
}

fn part_name(part: Part) -> &'static [u8]
    ensures { result.now ≡ replays.part_name part }
{
    match part {
        Part::Ospf => b"ospf",
        Part::Bgp => b"bgp",
        Part::Rib => b"rib",
    }
}

fn router_name(net: &Net, router: u32) -> &[u8]
    ensures { result.now ≡ name_of net.now.files router }
{
    match net.routers().get(router as usize) {
        Some(file) => file.hostname.as_slice(),
        None => b"",
    }
}

fn lone_text(alloc: Global, slots: &[Slot]) -> Result<List<u8>, AllocError>
    ensures { IfOk result (λ text. text ≡ replays.lone_text slots.now) }
{
    match slots {
        [] => list_of(alloc, b"null"),
        [slot, ..] => write_part(alloc, slot),
    }
}

fn wanted_text(alloc: Global, part: Part, slots: &[Slot]) -> Result<List<u8>, AllocError>
    ensures { IfOk result (λ text. text ≡ replays.wanted_text part slots.now) }
{
    match part {
        Part::Bgp => write_part_list(alloc, slots),
        _ => lone_text(alloc, slots),
    }
}

fn difference_text(alloc: Global, net: &Net, differs: &Differs) -> Result<List<u8>, AllocError>
    ensures { IfOk result (λ text. text ≡ replays.difference_text net.now.files differs.now) }
{
    let name = list_of(alloc, router_name(net, differs.router))?;
    let len = differs.len.to_string(alloc)?;
    let held = write_part(alloc, &differs.held)?;
    let wanted = wanted_text(alloc, differs.part, differs.wanted.as_slice())?;
    joined(
        alloc,
        &[
            name.as_slice(),
            b" ",
            len.as_bytes(),
            b" ",
            part_name(differs.part),
            b" held ",
            held.as_slice(),
            b" wanted ",
            wanted.as_slice(),
        ],
    )
}

fn differs_line(alloc: Global, net: &Net, differs: &Differs) -> Result<List<u8>, AllocError>
    ensures { IfOk result (λ text. text ≡ replays.no_text net.now.files (ReplayNo.Differs differs.now)) }
{
    let difference = difference_text(alloc, net, differs)?;
    joined(alloc, &[b"no differs ", difference.as_slice(), b"\n"])
}

fn no_text(alloc: Global, net: &Net, why: &ReplayNo) -> Result<List<u8>, AllocError>
    ensures { IfOk result (λ text. text ≡ replays.no_text net.now.files why.now) }
{
    match why {
        ReplayNo::Differs(differs) => differs_line(alloc, net, differs),
        ReplayNo::NotWalk => list_of(alloc, b"no walk\n"),
        ReplayNo::NotBreak => list_of(alloc, b"no break\n"),
        ReplayNo::Memory => Ok(List::new(alloc)),
    }
}

fn replay_text(alloc: Global, net: &Net, answer: &Option<ReplayNo>) -> Result<List<u8>, AllocError>
    ensures { IfOk result (λ text. text ≡ replays.replay_text net.now.files answer.now) }
{
    match answer {
        None => list_of(alloc, b"yes\n"),
        Some(why) => no_text(alloc, net, why),
    }
}

/// A right answer, by whether it is `yes`, with its line.
#[derive(Drop)]
pub struct ReplayLine {
    pub yes: bool,
    pub text: List<u8>,
}

/// Whether a counterexample to one of the questions is true, with the line that says it. The one error is want of memory.
pub fn replay_line(
    alloc: Global,
    net: &Net,
    questions: &[Question],
    cex: &Counterexample,
) -> Result<ReplayLine, AllocError>
    requires { IsAdmitted net.now.files questions.now cex.now }
    ensures { IfOk result (λ line. replays.IsReplayLine net.now.files questions.now cex.now line.yes line.text) }
{
    let answer = replay_answer(alloc, net, questions, cex)?;
    let yes = answer.is_none();
    let text = replay_text(alloc, net, &answer)?;
    Ok(ReplayLine { yes, text })
}

/// Prints whether the counterexample is true.
pub fn put_replay<O: Sink>(alloc: Global, told: &Told, out: &mut O) -> Status
    requires { IsAdmitted told.now.net.files told.now.questions told.now.cex }
    // Nothing of it is logged, and no decider is asked.
    ensures answers { (logged : OptionOf (ListOf ℕ)) (tolds : ListOf (OptionOf (ListOf ℕ))) →
        AnswersSo (due.replaying told.now.net.files told.now.questions told.now.cex) result
        (O.taken out.old) (O.taken out.new) logged logged tolds (Rose (O.faults out.old) (O.faults out.new)) }
    ensures writes { result ≢ Status.WriteFault → O.faults out.new ≡ O.faults out.old }
{
    let line = match replay_line(alloc, &told.net, told.questions.as_slice(), &told.cex) {
        Ok(line) => line,
        Err(_) => return Status::Memory,
    };
    match out.write(line.text.as_slice()) {
        Ok(()) => if line.yes { Status::Good } else { Status::Bad },
        Err(_) => Status::WriteFault,
    }
}
