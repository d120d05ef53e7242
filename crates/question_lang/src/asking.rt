//! What a line of a questions file asks.

ghost use Rattle.std.specs.Prelude.{◌≡◌, ◌≢◌, ◌<◌, ◌-◌, ◌^◌, IfOk, IfErr, IfSome, Ok, Err, None, length, true};
ghost use Rattle.question_lang.specs.Asking as asking;
ghost use Rattle.question_lang.specs.Known as known;
ghost use Rattle.question_lang.specs.Naming as naming;

use crate::forms::{Form, find_form, read_words};
use crate::named::{
    are_routers_known, is_peer_known, router_said, start_said, target_said, word_said,
};
use crate::packets::packets_said;
use crate::question::{Kind, Question, Start, Target};
use crate::reader::MOST_QUESTIONS;
use ios_policy_reader::said::number_said;
use ios_policy_reader::{Cause, Said, Tag};
use mw_text::{List, list_of, same_bytes};
use net_model::Net;
use std::alloc::{AllocError, Global};

fn ends_said(net: &Net, words: &[List<u8>], said: &[Said]) -> Option<(Start, Target)>
    requires peer { naming.is_peer_known net.now.files words.now said.now ≡ true }
    ensures value { result ≡ asking.ends_of net.now.files words.now said.now }
    ensures known { IfSome result (λ ends. known.IsStart net.now.files ends.0 × known.IsTarget net.now.files ends.1) }
{
    let start = start_said(net, words, said)?;
    let target = target_said(net, words, said)?;
    Some((start, target))
}

fn reach_said(net: &Net, words: &[List<u8>], said: &[Said]) -> Option<Kind>
    requires peer { naming.is_peer_known net.now.files words.now said.now ≡ true }
    ensures value { result ≡ asking.reach_of net.now.files words.now said.now }
    ensures known { IfSome result (known.IsKnown net.now.files) }
{
    let (start, target) = ends_said(net, words, said)?;
    Some(Kind::Reach(start, target))
}

fn isolate_said(net: &Net, words: &[List<u8>], said: &[Said]) -> Option<Kind>
    requires peer { naming.is_peer_known net.now.files words.now said.now ≡ true }
    ensures value { result ≡ asking.isolate_of net.now.files words.now said.now }
    ensures known { IfSome result (known.IsKnown net.now.files) }
{
    let (start, target) = ends_said(net, words, said)?;
    Some(Kind::Isolate(start, target))
}

fn waypoint_said(net: &Net, words: &[List<u8>], said: &[Said]) -> Option<Kind>
    requires peer { naming.is_peer_known net.now.files words.now said.now ≡ true }
    ensures value { result ≡ asking.waypoint_of net.now.files words.now said.now }
    ensures known { IfSome result (known.IsKnown net.now.files) }
{
    let (start, target) = ends_said(net, words, said)?;
    let via = router_said(Tag::Waypoint, net, words, said)?;
    Some(Kind::Waypoint(start, target, via))
}

fn alike_said(net: &Net, words: &[List<u8>], said: &[Said]) -> Option<Kind>
    requires peer { naming.is_peer_known net.now.files words.now said.now ≡ true }
    ensures value { result ≡ asking.alike_of net.now.files words.now said.now }
    ensures known { IfSome result (known.IsKnown net.now.files) }
{
    let one = router_said(Tag::Start, net, words, said)?;
    let other = router_said(Tag::OtherStart, net, words, said)?;
    let target = target_said(net, words, said)?;
    Some(Kind::Alike(one, other, target))
}

fn no_loop_said(net: &Net, words: &[List<u8>], said: &[Said]) -> Option<Kind>
    ensures value { result ≡ asking.no_loop_of net.now.files words.now said.now }
    ensures known { IfSome result (known.IsKnown net.now.files) }
{
    let start = start_said(net, words, said)?;
    Some(Kind::NoLoop(start))
}

fn no_black_hole_said(net: &Net, words: &[List<u8>], said: &[Said]) -> Option<Kind>
    ensures value { result ≡ asking.no_black_hole_of net.now.files words.now said.now }
    ensures known { IfSome result (known.IsKnown net.now.files) }
{
    let start = start_said(net, words, said)?;
    Some(Kind::NoBlackHole(start))
}

fn within_said(net: &Net, words: &[List<u8>], said: &[Said]) -> Option<Kind>
    ensures value { result ≡ asking.within_of net.now.files words.now said.now }
    ensures known { IfSome result (known.IsKnown net.now.files) }
{
    let start = start_said(net, words, said)?;
    Some(Kind::Within(number_said(Tag::Hops, said, 0), start))
}

#[tactic(auto, unfolding(crate::specs::Asking::kind_of))]
fn kind_said(net: &Net, form: Form, words: &[List<u8>], said: &[Said]) -> Option<Kind>
    requires peer { naming.is_peer_known net.now.files words.now said.now ≡ true }
    ensures value { result ≡ asking.kind_of net.now.files form words.now said.now }
    ensures known { IfSome result (known.IsKnown net.now.files) }
{
    match form {
        Form::Reach => reach_said(net, words, said),
        Form::Isolate => isolate_said(net, words, said),
        Form::Waypoint => waypoint_said(net, words, said),
        Form::NoLoop => no_loop_said(net, words, said),
        Form::NoBlackHole => no_black_hole_said(net, words, said),
        Form::Within => within_said(net, words, said),
        Form::Alike => alike_said(net, words, said),
        Form::NoStable => Some(Kind::NoStable),
    }
}

fn question_said(
    alloc: Global,
    net: &Net,
    form: Form,
    words: &[List<u8>],
    said: &[Said],
) -> Result<Option<Question>, AllocError>
    requires peer { naming.is_peer_known net.now.files words.now said.now ≡ true }
    ensures value { IfOk result (λ question. question ≡ asking.question_of net.now.files form words.now said.now) }
    ensures known { IfOk result (λ question. IfSome question (λ q. known.IsKnown net.now.files q.kind)) }
{
    let Some(kind) = kind_said(net, form, words, said) else {
        return Ok(None);
    };
    Ok(Some(Question {
        name: list_of(alloc, word_said(Tag::Name, words, said))?,
        kind,
        packets: packets_said(said),
        failures: number_said(Tag::Failures, said, 0),
    }))
}

fn has_name(questions: &[Question], name: &[u8]) -> bool
    ensures { result ≡ asking.has_name questions.now name.now }
{
    questions
        .iter()
        .any(|q| same_bytes(q.name.as_slice(), name))
}

/// Why a question that reads well may not stand after these, but for an interface that is not there.
fn cause_against(
    alloc: Global,
    net: &Net,
    questions: &[Question],
    words: &[List<u8>],
    said: &[Said],
) -> Result<Option<Cause>, AllocError>
    ensures value { IfOk result (λ cause. cause ≡ asking.cause_against net.now.files questions.now words.now said.now) }
    ensures peer { IfOk result (λ cause. cause ≡ None → naming.is_peer_known net.now.files words.now said.now ≡ true) }
    ensures few { IfOk result (λ cause. cause ≡ None → length questions.now < MOST_QUESTIONS) }
{
    if has_name(questions, word_said(Tag::Name, words, said)) {
        return Ok(Some(Cause::Repeated));
    }
    if !are_routers_known(net, words, said) {
        return Ok(Some(Cause::UnknownRouter));
    }
    if !is_peer_known(alloc, net, words, said)? {
        return Ok(Some(Cause::UnknownPeer));
    }
    if questions.len() >= MOST_QUESTIONS {
        return Ok(Some(Cause::TooManyQuestions));
    }
    Ok(None)
}

#[tactic(auto, unfolding(crate::specs::Asking::asked))]
fn ask(
    alloc: Global,
    net: &Net,
    questions: &[Question],
    form: Form,
    words: &[List<u8>],
    said: &[Said],
) -> Result<Question, Cause>
    ensures ok { IfOk result (λ question. asking.asked net.now.files questions.now form words.now said.now ≡ Ok question) }
    ensures refused { IfErr result (λ cause. cause ≢ Cause.Memory → asking.asked net.now.files questions.now form words.now said.now ≡ Err cause) }
    ensures known { IfOk result (λ question. known.IsKnown net.now.files question.kind) }
    ensures few { IfOk result (λ _. length questions.now < MOST_QUESTIONS) }
{
    if let Some(cause) = cause_against(alloc, net, questions, words, said)? {
        return Err(cause);
    }
    match question_said(alloc, net, form, words, said)? {
        None => Err(Cause::Undefined),
        Some(question) => Ok(question),
    }
}

/// The question that a line of these words asks after the questions before.
#[tactic(auto, unfolding(crate::specs::Asking::question_in))]
pub fn read_question(
    alloc: Global,
    net: &Net,
    questions: &[Question],
    words: &[List<u8>],
) -> Result<Question, Cause>
    requires few { length words.now < 2 ^ 32 - 1 }
    ensures ok { IfOk result (λ question. asking.question_in net.now.files questions.now words.now ≡ Ok question) }
    ensures refused { IfErr result (λ cause. cause ≢ Cause.Memory → asking.question_in net.now.files questions.now words.now ≡ Err cause) }
    ensures known { IfOk result (λ question. known.IsKnown net.now.files question.kind) }
    ensures few { IfOk result (λ _. length questions.now < MOST_QUESTIONS) }
{
    let Some(form) = find_form(words) else {
        return Err(Cause::UnknownCommand);
    };
    let said = read_words(alloc, form, words)?;
    ask(alloc, net, questions, form, words, said.as_slice())
}
