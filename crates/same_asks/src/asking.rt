//! What a line of an asks file asks.

ghost use Rattle.std.specs.Prelude.{◌≡◌, ◌≢◌, ◌<◌, ◌-◌, ◌^◌, IfOk, IfErr, IfSome, Ok, Err, None, length};
ghost use Rattle.same_asks.specs.Asking as asking;

use crate::reader::MOST_ASKS;
use crate::same::Same;
use crate::table::{is_ask, read_words};
use ios_policy_reader::said::number_said;
use ios_policy_reader::{Cause, Said, Tag};
use mw_text::{List, list_of, same_bytes};
use net_model::Net;
use question_lang::named::{are_routers_known, router_said, word_said};
use question_lang::packets::packets_said;
use std::alloc::{AllocError, Global};

fn ask_with(
    alloc: Global,
    words: &[List<u8>],
    said: &[Said],
    left: u32,
    right: u32,
) -> Result<Same, AllocError>
    ensures { IfOk result (λ ask. ask ≡ asking.ask_with words.now said.now left right) }
{
    Ok(Same {
        name: list_of(alloc, word_said(Tag::Name, words, said))?,
        left,
        right,
        packets: packets_said(said),
        failures: number_said(Tag::Failures, said, 0),
    })
}

fn ask_said(
    alloc: Global,
    left: &Net,
    right: &Net,
    words: &[List<u8>],
    said: &[Said],
) -> Result<Option<Same>, AllocError>
    ensures value { IfOk result (λ ask. ask ≡ asking.ask_of left.now.files right.now.files words.now said.now) }
    ensures known { IfOk result (λ ask. IfSome ask (asking.IsKnown left.now.files right.now.files)) }
{
    let Some(one) = router_said(Tag::Start, left, words, said) else {
        return Ok(None);
    };
    let Some(other) = router_said(Tag::Start, right, words, said) else {
        return Ok(None);
    };
    let ask = ask_with(alloc, words, said, one, other)?;
    Ok(Some(ask))
}

fn has_name(asks: &[Same], name: &[u8]) -> bool
    ensures { result ≡ asking.has_name asks.now name.now }
{
    asks.iter().any(|ask| same_bytes(ask.name.as_slice(), name))
}

/// Why an ask that reads well may not stand after these.
fn cause_against(
    left: &Net,
    right: &Net,
    asks: &[Same],
    words: &[List<u8>],
    said: &[Said],
) -> Option<Cause>
    ensures value { result ≡ asking.cause_against left.now.files right.now.files asks.now words.now said.now }
    ensures few { result ≡ None → length asks.now < MOST_ASKS }
{
    if has_name(asks, word_said(Tag::Name, words, said)) {
        return Some(Cause::Repeated);
    }
    if !are_routers_known(left, words, said) || !are_routers_known(right, words, said) {
        return Some(Cause::UnknownRouter);
    }
    if asks.len() >= MOST_ASKS {
        return Some(Cause::TooManyQuestions);
    }
    None
}

#[tactic(auto, unfolding(crate::specs::Asking::asked))]
fn make_ask(
    alloc: Global,
    left: &Net,
    right: &Net,
    asks: &[Same],
    words: &[List<u8>],
    said: &[Said],
) -> Result<Same, Cause>
    ensures ok { IfOk result (λ ask. asking.asked left.now.files right.now.files asks.now words.now said.now ≡ Ok ask) }
    ensures refused { IfErr result (λ cause. cause ≢ Cause.Memory →
        asking.asked left.now.files right.now.files asks.now words.now said.now ≡ Err cause) }
    ensures known { IfOk result (asking.IsKnown left.now.files right.now.files) }
    ensures few { IfOk result (λ _. length asks.now < MOST_ASKS) }
{
    if let Some(cause) = cause_against(left, right, asks, words, said) {
        return Err(cause);
    }
    match ask_said(alloc, left, right, words, said)? {
        None => Err(Cause::UnknownRouter),
        Some(ask) => Ok(ask),
    }
}

/// The ask that a line of these words makes after the asks before.
#[tactic(auto, unfolding(crate::specs::Asking::ask_in))]
pub fn read_ask(
    alloc: Global,
    left: &Net,
    right: &Net,
    asks: &[Same],
    words: &[List<u8>],
) -> Result<Same, Cause>
    requires few { length words.now < 2 ^ 32 - 1 }
    ensures ok { IfOk result (λ ask. asking.ask_in left.now.files right.now.files asks.now words.now ≡ Ok ask) }
    ensures refused { IfErr result (λ cause. cause ≢ Cause.Memory →
        asking.ask_in left.now.files right.now.files asks.now words.now ≡ Err cause) }
    ensures known { IfOk result (asking.IsKnown left.now.files right.now.files) }
    ensures few { IfOk result (λ _. length asks.now < MOST_ASKS) }
{
    if !is_ask(words) {
        return Err(Cause::UnknownCommand);
    }
    let said = read_words(alloc, words)?;
    make_ask(alloc, left, right, asks, words, said.as_slice())
}
