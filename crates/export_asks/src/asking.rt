//! What a line of an asks file asks.

ghost use Rattle.std.specs.Prelude.{◌≡◌, ◌≢◌, ◌<◌, ◌-◌, ◌^◌, IfOk, IfErr, Ok, Err, None, length};
ghost use Rattle.export_asks.specs.Asking as asking;

use crate::ask::{Ask, AskPeer};
use crate::forms::{Form, find_form, read_words};
use crate::peers::{are_peers_known, learnt_said, to_said};
use crate::reader::MOST_ASKS;
use ios_policy_reader::entries::prefix_list_entry;
use ios_policy_reader::said::number_said;
use ios_policy_reader::{Cause, Said, Tag};
use mw_text::{List, list_of, same_bytes};
use net_model::Net;
use question_lang::named::{are_routers_known, word_said};
use std::alloc::{AllocError, Global};

fn ask_with(
    alloc: Global,
    words: &[List<u8>],
    said: &[Said],
    to: AskPeer,
    learnt: Option<AskPeer>,
) -> Result<Ask, AllocError>
    ensures { IfOk result (λ ask. ask ≡ asking.ask_with words.now said.now to learnt) }
{
    let entry = prefix_list_entry(0, 0, said);
    Ok(Ask {
        name: list_of(alloc, word_said(Tag::Name, words, said))?,
        to,
        learnt,
        prefix: entry.prefix,
        low: entry.low,
        high: entry.high,
        failures: number_said(Tag::Failures, said, 0),
    })
}

fn ask_said(
    alloc: Global,
    net: &Net,
    form: Form,
    words: &[List<u8>],
    said: &[Said],
) -> Result<Option<Ask>, AllocError>
    ensures { IfOk result (λ ask. ask ≡ asking.ask_of net.now.files form words.now said.now) }
{
    let Some(to) = to_said(net, words, said) else {
        return Ok(None);
    };
    let Some(learnt) = learnt_said(net, form, words, said) else {
        return Ok(None);
    };
    let ask = ask_with(alloc, words, said, to, learnt)?;
    Ok(Some(ask))
}

fn has_name(asks: &[Ask], name: &[u8]) -> bool
    ensures { result ≡ asking.has_name asks.now name.now }
{
    asks.iter().any(|ask| same_bytes(ask.name.as_slice(), name))
}

/// Why an ask that reads well may not stand after these.
fn cause_against(
    alloc: Global,
    net: &Net,
    asks: &[Ask],
    form: Form,
    words: &[List<u8>],
    said: &[Said],
) -> Result<Option<Cause>, AllocError>
    ensures value { IfOk result (λ cause. cause ≡ asking.cause_against net.now.files asks.now form words.now said.now) }
    ensures few { IfOk result (λ cause. cause ≡ None → length asks.now < MOST_ASKS) }
{
    if has_name(asks, word_said(Tag::Name, words, said)) {
        return Ok(Some(Cause::Repeated));
    }
    if !are_routers_known(net, words, said) {
        return Ok(Some(Cause::UnknownRouter));
    }
    if !are_peers_known(alloc, net, form, words, said)? {
        return Ok(Some(Cause::UnknownPeer));
    }
    if asks.len() >= MOST_ASKS {
        return Ok(Some(Cause::TooManyQuestions));
    }
    Ok(None)
}

#[tactic(auto, unfolding(crate::specs::Asking::asked))]
fn make_ask(
    alloc: Global,
    net: &Net,
    asks: &[Ask],
    form: Form,
    words: &[List<u8>],
    said: &[Said],
) -> Result<Ask, Cause>
    ensures ok { IfOk result (λ ask. asking.asked net.now.files asks.now form words.now said.now ≡ Ok ask) }
    ensures refused { IfErr result (λ cause. cause ≢ Cause.Memory → asking.asked net.now.files asks.now form words.now said.now ≡ Err cause) }
    ensures few { IfOk result (λ _. length asks.now < MOST_ASKS) }
{
    if let Some(cause) = cause_against(alloc, net, asks, form, words, said)? {
        return Err(cause);
    }
    match ask_said(alloc, net, form, words, said)? {
        None => Err(Cause::UnknownRouter),
        Some(ask) => Ok(ask),
    }
}

/// The ask that a line of these words makes after the asks before.
#[tactic(auto, unfolding(crate::specs::Asking::ask_in))]
pub fn read_ask(alloc: Global, net: &Net, asks: &[Ask], words: &[List<u8>]) -> Result<Ask, Cause>
    requires few { length words.now < 2 ^ 32 - 1 }
    ensures ok { IfOk result (λ ask. asking.ask_in net.now.files asks.now words.now ≡ Ok ask) }
    ensures refused { IfErr result (λ cause. cause ≢ Cause.Memory → asking.ask_in net.now.files asks.now words.now ≡ Err cause) }
    ensures few { IfOk result (λ _. length asks.now < MOST_ASKS) }
{
    let Some(form) = find_form(words) else {
        return Err(Cause::UnknownCommand);
    };
    let said = read_words(alloc, form, words)?;
    make_ask(alloc, net, asks, form, words, said.as_slice())
}
