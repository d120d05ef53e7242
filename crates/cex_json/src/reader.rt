//! A counterexample, as it is read.

ghost use Rattle.std.specs.Prelude.{◌≡◌, ◌≢◌, ◌<◌, ◌*◌, length, Some, None, Ok, Err, IfOk, IfErr, option_map, position, slice_get};
ghost use Rattle.std.specs.Option.{option_copied};
ghost use Rattle.mw_text.specs.Text.{same_text};
ghost use Rattle.net_parts.specs.World.{IsEnvironment, IsFailureSet};
ghost use Rattle.question_lang.specs.Packets.{IsInSet};
ghost use Rattle.serde_json.specs.View.{view};
ghost use Rattle.serde_json.specs.Read.{read};
ghost use Rattle.cex_json.specs.Fields.{Reads};
ghost use Rattle.cex_json.specs.Reading as reading;

use crate::counterexample::Counterexample;
use crate::fields::{number_in, place_of, required, text_in};
use crate::refused::CexRefused;
use crate::senders::{announcements_in, ids_in};
use crate::slots::slots_in;
use crate::standings::walk_in;
use crate::surroundings::{failures_in, packet_in};
use mw_text::{Addr, List, same_bytes};
use net_model::Net;
use question_lang::{PacketSet, Question, Walk};
use route_record::{Announcement, Environment, Failures, LENGTHS, Packet, Tables};
use serde_json::Value;
use std::alloc::Global;

fn position_of(questions: &[Question], name: &[u8]) -> Option<usize>
    ensures { result ≡ position (λ q. same_text q.name name.now) questions.now }
{
    questions
        .iter()
        .position(|q| same_bytes(q.name.as_slice(), name))
}

#[tactic(auto, unfolding(crate::specs::Reading::question_named, crate::specs::Fields::place_of))]
fn question_named(questions: &[Question], name: &[u8]) -> Option<u32>
    ensures { result ≡ reading.question_named questions.now name.now }
{
    match position_of(questions, name) {
        None => None,
        Some(at) => place_of(at),
    }
}

#[tactic(auto, unfolding(crate::specs::Reading::asked_place))]
fn asked_place(questions: &[Question], text: &Value) -> Option<u32>
    ensures { result ≡ reading.asked_place questions.now (view text.now) }
{
    match text_in(text, "question") {
        None => None,
        Some(name) => question_named(questions, name),
    }
}

// What a question limits: the number of failed links and the packets.
#[derive(Clone, Copy)]
struct Limits {
    failures: Option<u32>,
    packets: Option<PacketSet>,
}

fn limits_of(question: Option<&Question>) -> Limits
    ensures failures { result.failures ≡ option_map (λ q. q.failures) (option_copied question.entry) }
    ensures packets { result.packets ≡ option_map (λ q. q.packets) (option_copied question.entry) }
{
    match question {
        None => Limits {
            failures: None,
            packets: None,
        },
        Some(question) => Limits {
            failures: Some(question.failures),
            packets: Some(question.packets),
        },
    }
}

#[tactic(auto, unfolding(crate::specs::Reading::limits))]
fn limits_in(questions: &[Question], text: &Value) -> Limits
    ensures { result ≡ reading.limits questions.now (view text.now) }
{
    match asked_place(questions, text) {
        None => limits_of(None),
        Some(place) => limits_of(questions.get(place as usize)),
    }
}

fn format_in(text: &Value) -> Option<u32>
    ensures { result ≡ reading.format_in (view text.now) }
{
    match number_in(text, "format", 2) {
        None => None,
        Some(n) => { if n == 1 || n == 2 { Some(n) } else { None } }
    }
}

// What surrounds a routing.
#[derive(Drop)]
struct Surroundings {
    announced: List<Announcement>,
    links: List<u32>,
    packet: Packet,
    ids: List<Addr>,
}

#[tactic(auto, unfolding(crate::specs::Reading::surroundings_in))]
fn surroundings_in(
    alloc: Global,
    net: &Net,
    limits: &Limits,
    text: &Value,
) -> Result<Surroundings, CexRefused>
    ensures { Reads result (reading.surroundings_in net.now.files limits.now (view text.now)) }
{
    let announced = announcements_in(alloc, net, text)?;
    let links = failures_in(alloc, net, limits.failures, text)?;
    let format = required(alloc, "", "format", format_in(text))?;
    let packet = packet_in(alloc, &limits.packets, text)?;
    let ids = ids_in(alloc, net, format, text)?;
    Ok(Surroundings {
        announced,
        links,
        packet,
        ids,
    })
}

fn walk_for(
    alloc: Global,
    net: &Net,
    questions: &[Question],
    place: u32,
    text: &Value,
) -> Result<Option<Walk>, CexRefused>
    ensures { Reads result (reading.walk_for net.now.files (slice_get questions.now place) (view text.now)) }
{
    match questions.get(place as usize) {
        None => Ok(None),
        Some(question) => walk_in(alloc, net, &question.kind, text),
    }
}

#[tactic(auto, unfolding(crate::specs::Reading::cex_in))]
fn cex_in(
    alloc: Global,
    net: &Net,
    questions: &[Question],
    text: &Value,
) -> Result<Counterexample, CexRefused>
    ensures { Reads result (reading.cex_in net.now.files questions.now (view text.now)) }
{
    let limits = limits_in(questions, text);
    let around = surroundings_in(alloc, net, &limits, text)?;
    let question = required(alloc, "", "question", asked_place(questions, text))?;
    let slots = slots_in(alloc, net, text)?;
    let walk = walk_for(alloc, net, questions, question, text)?;
    Ok(Counterexample {
        question,
        packet: around.packet,
        failures: Failures {
            links: around.links,
        },
        env: Environment {
            ids: around.ids,
            announced: around.announced,
        },
        tables: Tables { slots },
        walk,
    })
}

#[tactic(auto, using(crate::proofs::Utf8::utf8_tests))]
fn utf8_of(bytes: &[u8]) -> Option<&str>
    ensures { option_map (λ s. s.now) result ≡ reading.utf8_of bytes.entry.now }
{
    match std::str::from_utf8(bytes) {
        Err(_) => None,
        Ok(text) => Some(text),
    }
}

fn parse(alloc: Global, text: &str) -> Result<Value, CexRefused>
    ensures ok { IfOk result (λ value. read text.now ≡ Some (view value)) }
    ensures not_json { IfErr result (λ why. why ≢ CexRefused.Memory → why ≡ CexRefused.NotJson) }
    ensures refused { IfErr result (λ why. why ≢ CexRefused.Memory → read text.now ≡ None) }
{
    match Value::from_str(alloc, text) {
        Ok(value) => Ok(value),
        Err(why) => {
            if why.is_memory() {
                Err(CexRefused::Memory)
            } else {
                Err(CexRefused::NotJson)
            }
        }
    }
}

fn value_of(alloc: Global, bytes: &[u8]) -> Result<Value, CexRefused>
    ensures ok { IfOk result (λ value. reading.value_of bytes.now ≡ Some (view value)) }
    ensures not_json { IfErr result (λ why. why ≢ CexRefused.Memory → why ≡ CexRefused.NotJson) }
    ensures refused { IfErr result (λ why. why ≢ CexRefused.Memory → reading.value_of bytes.now ≡ None) }
{
    match utf8_of(bytes) {
        None => Err(CexRefused::NotJson),
        Some(text) => parse(alloc, text),
    }
}

/// The counterexample that a text states, over a network and questions. Its fields are read in the order of their names.
///
/// # Errors
///
/// `NotJson` exactly where the text is no JSON (RFC 8259). `Field` at the first field that is missing, of a wrong type, out
/// of range, out of order, or names nothing of the network or the questions.
pub fn read_cex(
    alloc: Global,
    net: &Net,
    questions: &[Question],
    bytes: &[u8],
) -> Result<Counterexample, CexRefused>
    ensures ok { IfOk result (λ cex. reading.reading net.now.files questions.now bytes.now ≡ Ok cex) }
    ensures refused { IfErr result (λ refused. refused ≢ CexRefused.Memory →
        reading.reading net.now.files questions.now bytes.now ≡ Err refused) }

    // The question is one of the list, the packet is in its set, the failed links are at most its number and the external
    // peers send what they may; each router has a slot for each length.
    ensures question { IfOk result (λ cex. cex.question < length questions.now) }
    ensures packet { IfOk result (λ cex. (question : Question) → slice_get questions.now cex.question ≡ Some question →
        IsInSet question.packets cex.packet) }
    ensures failures { IfOk result (λ cex. (question : Question) → slice_get questions.now cex.question ≡ Some question →
        IsFailureSet net.now.files question.failures cex.failures) }
    ensures environment { IfOk result (λ cex. IsEnvironment net.now.files cex.env) }
    ensures slots { IfOk result (λ cex. length cex.tables.slots ≡ LENGTHS * length net.now.files) }
{
    let text = value_of(alloc, bytes)?;
    let cex = cex_in(alloc, net, questions, &text)?;
    Ok(cex)
}
