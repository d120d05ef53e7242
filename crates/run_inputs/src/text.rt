//! The text of a file, and the lines of refusals.

ghost use Rattle.std.specs.Prelude.{◌≡◌, IfOk};
ghost use Rattle.std.specs.List.{flat_map};
ghost use Rattle.run_inputs.specs.Texts as texts;

use cex_json::CexRefused;
use ios_policy_reader::{Cause, Refused};
use machine_laws::EventRefused;
use mw_text::{List, list_of};
use net_model::{NetCause, NetRefused};
use simulation::{SimulationCause, SimulationRefused};
use std::alloc::{AllocError, Global};

/// The bytes of a file with its name.
#[derive(Drop)]
pub struct Text {
    pub name: List<u8>,
    pub bytes: List<u8>,
}

/// Pieces joined in their order.
pub fn joined(alloc: Global, pieces: &[&[u8]]) -> Result<List<u8>, AllocError>
    ensures { IfOk result (λ text. text ≡ flat_map (λ piece. piece.now) pieces.now) }
{
    let mut text = List::new(alloc);
    for piece in pieces {
        text.items.extend_from_slice(piece)?;
    }
    Ok(text)
}

fn bad_word_text(alloc: Global, word: u32) -> Result<List<u8>, AllocError>
    ensures { IfOk result (λ text. text ≡ texts.cause_text (Cause.BadWord word)) }
{
    let number = word.to_string(alloc)?;
    joined(alloc, &[b"2 BadWord ", number.as_bytes()])
}

fn cause_text(alloc: Global, cause: Cause) -> Result<List<u8>, AllocError>
    ensures { IfOk result (λ text. text ≡ texts.cause_text cause) }
{
    match cause {
        Cause::UnknownCommand => list_of(alloc, b"1 UnknownCommand"),
        Cause::BadWord { word } => bad_word_text(alloc, word),
        Cause::Repeated => list_of(alloc, b"4 Repeated"),
        Cause::OutOfPlace => list_of(alloc, b"5 OutOfPlace"),
        Cause::Limit => list_of(alloc, b"6 Limit"),
        Cause::Undefined => list_of(alloc, b"7 Undefined"),
        Cause::UnknownRouter => list_of(alloc, b"15 UnknownRouter"),
        Cause::UnknownPeer => list_of(alloc, b"16 UnknownPeer"),
        Cause::TooManyQuestions => list_of(alloc, b"17 TooManyQuestions"),
        Cause::NoHostname => list_of(alloc, b"24 NoHostname"),
        Cause::Memory => Ok(List::new(alloc)),
    }
}

fn refused_text(alloc: Global, name: &[u8], line: u32, cause: &[u8]) -> Result<List<u8>, AllocError>
    ensures { IfOk result (λ text. text ≡ texts.refused_text name.now line cause.now) }
{
    let number = line.to_string(alloc)?;
    let pieces: [&[u8]; 7] = [
        b"refused ",
        name,
        b":",
        number.as_bytes(),
        b" ",
        cause,
        b"\n",
    ];
    joined(alloc, &pieces)
}

/// The line of a file that is refused.
pub fn refusal(alloc: Global, name: &[u8], refused: &Refused) -> Result<List<u8>, AllocError>
    ensures { IfOk result (λ text. text ≡ texts.refusal name.now refused.now) }
{
    let cause = cause_text(alloc, refused.cause)?;
    refused_text(alloc, name, refused.line, cause.as_slice())
}

fn net_cause_text(cause: NetCause) -> &'static [u8]
    ensures { result.now ≡ texts.net_cause_text cause }
{
    match cause {
        NetCause::Undefined => b"7 Undefined",
        NetCause::SameName => b"8 SameName",
        NetCause::SameAddress => b"9 SameAddress",
        NetCause::SubnetClash => b"10 SubnetClash",
        NetCause::NextHopNotConnected => b"11 NextHopNotConnected",
        NetCause::ExternalInternalPeer => b"12 ExternalInternalPeer",
        NetCause::SecondArea => b"13 SecondArea",
        NetCause::NetLimit => b"14 NetLimit",
        NetCause::Memory => b"",
    }
}

/// The line of files that form no network, by the name of the file that breaks a rule.
pub fn net_refused(alloc: Global, name: &[u8], why: &NetRefused) -> Result<List<u8>, AllocError>
    ensures { IfOk result (λ text. text ≡ texts.refused_text name.now why.now.line (texts.net_cause_text why.now.cause)) }
{
    refused_text(alloc, name, why.line, net_cause_text(why.cause))
}

fn cex_cause(alloc: Global, why: &CexRefused) -> Result<List<u8>, AllocError>
    ensures { IfOk result (λ text. text ≡ texts.cex_cause_text why.now) }
{
    match why {
        CexRefused::NotJson => list_of(alloc, b"18 NotJson"),
        CexRefused::Field { path } => joined(alloc, &[b"19 Field ", path.as_slice()]),
        CexRefused::Memory => Ok(List::new(alloc)),
    }
}

/// The line of a counterexample that is refused.
pub fn cex_refusal(alloc: Global, name: &[u8], why: &CexRefused) -> Result<List<u8>, AllocError>
    ensures { IfOk result (λ text. text ≡ texts.cex_refusal name.now why.now) }
{
    let cause = cex_cause(alloc, why)?;
    refused_text(alloc, name, 1, cause.as_slice())
}

fn event_cause_text(why: EventRefused) -> &'static [u8]
    ensures { result.now ≡ texts.event_cause_text why }
{
    match why {
        EventRefused::NothingToDeliver => b"21 NothingToDeliver",
        EventRefused::UnknownName => b"22 UnknownName",
        EventRefused::AlreadySo => b"23 AlreadySo",
        EventRefused::Memory => b"",
    }
}

fn simulation_cause(alloc: Global, why: SimulationCause) -> Result<List<u8>, AllocError>
    ensures { IfOk result (λ text. text ≡ texts.simulation_cause_text why) }
{
    match why {
        SimulationCause::Line(cause) => cause_text(alloc, cause),
        SimulationCause::Event(why) => list_of(alloc, event_cause_text(why)),
        SimulationCause::Memory => Ok(List::new(alloc)),
    }
}

/// The line of an events file that is refused.
pub fn simulation_refusal(
    alloc: Global,
    name: &[u8],
    refused: SimulationRefused,
) -> Result<List<u8>, AllocError>
    ensures { IfOk result (λ text. text ≡ texts.simulation_refusal name.now refused) }
{
    let cause = simulation_cause(alloc, refused.cause)?;
    refused_text(alloc, name, refused.line, cause.as_slice())
}

/// The line of a file with more bytes than its limit.
pub fn too_long(alloc: Global, name: &[u8]) -> Result<List<u8>, AllocError>
    ensures { IfOk result (λ text. text ≡ texts.too_long name.now) }
{
    refused_text(alloc, name, 0, b"25 TooLong")
}
