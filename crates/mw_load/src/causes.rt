//! The causes of refusals, by their numbers and their words.

ghost use Rattle.std.specs.Prelude.{◌≡◌, IfOk};
ghost use Rattle.mw_load.specs.Causes as causes;

use ios_policy_reader::Cause;
use mw_text::{List, list_of};
use net_model::NetCause;
use std::alloc::{AllocError, Global};

/// The number of a cause.
pub fn cause_number(cause: Cause) -> u32
    ensures { result ≡ causes.cause_number cause }
{
    match cause {
        Cause::UnknownCommand => 1,
        Cause::BadWord { .. } => 2,
        Cause::Repeated => 4,
        Cause::OutOfPlace => 5,
        Cause::Limit => 6,
        Cause::Undefined => 7,
        Cause::UnknownRouter => 15,
        Cause::UnknownPeer => 16,
        Cause::TooManyQuestions => 17,
        Cause::NoHostname => 24,
        Cause::Memory => 0,
    }
}

fn bad_word(alloc: Global, word: u32) -> Result<List<u8>, AllocError>
    ensures { IfOk result (λ text. text ≡ causes.cause_words (Cause.BadWord word)) }
{
    let number = word.to_string(alloc)?;
    let mut text = list_of(alloc, b"BadWord ")?;
    text.items.extend_from_slice(number.as_bytes())?;
    Ok(text)
}

/// The words of a cause, which stand behind its number.
pub fn cause_words(alloc: Global, cause: Cause) -> Result<List<u8>, AllocError>
    ensures { IfOk result (λ text. text ≡ causes.cause_words cause) }
{
    match cause {
        Cause::UnknownCommand => list_of(alloc, b"UnknownCommand"),
        Cause::BadWord { word } => bad_word(alloc, word),
        Cause::Repeated => list_of(alloc, b"Repeated"),
        Cause::OutOfPlace => list_of(alloc, b"OutOfPlace"),
        Cause::Limit => list_of(alloc, b"Limit"),
        Cause::Undefined => list_of(alloc, b"Undefined"),
        Cause::UnknownRouter => list_of(alloc, b"UnknownRouter"),
        Cause::UnknownPeer => list_of(alloc, b"UnknownPeer"),
        Cause::TooManyQuestions => list_of(alloc, b"TooManyQuestions"),
        Cause::NoHostname => list_of(alloc, b"NoHostname"),
        Cause::Memory => Ok(List::new(alloc)),
    }
}

/// The number of a rule of networks.
pub fn net_cause_number(cause: NetCause) -> u32
    ensures { result ≡ causes.net_cause_number cause }
{
    match cause {
        NetCause::Undefined => 7,
        NetCause::SameName => 8,
        NetCause::SameAddress => 9,
        NetCause::SubnetClash => 10,
        NetCause::NextHopNotConnected => 11,
        NetCause::ExternalInternalPeer => 12,
        NetCause::SecondArea => 13,
        NetCause::NetLimit => 14,
        NetCause::Memory => 0,
    }
}

/// The words of a rule of networks.
pub fn net_cause_words(cause: NetCause) -> &'static [u8]
    ensures { result.now ≡ causes.net_cause_words cause }
{
    match cause {
        NetCause::Undefined => b"Undefined",
        NetCause::SameName => b"SameName",
        NetCause::SameAddress => b"SameAddress",
        NetCause::SubnetClash => b"SubnetClash",
        NetCause::NextHopNotConnected => b"NextHopNotConnected",
        NetCause::ExternalInternalPeer => b"ExternalInternalPeer",
        NetCause::SecondArea => b"SecondArea",
        NetCause::NetLimit => b"NetLimit",
        NetCause::Memory => b"",
    }
}
