//! The packets that the words of a question speak of.

ghost use Rattle.std.specs.Prelude.{◌≡◌, ◌==◌};
ghost use Rattle.question_lang.specs.Naming as naming;

use crate::question::PacketSet;
use ios_policy_reader::said::is_under;
use ios_policy_reader::{Said, Tag, Value};
use mw_text::{Addr, Prefix};

fn last_value(one: Said, tag: Tag, otherwise: Value) -> Value
    ensures { result ≡ naming.value_more tag otherwise one }
{
    if is_under(tag, one) {
        one.value
    } else {
        otherwise
    }
}

/// What was said last under a tag.
pub fn value_said(tag: Tag, said: &[Said]) -> Value
    ensures { result ≡ naming.value_under tag said.now }
{
    let mut value = Value::Nothing;
    for one in said {
        value = last_value(*one, tag, value);
    }
    value
}

fn protocol_in(value: Value) -> Option<u8>
    ensures { result ≡ naming.protocol_in value }
{
    match value {
        Value::Number(number) => Some(number.min(255) as u8),
        _ => None,
    }
}

/// The addresses that a value is: a prefix, or all.
pub fn addresses_in(value: Value) -> Prefix
    ensures { result ≡ naming.addresses_in value }
{
    match value {
        Value::Prefix(prefix) => prefix,
        _ => Prefix {
            addr: Addr(0),
            len: 0,
        },
    }
}

fn ports_in(value: Value) -> (u16, u16)
    ensures { result ≡ naming.ports_in value }
{
    match value {
        Value::Ports(low, high) => (low, high),
        _ => (0, 65_535),
    }
}

/// The set of packets.
#[tactic(auto, unfolding(crate::specs::Naming::set_of))]
pub fn packets_said(said: &[Said]) -> PacketSet
    ensures { result ≡ naming.set_of said.now }
{
    PacketSet {
        proto: protocol_in(value_said(Tag::Protocol, said)),
        src: addresses_in(value_said(Tag::Source, said)),
        sport: ports_in(value_said(Tag::SourcePort, said)),
        dst: addresses_in(value_said(Tag::Target, said)),
        dport: ports_in(value_said(Tag::TargetPort, said)),
    }
}
