//! The grammar of a line as edges between states: what a word leads to.

ghost use Rattle.std.specs.Prelude.{◌≡◌, ◌==◌, ℕ, ◌<◌, ◌^◌, ◌&&◌, length, Option, Some, None, if◌then◌else◌, option_and_then, option_map};
ghost use Rattle.std.specs.List.{list_any};
ghost use Rattle.ios_policy_reader.specs.Edges.{said_by, said_back, prefix_by, nothing_where, word_where, address_where, is_end, ends_in, leaves, way_of, may_end};
ghost use Rattle.ios_policy_reader.specs.Said.{address_said, is_classful};
ghost use Rattle.ios_policy_reader.specs.declared.said.Value.TheVariants.{Ports};

use crate::masks::{prefix_of_address, read_mask};
use crate::names::{is_any_name, is_interface_name, is_name_of_list, is_router_name};
use crate::patterns::read_pattern;
use crate::said::{
    Said, Tag, Value, has_class, is_said, last_address, least_length_said, number_said, ports_said,
};
use crate::words::{
    is_table_word, read_community, read_port, read_port_from, read_ports, read_range,
};
use ios_ast::Pattern;
use mw_text::{Addr, Prefix, read_addr, read_prefix};

/// What a word has to be. Keywords stand in lower case and are filled up with blanks.
#[derive(Clone, Copy)]
pub enum Takes {
    /// No word: the line may end.
    End,
    /// This word, in any case.
    Key([u8; 22]),
    /// This word, in any case, which stands for a number.
    Named([u8; 22], u32),
    Any,
    /// A number, from the first to the second.
    Range(u32, u32),
    /// 1 to 64 printable bytes.
    AnyName,
    /// A name that is not all digits.
    ListName,
    /// 1 to 64 letters, digits, `-`, `_` and `.`.
    RouterName,
    Interface,
    AnyAddress,
    /// An address of class A, B or C.
    ClassAddress,
    /// A mask of at least this length.
    Mask(u8),
    /// A mask that the address said last lies under: no bits of it stand past the mask's.
    MaskOver,
    /// An address, a slash and a length.
    AnyPrefix,
    AnyCommunity,
    AnyPattern,
    /// This word, where nothing was said under the tag.
    Once([u8; 22], Tag),
    /// A port by its number or its name.
    AnyPort,
    /// `any`, a port, or two with `-` between them.
    AnyPorts,
    /// This word, which stands for a number, where the protocol that was said has ports.
    PortKey([u8; 22], u32),
    /// A port that is not below the one that was said under the tag.
    PortFrom(Tag),
    /// A length that is not below the lengths that were said.
    LengthFrom,
}

/// From the first state a word of this kind leads to the last state. What the word says stands under the tag.
#[derive(Clone, Copy)]
pub struct Edge(pub u8, pub Takes, pub Tag, pub u8);

/// Where a word leads, and what it said.
#[derive(Clone, Copy)]
pub struct Way {
    pub said: Said,
    pub to: u8,
}

fn nothing_if(taken: bool) -> Option<Value>
    ensures { result ≡ nothing_where taken }
{
    if taken { Some(Value::Nothing) } else { None }
}

fn word_if(taken: bool, at: u32) -> Option<Value>
    ensures { result ≡ word_where at taken }
{
    if taken { Some(Value::Word(at)) } else { None }
}

fn ports_if(ports: Option<(u16, u16)>) -> Option<Value>
    ensures { result ≡ option_map (λ p. Ports p.0 p.1) ports }
{
    let (low, high) = ports?;
    Some(Value::Ports(low, high))
}

fn number_if(number: Option<u32>) -> Option<Value>
    ensures { result ≡ option_map (λ n. Value.Number n) number }
{
    Some(Value::Number(number?))
}

fn port_if(port: Option<u16>) -> Option<Value>
    ensures { result ≡ option_map (λ n. Value.Number n) port }
{
    Some(Value::Number(u32::from(port?)))
}

fn length_if(len: Option<u8>) -> Option<Value>
    ensures { result ≡ option_map (λ n. Value.Length n) len }
{
    Some(Value::Length(len?))
}

fn address_if(address: Option<Addr>) -> Option<Value>
    ensures { result ≡ option_map (λ a. Value.Address a) address }
{
    Some(Value::Address(address?))
}

fn prefix_if(prefix: Option<Prefix>) -> Option<Value>
    ensures { result ≡ option_map (λ p. Value.Prefix p) prefix }
{
    Some(Value::Prefix(prefix?))
}

fn pattern_if(pattern: Option<Pattern>) -> Option<Value>
    ensures { result ≡ option_map (λ p. Value.Pattern p) pattern }
{
    Some(Value::Pattern(pattern?))
}

fn address_if_class(address: Option<Addr>) -> Option<Value>
    ensures { result ≡ option_and_then (λ a. address_where (is_classful a) a) address }
{
    let address = address?;
    if has_class(address) {
        Some(Value::Address(address))
    } else {
        None
    }
}

/// What a mask says of the address said last.
fn say_prefix(said: &[Said], word: &[u8]) -> Option<Value>
    ensures { result ≡ prefix_by (address_said said.now) word.now }
{
    let len = read_mask(word, 0)?;
    let prefix = prefix_of_address(last_address(said), len)?;
    Some(Value::Prefix(prefix))
}

/// What a word says that looks back at what was said.
#[tactic(auto, unfolding(crate::specs::Edges::said_back))]
fn say_back(takes: Takes, said: &[Said], word: &[u8]) -> Option<Value>
    ensures { result ≡ said_back takes said.now word.now }
{
    match takes {
        Takes::MaskOver => say_prefix(said, word),
        Takes::Once(key, tag) => nothing_if(is_table_word(word, &key) && !is_said(tag, said)),
        Takes::PortKey(key, number) => {
            if is_table_word(word, &key) && ports_said(said) {
                Some(Value::Number(number))
            } else {
                None
            }
        }
        Takes::PortFrom(tag) => {
            let low = number_said(tag, said, 0).min(65_535);
            number_if(read_port_from(word, low))
        }
        Takes::LengthFrom => {
            let low = least_length_said(said);
            number_if(read_range(word, low, 32))
        }
        _ => None,
    }
}

/// What a word says where a word of this kind is to stand, after what was said. None where it is of another kind.
#[tactic(auto, unfolding(crate::specs::Edges::said_by))]
fn say(takes: Takes, said: &[Said], at: u32, word: &[u8]) -> Option<Value>
    ensures { result ≡ said_by takes said.now at word.now }
{
    match takes {
        Takes::End => None,
        Takes::Key(key) => nothing_if(is_table_word(word, &key)),
        Takes::Named(key, number) => {
            if is_table_word(word, &key) {
                Some(Value::Number(number))
            } else {
                None
            }
        }
        Takes::Any => Some(Value::Word(at)),
        Takes::Range(low, high) => number_if(read_range(word, low, high)),
        Takes::AnyName => word_if(is_any_name(word), at),
        Takes::ListName => word_if(is_name_of_list(word), at),
        Takes::RouterName => word_if(is_router_name(word), at),
        Takes::Interface => word_if(is_interface_name(word), at),
        Takes::AnyAddress => address_if(read_addr(word)),
        Takes::ClassAddress => address_if_class(read_addr(word)),
        Takes::AnyPrefix => prefix_if(read_prefix(word)),
        Takes::AnyCommunity => number_if(read_community(word)),
        Takes::Mask(least) => length_if(read_mask(word, least)),
        Takes::AnyPort => port_if(read_port(word)),
        Takes::AnyPorts => ports_if(read_ports(word)),
        Takes::AnyPattern => pattern_if(read_pattern(word)),
        Takes::MaskOver
        | Takes::Once(_, _)
        | Takes::PortKey(_, _)
        | Takes::PortFrom(_)
        | Takes::LengthFrom => say_back(takes, said, word),
    }
}

/// Whether an edge of this kind lets the line end.
fn is_end_kind(takes: Takes) -> bool
    ensures { result ≡ is_end takes }
{
    matches!(takes, Takes::End)
}

/// The way along an edge, where it leaves the state and takes the word.
fn way_along(edge: Edge, from: u8, said: &[Said], at: u32, word: &[u8]) -> Option<Way>
    ensures { result ≡ leaves from said.now at word.now edge }
{
    if edge.0 != from {
        return None;
    }
    let value = say(edge.1, said, at, word)?;
    Some(Way {
        said: Said { tag: edge.2, value },
        to: edge.3,
    })
}

/// The way along the first edge that leaves the state and takes the word.
pub fn find_way(edges: &[Edge], from: u8, said: &[Said], at: u32, word: &[u8]) -> Option<Way>
    ensures { result ≡ way_of from said.now at word.now edges.now }
{
    for edge in edges {
        if let Some(way) = way_along(*edge, from, said, at, word) {
            return Some(way);
        }
    }
    None
}

/// Whether the line may end in the state along the edge.
fn ends_along(edge: Edge, from: u8) -> bool
    ensures { result ≡ ends_in from edge }
{
    edge.0 == from && is_end_kind(edge.1)
}

/// Whether the line may end in the state.
pub fn can_end(edges: &[Edge], from: u8) -> bool
    ensures { result ≡ may_end edges.now from }
{
    edges.iter().any(|edge| ends_along(*edge, from))
}
