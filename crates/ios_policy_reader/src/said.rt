//! What the words of a line said.

ghost use Rattle.std.specs.Prelude.{◌≡◌, ◌==◌};
ghost use Rattle.ios_policy_reader.specs.Said.{tag_number, number_in, number_more, number_under, length_in, length_more, length_said, least_length, has_ports, address_in, address_more, address_said, address_more_under, address_under, prefix_in, prefix_more, prefix_said, pattern_in, pattern_more, pattern_said, is_classful, has_said};

use ios_ast::Pattern;
use mw_text::{Addr, Prefix};

/// As what a word of a line said something.
#[derive(Clone, Copy)]
pub enum Tag {
    /// Nothing that is looked up.
    Plain,
    Action,
    Name,
    Number,
    Sequence,
    Prefix,
    /// The least and the greatest length of a prefix-list entry.
    Low,
    High,
    Protocol,
    /// An end of packets: its address, its wildcard, and the test of its port with one or two ports.
    Source,
    SourceWild,
    SourceTest,
    SourcePort,
    SourceTop,
    Target,
    TargetWild,
    TargetTest,
    TargetPort,
    TargetTop,
    Community,
    Address,
    /// The length of a mask.
    Length,
    Wildcard,
    NextHop,
    /// `Null0`.
    Discard,
    /// The interface by which packets leave.
    Leaving,
    Distance,
    Direction,
    Area,
    /// `default`, for every interface.
    Every,
    /// Whence routes are redistributed: 0 connected, 1 static, 2 OSPF, 3 BGP.
    Origin,
    Metric,
    MetricType,
    Subnets,
    Map,
    Always,
    /// Which OSPF routes are redistributed: 0 internal, 1 and 2 external of that type, 3 external.
    Match,
    /// What a line on a neighbour is about.
    Remote,
    UpdateSource,
    NextHopSelf,
    Client,
    SendCommunity,
    Weight,
    Shutdown,
    PrefixList,
    FilterList,
    /// The router at which the packets of a question start, and the interface at which they come in there.
    Start,
    Entering,
    /// Where they should, or should not, end: a router, a subnet, or an external peer of the router.
    Router,
    Subnet,
    Peer,
    /// The router between.
    Waypoint,
    /// The second of two routers that are compared.
    OtherStart,
    /// The greatest number of hops, and of links that may fail.
    Hops,
    Failures,
}

/// What a word says.
#[derive(Clone, Copy)]
pub enum Value {
    Nothing,
    Number(u32),
    Address(Addr),
    Length(u8),
    Prefix(Prefix),
    Pattern(Pattern),
    /// Ports, from the first to the second.
    Ports(u16, u16),
    /// The word itself, by its place in the line, counted from 0.
    Word(u32),
}

/// What a word of a line said, and as what.
#[derive(Clone, Copy)]
pub struct Said {
    pub tag: Tag,
    pub value: Value,
}

/// The place of a tag among the tags.
fn number_of_tag(tag: Tag) -> u8
    ensures { result ≡ tag_number tag }
{
    tag as u8
}

/// Whether it was said under the tag.
pub fn is_under(tag: Tag, said: Said) -> bool
    ensures { result ≡ (tag_number said.tag == tag_number tag) }
{
    number_of_tag(said.tag) == number_of_tag(tag)
}

/// The number that this is, if it is one.
pub fn number_of_value(value: Value, otherwise: u32) -> u32
    ensures { result ≡ number_in otherwise value }
{
    match value {
        Value::Number(number) => number,
        _ => otherwise,
    }
}

/// The number that was said last under a tag.
pub fn number_said(tag: Tag, said: &[Said], otherwise: u32) -> u32
    ensures { result ≡ number_under tag said.now otherwise }
{
    let mut number = otherwise;
    for one in said {
        if is_under(tag, *one) {
            number = number_of_value(one.value, number);
        }
    }
    number
}

/// The length of the prefix that this is, if it is one.
fn length_of_value(value: Value, otherwise: u8) -> u8
    ensures { result ≡ length_in otherwise value }
{
    match value {
        Value::Prefix(prefix) => prefix.len,
        _ => otherwise,
    }
}

/// The length of the prefix that was said last.
fn prefix_length(said: &[Said]) -> u8
    ensures { result ≡ length_said said.now }
{
    let mut length = 0;
    for one in said {
        length = length_of_value(one.value, length);
    }
    length
}

/// The least length that may be said next in a prefix-list entry: that of the prefix, or the least one said.
pub fn least_length_said(said: &[Said]) -> u32
    ensures { result ≡ least_length said.now }
{
    let low = number_said(Tag::Low, said, 0);
    u32::from(prefix_length(said)).max(low).min(32)
}

/// Whether the protocol that was said has ports: TCP or UDP.
pub fn ports_said(said: &[Said]) -> bool
    ensures { result ≡ has_ports said.now }
{
    let protocol = number_said(Tag::Protocol, said, 0);
    protocol == 6 || protocol == 17
}

/// The address that this is, if it is one.
fn address_of_value(value: Value, otherwise: Addr) -> Addr
    ensures { result ≡ address_in otherwise value }
{
    match value {
        Value::Address(address) => address,
        _ => otherwise,
    }
}

/// The address that was said last, or 0.0.0.0.
pub fn last_address(said: &[Said]) -> Addr
    ensures { result ≡ address_said said.now }
{
    let mut address = Addr(0);
    for one in said {
        address = address_of_value(one.value, address);
    }
    address
}

/// The address that was said last under a tag.
pub fn address_said_under(tag: Tag, said: &[Said], otherwise: Addr) -> Addr
    ensures { result ≡ address_under tag said.now otherwise }
{
    let mut address = otherwise;
    for one in said {
        if is_under(tag, *one) {
            address = address_of_value(one.value, address);
        }
    }
    address
}

/// The prefix that this is, if it is one.
fn prefix_of_value(value: Value, otherwise: Prefix) -> Prefix
    ensures { result ≡ prefix_in otherwise value }
{
    match value {
        Value::Prefix(prefix) => prefix,
        _ => otherwise,
    }
}

/// The prefix that was said last, or 0.0.0.0/0.
pub fn last_prefix(said: &[Said]) -> Prefix
    ensures { result ≡ prefix_said said.now }
{
    let mut prefix = Prefix {
        addr: Addr(0),
        len: 0,
    };
    for one in said {
        prefix = prefix_of_value(one.value, prefix);
    }
    prefix
}

/// The pattern that this is, if it is one.
fn pattern_of_value(value: Value, otherwise: Pattern) -> Pattern
    ensures { result ≡ pattern_in otherwise value }
{
    match value {
        Value::Pattern(pattern) => pattern,
        _ => otherwise,
    }
}

/// The pattern that was said last, or that of any path.
pub fn last_pattern(said: &[Said]) -> Pattern
    ensures { result ≡ pattern_said said.now }
{
    let mut pattern = Pattern::Any;
    for one in said {
        pattern = pattern_of_value(one.value, pattern);
    }
    pattern
}

/// Whether the address is of class A, B or C.
pub fn has_class(address: Addr) -> bool
    ensures { result ≡ is_classful address }
{
    address.0 < 0xe000_0000
}

/// Whether something was said under the tag.
pub fn is_said(tag: Tag, said: &[Said]) -> bool
    ensures { result ≡ has_said tag said.now }
{
    said.iter().any(|one| is_under(tag, *one))
}
