//! What lines say of interfaces and static routes.

ghost use Rattle.std.specs.Prelude.{◌≡◌, IfOk};
ghost use Rattle.std.specs.Option.{option_map_or};
ghost use Rattle.ios_policy_reader.specs.Names.{is_of_kind};
ghost use Rattle.ios_reader.specs.Interfaces.{default_bandwidth, new_interface, address_of, via_of, route_of};

use crate::names::{mask_length_said, use_said};
use ios_ast::{IfAddr, Iface, StaticRoute, Via};
use ios_policy_reader::names::has_kind;
use ios_policy_reader::said::{address_said_under, is_said, last_prefix, number_said};
use ios_policy_reader::{Said, Tag};
use mw_text::{Addr, Line, List};
use std::alloc::{AllocError, Global};

/// The bandwidth of an interface of this name where none is written, in kb/s.
fn bandwidth_of_kind(name: &[u8]) -> u32
    ensures { result ≡ default_bandwidth name.now }
{
    if has_kind(name, b"ethernet") {
        10_000
    } else if has_kind(name, b"fastethernet") {
        100_000
    } else if has_kind(name, b"tengigabitethernet") {
        10_000_000
    } else if has_kind(name, b"serial") {
        1_544
    } else if has_kind(name, b"loopback") {
        8_000_000
    } else {
        1_000_000
    }
}

/// An interface of which only the name is read.
pub fn interface_named(line: u32, name: List<u8>) -> Iface
    ensures { result ≡ new_interface line name }
{
    let bandwidth = bandwidth_of_kind(name.as_slice());
    Iface {
        line,
        name,
        address: None,
        shutdown: false,
        bandwidth,
        cost: None,
        list_in: None,
        list_out: None,
    }
}

/// The address of an interface, at its line.
pub fn interface_address(line: u32, said: &[Said]) -> IfAddr
    ensures { result ≡ address_of line said.now }
{
    IfAddr {
        line,
        addr: address_said_under(Tag::Address, said, Addr(0)),
        len: mask_length_said(Tag::Length, said, 0),
    }
}

/// Where a static route leads.
fn route_via(alloc: Global, line: &Line, said: &[Said]) -> Result<Via, AllocError>
    ensures { IfOk result (λ via. via ≡ via_of line.now said.now) }
{
    let next = address_said_under(Tag::NextHop, said, Addr(0));
    if is_said(Tag::Discard, said) {
        Ok(Via::Null0)
    } else if is_said(Tag::Leaving, said) {
        Ok(Via::Out(use_said(alloc, Tag::Leaving, said, line)?, next))
    } else {
        Ok(Via::Next(next))
    }
}

/// A static route, whose administrative distance is 1 where none is written.
pub fn static_route(alloc: Global, line: &Line, said: &[Said]) -> Result<StaticRoute, AllocError>
    ensures { IfOk result (λ route. route ≡ route_of line.now said.now) }
{
    let via = route_via(alloc, line, said)?;
    Ok(StaticRoute {
        line: line.number,
        prefix: last_prefix(said),
        via,
        distance: number_said(Tag::Distance, said, 1).min(255) as u8,
    })
}
