//! What lines say of an OSPF process.

ghost use Rattle.std.specs.Prelude.{◌≡◌, ◌==◌, IfOk};
ghost use Rattle.ios_policy_reader.specs.Said.{number_under};
ghost use Rattle.ios_policy_reader.specs.declared.said.Tag.TheVariants.{MetricType};
ghost use Rattle.ios_reader.specs.Ospf.{new_ospf, network_of, source_by, source_of, metric_of, is_type1, into_ospf, default_of};

use crate::names::map_said;
use ios_ast::{DefaultOrigin, Ospf, OspfNet, Redist, Source};
use ios_policy_reader::said::{address_said_under, is_said, number_said};
use ios_policy_reader::{Said, Tag};
use mw_text::{Addr, Line, List};
use std::alloc::{AllocError, Global};

/// The reference bandwidth where none is written, in megabits a second.
pub const REFERENCE_BANDWIDTH: u32 = 100;

/// An OSPF process of which only the number is read.
pub fn ospf_process(alloc: Global, line: u32, process: u32) -> Ospf
    ensures { result ≡ new_ospf line process }
{
    Ospf {
        line,
        process,
        networks: List::new(alloc),
        passive_default: false,
        passive: List::new(alloc),
        active: List::new(alloc),
        reference: REFERENCE_BANDWIDTH,
        redistribute: List::new(alloc),
        default: None,
    }
}

/// A `network` line. An area that is written as an address is that number.
pub fn ospf_network(line: u32, said: &[Said]) -> OspfNet
    ensures { result ≡ network_of line said.now }
{
    let area = address_said_under(Tag::Area, said, Addr(0));
    OspfNet {
        line,
        addr: address_said_under(Tag::Address, said, Addr(0)),
        wild: address_said_under(Tag::Wildcard, said, Addr(0)).0,
        area: number_said(Tag::Area, said, area.0),
    }
}

/// Whence routes are redistributed, by the number of the origin in the tables.
fn source_by_number(origin: u32, number: u32) -> Source
    ensures { result ≡ source_by origin number }
{
    match origin {
        0 => Source::Connected,
        1 => Source::Static,
        2 => Source::Ospf(number),
        _ => Source::Bgp(number),
    }
}

/// Whence the routes of a `redistribute` line are.
pub fn source_said(said: &[Said]) -> Source
    ensures { result ≡ source_of said.now }
{
    let origin = number_said(Tag::Origin, said, 0);
    source_by_number(origin, number_said(Tag::Number, said, 0))
}

/// The metric, if one was said.
pub fn metric_said(said: &[Said]) -> Option<u32>
    ensures { result ≡ metric_of said.now }
{
    if is_said(Tag::Metric, said) {
        Some(number_said(Tag::Metric, said, 0))
    } else {
        None
    }
}

/// Whether the metric is of type 1; it is of type 2 where nothing is said.
fn type1_said(said: &[Said]) -> bool
    ensures { result ≡ is_type1 said.now }
{
    number_said(Tag::MetricType, said, 2) == 1
}

/// A `redistribute` line of an OSPF block.
pub fn redistribution(alloc: Global, line: &Line, said: &[Said]) -> Result<Redist, AllocError>
    ensures { IfOk result (λ redist. redist ≡ into_ospf line.now said.now) }
{
    let map = map_said(alloc, said, line)?;
    Ok(Redist {
        line: line.number,
        source: source_said(said),
        metric: metric_said(said),
        type1: type1_said(said),
        subnets: is_said(Tag::Subnets, said),
        internal: true,
        ext1: false,
        ext2: false,
        map,
    })
}

/// A `default-information originate` line, with metric 1 where none is written.
pub fn default_origin(line: u32, said: &[Said]) -> DefaultOrigin
    ensures { result ≡ default_of line said.now }
{
    DefaultOrigin {
        line,
        always: is_said(Tag::Always, said),
        metric: number_said(Tag::Metric, said, 1),
        type1: type1_said(said),
    }
}
