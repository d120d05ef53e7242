//! Interfaces that are up and static routes that count, where no link has failed.

ghost use Rattle.std.specs.Prelude.{◌≡◌, ◌==◌, ◌&&◌, true, not, IfOk};
ghost use Rattle.net_parts.specs.Routing as routing;

use ios_ast::{StaticRoute, Via};
use mw_text::{Addr, Prefix, contains};
use net_interfaces::Addressed;
use std::alloc::{AllocError, Global};

fn is_open(x: &Addressed) -> bool
    ensures { result ≡ (not x.now.shutdown && true) }
{
    !x.shutdown
}

fn is_open_on(x: &Addressed, router: u32) -> bool
    ensures { result ≡ ((x.now.id.router == router) && (not x.now.shutdown && true)) }
{
    x.id.router == router && is_open(x)
}

/// The interfaces of a router that are not shut down.
pub fn open_interfaces(
    alloc: Global,
    addresses: &[Addressed],
    router: u32,
) -> Result<Vec<Addressed>, AllocError>
    ensures { IfOk result (λ up. up.items ≡ routing.open_interfaces addresses.now router) }
{
    addresses
        .iter()
        .copied()
        .filter(|x| is_open_on(x, router))
        .collect(alloc)
}

/// Whether one of the interfaces has that subnet.
pub fn is_direct(up: &[Addressed], p: &Prefix) -> bool
    ensures { result ≡ routing.is_direct up.now p.now }
{
    up.iter().any(|x| x.subnet == *p)
}

fn reaches(up: &[Addressed], a: Addr) -> bool
    ensures { result ≡ routing.is_reached up.now a }
{
    up.iter().any(|x| contains(&x.subnet, a))
}

/// Whether a static route counts over the interfaces of its router that are up: it goes to Null0 or its next hop is on
/// the subnet of one of these, and its distance is not 255.
pub fn route_counts(up: &[Addressed], route: &StaticRoute) -> bool
    ensures { result ≡ routing.counts up.now route.now }
{
    route.distance != 255
        && match &route.via {
            Via::Null0 => true,
            Via::Next(a) => reaches(up, *a),
            Via::Out(_, a) => reaches(up, *a),
        }
}
