//! Who has an address, and which interfaces are up while some links have failed.

ghost use Rattle.std.specs.Prelude.{◌≡◌, ◌==◌, ◌&&◌, false, option_map, slice_get};
ghost use Rattle.std.specs.List.{list_any, find};
ghost use Rattle.std.specs.Option.{option_map_or};
ghost use Rattle.mw_text.specs.Address.{covers, same_prefix};
ghost use Rattle.net_interfaces.specs.Interfaces as interfaces;
ghost use Rattle.net_parts.specs.Ospf as ospf;
ghost use Rattle.net_parts.specs.Routing as routing;
ghost use Rattle.net_parts.specs.World as world;

use crate::links::Link;
use ios_ast::File;
use mw_text::{Addr, Prefix, contains};
use net_interfaces::{Addressed, IfaceId};
use route_record::Failures;

fn find_owner(addresses: &[Addressed], a: Addr) -> Option<Addressed>
    ensures { result ≡ find (λ x. x.addr.0 == a.0) addresses.now }
{
    addresses.iter().copied().find(|x| x.addr == a)
}

/// The interface that has the address, shut down or not. None exactly where there is none.
pub fn owner(files: &[File], addresses: &[Addressed], a: Addr) -> Option<IfaceId>
    requires addresses { addresses.now ≡ interfaces.addressed files.now }
    ensures { result ≡ interfaces.owner files.now a }
{
    let _routers = files.len();
    match find_owner(addresses, a) {
        None => None,
        Some(x) => Some(x.id),
    }
}

fn find_over(addresses: &[Addressed], a: Addr) -> Option<Addressed>
    ensures { result ≡ find (λ x. covers x.subnet a) addresses.now }
{
    addresses.iter().copied().find(|x| contains(&x.subnet, a))
}

/// The subnet of an interface, shut down or not, that contains the address. None exactly where there is none.
pub fn subnet_of(files: &[File], addresses: &[Addressed], a: Addr) -> Option<Prefix>
    requires addresses { addresses.now ≡ interfaces.addressed files.now }
    ensures { result ≡ interfaces.subnet_of files.now a }
{
    let _routers = files.len();
    match find_over(addresses, a) {
        None => None,
        Some(x) => Some(x.subnet),
    }
}

fn is_link_at(links: &[Link], at: u32, p: &Prefix) -> bool
    ensures { result ≡ option_map_or (λ link. same_prefix p.now link.prefix) (slice_get links.now at) false }
{
    match links.get(at as usize) {
        None => false,
        Some(link) => *p == link.prefix,
    }
}

fn is_failed(files: &[File], links: &[Link], failures: &Failures, p: &Prefix) -> bool
    requires links { links.now ≡ world.links_of files.now }
    ensures { result ≡ world.is_failed files.now failures.now p.now }
{
    let _routers = files.len();
    failures
        .links
        .as_slice()
        .iter()
        .any(|at| is_link_at(links, *at, p))
}

/// Whether the interface is not shut down and its subnet is no failed link.
pub fn is_up(files: &[File], links: &[Link], failures: &Failures, x: &Addressed) -> bool
    requires links { links.now ≡ world.links_of files.now }
    ensures { result ≡ world.is_up files.now failures.now x.now }
{
    !x.shutdown && !is_failed(files, links, failures, &x.subnet)
}

/// Whether the interface has an address, is not shut down, and its subnet is no failed link.
pub fn is_up_at(
    files: &[File],
    addresses: &[Addressed],
    links: &[Link],
    failures: &Failures,
    i: IfaceId,
) -> bool
    requires addresses { addresses.now ≡ interfaces.addressed files.now }
    requires links { links.now ≡ world.links_of files.now }
    ensures { result ≡ ospf.is_up_at files.now failures.now i }
{
    for x in addresses {
        if x.id.router == i.router && x.id.at == i.at && is_up(files, links, failures, x) {
            return true;
        }
    }
    false
}

fn is_up_on(files: &[File], links: &[Link], failures: &Failures, router: u32, x: &Addressed) -> bool
    requires links { links.now ≡ world.links_of files.now }
    ensures { result ≡ ((x.now.id.router == router) && world.is_up files.now failures.now x.now) }
{
    x.id.router == router && is_up(files, links, failures, x)
}

/// Whether an interface of the router that is up has the address on its subnet.
pub fn is_reached_over(
    files: &[File],
    addresses: &[Addressed],
    links: &[Link],
    failures: &Failures,
    router: u32,
    a: Addr,
) -> bool
    requires addresses { addresses.now ≡ interfaces.addressed files.now }
    requires links { links.now ≡ world.links_of files.now }
    ensures { result ≡ routing.is_reached (routing.up_interfaces files.now failures.now router) a }
{
    for x in addresses {
        if is_up_on(files, links, failures, router, x) && contains(&x.subnet, a) {
            return true;
        }
    }
    false
}

/// Whether an interface of the router that is up has that subnet.
pub fn is_direct_over(
    files: &[File],
    addresses: &[Addressed],
    links: &[Link],
    failures: &Failures,
    router: u32,
    p: &Prefix,
) -> bool
    requires addresses { addresses.now ≡ interfaces.addressed files.now }
    requires links { links.now ≡ world.links_of files.now }
    ensures { result ≡ routing.is_direct (routing.up_interfaces files.now failures.now router) p.now }
{
    for x in addresses {
        if is_up_on(files, links, failures, router, x) && x.subnet == *p {
            return true;
        }
    }
    false
}
