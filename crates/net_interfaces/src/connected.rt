//! Which subnets overlap, and which next hops are connected.

ghost use Rattle.std.specs.Prelude.{◌≡◌, ◌&&◌};
ghost use Rattle.std.specs.List.{list_any};
ghost use Rattle.mw_text.specs.Text.{same_text};
ghost use Rattle.net_interfaces.specs.Connected.{overlap, reaches, is_connected};

use ios_ast::{Iface, StaticRoute, Via};
use mw_text::{Addr, Prefix, contains, prefix_of, same_bytes};

/// Whether one of two prefixes contains the other.
pub fn prefixes_overlap(p: &Prefix, q: &Prefix) -> bool
    ensures { result ≡ overlap p.now q.now }
{
    contains(p, q.addr) || contains(q, p.addr)
}

fn is_on_subnet(iface: &Iface, a: Addr) -> bool
    ensures { result ≡ reaches a iface.now }
{
    match &iface.address {
        None => false,
        Some(own) => contains(&prefix_of(own.addr, own.len), a),
    }
}

/// Whether the address is on the subnet of an interface.
pub fn some_reaches(interfaces: &[Iface], a: Addr) -> bool
    ensures { result ≡ list_any (reaches a) interfaces.now }
{
    interfaces.iter().any(|iface| is_on_subnet(iface, a))
}

/// Whether the address is on the subnet of an interface of that name.
pub fn named_reaches(interfaces: &[Iface], name: &[u8], a: Addr) -> bool
    ensures { result ≡ list_any (λ iface. same_text iface.name name.now && reaches a iface) interfaces.now }
{
    interfaces.iter().any(|iface| same_bytes(iface.name.as_slice(), name) && is_on_subnet(iface, a))
}

/// Whether the next hop of a static route is on a subnet of its router, that of the interface which it names.
pub fn route_is_connected(interfaces: &[Iface], route: &StaticRoute) -> bool
    ensures { result ≡ is_connected interfaces.now route.now }
{
    match &route.via {
        Via::Null0 => true,
        Via::Next(a) => some_reaches(interfaces, *a),
        Via::Out(named, a) => named_reaches(interfaces, named.name.as_slice(), *a),
    }
}
