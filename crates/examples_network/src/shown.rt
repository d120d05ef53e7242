//! Files as text, each part with its line after an `@`.

use crate::page::Page;
use crate::shown_policies::show_policies;
use ios_ast::{
    Bgp, BgpNet, DefaultOrigin, File, IfAddr, Iface, Neighbour, Ospf, OspfNet, Redist, Source,
    StaticRoute, Use, Via,
};
use mw_text::{Addr, List};

/// A name and its line after a text.
fn show_named(out: &mut Page, before: &str, name: &List<u8>, line: u32) {
    out.bytes(before, name.as_slice());
    out.number("@", line)
}

fn show_use(out: &mut Page, before: &str, used: &Option<Use>) {
    if let Some(used) = used {
        show_named(out, before, &used.name, used.line)
    }
}

pub fn show_uses(out: &mut Page, before: &str, uses: &[Use]) {
    for used in uses {
        show_named(out, before, &used.name, used.line);
    }
}

fn show_interface_address(out: &mut Page, address: &Option<IfAddr>) {
    let Some(address) = address else {
        return;
    };
    out.address(" address ", address.addr);
    out.number("/", u32::from(address.len));
    out.number("@", address.line)
}

fn show_interface(out: &mut Page, iface: &Iface) {
    show_named(out, "\n interface ", &iface.name, iface.line);
    show_interface_address(out, &iface.address);
    out.flag(" shutdown", iface.shutdown);
    out.number(" bandwidth ", iface.bandwidth);
    out.number_if(" cost ", iface.cost);
    show_use(out, " in ", &iface.list_in);
    show_use(out, " out ", &iface.list_out);
}

fn show_via(out: &mut Page, via: &Via) {
    match via {
        Via::Null0 => out.put(" null"),
        Via::Next(address) => out.address(" to ", *address),
        Via::Out(used, address) => {
            show_named(out, " by ", &used.name, used.line);
            out.address(" to ", *address)
        }
    }
}

fn show_route(out: &mut Page, route: &StaticRoute) {
    out.number("\n route@", route.line);
    out.prefix(" ", route.prefix);
    show_via(out, &route.via);
    out.number(" distance ", u32::from(route.distance));
}

fn show_source(out: &mut Page, source: Source) {
    match source {
        Source::Connected => out.put(" connected"),
        Source::Static => out.put(" static"),
        Source::Bgp(number) => out.number(" bgp ", number),
        Source::Ospf(number) => out.number(" ospf ", number),
    }
}

fn show_redist(out: &mut Page, redist: &Redist) {
    out.number("\n  redistribute@", redist.line);
    show_source(out, redist.source);
    out.number_if(" metric ", redist.metric);
    out.flag(" type1", redist.type1);
    out.flag(" subnets", redist.subnets);
    out.flag(" internal", redist.internal);
    out.flag(" ext1", redist.ext1);
    out.flag(" ext2", redist.ext2);
    show_use(out, " map ", &redist.map);
}

fn show_ospf_network(out: &mut Page, network: &OspfNet) {
    out.number("\n  network@", network.line);
    out.address(" ", network.addr);
    out.address(" ", Addr(network.wild));
    out.number(" area ", network.area);
}

fn show_default(out: &mut Page, origin: &Option<DefaultOrigin>) {
    let Some(origin) = origin else {
        return;
    };
    out.number("\n  default@", origin.line);
    out.number(" metric ", origin.metric);
    out.flag(" always", origin.always);
    out.flag(" type1", origin.type1);
}

fn show_ospf(out: &mut Page, ospf: &Ospf) {
    out.number("\n ospf ", ospf.process);
    out.number("@", ospf.line);
    out.number(" reference ", ospf.reference);
    out.flag(" passive", ospf.passive_default);
    show_uses(out, " passive ", ospf.passive.as_slice());
    show_uses(out, " active ", ospf.active.as_slice());
    for network in ospf.networks.as_slice() {
        show_ospf_network(out, network);
    }
    for redist in ospf.redistribute.as_slice() {
        show_redist(out, redist);
    }
    show_default(out, &ospf.default)
}

fn show_bgp_network(out: &mut Page, network: &BgpNet) {
    out.number("\n  network@", network.line);
    out.prefix(" ", network.prefix);
    show_use(out, " map ", &network.map);
}

/// What a neighbour uses.
fn show_neighbour_uses(out: &mut Page, neighbour: &Neighbour) {
    show_use(out, " source ", &neighbour.source);
    show_use(out, " prefix-in ", &neighbour.prefix_in);
    show_use(out, " prefix-out ", &neighbour.prefix_out);
    show_use(out, " filter-in ", &neighbour.filter_in);
    show_use(out, " filter-out ", &neighbour.filter_out);
    show_use(out, " map-in ", &neighbour.map_in);
    show_use(out, " map-out ", &neighbour.map_out)
}

fn show_neighbour(out: &mut Page, neighbour: &Neighbour) {
    out.number("\n  neighbour@", neighbour.line);
    out.address(" ", neighbour.addr);
    out.number(" as ", neighbour.asn);
    out.number(" weight ", neighbour.weight);
    out.flag(" next-hop-self", neighbour.next_hop_self);
    out.flag(" client", neighbour.client);
    out.flag(" communities", neighbour.send_community);
    out.flag(" shutdown", neighbour.shutdown);
    show_neighbour_uses(out, neighbour);
}

fn show_router_id(out: &mut Page, router_id: Option<Addr>) {
    match router_id {
        Some(address) => out.address(" id ", address),
        None => {}
    }
}

fn show_bgp(out: &mut Page, bgp: &Bgp) {
    out.number("\n bgp ", bgp.asn);
    out.number("@", bgp.line);
    show_router_id(out, bgp.router_id);
    out.flag(" always-compare-med", bgp.always_compare);
    out.flag(" compare-routerid", bgp.compare_routerid);
    for network in bgp.networks.as_slice() {
        show_bgp_network(out, network);
    }
    for redist in bgp.redistribute.as_slice() {
        show_redist(out, redist);
    }
    for neighbour in bgp.neighbours.as_slice() {
        show_neighbour(out, neighbour);
    }
}

/// A file, each part with its line after an `@`.
pub fn show_file(out: &mut Page, file: &File) {
    show_named(out, "\n hostname ", &file.hostname, file.hostname_line);
    for iface in file.interfaces.as_slice() {
        show_interface(out, iface);
    }
    for route in file.statics.as_slice() {
        show_route(out, route);
    }
    if let Some(ospf) = &file.ospf {
        show_ospf(out, ospf);
    }
    if let Some(bgp) = &file.bgp {
        show_bgp(out, bgp);
    }
    show_policies(out, &file.policies)
}
