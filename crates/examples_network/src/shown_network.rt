//! Networks as text.

use crate::page::Page;
use mw_text::Addr;
use net_model::{
    Adjacency, Far, IfaceId, Link, Net, NetCause, NetRefused, OspfInterface, SessionEnd,
};
use route_record::Tracked;

fn cause_name(cause: NetCause) -> &'static str {
    match cause {
        NetCause::Undefined => "Undefined",
        NetCause::SameName => "SameName",
        NetCause::SameAddress => "SameAddress",
        NetCause::SubnetClash => "SubnetClash",
        NetCause::NextHopNotConnected => "NextHopNotConnected",
        NetCause::ExternalInternalPeer => "ExternalInternalPeer",
        NetCause::SecondArea => "SecondArea",
        NetCause::NetLimit => "NetLimit",
        NetCause::Memory => "Memory",
    }
}

/// Why files form no network.
pub fn show_why(out: &mut Page, refused: &NetRefused) {
    out.place(" file ", refused.file);
    out.number(" line ", refused.line);
    out.put(" ");
    out.put(cause_name(refused.cause))
}

/// An interface after a text.
fn show_place(out: &mut Page, before: &str, i: IfaceId) {
    out.number(before, i.router);
    out.number("/", i.at)
}

fn show_link(out: &mut Page, net: &Net, link: &Link) {
    out.prefix("\n link ", link.prefix);
    match net.link_at(&link.prefix) {
        None => out.put(" nowhere of"),
        Some(at) => out.number(" at ", at),
    }
    for i in link.ifaces.as_slice() {
        show_place(out, " of ", *i);
    }
}

fn show_ospf(out: &mut Page, x: &OspfInterface) {
    show_place(out, "\n ospf on ", x.at.id);
    out.number(" cost ", x.cost);
    out.flag(" passive", x.passive)
}

fn show_adjacency(out: &mut Page, a: &Adjacency) {
    show_place(out, "\n adjacency at ", a.from);
    show_place(out, " from ", a.to);
    out.number(" cost ", a.cost)
}

fn show_end(out: &mut Page, end: &SessionEnd) {
    out.number("\n end of ", end.router);
    out.number(" neighbour ", end.neighbour);
    match end.far {
        Far::Outside => out.put(" outside"),
        Far::Inside(at) => out.number(" inside ", at),
    }
    out.flag(" internal", end.internal);
    out.flag(" shared", end.shared)
}

fn show_ends_of(out: &mut Page, net: &Net, router: u32) {
    let places = net.ends_of(router);
    if places.start < places.end {
        out.number("\n ends of ", router);
        out.place(" from ", places.start as u64);
        out.place(" to ", places.end as u64)
    }
}

fn show_clusters(out: &mut Page, clusters: &[Addr]) {
    for cluster in clusters {
        out.address("\n cluster ", *cluster);
    }
}

/// The values that are tracked in routes.
fn show_tracked(out: &mut Page, tracked: &Tracked) {
    out.put("\n communities");
    out.numbers(tracked.communities.as_slice());
    out.put("\n numbers");
    out.numbers(tracked.numbers.as_slice());
    show_clusters(out, tracked.clusters.as_slice())
}

fn show_links(out: &mut Page, net: &Net) {
    for link in net.links() {
        show_link(out, net, link);
    }
}

/// The interfaces that run OSPF, what they advertise, and the adjacencies.
fn show_interior(out: &mut Page, net: &Net) {
    for x in net.ospf_interfaces() {
        show_ospf(out, x);
    }
    for prefix in net.advertised() {
        out.prefix("\n advertised ", *prefix);
    }
    for a in net.adjacencies() {
        show_adjacency(out, a);
    }
}

/// The ends of sessions, and where those of each router stand.
fn show_ends(out: &mut Page, net: &Net) {
    for end in net.ends() {
        show_end(out, end);
    }
    for (router, _) in net.routers().iter().enumerate() {
        show_ends_of(out, net, router as u32);
    }
}

pub fn show_network(out: &mut Page, net: &Net) {
    show_links(out, net);
    show_interior(out, net);
    show_ends(out, net);
    show_tracked(out, net.tracked())
}
