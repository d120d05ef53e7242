//! The packet, and the links that have failed.

use crate::page::Page;
use crate::places::{iface_name, router_name};
use crate::scenes::Scene;
use net_model::{IfaceId, Link};

/// Puts a protocol: its name, where questions name it, or its number (IANA, protocol numbers).
fn put_protocol(page: &mut Page, proto: u8) {
    match proto {
        1 => page.bytes(b"icmp"),
        6 => page.bytes(b"tcp"),
        17 => page.bytes(b"udp"),
        _ => page.counted(b"protocol ", u32::from(proto)),
    }
}

/// Whether packets of a protocol have ports: those of TCP and UDP.
fn has_ports(proto: u8) -> bool {
    proto == 6 || proto == 17
}

/// Puts a port, where the packet has ports.
fn put_port(page: &mut Page, proto: u8, port: u16) {
    if has_ports(proto) {
        page.counted(b" port ", u32::from(port))
    }
}

/// Puts the packet.
pub fn put_packet(page: &mut Page, scene: &Scene<'_>) {
    let packet = &scene.cex.packet;
    page.bytes(b"  packet: ");
    put_protocol(page, packet.proto);
    page.address(b" from ", packet.src);
    put_port(page, packet.proto, packet.sport);
    page.address(b" to ", packet.dst);
    put_port(page, packet.proto, packet.dport);
    page.bytes(b"\n")
}

/// Puts an end of a link.
fn put_end(page: &mut Page, scene: &Scene<'_>, words: &[u8], i: IfaceId) {
    let files = scene.net.routers();
    page.put(&[
        words,
        router_name(files, i.router),
        b" ",
        iface_name(files, i),
    ])
}

/// Puts a link: its subnet and both its ends.
fn put_link(page: &mut Page, scene: &Scene<'_>, link: &Link) {
    page.prefix(b"  failed link: ", &link.prefix);
    for (place, i) in link.ifaces.as_slice().iter().enumerate() {
        put_end(page, scene, if place == 0 { b", " } else { b" to " }, *i);
    }
    page.bytes(b"\n")
}

/// Puts the links that have failed.
pub fn put_failures(page: &mut Page, scene: &Scene<'_>) {
    for at in scene.cex.failures.links.as_slice() {
        if let Some(link) = scene.net.links().get(*at as usize) {
            put_link(page, scene, link);
        }
    }
}
