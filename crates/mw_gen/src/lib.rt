//! The texts of a generated network: a ring of routers that run OSPF, and a question about it.
#![tactic(auto)]

ghost use Rattle.std.specs.Prelude.{◌≡◌, ◌≤◌, IfOk, length};
ghost use Rattle.std.specs.List.{flat_map};
ghost use Rattle.mw_gen.specs.Ring as ring;

use mw_text::List;
use std::alloc::{AllocError, Global};

/// How many routers a ring has at least.
pub const LEAST_ROUTERS: u64 = 3;

/// How many it has at most.
pub const MOST_ROUTERS: u64 = 64;

/// How many ports the access list of each router denies, from 1 on.
pub const DENIED_PORTS: u64 = 100;

// Pieces joined in their order.
fn joined(alloc: Global, pieces: &[&[u8]]) -> Result<List<u8>, AllocError>
    ensures { IfOk result (λ text. text ≡ flat_map (λ piece. piece.now) pieces.now) }
{
    let mut text = List::new(alloc);
    for piece in pieces {
        text.items.extend_from_slice(piece)?;
    }
    Ok(text)
}

/// The name of a router of the ring, by its number from 1 on.
pub fn router_name(alloc: Global, router: u64) -> Result<List<u8>, AllocError>
    ensures { IfOk result (λ name. name ≡ ring.router_name router) }
{
    let number = router.to_string(alloc)?;
    joined(alloc, &[b"G", number.as_bytes()])
}

// The interface on a link, at one side of it.
fn interface_text(alloc: Global, side: u64, link: u64) -> Result<List<u8>, AllocError>
    ensures { IfOk result (λ text. text ≡ ring.interface_text side link) }
{
    let side = side.to_string(alloc)?;
    let link = link.to_string(alloc)?;
    let pieces: [&[u8]; 11] = [
        b"interface GigabitEthernet0/",
        side.as_bytes(),
        b"\n",
        b" ip address 10.100.",
        link.as_bytes(),
        b".",
        side.as_bytes(),
        b" 255.255.255.252",
        b"\n",
        b" ip access-group 101 in",
        b"\n",
    ];
    joined(alloc, &pieces)
}

// The loopback of a router, and its OSPF.
fn loopback_text(alloc: Global, router: u64) -> Result<List<u8>, AllocError>
    ensures { IfOk result (λ text. text ≡ ring.loopback_text router) }
{
    let number = router.to_string(alloc)?;
    let pieces: [&[u8]; 10] = [
        b"interface Loopback0",
        b"\n",
        b" ip address 10.200.",
        number.as_bytes(),
        b".1 255.255.255.255",
        b"\n",
        b"router ospf 1",
        b"\n",
        b" network 10.0.0.0 0.255.255.255 area 0",
        b"\n",
    ];
    joined(alloc, &pieces)
}

// An entry of the list, which denies UDP to a port.
fn deny_line(alloc: Global, port: u64) -> Result<List<u8>, AllocError>
    ensures { IfOk result (λ line. line ≡ ring.deny_line port) }
{
    let port = port.to_string(alloc)?;
    joined(
        alloc,
        &[
            b"access-list 101 deny udp any any eq ",
            port.as_bytes(),
            b"\n",
        ],
    )
}

// The entries that deny UDP to the ports up to that one.
#[tactic(auto, unfolding(crate::specs::Ring::deny_text))]
fn deny_text(alloc: Global, ports: u64) -> Result<List<u8>, AllocError>
    ensures { IfOk result (λ text. text ≡ ring.deny_text ports) }
{
    let mut text = List::new(alloc);
    for port in 0..ports {
        let line = deny_line(alloc, port + 1)?;
        text.items.extend_from_slice(line.as_slice())?;
    }
    Ok(text)
}

fn link_before(routers: u64, router: u64) -> u64
    ensures { result ≡ ring.link_before routers router }
{
    if router == 1 {
        routers
    } else {
        router.saturating_sub(1)
    }
}

fn head_text(alloc: Global, router: u64) -> Result<List<u8>, AllocError>
    ensures { IfOk result (λ text. text ≡ ring.head_text router) }
{
    let number = router.to_string(alloc)?;
    joined(alloc, &[b"hostname G", number.as_bytes(), b"\n"])
}

fn interfaces_text(alloc: Global, routers: u64, router: u64) -> Result<List<u8>, AllocError>
    ensures { IfOk result (λ text. text ≡ ring.interfaces_text routers router) }
{
    let after = interface_text(alloc, 1, router)?;
    let before = interface_text(alloc, 2, link_before(routers, router))?;
    let loopback = loopback_text(alloc, router)?;
    joined(
        alloc,
        &[after.as_slice(), before.as_slice(), loopback.as_slice()],
    )
}

/// How many bytes a text has at most.
pub const MOST_BYTES: u64 = 10_000;

/// The configuration of the router of that number in a ring of so many.
pub fn router_text(alloc: Global, routers: u64, router: u64) -> Result<List<u8>, AllocError>
    ensures text { IfOk result (λ text. text ≡ ring.router_text routers router) }
    ensures short { IfOk result (λ text. length text ≤ MOST_BYTES) }
{
    let head = head_text(alloc, router)?;
    let interfaces = interfaces_text(alloc, routers, router)?;
    let denied = deny_text(alloc, DENIED_PORTS)?;
    let pieces: [&[u8]; 5] = [
        head.as_slice(),
        interfaces.as_slice(),
        denied.as_slice(),
        b"access-list 101 permit ip any any",
        b"\n",
    ];
    joined(alloc, &pieces)
}

/// The questions file of a ring of so many routers: whether the first reaches the last, whichever one link has failed.
#[tactic(auto, using(crate::proofs::Lengths::question_short))]
pub fn question_text(alloc: Global, routers: u64) -> Result<List<u8>, AllocError>
    ensures text { IfOk result (λ text. text ≡ ring.question_text routers) }
    ensures short { IfOk result (λ text. length text ≤ MOST_BYTES) }
{
    let number = routers.to_string(alloc)?;
    let pieces: [&[u8]; 6] = [
        b"g1 reach from G1 to router G",
        number.as_bytes(),
        b" packets icmp 10.200.1.1/32 any 10.200.",
        number.as_bytes(),
        b".1/32 any failures 1",
        b"\n",
    ];
    joined(alloc, &pieces)
}
