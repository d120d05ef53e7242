//! External peers that two networks have in common, by the ends of their sessions.

ghost use Rattle.std.specs.Prelude.{◌≡◌, IfOk, IfNone, OnOk, Some, false, option_map, true};
ghost use Rattle.net_parts.specs.declared.sessions.SessionEnd.{SessionEnd as EndOf};
ghost use Rattle.paired_nets.specs.Ends as pairs;
ghost use Rattle.paired_nets.specs.Peers as names;

use ios_ast::File;
use mw_text::{List, same_bytes};
use net_model::{Net, SessionEnd};
use net_parts::ends::{file_of, is_outside, neighbour_of};
use std::alloc::{AllocError, Global};

/// The places of the ends of sessions with an external peer that two networks have, among the ends of each.
#[derive(Clone, Copy)]
pub struct EndPair {
    pub one: u64,
    pub other: u64,
}

// The name of the router at the end, and the address of its neighbour.
fn peer_of<'a>(files: &'a [File], end: &SessionEnd) -> Option<(&'a [u8], u32)>
    ensures { option_map (λ peer. (peer.0.now, peer.1)) result ≡ names.peer_of files.entry.now end.now }
{
    match (file_of(files, end.router), neighbour_of(files, end)) {
        (Some(file), Some(neighbour)) => Some((file.hostname.as_slice(), neighbour.addr.0)),
        _ => None,
    }
}

// Whether two ends are with one peer.
fn are_with_one(left: &[File], right: &[File], a: &SessionEnd, b: &SessionEnd) -> bool
    ensures yes { result ≡ true → names.AreWithOne left.now right.now a.now b.now }
    ensures no { result ≡ false → names.AreWithOne left.now right.now a.now b.now → ⊥ }
{
    match (peer_of(left, a), peer_of(right, b)) {
        (Some((name, address)), Some((other, other_address))) => {
            same_bytes(name, other) && address == other_address
        }
        _ => false,
    }
}

// Whether they are with one external peer of both.
fn are_common(left: &[File], right: &[File], a: &SessionEnd, b: &SessionEnd) -> bool
    ensures yes { result ≡ true → pairs.AreCommonEnds left.now right.now a.now b.now }
    ensures no { result ≡ false → pairs.AreCommonEnds left.now right.now a.now b.now → ⊥ }
{
    is_outside(a) && is_outside(b) && are_with_one(left, right, a, b)
}

fn put_end(out: &mut List<EndPair>, one: u64, other: u64, common: bool) -> Result<(), AllocError>
    ensures { OnOk result (out.new ≡ pairs.with_pair out.old one other common) }
{
    if common {
        out.items.push(EndPair { one, other })?;
    }
    Ok(())
}

// Puts the places of all that are with the peer of an end of the left network.
fn put_ends(
    out: &mut List<EndPair>,
    left: &[File],
    right: &[File],
    one: u64,
    a: &SessionEnd,
    others: &[SessionEnd],
) -> Result<(), AllocError>
    ensures { OnOk result (pairs.ArePut left.now right.now a.now one others.now out.old out.new) }
{
    for (at, b) in others.iter().enumerate() {
        let common = are_common(left, right, a, b);
        put_end(out, one, at as u64, common)?;
    }
    Ok(())
}

/// The places of all ends of sessions of both networks with one external peer: one by the name of its router and its
/// address.
pub fn common_ends(alloc: Global, left: &Net, right: &Net) -> Result<List<EndPair>, AllocError>
    ensures { IfOk result (pairs.AreEndPairs left.now.files right.now.files) }
{
    let mut out = List::new(alloc);
    for (at, a) in left.ends().iter().enumerate() {
        put_ends(
            &mut out,
            left.routers(),
            right.routers(),
            at as u64,
            a,
            right.ends(),
        )?;
    }
    Ok(out)
}
