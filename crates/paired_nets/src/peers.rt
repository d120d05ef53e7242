//! External peers of two networks that are one by their names.

ghost use Rattle.std.specs.Prelude.{◌≡◌, ◌==◌, ◌&&◌, not, [], IfOk, option_and_then, slice_get};
ghost use Rattle.std.specs.List.{find, list_any};
ghost use Rattle.std.specs.Option.{option_copied, option_map_or};
ghost use Rattle.net_interfaces.specs.Interfaces.{addressed};
ghost use Rattle.net_parts.specs.Sessions as sessions;
ghost use Rattle.paired_nets.specs.Peers as names;
ghost use Rattle.paired_nets.specs.Refusals as refusals;

use crate::refused::{PairCause, PairRefused};
use ios_ast::File;
use mw_text::same_bytes;
use net_model::{Net, Peering};
use net_parts::ends::process_of;
use net_parts::sessions::{is_external_peer, peerings};
use std::alloc::{AllocError, Global};

fn hostname_at(files: &[File], router: u32) -> &[u8]
    ensures { result.now ≡ names.hostname_at files.entry.now router }
{
    match files.get(router as usize) {
        None => &[],
        Some(file) => file.hostname.as_slice(),
    }
}

// Whether two neighbour lines are of one peer: their routers have one name, and the neighbours one address.
fn is_one_peer(left: &[File], right: &[File], one: &Peering, other: &Peering) -> bool
    ensures { result ≡ names.is_one_peer left.now right.now one.now other.now }
{
    same_bytes(
        hostname_at(left, one.router),
        hostname_at(right, other.router),
    ) && one.neighbour.0 == other.neighbour.0
}

// Whether they are of one external peer, with two AS numbers.
fn differs_from(left: &Net, right: &Net, one: &Peering, other: &Peering) -> bool
    ensures { result ≡ refusals.differs_from left.now.files right.now.files other.now one.now }
{
    is_external_peer(left.addresses(), one)
        && is_one_peer(left.routers(), right.routers(), one, other)
        && one.remote != other.remote
}

fn some_differs(left: &Net, right: &Net, lines: &[Peering], other: &Peering) -> bool
    ensures { result ≡ list_any (refusals.differs_from left.now.files right.now.files other.now) lines.now }
{
    lines
        .iter()
        .any(|one| differs_from(left, right, one, other))
}

fn differs(left: &Net, right: &Net, lines: &[Peering], other: &Peering) -> bool
    requires { lines.now ≡ sessions.peerings left.now.files }
    ensures { result ≡ refusals.differs left.now.files right.now.files other.now }
{
    is_external_peer(right.addresses(), other) && some_differs(left, right, lines, other)
}

fn first_differing(
    left: &Net,
    right: &Net,
    lines: &[Peering],
    others: &[Peering],
) -> Option<Peering>
    requires { lines.now ≡ sessions.peerings left.now.files }
    ensures { result ≡ find (refusals.differs left.now.files right.now.files) others.now }
{
    others
        .iter()
        .copied()
        .find(|other| differs(left, right, lines, other))
}

// The line at which the neighbour of a neighbour line is named.
fn line_of(files: &[File], line: &Peering) -> u32
    ensures { result ≡ refusals.line_of files.now line.now }
{
    match process_of(files, line.router) {
        None => 0,
        Some(process) => match process.neighbours.as_slice().get(line.at as usize) {
            None => 0,
            Some(neighbour) => neighbour.line,
        },
    }
}

fn refused_at(files: &[File], line: &Peering) -> PairRefused
    ensures { result ≡ refusals.refused_at files.now line.now }
{
    PairRefused {
        file: u64::from(line.router),
        line: line_of(files, line),
        cause: PairCause::PeerDiffers,
    }
}

/// The first neighbour line of the right files that names an external peer of both networks with another AS number than
/// the left one.
pub fn peer_refusal(
    alloc: Global,
    left: &Net,
    right: &Net,
) -> Result<Option<PairRefused>, AllocError>
    ensures { IfOk result (λ why. why ≡ refusals.peer_refusal left.now.files right.now.files) }
{
    let lines = peerings(alloc, left.routers(), left.addresses())?;
    let others = peerings(alloc, right.routers(), right.addresses())?;
    match first_differing(left, right, lines.as_slice(), others.as_slice()) {
        None => Ok(None),
        Some(line) => Ok(Some(refused_at(right.routers(), &line))),
    }
}
