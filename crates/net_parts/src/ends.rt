//! What lies at the ends of BGP sessions: the neighbour line of an end, and the end over which a route was learnt.

ghost use Rattle.std.specs.Prelude.{◌≡◌, ◌≤◌, ◌==◌, ◌&&◌, true, false, filter, length, nat_le, nat_lt, option_and_then, slice_get, slice_range};
ghost use Rattle.std.specs.List.Sorted.{IsNonDecreasingBy, IsPartitionPoint};
ghost use Rattle.std.specs.Option.{option_copied, option_map_or};
ghost use Rattle.net_parts.specs.Exports as exports;
ghost use Rattle.net_parts.specs.Sessions as sessions;

use crate::sessions::{Far, SessionEnd};
use ios_ast::{Bgp, File, Neighbour};
use mw_text::Addr;
use route_record::Learnt;
use std::ops::Range;

/// The file of a router.
pub fn file_of(files: &[File], router: u32) -> Option<&File>
    ensures { option_copied result ≡ slice_get files.now router }
{
    files.get(router as usize)
}

/// The BGP process of a router, if it runs one.
pub fn process_of(files: &[File], router: u32) -> Option<&Bgp>
    ensures { option_copied result ≡ option_and_then (λ file. file.bgp) (slice_get files.now router) }
{
    match file_of(files, router) {
        None => None,
        Some(file) => file.bgp.as_ref(),
    }
}

/// The neighbour line of an end.
pub fn neighbour_of<'a>(files: &'a [File], end: &SessionEnd) -> Option<&'a Neighbour>
    ensures { option_copied result ≡ sessions.neighbour_of files.now end.now }
{
    match process_of(files, end.router) {
        None => None,
        Some(process) => process.neighbours.items.get(end.neighbour as usize),
    }
}

/// Whether an external peer lies at the far side.
pub fn is_outside(end: &SessionEnd) -> bool
    ensures { result ≡ sessions.is_outside end.now.far }
{
    matches!(end.far, Far::Outside)
}

fn is_at(files: &[File], end: &SessionEnd, a: Addr) -> bool
    ensures { result ≡ option_map_or (λ neighbour. neighbour.addr.0 == a.0) (sessions.neighbour_of files.now end.now) false }
{
    match neighbour_of(files, end) {
        None => false,
        Some(neighbour) => neighbour.addr.0 == a.0,
    }
}

/// Whether the end is one of the router, and its neighbour has that address.
pub fn is_towards(files: &[File], router: u32, a: Addr, end: &SessionEnd) -> bool
    ensures { result ≡ exports.is_towards files.now router a end.now }
{
    end.router == router && is_at(files, end, a)
}

/// The end of the router whose neighbour has that address.
pub fn end_towards(files: &[File], ends: &[SessionEnd], router: u32, a: Addr) -> Option<SessionEnd>
    requires ends { ends.now ≡ sessions.ends_of files.now }
    ensures { result ≡ exports.end_towards files.now router a }
{
    ends.iter()
        .copied()
        .find(|end| is_towards(files, router, a, end))
}

/// The end over which a route was learnt.
pub fn learnt_over(
    files: &[File],
    ends: &[SessionEnd],
    router: u32,
    from: Learnt,
) -> Option<SessionEnd>
    requires ends { ends.now ≡ sessions.ends_of files.now }
    ensures { result ≡ exports.learnt_over files.now router from }
{
    match from {
        Learnt::Local => None,
        Learnt::Peer(a) => end_towards(files, ends, router, a),
    }
}

// How many ends are of earlier routers.
fn first_place(ends: &[SessionEnd], router: u32) -> usize
    requires in_order { IsNonDecreasingBy (λ end. end.router) ends.now }
    ensures bound { result ≤ length ends.now }
    ensures point { IsPartitionPoint (λ end. nat_lt end.router router ≡ true) (λ end. nat_lt end.router router ≡ false) ends.now result }
{
    ends.partition_point(|end| end.router < router)
}

// How many are of this one or an earlier one.
fn place_behind(ends: &[SessionEnd], router: u32) -> usize
    requires in_order { IsNonDecreasingBy (λ end. end.router) ends.now }
    ensures bound { result ≤ length ends.now }
    ensures point { IsPartitionPoint (λ end. nat_le end.router router ≡ true) (λ end. nat_le end.router router ≡ false) ends.now result }
{
    ends.partition_point(|end| end.router <= router)
}

/// The places of the ends of one router, which follow each other.
pub fn places_at(ends: &[SessionEnd], router: u32) -> Range<usize>
    requires in_order { IsNonDecreasingBy (λ end. end.router) ends.now }
    ensures ordered { result.start ≤ result.end }
    ensures within { result.end ≤ length ends.now }
    ensures own { slice_range ends.now result.start result.end ≡ filter (λ end. end.router == router) ends.now }
{
    let from = first_place(ends, router);
    let to = place_behind(ends, router);
    from..to
}
