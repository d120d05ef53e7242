//! What an external peer may announce, as a test, and lists of announcements.

ghost use Rattle.std.specs.Prelude.{◌≡◌, ◌++◌, ◌&&◌, false, IfOk, OnOk, filter, nat_lt, slice_get};
ghost use Rattle.std.specs.List.{list_all};
ghost use Rattle.std.specs.Option.{option_map_or, option_to_list};
ghost use Rattle.machine_laws.specs.Announcing as announcing;
ghost use Rattle.machine_laws.specs.Sending.{is_outside_at};
ghost use Rattle.net_parts.specs.Sessions.{ends_of};
ghost use Rattle.net_parts.specs.World as world;

use machine_sending::is_outside_at;
use mw_text::List;
use net_model::{Net, SessionEnd};
use net_parts::ends::{is_outside, neighbour_of};
use policy_eval::copy_list;
use route_record::{Announcement, LENGTHS};
use std::alloc::{AllocError, Global};

fn begins_with(asn: u32, path: &[u32]) -> bool
    ensures { result ≡ announcing.begins_with asn path.now }
{
    match path {
        [] => false,
        [first, ..] => *first == asn,
    }
}

// Whether the end is towards an external peer, whose AS is the first of the path.
fn is_peers(net: &Net, path: &[u32], end: &SessionEnd) -> bool
    ensures { result ≡ announcing.is_peers net.now.files path.now end.now }
{
    if !is_outside(end) {
        return false;
    }
    match neighbour_of(net.routers(), end) {
        None => true,
        Some(neighbour) => begins_with(neighbour.asn, path),
    }
}

fn is_of_peer(net: &Net, path: &[u32], at: u32) -> bool
    ensures { result ≡ option_map_or (announcing.is_peers net.now.files path.now)
        (slice_get (ends_of net.now.files) at) false }
{
    match net.ends().get(at as usize) {
        None => false,
        Some(end) => is_peers(net, path, end),
    }
}

fn is_word(n: u32) -> bool
    ensures { result ≡ world.is_word n }
{
    u64::from(n) < 0x1_0000_0000
}

fn is_as_number(n: u32) -> bool
    ensures { result ≡ world.is_as_number n }
{
    n > 0 && is_word(n)
}

fn are_as_numbers(numbers: &[u32]) -> bool
    ensures { result ≡ list_all world.is_as_number numbers.now }
{
    numbers.iter().all(|n| is_as_number(*n))
}

fn is_path(path: &[u32]) -> bool
    ensures { result ≡ announcing.is_path path.now }
{
    path.len() <= 255 && are_as_numbers(path)
}

#[tactic(auto, using(crate::proofs::Ascending::not_up))]
fn do_ascend(numbers: &[u32]) -> bool
    ensures { result ≡ world.ascends numbers.now }
{
    for at in 1..numbers.len() {
        if numbers[at - 1] >= numbers[at] {
            return false;
        }
    }
    true
}

fn are_words(numbers: &[u32]) -> bool
    ensures { result ≡ list_all world.is_word numbers.now }
{
    numbers.iter().all(|n| is_word(*n))
}

fn are_communities(communities: &[u32]) -> bool
    ensures { result ≡ announcing.are_communities communities.now }
{
    do_ascend(communities) && are_words(communities)
}

// Whether its peer may make the announcement (RFC 4271, section 4.3; RFC 1997).
#[tactic(auto, unfolding(machine_laws::specs::Announcing::is_announcement))]
fn is_announcement(net: &Net, a: &Announcement) -> bool
    ensures { result ≡ announcing.is_announcement net.now.files a.now }
{
    is_of_peer(net, a.path.as_slice(), a.end)
        && (a.len as usize) < LENGTHS
        && is_path(a.path.as_slice())
        && is_word(a.med)
        && are_communities(a.communities.as_slice())
}

fn is_about(net: &Net, end: u32, len: u8, what: &Option<Announcement>) -> bool
    ensures { result ≡ announcing.is_about net.now.files end len what.now }
{
    match what {
        None => true,
        Some(a) => a.end == end && a.len == len && is_announcement(net, a),
    }
}

/// Whether that may be announced for the end and the length: the end is towards an external peer, the length is at most
/// 32, and the announcement, if it is none that withdraws, is about these and is one that this peer may make.
pub fn may_announce(net: &Net, end: u32, len: u8, what: &Option<Announcement>) -> bool
    ensures { result ≡ ((is_outside_at net.now.files end && nat_lt len LENGTHS)
        && announcing.is_about net.now.files end len what.now) }
{
    is_outside_at(net, end) && (len as usize) < LENGTHS && is_about(net, end, len, what)
}

// ---- lists

fn copy_announcement(alloc: Global, a: &Announcement) -> Result<Announcement, AllocError>
    ensures { IfOk result (λ made. made ≡ a.now) }
{
    let path = copy_list(alloc, &a.path)?;
    let communities = copy_list(alloc, &a.communities)?;
    Ok(Announcement {
        end: a.end,
        len: a.len,
        path,
        med: a.med,
        origin: a.origin,
        communities,
    })
}

fn is_before(end: u32, len: u8, a: &Announcement) -> bool
    ensures { result ≡ announcing.is_before end len a.now }
{
    a.end < end || (a.end == end && a.len < len)
}

fn is_after(end: u32, len: u8, a: &Announcement) -> bool
    ensures { result ≡ announcing.is_after end len a.now }
{
    end < a.end || (a.end == end && len < a.len)
}

fn add_before(
    alloc: Global,
    out: &mut List<Announcement>,
    announced: &[Announcement],
    end: u32,
    len: u8,
) -> Result<(), AllocError>
    ensures { OnOk result (out.new ≡ out.old ++ filter (announcing.is_before end len) announced.now) }
{
    for a in announced {
        if is_before(end, len, a) {
            out.items.push(copy_announcement(alloc, a)?)?;
        }
    }
    Ok(())
}

fn add_after(
    alloc: Global,
    out: &mut List<Announcement>,
    announced: &[Announcement],
    end: u32,
    len: u8,
) -> Result<(), AllocError>
    ensures { OnOk result (out.new ≡ out.old ++ filter (announcing.is_after end len) announced.now) }
{
    for a in announced {
        if is_after(end, len, a) {
            out.items.push(copy_announcement(alloc, a)?)?;
        }
    }
    Ok(())
}

fn add_if(out: &mut List<Announcement>, what: Option<Announcement>) -> Result<(), AllocError>
    ensures { OnOk result (out.new ≡ out.old ++ option_to_list what) }
{
    match what {
        None => Ok(()),
        Some(a) => {
            out.items.push(a)?;
            Ok(())
        }
    }
}

/// The announcements with that for the end and the length in the place of what was announced.
pub fn announced_with(
    alloc: Global,
    announced: &[Announcement],
    end: u32,
    len: u8,
    what: Option<Announcement>,
) -> Result<List<Announcement>, AllocError>
    ensures { IfOk result (λ made. made ≡ announcing.announced_with announced.now end len what) }
{
    let mut made = List::new(alloc);
    add_before(alloc, &mut made, announced, end, len)?;
    add_if(&mut made, what)?;
    add_after(alloc, &mut made, announced, end, len)?;
    Ok(made)
}
