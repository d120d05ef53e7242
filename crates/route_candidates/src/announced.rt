//! What external peers announce, as the messages that arrive from them.

ghost use Rattle.std.specs.Prelude.{◌≡◌, ◌==◌, ◌&&◌, IfOk, option_and_then, option_map};
ghost use Rattle.std.specs.List.{find};
ghost use Rattle.std.specs.Option.{option_copied};
ghost use Rattle.net_parts.specs.Exports as exports;
ghost use Rattle.net_parts.specs.Sessions as sessions;

use mw_text::{Addr, List, Prefix};
use net_model::{Net, SessionEnd};
use net_parts::ends::neighbour_of;
use policy_eval::copy_list;
use route_record::{Announcement, BgpMsg, Environment};
use std::alloc::{AllocError, Global};

fn is_of(a: &Announcement, at: u32, len: u8) -> bool
    ensures { result ≡ ((a.now.end == at) && (a.now.len == len)) }
{
    a.end == at && a.len == len
}

// What the external peer of the end at that place announces for the length.
fn announced(env: &Environment, at: u32, len: u8) -> Option<&Announcement>
    ensures { option_copied result ≡ find (λ a. (a.end == at) && (a.len == len)) env.now.announced }
{
    env.announced.as_slice().iter().find(|a| is_of(a, at, len))
}

// The message of an announcement.
fn announced_message(alloc: Global, peer: Addr, a: &Announcement) -> Result<BgpMsg, AllocError>
    ensures { IfOk result (λ msg. msg ≡ exports.announced_message peer a.now) }
{
    let path = copy_list(alloc, &a.path)?;
    let communities = copy_list(alloc, &a.communities)?;
    Ok(BgpMsg {
        local_pref: None,
        path,
        origin: a.origin,
        med: Some(a.med),
        communities,
        next_hop: peer,
        originator: None,
        clusters: List::new(alloc),
    })
}

// The message that the external peer at that address sends.
fn peer_message(
    alloc: Global,
    env: &Environment,
    at: u32,
    len: u8,
    peer: Addr,
) -> Result<Option<BgpMsg>, AllocError>
    ensures { IfOk result (λ msg. msg ≡ option_map (exports.announced_message peer)
        (find (λ a. (a.end == at) && (a.len == len)) env.now.announced)) }
{
    match announced(env, at, len) {
        None => Ok(None),
        Some(a) => Ok(Some(announced_message(alloc, peer, a)?)),
    }
}

/// The message that arrives from the external peer of the end at that place: what it announces for the prefix's length.
/// None where it announces nothing, and where the end has no neighbour line.
pub fn from_outside(
    alloc: Global,
    net: &Net,
    env: &Environment,
    p: &Prefix,
    at: u32,
    end: &SessionEnd,
) -> Result<Option<BgpMsg>, AllocError>
    ensures { IfOk result (λ msg. msg
        ≡ option_and_then (λ neighbour. option_map (exports.announced_message neighbour.addr)
        (find (λ a. (a.end == at) && (a.len == p.now.len)) env.now.announced)) (sessions.neighbour_of net.now.files end.now)) }
{
    match neighbour_of(net.routers(), end) {
        None => Ok(None),
        Some(neighbour) => peer_message(alloc, env, at, p.len, neighbour.addr),
    }
}
