//! What is sent over all channels about a slot that a router has written.

ghost use Rattle.std.specs.Prelude.{◌≡◌, All, IfOk, length, map};
ghost use Rattle.std.specs.List.{range_with_len};
ghost use Rattle.machine_channels.specs.Changes as changes;
ghost use Rattle.machine_channels.specs.Changes.{IsSmallChange};
ghost use Rattle.machine_laws.specs.Sending as places;
ghost use Rattle.net_parts.specs.Ospf.{adjacencies};
ghost use Rattle.net_parts.specs.Sessions.{ends_of};
ghost use Rattle.route_candidates.specs.Underlays.{IsUnderlay};

use crate::places::{
    adjacency_up_at, arriving_at, comes_from, offered_at, offers_from, session_up_at,
};
use machine_channels::{Change, one};
use machine_laws::State;
use mw_text::{Addr, List};
use net_model::Net;
use route_candidates::Underlay;
use route_record::{BgpMsg, OspfRec};
use std::alloc::{AllocError, Global};

// What the router sends over the session of the end at that place.
fn session_change(
    alloc: Global,
    net: &Net,
    d: Addr,
    state: &State,
    underlay: &Underlay,
    router: u32,
    len: u8,
    at: u32,
) -> Result<Change<BgpMsg>, AllocError>
    requires underlay { IsUnderlay net.now.files state.now.failures underlay.now }
    ensures value { IfOk result (λ change. change ≡ changes.sending (places.comes_from net.now.files router)
        (places.session_up_at net.now.files state.now.failures)
        (places.arriving_at net.now.files d state.now.environment state.now.tables) len at) }
    ensures small { IfOk result IsSmallChange }
{
    if !comes_from(net, router, at) || !session_up_at(net, &state.failures, underlay, at) {
        return Ok(Change::Keep);
    }
    let what = arriving_at(alloc, net, d, &state.environment, &state.tables, at, len)?;
    Ok(Change::Add(one(alloc, len, what)?))
}

/// What the router sends over each session about that length.
pub fn session_changes(
    alloc: Global,
    net: &Net,
    d: Addr,
    state: &State,
    underlay: &Underlay,
    router: u32,
    len: u8,
) -> Result<List<Change<BgpMsg>>, AllocError>
    requires underlay { IsUnderlay net.now.files state.now.failures underlay.now }
    ensures value { IfOk result (λ made. made ≡ map (changes.sending (places.comes_from net.now.files router)
        (places.session_up_at net.now.files state.now.failures)
        (places.arriving_at net.now.files d state.now.environment state.now.tables) len)
        (range_with_len 0 (length (ends_of net.now.files)))) }
    ensures small { IfOk result (All IsSmallChange) }
{
    let mut made = List::new(alloc);
    for at in 0..net.ends().len() {
        let change = session_change(alloc, net, d, state, underlay, router, len, at as u32)?;
        made.items.push(change)?;
    }
    Ok(made)
}

// What the router sends over the adjacency at that place.
fn adjacency_change(
    alloc: Global,
    net: &Net,
    d: Addr,
    state: &State,
    underlay: &Underlay,
    router: u32,
    len: u8,
    at: usize,
) -> Result<Change<OspfRec>, AllocError>
    requires underlay { IsUnderlay net.now.files state.now.failures underlay.now }
    ensures value { IfOk result (λ change. change ≡ changes.sending (places.offers_from net.now.files router)
        (places.adjacency_up_at net.now.files state.now.failures)
        (places.offered_at net.now.files d state.now.tables) len at) }
    ensures small { IfOk result IsSmallChange }
{
    if !offers_from(net, router, at) || !adjacency_up_at(net, &state.failures, underlay, at) {
        return Ok(Change::Keep);
    }
    let what = offered_at(net, d, &state.tables, at, len);
    Ok(Change::Add(one(alloc, len, what)?))
}

/// What the router sends over each adjacency about that length.
pub fn adjacency_changes(
    alloc: Global,
    net: &Net,
    d: Addr,
    state: &State,
    underlay: &Underlay,
    router: u32,
    len: u8,
) -> Result<List<Change<OspfRec>>, AllocError>
    requires underlay { IsUnderlay net.now.files state.now.failures underlay.now }
    ensures value { IfOk result (λ made. made ≡ map (changes.sending (places.offers_from net.now.files router)
        (places.adjacency_up_at net.now.files state.now.failures)
        (places.offered_at net.now.files d state.now.tables) len)
        (range_with_len 0 (length (adjacencies net.now.files)))) }
    ensures small { IfOk result (All IsSmallChange) }
{
    let mut made = List::new(alloc);
    for at in 0..net.adjacencies().len() {
        let change = adjacency_change(alloc, net, d, state, underlay, router, len, at)?;
        made.items.push(change)?;
    }
    Ok(made)
}
