//! What becomes of all channels where links fail or work again: those that come up are greeted with what their far sides
//! send now, those that stay up keep what they have, and the others lose it.

ghost use Rattle.std.specs.Prelude.{◌≡◌, All, IfOk, length, map};
ghost use Rattle.std.specs.List.{range_with_len};
ghost use Rattle.machine_channels.specs.Changes as changes;
ghost use Rattle.machine_channels.specs.Changes.{IsSmallChange};
ghost use Rattle.machine_laws.specs.Channels as channels;
ghost use Rattle.machine_laws.specs.Sending as places;
ghost use Rattle.net_parts.specs.Ospf.{adjacencies};
ghost use Rattle.net_parts.specs.Sessions.{ends_of};
ghost use Rattle.route_candidates.specs.Underlays.{IsUnderlay};

use crate::places::{adjacency_up_at, arriving_at, offered_at, session_up_at};
use machine_channels::{Change, add_greeting, nothing_received, silent};
use machine_laws::{Channel, Mail, State};
use mw_text::{Addr, List};
use net_model::Net;
use route_candidates::Underlay;
use route_record::{BgpMsg, Failures, LENGTHS, OspfRec};
use std::alloc::{AllocError, Global};
use std::collections::LinkedList;

// What the far side of the end at that place sends now, for each length for which there is something.
#[tactic(auto, using(machine_channels::proofs::Made::greeted_more, machine_channels::proofs::Made::greeted_all))]
fn session_greetings(
    alloc: Global,
    net: &Net,
    d: Addr,
    state: &State,
    at: u32,
) -> Result<LinkedList<Mail<BgpMsg>>, AllocError>
    ensures { IfOk result (λ mail. mail ≡ channels.greetings LENGTHS 0
        (places.arriving_at net.now.files d state.now.environment state.now.tables at)) }
{
    let mut mail = LinkedList::new(alloc);
    for len in 0..LENGTHS {
        let what = arriving_at(
            alloc,
            net,
            d,
            &state.environment,
            &state.tables,
            at,
            len as u8,
        )?;
        add_greeting(&mut mail, len as u8, what)?;
    }
    Ok(mail)
}

// The same of the adjacency at that place.
#[tactic(auto, using(machine_channels::proofs::Made::greeted_more, machine_channels::proofs::Made::greeted_all))]
fn adjacency_greetings(
    alloc: Global,
    net: &Net,
    d: Addr,
    state: &State,
    at: usize,
) -> Result<LinkedList<Mail<OspfRec>>, AllocError>
    ensures { IfOk result (λ mail. mail ≡ channels.greetings LENGTHS 0
        (places.offered_at net.now.files d state.now.tables at)) }
{
    let mut mail = LinkedList::new(alloc);
    for len in 0..LENGTHS {
        let what = offered_at(net, d, &state.tables, at, len as u8);
        add_greeting(&mut mail, len as u8, what)?;
    }
    Ok(mail)
}

// A channel that comes up.
fn fresh_session(
    alloc: Global,
    net: &Net,
    d: Addr,
    state: &State,
    at: u32,
) -> Result<Channel<BgpMsg>, AllocError>
    ensures { IfOk result (λ made. made
        ≡ channels.fresh (places.arriving_at net.now.files d state.now.environment state.now.tables at)) }
{
    let received = nothing_received(alloc)?;
    let mail = session_greetings(alloc, net, d, state, at)?;
    Ok(Channel { received, mail })
}

fn fresh_adjacency(
    alloc: Global,
    net: &Net,
    d: Addr,
    state: &State,
    at: usize,
) -> Result<Channel<OspfRec>, AllocError>
    ensures { IfOk result (λ made. made ≡ channels.fresh (places.offered_at net.now.files d state.now.tables at)) }
{
    let received = nothing_received(alloc)?;
    let mail = adjacency_greetings(alloc, net, d, state, at)?;
    Ok(Channel { received, mail })
}

// What becomes of the channel of the end at that place.
fn session_renewal(
    alloc: Global,
    net: &Net,
    d: Addr,
    state: &State,
    underlay: &Underlay,
    failures: &Failures,
    after: &Underlay,
    at: u32,
) -> Result<Change<BgpMsg>, AllocError>
    requires underlay { IsUnderlay net.now.files state.now.failures underlay.now }
    requires after { IsUnderlay net.now.files failures.now after.now }
    ensures value { IfOk result (λ change. change
        ≡ changes.renewal (places.session_up_at net.now.files state.now.failures at)
        (places.session_up_at net.now.files failures.now at)
        (places.arriving_at net.now.files d state.now.environment state.now.tables at)) }
    ensures small { IfOk result IsSmallChange }
{
    if !session_up_at(net, failures, after, at) {
        return Ok(Change::Replace(silent(alloc)?));
    }
    if session_up_at(net, &state.failures, underlay, at) {
        return Ok(Change::Keep);
    }
    Ok(Change::Replace(fresh_session(alloc, net, d, state, at)?))
}

/// What becomes of each session where other links have failed.
pub fn session_renewals(
    alloc: Global,
    net: &Net,
    d: Addr,
    state: &State,
    underlay: &Underlay,
    failures: &Failures,
    after: &Underlay,
) -> Result<List<Change<BgpMsg>>, AllocError>
    requires underlay { IsUnderlay net.now.files state.now.failures underlay.now }
    requires after { IsUnderlay net.now.files failures.now after.now }
    ensures value { IfOk result (λ made. made
        ≡ map (λ at. changes.renewal (places.session_up_at net.now.files state.now.failures at)
        (places.session_up_at net.now.files failures.now at)
        (places.arriving_at net.now.files d state.now.environment state.now.tables at))
        (range_with_len 0 (length (ends_of net.now.files)))) }
    ensures small { IfOk result (All IsSmallChange) }
{
    let mut made = List::new(alloc);
    for at in 0..net.ends().len() {
        let change = session_renewal(alloc, net, d, state, underlay, failures, after, at as u32)?;
        made.items.push(change)?;
    }
    Ok(made)
}

// What becomes of the channel of the adjacency at that place.
fn adjacency_renewal(
    alloc: Global,
    net: &Net,
    d: Addr,
    state: &State,
    underlay: &Underlay,
    failures: &Failures,
    after: &Underlay,
    at: usize,
) -> Result<Change<OspfRec>, AllocError>
    requires underlay { IsUnderlay net.now.files state.now.failures underlay.now }
    requires after { IsUnderlay net.now.files failures.now after.now }
    ensures value { IfOk result (λ change. change
        ≡ changes.renewal (places.adjacency_up_at net.now.files state.now.failures at)
        (places.adjacency_up_at net.now.files failures.now at)
        (places.offered_at net.now.files d state.now.tables at)) }
    ensures small { IfOk result IsSmallChange }
{
    if !adjacency_up_at(net, failures, after, at) {
        return Ok(Change::Replace(silent(alloc)?));
    }
    if adjacency_up_at(net, &state.failures, underlay, at) {
        return Ok(Change::Keep);
    }
    Ok(Change::Replace(fresh_adjacency(alloc, net, d, state, at)?))
}

/// What becomes of each adjacency where other links have failed.
pub fn adjacency_renewals(
    alloc: Global,
    net: &Net,
    d: Addr,
    state: &State,
    underlay: &Underlay,
    failures: &Failures,
    after: &Underlay,
) -> Result<List<Change<OspfRec>>, AllocError>
    requires underlay { IsUnderlay net.now.files state.now.failures underlay.now }
    requires after { IsUnderlay net.now.files failures.now after.now }
    ensures value { IfOk result (λ made. made
        ≡ map (λ at. changes.renewal (places.adjacency_up_at net.now.files state.now.failures at)
        (places.adjacency_up_at net.now.files failures.now at)
        (places.offered_at net.now.files d state.now.tables at))
        (range_with_len 0 (length (adjacencies net.now.files)))) }
    ensures small { IfOk result (All IsSmallChange) }
{
    let mut made = List::new(alloc);
    for at in 0..net.adjacencies().len() {
        let change = adjacency_renewal(alloc, net, d, state, underlay, failures, after, at)?;
        made.items.push(change)?;
    }
    Ok(made)
}
