//! Plans for all channels, and their carrying out, which takes no memory.

ghost use Rattle.std.specs.Prelude.{◌≡◌, IfOk};
ghost use Rattle.machine_sending.specs.Plans as plans;
ghost use Rattle.machine_sending.specs.Plans.{HasChannels, IsReady, LeadsTo};
ghost use Rattle.route_candidates.specs.Underlays.{IsUnderlay};

use crate::renewing::{adjacency_renewals, session_renewals};
use crate::sending::{adjacency_changes, session_changes};
use machine_channels::{Change, change_all, have_room};
use machine_laws::{Channel, State};
use mw_text::{Addr, List};
use net_model::Net;
use route_candidates::Underlay;
use route_record::{BgpMsg, Failures, OspfRec};
use std::alloc::{AllocError, Global};

/// What becomes of all sessions and of all adjacencies. None where nothing does.
#[derive(Drop)]
pub struct Plan {
    pub sessions: Option<List<Change<BgpMsg>>>,
    pub adjacencies: Option<List<Change<OspfRec>>>,
}

/// A slot that was written, and which of its routes have changed.
#[derive(Clone, Copy)]
pub struct Written {
    /// The number of the slot's router.
    pub router: u32,
    /// The slot's prefix length.
    pub len: u8,
    /// Whether its BGP route has changed.
    pub bgp: bool,
    /// Whether its OSPF route has.
    pub ospf: bool,
}

fn change_if<M: Drop>(channels: &mut List<Channel<M>>, plan: Option<List<Change<M>>>)
    requires { IsReady channels.old plan }
    ensures { channels.new ≡ plans.changed_if channels.old plan }
{
    match plan {
        None => {}
        Some(changes) => change_all(channels.items.as_mut_slice(), changes),
    }
}

/// Carries out a plan. This takes no memory.
pub fn install(state: &mut State, plan: Plan)
    requires sessions { IsReady state.old.sessions plan.sessions }
    requires adjacencies { IsReady state.old.adjacencies plan.adjacencies }
    ensures { state.new ≡ record state.old {
      sessions = plans.changed_if state.old.sessions plan.sessions;
      adjacencies = plans.changed_if state.old.adjacencies plan.adjacencies;
    } }
{
    change_if(&mut state.sessions, plan.sessions);
    change_if(&mut state.adjacencies, plan.adjacencies);
}

// What the router sends over all sessions about that length, if its route has changed.
fn tell_sessions(
    alloc: Global,
    net: &Net,
    d: Addr,
    state: &State,
    underlay: &Underlay,
    router: u32,
    len: u8,
    changed: bool,
) -> Result<Option<List<Change<BgpMsg>>>, AllocError>
    requires underlay { IsUnderlay net.now.files state.now.failures underlay.now }
    requires channels { HasChannels net.now.files state.now }
    ensures { IfOk result (LeadsTo state.now.sessions
        (plans.sessions_told net.now.files d state.now router len changed)) }
{
    if !changed {
        return Ok(None);
    }
    if !have_room(state.sessions.as_slice()) {
        return Err(AllocError);
    }
    let changes = session_changes(alloc, net, d, state, underlay, router, len)?;
    Ok(Some(changes))
}

// The same of all adjacencies.
fn tell_adjacencies(
    alloc: Global,
    net: &Net,
    d: Addr,
    state: &State,
    underlay: &Underlay,
    router: u32,
    len: u8,
    changed: bool,
) -> Result<Option<List<Change<OspfRec>>>, AllocError>
    requires underlay { IsUnderlay net.now.files state.now.failures underlay.now }
    requires channels { HasChannels net.now.files state.now }
    ensures { IfOk result (LeadsTo state.now.adjacencies
        (plans.adjacencies_told net.now.files d state.now router len changed)) }
{
    if !changed {
        return Ok(None);
    }
    if !have_room(state.adjacencies.as_slice()) {
        return Err(AllocError);
    }
    let changes = adjacency_changes(alloc, net, d, state, underlay, router, len)?;
    Ok(Some(changes))
}

/// What a router sends whose slot was written: over its sessions where its BGP route has changed, and over its adjacencies
/// where its OSPF route has.
pub fn plan_told(
    alloc: Global,
    net: &Net,
    d: Addr,
    state: &State,
    underlay: &Underlay,
    slot: Written,
) -> Result<Plan, AllocError>
    requires underlay { IsUnderlay net.now.files state.now.failures underlay.now }
    requires channels { HasChannels net.now.files state.now }
    ensures sessions { IfOk result (λ plan. LeadsTo state.now.sessions
        (plans.sessions_told net.now.files d state.now slot.router slot.len slot.bgp) plan.sessions) }
    ensures adjacencies { IfOk result (λ plan. LeadsTo state.now.adjacencies
        (plans.adjacencies_told net.now.files d state.now slot.router slot.len slot.ospf) plan.adjacencies) }
{
    let Written {
        router,
        len,
        bgp,
        ospf,
    } = slot;
    let sessions = tell_sessions(alloc, net, d, state, underlay, router, len, bgp)?;
    let adjacencies = tell_adjacencies(alloc, net, d, state, underlay, router, len, ospf)?;
    Ok(Plan {
        sessions,
        adjacencies,
    })
}

// What becomes of all sessions where other links have failed.
fn renew_sessions(
    alloc: Global,
    net: &Net,
    d: Addr,
    state: &State,
    underlay: &Underlay,
    failures: &Failures,
    after: &Underlay,
) -> Result<Option<List<Change<BgpMsg>>>, AllocError>
    requires underlay { IsUnderlay net.now.files state.now.failures underlay.now }
    requires after { IsUnderlay net.now.files failures.now after.now }
    requires channels { HasChannels net.now.files state.now }
    ensures { IfOk result (LeadsTo state.now.sessions
        (plans.sessions_renewed net.now.files d state.now failures.now)) }
{
    if !have_room(state.sessions.as_slice()) {
        return Err(AllocError);
    }
    let changes = session_renewals(alloc, net, d, state, underlay, failures, after)?;
    Ok(Some(changes))
}

// The same of all adjacencies.
fn renew_adjacencies(
    alloc: Global,
    net: &Net,
    d: Addr,
    state: &State,
    underlay: &Underlay,
    failures: &Failures,
    after: &Underlay,
) -> Result<Option<List<Change<OspfRec>>>, AllocError>
    requires underlay { IsUnderlay net.now.files state.now.failures underlay.now }
    requires after { IsUnderlay net.now.files failures.now after.now }
    requires channels { HasChannels net.now.files state.now }
    ensures { IfOk result (LeadsTo state.now.adjacencies
        (plans.adjacencies_renewed net.now.files d state.now failures.now)) }
{
    if !have_room(state.adjacencies.as_slice()) {
        return Err(AllocError);
    }
    let changes = adjacency_renewals(alloc, net, d, state, underlay, failures, after)?;
    Ok(Some(changes))
}

/// What becomes of all channels where these links have failed in the place of those of the state.
pub fn plan_renewed(
    alloc: Global,
    net: &Net,
    d: Addr,
    state: &State,
    underlay: &Underlay,
    failures: &Failures,
    after: &Underlay,
) -> Result<Plan, AllocError>
    requires underlay { IsUnderlay net.now.files state.now.failures underlay.now }
    requires after { IsUnderlay net.now.files failures.now after.now }
    requires channels { HasChannels net.now.files state.now }
    ensures sessions { IfOk result (λ plan. LeadsTo state.now.sessions
        (plans.sessions_renewed net.now.files d state.now failures.now) plan.sessions) }
    ensures adjacencies { IfOk result (λ plan. LeadsTo state.now.adjacencies
        (plans.adjacencies_renewed net.now.files d state.now failures.now) plan.adjacencies) }
{
    let sessions = renew_sessions(alloc, net, d, state, underlay, failures, after)?;
    let adjacencies = renew_adjacencies(alloc, net, d, state, underlay, failures, after)?;
    Ok(Plan {
        sessions,
        adjacencies,
    })
}
