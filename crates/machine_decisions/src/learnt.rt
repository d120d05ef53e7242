//! The BGP routes that a router may hold by what it last received over its sessions.

ghost use Rattle.std.specs.Prelude.{◌≡◌, ◌==◌, ◌<◌, ◌++◌, IfOk, OnOk, Some, filter, length, map, option_map, slice_get};
ghost use Rattle.std.specs.List.{enumerate_from, filter_map};
ghost use Rattle.machine_decisions.specs.Heard.{heard_candidate};
ghost use Rattle.machine_laws.specs.Deciding as deciding;
ghost use Rattle.net_parts.specs.Sessions.{ends_of};
ghost use Rattle.proto_bgp.specs.Steps.{seen};
ghost use Rattle.route_candidates.specs.Underlays.{IsUnderlay};

use crate::decision::Decision;
use ios_ast::Bgp;
use mw_text::List;
use net_model::SessionEnd;
use proto_bgp::Candidate;
use route_candidates::{Heard, learnt_candidate, local_candidates};
use std::alloc::{AllocError, Global};

// What was last received over the session of the end at that place, as a candidate.
#[tactic(auto, using(crate::proofs::Received::nothing_learnt))]
fn heard_candidate(
    alloc: Global,
    decision: &Decision<'_>,
    at: u32,
    end: &SessionEnd,
) -> Result<Option<Candidate>, AllocError>
    requires underlay { IsUnderlay decision.now.net.now.files decision.now.state.now.failures
        decision.now.underlay.now }
    requires is { slice_get (ends_of decision.now.net.now.files) at ≡ Some end.now }
    requires within { at < length (ends_of decision.now.net.now.files) }
    ensures { IfOk result (λ made. option_map seen made
        ≡ heard_candidate decision.now.net.now.files decision.now.state.now decision.now.p.now (at, end.now)) }
{
    let state = decision.state;
    let Some(channel) = state.sessions.as_slice().get(at as usize) else {
        return Ok(None);
    };
    let Some(received) = channel.received.as_slice().get(decision.p.len as usize) else {
        return Ok(None);
    };
    let ids = state.environment.ids.as_slice();
    let heard = Heard { at, end, received };
    learnt_candidate(
        alloc,
        decision.net,
        &state.failures,
        ids,
        decision.underlay,
        decision.p,
        &heard,
    )
}

// Puts at the end what the router has learnt for the prefix, by session.
fn add_heard(
    alloc: Global,
    out: &mut List<Candidate>,
    decision: &Decision<'_>,
) -> Result<(), AllocError>
    requires underlay { IsUnderlay decision.now.net.now.files decision.now.state.now.failures
        decision.now.underlay.now }
    ensures { OnOk result (map seen out.new ≡ map seen out.old
        ++ filter_map (heard_candidate decision.now.net.now.files decision.now.state.now decision.now.p.now)
        (filter (λ e. e.1.router == decision.now.router) (enumerate_from 0 (ends_of decision.now.net.now.files)))) }
{
    for (at, end) in decision.net.ends().iter().enumerate() {
        if end.router == decision.router {
            let at = at as u32;
            if let Some(c) = heard_candidate(alloc, decision, at, end)? {
                out.items.push(c)?;
            }
        }
    }
    Ok(())
}

/// All BGP routes that the router may hold for the prefix: its local ones while it holds this slot, and then by session
/// what it last received.
#[tactic(auto, using(crate::proofs::Received::local_is, std::proofs::lemmas::Option::slice_get_within), unfolding(net_parts::specs::Decisions::candidates_from))]
pub(crate) fn candidates_heard(
    alloc: Global,
    decision: &Decision<'_>,
    process: &Bgp,
) -> Result<List<Candidate>, AllocError>
    requires underlay { IsUnderlay decision.now.net.now.files decision.now.state.now.failures
        decision.now.underlay.now }
    requires file { slice_get decision.now.net.now.files decision.now.router ≡ Some decision.now.file.now }
    requires process { decision.now.file.now.bgp ≡ Some process.now }
    ensures { IfOk result (λ made. map seen made
        ≡ deciding.candidates_heard decision.now.net.now.files decision.now.state.now decision.now.router
        decision.now.file.now decision.now.p.now decision.now.slot.now process.now) }
{
    let mut made = local_candidates(
        alloc,
        decision.net,
        decision.router,
        decision.p,
        decision.slot,
    )?;
    add_heard(alloc, &mut made, decision)?;
    Ok(made)
}
