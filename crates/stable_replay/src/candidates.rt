//! The BGP routes that a router may hold by the tables: its local ones, and what it learns of its neighbours' routes.

ghost use Rattle.std.specs.Prelude.{◌≡◌, ◌==◌, ◌<◌, ◌++◌, [], IfOk, OnOk, Some, filter, length, map, option_map};
ghost use Rattle.std.specs.Prelude.{slice_get};
ghost use Rattle.std.specs.List.{enumerate_from, filter_map};
ghost use Rattle.std.specs.Option.{option_map_or};
ghost use Rattle.net_parts.specs.Decisions as decisions;
ghost use Rattle.net_parts.specs.Sessions as sessions;
ghost use Rattle.proto_bgp.specs.Steps.{seen};
ghost use Rattle.proto_rib.specs.Taken.{local_routes_at};
ghost use Rattle.route_record.specs.Places.{slot_at};
ghost use Rattle.route_candidates.specs.Underlays.{IsUnderlay};
ghost use Rattle.stable_replay.specs.Parts as parts;

use crate::routing::Routing;
use arriving_messages::arriving;
use ios_ast::{Bgp, File};
use mw_text::{List, Prefix};
use net_model::{Net, SessionEnd};
use proto_bgp::Candidate;
use route_candidates::{Heard, is_session_up, learnt_candidate, local_candidates};
use route_record::Tables;
use std::alloc::{AllocError, Global};

// The candidates of the local routes of the router, by its own slot.
fn local_by_slot(
    alloc: Global,
    net: &Net,
    tables: &Tables,
    router: u32,
    p: &Prefix,
) -> Result<List<Candidate>, AllocError>
    requires within { router < length net.now.files }
    ensures { IfOk result (λ made. map seen made ≡ map (decisions.local_candidate net.now.files router)
        (option_map_or (local_routes_at net.now.files router p.now) (slot_at tables.now router p.now.len) [])) }
{
    match tables.slot(router, p.len) {
        None => Ok(List::new(alloc)),
        Some(slot) => local_candidates(alloc, net, router, p, slot),
    }
}

// What arrives over the session of the end at that place, as a candidate.
fn arriving_candidate(
    alloc: Global,
    routing: &Routing<'_>,
    p: &Prefix,
    at: u32,
    end: &SessionEnd,
) -> Result<Option<Candidate>, AllocError>
    requires underlay { IsUnderlay routing.now.net.now.files routing.now.failures.now routing.now.underlay.now }
    requires is { slice_get (sessions.ends_of routing.now.net.now.files) at ≡ Some end.now }
    requires within { at < length (sessions.ends_of routing.now.net.now.files) }
    ensures { IfOk result (λ made. option_map seen made
        ≡ parts.arriving_candidate routing.now.net.now.files routing.now.failures.now routing.now.env.now
        routing.now.tables.now p.now (at, end.now)) }
{
    if !is_session_up(routing.net, routing.failures, routing.underlay, at, end) {
        return Ok(None);
    }
    let msg = arriving(alloc, routing.net, routing.env, routing.tables, p, at, end)?;
    let ids = routing.env.ids.as_slice();
    let heard = Heard {
        at,
        end,
        received: &msg,
    };
    learnt_candidate(
        alloc,
        routing.net,
        routing.failures,
        ids,
        routing.underlay,
        p,
        &heard,
    )
}

// Puts at the end what the router learns for the prefix, by session.
fn add_learnt(
    alloc: Global,
    out: &mut List<Candidate>,
    routing: &Routing<'_>,
    router: u32,
    p: &Prefix,
) -> Result<(), AllocError>
    requires underlay { IsUnderlay routing.now.net.now.files routing.now.failures.now routing.now.underlay.now }
    ensures { OnOk result (map seen out.new ≡ map seen out.old
        ++ filter_map (parts.arriving_candidate routing.now.net.now.files routing.now.failures.now routing.now.env.now
        routing.now.tables.now p.now)
        (filter (λ e. e.1.router == router) (enumerate_from 0 (sessions.ends_of routing.now.net.now.files)))) }
{
    for (at, end) in routing.net.ends().iter().enumerate() {
        if end.router == router {
            let at = at as u32;
            if let Some(c) = arriving_candidate(alloc, routing, p, at, end)? {
                out.items.push(c)?;
            }
        }
    }
    Ok(())
}

/// All BGP routes that the router may hold for the prefix, by its own slot and those of its neighbours: its local ones,
/// and then by session what it has learnt.
#[tactic(auto, using(route_candidates::proofs::BgpParts::local_of, std::proofs::lemmas::Option::slice_get_within), unfolding(net_parts::specs::Decisions::candidates, net_parts::specs::Decisions::candidates_from))]
pub fn candidates(
    alloc: Global,
    routing: &Routing<'_>,
    router: u32,
    file: &File,
    process: &Bgp,
    p: &Prefix,
) -> Result<List<Candidate>, AllocError>
    requires underlay { IsUnderlay routing.now.net.now.files routing.now.failures.now routing.now.underlay.now }
    requires file { slice_get routing.now.net.now.files router ≡ Some file.now }
    requires process { file.now.bgp ≡ Some process.now }
    ensures { IfOk result (λ made. map seen made
        ≡ decisions.candidates routing.now.net.now.files routing.now.failures.now routing.now.env.now
        routing.now.tables.now router file.now process.now p.now) }
{
    let mut made = local_by_slot(alloc, routing.net, routing.tables, router, p)?;
    add_learnt(alloc, &mut made, routing, router, p)?;
    Ok(made)
}
