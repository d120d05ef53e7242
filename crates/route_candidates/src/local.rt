//! The local BGP routes of a router, as routes that it may hold.

ghost use Rattle.std.specs.Prelude.{◌≡◌, ◌<◌, IfOk, false, length, map};
ghost use Rattle.net_parts.specs.Decisions as decisions;
ghost use Rattle.proto_bgp.specs.Steps.{seen};
ghost use Rattle.proto_rib.specs.Taken.{local_routes_at};

use mw_text::{Addr, List, Prefix};
use net_model::Net;
use proto_bgp::Candidate;
use proto_rib::originate;
use route_record::{BgpRec, Slot};
use std::alloc::{AllocError, Global};

// The candidate of a local route of the router with that identifier.
fn local_candidate(own: Addr, rec: BgpRec) -> Candidate
    ensures { seen result ≡ record { rec = rec; external = false; cost = 0; peer_id = own } }
{
    Candidate {
        rec,
        external: false,
        cost: 0,
        peer_id: own,
    }
}

// Those of some local routes.
fn of_routes(alloc: Global, own: Addr, routes: List<BgpRec>) -> Result<List<Candidate>, AllocError>
    ensures { IfOk result (λ made. map seen made
        ≡ map (λ rec. record { rec = rec; external = false; cost = 0; peer_id = own }) routes) }
{
    let mut made = List::new(alloc);
    for rec in routes.items {
        made.items.push(local_candidate(own, rec))?;
    }
    Ok(made)
}

/// The candidates of the local routes that the router has for the prefix while it holds this slot (RFC 4271, section
/// 9.4).
pub fn local_candidates(
    alloc: Global,
    net: &Net,
    router: u32,
    p: &Prefix,
    slot: &Slot,
) -> Result<List<Candidate>, AllocError>
    requires within { router < length net.now.files }
    ensures { IfOk result (λ made. map seen made ≡ map (decisions.local_candidate net.now.files router)
        (local_routes_at net.now.files router p.now slot.now)) }
{
    let routes = originate(alloc, net, router, p, slot)?;
    of_routes(alloc, net.bgp_id(router), routes)
}
