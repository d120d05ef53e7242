//! What the links that are up give, whatever routes are held.

ghost use Rattle.std.specs.Prelude.{◌≡◌, IfOk, Some, slice_get};
ghost use Rattle.net_parts.specs.Ospf as ospf;
ghost use Rattle.net_parts.specs.Resolution.{session_up};
ghost use Rattle.net_parts.specs.Sessions.{ends_of};
ghost use Rattle.route_candidates.specs.Underlays.{IsUnderlay};

use mw_text::List;
use net_model::{Adjacency, Net, SessionEnd};
use proto_ospf::{Reached, adjacencies_up, all_distances, sessions_up};
use route_record::Failures;
use std::alloc::{AllocError, Global};

/// Which adjacencies are up, by their places, all interior distances, and which sessions are up, by their ends.
#[derive(Drop)]
pub struct Underlay {
    pub adjacencies: List<bool>,
    pub distances: List<Reached>,
    pub sessions: List<bool>,
}

/// That of a network while these links have failed.
#[tactic(auto, using(crate::proofs::FewEnds::few_ends))]
pub fn underlay_of(alloc: Global, net: &Net, failures: &Failures) -> Result<Underlay, AllocError>
    ensures { IfOk result (IsUnderlay net.now.files failures.now) }
{
    let _routers = net.routers();
    let adjacencies = adjacencies_up(alloc, net, failures)?;
    let distances = all_distances(alloc, net, failures)?;
    let sessions = sessions_up(alloc, net, failures, distances.as_slice())?;
    Ok(Underlay {
        adjacencies,
        distances,
        sessions,
    })
}

/// Whether the session of the end at that place is up (RFC 4271, section 8.2).
pub fn is_session_up(
    net: &Net,
    failures: &Failures,
    underlay: &Underlay,
    at: u32,
    end: &SessionEnd,
) -> bool
    requires underlay { IsUnderlay net.now.files failures.now underlay.now }
    requires is { slice_get (ends_of net.now.files) at ≡ Some end.now }
    ensures { result ≡ session_up net.now.files failures.now end.now }
{
    let _files = net.routers();
    let _failed = failures.links.as_slice();
    match underlay.sessions.as_slice().get(at as usize) {
        None => false,
        Some(up) => *up,
    }
}

/// Whether the adjacency at that place is up: both its interfaces are (RFC 2328, section 9).
pub fn is_adjacency_up(
    net: &Net,
    failures: &Failures,
    underlay: &Underlay,
    at: usize,
    a: &Adjacency,
) -> bool
    requires underlay { IsUnderlay net.now.files failures.now underlay.now }
    requires is { slice_get (ospf.adjacencies net.now.files) at ≡ Some a.now }
    ensures { result ≡ ospf.is_adjacency_up net.now.files failures.now a.now }
{
    let _files = net.routers();
    let _failed = failures.links.as_slice();
    match underlay.adjacencies.as_slice().get(at) {
        None => false,
        Some(up) => *up,
    }
}
