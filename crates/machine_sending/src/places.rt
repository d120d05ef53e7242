//! Channels by their places: which are up, from whom they come, and what their far sides send now.

ghost use Rattle.std.specs.Prelude.{◌≡◌, IfOk};
ghost use Rattle.machine_laws.specs.Sending as sending;
ghost use Rattle.route_candidates.specs.Underlays.{IsUnderlay};

use arriving_messages::{arriving, far_record};
use mw_text::{Addr, prefix_of};
use net_model::{Far, Net};
use net_parts::ends::is_outside;
use route_candidates::{Underlay, is_adjacency_up, is_session_up};
use route_record::{BgpMsg, Environment, Failures, OspfRec, Tables};
use std::alloc::{AllocError, Global};

/// Whether the session of the end at that place is up. False where there is no such end.
#[tactic(auto, unfolding(machine_laws::specs::Sending::session_up_at))]
pub fn session_up_at(net: &Net, failures: &Failures, underlay: &Underlay, at: u32) -> bool
    requires underlay { IsUnderlay net.now.files failures.now underlay.now }
    ensures { result ≡ sending.session_up_at net.now.files failures.now at }
{
    match net.ends().get(at as usize) {
        None => false,
        Some(end) => is_session_up(net, failures, underlay, at, end),
    }
}

/// The message that the far side of the end at that place sends now for a length. None where there is none.
#[tactic(auto, unfolding(machine_laws::specs::Sending::arriving_at))]
pub fn arriving_at(
    alloc: Global,
    net: &Net,
    d: Addr,
    env: &Environment,
    tables: &Tables,
    at: u32,
    len: u8,
) -> Result<Option<BgpMsg>, AllocError>
    ensures { IfOk result (λ msg. msg ≡ sending.arriving_at net.now.files d env.now tables.now at len) }
{
    match net.ends().get(at as usize) {
        None => Ok(None),
        Some(end) => arriving(alloc, net, env, tables, &prefix_of(d, len), at, end),
    }
}

// Whether that router is at the far side.
fn is_at(net: &Net, router: u32, far: Far) -> bool
    ensures { result ≡ sending.is_at net.now.files router far }
{
    match far {
        Far::Outside => false,
        Far::Inside(far_at) => match net.ends().get(far_at as usize) {
            None => false,
            Some(far) => far.router == router,
        },
    }
}

/// Whether the end at that place receives from the router.
#[tactic(auto, unfolding(machine_laws::specs::Sending::comes_from))]
pub fn comes_from(net: &Net, router: u32, at: u32) -> bool
    ensures { result ≡ sending.comes_from net.now.files router at }
{
    match net.ends().get(at as usize) {
        None => false,
        Some(end) => is_at(net, router, end.far),
    }
}

/// Whether the end at that place is towards an external peer. False where there is no such end.
#[tactic(auto, unfolding(machine_laws::specs::Sending::is_outside_at))]
pub fn is_outside_at(net: &Net, at: u32) -> bool
    ensures { result ≡ sending.is_outside_at net.now.files at }
{
    match net.ends().get(at as usize) {
        None => false,
        Some(end) => is_outside(end),
    }
}

/// Whether the adjacency at that place is up. False where there is none.
#[tactic(auto, unfolding(machine_laws::specs::Sending::adjacency_up_at))]
pub fn adjacency_up_at(net: &Net, failures: &Failures, underlay: &Underlay, at: usize) -> bool
    requires underlay { IsUnderlay net.now.files failures.now underlay.now }
    ensures { result ≡ sending.adjacency_up_at net.now.files failures.now at }
{
    match net.adjacencies().get(at) {
        None => false,
        Some(a) => is_adjacency_up(net, failures, underlay, at, a),
    }
}

/// The record that the far side of the adjacency at that place sends now for a length: the one that it holds.
#[tactic(auto, unfolding(machine_laws::specs::Sending::offered_at))]
pub fn offered_at(net: &Net, d: Addr, tables: &Tables, at: usize, len: u8) -> Option<OspfRec>
    ensures { result ≡ sending.offered_at net.now.files d tables.now at len }
{
    match net.adjacencies().get(at) {
        None => None,
        Some(a) => far_record(tables, &prefix_of(d, len), a),
    }
}

/// Whether the adjacency at that place receives from the router.
#[tactic(auto, unfolding(machine_laws::specs::Sending::offers_from))]
pub fn offers_from(net: &Net, router: u32, at: usize) -> bool
    ensures { result ≡ sending.offers_from net.now.files router at }
{
    match net.adjacencies().get(at) {
        None => false,
        Some(a) => a.to.router == router,
    }
}
