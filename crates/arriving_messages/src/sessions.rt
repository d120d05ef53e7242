//! What arrives at a router over its BGP sessions: announcements of external peers, and what far routers export.

ghost use Rattle.std.specs.Prelude.{◌≡◌, ◌<◌, IfOk, Some, length, option_and_then, slice_get};
ghost use Rattle.std.specs.Option.{option_copied};
ghost use Rattle.net_parts.specs.Decisions as decisions;
ghost use Rattle.net_parts.specs.Exports as exports;
ghost use Rattle.net_parts.specs.Sessions as sessions;
ghost use Rattle.route_record.specs.Places.{slot_at};

use mw_text::Prefix;
use net_model::{Far, Net, SessionEnd};
use proto_bgp::export;
use route_candidates::from_outside;
use route_record::{BgpMsg, BgpRec, Environment, Tables};
use std::alloc::{AllocError, Global};

// The BGP route that a router holds.
fn held_at(tables: &Tables, router: u32, len: u8) -> Option<&BgpRec>
    ensures { option_copied result ≡ option_and_then (λ slot. slot.bgp) (slot_at tables.now router len) }
{
    match tables.slot(router, len) {
        None => None,
        Some(slot) => slot.bgp.as_ref(),
    }
}

// What the router of the far end, at that place, exports of the route that it holds.
fn far_message(
    alloc: Global,
    net: &Net,
    tables: &Tables,
    p: &Prefix,
    far_at: u32,
    far: &SessionEnd,
) -> Result<Option<BgpMsg>, AllocError>
    requires is { slice_get (sessions.ends_of net.now.files) far_at ≡ Some far.now }
    requires within { far_at < length (sessions.ends_of net.now.files) }
    ensures { IfOk result (λ msg. msg ≡ option_and_then (exports.exported net.now.files far.now p.now)
        (option_and_then (λ slot. slot.bgp) (slot_at tables.now far.now.router p.now.len))) }
{
    match held_at(tables, far.router, p.len) {
        None => Ok(None),
        Some(held) => export(alloc, net, far_at, p, held),
    }
}

// The message of the far router.
fn from_inside(
    alloc: Global,
    net: &Net,
    tables: &Tables,
    p: &Prefix,
    far_at: u32,
) -> Result<Option<BgpMsg>, AllocError>
    ensures { IfOk result (λ msg. msg ≡ option_and_then (λ far. option_and_then (exports.exported net.now.files far p.now)
        (option_and_then (λ slot. slot.bgp) (slot_at tables.now far.router p.now.len)))
        (slice_get (sessions.ends_of net.now.files) far_at)) }
{
    match net.ends().get(far_at as usize) {
        None => Ok(None),
        Some(far) => far_message(alloc, net, tables, p, far_at, far),
    }
}

/// The message that arrives over the session of the end at that place: the announcement of the external peer for the
/// prefix's length, or what the far router exports of the route that it holds. None where there is none.
#[tactic(auto, unfolding(net_parts::specs::Decisions::arriving))]
pub fn arriving(
    alloc: Global,
    net: &Net,
    env: &Environment,
    tables: &Tables,
    p: &Prefix,
    at: u32,
    end: &SessionEnd,
) -> Result<Option<BgpMsg>, AllocError>
    ensures { IfOk result (λ msg. msg ≡ decisions.arriving net.now.files env.now tables.now p.now at end.now) }
{
    match end.far {
        Far::Outside => from_outside(alloc, net, env, p, at, end),
        Far::Inside(far_at) => from_inside(alloc, net, tables, p, far_at),
    }
}
