//! Which decisions would change a slot.

ghost use Rattle.std.specs.Prelude.{◌≡◌, ◌<◌, ◌*◌, IfOk, IfSome, Some, length, not, position, slice_get};
ghost use Rattle.std.specs.List.{range_with_len};
ghost use Rattle.machine_decisions.specs.Touched.{AreKnown};
ghost use Rattle.machine_laws.specs.Deciding as deciding;
ghost use Rattle.machine_laws.specs.Quiet as quiet;
ghost use Rattle.route_candidates.specs.Underlays.{IsUnderlay};
ghost use Rattle.same_routes.specs.Slots as slots;

use crate::deciding::decided;
use crate::decision::Decision;
use machine_laws::State;
use mw_text::{Addr, prefix_of};
use net_model::Net;
use route_candidates::Underlay;
use route_record::LENGTHS;
use same_routes::same_slot;
use std::alloc::{AllocError, Global};

// Whether a decision of the router would change its slot.
fn would_change(alloc: Global, decision: &Decision<'_>) -> Result<bool, AllocError>
    requires underlay { IsUnderlay decision.now.net.now.files decision.now.state.now.failures decision.now.underlay.now }
    requires file { slice_get decision.now.net.now.files decision.now.router ≡ Some decision.now.file.now }
    ensures { IfOk result (λ would. would ≡ not (slots.same_slot
        (deciding.decided decision.now.net.now.files decision.now.state.now decision.now.router decision.now.file.now
        decision.now.p.now decision.now.slot.now) decision.now.slot.now)) }
{
    let new = decided(
        alloc,
        decision.net,
        decision.state,
        decision.underlay,
        decision.router,
        decision.file,
        decision.p,
        decision.slot,
    )?;
    Ok(!same_slot(&new, decision.slot))
}

/// Whether a decision of the router for that length would change its slot. False where there is no such router or slot.
#[tactic(auto, unfolding(machine_laws::specs::Quiet::is_unsettled))]
pub fn is_unsettled(
    alloc: Global,
    net: &Net,
    d: Addr,
    state: &State,
    underlay: &Underlay,
    router: u32,
    len: u8,
) -> Result<bool, AllocError>
    requires underlay { IsUnderlay net.now.files state.now.failures underlay.now }
    ensures { IfOk result (λ would. would ≡ quiet.is_unsettled net.now.files d state.now router len) }
{
    let Some(file) = net.routers().get(router as usize) else {
        return Ok(false);
    };
    let Some(slot) = state.tables.slot(router, len) else {
        return Ok(false);
    };
    let decision = Decision {
        net,
        state,
        underlay,
        router,
        file,
        p: &prefix_of(d, len),
        slot,
    };
    would_change(alloc, &decision)
}

/// The same at a place of the tables.
pub fn is_unsettled_at(
    alloc: Global,
    net: &Net,
    d: Addr,
    state: &State,
    underlay: &Underlay,
    place: usize,
) -> Result<bool, AllocError>
    requires underlay { IsUnderlay net.now.files state.now.failures underlay.now }
    requires within { place < LENGTHS * length net.now.files }
    ensures { IfOk result (λ would. would ≡ quiet.is_unsettled_at net.now.files d state.now place) }
{
    let _routers = net.routers();
    let router = (place / LENGTHS) as u32;
    is_unsettled(
        alloc,
        net,
        d,
        state,
        underlay,
        router,
        (place % LENGTHS) as u8,
    )
}

// The same, by what is known of the place, if something is.
fn would_at(
    alloc: Global,
    net: &Net,
    d: Addr,
    state: &State,
    underlay: &Underlay,
    known: &[Option<bool>],
    place: usize,
) -> Result<bool, AllocError>
    requires underlay { IsUnderlay net.now.files state.now.failures underlay.now }
    requires known { AreKnown net.now.files d state.now known.now }
    requires within { place < LENGTHS * length net.now.files }
    ensures { IfOk result (λ would. would ≡ quiet.is_unsettled_at net.now.files d state.now place) }
{
    if let Some(Some(would)) = known.get(place) {
        return Ok(*would);
    }
    is_unsettled_at(alloc, net, d, state, underlay, place)
}

/// The first place of the tables, by router and then by length, at which a decision would change the slot. None exactly
/// where no decision would change one. A decision is made where nothing is known of it.
#[tactic(auto, using(crate::proofs::Places::passes_on, crate::proofs::Places::is_first, crate::proofs::Places::is_none))]
pub fn first_unsettled(
    alloc: Global,
    net: &Net,
    d: Addr,
    state: &State,
    underlay: &Underlay,
    known: &[Option<bool>],
) -> Result<Option<usize>, AllocError>
    requires underlay { IsUnderlay net.now.files state.now.failures underlay.now }
    requires known { AreKnown net.now.files d state.now known.now }
    requires size { length state.now.tables.slots ≡ LENGTHS * length net.now.files }
    ensures value { IfOk result (λ at. at ≡ position (quiet.is_unsettled_at net.now.files d state.now)
        (range_with_len 0 (length state.now.tables.slots))) }
    ensures within { IfOk result (λ at. IfSome at (λ place. place < length state.now.tables.slots)) }
{
    for place in 0..state.tables.slots.as_slice().len() {
        if would_at(alloc, net, d, state, underlay, known, place)? {
            return Ok(Some(place));
        }
    }
    Ok(None)
}
