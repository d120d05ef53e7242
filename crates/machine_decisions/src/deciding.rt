//! What a router decides for one prefix.

ghost use Rattle.std.specs.Prelude.{◌≡◌, false, IfOk, Some, slice_get};
ghost use Rattle.std.specs.Option.{option_map_or};
ghost use Rattle.machine_laws.specs.Deciding as deciding;
ghost use Rattle.net_parts.specs.OspfRoutes as routes;
ghost use Rattle.route_candidates.specs.Underlays.{IsUnderlay};

use crate::decision::Decision;
use crate::heard::heard_records;
use crate::kept::kept;
use crate::learnt::candidates_heard;
use ios_ast::{Bgp, File};
use machine_laws::State;
use mw_text::Prefix;
use net_model::Net;
use proto_bgp::survivors;
use proto_rib::best_entry;
use route_candidates::{Underlay, held_from, is_own, origins};
use route_record::{BgpRec, OspfRec, Slot};
use std::alloc::{AllocError, Global};

// The OSPF part.
#[tactic(auto, using(crate::proofs::Received::ospf_is))]
fn decided_ospf(alloc: Global, decision: &Decision<'_>) -> Result<Option<OspfRec>, AllocError>
    requires underlay { IsUnderlay decision.now.net.now.files decision.now.state.now.failures decision.now.underlay.now }
    requires file { slice_get decision.now.net.now.files decision.now.router ≡ Some decision.now.file.now }
    ensures { IfOk result (λ made. made
        ≡ deciding.decided_ospf decision.now.net.now.files decision.now.state.now decision.now.router
        decision.now.file.now decision.now.p.now decision.now.slot.now) }
{
    if decision.file.ospf.is_none() {
        return Ok(None);
    }
    let state = decision.state;
    let own = origins(
        alloc,
        decision.net,
        &state.failures,
        decision.router,
        decision.p,
        decision.slot,
    )?;
    let heard = heard_records(alloc, state.adjacencies.as_slice(), decision.p.len)?;
    Ok(held_from(
        decision.net,
        &state.failures,
        decision.underlay,
        decision.router,
        own.as_slice(),
        heard.as_slice(),
    ))
}

// The BGP part, where the router runs that process.
fn decided_by(
    alloc: Global,
    decision: &Decision<'_>,
    process: &Bgp,
) -> Result<Option<BgpRec>, AllocError>
    requires underlay { IsUnderlay decision.now.net.now.files decision.now.state.now.failures decision.now.underlay.now }
    requires file { slice_get decision.now.net.now.files decision.now.router ≡ Some decision.now.file.now }
    requires process { decision.now.file.now.bgp ≡ Some process.now }
    ensures { IfOk result (λ made. made
        ≡ deciding.decided_bgp decision.now.net.now.files decision.now.state.now decision.now.router
        decision.now.file.now decision.now.p.now decision.now.slot.now) }
{
    let all = candidates_heard(alloc, decision, process)?;
    let left = survivors(
        alloc,
        process.always_compare,
        process.compare_routerid,
        all.as_slice(),
    )?;
    kept(alloc, &decision.slot.bgp, all.as_slice(), left.as_slice())
}

// The BGP part.
fn decided_bgp(alloc: Global, decision: &Decision<'_>) -> Result<Option<BgpRec>, AllocError>
    requires underlay { IsUnderlay decision.now.net.now.files decision.now.state.now.failures decision.now.underlay.now }
    requires file { slice_get decision.now.net.now.files decision.now.router ≡ Some decision.now.file.now }
    ensures { IfOk result (λ made. made
        ≡ deciding.decided_bgp decision.now.net.now.files decision.now.state.now decision.now.router
        decision.now.file.now decision.now.p.now decision.now.slot.now) }
{
    match &decision.file.bgp {
        None => Ok(None),
        Some(process) => decided_by(alloc, decision, process),
    }
}

// Whether an own origin, by the slot as it stands, is as good as what is decided of OSPF.
fn own_is_as_good(
    alloc: Global,
    decision: &Decision<'_>,
    ospf: &Option<OspfRec>,
) -> Result<bool, AllocError>
    requires file { slice_get decision.now.net.now.files decision.now.router ≡ Some decision.now.file.now }
    ensures { IfOk result (λ own. own
        ≡ option_map_or (routes.is_own decision.now.net.now.files decision.now.state.now.failures decision.now.router
        decision.now.file.now decision.now.p.now decision.now.slot.now) ospf.now false) }
{
    match ospf {
        None => Ok(false),
        Some(held) => is_own(
            alloc,
            decision.net,
            &decision.state.failures,
            decision.router,
            decision.file,
            decision.p,
            decision.slot,
            held,
        ),
    }
}

// The slot of these parts, with the table entry that they give.
fn with_entry(
    alloc: Global,
    decision: &Decision<'_>,
    ospf: Option<OspfRec>,
    bgp: Option<BgpRec>,
) -> Result<Slot, AllocError>
    requires file { slice_get decision.now.net.now.files decision.now.router ≡ Some decision.now.file.now }
    ensures { IfOk result (λ new. new
        ≡ deciding.with_entry decision.now.net.now.files decision.now.state.now.failures decision.now.router
        decision.now.file.now decision.now.p.now decision.now.slot.now ospf bgp) }
{
    let own = own_is_as_good(alloc, decision, &ospf)?;
    let mut made = Slot {
        ospf,
        bgp,
        rib: decision.slot.rib,
    };
    let rib = best_entry(
        decision.net,
        &decision.state.failures,
        decision.router,
        decision.p,
        &made,
        own,
    );
    made.rib = rib;
    Ok(made)
}

/// The slot that a router decides in the place of its slot for the prefix: the OSPF route that it holds by its own
/// origins and by what it last heard; of the BGP routes that its decision process leaves the one that it holds, and else
/// the first; and the table entry by these. Its own origins and redistributed routes are those of the slot as it stands.
#[tactic(auto, unfolding(machine_laws::specs::Deciding::decided))]
pub fn decided(
    alloc: Global,
    net: &Net,
    state: &State,
    underlay: &Underlay,
    router: u32,
    file: &File,
    p: &Prefix,
    slot: &Slot,
) -> Result<Slot, AllocError>
    requires underlay { IsUnderlay net.now.files state.now.failures underlay.now }
    requires file { slice_get net.now.files router ≡ Some file.now }
    ensures { IfOk result (λ new. new ≡ deciding.decided net.now.files state.now router file.now p.now slot.now) }
{
    let decision = Decision {
        net,
        state,
        underlay,
        router,
        file,
        p,
        slot,
    };
    let ospf = decided_ospf(alloc, &decision)?;
    let bgp = decided_bgp(alloc, &decision)?;
    with_entry(alloc, &decision, ospf, bgp)
}
