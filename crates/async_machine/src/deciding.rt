//! Decisions: a slot is written, and what changed of it is sent.

ghost use Rattle.std.specs.Prelude.{◌≡◌, ◌+◌, ◌*◌, ◌<◌, IfErr, IfOk, IfSome, OnErr, OnOk, Some, length, slice_get, slice_set};
ghost use Rattle.async_machine.specs.Decisions as decisions;
ghost use Rattle.async_machine.specs.Taking.{Takes};
ghost use Rattle.machine_laws.specs.Events.{told_if};
ghost use Rattle.machine_laws.specs.declared.state.Event.TheVariants as events;
ghost use Rattle.machine_sending.specs.Plans.{HasChannels};
ghost use Rattle.route_candidates.specs.Underlays.{IsUnderlay};

use ios_ast::File;
use machine_decisions::decided;
use machine_laws::{EventRefused, State};
use machine_sending::{Written, install, plan_told};
use mw_text::{Addr, Prefix, prefix_of};
use net_model::Net;
use route_candidates::Underlay;
use route_record::{LENGTHS, Slot, Tables};
use same_routes::{same_bgp, same_ospf};
use std::alloc::{AllocError, Global};
use std::mem;

/// What a router decides in the place of its slot, and which of its routes change by that.
#[derive(Drop)]
pub struct Decision {
    pub slot: Slot,
    pub bgp: bool,
    pub ospf: bool,
}

fn decision_by(
    alloc: Global,
    net: &Net,
    state: &State,
    underlay: &Underlay,
    router: u32,
    file: &File,
    p: &Prefix,
    slot: &Slot,
) -> Result<Decision, AllocError>
    requires underlay { IsUnderlay net.now.files state.now.failures underlay.now }
    requires file { slice_get net.now.files router ≡ Some file.now }
    ensures { IfOk result (λ made. made
        ≡ decisions.decision net.now.files state.now router file.now p.now slot.now) }
{
    let new = decided(alloc, net, state, underlay, router, file, p, slot)?;
    let bgp = !same_bgp(&slot.bgp, &new.bgp);
    let ospf = !same_ospf(&slot.ospf, &new.ospf);
    Ok(Decision {
        slot: new,
        bgp,
        ospf,
    })
}

// What the router decides for that length. None where there is no such router or length.
#[tactic(auto, using(std::proofs::lemmas::Option::slice_get_within))]
fn decision_at(
    alloc: Global,
    net: &Net,
    d: Addr,
    state: &State,
    underlay: &Underlay,
    router: u32,
    len: u8,
) -> Result<Option<Decision>, AllocError>
    requires underlay { IsUnderlay net.now.files state.now.failures underlay.now }
    ensures value { IfOk result (λ made. made ≡ decisions.decision_at net.now.files d state.now router len) }
    ensures within { IfOk result (λ made. IfSome made
        (λ _. LENGTHS * router + len < length state.now.tables.slots)) }
{
    if len as usize >= LENGTHS {
        return Ok(None);
    }
    let Some(file) = net.routers().get(router as usize) else {
        return Ok(None);
    };
    let Some(slot) = state.tables.slot(router, len) else {
        return Ok(None);
    };
    let made = decision_by(
        alloc,
        net,
        state,
        underlay,
        router,
        file,
        &prefix_of(d, len),
        slot,
    )?;
    Ok(Some(made))
}

// Writes the slot at a place, and gives back the former one.
fn write(tables: &mut Tables, place: usize, new: Slot) -> Slot
    requires { place < length tables.old.slots }
    ensures written { tables.new.slots ≡ slice_set tables.old.slots place new }
    ensures former { slice_get tables.old.slots place ≡ Some result }
{
    mem::replace(&mut tables.slots.items[place], new)
}

// Writes a slot, and sends what changed of it; where memory is short the former slot comes back.
#[tactic(auto, using(crate::proofs::Restored::restored))]
fn tell(
    alloc: Global,
    net: &Net,
    d: Addr,
    state: &mut State,
    underlay: &Underlay,
    router: u32,
    len: u8,
    made: Decision,
) -> Result<(), EventRefused>
    requires underlay { IsUnderlay net.now.files state.old.failures underlay.now }
    requires channels { HasChannels net.now.files state.old }
    requires within { LENGTHS * router + len < length state.old.tables.slots }
    ensures ok { OnOk result (state.new ≡ told_if net.now.files d state.old router len made.bgp made.ospf made.slot) }
    ensures memory { IfErr result (λ why. why ≡ EventRefused.Memory) }
    ensures unchanged { OnErr result (state.new ≡ state.old) }
    ensures failures { state.new.failures ≡ state.old.failures }
{
    let place = LENGTHS * router as usize + len as usize;
    let former = write(&mut state.tables, place, made.slot);
    let slot = Written {
        router,
        len,
        bgp: made.bgp,
        ospf: made.ospf,
    };
    match plan_told(alloc, net, d, state, underlay, slot) {
        Ok(plan) => {
            install(state, plan);
            Ok(())
        }
        Err(_) => {
            let _written = write(&mut state.tables, place, former);
            Err(EventRefused::Memory)
        }
    }
}

/// The decision of the router for that length.
#[tactic(auto, using(crate::proofs::Taken::decide_is, crate::proofs::Taken::decide_none))]
pub fn decide(
    alloc: Global,
    net: &Net,
    d: Addr,
    state: &mut State,
    underlay: &Underlay,
    router: u32,
    len: u8,
) -> Result<(), EventRefused>
    requires underlay { IsUnderlay net.now.files state.old.failures underlay.now }
    requires channels { HasChannels net.now.files state.old }
    ensures takes { Takes net.now.files d state.old (events.Decide router len) result state.new }
    ensures failures { state.new.failures ≡ state.old.failures }
{
    match decision_at(alloc, net, d, state, underlay, router, len) {
        Err(_) => Err(EventRefused::Memory),
        Ok(None) => Err(EventRefused::UnknownName),
        Ok(Some(made)) => tell(alloc, net, d, state, underlay, router, len, made),
    }
}
