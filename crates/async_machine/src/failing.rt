//! Links that fail and that work again: sessions and adjacencies follow at once.

ghost use Rattle.std.specs.Prelude.{◌≡◌, IfErr, IfOk, OnErr, OnOk};
ghost use Rattle.async_machine.specs.Taking.{Takes};
ghost use Rattle.ios_ast.specs.Deciding.{carries};
ghost use Rattle.machine_laws.specs.Events as events;
ghost use Rattle.machine_laws.specs.declared.state.Event.TheVariants as kinds;
ghost use Rattle.machine_sending.specs.Plans.{HasChannels};
ghost use Rattle.route_candidates.specs.Underlays.{IsUnderlay};

use machine_laws::{EventRefused, State};
use machine_sending::{install, plan_renewed};
use mw_text::{Addr, List};
use net_interfaces::values::{copy_of, put_number};
use net_model::Net;
use route_candidates::{Underlay, underlay_of};
use route_record::Failures;
use std::alloc::{AllocError, Global};

fn has_failed(failures: &Failures, link: u32) -> bool
    ensures { result ≡ carries failures.now.links link }
{
    failures.links.as_slice().iter().any(|x| *x == link)
}

// The failed links with one more.
fn with_cut(alloc: Global, failures: &Failures, link: u32) -> Result<Failures, AllocError>
    ensures { IfOk result (λ made. made ≡ events.with_cut link failures.now) }
{
    let mut links = copy_of(alloc, failures.links.as_slice())?;
    put_number(&mut links, link)?;
    Ok(Failures { links })
}

// The failed links without that one.
fn mended(alloc: Global, failures: &Failures, link: u32) -> Result<Failures, AllocError>
    ensures { IfOk result (λ made. made ≡ events.mended link failures.now) }
{
    let mut links = List::new(alloc);
    for at in failures.links.as_slice() {
        if *at != link {
            links.items.push(*at)?;
        }
    }
    Ok(Failures { links })
}

// These links have failed from now on.
#[tactic(auto, using(crate::proofs::Taken::renewed_state))]
fn change_failures(
    alloc: Global,
    net: &Net,
    d: Addr,
    state: &mut State,
    underlay: &mut Underlay,
    failures: Failures,
) -> Result<(), AllocError>
    requires underlay { IsUnderlay net.now.files state.old.failures underlay.old }
    requires channels { HasChannels net.now.files state.old }
    ensures ok { OnOk result (state.new ≡ events.with_failures net.now.files d state.old failures) }
    ensures unchanged { OnErr result (state.new ≡ state.old) }
    ensures underlay { IsUnderlay net.now.files state.new.failures underlay.new }
{
    let after = underlay_of(alloc, net, &failures)?;
    let plan = plan_renewed(alloc, net, d, state, underlay, &failures, &after)?;
    install(state, plan);
    state.failures = failures;
    *underlay = after;
    Ok(())
}

/// The link at that place fails.
#[tactic(auto, unfolding(machine_laws::specs::Events::after))]
pub fn cut(
    alloc: Global,
    net: &Net,
    d: Addr,
    state: &mut State,
    underlay: &mut Underlay,
    link: u32,
) -> Result<(), EventRefused>
    requires underlay { IsUnderlay net.now.files state.old.failures underlay.old }
    requires channels { HasChannels net.now.files state.old }
    ensures takes { Takes net.now.files d state.old (kinds.Cut link) result state.new }
    ensures underlay { IsUnderlay net.now.files state.new.failures underlay.new }
{
    if link as usize >= net.links().len() {
        return Err(EventRefused::UnknownName);
    }
    if has_failed(&state.failures, link) {
        return Err(EventRefused::AlreadySo);
    }
    let Ok(failures) = with_cut(alloc, &state.failures, link) else {
        return Err(EventRefused::Memory);
    };
    match change_failures(alloc, net, d, state, underlay, failures) {
        Ok(()) => Ok(()),
        Err(_) => Err(EventRefused::Memory),
    }
}

/// The link at that place works again.
#[tactic(auto, unfolding(machine_laws::specs::Events::after))]
pub fn mend(
    alloc: Global,
    net: &Net,
    d: Addr,
    state: &mut State,
    underlay: &mut Underlay,
    link: u32,
) -> Result<(), EventRefused>
    requires underlay { IsUnderlay net.now.files state.old.failures underlay.old }
    requires channels { HasChannels net.now.files state.old }
    ensures takes { Takes net.now.files d state.old (kinds.Mend link) result state.new }
    ensures underlay { IsUnderlay net.now.files state.new.failures underlay.new }
{
    if link as usize >= net.links().len() {
        return Err(EventRefused::UnknownName);
    }
    if !has_failed(&state.failures, link) {
        return Err(EventRefused::AlreadySo);
    }
    let Ok(failures) = mended(alloc, &state.failures, link) else {
        return Err(EventRefused::Memory);
    };
    match change_failures(alloc, net, d, state, underlay, failures) {
        Ok(()) => Ok(()),
        Err(_) => Err(EventRefused::Memory),
    }
}
