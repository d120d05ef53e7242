//! Events, taken one by one.

ghost use Rattle.std.specs.Prelude.{◌≡◌};
ghost use Rattle.async_machine.specs.Taking.{Takes};
ghost use Rattle.machine_decisions.specs.Touched.{AreKnown};
ghost use Rattle.machine_laws.specs.declared.state.Event.TheVariants as events;
ghost use Rattle.machine_sending.specs.Plans.{HasChannels};
ghost use Rattle.route_candidates.specs.Underlays.{IsUnderlay};

use crate::announcing::announce;
use crate::deciding::decide;
use crate::failing::{cut, mend};
use machine_channels::deliver_at;
use machine_decisions::{look_again, touched_by};
use machine_laws::{Event, EventRefused, State};
use mw_text::{Addr, List};
use net_model::Net;
use route_candidates::Underlay;
use std::alloc::Global;

fn deliver_bgp(net: &Net, d: Addr, state: &mut State, end: u32) -> Result<(), EventRefused>
    ensures takes { Takes net.now.files d state.old (events.DeliverBgp end) result state.new }
    ensures failures { state.new.failures ≡ state.old.failures }
{
    let _net = net;
    deliver_at(&mut state.sessions, end)
}

fn deliver_ospf(net: &Net, d: Addr, state: &mut State, at: u32) -> Result<(), EventRefused>
    ensures takes { Takes net.now.files d state.old (events.DeliverOspf at) result state.new }
    ensures failures { state.new.failures ≡ state.old.failures }
{
    let _net = net;
    deliver_at(&mut state.adjacencies, at)
}

fn happen(
    alloc: Global,
    net: &Net,
    d: Addr,
    state: &mut State,
    underlay: &mut Underlay,
    event: Event,
) -> Result<(), EventRefused>
    requires underlay { IsUnderlay net.now.files state.old.failures underlay.old }
    requires channels { HasChannels net.now.files state.old }
    ensures takes { Takes net.now.files d state.old event result state.new }
    ensures underlay { IsUnderlay net.now.files state.new.failures underlay.new }
{
    match event {
        Event::DeliverBgp { end } => deliver_bgp(net, d, state, end),
        Event::DeliverOspf { adjacency } => deliver_ospf(net, d, state, adjacency),
        Event::Decide { router, len } => decide(alloc, net, d, state, underlay, router, len),
        Event::Announce { end, len, what } => {
            announce(alloc, net, d, state, underlay, end, len, what)
        }
        Event::Cut { link } => cut(alloc, net, d, state, underlay, link),
        Event::Mend { link } => mend(alloc, net, d, state, underlay, link),
    }
}

/// Takes an event, or refuses it; then the state is as it was. Of the decisions that it may change all is seen anew.
#[tactic(auto, using(machine_decisions::proofs::Untouched::known_after))]
pub fn take(
    alloc: Global,
    net: &Net,
    d: Addr,
    state: &mut State,
    underlay: &mut Underlay,
    known: &mut List<Option<bool>>,
    event: Event,
) -> Result<(), EventRefused>
    requires underlay { IsUnderlay net.now.files state.old.failures underlay.old }
    requires channels { HasChannels net.now.files state.old }
    requires known { AreKnown net.now.files d state.old known.old }
    ensures takes { Takes net.now.files d state.old event result state.new }
    ensures underlay { IsUnderlay net.now.files state.new.failures underlay.new }
    ensures known { AreKnown net.now.files d state.new known.new }
{
    let touched = touched_by(net, state, &event);
    match happen(alloc, net, d, state, underlay, event) {
        Err(why) => Err(why),
        Ok(()) => {
            look_again(alloc, net, d, state, underlay, known, touched);
            Ok(())
        }
    }
}
