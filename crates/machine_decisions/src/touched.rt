//! Which decisions an event may change. A decision looks at the router's slot, at what the router last received, and at
//! which links have failed.

ghost use Rattle.std.specs.Prelude.{◌≡◌};
ghost use Rattle.machine_decisions.specs.Touched as specs;
ghost use Rattle.machine_laws.specs.declared.state.Event.TheVariants as events;

use machine_laws::{Channel, Event, State};
use net_model::Net;
use route_record::LENGTHS;

/// The places of the tables that an event touches: none, that one, or all.
#[derive(Clone, Copy)]
pub enum Touched {
    Nothing,
    Place(usize),
    Everything,
}

// The place of the router's slot for the length of the front message of the channel at that place.
fn by_delivery<M>(channels: &[Channel<M>], at: u32, router: u32) -> Touched
    ensures { result ≡ specs.by_delivery channels.now at router }
{
    let Some(channel) = channels.get(at as usize) else {
        return Touched::Nothing;
    };
    match channel.mail.front() {
        None => Touched::Nothing,
        Some(m) => Touched::Place(LENGTHS * router as usize + m.len as usize),
    }
}

#[tactic(auto, unfolding(crate::specs::Touched::touched_by))]
fn by_session(net: &Net, state: &State, at: u32) -> Touched
    ensures { result ≡ specs.touched_by net.now.files state.now (events.DeliverBgp at) }
{
    match net.ends().get(at as usize) {
        None => Touched::Nothing,
        Some(end) => by_delivery(state.sessions.as_slice(), at, end.router),
    }
}

#[tactic(auto, unfolding(crate::specs::Touched::touched_by))]
fn by_adjacency(net: &Net, state: &State, at: u32) -> Touched
    ensures { result ≡ specs.touched_by net.now.files state.now (events.DeliverOspf at) }
{
    match net.adjacencies().get(at as usize) {
        None => Touched::Nothing,
        Some(a) => by_delivery(state.adjacencies.as_slice(), at, a.from.router),
    }
}

/// The places of the tables at which the event may change what a router would decide: a delivery that of its receiver
/// for the length of the message, a decision its own, an announcement none, and a change of the links all.
#[tactic(auto, unfolding(crate::specs::Touched::touched_by))]
pub fn touched_by(net: &Net, state: &State, event: &Event) -> Touched
    ensures { result ≡ specs.touched_by net.now.files state.now event.now }
{
    match event {
        Event::DeliverBgp { end } => by_session(net, state, *end),
        Event::DeliverOspf { adjacency } => by_adjacency(net, state, *adjacency),
        Event::Decide { router, len } => {
            Touched::Place(LENGTHS * *router as usize + *len as usize)
        }
        Event::Announce { .. } => Touched::Nothing,
        Event::Cut { .. } => Touched::Everything,
        Event::Mend { .. } => Touched::Everything,
    }
}
