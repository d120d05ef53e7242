//! The event that comes next by itself.

ghost use Rattle.std.specs.Prelude.{◌≡◌, ◌*◌, ◌<◌, IfOk, IfSome, length, position};
ghost use Rattle.machine_decisions.specs.Touched.{AreKnown};
ghost use Rattle.machine_laws.specs.Quiet as quiet;
ghost use Rattle.machine_sending.specs.Plans.{HasChannels};
ghost use Rattle.route_candidates.specs.Underlays.{IsUnderlay};

use machine_decisions::first_unsettled;
use machine_laws::{Channel, Event, State};
use mw_text::Addr;
use net_model::Net;
use route_candidates::Underlay;
use route_record::LENGTHS;
use std::alloc::{AllocError, Global};

fn has_mail<M>(channel: &Channel<M>) -> bool
    ensures { result ≡ quiet.has_mail channel.now }
{
    !channel.mail.is_empty()
}

// The first channel with mail.
fn first_mail<M>(channels: &[Channel<M>]) -> Option<usize>
    ensures value { result ≡ position quiet.has_mail channels.now }
    ensures within { IfSome result (λ at. at < length channels.now) }
{
    channels.iter().position(|c| has_mail(c))
}

// The decision at a place of the tables.
fn decide_at(net: &Net, place: usize) -> Event
    requires { place < LENGTHS * length net.now.files }
    ensures { result ≡ quiet.decide_at place }
{
    let _routers = net.routers();
    Event::Decide {
        router: (place / LENGTHS) as u32,
        len: (place % LENGTHS) as u8,
    }
}

/// The delivery over the first channel with mail, sessions before adjacencies; else the first decision, by router and
/// then by length, that would change a slot. None exactly where the state is quiet.
#[tactic(auto, using(crate::proofs::FewAdjacencies::few_adjacencies), unfolding(machine_laws::specs::Quiet::next_event))]
pub fn next_event(
    alloc: Global,
    net: &Net,
    d: Addr,
    state: &State,
    underlay: &Underlay,
    known: &[Option<bool>],
) -> Result<Option<Event>, AllocError>
    requires underlay { IsUnderlay net.now.files state.now.failures underlay.now }
    requires known { AreKnown net.now.files d state.now known.now }
    requires channels { HasChannels net.now.files state.now }
    requires size { length state.now.tables.slots ≡ LENGTHS * length net.now.files }
    ensures { IfOk result (λ next. next ≡ quiet.next_event net.now.files d state.now) }
{
    let _routers = net.routers();
    if let Some(at) = first_mail(state.sessions.as_slice()) {
        return Ok(Some(Event::DeliverBgp { end: at as u32 }));
    }
    if let Some(at) = first_mail(state.adjacencies.as_slice()) {
        return Ok(Some(Event::DeliverOspf {
            adjacency: at as u32,
        }));
    }
    match first_unsettled(alloc, net, d, state, underlay, known)? {
        None => Ok(None),
        Some(place) => Ok(Some(decide_at(net, place))),
    }
}
