//! What is known of the decisions at all places of the tables without making them: whether each would change its slot.

ghost use Rattle.std.specs.Prelude.{◌≡◌, IfSome};
ghost use Rattle.machine_laws.specs.Quiet as quiet;
ghost use Rattle.machine_decisions.specs.Touched.{AreKnown, AreKnownBut};
ghost use Rattle.machine_decisions.specs.declared.touched.Touched.TheVariants as touching;
ghost use Rattle.route_candidates.specs.Underlays.{IsUnderlay};

use crate::settled::is_unsettled_at;
use crate::touched::Touched;
use machine_laws::State;
use mw_text::{Addr, List};
use net_model::Net;
use route_candidates::Underlay;
use route_record::LENGTHS;
use std::alloc::Global;

// Whether a decision at that place would change the slot. None where memory is short.
fn seen_at(
    alloc: Global,
    net: &Net,
    d: Addr,
    state: &State,
    underlay: &Underlay,
    place: usize,
) -> Option<bool>
    requires underlay { IsUnderlay net.now.files state.now.failures underlay.now }
    ensures { IfSome result (λ would. would ≡ quiet.is_unsettled_at net.now.files d state.now place) }
{
    if place >= LENGTHS * net.routers().len() {
        return None;
    }
    match is_unsettled_at(alloc, net, d, state, underlay, place) {
        Ok(would) => Some(would),
        Err(_) => None,
    }
}

// Looks at one place; of the others all is known that was.
#[tactic(auto, using(crate::proofs::KnownLaws::known_with, crate::proofs::KnownLaws::known_past))]
fn look_at(
    alloc: Global,
    net: &Net,
    d: Addr,
    state: &State,
    underlay: &Underlay,
    known: &mut List<Option<bool>>,
    place: usize,
)
    requires underlay { IsUnderlay net.now.files state.now.failures underlay.now }
    requires others { AreKnownBut net.now.files d state.now (touching.Place place) known.old }
    ensures { AreKnown net.now.files d state.now known.new }
{
    let seen = seen_at(alloc, net, d, state, underlay, place);
    if place < known.items.len() {
        known.items[place] = seen;
    }
}

/// Looks at all places.
#[tactic(auto, using(crate::proofs::KnownLaws::seen_none, crate::proofs::KnownLaws::seen_more, crate::proofs::KnownLaws::seen_all))]
pub fn look_at_all(
    alloc: Global,
    net: &Net,
    d: Addr,
    state: &State,
    underlay: &Underlay,
    known: &mut List<Option<bool>>,
)
    requires underlay { IsUnderlay net.now.files state.now.failures underlay.now }
    ensures { AreKnown net.now.files d state.now known.new }
{
    for place in 0..known.items.len() {
        known.items[place] = seen_at(alloc, net, d, state, underlay, place);
    }
}

/// Looks at the places that an event has touched.
pub fn look_again(
    alloc: Global,
    net: &Net,
    d: Addr,
    state: &State,
    underlay: &Underlay,
    known: &mut List<Option<bool>>,
    touched: Touched,
)
    requires underlay { IsUnderlay net.now.files state.now.failures underlay.now }
    requires others { AreKnownBut net.now.files d state.now touched known.old }
    ensures { AreKnown net.now.files d state.now known.new }
{
    match touched {
        Touched::Nothing => {}
        Touched::Place(place) => look_at(alloc, net, d, state, underlay, known, place),
        Touched::Everything => look_at_all(alloc, net, d, state, underlay, known),
    }
}
