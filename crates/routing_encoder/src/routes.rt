//! The BGP routes of slots as terms: their variables are new.

ghost use Rattle.std.specs.Prelude.{◌≡◌, ◌+◌, ◌≤◌, ◌++◌, ◌∷◌, [], All, IfOk, OnOk, length, map, option_map};
ghost use Rattle.std.specs.Option.{option_copied};
ghost use Rattle.term_store.specs.Terms.{size};
ghost use Rattle.term_store.specs.Reading.{Grows, Gives};
ghost use Rattle.sym_policy.specs.Held.{bgp_end, bgp_of};
ghost use Rattle.sym_policy.specs.MapRecs.{HasTracked};
ghost use Rattle.sym_rib.specs.Into.{list_end};
ghost use Rattle.bgp_variables.specs.Brought.{speaker_at as speaker_of};
ghost use Rattle.bgp_variables.specs.Rooms.{bgp_room, bgp_rooms, held_room};
ghost use Rattle.bgp_variables.specs.Shapes.{IsRoomOf, bgp_from, bgp_width, bgps_from, bgps_width};

use bgp_variables::{BgpRoom, open_bgp, speaker_at};
use mw_text::List;
use net_model::Net;
use plan_places::Place;
use std::alloc::{AllocError, Global};
use sym_policy::SymBgp;
use term_store::Terms;

// The room of the BGP route of the slot at a place: that of held routes where it can hold one.
fn room_at<'a>(net: &Net, full: &'a BgpRoom, p: Place) -> Option<&'a BgpRoom>
    ensures { option_copied result ≡ option_map (λ process. full.now) (speaker_of net.now.files p.router p.len) }
{
    match speaker_at(net, p) {
        None => None,
        Some(_) => Some(full),
    }
}

// The BGP route of the slot at a place.
#[tactic(auto, using(bgp_variables::proofs::RoomSteps::room_held))]
fn open_route(
    alloc: Global,
    terms: &mut Terms,
    net: &Net,
    full: &BgpRoom,
    p: Place,
) -> Result<SymBgp, AllocError>
    requires full { full.now ≡ held_room net.now.tracked net.now.files }
    requires room { IsRoomOf net.now.tracked full.now }
    ensures grows { Grows terms.old terms.new }
    ensures within { IfOk result (λ r. bgp_end r ≤ size terms.new) }
    ensures rows { IfOk result (HasTracked net.now.tracked) }
    ensures vars { OnOk result (terms.new.vars
        ≡ terms.old.vars + bgp_width (bgp_room net.now.tracked net.now.files p.router p.len)) }
    ensures value { Gives terms.new result (λ w r. bgp_of w r
        ≡ bgp_from (bgp_room net.now.tracked net.now.files p.router p.len) w.variable terms.old.vars) }
{
    let room = room_at(net, full, p);
    open_bgp(alloc, terms, room, net.tracked())
}

// Puts one more route at the end.
fn put_route(made: &mut List<SymBgp>, next: SymBgp) -> Result<(), AllocError>
    ensures { OnOk result (made.new ≡ made.old ++ next ∷ []) }
{
    made.items.push(next)?;
    Ok(())
}

/// The BGP routes of the slots at some places, in their order: their variables are new. Where none can come there are none.
#[tactic(auto, using(crate::proofs::RouteSteps::route_steps))]
pub fn open_routes(
    alloc: Global,
    terms: &mut Terms,
    net: &Net,
    full: &BgpRoom,
    places: &[Place],
) -> Result<List<SymBgp>, AllocError>
    requires full { full.now ≡ held_room net.now.tracked net.now.files }
    requires room { IsRoomOf net.now.tracked full.now }
    ensures grows { Grows terms.old terms.new }
    ensures within { IfOk result (λ r. list_end bgp_end r ≤ size terms.new) }
    ensures rows { IfOk result (All (HasTracked net.now.tracked)) }
    ensures long { IfOk result (λ r. length r ≡ length places.now) }
    ensures vars { OnOk result (terms.new.vars
        ≡ terms.old.vars + bgps_width (bgp_rooms net.now.tracked net.now.files places.now)) }
    ensures value { Gives terms.new result (λ w r. map (bgp_of w) r
        ≡ bgps_from (bgp_rooms net.now.tracked net.now.files places.now) w.variable terms.old.vars) }
{
    let mut made = List::new(alloc);
    for p in places {
        let next = open_route(alloc, terms, net, full, *p)?;
        put_route(&mut made, next)?;
    }
    Ok(made)
}
