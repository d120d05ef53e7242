//! The places at which the slots of a formula stand, and what routes can be there.

ghost use Rattle.std.specs.Prelude.{◌≡◌, IfOk};
ghost use Rattle.plan_places.specs.Plans as plans;
ghost use Rattle.routing_encoder.specs.Frames.{IsFrame};

use bgp_variables::{BgpRoom, held_room};
use mw_text::{List, Prefix};
use net_model::Net;
use plan_places::{Place, lens_of, places_of};
use route_record::Plan;
use slot_places::{Room, rooms_of};
use std::alloc::{AllocError, Global};
use world_variables::read_rooms;

/// The places of a plan, the lengths at which each router has one, the rooms of OSPF routes at all lengths for the
/// prefixes that meet some destinations, and the room of BGP routes.
#[derive(Drop)]
pub struct Frame {
    pub destinations: Prefix,
    pub lens: Vec<u8>,
    pub places: List<Place>,
    pub rooms: List<Option<Room>>,
    pub bgp: BgpRoom,
}

/// The frame of a plan, for some destinations.
pub fn frame_of(
    alloc: Global,
    net: &Net,
    destinations: &Prefix,
    plan: &Plan,
) -> Result<Frame, AllocError>
    ensures frame { IfOk result (IsFrame net.now.files net.now.tracked plan.now) }
    ensures destinations { IfOk result (λ f. f.destinations ≡ destinations.now) }
{
    let lens = lens_of(alloc, plan)?;
    let places = places_of(alloc, plan, net.routers().len() as u32)?;
    let rooms = rooms_of(alloc, net, destinations)?;
    read_rooms(rooms.as_slice());
    let bgp = held_room(alloc, net.tracked(), net)?;
    Ok(Frame {
        destinations: *destinations,
        lens,
        places,
        rooms,
        bgp,
    })
}
