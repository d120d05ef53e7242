//! Routes that variables say one after another.

ghost use Rattle.std.specs.Prelude.{◌≡◌, ◌+◌, ◌++◌, ◌^◌, ◌<◌, ◌≤◌, All, IfOk, IfSome, length, map, option_map};
ghost use Rattle.term_store.specs.Terms.{truth};
ghost use Rattle.bgp_values.specs.Told.{HasFewMarks, as_told};
ghost use Rattle.bgp_variables.specs.Shapes as shapes;
ghost use Rattle.path_rebuild.specs.Shapes.{AreFew, route_of};

use crate::marks::marks_size;
use crate::routes::{path_size, preferences_size, route_at};
use bgp_variables::BgpRoom;
use path_rebuild::ShapeRec;
use route_record::Tracked;
use std::alloc::{AllocError, Global};

// How many variables a route of the room has.
#[tactic(auto, unfolding(bgp_variables::specs::Shapes::shape_width))]
fn shape_size(room: &BgpRoom) -> usize
    requires room { shapes.IsBgpRoom room.now }
    requires few { HasFewMarks room.now }
    ensures value { result ≡ shapes.shape_width room.now }
    ensures few { result < 2 ^ 15 }
{
    let seen = usize::from(room.from.width())
        + preferences_size(&room.preferences)
        + path_size(&room.path)
        + marks_size(room.communities.as_slice());
    seen + usize::from(room.next_hop.width())
        + usize::from(room.originator.width())
        + usize::from(room.cluster_len.width())
        + marks_size(room.clusters.as_slice())
}

// How many one has that may be there.
#[tactic(auto, using(crate::proofs::RouteSteps::few_marks))]
fn room_size(tracked: &Tracked, room: &Option<BgpRoom>) -> usize
    requires few { AreFew tracked.now }
    requires room { IfSome room.now (shapes.IsRoomOf tracked.now) }
    ensures { result ≡ shapes.bgp_width room.now }
{
    match room {
        None => 0,
        Some(room) => 1 + shape_size(room),
    }
}

/// The routes that may be there, one for each room, by their variables.
#[tactic(auto, using(crate::proofs::RowSteps::width_next, crate::proofs::RowSteps::routes_next, crate::proofs::RowSteps::room_there))]
pub fn routes_at(
    alloc: Global,
    tracked: &Tracked,
    values: &[bool],
    from: usize,
    rooms: &[Option<BgpRoom>],
) -> Result<Vec<Option<ShapeRec>>, AllocError>
    requires few { AreFew tracked.now }
    requires rooms { All (λ room. IfSome room (shapes.IsRoomOf tracked.now)) rooms.now }
    requires within { from + shapes.bgps_width rooms.now ≤ length values.now }
    ensures { IfOk result (λ made. map (option_map (route_of tracked.now)) made.items
        ≡ map (option_map as_told) (shapes.bgps_from rooms.now (truth values.now) from)) }
{
    let mut made = Vec::new(alloc);
    let mut at = from;
    for room in rooms {
        made.push(route_at(alloc, tracked, values, at, room))?;
        at += room_size(tracked, room);
    }
    Ok(made)
}

/// Where the variables of the routes of some rooms end, where they begin at one; there are at most so many variables.
#[tactic(auto, using(crate::proofs::RowSteps::width_next, crate::proofs::RowSteps::width_end, crate::proofs::RowSteps::room_there))]
pub fn routes_end(tracked: &Tracked, from: usize, rooms: &[Option<BgpRoom>], most: usize) -> usize
    requires few { AreFew tracked.now }
    requires rooms { All (λ room. IfSome room (shapes.IsRoomOf tracked.now)) rooms.now }
    requires within { from + shapes.bgps_width rooms.now ≤ most }
    ensures { result ≡ from + shapes.bgps_width rooms.now }
{
    let mut at = from;
    for room in rooms {
        at += room_size(tracked, room);
    }
    at
}
