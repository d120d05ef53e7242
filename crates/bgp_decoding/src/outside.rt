//! The identifiers of external peers, and what they announce, by values of variables.

ghost use Rattle.std.specs.Prelude.{◌≡◌, ◌+◌, ◌*◌, ◌++◌, ◌∷◌, ◌≤◌, [], All, IfOk, IfSome, OnOk, length, map, option_map, replicate};
ghost use Rattle.route_record.specs.declared.TheConstants as constants;
ghost use Rattle.term_store.specs.Terms.{truth};
ghost use Rattle.bgp_variables.specs.Environments.{announced_rooms, end_room, end_rooms, environment_width, peers_count as peers_in};
ghost use Rattle.bgp_variables.specs.Shapes.{IsRoomOf, bgps_from, bgps_width};
ghost use Rattle.bgp_values.specs.Told.{as_told};
ghost use Rattle.path_rebuild.specs.Shapes.{route_of};
ghost use Rattle.bgp_decoding.specs.Decoded.{IsOutside, arrived_at};
ghost use Rattle.bgp_decoding.specs.Placed.{full_places, thing_in};

use crate::inside::all_places;
use crate::placing::placed;
use bgp_values::{addresses_at, routes_at};
use bgp_variables::{BgpRoom, announcement_room};
use mw_text::{Addr, List};
use net_model::Net;
use net_parts::SessionEnd;
use net_parts::ends::{is_outside, neighbour_of};
use path_rebuild::ShapeRec;
use std::alloc::{AllocError, Global};

/// Identifiers by external end, and announcements by external end and prefix length.
#[derive(Drop)]
pub struct Outside {
    pub ids: Vec<Addr>,
    pub announced: Vec<Option<ShapeRec>>,
}

// How many external peers there are.
fn peers_count(net: &Net) -> usize
    ensures { result ≡ peers_in net.now.files }
{
    net.ends().iter().filter(|end| is_outside(end)).count()
}

// The room of what arrives over the session of an end.
fn announced_room(alloc: Global, net: &Net, end: &SessionEnd) -> Result<Option<BgpRoom>, AllocError>
    ensures value { IfOk result (λ room. room ≡ end_room net.now.tracked net.now.files end.now) }
    ensures fits { IfOk result (λ room. IfSome room (IsRoomOf net.now.tracked)) }
{
    match neighbour_of(net.routers(), end) {
        None => Ok(None),
        Some(neighbour) => {
            let room = announcement_room(alloc, net.tracked(), neighbour)?;
            Ok(Some(room))
        }
    }
}

fn put_room(made: &mut List<Option<BgpRoom>>, room: Option<BgpRoom>) -> Result<(), AllocError>
    ensures { OnOk result (made.new ≡ made.old ++ room ∷ []) }
{
    made.items.push(room)?;
    Ok(())
}

// Puts so many of them at the end.
#[tactic(auto, using(crate::proofs::Rooms::room_steps))]
fn add_rooms(
    alloc: Global,
    made: &mut List<Option<BgpRoom>>,
    net: &Net,
    end: &SessionEnd,
    count: usize,
) -> Result<(), AllocError>
    requires fit { All (λ room. IfSome room (IsRoomOf net.now.tracked)) made.old }
    ensures value { OnOk result (made.new ≡ made.old ++ replicate count (end_room net.now.tracked net.now.files end.now)) }
    ensures fit { OnOk result (All (λ room. IfSome room (IsRoomOf net.now.tracked)) made.new) }
{
    for i in 0..count {
        let room = announced_room(alloc, net, end)?;
        put_room(made, room)?;
    }
    Ok(())
}

// Puts those of an end at the end: none over a session between routers of the files.
#[tactic(auto, using(crate::proofs::Rooms::end_steps))]
fn add_end(
    alloc: Global,
    made: &mut List<Option<BgpRoom>>,
    net: &Net,
    end: &SessionEnd,
    count: usize,
) -> Result<(), AllocError>
    requires fit { All (λ room. IfSome room (IsRoomOf net.now.tracked)) made.old }
    ensures value { OnOk result (made.new ≡ made.old ++ end_rooms net.now.tracked net.now.files count end.now) }
    ensures fit { OnOk result (All (λ room. IfSome room (IsRoomOf net.now.tracked)) made.new) }
{
    if is_outside(end) {
        add_rooms(alloc, made, net, end, count)
    } else {
        Ok(())
    }
}

// The rooms of what arrives at so many lengths over each session with an external peer.
#[tactic(auto, using(crate::proofs::Rooms::over_steps))]
fn announced_rooms_at(
    alloc: Global,
    net: &Net,
    count: usize,
) -> Result<List<Option<BgpRoom>>, AllocError>
    ensures value { IfOk result (λ made. made ≡ announced_rooms net.now.tracked net.now.files count) }
    ensures fit { IfOk result (All (λ room. IfSome room (IsRoomOf net.now.tracked))) }
{
    let mut made = List::new(alloc);
    for end in net.ends() {
        add_end(alloc, &mut made, net, end, count)?;
    }
    Ok(made)
}

// What external peers announce at these lengths; the variables begin at one.
#[tactic(auto, using(path_rebuild::proofs::RealRoutes::few_of))]
fn announced_told(
    alloc: Global,
    values: &[bool],
    net: &Net,
    count: usize,
    from: usize,
) -> Result<Vec<Option<ShapeRec>>, AllocError>
    requires within { from + bgps_width (announced_rooms net.now.tracked net.now.files count) ≤ length values.now }
    ensures { IfOk result (λ told. map (option_map (route_of net.now.tracked)) told.items
        ≡ map (option_map as_told)
        (bgps_from (announced_rooms net.now.tracked net.now.files count) (truth values.now) from)) }
{
    let tracked = net.tracked();
    let rooms = announced_rooms_at(alloc, net, count)?;
    routes_at(alloc, tracked, values, from, rooms.as_slice())
}

// What they announce at all prefix lengths.
#[tactic(auto, using(crate::proofs::Rooms::few_peers))]
fn announced_at(
    alloc: Global,
    values: &[bool],
    net: &Net,
    lens: &[u8],
    from: usize,
) -> Result<Vec<Option<ShapeRec>>, AllocError>
    requires few { length lens.now ≤ constants.LENGTHS }
    requires within { from + bgps_width (announced_rooms net.now.tracked net.now.files (length lens.now))
        ≤ length values.now }
    ensures { IfOk result (λ made. map (option_map (route_of net.now.tracked)) made.items
        ≡ map (λ p. thing_in lens.now (peers_in net.now.files) (map (option_map as_told)
        (bgps_from (announced_rooms net.now.tracked net.now.files (length lens.now)) (truth values.now) from)) p)
        (full_places (peers_in net.now.files))) }
{
    let _files = net.routers();
    let told = announced_told(alloc, values, net, lens.len(), from)?;
    let places = all_places(alloc, peers_count(net) as u32)?;
    let made = placed(alloc, net, lens, told.as_slice(), places.as_slice())?;
    Ok(made)
}

/// The identifiers and the announcements of external peers, whose variables begin at one.
pub fn outside_at(
    alloc: Global,
    values: &[bool],
    net: &Net,
    lens: &[u8],
    from: usize,
) -> Result<Outside, AllocError>
    requires few { length lens.now ≤ constants.LENGTHS }
    requires within { from + environment_width net.now.tracked net.now.files lens.now ≤ length values.now }
    ensures { IfOk result (IsOutside net.now.tracked net.now.files lens.now (truth values.now) from) }
{
    let count = peers_count(net);
    let ids = addresses_at(alloc, values, from, count)?;
    let announced = announced_at(alloc, values, net, lens, from + 32 * count)?;
    Ok(Outside { ids, announced })
}
