//! The routes that values of variables say.

ghost use Rattle.std.specs.Prelude.{◌≡◌, ◌+◌, ◌^◌, ◌<◌, ◌≤◌, IfSome, length, option_map};
ghost use Rattle.term_store.specs.Terms.{truth};
ghost use Rattle.failed_links.specs.Rows.{number_from};
ghost use Rattle.route_record.specs.declared.tracked.Tracked.{Tracked as TrackedOf};
ghost use Rattle.route_record.specs.Origins.{origin_of_code};
ghost use Rattle.route_record.specs.Shape.{marked_number};
ghost use Rattle.route_shapes.specs.Bgp.{address_number, learnt_number};
ghost use Rattle.slot_places.specs.Values.{field_width, read_as};
ghost use Rattle.world_variables.specs.Unknowns.{TellsWithin};
ghost use Rattle.bgp_values.specs.Told.{HasFewMarks, as_told, lists_of, plain_address};
ghost use Rattle.bgp_variables.specs.Shapes as shapes;
ghost use Rattle.path_rebuild.specs.Shapes.{AreFew, route_of};

use crate::marks::{marks_at, marks_size};
use bgp_variables::{BgpRoom, PathRoom, PreferencesRoom};
use failed_links::{number_at, value_at};
use mw_text::{Addr, List};
use path_rebuild::ShapeRec;
use route_record::{BgpRec, Learnt, MOST_TRACKED, Origin, Shape, Tracked};
use slot_places::Field;
use std::alloc::Global;

/// A path by its length, its ends and the set of its tracked numbers.
#[derive(Clone, Copy)]
pub struct PathTold {
    pub len: u32,
    pub first: u32,
    pub last: u32,
    pub numbers: u128,
}

// ---- one number

// A number of up to 33 variables.
#[tactic(auto, using(crate::proofs::NumberSteps::number_long))]
fn long_number_at(values: &[bool], from: usize, width: u8) -> u64
    requires narrow { width ≤ 33 }
    requires within { from + width ≤ length values.now }
    ensures value { result ≡ number_from (truth values.now) from width }
    ensures small { result < 2 ^ 33 }
{
    if width <= 32 {
        return u64::from(number_at(values, from, width));
    }
    let low = u64::from(number_at(values, from, 32));
    if value_at(values, from + 32) {
        low + 4_294_967_296
    } else {
        low
    }
}

/// The number of 32 bits that a field tells by its variables.
#[tactic(auto, using(world_variables::proofs::RoomSteps::few_bits, world_variables::proofs::Worlds::told_small))]
pub fn told_at(values: &[bool], from: usize, field: &Field) -> u32
    requires narrow { TellsWithin 32 field.now }
    requires within { from + field_width field.now ≤ length values.now }
    ensures { result ≡ shapes.told_from field.now (truth values.now) from }
{
    field.read(u64::from(number_at(values, from, field.width()))) as u32
}

/// The number of 33 bits that a field tells by its variables.
#[tactic(auto, using(crate::proofs::NumberSteps::long_bits))]
pub fn long_told_at(values: &[bool], from: usize, field: &Field) -> u64
    requires narrow { TellsWithin 33 field.now }
    requires within { from + field_width field.now ≤ length values.now }
    ensures value { result ≡ shapes.told_from field.now (truth values.now) from }
    ensures small { result < 2 ^ 33 }
{
    field.read(long_number_at(values, from, field.width()))
}

// ---- what numbers stand for

fn origin_of(code: u32) -> Origin
    ensures { result ≡ origin_of_code code }
{
    match code {
        0 => Origin::Igp,
        1 => Origin::Egp,
        _ => Origin::Incomplete,
    }
}

/// The address that a number above 2^32 stands for; a lower number stands for none.
pub fn address_of(n: u64) -> Option<Addr>
    requires { n < 2 ^ 33 }
    ensures { address_number result ≡ plain_address n }
{
    if n < 4_294_967_296 {
        None
    } else {
        Some(Addr((n - 4_294_967_296) as u32))
    }
}

/// Where a route was learnt, by the number that stands for it.
pub fn learnt_of(n: u64) -> Learnt
    requires { n < 2 ^ 33 }
    ensures { learnt_number result ≡ plain_address n }
{
    if n < 4_294_967_296 {
        Learnt::Local
    } else {
        Learnt::Peer(Addr((n - 4_294_967_296) as u32))
    }
}

// ---- the parts of a route

/// The route with the numbers by which it is preferred, as its variables say them.
#[tactic(auto, unfolding(bgp_variables::specs::Shapes::preferences_from, bgp_variables::specs::Shapes::preferences_width))]
pub fn with_preferences(values: &[bool], from: usize, room: &PreferencesRoom, rec: BgpRec) -> BgpRec
    requires room { shapes.ArePreferences room.now }
    requires within { from + shapes.preferences_width room.now ≤ length values.now }
    ensures { let told = shapes.preferences_from room.now (truth values.now) from in
        result ≡ record rec {
          weight = told.weight;
          local_pref = told.local_pref;
          med = told.med;
          origin = origin_of_code told.origin;
        } }
{
    let local_pref = from + usize::from(room.weight.width());
    let med = local_pref + usize::from(room.local_pref.width());
    let origin = med + usize::from(room.med.width());
    BgpRec {
        weight: told_at(values, from, &room.weight),
        local_pref: told_at(values, local_pref, &room.local_pref),
        med: told_at(values, med, &room.med),
        origin: origin_of(told_at(values, origin, &room.origin)),
        ..rec
    }
}

/// The path that variables say, by its length, its ends and the set of its tracked numbers.
#[tactic(auto, unfolding(bgp_variables::specs::Shapes::path_from, bgp_variables::specs::Shapes::path_width))]
pub fn path_at(values: &[bool], from: usize, room: &PathRoom) -> PathTold
    requires room { shapes.IsPath room.now }
    requires few { length room.now.numbers ≤ MOST_TRACKED }
    requires within { from + shapes.path_width room.now ≤ length values.now }
    ensures { let told = shapes.path_from room.now (truth values.now) from in
        result ≡ record { len = told.len; first = told.first; last = told.last; numbers = marked_number told.numbers } }
{
    let first = from + usize::from(room.len.width());
    let last = first + usize::from(room.first.width());
    let numbers = last + usize::from(room.last.width());
    PathTold {
        len: told_at(values, from, &room.len),
        first: told_at(values, first, &room.first),
        last: told_at(values, last, &room.last),
        numbers: marks_at(values, numbers, room.numbers.as_slice()),
    }
}

// ---- the whole

// How many variables the numbers by which a route is preferred have.
#[tactic(auto, unfolding(bgp_variables::specs::Shapes::preferences_width), using(world_variables::proofs::RoomSteps::few_bits))]
pub fn preferences_size(room: &PreferencesRoom) -> usize
    requires { shapes.ArePreferences room.now }
    ensures value { result ≡ shapes.preferences_width room.now }
    ensures few { result < 2 ^ 12 }
{
    usize::from(room.weight.width())
        + usize::from(room.local_pref.width())
        + usize::from(room.med.width())
        + usize::from(room.origin.width())
}

// How many a path has.
#[tactic(auto, unfolding(bgp_variables::specs::Shapes::path_width))]
pub fn path_size(room: &PathRoom) -> usize
    requires { length room.now.numbers ≤ MOST_TRACKED }
    ensures value { result ≡ shapes.path_width room.now }
    ensures few { result < 2 ^ 12 }
{
    usize::from(room.len.width())
        + usize::from(room.first.width())
        + usize::from(room.last.width())
        + marks_size(room.numbers.as_slice())
}

// Where the variables of the communities begin.
#[tactic(auto, unfolding(bgp_variables::specs::Shapes::shape_width))]
fn communities_start(from: usize, room: &BgpRoom, most: usize) -> usize
    requires room { shapes.IsBgpRoom room.now }
    requires few { HasFewMarks room.now }
    requires within { from + shapes.shape_width room.now ≤ most }
    ensures { result ≡ shapes.communities_start room.now from }
{
    from + usize::from(room.from.width())
        + preferences_size(&room.preferences)
        + path_size(&room.path)
}

// Where those of the next hop begin.
#[tactic(auto, unfolding(bgp_variables::specs::Shapes::shape_width))]
fn hop_start(from: usize, room: &BgpRoom, most: usize) -> usize
    requires room { shapes.IsBgpRoom room.now }
    requires few { HasFewMarks room.now }
    requires within { from + shapes.shape_width room.now ≤ most }
    ensures { result ≡ shapes.hop_start room.now from }
{
    communities_start(from, room, most) + marks_size(room.communities.as_slice())
}

/// The shape of the lists of the route that variables say, from one on.
#[tactic(auto, unfolding(bgp_variables::specs::Shapes::shape_from, bgp_variables::specs::Shapes::shape_width))]
pub fn lists_at(values: &[bool], from: usize, room: &BgpRoom) -> Shape
    requires room { shapes.IsBgpRoom room.now }
    requires few { HasFewMarks room.now }
    requires within { from + shapes.shape_width room.now ≤ length values.now }
    ensures { result ≡ lists_of (shapes.shape_from room.now (truth values.now) from) }
{
    let communities = communities_start(from, room, values.len());
    let cluster_len = hop_start(from, room, values.len())
        + usize::from(room.next_hop.width())
        + usize::from(room.originator.width());
    let clusters = cluster_len + usize::from(room.cluster_len.width());
    let path_from = communities - path_size(&room.path);
    let path = path_at(values, path_from, &room.path);
    Shape {
        len: path.len,
        first: path.first,
        last: path.last,
        numbers: path.numbers,
        communities: marks_at(values, communities, room.communities.as_slice()),
        cluster_len: told_at(values, cluster_len, &room.cluster_len),
        clusters: marks_at(values, clusters, room.clusters.as_slice()),
    }
}

// The plain fields of a route, whose lists are empty: whence it came, its next hop and its originator. The numbers by
// which it is preferred are 0.
#[tactic(auto, unfolding(bgp_variables::specs::Shapes::shape_from, bgp_variables::specs::Shapes::shape_width))]
fn peers_at(alloc: Global, values: &[bool], from: usize, room: &BgpRoom) -> BgpRec
    requires room { shapes.IsBgpRoom room.now }
    requires few { HasFewMarks room.now }
    requires within { from + shapes.shape_width room.now ≤ length values.now }
    ensures came { learnt_number result.from ≡ plain_address (shapes.shape_from room.now (truth values.now) from).from }
    ensures hop { result.next_hop.0 ≡ (shapes.shape_from room.now (truth values.now) from).next_hop }
    ensures originator { address_number result.originator
        ≡ plain_address (shapes.shape_from room.now (truth values.now) from).originator }
{
    let next_hop = hop_start(from, room, values.len());
    let originator = next_hop + usize::from(room.next_hop.width());
    BgpRec {
        from: learnt_of(long_told_at(values, from, &room.from)),
        weight: 0,
        local_pref: 0,
        path: List::new(alloc),
        origin: Origin::Igp,
        med: 0,
        communities: List::new(alloc),
        next_hop: Addr(told_at(values, next_hop, &room.next_hop)),
        originator: address_of(long_told_at(values, originator, &room.originator)),
        clusters: List::new(alloc),
    }
}

/// The route that variables say, from one on: its plain fields, and the shape of its lists. A number that stands for no
/// address or for no origin is read as the nearest that does; the shape of a real route has none.
#[tactic(auto, unfolding(bgp_variables::specs::Shapes::shape_from, bgp_variables::specs::Shapes::shape_width))]
pub fn known_at(alloc: Global, values: &[bool], from: usize, room: &BgpRoom) -> ShapeRec
    requires room { shapes.IsBgpRoom room.now }
    requires few { HasFewMarks room.now }
    requires within { from + shapes.shape_width room.now ≤ length values.now }
    ensures { (tracked : TrackedOf) → shapes.MarksTracked tracked room.now →
        route_of tracked result ≡ as_told (shapes.shape_from room.now (truth values.now) from) }
{
    let peers = peers_at(alloc, values, from, room);
    let start = from + usize::from(room.from.width());
    let rec = with_preferences(values, start, &room.preferences, peers);
    ShapeRec {
        rec,
        shape: lists_at(values, from, room),
    }
}

/// The route that may be there, by its variables; none where there is no room for one.
#[tactic(auto, using(crate::proofs::RouteSteps::few_marks, crate::proofs::RouteSteps::told_there))]
pub fn route_at(
    alloc: Global,
    tracked: &Tracked,
    values: &[bool],
    from: usize,
    room: &Option<BgpRoom>,
) -> Option<ShapeRec>
    requires few { AreFew tracked.now }
    requires room { IfSome room.now (shapes.IsRoomOf tracked.now) }
    requires within { from + shapes.bgp_width room.now ≤ length values.now }
    ensures { option_map (route_of tracked.now) result
        ≡ option_map as_told (shapes.bgp_from room.now (truth values.now) from) }
{
    match room {
        None => None,
        Some(room) => {
            if value_at(values, from) {
                Some(known_at(alloc, values, from + 1, room))
            } else {
                None
            }
        }
    }
}
