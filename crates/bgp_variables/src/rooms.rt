//! What the parts of a BGP route can be.

ghost use Rattle.std.specs.Prelude.{◌≡◌, IfOk, length, replicate};
ghost use Rattle.net_parts.specs.World as world;
ghost use Rattle.slot_places.specs.declared.fields.Field.TheVariants.{Bits};
ghost use Rattle.std.specs.List.{list_all};
ghost use Rattle.held_values.specs.Rooms.{values_room};
ghost use Rattle.bgp_variables.specs.Rooms as rooms;
ghost use Rattle.bgp_variables.specs.Shapes.{IsRoomOf};

use held_values::{HeldValues, held_values};
use ios_ast::Neighbour;
use mw_text::List;
use net_model::Net;
use route_record::Tracked;
use slot_places::{Field, width_for};
use std::alloc::{AllocError, Global};

/// What the numbers can be by which routes are preferred.
#[derive(Drop)]
pub struct PreferencesRoom {
    pub weight: Field,
    pub local_pref: Field,
    pub med: Field,
    pub origin: Field,
}

/// What a path can be: its length, its ends, and which tracked numbers it may have.
#[derive(Drop)]
pub struct PathRoom {
    pub len: Field,
    pub first: Field,
    pub last: Field,
    pub numbers: List<bool>,
}

/// What the parts of a BGP route can be, and which tracked communities and clusters it may have.
#[derive(Drop)]
pub struct BgpRoom {
    pub from: Field,
    pub preferences: PreferencesRoom,
    pub path: PathRoom,
    pub communities: List<bool>,
    pub next_hop: Field,
    pub originator: Field,
    pub cluster_len: Field,
    pub clusters: List<bool>,
}

// A number that is known.
fn only(alloc: Global, n: u32) -> Result<Field, AllocError>
    ensures { IfOk result (λ r. r ≡ rooms.only n) }
{
    let mut values = List::new(alloc);
    values.items.push(n)?;
    Ok(Field::Among(values))
}

// The same for so many marks.
fn marks(alloc: Global, may: bool, count: usize) -> Result<List<bool>, AllocError>
    ensures { IfOk result (λ r. r ≡ replicate count may) }
{
    Ok(List {
        items: vec![in alloc; may; count]?,
    })
}

// A number that only a reflected route has.
fn reflected(tracked: &Tracked, field: Field) -> Field
    ensures { result ≡ rooms.reflected tracked.now field }
{
    if tracked.clusters.as_slice().len() == 0 {
        Field::Bits(0)
    } else {
        field
    }
}

// How long a cluster list is, which names no reflector twice.
fn clusters_field(tracked: &Tracked) -> Field
    ensures { result ≡ rooms.clusters_field tracked.now }
{
    let many = tracked.clusters.as_slice().len() as u64;
    reflected(tracked, Field::Bits(width_for(many)))
}

// What the attributes of reflectors can be (RFC 4456, section 8).
#[derive(Drop)]
struct Reflection {
    originator: Field,
    cluster_len: Field,
    clusters: List<bool>,
}

// Of an announcement: it was not reflected.

fn no_reflection(alloc: Global, tracked: &Tracked) -> Result<Reflection, AllocError>
    ensures { IfOk result (λ r. r ≡ record {
      originator = rooms.only 0;
      cluster_len = rooms.only 0;
      clusters = rooms.no_marks tracked.now.clusters;
    }) }
{
    let originator = only(alloc, 0)?;
    let cluster_len = only(alloc, 0)?;
    let clusters = marks(alloc, false, tracked.clusters.as_slice().len())?;
    Ok(Reflection {
        originator,
        cluster_len,
        clusters,
    })
}

fn is_word(n: u32) -> bool
    ensures { result ≡ world.is_word n }
{
    let _n = n;
    true
}

fn are_words(values: &[u32]) -> bool
    ensures { result ≡ list_all world.is_word values.now }
{
    values.iter().all(|n| is_word(*n))
}

// A field for numbers of 32 bits.
fn of_words(field: Field) -> Field
    ensures { result ≡ rooms.of_words field }
{
    match field {
        Field::Bits(width) => {
            if width <= 32 {
                Field::Bits(width)
            } else {
                Field::Bits(32)
            }
        }
        Field::Among(values) => {
            if are_words(values.as_slice()) {
                Field::Among(values)
            } else {
                Field::Bits(32)
            }
        }
        Field::Addresses(_) => Field::Bits(32),
    }
}

// A field for numbers of 33 bits, which stand for addresses that may be missing.
fn of_addresses(field: Field) -> Field
    ensures { result ≡ rooms.of_addresses field }
{
    match field {
        Field::Bits(width) => {
            if width <= 33 {
                Field::Bits(width)
            } else {
                Field::Bits(33)
            }
        }
        Field::Among(values) => {
            if are_words(values.as_slice()) {
                Field::Among(values)
            } else {
                Field::Bits(33)
            }
        }
        Field::Addresses(addresses) => {
            if are_words(addresses.as_slice()) {
                Field::Addresses(addresses)
            } else {
                Field::Bits(33)
            }
        }
    }
}

// The numbers of a held route that lines of the files say, its peers and its originators.
fn worded_values(alloc: Global, net: &Net) -> Result<HeldValues, AllocError>
    ensures { IfOk result (λ r. r ≡ record {
      from = rooms.of_addresses (values_room net.now.files).from;
      originator = rooms.of_addresses (values_room net.now.files).originator;
      weight = rooms.of_words (values_room net.now.files).weight;
      local_pref = rooms.of_words (values_room net.now.files).local_pref;
      med = rooms.of_words (values_room net.now.files).med;
      next_hop = rooms.of_words (values_room net.now.files).next_hop;
      first = rooms.of_words (values_room net.now.files).first;
      last = rooms.of_words (values_room net.now.files).last;
    }) }
{
    let HeldValues {
        from,
        originator,
        weight,
        local_pref,
        med,
        next_hop,
        first,
        last,
    } = held_values(alloc, net)?;
    Ok(HeldValues {
        from: of_addresses(from),
        originator: of_addresses(originator),
        weight: of_words(weight),
        local_pref: of_words(local_pref),
        med: of_words(med),
        next_hop: of_words(next_hop),
        first: of_words(first),
        last: of_words(last),
    })
}

// The path of an announcement whose first number that field tells.
fn path_from(alloc: Global, tracked: &Tracked, first: Field) -> Result<PathRoom, AllocError>
    ensures { IfOk result (λ r. r ≡ record {
      len = Bits 8;
      first = first;
      last = Bits 32;
      numbers = rooms.all_marks tracked.now.numbers;
    }) }
{
    let numbers = marks(alloc, true, tracked.numbers.as_slice().len())?;
    Ok(PathRoom {
        len: Field::Bits(8),
        first,
        last: Field::Bits(32),
        numbers,
    })
}

// The lists of an announcement.
#[derive(Drop)]
struct Lists {
    communities: List<bool>,
    reflection: Reflection,
}

// The marks of a held route.
#[derive(Drop)]
struct HeldMarks {
    numbers: List<bool>,
    communities: List<bool>,
    clusters: List<bool>,
}

fn held_marks(alloc: Global, tracked: &Tracked) -> Result<HeldMarks, AllocError>
    ensures { IfOk result (λ r. r ≡ record {
      numbers = rooms.all_marks tracked.now.numbers;
      communities = rooms.all_marks tracked.now.communities;
      clusters = rooms.all_marks tracked.now.clusters;
    }) }
{
    let numbers = marks(alloc, true, tracked.numbers.as_slice().len())?;
    let communities = marks(alloc, true, tracked.communities.as_slice().len())?;
    let clusters = marks(alloc, true, tracked.clusters.as_slice().len())?;
    Ok(HeldMarks {
        numbers,
        communities,
        clusters,
    })
}

// A held route, of parts that are known: nothing fails here, where so much is owned.
fn held_of(tracked: &Tracked, values: HeldValues, marks: HeldMarks) -> BgpRoom
    ensures { result ≡ record {
      from = values.from;
      preferences = record {
        weight = values.weight;
        local_pref = values.local_pref;
        med = values.med;
        origin = Bits 2;
      };
      path = record { len = Bits 8; first = values.first; last = values.last; numbers = marks.numbers };
      communities = marks.communities;
      next_hop = values.next_hop;
      originator = rooms.reflected tracked.now values.originator;
      cluster_len = rooms.clusters_field tracked.now;
      clusters = marks.clusters;
    } }
{
    BgpRoom {
        from: values.from,
        preferences: PreferencesRoom {
            weight: values.weight,
            local_pref: values.local_pref,
            med: values.med,
            origin: Field::Bits(2),
        },
        path: PathRoom {
            len: Field::Bits(8),
            first: values.first,
            last: values.last,
            numbers: marks.numbers,
        },
        communities: marks.communities,
        next_hop: values.next_hop,
        originator: reflected(tracked, values.originator),
        cluster_len: clusters_field(tracked),
        clusters: marks.clusters,
    }
}

/// What a held route of a network of these files can be: its weight, local preference, next hop and first AS number are
/// among those that lines of the files say, where these are few (RFC 4271, section 5.1), and so is the peer of whom it is
/// learnt, if any; its originator is a router, if any (RFC 4456, section 8). Where no router has an external peer so is its
/// last AS number, and its MED is among those that lines say or has room in the bits of the metrics of OSPF routes.
#[tactic(auto, using(crate::proofs::RoomSteps::held_is_room), unfolding(crate::specs::Rooms::held_room))]
pub fn held_room(alloc: Global, tracked: &Tracked, net: &Net) -> Result<BgpRoom, AllocError>
    ensures value { IfOk result (λ r. r ≡ rooms.held_room tracked.now net.now.files) }
    ensures room { IfOk result (IsRoomOf tracked.now) }
{
    let marks = held_marks(alloc, tracked)?;
    let values = worded_values(alloc, net)?;
    Ok(held_of(tracked, values, marks))
}

// What an announcement tells of its peer.
#[derive(Drop)]
struct Sender {
    from: Field,
    first: Field,
    next_hop: Field,
}

fn sender_of(alloc: Global, neighbour: &Neighbour) -> Result<Sender, AllocError>
    ensures { IfOk result (λ r. r ≡ record {
      from = rooms.only 0;
      first = rooms.only neighbour.now.asn;
      next_hop = rooms.only neighbour.now.addr.0;
    }) }
{
    let from = only(alloc, 0)?;
    let first = only(alloc, neighbour.asn)?;
    let next_hop = only(alloc, neighbour.addr.0)?;
    Ok(Sender {
        from,
        first,
        next_hop,
    })
}

// An announcement has neither weight nor local preference.
fn announced_preferences(alloc: Global) -> Result<PreferencesRoom, AllocError>
    ensures { IfOk result (λ r. r ≡ record {
      weight = rooms.only 0;
      local_pref = rooms.only 0;
      med = Bits 32;
      origin = Bits 2;
    }) }
{
    let weight = only(alloc, 0)?;
    let local_pref = only(alloc, 0)?;
    Ok(PreferencesRoom {
        weight,
        local_pref,
        med: Field::Bits(32),
        origin: Field::Bits(2),
    })
}

fn lists_of(alloc: Global, tracked: &Tracked) -> Result<Lists, AllocError>
    ensures { IfOk result (λ r. r ≡ record {
      communities = rooms.all_marks tracked.now.communities;
      reflection = record {
        originator = rooms.only 0;
        cluster_len = rooms.only 0;
        clusters = rooms.no_marks tracked.now.clusters;
      };
    }) }
{
    let communities = marks(alloc, true, tracked.communities.as_slice().len())?;
    let reflection = no_reflection(alloc, tracked)?;
    Ok(Lists {
        communities,
        reflection,
    })
}

// The room of announcements of a sender.
fn announced(
    alloc: Global,
    tracked: &Tracked,
    sender: Sender,
    preferences: PreferencesRoom,
) -> Result<BgpRoom, AllocError>
    ensures { IfOk result (λ r. r ≡ record {
      from = sender.from;
      preferences = preferences;
      path = record {
        len = Bits 8;
        first = sender.first;
        last = Bits 32;
        numbers = rooms.all_marks tracked.now.numbers;
      };
      communities = rooms.all_marks tracked.now.communities;
      next_hop = sender.next_hop;
      originator = rooms.only 0;
      cluster_len = rooms.only 0;
      clusters = rooms.no_marks tracked.now.clusters;
    }) }
{
    let Sender {
        from,
        first,
        next_hop,
    } = sender;
    let path = path_from(alloc, tracked, first)?;
    let lists = lists_of(alloc, tracked)?;
    Ok(BgpRoom {
        from,
        preferences,
        path,
        communities: lists.communities,
        next_hop,
        originator: lists.reflection.originator,
        cluster_len: lists.reflection.cluster_len,
        clusters: lists.reflection.clusters,
    })
}

/// What an external peer announces, as the message that arrives of it.
#[tactic(auto, using(crate::proofs::RoomSteps::announcement_is_room))]
pub fn announcement_room(
    alloc: Global,
    tracked: &Tracked,
    neighbour: &Neighbour,
) -> Result<BgpRoom, AllocError>
    ensures value { IfOk result (λ r. r ≡ rooms.announcement_room tracked.now neighbour.now) }
    ensures room { IfOk result (IsRoomOf tracked.now) }
{
    let _asn = neighbour.asn;
    let _addr = neighbour.addr.0;
    let sender = sender_of(alloc, neighbour)?;
    let preferences = announced_preferences(alloc)?;
    let room = announced(alloc, tracked, sender, preferences)?;
    Ok(room)
}
