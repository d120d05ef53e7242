//! What is open of slots, as values of variables say it, and the entry of a table that follows.

ghost use Rattle.std.specs.Prelude.{◌≡◌, ◌+◌, ◌<◌, ◌≤◌, ◌++◌, ◌∷◌, [], ◌*◌, All, IfOk, IfSome, OnOk, length};
ghost use Rattle.route_record.specs.declared.TheConstants as constants;
ghost use Rattle.term_store.specs.Terms.{truth};
ghost use Rattle.slot_places.specs.Rooms.{rooms_of as all_rooms};
ghost use Rattle.world_variables.specs.Slots.{entry_of_bit, source_with};
ghost use Rattle.world_variables.specs.Unknowns.{HasWords, rooms_at, unknowns_from, unknowns_width};

use crate::decoding::{unknown_at, unknown_width};
use crate::unknowns::Unknown;
use ios_ast::File;
use mw_text::{List, Prefix};
use plan_places::Place;
use route_record::{RibEntry, RibSource};
use slot_places::{Room, room_for};
use std::alloc::{AllocError, Global};

// The source whose number has that bit of value 2, and else the bits of another's.
fn source_with_bit(dynamic: bool, source: RibSource) -> RibSource
    ensures { result ≡ source_with dynamic source }
{
    match (dynamic, source) {
        (true, RibSource::Connected | RibSource::Ebgp) => RibSource::Ebgp,
        (true, RibSource::Static | RibSource::Ospf) => RibSource::Ospf,
        (false, RibSource::Connected | RibSource::Ebgp) => RibSource::Connected,
        (false, RibSource::Static | RibSource::Ospf) => RibSource::Static,
        (_, RibSource::Ibgp) => RibSource::Ibgp,
    }
}

/// The entry whose source's number has that bit of value 2, and else the bits of the entry's.
pub fn entry_with_bit(dynamic: bool, entry: RibEntry) -> RibEntry
    ensures { result ≡ entry_of_bit dynamic entry }
{
    RibEntry {
        source: source_with_bit(dynamic, entry.source),
        distance: entry.distance,
    }
}

fn put_unknown(made: &mut List<Unknown>, next: Unknown) -> Result<(), AllocError>
    ensures { OnOk result (made.new ≡ made.old ++ next ∷ []) }
{
    made.items.push(next)?;
    Ok(())
}

/// What is open of the slots at some places, whose variables begin at one.
#[tactic(auto, using(crate::proofs::DecodingSteps::unknown_steps))]
pub fn unknowns_at(
    alloc: Global,
    values: &[bool],
    from: usize,
    files: &[File],
    destinations: &Prefix,
    rooms: &[Option<Room>],
    places: &[Place],
) -> Result<List<Unknown>, AllocError>
    requires rooms { rooms.now ≡ all_rooms files.now destinations.now }
    requires metrics { All (λ o. IfSome o (λ r. HasWords r.metric)) rooms.now }
    requires short { All (λ p. p.len < constants.LENGTHS) places.now }
    requires within { from + unknowns_width (rooms_at files.now destinations.now places.now) ≤ length values.now }
    ensures { IfOk result (λ r. r ≡ unknowns_from (rooms_at files.now destinations.now places.now) (truth values.now) from) }
{
    let mut at = from;
    let mut made = List::new(alloc);
    for p in places {
        let room = room_for(files, rooms, p.router, p.len);
        put_unknown(&mut made, unknown_at(values, at, room))?;
        at += unknown_width(room);
    }
    Ok(made)
}
