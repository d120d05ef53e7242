//! Routes at the lengths of a plan, put to all prefix lengths.

ghost use Rattle.std.specs.Prelude.{◌≡◌, ℕ, ◌*◌, ◌≤◌, [], IfOk, length, map, option_map};
ghost use Rattle.std.specs.Option.{option_copied};
ghost use Rattle.route_record.specs.declared.TheConstants as constants;
ghost use Rattle.route_record.specs.declared.tracked.Tracked.{Tracked as TrackedOf};
ghost use Rattle.path_rebuild.specs.Shapes.{route_of};
ghost use Rattle.bgp_variables.specs.Environments.{peers_count as peers_in};
ghost use Rattle.bgp_decoding.specs.Placed.{thing_in};

use mw_text::List;
use net_model::Net;
use path_rebuild::ShapeRec;
use plan_places::{Place, item_among};
use route_record::BgpRec;
use std::alloc::{AllocError, Global};

/// The plain fields of a route, with empty lists.
pub fn bare_route(alloc: Global, s: &ShapeRec) -> BgpRec
    ensures { result ≡ record s.now.rec { path = []; communities = []; clusters = [] } }
{
    BgpRec {
        from: s.rec.from,
        weight: s.rec.weight,
        local_pref: s.rec.local_pref,
        path: List::new(alloc),
        origin: s.rec.origin,
        med: s.rec.med,
        communities: List::new(alloc),
        next_hop: s.rec.next_hop,
        originator: s.rec.originator,
        clusters: List::new(alloc),
    }
}

// A copy of what is known of a route.
fn copied(alloc: Global, s: &ShapeRec) -> ShapeRec
    ensures { (tracked : TrackedOf) → route_of tracked result ≡ route_of tracked s.now }
{
    ShapeRec {
        rec: bare_route(alloc, s),
        shape: s.shape,
    }
}

/// What stands at a length of a row, where each row has one thing at each of these lengths.
pub fn route_there<'a>(lens: &[u8], told: &'a [Option<ShapeRec>], p: Place) -> Option<&'a ShapeRec>
    requires few { length lens.now ≤ constants.LENGTHS }
    ensures { (rows : ℕ) → length told.now ≡ rows * length lens.now →
        option_copied result ≡ thing_in lens.now rows told.now p }
{
    match item_among(lens, told, p.router, p.len) {
        None => None,
        Some(there) => there.as_ref(),
    }
}

/// A copy of it.
pub fn placed_at(
    alloc: Global,
    lens: &[u8],
    told: &[Option<ShapeRec>],
    p: Place,
) -> Option<ShapeRec>
    requires few { length lens.now ≤ constants.LENGTHS }
    ensures { (tracked : TrackedOf) (rows : ℕ) → length told.now ≡ rows * length lens.now →
        option_map (route_of tracked) result ≡ option_map (route_of tracked) (thing_in lens.now rows told.now p) }
{
    match route_there(lens, told, p) {
        None => None,
        Some(s) => Some(copied(alloc, s)),
    }
}

/// What stands at places of the rows of external ends.
pub fn placed(
    alloc: Global,
    net: &Net,
    lens: &[u8],
    told: &[Option<ShapeRec>],
    places: &[Place],
) -> Result<Vec<Option<ShapeRec>>, AllocError>
    requires few { length lens.now ≤ constants.LENGTHS }
    requires long { length told.now ≡ peers_in net.now.files * length lens.now }
    ensures { IfOk result (λ made. map (option_map (route_of net.now.tracked)) made.items
        ≡ map (λ p. option_map (route_of net.now.tracked) (thing_in lens.now (peers_in net.now.files) told.now p))
        places.now) }
{
    let mut made = Vec::new(alloc);
    for p in places {
        made.push(placed_at(alloc, lens, told, *p))?;
    }
    Ok(made)
}
