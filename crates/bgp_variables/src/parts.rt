//! The parts of a route as terms of new variables.

ghost use Rattle.std.specs.Prelude.{◌≡◌, ℕ, ◌+◌, ◌<◌, ◌≤◌, IfOk, OnOk, length};
ghost use Rattle.term_store.specs.Terms.{Reading, at, size};
ghost use Rattle.term_store.specs.Reading.{Reads, Grows, Gives};
ghost use Rattle.term_arith.specs.Bits.{bits, number, ids_end};
ghost use Rattle.slot_places.specs.Values.{field_width};
ghost use Rattle.sym_policy.specs.Routes.{path_at, path_end, preferences_at, preferences_end, rest_end, route_at, route_end};
ghost use Rattle.sym_bgp.specs.Joined.{rest_at};
ghost use Rattle.world_variables.specs.Unknowns.{TellsWithin};
ghost use Rattle.bgp_variables.specs.Marks.{marks_width};
ghost use Rattle.bgp_variables.specs.Parts.{HasSeenMarks, rest_from, rest_width, seen_from, seen_width};
ghost use Rattle.bgp_variables.specs.Shapes.{ArePreferences, IsPath, path_from, path_width, preferences_from, preferences_width};

use crate::marks::open_marks;
use crate::rooms::{BgpRoom, PathRoom, PreferencesRoom};
use std::alloc::{AllocError, Global};
use sym_policy::{SymPath, SymPreferences, SymRest, SymRoute};
use term_arith::Bits;
use term_store::{NodeId, Terms};
use world_variables::fields::open_field;

// The numbers by which a route is preferred.
#[tactic(auto, using(failed_links::proofs::Steps::grows_grown), unfolding(crate::specs::Shapes::preferences_from, crate::specs::Shapes::preferences_width))]
fn open_preferences(
    alloc: Global,
    terms: &mut Terms,
    room: &PreferencesRoom,
) -> Result<SymPreferences, AllocError>
    requires { ArePreferences room.now }
    ensures grows { Grows terms.old terms.new }
    ensures within { IfOk result (λ r. preferences_end r ≤ size terms.new) }
    ensures vars { OnOk result (terms.new.vars ≡ terms.old.vars + preferences_width room.now) }
    ensures value { Gives terms.new result (λ w r. preferences_at w r
        ≡ preferences_from room.now w.variable terms.old.vars) }
{
    let weight = open_field(alloc, terms, &room.weight, 32)?;
    let local_pref = open_field(alloc, terms, &room.local_pref, 32)?;
    let med = open_field(alloc, terms, &room.med, 32)?;
    let origin = open_field(alloc, terms, &room.origin, 2)?;
    Ok(SymPreferences {
        weight,
        local_pref,
        med,
        origin,
    })
}

// A path.
#[tactic(auto, using(failed_links::proofs::Steps::grows_grown), unfolding(crate::specs::Shapes::path_from, crate::specs::Shapes::path_width))]
fn open_path(alloc: Global, terms: &mut Terms, room: &PathRoom) -> Result<SymPath, AllocError>
    requires { IsPath room.now }
    ensures grows { Grows terms.old terms.new }
    ensures within { IfOk result (λ r. path_end r ≤ size terms.new) }
    ensures rows { IfOk result (λ r. length r.numbers.nodes.items ≡ length room.now.numbers) }
    ensures vars { OnOk result (terms.new.vars ≡ terms.old.vars + path_width room.now) }
    ensures value { Gives terms.new result (λ w r. path_at w r ≡ path_from room.now w.variable terms.old.vars) }
{
    let len = open_field(alloc, terms, &room.len, 32)?;
    let first = open_field(alloc, terms, &room.first, 32)?;
    let last = open_field(alloc, terms, &room.last, 32)?;
    let numbers = open_marks(alloc, terms, room.numbers.as_slice())?;
    Ok(SymPath {
        len,
        first,
        last,
        numbers,
    })
}

// What route maps see of a route, with a node in place of that of a redistributed one.
#[tactic(auto, using(failed_links::proofs::Steps::grows_grown))]
pub(crate) fn open_route(
    alloc: Global,
    terms: &mut Terms,
    room: &BgpRoom,
    type1: NodeId,
) -> Result<SymRoute, AllocError>
    requires preferences { ArePreferences room.now.preferences }
    requires path { IsPath room.now.path }
    requires type1 { type1.0 < size terms.old }
    ensures grows { Grows terms.old terms.new }
    ensures within { IfOk result (λ r. route_end r ≤ size terms.new) }
    ensures rows { IfOk result (λ r. HasSeenMarks room.now r) }
    ensures vars { OnOk result (terms.new.vars ≡ terms.old.vars + seen_width room.now) }
    ensures value { Gives terms.new result (λ w r. route_at w r
        ≡ seen_from room.now (at w type1) w.variable terms.old.vars) }
{
    let preferences = open_preferences(alloc, terms, &room.preferences)?;
    let path = open_path(alloc, terms, &room.path)?;
    let communities = open_marks(alloc, terms, room.communities.as_slice())?;
    Ok(SymRoute {
        preferences,
        path,
        communities,
        type1,
    })
}

// What route maps never set of a route, with the number of its peer.
#[tactic(auto, using(failed_links::proofs::Steps::grows_grown))]
pub(crate) fn open_rest(
    alloc: Global,
    terms: &mut Terms,
    room: &BgpRoom,
    from: Bits,
) -> Result<SymRest, AllocError>
    requires next_hop { TellsWithin 32 room.now.next_hop }
    requires originator { TellsWithin 33 room.now.originator }
    requires cluster_len { TellsWithin 32 room.now.cluster_len }
    requires from { ids_end from.nodes.items ≤ size terms.old }
    requires wide { length from.nodes.items ≡ 33 }
    ensures grows { Grows terms.old terms.new }
    ensures within { IfOk result (λ r. rest_end r ≤ size terms.new) }
    ensures rows { IfOk result (λ r. length r.clusters.nodes.items ≡ length room.now.clusters) }
    ensures vars { OnOk result (terms.new.vars ≡ terms.old.vars + rest_width room.now) }
    ensures value { Gives terms.new result (λ w r. rest_at w r
        ≡ rest_from room.now (number w from.nodes.items) w.variable terms.old.vars) }
{
    let next_hop = open_field(alloc, terms, &room.next_hop, 32)?;
    let originator = open_field(alloc, terms, &room.originator, 33)?;
    let cluster_len = open_field(alloc, terms, &room.cluster_len, 32)?;
    let clusters = open_marks(alloc, terms, room.clusters.as_slice())?;
    Ok(SymRest {
        next_hop,
        originator,
        from,
        cluster_len,
        clusters,
    })
}
