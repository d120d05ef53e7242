//! Records of routes that are known but for their metric, as terms.

ghost use Rattle.std.specs.Prelude.{◌≡◌, ℕ, ◌+◌, ◌^◌, ◌<◌, ◌≤◌, Bool, [], IfOk, length, map, max};
ghost use Rattle.ios_ast.specs.Deciding.{carries};
ghost use Rattle.route_record.specs.Origins.{origin_code};
ghost use Rattle.route_shapes.specs.Shapes.{path_shape, route_shape};
ghost use Rattle.sym_policy.specs.MapRecs.{HasMarks, HasTracked, attributes_at, map_rec_end};
ghost use Rattle.sym_policy.specs.Routes.{preferences_at, preferences_end, rest_end, route_at, route_end, HasRows};
ghost use Rattle.sym_policy.specs.Routes.{IsBare};
ghost use Rattle.sym_rib.specs.Known.{known_attributes, IsOwn};
ghost use Rattle.sym_rib.specs.KnownParts.{HasPartsOf, PutsParts};
ghost use Rattle.term_store.specs.Terms.{Reading, size, at};
ghost use Rattle.term_store.specs.Reading.{Reads, Builds, Gives};
ghost use Rattle.term_arith.specs.Bits.{bits, number, ids_end};

use crate::known_parts::HeldParts;
use route_record::{Origin, Tracked};
use std::alloc::{AllocError, Global};
use sym_policy::{
    SymBgp, SymMapRec, SymPreferences, SymRest, SymRoute, bare_rest, joined, no_path, path_of,
};
use term_arith::gates::constant_node;
use term_arith::{Bits, constant, copy, zeros};
use term_store::{NodeId, Terms};

/// What is known of a route with an empty path and no communities, beside its metric.
#[derive(Clone, Copy)]
pub(crate) struct Known {
    pub(crate) weight: u32,
    pub(crate) local_pref: u32,
    pub(crate) origin: Origin,
    pub(crate) type1: bool,
}

/// A number of 32 bits that is known.
pub(crate) fn word(alloc: Global, terms: &mut Terms, value: u32) -> Result<Bits, AllocError>
    ensures builds { Builds terms.old terms.new }
    ensures within { IfOk result (λ r. ids_end r.nodes.items ≤ size terms.new) }
    ensures width { IfOk result (λ r. length r.nodes.items ≡ 32) }
    ensures value { Gives terms.new result (λ w r. number w r.nodes.items ≡ value) }
{
    constant(alloc, terms, u64::from(value), 32)
}

fn number_of_origin(origin: Origin) -> u64
    ensures value { result ≡ origin_code origin }
    ensures small { result < 2 ^ 2 }
{
    match origin {
        Origin::Igp => 0,
        Origin::Egp => 1,
        Origin::Incomplete => 2,
    }
}

/// The numbers by which a route that is known but for its metric is preferred.
fn known_preferences(
    alloc: Global,
    terms: &mut Terms,
    known: &Known,
    med: Bits,
) -> Result<SymPreferences, AllocError>
    requires wide { length med.nodes.items ≡ 32 }
    requires med { ids_end med.nodes.items ≤ size terms.old }
    ensures builds { Builds terms.old terms.new }
    ensures within { IfOk result (λ r. preferences_end r ≤ size terms.new) }
    ensures value { Gives terms.new result (λ w r. preferences_at w r ≡ record {
      weight = known.now.weight;
      local_pref = known.now.local_pref;
      med = number w med.nodes.items;
      origin = origin_code known.now.origin;
    }) }
{
    let weight = word(alloc, terms, known.weight)?;
    let local_pref = word(alloc, terms, known.local_pref)?;
    let origin = constant(alloc, terms, number_of_origin(known.origin), 2)?;
    Ok(SymPreferences {
        weight,
        local_pref,
        med,
        origin,
    })
}

/// What route maps see of a route with an empty path and no communities.
#[tactic(auto, using(sym_policy::proofs::BareRows::empty_path))]
fn known_route(
    alloc: Global,
    terms: &mut Terms,
    tracked: &Tracked,
    preferences: SymPreferences,
    type1: bool,
) -> Result<SymRoute, AllocError>
    requires { preferences_end preferences ≤ size terms.old }
    ensures builds { Builds terms.old terms.new }
    ensures within { IfOk result (λ r. route_end r ≤ size terms.new) }
    ensures rows { IfOk result (λ r. HasRows tracked.now r) }
    ensures value { Gives terms.new result (λ w r. route_at w r ≡ record {
      preferences = preferences_at w preferences;
      path = path_shape tracked.now.numbers [];
      communities = map (carries []) tracked.now.communities;
      type1 = type1;
    }) }
{
    let type1 = constant_node(terms, type1)?;
    let communities = zeros(alloc, terms, tracked.communities.as_slice().len())?;
    let path = no_path(alloc, terms, tracked)?;
    Ok(SymRoute {
        preferences,
        path,
        communities,
        type1,
    })
}

/// No next hop, no originator, no peer and no clusters.
fn own_part(alloc: Global, terms: &mut Terms, tracked: &Tracked) -> Result<SymRest, AllocError>
    ensures builds { Builds terms.old terms.new }
    ensures within { IfOk result (λ r. rest_end r ≤ size terms.new) }
    ensures rows { IfOk result (λ r. length r.clusters.nodes.items ≡ length tracked.now.clusters) }
    ensures value { Gives terms.new result (λ w r. IsBare w tracked.now 0 r) }
{
    let hop = word(alloc, terms, 0)?;
    let rest = bare_rest(alloc, terms, tracked, hop)?;
    Ok(rest)
}

/// A record of a route with an empty path and no communities, which is there where a node is true. Its metric is given.
#[tactic(auto, using(crate::proofs::KnownRoutes::known_steps))]
pub(crate) fn known_rec(
    alloc: Global,
    terms: &mut Terms,
    tracked: &Tracked,
    valid: NodeId,
    known: &Known,
    med: Bits,
) -> Result<SymMapRec, AllocError>
    requires wide { length med.nodes.items ≡ 32 }
    requires valid { valid.0 < size terms.old }
    requires med { ids_end med.nodes.items ≤ size terms.old }
    ensures builds { Builds terms.old terms.new }
    ensures within { IfOk result (λ r. map_rec_end r ≤ size terms.new) }
    ensures valid { IfOk result (λ r. r.bgp.valid ≡ valid) }
    ensures marks { IfOk result (λ r. HasMarks tracked.now r) }
    ensures rows { IfOk result (λ r. HasTracked tracked.now r.bgp) }
    ensures own { Gives terms.new result (λ w r. IsOwn w tracked.now r) }
    ensures value { Gives terms.new result (λ w r. attributes_at w r
        ≡ route_shape tracked.now
        (known_attributes known.now.weight known.now.local_pref (origin_code known.now.origin) known.now.type1
        (number w med.nodes.items))) }
{
    let preferences = known_preferences(alloc, terms, known, med)?;
    let route = known_route(alloc, terms, tracked, preferences, known.type1)?;
    let rest = own_part(alloc, terms, tracked)?;
    Ok(joined(valid, route, rest))
}

/// A copy of the path and the communities of a BGP route.
pub(crate) fn held_parts(alloc: Global, held: &SymBgp) -> Result<HeldParts, AllocError>
    ensures { IfOk result (λ r. HasPartsOf held.now r) }
{
    let communities = copy(alloc, &held.communities)?;
    let path = path_of(alloc, held)?;
    Ok(HeldParts { path, communities })
}

/// A record with that path and those communities, which is there where a node is true.
pub(crate) fn put_held(rec: SymMapRec, valid: NodeId, parts: HeldParts) -> SymMapRec
    ensures { PutsParts rec valid parts result }
{
    let mut made = rec;
    made.bgp.valid = valid;
    made.bgp.len = parts.path.len;
    made.bgp.first = parts.path.first;
    made.bgp.last = parts.path.last;
    made.bgp.numbers = parts.path.numbers;
    made.bgp.communities = parts.communities;
    made
}
