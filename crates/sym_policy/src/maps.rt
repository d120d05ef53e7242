//! Route maps over terms.

ghost use Rattle.std.specs.Prelude.{◌≡◌, ℕ, ◌+◌, ◌<◌, ◌≤◌, Bool, true, Some, IfOk, length};
ghost use Rattle.std.specs.Option.{option_map, option_and_then};
ghost use Rattle.term_store.specs.Terms.{Reading, size, at};
ghost use Rattle.term_store.specs.Reading.{Reads, Builds, Gives};
ghost use Rattle.term_arith.specs.Bits.{ids_end};
ghost use Rattle.ios_ast.specs.Maps.{mapped};
ghost use Rattle.ios_ast.specs.Setting.{Attributes};
ghost use Rattle.route_record.specs.Sides.{at_external};
ghost use Rattle.sym_policy.specs.MapRecs.{attributes_at, map_rec_at, map_rec_end, HasMarks, IsMade, KeepsRest};
ghost use Rattle.sym_policy.specs.Records.{prefix_of};
ghost use Rattle.sym_policy.specs.Routes.{route_at, route_end, made_at, made_end, HasRows};
ghost use Rattle.route_shapes.specs.Shapes.{all_tracked, route_shape, shape_mapped};

use crate::copies::{joined, rest_of, route_of};
use crate::decisions::sym_decided;
use crate::lines::Grounds;
use crate::order::ordered;
use crate::parts::{SymMade, SymRoute};
use crate::records::SymMapRec;
use ios_ast::{Policies, RouteMap};
use route_record::{Side, Tracked};
use std::alloc::{AllocError, Global};
use term_arith::Bits;
use term_arith::gates::both;
use term_store::Terms;

/// A record with what a map makes of it: it is there where it was there before and the map permits it.
fn with_made(
    alloc: Global,
    terms: &mut Terms,
    rec: &SymMapRec,
    made: SymMade,
) -> Result<SymMapRec, AllocError>
    requires nodes { map_rec_end rec.now ≤ size terms.old }
    requires made { made_end made ≤ size terms.old }
    ensures builds { Builds terms.old terms.new }
    ensures made { IfOk result (λ r. IsMade terms.new rec.now made r) }
{
    let rest = rest_of(alloc, &rec.bgp)?;
    let valid = both(terms, rec.bgp.valid, made.valid)?;
    Ok(joined(valid, made.route, rest))
}

/// What a route map makes of a route.
fn sym_mapped(
    alloc: Global,
    terms: &mut Terms,
    grounds: &Grounds<'_>,
    map: &RouteMap,
    route: &SymRoute,
    external: bool,
) -> Result<SymMade, AllocError>
    requires long { grounds.now.len ≤ 32 }
    requires wide { length grounds.now.dst.now.nodes.items ≡ 32 }
    requires dst { ids_end grounds.now.dst.now.nodes.items ≤ size terms.old }
    requires rows { HasRows grounds.now.tracked.now route.now }
    requires nodes { route_end route.now ≤ size terms.old }
    ensures builds { Builds terms.old terms.new }
    ensures within { IfOk result (λ r. made_end r ≤ size terms.new) }
    ensures rows { IfOk result (λ r. HasRows grounds.now.tracked.now r.route) }
    ensures value { Gives terms.new result (λ w r. made_at w r
        ≡ shape_mapped grounds.now.policies.now map.now.entries grounds.now.tracked.now
        (prefix_of w grounds.now.dst.now grounds.now.len) external (route_at w route.now)) }
{
    let entries = ordered(alloc, map.entries.as_slice())?;
    sym_decided(alloc, terms, grounds, external, route, entries.as_slice())
}

/// What a route map makes of what it sees of a record.
#[tactic(auto, using(crate::proofs::SameNodes::seen_steps))]
fn made_of(
    alloc: Global,
    terms: &mut Terms,
    grounds: &Grounds<'_>,
    map: &RouteMap,
    rec: &SymMapRec,
    external: bool,
) -> Result<SymMade, AllocError>
    requires long { grounds.now.len ≤ 32 }
    requires wide { length grounds.now.dst.now.nodes.items ≡ 32 }
    requires dst { ids_end grounds.now.dst.now.nodes.items ≤ size terms.old }
    requires marks { HasMarks grounds.now.tracked.now rec.now }
    requires nodes { map_rec_end rec.now ≤ size terms.old }
    ensures builds { Builds terms.old terms.new }
    ensures within { IfOk result (λ r. made_end r ≤ size terms.new) }
    ensures rows { IfOk result (λ r. HasRows grounds.now.tracked.now r.route) }
    ensures value { Gives terms.new result (λ w r. made_at w r
        ≡ shape_mapped grounds.now.policies.now map.now.entries grounds.now.tracked.now
        (prefix_of w grounds.now.dst.now grounds.now.len) external (attributes_at w rec.now)) }
{
    let route = route_of(alloc, rec)?;
    sym_mapped(alloc, terms, grounds, map, &route, external)
}

/// What the route map makes of a route to the prefix of that length of an address: the record is there where the map
/// permits it. Each community and each number of a pattern `_N_` that lists test is to be tracked: where all are, and the
/// record stands for a route, the result stands for what the map makes of that route.
pub fn sym_route_map(
    alloc: Global,
    terms: &mut Terms,
    tracked: &Tracked,
    policies: &Policies,
    map: &RouteMap,
    dst: &Bits,
    len: u8,
    rec: &SymMapRec,
    side: Side,
) -> Result<SymMapRec, AllocError>
    requires long { len ≤ 32 }
    requires wide { length dst.now.nodes.items ≡ 32 }
    requires dst { ids_end dst.now.nodes.items ≤ size terms.old }
    requires marks { HasMarks tracked.now rec.now }
    requires nodes { map_rec_end rec.now ≤ size terms.old }
    ensures builds { Builds terms.old terms.new }
    ensures within { IfOk result (λ r. map_rec_end r ≤ size terms.new) }
    ensures marks { IfOk result (λ r. HasMarks tracked.now r) }
    ensures rest { IfOk result (λ r. KeepsRest rec.now r) }
    ensures value { Gives terms.new result (λ w r. map_rec_at w r ≡ option_and_then (shape_mapped policies.now map.now.entries tracked.now (prefix_of w dst.now len) (at_external side)) (map_rec_at w rec.now)) }
    ensures stands { Gives terms.new result (λ w r. (c : Attributes) → all_tracked tracked.now policies.now ≡ true
        → map_rec_at w rec.now ≡ Some (route_shape tracked.now c)
        → map_rec_at w r ≡ option_map (route_shape tracked.now) (mapped policies.now map.now.entries (prefix_of w dst.now len) (at_external side) c)) }
{
    let external = side.is_external();
    let grounds = Grounds {
        policies,
        tracked,
        dst,
        len,
    };
    let made = made_of(alloc, terms, &grounds, map, rec, external)?;
    let left = with_made(alloc, terms, rec, made)?;
    Ok(left)
}
