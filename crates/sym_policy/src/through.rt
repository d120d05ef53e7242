//! What the route map that a line applies, if it applies one, makes of a record, as terms.

ghost use Rattle.std.specs.Prelude.{◌≡◌, Option as OptionOf, ℕ, ◌+◌, ◌<◌, ◌≤◌, Bool, true, None, IfOk, length};
ghost use Rattle.std.specs.List.{find};
ghost use Rattle.std.specs.Option.{option_and_then, option_copied, option_map};
ghost use Rattle.mw_text.specs.Text.{same_text};
ghost use Rattle.ios_ast.specs.Maps.{entries_named, through_map};
ghost use Rattle.ios_ast.specs.Setting.{Attributes};
ghost use Rattle.route_record.specs.Sides.{at_external};
ghost use Rattle.route_shapes.specs.Shapes.{all_tracked, route_shape, shape_mapped, shape_through_map};
ghost use Rattle.sym_policy.specs.MapRecs.{map_rec_at, map_rec_end, HasMarks, KeepsRest};
ghost use Rattle.sym_policy.specs.Records.{prefix_of};
ghost use Rattle.term_store.specs.Terms.{Reading, size, at};
ghost use Rattle.term_store.specs.Reading.{Reads, Builds, Gives};
ghost use Rattle.term_arith.specs.Bits.{ids_end};

use crate::lines::Grounds;
use crate::maps::sym_route_map;
use crate::records::SymMapRec;
use ios_ast::{Policies, RouteMap, Use};
use mw_text::same_bytes;
use route_record::Side;
use std::alloc::{AllocError, Global};
use term_arith::gates::constant_node;
use term_store::Terms;

/// The route map of that name.
fn map_named<'a>(policies: &'a Policies, named: &Use) -> Option<&'a RouteMap>
    ensures { option_copied result ≡ find (λ map. same_text map.name named.now.name) policies.now.maps }
{
    for map in policies.maps.as_slice() {
        if same_bytes(map.name.as_slice(), named.name.as_slice()) {
            return Some(map);
        }
    }
    None
}

/// No record in the place of one.
fn dropped(terms: &mut Terms, rec: SymMapRec) -> Result<SymMapRec, AllocError>
    requires nodes { map_rec_end rec ≤ size terms.old }
    ensures builds { Builds terms.old terms.new }
    ensures within { IfOk result (λ r. map_rec_end r ≤ size terms.new) }
    ensures numbers { IfOk result (λ r. length r.bgp.numbers.nodes.items ≡ length rec.bgp.numbers.nodes.items) }
    ensures marks { IfOk result (λ r. length r.bgp.communities.nodes.items ≡ length rec.bgp.communities.nodes.items) }
    ensures rest { IfOk result (λ r. KeepsRest rec r) }
    ensures value { Gives terms.new result (λ w r. map_rec_at w r ≡ None) }
{
    let mut left = rec;
    left.bgp.valid = constant_node(terms, false)?;
    Ok(left)
}

/// What the map of that name makes of a record. A map that is not there drops every record.
#[tactic(auto, using(crate::proofs::MapsApplied::none_mapped))]
fn sym_named(
    alloc: Global,
    terms: &mut Terms,
    grounds: &Grounds<'_>,
    named: &Use,
    rec: SymMapRec,
    side: Side,
) -> Result<SymMapRec, AllocError>
    requires long { grounds.now.len ≤ 32 }
    requires wide { length grounds.now.dst.now.nodes.items ≡ 32 }
    requires dst { ids_end grounds.now.dst.now.nodes.items ≤ size terms.old }
    requires marks { HasMarks grounds.now.tracked.now rec }
    requires nodes { map_rec_end rec ≤ size terms.old }
    ensures builds { Builds terms.old terms.new }
    ensures within { IfOk result (λ r. map_rec_end r ≤ size terms.new) }
    ensures marks { IfOk result (λ r. HasMarks grounds.now.tracked.now r) }
    ensures rest { IfOk result (λ r. KeepsRest rec r) }
    ensures value { Gives terms.new result (λ w r. map_rec_at w r
        ≡ option_and_then (shape_mapped grounds.now.policies.now (entries_named grounds.now.policies.now named.now)
        grounds.now.tracked.now (prefix_of w grounds.now.dst.now grounds.now.len) (at_external side))
        (map_rec_at w rec)) }
{
    match map_named(grounds.policies, named) {
        None => dropped(terms, rec),
        Some(map) => sym_route_map(
            alloc,
            terms,
            grounds.tracked,
            grounds.policies,
            map,
            grounds.dst,
            grounds.len,
            &rec,
            side,
        ),
    }
}

/// What the map that is applied, if one is, makes of a record.
fn applied(
    alloc: Global,
    terms: &mut Terms,
    grounds: &Grounds<'_>,
    used: &Option<Use>,
    rec: SymMapRec,
    side: Side,
) -> Result<SymMapRec, AllocError>
    requires long { grounds.now.len ≤ 32 }
    requires wide { length grounds.now.dst.now.nodes.items ≡ 32 }
    requires dst { ids_end grounds.now.dst.now.nodes.items ≤ size terms.old }
    requires marks { HasMarks grounds.now.tracked.now rec }
    requires nodes { map_rec_end rec ≤ size terms.old }
    ensures builds { Builds terms.old terms.new }
    ensures within { IfOk result (λ r. map_rec_end r ≤ size terms.new) }
    ensures marks { IfOk result (λ r. HasMarks grounds.now.tracked.now r) }
    ensures rest { IfOk result (λ r. KeepsRest rec r) }
    ensures value { Gives terms.new result (λ w r. map_rec_at w r
        ≡ option_and_then (shape_through_map grounds.now.tracked.now grounds.now.policies.now used.now
        (prefix_of w grounds.now.dst.now grounds.now.len) (at_external side)) (map_rec_at w rec)) }
{
    match used {
        None => Ok(rec),
        Some(named) => sym_named(alloc, terms, grounds, named, rec, side),
    }
}

/// What the route map that a line applies, if it applies one, makes of a route to the prefix of that length of an
/// address. A map that is not there drops every route. Each community and each number of a pattern `_N_` that lists
/// test is to be tracked: where all are, and the record stands for a route or for none, the result stands for what the
/// map leaves of that route.
pub fn sym_through(
    alloc: Global,
    terms: &mut Terms,
    grounds: &Grounds<'_>,
    used: &Option<Use>,
    rec: SymMapRec,
    side: Side,
) -> Result<SymMapRec, AllocError>
    requires long { grounds.now.len ≤ 32 }
    requires wide { length grounds.now.dst.now.nodes.items ≡ 32 }
    requires dst { ids_end grounds.now.dst.now.nodes.items ≤ size terms.old }
    requires marks { HasMarks grounds.now.tracked.now rec }
    requires nodes { map_rec_end rec ≤ size terms.old }
    ensures builds { Builds terms.old terms.new }
    ensures within { IfOk result (λ r. map_rec_end r ≤ size terms.new) }
    ensures marks { IfOk result (λ r. HasMarks grounds.now.tracked.now r) }
    ensures rest { IfOk result (λ r. KeepsRest rec r) }
    ensures value { Gives terms.new result (λ w r. map_rec_at w r
        ≡ option_and_then (shape_through_map grounds.now.tracked.now grounds.now.policies.now used.now
        (prefix_of w grounds.now.dst.now grounds.now.len) (at_external side)) (map_rec_at w rec)) }
    ensures stands { Gives terms.new result (λ w r. (held : OptionOf Attributes)
        → all_tracked grounds.now.tracked.now grounds.now.policies.now ≡ true
        → map_rec_at w rec ≡ option_map (route_shape grounds.now.tracked.now) held
        → map_rec_at w r ≡ option_map (route_shape grounds.now.tracked.now)
        (option_and_then (through_map grounds.now.policies.now used.now
        (prefix_of w grounds.now.dst.now grounds.now.len) (at_external side)) held)) }
{
    let left = applied(alloc, terms, grounds, used, rec, side)?;
    Ok(left)
}
