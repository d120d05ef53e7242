//! What route maps make of BGP routes, by the names of the maps.

ghost use Rattle.std.specs.Prelude.{◌≡◌, IfOk, IfSome, option_map};
ghost use Rattle.std.specs.List.{find};
ghost use Rattle.std.specs.Option.{option_copied};
ghost use Rattle.ios_ast.specs.Maps.{mapped};
ghost use Rattle.mw_text.specs.Text.{same_text};
ghost use Rattle.policy_eval.specs.Attributes.{attributes_of, KeepsRest};
ghost use Rattle.ios_ast.specs.Maps as maps;
ghost use Rattle.policy_eval.specs.Routes as routes;
ghost use Rattle.policy_eval.specs.Routes.{as_map_rec};
ghost use Rattle.route_record.specs.Sides.{at_external};

use crate::maps::route_map;
use ios_ast::{Policies, RouteMap, Use};
use mw_text::{Prefix, same_bytes};
use route_record::{BgpRec, MapRec, Side};
use std::alloc::{AllocError, Global};

/// The route map of that name.
pub fn map_named<'a>(policies: &'a Policies, named: &Use) -> Option<&'a RouteMap>
    ensures { option_copied result ≡ find (λ map. same_text map.name named.now.name) policies.now.maps }
{
    for map in policies.maps.as_slice() {
        if same_bytes(map.name.as_slice(), named.name.as_slice()) {
            return Some(map);
        }
    }
    None
}

/// A route as route maps take it: not one that is redistributed.
pub fn map_rec(bgp: BgpRec) -> MapRec
    ensures { result ≡ as_map_rec bgp }
{
    MapRec { bgp, type1: false }
}

fn side_of(external: bool) -> Side
    ensures { at_external result ≡ external }
{
    if external {
        Side::External
    } else {
        Side::Internal
    }
}

// What the map of that name makes of a record. A map that is not there drops every record.
fn through_named(
    alloc: Global,
    policies: &Policies,
    named: &Use,
    p: &Prefix,
    side: Side,
    rec: &MapRec,
) -> Result<Option<MapRec>, AllocError>
    ensures value { IfOk result (λ made. option_map attributes_of made
        ≡ mapped policies.now (maps.entries_named policies.now named.now) p.now (at_external side) (attributes_of rec.now)) }
    ensures rest { IfOk result (λ made. IfSome made (KeepsRest rec.now)) }
{
    match map_named(policies, named) {
        None => Ok(None),
        Some(map) => route_map(alloc, map, policies, p, rec, side),
    }
}

/// What the map that is applied, if one is, makes of a record. None where it drops the record.
pub fn record_through_map(
    alloc: Global,
    policies: &Policies,
    used: &Option<Use>,
    p: &Prefix,
    side: Side,
    rec: MapRec,
) -> Result<Option<MapRec>, AllocError>
    ensures value { IfOk result (λ made. option_map attributes_of made
        ≡ maps.through_map policies.now used.now p.now (at_external side) (attributes_of rec)) }
    ensures rest { IfOk result (λ made. IfSome made (KeepsRest rec)) }
{
    match used {
        None => Ok(Some(rec)),
        Some(named) => through_named(alloc, policies, named, p, side, &rec),
    }
}

/// What the map that is applied, if one is, makes of the route. None where it drops the route.
#[tactic(auto, using(crate::proofs::Mapped::map_law))]
pub fn through_map(
    alloc: Global,
    policies: &Policies,
    used: &Option<Use>,
    p: &Prefix,
    external: bool,
    rec: BgpRec,
) -> Result<Option<BgpRec>, AllocError>
    ensures { IfOk result (λ made. made ≡ option_map (routes.with_attributes rec)
        (maps.through_map policies.now used.now p.now external (attributes_of (as_map_rec rec)))) }
{
    match record_through_map(alloc, policies, used, p, side_of(external), map_rec(rec))? {
        None => Ok(None),
        Some(made) => Ok(Some(made.bgp)),
    }
}
