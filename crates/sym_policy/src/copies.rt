//! Copies of a route's parts, and what route maps see of a record.

ghost use Rattle.std.specs.Prelude.{IfOk};
ghost use Rattle.sym_policy.specs.SameNodes.{HasPath, HasPreferences, SamePath, SamePreferences, SameRoute, IsSeen, IsRest, IsJoined};

use crate::parts::{SymPath, SymPreferences, SymRest, SymRoute};
use crate::records::{SymBgp, SymMapRec};
use std::alloc::{AllocError, Global};
use term_arith::copy;
use term_store::NodeId;

/// A copy of a path.
fn copy_path(alloc: Global, path: &SymPath) -> Result<SymPath, AllocError>
    ensures { IfOk result (λ r. SamePath path.now r) }
{
    let len = copy(alloc, &path.len)?;
    let first = copy(alloc, &path.first)?;
    let last = copy(alloc, &path.last)?;
    let numbers = copy(alloc, &path.numbers)?;
    Ok(SymPath {
        len,
        first,
        last,
        numbers,
    })
}

/// A copy of the numbers by which routes are preferred.
fn copy_preferences(
    alloc: Global,
    preferences: &SymPreferences,
) -> Result<SymPreferences, AllocError>
    ensures { IfOk result (λ r. SamePreferences preferences.now r) }
{
    let weight = copy(alloc, &preferences.weight)?;
    let local_pref = copy(alloc, &preferences.local_pref)?;
    let med = copy(alloc, &preferences.med)?;
    let origin = copy(alloc, &preferences.origin)?;
    Ok(SymPreferences {
        weight,
        local_pref,
        med,
        origin,
    })
}

/// A copy of a route.
pub(crate) fn copy_route(alloc: Global, route: &SymRoute) -> Result<SymRoute, AllocError>
    ensures { IfOk result (λ r. SameRoute route.now r) }
{
    let communities = copy(alloc, &route.communities)?;
    let path = copy_path(alloc, &route.path)?;
    let preferences = copy_preferences(alloc, &route.preferences)?;
    Ok(SymRoute {
        preferences,
        path,
        communities,
        type1: route.type1,
    })
}

/// The path of a route.
pub fn path_of(alloc: Global, bgp: &SymBgp) -> Result<SymPath, AllocError>
    ensures { IfOk result (λ r. HasPath bgp.now.len bgp.now.first bgp.now.last bgp.now.numbers r) }
{
    let len = copy(alloc, &bgp.len)?;
    let first = copy(alloc, &bgp.first)?;
    let last = copy(alloc, &bgp.last)?;
    let numbers = copy(alloc, &bgp.numbers)?;
    Ok(SymPath {
        len,
        first,
        last,
        numbers,
    })
}

/// The numbers of a route by which routes are preferred.
pub fn preferences_of(alloc: Global, bgp: &SymBgp) -> Result<SymPreferences, AllocError>
    ensures { IfOk result (λ r. HasPreferences bgp.now.weight bgp.now.local_pref bgp.now.med bgp.now.origin r) }
{
    let weight = copy(alloc, &bgp.weight)?;
    let local_pref = copy(alloc, &bgp.local_pref)?;
    let med = copy(alloc, &bgp.med)?;
    let origin = copy(alloc, &bgp.origin)?;
    Ok(SymPreferences {
        weight,
        local_pref,
        med,
        origin,
    })
}

/// What route maps see of a record.
pub fn route_of(alloc: Global, rec: &SymMapRec) -> Result<SymRoute, AllocError>
    ensures { IfOk result (λ r. IsSeen rec.now r) }
{
    let communities = copy(alloc, &rec.bgp.communities)?;
    let path = path_of(alloc, &rec.bgp)?;
    let preferences = preferences_of(alloc, &rec.bgp)?;
    Ok(SymRoute {
        preferences,
        path,
        communities,
        type1: rec.type1,
    })
}

/// What route maps never set of a record.
pub fn rest_of(alloc: Global, bgp: &SymBgp) -> Result<SymRest, AllocError>
    ensures { IfOk result (λ r. IsRest bgp.now r) }
{
    let next_hop = copy(alloc, &bgp.next_hop)?;
    let originator = copy(alloc, &bgp.originator)?;
    let from = copy(alloc, &bgp.from)?;
    let cluster_len = copy(alloc, &bgp.cluster_len)?;
    let clusters = copy(alloc, &bgp.clusters)?;
    Ok(SymRest {
        next_hop,
        originator,
        from,
        cluster_len,
        clusters,
    })
}

/// The record of what route maps see of it and what they never set.
pub fn joined(valid: NodeId, route: SymRoute, rest: SymRest) -> SymMapRec
    ensures { IsJoined valid route rest result }
{
    let SymRoute {
        preferences,
        path,
        communities,
        type1,
    } = route;
    let bgp = SymBgp {
        valid,
        weight: preferences.weight,
        local_pref: preferences.local_pref,
        origin: preferences.origin,
        med: preferences.med,
        next_hop: rest.next_hop,
        originator: rest.originator,
        from: rest.from,
        len: path.len,
        first: path.first,
        last: path.last,
        numbers: path.numbers,
        communities,
        cluster_len: rest.cluster_len,
        clusters: rest.clusters,
    };
    SymMapRec { bgp, type1 }
}
