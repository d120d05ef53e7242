//! Route maps.

ghost use Rattle.std.specs.Prelude.{◌≡◌, Bool, if◌then◌else◌, Option, Some, IfOk, IfSome};
ghost use Rattle.std.specs.Option.{option_copied, option_map};
ghost use Rattle.ios_ast.specs.Deciding.{sooner};
ghost use Rattle.ios_ast.specs.Maps.{deciding, mapped};
ghost use Rattle.policy_eval.specs.Attributes.{attributes_of, KeepsRest};
ghost use Rattle.route_record.specs.Sides.{at_external};

use crate::matches::takes_route;
use crate::sets::set_lines;
use ios_ast::{MapEntry, Policies, RouteMap};
use mw_text::{List, Prefix};
use route_record::{BgpRec, MapRec, Side};
use std::alloc::{AllocError, Global};

/// Which entry decides where one more stands before those that `later` was found among.
fn decider<'a>(
    entry: &'a MapEntry,
    takes: bool,
    later: Option<&'a MapEntry>,
) -> Option<&'a MapEntry>
    ensures { option_copied result ≡ (if takes then Some (sooner (λ e. e.seq) entry.now (option_copied later.entry)) else option_copied later.entry) }
{
    match later {
        _ if !takes => later,
        Some(other) if other.seq < entry.seq => later,
        _ => Some(entry),
    }
}

/// The entry of a route map that decides: of those that take the route the one with the least sequence number. None exactly
/// where no entry takes it.
pub fn deciding_entry<'a>(
    map: &'a RouteMap,
    policies: &Policies,
    p: &Prefix,
    rec: &MapRec,
) -> Option<&'a MapEntry>
    ensures { option_copied result ≡ deciding policies.now p.now (attributes_of rec.now) map.now.entries }
{
    let entries = map.entries.as_slice();
    let mut found = None;
    for i in (0..entries.len()).rev() {
        let entry = &entries[i];
        let takes = takes_route(policies, p, rec, entry);
        found = decider(entry, takes, found);
    }
    found
}

/// A copy of a list.
pub fn copy_list<T: Copy>(alloc: Global, list: &List<T>) -> Result<List<T>, AllocError>
    ensures { IfOk result (λ made. made ≡ list.now) }
{
    Ok(List {
        items: Vec::from_slice(alloc, list.as_slice())?,
    })
}

/// A copy of a route.
pub fn copy_route(alloc: Global, rec: &BgpRec) -> Result<BgpRec, AllocError>
    ensures { IfOk result (λ made. made ≡ rec.now) }
{
    let path = copy_list(alloc, &rec.path)?;
    let communities = copy_list(alloc, &rec.communities)?;
    let clusters = copy_list(alloc, &rec.clusters)?;
    Ok(BgpRec {
        from: rec.from,
        weight: rec.weight,
        local_pref: rec.local_pref,
        path,
        origin: rec.origin,
        med: rec.med,
        communities,
        next_hop: rec.next_hop,
        originator: rec.originator,
        clusters,
    })
}

/// A copy of a record.
fn copy_of(alloc: Global, rec: &MapRec) -> Result<MapRec, AllocError>
    ensures { IfOk result (λ made. made ≡ rec.now) }
{
    Ok(MapRec {
        bgp: copy_route(alloc, &rec.bgp)?,
        type1: rec.type1,
    })
}

/// What the route map makes of a route to the prefix. None where its deciding entry denies, or no entry takes the route.
pub fn route_map(
    alloc: Global,
    map: &RouteMap,
    policies: &Policies,
    p: &Prefix,
    rec: &MapRec,
    side: Side,
) -> Result<Option<MapRec>, AllocError>
    ensures value { IfOk result (λ made. option_map attributes_of made ≡ mapped policies.now map.now.entries p.now (at_external side) (attributes_of rec.now)) }
    ensures rest { IfOk result (λ made. IfSome made (KeepsRest rec.now)) }
{
    match deciding_entry(map, policies, p, rec) {
        Some(entry) if entry.permit => {
            let mut made = copy_of(alloc, rec)?;
            set_lines(alloc, &mut made, entry.sets.as_slice(), side.is_external())?;
            Ok(Some(made))
        }
        _ => Ok(None),
    }
}
