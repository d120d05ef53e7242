//! Whether a slot of the tables is stable.

ghost use Rattle.std.specs.Prelude.{◌≡◌, ◌≤◌, IfOk, Some, length, map, slice_get};
ghost use Rattle.net_parts.specs.Sessions.{ends_of};
ghost use Rattle.stable_replay.specs.Differences.{IsSlotTested};
ghost use Rattle.stable_replay.specs.Parts as parts;
ghost use Rattle.route_candidates.specs.Underlays.{IsUnderlay};

use crate::decided::test_bgp;
use crate::differs::{Differs, Part};
use crate::entry::test_entry;
use crate::ospf::test_ospf;
use crate::routing::Routing;
use ios_ast::File;
use mw_text::{List, Prefix};
use policy_eval::copy_route;
use route_record::{BgpRec, OspfRec, RibEntry, Slot};
use std::alloc::{AllocError, Global};

fn ospf_slot(ospf: Option<OspfRec>) -> Slot
    ensures { result ≡ parts.ospf_slot ospf }
{
    Slot {
        ospf,
        bgp: None,
        rib: None,
    }
}

fn bgp_slot(alloc: Global, held: &Option<BgpRec>) -> Result<Slot, AllocError>
    ensures { IfOk result (λ slot. slot ≡ parts.bgp_slot held.now) }
{
    let bgp = match held {
        None => None,
        Some(rec) => Some(copy_route(alloc, rec)?),
    };
    Ok(Slot {
        ospf: None,
        bgp,
        rib: None,
    })
}

fn rib_slot(rib: Option<RibEntry>) -> Slot
    ensures { result ≡ parts.rib_slot rib }
{
    Slot {
        ospf: None,
        bgp: None,
        rib,
    }
}

fn differs_in(p: &Prefix, router: u32, part: Part, held: Slot, wanted: List<Slot>) -> Differs
    ensures { result ≡ record { router = router; len = p.now.len; part = part; held = held; wanted = wanted } }
{
    Differs {
        router,
        len: p.len,
        part,
        held,
        wanted,
    }
}

/// Tests the slot of a router for a prefix: None where it is stable, else the first of its parts that differs.
pub fn test_slot(
    alloc: Global,
    routing: &Routing<'_>,
    router: u32,
    file: &File,
    p: &Prefix,
    slot: &Slot,
) -> Result<Option<Differs>, AllocError>
    requires underlay { IsUnderlay routing.now.net.now.files routing.now.failures.now routing.now.underlay.now }
    requires file { slice_get routing.now.net.now.files router ≡ Some file.now }
    ensures { IfOk result (IsSlotTested routing.now.net.now.files routing.now.failures.now routing.now.env.now
        routing.now.tables.now router file.now p.now slot.now) }
{
    if let Some(wanted) = test_ospf(alloc, routing, router, file, p, &slot.ospf)? {
        let held = ospf_slot(slot.ospf);
        return Ok(Some(differs_in(p, router, Part::Ospf, held, wanted)));
    }
    if let Some(wanted) = test_bgp(alloc, routing, router, file, p, &slot.bgp)? {
        let held = bgp_slot(alloc, &slot.bgp)?;
        return Ok(Some(differs_in(p, router, Part::Bgp, held, wanted)));
    }
    if let Some(wanted) = test_entry(alloc, routing.net, routing.failures, router, file, p, slot)? {
        let held = rib_slot(slot.rib);
        return Ok(Some(differs_in(p, router, Part::Rib, held, wanted)));
    }
    Ok(None)
}
