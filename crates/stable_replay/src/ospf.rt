//! The OSPF part of a slot: the first best of the own origins and the offers (RFC 2328, section 16.4).

ghost use Rattle.std.specs.Prelude.{◌≡◌, [], IfOk, Some, map, slice_get};
ghost use Rattle.std.specs.Bool.{Decides};
ghost use Rattle.std.specs.Option.{option_map_or};
ghost use Rattle.net_parts.specs.Ospf.{adjacencies};
ghost use Rattle.net_parts.specs.OspfRoutes as routes;
ghost use Rattle.net_parts.specs.Stable as stable;
ghost use Rattle.route_record.specs.Places.{slot_at};
ghost use Rattle.route_candidates.specs.Origins.{origins_at};
ghost use Rattle.route_candidates.specs.Underlays.{IsUnderlay};
ghost use Rattle.stable_replay.specs.Parts as parts;

use crate::routing::Routing;
use arriving_messages::far_record;
use ios_ast::File;
use mw_text::{List, Prefix};
use net_model::Net;
use route_candidates::{held_from, origins};
use route_record::{Failures, OspfKind, OspfRec, Slot, Tables};
use std::alloc::{AllocError, Global};

// The own origins of the router, by the slot that it holds.
fn held_origins(
    alloc: Global,
    net: &Net,
    failures: &Failures,
    tables: &Tables,
    router: u32,
    p: &Prefix,
) -> Result<List<OspfRec>, AllocError>
    ensures { IfOk result (λ made. made
        ≡ option_map_or (origins_at net.now.files failures.now router p.now) (slot_at tables.now router p.now.len) []) }
{
    match tables.slot(router, p.len) {
        None => Ok(List::new(alloc)),
        Some(slot) => origins(alloc, net, failures, router, p, slot),
    }
}

// Those of all adjacencies: what is heard over them.
fn far_records(
    alloc: Global,
    net: &Net,
    tables: &Tables,
    p: &Prefix,
) -> Result<Vec<Option<OspfRec>>, AllocError>
    ensures { IfOk result (λ made. made.items ≡ map (routes.far_record tables.now p.now) (adjacencies net.now.files)) }
{
    let mut made = Vec::new(alloc);
    for a in net.adjacencies() {
        made.push(far_record(tables, p, a))?;
    }
    Ok(made)
}

/// The OSPF record that the router holds in a stable routing, by the tables: none where it runs no OSPF.
#[tactic(auto, using(crate::proofs::OspfParts::held_is))]
pub fn wanted_ospf(
    alloc: Global,
    routing: &Routing<'_>,
    router: u32,
    file: &File,
    p: &Prefix,
) -> Result<Option<OspfRec>, AllocError>
    requires underlay { IsUnderlay routing.now.net.now.files routing.now.failures.now routing.now.underlay.now }
    requires file { slice_get routing.now.net.now.files router ≡ Some file.now }
    ensures { IfOk result (λ wanted. wanted
        ≡ stable.held_ospf routing.now.net.now.files routing.now.failures.now routing.now.tables.now router file.now
        p.now) }
{
    if file.ospf.is_none() {
        return Ok(None);
    }
    let own = held_origins(
        alloc,
        routing.net,
        routing.failures,
        routing.tables,
        router,
        p,
    )?;
    let heard = far_records(alloc, routing.net, routing.tables, p)?;
    Ok(held_from(
        routing.net,
        routing.failures,
        routing.underlay,
        router,
        own.as_slice(),
        heard.as_slice(),
    ))
}

fn same_kind(a: OspfKind, b: OspfKind) -> bool
    ensures { Decides result (a ≡ b) }
{
    match (a, b) {
        (OspfKind::Internal, OspfKind::Internal) => true,
        (OspfKind::Ext1, OspfKind::Ext1) => true,
        (OspfKind::Ext2, OspfKind::Ext2) => true,
        _ => false,
    }
}

fn same_record(a: &OspfRec, b: &OspfRec) -> bool
    ensures { Decides result (a.now ≡ b.now) }
{
    same_kind(a.kind, b.kind) && a.metric == b.metric && a.cost == b.cost
}

fn same_ospf(a: &Option<OspfRec>, b: &Option<OspfRec>) -> bool
    ensures { Decides result (a.now ≡ b.now) }
{
    match (a, b) {
        (None, None) => true,
        (Some(a), Some(b)) => same_record(a, b),
        _ => false,
    }
}

fn slots_of(alloc: Global, wanted: Option<OspfRec>) -> Result<List<Slot>, AllocError>
    ensures { IfOk result (λ made. made ≡ parts.ospf_slots wanted) }
{
    let mut made = List::new(alloc);
    if wanted.is_some() {
        made.items.push(Slot {
            ospf: wanted,
            bgp: None,
            rib: None,
        })?;
    }
    Ok(made)
}

/// Tests the OSPF part of a slot. None where it is what the router holds by the tables; else that record, if there is one.
pub fn test_ospf(
    alloc: Global,
    routing: &Routing<'_>,
    router: u32,
    file: &File,
    p: &Prefix,
    held: &Option<OspfRec>,
) -> Result<Option<List<Slot>>, AllocError>
    requires underlay { IsUnderlay routing.now.net.now.files routing.now.failures.now routing.now.underlay.now }
    requires file { slice_get routing.now.net.now.files router ≡ Some file.now }
    ensures { IfOk result (parts.IsTested
        (held.now ≡ stable.held_ospf routing.now.net.now.files routing.now.failures.now routing.now.tables.now router
        file.now p.now)
        (parts.ospf_slots (stable.held_ospf routing.now.net.now.files routing.now.failures.now routing.now.tables.now
        router file.now p.now))) }
{
    let wanted = wanted_ospf(alloc, routing, router, file, p)?;
    if same_ospf(held, &wanted) {
        return Ok(None);
    }
    Ok(Some(slots_of(alloc, wanted)?))
}
