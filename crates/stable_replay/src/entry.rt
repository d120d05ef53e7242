//! The table entry of a slot (RFC 1812, section 5.2.4).

ghost use Rattle.std.specs.Prelude.{◌≡◌, IfOk, Some, false, slice_get};
ghost use Rattle.std.specs.Bool.{Decides};
ghost use Rattle.std.specs.Option.{option_map_or};
ghost use Rattle.net_parts.specs.Entries as entries;
ghost use Rattle.stable_replay.specs.Parts as parts;

use ios_ast::File;
use mw_text::{List, Prefix};
use net_model::Net;
use proto_rib::best_entry;
use route_candidates::is_own;
use route_record::{Failures, RibEntry, RibSource, Slot};
use std::alloc::{AllocError, Global};

// Whether an own origin of the router is as good as the record that the slot holds.
fn own_is_as_good(
    alloc: Global,
    net: &Net,
    failures: &Failures,
    router: u32,
    file: &File,
    p: &Prefix,
    slot: &Slot,
) -> Result<bool, AllocError>
    requires file { slice_get net.now.files router ≡ Some file.now }
    ensures { IfOk result (λ own. own
        ≡ entries.own_is_as_good net.now.files failures.now router file.now p.now slot.now) }
{
    match &slot.ospf {
        None => Ok(false),
        Some(held) => is_own(alloc, net, failures, router, file, p, slot, held),
    }
}

/// The table entry of the router in a stable routing in which it has this slot.
pub fn wanted_entry(
    alloc: Global,
    net: &Net,
    failures: &Failures,
    router: u32,
    file: &File,
    p: &Prefix,
    slot: &Slot,
) -> Result<Option<RibEntry>, AllocError>
    requires file { slice_get net.now.files router ≡ Some file.now }
    ensures { IfOk result (λ wanted. wanted
        ≡ entries.table_entry net.now.files failures.now router file.now p.now slot.now) }
{
    let own = own_is_as_good(alloc, net, failures, router, file, p, slot)?;
    Ok(best_entry(net, failures, router, p, slot, own))
}

fn same_source(a: RibSource, b: RibSource) -> bool
    ensures { Decides result (a ≡ b) }
{
    match (a, b) {
        (RibSource::Connected, RibSource::Connected) => true,
        (RibSource::Static, RibSource::Static) => true,
        (RibSource::Ebgp, RibSource::Ebgp) => true,
        (RibSource::Ospf, RibSource::Ospf) => true,
        (RibSource::Ibgp, RibSource::Ibgp) => true,
        _ => false,
    }
}

fn same_in_both(a: &RibEntry, b: &RibEntry) -> bool
    ensures { Decides result (a.now ≡ b.now) }
{
    same_source(a.source, b.source) && a.distance == b.distance
}

fn same_entry(a: &Option<RibEntry>, b: &Option<RibEntry>) -> bool
    ensures { Decides result (a.now ≡ b.now) }
{
    match (a, b) {
        (None, None) => true,
        (Some(a), Some(b)) => same_in_both(a, b),
        _ => false,
    }
}

fn slots_of(alloc: Global, wanted: Option<RibEntry>) -> Result<List<Slot>, AllocError>
    ensures { IfOk result (λ made. made ≡ parts.rib_slots wanted) }
{
    let mut made = List::new(alloc);
    if wanted.is_some() {
        made.items.push(Slot {
            ospf: None,
            bgp: None,
            rib: wanted,
        })?;
    }
    Ok(made)
}

/// Tests the table entry of a slot. None where it is the one that the parts of the slot want; else that entry, if there is
/// one.
pub fn test_entry(
    alloc: Global,
    net: &Net,
    failures: &Failures,
    router: u32,
    file: &File,
    p: &Prefix,
    slot: &Slot,
) -> Result<Option<List<Slot>>, AllocError>
    requires file { slice_get net.now.files router ≡ Some file.now }
    ensures { IfOk result (parts.IsTested
        (slot.now.rib ≡ entries.table_entry net.now.files failures.now router file.now p.now slot.now)
        (parts.rib_slots (entries.table_entry net.now.files failures.now router file.now p.now slot.now))) }
{
    let wanted = wanted_entry(alloc, net, failures, router, file, p, slot)?;
    if same_entry(&slot.rib, &wanted) {
        return Ok(None);
    }
    Ok(Some(slots_of(alloc, wanted)?))
}
