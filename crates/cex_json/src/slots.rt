//! Slots, as they are read.

ghost use Rattle.std.specs.Prelude.{◌≡◌, ◌≢◌, ◌∷◌, ◌++◌, ◌+◌, ◌*◌, [], Some, Ok, Err, OnOk, IfErr, IfOk, codes, replicate};
ghost use Rattle.serde_json.specs.View.{view, items_view};
ghost use Rattle.serde_json.specs.Find.{get};
ghost use Rattle.cex_json.specs.Fields.{Reads, in_order, object_in, number_in as number_of, passing, required as field};
ghost use Rattle.cex_json.specs.Entries as entries;

use crate::entries::{bgp_in, ospf_in, rib_in, router_in};
use crate::fields::{bad_field, members_in, number_in, required};
use crate::refused::CexRefused;
use mw_text::List;
use net_model::Net;
use route_record::{BgpRec, LENGTHS, OspfRec, RibEntry, Slot};
use serde_json::Value;
use std::alloc::{AllocError, Global};

/// A value that has to be an object; else the field of that name is bad.
pub fn check_object(alloc: Global, at: &str, name: &str, value: &Value) -> Result<(), CexRefused>
    ensures ok { OnOk result (field at.now name.now (object_in (Some (view value.now))) ≡ Ok (view value.now)) }
    ensures refused { IfErr result (λ why. why ≢ CexRefused.Memory →
        field at.now name.now (object_in (Some (view value.now))) ≡ Err why) }
{
    if value.is_object() {
        Ok(())
    } else {
        Err(bad_field(alloc, at, name))
    }
}

fn bgp_part(
    alloc: Global,
    net: &Net,
    router: Option<u32>,
    at: &str,
    entry: &Value,
) -> Result<Option<BgpRec>, CexRefused>
    ensures { Reads result (entries.part_in (entries.bgp_in net.now.files router) at.now (codes "bgp") (get (codes "bgp") (view entry.now))) }
{
    match entry.get("bgp") {
        None => Ok(None),
        Some(part) => {
            check_object(alloc, at, "bgp", part)?;
            let below = format!(in alloc; "{at}bgp/")?;
            Ok(Some(bgp_in(alloc, net, router, below.as_str(), part)?))
        }
    }
}

fn ospf_part(alloc: Global, at: &str, entry: &Value) -> Result<Option<OspfRec>, CexRefused>
    ensures { Reads result (entries.part_in entries.ospf_in at.now (codes "ospf") (get (codes "ospf") (view entry.now))) }
{
    match entry.get("ospf") {
        None => Ok(None),
        Some(part) => {
            check_object(alloc, at, "ospf", part)?;
            let below = format!(in alloc; "{at}ospf/")?;
            Ok(Some(ospf_in(alloc, below.as_str(), part)?))
        }
    }
}

fn rib_part(alloc: Global, at: &str, entry: &Value) -> Result<Option<RibEntry>, CexRefused>
    ensures { Reads result (entries.part_in entries.rib_in at.now (codes "rib") (get (codes "rib") (view entry.now))) }
{
    match entry.get("rib") {
        None => Ok(None),
        Some(part) => {
            check_object(alloc, at, "rib", part)?;
            let below = format!(in alloc; "{at}rib/")?;
            Ok(Some(rib_in(alloc, below.as_str(), part)?))
        }
    }
}

fn is_free(so_far: &[Slot], router: Option<u32>, len: u32) -> bool
    ensures { result ≡ entries.slot_place so_far.now router len }
{
    match router {
        None => true,
        Some(router) => so_far.len() <= LENGTHS * router as usize + len as usize,
    }
}

fn length_in(so_far: &[Slot], router: Option<u32>, entry: &Value) -> Option<u32>
    ensures { result ≡ passing (entries.slot_place so_far.now router) (number_of 32 (get (codes "len") (view entry.now))) }
{
    match number_in(entry, "len", 32) {
        None => None,
        Some(len) => {
            if is_free(so_far, router, len) {
                Some(len)
            } else {
                None
            }
        }
    }
}

fn empty_slot() -> Slot
    ensures { result ≡ entries.empty_slot }
{
    Slot {
        ospf: None,
        bgp: None,
        rib: None,
    }
}

#[tactic(auto, using(crate::proofs::Filling::one_more))]
fn with_empty(mut slots: List<Slot>, count: usize) -> Result<List<Slot>, AllocError>
    ensures { IfOk result (λ all. all ≡ slots ++ replicate count entries.empty_slot) }
{
    for made in 0..count {
        let _made = made;
        slots.items.push(empty_slot())?;
    }
    Ok(slots)
}

fn filled(slots: List<Slot>, place: usize) -> Result<List<Slot>, AllocError>
    ensures { IfOk result (λ all. all ≡ entries.filled slots place) }
{
    let missing = place.saturating_sub(slots.items.len());
    with_empty(slots, missing)
}

fn with_slot(slots: List<Slot>, router: u32, len: u32, slot: Slot) -> Result<List<Slot>, AllocError>
    ensures { IfOk result (λ all. all ≡ entries.filled slots (LENGTHS * router + len) ++ slot ∷ []) }
{
    let mut all = filled(slots, LENGTHS * router as usize + len as usize)?;
    all.items.push(slot)?;
    Ok(all)
}

#[tactic(auto, unfolding(crate::specs::Entries::slot_at))]
fn slot_at(
    alloc: Global,
    net: &Net,
    at: &str,
    so_far: List<Slot>,
    entry: &Value,
) -> Result<List<Slot>, CexRefused>
    ensures { Reads result (entries.slot_at net.now.files at.now so_far (view entry.now)) }
{
    let known = router_in(net, entry);
    let bgp = bgp_part(alloc, net, known, at, entry)?;
    let len = required(alloc, at, "len", length_in(so_far.as_slice(), known, entry))?;
    let ospf = ospf_part(alloc, at, entry)?;
    let rib = rib_part(alloc, at, entry)?;
    let router = required(alloc, at, "router", known)?;
    Ok(with_slot(so_far, router, len, Slot { ospf, bgp, rib })?)
}

fn take_slot(
    alloc: Global,
    net: &Net,
    place: usize,
    so_far: List<Slot>,
    entry: &Value,
) -> Result<List<Slot>, CexRefused>
    ensures { Reads result (entries.slot_step net.now.files place so_far (view entry.now)) }
{
    let name = format!(in alloc; "{place}")?;
    check_object(alloc, "tables/", name.as_str(), entry)?;
    let at = format!(in alloc; "tables/{place}/")?;
    slot_at(alloc, net, at.as_str(), so_far, entry)
}

fn take_slots(alloc: Global, net: &Net, members: &[Value]) -> Result<List<Slot>, CexRefused>
    ensures { Reads result (in_order (entries.slot_step net.now.files) 0 [] (items_view members.now)) }
{
    let mut slots = List::new(alloc);
    for (place, entry) in members.iter().enumerate() {
        slots = take_slot(alloc, net, place, slots, entry)?;
    }
    Ok(slots)
}

/// The slots of all routers and lengths.
#[tactic(auto, unfolding(crate::specs::Entries::slots_in))]
pub fn slots_in(alloc: Global, net: &Net, text: &Value) -> Result<List<Slot>, CexRefused>
    ensures { Reads result (entries.slots_in net.now.files (view text.now)) }
{
    let members = members_in(alloc, "", "tables", text)?;
    let slots = take_slots(alloc, net, members)?;
    Ok(filled(slots, LENGTHS * net.routers().len())?)
}
