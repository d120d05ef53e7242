//! The JSON values of tables.

ghost use Rattle.std.specs.Prelude.{◌≡◌, IfOk, map, option_map};
ghost use Rattle.std.specs.Option.{option_map_or};
ghost use Rattle.serde_json.specs.Data.{null, string};
ghost use Rattle.serde_json.specs.View.{view};
ghost use Rattle.cex_json.specs.Parts as parts;
ghost use Rattle.cex_json.specs.Text as text;

use crate::parts::{router_name, text_value};
use crate::routes::{bgp_value, ospf_value, put_field};
use ios_ast::File;
use route_record::{LENGTHS, RibEntry, RibSource, Slot};
use serde_json::{Map, Value, json, put};
use std::alloc::{AllocError, Global};

fn source_value(alloc: Global, source: RibSource) -> Result<Value, AllocError>
    ensures { IfOk result (λ value. view value ≡ string (parts.source_text source)) }
{
    match source {
        RibSource::Connected => Value::try_from_str(alloc, "connected"),
        RibSource::Static => Value::try_from_str(alloc, "static"),
        RibSource::Ebgp => Value::try_from_str(alloc, "ebgp"),
        RibSource::Ospf => Value::try_from_str(alloc, "ospf"),
        RibSource::Ibgp => Value::try_from_str(alloc, "ibgp"),
    }
}

#[tactic(auto, unfolding(crate::specs::Parts::rib_data))]
fn rib_value(alloc: Global, entry: &RibEntry) -> Result<Value, AllocError>
    ensures { IfOk result (λ value. view value ≡ parts.rib_data entry.now) }
{
    let source = source_value(alloc, entry.source)?;
    json!(in alloc; {"distance": entry.distance, "source": source})
}

fn ospf_part(alloc: Global, slot: &Slot) -> Result<Option<Value>, AllocError>
    ensures { IfOk result (λ value. option_map view value ≡ option_map parts.ospf_data slot.now.ospf) }
{
    match &slot.ospf {
        None => Ok(None),
        Some(held) => Ok(Some(ospf_value(alloc, held)?)),
    }
}

fn bgp_part(alloc: Global, slot: &Slot) -> Result<Option<Value>, AllocError>
    ensures { IfOk result (λ value. option_map view value ≡ option_map parts.bgp_data slot.now.bgp) }
{
    match &slot.bgp {
        None => Ok(None),
        Some(held) => Ok(Some(bgp_value(alloc, held)?)),
    }
}

fn rib_part(alloc: Global, slot: &Slot) -> Result<Option<Value>, AllocError>
    ensures { IfOk result (λ value. option_map view value ≡ option_map parts.rib_data slot.now.rib) }
{
    match &slot.rib {
        None => Ok(None),
        Some(entry) => Ok(Some(rib_value(alloc, entry)?)),
    }
}

fn has_part(slot: &Slot) -> bool
    ensures { result ≡ parts.has_part slot.now }
{
    slot.bgp.is_some() || slot.ospf.is_some() || slot.rib.is_some()
}

#[tactic(auto, unfolding(crate::specs::Parts::parts_data))]
fn slot_value(alloc: Global, files: &[File], place: usize, slot: &Slot) -> Result<Value, AllocError>
    ensures { IfOk result (λ value. view value ≡ parts.parts_data files.now place slot.now) }
{
    let router = text_value(alloc, router_name(files, place / LENGTHS))?;
    let mut fields = Map::new(alloc);
    put_field(&mut fields, alloc, "bgp", bgp_part(alloc, slot)?)?;
    put(&mut fields, alloc, "len", Value::from(place % LENGTHS))?;
    put_field(&mut fields, alloc, "ospf", ospf_part(alloc, slot)?)?;
    put_field(&mut fields, alloc, "rib", rib_part(alloc, slot)?)?;
    put(&mut fields, alloc, "router", router)?;
    Ok(Value::Object(fields))
}

/// The slots with a part, in the order of the tables.
pub fn slot_values(alloc: Global, files: &[File], slots: &[Slot]) -> Result<Vec<Value>, AllocError>
    ensures { IfOk result (λ values. map view values.items ≡ parts.slots_from files.now 0 slots.now) }
{
    let mut values = Vec::new(alloc);
    for (place, slot) in slots.iter().enumerate() {
        if has_part(slot) {
            values.push(slot_value(alloc, files, place, slot)?)?;
        }
    }
    Ok(values)
}

fn rib_or_null(alloc: Global, slot: &Slot) -> Result<Value, AllocError>
    ensures { IfOk result (λ value. view value ≡ option_map_or parts.rib_data slot.now.rib null) }
{
    match &slot.rib {
        None => Ok(Value::Null),
        Some(entry) => rib_value(alloc, entry),
    }
}

fn ospf_or_rib(alloc: Global, slot: &Slot) -> Result<Value, AllocError>
    ensures { IfOk result (λ value. view value ≡ option_map_or parts.ospf_data slot.now.ospf (option_map_or parts.rib_data slot.now.rib null)) }
{
    match &slot.ospf {
        None => rib_or_null(alloc, slot),
        Some(held) => ospf_value(alloc, held),
    }
}

/// The part of a slot that is there, of several the first by name; null where there is none.
#[tactic(auto, unfolding(crate::specs::Text::part_data))]
pub fn part_value(alloc: Global, slot: &Slot) -> Result<Value, AllocError>
    ensures { IfOk result (λ value. view value ≡ text.part_data slot.now) }
{
    match &slot.bgp {
        None => ospf_or_rib(alloc, slot),
        Some(held) => bgp_value(alloc, held),
    }
}

/// The parts of slots, in their order.
pub fn part_values(alloc: Global, slots: &[Slot]) -> Result<Vec<Value>, AllocError>
    ensures { IfOk result (λ values. map view values.items ≡ map text.part_data slots.now) }
{
    let mut values = Vec::new(alloc);
    for slot in slots {
        values.push(part_value(alloc, slot)?)?;
    }
    Ok(values)
}
