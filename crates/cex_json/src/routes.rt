//! The JSON values of OSPF and BGP records.

ghost use Rattle.std.specs.Prelude.{◌≡◌, IfOk, OnOk, map, option_map, string_bytes};
ghost use Rattle.serde_json.specs.Data.{string};
ghost use Rattle.serde_json.specs.View.{view, members_view};
ghost use Rattle.cex_json.specs.Json as texts;
ghost use Rattle.cex_json.specs.Parts as parts;

use crate::parts::{addr_string, addr_value};
use mw_text::Addr;
use route_record::{BgpRec, Learnt, Origin, OspfKind, OspfRec};
use serde_json::{Map, Value, json, put};
use std::alloc::{AllocError, Global};

fn kind_value(alloc: Global, kind: OspfKind) -> Result<Value, AllocError>
    ensures { IfOk result (λ value. view value ≡ string (parts.kind_text kind)) }
{
    match kind {
        OspfKind::Internal => Value::try_from_str(alloc, "internal"),
        OspfKind::Ext1 => Value::try_from_str(alloc, "ext1"),
        OspfKind::Ext2 => Value::try_from_str(alloc, "ext2"),
    }
}

/// An OSPF record.
#[tactic(auto, unfolding(crate::specs::Parts::ospf_data))]
pub fn ospf_value(alloc: Global, held: &OspfRec) -> Result<Value, AllocError>
    ensures { IfOk result (λ value. view value ≡ parts.ospf_data held.now) }
{
    let kind = kind_value(alloc, held.kind)?;
    json!(in alloc; {"cost": held.cost, "kind": kind, "metric": held.metric})
}

/// The ORIGIN of a route.
pub fn origin_value(alloc: Global, origin: Origin) -> Result<Value, AllocError>
    ensures { IfOk result (λ value. view value ≡ string (parts.origin_text origin)) }
{
    match origin {
        Origin::Igp => Value::try_from_str(alloc, "igp"),
        Origin::Egp => Value::try_from_str(alloc, "egp"),
        Origin::Incomplete => Value::try_from_str(alloc, "incomplete"),
    }
}

fn learnt_value(alloc: Global, from: Learnt) -> Result<Value, AllocError>
    ensures { IfOk result (λ value. view value ≡ string (parts.learnt_text from)) }
{
    match from {
        Learnt::Local => Value::try_from_str(alloc, "local"),
        Learnt::Peer(a) => addr_value(alloc, a),
    }
}

/// Numbers, as an array.
pub fn number_values(alloc: Global, numbers: &[u32]) -> Result<Vec<Value>, AllocError>
    ensures { IfOk result (λ values. map view values.items ≡ map texts.number_of numbers.now) }
{
    let mut values = Vec::new(alloc);
    for number in numbers {
        values.push(Value::from(*number))?;
    }
    Ok(values)
}

fn addr_values(alloc: Global, addresses: &[Addr]) -> Result<Vec<Value>, AllocError>
    ensures { IfOk result (λ values. map view values.items ≡ map parts.addr_data addresses.now) }
{
    let mut values = Vec::new(alloc);
    for a in addresses {
        values.push(addr_value(alloc, *a)?)?;
    }
    Ok(values)
}

/// Puts a field at its place by name, where it has a value.
pub fn put_field(
    fields: &mut Map<String, Value>,
    alloc: Global,
    name: &str,
    value: Option<Value>,
) -> Result<(), AllocError>
    ensures { OnOk result (members_view fields.new.entries
        ≡ texts.with_field name.now (option_map view value) (members_view fields.old.entries)) }
{
    match value {
        None => Ok(()),
        Some(value) => put(fields, alloc, name, value),
    }
}

fn originator_value(alloc: Global, originator: Option<Addr>) -> Result<Option<Value>, AllocError>
    ensures { IfOk result (λ value. option_map view value ≡ option_map parts.addr_data originator) }
{
    match originator {
        None => Ok(None),
        Some(a) => Ok(Some(addr_value(alloc, a)?)),
    }
}

#[tactic(auto, unfolding(crate::specs::Parts::first_of_bgp))]
fn first_of_bgp(alloc: Global, held: &BgpRec) -> Result<Map<String, Value>, AllocError>
    ensures { IfOk result (λ fields. members_view fields.entries ≡ parts.first_of_bgp held.now) }
{
    let clusters = addr_values(alloc, held.clusters.as_slice())?;
    let communities = number_values(alloc, held.communities.as_slice())?;
    let from = learnt_value(alloc, held.from)?;
    let mut fields = Map::new(alloc);
    put(&mut fields, alloc, "clusters", Value::Array(clusters))?;
    put(&mut fields, alloc, "communities", Value::Array(communities))?;
    put(&mut fields, alloc, "from", from)?;
    put(
        &mut fields,
        alloc,
        "localpref",
        Value::from(held.local_pref),
    )?;
    put(&mut fields, alloc, "med", Value::from(held.med))?;
    Ok(fields)
}

/// A BGP record.
#[tactic(auto, unfolding(crate::specs::Parts::bgp_data))]
pub fn bgp_value(alloc: Global, held: &BgpRec) -> Result<Value, AllocError>
    ensures { IfOk result (λ value. view value ≡ parts.bgp_data held.now) }
{
    let next_hop = addr_value(alloc, held.next_hop)?;
    let origin = origin_value(alloc, held.origin)?;
    let originator = originator_value(alloc, held.originator)?;
    let path = number_values(alloc, held.path.as_slice())?;
    let mut fields = first_of_bgp(alloc, held)?;
    put(&mut fields, alloc, "nexthop", next_hop)?;
    put(&mut fields, alloc, "origin", origin)?;
    put_field(&mut fields, alloc, "originator", originator)?;
    put(&mut fields, alloc, "path", Value::Array(path))?;
    put(&mut fields, alloc, "weight", Value::from(held.weight))?;
    Ok(Value::Object(fields))
}
