//! A counterexample and its text.

ghost use Rattle.std.specs.Prelude.{◌≡◌, IfOk, option_map};
ghost use Rattle.serde_json.specs.View.{view, members_view};
ghost use Rattle.cex_json.specs.Parts as parts;
ghost use Rattle.cex_json.specs.Text as text;

use crate::parts::{packet_value, text_value};
use crate::routes::put_field;
use crate::tables::{part_value, part_values, slot_values};
use crate::walks::walk_value;
use crate::worlds::{announcement_values, failure_values, peer_values};
use ios_ast::File;
use mw_text::List;
use net_model::Net;
use question_lang::{Question, Walk};
use route_record::{Environment, Failures, Packet, Slot, Tables};
use serde_json::{Map, Value, put};
use std::alloc::{AllocError, Global};

/// A packet and a stable routing that break a question: the number of the question, its packet, the failed links, what
/// the external peers send, all routing tables, and a walk of the packet where the question speaks of one.
#[derive(Drop)]
pub struct Counterexample {
    pub question: u32,
    pub packet: Packet,
    pub failures: Failures,
    pub env: Environment,
    pub tables: Tables,
    pub walk: Option<Walk>,
}

fn question_name(questions: &[Question], question: u32) -> &[u8]
    ensures { result.now ≡ text.question_name questions.entry.now question }
{
    match questions.get(question as usize) {
        None => b"",
        Some(question) => question.name.as_slice(),
    }
}

fn walk_part(
    alloc: Global,
    files: &[File],
    walk: &Option<Walk>,
) -> Result<Option<Value>, AllocError>
    ensures { IfOk result (λ value. option_map view value ≡ option_map (parts.walk_data files.now) walk.now) }
{
    match walk {
        None => Ok(None),
        Some(walk) => Ok(Some(walk_value(alloc, files, walk)?)),
    }
}

#[tactic(auto, unfolding(crate::specs::Text::surroundings_of))]
fn surroundings_of(
    alloc: Global,
    net: &Net,
    cex: &Counterexample,
) -> Result<Map<String, Value>, AllocError>
    ensures { IfOk result (λ fields. members_view fields.entries ≡ text.surroundings_of net.now.files cex.now) }
{
    let announcements = announcement_values(alloc, net, cex.env.announced.as_slice())?;
    let failures = failure_values(alloc, net, cex.failures.links.as_slice())?;
    let packet = packet_value(alloc, &cex.packet)?;
    let peers = peer_values(alloc, net, cex.env.ids.as_slice())?;
    let mut fields = Map::new(alloc);
    put(
        &mut fields,
        alloc,
        "announcements",
        Value::Array(announcements),
    )?;
    put(&mut fields, alloc, "failures", Value::Array(failures))?;
    put(&mut fields, alloc, "format", Value::from(2u8))?;
    put(&mut fields, alloc, "packet", packet)?;
    put(&mut fields, alloc, "peers", Value::Array(peers))?;
    Ok(fields)
}

#[tactic(auto, unfolding(crate::specs::Text::cex_data))]
fn cex_value(
    alloc: Global,
    net: &Net,
    questions: &[Question],
    cex: &Counterexample,
) -> Result<Value, AllocError>
    ensures { IfOk result (λ value. view value ≡ text.cex_data net.now.files questions.now cex.now) }
{
    let question = text_value(alloc, question_name(questions, cex.question))?;
    let slots = slot_values(alloc, net.routers(), cex.tables.slots.as_slice())?;
    let walk = walk_part(alloc, net.routers(), &cex.walk)?;
    let mut fields = surroundings_of(alloc, net, cex)?;
    put(&mut fields, alloc, "question", question)?;
    put(&mut fields, alloc, "tables", Value::Array(slots))?;
    put_field(&mut fields, alloc, "walk", walk)?;
    Ok(Value::Object(fields))
}

/// The text of a counterexample to one of the questions: compact JSON, the names of each object ascending. A router,
/// interface or question that is none of the network or the list has the empty name.
#[tactic(auto, using(crate::proofs::Plain::cex_plain))]
pub fn write_cex(
    alloc: Global,
    net: &Net,
    questions: &[Question],
    cex: &Counterexample,
) -> Result<List<u8>, AllocError>
    ensures { IfOk result (λ written. written ≡ text.cex_text net.now.files questions.now cex.now) }
{
    let value = cex_value(alloc, net, questions, cex)?;
    Ok(List {
        items: value.to_vec(alloc)?,
    })
}

#[tactic(auto, unfolding(crate::specs::Text::tables_data))]
fn tables_value(alloc: Global, files: &[File], tables: &Tables) -> Result<Value, AllocError>
    ensures { IfOk result (λ value. view value ≡ text.tables_data files.now tables.now) }
{
    Ok(Value::Array(slot_values(alloc, files, tables.slots.as_slice())?))
}

/// The text of tables: compact JSON, the slots with a part in their order.
#[tactic(auto, using(crate::proofs::Plain::tables_plain))]
pub fn write_tables(alloc: Global, net: &Net, tables: &Tables) -> Result<List<u8>, AllocError>
    ensures { IfOk result (λ written. written ≡ text.tables_text net.now.files tables.now) }
{
    let value = tables_value(alloc, net.routers(), tables)?;
    Ok(List {
        items: value.to_vec(alloc)?,
    })
}

/// The text of a slot of which one part alone is there: that part in compact JSON, or `null` where there is none. Of several
/// parts it is the first by name.
#[tactic(auto, using(crate::proofs::Plain::part_plain))]
pub fn write_part(alloc: Global, slot: &Slot) -> Result<List<u8>, AllocError>
    ensures { IfOk result (λ written. written ≡ text.part_text slot.now) }
{
    let value = part_value(alloc, slot)?;
    Ok(List {
        items: value.to_vec(alloc)?,
    })
}

#[tactic(auto, unfolding(crate::specs::Text::part_list))]
fn part_list(alloc: Global, slots: &[Slot]) -> Result<Value, AllocError>
    ensures { IfOk result (λ value. view value ≡ text.part_list slots.now) }
{
    Ok(Value::Array(part_values(alloc, slots)?))
}

/// The text of such slots: a list of their parts in compact JSON.
#[tactic(auto, using(crate::proofs::Plain::part_list_plain))]
pub fn write_part_list(alloc: Global, slots: &[Slot]) -> Result<List<u8>, AllocError>
    ensures { IfOk result (λ written. written ≡ text.part_list_text slots.now) }
{
    let value = part_list(alloc, slots)?;
    Ok(List {
        items: value.to_vec(alloc)?,
    })
}
