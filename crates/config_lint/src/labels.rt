//! What is said of a refusal: the kind of its line, and the line of the refusal.

ghost use Rattle.std.specs.Prelude.{◌≡◌, ◌<◌, ◌^◌, IfOk, length, map};
ghost use Rattle.std.specs.Option.{option_copied};
ghost use Rattle.config_prepare.specs.Places.{at_start};
ghost use Rattle.config_lint.specs.Labels as said;
ghost use Rattle.config_lint.specs.Linted.{IsLinted};

use crate::search::refusals_of;
use config_prepare::kind_table::KINDS;
use config_prepare::kinds::{Kind, find_kind, unfilled_text};
use config_prepare::places::{Block, Place, after_line, start};
use config_prepare::report::{area_text, class_text};
use config_prepare::text::joined;
use ios_policy_reader::{Cause, Context, Refused};
use mw_text::{Line, List, lines_of, list_of};
use run_inputs::text::{Text, refusal};
use std::alloc::{AllocError, Global};

/// A refusal: the kind of its line, as it is said, and the line that is printed of it.
#[derive(Drop)]
pub struct Entry {
    pub label: List<u8>,
    pub line: List<u8>,
}

/// Where each of these lines stands.
#[tactic(auto, using(crate::proofs::Places::places_step, crate::proofs::Places::places_done))]
fn places_of(alloc: Global, lines: &[Line]) -> Result<List<Place>, AllocError>
    ensures { IfOk result (λ places. places ≡ said.places_from at_start lines.now) }
{
    let mut places = List::new(alloc);
    let mut place = start();
    for line in lines {
        places.items.push(place)?;
        place = after_line(place, line);
    }
    Ok(places)
}

/// The place in the table of the kind of a sub-line of these words in that block.
fn kind_in(block: Block, words: &[List<u8>]) -> Option<usize>
    ensures { result ≡ said.kind_in block words.now }
{
    match block {
        Block::In(context) => find_kind(context, words),
        Block::LeftOut(at) => Some(at),
        Block::Other => None,
    }
}

/// The place in the table of the kind of a line which stands there.
fn kind_at(place: Place, line: &Line) -> Option<usize>
    ensures { result ≡ said.kind_at place line.now }
{
    if line.indented {
        kind_in(place.block, line.words.as_slice())
    } else {
        find_kind(Context::Top, line.words.as_slice())
    }
}

/// A kind, as it is said.
fn known_line(
    alloc: Global,
    area: &[u8],
    head: &[u8],
    class: &[u8],
    reason: &[u8],
) -> Result<List<u8>, AllocError>
    ensures { IfOk result (λ text. text ≡ said.known_line area.now head.now class.now reason.now) }
{
    let pieces: [&[u8]; 8] = [area, b": ", head, b" (", class, b": ", reason, b")"];
    joined(alloc, &pieces)
}

/// A kind of the table, as it is said.
fn known_label(alloc: Global, kind: &Kind) -> Result<List<u8>, AllocError>
    ensures { IfOk result (λ text. text ≡ said.known_label kind.now) }
{
    known_line(
        alloc,
        area_text(kind.0),
        unfilled_text(&kind.1),
        class_text(kind.2),
        unfilled_text(&kind.3),
    )
}

/// Where a sub-line in that block stands.
fn block_text(block: Block) -> &'static [u8]
    ensures { result.now ≡ said.block_text block }
{
    match block {
        Block::In(context) => area_text(context),
        Block::LeftOut(_) | Block::Other => b"sub-line",
    }
}

/// Where a line stands.
fn place_text(place: Place, line: &Line) -> &'static [u8]
    ensures { result.now ≡ said.place_text place line.now }
{
    if line.indented {
        block_text(place.block)
    } else {
        b"top"
    }
}

/// The first two words.
fn first_words(alloc: Global, words: &[List<u8>]) -> Result<List<u8>, AllocError>
    ensures { IfOk result (λ text. text ≡ said.first_words words.now) }
{
    match words {
        [] => Ok(List::new(alloc)),
        [word] => list_of(alloc, word.as_slice()),
        [word, next, ..] => joined(alloc, &[word.as_slice(), b" ", next.as_slice()]),
    }
}

/// A kind that is in no row of the table, as it is said.
fn unknown_line(alloc: Global, area: &[u8], words: &[u8]) -> Result<List<u8>, AllocError>
    ensures { IfOk result (λ text. text ≡ said.unknown_line area.now words.now) }
{
    let pieces: [&[u8]; 4] = [
        area,
        b": ",
        words,
        b" (unknown, which may change the verdict)",
    ];
    joined(alloc, &pieces)
}

/// The kind of a line, as it is said: that of the table, or its first words.
fn kind_label(
    alloc: Global,
    kind: Option<&Kind>,
    place: Place,
    line: &Line,
) -> Result<List<u8>, AllocError>
    ensures { IfOk result (λ text. text ≡ said.kind_label (option_copied kind.entry) place line.now) }
{
    match kind {
        Some(kind) => known_label(alloc, kind),
        None => {
            let words = first_words(alloc, line.words.as_slice())?;
            unknown_line(alloc, place_text(place, line), words.as_slice())
        }
    }
}

/// The kind of a line among these, as it is said.
fn label_among(
    alloc: Global,
    kinds: &[Kind],
    place: Place,
    line: &Line,
) -> Result<List<u8>, AllocError>
    ensures { IfOk result (λ text. text ≡ said.label_among kinds.now place line.now) }
{
    match kind_at(place, line) {
        Some(at) => kind_label(alloc, kinds.get(at), place, line),
        None => kind_label(alloc, None, place, line),
    }
}

/// The label of the line at a place.
fn label_at(
    alloc: Global,
    lines: &[Line],
    places: &[Place],
    at: usize,
) -> Result<List<u8>, AllocError>
    ensures { IfOk result (λ text. text ≡ said.label_at lines.now places.now at) }
{
    match (lines.get(at), places.get(at)) {
        (Some(line), Some(place)) => label_among(alloc, &KINDS, *place, line),
        _ => Ok(List::new(alloc)),
    }
}

/// What is said of a refusal.
fn label_of(
    alloc: Global,
    lines: &[Line],
    places: &[Place],
    refused: Refused,
) -> Result<List<u8>, AllocError>
    ensures { IfOk result (λ text. text ≡ said.label_of lines.now places.now refused) }
{
    match refused.cause {
        Cause::Repeated => list_of(alloc, b"lines that may stand once"),
        Cause::Limit => list_of(alloc, b"limits of the profile"),
        Cause::NoHostname => list_of(alloc, b"files without a hostname"),
        _ => label_at(
            alloc,
            lines,
            places,
            (refused.line as usize).saturating_sub(1),
        ),
    }
}

/// A refusal of the file of that name.
fn entry_by(
    alloc: Global,
    name: &[u8],
    lines: &[Line],
    places: &[Place],
    refused: Refused,
) -> Result<Entry, AllocError>
    ensures { IfOk result (λ entry. entry ≡ said.entry_by name.now lines.now places.now refused) }
{
    let label = label_of(alloc, lines, places, refused)?;
    let line = refusal(alloc, name, &refused)?;
    Ok(Entry { label, line })
}

/// These refusals of the file of that name.
fn entries_by(
    alloc: Global,
    name: &[u8],
    lines: &[Line],
    places: &[Place],
    told: &[Refused],
) -> Result<List<Entry>, AllocError>
    ensures { IfOk result (λ entries. entries ≡ map (said.entry_by name.now lines.now places.now) told.now) }
{
    let mut entries = List::new(alloc);
    for refused in told {
        let entry = entry_by(alloc, name, lines, places, *refused)?;
        entries.items.push(entry)?;
    }
    Ok(entries)
}

/// The refusals of a text, as they are said.
fn entries_told(alloc: Global, text: &Text, told: &[Refused]) -> Result<List<Entry>, AllocError>
    requires { length text.now.bytes < 2 ^ 32 }
    ensures { IfOk result (λ entries. entries ≡ map (said.entry_of text.now) told.now) }
{
    let lines = lines_of(alloc, text.bytes.as_slice())?;
    let places = places_of(alloc, lines.as_slice())?;
    entries_by(
        alloc,
        text.name.as_slice(),
        lines.as_slice(),
        places.as_slice(),
        told,
    )
}

/// All refusals of a text, in their order.
pub fn entries_of(alloc: Global, text: &Text) -> Result<List<Entry>, AllocError>
    requires { length text.now.bytes < 2 ^ 32 }
    ensures { IfOk result (IsLinted text.now) }
{
    let told = refusals_of(alloc, text.bytes.as_slice())?;
    entries_told(alloc, text, told.as_slice())
}
