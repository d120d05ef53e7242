//! Refusals by the kinds of their lines.

ghost use Rattle.std.specs.Prelude.{◌≡◌, ◌++◌, IfOk, count_by, length, ◌≤◌};
ghost use Rattle.std.specs.List.{list_any};
ghost use Rattle.config_lint.specs.Linted as linted;
ghost use Rattle.config_lint.specs.Linted.{AreEntries};
ghost use Rattle.run_inputs.specs.Loading.{AreSmall};

use crate::labels::{Entry, entries_of};
use config_prepare::text::{joined, put_piece};
use mw_text::{List, same_bytes};
use run_inputs::text::Text;
use std::alloc::{AllocError, Global};

/// All refusals of these texts, one text after another.
pub fn entries_of_all(alloc: Global, texts: &[Text]) -> Result<List<Entry>, AllocError>
    requires { AreSmall texts.now }
    ensures { IfOk result (AreEntries texts.now) }
{
    let mut entries = List::new(alloc);
    for text in texts {
        let mut own = entries_of(alloc, text)?;
        entries.items.append(&mut own.items)?;
    }
    Ok(entries)
}

fn has_label(label: &[u8], entry: &Entry) -> bool
    ensures { result ≡ linted.has_label label.now entry.now }
{
    same_bytes(entry.label.as_slice(), label)
}

fn count_of(entries: &[Entry], label: &[u8]) -> usize
    ensures { result ≡ count_by (linted.has_label label.now) entries.now }
{
    entries
        .iter()
        .filter(|entry| has_label(label, entry))
        .count()
}

fn is_among(entries: &[Entry], label: &[u8]) -> bool
    ensures { result ≡ list_any (linted.has_label label.now) entries.now }
{
    entries.iter().any(|entry| has_label(label, entry))
}

fn head_text(alloc: Global, count: usize, label: &[u8]) -> Result<List<u8>, AllocError>
    ensures { IfOk result (λ text. text ≡ linted.head_text count label.now) }
{
    let number = count.to_string(alloc)?;
    joined(alloc, &[number.as_bytes(), b" of ", label, b"\n"])
}

/// The lines of the refusals of a kind.
fn lines_text(alloc: Global, entries: &[Entry], label: &[u8]) -> Result<List<u8>, AllocError>
    ensures { IfOk result (λ text. text ≡ linted.lines_text entries.now label.now) }
{
    let mut text = List::new(alloc);
    for entry in entries {
        if has_label(label, entry) {
            text.items.extend_from_slice(entry.line.as_slice())?;
        }
    }
    Ok(text)
}

/// The refusals of a kind, with how many they are.
fn group_text(alloc: Global, entries: &[Entry], label: &[u8]) -> Result<List<u8>, AllocError>
    ensures { IfOk result (λ text. text ≡ linted.group_text entries.now label.now) }
{
    let mut text = head_text(alloc, count_of(entries, label), label)?;
    let lines = lines_text(alloc, entries, label)?;
    text.items.extend_from_slice(lines.as_slice())?;
    Ok(text)
}

/// The group of the refusal at a place, where no refusal before it has its kind.
fn group_of(
    alloc: Global,
    entries: &[Entry],
    at: usize,
    entry: &Entry,
) -> Result<List<u8>, AllocError>
    requires { at ≤ length entries.now }
    ensures { IfOk result (λ text. text ≡ linted.group_of entries.now at entry.now) }
{
    let label = entry.label.as_slice();
    if is_among(&entries[..at], label) {
        return Ok(List::new(alloc));
    }
    group_text(alloc, entries, label)
}

/// All groups, in the order in which their kinds come first.
fn groups_text(alloc: Global, entries: &[Entry]) -> Result<List<u8>, AllocError>
    ensures { IfOk result (λ text. text ≡ linted.groups_from entries.now 0 entries.now) }
{
    let mut text = List::new(alloc);
    for at in 0..entries.len() {
        let group = group_of(alloc, entries, at, &entries[at])?;
        put_piece(&mut text, group.as_slice())?;
    }
    Ok(text)
}

fn total_text(alloc: Global, entries: &[Entry]) -> Result<List<u8>, AllocError>
    ensures { IfOk result (λ text. text ≡ linted.total_text entries.now) }
{
    let number = entries.len().to_string(alloc)?;
    joined(alloc, &[b"refused lines: ", number.as_bytes(), b"\n"])
}

/// All refusals by their kinds, and how many they are.
pub fn grouped_text(alloc: Global, entries: &[Entry]) -> Result<List<u8>, AllocError>
    ensures { IfOk result (λ text. text ≡ linted.grouped entries.now) }
{
    let mut text = groups_text(alloc, entries)?;
    let total = total_text(alloc, entries)?;
    text.items.extend_from_slice(total.as_slice())?;
    Ok(text)
}
