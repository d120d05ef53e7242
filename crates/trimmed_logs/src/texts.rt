//! The text of a trimmed log.

ghost use Rattle.std.specs.Prelude.{◌≡◌, ◌++◌, ◌∷◌, [], List as ListOf, OnOk};
ghost use Rattle.std.specs.List.{AllByRecursion};
ghost use Rattle.resolution_check.specs.Text.{HasText, log_text};
ghost use Rattle.resolution_check.specs.declared.log.Entry.{Entry};
ghost use Rattle.log_checker.specs.Sections.{opening_text};
ghost use Rattle.trimmed_logs.specs.Logs.{Section};
ghost use Rattle.trimmed_logs.specs.Steps.{IsWhole};
ghost use Rattle.trimmed_logs.specs.Texts.{IsTrimmedOf};

use crate::trimming::trim;
use resolution_check::{Entry, write_entry};
use std::alloc::{AllocError, Global};

// Appends the lines of entries.
fn push_lines(alloc: Global, text: &mut Vec<u8>, entries: &[Entry]) -> Result<(), AllocError>
    requires { AllByRecursion HasText entries.now }
    ensures { OnOk result (text.new.items ≡ text.old.items ++ log_text entries.now) }
{
    for entry in entries {
        push_line(alloc, text, entry)?;
    }
    Ok(())
}

// Appends the line of an entry.
fn push_line(alloc: Global, text: &mut Vec<u8>, entry: &Entry) -> Result<(), AllocError>
    requires { HasText entry.now }
    ensures { OnOk result (text.new.items ≡ text.old.items ++ log_text (entry.now ∷ [])) }
{
    let line = write_entry(alloc, entry)?;
    text.extend_from_slice(line.as_slice())?;
    text.push(b'\n')?;
    Ok(())
}

// Appends the line that opens a section.
fn push_opening(text: &mut Vec<u8>, name: &[u8]) -> Result<(), AllocError>
    ensures { OnOk result (text.new.items ≡ text.old.items ++ opening_text name.now) }
{
    text.extend_from_slice(b"q ")?;
    text.extend_from_slice(name)?;
    text.push(b'\n')?;
    Ok(())
}

/// Appends the trimmed form of a section: the line that opens it, and the lines of the trimmed list.
///
/// # Errors
/// Memory was refused.
pub fn push_trimmed(
    alloc: Global,
    text: &mut Vec<u8>,
    name: &[u8],
    entries: &mut Vec<Entry>,
) -> Result<(), AllocError>
    requires { IsWhole entries.old.items }
    ensures { OnOk result ((trimmed : ListOf Entry) × IsTrimmedOf (record { name = name.now; entries = entries.old.items }) trimmed
        × (text.new.items ≡ text.old.items ++ (opening_text name.now ++ log_text trimmed))) }
{
    entries.push(Entry::End)?;
    let trimmed = trim(alloc, entries.as_slice())?;
    push_opening(text, name)?;
    push_lines(alloc, text, trimmed.as_slice())
}
