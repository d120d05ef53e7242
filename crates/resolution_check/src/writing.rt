//! The text of an entry.

ghost use Rattle.std.specs.Prelude.{◌≡◌, ◌++◌, OnOk, IfOk, map};
ghost use Rattle.std.specs.List.{flat_map, AllByRecursion};
ghost use Rattle.std.specs.String.{string_bytes};
ghost use Rattle.std.specs.Fmt.{decimal};
ghost use Rattle.resolution_check.specs.declared.log.Entry.{Entry};
ghost use Rattle.resolution_check.specs.Text.{text_of, line_of, HasText, IsNumber, IsSmall, lit_text, after_space, zero_text};

use crate::log::{Entry, Lit};
use itoa::Buffer;
use mw_text::List;
use std::alloc::{AllocError, Global};

/// Writes a space and a number.
fn write_number(out: &mut String, number: u64) -> Result<(), AllocError>
    ensures { OnOk result (string_bytes out.new ≡ string_bytes out.old ++ after_space (decimal number)) }
{
    let mut buffer = Buffer::new();
    out.push_str(" ")?;
    out.push_str(buffer.format(number))
}

/// Writes a space and a literal.
fn write_lit(out: &mut String, lit: Lit) -> Result<(), AllocError>
    requires { IsSmall lit }
    ensures { OnOk result (string_bytes out.new ≡ string_bytes out.old ++ after_space (lit_text lit)) }
{
    let mut buffer = Buffer::new();
    out.push_str(if lit.negated { " -" } else { " " })?;
    out.push_str(buffer.format(lit.var + 1))
}

/// Writes the literals of a clause and the word `0`, each behind a space.
fn write_lits(out: &mut String, lits: &[Lit]) -> Result<(), AllocError>
    requires { AllByRecursion IsSmall lits.now }
    ensures { OnOk result (string_bytes out.new ≡
        (string_bytes out.old ++ flat_map after_space (map lit_text lits.now)) ++ after_space zero_text) }
{
    for lit in lits {
        write_lit(out, *lit)?;
    }
    out.push_str(" 0")
}

/// Writes the numbers of a chain and the word `0`, each behind a space.
fn write_chain(out: &mut String, chain: &[u64]) -> Result<(), AllocError>
    ensures { OnOk result (string_bytes out.new ≡
        (string_bytes out.old ++ flat_map after_space (map decimal chain.now)) ++ after_space zero_text) }
{
    for number in chain {
        write_number(out, *number)?;
    }
    out.push_str(" 0")
}

/// Writes an input's words.
fn write_input(out: &mut String, id: u64, lits: &[Lit]) -> Result<(), AllocError>
    requires { AllByRecursion IsSmall lits.now }
    ensures { OnOk result (string_bytes out.new ≡ string_bytes out.old ++ text_of (Entry.Input id (record { lits = lits.now }))) }
{
    out.push_str("i")?;
    write_number(out, id)?;
    write_lits(out, lits)
}

/// Writes an entry's words.
fn write_words(out: &mut String, entry: &Entry) -> Result<(), AllocError>
    requires { HasText entry.now }
    ensures { OnOk result (string_bytes out.new ≡ string_bytes out.old ++ text_of entry.now) }
{
    match entry {
        Entry::Input { id, clause } => write_input(out, *id, clause.lits.as_slice()),
        Entry::Add { id, clause, chain } => {
            out.push_str("a")?;
            write_number(out, *id)?;
            write_lits(out, clause.lits.as_slice())?;
            write_chain(out, chain.as_slice())
        }
        Entry::Delete { id } => {
            out.push_str("d")?;
            write_number(out, *id)
        }
        Entry::End => out.push_str("e"),
    }
}

/// The line of an entry, without its line feed.
pub fn write_entry(alloc: Global, entry: &Entry) -> Result<List<u8>, AllocError>
    requires { HasText entry.now }
    ensures { IfOk result (λ text. text ≡ text_of entry.now) }
{
    let mut out = String::new(alloc);
    write_words(&mut out, entry)?;
    Ok(List {
        items: out.into_bytes(),
    })
}

/// Puts the line of an input behind a text, with its line feed.
pub fn put_input(out: &mut String, id: u64, lits: &[Lit]) -> Result<(), AllocError>
    requires { AllByRecursion IsSmall lits.now }
    ensures { OnOk result (string_bytes out.new ≡ string_bytes out.old ++ line_of (Entry.Input id (record { lits = lits.now }))) }
{
    write_input(out, id, lits)?;
    out.push_str("\n")
}
