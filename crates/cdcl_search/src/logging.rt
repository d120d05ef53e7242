//! The log of a search: one line for each entry.

ghost use Rattle.resolution_check.specs.Clauses.{is_below};
ghost use Rattle.std.specs.Prelude.{◌≡◌, ◌<◌, ◌≤◌, ◌^◌, true, IfOk, OnOk, length};
ghost use Rattle.std.specs.List.{list_all};
ghost use Rattle.std.specs.String.{string_bytes};
ghost use Rattle.mw_outside.specs.Faults.{Rose};
ghost use Rattle.mw_outside.specs.Taken.{Takes, TakesPart};
ghost use Rattle.resolution_check.specs.Text.{line_of, log_text, HasText};
ghost use Rattle.cdcl_search.specs.Outcomes.{OnLogFault, UnlessLogFault, input_entries};

use crate::outcome::SolveFault;
use mw_outside::Sink;
use mw_text::List;
use resolution_check::{Clause, Entry, Lit, put_input, write_entry};
use std::alloc::{AllocError, Global};

/// So many inputs are written at once.
const PIECE: usize = 512;

/// The line of an entry.
fn line_text(alloc: Global, entry: &Entry) -> Result<List<u8>, AllocError>
    requires { HasText entry.now }
    ensures { IfOk result (λ line. line ≡ line_of entry.now) }
{
    let mut line = write_entry(alloc, entry)?;
    line.items.push(b'\n')?;
    Ok(line)
}

/// Writes the line of an entry.
#[tactic(auto, using(mw_outside::specs::Taken::parts))]
fn write_line<L: Sink>(alloc: Global, log: &mut L, entry: &Entry) -> Result<(), SolveFault>
    requires { HasText entry.now }
    ensures takes { OnOk result (Takes (L.taken log.old) (L.taken log.new) (line_of entry.now)) }
    ensures part { TakesPart (L.taken log.old) (L.taken log.new) (line_of entry.now) }
    ensures fault { OnLogFault result (Rose (L.faults log.old) (L.faults log.new)) }
    ensures stays { UnlessLogFault result (L.faults log.new ≡ L.faults log.old) }
    ensures later { L.faults log.old ≤ L.faults log.new }
{
    let line = line_text(alloc, entry)?;
    log.write(line.as_slice())?;
    Ok(())
}

/// The lines of clauses as inputs, numbered from one on.
fn inputs_text(alloc: Global, first: u64, clauses: &[Clause]) -> Result<String, AllocError>
    requires first { first ≤ 2 ^ 63 }
    requires small { list_all (λ c. is_below (2 ^ 63) c.lits) clauses.now ≡ true }
    ensures { IfOk result (λ text. string_bytes text ≡ log_text (input_entries first clauses.now)) }
{
    let mut text = String::new(alloc);
    for (at, clause) in clauses.iter().enumerate() {
        put_input(&mut text, first + at as u64, clause.lits.as_slice())?;
    }
    Ok(text)
}

/// Writes clauses as inputs, numbered from one on, at once.
#[tactic(auto, using(mw_outside::specs::Taken::parts))]
fn write_piece<L: Sink>(
    alloc: Global,
    log: &mut L,
    first: u64,
    clauses: &[Clause],
) -> Result<(), SolveFault>
    requires first { first ≤ 2 ^ 63 }
    requires small { list_all (λ c. is_below (2 ^ 63) c.lits) clauses.now ≡ true }
    ensures takes { OnOk result (Takes (L.taken log.old) (L.taken log.new) (log_text (input_entries first clauses.now))) }
    ensures part { TakesPart (L.taken log.old) (L.taken log.new) (log_text (input_entries first clauses.now)) }
    ensures fault { OnLogFault result (Rose (L.faults log.old) (L.faults log.new)) }
    ensures stays { UnlessLogFault result (L.faults log.new ≡ L.faults log.old) }
    ensures later { L.faults log.old ≤ L.faults log.new }
{
    let text = inputs_text(alloc, first, clauses)?;
    log.write(text.as_bytes())?;
    Ok(())
}

/// Writes the clauses as inputs, numbered from 1.
pub(crate) fn write_inputs<L: Sink>(
    alloc: Global,
    log: &mut L,
    clauses: &[Clause],
) -> Result<(), SolveFault>
    requires small { list_all (λ c. is_below (2 ^ 63) c.lits) clauses.now ≡ true }
    ensures few { length clauses.now < 2 ^ 63 }
    ensures takes { OnOk result (Takes (L.taken log.old) (L.taken log.new) (log_text (input_entries 1 clauses.now))) }
    ensures part { TakesPart (L.taken log.old) (L.taken log.new) (log_text (input_entries 1 clauses.now)) }
    ensures fault { OnLogFault result (Rose (L.faults log.old) (L.faults log.new)) }
    ensures stays { UnlessLogFault result (L.faults log.new ≡ L.faults log.old) }
    ensures later { L.faults log.old ≤ L.faults log.new }
{
    for piece in 0..clauses.len() / PIECE + 1 {
        let from = piece * PIECE;
        let to = (from + PIECE).min(clauses.len());
        write_piece(alloc, log, from as u64 + 1, &clauses[from..to])?;
    }
    Ok(())
}

/// The entry that adds a clause by a chain.
fn addition_of(alloc: Global, id: u64, lits: &[Lit], chain: &[u64]) -> Result<Entry, AllocError>
    ensures { IfOk result (λ entry. entry ≡ Entry.Add id (record { lits = lits.now }) chain.now) }
{
    let clause = Clause {
        lits: List {
            items: Vec::from_slice(alloc, lits)?,
        },
    };
    let chain = List {
        items: Vec::from_slice(alloc, chain)?,
    };
    Ok(Entry::Add { id, clause, chain })
}

/// Writes the addition of a learnt clause under this number.
#[tactic(auto, using(mw_outside::specs::Taken::parts))]
pub(crate) fn write_addition<L: Sink>(
    alloc: Global,
    log: &mut L,
    id: u64,
    lits: &[Lit],
    chain: &[u64],
) -> Result<(), SolveFault>
    requires { HasText (Entry.Add id (record { lits = lits.now }) chain.now) }
    ensures takes { OnOk result (Takes (L.taken log.old) (L.taken log.new) (line_of (Entry.Add id (record { lits = lits.now }) chain.now))) }
    ensures part { TakesPart (L.taken log.old) (L.taken log.new) (line_of (Entry.Add id (record { lits = lits.now }) chain.now)) }
    ensures fault { OnLogFault result (Rose (L.faults log.old) (L.faults log.new)) }
    ensures stays { UnlessLogFault result (L.faults log.new ≡ L.faults log.old) }
    ensures later { L.faults log.old ≤ L.faults log.new }
{
    let addition = addition_of(alloc, id, lits, chain)?;
    write_line(alloc, log, &addition)
}

/// Writes the deletion of the clause of this number.
#[tactic(auto, using(mw_outside::specs::Taken::parts))]
pub(crate) fn write_deletion<L: Sink>(alloc: Global, log: &mut L, id: u64) -> Result<(), SolveFault>
    requires { HasText (Entry.Delete id) }
    ensures takes { OnOk result (Takes (L.taken log.old) (L.taken log.new) (line_of (Entry.Delete id))) }
    ensures part { TakesPart (L.taken log.old) (L.taken log.new) (line_of (Entry.Delete id)) }
    ensures fault { OnLogFault result (Rose (L.faults log.old) (L.faults log.new)) }
    ensures stays { UnlessLogFault result (L.faults log.new ≡ L.faults log.old) }
    ensures later { L.faults log.old ≤ L.faults log.new }
{
    write_line(alloc, log, &Entry::Delete { id })
}
