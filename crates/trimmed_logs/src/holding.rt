//! The entries of an open section, and whether another one may follow.

ghost use Rattle.std.specs.Prelude.{◌≡◌, ◌++◌, ◌∷◌, [], false, List as ListOf, IfOk, None};
ghost use Rattle.resolution_check.specs.declared.log.Entry.{Entry};
ghost use Rattle.resolution_check.specs.Entries.{is_end};
ghost use Rattle.resolution_check.specs.Text.{HasText};
ghost use Rattle.trimmed_logs.specs.Held.{IsHeld, IsOrder, TakesEntry};
ghost use Rattle.trimmed_logs.specs.Logs.{is_orderly, is_step, number_given};

use log_checker::Cause;
use resolution_check::{Bad, Checker, Entry};
use std::alloc::{AllocError, Global};

/// The greatest number that was given, and whether an entry other than an input came.
#[derive(Clone, Copy)]
pub struct Order {
    pub top: u64,
    pub begun: bool,
}

// The number that an entry gives, or 0.
fn number_given(entry: &Entry) -> u64
    ensures { result ≡ number_given entry.now }
{
    match entry {
        Entry::Input { id, .. } | Entry::Add { id, .. } => *id,
        Entry::Delete { .. } | Entry::End => 0,
    }
}

fn is_step(entry: &Entry) -> bool
    ensures { result ≡ is_step entry.now }
{
    !matches!(entry, Entry::Input { .. })
}

// Whether the entry may stand behind those of that order.
fn is_orderly(order: Order, entry: &Entry) -> bool
    ensures { (es : ListOf Entry) → IsOrder order es → result ≡ is_orderly es entry.now }
{
    match entry {
        Entry::Input { id, .. } => !order.begun && *id > 0 && *id - 1 == order.top,
        Entry::Add { id, .. } => order.top < *id,
        Entry::Delete { .. } | Entry::End => true,
    }
}

// The order with one entry more.
fn order_with(order: Order, entry: &Entry) -> Order
    ensures { (es : ListOf Entry) → IsOrder order es → IsOrder result (es ++ entry.now ∷ []) }
{
    Order {
        top: order.top.max(number_given(entry)),
        begun: order.begun || is_step(entry),
    }
}

// A copy of an entry.
fn copied(entry: &Entry) -> Result<Entry, AllocError>
    ensures { IfOk result (λ copy. copy ≡ entry.now) }
{
    match entry {
        Entry::Input { id, clause } => Ok(Entry::Input {
            id: *id,
            clause: clause.clone()?,
        }),
        Entry::Add { id, clause, chain } => {
            let clause = clause.clone()?;
            Ok(Entry::Add {
                id: *id,
                clause,
                chain: chain.clone()?,
            })
        }
        Entry::Delete { id } => Ok(Entry::Delete { id: *id }),
        Entry::End => Ok(Entry::End),
    }
}

/// Takes an entry other than the end, and answers what is wrong with it, if anything is.
pub fn take_entry(
    checker: &mut Checker,
    order: &mut Order,
    entries: &mut Vec<Entry>,
    entry: Entry,
) -> Result<Option<Cause>, AllocError>
    requires held { IsHeld checker.old order.old entries.old.items }
    requires text { HasText entry }
    requires goes_on { is_end entry ≡ false }
    ensures takes { IfOk result (TakesEntry entries.old.items entries.new.items entry) }
    ensures held { IfOk result (λ cause. cause ≡ None → IsHeld checker.new order.new entries.new.items) }
{
    if !is_orderly(*order, &entry) {
        return Ok(Some(Cause::BadLine));
    }
    let copy = copied(&entry)?;
    match checker.step(entry) {
        Ok(()) => {}
        Err(Bad::Memory) => return Err(AllocError),
        Err(bad) => return Ok(Some(Cause::Refused(bad))),
    }
    *order = order_with(*order, &copy);
    entries.push(copy)?;
    Ok(None)
}
