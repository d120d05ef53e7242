//! From which routers a walk of so many hops ends as looked for, or goes on.

ghost use Rattle.std.specs.Prelude.{◌≡◌, ◌<◌, Bool, List as ListOf, Some, map, IfOk, length, slice_get};
ghost use Rattle.walk_finder.specs.Layers as layers;
ghost use Rattle.walk_finder.specs.Rows.{table_of};

use crate::rows::Row;
use mw_text::List;
use std::alloc::{AllocError, Global};
use walk_def::arriving::some_leads;

fn first_mark(to_ends: bool, row: &Row) -> bool
    ensures { result ≡ layers.first_mark to_ends row.now }
{
    if to_ends { row.end.is_some() } else { true }
}

fn next_mark(to_ends: bool, marks: &[bool], row: &Row) -> bool
    ensures { result ≡ layers.next_mark to_ends marks.now row.now }
{
    (to_ends && row.end.is_some()) || some_leads(marks, row.hops.as_slice())
}

// The first layer.
fn first_marks(alloc: Global, rows: &[Row], to_ends: bool) -> Result<List<bool>, AllocError>
    ensures { IfOk result (λ marks. marks ≡ map (layers.first_mark to_ends) rows.now) }
{
    let items = rows
        .iter()
        .map(|row| first_mark(to_ends, row))
        .collect(alloc)?;
    Ok(List { items })
}

// The layer after these marks.
fn next_marks(
    alloc: Global,
    rows: &[Row],
    to_ends: bool,
    marks: &[bool],
) -> Result<List<bool>, AllocError>
    ensures { IfOk result (λ next. next ≡ map (layers.next_mark to_ends marks.now) rows.now) }
{
    let items = rows
        .iter()
        .map(|row| next_mark(to_ends, marks, row))
        .collect(alloc)?;
    Ok(List { items })
}

// The layer after that one.
fn marks_after(
    alloc: Global,
    rows: &[Row],
    to_ends: bool,
    all: &[List<bool>],
    at: usize,
) -> Result<List<bool>, AllocError>
    requires { at < length all.now }
    ensures { IfOk result (λ next. (marks : ListOf Bool) → slice_get all.now at ≡ Some marks →
        next ≡ map (layers.next_mark to_ends marks) rows.now) }
{
    let marks = all[at].as_slice();
    next_marks(alloc, rows, to_ends, marks)
}

/// The first layer, and so many more.
pub fn layers(
    alloc: Global,
    rows: &[Row],
    to_ends: bool,
    count: usize,
) -> Result<List<List<bool>>, AllocError>
    ensures { IfOk result (layers.AreLayers to_ends (table_of rows.now) count) }
{
    let first = first_marks(alloc, rows, to_ends)?;
    let mut all = List::new(alloc);
    all.items.push(first)?;
    for at in 0..count {
        let next = marks_after(alloc, rows, to_ends, all.as_slice(), at)?;
        all.items.push(next)?;
    }
    Ok(all)
}
