//! Follows hops from a start along the layers of marks.

ghost use Rattle.std.specs.Prelude.{◌≡◌, ◌<◌, ◌+◌, ◌++◌, ◌∷◌, [], ℕ, List as ListOf, None, Some, true, false};
ghost use Rattle.std.specs.Prelude.{Contains, IfOk, IfSome, OnOk, length, slice_get};
ghost use Rattle.std.specs.List.{find, list_any};
ghost use Rattle.std.specs.Option.{is_some, option_copied};
ghost use Rattle.question_lang.specs.declared.walk.End.{End as EndOf};
ghost use Rattle.question_lang.specs.declared.walk.Hop.{Hop as HopOf};
ghost use Rattle.question_lang.specs.Walks.{LeadsTo};
ghost use Rattle.sym_forwarding.specs.Layers.{arrives, going, loops};
ghost use Rattle.walk_def.specs.Arriving.{leads_to_known};
ghost use Rattle.walk_def.specs.Marks.{known};
ghost use Rattle.walk_finder.specs.declared.rows.Row.{Row as RowOf};
ghost use Rattle.walk_finder.specs.Following.{Arrives, Follows};
ghost use Rattle.walk_finder.specs.Layers.{AreLayers};
ghost use Rattle.walk_finder.specs.Rows.{AreRowsOf, table_of};

use crate::layers::layers;
use crate::rows::Row;
use mw_text::List;
use net_model::IfaceId;
use question_lang::{End, Hop, Start, Walk};
use std::alloc::{AllocError, Global};
use walk_def::arriving::leads_to_known;
use walk_def::marks::{is_known, no_marks};

/// Where a walk stood, and where it stands now.
#[derive(Drop)]
struct Trail {
    stood: List<Start>,
    now: Start,
}

fn find_leading<'a>(own: &'a [Hop], marks: &[bool]) -> Option<&'a Hop>
    ensures { option_copied result ≡ find (leads_to_known marks.now) own.now }
{
    own.iter().find(|hop| leads_to_known(marks, hop))
}

fn first_leading(own: &[Hop], marks: &[bool]) -> Option<Hop>
    ensures { result ≡ find (leads_to_known marks.now) own.now }
{
    find_leading(own, marks).copied()
}

// The interface at which the hop leads in.
fn iface_of(hop: Hop) -> IfaceId
    requires { (end : EndOf) → hop ≡ Hop.Ends end → ⊥ }
    ensures { hop ≡ Hop.To result }
{
    match hop {
        Hop::To(i) => i,
        Hop::Ends(_) => unreachable!(),
    }
}

// The first hop that leads to a router that is marked.
fn next_in(own: &[Hop], marks: &[bool]) -> IfaceId
    requires { list_any (leads_to_known marks.now) own.now ≡ true }
    ensures has { Contains own.now (Hop.To result) }
    ensures marked { known marks.now result.router ≡ true }
{
    match first_leading(own, marks) {
        None => unreachable!(),
        Some(hop) => iface_of(hop),
    }
}

// One hop on, to a router that is marked.
fn step(trail: &mut Trail, rows: &[Row], marks: &[bool]) -> Result<(), AllocError>
    requires within { trail.old.now.router < length rows.now }
    requires leads { (row : RowOf) → slice_get rows.now trail.old.now.router ≡ Some row →
        list_any (leads_to_known marks.now) row.hops ≡ true }
    ensures stood { OnOk result (trail.new.stood ≡ trail.old.stood ++ trail.old.now ∷ []) }
    ensures led { OnOk result ((hops : ℕ → ListOf HopOf) → AreRowsOf hops rows.now →
        LeadsTo hops trail.old.now trail.new.now) }
    ensures marked { OnOk result (known marks.now trail.new.now.router ≡ true) }
{
    let i = next_in(rows[trail.now.router as usize].hops.as_slice(), marks);
    trail.stood.items.push(trail.now)?;
    trail.now = Start {
        router: i.router,
        iface: Some(i.at),
    };
    Ok(())
}

// The walk that ends where it stands.
fn finish(trail: Trail, end: End) -> Result<Walk, AllocError>
    ensures hops { IfOk result (λ walk. walk.hops ≡ trail.stood ++ trail.now ∷ []) }
    ensures end { IfOk result (λ walk. walk.end ≡ end) }
{
    let Trail { mut stood, now } = trail;
    stood.items.push(now)?;
    Ok(Walk { hops: stood, end })
}

// Whether the row of the router has an end.
fn has_end(rows: &[Row], router: u32) -> bool
    requires { router < length rows.now }
    ensures { (row : RowOf) → slice_get rows.now router ≡ Some row → is_some row.end ≡ result }
{
    rows[router as usize].end.is_some()
}

fn end_at(rows: &[Row], router: u32) -> Option<End>
    requires { router < length rows.now }
    ensures { (row : RowOf) → slice_get rows.now router ≡ Some row → row.end ≡ result }
{
    rows[router as usize].end
}

// The walk that ends where it stands, as the row there has it.
fn arrive(trail: Trail, rows: &[Row]) -> Result<Walk, AllocError>
    requires within { trail.now.router < length rows.now }
    requires has { (row : RowOf) → slice_get rows.now trail.now.router ≡ Some row → is_some row.end ≡ true }
    ensures hops { IfOk result (λ walk. walk.hops ≡ trail.stood ++ trail.now ∷ []) }
    ensures end { IfOk result (λ walk. (row : RowOf) → slice_get rows.now trail.now.router ≡ Some row →
        row.end ≡ Some walk.end) }
{
    match end_at(rows, trail.now.router) {
        None => unreachable!(),
        Some(end) => {
            let walk = finish(trail, end)?;
            Ok(walk)
        }
    }
}

// The walk from a router of the last layer to an end.
fn follow_to_end(
    alloc: Global,
    rows: &[Row],
    layers: &[List<bool>],
    start: Start,
) -> Result<Walk, AllocError>
    requires layers { AreLayers true (table_of rows.now) (length rows.now) layers.now }
    requires marked { arrives (table_of rows.now) start.router ≡ true }
    ensures { IfOk result (Arrives rows.now start) }
{
    let mut trail = Trail {
        stood: List::new(alloc),
        now: start,
    };
    let mut left = rows.len();
    'walk: while !has_end(rows, trail.now.router) {
        left -= 1;
        step(&mut trail, rows, layers[left].as_slice())?;
    }
    let walk = arrive(trail, rows)?;
    Ok(walk)
}

// The walk of so many hops from a router of the last layer.
fn follow_hops(
    alloc: Global,
    rows: &[Row],
    layers: &[List<bool>],
    start: Start,
    count: usize,
) -> Result<Walk, AllocError>
    requires layers { AreLayers false (table_of rows.now) count layers.now }
    requires marked { known (going (table_of rows.now) count) start.router ≡ true }
    ensures follows { IfOk result (Follows rows.now start) }
    ensures long { IfOk result (λ walk. length walk.hops ≡ count + 1) }
{
    let mut trail = Trail {
        stood: List::new(alloc),
        now: start,
    };
    let mut left = count;
    'walk: while left > 0 {
        left -= 1;
        step(&mut trail, rows, layers[left].as_slice())?;
    }
    let walk = finish(trail, End::Open)?;
    Ok(walk)
}

// The walk from a router of the last layer that comes back to where it stood.
fn follow_round(
    alloc: Global,
    rows: &[Row],
    layers: &[List<bool>],
    start: Start,
) -> Result<Walk, AllocError>
    requires layers { AreLayers false (table_of rows.now) (length rows.now) layers.now }
    requires marked { loops (table_of rows.now) start.router ≡ true }
    ensures follows { IfOk result (Follows rows.now start) }
    ensures round { IfOk result (λ walk. walk.end ≡ End.Loop) }
{
    let mut trail = Trail {
        stood: List::new(alloc),
        now: start,
    };
    let mut seen = no_marks(alloc, rows.len())?;
    let mut left = rows.len();
    'walk: while !seen[trail.now.router as usize] {
        seen[trail.now.router as usize] = true;
        left -= 1;
        step(&mut trail, rows, layers[left].as_slice())?;
    }
    let walk = finish(trail, End::Loop)?;
    Ok(walk)
}

/// A walk from the start to an end of a row, where there is one.
pub fn find_end(alloc: Global, rows: &[Row], start: Start) -> Result<Option<Walk>, AllocError>
    ensures some { IfOk result (λ found. IfSome found (Arrives rows.now start)) }
    ensures arrives { IfOk result (λ found. IfSome found (λ walk. arrives (table_of rows.now) start.router ≡ true)) }
    ensures none { IfOk result (λ found. found ≡ None → arrives (table_of rows.now) start.router ≡ false) }
{
    let all = layers(alloc, rows, true, rows.len())?;
    let last = all.as_slice()[rows.len()].as_slice();
    if !is_known(last, start.router) {
        return Ok(None);
    }
    let walk = follow_to_end(alloc, rows, all.as_slice(), start)?;
    Ok(Some(walk))
}

/// A walk from the start that comes back to where it stood.
pub fn find_round(alloc: Global, rows: &[Row], start: Start) -> Result<Walk, AllocError>
    requires { loops (table_of rows.now) start.router ≡ true }
    ensures follows { IfOk result (Follows rows.now start) }
    ensures round { IfOk result (λ walk. walk.end ≡ End.Loop) }
{
    let all = layers(alloc, rows, false, rows.len())?;
    let walk = follow_round(alloc, rows, all.as_slice(), start)?;
    Ok(walk)
}

/// A walk of so many hops from the start.
pub fn find_hops(
    alloc: Global,
    rows: &[Row],
    start: Start,
    count: usize,
) -> Result<Walk, AllocError>
    requires { known (going (table_of rows.now) count) start.router ≡ true }
    ensures follows { IfOk result (Follows rows.now start) }
    ensures long { IfOk result (λ walk. length walk.hops ≡ count + 1) }
{
    let all = layers(alloc, rows, false, count)?;
    let walk = follow_hops(alloc, rows, all.as_slice(), start, count)?;
    Ok(walk)
}
