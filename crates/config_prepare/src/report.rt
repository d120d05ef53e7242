//! What is said of a text that was made ready, and the table of kinds as text.

ghost use Rattle.std.specs.Prelude.{◌≡◌, ◌++◌, IfOk, count_by, is_some};
ghost use Rattle.std.specs.List.{flat_map};
ghost use Rattle.config_prepare.specs.Prepared as texts;

use crate::kind_table::KINDS;
use crate::kinds::{Class, Kind, unfilled_text};
use crate::text::joined;
use ios_policy_reader::Context;
use mw_text::List;
use std::alloc::{AllocError, Global};

/// Where lines stand, as a text.
pub fn area_text(context: Context) -> &'static [u8]
    ensures { result.now ≡ texts.area_text context }
{
    match context {
        Context::Top => b"top",
        Context::InInterface => b"interface",
        Context::InOspf => b"router ospf",
        Context::InBgp => b"router bgp",
        Context::InMap => b"route-map",
        Context::InStandard => b"ip access-list standard",
        Context::InExtended => b"ip access-list extended",
    }
}

/// A class, as a text.
pub fn class_text(class: Class) -> &'static [u8]
    ensures { result.now ≡ texts.class_text class }
{
    match class {
        Class::NoEffect => b"no effect",
        Class::MayChange => b"may change the verdict",
        Class::OtherSpelling => b"another spelling",
    }
}

/// Whether a mark says that kind.
fn is_by(at: usize, mark: Option<usize>) -> bool
    ensures { result ≡ texts.is_by at mark }
{
    match mark {
        Some(kind) => kind == at,
        None => false,
    }
}

/// How many lines are left out by a kind.
fn count_of(at: usize, marks: &[Option<usize>]) -> usize
    ensures { result ≡ texts.count_of at marks.now }
{
    marks.iter().filter(|mark| is_by(at, **mark)).count()
}

/// How many lines are left out.
fn count_of_all(marks: &[Option<usize>]) -> usize
    ensures { result ≡ count_by (λ mark. is_some mark) marks.now }
{
    marks.iter().filter(|mark| mark.is_some()).count()
}

/// So many lines of these words, which stand there.
fn counted_line(
    alloc: Global,
    number: &[u8],
    area: &[u8],
    head: &[u8],
) -> Result<List<u8>, AllocError>
    ensures { IfOk result (λ text. text ≡ texts.counted_line number.now area.now head.now) }
{
    let pieces: [&[u8]; 7] = [b"left out ", number, b" ", area, b": ", head, b"\n"];
    joined(alloc, &pieces)
}

/// The row of a kind by which so many lines are left out.
fn counted_text(alloc: Global, count: usize, kind: &Kind) -> Result<List<u8>, AllocError>
    ensures { IfOk result (λ text. text ≡ texts.counted_text count kind.now) }
{
    let number = count.to_string(alloc)?;
    counted_line(
        alloc,
        number.as_bytes(),
        area_text(kind.0),
        unfilled_text(&kind.1),
    )
}

/// The row of a kind, where it has lines.
fn row_text(
    alloc: Global,
    marks: &[Option<usize>],
    at: usize,
    kind: &Kind,
) -> Result<List<u8>, AllocError>
    ensures { IfOk result (λ text. text ≡ texts.row_text marks.now at kind.now) }
{
    let count = count_of(at, marks);
    if count == 0 {
        return Ok(List::new(alloc));
    }
    counted_text(alloc, count, kind)
}

/// The rows of these kinds.
#[tactic(auto, using(crate::proofs::Steps::rows_step, crate::proofs::Steps::rows_done))]
fn rows_text(alloc: Global, marks: &[Option<usize>], kinds: &[Kind]) -> Result<List<u8>, AllocError>
    ensures { IfOk result (λ text. text ≡ texts.rows_from marks.now 0 kinds.now) }
{
    let mut text = List::new(alloc);
    for at in 0..kinds.len() {
        let row = row_text(alloc, marks, at, &kinds[at])?;
        text.items.extend_from_slice(row.as_slice())?;
    }
    Ok(text)
}

/// How many lines are left out, of how many.
fn total_text(alloc: Global, marks: &[Option<usize>]) -> Result<List<u8>, AllocError>
    ensures { IfOk result (λ text. text ≡ texts.total_text marks.now) }
{
    let count = count_of_all(marks).to_string(alloc)?;
    let all = marks.len().to_string(alloc)?;
    let pieces: [&[u8]; 5] = [
        b"left out ",
        count.as_bytes(),
        b" of ",
        all.as_bytes(),
        b" lines\n",
    ];
    joined(alloc, &pieces)
}

/// How many lines are left out by each of these kinds that has some, and of how many in all.
fn rows_and_total(
    alloc: Global,
    marks: &[Option<usize>],
    kinds: &[Kind],
) -> Result<List<u8>, AllocError>
    ensures { IfOk result (λ text. text ≡ texts.rows_from marks.now 0 kinds.now ++ texts.total_text marks.now) }
{
    let mut text = rows_text(alloc, marks, kinds)?;
    let total = total_text(alloc, marks)?;
    text.items.extend_from_slice(total.as_slice())?;
    Ok(text)
}

/// How many lines are left out by each kind that has some, and of how many in all.
pub fn report_text(alloc: Global, marks: &[Option<usize>]) -> Result<List<u8>, AllocError>
    ensures { IfOk result (λ text. text ≡ texts.report marks.now) }
{
    rows_and_total(alloc, marks, &KINDS)
}

/// A row of the table.
fn table_line(
    alloc: Global,
    area: &[u8],
    head: &[u8],
    class: &[u8],
    reason: &[u8],
) -> Result<List<u8>, AllocError>
    ensures { IfOk result (λ text. text ≡ texts.table_line area.now head.now class.now reason.now) }
{
    let pieces: [&[u8]; 9] = [
        b"| ", area, b" | `", head, b"` | ", class, b" | ", reason, b" |\n",
    ];
    joined(alloc, &pieces)
}

/// The row of a kind in the table.
fn table_row(alloc: Global, kind: &Kind) -> Result<List<u8>, AllocError>
    ensures { IfOk result (λ text. text ≡ texts.table_row kind.now) }
{
    table_line(
        alloc,
        area_text(kind.0),
        unfilled_text(&kind.1),
        class_text(kind.2),
        unfilled_text(&kind.3),
    )
}

/// The rows of these kinds in the table.
fn table_rows(alloc: Global, kinds: &[Kind]) -> Result<List<u8>, AllocError>
    ensures { IfOk result (λ text. text ≡ flat_map texts.table_row kinds.now) }
{
    let mut text = List::new(alloc);
    for kind in kinds {
        let row = table_row(alloc, kind)?;
        text.items.extend_from_slice(row.as_slice())?;
    }
    Ok(text)
}

/// The table of all kinds.
pub fn table_text(alloc: Global) -> Result<List<u8>, AllocError>
    ensures { IfOk result (λ text. text ≡ texts.table_text) }
{
    table_rows(alloc, &KINDS)
}
