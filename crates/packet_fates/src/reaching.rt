//! Which routers hops lead to.

ghost use Rattle.std.specs.Prelude.{◌≡◌, ◌<◌, ◌^◌, true, false, IfNone, IfOk, IfSome, length};
ghost use Rattle.walk_def.specs.Marks.{known};
ghost use Rattle.packet_fates.specs.Reaching as reaching;
ghost use Rattle.packet_fates.specs.Steps as steps;

use mw_text::List;
use question_lang::Hop;
use std::alloc::{AllocError, Global};
use walk_def::marks::{is_known, no_marks};

// The router that the hop leads to, where that is not marked.
fn new_by(marks: &[bool], hop: &Hop) -> Option<u32>
    ensures { result ≡ steps.new_by marks.now hop.now }
{
    match hop {
        Hop::To(i) if !is_known(marks, i.router) => Some(i.router),
        _ => None,
    }
}

// The first router that is not marked to which one of the hops leads.
fn new_among(own: &[Hop], marks: &[bool]) -> Option<u32>
    ensures some { IfSome result (steps.IsNewAmong own.now marks.now) }
    ensures none { IfNone result (steps.LeadsNowhereNew own.now marks.now) }
{
    for hop in own {
        if let Some(to) = new_by(marks, hop) {
            return Some(to);
        }
    }
    None
}

// The first such router to which a hop of a marked router leads.
fn next_reached(all: &[List<Hop>], marks: &[bool]) -> Option<u32>
    requires few { length all.now < 2 ^ 32 }
    ensures some { IfSome result (λ to. (known marks.now to ≡ false) × reaching.IsLedTo all.now marks.now to) }
    ensures none { IfNone result (reaching.AreClosed all.now marks.now) }
{
    for (at, own) in all.iter().enumerate() {
        if is_known(marks, at as u32) {
            let found = new_among(own.as_slice(), marks);
            if found.is_some() {
                return found;
            }
        }
    }
    None
}

// The start alone is marked.
fn start_mark(alloc: Global, count: usize, start: u32) -> Result<Vec<bool>, AllocError>
    requires { start < count }
    ensures { IfOk result (λ marks. steps.IsMarked count start marks.items) }
{
    let mut marks = no_marks(alloc, count)?;
    marks[start as usize] = true;
    Ok(marks)
}

// All to which hops lead from those that are marked.
fn spread(all: &[List<Hop>], first: Vec<bool>, start: u32) -> Vec<bool>
    requires few { length all.now < 2 ^ 32 }
    requires inside { reaching.AreInside all.now }
    requires first { steps.IsMarked (length all.now) start first.items }
    ensures { reaching.AreReached all.now start result.items }
{
    let mut marks = first;
    'rounds: while let Some(to) = next_reached(all, marks.as_slice()) {
        marks[to as usize] = true;
    }
    marks
}

/// For each router whether hops lead there from the start.
pub fn reached_from(alloc: Global, all: &[List<Hop>], start: u32) -> Result<Vec<bool>, AllocError>
    requires few { length all.now < 2 ^ 32 }
    requires inside { reaching.AreInside all.now }
    requires within { start < length all.now }
    ensures { IfOk result (λ marks. reaching.AreReached all.now start marks.items) }
{
    let first = start_mark(alloc, all.len(), start)?;
    Ok(spread(all, first, start))
}
