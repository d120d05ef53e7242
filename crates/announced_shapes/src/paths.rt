//! The lists of an announcement that is known by its shape.

ghost use Rattle.std.specs.Prelude.{◌≡◌, ◌==◌, ◌||◌, ◌∷◌, ◌++◌, ◌-◌, not, IfOk, filter, length, replicate};
ghost use Rattle.announced_shapes.specs.Paths as paths;
ghost use Rattle.announced_shapes.specs.Sets.{marks_of, path_of};

use mw_text::List;
use route_record::Shape;
use std::alloc::{AllocError, Global};

// The tracked values whose positions are in the set.
fn taken(alloc: Global, tracked: &[u32], set: u128) -> Result<Vec<u32>, AllocError>
    ensures { IfOk result (λ made. made.items ≡ paths.taken tracked.now (marks_of (length tracked.now) set)) }
{
    let mut made = Vec::new(alloc);
    let mut rest = set;
    for t in tracked {
        if rest % 2 == 1 {
            made.push(*t)?;
        }
        rest /= 2;
    }
    Ok(made)
}

fn is_inner(s: &Shape, t: u32) -> bool
    ensures { result ≡ not ((s.now.first == t) || (s.now.last == t)) }
{
    !(s.first == t || s.last == t)
}

// Those of some numbers that are neither the first nor the last of the path.
fn inner(alloc: Global, s: &Shape, numbers: &[u32]) -> Result<Vec<u32>, AllocError>
    ensures { IfOk result (λ made. made.items
        ≡ filter (λ t. not ((s.now.first == t) || (s.now.last == t))) numbers.now) }
{
    numbers
        .iter()
        .copied()
        .filter(|t| is_inner(s, *t))
        .collect(alloc)
}

// The marked numbers that stand between the ends alone.
fn between(alloc: Global, tracked: &[u32], s: &Shape) -> Result<Vec<u32>, AllocError>
    ensures { IfOk result (λ made. made.items ≡ paths.between tracked.now (path_of tracked.now s.now)) }
{
    let numbers = taken(alloc, tracked, s.numbers)?;
    inner(alloc, s, numbers.as_slice())
}

// How often the first number stands behind the marked ones.
fn filling(s: &Shape, middle: &[u32]) -> usize
    ensures { result ≡ s.now.len - 2 - length middle.now }
{
    (s.len as usize)
        .saturating_sub(2)
        .saturating_sub(middle.len())
}

// The numbers of a path up to the last one.
fn before_last(alloc: Global, s: &Shape, middle: &[u32]) -> Result<Vec<u32>, AllocError>
    ensures { IfOk result (λ made. made.items
        ≡ s.now.first ∷ (middle.now ++ replicate (s.now.len - 2 - length middle.now) s.now.first)) }
{
    let filled = vec![in alloc; s.first; filling(s, middle)]?;
    let mut made = Vec::new(alloc);
    made.push(s.first)?;
    made.extend_from_slice(middle)?;
    made.extend_from_slice(filled.as_slice())?;
    Ok(made)
}

// A path of at least two numbers.
fn long_path(alloc: Global, tracked: &[u32], s: &Shape) -> Result<Vec<u32>, AllocError>
    ensures { IfOk result (λ made. made.items ≡ s.now.first
        ∷ paths.after_first (path_of tracked.now s.now) (paths.between tracked.now (path_of tracked.now s.now))) }
{
    let middle = between(alloc, tracked, s)?;
    let mut made = before_last(alloc, s, middle.as_slice())?;
    made.push(s.last)?;
    Ok(made)
}

/// The path of a shape. A path of length 1 is the first number. A longer one is the first number, then the tracked
/// numbers of the set other than the first and the last one in their order, then the first again as often as the length
/// needs, then the last one. The set is of positions in `tracked`.
#[tactic(auto, unfolding(crate::specs::Paths::rebuilt_path))]
pub fn rebuilt_path(alloc: Global, tracked: &[u32], s: &Shape) -> Result<List<u32>, AllocError>
    ensures { IfOk result (λ path. path ≡ paths.rebuilt_path tracked.now (path_of tracked.now s.now)) }
{
    if s.len == 1 {
        return Ok(List {
            items: vec![in alloc; s.first]?,
        });
    }
    let items = long_path(alloc, tracked, s)?;
    Ok(List { items })
}

/// The communities of a shape: the tracked ones whose positions are in the set, in their order.
pub fn rebuilt_communities(
    alloc: Global,
    tracked: &[u32],
    set: u128,
) -> Result<List<u32>, AllocError>
    ensures { IfOk result (λ made. made ≡ paths.taken tracked.now (marks_of (length tracked.now) set)) }
{
    let items = taken(alloc, tracked, set)?;
    Ok(List { items })
}
