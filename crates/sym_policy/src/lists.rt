//! Community lists and AS-path lists over terms.

ghost use Rattle.std.specs.Prelude.{◌≡◌, ◌==◌, ℕ, ◌+◌, ◌<◌, ◌≤◌, Bool, false, not, ◌&&◌, nat_lt, IfOk, IfSome, length};
ghost use Rattle.std.specs.List.{list_all};
ghost use Rattle.std.specs.Option.{option_map_or};
ghost use Rattle.term_store.specs.Terms.{Reading, size, at};
ghost use Rattle.term_store.specs.Reading.{Reads, Builds, Gives};
ghost use Rattle.term_arith.specs.Bits.{bits, number, ids_end};
ghost use Rattle.sym_policy.specs.Routes.{path_at, path_end};
ghost use Rattle.route_shapes.specs.Shapes.{marked, marks_taken, marks_permitted, shape_matches, shape_permitted};

use crate::parts::SymPath;
use ios_ast::{AsPathEntry, CommunityEntry, Pattern};
use std::alloc::AllocError;
use term_arith::equal_number;
use term_arith::gates::{both, constant_node, negate, select};
use term_store::{NodeId, Terms};

/// The node of a tracked value.
#[tactic(auto, using(crate::proofs::Rows::marked_steps))]
fn node_of(tracked: &[u32], marks: &[NodeId], value: u32) -> Option<NodeId>
    ensures within { IfSome result (λ id. id.0 < ids_end marks.now) }
    ensures value { (w : Reading) → option_map_or (at w) result false ≡ marked tracked.now (bits w marks.now) value }
{
    for i in 0..tracked.len() {
        if i >= marks.len() {
            return None;
        }
        let node = marks[i];
        if tracked[i] == value {
            return Some(node);
        }
    }
    None
}

/// Whether a value is marked. One that is not tracked is not.
pub fn sym_marked(
    terms: &mut Terms,
    tracked: &[u32],
    marks: &[NodeId],
    value: u32,
) -> Result<NodeId, AllocError>
    requires { ids_end marks.now ≤ size terms.old }
    ensures builds { Builds terms.old terms.new }
    ensures within { IfOk result (λ r. r.0 < size terms.new) }
    ensures value { Gives terms.new result (λ w r. at w r ≡ marked tracked.now (bits w marks.now) value) }
{
    match node_of(tracked, marks, value) {
        Some(node) => Ok(node),
        None => constant_node(terms, false),
    }
}

/// Whether all values are marked.
fn sym_all_marked(
    terms: &mut Terms,
    tracked: &[u32],
    marks: &[NodeId],
    values: &[u32],
) -> Result<NodeId, AllocError>
    requires { ids_end marks.now ≤ size terms.old }
    ensures builds { Builds terms.old terms.new }
    ensures within { IfOk result (λ r. r.0 < size terms.new) }
    ensures value { Gives terms.new result (λ w r. at w r ≡ list_all (marked tracked.now (bits w marks.now)) values.now) }
{
    let mut all = constant_node(terms, true)?;
    for value in values {
        let there = sym_marked(terms, tracked, marks, *value)?;
        all = both(terms, all, there)?;
    }
    Ok(all)
}

/// Whether the entries of a community list permit the marked communities.
pub(crate) fn sym_communities(
    terms: &mut Terms,
    tracked: &[u32],
    marks: &[NodeId],
    entries: &[CommunityEntry],
) -> Result<NodeId, AllocError>
    requires { ids_end marks.now ≤ size terms.old }
    ensures builds { Builds terms.old terms.new }
    ensures within { IfOk result (λ r. r.0 < size terms.new) }
    ensures value { Gives terms.new result (λ w r. at w r ≡ marks_permitted tracked.now (bits w marks.now) entries.now) }
{
    let mut rest = constant_node(terms, false)?;
    for i in (0..entries.len()).rev() {
        let entry = &entries[i];
        let takes = sym_all_marked(terms, tracked, marks, entry.values.as_slice())?;
        let permit = constant_node(terms, entry.permit)?;
        rest = select(terms, takes, permit, rest)?;
    }
    Ok(rest)
}

/// Whether a pattern matches a path.
fn sym_pattern(
    terms: &mut Terms,
    tracked: &[u32],
    path: &SymPath,
    pattern: Pattern,
) -> Result<NodeId, AllocError>
    requires { path_end path.now ≤ size terms.old }
    ensures builds { Builds terms.old terms.new }
    ensures within { IfOk result (λ r. r.0 < size terms.new) }
    ensures value { Gives terms.new result (λ w r. at w r ≡ shape_matches tracked.now (path_at w path.now) pattern) }
{
    match pattern {
        Pattern::Empty => equal_number(terms, path.len.nodes.as_slice(), 0),
        Pattern::Any => constant_node(terms, true),
        Pattern::Only(number) => {
            let one = equal_number(terms, path.len.nodes.as_slice(), 1)?;
            let same = equal_number(terms, path.first.nodes.as_slice(), u64::from(number))?;
            both(terms, one, same)
        }
        Pattern::First(number) => {
            let some = sym_some(terms, path)?;
            let same = equal_number(terms, path.first.nodes.as_slice(), u64::from(number))?;
            both(terms, some, same)
        }
        Pattern::Last(number) => {
            let some = sym_some(terms, path)?;
            let same = equal_number(terms, path.last.nodes.as_slice(), u64::from(number))?;
            both(terms, some, same)
        }
        Pattern::Has(number) => sym_marked(terms, tracked, path.numbers.nodes.as_slice(), number),
    }
}

/// Whether a path is not empty.
fn sym_some(terms: &mut Terms, path: &SymPath) -> Result<NodeId, AllocError>
    requires { path_end path.now ≤ size terms.old }
    ensures builds { Builds terms.old terms.new }
    ensures within { IfOk result (λ r. r.0 < size terms.new) }
    ensures value { Gives terms.new result (λ w r. at w r ≡ nat_lt 0 (number w path.now.len.nodes.items)) }
{
    let none = equal_number(terms, path.len.nodes.as_slice(), 0)?;
    negate(terms, none)
}

/// Whether the entries of an AS-path list permit a path.
pub(crate) fn sym_paths(
    terms: &mut Terms,
    tracked: &[u32],
    path: &SymPath,
    entries: &[AsPathEntry],
) -> Result<NodeId, AllocError>
    requires { path_end path.now ≤ size terms.old }
    ensures builds { Builds terms.old terms.new }
    ensures within { IfOk result (λ r. r.0 < size terms.new) }
    ensures value { Gives terms.new result (λ w r. at w r ≡ shape_permitted tracked.now (path_at w path.now) entries.now) }
{
    let mut rest = constant_node(terms, false)?;
    for i in (0..entries.len()).rev() {
        let takes = sym_pattern(terms, tracked, path, entries[i].pattern)?;
        let permit = constant_node(terms, entries[i].permit)?;
        rest = select(terms, takes, permit, rest)?;
    }
    Ok(rest)
}
