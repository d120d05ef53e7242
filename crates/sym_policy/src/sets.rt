//! Set lines over terms.

ghost use Rattle.std.specs.Prelude.{◌≡◌, ◌==◌, ℕ, ◌+◌, ◌^◌, ◌<◌, ◌≤◌, Bool, true, false, ◌&&◌, ◌||◌, if◌then◌else◌, IfOk, length, min};
ghost use Rattle.std.specs.List.{list_any};
ghost use Rattle.term_store.specs.Terms.{Reading, size, at};
ghost use Rattle.term_store.specs.Reading.{Reads, Builds, Gives};
ghost use Rattle.term_arith.specs.Bits.{bits, number, ids_end};
ghost use Rattle.ios_ast.specs.Deciding.{carries};
ghost use Rattle.ios_ast.specs.Paths.{first_of, last_of};
ghost use Rattle.ios_ast.specs.Setting.{origin_set};
ghost use Rattle.route_record.specs.Shape.{saturated};
ghost use Rattle.sym_policy.specs.Routes.{path_at, path_end, route_at, route_end, preferences_at, preferences_end, HasRows};
ghost use Rattle.route_shapes.specs.Shapes.{marks_with, shape_prepended, set_shape, set_preferences as preferences_set, set_path as path_set, set_marks as marks_set, set_type1 as type1_set};

use crate::parts::{SymPath, SymPreferences, SymRoute};
use ios_ast::SetAct;
use mw_text::List;
use route_record::{Tracked, saturated_length};
use std::alloc::{AllocError, Global};
use term_arith::gates::constant_node;
use term_arith::lists::put;
use term_arith::{Bits, add_within, choose, constant, copy, equal_number};
use term_store::{NodeId, Terms};

/// The mark of a tracked value where values are put in, alone or beside those that were there.
fn sym_mark(
    terms: &mut Terms,
    there: bool,
    beside: bool,
    before: NodeId,
) -> Result<NodeId, AllocError>
    requires { before.0 < size terms.old }
    ensures builds { Builds terms.old terms.new }
    ensures within { IfOk result (λ r. r.0 < size terms.new) }
    ensures value { Gives terms.new result (λ w r. at w r ≡ (there || (beside && at w before))) }
{
    if beside && !there {
        Ok(before)
    } else {
        constant_node(terms, there)
    }
}

/// The marks of the tracked values where values are put in, alone or beside those that were there.
#[tactic(auto, using(crate::proofs::Rows::with_steps))]
pub fn sym_marks_with(
    alloc: Global,
    terms: &mut Terms,
    tracked: &[u32],
    values: &[u32],
    beside: bool,
    marks: &[NodeId],
) -> Result<List<NodeId>, AllocError>
    requires rows { length marks.now ≡ length tracked.now }
    requires nodes { ids_end marks.now ≤ size terms.old }
    ensures builds { Builds terms.old terms.new }
    ensures within { IfOk result (λ r. ids_end r ≤ size terms.new) }
    ensures rows { IfOk result (λ r. length r ≡ length tracked.now) }
    ensures value { Gives terms.new result (λ w r. bits w r ≡ marks_with tracked.now values.now beside (bits w marks.now)) }
{
    let mut out = List::new(alloc);
    for i in 0..tracked.len() {
        let there = values.contains(&tracked[i]);
        let node = sym_mark(terms, there, beside, marks[i])?;
        put(&mut out, node)?;
    }
    Ok(out)
}

/// A length with more items, in 32 bits; the greatest number of these where it does not fit.
#[tactic(auto, using(route_record::proofs::Saturated::saturated_choice))]
pub fn sym_longer(
    alloc: Global,
    terms: &mut Terms,
    len: &Bits,
    more: usize,
) -> Result<Bits, AllocError>
    requires wide { length len.now.nodes.items ≡ 32 }
    requires nodes { ids_end len.now.nodes.items ≤ size terms.old }
    ensures builds { Builds terms.old terms.new }
    ensures within { IfOk result (λ r. ids_end r.nodes.items ≤ size terms.new) }
    ensures width { IfOk result (λ r. length r.nodes.items ≡ 32) }
    ensures value { Gives terms.new result (λ w r. number w r.nodes.items ≡ saturated (number w len.now.nodes.items + more)) }
{
    let step = constant(alloc, terms, u64::from(saturated_length(more)), 32)?;
    let sum = add_within(alloc, terms, len, &step)?;
    let most = constant(alloc, terms, u64::from(u32::MAX), 32)?;
    choose(alloc, terms, sum.fits, &sum.sum, &most)
}

/// The first number of a list, 0 where it is empty.
fn first_number(numbers: &[u32]) -> u32
    ensures { result ≡ first_of numbers.now }
{
    numbers.first().copied().unwrap_or(0)
}

/// The last number of a list, 0 where it is empty.
fn last_number(numbers: &[u32]) -> u32
    ensures { result ≡ last_of numbers.now }
{
    numbers.last().copied().unwrap_or(0)
}

/// The first number of a path with numbers in front.
fn sym_first(
    alloc: Global,
    terms: &mut Terms,
    numbers: &[u32],
    first: &Bits,
) -> Result<Bits, AllocError>
    requires wide { length first.now.nodes.items ≡ 32 }
    requires nodes { ids_end first.now.nodes.items ≤ size terms.old }
    ensures builds { Builds terms.old terms.new }
    ensures within { IfOk result (λ r. ids_end r.nodes.items ≤ size terms.new) }
    ensures width { IfOk result (λ r. length r.nodes.items ≡ 32) }
    ensures value { Gives terms.new result (λ w r. number w r.nodes.items ≡ (if length numbers.now == 0 then number w first.now.nodes.items else first_of numbers.now)) }
{
    if numbers.is_empty() {
        copy(alloc, first)
    } else {
        constant(alloc, terms, u64::from(first_number(numbers)), 32)
    }
}

/// The last number of a path with numbers in front.
fn sym_last(
    alloc: Global,
    terms: &mut Terms,
    numbers: &[u32],
    path: &SymPath,
) -> Result<Bits, AllocError>
    requires { path_end path.now ≤ size terms.old }
    ensures builds { Builds terms.old terms.new }
    ensures within { IfOk result (λ r. ids_end r.nodes.items ≤ size terms.new) }
    ensures width { IfOk result (λ r. length r.nodes.items ≡ 32) }
    ensures value { Gives terms.new result (λ w r. number w r.nodes.items ≡ (if number w path.now.len.nodes.items == 0 then last_of numbers.now else number w path.now.last.nodes.items)) }
{
    let none = equal_number(terms, path.len.nodes.as_slice(), 0)?;
    let last = constant(alloc, terms, u64::from(last_number(numbers)), 32)?;
    choose(alloc, terms, none, &last, &path.last)
}

/// A path with numbers in front.
pub fn sym_prepended(
    alloc: Global,
    terms: &mut Terms,
    tracked: &[u32],
    numbers: &[u32],
    path: &SymPath,
) -> Result<SymPath, AllocError>
    requires rows { length path.now.numbers.nodes.items ≡ length tracked.now }
    requires nodes { path_end path.now ≤ size terms.old }
    ensures builds { Builds terms.old terms.new }
    ensures within { IfOk result (λ r. path_end r ≤ size terms.new) }
    ensures rows { IfOk result (λ r. length r.numbers.nodes.items ≡ length tracked.now) }
    ensures value { Gives terms.new result (λ w r. path_at w r ≡ shape_prepended tracked.now numbers.now (path_at w path.now)) }
{
    let len = sym_longer(alloc, terms, &path.len, numbers.len())?;
    let first = sym_first(alloc, terms, numbers, &path.first)?;
    let last = sym_last(alloc, terms, numbers, path)?;
    let marks = path.numbers.nodes.as_slice();
    let nodes = sym_marks_with(alloc, terms, tracked, numbers, true, marks)?;
    Ok(SymPath {
        len,
        first,
        last,
        numbers: Bits { nodes: nodes.items },
    })
}

/// The numbers by which routes are preferred after one line.
fn set_preferences(
    alloc: Global,
    terms: &mut Terms,
    before: SymPreferences,
    line: &SetAct,
) -> Result<SymPreferences, AllocError>
    requires { preferences_end before ≤ size terms.old }
    ensures builds { Builds terms.old terms.new }
    ensures within { IfOk result (λ r. preferences_end r ≤ size terms.new) }
    ensures value { Gives terms.new result (λ w r. preferences_at w r ≡ preferences_set (preferences_at w before) line.now) }
{
    let mut made = before;
    match line {
        SetAct::LocalPref(value) => {
            made.local_pref = constant(alloc, terms, u64::from(*value), 32)?;
            Ok(made)
        }
        SetAct::Metric(value) => {
            made.med = constant(alloc, terms, u64::from(*value), 32)?;
            Ok(made)
        }
        SetAct::Weight(value) => {
            made.weight = constant(alloc, terms, u64::from(*value), 32)?;
            Ok(made)
        }
        SetAct::Origin(igp) => {
            let code = if *igp { 0 } else { 2 };
            made.origin = constant(alloc, terms, code, 2)?;
            Ok(made)
        }
        _ => Ok(made),
    }
}

/// The path after one line. On another than an external side no number is put in front of it.
fn set_path(
    alloc: Global,
    terms: &mut Terms,
    tracked: &[u32],
    external: bool,
    before: SymPath,
    line: &SetAct,
) -> Result<SymPath, AllocError>
    requires rows { length before.numbers.nodes.items ≡ length tracked.now }
    requires nodes { path_end before ≤ size terms.old }
    ensures builds { Builds terms.old terms.new }
    ensures within { IfOk result (λ r. path_end r ≤ size terms.new) }
    ensures rows { IfOk result (λ r. length r.numbers.nodes.items ≡ length tracked.now) }
    ensures value { Gives terms.new result (λ w r. path_at w r ≡ path_set tracked.now external (path_at w before) line.now) }
{
    match line {
        SetAct::Prepend(numbers) if external => {
            sym_prepended(alloc, terms, tracked, numbers.as_slice(), &before)
        }
        _ => Ok(before),
    }
}

/// The marks of the tracked communities after one line.
fn set_marks(
    alloc: Global,
    terms: &mut Terms,
    tracked: &[u32],
    before: Bits,
    line: &SetAct,
) -> Result<Bits, AllocError>
    requires rows { length before.nodes.items ≡ length tracked.now }
    requires nodes { ids_end before.nodes.items ≤ size terms.old }
    ensures builds { Builds terms.old terms.new }
    ensures within { IfOk result (λ r. ids_end r.nodes.items ≤ size terms.new) }
    ensures rows { IfOk result (λ r. length r.nodes.items ≡ length tracked.now) }
    ensures value { Gives terms.new result (λ w r. bits w r.nodes.items ≡ marks_set tracked.now (bits w before.nodes.items) line.now) }
{
    let marks = before.nodes.as_slice();
    match line {
        SetAct::NoCommunity => {
            let nodes = sym_marks_with(alloc, terms, tracked, &[], false, marks)?;
            Ok(Bits { nodes: nodes.items })
        }
        SetAct::Community(values, additive) => {
            let values = values.as_slice();
            let nodes = sym_marks_with(alloc, terms, tracked, values, *additive, marks)?;
            Ok(Bits { nodes: nodes.items })
        }
        _ => Ok(before),
    }
}

/// Whether the route is redistributed as one of type 1 after one line.
fn set_type1(terms: &mut Terms, before: NodeId, line: &SetAct) -> Result<NodeId, AllocError>
    requires { before.0 < size terms.old }
    ensures builds { Builds terms.old terms.new }
    ensures within { IfOk result (λ r. r.0 < size terms.new) }
    ensures value { Gives terms.new result (λ w r. at w r ≡ type1_set (at w before) line.now) }
{
    match line {
        SetAct::Type1(type1) => constant_node(terms, *type1),
        _ => Ok(before),
    }
}

/// The route after one line.
pub(crate) fn set_line(
    alloc: Global,
    terms: &mut Terms,
    tracked: &Tracked,
    external: bool,
    before: SymRoute,
    line: &SetAct,
) -> Result<SymRoute, AllocError>
    requires rows { HasRows tracked.now before }
    requires nodes { route_end before ≤ size terms.old }
    ensures builds { Builds terms.old terms.new }
    ensures within { IfOk result (λ r. route_end r ≤ size terms.new) }
    ensures rows { IfOk result (λ r. HasRows tracked.now r) }
    ensures value { Gives terms.new result (λ w r. route_at w r ≡ set_shape tracked.now external (route_at w before) line.now) }
{
    let SymRoute {
        preferences,
        path,
        communities,
        type1,
    } = before;
    let preferences = set_preferences(alloc, terms, preferences, line)?;
    let path = set_path(
        alloc,
        terms,
        tracked.numbers.as_slice(),
        external,
        path,
        line,
    )?;
    let communities = set_marks(
        alloc,
        terms,
        tracked.communities.as_slice(),
        communities,
        line,
    )?;
    let type1 = set_type1(terms, type1, line)?;
    Ok(SymRoute {
        preferences,
        path,
        communities,
        type1,
    })
}
