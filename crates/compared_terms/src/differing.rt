//! Whether some fate is one of two that one side alone has.

ghost use Rattle.std.specs.Prelude.{◌≡◌, ◌↔◌, ◌<◌, ◌≤◌, length, true, IfOk};
ghost use Rattle.compared_terms.specs.Ties.{DifferBelow, DiffersAt};
ghost use Rattle.joined_terms.specs.Joining.{behind};
ghost use Rattle.term_arith.specs.Bits.{ids_end};
ghost use Rattle.term_store.specs.Reading.{Builds, Gives};
ghost use Rattle.term_store.specs.Terms.{at as value_at, differ, size};

use std::alloc::AllocError;
use term_arith::gates::{agree, constant_node, either, negate};
use term_store::{NodeId, Terms};
use ties_beside::placed::place_of;

// Whether a node and one of the second store have different values.
fn sym_differs(
    terms: &mut Terms,
    places: &[NodeId],
    a: &[NodeId],
    b: &[NodeId],
    at: usize,
) -> Result<NodeId, AllocError>
    requires first { ids_end a.now ≤ size terms.old }
    requires second { ids_end b.now ≤ length places.now }
    requires places { ids_end places.now ≤ size terms.old }
    requires there { at < length a.now }
    requires there_too { at < length b.now }
    ensures builds { Builds terms.old terms.new }
    ensures within { IfOk result (λ r. r.0 < size terms.new) }
    ensures value { Gives terms.new result (λ w r. value_at w r ≡ true ↔ DiffersAt w places.now a.now b.now at) }
{
    let other = place_of(places, b[at]);
    let same = agree(terms, a[at], other)?;
    negate(terms, same)
}

/// Whether a node of the one list and the node at its place of the other, which is of the second store, have different
/// values. Err is want of memory.
pub fn some_differ(
    terms: &mut Terms,
    places: &[NodeId],
    a: &[NodeId],
    b: &[NodeId],
) -> Result<NodeId, AllocError>
    requires first { ids_end a.now ≤ size terms.old }
    requires second { ids_end b.now ≤ length places.now }
    requires places { ids_end places.now ≤ size terms.old }
    requires long { length a.now ≡ length b.now }
    ensures builds { Builds terms.old terms.new }
    ensures within { IfOk result (λ r. r.0 < size terms.new) }
    ensures value { Gives terms.new result (λ w r. value_at w r ≡ true
        ↔ DifferBelow w places.now a.now b.now (length a.now)) }
{
    let mut any = constant_node(terms, false)?;
    for at in 0..a.len() {
        let here = sym_differs(terms, places, a, b, at)?;
        let more = either(terms, any, here)?;
        any = more;
    }
    Ok(any)
}
