//! Two networks as one formula: its solutions are the stable routings of both.

ghost use Rattle.std.specs.Prelude.{◌≡◌, ◌+◌, ◌<◌, ◌≤◌, ◌&&◌, Bool, IfOk, List as ListOf, length};
ghost use Rattle.routings_beside.specs.Pairs.{IsPairEncoding};
ghost use Rattle.same_asks.specs.Asking.{IsKnown};
ghost use Rattle.term_arith.specs.Bits.{ids_end};
ghost use Rattle.term_store.specs.Reading.{Reads};
ghost use Rattle.term_store.specs.Terms.{Agrees, Reading, at, size, value_of};
ghost use Rattle.terms_beside.specs.Beside.{ReadBeside, first_part, place_of, second_part, values_beside};

use crate::sides::{Side, side_of};
use mw_text::List;
use net_model::Net;
use packet_fates::Fate;
use same_asks::Same;
use std::alloc::{AllocError, Global};
use term_arith::gates::both;
use term_store::{NodeId, Terms};
use terms_beside::put_beside;

/// Two networks as terms, with the root that is true exactly of two stable routings, one of each, and what the
/// variables of each stand for. The nodes of the left one stand in the terms by their own numbers, and those of the
/// right one at the places of their numbers.
#[derive(Drop)]
pub struct PairTerms {
    pub terms: Terms,
    pub root: NodeId,
    /// How many variables the left one has.
    pub split: u64,
    pub one: Side,
    pub other: Side,
    pub places: List<NodeId>,
}

// Two stores of terms as one, with a root, and where the nodes of the second store stand.
#[derive(Drop)]
struct JoinedTerms {
    terms: Terms,
    root: NodeId,
    places: List<NodeId>,
}

// Both roots, each over variables of its own.
fn joined(
    alloc: Global,
    one: Terms,
    root: NodeId,
    other: &Terms,
    out: NodeId,
) -> Result<JoinedTerms, AllocError>
    requires one { root.0 < size one }
    requires other { out.0 < size other.now }
    ensures within { IfOk result (λ e. e.root.0 < size e.terms) }
    ensures larger { IfOk result (λ e. size one ≤ size e.terms) }
    ensures vars { IfOk result (λ e. e.terms.vars ≡ one.vars + other.now.vars) }
    ensures places { IfOk result (λ e. ids_end e.places ≤ size e.terms) }
    ensures length { IfOk result (λ e. length e.places ≡ size other.now) }
    ensures beside { IfOk result (λ e. (w : Reading) → Reads w e.terms → (valuation : ListOf Bool) →
        Agrees w valuation e.terms.vars →
        ReadBeside one other.now e.places (first_part one valuation) (second_part one other.now valuation) w) }
    ensures besides { IfOk result (λ e. (w : Reading) → Reads w e.terms → (xs ys : ListOf Bool) →
        Agrees w (values_beside one other.now xs ys) e.terms.vars → ReadBeside one other.now e.places xs ys w) }
    ensures root { IfOk result (λ e. (w : Reading) → Reads w e.terms →
        at w e.root ≡ (at w root && at w (place_of e.places out.0))) }
    ensures values { IfOk result (λ e. (valuation : ListOf Bool) → value_of e.terms.nodes valuation e.root.0
        ≡ (value_of one.nodes (first_part one valuation) root.0
        && value_of other.now.nodes (second_part one other.now valuation) out.0)) }
    ensures given { IfOk result (λ e. (xs ys : ListOf Bool) →
        value_of e.terms.nodes (values_beside one other.now xs ys) e.root.0
        ≡ (value_of one.nodes xs root.0 && value_of other.now.nodes ys out.0)) }
{
    let mut terms = one;
    let places = put_beside(alloc, &mut terms, other)?;
    let place = places.as_slice()[out.0 as usize];
    let root = both(&mut terms, root, place)?;
    terms.valuation_reads();
    Ok(JoinedTerms {
        terms,
        root,
        places,
    })
}

/// The stable routings of two networks for an ask, side by side: whatever values make the root true, the routings
/// that they say are stable, each with a packet of the ask and no more failed links than it allows (`sound`); and
/// where there are two such routings, their values, one after another, make the root true (`complete`). The terms of
/// each network's world and environment read as what the values say, and where the root is true the node of each fate
/// says whether packets have it that begin at the ask's router (`values`, `given`); the values of a routing say its
/// shapes (`one_shapes`, `other_shapes`). Nothing ties the two to one packet, one environment and one set of failed
/// links. Err is want of memory.
pub fn encode_pair(
    alloc: Global,
    left: &Net,
    right: &Net,
    ask: &Same,
    fates: &[Fate],
) -> Result<PairTerms, AllocError>
    requires known { IsKnown left.now.files right.now.files ask.now }
    ensures { IfOk result (IsPairEncoding left.now right.now ask.now fates.now) }
{
    let one = side_of(alloc, left, ask, ask.left, fates)?;
    let other = side_of(alloc, right, ask, ask.right, fates)?;
    let split = one.terms.vars();
    let made = joined(alloc, one.terms, one.root, &other.terms, other.root)?;
    Ok(PairTerms {
        terms: made.terms,
        root: made.root,
        split,
        one: one.side,
        other: other.side,
        places: made.places,
    })
}
