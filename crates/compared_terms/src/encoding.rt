//! What makes two networks answer an ask differently, as a formula.

ghost use Rattle.std.specs.Prelude.{◌≡◌, IfOk};
ghost use Rattle.compared_terms.specs.Compared.{IsComparison};
ghost use Rattle.possible_fates.specs.Possible.{HasPossible};
ghost use Rattle.routings_beside.specs.Pairs.{IsPairEncoding};
ghost use Rattle.same_asks.specs.Asking.{IsKnown};

use crate::tied::{Both, common_of, sym_tied};
use common_failures::laws::counted_law;
use net_model::Net;
use packet_fates::Fate;
use peers_beside::laws::common_law;
use possible_fates::all_possible;
use routings_beside::{PairTerms, encode_pair};
use same_asks::Same;
use std::alloc::{AllocError, Global};
use term_arith::gates::both;
use term_store::{NodeId, Terms};

/// Two networks as terms, with the root that is true exactly of what makes them answer an ask differently.
#[derive(Drop)]
pub struct ComparedTerms {
    pub terms: Terms,
    pub root: NodeId,
    /// How many of the variables, the first ones, are the left network's.
    pub split: u64,
}

// The terms of two routings side by side, with the root of both, tied.
fn with_ties(
    alloc: Global,
    terms: Terms,
    root: NodeId,
    split: u64,
    two: Both<'_>,
    ask: &Same,
    fates: &[Fate],
) -> Result<ComparedTerms, AllocError>
    requires tracked { two.left.now.tracked ≡ two.right.now.tracked }
    requires pair { IsPairEncoding two.left.now two.right.now ask.now fates.now (record {
      terms = terms;
      root = root;
      split = split;
      one = two.one.now;
      other = two.other.now;
      places = two.places.now;
    }) }
    requires one { HasPossible two.left.now.files fates.now }
    requires other { HasPossible two.right.now.files fates.now }
    ensures { IfOk result (IsComparison two.entry.left.now two.entry.right.now ask.now) }
{
    let common = common_of(alloc, two.left, two.right)?;
    terms.reading_has_values();
    let mut terms = terms;
    let tied = sym_tied(alloc, &mut terms, two, &common, ask.failures)?;
    let root = both(&mut terms, root, tied)?;
    terms.valuation_reads();
    counted_law();
    common_law();
    Ok(ComparedTerms { terms, root, split })
}

// The same of the terms and of both sides as they are made.
fn compared<'a>(
    alloc: Global,
    left: &'a Net,
    right: &'a Net,
    ask: &Same,
    fates: &[Fate],
    pair: PairTerms,
) -> Result<ComparedTerms, AllocError>
    requires tracked { left.now.tracked ≡ right.now.tracked }
    requires pair { IsPairEncoding left.now right.now ask.now fates.now pair }
    requires one { HasPossible left.now.files fates.now }
    requires other { HasPossible right.now.files fates.now }
    ensures { IfOk result (IsComparison left.now right.now ask.now) }
{
    let terms = pair.terms;
    let two = Both {
        left,
        right,
        one: &pair.one,
        other: &pair.other,
        places: pair.places.as_slice(),
    };
    with_ties(alloc, terms, pair.root, pair.split, two, ask, fates)
}

/// What makes two networks answer an ask differently, as a formula over slices at all prefix lengths: whatever values of
/// the variables make the root true, their two routings stand side by side and the packet's fates are not the same
/// (`sound`); and where the values of two routings side by side make it false, they are (`complete`). Err is want of
/// memory.
pub fn encode_compared(
    alloc: Global,
    left: &Net,
    right: &Net,
    ask: &Same,
) -> Result<ComparedTerms, AllocError>
    requires known { IsKnown left.now.files right.now.files ask.now }
    requires tracked { left.now.tracked ≡ right.now.tracked }
    ensures { IfOk result (IsComparison left.now right.now ask.now) }
{
    let fates = all_possible(alloc, left, right)?;
    let pair = encode_pair(alloc, left, right, ask, fates.as_slice())?;
    compared(alloc, left, right, ask, fates.as_slice(), pair)
}
