//! Two networks as clauses.

ghost use Rattle.std.specs.Prelude.{◌≡◌, ◌≤◌, ◌^◌, IfOk};
ghost use Rattle.pair_search.specs.Formulas.{IsPairFormula};
ghost use Rattle.same_asks.specs.Asking.{IsKnown};

use cnf_blaster::{Cnf, blast};
use compared_terms::{ComparedTerms, encode_compared};
use net_model::Net;
use same_asks::Same;
use std::alloc::{AllocError, Global};

/// Two networks as terms, with the root that is true exactly of what makes them answer an ask differently, and their
/// clauses.
#[derive(Drop)]
pub struct PairFormula {
    pub encoding: ComparedTerms,
    pub cnf: Cnf,
}

/// The formula of an ask about two networks. Err is want of memory.
pub fn formula_of(
    alloc: Global,
    left: &Net,
    right: &Net,
    ask: &Same,
) -> Result<PairFormula, AllocError>
    requires known { IsKnown left.now.files right.now.files ask.now }
    requires tracked { left.now.tracked ≡ right.now.tracked }
    ensures formula { IfOk result (IsPairFormula left.now right.now ask.now) }
    ensures vars { IfOk result (λ formula. formula.cnf.vars ≤ 2 ^ 63) }
{
    let encoding = encode_compared(alloc, left, right, ask)?;
    let cnf = blast(alloc, &encoding.terms, &[encoding.root])?;
    let _count = cnf.node_of.as_slice().len();
    Ok(PairFormula { encoding, cnf })
}
