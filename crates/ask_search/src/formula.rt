//! An ask over a network as clauses.

ghost use Rattle.std.specs.Prelude.{◌≤◌, ◌^◌, IfOk};
ghost use Rattle.ask_search.specs.Formulas.{IsAskFormula};

use crate::encoding::{AskTerms, encode_ask};
use cnf_blaster::{Cnf, blast};
use export_asks::Ask;
use net_model::Net;
use std::alloc::{AllocError, Global};

/// An ask as terms, with the root that is true exactly of what breaks it, and their clauses.
#[derive(Drop)]
pub struct AskFormula {
    pub encoding: AskTerms,
    pub cnf: Cnf,
}

/// The formula of an ask over a network.
pub fn formula_of(alloc: Global, net: &Net, ask: &Ask) -> Result<AskFormula, AllocError>
    ensures formula { IfOk result (IsAskFormula net.now.files net.now.tracked ask.now) }
    ensures vars { IfOk result (λ formula. formula.cnf.vars ≤ 2 ^ 63) }
{
    let encoding = encode_ask(alloc, net, ask)?;
    let cnf = blast(alloc, &encoding.terms, &[encoding.root])?;
    let _count = cnf.node_of.as_slice().len();
    Ok(AskFormula { encoding, cnf })
}
