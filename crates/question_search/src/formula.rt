//! A question over a network as clauses.

ghost use Rattle.std.specs.Prelude.{◌≤◌, ◌^◌, IfOk};
ghost use Rattle.question_search.specs.Formulas.{IsFormula};

use cnf_blaster::{Cnf, blast};
use length_classes::plan_of;
use net_encoder::{Encoding, encode};
use net_model::Net;
use question_lang::Question;
use std::alloc::{AllocError, Global};

/// A question as terms, with the root that is true exactly of what breaks it, and their clauses.
#[derive(Drop)]
pub struct Formula {
    pub encoding: Encoding,
    pub cnf: Cnf,
}

/// The formula of a question over a network, over the coarsest plan that fits it.
pub fn formula_of(alloc: Global, net: &Net, question: &Question) -> Result<Formula, AllocError>
    ensures formula { IfOk result (IsFormula net.now.files net.now.tracked question.now) }
    ensures vars { IfOk result (λ formula. formula.cnf.vars ≤ 2 ^ 63) }
{
    let plan = plan_of(alloc, net, question)?;
    let encoding = encode(alloc, net, question, &plan)?;
    let cnf = blast(alloc, &encoding.terms, &[encoding.root])?;
    let _count = cnf.node_of.as_slice().len();
    Ok(Formula { encoding, cnf })
}
