//! A router that does nothing with a packet, as a forwarding.

ghost use Rattle.std.specs.Prelude.{◌<◌, ◌≤◌, Bool, IfOk, []};
ghost use Rattle.question_lang.specs.declared.walk.End.{End as EndOf};
ghost use Rattle.sym_forwarding.specs.Symbolic.{forwarding_of, forwarding_end};
ghost use Rattle.sym_forwarding.specs.Twins.{IsTwin};
ghost use Rattle.term_store.specs.Terms.{size};
ghost use Rattle.term_store.specs.Reading.{Builds, Gives};

use crate::forwarding::SymForwarding;
use std::alloc::{AllocError, Global};
use term_arith::gates::constant_node;
use term_store::Terms;

/// A router that does nothing with the packet.
#[tactic(auto, using(crate::proofs::Twins::still_twin))]
pub fn still_forwarding(alloc: Global, terms: &mut Terms) -> Result<SymForwarding, AllocError>
    ensures builds { Builds terms.old terms.new }
    ensures within { IfOk result (λ r. forwarding_end r ≤ size terms.new) }
    ensures value { Gives terms.new result (λ w r. (sought : EndOf → Bool) → IsTwin sought [] (forwarding_of w r)) }
{
    let never = constant_node(terms, false)?;
    Ok(SymForwarding {
        next: Vec::new(alloc),
        ends: never,
    })
}
