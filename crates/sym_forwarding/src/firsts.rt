//! What the first of some interfaces that passes a test leads to, as a forwarding. Each forwarding is put under its
//! condition once, so these grow with the number of interfaces.

ghost use Rattle.std.specs.Prelude.{◌≡◌, ℕ, ◌+◌, ◌<◌, ◌≤◌, ◌&&◌, ◌||◌, not, Bool, false, IfOk, [], ◌∷◌, ◌++◌};
ghost use Rattle.std.specs.Prelude.{List as ListOf};
ghost use Rattle.net_interfaces.specs.declared.interfaces.Addressed.{Addressed};
ghost use Rattle.question_lang.specs.declared.walk.Hop.{Hop as HopOf};
ghost use Rattle.question_lang.specs.declared.walk.End.{End as EndOf};
ghost use Rattle.sym_forwarding.specs.Choices.{IsUnion};
ghost use Rattle.sym_forwarding.specs.Firsts.{IsFirstIn, first_end};
ghost use Rattle.sym_forwarding.specs.Symbolic.{forwarding_of, forwarding_end};
ghost use Rattle.sym_forwarding.specs.Twins.{IsTwin};
ghost use Rattle.term_store.specs.Terms.{Reading, size, at};
ghost use Rattle.term_store.specs.Reading.{Reads, Builds, Gives};

use crate::choices::join_forwarding;
use crate::forwarding::SymForwarding;
use crate::still::still_forwarding;
use std::alloc::{AllocError, Global};
use term_arith::gates::{both, constant_node, either, negate};
use term_store::{NodeId, Terms};

/// Whether some interface passes a test, and what the first that does leads to.
#[derive(Drop)]
pub(crate) struct SymFirst {
    pub(crate) any: NodeId,
    pub(crate) to: SymForwarding,
}

/// No interface.
pub(crate) fn no_first(alloc: Global, terms: &mut Terms) -> Result<SymFirst, AllocError>
    ensures builds { Builds terms.old terms.new }
    ensures within { IfOk result (λ r. first_end r ≤ size terms.new) }
    ensures value { Gives terms.new result (λ w r. (sought : EndOf → Bool) (test : Addressed → Bool)
        (hop : Addressed → HopOf) → IsFirstIn w sought test hop [] r) }
{
    let any = constant_node(terms, false)?;
    let to = still_forwarding(alloc, terms)?;
    Ok(SymFirst { any, to })
}

/// One more interface, which passes the test where the node is true and then leads to the forwarding.
pub(crate) fn first_or(
    terms: &mut Terms,
    before: SymFirst,
    passes: NodeId,
    to: &SymForwarding,
) -> Result<SymFirst, AllocError>
    requires before { first_end before ≤ size terms.old }
    requires passes { passes.0 < size terms.old }
    requires to { forwarding_end to.now ≤ size terms.old }
    ensures builds { Builds terms.old terms.new }
    ensures within { IfOk result (λ r. first_end r ≤ size terms.new) }
    ensures value { Gives terms.new result (λ w r. (sought : EndOf → Bool) (test : Addressed → Bool)
        (hop : Addressed → HopOf) (xs : ListOf Addressed) (x : Addressed) → IsFirstIn w sought test hop xs before →
        at w passes ≡ test x → IsTwin sought (hop x ∷ []) (forwarding_of w to.now) →
        IsFirstIn w sought test hop (xs ++ x ∷ []) r) }
{
    let none = negate(terms, before.any)?;
    let first = both(terms, none, passes)?;
    let made = join_forwarding(terms, first, before.to, to)?;
    let any = either(terms, before.any, passes)?;
    Ok(SymFirst { any, to: made })
}

/// What the first leads to, and where there is none, the other forwarding.
pub(crate) fn first_else(
    terms: &mut Terms,
    first: SymFirst,
    other: &SymForwarding,
) -> Result<SymForwarding, AllocError>
    requires first { first_end first ≤ size terms.old }
    requires other { forwarding_end other.now ≤ size terms.old }
    ensures builds { Builds terms.old terms.new }
    ensures within { IfOk result (λ r. forwarding_end r ≤ size terms.new) }
    ensures value { Gives terms.new result (λ w r. IsUnion (not (at w first.any)) (forwarding_of w first.to)
        (forwarding_of w other.now) (forwarding_of w r)) }
{
    let none = negate(terms, first.any)?;
    let made = join_forwarding(terms, none, first.to, other)?;
    Ok(made)
}
