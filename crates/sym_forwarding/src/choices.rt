//! Choices between forwardings.

ghost use Rattle.std.specs.Prelude.{◌≡◌, ℕ, ◌+◌, ◌<◌, ◌≤◌, Bool, true, false, IfOk, OnOk, [], ◌∷◌, ◌++◌};
ghost use Rattle.term_store.specs.Terms.{Reading, size, at};
ghost use Rattle.term_store.specs.Reading.{Reads, Builds, Gives};
ghost use Rattle.sym_forwarding.specs.Choices.{AreJoined, IsChosen, IsUnion};
ghost use Rattle.sym_forwarding.specs.Symbolic.{edge_of, edges_of, edges_end, forwarding_of, forwarding_end};

use crate::forwarding::{SymEdge, SymForwarding};
use mw_text::List;
use std::alloc::{AllocError, Global};
use term_arith::gates::{both, either, is_never, negate, select};
use term_store::{NodeId, Terms};

// Puts an edge at the end, unless it never counts.
#[tactic(auto, using(crate::proofs::Chosen::put_steps))]
fn put_edge(terms: &Terms, out: &mut List<SymEdge>, edge: SymEdge) -> Result<(), AllocError>
    requires node { edge.when.0 < size terms.now }
    requires before { edges_end out.old ≤ size terms.now }
    ensures within { OnOk result (edges_end out.new ≤ size terms.now) }
    ensures value { OnOk result ((w : Reading) → Reads w terms.now →
        AreJoined (edges_of w out.old) true (edge_of w edge ∷ []) (edges_of w out.new)) }
{
    if is_never(terms, edge.when) {
        return Ok(());
    }
    out.items.push(edge)?;
    Ok(())
}

// Puts the edges at the end, each where the node is true as well.
#[tactic(auto, using(crate::proofs::Chosen::guard_steps))]
fn put_guarded(
    terms: &mut Terms,
    out: &mut List<SymEdge>,
    c: NodeId,
    next: &[SymEdge],
) -> Result<(), AllocError>
    requires test { c.0 < size terms.old }
    requires nodes { edges_end next.now ≤ size terms.old }
    requires before { edges_end out.old ≤ size terms.old }
    ensures builds { Builds terms.old terms.new }
    ensures within { OnOk result (edges_end out.new ≤ size terms.new) }
    ensures value { OnOk result ((w : Reading) → Reads w terms.new →
        AreJoined (edges_of w out.old) (at w c) (edges_of w next.now) (edges_of w out.new)) }
{
    for edge in next {
        let when = both(terms, c, edge.when)?;
        put_edge(terms, out, SymEdge { when, to: edge.to })?;
    }
    Ok(())
}

/// The first forwarding where `c` is true, else the second.
#[tactic(auto, using(crate::proofs::Chosen::chosen_joined))]
pub fn choose_forwarding(
    alloc: Global,
    terms: &mut Terms,
    c: NodeId,
    a: &SymForwarding,
    b: &SymForwarding,
) -> Result<SymForwarding, AllocError>
    requires test { c.0 < size terms.old }
    requires first { forwarding_end a.now ≤ size terms.old }
    requires second { forwarding_end b.now ≤ size terms.old }
    ensures builds { Builds terms.old terms.new }
    ensures within { IfOk result (λ r. forwarding_end r ≤ size terms.new) }
    ensures value { Gives terms.new result (λ w r. IsChosen (at w c) (forwarding_of w a.now) (forwarding_of w b.now)
        (forwarding_of w r)) }
{
    let otherwise = negate(terms, c)?;
    let ends = select(terms, c, a.ends, b.ends)?;
    let mut next = List::new(alloc);
    put_guarded(terms, &mut next, c, a.next.as_slice())?;
    put_guarded(terms, &mut next, otherwise, b.next.as_slice())?;
    Ok(SymForwarding {
        next: next.items,
        ends,
    })
}

/// The first forwarding, and where `c` is true the second one too.
pub fn join_forwarding(
    terms: &mut Terms,
    c: NodeId,
    a: SymForwarding,
    b: &SymForwarding,
) -> Result<SymForwarding, AllocError>
    requires test { c.0 < size terms.old }
    requires first { forwarding_end a ≤ size terms.old }
    requires second { forwarding_end b.now ≤ size terms.old }
    ensures builds { Builds terms.old terms.new }
    ensures within { IfOk result (λ r. forwarding_end r ≤ size terms.new) }
    ensures value { Gives terms.new result (λ w r. IsUnion (at w c) (forwarding_of w a) (forwarding_of w b.now)
        (forwarding_of w r)) }
{
    let counted = both(terms, c, b.ends)?;
    let ends = either(terms, a.ends, counted)?;
    let mut next = List { items: a.next };
    put_guarded(terms, &mut next, c, b.next.as_slice())?;
    Ok(SymForwarding {
        next: next.items,
        ends,
    })
}
