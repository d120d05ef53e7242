//! What becomes of a packet at the lists of interfaces, as forwardings.

ghost use Rattle.std.specs.Prelude.{◌≡◌, ℕ, ◌+◌, ◌<◌, ◌≤◌, Bool, IfOk, [], ◌∷◌};
ghost use Rattle.question_lang.specs.declared.walk.Hop.{Hop as HopOf};
ghost use Rattle.question_lang.specs.declared.walk.Hop.TheVariants.{Ends};
ghost use Rattle.question_lang.specs.Hops as hops;
ghost use Rattle.sym_policy.specs.Records.{packet_end};
ghost use Rattle.sym_forwarding.specs.Aims.{sought_by};
ghost use Rattle.sym_policy.specs.Packets.{packet_of};
ghost use Rattle.sym_forwarding.specs.Symbolic.{forwarding_of, forwarding_end};
ghost use Rattle.sym_forwarding.specs.Twins.{IsTwin};
ghost use Rattle.term_store.specs.Terms.{Reading, size, at};
ghost use Rattle.term_store.specs.Reading.{Reads, Builds, Gives};

use crate::aims::{SymAim, sym_end};
use crate::choices::choose_forwarding;
use crate::forwarding::{SymEdge, SymForwarding};
use crate::permits::{sym_permits_in, sym_permits_out};
use net_model::{IfaceId, Net};
use question_lang::End;
use std::alloc::{AllocError, Global};
use sym_policy::SymPacket;
use term_arith::gates::{both, negate};
use term_store::{NodeId, Terms};

/// A router at which walks end so.
#[tactic(auto, using(crate::proofs::Twins::end_twin))]
pub fn sym_ends(
    alloc: Global,
    terms: &mut Terms,
    aim: &SymAim,
    end: End,
) -> Result<SymForwarding, AllocError>
    requires aim { aim.now.here.0 < size terms.old }
    ensures builds { Builds terms.old terms.new }
    ensures within { IfOk result (λ r. forwarding_end r ≤ size terms.new) }
    ensures value { Gives terms.new result (λ w r. IsTwin (sought_by w aim.now) (Ends end ∷ []) (forwarding_of w r)) }
{
    let ends = sym_end(terms, aim, end)?;
    Ok(SymForwarding {
        next: Vec::new(alloc),
        ends,
    })
}

// One edge.
fn one_edge(alloc: Global, when: NodeId, to: u32) -> Result<Vec<SymEdge>, AllocError>
    ensures { IfOk result (λ r. r.items ≡ record { when = when; to = to } ∷ []) }
{
    let mut next = Vec::new(alloc);
    next.push(SymEdge { when, to })?;
    Ok(next)
}

/// A packet that comes in at an interface: its in list tests it.
#[tactic(auto, using(crate::proofs::Twins::arrive_twin))]
pub(crate) fn sym_arrive(
    alloc: Global,
    terms: &mut Terms,
    net: &Net,
    packet: &SymPacket,
    aim: &SymAim,
    i: IfaceId,
) -> Result<SymForwarding, AllocError>
    requires packet { packet_end packet.now ≤ size terms.old }
    requires aim { aim.now.here.0 < size terms.old }
    ensures builds { Builds terms.old terms.new }
    ensures within { IfOk result (λ r. forwarding_end r ≤ size terms.new) }
    ensures value { Gives terms.new result (λ w r. IsTwin (sought_by w aim.now)
        (hops.arrive net.now.files (packet_of w packet.now) i ∷ []) (forwarding_of w r)) }
{
    let permit = sym_permits_in(alloc, terms, net, packet, i)?;
    let denied = sym_end(terms, aim, End::DeniedIn(i))?;
    let refused = negate(terms, permit)?;
    let ends = both(terms, refused, denied)?;
    let next = one_edge(alloc, permit, i.router)?;
    Ok(SymForwarding { next, ends })
}

/// A packet that goes out of an interface: its out list tests it before this hop.
#[tactic(auto, using(crate::proofs::Twins::chosen_hop))]
pub(crate) fn sym_depart(
    alloc: Global,
    terms: &mut Terms,
    net: &Net,
    packet: &SymPacket,
    aim: &SymAim,
    out: IfaceId,
    on: &SymForwarding,
) -> Result<SymForwarding, AllocError>
    requires packet { packet_end packet.now ≤ size terms.old }
    requires aim { aim.now.here.0 < size terms.old }
    requires nodes { forwarding_end on.now ≤ size terms.old }
    ensures builds { Builds terms.old terms.new }
    ensures within { IfOk result (λ r. forwarding_end r ≤ size terms.new) }
    ensures value { Gives terms.new result (λ w r. (hop : HopOf) →
        IsTwin (sought_by w aim.now) (hop ∷ []) (forwarding_of w on.now)
        → IsTwin (sought_by w aim.now) (hops.depart net.now.files (packet_of w packet.now) out hop ∷ []) (forwarding_of w
        r)) }
{
    let permit = sym_permits_out(alloc, terms, net, packet, out)?;
    let denied = sym_ends(alloc, terms, aim, End::DeniedOut)?;
    let made = choose_forwarding(alloc, terms, permit, on, &denied)?;
    Ok(made)
}
