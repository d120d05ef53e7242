//! Over an adjacency, as a forwarding.

ghost use Rattle.std.specs.Prelude.{◌≡◌, ◌<◌, ◌≤◌, IfOk, [], ◌∷◌};
ghost use Rattle.question_lang.specs.Hops as hops;
ghost use Rattle.sym_policy.specs.Held.{failures_of};
ghost use Rattle.sym_policy.specs.Records.{packet_end};
ghost use Rattle.sym_forwarding.specs.Aims.{sought_by};
ghost use Rattle.sym_forwarding.specs.Offers as defined;
ghost use Rattle.sym_policy.specs.Packets.{packet_of};
ghost use Rattle.sym_forwarding.specs.Symbolic.{forwarding_of, forwarding_end};
ghost use Rattle.sym_forwarding.specs.Twins.{IsTwin};
ghost use Rattle.term_store.specs.Terms.{size, at};
ghost use Rattle.term_store.specs.Reading.{Builds, Gives};
ghost use Rattle.term_arith.specs.Bits.{ids_end};

use crate::aims::SymAim;
use crate::forwarding::SymForwarding;
use crate::lists::{sym_arrive, sym_depart};
use net_model::{Adjacency, Net};
use std::alloc::{AllocError, Global};
use sym_ospf::sym_up_at;
use sym_policy::{SymNet, SymPacket};
use term_arith::gates::{both, constant_node};
use term_store::{NodeId, Terms};

/// Whether the adjacency is one of the router, and both of its interfaces are up.
pub fn sym_up_from(
    alloc: Global,
    terms: &mut Terms,
    net: &Net,
    sym: &SymNet,
    router: u32,
    a: &Adjacency,
) -> Result<NodeId, AllocError>
    requires downs { ids_end sym.now.down ≤ size terms.old }
    ensures builds { Builds terms.old terms.new }
    ensures within { IfOk result (λ r. r.0 < size terms.new) }
    ensures value { Gives terms.new result (λ w r. at w r ≡
        defined.is_up_from net.now.files (failures_of w sym.now) router a.now) }
{
    if a.from.router != router {
        return constant_node(terms, false);
    }
    let from = sym_up_at(alloc, terms, net, sym, a.from)?;
    let to = sym_up_at(alloc, terms, net, sym, a.to)?;
    both(terms, from, to)
}

/// Over an adjacency: out of the own interface and in at the other router's.
pub fn sym_send_adjacent(
    alloc: Global,
    terms: &mut Terms,
    net: &Net,
    packet: &SymPacket,
    aim: &SymAim,
    a: &Adjacency,
) -> Result<SymForwarding, AllocError>
    requires packet { packet_end packet.now ≤ size terms.old }
    requires aim { aim.now.here.0 < size terms.old }
    ensures builds { Builds terms.old terms.new }
    ensures within { IfOk result (λ r. forwarding_end r ≤ size terms.new) }
    ensures value { Gives terms.new result (λ w r. IsTwin (sought_by w aim.now)
        (hops.send_adjacent net.now.files (packet_of w packet.now) a.now ∷ []) (forwarding_of w r)) }
{
    let on = sym_arrive(alloc, terms, net, packet, aim, a.to)?;
    let made = sym_depart(alloc, terms, net, packet, aim, a.from, &on)?;
    Ok(made)
}
