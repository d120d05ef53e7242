//! To the router that has an address on a subnet, as forwardings.

ghost use Rattle.std.specs.Prelude.{◌≡◌, ℕ, ◌+◌, ◌<◌, ◌≤◌, ◌==◌, ◌&&◌, Bool, IfOk, OnOk, [], ◌∷◌, if◌then◌else◌};
ghost use Rattle.mw_text.specs.Address.{same_prefix};
ghost use Rattle.net_interfaces.specs.Interfaces.{addressed};
ghost use Rattle.net_parts.specs.World.{is_up};
ghost use Rattle.question_lang.specs.declared.walk.Hop.{Hop as HopOf};
ghost use Rattle.question_lang.specs.Hops as hops;
ghost use Rattle.sym_policy.specs.Held.{failures_of};
ghost use Rattle.sym_policy.specs.Records.{address_of, packet_end};
ghost use Rattle.sym_forwarding.specs.Aims.{sought_by};
ghost use Rattle.sym_forwarding.specs.Owners.{has_address, owner_hop};
ghost use Rattle.sym_policy.specs.Packets.{packet_of};
ghost use Rattle.sym_forwarding.specs.Symbolic.{forwarding_of, forwarding_end};
ghost use Rattle.sym_forwarding.specs.Twins.{IsTwin};
ghost use Rattle.term_store.specs.Terms.{Reading, size, at};
ghost use Rattle.term_store.specs.Reading.{Reads, Builds, Gives};
ghost use Rattle.term_arith.specs.Bits.{ids_end, number};

use crate::choices::choose_forwarding;
use crate::forwarding::SymForwarding;
use crate::lists::sym_arrive;
use crate::sent::Sent;
use mw_text::Prefix;
use net_model::{Addressed, Net};
use std::alloc::{AllocError, Global};
use sym_ospf::sym_up;
use sym_policy::SymNet;
use term_arith::gates::{both, constant_node};
use term_arith::{Bits, equal_number};
use term_store::{NodeId, Terms};

/// Whether the interface is up, on the subnet, and has the address.
pub(crate) fn sym_has(
    alloc: Global,
    terms: &mut Terms,
    net: &Net,
    sym: &SymNet,
    subnet: &Prefix,
    a: &Bits,
    x: &Addressed,
) -> Result<NodeId, AllocError>
    requires downs { ids_end sym.now.down ≤ size terms.old }
    requires nodes { ids_end a.now.nodes.items ≤ size terms.old }
    ensures builds { Builds terms.old terms.new }
    ensures within { IfOk result (λ r. r.0 < size terms.new) }
    ensures value { Gives terms.new result (λ w r. at w r ≡ (is_up net.now.files (failures_of w sym.now) x.now
        && has_address subnet.now (address_of w a.now) x.now)) }
{
    if x.subnet != *subnet {
        return constant_node(terms, false);
    }
    let up = sym_up(alloc, terms, net, sym, x)?;
    let same = equal_number(terms, a.nodes.as_slice(), u64::from(x.addr.0))?;
    both(terms, up, same)
}

// In at the interface, where it is up and has the address on the subnet, in place of what was given.
fn put_owner(
    alloc: Global,
    terms: &mut Terms,
    sent: &Sent<'_>,
    subnet: &Prefix,
    a: &Bits,
    x: &Addressed,
    rest: &mut SymForwarding,
) -> Result<(), AllocError>
    requires downs { ids_end sent.now.sym.now.down ≤ size terms.old }
    requires packet { packet_end sent.now.packet.now ≤ size terms.old }
    requires aim { sent.now.aim.now.here.0 < size terms.old }
    requires nodes { ids_end a.now.nodes.items ≤ size terms.old }
    requires rest { forwarding_end rest.old ≤ size terms.old }
    ensures builds { Builds terms.old terms.new }
    ensures within { OnOk result (forwarding_end rest.new ≤ size terms.new) }
    ensures value { Gives terms.new result (λ w _. (hop : HopOf) →
        IsTwin (sought_by w sent.now.aim.now) (hop ∷ []) (forwarding_of w rest.old)
        → IsTwin (sought_by w sent.now.aim.now) ((if is_up sent.now.net.now.files (failures_of w sent.now.sym.now) x.now
        && has_address subnet.now (address_of w a.now) x.now
        then hops.arrive sent.now.net.now.files (packet_of w sent.now.packet.now) x.now.id else hop) ∷ [])
        (forwarding_of w rest.new)) }
{
    if x.subnet != *subnet {
        return Ok(());
    }
    let here = sym_has(alloc, terms, sent.net, sent.sym, subnet, a, x)?;
    let to = sym_arrive(alloc, terms, sent.net, sent.packet, sent.aim, x.id)?;
    let made = choose_forwarding(alloc, terms, here, &to, rest)?;
    *rest = made;
    Ok(())
}

/// In at the first interface of the network that is up and has the address on the subnet, and else on as given.
pub(crate) fn sym_owner(
    alloc: Global,
    terms: &mut Terms,
    sent: &Sent<'_>,
    subnet: &Prefix,
    a: &Bits,
    other: SymForwarding,
) -> Result<SymForwarding, AllocError>
    requires downs { ids_end sent.now.sym.now.down ≤ size terms.old }
    requires packet { packet_end sent.now.packet.now ≤ size terms.old }
    requires aim { sent.now.aim.now.here.0 < size terms.old }
    requires nodes { ids_end a.now.nodes.items ≤ size terms.old }
    requires other { forwarding_end other ≤ size terms.old }
    ensures builds { Builds terms.old terms.new }
    ensures within { IfOk result (λ r. forwarding_end r ≤ size terms.new) }
    ensures value { Gives terms.new result (λ w r. (hop : HopOf) →
        IsTwin (sought_by w sent.now.aim.now) (hop ∷ []) (forwarding_of w other)
        → IsTwin (sought_by w sent.now.aim.now) (owner_hop sent.now.net.now.files (failures_of w sent.now.sym.now)
        (packet_of w sent.now.packet.now) subnet.now (address_of w a.now) hop
        (addressed sent.now.net.now.files) ∷ []) (forwarding_of w r)) }
{
    let all = sent.net.addresses();
    let mut rest = other;
    for i in (0..all.len()).rev() {
        put_owner(alloc, terms, sent, subnet, a, &all[i], &mut rest)?;
    }
    Ok(rest)
}
