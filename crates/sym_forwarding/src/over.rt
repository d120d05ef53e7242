//! Over an interface of a router whose subnet has an address, as forwardings.

ghost use Rattle.std.specs.Prelude.{◌≡◌, ℕ, ◌+◌, ◌<◌, ◌≤◌, ◌==◌, ◌&&◌, Bool, IfOk, [], ◌∷◌, if◌then◌else◌, length};
ghost use Rattle.std.specs.Prelude.{List as ListOf};
ghost use Rattle.mw_text.specs.Address.{covers};
ghost use Rattle.net_interfaces.specs.Interfaces.{addressed};
ghost use Rattle.net_parts.specs.Routing.{up_interfaces};
ghost use Rattle.net_parts.specs.World.{is_up};
ghost use Rattle.question_lang.specs.declared.walk.Hop.{Hop as HopOf};
ghost use Rattle.question_lang.specs.Hops as hops;
ghost use Rattle.sym_policy.specs.Held.{failures_of};
ghost use Rattle.sym_policy.specs.Records.{address_of, packet_end};
ghost use Rattle.sym_forwarding.specs.Aims.{sought_by};
ghost use Rattle.sym_policy.specs.Packets.{packet_of};
ghost use Rattle.sym_forwarding.specs.Symbolic.{forwarding_of, forwarding_end};
ghost use Rattle.sym_forwarding.specs.Twins.{IsTwin};
ghost use Rattle.term_store.specs.Terms.{Reading, size, at};
ghost use Rattle.term_store.specs.Reading.{Reads, Builds, Gives};
ghost use Rattle.term_arith.specs.Bits.{ids_end, number};

use crate::aims::SymAim;
use crate::choices::choose_forwarding;
use crate::forwarding::SymForwarding;
use crate::prefixes::sym_covers;
use crate::sending::sym_send_to;
use crate::sent::Sent;
use net_model::{Addressed, Net};
use std::alloc::{AllocError, Global};
use sym_ospf::sym_up;
use sym_policy::{SymNet, SymPacket};
use term_arith::Bits;
use term_arith::gates::{both, constant_node};
use term_store::{NodeId, Terms};

/// Whether the interface is one of the router, up, and on a subnet that has the address.
pub(crate) fn sym_reaches(
    alloc: Global,
    terms: &mut Terms,
    net: &Net,
    sym: &SymNet,
    router: u32,
    a: &Bits,
    x: &Addressed,
) -> Result<NodeId, AllocError>
    requires downs { ids_end sym.now.down ≤ size terms.old }
    requires wide { length a.now.nodes.items ≡ 32 }
    requires nodes { ids_end a.now.nodes.items ≤ size terms.old }
    ensures builds { Builds terms.old terms.new }
    ensures within { IfOk result (λ r. r.0 < size terms.new) }
    ensures value { Gives terms.new result (λ w r. at w r ≡
        (((x.now.id.router == router) && is_up net.now.files (failures_of w sym.now) x.now)
        && covers x.now.subnet (address_of w a.now))) }
{
    if x.id.router != router {
        return constant_node(terms, false);
    }
    let up = sym_up(alloc, terms, net, sym, x)?;
    let has = sym_covers(terms, &x.subnet, a)?;
    both(terms, up, has)
}

// Over the interface, where that is so, and else on as given.
fn sym_over_or(
    alloc: Global,
    terms: &mut Terms,
    sent: &Sent<'_>,
    router: u32,
    a: &Bits,
    x: &Addressed,
    rest: SymForwarding,
) -> Result<SymForwarding, AllocError>
    requires downs { ids_end sent.now.sym.now.down ≤ size terms.old }
    requires packet { packet_end sent.now.packet.now ≤ size terms.old }
    requires aim { sent.now.aim.now.here.0 < size terms.old }
    requires wide { length a.now.nodes.items ≡ 32 }
    requires nodes { ids_end a.now.nodes.items ≤ size terms.old }
    requires rest { forwarding_end rest ≤ size terms.old }
    ensures builds { Builds terms.old terms.new }
    ensures within { IfOk result (λ r. forwarding_end r ≤ size terms.new) }
    ensures value { Gives terms.new result (λ w r. (others : ListOf HopOf) →
        IsTwin (sought_by w sent.now.aim.now) others (forwarding_of w rest) →
        IsTwin (sought_by w sent.now.aim.now)
        (if ((x.now.id.router == router) && is_up sent.now.net.now.files (failures_of w sent.now.sym.now) x.now)
        && covers x.now.subnet (address_of w a.now)
        then hops.send_to sent.now.net.now.files (packet_of w sent.now.packet.now)
        (hops.all_up sent.now.net.now.files (failures_of w sent.now.sym.now)) x.now (address_of w a.now) ∷ []
        else others) (forwarding_of w r)) }
{
    if x.id.router != router {
        return Ok(rest);
    }
    let here = sym_reaches(alloc, terms, sent.net, sent.sym, router, a, x)?;
    let to = sym_send_to(alloc, terms, sent, x, a)?;
    let made = choose_forwarding(alloc, terms, here, &to, &rest)?;
    Ok(made)
}

/// To an address over the first interface of the router that is up and whose subnet has it, and nowhere without one.
pub fn sym_send_over(
    alloc: Global,
    terms: &mut Terms,
    net: &Net,
    sym: &SymNet,
    packet: &SymPacket,
    aim: &SymAim,
    router: u32,
    a: &Bits,
) -> Result<SymForwarding, AllocError>
    requires downs { ids_end sym.now.down ≤ size terms.old }
    requires packet { packet_end packet.now ≤ size terms.old }
    requires aim { aim.now.here.0 < size terms.old }
    requires wide { length a.now.nodes.items ≡ 32 }
    requires nodes { ids_end a.now.nodes.items ≤ size terms.old }
    ensures builds { Builds terms.old terms.new }
    ensures within { IfOk result (λ r. forwarding_end r ≤ size terms.new) }
    ensures value { Gives terms.new result (λ w r. IsTwin (sought_by w aim.now)
        (hops.send_over net.now.files (packet_of w packet.now) (hops.all_up net.now.files (failures_of w sym.now))
        (up_interfaces net.now.files (failures_of w sym.now) router) (address_of w a.now)) (forwarding_of w r)) }
{
    let sent = Sent {
        net,
        sym,
        packet,
        aim,
    };
    let all = net.addresses();
    let never = constant_node(terms, false)?;
    let mut rest = SymForwarding {
        next: Vec::new(alloc),
        ends: never,
    };
    for i in (0..all.len()).rev() {
        rest = sym_over_or(alloc, terms, &sent, router, a, &all[i], rest)?;
    }
    Ok(rest)
}
