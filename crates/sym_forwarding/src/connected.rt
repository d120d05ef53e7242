//! The next hops of connected entries, as forwardings.

ghost use Rattle.std.specs.Prelude.{◌≡◌, ℕ, ◌+◌, ◌<◌, ◌≤◌, ◌==◌, ◌&&◌, Bool, IfOk, [], ◌∷◌, if◌then◌else◌, length};
ghost use Rattle.std.specs.Prelude.{List as ListOf};
ghost use Rattle.mw_text.specs.Address.{prefix_at, same_prefix};
ghost use Rattle.net_interfaces.specs.Interfaces.{addressed};
ghost use Rattle.net_parts.specs.Routing.{up_interfaces};
ghost use Rattle.net_parts.specs.World.{is_up};
ghost use Rattle.question_lang.specs.declared.walk.Hop.{Hop as HopOf};
ghost use Rattle.question_lang.specs.Hops as hops;
ghost use Rattle.sym_policy.specs.Held.{failures_of};
ghost use Rattle.sym_policy.specs.Records.{address_of, packet_end, prefix_of as prefix_read};
ghost use Rattle.sym_forwarding.specs.Aims.{sought_by};
ghost use Rattle.sym_forwarding.specs.Owners.{delivered_hop};
ghost use Rattle.sym_policy.specs.Packets.{packet_of};
ghost use Rattle.sym_forwarding.specs.Symbolic.{forwarding_of, forwarding_end};
ghost use Rattle.sym_forwarding.specs.Twins.{IsTwin};
ghost use Rattle.term_store.specs.Terms.{Reading, size, at};
ghost use Rattle.term_store.specs.Reading.{Reads, Builds, Gives};
ghost use Rattle.term_arith.specs.Bits.{ids_end, number};

use crate::aims::SymAim;
use crate::choices::choose_forwarding;
use crate::forwarding::SymForwarding;
use crate::lists::{sym_depart, sym_ends};
use crate::owners::sym_owner;
use crate::prefixes::sym_is_prefix;
use crate::sent::Sent;
use net_model::{Addressed, Net};
use question_lang::End;
use std::alloc::{AllocError, Global};
use sym_ospf::sym_up;
use sym_policy::{SymNet, SymPacket};
use term_arith::gates::{both, constant_node};
use term_store::{NodeId, Terms};

// Out of an interface, to the router that has the destination on its subnet, or delivered there.
fn sym_deliver(
    alloc: Global,
    terms: &mut Terms,
    sent: &Sent<'_>,
    x: &Addressed,
) -> Result<SymForwarding, AllocError>
    requires downs { ids_end sent.now.sym.now.down ≤ size terms.old }
    requires packet { packet_end sent.now.packet.now ≤ size terms.old }
    requires aim { sent.now.aim.now.here.0 < size terms.old }
    ensures builds { Builds terms.old terms.new }
    ensures within { IfOk result (λ r. forwarding_end r ≤ size terms.new) }
    ensures value { Gives terms.new result (λ w r. IsTwin (sought_by w sent.now.aim.now)
        (delivered_hop sent.now.net.now.files (failures_of w sent.now.sym.now) (packet_of w sent.now.packet.now)
        x.now.subnet x.now ∷ []) (forwarding_of w r)) }
{
    let delivered = sym_ends(alloc, terms, sent.aim, End::Delivered)?;
    let on = sym_owner(alloc, terms, sent, &x.subnet, &sent.packet.dst, delivered)?;
    let made = sym_depart(alloc, terms, sent.net, sent.packet, sent.aim, x.id, &on)?;
    Ok(made)
}

// Whether the interface is one of the router, up, and its subnet is the prefix of that length of the destination.
fn sym_connects(
    alloc: Global,
    terms: &mut Terms,
    net: &Net,
    sym: &SymNet,
    packet: &SymPacket,
    router: u32,
    len: u8,
    x: &Addressed,
) -> Result<NodeId, AllocError>
    requires downs { ids_end sym.now.down ≤ size terms.old }
    requires packet { packet_end packet.now ≤ size terms.old }
    requires long { len ≤ 32 }
    ensures builds { Builds terms.old terms.new }
    ensures within { IfOk result (λ r. r.0 < size terms.new) }
    ensures value { Gives terms.new result (λ w r. at w r ≡
        (((x.now.id.router == router) && is_up net.now.files (failures_of w sym.now) x.now)
        && same_prefix x.now.subnet (prefix_read w packet.now.dst len))) }
{
    if x.id.router != router {
        return constant_node(terms, false);
    }
    let up = sym_up(alloc, terms, net, sym, x)?;
    let same = sym_is_prefix(terms, &x.subnet, &packet.dst, len)?;
    both(terms, up, same)
}

// Out of the interface, where that is so, and else on as given.
fn sym_connected_or(
    alloc: Global,
    terms: &mut Terms,
    sent: &Sent<'_>,
    router: u32,
    len: u8,
    x: &Addressed,
    rest: SymForwarding,
) -> Result<SymForwarding, AllocError>
    requires downs { ids_end sent.now.sym.now.down ≤ size terms.old }
    requires packet { packet_end sent.now.packet.now ≤ size terms.old }
    requires aim { sent.now.aim.now.here.0 < size terms.old }
    requires long { len ≤ 32 }
    requires rest { forwarding_end rest ≤ size terms.old }
    ensures builds { Builds terms.old terms.new }
    ensures within { IfOk result (λ r. forwarding_end r ≤ size terms.new) }
    ensures value { Gives terms.new result (λ w r. (others : ListOf HopOf) →
        IsTwin (sought_by w sent.now.aim.now) others (forwarding_of w rest) →
        IsTwin (sought_by w sent.now.aim.now)
        (if ((x.now.id.router == router) && is_up sent.now.net.now.files (failures_of w sent.now.sym.now) x.now)
        && same_prefix x.now.subnet (prefix_read w sent.now.packet.now.dst len)
        then delivered_hop sent.now.net.now.files (failures_of w sent.now.sym.now) (packet_of w sent.now.packet.now)
        (prefix_read w sent.now.packet.now.dst len) x.now ∷ [] else others) (forwarding_of w r)) }
{
    if x.id.router != router {
        return Ok(rest);
    }
    let here = sym_connects(
        alloc,
        terms,
        sent.net,
        sent.sym,
        sent.packet,
        router,
        len,
        x,
    )?;
    let to = sym_deliver(alloc, terms, sent, x)?;
    let made = choose_forwarding(alloc, terms, here, &to, &rest)?;
    Ok(made)
}

/// The hop of a connected entry of that length: to the router that has the destination, or delivered on the subnet.
pub fn sym_connected(
    alloc: Global,
    terms: &mut Terms,
    net: &Net,
    sym: &SymNet,
    packet: &SymPacket,
    aim: &SymAim,
    router: u32,
    len: u8,
) -> Result<SymForwarding, AllocError>
    requires downs { ids_end sym.now.down ≤ size terms.old }
    requires packet { packet_end packet.now ≤ size terms.old }
    requires aim { aim.now.here.0 < size terms.old }
    requires long { len ≤ 32 }
    ensures builds { Builds terms.old terms.new }
    ensures within { IfOk result (λ r. forwarding_end r ≤ size terms.new) }
    ensures value { Gives terms.new result (λ w r. IsTwin (sought_by w aim.now)
        (hops.connected_hops net.now.files (packet_of w packet.now) (hops.all_up net.now.files (failures_of w sym.now))
        (up_interfaces net.now.files (failures_of w sym.now) router) (prefix_at (address_of w packet.now.dst) len))
        (forwarding_of w r)) }
{
    let sent = Sent {
        net,
        sym,
        packet,
        aim,
    };
    let all = net.addresses();
    let never = constant_node(terms, false)?;
    let mut rest = SymForwarding {
        next: Vec::new(alloc),
        ends: never,
    };
    for i in (0..all.len()).rev() {
        rest = sym_connected_or(alloc, terms, &sent, router, len, &all[i], rest)?;
    }
    Ok(rest)
}
