//! The next hops of BGP entries, as forwardings: to the next hop of the route where that is on a subnet of the router, and
//! else over the adjacencies that lead to it.

ghost use Rattle.std.specs.Prelude.{◌≡◌, ℕ, ◌+◌, ◌<◌, ◌≤◌, ◌==◌, ◌&&◌, Bool, true, IfOk, [], ◌∷◌, ◌++◌, length, map};
ghost use Rattle.std.specs.Prelude.{if◌then◌else◌, List as ListOf};
ghost use Rattle.std.specs.Option.{option_map_or};
ghost use Rattle.net_parts.specs.Ospf as ospf;
ghost use Rattle.net_parts.specs.Sending.{sent_towards};
ghost use Rattle.question_lang.specs.declared.walk.Hop.{Hop as HopOf};
ghost use Rattle.question_lang.specs.Hops as hops;
ghost use Rattle.sym_ospf.specs.Routes.{routes_end};
ghost use Rattle.sym_ospf.specs.Rows.{HasDistances, net_end};
ghost use Rattle.sym_policy.specs.Held.{bgp_end, failures_of};
ghost use Rattle.sym_policy.specs.Records.{address_of, packet_end};
ghost use Rattle.sym_forwarding.specs.Aims.{sought_by};
ghost use Rattle.sym_forwarding.specs.Offers.{is_up_from};
ghost use Rattle.sym_policy.specs.Packets.{packet_of};
ghost use Rattle.sym_forwarding.specs.Symbolic.{forwarding_of, forwarding_end};
ghost use Rattle.sym_forwarding.specs.Towards as defined;
ghost use Rattle.sym_forwarding.specs.Twins.{IsTwin};
ghost use Rattle.sym_policy.specs.Seen.{towards_of};
ghost use Rattle.term_store.specs.Terms.{Reading, size, at};
ghost use Rattle.term_store.specs.Reading.{Reads, Builds, Gives};
ghost use Rattle.term_arith.specs.Bits.{ids_end};

use crate::adjacent::{sym_send_adjacent, sym_up_from};
use crate::aims::SymAim;
use crate::choices::{choose_forwarding, join_forwarding};
use crate::distances::sym_leads;
use crate::firsts::first_else;
use crate::forwarding::SymForwarding;
use crate::reaching::sym_first_over;
use crate::sent::Sent;
use crate::still::still_forwarding;
use net_model::{Adjacency, Net};
use std::alloc::{AllocError, Global};
use sym_policy::{SymBgp, SymNet, SymPacket};
use term_arith::Bits;
use term_arith::gates::{both, is_never};
use term_store::{NodeId, Terms};

// Whether the adjacency is one of the router that is up, and leads to the address.
fn sym_leads_over(
    alloc: Global,
    terms: &mut Terms,
    net: &Net,
    sym: &SymNet,
    router: u32,
    a: &Bits,
    x: &Adjacency,
) -> Result<NodeId, AllocError>
    requires net { net_end sym.now ≤ size terms.old }
    requires wide { length a.now.nodes.items ≡ 32 }
    requires nodes { ids_end a.now.nodes.items ≤ size terms.old }
    ensures builds { Builds terms.old terms.new }
    ensures within { IfOk result (λ r. r.0 < size terms.new) }
    ensures value { Gives terms.new result (λ w r. HasDistances w net.now.files sym.now →
        at w r ≡ (is_up_from net.now.files (failures_of w sym.now) router x.now
        && defined.leads_by net.now.files (failures_of w sym.now) router (address_of w a.now) x.now
        (ospf.advertised net.now.files))) }
{
    let up = sym_up_from(alloc, terms, net, sym, router, x)?;
    let leads = sym_leads(alloc, terms, net, sym, router, a, x)?;
    let made = both(terms, up, leads)?;
    Ok(made)
}

// Over the adjacency, where it leads to the address, and where the rest does.
fn sym_led_or(
    alloc: Global,
    terms: &mut Terms,
    sent: &Sent<'_>,
    router: u32,
    a: &Bits,
    x: &Adjacency,
    rest: SymForwarding,
) -> Result<SymForwarding, AllocError>
    requires net { net_end sent.now.sym.now ≤ size terms.old }
    requires packet { packet_end sent.now.packet.now ≤ size terms.old }
    requires aim { sent.now.aim.now.here.0 < size terms.old }
    requires wide { length a.now.nodes.items ≡ 32 }
    requires nodes { ids_end a.now.nodes.items ≤ size terms.old }
    requires rest { forwarding_end rest ≤ size terms.old }
    ensures builds { Builds terms.old terms.new }
    ensures within { IfOk result (λ r. forwarding_end r ≤ size terms.new) }
    ensures value { Gives terms.new result (λ w r. HasDistances w sent.now.net.now.files sent.now.sym.now →
        (others : ListOf HopOf) →
        IsTwin (sought_by w sent.now.aim.now) others (forwarding_of w rest) →
        IsTwin (sought_by w sent.now.aim.now)
        ((if is_up_from sent.now.net.now.files (failures_of w sent.now.sym.now) router x.now
        && defined.leads_by sent.now.net.now.files (failures_of w sent.now.sym.now) router (address_of w a.now) x.now
        (ospf.advertised sent.now.net.now.files)
        then hops.send_adjacent sent.now.net.now.files (packet_of w sent.now.packet.now) x.now ∷ [] else []) ++ others)
        (forwarding_of w r)) }
{
    if x.from.router != router {
        return Ok(rest);
    }
    let taken = sym_leads_over(alloc, terms, sent.net, sent.sym, router, a, x)?;
    let to = sym_send_adjacent(alloc, terms, sent.net, sent.packet, sent.aim, x)?;
    let made = join_forwarding(terms, taken, rest, &to)?;
    Ok(made)
}

// Over each adjacency of the router that is up and on a least walk to the advertised prefix that contains the address.
fn sym_led(
    alloc: Global,
    terms: &mut Terms,
    sent: &Sent<'_>,
    router: u32,
    a: &Bits,
) -> Result<SymForwarding, AllocError>
    requires net { net_end sent.now.sym.now ≤ size terms.old }
    requires packet { packet_end sent.now.packet.now ≤ size terms.old }
    requires aim { sent.now.aim.now.here.0 < size terms.old }
    requires wide { length a.now.nodes.items ≡ 32 }
    requires nodes { ids_end a.now.nodes.items ≤ size terms.old }
    ensures builds { Builds terms.old terms.new }
    ensures within { IfOk result (λ r. forwarding_end r ≤ size terms.new) }
    ensures value { Gives terms.new result (λ w r. HasDistances w sent.now.net.now.files sent.now.sym.now →
        IsTwin (sought_by w sent.now.aim.now)
        (map (hops.send_adjacent sent.now.net.now.files (packet_of w sent.now.packet.now))
        (sent_towards sent.now.net.now.files (failures_of w sent.now.sym.now) router (address_of w a.now)))
        (forwarding_of w r)) }
{
    let all = sent.net.adjacencies();
    let mut rest = still_forwarding(alloc, terms)?;
    for i in (0..all.len()).rev() {
        rest = sym_led_or(alloc, terms, sent, router, a, &all[i], rest)?;
    }
    Ok(rest)
}

// To the next hop.
fn sym_to_next_hop(
    alloc: Global,
    terms: &mut Terms,
    sent: &Sent<'_>,
    router: u32,
    a: &Bits,
) -> Result<SymForwarding, AllocError>
    requires net { net_end sent.now.sym.now ≤ size terms.old }
    requires packet { packet_end sent.now.packet.now ≤ size terms.old }
    requires aim { sent.now.aim.now.here.0 < size terms.old }
    requires wide { length a.now.nodes.items ≡ 32 }
    requires nodes { ids_end a.now.nodes.items ≤ size terms.old }
    ensures builds { Builds terms.old terms.new }
    ensures within { IfOk result (λ r. forwarding_end r ≤ size terms.new) }
    ensures value { Gives terms.new result (λ w r. HasDistances w sent.now.net.now.files sent.now.sym.now →
        IsTwin (sought_by w sent.now.aim.now)
        (defined.hops_towards sent.now.net.now.files (failures_of w sent.now.sym.now) (packet_of w sent.now.packet.now)
        router (address_of w a.now)) (forwarding_of w r)) }
{
    let over = sym_first_over(alloc, terms, sent, router, a)?;
    let led = sym_led(alloc, terms, sent, router, a)?;
    let made = first_else(terms, over, &led)?;
    Ok(made)
}

/// Where a BGP entry leads: to the next hop of the route that the router holds, and nowhere where it holds none. This
/// holds under each reading in which the rows of `sym` are the interior distances, or the router holds no BGP route.
pub fn sym_bgp_hops(
    alloc: Global,
    terms: &mut Terms,
    net: &Net,
    sym: &SymNet,
    packet: &SymPacket,
    aim: &SymAim,
    router: u32,
    held: &SymBgp,
) -> Result<SymForwarding, AllocError>
    requires net { net_end sym.now ≤ size terms.old }
    requires packet { packet_end packet.now ≤ size terms.old }
    requires aim { aim.now.here.0 < size terms.old }
    requires held { bgp_end held.now ≤ size terms.old }
    ensures builds { Builds terms.old terms.new }
    ensures within { IfOk result (λ r. forwarding_end r ≤ size terms.new) }
    ensures value { Gives terms.new result (λ w r. (at w held.now.valid ≡ true → HasDistances w net.now.files sym.now) →
        IsTwin (sought_by w aim.now)
        (option_map_or (λ route. defined.hops_towards net.now.files (failures_of w sym.now) (packet_of w packet.now) router
        route.next_hop) (towards_of w held.now) []) (forwarding_of w r)) }
{
    let none = still_forwarding(alloc, terms)?;
    if is_never(terms, held.valid) {
        return Ok(none);
    }
    let sent = Sent {
        net,
        sym,
        packet,
        aim,
    };
    let to = sym_to_next_hop(alloc, terms, &sent, router, &held.next_hop)?;
    let made = choose_forwarding(alloc, terms, held.valid, &to, &none)?;
    Ok(made)
}
