//! The next hops of static routes, as forwardings.

ghost use Rattle.std.specs.Prelude.{◌≡◌, ℕ, ◌+◌, ◌<◌, ◌≤◌, ◌^◌, ◌&&◌, ◌==◌, Bool, IfOk, [], ◌++◌, length, filter};
ghost use Rattle.std.specs.Prelude.{List as ListOf, if◌then◌else◌};
ghost use Rattle.std.specs.List.{flat_map};
ghost use Rattle.mw_text.specs.Address.{prefix_at};
ghost use Rattle.net_parts.specs.Routing as routing;
ghost use Rattle.question_lang.specs.declared.walk.Hop.{Hop as HopOf};
ghost use Rattle.net_parts.specs.Routing.{up_interfaces};
ghost use Rattle.question_lang.specs.Hops as hops;
ghost use Rattle.sym_policy.specs.Held.{failures_of};
ghost use Rattle.sym_policy.specs.Records.{address_of, packet_end, prefix_of as prefix_read};
ghost use Rattle.sym_forwarding.specs.Aims.{sought_by};
ghost use Rattle.sym_policy.specs.Packets.{packet_of};
ghost use Rattle.sym_forwarding.specs.Statics.{is_taken, route_hops};
ghost use Rattle.sym_forwarding.specs.Symbolic.{forwarding_of, forwarding_end};
ghost use Rattle.sym_forwarding.specs.Twins.{IsTwin};
ghost use Rattle.term_store.specs.Terms.{Reading, size, at};
ghost use Rattle.term_store.specs.Reading.{Reads, Builds, Gives};
ghost use Rattle.term_arith.specs.Bits.{ids_end, number};

use crate::aims::SymAim;
use crate::choices::join_forwarding;
use crate::forwarding::SymForwarding;
use crate::lists::sym_ends;
use crate::over::sym_send_over;
use crate::prefixes::sym_is_prefix;
use crate::sent::Sent;
use ios_ast::{StaticRoute, Via};
use mw_text::Addr;
use net_model::Net;
use question_lang::End;
use std::alloc::{AllocError, Global};
use sym_policy::{SymNet, SymPacket};
use term_arith::gates::{both, constant_node, is_never};
use term_arith::{Bits, constant, equal_number};
use term_store::{NodeId, Terms};

// To a known address, over an interface of the router.
fn sym_to(
    alloc: Global,
    terms: &mut Terms,
    net: &Net,
    sym: &SymNet,
    packet: &SymPacket,
    aim: &SymAim,
    router: u32,
    a: Addr,
) -> Result<SymForwarding, AllocError>
    requires downs { ids_end sym.now.down ≤ size terms.old }
    requires packet { packet_end packet.now ≤ size terms.old }
    requires aim { aim.now.here.0 < size terms.old }
    ensures builds { Builds terms.old terms.new }
    ensures within { IfOk result (λ r. forwarding_end r ≤ size terms.new) }
    ensures value { Gives terms.new result (λ w r. IsTwin (sought_by w aim.now)
        (hops.send_over net.now.files (packet_of w packet.now) (hops.all_up net.now.files (failures_of w sym.now))
        (up_interfaces net.now.files (failures_of w sym.now) router) a) (forwarding_of w r)) }
{
    let bits = constant(alloc, terms, u64::from(a.0), 32)?;
    let made = sym_send_over(alloc, terms, net, sym, packet, aim, router, &bits)?;
    Ok(made)
}

/// Where a static route leads.
pub fn sym_static(
    alloc: Global,
    terms: &mut Terms,
    net: &Net,
    sym: &SymNet,
    packet: &SymPacket,
    aim: &SymAim,
    router: u32,
    route: &StaticRoute,
) -> Result<SymForwarding, AllocError>
    requires downs { ids_end sym.now.down ≤ size terms.old }
    requires packet { packet_end packet.now ≤ size terms.old }
    requires aim { aim.now.here.0 < size terms.old }
    ensures builds { Builds terms.old terms.new }
    ensures within { IfOk result (λ r. forwarding_end r ≤ size terms.new) }
    ensures value { Gives terms.new result (λ w r. IsTwin (sought_by w aim.now)
        (hops.static_hops net.now.files (packet_of w packet.now) (hops.all_up net.now.files (failures_of w sym.now))
        (up_interfaces net.now.files (failures_of w sym.now) router) route.now) (forwarding_of w r)) }
{
    match &route.via {
        Via::Null0 => sym_ends(alloc, terms, aim, End::Discarded),
        Via::Next(a) => sym_to(alloc, terms, net, sym, packet, aim, router, *a),
        Via::Out(_, a) => sym_to(alloc, terms, net, sym, packet, aim, router, *a),
    }
}

// Whether the route is one to that prefix of the destination, and of that distance.
fn sym_taken(
    terms: &mut Terms,
    dst: &Bits,
    len: u8,
    distance: &Bits,
    route: &StaticRoute,
) -> Result<NodeId, AllocError>
    requires wide { length dst.now.nodes.items ≡ 32 }
    requires nodes { ids_end dst.now.nodes.items ≤ size terms.old }
    requires distance { ids_end distance.now.nodes.items ≤ size terms.old }
    ensures builds { Builds terms.old terms.new }
    ensures within { IfOk result (λ r. r.0 < size terms.new) }
    ensures value { Gives terms.new result (λ w r. at w r ≡
        is_taken (prefix_read w dst.now len) (number w distance.now.nodes.items) route.now) }
{
    if route.distance == 255 {
        return constant_node(terms, false);
    }
    let same = sym_is_prefix(terms, &route.prefix, dst, len)?;
    if is_never(terms, same) {
        return Ok(same);
    }
    let close = equal_number(terms, distance.nodes.as_slice(), u64::from(route.distance))?;
    both(terms, same, close)
}

// Where the route leads, where that is so, and where the rest does.
fn sym_static_or(
    alloc: Global,
    terms: &mut Terms,
    sent: &Sent<'_>,
    router: u32,
    len: u8,
    distance: &Bits,
    route: &StaticRoute,
    rest: SymForwarding,
) -> Result<SymForwarding, AllocError>
    requires downs { ids_end sent.now.sym.now.down ≤ size terms.old }
    requires packet { packet_end sent.now.packet.now ≤ size terms.old }
    requires aim { sent.now.aim.now.here.0 < size terms.old }
    requires distance { ids_end distance.now.nodes.items ≤ size terms.old }
    requires rest { forwarding_end rest ≤ size terms.old }
    ensures builds { Builds terms.old terms.new }
    ensures within { IfOk result (λ r. forwarding_end r ≤ size terms.new) }
    ensures value { Gives terms.new result (λ w r. (others : ListOf HopOf) →
        IsTwin (sought_by w sent.now.aim.now) others (forwarding_of w rest) →
        IsTwin (sought_by w sent.now.aim.now)
        ((if is_taken (prefix_read w sent.now.packet.now.dst len) (number w distance.now.nodes.items) route.now
        then route_hops sent.now.net.now.files (failures_of w sent.now.sym.now) (packet_of w sent.now.packet.now) router
        route.now else []) ++ others) (forwarding_of w r)) }
{
    let taken = sym_taken(terms, &sent.packet.dst, len, distance, route)?;
    if is_never(terms, taken) {
        return Ok(rest);
    }
    let to = sym_static(
        alloc,
        terms,
        sent.net,
        sent.sym,
        sent.packet,
        sent.aim,
        router,
        route,
    )?;
    let made = join_forwarding(terms, taken, rest, &to)?;
    Ok(made)
}

/// Where the static routes lead that are to the prefix of that length of the destination, have that distance and count.
pub fn sym_statics(
    alloc: Global,
    terms: &mut Terms,
    sent: &Sent<'_>,
    router: u32,
    len: u8,
    distance: &Bits,
    routes: &[StaticRoute],
) -> Result<SymForwarding, AllocError>
    requires downs { ids_end sent.now.sym.now.down ≤ size terms.old }
    requires packet { packet_end sent.now.packet.now ≤ size terms.old }
    requires aim { sent.now.aim.now.here.0 < size terms.old }
    requires distance { ids_end distance.now.nodes.items ≤ size terms.old }
    ensures builds { Builds terms.old terms.new }
    ensures within { IfOk result (λ r. forwarding_end r ≤ size terms.new) }
    ensures value { Gives terms.new result (λ w r. IsTwin (sought_by w sent.now.aim.now)
        (flat_map (hops.static_hops sent.now.net.now.files (packet_of w sent.now.packet.now)
        (hops.all_up sent.now.net.now.files (failures_of w sent.now.sym.now))
        (up_interfaces sent.now.net.now.files (failures_of w sent.now.sym.now) router))
        (filter (λ route. route.distance == number w distance.now.nodes.items)
        (routing.static_routes (up_interfaces sent.now.net.now.files (failures_of w sent.now.sym.now) router) routes.now
        (prefix_at (address_of w sent.now.packet.now.dst) len)))) (forwarding_of w r)) }
{
    let never = constant_node(terms, false)?;
    let mut rest = SymForwarding {
        next: Vec::new(alloc),
        ends: never,
    };
    for i in (0..routes.len()).rev() {
        rest = sym_static_or(alloc, terms, sent, router, len, distance, &routes[i], rest)?;
    }
    Ok(rest)
}
