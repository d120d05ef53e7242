//! The next hops of the entry of a slot, as forwardings.

ghost use Rattle.std.specs.Prelude.{◌≡◌, ◌<◌, ◌≤◌, ◌==◌, IfOk};
ghost use Rattle.std.specs.Prelude.{if◌then◌else◌, length};
ghost use Rattle.std.specs.Prelude.{List as ListOf};
ghost use Rattle.mw_text.specs.Address.{prefix_at};
ghost use Rattle.net_parts.specs.Routing.{up_interfaces};
ghost use Rattle.question_lang.specs.declared.walk.Hop.{Hop as HopOf};
ghost use Rattle.question_lang.specs.Hops as hops;
ghost use Rattle.sym_ospf.specs.Rows.{net_end};
ghost use Rattle.sym_policy.specs.Held.{failures_of};
ghost use Rattle.sym_policy.specs.Records.{address_of, packet_end};
ghost use Rattle.sym_rib.specs.Slots.{slot_end};
ghost use Rattle.sym_forwarding.specs.Aims.{sought_by};
ghost use Rattle.sym_walk.specs.Distances.{DistancesIfNeeded};
ghost use Rattle.sym_walk.specs.Entries as defined;
ghost use Rattle.sym_policy.specs.Packets.{packet_of};
ghost use Rattle.sym_forwarding.specs.Symbolic.{forwarding_of, forwarding_end};
ghost use Rattle.sym_forwarding.specs.Twins.{IsTwin};
ghost use Rattle.sym_rib.specs.Worlds.{read_world, slot_of, slots_end};
ghost use Rattle.term_store.specs.Terms.{size, at};
ghost use Rattle.term_store.specs.Reading.{Builds, Gives};
ghost use Rattle.term_arith.specs.Bits.{ids_end, number};

use crate::adjacent::sym_ospf_hops;
use crate::stop::Stop;
use ios_ast::File;
use std::alloc::{AllocError, Global};
use sym_forwarding::{
    Sent, SymAim, SymForwarding, choose_forwarding, sym_bgp_hops, sym_connected, sym_statics,
};
use sym_rib::SymSlot;
use term_arith::equal_number;
use term_arith::gates::is_never;
use term_store::{NodeId, Terms};

// Whether the source of the entry has that number.
fn sym_source(terms: &mut Terms, slot: &SymSlot, source: u64) -> Result<NodeId, AllocError>
    requires slot { slot_end slot.now ≤ size terms.old }
    ensures builds { Builds terms.old terms.new }
    ensures within { IfOk result (λ r. r.0 < size terms.new) }
    ensures value { Gives terms.new result (λ w r. at w r ≡ (number w slot.now.rib.source.nodes.items == source)) }
{
    equal_number(terms, slot.rib.source.nodes.as_slice(), source)
}

// Where the entry leads if its source is OSPF, and else as given.
fn sym_by_ospf(
    alloc: Global,
    terms: &mut Terms,
    stop: &Stop<'_>,
    aim: &SymAim,
    len: u8,
    slot: &SymSlot,
    rest: SymForwarding,
) -> Result<SymForwarding, AllocError>
    requires long { len ≤ 32 }
    requires downs { ids_end stop.now.sym.now.down ≤ size terms.old }
    requires slots { slots_end stop.now.tables.now.slots.now ≤ size terms.old }
    requires packet { packet_end stop.now.packet.now ≤ size terms.old }
    requires aim { aim.now.here.0 < size terms.old }
    requires slot { slot_end slot.now ≤ size terms.old }
    requires rest { forwarding_end rest ≤ size terms.old }
    ensures builds { Builds terms.old terms.new }
    ensures within { IfOk result (λ r. forwarding_end r ≤ size terms.new) }
    ensures value { Gives terms.new result (λ w r. (others : ListOf HopOf) →
        IsTwin (sought_by w aim.now) others (forwarding_of w rest) →
        IsTwin (sought_by w aim.now)
        (if number w slot.now.rib.source.nodes.items == 3 then hops.ospf_hops stop.now.net.now.files
        (read_world w stop.now.sym.now stop.now.packet.now stop.now.tables.now) stop.now.router
        (prefix_at (address_of w stop.now.packet.now.dst) len) (slot_of w slot.now) else others) (forwarding_of w r)) }
{
    let test = sym_source(terms, slot, 3)?;
    if is_never(terms, test) {
        return Ok(rest);
    }
    let to = sym_ospf_hops(alloc, terms, stop, aim, len, &slot.ospf)?;
    let made = choose_forwarding(alloc, terms, test, &to, &rest)?;
    Ok(made)
}

// Where the entry leads if its source is a static route, and else as given.
fn sym_by_static(
    alloc: Global,
    terms: &mut Terms,
    stop: &Stop<'_>,
    aim: &SymAim,
    file: &File,
    len: u8,
    slot: &SymSlot,
    rest: SymForwarding,
) -> Result<SymForwarding, AllocError>
    requires downs { ids_end stop.now.sym.now.down ≤ size terms.old }
    requires packet { packet_end stop.now.packet.now ≤ size terms.old }
    requires aim { aim.now.here.0 < size terms.old }
    requires slot { slot_end slot.now ≤ size terms.old }
    requires rest { forwarding_end rest ≤ size terms.old }
    ensures builds { Builds terms.old terms.new }
    ensures within { IfOk result (λ r. forwarding_end r ≤ size terms.new) }
    ensures value { Gives terms.new result (λ w r. (others : ListOf HopOf) →
        IsTwin (sought_by w aim.now) others (forwarding_of w rest) →
        IsTwin (sought_by w aim.now)
        (if number w slot.now.rib.source.nodes.items == 1 then defined.static_part stop.now.net.now.files
        (packet_of w stop.now.packet.now) (hops.all_up stop.now.net.now.files (failures_of w stop.now.sym.now))
        (up_interfaces stop.now.net.now.files (failures_of w stop.now.sym.now) stop.now.router)
        file.now.statics (prefix_at (address_of w stop.now.packet.now.dst) len)
        (number w slot.now.rib.distance.nodes.items)
        else others) (forwarding_of w r)) }
{
    let test = sym_source(terms, slot, 1)?;
    if is_never(terms, test) {
        return Ok(rest);
    }
    let sent = Sent {
        net: stop.net,
        sym: stop.sym,
        packet: stop.packet,
        aim,
    };
    let to = sym_statics(
        alloc,
        terms,
        &sent,
        stop.router,
        len,
        &slot.rib.distance,
        file.statics.as_slice(),
    )?;
    let made = choose_forwarding(alloc, terms, test, &to, &rest)?;
    Ok(made)
}

// Where the entry leads if it is a connected one, and else as given.
fn sym_by_connected(
    alloc: Global,
    terms: &mut Terms,
    stop: &Stop<'_>,
    aim: &SymAim,
    len: u8,
    slot: &SymSlot,
    rest: SymForwarding,
) -> Result<SymForwarding, AllocError>
    requires downs { ids_end stop.now.sym.now.down ≤ size terms.old }
    requires packet { packet_end stop.now.packet.now ≤ size terms.old }
    requires aim { aim.now.here.0 < size terms.old }
    requires long { len ≤ 32 }
    requires slot { slot_end slot.now ≤ size terms.old }
    requires rest { forwarding_end rest ≤ size terms.old }
    ensures builds { Builds terms.old terms.new }
    ensures within { IfOk result (λ r. forwarding_end r ≤ size terms.new) }
    ensures value { Gives terms.new result (λ w r. (others : ListOf HopOf) →
        IsTwin (sought_by w aim.now) others (forwarding_of w rest) →
        IsTwin (sought_by w aim.now)
        (if number w slot.now.rib.source.nodes.items == 0 then hops.connected_hops stop.now.net.now.files
        (packet_of w stop.now.packet.now) (hops.all_up stop.now.net.now.files (failures_of w stop.now.sym.now))
        (up_interfaces stop.now.net.now.files (failures_of w stop.now.sym.now) stop.now.router)
        (prefix_at (address_of w stop.now.packet.now.dst) len) else others) (forwarding_of w r)) }
{
    let test = sym_source(terms, slot, 0)?;
    if is_never(terms, test) {
        return Ok(rest);
    }
    let to = sym_connected(
        alloc,
        terms,
        stop.net,
        stop.sym,
        stop.packet,
        aim,
        stop.router,
        len,
    )?;
    let made = choose_forwarding(alloc, terms, test, &to, &rest)?;
    Ok(made)
}

/// Where the entry of a slot leads, as if there were one. The slot is that of the router for the prefix of that length of
/// the destination. Where the router holds a BGP route there, the rows of `sym` are to be the interior distances.
pub(crate) fn sym_entry_hops(
    alloc: Global,
    terms: &mut Terms,
    stop: &Stop<'_>,
    aim: &SymAim,
    file: &File,
    len: u8,
    slot: &SymSlot,
) -> Result<SymForwarding, AllocError>
    requires net { net_end stop.now.sym.now ≤ size terms.old }
    requires slots { slots_end stop.now.tables.now.slots.now ≤ size terms.old }
    requires packet { packet_end stop.now.packet.now ≤ size terms.old }
    requires aim { aim.now.here.0 < size terms.old }
    requires long { len ≤ 32 }
    requires slot { slot_end slot.now ≤ size terms.old }
    ensures builds { Builds terms.old terms.new }
    ensures within { IfOk result (λ r. forwarding_end r ≤ size terms.new) }
    ensures value { Gives terms.new result (λ w r. DistancesIfNeeded w stop.now.net.now.files stop.now.sym.now
        slot.now →
        IsTwin (sought_by w aim.now)
        (defined.entry_of w stop.now.net.now.files (read_world w stop.now.sym.now stop.now.packet.now
        stop.now.tables.now)
        (hops.all_up stop.now.net.now.files (failures_of w stop.now.sym.now))
        (up_interfaces stop.now.net.now.files (failures_of w stop.now.sym.now) stop.now.router) stop.now.router
        file.now len slot.now) (forwarding_of w r)) }
{
    let bgp = sym_bgp_hops(
        alloc,
        terms,
        stop.net,
        stop.sym,
        stop.packet,
        aim,
        stop.router,
        &slot.bgp,
    )?;
    let ospf = sym_by_ospf(alloc, terms, stop, aim, len, slot, bgp)?;
    let plain = sym_by_static(alloc, terms, stop, aim, file, len, slot, ospf)?;
    let made = sym_by_connected(alloc, terms, stop, aim, len, slot, plain)?;
    Ok(made)
}
