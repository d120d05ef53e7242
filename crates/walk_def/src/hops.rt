//! The next hops of a router.

ghost use Rattle.std.specs.Prelude.{◌≡◌, ◌<◌, ◌^◌, ◌==◌, ◌&&◌, ◌++◌, ◌∷◌, [], filter, length, map, IfOk, OnOk, if◌then◌else◌, option_map, slice_get};
ghost use Rattle.std.specs.List.{find, flat_map, list_any};
ghost use Rattle.std.specs.Option.{option_copied, option_map_or};
ghost use Rattle.mw_text.specs.Address.{covers, same_prefix};
ghost use Rattle.net_parts.specs.Routing.{static_routes};
ghost use Rattle.net_parts.specs.Sending.{sent_towards};
ghost use Rattle.proto_ospf.specs.Reached.{all_reached};
ghost use Rattle.question_lang.specs.Hops as hops;
ghost use Rattle.walk_def.specs.Sending.{AreSent};

use crate::adjacent::{held_hops_of, hops_towards};
use crate::filters::{arrive, depart};
use crate::open::{all_up, own_up};
use ios_ast::{File, StaticRoute, Via};
use mw_text::{Addr, List, Prefix, contains, prefix_of};
use net_model::{Addressed, IfaceId, Net};
use net_parts::routing::route_counts;
use proto_ospf::{Reached, all_distances};
use question_lang::{End, Hop};
use route_record::{LENGTHS, RibEntry, RibSource, Slot, Tables, World};
use std::alloc::{AllocError, Global};

/// A router that has the packet of a world: its file, its interfaces that are up among all that are, and the interior
/// distances to all that OSPF advertises.
#[derive(Clone, Copy)]
struct Holder<'a> {
    net: &'a Net,
    world: &'a World,
    all: &'a [Reached],
    up: &'a [Addressed],
    own: &'a [Addressed],
    router: u32,
    file: &'a File,
}

fn find_owner<'a>(up: &'a [Addressed], subnet: &Prefix, a: Addr) -> Option<&'a Addressed>
    ensures { option_copied result ≡ find (λ x. (x.addr.0 == a.0) && same_prefix x.subnet subnet.now) up.now }
{
    up.iter().find(|x| x.addr == a && x.subnet == *subnet)
}

// The interface that has the address, on that subnet.
fn owner_of(up: &[Addressed], subnet: &Prefix, a: Addr) -> Option<IfaceId>
    ensures { result ≡ hops.owner_on up.now subnet.now a }
{
    match find_owner(up, subnet, a) {
        None => None,
        Some(x) => Some(x.id),
    }
}

// To the router that has the address on the subnet, else this end.
fn hop_or(holder: &Holder<'_>, subnet: &Prefix, a: Addr, end: End) -> Hop
    ensures { result ≡ option_map_or (hops.arrive holder.now.net.now.files holder.now.world.now.packet)
        (hops.owner_on holder.now.up.now subnet.now a) (Hop.Ends end) }
{
    match owner_of(holder.up, subnet, a) {
        None => Hop::Ends(end),
        Some(id) => arrive(holder.net, &holder.world.packet, id),
    }
}

fn hop_to(holder: &Holder<'_>, out: &Addressed, a: Addr) -> Hop
    ensures { result ≡ hops.send_to holder.now.net.now.files holder.now.world.now.packet holder.now.up.now out.now a }
{
    let hop = hop_or(holder, &out.subnet, a, End::Left(a));
    depart(holder.net, &holder.world.packet, out.id, hop)
}

fn find_over<'a>(own: &'a [Addressed], a: Addr) -> Option<&'a Addressed>
    ensures { option_copied result ≡ find (λ x. covers x.subnet a) own.now }
{
    own.iter().find(|x| contains(&x.subnet, a))
}

// Puts the hop over the interface of the router whose subnet has the address at the end.
fn push_over(out: &mut List<Hop>, holder: &Holder<'_>, a: Addr) -> Result<(), AllocError>
    ensures { OnOk result (out.new ≡ out.old ++ hops.send_over holder.now.net.now.files holder.now.world.now.packet
        holder.now.up.now holder.now.own.now a) }
{
    if let Some(x) = find_over(holder.own, a) {
        out.items.push(hop_to(holder, x, a))?;
    }
    Ok(())
}

// Puts the hops of a static route at the end.
fn push_static(
    out: &mut List<Hop>,
    holder: &Holder<'_>,
    route: &StaticRoute,
) -> Result<(), AllocError>
    ensures { OnOk result (out.new ≡ out.old ++ hops.static_hops holder.now.net.now.files holder.now.world.now.packet
        holder.now.up.now holder.now.own.now route.now) }
{
    match &route.via {
        Via::Null0 => {
            out.items.push(Hop::Ends(End::Discarded))?;
            Ok(())
        }
        Via::Next(a) => push_over(out, holder, *a),
        Via::Out(_, a) => push_over(out, holder, *a),
    }
}

// The hops of the static routes of the prefix that have the distance.
fn static_hops_of(
    alloc: Global,
    holder: &Holder<'_>,
    p: &Prefix,
    distance: u8,
) -> Result<List<Hop>, AllocError>
    ensures { IfOk result (λ all. all ≡ flat_map (hops.static_hops holder.now.net.now.files holder.now.world.now.packet
        holder.now.up.now holder.now.own.now) (filter (λ route. route.distance == distance)
        (static_routes holder.now.own.now holder.now.file.now.statics p.now))) }
{
    let mut out = List::new(alloc);
    for route in holder.file.statics.as_slice() {
        if route.prefix == *p && route_counts(holder.own, route) && route.distance == distance {
            push_static(&mut out, holder, route)?;
        }
    }
    Ok(out)
}

fn find_direct<'a>(own: &'a [Addressed], p: &Prefix) -> Option<&'a Addressed>
    ensures { option_copied result ≡ find (λ x. same_prefix x.subnet p.now) own.now }
{
    own.iter().find(|x| x.subnet == *p)
}

fn connected_hop(holder: &Holder<'_>, out: &Addressed, p: &Prefix) -> Hop
    ensures { result ≡ hops.depart holder.now.net.now.files holder.now.world.now.packet out.now.id
        (option_map_or (hops.arrive holder.now.net.now.files holder.now.world.now.packet)
        (hops.owner_on holder.now.up.now p.now holder.now.world.now.packet.dst) (Hop.Ends End.Delivered)) }
{
    let packet = &holder.world.packet;
    let hop = hop_or(holder, p, packet.dst, End::Delivered);
    depart(holder.net, packet, out.id, hop)
}

fn connected_hops_of(
    alloc: Global,
    holder: &Holder<'_>,
    p: &Prefix,
) -> Result<List<Hop>, AllocError>
    ensures { IfOk result (λ all. all ≡ hops.connected_hops holder.now.net.now.files holder.now.world.now.packet
        holder.now.up.now holder.now.own.now p.now) }
{
    let mut out = List::new(alloc);
    if let Some(x) = find_direct(holder.own, p) {
        out.items.push(connected_hop(holder, x, p))?;
    }
    Ok(out)
}

fn some_subnet_has(own: &[Addressed], a: Addr) -> bool
    ensures { result ≡ list_any (λ x. covers x.subnet a) own.now }
{
    own.iter().any(|x| contains(&x.subnet, a))
}

// The hops over the interface of the router whose subnet has the address.
fn hops_out(alloc: Global, holder: &Holder<'_>, a: Addr) -> Result<List<Hop>, AllocError>
    ensures { IfOk result (λ all. all ≡ hops.send_over holder.now.net.now.files holder.now.world.now.packet
        holder.now.up.now holder.now.own.now a) }
{
    let mut out = List::new(alloc);
    push_over(&mut out, holder, a)?;
    Ok(out)
}

// The hops of a BGP route that is held: to the next hop, where that is on a subnet of the router, else over the
// adjacencies that lead to it.
fn next_hops_of(alloc: Global, holder: &Holder<'_>, a: Addr) -> Result<List<Hop>, AllocError>
    requires all { holder.now.all.now ≡ all_reached holder.now.net.now.files holder.now.world.now.failures }
    ensures { IfOk result (λ to. to ≡ if list_any (λ x. covers x.subnet a) holder.now.own.now
        then hops.send_over holder.now.net.now.files holder.now.world.now.packet holder.now.up.now holder.now.own.now a
        else map (hops.send_adjacent holder.now.net.now.files holder.now.world.now.packet)
        (sent_towards holder.now.net.now.files holder.now.world.now.failures holder.now.router a)) }
{
    if some_subnet_has(holder.own, a) {
        return hops_out(alloc, holder, a);
    }
    hops_towards(
        alloc,
        holder.net,
        holder.world,
        holder.all,
        holder.router,
        a,
    )
}

// The hops of a BGP entry.
fn bgp_hops_of(alloc: Global, holder: &Holder<'_>, slot: &Slot) -> Result<List<Hop>, AllocError>
    requires all { holder.now.all.now ≡ all_reached holder.now.net.now.files holder.now.world.now.failures }
    ensures { IfOk result (λ to. to ≡ hops.bgp_hops holder.now.net.now.files holder.now.world.now holder.now.up.now
        holder.now.own.now holder.now.router slot.now) }
{
    match &slot.bgp {
        None => Ok(List::new(alloc)),
        Some(held) => next_hops_of(alloc, holder, held.next_hop),
    }
}

// The hops of an OSPF entry.
fn ospf_hops_of(
    alloc: Global,
    holder: &Holder<'_>,
    p: &Prefix,
    slot: &Slot,
) -> Result<List<Hop>, AllocError>
    ensures { IfOk result (λ to. to ≡ hops.ospf_hops holder.now.net.now.files holder.now.world.now holder.now.router
        p.now slot.now) }
{
    match &slot.ospf {
        None => Ok(List::new(alloc)),
        Some(held) => held_hops_of(alloc, holder.net, holder.world, holder.router, p, held),
    }
}

// The longest prefix with an entry: its length, its slot and that entry.
type Longest<'a> = (u8, &'a Slot, RibEntry);

fn entry_hops_of(
    alloc: Global,
    holder: &Holder<'_>,
    found: &Longest<'_>,
) -> Result<List<Hop>, AllocError>
    requires all { holder.now.all.now ≡ all_reached holder.now.net.now.files holder.now.world.now.failures }
    ensures { IfOk result (λ to. to ≡ hops.entry_hops holder.now.net.now.files holder.now.world.now holder.now.up.now
        holder.now.own.now holder.now.router holder.now.file.now (found.now.0, found.now.1.now, found.now.2)) }
{
    let (len, slot, entry) = found;
    let p = prefix_of(holder.world.packet.dst, *len);
    match entry.source {
        RibSource::Connected => connected_hops_of(alloc, holder, &p),
        RibSource::Static => static_hops_of(alloc, holder, &p, entry.distance),
        RibSource::Ebgp => bgp_hops_of(alloc, holder, slot),
        RibSource::Ospf => ospf_hops_of(alloc, holder, &p, slot),
        RibSource::Ibgp => bgp_hops_of(alloc, holder, slot),
    }
}

fn entry_of(tables: &Tables, router: u32, len: u8) -> Option<(&Slot, RibEntry)>
    ensures { option_map (λ found. (found.0.now, found.1)) result ≡ hops.entry_at tables.entry.now router len }
{
    match tables.slot(router, len) {
        None => None,
        Some(slot) => match slot.rib {
            None => None,
            Some(entry) => Some((slot, entry)),
        },
    }
}

// The entry of the longest prefix.
#[tactic(auto, using(crate::proofs::Longest::longest_found, crate::proofs::Longest::longest_shorter, crate::proofs::Longest::longest_end))]
fn longest_of(tables: &Tables, router: u32) -> Option<Longest<'_>>
    ensures { option_map (λ found. (found.0, found.1.now, found.2)) result ≡ hops.longest_below tables.entry.now router LENGTHS }
{
    for shorter in 0..LENGTHS as u8 {
        let len = 32 - shorter;
        if let Some((slot, entry)) = entry_of(tables, router, len) {
            return Some((len, slot, entry));
        }
    }
    None
}

fn is_own(own: &[Addressed], d: Addr) -> bool
    ensures { result ≡ list_any (λ x. x.addr.0 == d.0) own.now }
{
    own.iter().any(|x| x.addr == d)
}

fn one_hop(alloc: Global, end: End) -> Result<List<Hop>, AllocError>
    ensures { IfOk result (λ all. all ≡ Hop.Ends end ∷ []) }
{
    let mut out = List::new(alloc);
    out.items.push(Hop::Ends(end))?;
    Ok(out)
}

// The next hops of a router.
fn hops_of(alloc: Global, holder: &Holder<'_>) -> Result<List<Hop>, AllocError>
    requires all { holder.now.all.now ≡ all_reached holder.now.net.now.files holder.now.world.now.failures }
    ensures { IfOk result (λ to. to ≡ hops.hops_over holder.now.net.now.files holder.now.world.now holder.now.up.now
        holder.now.own.now holder.now.router holder.now.file.now) }
{
    if is_own(holder.own, holder.world.packet.dst) {
        return one_hop(alloc, End::Delivered);
    }
    match longest_of(&holder.world.tables, holder.router) {
        None => one_hop(alloc, End::NoRoute),
        Some(found) => entry_hops_of(alloc, holder, &found),
    }
}

// The file of a router.
fn file_of(net: &Net, router: u32) -> Option<&File>
    ensures value { option_copied result ≡ slice_get net.entry.now.files router }
{
    net.routers().get(router as usize)
}

/// The next hops of a router, as a list, over the interior distances to all that OSPF advertises. Of many routers these are
/// the same.
pub fn list_hops(
    alloc: Global,
    net: &Net,
    world: &World,
    all: &[Reached],
    router: u32,
) -> Result<List<Hop>, AllocError>
    requires all { all.now ≡ all_reached net.now.files world.now.failures }
    ensures { IfOk result (λ to. to ≡ hops.next_hops net.now.files world.now router) }
{
    let up = all_up(alloc, net, &world.failures)?;
    let own = own_up(alloc, net, &world.failures, router)?;
    match file_of(net, router) {
        None => Ok(List::new(alloc)),
        Some(file) => {
            let holder = Holder {
                net,
                world,
                all,
                up: up.as_slice(),
                own: own.as_slice(),
                router,
                file,
            };
            hops_of(alloc, &holder)
        }
    }
}

/// The next hops of each router.
pub fn all_hops(alloc: Global, net: &Net, world: &World) -> Result<List<List<Hop>>, AllocError>
    ensures len { IfOk result (λ hops. length hops ≡ length net.now.files) }
    ensures few { IfOk result (λ hops. length hops < 2 ^ 32) }
    ensures sent { IfOk result (λ hops. AreSent net.now.files world.now hops) }
{
    let distances = all_distances(alloc, net, &world.failures)?;
    let mut hops = List::new(alloc);
    for at in 0..net.routers().len() {
        hops.items.push(list_hops(alloc, net, world, distances.as_slice(), at as u32)?)?;
    }
    Ok(hops)
}
