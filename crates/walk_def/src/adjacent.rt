//! Hops over OSPF adjacencies.

ghost use Rattle.std.specs.Prelude.{◌≡◌, ◌++◌, ◌∷◌, [], false, filter, map, IfOk, OnOk};
ghost use Rattle.std.specs.Option.{option_map_or};
ghost use Rattle.net_parts.specs.OspfRoutes.{kind_rank, offer_over};
ghost use Rattle.net_parts.specs.Sending as sending;
ghost use Rattle.proto_ospf.specs.Reached.{all_reached};
ghost use Rattle.question_lang.specs.Hops as hops;

use crate::filters::{arrive, depart};
use mw_text::{Addr, List, Prefix};
use net_model::{Adjacency, Net};
use proto_ospf::{Reached, offer, sent_towards, up_adjacencies};
use question_lang::Hop;
use route_record::{OspfKind, OspfRec, Packet, Tables, World};
use std::alloc::{AllocError, Global};

// The hop over an adjacency.
fn hop_over(net: &Net, packet: &Packet, a: &Adjacency) -> Hop
    ensures { result ≡ hops.send_adjacent net.now.files packet.now a.now }
{
    depart(net, packet, a.from, arrive(net, packet, a.to))
}

fn rank(kind: OspfKind) -> u8
    ensures { result ≡ kind_rank kind }
{
    match kind {
        OspfKind::Internal => 0,
        OspfKind::Ext1 => 1,
        OspfKind::Ext2 => 2,
    }
}

fn is_same_record(a: &OspfRec, b: &OspfRec) -> bool
    ensures { result ≡ sending.same_record a.now b.now }
{
    rank(a.kind) == rank(b.kind) && a.metric == b.metric && a.cost == b.cost
}

// What the far router of an adjacency offers over it.
fn offer_at(tables: &Tables, p: &Prefix, a: &Adjacency) -> Option<OspfRec>
    ensures { result ≡ offer_over tables.entry.now p.now a.now }
{
    match tables.slot(a.to.router, p.len) {
        None => None,
        Some(slot) => match &slot.ospf {
            None => None,
            Some(held) => offer(held, a.cost),
        },
    }
}

// Whether the far router of an adjacency offers that record.
fn offers(tables: &Tables, p: &Prefix, held: &OspfRec, a: &Adjacency) -> bool
    ensures { result ≡ option_map_or (sending.same_record held.now) (offer_over tables.entry.now p.now a.now) false }
{
    match offer_at(tables, p, a) {
        None => false,
        Some(offered) => is_same_record(held, &offered),
    }
}

// The adjacencies over which an OSPF entry sends.
#[tactic(auto, unfolding(net_parts::specs::Sending::sent_by_ospf))]
fn sent_by_ospf(
    alloc: Global,
    net: &Net,
    world: &World,
    router: u32,
    p: &Prefix,
    held: &OspfRec,
) -> Result<List<Adjacency>, AllocError>
    ensures { IfOk result (λ over. over
        ≡ sending.sent_by_ospf net.now.files world.now.failures world.now.tables router p.now held.now) }
{
    let up = up_adjacencies(alloc, net, &world.failures, router)?;
    let items = up
        .as_slice()
        .iter()
        .copied()
        .filter(|a| offers(&world.tables, p, held, a))
        .collect(alloc)?;
    Ok(List { items })
}

// The hops over these adjacencies.
fn hops_over(
    alloc: Global,
    net: &Net,
    packet: &Packet,
    over: &[Adjacency],
) -> Result<List<Hop>, AllocError>
    ensures { IfOk result (λ all. all ≡ map (hops.send_adjacent net.now.files packet.now) over.now) }
{
    let items = over
        .iter()
        .map(|a| hop_over(net, packet, a))
        .collect(alloc)?;
    Ok(List { items })
}

/// The hops of an OSPF route that is held: over each adjacency whose far router offers that record.
pub fn held_hops_of(
    alloc: Global,
    net: &Net,
    world: &World,
    router: u32,
    p: &Prefix,
    held: &OspfRec,
) -> Result<List<Hop>, AllocError>
    ensures { IfOk result (λ all. all ≡ map (hops.send_adjacent net.now.files world.now.packet)
        (sending.sent_by_ospf net.now.files world.now.failures world.now.tables router p.now held.now)) }
{
    let over = sent_by_ospf(alloc, net, world, router, p, held)?;
    hops_over(alloc, net, &world.packet, over.as_slice())
}

/// The hops towards an address: over each adjacency on a least walk to the advertised prefix that contains it.
pub fn hops_towards(
    alloc: Global,
    net: &Net,
    world: &World,
    all: &[Reached],
    router: u32,
    a: Addr,
) -> Result<List<Hop>, AllocError>
    requires all { all.now ≡ all_reached net.now.files world.now.failures }
    ensures { IfOk result (λ to. to ≡ map (hops.send_adjacent net.now.files world.now.packet)
        (sending.sent_towards net.now.files world.now.failures router a)) }
{
    let over = sent_towards(alloc, net, &world.failures, all, router, a)?;
    hops_over(alloc, net, &world.packet, over.as_slice())
}
