//! Packets, routes and slots of new variables.

ghost use Rattle.std.specs.Prelude.{◌≡◌, ◌≤◌, ◌<◌, IfOk, length, max};
ghost use Rattle.term_store.specs.Terms.{size};
ghost use Rattle.term_arith.specs.Bits.{ids_end};
ghost use Rattle.sym_policy.specs.Held.{bgp_end, ospf_end};
ghost use Rattle.sym_policy.specs.Records.{packet_end};
ghost use Rattle.sym_rib.specs.Slots.{rib_end, slot_end};

use route_record::Tracked;
use std::alloc::{AllocError, Global};
use sym_policy::{SymBgp, SymOspf, SymPacket};
use sym_rib::{SymRib, SymSlot};
use term_arith::{Bits, fresh_bits};
use term_store::{NodeId, Terms};

/// The protocol and the ports of a packet.
#[derive(Drop)]
struct Ports {
    proto: Bits,
    sport: Bits,
    dport: Bits,
    ghost proto_wide: { length proto.nodes.items ≡ 8 },
    ghost sport_wide: { length sport.nodes.items ≡ 16 },
    ghost dport_wide: { length dport.nodes.items ≡ 16 },
}

fn fresh_ports(alloc: Global, terms: &mut Terms) -> Result<Ports, AllocError>
    ensures larger { size terms.old ≤ size terms.new }
    ensures within { IfOk result (λ r. max (ids_end r.proto.nodes.items)
        (max (ids_end r.sport.nodes.items) (ids_end r.dport.nodes.items)) ≤ size terms.new) }
{
    let proto = fresh_bits(alloc, terms, 8)?;
    let sport = fresh_bits(alloc, terms, 16)?;
    let dport = fresh_bits(alloc, terms, 16)?;
    Ok(Ports {
        proto,
        sport,
        dport,
    })
}

/// A packet: its source, its destination, its protocol and its ports, in this order.
pub fn fresh_packet(alloc: Global, terms: &mut Terms) -> Result<SymPacket, AllocError>
    ensures larger { size terms.old ≤ size terms.new }
    ensures within { IfOk result (λ r. packet_end r ≤ size terms.new) }
{
    let src = fresh_bits(alloc, terms, 32)?;
    let dst = fresh_bits(alloc, terms, 32)?;
    let Ports {
        proto,
        sport,
        dport,
    } = fresh_ports(alloc, terms)?;
    Ok(SymPacket {
        src,
        dst,
        proto,
        sport,
        dport,
    })
}

/// An OSPF route: whether it is there, its kind, its metric and its cost.
pub fn fresh_ospf(alloc: Global, terms: &mut Terms) -> Result<SymOspf, AllocError>
    ensures larger { size terms.old ≤ size terms.new }
    ensures within { IfOk result (λ r. ospf_end r ≤ size terms.new) }
{
    let valid = terms.fresh()?;
    let kind = fresh_bits(alloc, terms, 2)?;
    let metric = fresh_bits(alloc, terms, 32)?;
    let cost = fresh_bits(alloc, terms, 32)?;
    Ok(SymOspf {
        valid,
        kind,
        metric,
        cost,
    })
}

/// Three words of 32 variables.
#[derive(Drop)]
struct Words {
    a: Bits,
    b: Bits,
    c: Bits,
    ghost a_wide: { length a.nodes.items ≡ 32 },
    ghost b_wide: { length b.nodes.items ≡ 32 },
    ghost c_wide: { length c.nodes.items ≡ 32 },
}

fn fresh_words(alloc: Global, terms: &mut Terms) -> Result<Words, AllocError>
    ensures larger { size terms.old ≤ size terms.new }
    ensures within { IfOk result (λ r. max (ids_end r.a.nodes.items)
        (max (ids_end r.b.nodes.items) (ids_end r.c.nodes.items)) ≤ size terms.new) }
{
    let a = fresh_bits(alloc, terms, 32)?;
    let b = fresh_bits(alloc, terms, 32)?;
    let c = fresh_bits(alloc, terms, 32)?;
    Ok(Words { a, b, c })
}

/// The parts of a BGP route that are no words.
#[derive(Drop)]
struct Marks {
    origin: Bits,
    originator: Bits,
    from: Bits,
    ghost origin_wide: { length origin.nodes.items ≡ 2 },
    ghost originator_wide: { length originator.nodes.items ≡ 33 },
    ghost from_wide: { length from.nodes.items ≡ 33 },
}

fn fresh_marks(alloc: Global, terms: &mut Terms) -> Result<Marks, AllocError>
    ensures larger { size terms.old ≤ size terms.new }
    ensures within { IfOk result (λ r. max (ids_end r.origin.nodes.items)
        (max (ids_end r.originator.nodes.items) (ids_end r.from.nodes.items)) ≤ size terms.new) }
{
    let origin = fresh_bits(alloc, terms, 2)?;
    let originator = fresh_bits(alloc, terms, 33)?;
    let from = fresh_bits(alloc, terms, 33)?;
    Ok(Marks {
        origin,
        originator,
        from,
    })
}

/// A node for each value that is tracked.
#[derive(Drop)]
struct Sets {
    numbers: Bits,
    communities: Bits,
    clusters: Bits,
}

fn width(values: usize) -> u8 {
    values.min(200) as u8
}

fn fresh_sets(alloc: Global, terms: &mut Terms, tracked: &Tracked) -> Result<Sets, AllocError>
    ensures larger { size terms.old ≤ size terms.new }
    ensures within { IfOk result (λ r. max (ids_end r.numbers.nodes.items)
        (max (ids_end r.communities.nodes.items) (ids_end r.clusters.nodes.items)) ≤ size terms.new) }
{
    let numbers = fresh_bits(alloc, terms, width(tracked.numbers.as_slice().len()))?;
    let communities = fresh_bits(alloc, terms, width(tracked.communities.as_slice().len()))?;
    let clusters = fresh_bits(alloc, terms, width(tracked.clusters.as_slice().len()))?;
    Ok(Sets {
        numbers,
        communities,
        clusters,
    })
}

/// The words of a BGP route: weight, preference and MED; length, first and last number; next hop, clusters and one more.
#[derive(Drop)]
struct Parts {
    preferences: Words,
    path: Words,
    others: Words,
}

fn fresh_parts(alloc: Global, terms: &mut Terms) -> Result<Parts, AllocError>
    ensures larger { size terms.old ≤ size terms.new }
    ensures preferences { IfOk result (λ r. max (ids_end r.preferences.a.nodes.items)
        (max (ids_end r.preferences.b.nodes.items) (ids_end r.preferences.c.nodes.items)) ≤ size terms.new) }
    ensures path { IfOk result (λ r. max (ids_end r.path.a.nodes.items)
        (max (ids_end r.path.b.nodes.items) (ids_end r.path.c.nodes.items)) ≤ size terms.new) }
    ensures others { IfOk result (λ r. max (ids_end r.others.a.nodes.items)
        (max (ids_end r.others.b.nodes.items) (ids_end r.others.c.nodes.items)) ≤ size terms.new) }
{
    let preferences = fresh_words(alloc, terms)?;
    let path = fresh_words(alloc, terms)?;
    let others = fresh_words(alloc, terms)?;
    Ok(Parts {
        preferences,
        path,
        others,
    })
}

/// The route of these parts.
fn assembled(terms: &Terms, valid: NodeId, parts: Parts, marks: Marks, sets: Sets) -> SymBgp
    requires valid { valid.0 < size terms.now }
    requires preferences { max (ids_end parts.preferences.a.nodes.items)
        (max (ids_end parts.preferences.b.nodes.items) (ids_end parts.preferences.c.nodes.items)) ≤ size terms.now }
    requires path { max (ids_end parts.path.a.nodes.items)
        (max (ids_end parts.path.b.nodes.items) (ids_end parts.path.c.nodes.items)) ≤ size terms.now }
    requires others { max (ids_end parts.others.a.nodes.items)
        (max (ids_end parts.others.b.nodes.items) (ids_end parts.others.c.nodes.items)) ≤ size terms.now }
    requires marks { max (ids_end marks.origin.nodes.items)
        (max (ids_end marks.originator.nodes.items) (ids_end marks.from.nodes.items)) ≤ size terms.now }
    requires sets { max (ids_end sets.numbers.nodes.items)
        (max (ids_end sets.communities.nodes.items) (ids_end sets.clusters.nodes.items)) ≤ size terms.now }
    ensures within { bgp_end result ≤ size terms.now }
{
    let _size = terms.len();
    let Parts {
        preferences,
        path,
        others,
    } = parts;
    SymBgp {
        valid,
        weight: preferences.a,
        local_pref: preferences.b,
        origin: marks.origin,
        med: preferences.c,
        next_hop: others.a,
        originator: marks.originator,
        from: marks.from,
        len: path.a,
        first: path.b,
        last: path.c,
        numbers: sets.numbers,
        communities: sets.communities,
        cluster_len: others.b,
        clusters: sets.clusters,
    }
}

/// A BGP route: whether it is there; weight, preference and MED; length, first and last number of its path; next hop,
/// number of clusters and one word that is not read; origin, originator and peer; tracked numbers, communities and
/// clusters.
pub fn fresh_bgp(alloc: Global, terms: &mut Terms, tracked: &Tracked) -> Result<SymBgp, AllocError>
    ensures larger { size terms.old ≤ size terms.new }
    ensures within { IfOk result (λ r. bgp_end r ≤ size terms.new) }
{
    let valid = terms.fresh()?;
    let parts = fresh_parts(alloc, terms)?;
    let marks = fresh_marks(alloc, terms)?;
    let sets = fresh_sets(alloc, terms, tracked)?;
    Ok(assembled(terms, valid, parts, marks, sets))
}

fn fresh_rib(alloc: Global, terms: &mut Terms) -> Result<SymRib, AllocError>
    ensures larger { size terms.old ≤ size terms.new }
    ensures within { IfOk result (λ r. rib_end r ≤ size terms.new) }
{
    let valid = terms.fresh()?;
    let source = fresh_bits(alloc, terms, 3)?;
    let distance = fresh_bits(alloc, terms, 8)?;
    Ok(SymRib {
        valid,
        source,
        distance,
    })
}

/// A slot: the entry of the table, by whether it is there, its source and its distance; an OSPF route, and a BGP route.
pub fn fresh_slot(
    alloc: Global,
    terms: &mut Terms,
    tracked: &Tracked,
) -> Result<SymSlot, AllocError>
    ensures larger { size terms.old ≤ size terms.new }
    ensures within { IfOk result (λ r. slot_end r ≤ size terms.new) }
{
    let rib = fresh_rib(alloc, terms)?;
    let ospf = fresh_ospf(alloc, terms)?;
    let bgp = fresh_bgp(alloc, terms, tracked)?;
    Ok(SymSlot { ospf, bgp, rib })
}
