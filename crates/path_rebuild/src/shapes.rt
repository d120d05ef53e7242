//! Whether a route has a shape.

ghost use Rattle.std.specs.Prelude.{◌≡◌, ◌≤◌, ◌%◌, ◌^◌, ◌==◌, ◌&&◌};
ghost use Rattle.route_record.specs.Origins.{origin_code};
ghost use Rattle.route_shapes.specs.Bgp as routes;
ghost use Rattle.bgp_shapes.specs.Held.{same_shape};
ghost use Rattle.path_rebuild.specs.Shapes as shapes;

use crate::ShapeRec;
use mw_text::Addr;
use route_record::{BgpRec, Learnt, MOST_TRACKED, Origin, Shape, Tracked, shape};

// The positions of a set that are below a count.
fn kept(set: u128, count: usize) -> u128
    requires { count ≤ MOST_TRACKED }
    ensures { result ≡ set % 2 ^ count }
{
    if count == MOST_TRACKED {
        set
    } else {
        set % (1u128 << count)
    }
}

fn same_set(a: u128, b: u128, count: usize) -> bool
    requires { count ≤ MOST_TRACKED }
    ensures { result ≡ (a == b % 2 ^ count) }
{
    a == kept(b, count)
}

fn origin_number(origin: Origin) -> u8
    ensures { result ≡ origin_code origin }
{
    match origin {
        Origin::Igp => 0,
        Origin::Egp => 1,
        Origin::Incomplete => 2,
    }
}

fn address_number(a: &Option<Addr>) -> u64
    ensures { result ≡ routes.address_number a.now }
{
    match a {
        None => 0,
        Some(a) => 4_294_967_296 + u64::from(a.0),
    }
}

fn learnt_number(from: &Learnt) -> u64
    ensures { result ≡ routes.learnt_number from.now }
{
    match from {
        Learnt::Local => 0,
        Learnt::Peer(a) => 4_294_967_296 + u64::from(a.0),
    }
}

fn same_numbers(rec: &BgpRec, known: &BgpRec) -> bool
    ensures { result ≡ shapes.same_numbers rec.now known.now }
{
    (rec.weight == known.weight && rec.local_pref == known.local_pref)
        && (rec.med == known.med && origin_number(rec.origin) == origin_number(known.origin))
}

fn same_path_sets(tracked: &Tracked, own: &Shape, known: &Shape) -> bool
    requires { shapes.AreFew tracked.now }
    ensures { result ≡ shapes.same_path_sets tracked.now own.now known.now }
{
    (own.len == known.len && own.first == known.first)
        && (own.last == known.last
            && same_set(own.numbers, known.numbers, tracked.numbers.as_slice().len()))
}

fn same_addresses(rec: &BgpRec, known: &BgpRec) -> bool
    ensures { result ≡ shapes.same_addresses rec.now known.now }
{
    rec.next_hop.0 == known.next_hop.0
        && address_number(&rec.originator) == address_number(&known.originator)
}

fn same_peer_lists(rec: &BgpRec, known: &BgpRec, own: &Shape, other: &Shape) -> bool
    ensures { result ≡ shapes.same_peer_lists rec.now known.now own.now other.now }
{
    learnt_number(&rec.from) == learnt_number(&known.from) && own.cluster_len == other.cluster_len
}

fn same_sets(tracked: &Tracked, own: &Shape, known: &Shape) -> bool
    requires { shapes.AreFew tracked.now }
    ensures { result ≡ shapes.same_sets tracked.now own.now known.now }
{
    same_set(
        own.communities,
        known.communities,
        tracked.communities.as_slice().len(),
    ) && same_set(
        own.clusters,
        known.clusters,
        tracked.clusters.as_slice().len(),
    )
}

fn same_rest(tracked: &Tracked, rec: &BgpRec, own: &Shape, known: &ShapeRec) -> bool
    requires { shapes.AreFew tracked.now }
    ensures { result ≡ ((shapes.same_addresses rec.now known.now.rec
        && shapes.same_peer_lists rec.now known.now.rec own.now known.now.shape)
        && shapes.same_sets tracked.now own.now known.now.shape) }
{
    (same_addresses(rec, &known.rec) && same_peer_lists(rec, &known.rec, own, &known.shape))
        && same_sets(tracked, own, &known.shape)
}

fn is_known(tracked: &Tracked, rec: &BgpRec, own: &Shape, known: &ShapeRec) -> bool
    requires { shapes.AreFew tracked.now }
    ensures { result ≡ shapes.same_known tracked.now rec.now own.now known.now }
{
    (same_numbers(rec, &known.rec) && same_path_sets(tracked, own, &known.shape))
        && same_rest(tracked, rec, own, known)
}

/// Whether a route has the plain fields and the shape.
#[tactic(auto, using(crate::proofs::Sets::known_shape))]
pub fn has_shape(tracked: &Tracked, rec: &BgpRec, known: &ShapeRec) -> bool
    requires { shapes.AreFew tracked.now }
    ensures { result ≡ same_shape (routes.bgp_shape tracked.now rec.now) (shapes.route_of tracked.now known.now) }
{
    let own = shape(rec, tracked);
    is_known(tracked, rec, &own, known)
}
