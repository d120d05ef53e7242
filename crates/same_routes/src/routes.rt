//! Whether two BGP routes are the same.

ghost use Rattle.std.specs.Prelude.{◌≡◌, ◌==◌, nat_eq};
ghost use Rattle.std.specs.Cmp.Lexicographic.{pointwise};
ghost use Rattle.route_record.specs.Origins.{origin_code};
ghost use Rattle.same_routes.specs.Same as same;

use mw_text::Addr;
use route_record::{BgpRec, Learnt, Origin};

fn same_learnt(a: Learnt, b: Learnt) -> bool
    ensures { result ≡ same.same_learnt a b }
{
    match (a, b) {
        (Learnt::Local, Learnt::Local) => true,
        (Learnt::Peer(a), Learnt::Peer(b)) => a.0 == b.0,
        _ => false,
    }
}

fn same_id(a: Option<Addr>, b: Option<Addr>) -> bool
    ensures { result ≡ same.same_id a b }
{
    match (a, b) {
        (None, None) => true,
        (Some(a), Some(b)) => a.0 == b.0,
        _ => false,
    }
}

fn same_origin(a: Origin, b: Origin) -> bool
    ensures { result ≡ (origin_code a == origin_code b) }
{
    match (a, b) {
        (Origin::Igp, Origin::Igp) => true,
        (Origin::Egp, Origin::Egp) => true,
        (Origin::Incomplete, Origin::Incomplete) => true,
        _ => false,
    }
}

fn same_values(a: &[u32], b: &[u32]) -> bool
    ensures { result ≡ pointwise nat_eq a.now b.now }
{
    a == b
}

fn same_addresses(a: &[Addr], b: &[Addr]) -> bool
    ensures { result ≡ pointwise same.same_address a.now b.now }
{
    a == b
}

fn same_lists(a: &BgpRec, b: &BgpRec) -> bool
    ensures { result ≡ same.same_lists a.now b.now }
{
    same_values(a.path.as_slice(), b.path.as_slice())
        && same_values(a.communities.as_slice(), b.communities.as_slice())
        && same_addresses(a.clusters.as_slice(), b.clusters.as_slice())
}

fn same_numbers(a: &BgpRec, b: &BgpRec) -> bool
    ensures { result ≡ same.same_numbers a.now b.now }
{
    a.weight == b.weight && a.local_pref == b.local_pref && a.med == b.med
}

fn same_sources(a: &BgpRec, b: &BgpRec) -> bool
    ensures { result ≡ same.same_sources a.now b.now }
{
    same_learnt(a.from, b.from)
        && same_origin(a.origin, b.origin)
        && a.next_hop.0 == b.next_hop.0
        && same_id(a.originator, b.originator)
}

/// Whether the two routes are the same in all fields.
#[tactic(auto, unfolding(crate::specs::Same::same_rec))]
pub fn same_route(a: &BgpRec, b: &BgpRec) -> bool
    ensures { result ≡ same.same_rec a.now b.now }
{
    same_lists(a, b) && same_numbers(a, b) && same_sources(a, b)
}
