//! The steps of the decision process (RFC 4271, section 9.1.2.2; RFC 4456, section 9; Cisco IOS, best path selection).

ghost use Rattle.std.specs.Prelude.{◌≡◌, ◌==◌, ◌&&◌, ◌||◌, length, nat_lt, not};
ghost use Rattle.net_parts.specs.Decisions as decisions;
ghost use Rattle.route_record.specs.Origins.{origin_code};
ghost use Rattle.ios_ast.specs.Paths.{first_of};
ghost use Rattle.proto_bgp.specs.Steps.{key, seen};

use crate::decision::Candidate;
use mw_text::Addr;
use net_model::Step;
use route_record::{Learnt, Origin};

/// The code of an origin (RFC 4271, section 5.1.1).
fn code_of(origin: Origin) -> u8
    ensures { result ≡ origin_code origin }
{
    match origin {
        Origin::Igp => 0,
        Origin::Egp => 1,
        Origin::Incomplete => 2,
    }
}

fn is_local(from: Learnt) -> bool
    ensures { result ≡ decisions.is_local from }
{
    matches!(from, Learnt::Local)
}

/// The address of the peer, 0.0.0.0 of a local route.
fn peer_address(from: Learnt) -> Addr
    ensures { result ≡ decisions.peer_address from }
{
    match from {
        Learnt::Local => Addr(0),
        Learnt::Peer(a) => a,
    }
}

/// The first number of a path, 0 where it is empty.
fn first_number(path: &[u32]) -> u32
    ensures { result ≡ first_of path.now }
{
    path.first().copied().unwrap_or(0)
}

/// The originator of a reflected route, and else the identifier of its peer.
fn identifier(c: &Candidate) -> Addr
    ensures { result ≡ decisions.identifier (seen c.now) }
{
    c.rec.originator.unwrap_or(c.peer_id)
}

fn by_weight(c: &Candidate, other: &Candidate) -> bool
    ensures { result ≡ nat_lt c.now.rec.weight other.now.rec.weight }
{
    c.rec.weight < other.rec.weight
}

fn by_preference(c: &Candidate, other: &Candidate) -> bool
    ensures { result ≡ nat_lt c.now.rec.local_pref other.now.rec.local_pref }
{
    c.rec.local_pref < other.rec.local_pref
}

fn by_origination(c: &Candidate, other: &Candidate) -> bool
    ensures { result ≡ (not (key c.now).local && (key other.now).local) }
{
    !is_local(c.rec.from) && is_local(other.rec.from)
}

fn by_path(c: &Candidate, other: &Candidate) -> bool
    ensures { result ≡ nat_lt (length other.now.rec.path) (length c.now.rec.path) }
{
    other.rec.path.items.len() < c.rec.path.items.len()
}

fn by_origin(c: &Candidate, other: &Candidate) -> bool
    ensures { result ≡ nat_lt (origin_code other.now.rec.origin) (origin_code c.now.rec.origin) }
{
    code_of(other.rec.origin) < code_of(c.rec.origin)
}

/// Whether the neighbouring AS of both, the first of the path, is the same.
fn same_neighbour(c: &Candidate, other: &Candidate) -> bool
    ensures { result ≡ (first_of c.now.rec.path == first_of other.now.rec.path) }
{
    first_number(c.rec.path.as_slice()) == first_number(other.rec.path.as_slice())
}

fn by_med(always: bool, c: &Candidate, other: &Candidate) -> bool
    ensures { result ≡ ((always || (first_of c.now.rec.path == first_of other.now.rec.path)) && nat_lt other.now.rec.med c.now.rec.med) }
{
    (always || same_neighbour(c, other)) && other.rec.med < c.rec.med
}

fn by_session(c: &Candidate, other: &Candidate) -> bool
    ensures { result ≡ (not c.now.external && other.now.external) }
{
    !c.external && other.external
}

fn by_cost(c: &Candidate, other: &Candidate) -> bool
    ensures { result ≡ nat_lt other.now.cost c.now.cost }
{
    other.cost < c.cost
}

fn by_identifier(c: &Candidate, other: &Candidate) -> bool
    ensures { result ≡ nat_lt (key other.now).id (key c.now).id }
{
    identifier(other).0 < identifier(c).0
}

fn by_clusters(c: &Candidate, other: &Candidate) -> bool
    ensures { result ≡ nat_lt (length other.now.rec.clusters) (length c.now.rec.clusters) }
{
    other.rec.clusters.items.len() < c.rec.clusters.items.len()
}

fn by_address(c: &Candidate, other: &Candidate) -> bool
    ensures { result ≡ nat_lt (key other.now).address (key c.now).address }
{
    peer_address(other.rec.from).0 < peer_address(c.rec.from).0
}

/// Whether `other` removes `c` in that step. With `always` the MED is compared across neighbouring AS numbers.
pub fn removes(always: bool, step: Step, c: &Candidate, other: &Candidate) -> bool
    ensures { result ≡ decisions.removes always step (key c.now) (key other.now) }
{
    match step {
        Step::Weight => by_weight(c, other),
        Step::Preference => by_preference(c, other),
        Step::Origination => by_origination(c, other),
        Step::PathLength => by_path(c, other),
        Step::Origin => by_origin(c, other),
        Step::Med => by_med(always, c, other),
        Step::Session => by_session(c, other),
        Step::Cost => by_cost(c, other),
        Step::Identifier => by_identifier(c, other),
        Step::Clusters => by_clusters(c, other),
        Step::Address => by_address(c, other),
    }
}
