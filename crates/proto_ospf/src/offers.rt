//! OSPF routes as they are offered and preferred (RFC 2328, section 16.4).

ghost use Rattle.std.specs.Prelude.{◌≡◌, ◌<◌, ◌≤◌, ◌+◌, ◌^◌, Some};
ghost use Rattle.net_parts.specs.OspfRoutes as routes;

use route_record::{OspfKind, OspfRec};

fn rank(kind: OspfKind) -> u8
    ensures { result ≡ routes.kind_rank kind }
{
    match kind {
        OspfKind::Internal => 0,
        OspfKind::Ext1 => 1,
        OspfKind::Ext2 => 2,
    }
}

fn is_type2(kind: OspfKind) -> bool
    ensures { result ≡ routes.is_type2 kind }
{
    matches!(kind, OspfKind::Ext2)
}

fn is_better(a: &OspfRec, b: &OspfRec) -> bool
    ensures { result ≡ routes.is_better a.now b.now }
{
    let by_metric = is_type2(a.kind) && a.metric < b.metric;
    let by_cost = (!is_type2(a.kind) || a.metric == b.metric) && a.cost < b.cost;
    rank(a.kind) < rank(b.kind) || (rank(a.kind) == rank(b.kind) && (by_metric || by_cost))
}

/// Whether the first route is at least as good as the second: internal before type 1 before type 2; of two of type 2 by
/// the metric and then by the cost, else by the cost (RFC 2328, section 16.4).
pub fn prefer(a: &OspfRec, b: &OspfRec) -> bool
    ensures { result ≡ routes.is_as_good a.now b.now }
{
    !is_better(b, a)
}

/// The better of the best route so far and a further one, and the former where both are as good.
pub fn better_of(best: Option<OspfRec>, next: OspfRec) -> Option<OspfRec>
    ensures { result ≡ routes.better_of best next }
{
    match best {
        None => Some(next),
        Some(held) => {
            if is_better(&next, &held) {
                Some(next)
            } else {
                Some(held)
            }
        }
    }
}

/// The first of the best offers. None exactly where there is no offer.
pub fn first_best(offers: &[OspfRec]) -> Option<OspfRec>
    ensures { result ≡ routes.first_best offers.now }
{
    offers
        .iter()
        .fold(None, |best, next| better_of(best, *next))
}

/// A route as it is offered over an adjacency: the far router's, which costs more by the output cost of the receiving
/// interface (RFC 2328, section 16.1). None exactly where the sum is 2^32 or more.
pub fn offer(rec: &OspfRec, cost: u32) -> Option<OspfRec>
    ensures { result ≡ routes.extended cost rec.now }
{
    match rec.cost.checked_add(cost) {
        None => None,
        Some(cost) => Some(OspfRec { cost, ..*rec }),
    }
}

/// A route as it is offered over an adjacency of that cost, where the sum is below 2^32.
pub fn transfer(rec: &OspfRec, cost: u32) -> OspfRec
    requires in_range { (0 < cost) × (cost ≤ 65535) }
    requires fits { rec.now.cost + cost < 2 ^ 32 }
    ensures { routes.extended cost rec.now ≡ Some result }
{
    OspfRec {
        cost: rec.cost + cost,
        ..*rec
    }
}
