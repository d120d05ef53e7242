//! The OSPF route that a router holds by what it has heard: the first best of its own origins and the offers (RFC 2328,
//! section 16.4).

ghost use Rattle.std.specs.Prelude.{◌≡◌, Some, slice_get};
ghost use Rattle.net_parts.specs.Ospf as ospf;
ghost use Rattle.net_parts.specs.OspfRoutes as routes;
ghost use Rattle.route_candidates.specs.Heard.{heard_in};
ghost use Rattle.route_candidates.specs.Underlays.{IsUnderlay};

use crate::underlay::{Underlay, is_adjacency_up};
use net_model::{Adjacency, Net};
use proto_ospf::{better_of, first_best, offer};
use route_record::{Failures, OspfRec};

// Whether the router receives over the adjacency at that place.
fn receives(
    net: &Net,
    failures: &Failures,
    underlay: &Underlay,
    router: u32,
    at: usize,
    a: &Adjacency,
) -> bool
    requires underlay { IsUnderlay net.now.files failures.now underlay.now }
    requires is { slice_get (ospf.adjacencies net.now.files) at ≡ Some a.now }
    ensures { result ≡ ospf.receives net.now.files failures.now router a.now }
{
    a.from.router == router && is_adjacency_up(net, failures, underlay, at, a)
}

// What was heard over the adjacency at that place, as an offer.
fn offer_heard(heard: &[Option<OspfRec>], at: usize, a: &Adjacency) -> Option<OspfRec>
    ensures { result ≡ routes.offer_heard (heard_in heard.now) (at, a.now) }
{
    let rec = heard.get(at)?.as_ref()?;
    offer(rec, a.cost)
}

/// The OSPF record that a router holds by its own origins and by what was last heard over each adjacency of the
/// network, by its place: the first best of the origins and of what it heard over its own adjacencies that are up, with
/// their costs added. Over an adjacency past the list nothing was heard. None where there is neither.
pub fn held_from(
    net: &Net,
    failures: &Failures,
    underlay: &Underlay,
    router: u32,
    origins: &[OspfRec],
    heard: &[Option<OspfRec>],
) -> Option<OspfRec>
    requires underlay { IsUnderlay net.now.files failures.now underlay.now }
    ensures { result ≡ routes.held_from net.now.files failures.now (heard_in heard.now) router origins.now }
{
    let mut best = first_best(origins);
    for (at, a) in net.adjacencies().iter().enumerate() {
        if receives(net, failures, underlay, router, at, a) {
            if let Some(offered) = offer_heard(heard, at, a) {
                best = better_of(best, offered);
            }
        }
    }
    best
}
