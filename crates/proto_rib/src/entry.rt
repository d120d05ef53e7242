//! The entry of a router's table for one prefix, from all sources (RFC 1812, section 5.2.4).

ghost use Rattle.std.specs.Prelude.{◌≡◌, ◌∷◌, [], None, fold, map, option_and_then, option_map, if◌then◌else◌};
ghost use Rattle.std.specs.Option.{option_to_list};
ghost use Rattle.net_parts.specs.Entries as entries;
ghost use Rattle.net_parts.specs.Exports as exports;
ghost use Rattle.net_parts.specs.Routing as routing;
ghost use Rattle.proto_rib.specs.Taken.{entry_at};

use crate::tables::closer_of;
use ios_ast::{File, StaticRoute, Via};
use mw_text::Prefix;
use net_model::Net;
use route_record::{BgpRec, Failures, RibEntry, RibSource, Slot};

// Whether a static route counts: it goes to Null0 or its next hop is on the subnet of an interface that is up, and its
// distance is not 255.
fn counts(net: &Net, failures: &Failures, router: u32, route: &StaticRoute) -> bool
    ensures { result ≡ routing.counts (routing.up_interfaces net.now.files failures.now router) route.now }
{
    route.distance != 255
        && match &route.via {
            Via::Null0 => true,
            Via::Next(a) => net.is_reached(failures, router, *a),
            Via::Out(_, a) => net.is_reached(failures, router, *a),
        }
}

// The candidate of a connected subnet.
fn connected(net: &Net, failures: &Failures, router: u32, p: &Prefix) -> Option<RibEntry>
    ensures { result ≡ fold routing.closer None (if routing.is_direct (routing.up_interfaces net.now.files failures.now router) p.now
        then record { source = RibSource.Connected; distance = 0 } ∷ [] else []) }
{
    if net.is_direct(failures, router, p) {
        Some(RibEntry {
            source: RibSource::Connected,
            distance: 0,
        })
    } else {
        None
    }
}

// The best of an entry and those of the static routes to the prefix.
fn best_static(
    net: &Net,
    failures: &Failures,
    router: u32,
    statics: &[StaticRoute],
    p: &Prefix,
    first: Option<RibEntry>,
) -> Option<RibEntry>
    ensures { result ≡ fold routing.closer first (map (λ route. record { source = RibSource.Static; distance = route.distance })
        (routing.static_routes (routing.up_interfaces net.now.files failures.now router) statics.now p.now)) }
{
    let mut best = first;
    for route in statics {
        if route.prefix == *p && counts(net, failures, router, route) {
            let entry = RibEntry {
                source: RibSource::Static,
                distance: route.distance,
            };
            best = closer_of(best, entry);
        }
    }
    best
}

// The candidate of a held BGP route that was learnt.
fn bgp_entry(net: &Net, router: u32, held: &Option<BgpRec>) -> Option<RibEntry>
    ensures { result ≡ option_and_then (λ h. option_map (λ end.
        if end.internal then record { source = RibSource.Ibgp; distance = 200 } else record { source = RibSource.Ebgp; distance = 20 })
        (exports.learnt_over net.now.files router h.from)) held.now }
{
    let rec = held.as_ref()?;
    let end = net.learnt_over(router, rec.from)?;
    if end.internal {
        Some(RibEntry {
            source: RibSource::Ibgp,
            distance: 200,
        })
    } else {
        Some(RibEntry {
            source: RibSource::Ebgp,
            distance: 20,
        })
    }
}

// The candidate of a held OSPF record, where no own origin is as good.
fn ospf_entry(own: bool, slot: &Slot) -> Option<RibEntry>
    ensures { result ≡ entries.ospf_entry own slot.now }
{
    if own || slot.ospf.is_none() {
        return None;
    }
    Some(RibEntry {
        source: RibSource::Ospf,
        distance: 110,
    })
}

// The closer of an entry and another, where there is one.
fn closer_to(best: Option<RibEntry>, other: Option<RibEntry>) -> Option<RibEntry>
    ensures { result ≡ fold routing.closer best (option_to_list other) }
{
    match other {
        None => best,
        Some(entry) => closer_of(best, entry),
    }
}

#[tactic(auto, using(crate::proofs::Entries::in_turn), unfolding(net_parts::specs::Entries::entry_with))]
fn entry_of(
    net: &Net,
    failures: &Failures,
    router: u32,
    file: &File,
    p: &Prefix,
    slot: &Slot,
    own: bool,
) -> Option<RibEntry>
    ensures { result ≡ entries.entry_with net.now.files failures.now router file.now p.now slot.now own }
{
    let direct = connected(net, failures, router, p);
    let best = best_static(net, failures, router, file.statics.as_slice(), p, direct);
    let best = closer_to(best, bgp_entry(net, router, &slot.bgp));
    closer_to(best, ospf_entry(own, slot))
}

/// The entry of a router's table for the prefix: the candidate of least administrative distance among its connected and
/// static routes, the held BGP route and the held OSPF record, the latter only where no own origin is as good (`own_ospf`).
/// Equal distances go to the first of connected, static, external BGP, OSPF and internal BGP.
pub fn best_entry(
    net: &Net,
    failures: &Failures,
    router: u32,
    p: &Prefix,
    slot: &Slot,
    own_ospf: bool,
) -> Option<RibEntry>
    ensures { result ≡ entry_at net.now.files failures.now router p.now slot.now own_ospf }
{
    match net.routers().get(router as usize) {
        None => None,
        Some(file) => entry_of(net, failures, router, file, p, slot, own_ospf),
    }
}
