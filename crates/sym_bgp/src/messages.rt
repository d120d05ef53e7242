//! What a router sends of a symbolic route as the outgoing map leaves it (RFC 4271, section 5.1; RFC 4456, section 8).

ghost use Rattle.std.specs.Prelude.{◌≡◌, ◌==◌, ℕ, ◌+◌, ◌^◌, ◌<◌, ◌≤◌, ◌&&◌, Bool, true, false, not, if◌then◌else◌};
ghost use Rattle.std.specs.Prelude.{nat_lt};
ghost use Rattle.std.specs.Prelude.{[], ◌∷◌, ◌++◌, IfOk, length, map, max};
ghost use Rattle.std.specs.Option.{option_map};
ghost use Rattle.term_store.specs.Terms.{Reading, size, at};
ghost use Rattle.term_store.specs.Reading.{Reads, Builds, Gives};
ghost use Rattle.term_arith.specs.Bits.{bits, number, ids_end};
ghost use Rattle.route_record.specs.Shape.{saturated};
ghost use Rattle.net_parts.specs.Tracked.{numbers_of};
ghost use Rattle.route_shapes.specs.Shapes.{marks_with, shape_prepended};
ghost use Rattle.bgp_shapes.specs.Exporting as exporting;
ghost use Rattle.bgp_shapes.specs.Messages.{lacks_address, seen_by_maps};
ghost use Rattle.sym_policy.specs.Held.{bgp_at, bgp_end, bgp_of};
ghost use Rattle.sym_policy.specs.Routes.{path_at, path_end, preferences_at, preferences_end, rest_end, route_at};
ghost use Rattle.sym_policy.specs.Routes.{route_end};
ghost use Rattle.sym_policy.specs.Routes.{HasRows, IsBare};
ghost use Rattle.sym_policy.specs.MapRecs.{HasTracked};
ghost use Rattle.sym_bgp.specs.Joined.{rest_at, rest_sent, with_rest};
ghost use Rattle.sym_bgp.specs.Ways.{crossing_at, crossing_end};

use crate::candidates::lacks;
use crate::lists::numbers_of as cluster_numbers;
use crate::parts::SymCrossing;
use ios_ast::{Bgp, Neighbour};
use mw_text::Addr;
use route_record::Tracked;
use std::alloc::{AllocError, Global};
use sym_policy::{
    SymBgp, SymMapRec, SymPath, SymPreferences, SymRest, SymRoute, bare_rest, joined, path_of,
    sym_longer, sym_marks_with, sym_prepended,
};
use term_arith::gates::{both, constant_node, negate};
use term_arith::{Bits, choose, constant, copy};
use term_store::{NodeId, Terms};

/// The communities that are sent: with `send-community` alone.
fn sym_sent_marks(
    alloc: Global,
    terms: &mut Terms,
    tracked: &Tracked,
    neighbour: &Neighbour,
    marks: &Bits,
) -> Result<Bits, AllocError>
    requires rows { length marks.now.nodes.items ≡ length tracked.now.communities }
    requires nodes { ids_end marks.now.nodes.items ≤ size terms.old }
    ensures builds { Builds terms.old terms.new }
    ensures within { IfOk result (λ r. ids_end r.nodes.items ≤ size terms.new) }
    ensures rows { IfOk result (λ r. length r.nodes.items ≡ length tracked.now.communities) }
    ensures value { Gives terms.new result (λ w r. bits w r.nodes.items
        ≡ exporting.sent_marks tracked.now neighbour.now (bits w marks.now.nodes.items)) }
{
    if neighbour.send_community {
        return copy(alloc, marks);
    }
    let communities = tracked.communities.as_slice();
    let nodes = sym_marks_with(
        alloc,
        terms,
        communities,
        &[],
        false,
        marks.nodes.as_slice(),
    )?;
    Ok(Bits { nodes: nodes.items })
}

// ---- over an external session

/// The metric where it is kept, else 0.
fn kept_metric(
    alloc: Global,
    terms: &mut Terms,
    keeps: NodeId,
    med: &Bits,
) -> Result<Bits, AllocError>
    requires wide { length med.now.nodes.items ≡ 32 }
    requires keeps { keeps.0 < size terms.old }
    requires med { ids_end med.now.nodes.items ≤ size terms.old }
    ensures builds { Builds terms.old terms.new }
    ensures within { IfOk result (λ r. ids_end r.nodes.items ≤ size terms.new) }
    ensures wide { IfOk result (λ r. length r.nodes.items ≡ 32) }
    ensures value { Gives terms.new result (λ w r. number w r.nodes.items
        ≡ (if at w keeps then number w med.now.nodes.items else 0)) }
{
    let none = constant(alloc, terms, 0, 32)?;
    choose(alloc, terms, keeps, med, &none)
}

/// No weight and no local preference, the metric where it is kept, and the origin.
fn external_preferences(
    alloc: Global,
    terms: &mut Terms,
    keeps: NodeId,
    left: &SymBgp,
) -> Result<SymPreferences, AllocError>
    requires keeps { keeps.0 < size terms.old }
    requires nodes { bgp_end left.now ≤ size terms.old }
    ensures builds { Builds terms.old terms.new }
    ensures within { IfOk result (λ r. preferences_end r ≤ size terms.new) }
    ensures value { Gives terms.new result (λ w r. preferences_at w r ≡ record {
      weight = 0;
      local_pref = 0;
      med = if at w keeps then (bgp_at w left.now).preferences.med else 0;
      origin = (bgp_at w left.now).preferences.origin;
    }) }
{
    let weight = constant(alloc, terms, 0, 32)?;
    let local_pref = constant(alloc, terms, 0, 32)?;
    let med = kept_metric(alloc, terms, keeps, &left.med)?;
    let origin = copy(alloc, &left.origin)?;
    Ok(SymPreferences {
        weight,
        local_pref,
        med,
        origin,
    })
}

/// The path with the own AS in front.
#[tactic(auto, using(crate::proofs::Sent::path_steps))]
fn external_path(
    alloc: Global,
    terms: &mut Terms,
    tracked: &Tracked,
    process: &Bgp,
    left: &SymBgp,
) -> Result<SymPath, AllocError>
    requires marks { HasTracked tracked.now left.now }
    requires nodes { bgp_end left.now ≤ size terms.old }
    ensures builds { Builds terms.old terms.new }
    ensures within { IfOk result (λ r. path_end r ≤ size terms.new) }
    ensures rows { IfOk result (λ r. length r.numbers.nodes.items ≡ length tracked.now.numbers) }
    ensures value { Gives terms.new result (λ w r. path_at w r
        ≡ shape_prepended tracked.now.numbers (process.now.asn ∷ []) (bgp_at w left.now).path) }
{
    let path = path_of(alloc, left)?;
    let numbers = tracked.numbers.as_slice();
    let longer = sym_prepended(alloc, terms, numbers, &[process.asn], &path)?;
    Ok(longer)
}

/// What route maps see of the message over an external session.
fn external_seen(
    alloc: Global,
    terms: &mut Terms,
    tracked: &Tracked,
    process: &Bgp,
    neighbour: &Neighbour,
    keeps: NodeId,
    left: &SymBgp,
) -> Result<SymRoute, AllocError>
    requires marks { HasTracked tracked.now left.now }
    requires keeps { keeps.0 < size terms.old }
    requires nodes { bgp_end left.now ≤ size terms.old }
    ensures builds { Builds terms.old terms.new }
    ensures within { IfOk result (λ r. route_end r ≤ size terms.new) }
    ensures rows { IfOk result (λ r. HasRows tracked.now r) }
    ensures value { Gives terms.new result (λ w r. route_at w r ≡ record {
      preferences = record {
        weight = 0;
        local_pref = 0;
        med = if at w keeps then (bgp_at w left.now).preferences.med else 0;
        origin = (bgp_at w left.now).preferences.origin;
      };
      path = shape_prepended tracked.now.numbers (process.now.asn ∷ []) (bgp_at w left.now).path;
      communities = exporting.sent_marks tracked.now neighbour.now (bgp_at w left.now).communities;
      type1 = false;
    }) }
{
    let type1 = constant_node(terms, false)?;
    let communities = sym_sent_marks(alloc, terms, tracked, neighbour, &left.communities)?;
    let path = external_path(alloc, terms, tracked, process, left)?;
    let preferences = external_preferences(alloc, terms, keeps, left)?;
    Ok(SymRoute {
        preferences,
        path,
        communities,
        type1,
    })
}

/// The own address as next hop, and neither originator, peer nor clusters.
fn external_rest(
    alloc: Global,
    terms: &mut Terms,
    tracked: &Tracked,
    own: Addr,
) -> Result<SymRest, AllocError>
    ensures builds { Builds terms.old terms.new }
    ensures within { IfOk result (λ r. rest_end r ≤ size terms.new) }
    ensures rows { IfOk result (λ r. length r.clusters.nodes.items ≡ length tracked.now.clusters) }
    ensures value { Gives terms.new result (λ w r. IsBare w tracked.now own.0 r) }
{
    let hop = constant(alloc, terms, u64::from(own.0), 32)?;
    let rest = bare_rest(alloc, terms, tracked, hop)?;
    Ok(rest)
}

/// The message over an external session: the own AS in front of the path, the own address as next hop, and the metric
/// where it is kept.
#[tactic(auto, using(crate::proofs::Sent::external_steps))]
pub(crate) fn sym_external(
    alloc: Global,
    terms: &mut Terms,
    tracked: &Tracked,
    process: &Bgp,
    neighbour: &Neighbour,
    own: Addr,
    keeps: NodeId,
    left: &SymBgp,
) -> Result<SymBgp, AllocError>
    requires marks { HasTracked tracked.now left.now }
    requires keeps { keeps.0 < size terms.old }
    requires nodes { bgp_end left.now ≤ size terms.old }
    ensures builds { Builds terms.old terms.new }
    ensures within { IfOk result (λ r. bgp_end r ≤ size terms.new) }
    ensures marks { IfOk result (λ r. HasTracked tracked.now r) }
    ensures value { Gives terms.new result (λ w r. bgp_of w r ≡ option_map
        (λ t. exporting.external_shape tracked.now process.now neighbour.now own (at w keeps) (seen_by_maps t))
        (bgp_of w left.now)) }
{
    let route = external_seen(alloc, terms, tracked, process, neighbour, keeps, left)?;
    let rest = external_rest(alloc, terms, tracked, own)?;
    let rec = joined(left.valid, route, rest);
    let SymMapRec { bgp, .. } = rec;
    Ok(bgp)
}

// ---- over an internal session

/// No weight, and the rest as the map leaves it.
fn internal_preferences(
    alloc: Global,
    terms: &mut Terms,
    left: &SymBgp,
) -> Result<SymPreferences, AllocError>
    requires { bgp_end left.now ≤ size terms.old }
    ensures builds { Builds terms.old terms.new }
    ensures within { IfOk result (λ r. preferences_end r ≤ size terms.new) }
    ensures value { Gives terms.new result (λ w r. preferences_at w r
        ≡ record (bgp_at w left.now).preferences { weight = 0 }) }
{
    let weight = constant(alloc, terms, 0, 32)?;
    let local_pref = copy(alloc, &left.local_pref)?;
    let med = copy(alloc, &left.med)?;
    let origin = copy(alloc, &left.origin)?;
    Ok(SymPreferences {
        weight,
        local_pref,
        med,
        origin,
    })
}

/// What route maps see of the message over an internal session.
#[tactic(auto, using(crate::proofs::Sent::path_steps))]
fn internal_seen(
    alloc: Global,
    terms: &mut Terms,
    tracked: &Tracked,
    neighbour: &Neighbour,
    left: &SymBgp,
) -> Result<SymRoute, AllocError>
    requires marks { HasTracked tracked.now left.now }
    requires nodes { bgp_end left.now ≤ size terms.old }
    ensures builds { Builds terms.old terms.new }
    ensures within { IfOk result (λ r. route_end r ≤ size terms.new) }
    ensures rows { IfOk result (λ r. HasRows tracked.now r) }
    ensures value { Gives terms.new result (λ w r. route_at w r ≡ record {
      preferences = record (bgp_at w left.now).preferences { weight = 0 };
      path = (bgp_at w left.now).path;
      communities = exporting.sent_marks tracked.now neighbour.now (bgp_at w left.now).communities;
      type1 = false;
    }) }
{
    let path = path_of(alloc, left)?;
    let type1 = constant_node(terms, false)?;
    let communities = sym_sent_marks(alloc, terms, tracked, neighbour, &left.communities)?;
    let preferences = internal_preferences(alloc, terms, left)?;
    Ok(SymRoute {
        preferences,
        path,
        communities,
        type1,
    })
}

/// The own address where it is taken as next hop, else the route's.
fn sent_hop(
    alloc: Global,
    terms: &mut Terms,
    own: Addr,
    x: &SymCrossing,
    hop: &Bits,
) -> Result<Bits, AllocError>
    requires wide { length hop.now.nodes.items ≡ 32 }
    requires way { crossing_end x.now ≤ size terms.old }
    requires hop { ids_end hop.now.nodes.items ≤ size terms.old }
    ensures builds { Builds terms.old terms.new }
    ensures within { IfOk result (λ r. ids_end r.nodes.items ≤ size terms.new) }
    ensures wide { IfOk result (λ r. length r.nodes.items ≡ 32) }
    ensures value { Gives terms.new result (λ w r. number w r.nodes.items
        ≡ (if (crossing_at w x.now).own_hop then own.0 else number w hop.now.nodes.items)) }
{
    let address = constant(alloc, terms, u64::from(own.0), 32)?;
    choose(alloc, terms, x.own_hop, &address, hop)
}

/// The number of an address of which the bits are known.
#[tactic(auto, using(crate::proofs::Sent::numbered_steps))]
fn numbered_bits(alloc: Global, terms: &mut Terms, address: &Bits) -> Result<Bits, AllocError>
    requires wide { length address.now.nodes.items ≡ 32 }
    requires nodes { ids_end address.now.nodes.items ≤ size terms.old }
    ensures builds { Builds terms.old terms.new }
    ensures within { IfOk result (λ r. ids_end r.nodes.items ≤ size terms.new) }
    ensures wide { IfOk result (λ r. length r.nodes.items ≡ 33) }
    ensures value { Gives terms.new result (λ w r. number w r.nodes.items
        ≡ 2 ^ 32 + number w address.now.nodes.items) }
{
    let there = constant_node(terms, true)?;
    let mut nodes = copy(alloc, address)?.nodes;
    nodes.push(there)?;
    Ok(Bits { nodes })
}

/// The originator: where the route is reflected and has none, the peer from which it came.
fn sent_originator(
    alloc: Global,
    terms: &mut Terms,
    x: &SymCrossing,
    originator: &Bits,
) -> Result<Bits, AllocError>
    requires wide { length originator.now.nodes.items ≡ 33 }
    requires way { crossing_end x.now ≤ size terms.old }
    requires nodes { ids_end originator.now.nodes.items ≤ size terms.old }
    ensures builds { Builds terms.old terms.new }
    ensures within { IfOk result (λ r. ids_end r.nodes.items ≤ size terms.new) }
    ensures wide { IfOk result (λ r. length r.nodes.items ≡ 33) }
    ensures value { Gives terms.new result (λ w r. number w r.nodes.items
        ≡ (if (crossing_at w x.now).reflected && lacks_address (number w originator.now.nodes.items)
        then 2 ^ 32 + (crossing_at w x.now).peer else number w originator.now.nodes.items)) }
{
    let peer = numbered_bits(alloc, terms, &x.peer)?;
    let none = lacks(alloc, terms, originator)?;
    let takes = both(terms, x.reflected, none)?;
    let made = choose(alloc, terms, takes, &peer, originator)?;
    Ok(made)
}

/// How many clusters there are: one more where the route is reflected.
fn sent_count(
    alloc: Global,
    terms: &mut Terms,
    x: &SymCrossing,
    count: &Bits,
) -> Result<Bits, AllocError>
    requires wide { length count.now.nodes.items ≡ 32 }
    requires way { crossing_end x.now ≤ size terms.old }
    requires nodes { ids_end count.now.nodes.items ≤ size terms.old }
    ensures builds { Builds terms.old terms.new }
    ensures within { IfOk result (λ r. ids_end r.nodes.items ≤ size terms.new) }
    ensures wide { IfOk result (λ r. length r.nodes.items ≡ 32) }
    ensures value { Gives terms.new result (λ w r. number w r.nodes.items
        ≡ (if (crossing_at w x.now).reflected then saturated (number w count.now.nodes.items + 1)
        else number w count.now.nodes.items)) }
{
    let more = sym_longer(alloc, terms, count, 1)?;
    let made = choose(alloc, terms, x.reflected, &more, count)?;
    Ok(made)
}

/// The marks of the clusters with the own one in front.
fn own_cluster_marked(
    alloc: Global,
    terms: &mut Terms,
    tracked: &Tracked,
    id: Addr,
    marks: &Bits,
) -> Result<Bits, AllocError>
    requires rows { length marks.now.nodes.items ≡ length tracked.now.clusters }
    requires nodes { ids_end marks.now.nodes.items ≤ size terms.old }
    ensures builds { Builds terms.old terms.new }
    ensures within { IfOk result (λ r. ids_end r.nodes.items ≤ size terms.new) }
    ensures rows { IfOk result (λ r. length r.nodes.items ≡ length tracked.now.clusters) }
    ensures value { Gives terms.new result (λ w r. bits w r.nodes.items
        ≡ marks_with (numbers_of tracked.now.clusters) (id.0 ∷ []) true (bits w marks.now.nodes.items)) }
{
    let numbers = cluster_numbers(alloc, tracked.clusters.as_slice())?;
    let marks = marks.nodes.as_slice();
    let nodes = sym_marks_with(alloc, terms, numbers.as_slice(), &[id.0], true, marks)?;
    Ok(Bits { nodes: nodes.items })
}

/// The marks of the clusters: with the own one in front where the route is reflected.
fn sent_clusters(
    alloc: Global,
    terms: &mut Terms,
    tracked: &Tracked,
    id: Addr,
    x: &SymCrossing,
    marks: &Bits,
) -> Result<Bits, AllocError>
    requires rows { length marks.now.nodes.items ≡ length tracked.now.clusters }
    requires way { crossing_end x.now ≤ size terms.old }
    requires nodes { ids_end marks.now.nodes.items ≤ size terms.old }
    ensures builds { Builds terms.old terms.new }
    ensures within { IfOk result (λ r. ids_end r.nodes.items ≤ size terms.new) }
    ensures rows { IfOk result (λ r. length r.nodes.items ≡ length tracked.now.clusters) }
    ensures value { Gives terms.new result (λ w r. bits w r.nodes.items
        ≡ (if (crossing_at w x.now).reflected
        then marks_with (numbers_of tracked.now.clusters) (id.0 ∷ []) true (bits w marks.now.nodes.items)
        else bits w marks.now.nodes.items)) }
{
    let own = own_cluster_marked(alloc, terms, tracked, id, marks)?;
    let made = choose(alloc, terms, x.reflected, &own, marks)?;
    Ok(made)
}

/// What route maps never set of the message over an internal session.
fn internal_rest(
    alloc: Global,
    terms: &mut Terms,
    tracked: &Tracked,
    own: Addr,
    id: Addr,
    x: &SymCrossing,
    left: &SymBgp,
) -> Result<SymRest, AllocError>
    requires marks { HasTracked tracked.now left.now }
    requires way { crossing_end x.now ≤ size terms.old }
    requires nodes { bgp_end left.now ≤ size terms.old }
    ensures builds { Builds terms.old terms.new }
    ensures within { IfOk result (λ r. rest_end r ≤ size terms.new) }
    ensures rows { IfOk result (λ r. length r.clusters.nodes.items ≡ length tracked.now.clusters) }
    ensures value { Gives terms.new result (λ w r. rest_at w r
        ≡ rest_sent tracked.now own.0 id.0 (crossing_at w x.now) (bgp_at w left.now)) }
{
    let next_hop = sent_hop(alloc, terms, own, x, &left.next_hop)?;
    let originator = sent_originator(alloc, terms, x, &left.originator)?;
    let from = constant(alloc, terms, 0, 33)?;
    let cluster_len = sent_count(alloc, terms, x, &left.cluster_len)?;
    let clusters = sent_clusters(alloc, terms, tracked, id, x, &left.clusters)?;
    Ok(SymRest {
        next_hop,
        originator,
        from,
        cluster_len,
        clusters,
    })
}

/// The message over an internal session: path, local preference and metric stay as the map leaves them; a route that is
/// reflected gets an originator, where it has none, and the own cluster in front of its clusters. `id` is the router's
/// identifier.
#[tactic(auto, using(crate::proofs::Sent::internal_steps))]
pub(crate) fn sym_internal(
    alloc: Global,
    terms: &mut Terms,
    tracked: &Tracked,
    neighbour: &Neighbour,
    own: Addr,
    id: Addr,
    x: &SymCrossing,
    left: &SymBgp,
) -> Result<SymBgp, AllocError>
    requires marks { HasTracked tracked.now left.now }
    requires way { crossing_end x.now ≤ size terms.old }
    requires nodes { bgp_end left.now ≤ size terms.old }
    ensures builds { Builds terms.old terms.new }
    ensures within { IfOk result (λ r. bgp_end r ≤ size terms.new) }
    ensures marks { IfOk result (λ r. HasTracked tracked.now r) }
    ensures value { Gives terms.new result (λ w r. bgp_of w r ≡ option_map
        (λ t. exporting.internal_shape tracked.now neighbour.now own id t (crossing_at w x.now) (seen_by_maps t))
        (bgp_of w left.now)) }
{
    let route = internal_seen(alloc, terms, tracked, neighbour, left)?;
    let rest = internal_rest(alloc, terms, tracked, own, id, x, left)?;
    let rec = joined(left.valid, route, rest);
    let SymMapRec { bgp, .. } = rec;
    Ok(bgp)
}
