//! What arrives over a session, as terms: the announcement of an external peer, or what the far router exports.

ghost use Rattle.std.specs.Prelude.{◌≡◌, ◌<◌, ◌≤◌, ◌*◌, ◌+◌, ℕ, All, Bool, false, true, IfOk, IfSome, length, map, max, None, Some, slice_get};
ghost use Rattle.std.specs.Prelude.{option_copied};
ghost use Rattle.std.specs.Option.{option_and_then, option_map};
ghost use Rattle.term_store.specs.Terms.{Reading, size, at as node_at};
ghost use Rattle.term_store.specs.Reading.{Builds, Gives, Reads};
ghost use Rattle.term_arith.specs.Bits.{bits, ids_end, number};
ghost use Rattle.mw_text.specs.declared.address.Prefix.{Prefix as PrefixOf};
ghost use Rattle.route_shapes.specs.Shapes.{PathShape};
ghost use Rattle.net_parts.specs.Sessions.{ends_of, is_outside};
ghost use Rattle.bgp_shapes.specs.Candidates.{shape_arriving};
ghost use Rattle.bgp_shapes.specs.Exporting.{shape_exported};
ghost use Rattle.bgp_shapes.specs.Importing.{shape_imported};
ghost use Rattle.announced_places.specs.Announced.{Ascend};
ghost use Rattle.sym_policy.specs.Held.{bgp_at, bgp_end, bgp_of};
ghost use Rattle.sym_policy.specs.Records.{prefix_of};
ghost use Rattle.sym_policy.specs.Routes.{path_at, path_end, preferences_at, preferences_end, rest_end, route_at};
ghost use Rattle.sym_policy.specs.Routes.{route_end, HasRows, IsBare};
ghost use Rattle.sym_policy.specs.MapRecs.{HasTracked};
ghost use Rattle.sym_rib.specs.Slots.{slot_end};
ghost use Rattle.sym_rib.specs.Worlds.{slot_placed, slots_end};
ghost use Rattle.bgp_equations.specs.Environments.{environment_read, env_end, FitsNet, HasLists, message_of};
ghost use Rattle.bgp_equations.specs.Equations.{HaveTracked, slots_read};

use crate::environment::{announcement_at, external_number, item};
use crate::routing::Routing;
use ios_ast::Neighbour;
use mw_text::Addr;
use net_model::{Far, SessionEnd};
use net_parts::ends::neighbour_of;
use route_record::Tracked;
use std::alloc::{AllocError, Global};
use sym_bgp::{sym_export, sym_import};
use sym_policy::{
    SymBgp, SymMapRec, SymPath, SymPreferences, SymRest, SymRoute, bare_rest, joined, path_of,
};
use sym_rib::{no_bgp, slot_for};
use term_arith::gates::constant_node;
use term_arith::{constant, copy};
use term_store::Terms;

// ---- the announcement of an external peer

/// No weight and no local preference, and the metric and the origin of an announcement.
fn announced_preferences(
    alloc: Global,
    terms: &mut Terms,
    rec: &SymBgp,
) -> Result<SymPreferences, AllocError>
    requires { bgp_end rec.now ≤ size terms.old }
    ensures builds { Builds terms.old terms.new }
    ensures within { IfOk result (λ r. preferences_end r ≤ size terms.new) }
    ensures value { Gives terms.new result (λ w r. preferences_at w r ≡ record {
      weight = 0;
      local_pref = 0;
      med = (bgp_at w rec.now).preferences.med;
      origin = (bgp_at w rec.now).preferences.origin;
    }) }
{
    let weight = constant(alloc, terms, 0, 32)?;
    let local_pref = constant(alloc, terms, 0, 32)?;
    let med = copy(alloc, &rec.med)?;
    let origin = copy(alloc, &rec.origin)?;
    Ok(SymPreferences {
        weight,
        local_pref,
        med,
        origin,
    })
}

/// What route maps see of an announcement.
#[tactic(auto, using(sym_bgp::proofs::Sent::path_steps))]
fn announced_seen(
    alloc: Global,
    terms: &mut Terms,
    tracked: &Tracked,
    rec: &SymBgp,
) -> Result<SymRoute, AllocError>
    requires lists { HasLists tracked.now rec.now }
    requires nodes { bgp_end rec.now ≤ size terms.old }
    ensures builds { Builds terms.old terms.new }
    ensures within { IfOk result (λ r. route_end r ≤ size terms.new) }
    ensures rows { IfOk result (λ r. HasRows tracked.now r) }
    ensures value { Gives terms.new result (λ w r. route_at w r ≡ record {
      preferences = record {
        weight = 0;
        local_pref = 0;
        med = (bgp_at w rec.now).preferences.med;
        origin = (bgp_at w rec.now).preferences.origin;
      };
      path = (bgp_at w rec.now).path;
      communities = (bgp_at w rec.now).communities;
      type1 = false;
    }) }
{
    let type1 = constant_node(terms, false)?;
    let communities = copy(alloc, &rec.communities)?;
    let path = path_of(alloc, rec)?;
    let preferences = announced_preferences(alloc, terms, rec)?;
    Ok(SymRoute {
        preferences,
        path,
        communities,
        type1,
    })
}

/// The address of the peer as next hop, and neither originator, peer nor clusters.
fn announced_rest(
    alloc: Global,
    terms: &mut Terms,
    tracked: &Tracked,
    peer: Addr,
) -> Result<SymRest, AllocError>
    ensures builds { Builds terms.old terms.new }
    ensures within { IfOk result (λ r. rest_end r ≤ size terms.new) }
    ensures rows { IfOk result (λ r. length r.clusters.nodes.items ≡ length tracked.now.clusters) }
    ensures value { Gives terms.new result (λ w r. IsBare w tracked.now peer.0 r) }
{
    let hop = constant(alloc, terms, u64::from(peer.0), 32)?;
    let rest = bare_rest(alloc, terms, tracked, hop)?;
    Ok(rest)
}

/// What an external peer at that address announces, as a message.
#[tactic(auto, using(crate::proofs::Arriving::message_steps))]
fn announced_message(
    alloc: Global,
    terms: &mut Terms,
    tracked: &Tracked,
    peer: Addr,
    rec: &SymBgp,
) -> Result<SymBgp, AllocError>
    requires lists { HasLists tracked.now rec.now }
    requires nodes { bgp_end rec.now ≤ size terms.old }
    ensures builds { Builds terms.old terms.new }
    ensures within { IfOk result (λ r. bgp_end r ≤ size terms.new) }
    ensures marks { IfOk result (λ r. HasTracked tracked.now r) }
    ensures value { Gives terms.new result (λ w r. bgp_of w r
        ≡ option_map (message_of tracked.now peer) (bgp_of w rec.now)) }
{
    let route = announced_seen(alloc, terms, tracked, rec)?;
    let rest = announced_rest(alloc, terms, tracked, peer)?;
    let made = joined(rec.valid, route, rest);
    let SymMapRec { bgp, .. } = made;
    Ok(bgp)
}

/// No message.
fn nothing(alloc: Global, terms: &mut Terms, tracked: &Tracked) -> Result<SymBgp, AllocError>
    ensures builds { Builds terms.old terms.new }
    ensures within { IfOk result (λ r. bgp_end r ≤ size terms.new) }
    ensures marks { IfOk result (λ r. HasTracked tracked.now r) }
    ensures value { Gives terms.new result (λ w r. bgp_of w r ≡ None) }
{
    let none = no_bgp(alloc, terms, tracked)?;
    Ok(none)
}

/// The message of the peer of a neighbour line, if there is one, of what is announced, if it is known.
fn of_peer(
    alloc: Global,
    terms: &mut Terms,
    tracked: &Tracked,
    neighbour: Option<&Neighbour>,
    rec: Option<&SymBgp>,
) -> Result<SymBgp, AllocError>
    requires lists { IfSome rec (λ s. HasLists tracked.now s.now) }
    requires nodes { IfSome rec (λ s. bgp_end s.now ≤ size terms.old) }
    ensures builds { Builds terms.old terms.new }
    ensures within { IfOk result (λ r. bgp_end r ≤ size terms.new) }
    ensures marks { IfOk result (λ r. HasTracked tracked.now r) }
    ensures value { Gives terms.new result (λ w r. bgp_of w r
        ≡ option_and_then (λ n. option_map (message_of tracked.now n.addr)
        (option_and_then (bgp_of w) (option_copied rec.entry))) (option_copied neighbour.entry)) }
{
    match neighbour {
        None => nothing(alloc, terms, tracked),
        Some(line) => match rec {
            None => nothing(alloc, terms, tracked),
            Some(one) => announced_message(alloc, terms, tracked, line.addr, one),
        },
    }
}

/// The message that arrives at a length from the external peer of the end at that place.
fn outer_message(
    alloc: Global,
    terms: &mut Terms,
    routing: &Routing<'_>,
    at: u32,
    end: &SessionEnd,
) -> Result<SymBgp, AllocError>
    requires there { slice_get (ends_of routing.now.net.now.files) at ≡ Some end.now }
    requires outer { is_outside end.now.far ≡ true }
    requires ascend { Ascend routing.now.tables.now.lens.now }
    requires fits { FitsNet routing.now.net.now.files routing.now.net.now.tracked routing.now.tables.now.lens.now
        routing.now.env.now }
    requires nodes { env_end routing.now.env.now ≤ size terms.old }
    ensures builds { Builds terms.old terms.new }
    ensures within { IfOk result (λ r. bgp_end r ≤ size terms.new) }
    ensures marks { IfOk result (λ r. HasTracked routing.now.net.now.tracked r) }
    ensures value { Gives terms.new result (λ w r. (p : PrefixOf) → p.len ≡ routing.now.len → bgp_of w r
        ≡ shape_arriving routing.now.net.now.tracked routing.now.net.now.files
        (environment_read w routing.now.net.now.files routing.now.tables.now.lens.now routing.now.env.now)
        (slots_read w routing.now.tables.now routing.now.len) p at end.now) }
{
    let k = external_number(routing.net.ends(), at);
    let rec = announcement_at(routing.env, routing.tables.lens, k, routing.len);
    let neighbour = neighbour_of(routing.net.routers(), end);
    of_peer(alloc, terms, routing.net.tracked(), neighbour, rec)
}

// ---- what the far router exports

/// What the router of an end that stands at that place exports over its session.
#[tactic(auto, using(std::proofs::lemmas::Option::slice_get_within))]
fn exported(
    alloc: Global,
    terms: &mut Terms,
    routing: &Routing<'_>,
    far_at: u32,
    far: &SessionEnd,
) -> Result<SymBgp, AllocError>
    requires there { slice_get (ends_of routing.now.net.now.files) far_at ≡ Some far.now }
    requires long { routing.now.len ≤ 32 }
    requires wide { length routing.now.dst.now.nodes.items ≡ 32 }
    requires dst { ids_end routing.now.dst.now.nodes.items ≤ size terms.old }
    requires rows { HaveTracked routing.now.net.now.tracked routing.now.tables.now.slots.now }
    requires slots { slots_end routing.now.tables.now.slots.now ≤ size terms.old }
    ensures builds { Builds terms.old terms.new }
    ensures within { IfOk result (λ r. bgp_end r ≤ size terms.new) }
    ensures marks { IfOk result (λ r. HasTracked routing.now.net.now.tracked r) }
    ensures value { Gives terms.new result (λ w r. bgp_of w r
        ≡ option_and_then (shape_exported routing.now.net.now.tracked routing.now.net.now.files far.now
        (prefix_of w routing.now.dst.now routing.now.len))
        (option_and_then (λ slot. slot.bgp) (slots_read w routing.now.tables.now routing.now.len far.now.router))) }
{
    match slot_for(routing.tables, far.router, routing.len) {
        None => nothing(alloc, terms, routing.net.tracked()),
        Some(slot) => sym_export(
            alloc,
            terms,
            routing.net,
            far_at,
            routing.dst,
            routing.len,
            &slot.bgp,
        ),
    }
}

/// The message that arrives from the end of another router at that place.
fn inner_message(
    alloc: Global,
    terms: &mut Terms,
    routing: &Routing<'_>,
    far_at: u32,
) -> Result<SymBgp, AllocError>
    requires long { routing.now.len ≤ 32 }
    requires wide { length routing.now.dst.now.nodes.items ≡ 32 }
    requires dst { ids_end routing.now.dst.now.nodes.items ≤ size terms.old }
    requires rows { HaveTracked routing.now.net.now.tracked routing.now.tables.now.slots.now }
    requires slots { slots_end routing.now.tables.now.slots.now ≤ size terms.old }
    ensures builds { Builds terms.old terms.new }
    ensures within { IfOk result (λ r. bgp_end r ≤ size terms.new) }
    ensures marks { IfOk result (λ r. HasTracked routing.now.net.now.tracked r) }
    ensures value { Gives terms.new result (λ w r. bgp_of w r ≡ option_and_then (λ far.
        option_and_then (shape_exported routing.now.net.now.tracked routing.now.net.now.files far
        (prefix_of w routing.now.dst.now routing.now.len))
        (option_and_then (λ slot. slot.bgp) (slots_read w routing.now.tables.now routing.now.len far.router)))
        (slice_get (ends_of routing.now.net.now.files) far_at)) }
{
    match item(routing.net.ends(), far_at) {
        None => nothing(alloc, terms, routing.net.tracked()),
        Some(far) => exported(alloc, terms, routing, far_at, far),
    }
}

// ---- both

/// The message that arrives over the session of the end at that place.
#[tactic(auto, unfolding(bgp_shapes::specs::Candidates::shape_arriving))]
fn message(
    alloc: Global,
    terms: &mut Terms,
    routing: &Routing<'_>,
    at: u32,
    end: &SessionEnd,
) -> Result<SymBgp, AllocError>
    requires there { slice_get (ends_of routing.now.net.now.files) at ≡ Some end.now }
    requires long { routing.now.len ≤ 32 }
    requires wide { length routing.now.dst.now.nodes.items ≡ 32 }
    requires dst { ids_end routing.now.dst.now.nodes.items ≤ size terms.old }
    requires ascend { Ascend routing.now.tables.now.lens.now }
    requires fits { FitsNet routing.now.net.now.files routing.now.net.now.tracked routing.now.tables.now.lens.now
        routing.now.env.now }
    requires nodes { env_end routing.now.env.now ≤ size terms.old }
    requires rows { HaveTracked routing.now.net.now.tracked routing.now.tables.now.slots.now }
    requires slots { slots_end routing.now.tables.now.slots.now ≤ size terms.old }
    ensures builds { Builds terms.old terms.new }
    ensures within { IfOk result (λ r. bgp_end r ≤ size terms.new) }
    ensures marks { IfOk result (λ r. HasTracked routing.now.net.now.tracked r) }
    ensures value { Gives terms.new result (λ w r. bgp_of w r
        ≡ shape_arriving routing.now.net.now.tracked routing.now.net.now.files
        (environment_read w routing.now.net.now.files routing.now.tables.now.lens.now routing.now.env.now)
        (slots_read w routing.now.tables.now routing.now.len) (prefix_of w routing.now.dst.now routing.now.len)
        at end.now) }
{
    match end.far {
        Far::Outside => outer_message(alloc, terms, routing, at, end),
        Far::Inside(far_at) => inner_message(alloc, terms, routing, far_at),
    }
}

/// What the router makes of the message that arrives over the session of its end at that place.
pub(crate) fn arrived(
    alloc: Global,
    terms: &mut Terms,
    routing: &Routing<'_>,
    at: u32,
    end: &SessionEnd,
) -> Result<SymBgp, AllocError>
    requires there { slice_get (ends_of routing.now.net.now.files) at ≡ Some end.now }
    requires long { routing.now.len ≤ 32 }
    requires wide { length routing.now.dst.now.nodes.items ≡ 32 }
    requires dst { ids_end routing.now.dst.now.nodes.items ≤ size terms.old }
    requires ascend { Ascend routing.now.tables.now.lens.now }
    requires fits { FitsNet routing.now.net.now.files routing.now.net.now.tracked routing.now.tables.now.lens.now
        routing.now.env.now }
    requires nodes { env_end routing.now.env.now ≤ size terms.old }
    requires rows { HaveTracked routing.now.net.now.tracked routing.now.tables.now.slots.now }
    requires slots { slots_end routing.now.tables.now.slots.now ≤ size terms.old }
    ensures builds { Builds terms.old terms.new }
    ensures within { IfOk result (λ r. bgp_end r ≤ size terms.new) }
    ensures marks { IfOk result (λ r. HasTracked routing.now.net.now.tracked r) }
    ensures value { Gives terms.new result (λ w r. bgp_of w r
        ≡ option_and_then (shape_imported routing.now.net.now.tracked routing.now.net.now.files end.now
        (prefix_of w routing.now.dst.now routing.now.len))
        (shape_arriving routing.now.net.now.tracked routing.now.net.now.files
        (environment_read w routing.now.net.now.files routing.now.tables.now.lens.now routing.now.env.now)
        (slots_read w routing.now.tables.now routing.now.len) (prefix_of w routing.now.dst.now routing.now.len)
        at end.now)) }
{
    let sent = message(alloc, terms, routing, at, end)?;
    let taken = sym_import(
        alloc,
        terms,
        routing.net,
        at,
        routing.dst,
        routing.len,
        &sent,
    )?;
    Ok(taken)
}
