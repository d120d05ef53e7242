//! What a router sends of a symbolic route that it holds (RFC 4271, section 9.1.3; RFC 4456; RFC 1997).

ghost use Rattle.std.specs.Prelude.{◌≡◌, ◌==◌, ℕ, ◌+◌, ◌<◌, ◌≤◌, ◌&&◌, ◌||◌, Bool, false, not, if◌then◌else◌, Some};
ghost use Rattle.std.specs.Prelude.{None};
ghost use Rattle.std.specs.Prelude.{IfOk, length, max, slice_get};
ghost use Rattle.std.specs.Prelude.{Option as OptionOf};
ghost use Rattle.std.specs.Option.{option_and_then, option_map};
ghost use Rattle.route_record.specs.declared.BgpRec.{BgpRec as BgpRecOf};
ghost use Rattle.term_store.specs.Terms.{Reading, size, at};
ghost use Rattle.term_store.specs.Reading.{Reads, Builds, Gives};
ghost use Rattle.term_arith.specs.Bits.{bits, number, ids_end};
ghost use Rattle.net_interfaces.specs.Interfaces.{addressed};
ghost use Rattle.net_parts.specs.Exports as exports;
ghost use Rattle.net_parts.specs.Sessions.{ends_of};
ghost use Rattle.net_parts.specs.Tracked.{TracksNet};
ghost use Rattle.route_shapes.specs.Shapes.{marked, shape_passes_paths};
ghost use Rattle.bgp_shapes.specs.Crossings.{crossing, end_numbered};
ghost use Rattle.bgp_shapes.specs.Exporting as exporting;
ghost use Rattle.bgp_shapes.specs.Messages.{message_shape, seen_by_maps, shape_sets_metric};
ghost use Rattle.sym_policy.specs.Held.{bgp_at, bgp_end, bgp_of, StandsForBgp};
ghost use Rattle.sym_policy.specs.MapRecs.{HasTracked, map_rec_end};
ghost use Rattle.sym_policy.specs.Records.{prefix_of};
ghost use Rattle.sym_policy.specs.Routes.{path_at, path_end};
ghost use Rattle.sym_bgp.specs.Joined.{sent_of, shape_through};
ghost use Rattle.sym_bgp.specs.Ways.{crossing_at, crossing_end};

use crate::lists::{sym_passes_paths, sym_passes_prefixes};
use crate::messages::{sym_external, sym_internal};
use crate::metrics::sym_keeps_metric;
use crate::parts::SymCrossing;
use crate::routers::{Session, own_address, side_of};
use crate::through::{copied, nothing, sym_mapped};
use crate::ways::sym_crossing;
use ios_ast::Neighbour;
use mw_text::Addr;
use net_interfaces::Addressed;
use net_model::Net;
use net_parts::SessionEnd;
use net_parts::ends::{file_of, neighbour_of};
use net_parts::router_ids::router_id;
use route_record::Tracked;
use std::alloc::{AllocError, Global};
use sym_policy::{Grounds, SymBgp, path_of, sym_marked};
use term_arith::Bits;
use term_arith::gates::{both, constant_node, negate};
use term_store::{NodeId, Terms};

/// The well-known community of routes that go to no external peer (RFC 1997).
const NO_EXPORT: u32 = 4_294_967_041;

/// The well-known community of routes that go to no peer (RFC 1997).
const NO_ADVERTISE: u32 = 4_294_967_042;

// ---- whether the route goes

/// Whether no community keeps the route from external peers, where the session is external.
fn sym_may_leave(
    terms: &mut Terms,
    tracked: &Tracked,
    end: &SessionEnd,
    held: &SymBgp,
) -> Result<NodeId, AllocError>
    requires { bgp_end held.now ≤ size terms.old }
    ensures builds { Builds terms.old terms.new }
    ensures within { IfOk result (λ r. r.0 < size terms.new) }
    ensures value { Gives terms.new result (λ w r. at w r
        ≡ not (marked tracked.now.communities (bgp_at w held.now).communities exports.no_export
        && not end.now.internal)) }
{
    if end.internal {
        return constant_node(terms, true);
    }
    let communities = tracked.communities.as_slice();
    let kept = sym_marked(
        terms,
        communities,
        held.communities.nodes.as_slice(),
        NO_EXPORT,
    )?;
    negate(terms, kept)
}

/// Whether the route may go: no community forbids it, and the session over which it came does not.
fn sym_may_go(
    terms: &mut Terms,
    tracked: &Tracked,
    end: &SessionEnd,
    held: &SymBgp,
    x: &SymCrossing,
) -> Result<NodeId, AllocError>
    requires way { crossing_end x.now ≤ size terms.old }
    requires nodes { bgp_end held.now ≤ size terms.old }
    ensures builds { Builds terms.old terms.new }
    ensures within { IfOk result (λ r. r.0 < size terms.new) }
    ensures value { Gives terms.new result (λ w r. at w r
        ≡ exporting.shape_may_go tracked.now end.now (bgp_at w held.now) (crossing_at w x.now)) }
{
    let communities = tracked.communities.as_slice();
    let kept = sym_marked(
        terms,
        communities,
        held.communities.nodes.as_slice(),
        NO_ADVERTISE,
    )?;
    let told = negate(terms, kept)?;
    let leaves = sym_may_leave(terms, tracked, end, held)?;
    let goes = both(terms, leaves, x.may)?;
    let may = both(terms, told, goes)?;
    Ok(may)
}

/// Whether the outgoing lists of the neighbour permit the route.
#[tactic(auto, using(crate::proofs::Sent::path_steps))]
fn sym_passes_out(
    alloc: Global,
    terms: &mut Terms,
    by: &Grounds<'_>,
    neighbour: &Neighbour,
    held: &SymBgp,
) -> Result<NodeId, AllocError>
    requires long { by.now.len ≤ 32 }
    requires wide { length by.now.dst.now.nodes.items ≡ 32 }
    requires dst { ids_end by.now.dst.now.nodes.items ≤ size terms.old }
    requires nodes { bgp_end held.now ≤ size terms.old }
    ensures builds { Builds terms.old terms.new }
    ensures within { IfOk result (λ r. r.0 < size terms.new) }
    ensures value { Gives terms.new result (λ w r. at w r
        ≡ (exports.passes_prefixes by.now.policies.now neighbour.now.prefix_out (prefix_of w by.now.dst.now by.now.len)
        && shape_passes_paths by.now.tracked.now by.now.policies.now neighbour.now.filter_out
        (bgp_at w held.now).path)) }
{
    let path = path_of(alloc, held)?;
    let prefixes = sym_passes_prefixes(
        alloc,
        terms,
        by.policies,
        &neighbour.prefix_out,
        by.dst,
        by.len,
    )?;
    let paths = sym_passes_paths(terms, by.tracked, by.policies, &neighbour.filter_out, &path)?;
    let passes = both(terms, prefixes, paths)?;
    Ok(passes)
}

/// Whether the route goes over the session, by where it was learnt, its communities and the outgoing lists.
fn sym_goes(
    alloc: Global,
    terms: &mut Terms,
    by: &Grounds<'_>,
    neighbour: &Neighbour,
    end: &SessionEnd,
    held: &SymBgp,
    x: &SymCrossing,
) -> Result<NodeId, AllocError>
    requires long { by.now.len ≤ 32 }
    requires wide { length by.now.dst.now.nodes.items ≡ 32 }
    requires dst { ids_end by.now.dst.now.nodes.items ≤ size terms.old }
    requires way { crossing_end x.now ≤ size terms.old }
    requires nodes { bgp_end held.now ≤ size terms.old }
    ensures builds { Builds terms.old terms.new }
    ensures within { IfOk result (λ r. r.0 < size terms.new) }
    ensures value { Gives terms.new result (λ w r. at w r
        ≡ (exporting.shape_may_go by.now.tracked.now end.now (bgp_at w held.now) (crossing_at w x.now)
        && (exports.passes_prefixes by.now.policies.now neighbour.now.prefix_out (prefix_of w by.now.dst.now by.now.len)
        && shape_passes_paths by.now.tracked.now by.now.policies.now neighbour.now.filter_out
        (bgp_at w held.now).path))) }
{
    let may = sym_may_go(terms, by.tracked, end, held, x)?;
    let passes = sym_passes_out(alloc, terms, by, neighbour, held)?;
    let goes = both(terms, may, passes)?;
    Ok(goes)
}

// ---- export

/// The message of what the outgoing map has left. `keeps` says whether an external one carries the metric.
fn sym_message(
    alloc: Global,
    terms: &mut Terms,
    session: &Session<'_>,
    own: Addr,
    keeps: NodeId,
    x: &SymCrossing,
    left: &SymBgp,
) -> Result<SymBgp, AllocError>
    requires own { own ≡ exports.own_address session.now.files.now session.now.end.now }
    requires id { session.now.id ≡ exports.router_id session.now.files.now session.now.end.now.router }
    requires marks { HasTracked session.now.tracked.now left.now }
    requires keeps { keeps.0 < size terms.old }
    requires way { crossing_end x.now ≤ size terms.old }
    requires nodes { bgp_end left.now ≤ size terms.old }
    ensures builds { Builds terms.old terms.new }
    ensures within { IfOk result (λ r. bgp_end r ≤ size terms.new) }
    ensures marks { IfOk result (λ r. HasTracked session.now.tracked.now r) }
    ensures value { Gives terms.new result (λ w r. bgp_of w r ≡ option_map
        (sent_of session.now.tracked.now session.now.files.now session.now.process.now session.now.neighbour.now
        session.now.end.now (at w keeps) (crossing_at w x.now)) (bgp_of w left.now)) }
{
    if session.end.internal {
        sym_internal(
            alloc,
            terms,
            session.tracked,
            session.neighbour,
            own,
            session.id,
            x,
            left,
        )
    } else {
        sym_external(
            alloc,
            terms,
            session.tracked,
            session.process,
            session.neighbour,
            own,
            keeps,
            left,
        )
    }
}

/// Whether a message over the session carries the metric. Over an internal one this is not asked.
fn sym_keeps(
    alloc: Global,
    terms: &mut Terms,
    by: &Grounds<'_>,
    neighbour: &Neighbour,
    end: &SessionEnd,
    held: &SymBgp,
) -> Result<NodeId, AllocError>
    requires long { by.now.len ≤ 32 }
    requires wide { length by.now.dst.now.nodes.items ≡ 32 }
    requires dst { ids_end by.now.dst.now.nodes.items ≤ size terms.old }
    requires marks { HasTracked by.now.tracked.now held.now }
    requires nodes { bgp_end held.now ≤ size terms.old }
    ensures builds { Builds terms.old terms.new }
    ensures within { IfOk result (λ r. r.0 < size terms.new) }
    ensures value { Gives terms.new result (λ w r. end.now.internal ≡ false → at w r
        ≡ (((bgp_at w held.now).path.len == 0)
        || shape_sets_metric by.now.tracked.now by.now.policies.now neighbour.now.map_out
        (prefix_of w by.now.dst.now by.now.len) (seen_by_maps (bgp_at w held.now)))) }
{
    if end.internal {
        return constant_node(terms, false);
    }
    sym_keeps_metric(alloc, terms, by, &neighbour.map_out, held)
}

/// The message after the outgoing lists and the outgoing map, by how the route crosses the router.
fn sym_sent_by(
    alloc: Global,
    terms: &mut Terms,
    session: &Session<'_>,
    own: Addr,
    dst: &Bits,
    len: u8,
    held: &SymBgp,
    x: &SymCrossing,
) -> Result<SymBgp, AllocError>
    requires own { own ≡ exports.own_address session.now.files.now session.now.end.now }
    requires id { session.now.id ≡ exports.router_id session.now.files.now session.now.end.now.router }
    requires long { len ≤ 32 }
    requires wide { length dst.now.nodes.items ≡ 32 }
    requires dst { ids_end dst.now.nodes.items ≤ size terms.old }
    requires marks { HasTracked session.now.tracked.now held.now }
    requires way { crossing_end x.now ≤ size terms.old }
    requires nodes { bgp_end held.now ≤ size terms.old }
    ensures builds { Builds terms.old terms.new }
    ensures within { IfOk result (λ r. bgp_end r ≤ size terms.new) }
    ensures marks { IfOk result (λ r. HasTracked session.now.tracked.now r) }
    ensures value { Gives terms.new result (λ w r. bgp_of w r ≡ option_and_then
        (λ s. exporting.shape_sent_by session.now.tracked.now session.now.files.now session.now.file.now
        session.now.process.now session.now.neighbour.now session.now.end.now (prefix_of w dst.now len) s
        (crossing_at w x.now)) (bgp_of w held.now)) }
{
    let by = Grounds {
        policies: &session.file.policies,
        tracked: session.tracked,
        dst,
        len,
    };
    let neighbour = session.neighbour;
    let end = session.end;
    let goes = sym_goes(alloc, terms, &by, neighbour, end, held, x)?;
    let keeps = sym_keeps(alloc, terms, &by, neighbour, end, held)?;
    let left = left_out(alloc, terms, &by, neighbour, end, held, goes)?;
    let made = sym_message(alloc, terms, session, own, keeps, x, &left)?;
    Ok(made)
}

/// What the outgoing map leaves of a route that goes.
fn left_out(
    alloc: Global,
    terms: &mut Terms,
    by: &Grounds<'_>,
    neighbour: &Neighbour,
    end: &SessionEnd,
    held: &SymBgp,
    goes: NodeId,
) -> Result<SymBgp, AllocError>
    requires long { by.now.len ≤ 32 }
    requires wide { length by.now.dst.now.nodes.items ≡ 32 }
    requires dst { ids_end by.now.dst.now.nodes.items ≤ size terms.old }
    requires marks { HasTracked by.now.tracked.now held.now }
    requires goes { goes.0 < size terms.old }
    requires nodes { bgp_end held.now ≤ size terms.old }
    ensures builds { Builds terms.old terms.new }
    ensures within { IfOk result (λ r. bgp_end r ≤ size terms.new) }
    ensures marks { IfOk result (λ r. HasTracked by.now.tracked.now r) }
    ensures value { Gives terms.new result (λ w r. bgp_of w r ≡ option_and_then
        (shape_through by.now.tracked.now by.now.policies.now neighbour.now.map_out
        (prefix_of w by.now.dst.now by.now.len) (not end.now.internal))
        (if at w held.now.valid && at w goes then Some (bgp_at w held.now) else None)) }
{
    let there = both(terms, held.valid, goes)?;
    let before = copied(alloc, terms, by.tracked, there, held)?;
    let side = side_of(end);
    let used = &neighbour.map_out;
    let left = sym_mapped(alloc, terms, by, used, before, side)?;
    Ok(left)
}

/// The message after the outgoing lists and the outgoing map.
fn sym_sent(
    alloc: Global,
    terms: &mut Terms,
    session: &Session<'_>,
    addresses: &[Addressed],
    ends: &[SessionEnd],
    dst: &Bits,
    len: u8,
    held: &SymBgp,
) -> Result<SymBgp, AllocError>
    requires addresses { addresses.now ≡ addressed session.now.files.now }
    requires ends { ends.now ≡ ends_of session.now.files.now }
    requires id { session.now.id ≡ exports.router_id session.now.files.now session.now.end.now.router }
    requires long { len ≤ 32 }
    requires wide { length dst.now.nodes.items ≡ 32 }
    requires dst { ids_end dst.now.nodes.items ≤ size terms.old }
    requires marks { HasTracked session.now.tracked.now held.now }
    requires nodes { bgp_end held.now ≤ size terms.old }
    ensures builds { Builds terms.old terms.new }
    ensures within { IfOk result (λ r. bgp_end r ≤ size terms.new) }
    ensures marks { IfOk result (λ r. HasTracked session.now.tracked.now r) }
    ensures value { Gives terms.new result (λ w r. bgp_of w r ≡ option_and_then
        (exporting.shape_sent session.now.tracked.now session.now.files.now session.now.file.now session.now.process.now
        session.now.neighbour.now session.now.end.now (prefix_of w dst.now len)) (bgp_of w held.now)) }
{
    let own = own_address(session.files, addresses, session.end);
    let x = sym_crossing(alloc, terms, session, addresses, ends, &held.from)?;
    let made = sym_sent_by(alloc, terms, session, own, dst, len, held, &x)?;
    Ok(made)
}

/// What the router at an end sends over the session of a route that it holds. `id` is the router's identifier.
#[tactic(auto, using(crate::proofs::TakenIn::none_taken), unfolding(bgp_shapes::specs::Exporting::shape_exported))]
fn sym_exported(
    alloc: Global,
    terms: &mut Terms,
    net: &Net,
    end: &SessionEnd,
    id: Addr,
    dst: &Bits,
    len: u8,
    held: &SymBgp,
) -> Result<SymBgp, AllocError>
    requires id { id ≡ exports.router_id net.now.files end.now.router }
    requires long { len ≤ 32 }
    requires wide { length dst.now.nodes.items ≡ 32 }
    requires dst { ids_end dst.now.nodes.items ≤ size terms.old }
    requires marks { HasTracked net.now.tracked held.now }
    requires nodes { bgp_end held.now ≤ size terms.old }
    ensures builds { Builds terms.old terms.new }
    ensures within { IfOk result (λ r. bgp_end r ≤ size terms.new) }
    ensures marks { IfOk result (λ r. HasTracked net.now.tracked r) }
    ensures value { Gives terms.new result (λ w r. bgp_of w r
        ≡ option_and_then (exporting.shape_exported net.now.tracked net.now.files end.now (prefix_of w dst.now len))
        (bgp_of w held.now)) }
{
    let files = net.routers();
    let tracked = net.tracked();
    let Some(file) = file_of(files, end.router) else {
        return nothing(alloc, terms, tracked, held);
    };
    let (Some(process), Some(neighbour)) = (&file.bgp, neighbour_of(files, end)) else {
        return nothing(alloc, terms, tracked, held);
    };
    let session = Session {
        tracked,
        files,
        file,
        process,
        neighbour,
        end,
        id,
    };
    sym_sent(
        alloc,
        terms,
        &session,
        net.addresses(),
        net.ends(),
        dst,
        len,
        held,
    )
}

/// What the router at an end of the network sends of a route.
fn export_at(
    alloc: Global,
    terms: &mut Terms,
    net: &Net,
    end: u32,
    dst: &Bits,
    len: u8,
    held: &SymBgp,
) -> Result<SymBgp, AllocError>
    requires end { end < length (ends_of net.now.files) }
    requires long { len ≤ 32 }
    requires wide { length dst.now.nodes.items ≡ 32 }
    requires dst { ids_end dst.now.nodes.items ≤ size terms.old }
    requires marks { HasTracked net.now.tracked held.now }
    requires nodes { bgp_end held.now ≤ size terms.old }
    ensures builds { Builds terms.old terms.new }
    ensures within { IfOk result (λ r. bgp_end r ≤ size terms.new) }
    ensures marks { IfOk result (λ r. HasTracked net.now.tracked r) }
    ensures value { Gives terms.new result (λ w r. bgp_of w r ≡ option_and_then (λ s. option_and_then (λ at.
        exporting.shape_exported net.now.tracked net.now.files at (prefix_of w dst.now len) s)
        (slice_get (ends_of net.now.files) end)) (bgp_of w held.now)) }
    ensures tracks { TracksNet net.now.files net.now.tracked }
{
    let ends = net.ends();
    let at = ends[end as usize];
    let _tracked = net.tracked();
    let id = router_id(alloc, net.routers(), net.addresses(), at.router)?;
    sym_exported(alloc, terms, net, &at, id, dst, len, held)
}

/// What the router at an end sends over the session of the route that it holds for the prefix of that length of an
/// address, after the outgoing lists and the outgoing map of the neighbour (RFC 4271, section 9.1.3; RFC 4456; RFC
/// 1997). There is no message where it sends none: no route is held, a community or the session over which the route
/// came forbids it, a list denies it or the map drops it. `end` is a place in the network's ends. A message stands by
/// the route of its fields: without a weight and a peer, with 0 for a local preference or a metric that it does not
/// carry. The route is to have a node for each value that the network tracks; where it stands for a held one or for
/// none, the result stands for what is sent of it.
pub fn sym_export(
    alloc: Global,
    terms: &mut Terms,
    net: &Net,
    end: u32,
    dst: &Bits,
    len: u8,
    held: &SymBgp,
) -> Result<SymBgp, AllocError>
    requires end { end < length (ends_of net.now.files) }
    requires long { len ≤ 32 }
    requires wide { length dst.now.nodes.items ≡ 32 }
    requires dst { ids_end dst.now.nodes.items ≤ size terms.old }
    requires marks { HasTracked net.now.tracked held.now }
    requires nodes { bgp_end held.now ≤ size terms.old }
    ensures builds { Builds terms.old terms.new }
    ensures within { IfOk result (λ r. bgp_end r ≤ size terms.new) }
    ensures marks { IfOk result (λ r. HasTracked net.now.tracked r) }
    ensures value { Gives terms.new result (λ w r. bgp_of w r ≡ option_and_then (λ s. option_and_then (λ at.
        exporting.shape_exported net.now.tracked net.now.files at (prefix_of w dst.now len) s)
        (slice_get (ends_of net.now.files) end)) (bgp_of w held.now)) }
    ensures stands { Gives terms.new result (λ w r. (route : OptionOf BgpRecOf)
        → StandsForBgp w net.now.tracked held.now route
        → bgp_of w r ≡ option_map (message_shape net.now.tracked) (option_and_then (λ rec. option_and_then (λ at.
        exports.exported net.now.files at (prefix_of w dst.now len) rec) (slice_get (ends_of net.now.files) end))
        route)) }
{
    let made = export_at(alloc, terms, net, end, dst, len, held)?;
    Ok(made)
}
