//! What a router makes of a symbolic message that it receives (RFC 4271, section 9.1.1; RFC 4456, section 8).

ghost use Rattle.std.specs.Prelude.{◌≡◌, ◌==◌, ℕ, ◌+◌, ◌^◌, ◌<◌, ◌≤◌, Bool, false, not, ◌&&◌, if◌then◌else◌, nat_le};
ghost use Rattle.std.specs.Prelude.{Some, None, IfOk, length, map, max, slice_get};
ghost use Rattle.std.specs.Prelude.{Option as OptionOf};
ghost use Rattle.std.specs.Option.{option_and_then, option_map};
ghost use Rattle.route_record.specs.declared.BgpMsg.{BgpMsg as BgpMsgOf};
ghost use Rattle.term_store.specs.Terms.{Reading, size, at};
ghost use Rattle.term_store.specs.Reading.{Reads, Builds, Gives};
ghost use Rattle.term_arith.specs.Bits.{bits, number, ids_end};
ghost use Rattle.net_parts.specs.Exports as exports;
ghost use Rattle.net_parts.specs.Sessions.{ends_of};
ghost use Rattle.net_parts.specs.Tracked.{TracksNet};
ghost use Rattle.net_parts.specs.Tracked.{numbers_of};
ghost use Rattle.route_shapes.specs.Shapes.{marked, shape_passes_paths};
ghost use Rattle.bgp_shapes.specs.Importing as importing;
ghost use Rattle.bgp_shapes.specs.Messages.{message_shape, seen_by_maps};
ghost use Rattle.sym_policy.specs.Held.{bgp_at, bgp_end, bgp_of, StandsForBgp};
ghost use Rattle.sym_policy.specs.MapRecs.{HasTracked, map_rec_end};
ghost use Rattle.sym_policy.specs.Records.{prefix_of};
ghost use Rattle.sym_policy.specs.Routes.{path_at, path_end, preferences_at, preferences_end, rest_end, route_at};
ghost use Rattle.sym_policy.specs.Routes.{route_end};
ghost use Rattle.sym_policy.specs.Routes.{HasRows};
ghost use Rattle.sym_bgp.specs.Joined.{rest_at, rest_of_shape, with_rest};

use crate::lists::{sym_has_cluster, sym_passes_paths, sym_passes_prefixes};
use crate::routers::{Session, is_reflector, numbered, side_of};
use crate::through::{nothing, sym_mapped};
use ios_ast::{Bgp, Neighbour};
use mw_text::Addr;
use net_model::Net;
use net_parts::SessionEnd;
use net_parts::ends::{file_of, neighbour_of};
use net_parts::router_ids::router_id;
use route_record::Tracked;
use std::alloc::{AllocError, Global};
use sym_policy::{
    Grounds, SymBgp, SymMapRec, SymPreferences, SymRest, SymRoute, joined, path_of, rest_of,
    sym_marked,
};
use term_arith::gates::{both, constant_node, negate};
use term_arith::{Bits, above_number, constant, copy, equal_number};
use term_store::{NodeId, Terms};

// ---- whether the message is taken

/// Whether a path has at most 255 numbers.
#[tactic(auto, using(crate::proofs::TakenIn::few_numbers))]
fn sym_is_short(terms: &mut Terms, len: &Bits) -> Result<NodeId, AllocError>
    requires { ids_end len.now.nodes.items ≤ size terms.old }
    ensures builds { Builds terms.old terms.new }
    ensures within { IfOk result (λ r. r.0 < size terms.new) }
    ensures value { Gives terms.new result (λ w r. at w r
        ≡ nat_le (number w len.now.nodes.items) exports.most_numbers) }
{
    let long = above_number(terms, len.nodes.as_slice(), 255)?;
    let short = negate(terms, long)?;
    Ok(short)
}

/// Whether the own AS is not in the path, and the path is not too long.
fn sym_goes_straight(
    terms: &mut Terms,
    tracked: &Tracked,
    process: &Bgp,
    message: &SymBgp,
) -> Result<NodeId, AllocError>
    requires { bgp_end message.now ≤ size terms.old }
    ensures builds { Builds terms.old terms.new }
    ensures within { IfOk result (λ r. r.0 < size terms.new) }
    ensures value { Gives terms.new result (λ w r. at w r
        ≡ (not (marked tracked.now.numbers (bgp_at w message.now).path.numbers process.now.asn)
        && nat_le (bgp_at w message.now).path.len exports.most_numbers)) }
{
    let numbers = tracked.numbers.as_slice();
    let own = sym_marked(
        terms,
        numbers,
        message.numbers.nodes.as_slice(),
        process.asn,
    )?;
    let other = negate(terms, own)?;
    let short = sym_is_short(terms, &message.len)?;
    both(terms, other, short)
}

/// Whether the own cluster is not among the clusters, where the router reflects.
fn sym_other_clusters(
    alloc: Global,
    terms: &mut Terms,
    tracked: &Tracked,
    process: &Bgp,
    own: Addr,
    message: &SymBgp,
) -> Result<NodeId, AllocError>
    requires { bgp_end message.now ≤ size terms.old }
    ensures builds { Builds terms.old terms.new }
    ensures within { IfOk result (λ r. r.0 < size terms.new) }
    ensures value { Gives terms.new result (λ w r. at w r
        ≡ not (exports.is_reflector process.now
        && marked (numbers_of tracked.now.clusters) (bgp_at w message.now).clusters own.0)) }
{
    if !is_reflector(process) {
        return constant_node(terms, true);
    }
    let marks = message.clusters.nodes.as_slice();
    let here = sym_has_cluster(alloc, terms, tracked, marks, own)?;
    negate(terms, here)
}

/// Whether the router takes the message: no loop by its AS, by its identifier or by its cluster, and no path that is
/// too long.
fn sym_is_acceptable(
    alloc: Global,
    terms: &mut Terms,
    session: &Session<'_>,
    message: &SymBgp,
) -> Result<NodeId, AllocError>
    requires id { session.now.id ≡ exports.router_id session.now.files.now session.now.end.now.router }
    requires nodes { bgp_end message.now ≤ size terms.old }
    ensures builds { Builds terms.old terms.new }
    ensures within { IfOk result (λ r. r.0 < size terms.new) }
    ensures value { Gives terms.new result (λ w r. at w r
        ≡ importing.shape_is_acceptable session.now.tracked.now session.now.files.now session.now.end.now.router
        session.now.process.now (bgp_at w message.now)) }
{
    let tracked = session.tracked;
    let process = session.process;
    let own = session.id;
    let straight = sym_goes_straight(terms, tracked, process, message)?;
    let back = equal_number(terms, message.originator.nodes.as_slice(), numbered(own))?;
    let other = negate(terms, back)?;
    let clusters = sym_other_clusters(alloc, terms, tracked, process, own, message)?;
    let ids = both(terms, other, clusters)?;
    let taken = both(terms, straight, ids)?;
    Ok(taken)
}

/// Whether the incoming lists of the neighbour permit the message.
#[tactic(auto, using(crate::proofs::TakenIn::list_steps))]
fn sym_passes_lists(
    alloc: Global,
    terms: &mut Terms,
    by: &Grounds<'_>,
    neighbour: &Neighbour,
    message: &SymBgp,
) -> Result<NodeId, AllocError>
    requires long { by.now.len ≤ 32 }
    requires wide { length by.now.dst.now.nodes.items ≡ 32 }
    requires dst { ids_end by.now.dst.now.nodes.items ≤ size terms.old }
    requires nodes { bgp_end message.now ≤ size terms.old }
    ensures builds { Builds terms.old terms.new }
    ensures within { IfOk result (λ r. r.0 < size terms.new) }
    ensures value { Gives terms.new result (λ w r. at w r
        ≡ (exports.passes_prefixes by.now.policies.now neighbour.now.prefix_in (prefix_of w by.now.dst.now by.now.len)
        && shape_passes_paths by.now.tracked.now by.now.policies.now neighbour.now.filter_in
        (bgp_at w message.now).path)) }
{
    let path = path_of(alloc, message)?;
    let prefixes = sym_passes_prefixes(
        alloc,
        terms,
        by.policies,
        &neighbour.prefix_in,
        by.dst,
        by.len,
    )?;
    let paths = sym_passes_paths(terms, by.tracked, by.policies, &neighbour.filter_in, &path)?;
    let passes = both(terms, prefixes, paths)?;
    Ok(passes)
}

/// Whether the router takes the message, and its incoming lists permit it.
fn sym_takes_in(
    alloc: Global,
    terms: &mut Terms,
    session: &Session<'_>,
    dst: &Bits,
    len: u8,
    message: &SymBgp,
) -> Result<NodeId, AllocError>
    requires id { session.now.id ≡ exports.router_id session.now.files.now session.now.end.now.router }
    requires long { len ≤ 32 }
    requires wide { length dst.now.nodes.items ≡ 32 }
    requires dst { ids_end dst.now.nodes.items ≤ size terms.old }
    requires nodes { bgp_end message.now ≤ size terms.old }
    ensures builds { Builds terms.old terms.new }
    ensures within { IfOk result (λ r. r.0 < size terms.new) }
    ensures value { Gives terms.new result (λ w r. at w r
        ≡ (importing.shape_is_acceptable session.now.tracked.now session.now.files.now session.now.end.now.router
        session.now.process.now (bgp_at w message.now)
        && (exports.passes_prefixes session.now.file.now.policies session.now.neighbour.now.prefix_in
        (prefix_of w dst.now len)
        && shape_passes_paths session.now.tracked.now session.now.file.now.policies session.now.neighbour.now.filter_in
        (bgp_at w message.now).path))) }
{
    let acceptable = sym_is_acceptable(alloc, terms, session, message)?;
    let by = Grounds {
        policies: &session.file.policies,
        tracked: session.tracked,
        dst,
        len,
    };
    let passes = sym_passes_lists(alloc, terms, &by, session.neighbour, message)?;
    let taken = both(terms, acceptable, passes)?;
    Ok(taken)
}

// ---- the route of the message before the incoming map

/// The local preference before the incoming map: 100 over an external session.
fn received_local_pref(
    alloc: Global,
    terms: &mut Terms,
    end: &SessionEnd,
    message: &SymBgp,
) -> Result<Bits, AllocError>
    requires { bgp_end message.now ≤ size terms.old }
    ensures builds { Builds terms.old terms.new }
    ensures within { IfOk result (λ r. ids_end r.nodes.items ≤ size terms.new) }
    ensures wide { IfOk result (λ r. length r.nodes.items ≡ 32) }
    ensures value { Gives terms.new result (λ w r. number w r.nodes.items
        ≡ (if end.now.internal then (bgp_at w message.now).preferences.local_pref else 100)) }
{
    if end.internal {
        copy(alloc, &message.local_pref)
    } else {
        constant(alloc, terms, 100, 32)
    }
}

/// Weight, local preference, metric and origin before the incoming map.
fn received_preferences(
    alloc: Global,
    terms: &mut Terms,
    neighbour: &Neighbour,
    end: &SessionEnd,
    message: &SymBgp,
) -> Result<SymPreferences, AllocError>
    requires { bgp_end message.now ≤ size terms.old }
    ensures builds { Builds terms.old terms.new }
    ensures within { IfOk result (λ r. preferences_end r ≤ size terms.new) }
    ensures value { Gives terms.new result (λ w r. preferences_at w r
        ≡ (importing.shape_received neighbour.now end.now (bgp_at w message.now)).preferences) }
{
    let weight = constant(alloc, terms, u64::from(neighbour.weight), 32)?;
    let local_pref = received_local_pref(alloc, terms, end, message)?;
    let med = copy(alloc, &message.med)?;
    let origin = copy(alloc, &message.origin)?;
    Ok(SymPreferences {
        weight,
        local_pref,
        med,
        origin,
    })
}

/// What route maps see of the route before the incoming map.
#[tactic(auto, using(crate::proofs::TakenIn::seen_steps))]
fn received_seen(
    alloc: Global,
    terms: &mut Terms,
    tracked: &Tracked,
    neighbour: &Neighbour,
    end: &SessionEnd,
    message: &SymBgp,
) -> Result<SymRoute, AllocError>
    requires marks { HasTracked tracked.now message.now }
    requires nodes { bgp_end message.now ≤ size terms.old }
    ensures builds { Builds terms.old terms.new }
    ensures within { IfOk result (λ r. route_end r ≤ size terms.new) }
    ensures rows { IfOk result (λ r. HasRows tracked.now r) }
    ensures value { Gives terms.new result (λ w r. route_at w r
        ≡ seen_by_maps (importing.shape_received neighbour.now end.now (bgp_at w message.now))) }
{
    let path = path_of(alloc, message)?;
    let communities = copy(alloc, &message.communities)?;
    let type1 = constant_node(terms, false)?;
    let preferences = received_preferences(alloc, terms, neighbour, end, message)?;
    Ok(SymRoute {
        preferences,
        path,
        communities,
        type1,
    })
}

/// What route maps never set of the route: it was learnt from the neighbour.
#[tactic(auto, using(crate::proofs::TakenIn::rest_steps))]
fn received_rest(
    alloc: Global,
    terms: &mut Terms,
    neighbour: &Neighbour,
    message: &SymBgp,
) -> Result<SymRest, AllocError>
    requires { bgp_end message.now ≤ size terms.old }
    ensures builds { Builds terms.old terms.new }
    ensures within { IfOk result (λ r. rest_end r ≤ size terms.new) }
    ensures rows { IfOk result (λ r. length r.clusters.nodes.items ≡ length message.now.clusters.nodes.items) }
    ensures value { Gives terms.new result (λ w r. rest_at w r
        ≡ record (rest_of_shape (bgp_at w message.now)) { from = 2 ^ 32 + neighbour.now.addr.0 }) }
{
    let mut rest = rest_of(alloc, message)?;
    rest.from = constant(alloc, terms, numbered(neighbour.addr), 33)?;
    Ok(rest)
}

/// The route of a message before the incoming map, which is there where a node is true.
#[tactic(auto, using(crate::proofs::TakenIn::received_steps))]
fn sym_received(
    alloc: Global,
    terms: &mut Terms,
    tracked: &Tracked,
    there: NodeId,
    neighbour: &Neighbour,
    end: &SessionEnd,
    message: &SymBgp,
) -> Result<SymMapRec, AllocError>
    requires marks { HasTracked tracked.now message.now }
    requires there { there.0 < size terms.old }
    requires nodes { bgp_end message.now ≤ size terms.old }
    ensures builds { Builds terms.old terms.new }
    ensures within { IfOk result (λ r. map_rec_end r ≤ size terms.new) }
    ensures marks { IfOk result (λ r. HasTracked tracked.now r.bgp) }
    ensures type1 { Gives terms.new result (λ w r. at w r.type1 ≡ false) }
    ensures value { Gives terms.new result (λ w r. bgp_of w r.bgp
        ≡ (if at w there then Some (importing.shape_received neighbour.now end.now (bgp_at w message.now)) else None)) }
{
    let route = received_seen(alloc, terms, tracked, neighbour, end, message)?;
    let rest = received_rest(alloc, terms, neighbour, message)?;
    Ok(joined(there, route, rest))
}

// ---- import

/// A route whose path is not too long.
#[tactic(auto, using(crate::proofs::TakenIn::short_there))]
fn if_short(terms: &mut Terms, tracked: &Tracked, route: SymBgp) -> Result<SymBgp, AllocError>
    requires marks { HasTracked tracked.now route }
    requires nodes { bgp_end route ≤ size terms.old }
    ensures builds { Builds terms.old terms.new }
    ensures within { IfOk result (λ r. bgp_end r ≤ size terms.new) }
    ensures marks { IfOk result (λ r. HasTracked tracked.now r) }
    ensures value { Gives terms.new result (λ w r. bgp_of w r
        ≡ option_and_then importing.shape_if_short (bgp_of w route)) }
{
    let _tracked = tracked.numbers.items.len();
    let mut made = route;
    let short = sym_is_short(terms, &made.len)?;
    made.valid = both(terms, made.valid, short)?;
    Ok(made)
}

/// The route of a message after the incoming lists and the incoming map.
fn sym_taken_in(
    alloc: Global,
    terms: &mut Terms,
    session: &Session<'_>,
    dst: &Bits,
    len: u8,
    message: &SymBgp,
) -> Result<SymBgp, AllocError>
    requires id { session.now.id ≡ exports.router_id session.now.files.now session.now.end.now.router }
    requires long { len ≤ 32 }
    requires wide { length dst.now.nodes.items ≡ 32 }
    requires dst { ids_end dst.now.nodes.items ≤ size terms.old }
    requires marks { HasTracked session.now.tracked.now message.now }
    requires nodes { bgp_end message.now ≤ size terms.old }
    ensures builds { Builds terms.old terms.new }
    ensures within { IfOk result (λ r. bgp_end r ≤ size terms.new) }
    ensures marks { IfOk result (λ r. HasTracked session.now.tracked.now r) }
    ensures value { Gives terms.new result (λ w r. bgp_of w r ≡ option_and_then
        (importing.shape_taken_in session.now.tracked.now session.now.files.now session.now.file.now
        session.now.process.now session.now.neighbour.now session.now.end.now (prefix_of w dst.now len))
        (bgp_of w message.now)) }
{
    let takes = sym_takes_in(alloc, terms, session, dst, len, message)?;
    let there = both(terms, message.valid, takes)?;
    let tracked = session.tracked;
    let neighbour = session.neighbour;
    let end = session.end;
    let before = sym_received(alloc, terms, tracked, there, neighbour, end, message)?;
    let by = Grounds {
        policies: &session.file.policies,
        tracked,
        dst,
        len,
    };
    let side = side_of(end);
    let left = sym_mapped(alloc, terms, &by, &neighbour.map_in, before, side)?;
    let made = if_short(terms, tracked, left)?;
    Ok(made)
}

/// What the router at an end makes of a message that it receives over the session, if it takes it. `id` is the router's
/// identifier.
#[tactic(auto, using(crate::proofs::TakenIn::none_taken), unfolding(bgp_shapes::specs::Importing::shape_imported))]
fn sym_imported(
    alloc: Global,
    terms: &mut Terms,
    net: &Net,
    end: &SessionEnd,
    id: Addr,
    dst: &Bits,
    len: u8,
    message: &SymBgp,
) -> Result<SymBgp, AllocError>
    requires id { id ≡ exports.router_id net.now.files end.now.router }
    requires long { len ≤ 32 }
    requires wide { length dst.now.nodes.items ≡ 32 }
    requires dst { ids_end dst.now.nodes.items ≤ size terms.old }
    requires marks { HasTracked net.now.tracked message.now }
    requires nodes { bgp_end message.now ≤ size terms.old }
    ensures builds { Builds terms.old terms.new }
    ensures within { IfOk result (λ r. bgp_end r ≤ size terms.new) }
    ensures marks { IfOk result (λ r. HasTracked net.now.tracked r) }
    ensures value { Gives terms.new result (λ w r. bgp_of w r
        ≡ option_and_then (importing.shape_imported net.now.tracked net.now.files end.now (prefix_of w dst.now len))
        (bgp_of w message.now)) }
{
    let files = net.routers();
    let tracked = net.tracked();
    let Some(file) = file_of(files, end.router) else {
        return nothing(alloc, terms, tracked, message);
    };
    let (Some(process), Some(neighbour)) = (&file.bgp, neighbour_of(files, end)) else {
        return nothing(alloc, terms, tracked, message);
    };
    let session = Session {
        tracked,
        files,
        file,
        process,
        neighbour,
        end,
        id,
    };
    sym_taken_in(alloc, terms, &session, dst, len, message)
}

/// What the router at an end of the network makes of a message.
fn import_at(
    alloc: Global,
    terms: &mut Terms,
    net: &Net,
    end: u32,
    dst: &Bits,
    len: u8,
    message: &SymBgp,
) -> Result<SymBgp, AllocError>
    requires end { end < length (ends_of net.now.files) }
    requires long { len ≤ 32 }
    requires wide { length dst.now.nodes.items ≡ 32 }
    requires dst { ids_end dst.now.nodes.items ≤ size terms.old }
    requires marks { HasTracked net.now.tracked message.now }
    requires nodes { bgp_end message.now ≤ size terms.old }
    ensures builds { Builds terms.old terms.new }
    ensures within { IfOk result (λ r. bgp_end r ≤ size terms.new) }
    ensures marks { IfOk result (λ r. HasTracked net.now.tracked r) }
    ensures value { Gives terms.new result (λ w r. bgp_of w r ≡ option_and_then (λ s. option_and_then (λ at.
        importing.shape_imported net.now.tracked net.now.files at (prefix_of w dst.now len) s)
        (slice_get (ends_of net.now.files) end)) (bgp_of w message.now)) }
    ensures tracks { TracksNet net.now.files net.now.tracked }
{
    let ends = net.ends();
    let at = ends[end as usize];
    let _tracked = net.tracked();
    let id = router_id(alloc, net.routers(), net.addresses(), at.router)?;
    sym_imported(alloc, terms, net, &at, id, dst, len, message)
}

/// What the router at an end makes of a message for the prefix of that length of an address that it receives over the
/// session, after the incoming lists and the incoming map of the neighbour (RFC 4271, section 9.1.1; RFC 4456, section
/// 8). There is no route where it does not take the message: its own AS, identifier or cluster is in it, its path has
/// more than 255 numbers or the map makes it so, a list denies it or the map drops it. `end` is a place in the
/// network's ends; a message stands by the route of its fields. The message is to have a node for each value that the
/// network tracks; where it stands for one that is received or for none, the result stands for what is made of it.
pub fn sym_import(
    alloc: Global,
    terms: &mut Terms,
    net: &Net,
    end: u32,
    dst: &Bits,
    len: u8,
    message: &SymBgp,
) -> Result<SymBgp, AllocError>
    requires end { end < length (ends_of net.now.files) }
    requires long { len ≤ 32 }
    requires wide { length dst.now.nodes.items ≡ 32 }
    requires dst { ids_end dst.now.nodes.items ≤ size terms.old }
    requires marks { HasTracked net.now.tracked message.now }
    requires nodes { bgp_end message.now ≤ size terms.old }
    ensures builds { Builds terms.old terms.new }
    ensures within { IfOk result (λ r. bgp_end r ≤ size terms.new) }
    ensures marks { IfOk result (λ r. HasTracked net.now.tracked r) }
    ensures value { Gives terms.new result (λ w r. bgp_of w r ≡ option_and_then (λ s. option_and_then (λ at.
        importing.shape_imported net.now.tracked net.now.files at (prefix_of w dst.now len) s)
        (slice_get (ends_of net.now.files) end)) (bgp_of w message.now)) }
    ensures stands { Gives terms.new result (λ w r. (sent : OptionOf BgpMsgOf)
        → bgp_of w message.now ≡ option_map (message_shape net.now.tracked) sent
        → StandsForBgp w net.now.tracked r (option_and_then (λ m. option_and_then (λ at.
        exports.imported net.now.files at (prefix_of w dst.now len) m) (slice_get (ends_of net.now.files) end)) sent)) }
{
    let made = import_at(alloc, terms, net, end, dst, len, message)?;
    Ok(made)
}
