//! What a router sends over a session of the route that it holds (RFC 4271, sections 5 and 9; RFC 4456; RFC 1997).

ghost use Rattle.std.specs.Prelude.{◌≡◌, ◌==◌, ◌&&◌, ◌||◌, false, true, not, ◌<◌, length, slice_get, IfOk, option_and_then, option_map, Some, None, if◌then◌else◌};
ghost use Rattle.std.specs.List.{list_any};
ghost use Rattle.std.specs.Option.{option_copied, option_map_or};
ghost use Rattle.ios_ast.specs.Deciding.{carries};
ghost use Rattle.ios_ast.specs.Maps as maps;
ghost use Rattle.ios_ast.specs.Maps.{deciding};
ghost use Rattle.net_parts.specs.Exports as exports;
ghost use Rattle.net_parts.specs.Mapping as mapping;
ghost use Rattle.net_parts.specs.Sessions.{ends_of};
ghost use Rattle.policy_eval.specs.Attributes as policy;
ghost use Rattle.proto_bgp.specs.Sending.{Speaks};

use crate::policies::{passes_paths, passes_prefixes, through_map, with_front};
use crate::routers::{carries, is_reflector};
use crate::speaker::{
    Speaker, internal_next_hop, reflected_clusters, reflected_originator, speaker_of,
};
use ios_ast::{Bgp, File, MapEntry, Neighbour, Policies, SetAct, Use};
use mw_text::{Addr, List, Prefix};
use net_model::{Net, SessionEnd};
use net_parts::ends::{file_of, neighbour_of};
use policy_eval::{copy_list, copy_route, deciding_entry, map_named, map_rec};
use route_record::{BgpMsg, BgpRec, MapRec};
use std::alloc::{AllocError, Global};

/// The well-known community of routes that go to no external peer (RFC 1997).
const NO_EXPORT: u32 = 4_294_967_041;

/// The well-known community of routes that go to no peer (RFC 1997).
const NO_ADVERTISE: u32 = 4_294_967_042;

// ---- whether a route may go over a session

fn is_client(files: &[File], end: &SessionEnd) -> bool
    ensures { result ≡ exports.is_client files.now end.now }
{
    match neighbour_of(files, end) {
        None => false,
        Some(neighbour) => neighbour.client,
    }
}

/// Whether a reflector sends a route of the one internal peer to the other: a client's to all, another's to clients.
fn may_reflect(files: &[File], process: &Bgp, from: &SessionEnd, to: &SessionEnd) -> bool
    ensures { result ≡ exports.may_reflect files.now process.now from.now to.now }
{
    is_reflector(process) && (is_client(files, from) || is_client(files, to))
}

/// Whether a route that came over the one session may go over the other.
fn may_go_on(files: &[File], process: &Bgp, from: &SessionEnd, end: &SessionEnd) -> bool
    ensures { result ≡ (not (from.now.neighbour == end.now.neighbour)
        && (not (from.now.internal && end.now.internal) || exports.may_reflect files.now process.now from.now end.now)) }
{
    from.neighbour != end.neighbour
        && (!(from.internal && end.internal) || may_reflect(files, process, from, end))
}

/// Whether a route may go over the session by where it was learnt.
fn may_leave(files: &[File], process: &Bgp, from: &Option<SessionEnd>, end: &SessionEnd) -> bool
    ensures { result ≡ option_map_or (λ from. not (from.neighbour == end.now.neighbour)
        && (not (from.internal && end.now.internal) || exports.may_reflect files.now process.now from end.now)) from.now true }
{
    match from {
        None => true,
        Some(from) => may_go_on(files, process, from, end),
    }
}

/// Whether no community of the route forbids that it goes over the session.
fn is_allowed(end: &SessionEnd, communities: &[u32]) -> bool
    ensures { result ≡ (not (carries communities.now exports.no_advertise)
        && not (carries communities.now exports.no_export && not end.now.internal)) }
{
    !carries(communities, NO_ADVERTISE) && !(carries(communities, NO_EXPORT) && !end.internal)
}

/// Whether the route may go over the session. `from` is the end over which it was learnt.
fn may_go(
    files: &[File],
    process: &Bgp,
    end: &SessionEnd,
    held: &BgpRec,
    from: &Option<SessionEnd>,
) -> bool
    requires from { from.now ≡ exports.learnt_over files.now end.now.router held.now.from }
    ensures { result ≡ exports.may_go files.now process.now end.now held.now }
{
    is_allowed(end, held.communities.as_slice()) && may_leave(files, process, from, end)
}

/// Whether the outgoing lists of the neighbour permit the route.
fn passes_lists(policies: &Policies, neighbour: &Neighbour, p: &Prefix, held: &BgpRec) -> bool
    ensures { result ≡ (exports.passes_prefixes policies.now neighbour.now.prefix_out p.now
        && exports.passes_paths policies.now neighbour.now.filter_out held.now.path) }
{
    passes_prefixes(policies, &neighbour.prefix_out, p)
        && passes_paths(policies, &neighbour.filter_out, held.path.as_slice())
}

// ---- the metric of an external message

fn is_metric(line: &SetAct) -> bool
    ensures { result ≡ exports.is_metric line.now }
{
    matches!(line, SetAct::Metric(_))
}

fn entry_sets_metric(entry: &MapEntry) -> bool
    ensures { result ≡ list_any exports.is_metric entry.now.sets }
{
    entry.sets.as_slice().iter().any(|line| is_metric(line))
}

/// The deciding entry of the map of that name.
#[tactic(auto, using(crate::proofs::Mapped::same_attributes))]
fn deciding_of<'a>(
    policies: &'a Policies,
    named: &Use,
    p: &Prefix,
    rec: &MapRec,
) -> Option<&'a MapEntry>
    ensures { option_copied result
        ≡ deciding policies.now p.now (policy.attributes_of rec.now) (maps.entries_named policies.now named.now) }
{
    match map_named(policies, named) {
        None => None,
        Some(map) => deciding_entry(map, policies, p, rec),
    }
}

fn named_sets_metric(policies: &Policies, named: &Use, p: &Prefix, rec: &MapRec) -> bool
    ensures { result ≡ option_map_or (λ e. list_any exports.is_metric e.sets)
        (deciding policies.now p.now (policy.attributes_of rec.now) (maps.entries_named policies.now named.now)) false }
{
    match deciding_of(policies, named, p, rec) {
        None => false,
        Some(entry) => entry_sets_metric(entry),
    }
}

fn map_sets_metric(policies: &Policies, used: &Option<Use>, p: &Prefix, rec: &MapRec) -> bool
    ensures { result ≡ exports.sets_metric policies.now used.now p.now (policy.attributes_of rec.now) }
{
    match used {
        None => false,
        Some(named) => named_sets_metric(policies, named, p, rec),
    }
}

/// Whether the deciding entry of the map that is applied sets the metric.
#[tactic(auto, using(crate::proofs::Mapped::same_attributes))]
fn sets_metric(
    alloc: Global,
    policies: &Policies,
    used: &Option<Use>,
    p: &Prefix,
    held: &BgpRec,
) -> Result<bool, AllocError>
    ensures { IfOk result (λ sets. sets ≡ exports.sets_metric policies.now used.now p.now (mapping.attributes_of held.now)) }
{
    let rec = map_rec(copy_route(alloc, held)?);
    Ok(map_sets_metric(policies, used, p, &rec))
}

/// Whether an external message carries the metric: where the path was empty before, or the map set one.
fn keeps_metric(
    alloc: Global,
    policies: &Policies,
    used: &Option<Use>,
    p: &Prefix,
    held: &BgpRec,
) -> Result<bool, AllocError>
    ensures { IfOk result (λ keeps. keeps ≡ ((length held.now.path == 0)
        || exports.sets_metric policies.now used.now p.now (mapping.attributes_of held.now))) }
{
    if held.path.items.is_empty() {
        return Ok(true);
    }
    sets_metric(alloc, policies, used, p, held)
}

// ---- messages

fn sent_communities(
    alloc: Global,
    neighbour: &Neighbour,
    communities: &List<u32>,
) -> Result<List<u32>, AllocError>
    ensures { IfOk result (λ made. made ≡ exports.sent_communities neighbour.now communities.now) }
{
    if neighbour.send_community {
        copy_list(alloc, communities)
    } else {
        Ok(List::new(alloc))
    }
}

fn kept_metric(keeps: bool, med: u32) -> Option<u32>
    ensures { result ≡ (if keeps then Some med else None) }
{
    if keeps { Some(med) } else { None }
}

/// The message over an external session: the own AS in front of the path, the own address as next hop.
#[tactic(auto, using(route_record::proofs::OriginCodes::code_back))]
fn external_message(
    alloc: Global,
    process: &Bgp,
    neighbour: &Neighbour,
    own: Addr,
    keeps_med: bool,
    held: &BgpRec,
    made: &BgpRec,
) -> Result<BgpMsg, AllocError>
    ensures { IfOk result (λ msg. msg
        ≡ exports.external_message process.now neighbour.now own keeps_med held.now (mapping.attributes_of made.now)) }
{
    let path = with_front(alloc, process.asn, &made.path)?;
    let communities = sent_communities(alloc, neighbour, &made.communities)?;
    Ok(BgpMsg {
        local_pref: None,
        path,
        origin: made.origin,
        med: kept_metric(keeps_med, made.med),
        communities,
        next_hop: own,
        originator: None,
        clusters: List::new(alloc),
    })
}

/// The message over an internal session: path, local preference and metric stay as the map leaves them.
#[tactic(auto, using(route_record::proofs::OriginCodes::code_back))]
fn internal_message(
    alloc: Global,
    files: &[File],
    neighbour: &Neighbour,
    end: &SessionEnd,
    speaker: &Speaker,
    held: &BgpRec,
    made: &BgpRec,
) -> Result<BgpMsg, AllocError>
    requires { Speaks files.now end.now held.now speaker.now }
    ensures { IfOk result (λ msg. msg ≡ exports.internal_message files.now end.now.router neighbour.now speaker.now.address
        held.now (mapping.attributes_of made.now)) }
{
    let from = &speaker.from;
    let path = copy_list(alloc, &made.path)?;
    let communities = sent_communities(alloc, neighbour, &made.communities)?;
    let clusters = reflected_clusters(alloc, files, end.router, speaker.id, held, from)?;
    Ok(BgpMsg {
        local_pref: Some(made.local_pref),
        path,
        origin: made.origin,
        med: Some(made.med),
        communities,
        next_hop: internal_next_hop(neighbour, speaker.address, held, from),
        originator: reflected_originator(files, held, from, speaker.peer),
        clusters,
    })
}

/// What the outgoing map leaves of a route.
fn mapped_out(
    alloc: Global,
    file: &File,
    neighbour: &Neighbour,
    end: &SessionEnd,
    p: &Prefix,
    held: &BgpRec,
) -> Result<Option<BgpRec>, AllocError>
    ensures { IfOk result (λ made. made ≡ option_map (mapping.with_attributes held.now)
        (maps.through_map file.now.policies neighbour.now.map_out p.now (not end.now.internal)
        (mapping.attributes_of held.now))) }
{
    let rec = copy_route(alloc, held)?;
    through_map(
        alloc,
        &file.policies,
        &neighbour.map_out,
        p,
        !end.internal,
        rec,
    )
}

/// What the router at an end sends over the session of the route that it holds for the prefix, if anything.
#[tactic(auto, unfolding(net_parts::specs::Exports::exported))]
fn exported(
    alloc: Global,
    files: &[File],
    end: &SessionEnd,
    speaker: &Speaker,
    p: &Prefix,
    held: &BgpRec,
) -> Result<Option<BgpMsg>, AllocError>
    requires { Speaks files.now end.now held.now speaker.now }
    ensures { IfOk result (λ msg. msg ≡ exports.exported files.now end.now p.now held.now) }
{
    let Some(file) = file_of(files, end.router) else {
        return Ok(None);
    };
    let (Some(process), Some(neighbour)) = (&file.bgp, neighbour_of(files, end)) else {
        return Ok(None);
    };
    if !may_go(files, process, end, held, &speaker.from) {
        return Ok(None);
    }
    if !passes_lists(&file.policies, neighbour, p, held) {
        return Ok(None);
    }
    let Some(made) = mapped_out(alloc, file, neighbour, end, p, held)? else {
        return Ok(None);
    };
    if end.internal {
        let msg = internal_message(alloc, files, neighbour, end, speaker, held, &made)?;
        return Ok(Some(msg));
    }
    let keeps = keeps_metric(alloc, &file.policies, &neighbour.map_out, p, held)?;
    let msg = external_message(
        alloc,
        process,
        neighbour,
        speaker.address,
        keeps,
        held,
        &made,
    )?;
    Ok(Some(msg))
}

/// The message that the router at an end sends over the session of the route `held` for the prefix `p`, after the
/// outgoing lists and the outgoing map of the neighbour (RFC 4271, sections 5 and 9; RFC 4456; RFC 1997). None where it
/// sends none: a community forbids it, the route came over this session or may not be reflected, a list denies it or
/// the map drops it. `end` is a place in the network's ends.
pub fn export(
    alloc: Global,
    net: &Net,
    end: u32,
    p: &Prefix,
    held: &BgpRec,
) -> Result<Option<BgpMsg>, AllocError>
    requires within { end < length (ends_of net.now.files) }
    ensures { IfOk result (λ msg. msg
        ≡ option_and_then (λ at. exports.exported net.now.files at p.now held.now) (slice_get (ends_of net.now.files) end)) }
{
    let at = net.ends()[end as usize];
    let speaker = speaker_of(alloc, net, &at, held)?;
    exported(alloc, net.routers(), &at, &speaker, p, held)
}
