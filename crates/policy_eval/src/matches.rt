//! The match lines of a route map.

ghost use Rattle.std.specs.Prelude.{◌≡◌, ◌==◌, ◌&&◌};
ghost use Rattle.ios_ast.specs.Matching.{access_named, prefixes_named, communities_named, paths_named, names_of, list_permits, line_holds, lines_hold, kind_of, kind_holds, kind_passes, asks, header_of_prefix};
ghost use Rattle.ios_ast.specs.Maps.{route_taken};
ghost use Rattle.policy_eval.specs.Attributes.{attributes_of};
ghost use Rattle.policy_eval.specs.Header.{header_of};

use crate::lists::{as_path_list, community_list, prefix_list};
use crate::packets::access_list;
use ios_ast::{MapEntry, Match, Policies, Use};
use mw_text::{Addr, Prefix, same_bytes};
use route_record::{BgpRec, MapRec, Packet};

/// The packet by which an access list tests a prefix: from its network address, and all else 0.
fn packet_of(p: &Prefix) -> Packet
    ensures { header_of result ≡ header_of_prefix p.now }
{
    Packet {
        src: p.addr,
        dst: Addr(0),
        proto: 0,
        sport: 0,
        dport: 0,
    }
}

/// Whether the access list of that name permits the network address of the prefix. One that is not there denies.
fn access_permits(policies: &Policies, p: &Prefix, named: &Use) -> bool
    ensures { result ≡ access_named policies.now p.now named.now }
{
    let packet = packet_of(p);
    for list in policies.access.as_slice() {
        if same_bytes(list.name.as_slice(), named.name.as_slice()) {
            return access_list(list, &packet);
        }
    }
    false
}

/// Whether the prefix list of that name permits the prefix. One that is not there denies.
pub fn prefixes_permit(policies: &Policies, p: &Prefix, named: &Use) -> bool
    ensures { result ≡ prefixes_named policies.now p.now named.now }
{
    for list in policies.prefix_lists.as_slice() {
        if same_bytes(list.name.as_slice(), named.name.as_slice()) {
            return prefix_list(list, p);
        }
    }
    false
}

/// Whether the community list of that name permits the communities. One that is not there denies.
fn communities_permit(policies: &Policies, communities: &[u32], named: &Use) -> bool
    ensures { result ≡ communities_named policies.now communities.now named.now }
{
    for list in policies.communities.as_slice() {
        if same_bytes(list.name.as_slice(), named.name.as_slice()) {
            return community_list(list, communities);
        }
    }
    false
}

/// Whether the AS-path list of that name permits the path. One that is not there denies.
pub fn paths_permit(policies: &Policies, path: &[u32], named: &Use) -> bool
    ensures { result ≡ paths_named policies.now path.now named.now }
{
    for list in policies.as_paths.as_slice() {
        if same_bytes(list.name.as_slice(), named.name.as_slice()) {
            return as_path_list(list, path);
        }
    }
    false
}

/// The names of the lists of a match line.
fn names(line: &Match) -> &[Use]
    ensures { result.now ≡ names_of line.now }
{
    match line {
        Match::Access(names)
        | Match::Prefixes(names)
        | Match::Communities(names)
        | Match::Paths(names) => names.as_slice(),
    }
}

/// Whether the list of that name and of the line's kind permits the route.
fn permits(policies: &Policies, p: &Prefix, rec: &BgpRec, line: &Match, named: &Use) -> bool
    ensures { result ≡ list_permits policies.now p.now rec.now.path rec.now.communities line.now named.now }
{
    match line {
        Match::Access(_) => access_permits(policies, p, named),
        Match::Prefixes(_) => prefixes_permit(policies, p, named),
        Match::Communities(_) => { communities_permit(policies, rec.communities.as_slice(), named) }
        Match::Paths(_) => paths_permit(policies, rec.path.as_slice(), named),
    }
}

/// Whether one of the lists that a match line names permits the route.
fn line_matches(policies: &Policies, p: &Prefix, rec: &BgpRec, line: &Match) -> bool
    ensures { result ≡ line_holds policies.now p.now rec.now.path rec.now.communities line.now }
{
    for named in names(line) {
        if permits(policies, p, rec, line, named) {
            return true;
        }
    }
    false
}

/// The number of a match line's kind.
fn kind(line: &Match) -> u8
    ensures { result ≡ kind_of line.now }
{
    match line {
        Match::Access(_) => 0,
        Match::Prefixes(_) => 1,
        Match::Communities(_) => 2,
        Match::Paths(_) => 3,
    }
}

/// Whether a line of that kind matches the route.
fn kind_matches(policies: &Policies, p: &Prefix, rec: &BgpRec, lines: &[Match], wanted: u8) -> bool
    ensures { result ≡ kind_holds (line_holds policies.now p.now rec.now.path rec.now.communities) lines.now wanted }
{
    lines.iter().any(|other| kind(other) == wanted && line_matches(policies, p, rec, other))
}

/// Whether some line is of that kind.
fn asks_for(lines: &[Match], wanted: u8) -> bool
    ensures { result ≡ asks lines.now wanted }
{
    lines.iter().any(|line| kind(line) == wanted)
}

/// Whether the lines of that kind let the route through: one of them matches, or there is none.
fn kind_lets_through(
    policies: &Policies,
    p: &Prefix,
    rec: &BgpRec,
    lines: &[Match],
    wanted: u8,
) -> bool
    ensures { result ≡ kind_passes (line_holds policies.now p.now rec.now.path rec.now.communities) lines.now wanted }
{
    !asks_for(lines, wanted) || kind_matches(policies, p, rec, lines, wanted)
}

/// Whether for each kind of which there are lines one of them matches the route.
fn lines_match(policies: &Policies, p: &Prefix, rec: &BgpRec, lines: &[Match]) -> bool
    ensures { result ≡ lines_hold (line_holds policies.now p.now rec.now.path rec.now.communities) lines.now }
{
    kind_lets_through(policies, p, rec, lines, 0)
        && kind_lets_through(policies, p, rec, lines, 1)
        && kind_lets_through(policies, p, rec, lines, 2)
        && kind_lets_through(policies, p, rec, lines, 3)
}

/// Whether the match lines of the entry hold; an entry without one takes every route.
pub(crate) fn takes_route(policies: &Policies, p: &Prefix, rec: &MapRec, entry: &MapEntry) -> bool
    ensures { result ≡ route_taken policies.now p.now (attributes_of rec.now) entry.now }
{
    lines_match(policies, p, &rec.bgp, entry.matches.as_slice())
}
