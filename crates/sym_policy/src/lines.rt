//! Match lines over terms.

ghost use Rattle.std.specs.Prelude.{◌≡◌, ◌==◌, ℕ, ◌+◌, ◌<◌, ◌≤◌, Bool, false, not, ◌&&◌, ◌||◌, IfOk, length};
ghost use Rattle.std.specs.List.{list_any};
ghost use Rattle.term_store.specs.Terms.{Reading, size, at};
ghost use Rattle.term_store.specs.Reading.{Reads, Builds, Gives};
ghost use Rattle.term_arith.specs.Bits.{bits, ids_end};
ghost use Rattle.ios_ast.specs.Matching.{names_of, kind_of, asks, kind_holds, kind_passes};
ghost use Rattle.sym_policy.specs.Records.{prefix_of};
ghost use Rattle.sym_policy.specs.Routes.{path_at, route_at, route_end};
ghost use Rattle.route_shapes.specs.Shapes.{shape_list_permits, shape_line_holds, shape_route_taken};

use crate::named::{sym_access_named, sym_communities_named, sym_paths_named, sym_prefixes_named};
use crate::parts::SymRoute;
use ios_ast::{MapEntry, Match, Policies, Use};
use route_record::Tracked;
use std::alloc::{AllocError, Global};
use term_arith::Bits;
use term_arith::gates::{both, constant_node, either};
use term_store::{NodeId, Terms};

/// What lists and route maps judge a route by beside the route itself: the policies of its router, the values that its
/// rows of marks stand for, and its prefix, which is the one of this length of an address.
#[derive(Clone, Copy)]
pub struct Grounds<'a> {
    /// The policies of the router.
    pub policies: &'a Policies,
    /// The values that the network tracks.
    pub tracked: &'a Tracked,
    /// The address.
    pub dst: &'a Bits,
    /// The length of the prefix, at most 32.
    pub len: u8,
}

/// The names of the lists of a match line.
fn names(line: &Match) -> &[Use]
    ensures { result.now ≡ names_of line.now }
{
    match line {
        Match::Access(names)
        | Match::Prefixes(names)
        | Match::Communities(names)
        | Match::Paths(names) => names.as_slice(),
    }
}

/// The number of a match line's kind.
fn kind(line: &Match) -> u8
    ensures { result ≡ kind_of line.now }
{
    match line {
        Match::Access(_) => 0,
        Match::Prefixes(_) => 1,
        Match::Communities(_) => 2,
        Match::Paths(_) => 3,
    }
}

/// Whether some line is of that kind.
fn asks_for(lines: &[Match], wanted: u8) -> bool
    ensures { result ≡ asks lines.now wanted }
{
    lines.iter().any(|line| kind(line) == wanted)
}

/// Whether the list of that name and of the line's kind permits the route.
fn sym_list_permits(
    alloc: Global,
    terms: &mut Terms,
    grounds: &Grounds<'_>,
    route: &SymRoute,
    line: &Match,
    named: &Use,
) -> Result<NodeId, AllocError>
    requires long { grounds.now.len ≤ 32 }
    requires wide { length grounds.now.dst.now.nodes.items ≡ 32 }
    requires dst { ids_end grounds.now.dst.now.nodes.items ≤ size terms.old }
    requires nodes { route_end route.now ≤ size terms.old }
    ensures builds { Builds terms.old terms.new }
    ensures within { IfOk result (λ r. r.0 < size terms.new) }
    ensures value { Gives terms.new result (λ w r. at w r
        ≡ shape_list_permits grounds.now.policies.now grounds.now.tracked.now
        (prefix_of w grounds.now.dst.now grounds.now.len) (path_at w route.now.path)
        (bits w route.now.communities.nodes.items) line.now named.now) }
{
    match line {
        Match::Access(_) => sym_access_named(
            alloc,
            terms,
            grounds.policies,
            grounds.dst,
            grounds.len,
            named,
        ),
        Match::Prefixes(_) => sym_prefixes_named(
            alloc,
            terms,
            grounds.policies,
            grounds.dst,
            grounds.len,
            named,
        ),
        Match::Communities(_) => {
            let marks = route.communities.nodes.as_slice();
            sym_communities_named(
                terms,
                grounds.policies,
                grounds.tracked.communities.as_slice(),
                marks,
                named,
            )
        }
        Match::Paths(_) => {
            sym_paths_named(
                terms,
                grounds.policies,
                grounds.tracked.numbers.as_slice(),
                &route.path,
                named,
            )
        }
    }
}

/// Whether one of the lists that a match line names permits the route.
fn sym_line(
    alloc: Global,
    terms: &mut Terms,
    grounds: &Grounds<'_>,
    route: &SymRoute,
    line: &Match,
) -> Result<NodeId, AllocError>
    requires long { grounds.now.len ≤ 32 }
    requires wide { length grounds.now.dst.now.nodes.items ≡ 32 }
    requires dst { ids_end grounds.now.dst.now.nodes.items ≤ size terms.old }
    requires nodes { route_end route.now ≤ size terms.old }
    ensures builds { Builds terms.old terms.new }
    ensures within { IfOk result (λ r. r.0 < size terms.new) }
    ensures value { Gives terms.new result (λ w r. at w r
        ≡ shape_line_holds grounds.now.policies.now grounds.now.tracked.now
        (prefix_of w grounds.now.dst.now grounds.now.len) (path_at w route.now.path)
        (bits w route.now.communities.nodes.items) line.now) }
{
    let mut any = constant_node(terms, false)?;
    for named in names(line) {
        let permits = sym_list_permits(alloc, terms, grounds, route, line, named)?;
        any = either(terms, any, permits)?;
    }
    Ok(any)
}

/// Whether a match line is of that kind and holds.
fn sym_line_of(
    alloc: Global,
    terms: &mut Terms,
    grounds: &Grounds<'_>,
    route: &SymRoute,
    line: &Match,
    wanted: u8,
) -> Result<NodeId, AllocError>
    requires long { grounds.now.len ≤ 32 }
    requires wide { length grounds.now.dst.now.nodes.items ≡ 32 }
    requires dst { ids_end grounds.now.dst.now.nodes.items ≤ size terms.old }
    requires nodes { route_end route.now ≤ size terms.old }
    ensures builds { Builds terms.old terms.new }
    ensures within { IfOk result (λ r. r.0 < size terms.new) }
    ensures value { Gives terms.new result (λ w r. at w r
        ≡ ((kind_of line.now == wanted) && shape_line_holds grounds.now.policies.now grounds.now.tracked.now
        (prefix_of w grounds.now.dst.now grounds.now.len) (path_at w route.now.path)
        (bits w route.now.communities.nodes.items) line.now)) }
{
    if kind(line) == wanted {
        sym_line(alloc, terms, grounds, route, line)
    } else {
        constant_node(terms, false)
    }
}

/// Whether a line of that kind holds.
fn sym_kind(
    alloc: Global,
    terms: &mut Terms,
    grounds: &Grounds<'_>,
    route: &SymRoute,
    lines: &[Match],
    wanted: u8,
) -> Result<NodeId, AllocError>
    requires long { grounds.now.len ≤ 32 }
    requires wide { length grounds.now.dst.now.nodes.items ≡ 32 }
    requires dst { ids_end grounds.now.dst.now.nodes.items ≤ size terms.old }
    requires nodes { route_end route.now ≤ size terms.old }
    ensures builds { Builds terms.old terms.new }
    ensures within { IfOk result (λ r. r.0 < size terms.new) }
    ensures value { Gives terms.new result (λ w r. at w r
        ≡ kind_holds (shape_line_holds grounds.now.policies.now grounds.now.tracked.now
        (prefix_of w grounds.now.dst.now grounds.now.len) (path_at w route.now.path)
        (bits w route.now.communities.nodes.items)) lines.now wanted) }
{
    let mut any = constant_node(terms, false)?;
    for line in lines {
        let holds = sym_line_of(alloc, terms, grounds, route, line, wanted)?;
        any = either(terms, any, holds)?;
    }
    Ok(any)
}

/// Whether the lines of that kind let the route through: one of them holds, or there is none.
fn sym_kind_passes(
    alloc: Global,
    terms: &mut Terms,
    grounds: &Grounds<'_>,
    route: &SymRoute,
    lines: &[Match],
    wanted: u8,
) -> Result<NodeId, AllocError>
    requires long { grounds.now.len ≤ 32 }
    requires wide { length grounds.now.dst.now.nodes.items ≡ 32 }
    requires dst { ids_end grounds.now.dst.now.nodes.items ≤ size terms.old }
    requires nodes { route_end route.now ≤ size terms.old }
    ensures builds { Builds terms.old terms.new }
    ensures within { IfOk result (λ r. r.0 < size terms.new) }
    ensures value { Gives terms.new result (λ w r. at w r
        ≡ kind_passes (shape_line_holds grounds.now.policies.now grounds.now.tracked.now
        (prefix_of w grounds.now.dst.now grounds.now.len) (path_at w route.now.path)
        (bits w route.now.communities.nodes.items)) lines.now wanted) }
{
    if asks_for(lines, wanted) {
        sym_kind(alloc, terms, grounds, route, lines, wanted)
    } else {
        constant_node(terms, true)
    }
}

/// Whether the match lines of the entry hold; an entry without one takes every route.
pub fn sym_takes(
    alloc: Global,
    terms: &mut Terms,
    policies: &Policies,
    tracked: &Tracked,
    dst: &Bits,
    len: u8,
    route: &SymRoute,
    entry: &MapEntry,
) -> Result<NodeId, AllocError>
    requires long { len ≤ 32 }
    requires wide { length dst.now.nodes.items ≡ 32 }
    requires dst { ids_end dst.now.nodes.items ≤ size terms.old }
    requires nodes { route_end route.now ≤ size terms.old }
    ensures builds { Builds terms.old terms.new }
    ensures within { IfOk result (λ r. r.0 < size terms.new) }
    ensures value { Gives terms.new result (λ w r. at w r ≡ shape_route_taken policies.now tracked.now
        (prefix_of w dst.now len) (route_at w route.now) entry.now) }
{
    let grounds = Grounds {
        policies,
        tracked,
        dst,
        len,
    };
    let lines = entry.matches.as_slice();
    let access = sym_kind_passes(alloc, terms, &grounds, route, lines, 0)?;
    let prefixes = sym_kind_passes(alloc, terms, &grounds, route, lines, 1)?;
    let communities = sym_kind_passes(alloc, terms, &grounds, route, lines, 2)?;
    let paths = sym_kind_passes(alloc, terms, &grounds, route, lines, 3)?;
    let first = both(terms, access, prefixes)?;
    let second = both(terms, communities, paths)?;
    both(terms, first, second)
}
