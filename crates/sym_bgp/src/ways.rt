//! How a route goes on over a session, by the end over which it was learnt, as terms (RFC 4271, section 5.1.3; RFC
//! 4456, section 6).

ghost use Rattle.std.specs.Prelude.{◌≡◌, ◌==◌, ℕ, ◌+◌, ◌^◌, ◌<◌, ◌≤◌, Bool, false, if◌then◌else◌, Some, None, IfOk};
ghost use Rattle.std.specs.Prelude.{length};
ghost use Rattle.std.specs.Prelude.{max, List as ListOf};
ghost use Rattle.ios_ast.specs.declared.bgp.Bgp.{Bgp as BgpOf};
ghost use Rattle.ios_ast.specs.declared.bgp.Neighbour.{Neighbour as NeighbourOf};
ghost use Rattle.ios_ast.specs.declared.file.File.{File as FileOf};
ghost use Rattle.net_parts.specs.declared.sessions.SessionEnd.{SessionEnd as EndOf};
ghost use Rattle.term_store.specs.Terms.{Reading, size, at};
ghost use Rattle.term_store.specs.Reading.{Reads, Builds, Gives};
ghost use Rattle.term_arith.specs.Bits.{number, ids_end};
ghost use Rattle.net_interfaces.specs.Interfaces.{addressed};
ghost use Rattle.net_parts.specs.Sessions.{ends_of};
ghost use Rattle.bgp_shapes.specs.Crossings.{crossing, end_numbered, is_from};
ghost use Rattle.sym_bgp.specs.Ways.{crossing_at, crossing_end, crossing_of};

use crate::parts::{SymCrossing, Way};
use crate::routers::{Session, may_go_on, numbered, peer_of};
use ios_ast::File;
use net_interfaces::Addressed;
use net_parts::SessionEnd;
use net_parts::ends::neighbour_of;
use std::alloc::{AllocError, Global};
use term_arith::gates::{constant_node, select};
use term_arith::{Bits, choose, constant, equal_number};
use term_store::{NodeId, Terms};

/// Whether a route was learnt over an end, by the number of its peer.
#[tactic(auto, using(crate::proofs::WaySteps::equal_back))]
fn sym_is_from(
    terms: &mut Terms,
    files: &[File],
    router: u32,
    from: &Bits,
    end: &SessionEnd,
) -> Result<NodeId, AllocError>
    requires { ids_end from.now.nodes.items ≤ size terms.old }
    ensures builds { Builds terms.old terms.new }
    ensures within { IfOk result (λ r. r.0 < size terms.new) }
    ensures value { Gives terms.new result (λ w r. at w r
        ≡ is_from files.now router (number w from.now.nodes.items) end.now) }
{
    if end.router != router {
        return constant_node(terms, false);
    }
    match neighbour_of(files, end) {
        None => constant_node(terms, false),
        Some(neighbour) => equal_number(terms, from.nodes.as_slice(), numbered(neighbour.addr)),
    }
}

/// How a route goes on that was learnt over an end.
fn way_from(
    alloc: Global,
    session: &Session<'_>,
    addresses: &[Addressed],
    ends: &[SessionEnd],
    from: &SessionEnd,
) -> Result<Way, AllocError>
    requires addresses { addresses.now ≡ addressed session.now.files.now }
    requires ends { ends.now ≡ ends_of session.now.files.now }
    ensures { IfOk result (λ way. crossing_of way
        ≡ crossing session.now.files.now session.now.process.now session.now.neighbour.now session.now.end.now
        (Some from.now)) }
{
    let peer = peer_of(alloc, session.files, addresses, ends, from)?;
    Ok(Way {
        may: may_go_on(session.files, session.process, from, session.end),
        own_hop: session.neighbour.next_hop_self && !from.internal,
        reflected: from.internal,
        peer: peer.0,
    })
}

/// A way that is known, as terms.
fn known_way(alloc: Global, terms: &mut Terms, way: Way) -> Result<SymCrossing, AllocError>
    ensures builds { Builds terms.old terms.new }
    ensures within { IfOk result (λ r. crossing_end r ≤ size terms.new) }
    ensures value { Gives terms.new result (λ w r. crossing_at w r ≡ crossing_of way) }
{
    let may = constant_node(terms, way.may)?;
    let own_hop = constant_node(terms, way.own_hop)?;
    let reflected = constant_node(terms, way.reflected)?;
    let peer = constant(alloc, terms, u64::from(way.peer), 32)?;
    Ok(SymCrossing {
        may,
        own_hop,
        reflected,
        peer,
    })
}

/// The first way where a node is true, else the second.
#[tactic(auto, using(crate::proofs::WaySteps::chosen_way))]
fn choose_way(
    alloc: Global,
    terms: &mut Terms,
    c: NodeId,
    a: &SymCrossing,
    b: &SymCrossing,
) -> Result<SymCrossing, AllocError>
    requires test { c.0 < size terms.old }
    requires first { crossing_end a.now ≤ size terms.old }
    requires second { crossing_end b.now ≤ size terms.old }
    ensures builds { Builds terms.old terms.new }
    ensures within { IfOk result (λ r. crossing_end r ≤ size terms.new) }
    ensures value { Gives terms.new result (λ w r. crossing_at w r
        ≡ (if at w c then crossing_at w a.now else crossing_at w b.now)) }
{
    let may = select(terms, c, a.may, b.may)?;
    let own_hop = select(terms, c, a.own_hop, b.own_hop)?;
    let reflected = select(terms, c, a.reflected, b.reflected)?;
    let peer = choose(alloc, terms, c, &a.peer, &b.peer)?;
    Ok(SymCrossing {
        may,
        own_hop,
        reflected,
        peer,
    })
}

/// The way of a route that was learnt over an end, else another.
fn way_or(
    alloc: Global,
    terms: &mut Terms,
    files: &[File],
    from: &Bits,
    end: &SessionEnd,
    over: &SessionEnd,
    way: Way,
    other: &SymCrossing,
) -> Result<SymCrossing, AllocError>
    requires from { ids_end from.now.nodes.items ≤ size terms.old }
    requires other { crossing_end other.now ≤ size terms.old }
    ensures builds { Builds terms.old terms.new }
    ensures within { IfOk result (λ r. crossing_end r ≤ size terms.new) }
    ensures value { Gives terms.new result (λ w r. crossing_at w r
        ≡ (if is_from files.now end.now.router (number w from.now.nodes.items) over.now
        then crossing_of way else crossing_at w other.now)) }
{
    let here = sym_is_from(terms, files, end.router, from, over)?;
    let known = known_way(alloc, terms, way)?;
    let chosen = choose_way(alloc, terms, here, &known, other)?;
    Ok(chosen)
}

/// How a local route goes on: everywhere, with the own address.
fn local_way() -> Way
    ensures { (files : ListOf FileOf) (process : BgpOf) (neighbour : NeighbourOf) (end : EndOf) →
        crossing_of result ≡ crossing files process neighbour end None }
{
    Way {
        may: true,
        own_hop: true,
        reflected: false,
        peer: 0,
    }
}

/// How a route goes on over the session, by the number of the peer from which it was learnt.
pub(crate) fn sym_crossing(
    alloc: Global,
    terms: &mut Terms,
    session: &Session<'_>,
    addresses: &[Addressed],
    ends: &[SessionEnd],
    from: &Bits,
) -> Result<SymCrossing, AllocError>
    requires addresses { addresses.now ≡ addressed session.now.files.now }
    requires ends { ends.now ≡ ends_of session.now.files.now }
    requires from { ids_end from.now.nodes.items ≤ size terms.old }
    ensures builds { Builds terms.old terms.new }
    ensures within { IfOk result (λ r. crossing_end r ≤ size terms.new) }
    ensures value { Gives terms.new result (λ w r. crossing_at w r
        ≡ crossing session.now.files.now session.now.process.now session.now.neighbour.now session.now.end.now
        (end_numbered session.now.files.now session.now.end.now.router (number w from.now.nodes.items))) }
{
    let mut rest = known_way(alloc, terms, local_way())?;
    for i in (0..ends.len()).rev() {
        let over = &ends[i];
        let way = way_from(alloc, session, addresses, ends, over)?;
        rest = way_or(
            alloc,
            terms,
            session.files,
            from,
            session.end,
            over,
            way,
            &rest,
        )?;
    }
    Ok(rest)
}
