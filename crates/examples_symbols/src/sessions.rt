//! The calls over sessions: what is sent and taken of a route, and whether a route survives the decision process.

ghost use Rattle.std.specs.Prelude.{◌≡◌, ◌≤◌, ◌<◌, ◌++◌, ◌∷◌, [], IfOk, OnOk, length, true};
ghost use Rattle.term_store.specs.Terms.{size};
ghost use Rattle.term_arith.specs.Bits.{ids_end};
ghost use Rattle.net_parts.specs.Sessions.{ends_of};
ghost use Rattle.sym_policy.specs.Held.{bgp_end};
ghost use Rattle.sym_bgp.specs.Candidates.{HaveMarksOf, SameMarks, candidate_end, candidates_end};
ghost use Rattle.sym_policy.specs.MapRecs.{HasTracked};

use crate::fresh::fresh_bgp;
use mw_text::List;
use net_model::Net;
use route_record::Tracked;
use std::alloc::{AllocError, Global};
use sym_bgp::{SymCand, sym_export, sym_import, sym_survives};
use sym_policy::SymBgp;
use term_arith::{Bits, fresh_bits};
use term_store::{NodeId, Terms};

/// Whether the route has a node for each value that is tracked.
fn has_marks(tracked: &Tracked, bgp: &SymBgp) -> bool
    ensures { result ≡ true → HasTracked tracked.now bgp.now }
{
    bgp.numbers.nodes.as_slice().len() == tracked.numbers.as_slice().len()
        && bgp.communities.nodes.as_slice().len() == tracked.communities.as_slice().len()
        && bgp.clusters.nodes.as_slice().len() == tracked.clusters.as_slice().len()
}

/// A destination, and a route to its prefix.
#[derive(Drop)]
struct Towards {
    dst: Bits,
    bgp: SymBgp,
    ghost wide: { length dst.nodes.items ≡ 32 },
}

fn fresh_towards(alloc: Global, terms: &mut Terms, net: &Net) -> Result<Towards, AllocError>
    ensures dst { IfOk result (λ r. ids_end r.dst.nodes.items ≤ size terms.new) }
    ensures bgp { IfOk result (λ r. bgp_end r.bgp ≤ size terms.new) }
{
    let dst = fresh_bits(alloc, terms, 32)?;
    let bgp = fresh_bgp(alloc, terms, net.tracked())?;
    Ok(Towards { dst, bgp })
}

/// What is sent over the session of an end of the route that its router holds: first the variables of a destination,
/// then those of the route.
pub fn sent(
    alloc: Global,
    terms: &mut Terms,
    net: &Net,
    end: u32,
    len: u8,
) -> Result<Option<SymBgp>, AllocError>
    requires { len ≤ 32 }
{
    let held = fresh_towards(alloc, terms, net)?;
    if end as usize >= net.ends().len() || !has_marks(net.tracked(), &held.bgp) {
        return Ok(None);
    }
    Ok(Some(sym_export(alloc, terms, net, end, &held.dst, len, &held.bgp)?))
}

/// What the router at an end makes of a message: the same variables.
pub fn taken(
    alloc: Global,
    terms: &mut Terms,
    net: &Net,
    end: u32,
    len: u8,
) -> Result<Option<SymBgp>, AllocError>
    requires { len ≤ 32 }
{
    let message = fresh_towards(alloc, terms, net)?;
    if end as usize >= net.ends().len() || !has_marks(net.tracked(), &message.bgp) {
        return Ok(None);
    }
    Ok(Some(sym_import(alloc, terms, net, end, &message.dst, len, &message.bgp)?))
}

/// A candidate: a route, whether it was learnt over an external session, its cost and the identifier of its peer.
fn fresh_candidate(
    alloc: Global,
    terms: &mut Terms,
    tracked: &Tracked,
) -> Result<SymCand, AllocError>
    ensures larger { size terms.old ≤ size terms.new }
    ensures within { IfOk result (λ r. candidate_end r ≤ size terms.new) }
{
    let rec = fresh_bgp(alloc, terms, tracked)?;
    let external = terms.fresh()?;
    let cost = fresh_bits(alloc, terms, 32)?;
    let peer_id = fresh_bits(alloc, terms, 32)?;
    Ok(SymCand {
        rec,
        external,
        cost,
        peer_id,
    })
}

fn put_candidate(candidates: &mut List<SymCand>, next: SymCand) -> Result<(), AllocError>
    ensures { OnOk result (candidates.new ≡ candidates.old ++ next ∷ []) }
{
    candidates.items.push(next)?;
    Ok(())
}

#[tactic(auto, using(sym_bgp::proofs::CandidatesEnd::candidates_end_push))]
fn fresh_candidates(
    alloc: Global,
    terms: &mut Terms,
    tracked: &Tracked,
    count: u32,
) -> Result<List<SymCand>, AllocError>
    ensures within { IfOk result (λ r. candidates_end r ≤ size terms.new) }
{
    let mut candidates = List::new(alloc);
    for place in 0..count {
        let next = fresh_candidate(alloc, terms, tracked)?;
        put_candidate(&mut candidates, next)?;
    }
    Ok(candidates)
}

/// Whether both routes have as many nodes for tracked values.
fn is_alike(a: &SymBgp, b: &SymBgp) -> bool
    ensures { result ≡ true → SameMarks a.now b.now }
{
    a.numbers.nodes.as_slice().len() == b.numbers.nodes.as_slice().len()
        && a.communities.nodes.as_slice().len() == b.communities.nodes.as_slice().len()
        && a.clusters.nodes.as_slice().len() == b.clusters.nodes.as_slice().len()
}

fn are_alike(held: &SymBgp, candidates: &[SymCand]) -> bool
    ensures { result ≡ true → HaveMarksOf held.now candidates.now }
{
    for c in candidates {
        if !is_alike(&c.rec, held) {
            return false;
        }
    }
    true
}

/// Whether a route survives among so many candidates: first the variables of the candidates, each with its route, and
/// then those of the route.
pub fn survives(
    alloc: Global,
    terms: &mut Terms,
    net: &Net,
    always_compare: bool,
    compare_id: bool,
    count: u32,
) -> Result<Option<NodeId>, AllocError> {
    let candidates = fresh_candidates(alloc, terms, net.tracked(), count)?;
    let held = fresh_bgp(alloc, terms, net.tracked())?;
    if !are_alike(&held, candidates.as_slice()) {
        return Ok(None);
    }
    Ok(Some(sym_survives(
        alloc,
        terms,
        always_compare,
        compare_id,
        candidates.as_slice(),
        &held,
    )?))
}
