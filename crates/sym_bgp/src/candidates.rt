//! What the steps of the decision process compare of a candidate, as terms.

ghost use Rattle.std.specs.Prelude.{◌≡◌, ◌==◌, ℕ, ◌+◌, ◌-◌, ◌%◌, ◌^◌, ◌<◌, ◌≤◌, ◌++◌, [], ◌∷◌, Bool, true, false};
ghost use Rattle.std.specs.Prelude.{not, nat_lt, if◌then◌else◌, IfOk, OnOk, length, map, max};
ghost use Rattle.term_store.specs.Terms.{Reading, size, at};
ghost use Rattle.term_store.specs.Reading.{Reads, Builds, Gives};
ghost use Rattle.term_arith.specs.Bits.{bits, number, ids_end};
ghost use Rattle.sym_policy.specs.Held.{bgp_at, bgp_of, bgp_end};
ghost use Rattle.bgp_shapes.specs.Candidates.{address_or as address_number_or, shape_key};
ghost use Rattle.bgp_shapes.specs.Messages.{lacks_address};
ghost use Rattle.sym_bgp.specs.Beside.{key_beside};
ghost use Rattle.sym_bgp.specs.Candidates.{candidate_at, candidate_end, candidates_end};
ghost use Rattle.sym_bgp.specs.Keys.{key_at, key_end, keys_at, keys_end, mark_end, rank_at, rank_end, reach_at};
ghost use Rattle.sym_bgp.specs.Keys.{reach_end, tie_at, tie_end};

use crate::parts::{SymAddress, SymCand, SymKey, SymMark, SymRank, SymReach, SymTie};
use mw_text::List;
use std::alloc::{AllocError, Global};
use sym_policy::SymBgp;
use term_arith::gates::{constant_node, negate};
use term_arith::{Bits, choose, constant, copy};
use term_store::{NodeId, Terms};

/// A number of one bit.
fn one_bit(alloc: Global, node: NodeId) -> Result<Bits, AllocError>
    ensures { IfOk result (λ r. r.nodes.items ≡ node ∷ []) }
{
    let nodes = Vec::from_slice(alloc, &[node])?;
    Ok(Bits { nodes })
}

/// A mark of a node.
fn mark(alloc: Global, node: NodeId) -> Result<SymMark, AllocError>
    ensures { IfOk result (λ r. r.node ≡ node) }
{
    let bit = one_bit(alloc, node)?;
    Ok(SymMark { node, bit })
}

/// The address that a field of 33 bits has.
#[tactic(auto, using(crate::proofs::Addresses::address_steps))]
fn address_of(alloc: Global, field: &Bits) -> Result<SymAddress, AllocError>
    requires { length field.now.nodes.items ≡ 33 }
    ensures there { IfOk result (λ r. r.there.0 < ids_end field.now.nodes.items) }
    ensures nodes { IfOk result (λ r. ids_end r.number.nodes.items ≤ ids_end field.now.nodes.items) }
    ensures lacks { IfOk result (λ r. (w : Reading) → not (at w r.there)
        ≡ lacks_address (number w field.now.nodes.items)) }
    ensures value { IfOk result (λ r. (w : Reading) → at w r.there ≡ true → number w r.number.nodes.items
        ≡ number w field.now.nodes.items - 2 ^ 32) }
{
    let ids = field.nodes.as_slice();
    let there = ids[32];
    let nodes = Vec::from_slice(alloc, &ids[..32])?;
    Ok(SymAddress {
        there,
        number: Bits { nodes },
    })
}

/// The address that a field has, and another number where it has none.
#[tactic(auto, using(crate::proofs::Addresses::address_chosen))]
fn address_or(
    alloc: Global,
    terms: &mut Terms,
    field: &Bits,
    other: &Bits,
) -> Result<Bits, AllocError>
    requires wide { length field.now.nodes.items ≡ 33 }
    requires other_wide { length other.now.nodes.items ≡ 32 }
    requires nodes { ids_end field.now.nodes.items ≤ size terms.old }
    requires other { ids_end other.now.nodes.items ≤ size terms.old }
    ensures builds { Builds terms.old terms.new }
    ensures within { IfOk result (λ r. ids_end r.nodes.items ≤ size terms.new) }
    ensures width { IfOk result (λ r. length r.nodes.items ≡ 32) }
    ensures value { Gives terms.new result (λ w r. number w r.nodes.items
        ≡ address_number_or (number w field.now.nodes.items) (number w other.now.nodes.items)) }
{
    let address = address_of(alloc, field)?;
    choose(alloc, terms, address.there, &address.number, other)
}

/// Whether a field has no address.
pub(crate) fn lacks(alloc: Global, terms: &mut Terms, field: &Bits) -> Result<NodeId, AllocError>
    requires wide { length field.now.nodes.items ≡ 33 }
    requires nodes { ids_end field.now.nodes.items ≤ size terms.old }
    ensures builds { Builds terms.old terms.new }
    ensures within { IfOk result (λ r. r.0 < size terms.new) }
    ensures value { Gives terms.new result (λ w r. at w r ≡ lacks_address (number w field.now.nodes.items)) }
{
    let address = address_of(alloc, field)?;
    negate(terms, address.there)
}

/// Whether the route is local, as a mark.
fn local_mark(alloc: Global, terms: &mut Terms, rec: &SymBgp) -> Result<SymMark, AllocError>
    requires { bgp_end rec.now ≤ size terms.old }
    ensures builds { Builds terms.old terms.new }
    ensures within { IfOk result (λ r. mark_end r ≤ size terms.new) }
    ensures value { Gives terms.new result (λ w r. at w r.node ≡ lacks_address (number w rec.now.from.nodes.items)) }
{
    let local = lacks(alloc, terms, &rec.from)?;
    mark(alloc, local)
}

/// What the first steps compare.
fn rank(alloc: Global, terms: &mut Terms, rec: &SymBgp) -> Result<SymRank, AllocError>
    requires { bgp_end rec.now ≤ size terms.old }
    ensures builds { Builds terms.old terms.new }
    ensures within { IfOk result (λ r. rank_end r ≤ size terms.new) }
    ensures value { Gives terms.new result (λ w r. rank_at w r ≡ record {
      weight = number w rec.now.weight.nodes.items;
      local_pref = number w rec.now.local_pref.nodes.items;
      local = lacks_address (number w rec.now.from.nodes.items);
      len = number w rec.now.len.nodes.items;
    }) }
{
    let local = local_mark(alloc, terms, rec)?;
    let weight = copy(alloc, &rec.weight)?;
    let local_pref = copy(alloc, &rec.local_pref)?;
    let len = copy(alloc, &rec.len)?;
    Ok(SymRank {
        weight,
        local_pref,
        local,
        len,
    })
}

/// What the next steps compare.
fn reach(alloc: Global, rec: &SymBgp, external: NodeId) -> Result<SymReach, AllocError>
    ensures within { IfOk result (λ r. (n : ℕ) → bgp_end rec.now ≤ n → external.0 < n → reach_end r ≤ n) }
    ensures value { IfOk result (λ r. (w : Reading) → reach_at w r ≡ record {
      origin = number w rec.now.origin.nodes.items;
      first = number w rec.now.first.nodes.items;
      med = number w rec.now.med.nodes.items;
      external = at w external;
    }) }
{
    let external = mark(alloc, external)?;
    let origin = copy(alloc, &rec.origin)?;
    let first = copy(alloc, &rec.first)?;
    let med = copy(alloc, &rec.med)?;
    Ok(SymReach {
        origin,
        first,
        med,
        external,
    })
}

/// The address of the peer, 0.0.0.0 of a local route.
fn peer_address(alloc: Global, terms: &mut Terms, from: &Bits) -> Result<Bits, AllocError>
    requires wide { length from.now.nodes.items ≡ 33 }
    requires nodes { ids_end from.now.nodes.items ≤ size terms.old }
    ensures builds { Builds terms.old terms.new }
    ensures within { IfOk result (λ r. ids_end r.nodes.items ≤ size terms.new) }
    ensures width { IfOk result (λ r. length r.nodes.items ≡ 32) }
    ensures value { Gives terms.new result (λ w r. number w r.nodes.items
        ≡ address_number_or (number w from.now.nodes.items) 0) }
{
    let zero = constant(alloc, terms, 0, 32)?;
    address_or(alloc, terms, from, &zero)
}

/// What the last steps compare.
fn tie(
    alloc: Global,
    terms: &mut Terms,
    rec: &SymBgp,
    cost: &Bits,
    peer_id: &Bits,
) -> Result<SymTie, AllocError>
    requires cost_wide { length cost.now.nodes.items ≡ 32 }
    requires peer_id_wide { length peer_id.now.nodes.items ≡ 32 }
    requires rec { bgp_end rec.now ≤ size terms.old }
    requires cost { ids_end cost.now.nodes.items ≤ size terms.old }
    requires peer_id { ids_end peer_id.now.nodes.items ≤ size terms.old }
    ensures builds { Builds terms.old terms.new }
    ensures within { IfOk result (λ r. tie_end r ≤ size terms.new) }
    ensures value { Gives terms.new result (λ w r. tie_at w r ≡ record {
      cost = number w cost.now.nodes.items;
      id = address_number_or (number w rec.now.originator.nodes.items) (number w peer_id.now.nodes.items);
      clusters = number w rec.now.cluster_len.nodes.items;
      address = address_number_or (number w rec.now.from.nodes.items) 0;
    }) }
{
    let id = address_or(alloc, terms, &rec.originator, peer_id)?;
    let address = peer_address(alloc, terms, &rec.from)?;
    let cost = copy(alloc, cost)?;
    let clusters = copy(alloc, &rec.cluster_len)?;
    Ok(SymTie {
        cost,
        id,
        clusters,
        address,
    })
}

/// What the steps compare of a route with these marks.
fn key_from(
    alloc: Global,
    terms: &mut Terms,
    rec: &SymBgp,
    external: NodeId,
    cost: &Bits,
    peer_id: &Bits,
) -> Result<SymKey, AllocError>
    requires cost_wide { length cost.now.nodes.items ≡ 32 }
    requires peer_id_wide { length peer_id.now.nodes.items ≡ 32 }
    requires rec { bgp_end rec.now ≤ size terms.old }
    requires external { external.0 < size terms.old }
    requires cost { ids_end cost.now.nodes.items ≤ size terms.old }
    requires peer_id { ids_end peer_id.now.nodes.items ≤ size terms.old }
    ensures builds { Builds terms.old terms.new }
    ensures within { IfOk result (λ r. key_end r ≤ size terms.new) }
    ensures value { Gives terms.new result (λ w r. key_at w r ≡ shape_key record {
      rec = bgp_at w rec.now;
      external = at w external;
      cost = number w cost.now.nodes.items;
      peer_id = number w peer_id.now.nodes.items;
    }) }
{
    let rank = rank(alloc, terms, rec)?;
    let tie = tie(alloc, terms, rec, cost, peer_id)?;
    let reach = reach(alloc, rec, external)?;
    Ok(SymKey { rank, reach, tie })
}

/// What the steps compare of a candidate.
fn sym_key(alloc: Global, terms: &mut Terms, cand: &SymCand) -> Result<SymKey, AllocError>
    requires { candidate_end cand.now ≤ size terms.old }
    ensures builds { Builds terms.old terms.new }
    ensures within { IfOk result (λ r. key_end r ≤ size terms.new) }
    ensures value { Gives terms.new result (λ w r. key_at w r ≡ shape_key (candidate_at w cand.now)) }
{
    key_from(
        alloc,
        terms,
        &cand.rec,
        cand.external,
        &cand.cost,
        &cand.peer_id,
    )
}

/// What the steps up to that of the origin compare of a route, in a key whose other numbers are 0.
pub(crate) fn held_key(
    alloc: Global,
    terms: &mut Terms,
    held: &SymBgp,
) -> Result<SymKey, AllocError>
    requires { bgp_end held.now ≤ size terms.old }
    ensures builds { Builds terms.old terms.new }
    ensures within { IfOk result (λ r. key_end r ≤ size terms.new) }
    ensures value { Gives terms.new result (λ w r. key_at w r ≡ key_beside (bgp_at w held.now)) }
{
    let external = constant_node(terms, false)?;
    let zero = constant(alloc, terms, 0, 32)?;
    key_from(alloc, terms, held, external, &zero, &zero)
}

/// Puts a key at the end.
fn put_key(keys: &mut List<SymKey>, key: SymKey) -> Result<(), AllocError>
    ensures { OnOk result (keys.new ≡ keys.old ++ key ∷ []) }
{
    keys.items.push(key)?;
    Ok(())
}

/// What the steps compare of all candidates.
#[tactic(auto, using(crate::proofs::HeldSteps::key_steps))]
pub(crate) fn sym_keys(
    alloc: Global,
    terms: &mut Terms,
    cands: &[SymCand],
) -> Result<List<SymKey>, AllocError>
    requires { candidates_end cands.now ≤ size terms.old }
    ensures builds { Builds terms.old terms.new }
    ensures within { IfOk result (λ r. keys_end r ≤ size terms.new) }
    ensures rows { IfOk result (λ r. length r ≡ length cands.now) }
    ensures value { Gives terms.new result (λ w r. keys_at w r ≡ map shape_key (map (candidate_at w) cands.now)) }
{
    let mut keys = List::new(alloc);
    for cand in cands {
        let key = sym_key(alloc, terms, cand)?;
        put_key(&mut keys, key)?;
    }
    Ok(keys)
}
