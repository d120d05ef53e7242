//! Whether a route is held, as a term.

ghost use Rattle.std.specs.Prelude.{◌≡◌, ◌==◌, ℕ, ◌+◌, ◌<◌, ◌≤◌, Bool, true, false, not, ◌&&◌, ◌||◌, if◌then◌else◌};
ghost use Rattle.std.specs.Prelude.{IfOk, length, map, max, [], ◌∷◌, ◌++◌};
ghost use Rattle.std.specs.List.{filter_map, list_any};
ghost use Rattle.term_store.specs.Terms.{Reading, size, at};
ghost use Rattle.term_store.specs.Reading.{Reads, Builds, Gives};
ghost use Rattle.term_arith.specs.Bits.{bits, number, ids_end};
ghost use Rattle.sym_policy.specs.Held.{bgp_at, bgp_of, bgp_end};
ghost use Rattle.bgp_shapes.specs.Candidates.{ShapeCandidate, shape_key};
ghost use Rattle.bgp_shapes.specs.Flags.{any_flagged, surviving};
ghost use Rattle.bgp_shapes.specs.Held.{held_shape, same_shape};
ghost use Rattle.sym_bgp.specs.Candidates.{candidate_at, candidate_end, candidate_of, candidates_end, HaveMarksOf};
ghost use Rattle.sym_bgp.specs.Candidates.{SameMarks};
ghost use Rattle.sym_bgp.specs.Beside.{all_beside, beside_at, beside_end, key_beside};
ghost use Rattle.sym_bgp.specs.Keys.{keys_at, keys_end};

use crate::beside::sym_beside;
use crate::candidates::{held_key, sym_keys};
use crate::parts::{SymBeside, SymCand, SymKey};
use crate::same::sym_same;
use crate::steps::sym_surviving;
use mw_text::List;
use net_parts::Step;
use std::alloc::{AllocError, Global};
use sym_policy::SymBgp;
use term_arith::Bits;
use term_arith::gates::{both, constant_node, either, is_never, negate, select};
use term_arith::lists::{any_of, put};
use term_store::{NodeId, Terms};

/// The nodes that say which candidates are there.
#[tactic(auto, using(crate::proofs::HeldSteps::valid_steps))]
fn valids(alloc: Global, cands: &[SymCand]) -> Result<Bits, AllocError>
    ensures within { IfOk result (λ r. ids_end r.nodes.items ≤ candidates_end cands.now) }
    ensures rows { IfOk result (λ r. length r.nodes.items ≡ length cands.now) }
    ensures value { IfOk result (λ r. r.nodes.items ≡ map (λ c. c.rec.valid) cands.now) }
{
    let mut nodes = List::new(alloc);
    for cand in cands {
        put(&mut nodes, cand.rec.valid)?;
    }
    Ok(Bits { nodes: nodes.items })
}

/// Whether a candidate is flagged and has the shape of a route.
fn is_held(
    terms: &mut Terms,
    flag: NodeId,
    cand: &SymCand,
    held: &SymBgp,
) -> Result<NodeId, AllocError>
    requires marks { SameMarks cand.now.rec held.now }
    requires flag { flag.0 < size terms.old }
    requires cand { candidate_end cand.now ≤ size terms.old }
    requires held { bgp_end held.now ≤ size terms.old }
    ensures builds { Builds terms.old terms.new }
    ensures within { IfOk result (λ r. r.0 < size terms.new) }
    ensures value { Gives terms.new result (λ w r. at w r
        ≡ (at w flag && same_shape (candidate_at w cand.now).rec (bgp_at w held.now))) }
{
    let same = sym_same(terms, &cand.rec, held)?;
    both(terms, flag, same)
}

/// Whether some flagged candidate has the shape of a route.
#[tactic(auto, using(crate::proofs::HeldSteps::held_steps))]
fn any_held(
    terms: &mut Terms,
    flags: &[NodeId],
    cands: &[SymCand],
    held: &SymBgp,
) -> Result<NodeId, AllocError>
    requires rows { length flags.now ≡ length cands.now }
    requires marks { HaveMarksOf held.now cands.now }
    requires flags { ids_end flags.now ≤ size terms.old }
    requires cands { candidates_end cands.now ≤ size terms.old }
    requires held { bgp_end held.now ≤ size terms.old }
    ensures builds { Builds terms.old terms.new }
    ensures within { IfOk result (λ r. r.0 < size terms.new) }
    ensures value { Gives terms.new result (λ w r. at w r
        ≡ any_flagged (λ (c : ShapeCandidate). same_shape c.rec (bgp_at w held.now)) (bits w flags.now)
        (map (candidate_at w) cands.now)) }
{
    let mut any = constant_node(terms, false)?;
    for i in 0..cands.len() {
        let here = is_held(terms, flags[i], &cands[i], held)?;
        any = either(terms, any, here)?;
    }
    Ok(any)
}

/// Whether the route of a candidate may be a reflected one.
#[tactic(auto, using(crate::proofs::Addresses::address_steps))]
fn may_be_reflected(terms: &Terms, cand: &SymCand) -> bool
    requires { candidate_end cand.now ≤ size terms.now }
{
    let there = cand.rec.originator.nodes.as_slice()[32];
    !is_never(terms, there)
}

/// Whether all identifiers are those of the peers, which are the same at all lengths.
#[tactic(auto, using(crate::proofs::HeldSteps::key_steps))]
fn are_fixed(terms: &Terms, cands: &[SymCand]) -> bool
    requires { candidates_end cands.now ≤ size terms.now }
{
    for cand in cands {
        if may_be_reflected(terms, cand) {
            return false;
        }
    }
    true
}

/// The steps whose numbers a route says itself.
const RANKED: [Step; 5] = [
    Step::Weight,
    Step::Preference,
    Step::Origination,
    Step::PathLength,
    Step::Origin,
];

/// What is left of the candidates that are there beside a route, after the steps up to that of the origin.
fn first_left(
    alloc: Global,
    terms: &mut Terms,
    there: Bits,
    keys: &[SymKey],
    held: &SymBgp,
) -> Result<SymBeside, AllocError>
    requires rows { length there.nodes.items ≡ length keys.now }
    requires there { ids_end there.nodes.items ≤ size terms.old }
    requires keys { keys_end keys.now ≤ size terms.old }
    requires held { bgp_end held.now ≤ size terms.old }
    ensures builds { Builds terms.old terms.new }
    ensures within { IfOk result (λ r. beside_end r ≤ size terms.new) }
    ensures rows { IfOk result (λ r. length r.flags.nodes.items ≡ length keys.now) }
    ensures value { Gives terms.new result (λ w r. beside_at w r
        ≡ all_beside (key_beside (bgp_at w held.now)) (keys_at w keys.now) (bits w there.nodes.items)) }
{
    let key = held_key(alloc, terms, held)?;
    let unbeaten = constant_node(terms, true)?;
    let before = SymBeside {
        unbeaten,
        flags: there,
    };
    sym_beside(alloc, terms, &RANKED, &key, before, keys)
}

/// Whether some candidate that survives has the shape of a route.
fn survivor_held(
    alloc: Global,
    terms: &mut Terms,
    always_compare: bool,
    compare_id: bool,
    there: Bits,
    cands: &[SymCand],
    held: &SymBgp,
) -> Result<NodeId, AllocError>
    requires rows { length there.nodes.items ≡ length cands.now }
    requires marks { HaveMarksOf held.now cands.now }
    requires there { ids_end there.nodes.items ≤ size terms.old }
    requires cands { candidates_end cands.now ≤ size terms.old }
    requires held { bgp_end held.now ≤ size terms.old }
    ensures builds { Builds terms.old terms.new }
    ensures within { IfOk result (λ r. r.0 < size terms.new) }
    ensures value { Gives terms.new result (λ w r. at w r
        ≡ any_flagged (λ (c : ShapeCandidate). same_shape c.rec (bgp_at w held.now))
        (surviving always_compare compare_id (bits w there.nodes.items)
        (map shape_key (map (candidate_at w) cands.now))) (map (candidate_at w) cands.now)) }
{
    let keys = sym_keys(alloc, terms, cands)?;
    let keys = keys.as_slice();
    let fixed = are_fixed(terms, cands);
    let first = first_left(alloc, terms, there, keys, held)?;
    let SymBeside { unbeaten, flags } = first;
    let left = sym_surviving(alloc, terms, always_compare, compare_id, fixed, flags, keys)?;
    let here = any_held(terms, left.nodes.as_slice(), cands, held)?;
    both(terms, unbeaten, here)
}

/// Whether no node is true.
fn none_of(terms: &mut Terms, nodes: &[NodeId]) -> Result<NodeId, AllocError>
    requires { ids_end nodes.now ≤ size terms.old }
    ensures builds { Builds terms.old terms.new }
    ensures within { IfOk result (λ r. r.0 < size terms.new) }
    ensures value { Gives terms.new result (λ w r. at w r ≡ not (list_any (at w) nodes.now)) }
{
    let some = any_of(terms, nodes)?;
    negate(terms, some)
}

/// Whether a route is held (RFC 4271, section 9.1.2): it has the shape of a candidate that survives the decision
/// process among those that are there; and there is none exactly where no candidate is. Each row of marks of the
/// candidates is to be as long as that of the route.
#[tactic(auto, using(crate::proofs::HeldSteps::survives_law))]
pub fn sym_survives(
    alloc: Global,
    terms: &mut Terms,
    always_compare: bool,
    compare_id: bool,
    cands: &[SymCand],
    held: &SymBgp,
) -> Result<NodeId, AllocError>
    requires marks { HaveMarksOf held.now cands.now }
    requires cands { candidates_end cands.now ≤ size terms.old }
    requires held { bgp_end held.now ≤ size terms.old }
    ensures builds { Builds terms.old terms.new }
    ensures within { IfOk result (λ r. r.0 < size terms.new) }
    ensures value { Gives terms.new result (λ w r. at w r
        ≡ held_shape always_compare compare_id (filter_map (candidate_of w) cands.now) (bgp_of w held.now)) }
{
    let there = valids(alloc, cands)?;
    let none = none_of(terms, there.nodes.as_slice())?;
    let survives = survivor_held(alloc, terms, always_compare, compare_id, there, cands, held)?;
    select(terms, held.valid, survives, none)
}
