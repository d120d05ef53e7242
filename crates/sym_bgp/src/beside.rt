//! The first steps of the decision process beside the route that is held: what they leave is as good as it.

ghost use Rattle.std.specs.Prelude.{◌≡◌, ◌==◌, ℕ, ◌+◌, ◌<◌, ◌≤◌, Bool, true, false, not, ◌&&◌, ◌||◌, fold, IfOk};
ghost use Rattle.std.specs.Prelude.{length, map, [], ◌∷◌};
ghost use Rattle.term_store.specs.Terms.{Reading, size, at};
ghost use Rattle.term_store.specs.Reading.{Reads, Builds, Gives};
ghost use Rattle.term_arith.specs.Bits.{bits, ids_end};
ghost use Rattle.net_parts.specs.Decisions.{Key};
ghost use Rattle.bgp_shapes.specs.Flags.{any_flagged};
ghost use Rattle.sym_bgp.specs.Beside.{beside_at, beside_end, is_better, level_of, levels, next_beside};
ghost use Rattle.sym_bgp.specs.Keys.{key_at, key_end, keys_at, keys_end};

use crate::numbers::{beats, is_level};
use crate::parts::{SymBeside, SymKey};
use mw_text::List;
use net_parts::Step;
use std::alloc::{AllocError, Global};
use term_arith::Bits;
use term_arith::gates::{both, constant_node, either, negate};
use term_arith::lists::put;
use term_store::{NodeId, Terms};

/// Whether a key is flagged and wins against that of the held route.
fn flagged_beats(
    terms: &mut Terms,
    step: Step,
    held: &SymKey,
    flag: NodeId,
    key: &SymKey,
) -> Result<NodeId, AllocError>
    requires held { key_end held.now ≤ size terms.old }
    requires flag { flag.0 < size terms.old }
    requires key { key_end key.now ≤ size terms.old }
    ensures builds { Builds terms.old terms.new }
    ensures within { IfOk result (λ r. r.0 < size terms.new) }
    ensures value { Gives terms.new result (λ w r. at w r
        ≡ (at w flag && is_better step (key_at w held.now) (key_at w key.now))) }
{
    let won = beats(terms, step, key, held)?;
    both(terms, flag, won)
}

/// Whether some flagged key wins against that of the held route.
#[tactic(auto, using(crate::proofs::BesideSteps::beaten_steps))]
fn is_beaten(
    terms: &mut Terms,
    step: Step,
    held: &SymKey,
    flags: &[NodeId],
    keys: &[SymKey],
) -> Result<NodeId, AllocError>
    requires rows { length flags.now ≡ length keys.now }
    requires held { key_end held.now ≤ size terms.old }
    requires flags { ids_end flags.now ≤ size terms.old }
    requires keys { keys_end keys.now ≤ size terms.old }
    ensures builds { Builds terms.old terms.new }
    ensures within { IfOk result (λ r. r.0 < size terms.new) }
    ensures value { Gives terms.new result (λ w r. at w r
        ≡ any_flagged (is_better step (key_at w held.now)) (bits w flags.now) (keys_at w keys.now)) }
{
    let mut any = constant_node(terms, false)?;
    for i in 0..keys.len() {
        let here = flagged_beats(terms, step, held, flags[i], &keys[i])?;
        any = either(terms, any, here)?;
    }
    Ok(any)
}

/// Whether a key is flagged and as good as that of the held route.
fn flagged_level(
    terms: &mut Terms,
    step: Step,
    held: &SymKey,
    flag: NodeId,
    key: &SymKey,
) -> Result<NodeId, AllocError>
    requires held { key_end held.now ≤ size terms.old }
    requires flag { flag.0 < size terms.old }
    requires key { key_end key.now ≤ size terms.old }
    ensures builds { Builds terms.old terms.new }
    ensures within { IfOk result (λ r. r.0 < size terms.new) }
    ensures value { Gives terms.new result (λ w r. at w r
        ≡ (at w flag && levels step (key_at w held.now) (key_at w key.now))) }
{
    let same = is_level(terms, step, key, held)?;
    both(terms, flag, same)
}

/// The flags of the keys that are as good as that of the held route.
#[tactic(auto, using(crate::proofs::BesideSteps::level_steps))]
fn level(
    alloc: Global,
    terms: &mut Terms,
    step: Step,
    held: &SymKey,
    flags: &[NodeId],
    keys: &[SymKey],
) -> Result<List<NodeId>, AllocError>
    requires rows { length flags.now ≡ length keys.now }
    requires held { key_end held.now ≤ size terms.old }
    requires flags { ids_end flags.now ≤ size terms.old }
    requires keys { keys_end keys.now ≤ size terms.old }
    ensures builds { Builds terms.old terms.new }
    ensures within { IfOk result (λ r. ids_end r ≤ size terms.new) }
    ensures rows { IfOk result (λ r. length r ≡ length keys.now) }
    ensures value { Gives terms.new result (λ w r. bits w r
        ≡ level_of step (key_at w held.now) (bits w flags.now) (keys_at w keys.now)) }
{
    let mut out = List::new(alloc);
    for i in 0..keys.len() {
        let node = flagged_level(terms, step, held, flags[i], &keys[i])?;
        put(&mut out, node)?;
    }
    Ok(out)
}

/// Whether the held route is unbeaten after one more step.
fn still_unbeaten(
    terms: &mut Terms,
    step: Step,
    held: &SymKey,
    before: &SymBeside,
    keys: &[SymKey],
) -> Result<NodeId, AllocError>
    requires rows { length before.now.flags.nodes.items ≡ length keys.now }
    requires held { key_end held.now ≤ size terms.old }
    requires before { beside_end before.now ≤ size terms.old }
    requires keys { keys_end keys.now ≤ size terms.old }
    ensures builds { Builds terms.old terms.new }
    ensures within { IfOk result (λ r. r.0 < size terms.new) }
    ensures value { Gives terms.new result (λ w r. at w r ≡ (at w before.now.unbeaten && not (any_flagged
        (is_better step (key_at w held.now)) (bits w before.now.flags.nodes.items) (keys_at w keys.now)))) }
{
    let beaten = is_beaten(terms, step, held, before.flags.nodes.as_slice(), keys)?;
    let kept = negate(terms, beaten)?;
    both(terms, before.unbeaten, kept)
}

/// What is left beside the held route after one more step.
fn beside(
    alloc: Global,
    terms: &mut Terms,
    step: Step,
    held: &SymKey,
    before: &SymBeside,
    keys: &[SymKey],
) -> Result<SymBeside, AllocError>
    requires rows { length before.now.flags.nodes.items ≡ length keys.now }
    requires held { key_end held.now ≤ size terms.old }
    requires before { beside_end before.now ≤ size terms.old }
    requires keys { keys_end keys.now ≤ size terms.old }
    ensures builds { Builds terms.old terms.new }
    ensures within { IfOk result (λ r. beside_end r ≤ size terms.new) }
    ensures rows { IfOk result (λ r. length r.flags.nodes.items ≡ length keys.now) }
    ensures value { Gives terms.new result (λ w r. beside_at w r
        ≡ next_beside (key_at w held.now) (keys_at w keys.now) (beside_at w before.now) step) }
{
    let unbeaten = still_unbeaten(terms, step, held, before, keys)?;
    let nodes = level(
        alloc,
        terms,
        step,
        held,
        before.flags.nodes.as_slice(),
        keys,
    )?;
    let flags = Bits { nodes: nodes.items };
    Ok(SymBeside { unbeaten, flags })
}

/// What is left beside the held route after several steps.
#[tactic(auto, using(crate::proofs::BesideSteps::beside_steps))]
pub(crate) fn sym_beside(
    alloc: Global,
    terms: &mut Terms,
    steps: &[Step],
    held: &SymKey,
    before: SymBeside,
    keys: &[SymKey],
) -> Result<SymBeside, AllocError>
    requires rows { length before.flags.nodes.items ≡ length keys.now }
    requires held { key_end held.now ≤ size terms.old }
    requires before { beside_end before ≤ size terms.old }
    requires keys { keys_end keys.now ≤ size terms.old }
    ensures builds { Builds terms.old terms.new }
    ensures within { IfOk result (λ r. beside_end r ≤ size terms.new) }
    ensures rows { IfOk result (λ r. length r.flags.nodes.items ≡ length keys.now) }
    ensures value { Gives terms.new result (λ w r. beside_at w r
        ≡ fold (next_beside (key_at w held.now) (keys_at w keys.now)) (beside_at w before) steps.now) }
{
    let mut here = before;
    for step in steps {
        here = beside(alloc, terms, *step, held, &here, keys)?;
    }
    Ok(here)
}
