//! The steps of the decision process as terms: a flag for each candidate says whether it is left.

ghost use Rattle.std.specs.Prelude.{◌≡◌, ◌==◌, ℕ, ◌+◌, ◌<◌, ◌≤◌, Bool, false, not, ◌&&◌, ◌||◌, nat_lt, fold, IfOk};
ghost use Rattle.std.specs.Prelude.{length, map, [], ◌∷◌};
ghost use Rattle.term_store.specs.Terms.{Reading, size, at};
ghost use Rattle.term_store.specs.Reading.{Reads, Builds, Gives};
ghost use Rattle.term_arith.specs.Bits.{bits, number, ids_end};
ghost use Rattle.net_parts.specs.Decisions.{Key, removes};
ghost use Rattle.bgp_shapes.specs.Flags.{any_flagged, left as flags_left, left_of};
ghost use Rattle.sym_bgp.specs.Beside.{is_by_pairs, is_same_as, surviving_last};
ghost use Rattle.sym_bgp.specs.Keys.{key_at, key_end, keys_at, keys_end};

use crate::numbers::{beats, left_by_best};
use crate::parts::SymKey;
use mw_text::List;
use net_parts::Step;
use std::alloc::{AllocError, Global};
use term_arith::gates::{both, constant_node, either, negate};
use term_arith::lists::put;
use term_arith::{Bits, choose, copy, equal};
use term_store::{NodeId, Terms};

/// Whether the paths of two keys begin with the same AS, where a step asks for that.
fn is_comparable(
    terms: &mut Terms,
    step: Step,
    c: &SymKey,
    other: &SymKey,
) -> Result<NodeId, AllocError>
    requires key { key_end c.now ≤ size terms.old }
    requires other { key_end other.now ≤ size terms.old }
    ensures builds { Builds terms.old terms.new }
    ensures within { IfOk result (λ r. r.0 < size terms.new) }
    ensures value { Gives terms.new result (λ w r. at w r
        ≡ is_same_as step (key_at w c.now) (key_at w other.now)) }
{
    match step {
        Step::Med => equal(terms, &c.reach.first, &other.reach.first),
        _ => constant_node(terms, true),
    }
}

/// Whether a key is flagged that removes another one in a step.
#[tactic(auto, using(crate::proofs::FlagSteps::removes_read))]
fn removes_here(
    terms: &mut Terms,
    step: Step,
    c: &SymKey,
    flag: NodeId,
    other: &SymKey,
) -> Result<NodeId, AllocError>
    requires key { key_end c.now ≤ size terms.old }
    requires flag { flag.0 < size terms.old }
    requires other { key_end other.now ≤ size terms.old }
    ensures builds { Builds terms.old terms.new }
    ensures within { IfOk result (λ r. r.0 < size terms.new) }
    ensures value { Gives terms.new result (λ w r. at w r
        ≡ (at w flag && removes false step (key_at w c.now) (key_at w other.now))) }
{
    let won = beats(terms, step, other, c)?;
    let same = is_comparable(terms, step, c, other)?;
    let here = both(terms, same, won)?;
    both(terms, flag, here)
}

/// Whether some flagged key removes another one in a step.
#[tactic(auto, using(crate::proofs::FlagSteps::removed_steps))]
fn removed(
    terms: &mut Terms,
    step: Step,
    c: &SymKey,
    flags: &[NodeId],
    keys: &[SymKey],
) -> Result<NodeId, AllocError>
    requires rows { length flags.now ≡ length keys.now }
    requires key { key_end c.now ≤ size terms.old }
    requires flags { ids_end flags.now ≤ size terms.old }
    requires keys { keys_end keys.now ≤ size terms.old }
    ensures builds { Builds terms.old terms.new }
    ensures within { IfOk result (λ r. r.0 < size terms.new) }
    ensures value { Gives terms.new result (λ w r. at w r
        ≡ any_flagged (removes false step (key_at w c.now)) (bits w flags.now) (keys_at w keys.now)) }
{
    let mut any = constant_node(terms, false)?;
    for i in 0..keys.len() {
        let here = removes_here(terms, step, c, flags[i], &keys[i])?;
        any = either(terms, any, here)?;
    }
    Ok(any)
}

/// The flag of a key which no other that is left removes in a step.
fn flag_left(
    terms: &mut Terms,
    step: Step,
    flag: NodeId,
    c: &SymKey,
    flags: &[NodeId],
    keys: &[SymKey],
) -> Result<NodeId, AllocError>
    requires rows { length flags.now ≡ length keys.now }
    requires flag { flag.0 < size terms.old }
    requires key { key_end c.now ≤ size terms.old }
    requires flags { ids_end flags.now ≤ size terms.old }
    requires keys { keys_end keys.now ≤ size terms.old }
    ensures builds { Builds terms.old terms.new }
    ensures within { IfOk result (λ r. r.0 < size terms.new) }
    ensures value { Gives terms.new result (λ w r. at w r
        ≡ (at w flag && not (any_flagged (removes false step (key_at w c.now)) (bits w flags.now)
        (keys_at w keys.now)))) }
{
    let gone = removed(terms, step, c, flags, keys)?;
    let kept = negate(terms, gone)?;
    both(terms, flag, kept)
}

/// The flags that a step leaves, key against key. The step of the MED compares it within one neighbouring AS.
#[tactic(auto, using(crate::proofs::FlagSteps::left_steps))]
fn left_by_pairs(
    alloc: Global,
    terms: &mut Terms,
    step: Step,
    flags: &[NodeId],
    keys: &[SymKey],
) -> Result<List<NodeId>, AllocError>
    requires rows { length flags.now ≡ length keys.now }
    requires flags { ids_end flags.now ≤ size terms.old }
    requires keys { keys_end keys.now ≤ size terms.old }
    ensures builds { Builds terms.old terms.new }
    ensures within { IfOk result (λ r. ids_end r ≤ size terms.new) }
    ensures rows { IfOk result (λ r. length r ≡ length keys.now) }
    ensures value { Gives terms.new result (λ w r. bits w r
        ≡ flags_left false (keys_at w keys.now) (bits w flags.now) step) }
{
    let mut out = List::new(alloc);
    for i in 0..keys.len() {
        let node = flag_left(terms, step, flags[i], &keys[i], flags, keys)?;
        put(&mut out, node)?;
    }
    Ok(out)
}

/// Whether a step goes key against key: that of the MED within one neighbouring AS, and those whose numbers are the same
/// at all lengths, so that two of them are compared by one node.
fn goes_by_pairs(always: bool, fixed: bool, step: Step) -> bool
    ensures { result ≡ is_by_pairs always fixed step }
{
    match step {
        Step::Med => !always,
        Step::Identifier => fixed,
        Step::Address => true,
        _ => false,
    }
}

/// The flags after a step. Identifiers that are `fixed` are the same at all lengths.
#[tactic(auto, using(crate::proofs::FlagSteps::step_left))]
fn left(
    alloc: Global,
    terms: &mut Terms,
    always: bool,
    fixed: bool,
    step: Step,
    flags: &[NodeId],
    keys: &[SymKey],
) -> Result<List<NodeId>, AllocError>
    requires rows { length flags.now ≡ length keys.now }
    requires flags { ids_end flags.now ≤ size terms.old }
    requires keys { keys_end keys.now ≤ size terms.old }
    ensures builds { Builds terms.old terms.new }
    ensures within { IfOk result (λ r. ids_end r ≤ size terms.new) }
    ensures rows { IfOk result (λ r. length r ≡ length keys.now) }
    ensures value { Gives terms.new result (λ w r. bits w r
        ≡ flags_left always (keys_at w keys.now) (bits w flags.now) step) }
{
    if goes_by_pairs(always, fixed, step) {
        left_by_pairs(alloc, terms, step, flags, keys)
    } else {
        left_by_best(alloc, terms, step, flags, keys)
    }
}

/// The flags after several steps.
#[tactic(auto, using(crate::proofs::FlagSteps::fold_steps))]
fn after_steps(
    alloc: Global,
    terms: &mut Terms,
    always: bool,
    fixed: bool,
    steps: &[Step],
    flags: Bits,
    keys: &[SymKey],
) -> Result<Bits, AllocError>
    requires rows { length flags.nodes.items ≡ length keys.now }
    requires flags { ids_end flags.nodes.items ≤ size terms.old }
    requires keys { keys_end keys.now ≤ size terms.old }
    ensures builds { Builds terms.old terms.new }
    ensures within { IfOk result (λ r. ids_end r.nodes.items ≤ size terms.new) }
    ensures rows { IfOk result (λ r. length r.nodes.items ≡ length keys.now) }
    ensures value { Gives terms.new result (λ w r. bits w r.nodes.items
        ≡ fold (flags_left always (keys_at w keys.now)) (bits w flags.nodes.items) steps.now) }
{
    let mut here = flags;
    for step in steps {
        let nodes = left(
            alloc,
            terms,
            always,
            fixed,
            *step,
            here.nodes.as_slice(),
            keys,
        )?;
        here = Bits { nodes: nodes.items };
    }
    Ok(here)
}

/// Whether some flagged key is external.
#[tactic(auto, using(crate::proofs::FlagSteps::external_steps))]
fn any_external(terms: &mut Terms, flags: &[NodeId], keys: &[SymKey]) -> Result<NodeId, AllocError>
    requires rows { length flags.now ≡ length keys.now }
    requires flags { ids_end flags.now ≤ size terms.old }
    requires keys { keys_end keys.now ≤ size terms.old }
    ensures builds { Builds terms.old terms.new }
    ensures within { IfOk result (λ r. r.0 < size terms.new) }
    ensures value { Gives terms.new result (λ w r. at w r
        ≡ any_flagged (λ (k : Key). k.external) (bits w flags.now) (keys_at w keys.now)) }
{
    let mut any = constant_node(terms, false)?;
    for i in 0..keys.len() {
        let here = flagged_external(terms, flags[i], &keys[i])?;
        any = either(terms, any, here)?;
    }
    Ok(any)
}

/// Whether a key is flagged and external.
fn flagged_external(terms: &mut Terms, flag: NodeId, key: &SymKey) -> Result<NodeId, AllocError>
    requires flag { flag.0 < size terms.old }
    requires key { key_end key.now ≤ size terms.old }
    ensures builds { Builds terms.old terms.new }
    ensures within { IfOk result (λ r. r.0 < size terms.new) }
    ensures value { Gives terms.new result (λ w r. at w r ≡ (at w flag && (key_at w key.now).external)) }
{
    both(terms, flag, key.reach.external.node)
}

/// Whether identifiers are compared.
fn is_compared(
    terms: &mut Terms,
    compare_id: bool,
    flags: &[NodeId],
    keys: &[SymKey],
) -> Result<NodeId, AllocError>
    requires rows { length flags.now ≡ length keys.now }
    requires flags { ids_end flags.now ≤ size terms.old }
    requires keys { keys_end keys.now ≤ size terms.old }
    ensures builds { Builds terms.old terms.new }
    ensures within { IfOk result (λ r. r.0 < size terms.new) }
    ensures value { Gives terms.new result (λ w r. at w r
        ≡ (compare_id || not (any_flagged (λ (k : Key). k.external) (bits w flags.now) (keys_at w keys.now)))) }
{
    if compare_id {
        return constant_node(terms, true);
    }
    let external = any_external(terms, flags, keys)?;
    negate(terms, external)
}

/// The steps behind that of the origin, up to the cost.
const TO_COST: [Step; 3] = [Step::Med, Step::Session, Step::Cost];

/// The steps after it.
const AFTER_COST: [Step; 3] = [Step::Identifier, Step::Clusters, Step::Address];

/// The flags of the keys that survive, where the steps up to that of the origin have left these.
#[tactic(auto, unfolding(crate::specs::Beside::surviving_last))]
pub(crate) fn sym_surviving(
    alloc: Global,
    terms: &mut Terms,
    always: bool,
    compare_id: bool,
    fixed: bool,
    flags: Bits,
    keys: &[SymKey],
) -> Result<Bits, AllocError>
    requires rows { length flags.nodes.items ≡ length keys.now }
    requires flags { ids_end flags.nodes.items ≤ size terms.old }
    requires keys { keys_end keys.now ≤ size terms.old }
    ensures builds { Builds terms.old terms.new }
    ensures within { IfOk result (λ r. ids_end r.nodes.items ≤ size terms.new) }
    ensures rows { IfOk result (λ r. length r.nodes.items ≡ length keys.now) }
    ensures value { Gives terms.new result (λ w r. bits w r.nodes.items
        ≡ surviving_last always compare_id (keys_at w keys.now) (bits w flags.nodes.items)) }
{
    let first = after_steps(alloc, terms, always, fixed, &TO_COST, flags, keys)?;
    let compares = is_compared(terms, compare_id, first.nodes.as_slice(), keys)?;
    let before = copy(alloc, &first)?;
    let last = after_steps(alloc, terms, always, fixed, &AFTER_COST, before, keys)?;
    choose(alloc, terms, compares, &last, &first)
}
