//! Numbers that a step of the decision process compares, and the best of them.

ghost use Rattle.std.specs.Prelude.{◌≡◌, ◌==◌, ℕ, ◌+◌, ◌<◌, ◌≤◌, Bool, not, ◌&&◌, if◌then◌else◌, nat_lt, None, IfOk};
ghost use Rattle.std.specs.Prelude.{length, map, max};
ghost use Rattle.std.specs.Option.{option_map_or};
ghost use Rattle.term_store.specs.Terms.{Reading, size, at};
ghost use Rattle.term_store.specs.Reading.{Reads, Builds, Gives};
ghost use Rattle.term_arith.specs.Bits.{bits, number, ids_end};
ghost use Rattle.bgp_shapes.specs.Numbers.{best_of, better_of, compared_number, is_greater_better, kept_by};
ghost use Rattle.bgp_shapes.specs.Numbers.{wins as first_wins};
ghost use Rattle.sym_bgp.specs.Best.{best_at, best_end};
ghost use Rattle.sym_bgp.specs.Beside.{is_better, levels};
ghost use Rattle.sym_bgp.specs.Keys.{IsCompared, compared_width, key_at, key_end, keys_at, keys_end};

use crate::parts::{SymBest, SymKey};
use mw_text::List;
use net_parts::Step;
use std::alloc::{AllocError, Global};
use term_arith::gates::{both, constant_node, either, negate};
use term_arith::lists::put;
use term_arith::{Bits, choose, constant, equal, less};
use term_store::{NodeId, Terms};

/// The number that a step compares of a key.
#[tactic(auto, using(crate::proofs::Marks::mark_read))]
fn compared(step: Step, key: &SymKey) -> &Bits
    ensures { IsCompared step key.now result.now }
{
    match step {
        Step::Weight => &key.rank.weight,
        Step::Preference => &key.rank.local_pref,
        Step::Origination => &key.rank.local.bit,
        Step::PathLength => &key.rank.len,
        Step::Origin => &key.reach.origin,
        Step::Med => &key.reach.med,
        Step::Session => &key.reach.external.bit,
        Step::Cost => &key.tie.cost,
        Step::Identifier => &key.tie.id,
        Step::Clusters => &key.tie.clusters,
        Step::Address => &key.tie.address,
    }
}

/// How many bits such a number has.
fn width(step: Step) -> u8
    ensures value { result ≡ compared_width step }
    ensures small { result ≤ 32 }
{
    match step {
        Step::Origination | Step::Session => 1,
        Step::Origin => 2,
        _ => 32,
    }
}

/// Whether the greater number wins in a step.
fn greater_wins(step: Step) -> bool
    ensures { result ≡ is_greater_better step }
{
    matches!(
        step,
        Step::Weight | Step::Preference | Step::Origination | Step::Session
    )
}

/// Whether the first of two numbers wins.
fn wins(terms: &mut Terms, greater: bool, a: &Bits, b: &Bits) -> Result<NodeId, AllocError>
    requires same_width { length a.now.nodes.items ≡ length b.now.nodes.items }
    requires first { ids_end a.now.nodes.items ≤ size terms.old }
    requires second { ids_end b.now.nodes.items ≤ size terms.old }
    ensures builds { Builds terms.old terms.new }
    ensures within { IfOk result (λ r. r.0 < size terms.new) }
    ensures value { Gives terms.new result (λ w r. at w r
        ≡ first_wins greater (number w a.now.nodes.items) (number w b.now.nodes.items)) }
{
    if greater {
        less(terms, b, a)
    } else {
        less(terms, a, b)
    }
}

/// Whether the first of two keys wins in a step.
pub(crate) fn beats(
    terms: &mut Terms,
    step: Step,
    a: &SymKey,
    b: &SymKey,
) -> Result<NodeId, AllocError>
    requires first { key_end a.now ≤ size terms.old }
    requires second { key_end b.now ≤ size terms.old }
    ensures builds { Builds terms.old terms.new }
    ensures within { IfOk result (λ r. r.0 < size terms.new) }
    ensures value { Gives terms.new result (λ w r. at w r ≡ is_better step (key_at w b.now) (key_at w a.now)) }
{
    wins(
        terms,
        greater_wins(step),
        compared(step, a),
        compared(step, b),
    )
}

/// Whether two keys are as good as each other in a step.
pub(crate) fn is_level(
    terms: &mut Terms,
    step: Step,
    a: &SymKey,
    b: &SymKey,
) -> Result<NodeId, AllocError>
    requires first { key_end a.now ≤ size terms.old }
    requires second { key_end b.now ≤ size terms.old }
    ensures builds { Builds terms.old terms.new }
    ensures within { IfOk result (λ r. r.0 < size terms.new) }
    ensures value { Gives terms.new result (λ w r. at w r ≡ levels step (key_at w b.now) (key_at w a.now)) }
{
    equal(terms, compared(step, a), compared(step, b))
}

/// Whether no best is there that wins against a number.
#[tactic(auto, using(crate::proofs::BestSteps::unbeaten_read))]
fn unbeaten(
    terms: &mut Terms,
    greater: bool,
    best: &SymBest,
    value: &Bits,
) -> Result<NodeId, AllocError>
    requires same_width { length best.now.number.nodes.items ≡ length value.now.nodes.items }
    requires best { best_end best.now ≤ size terms.old }
    requires value { ids_end value.now.nodes.items ≤ size terms.old }
    ensures builds { Builds terms.old terms.new }
    ensures within { IfOk result (λ r. r.0 < size terms.new) }
    ensures value { Gives terms.new result (λ w r. at w r
        ≡ not (option_map_or (λ b. first_wins greater b (number w value.now.nodes.items))
        (best_at w best.now) Bool.false)) }
{
    let won = wins(terms, greater, &best.number, value)?;
    let beaten = both(terms, best.there, won)?;
    negate(terms, beaten)
}

/// The flag of a number against which no best wins.
fn flag_kept(
    terms: &mut Terms,
    greater: bool,
    best: &SymBest,
    flag: NodeId,
    value: &Bits,
) -> Result<NodeId, AllocError>
    requires same_width { length best.now.number.nodes.items ≡ length value.now.nodes.items }
    requires best { best_end best.now ≤ size terms.old }
    requires flag { flag.0 < size terms.old }
    requires value { ids_end value.now.nodes.items ≤ size terms.old }
    ensures builds { Builds terms.old terms.new }
    ensures within { IfOk result (λ r. r.0 < size terms.new) }
    ensures value { Gives terms.new result (λ w r. at w r
        ≡ (at w flag && not (option_map_or (λ b. first_wins greater b (number w value.now.nodes.items))
        (best_at w best.now) Bool.false))) }
{
    let kept = unbeaten(terms, greater, best, value)?;
    both(terms, flag, kept)
}

/// The better of a number that may be flagged and of the best behind it.
#[tactic(auto, using(crate::proofs::BestSteps::better_read))]
fn better(
    alloc: Global,
    terms: &mut Terms,
    greater: bool,
    flag: NodeId,
    value: &Bits,
    rest: &SymBest,
) -> Result<SymBest, AllocError>
    requires same_width { length rest.now.number.nodes.items ≡ length value.now.nodes.items }
    requires flag { flag.0 < size terms.old }
    requires value { ids_end value.now.nodes.items ≤ size terms.old }
    requires rest { best_end rest.now ≤ size terms.old }
    ensures builds { Builds terms.old terms.new }
    ensures within { IfOk result (λ r. best_end r ≤ size terms.new) }
    ensures width { IfOk result (λ r. length r.number.nodes.items ≡ length value.now.nodes.items) }
    ensures value { Gives terms.new result (λ w r. best_at w r
        ≡ better_of greater (at w flag) (number w value.now.nodes.items) (best_at w rest.now)) }
{
    let there = either(terms, flag, rest.there)?;
    let takes = flag_kept(terms, greater, rest, flag, value)?;
    let number = choose(alloc, terms, takes, value, &rest.number)?;
    Ok(SymBest { there, number })
}

/// No best of numbers that a step compares.
fn no_best(alloc: Global, terms: &mut Terms, step: Step) -> Result<SymBest, AllocError>
    ensures builds { Builds terms.old terms.new }
    ensures within { IfOk result (λ r. best_end r ≤ size terms.new) }
    ensures width { IfOk result (λ r. length r.number.nodes.items ≡ compared_width step) }
    ensures value { Gives terms.new result (λ w r. best_at w r ≡ None) }
{
    let there = constant_node(terms, false)?;
    let number = constant(alloc, terms, 0, width(step))?;
    Ok(SymBest { there, number })
}

/// The best of the flagged numbers that a step compares.
#[tactic(auto, using(crate::proofs::BestSteps::best_steps))]
fn best(
    alloc: Global,
    terms: &mut Terms,
    step: Step,
    flags: &[NodeId],
    keys: &[SymKey],
) -> Result<SymBest, AllocError>
    requires rows { length flags.now ≡ length keys.now }
    requires flags { ids_end flags.now ≤ size terms.old }
    requires keys { keys_end keys.now ≤ size terms.old }
    ensures builds { Builds terms.old terms.new }
    ensures within { IfOk result (λ r. best_end r ≤ size terms.new) }
    ensures width { IfOk result (λ r. length r.number.nodes.items ≡ compared_width step) }
    ensures value { Gives terms.new result (λ w r. best_at w r
        ≡ best_of (is_greater_better step) (bits w flags.now) (map (compared_number step) (keys_at w keys.now))) }
{
    let greater = greater_wins(step);
    let mut rest = no_best(alloc, terms, step)?;
    for i in (0..keys.len()).rev() {
        let value = compared(step, &keys[i]);
        rest = better(alloc, terms, greater, flags[i], value, &rest)?;
    }
    Ok(rest)
}

/// The flags of the numbers against which a best does not win.
#[tactic(auto, using(crate::proofs::BestSteps::kept_steps))]
fn kept(
    alloc: Global,
    terms: &mut Terms,
    step: Step,
    best: &SymBest,
    flags: &[NodeId],
    keys: &[SymKey],
) -> Result<List<NodeId>, AllocError>
    requires rows { length flags.now ≡ length keys.now }
    requires width { length best.now.number.nodes.items ≡ compared_width step }
    requires best { best_end best.now ≤ size terms.old }
    requires flags { ids_end flags.now ≤ size terms.old }
    requires keys { keys_end keys.now ≤ size terms.old }
    ensures builds { Builds terms.old terms.new }
    ensures within { IfOk result (λ r. ids_end r ≤ size terms.new) }
    ensures rows { IfOk result (λ r. length r ≡ length keys.now) }
    ensures value { Gives terms.new result (λ w r. bits w r
        ≡ kept_by (is_greater_better step) (best_at w best.now) (bits w flags.now)
        (map (compared_number step) (keys_at w keys.now))) }
{
    let greater = greater_wins(step);
    let mut out = List::new(alloc);
    for i in 0..keys.len() {
        let value = compared(step, &keys[i]);
        let node = flag_kept(terms, greater, best, flags[i], value)?;
        put(&mut out, node)?;
    }
    Ok(out)
}

/// The flags that a step leaves which compares all with each other.
pub(crate) fn left_by_best(
    alloc: Global,
    terms: &mut Terms,
    step: Step,
    flags: &[NodeId],
    keys: &[SymKey],
) -> Result<List<NodeId>, AllocError>
    requires rows { length flags.now ≡ length keys.now }
    requires flags { ids_end flags.now ≤ size terms.old }
    requires keys { keys_end keys.now ≤ size terms.old }
    ensures builds { Builds terms.old terms.new }
    ensures within { IfOk result (λ r. ids_end r ≤ size terms.new) }
    ensures rows { IfOk result (λ r. length r ≡ length keys.now) }
    ensures value { Gives terms.new result (λ w r. bits w r
        ≡ kept_by (is_greater_better step)
        (best_of (is_greater_better step) (bits w flags.now) (map (compared_number step) (keys_at w keys.now)))
        (bits w flags.now) (map (compared_number step) (keys_at w keys.now))) }
{
    let first = best(alloc, terms, step, flags, keys)?;
    kept(alloc, terms, step, &first, flags, keys)
}
