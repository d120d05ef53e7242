//! A decider that goes by the order of the variables, and by scores once it was told enough.

ghost use Rattle.std.specs.Prelude.{◌≡◌, ◌≢◌, ℕ, ◌<◌, ◌≤◌, None, IfSome, true, false, length, slice_index_or};

use crate::decider::PARTS;
use crate::{Choice, Decider, ScoreDecider, Value};
use std::alloc::{AllocError, Global};

/// So many clauses a decider by order is told of before it may go by scores.
const ORDERED: u64 = 1024;

/// A decider by order goes by scores where it had gone far before more than one of so many clauses.
const SELDOM: u64 = 16;

/// Chooses the next free variable in the order of their numbers, from 0 again after each `decay`, false first. Where the
/// first variables settle the others, as a packet and the failed links do in most formulas of questions, conflicts come
/// before it has gone far, and it keeps to the order. It goes by the scores that its bumps gave, as a `ScoreDecider` does,
/// once it was told of 1,024 clauses and had gone beyond the first 256th of the variables before more than a sixteenth of
/// them: then the order does not fit the formula. It tells no bumps.
#[derive(Drop)]
pub struct OrderDecider {
    next: u64,
    // How many clauses it was told of.
    heard: u64,
    // Before how many of them it had gone far.
    far: u64,
    // Where it has gone far, if it has chosen a later variable.
    near: u64,
    // Whether it goes by order.
    is_ordered: bool,
    scores: Option<ScoreDecider>,
}

// What the scores choose, where they choose a free variable.
fn scored(scores: &mut Option<ScoreDecider>, values: &[Value]) -> Option<Choice>
    ensures { IfSome result (λ choice. choice.var < length values.now
        → slice_index_or values.now choice.var Value.False ≡ Value.Free) }
{
    let choice = match scores {
        Some(scores) => scores.pick(values),
        None => return None,
    };
    if choice.var < values.len() as u64 && values[choice.var as usize] == Value::Free {
        Some(choice)
    } else {
        None
    }
}

// The first free variable from this one on, or how many there are.
fn next_free(values: &[Value], from: u64) -> u64
    ensures free { result < length values.now → slice_index_or values.now result Value.False ≡ Value.Free }
    ensures passed { (v : ℕ) → from ≤ v → v < result → slice_index_or values.now v Value.Free ≢ Value.Free }
{
    let count = values.len() as u64;
    let mut at = from;
    while at < count && values[at as usize] != Value::Free {
        at += 1;
    }
    at
}

impl OrderDecider {
    ghost use Rattle.deciders.specs.Ordered.{next_of, goes_by_order};

    /// A decider that begins with variable 0. It takes no memory.
    pub fn new() -> OrderDecider
        ensures untold { ⟦<OrderDecider as Decider>⟧.told result ≡ None }
        ensures next { next_of result ≡ 0 }
        ensures ordered { goes_by_order result ≡ true }
    {
        OrderDecider {
            next: 0,
            heard: 0,
            far: 0,
            near: 0,
            is_ordered: true,
            scores: None,
        }
    }
}

impl Decider for OrderDecider {
    ghost use Rattle.deciders.specs.Ordered.{next_of, goes_by_order};

    ghost told = { λ _. None };

    fn prepare(&mut self, alloc: Global, vars: u64) -> Result<(), AllocError>
        ensures next { next_of self.new ≡ 0 }
        ensures ordered { goes_by_order self.new ≡ true }
    {
        self.next = 0;
        self.heard = 0;
        self.far = 0;
        self.near = vars / PARTS;
        self.is_ordered = true;
        let mut scores = ScoreDecider::new(alloc);
        scores.prepare(alloc, vars)?;
        self.scores = Some(scores);
        Ok(())
    }

    fn bump(&mut self, var: u64)
        ensures next { next_of self.new ≡ next_of self.old }
        ensures ordered { goes_by_order self.new ≡ goes_by_order self.old }
    {
        if let Some(scores) = &mut self.scores {
            scores.bump(var);
        }
    }

    fn decay(&mut self)
        ensures { next_of self.new ≡ 0 }
    {
        if self.next > self.near {
            self.far = self.far.saturating_add(1);
        }
        self.next = 0;
        self.heard = self.heard.saturating_add(1);
        if self.heard >= ORDERED && self.far > self.heard / SELDOM {
            self.is_ordered = false;
        }
        if let Some(scores) = &mut self.scores {
            scores.decay();
        }
    }

    fn pick(&mut self, values: &[Value]) -> Choice
        ensures free { result.var < length values.now → slice_index_or values.now result.var Value.False ≡ Value.Free }
        ensures passed { goes_by_order self.old ≡ true → (v : ℕ) → next_of self.old ≤ v → v < result.var
            → slice_index_or values.now v Value.Free ≢ Value.Free }
        ensures negative { goes_by_order self.old ≡ true → result.positive ≡ false }
        ensures next { goes_by_order self.old ≡ true → next_of self.new ≡ result.var }
        ensures ordered { goes_by_order self.new ≡ goes_by_order self.old }
    {
        if !self.is_ordered {
            if let Some(choice) = scored(&mut self.scores, values) {
                return choice;
            }
        }
        self.next = next_free(values, self.next);
        Choice {
            var: self.next,
            positive: false,
        }
    }

    fn bumps(&self) -> &[u64] {
        &[]
    }
}
