//! A decider that goes by scores, which rise with each bump, later bumps counting more.

ghost use Rattle.std.specs.Prelude.{◌≡◌, ◌<◌, ◌≤◌, None};

use crate::decider::{PARTS, value_at};
use crate::heap::{Heap, SHIFT};
use crate::{Choice, Decider, Value};
use std::alloc::{AllocError, Global};

/// By how much the first bumps raise a score.
const FIRST_STEP: u64 = 1 << 20;

/// Above this the step and all scores are made smaller.
const GREATEST_STEP: u64 = 1 << 40;

/// A choice that was made: how many variables had been taken out before, from where on variables without a score were
/// looked at, the variable and its value.
#[derive(Clone, Copy)]
struct Chosen {
    taken_before: usize,
    next_before: u64,
    var: u64,
    positive: bool,
}

/// Chooses a free variable of highest score, and of these the one of lowest number, with the value that it had last. At
/// first that is true for the first 256th of the variables, among which a formula of a question has its packet and its
/// failed links, so that it is tried with failed links first; and false for all others. It tells no bumps. No clause says
/// which variable it chooses, nor its value: that changes how long a search takes, and tests show it.
///
/// Variables come into the heap when they are bumped first, and leave it as they are chosen, or met with a value. Those that
/// were never bumped come after them, in their order: most variables of a large formula get their values from others, and
/// to pass them one by one costs far less than to take them out of a heap. Nobody says when variables are free again, but
/// each way back of a search comes with a `decay`: at the next `pick` the first choice that does not stand any more is
/// looked for, what left the heap from then on is put back, and the others are looked at from where they were then.
#[derive(Drop)]
pub struct ScoreDecider {
    heap: Heap,
    // Those before it that have no score were met with a value.
    next: u64,
    step: u64,
    phases: Vec<bool>,
    taken: Vec<u64>,
    chosen: Vec<Chosen>,
    is_stale: bool,
}

// Puts an item last, where the reserved memory has room.
fn push_within<T: Drop>(items: &mut Vec<T>, item: T) {
    if items.len() < items.capacity() {
        items.push_reserved(item);
    }
}

// The values that so many variables are to have at first.
fn first_phases(alloc: Global, count: u64) -> Result<Vec<bool>, AllocError> {
    let mut phases = Vec::new(alloc);
    phases.resize((count / PARTS) as usize, true)?;
    phases.resize(count as usize, false)?;
    Ok(phases)
}

// Whether a choice still stands.
fn stands(chosen: &Chosen, values: &[Value]) -> bool {
    let wanted = if chosen.positive {
        Value::True
    } else {
        Value::False
    };
    value_at(values, chosen.var) == wanted
}

// Keeps the value of a variable that has one.
fn note_phase(phases: &mut [bool], var: u64, value: Value) {
    if var < phases.len() as u64 {
        phases[var as usize] = value == Value::True;
    }
}

impl ScoreDecider {
    /// A decider for no variables. It takes no memory.
    pub fn new(alloc: Global) -> ScoreDecider
        ensures { ⟦<ScoreDecider as Decider>⟧.told result ≡ None }
    {
        ScoreDecider {
            heap: Heap::new(alloc),
            next: 0,
            step: FIRST_STEP,
            phases: Vec::new(alloc),
            taken: Vec::new(alloc),
            chosen: Vec::new(alloc),
            is_stale: false,
        }
    }

    // Puts back what was taken out from the first choice on that does not stand any more.
    fn put_back(&mut self, values: &[Value]) {
        let Some(first) = self
            .chosen
            .iter()
            .position(|choice| !stands(choice, values))
        else {
            return;
        };
        self.next = self.chosen[first].next_before;
        let from = self.chosen[first].taken_before.min(self.taken.len());
        for var in &self.taken[from..] {
            self.heap.put(*var);
        }
        self.taken.truncate(from);
        self.chosen.truncate(first);
    }

    // Takes variables out of the heap, highest score first, up to one that is free.
    fn next_scored(&mut self, values: &[Value]) -> Option<u64> {
        while let Some(var) = self.heap.pop() {
            let value = value_at(values, var);
            if value == Value::Free {
                return Some(var);
            }
            note_phase(&mut self.phases, var, value);
            push_within(&mut self.taken, var);
        }
        None
    }

    // Passes the variables that have a value, up to one that is free.
    fn next_unscored(&mut self, values: &[Value]) -> Option<u64> {
        let count = values.len() as u64;
        for var in self.next..count {
            let value = value_at(values, var);
            if value == Value::Free {
                self.next = var;
                return Some(var);
            }
            note_phase(&mut self.phases, var, value);
        }
        self.next = count;
        None
    }

    // Keeps a choice.
    fn choose(&mut self, var: u64) -> Choice {
        let positive = self.phases.get(var as usize).copied().unwrap_or(false);
        let chosen = Chosen {
            taken_before: self.taken.len(),
            next_before: self.next,
            var,
            positive,
        };
        push_within(&mut self.chosen, chosen);
        Choice { var, positive }
    }

    // Chooses a variable of highest score, and keeps that it was taken out.
    fn choose_scored(&mut self, var: u64) -> Choice {
        let choice = self.choose(var);
        push_within(&mut self.taken, var);
        choice
    }

    // Chooses a variable that has no score, where one is free.
    fn choose_unscored(&mut self, values: &[Value]) -> Choice {
        match self.next_unscored(values) {
            Some(var) => self.choose(var),
            None => Choice {
                var: values.len() as u64,
                positive: false,
            },
        }
    }
}

impl Decider for ScoreDecider {
    ghost told = { λ _. None };

    fn prepare(&mut self, alloc: Global, vars: u64) -> Result<(), AllocError> {
        let heap = Heap::with_room(alloc, vars)?;
        let phases = first_phases(alloc, vars)?;
        let taken = Vec::with_capacity(alloc, vars as usize)?;
        let chosen = Vec::with_capacity(alloc, vars as usize)?;
        *self = ScoreDecider {
            heap,
            next: 0,
            step: FIRST_STEP,
            phases,
            taken,
            chosen,
            is_stale: false,
        };
        Ok(())
    }

    fn bump(&mut self, var: u64) {
        if self.heap.is_unscored(var) {
            self.heap.put(var);
        }
        self.heap.raise(var, self.step);
    }

    fn decay(&mut self) {
        self.step = self.step.saturating_add(self.step / 12);
        if self.step > GREATEST_STEP {
            self.step >>= SHIFT;
            self.heap.shrink_scores();
        }
        self.is_stale = true;
    }

    fn pick(&mut self, values: &[Value]) -> Choice {
        if self.is_stale {
            self.put_back(values);
            self.is_stale = false;
        }
        match self.next_scored(values) {
            Some(var) => self.choose_scored(var),
            None => self.choose_unscored(values),
        }
    }

    fn bumps(&self) -> &[u64] {
        &[]
    }
}
