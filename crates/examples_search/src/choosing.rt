//! The deciders by their names, and one of a test's own.

use crate::printed::{first_word, number_in, show_numbers};
use deciders::{Choice, Decider, OrderDecider, Recorder, ScoreDecider, Value};
use std::alloc::{AllocError, Global};
use std::io;

/// How many picks are kept.
const KEPT_PICKS: usize = 1000;

/// A decider that always makes one variable true, and shows its picks in the place of bumps.
#[derive(Drop)]
pub struct Stubborn {
    var: u64,
    picks: Vec<u64>,
}

impl Stubborn {
    fn prepare(&mut self, alloc: Global) -> Result<(), AllocError> {
        self.picks = Vec::with_capacity(alloc, KEPT_PICKS)?;
        Ok(())
    }

    fn pick(&mut self) -> Choice {
        if self.picks.len() < self.picks.capacity() {
            self.picks.push_reserved(self.var);
        }
        Choice {
            var: self.var,
            positive: true,
        }
    }
}

/// One of the deciders.
#[derive(Drop)]
pub enum Chooser {
    Order(OrderDecider),
    Score(ScoreDecider),
    Recorder(Recorder),
    Stubborn(Stubborn),
}

/// The decider of a name. A number is the variable that a stubborn one makes true.
pub fn named(alloc: Global, name: &str) -> Chooser {
    match name {
        "order" => Chooser::Order(OrderDecider::new()),
        "score" => Chooser::Score(ScoreDecider::new(alloc)),
        "recorder" => Chooser::Recorder(Recorder::new(alloc)),
        _ => Chooser::Stubborn(Stubborn {
            var: number_in(name),
            picks: Vec::new(alloc),
        }),
    }
}

impl Decider for Chooser {
    ghost use Rattle.std.specs.Prelude.{None};

    ghost told = { λ _. None };

    fn prepare(&mut self, alloc: Global, vars: u64) -> Result<(), AllocError> {
        match self {
            Chooser::Order(decider) => decider.prepare(alloc, vars),
            Chooser::Score(decider) => decider.prepare(alloc, vars),
            Chooser::Recorder(decider) => decider.prepare(alloc, vars),
            Chooser::Stubborn(decider) => decider.prepare(alloc),
        }
    }

    fn bump(&mut self, var: u64) {
        match self {
            Chooser::Score(decider) => decider.bump(var),
            Chooser::Recorder(decider) => decider.bump(var),
            _ => {}
        }
    }

    fn decay(&mut self) {
        match self {
            Chooser::Order(decider) => decider.decay(),
            Chooser::Score(decider) => decider.decay(),
            _ => {}
        }
    }

    fn pick(&mut self, values: &[Value]) -> Choice {
        match self {
            Chooser::Order(decider) => decider.pick(values),
            Chooser::Score(decider) => decider.pick(values),
            Chooser::Recorder(decider) => decider.pick(values),
            Chooser::Stubborn(decider) => decider.pick(),
        }
    }

    fn bumps(&self) -> &[u64] {
        match self {
            Chooser::Recorder(decider) => decider.bumps(),
            Chooser::Stubborn(decider) => &decider.picks,
            _ => &[],
        }
    }
}

/// The values that the bytes of a word stand for: `T` and `F`, and any other for none.
fn values_in(alloc: Global, word: &str) -> Result<Vec<Value>, AllocError> {
    let mut values = Vec::new(alloc);
    for byte in word.as_bytes() {
        let value = match byte {
            b'T' => Value::True,
            b'F' => Value::False,
            _ => Value::Free,
        };
        values.push(value)?;
    }
    Ok(values)
}

fn show_pick(rt: &(impl Print + AllocGlobal), chooser: &mut Chooser, word: &str) -> io::Result<()> {
    let values = values_in(rt.alloc(), word)?;
    let choice = chooser.pick(values.as_slice());
    println!(rt; "{} {}", choice.var, choice.positive)
}

/// `new NAME` is another decider, `prepare COUNT`, `bump VAR`, `decay` and `pick VALUES` call it, and `bumps` prints what
/// it tells.
pub fn take(rt: &(impl Print + AllocGlobal), chooser: &mut Chooser, order: &str) -> io::Result<()> {
    let (word, rest) = first_word(order);
    match word {
        "prepare" => return Ok(chooser.prepare(rt.alloc(), number_in(rest))?),
        "bump" => chooser.bump(number_in(rest)),
        "decay" => chooser.decay(),
        "pick" => return show_pick(rt, chooser, rest),
        "bumps" => return show_numbers(rt, "bumps", chooser.bumps()),
        _ => *chooser = named(rt.alloc(), rest),
    }
    Ok(())
}
