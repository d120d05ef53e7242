//! Searches, each with what it logs.

ghost use Rattle.std.specs.Prelude.{ℕ, ◌≤◌, ◌^◌};
ghost use Rattle.cnf_blaster.specs.Proper.{IsProper};

use crate::choosing::named;
use crate::clauses::{add, none};
use crate::printed::{first_word, number_in, show_bytes, show_numbers, show_values};
use cdcl_search::{Outcome, SolveFault, solve};
use cnf_blaster::Cnf;
use deciders::Decider;
use mw_outside::TestSink;
use mw_text::List;
use std::alloc::{AllocError, Global};
use std::io;

/// The most variables that a search takes.
const MOST: u64 = 1 << 63;

fn show_answer(rt: &impl Print, answer: &Result<Outcome, SolveFault>) -> io::Result<()> {
    match answer {
        Ok(Outcome::Unsat) => println!(rt; "unsatisfiable"),
        Ok(Outcome::Sat { values }) => show_values(rt, "satisfiable", values.as_slice()),
        Ok(Outcome::Unknown { added }) => show_numbers(rt, "unknown", &[*added]),
        Err(fault) => println!(rt; "{fault}"),
    }
}

/// Searches by the deciders of these names, and prints the answer and what each decider tells.
fn search(
    rt: &(impl Print + AllocGlobal),
    cnf: &Cnf,
    budget: u64,
    names: &str,
    sink: &mut TestSink,
) -> io::Result<()>
    requires proper { IsProper cnf.now }
    requires vars { cnf.now.vars ≤ 2 ^ 63 }
    requires budget { 1 ≤ budget }
{
    let alloc: Global = rt.alloc();
    let mut deciders: Vec<Box<dyn Decider>> = Vec::new(alloc);
    for name in names.split_ascii_whitespace() {
        deciders.push(Box::new(alloc, named(alloc, name))?)?;
    }
    show_answer(rt, &solve(alloc, cnf, budget, sink, &mut deciders))?;
    for decider in deciders.iter() {
        show_numbers(rt, "told", decider.bumps())?;
    }
    Ok(())
}

/// A sink of whose writes the one of this number fails.
fn sink_failing(alloc: Global, at: u64) -> Result<TestSink, AllocError> {
    let mut fail = List::new(alloc);
    fail.items.push(at)?;
    TestSink::new(alloc, 100_000, fail)
}

/// Searches with a budget and a write that fails, by the deciders named behind these numbers; prints the log too.
fn show_search(rt: &(impl Print + AllocGlobal), cnf: &Cnf, rest: &str) -> io::Result<()> {
    let (budget, rest) = first_word(rest);
    let (at, names) = first_word(rest);
    let budget = number_in(budget);
    let mut sink = sink_failing(rt.alloc(), number_in(at))?;
    if budget == 0 || cnf.vars > MOST || !cnf.is_proper(rt.alloc())? {
        return println!(rt; "not taken");
    }
    search(rt, cnf, budget, names, &mut sink)?;
    show_bytes(rt, sink.taken())
}

/// `new VARS` begins without clauses, `clause` adds one, `proper` prints whether a search takes the clauses, and `solve
/// BUDGET WRITE DECIDERS` searches them, where the write of that number fails.
pub fn take(rt: &(impl Print + AllocGlobal), cnf: &mut Cnf, order: &str) -> io::Result<()> {
    let (word, rest) = first_word(order);
    match word {
        "clause" => Ok(add(rt.alloc(), cnf, rest)?),
        "proper" => println!(rt; "proper: {}", cnf.is_proper(rt.alloc())?),
        "solve" => show_search(rt, cnf, rest),
        _ => {
            *cnf = none(rt.alloc(), number_in(rest));
            Ok(())
        }
    }
}
