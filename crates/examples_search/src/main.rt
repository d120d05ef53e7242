//! Reads a script of orders, one a line, and prints what the calls answer that they name. The first word of an order is
//! its part, the second what is called: `log` reads lines and checks logs, `cnf` puts clauses together and searches them,
//! `decider` asks one decider, `term` puts terms together, `number` compares and adds numbers as terms, `arena` works an
//! example. A line of any other first word is printed as it stands.
#![tactic(auto)]

mod arena;
mod choosing;
mod clauses;
mod log;
mod numbers;
mod printed;
mod searching;
mod terms;

use crate::choosing::Chooser;
use crate::printed::first_word;
use cnf_blaster::Cnf;
use resolution_check::Checker;
use std::io;
use term_store::{NodeId, Terms};

/// What the orders so far have left.
#[derive(Drop)]
struct Desk {
    checker: Checker,
    cnf: Cnf,
    chooser: Chooser,
    terms: Terms,
    marked: Vec<NodeId>,
}

fn take(rt: &(impl Print + AllocGlobal), desk: &mut Desk, line: &str) -> io::Result<()> {
    let (part, order) = first_word(line);
    match part {
        "log" => log::take(rt, &mut desk.checker, order),
        "cnf" => searching::take(rt, &mut desk.cnf, order),
        "decider" => choosing::take(rt, &mut desk.chooser, order),
        "term" => terms::take(rt, &mut desk.terms, &mut desk.marked, order),
        "number" => Ok(numbers::take(rt.alloc(), &mut desk.terms, &mut desk.marked, order)?),
        "arena" => arena::show(rt, order),
        _ => println!(rt; "{line}"),
    }
}

fn read_script(rt: &(impl Input + Print + AllocGlobal), desk: &mut Desk) -> io::Result<()> {
    for line in rt.lines(rt.alloc()) {
        take(rt, desk, line?.as_str())?;
    }
    Ok(())
}

fn main(rt: HostRuntime) -> io::Result<()> {
    let mut desk = Desk {
        checker: Checker::new(rt.alloc()),
        cnf: clauses::none(rt.alloc(), 0),
        chooser: choosing::named(rt.alloc(), "order"),
        terms: Terms::new(rt.alloc()),
        marked: Vec::new(rt.alloc()),
    };
    read_script(&rt, &mut desk)
}
