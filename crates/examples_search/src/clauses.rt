//! Clauses as numbers: a literal is its variable plus 1, negative where it is negated.

use cnf_blaster::Cnf;
use mw_text::List;
use resolution_check::{Clause, Lit};
use std::alloc::{AllocError, Global};
use std::io;

/// No clauses over so many variables.
pub fn none(alloc: Global, vars: u64) -> Cnf {
    Cnf {
        vars,
        clauses: List::new(alloc),
        node_of: List::new(alloc),
    }
}

fn lit_of(word: &str) -> Lit {
    let number = word.parse::<i64>().unwrap_or(0);
    Lit {
        var: number.unsigned_abs().saturating_sub(1),
        negated: number < 0,
    }
}

/// Adds the clause of the numbers in a text.
pub fn add(alloc: Global, cnf: &mut Cnf, text: &str) -> Result<(), AllocError> {
    let mut lits = List::new(alloc);
    for word in text.split_ascii_whitespace() {
        lits.items.push(lit_of(word))?;
    }
    cnf.clauses.items.push(Clause { lits })?;
    Ok(())
}

fn show_clause(rt: &impl Print, lits: &[Lit]) -> io::Result<()> {
    print!(rt; "clause")?;
    for lit in lits {
        let sign = if lit.negated { "-" } else { "" };
        print!(rt; " {sign}{}", lit.var.saturating_add(1))?;
    }
    println!(rt; "")
}

/// Prints the clauses, and the node of each variable.
pub fn show(rt: &impl Print, cnf: &Cnf) -> io::Result<()> {
    for clause in cnf.clauses.as_slice() {
        show_clause(rt, clause.lits.as_slice())?;
    }
    print!(rt; "nodes")?;
    for node in cnf.node_of.as_slice() {
        print!(rt; " {}", node.0)?;
    }
    println!(rt; "")
}
