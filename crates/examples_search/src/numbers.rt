//! Comparisons and sums of new numbers.

use crate::printed::{first_word, number_in};
use std::alloc::{AllocError, Global};
use std::io;
use term_arith::{
    Bits, above_number, add, add_within, choose, constant, copy, equal, equal_masked, equal_number,
    fresh_bits, less,
};
use term_store::{NodeId, Terms};

/// Compares the first of two new numbers of a width with the second, or with a known one.
fn compare(
    alloc: Global,
    terms: &mut Terms,
    name: &str,
    width: u8,
    known: u64,
) -> Result<NodeId, AllocError> {
    let a = fresh_bits(alloc, terms, width)?;
    let b = fresh_bits(alloc, terms, width)?;
    match name {
        "less" => less(terms, &a, &b),
        "equal" => equal(terms, &a, &b),
        "is" => equal_number(terms, a.nodes.as_slice(), known),
        "above" => above_number(terms, a.nodes.as_slice(), known),
        _ => equal_masked(terms, a.nodes.as_slice(), known, 1),
    }
}

/// Makes a number of two new ones of a width and of a new test.
fn combine(alloc: Global, terms: &mut Terms, name: &str, width: u8) -> Result<Bits, AllocError> {
    let test = terms.fresh()?;
    let a = fresh_bits(alloc, terms, width)?;
    let b = fresh_bits(alloc, terms, width)?;
    match name {
        "add" => add(alloc, terms, &a, &b),
        "within" => match add_within(alloc, terms, &a, &b) {
            Ok(summed) => Ok(summed.sum),
            Err(error) => Err(error),
        },
        "choose" => choose(alloc, terms, test, &a, &b),
        _ => copy(alloc, &a),
    }
}

/// Keeps nodes as those that were made last.
fn mark(marked: &mut Vec<NodeId>, nodes: &[NodeId]) -> Result<(), AllocError> {
    marked.clear();
    marked.extend_from_slice(nodes)
}

/// `less`, `equal`, `is KNOWN`, `above KNOWN` and `masked KNOWN` compare, `add`, `within`, `choose` and `copy` make a
/// number, each of numbers whose width stands behind the name; `constant` makes one of 8 bits.
pub fn take(
    alloc: Global,
    terms: &mut Terms,
    marked: &mut Vec<NodeId>,
    order: &str,
) -> Result<(), AllocError> {
    let (name, rest) = first_word(order);
    let (width, known) = first_word(rest);
    let width = number_in(width).min(64) as u8;
    match name {
        "constant" => {
            let made = constant(alloc, terms, number_in(rest).min(255), 8)?;
            mark(marked, made.nodes.as_slice())
        }
        "add" | "within" | "choose" | "copy" => {
            let made = combine(alloc, terms, name, width)?;
            mark(marked, made.nodes.as_slice())
        }
        _ => {
            let node = compare(alloc, terms, name, width, number_in(known))?;
            mark(marked, &[node])
        }
    }
}
