//! Values of variables, and what terms are under them.

use crate::page::Page;
use mw_text::{List, read_addr};
use std::alloc::{AllocError, Global};
use sym_policy::SymOspf;
use term_arith::{Bits, values_of};
use term_store::{NodeId, Terms};

/// The bits of a number, lowest first.
fn put_bits(values: &mut Vec<bool>, number: u64, width: u8) -> Result<(), AllocError> {
    let mut rest = number;
    for _ in 0..width {
        values.push(rest % 2 == 1)?;
        rest /= 2;
    }
    Ok(())
}

/// `NUMBER:WIDTH`, an address, or `-WIDTH` for so many bits that are false.
fn number_of(word: &str) -> (u64, u8) {
    if let Some(width) = word.strip_prefix('-') {
        return (0, width.parse::<u8>().unwrap_or(0));
    }
    match word.split_once(':') {
        Some((number, width)) => (
            number.parse::<u64>().unwrap_or(0),
            width.parse::<u8>().unwrap_or(0),
        ),
        None => (u64::from(read_addr(word.as_bytes()).map_or(0, |a| a.0)), 32),
    }
}

fn put_words(values: &mut Vec<bool>, words: &str) -> Result<(), AllocError> {
    for word in words.split_whitespace() {
        let (number, width) = number_of(word);
        put_bits(values, number, width)?;
    }
    Ok(())
}

/// False values up to so many.
fn fill(values: &mut Vec<bool>, count: u64) -> Result<(), AllocError> {
    for _ in values.len() as u64..count {
        values.push(false)?;
    }
    Ok(())
}

/// The values of all nodes where the variables have the values of the words in their order, and else are false.
pub fn found_of(alloc: Global, terms: &Terms, words: &str) -> Result<List<bool>, AllocError> {
    let mut values = Vec::new(alloc);
    put_words(&mut values, words)?;
    fill(&mut values, terms.vars())?;
    if (values.len() as u64) < terms.vars() {
        return Ok(List::new(alloc));
    }
    values_of(alloc, terms, values.as_slice())
}

/// The value of a node. False where it has none.
pub fn value_of(found: &[bool], node: NodeId) -> bool {
    found.get(node.0 as usize).copied().unwrap_or(false)
}

/// The number of some nodes.
pub fn number_at(found: &[bool], bits: &Bits) -> u64 {
    let mut number = 0u64;
    for node in bits.nodes.as_slice().iter().rev() {
        number = number
            .wrapping_mul(2)
            .wrapping_add(u64::from(value_of(found, *node)));
    }
    number
}

/// The kind, the metric and the cost of an OSPF route.
pub fn show_ospf(out: &mut Page, found: &[bool], rec: &SymOspf) {
    if !value_of(found, rec.valid) {
        return out.put(" none");
    }
    out.number(" kind ", number_at(found, &rec.kind));
    out.number(" metric ", number_at(found, &rec.metric));
    out.number(" cost ", number_at(found, &rec.cost))
}
