//! The words of an order.

use crate::page::Page;
use mw_text::{Addr, List, Prefix, prefix_of, read_addr, read_prefix};

/// The first word, and what follows it.
pub fn cut(text: &str) -> (&str, &str) {
    text.split_once(' ').unwrap_or((text, ""))
}

/// What stands before the first stroke, and what follows it.
pub fn parted(text: &str) -> (&str, &str) {
    text.split_once('/').unwrap_or((text, ""))
}

pub fn number(word: &str) -> u32 {
    word.parse::<u32>().unwrap_or(0)
}

/// A number of 16 bits.
pub fn port(word: &str) -> u16 {
    word.parse::<u16>().unwrap_or(0)
}

/// A number of 8 bits.
pub fn small(word: &str) -> u8 {
    word.parse::<u8>().unwrap_or(0)
}

pub fn address(word: &str) -> Addr {
    read_addr(word.as_bytes()).unwrap_or(Addr(0))
}

pub fn prefix(word: &str) -> Prefix {
    read_prefix(word.as_bytes()).unwrap_or(prefix_of(Addr(0), 0))
}

/// Numbers with commas between them.
pub fn numbers(out: &mut Page, text: &str) -> List<u32> {
    let mut all = out.none();
    for word in text.split(',') {
        if let Ok(number) = word.parse::<u32>() {
            out.add(&mut all, number);
        }
    }
    all
}
