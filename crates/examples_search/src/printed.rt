//! What orders have in common: their words, and rows of numbers and of values.

use std::io;

/// The first word of a text, and what stands behind it.
pub fn first_word(text: &str) -> (&str, &str) {
    text.split_once(' ').unwrap_or((text, ""))
}

/// The number that a word is, or 0.
pub fn number_in(word: &str) -> u64 {
    word.parse::<u64>().unwrap_or(0)
}

/// The first four numbers of a text.
pub fn numbers_in(text: &str) -> [u64; 4] {
    let mut numbers = [0; 4];
    for (at, word) in text.split(' ').enumerate() {
        if at < 4 {
            numbers[at] = number_in(word);
        }
    }
    numbers
}

/// Prints a word and a row of numbers.
pub fn show_numbers(rt: &impl Print, name: &str, numbers: &[u64]) -> io::Result<()> {
    print!(rt; "{name}")?;
    for number in numbers {
        print!(rt; " {number}")?;
    }
    println!(rt; "")
}

/// Prints a word and a row of values.
pub fn show_values(rt: &impl Print, name: &str, values: &[bool]) -> io::Result<()> {
    print!(rt; "{name} ")?;
    for value in values {
        print!(rt; "{}", if *value { 1 } else { 0 })?;
    }
    println!(rt; "")
}

/// Prints bytes, and ends the line where they do not.
pub fn show_bytes(rt: &impl Print, bytes: &[u8]) -> io::Result<()> {
    match std::str::from_utf8(bytes) {
        Ok(text) => print!(rt; "{text}"),
        Err(_) => println!(rt; "no UTF-8"),
    }
}
