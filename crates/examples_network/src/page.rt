//! A text that is written piece by piece.

use mw_text::{Addr, List, Prefix};
use std::alloc::{AllocError, Global};
use std::fmt::Write;

/// The text so far. Want of memory is kept, and told where the page is shown.
#[derive(Drop)]
pub struct Page {
    alloc: Global,
    text: String,
    memory: Result<(), AllocError>,
}

impl Page {
    pub fn new(alloc: Global) -> Page {
        Page {
            alloc,
            text: String::new(alloc),
            memory: Ok(()),
        }
    }

    /// Where the memory is from.
    pub fn alloc(&self) -> Global {
        self.alloc
    }

    pub fn text(&self) -> &str {
        self.text.as_str()
    }

    /// Whether there was memory for every piece.
    pub fn memory(&self) -> Result<(), AllocError> {
        self.memory
    }

    pub fn clear(&mut self) {
        self.text.clear()
    }

    /// Keeps that memory was wanting, where it was.
    pub fn note(&mut self, end: Result<(), AllocError>) {
        if end.is_err() {
            self.memory = end;
        }
    }

    /// A list of nothing.
    pub fn none<T: Drop>(&self) -> List<T> {
        List::new(self.alloc)
    }

    /// Adds to a list, or keeps that memory was wanting.
    pub fn add<T: Drop>(&mut self, list: &mut List<T>, item: T) {
        let end = push(list, item);
        self.note(end)
    }

    pub fn put(&mut self, text: &str) {
        let end = self.text.push_str(text);
        self.note(end)
    }

    /// A number after a text.
    pub fn number(&mut self, before: &str, number: u32) {
        self.put(before);
        let end = write!(self.text, "{number}");
        self.note(end)
    }

    /// A place in a list after a text.
    pub fn place(&mut self, before: &str, place: u64) {
        self.put(before);
        let end = write!(self.text, "{place}");
        self.note(end)
    }

    pub fn number_if(&mut self, before: &str, number: Option<u32>) {
        if let Some(number) = number {
            self.number(before, number)
        }
    }

    pub fn flag(&mut self, text: &str, is_set: bool) {
        if is_set {
            self.put(text)
        }
    }

    pub fn truth(&mut self, holds: bool) {
        self.put(if holds { " true" } else { " false" })
    }

    fn byte(&mut self, byte: u8) {
        let end = self.text.push(char::from(byte));
        self.note(end)
    }

    /// Bytes after a text, each as the character of its number.
    pub fn bytes(&mut self, before: &str, bytes: &[u8]) {
        self.put(before);
        for byte in bytes {
            self.byte(*byte);
        }
    }

    pub fn numbers(&mut self, numbers: &[u32]) {
        for number in numbers {
            self.number(" ", *number);
        }
    }

    /// An address after a text.
    pub fn address(&mut self, before: &str, address: Addr) {
        let [a, b, c, d] = address.0.to_be_bytes();
        self.number(before, u32::from(a));
        self.number(".", u32::from(b));
        self.number(".", u32::from(c));
        self.number(".", u32::from(d))
    }

    /// A prefix after a text.
    pub fn prefix(&mut self, before: &str, prefix: Prefix) {
        self.address(before, prefix.addr);
        self.number("/", u32::from(prefix.len))
    }
}

fn push<T: Drop>(list: &mut List<T>, item: T) -> Result<(), AllocError> {
    list.items.push(item)?;
    Ok(())
}
