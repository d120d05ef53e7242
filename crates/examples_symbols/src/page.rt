//! A text that is written piece by piece.

use std::alloc::{AllocError, Global};
use std::fmt::Write;

/// The text so far. Want of memory is kept, and told where the page is shown.
#[derive(Drop)]
pub struct Page {
    alloc: Global,
    text: String,
    memory: Result<(), AllocError>,
}

impl Page {
    pub fn new(alloc: Global) -> Page {
        Page {
            alloc,
            text: String::new(alloc),
            memory: Ok(()),
        }
    }

    /// Where the memory is from.
    pub fn alloc(&self) -> Global {
        self.alloc
    }

    pub fn text(&self) -> &str {
        self.text.as_str()
    }

    /// Whether there was memory for every piece.
    pub fn memory(&self) -> Result<(), AllocError> {
        self.memory
    }

    pub fn clear(&mut self) {
        self.text.clear()
    }

    /// Keeps that memory was wanting, where it was.
    pub fn note(&mut self, end: Result<(), AllocError>) {
        if end.is_err() {
            self.memory = end;
        }
    }

    pub fn put(&mut self, text: &str) {
        let end = self.text.push_str(text);
        self.note(end)
    }

    /// A number after a text.
    pub fn number(&mut self, before: &str, number: u64) {
        self.put(before);
        let end = write!(self.text, "{number}");
        self.note(end)
    }

    pub fn truth(&mut self, holds: bool) {
        self.put(if holds { " true" } else { " false" })
    }
}
