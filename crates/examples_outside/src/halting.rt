//! A write that fails in its midst.

use mw_outside::{OutSink, Sink};
use std::io;
use std::io::{ErrorKind, Write};

// A writer that takes three bytes at a time, is interrupted at its second call, and fails at its fifth.
#[derive(Drop)]
struct Halting<'a> {
    taken: &'a mut Vec<u8>,
    calls: u32,
}

impl Write for Halting<'_> {
    fn write(&mut self, bytes: &[u8]) -> io::Result<usize> {
        self.calls = self.calls.saturating_add(1);
        if self.calls == 2 {
            return Err(io::Error::from(ErrorKind::Interrupted));
        }
        if self.calls == 5 {
            return Err(io::Error::from(ErrorKind::BrokenPipe));
        }
        let count = bytes.len().min(3);
        self.taken.extend_from_slice(&bytes[..count])?;
        Ok(count)
    }

    fn flush(&mut self) -> io::Result<()> {
        Ok(())
    }
}

// Writes two pieces, and says whether each was taken.
fn write_two(taken: &mut Vec<u8>, first: &[u8], second: &[u8]) -> (bool, bool) {
    let mut out = OutSink::new(Halting { taken, calls: 0 });
    let is_first = out.write(first).is_ok();
    let is_second = out.write(second).is_ok();
    (is_first, is_second)
}

/// Writes two pieces to such a writer, and prints which were taken and what it holds.
pub fn show_halting(rt: &HostRuntime, first: &[u8], second: &[u8]) -> io::Result<()> {
    let mut taken = Vec::new(rt.alloc());
    let (is_first, is_second) = write_two(&mut taken, first, second);
    match std::str::from_utf8(taken.as_slice()) {
        Ok(text) => println!(rt; "{is_first} {is_second} {text}"),
        Err(_) => println!(rt; "no UTF-8"),
    }
}
