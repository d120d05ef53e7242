//! A sink that takes all.

ghost use Rattle.std.specs.Prelude.{◌≡◌, None};

use crate::{Failed, Sink};

/// A sink that takes all, tells nothing and never fails.
#[derive(Clone, Copy)]
pub struct NoSink;

impl NoSink {
    /// The sink.
    pub fn new() -> NoSink
        ensures { ⟦<NoSink as Sink>⟧.taken result ≡ None }
    {
        NoSink
    }
}

impl Sink for NoSink {
    ghost taken = { λ _. None };

    ghost faults = { λ _. 0 };

    fn write(&mut self, _bytes: &[u8]) -> Result<(), Failed> {
        Ok(())
    }
}
