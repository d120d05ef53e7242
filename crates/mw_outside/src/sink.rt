//! Sinks that are written to.

ghost use Rattle.std.specs.Prelude.{◌≡◌, ℕ, ◌-◌, ◌^◌, ◌≤◌, List, Option, OnOk};
ghost use Rattle.mw_outside.specs.Faults.{HasCause};
ghost use Rattle.mw_outside.specs.Taken.{Takes, TakesPart};

use crate::Failed;

/// A place that takes bytes, one piece after another.
pub trait Sink {
    /// The bytes taken so far, where they are told.
    ghost taken: { Self → Option (List ℕ) };

    /// How many writes have failed, or the last value of that count.
    ghost faults: { Self → ℕ };

    /// Appends a piece. A write that fails may append a front of it.
    fn write(&mut self, bytes: &[u8]) -> Result<(), Failed>
        ensures cause { HasCause (faults self.old) (faults self.new) result }
        ensures stays { OnOk result (faults self.new ≡ faults self.old) }
        ensures counted { faults self.new ≤ 2 ^ 64 - 1 }
        ensures takes { OnOk result (Takes (taken self.old) (taken self.new) bytes.now) }
        ensures part { TakesPart (taken self.old) (taken self.new) bytes.now };
}
