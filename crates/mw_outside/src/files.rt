//! Files that are read by name.

ghost use Rattle.std.specs.Prelude.{◌≡◌, ℕ, ◌+◌, ◌-◌, ◌^◌, ◌<◌, ◌≤◌, ◌↔◌, List, length, take, drop, Option, None, IfOk, OnOk, OnErr};
ghost use Rattle.mw_outside.specs.Faults.{HasCause};
ghost use Rattle.mw_outside.specs.Contents.{Contents, Has, TellsOnly};
ghost use Rattle.mw_outside.specs.Asked.{AsksTo};

/// A read or a write that failed. Its object counts it.
#[derive(Clone, Copy)]
pub struct Failed;

/// Files, which only reads use.
pub trait Files {
    /// What the files hold, where that is told. No call changes it.
    ghost contents: { Self → Option Contents };

    /// How many reads have failed, or the last value of that count.
    ghost faults: { Self → ℕ };

    /// The name of the last read that failed, where it is told.
    ghost last_failed: { Self → Option (List ℕ) };

    /// How many bytes of a file reads have asked for at most, from its start to the end of the piece, where that is
    /// told, or the last value of that count.
    ghost reach: { Self → Option ℕ } = { λ _. None };

    /// Reads bytes of a file from `at`, a number of bytes, into the front of `into`, and answers how many came.
    /// None for a piece that is not empty says that the file ends at or before `at`.
    /// A name that is not there fails.
    fn read_at(&mut self, name: &str, at: u64, into: &mut [u8]) -> Result<usize, Failed>
        ensures kept { contents self.new ≡ contents self.old }
        ensures cause { HasCause (faults self.old) (faults self.new) result }
        ensures stays { OnOk result (faults self.new ≡ faults self.old) }
        ensures counted { faults self.new ≤ 2 ^ 64 - 1 }

        ensures failed_name { OnErr result (TellsOnly name.now (last_failed self.new)) }
        ensures name_stays { OnOk result (last_failed self.new ≡ last_failed self.old) }

        ensures asks { AsksTo (reach self.old) (reach self.new) (at + length into.old) }
        ensures within { IfOk result (λ count. count ≤ length into.old) }
        ensures bytes { IfOk result (λ count. Has (contents self.old) name.now
            (λ file. take count into.new ≡ take count (drop at file))) }
        ensures end { IfOk result (λ count. 0 < length into.old → Has (contents self.old) name.now
            (λ file. (count ≡ 0) ↔ (length file ≤ at))) };
}
