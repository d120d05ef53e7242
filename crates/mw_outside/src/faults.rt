//! Counts of faults.

ghost use Rattle.std.specs.Prelude.{◌≡◌, ◌+◌, ◌-◌, ◌^◌, ◌≤◌, min};

/// How many calls have failed. The count stands still at its last value.
#[derive(Clone, Copy)]
pub struct FaultCount {
    value: u64,
    pub ghost bounded: { value ≤ 2 ^ 64 - 1 },
}

impl FaultCount {
    /// No fault so far.
    pub fn new() -> FaultCount
        ensures { result.value ≡ 0 }
    {
        FaultCount { value: 0 }
    }

    /// Counts a fault.
    pub fn rise(&mut self)
        ensures { self.new.value ≡ min (self.old.value + 1) (2 ^ 64 - 1) }
    {
        self.value = self.value.saturating_add(1);
    }
}
