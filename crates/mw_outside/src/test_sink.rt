//! A sink in memory, whose faults are listed.

ghost use Rattle.std.specs.Prelude.{◌≡◌, ◌+◌, ◌-◌, ◌^◌, ◌<◌, ◌≤◌, ◌↔◌, min, [], ◌++◌, length, Some, IfOk, OnOk, OnErr, IsErr, vec_capacity, vec_len};

use crate::faults::FaultCount;
use crate::{Failed, Sink};
use mw_text::List;
use std::alloc::{AllocError, Global};

/// A sink in memory. A write fails where its number is listed, and where its piece is longer than the room left.
#[derive(Drop)]
pub struct TestSink {
    taken: Vec<u8>,
    room: u64,
    fail: List<u64>,
    calls: u64,
    faults: FaultCount,
    ghost reserved: { room ≤ vec_capacity taken },
    ghost within: { vec_len taken ≤ room },
}

impl TestSink {
    ghost use Rattle.mw_outside.specs.SinkInMemory.{bytes_in, room_of, writes_of, failing_writes, write_faults};

    /// A sink that takes `room` bytes, for which it reserves memory. `fail` lists the writes that fail, counted
    /// from 1.
    pub fn new(alloc: Global, room: u64, fail: List<u64>) -> Result<TestSink, AllocError>
        ensures empty { IfOk result (λ sink. bytes_in sink ≡ []) }
        ensures room { IfOk result (λ sink. room_of sink ≡ room) }
        ensures fail { IfOk result (λ sink. failing_writes sink ≡ fail) }
        ensures unwritten { IfOk result (λ sink. writes_of sink ≡ 0) }
        ensures faultless { IfOk result (λ sink. write_faults sink ≡ 0) }
    {
        let taken = Vec::with_capacity(alloc, room as usize)?;
        Ok(TestSink {
            taken,
            room,
            fail,
            calls: 0,
            faults: FaultCount::new(),
        })
    }

    /// The bytes taken so far.
    pub fn taken(&self) -> &[u8]
        ensures { result.now ≡ bytes_in self.now }
    {
        &self.taken
    }
}

impl Sink for TestSink {
    ghost use Rattle.mw_outside.specs.Faults.{HasCause, next_call};
    ghost use Rattle.mw_outside.specs.Taken.{Takes, TakesPart};
    ghost use Rattle.mw_outside.specs.SinkInMemory.{bytes_in, room_of, writes_of, failing_writes, write_faults, Refuses};

    ghost taken = { λ sink. Some (bytes_in sink) };

    ghost faults = { write_faults };

    #[tactic(auto, using(crate::specs::Taken::parts))]
    fn write(&mut self, bytes: &[u8]) -> Result<(), Failed>
        ensures cause { HasCause (write_faults self.old) (write_faults self.new) result }
        ensures stays { OnOk result (write_faults self.new ≡ write_faults self.old) }
        ensures counted { write_faults self.new ≤ 2 ^ 64 - 1 }
        ensures takes { OnOk result (Takes (Some (bytes_in self.old)) (Some (bytes_in self.new)) bytes.now) }
        ensures part { TakesPart (Some (bytes_in self.old)) (Some (bytes_in self.new)) bytes.now }

        // It fails exactly so, and then takes nothing.
        ensures fails { IsErr result ↔ Refuses self.old (length bytes.now) }
        ensures nothing { OnErr result (bytes_in self.new ≡ bytes_in self.old) }
        ensures calls { writes_of self.new ≡ next_call (writes_of self.old) }
        ensures listed { failing_writes self.new ≡ failing_writes self.old }
        ensures room { room_of self.new ≡ room_of self.old }
    {
        self.calls = self.calls.saturating_add(1);
        if self.fail.items.contains(&self.calls) {
            self.faults.rise();
            return Err(Failed);
        }
        if bytes.len() as u64 > self.room - self.taken.len() as u64 {
            self.faults.rise();
            return Err(Failed);
        }
        // There is room for them, so this takes no memory.
        let _ = self.taken.extend_from_slice(bytes);
        Ok(())
    }
}
