//! A decider that records its bumps.

ghost use Rattle.std.specs.Prelude.{◌≡◌, ◌<◌, [], List, Some, length, IfSome, OnOk};

use crate::{Choice, Decider, Value};
use std::alloc::{AllocError, Global};

/// How many bumps a recorder keeps.
pub const KEPT_BUMPS: usize = 65_536;

/// A decider for tests: it keeps the first bumps that fit, tells them while all of them fit, and chooses nothing.
#[derive(Drop)]
pub struct Recorder {
    bumps: Vec<u64>,
    is_whole: bool,
}

impl Recorder {
    ghost use Rattle.deciders.specs.Recorded.{bumps_told};

    /// A recorder without bumps. It takes no memory, and none fits before `prepare`.
    pub fn new(alloc: Global) -> Recorder
        ensures { bumps_told result ≡ Some [] }
    {
        Recorder {
            bumps: Vec::new(alloc),
            is_whole: true,
        }
    }
}

impl Decider for Recorder {
    ghost use Rattle.deciders.specs.Told.{TellsBump, with_bump};
    ghost use Rattle.deciders.specs.Recorded.{bumps_told, room_of};

    ghost told = { bumps_told };

    fn prepare(&mut self, alloc: Global, _vars: u64) -> Result<(), AllocError>
        ensures empty { IfSome (bumps_told self.new) (λ bumps. bumps ≡ []) }
        ensures tells { OnOk result (bumps_told self.new ≡ Some []) }
        ensures room { OnOk result (room_of self.new ≡ KEPT_BUMPS) }
    {
        self.bumps.clear();
        self.is_whole = false;
        self.bumps = Vec::with_capacity(alloc, KEPT_BUMPS)?;
        self.is_whole = true;
        Ok(())
    }

    fn bump(&mut self, var: u64)
        ensures told { TellsBump (bumps_told self.old) (bumps_told self.new) var }
        ensures tells { IfSome (bumps_told self.old) (λ bumps. length bumps < room_of self.old
            → bumps_told self.new ≡ with_bump (bumps_told self.old) var) }
        ensures room { room_of self.new ≡ room_of self.old }
    {
        if self.bumps.len() < self.bumps.capacity() {
            self.bumps.push_reserved(var);
        } else {
            self.is_whole = false;
        }
    }

    fn decay(&mut self)
        ensures { self.new ≡ self.old }
    {}

    fn pick(&mut self, values: &[Value]) -> Choice
        ensures same { self.new ≡ self.old }
        ensures no_choice { result.var ≡ length values.now }
    {
        Choice {
            var: values.len() as u64,
            positive: false,
        }
    }

    fn bumps(&self) -> &[u64] {
        &self.bumps
    }
}
