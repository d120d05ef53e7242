//! The answer to the question about a generated network.

ghost use Rattle.std.specs.Prelude.{◌≡◌, ◌≢◌, ◌⊎◌, length, map};
ghost use Rattle.mw_outside.specs.Faults.{Rose};
ghost use Rattle.run_answers.specs.Running.{AnswersSo};
ghost use Rattle.run_inputs.specs.Due as due;
ghost use Rattle.run_inputs.specs.Loading.{IsReady};

use crate::verdicts::put_verdicts;
use deciders::Decider;
use mw_outside::Sink;
use run_answers::{Halt, Status, put_size};
use run_inputs::Work;
use run_inputs::ring::Ring;
use std::alloc::Global;

/// Prints how large the ring is, and then answers the question about it.
pub fn put_ring<O: Sink, L: Sink>(
    alloc: Global,
    ring: &Ring,
    out: &mut O,
    log: &mut L,
    deciders: &mut Vec<Box<dyn Decider>>,
) -> Status
    requires { IsReady (Work.Gen ring.now) }
    ensures answers { AnswersSo (due.generating ring.now.routers ring.now.loaded.net.files
        ring.now.loaded.questions ring.now.loaded.budget) result
        (O.taken out.old) (O.taken out.new) (L.taken log.old) (L.taken log.new) (map (λ b. told b) deciders.new.items)
        (Rose (O.faults out.old) (O.faults out.new) ⊎ Rose (L.faults log.old) (L.faults log.new)) }
    ensures writes { result ≢ Status.WriteFault → (O.faults out.new ≡ O.faults out.old) × (L.faults log.new ≡ L.faults log.old) }
    ensures deciders { length deciders.new.items ≡ length deciders.old.items }
{
    match put_size(alloc, ring.routers, out) {
        Ok(()) => put_verdicts(alloc, &ring.loaded, out, log, deciders),
        Err(Halt::WriteFault) => Status::WriteFault,
        Err(Halt::Memory) => Status::Memory,
    }
}
