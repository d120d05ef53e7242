//! Why a run of answers ends early, and the lines of a verdict on the output.

ghost use Rattle.std.specs.Prelude.{◌≡◌, OnOk};
ghost use Rattle.mw_outside.specs.Faults.{Rose};
ghost use Rattle.mw_outside.specs.Taken.{Takes, TakesPart};
ghost use Rattle.run_answers.specs.Answering.{OnWriteFault, UnlessWriteFault};
ghost use Rattle.run_answers.specs.Verdicts.{verdict_text};

use crate::verdict::{Verdict, verdict_lines};
use cdcl_search::SolveFault;
use mw_outside::Sink;
use question_lang::Question;
use run_inputs::load::Loaded;
use std::alloc::Global;

/// Why a run of answers ends early: at a write that failed, or for want of memory.
#[derive(Clone, Copy)]
pub enum Halt {
    WriteFault,
    Memory,
}

impl From<SolveFault> for Halt {
    ghost use Rattle.run_answers.specs.Answering.{halt_of};

    ghost from_gives = { λ fault halt. halt ≡ halt_of fault };

    fn from(fault: SolveFault) -> Halt {
        match fault {
            SolveFault::LogFault => Halt::WriteFault,
            SolveFault::Memory => Halt::Memory,
        }
    }
}

/// Prints the lines of a verdict.
pub fn put_lines<O: Sink>(
    alloc: Global,
    loaded: &Loaded,
    question: &Question,
    verdict: &Verdict,
    out: &mut O,
) -> Result<(), Halt>
    ensures takes { OnOk result (Takes (O.taken out.old) (O.taken out.new)
        (verdict_text loaded.now.net.files loaded.now.questions question.now verdict.now)) }
    ensures part { TakesPart (O.taken out.old) (O.taken out.new)
        (verdict_text loaded.now.net.files loaded.now.questions question.now verdict.now) }
    ensures fault { OnWriteFault result (Rose (O.faults out.old) (O.faults out.new)) }
    ensures writes { UnlessWriteFault result (O.faults out.new ≡ O.faults out.old) }
{
    let lines = verdict_lines(
        alloc,
        &loaded.net,
        loaded.questions.as_slice(),
        question,
        verdict,
    );
    let text = match lines {
        Ok(text) => text,
        Err(_) => return Err(Halt::Memory),
    };
    match out.write(text.as_slice()) {
        Ok(()) => Ok(()),
        Err(_) => Err(Halt::WriteFault),
    }
}
