//! The lines that open and close the section of a question in the log.

ghost use Rattle.std.specs.Prelude.{◌≡◌, IfOk, OnOk};
ghost use Rattle.cdcl_search.specs.Outcomes.{OnLogFault, UnlessLogFault};
ghost use Rattle.mw_outside.specs.Faults.{Rose};
ghost use Rattle.mw_outside.specs.Taken.{Takes, TakesPart};
ghost use Rattle.run_answers.specs.Answering.{end_text};
ghost use Rattle.run_answers.specs.Verdicts.{opening_text};

use cdcl_search::SolveFault;
use mw_outside::Sink;
use question_lang::Question;
use run_inputs::text::joined;
use std::alloc::Global;

/// Opens the section of a question in the log.
pub fn write_opening<L: Sink>(
    alloc: Global,
    question: &Question,
    log: &mut L,
) -> Result<(), SolveFault>
    ensures takes { OnOk result (Takes (L.taken log.old) (L.taken log.new) (opening_text question.now)) }
    ensures part { TakesPart (L.taken log.old) (L.taken log.new) (opening_text question.now) }
    ensures fault { OnLogFault result (Rose (L.faults log.old) (L.faults log.new)) }
    ensures stays { UnlessLogFault result (L.faults log.new ≡ L.faults log.old) }
{
    let text = joined(alloc, &[b"q ", question.name.as_slice(), b"\n"])?;
    match log.write(text.as_slice()) {
        Ok(()) => Ok(()),
        Err(_) => Err(SolveFault::LogFault),
    }
}

/// Closes it.
pub fn write_end<L: Sink>(log: &mut L) -> Result<(), SolveFault>
    ensures takes { OnOk result (Takes (L.taken log.old) (L.taken log.new) end_text) }
    ensures part { TakesPart (L.taken log.old) (L.taken log.new) end_text }
    ensures fault { OnLogFault result (Rose (L.faults log.old) (L.faults log.new)) }
    ensures stays { UnlessLogFault result (L.faults log.new ≡ L.faults log.old) }
{
    match log.write(b"e\n") {
        Ok(()) => Ok(()),
        Err(_) => Err(SolveFault::LogFault),
    }
}
