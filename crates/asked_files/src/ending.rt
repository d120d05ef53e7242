//! How a command ends.

ghost use Rattle.std.specs.Prelude.{◌≡◌};
ghost use Rattle.asked_files.specs.Ending as ending;
ghost use Rattle.log_trim.specs.Printing.{PrintsSo};

use mw_load::Ended;
use mw_outside::Sink;
use mw_text::List;
use run_answers::Seen;

/// How a command ends whose answers were these.
pub fn ended_by(seen: Seen) -> Ended
    ensures { result ≡ ending.ended_by seen.broken seen.unknown }
{
    if seen.broken {
        Ended::Bad
    } else if seen.unknown {
        Ended::Unknown
    } else {
        Ended::Good
    }
}

/// Prints the line of a refusal.
pub fn put_refusal<O: Sink>(line: &List<u8>, out: &mut O) -> Ended
    ensures { PrintsSo (O.taken out.old) (O.taken out.new) (O.faults out.old) (O.faults out.new) line.now Ended.Refused result }
{
    match out.write(line.as_slice()) {
        Ok(()) => Ended::Refused,
        Err(_) => Ended::WriteFault,
    }
}
