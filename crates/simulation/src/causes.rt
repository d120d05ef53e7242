//! Why an events file is refused, and at which line.

ghost use Rattle.std.specs.Prelude.{◌≡◌, ◌≢◌};

use ios_policy_reader::Cause;
use machine_laws::EventRefused;
use std::alloc::AllocError;

/// Why a line of an events file is refused: it is none of the forms of lines, or stands in another place than its own,
/// or names a peer a second time; or its event is refused; or memory is short.
#[derive(Clone, Copy)]
pub enum SimulationCause {
    Line(Cause),
    Event(EventRefused),
    Memory,
}

/// The line at which an events file is refused, counted from 1, and why. Want of memory is at line 0.
#[derive(Clone, Copy)]
pub struct SimulationRefused {
    pub line: u32,
    pub cause: SimulationCause,
}

/// Memory was short.
pub const MEMORY: SimulationRefused = SimulationRefused {
    line: 0,
    cause: SimulationCause::Memory,
};

impl From<AllocError> for SimulationRefused {
    ghost use Rattle.simulation.specs.declared.causes.SimulationCause.TheVariants.{Memory};

    ghost from_gives = { λ _ refused. refused ≡ record { line = 0; cause = Memory } };

    fn from(_error: AllocError) -> SimulationRefused {
        MEMORY
    }
}

/// A line that is none.
pub fn line_cause(cause: Cause) -> SimulationCause
    ensures value { result ≢ SimulationCause.Memory → result ≡ SimulationCause.Line cause }
    ensures memory { result ≢ SimulationCause.Memory → cause ≢ Cause.Memory }
{
    match cause {
        Cause::Memory => SimulationCause::Memory,
        _ => SimulationCause::Line(cause),
    }
}

/// An event that is refused.
pub fn event_cause(why: EventRefused) -> SimulationCause
    ensures value { result ≢ SimulationCause.Memory → result ≡ SimulationCause.Event why }
    ensures memory { result ≢ SimulationCause.Memory → why ≢ EventRefused.Memory }
{
    match why {
        EventRefused::Memory => SimulationCause::Memory,
        _ => SimulationCause::Event(why),
    }
}

/// A cause at a line.
pub fn at_line(line: u32, cause: SimulationCause) -> SimulationRefused
    ensures value { result.cause ≢ SimulationCause.Memory → result ≡ record { line = line; cause = cause } }
    ensures memory { result.cause ≢ SimulationCause.Memory → cause ≢ SimulationCause.Memory }
{
    match cause {
        SimulationCause::Memory => MEMORY,
        _ => SimulationRefused { line, cause },
    }
}
