//! What events come to, as text.

use crate::networks::LONGEST;
use ios_policy_reader::Cause;
use machine_laws::EventRefused;
use net_model::Net;
use simulation::{SimulationCause, SimulationRefused, simulate};
use std::alloc::{AllocError, Global};
use std::fmt::Write;

fn put_line_cause(out: &mut String, cause: Cause) -> Result<(), AllocError> {
    match cause {
        Cause::UnknownCommand => out.push_str("UnknownCommand"),
        Cause::BadWord { word } => write!(out, "BadWord {word}"),
        Cause::Repeated => out.push_str("Repeated"),
        Cause::OutOfPlace => out.push_str("OutOfPlace"),
        _ => out.push_str("another"),
    }
}

fn event_text(why: EventRefused) -> &'static str {
    match why {
        EventRefused::NothingToDeliver => "NothingToDeliver",
        EventRefused::UnknownName => "UnknownName",
        EventRefused::AlreadySo => "AlreadySo",
        EventRefused::Memory => "Memory",
    }
}

fn put_cause(out: &mut String, cause: SimulationCause) -> Result<(), AllocError> {
    match cause {
        SimulationCause::Line(cause) => put_line_cause(out, cause),
        SimulationCause::Event(why) => out.push_str(event_text(why)),
        SimulationCause::Memory => out.push_str("Memory"),
    }
}

fn put_refused(out: &mut String, refused: SimulationRefused) -> Result<(), AllocError> {
    let line = refused.line;
    write!(out, "refused {line} ")?;
    put_cause(out, refused.cause)?;
    out.push_str("\n")
}

fn put_bytes(out: &mut String, bytes: &[u8]) -> Result<(), AllocError> {
    for byte in bytes {
        out.push(char::from(*byte))?;
    }
    Ok(())
}

/// The answer of a simulation.
pub fn put_answer(
    alloc: Global,
    out: &mut String,
    net: Net,
    events: &[u8],
) -> Result<(), AllocError> {
    if events.len() > LONGEST {
        return out.push_str("too long\n");
    }
    match simulate(alloc, net, events) {
        Ok(told) => put_bytes(out, told.text.as_slice()),
        Err(refused) => put_refused(out, refused),
    }
}
