//! The lines of a script.

use crate::answers::put_answer;
use crate::networks::{Setup, network_of};
use std::alloc::{AllocError, Global};
use std::mem;

fn add_line(text: &mut String, line: &str) -> Result<(), AllocError> {
    text.push_str(line)?;
    text.push_str("\n")
}

// The text so far, which is empty then.
fn taken(alloc: Global, setup: &mut Setup) -> String {
    mem::replace(&mut setup.text, String::new(alloc))
}

fn end_router(alloc: Global, setup: &mut Setup) -> Result<(), AllocError> {
    let text = taken(alloc, setup);
    setup.routers.push(text)?;
    Ok(())
}

fn events_of(setup: &mut Setup) -> Result<(), AllocError> {
    setup.front.push_str(setup.text.as_str())
}

fn simulate_text(
    alloc: Global,
    setup: &mut Setup,
    out: &mut String,
    name: &str,
) -> Result<(), AllocError> {
    let mut events = setup.front.clone()?;
    events.push_str(setup.text.as_str())?;
    setup.text.clear();
    out.push_str(name)?;
    out.push_str(": ")?;
    match network_of(alloc, setup.routers.as_slice())? {
        None => out.push_str("no network\n"),
        Some(net) => put_answer(alloc, out, net, events.as_bytes()),
    }
}

fn forget(alloc: Global, setup: &mut Setup) {
    setup.routers = Vec::new(alloc);
    setup.front.clear()
}

fn keep(alloc: Global, setup: &mut Setup) {
    setup.front = taken(alloc, setup)
}

fn take_order(
    alloc: Global,
    setup: &mut Setup,
    out: &mut String,
    order: &str,
) -> Result<(), AllocError> {
    let (word, rest) = order.split_once(' ').unwrap_or((order, ""));
    match word {
        "router" => end_router(alloc, setup),
        "simulate" => simulate_text(alloc, setup, out, rest),
        "keep" => {
            keep(alloc, setup);
            Ok(())
        }
        "clear" => {
            forget(alloc, setup);
            Ok(())
        }
        _ => Ok(()),
    }
}

/// Takes a line of a script.
pub fn take_line(
    alloc: Global,
    setup: &mut Setup,
    out: &mut String,
    line: &str,
) -> Result<(), AllocError> {
    match line.strip_prefix('%') {
        Some(order) => take_order(alloc, setup, out, order),
        None => add_line(&mut setup.text, line),
    }
}
