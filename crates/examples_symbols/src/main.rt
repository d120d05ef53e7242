//! Reads a script of small networks, makes terms of what it asks, and prints what they are under values of their
//! variables.
//!
//! A line without `%` is a line of the text. `%router` reads the text as a router's, `%network` makes the network of the
//! routers so far, and `%questions` reads the text as questions. `% TEXT` is a remark. Each other order asks:
//! `%WORD NAME: WORDS = ANSWER`; values of variables stand last, in the order in which the variables are made, as
//! `NUMBER:WIDTH`, as an address, or as `-WIDTH` for bits that are false, and the others are false. The program prints
//! `ok NAME` where the answer is as it says, and else what it got.
#![tactic(auto)]

mod asked;
mod fresh;
mod nodes;
mod page;
mod routes;
mod rows;
mod sessions;
mod setup;
mod values;

use crate::asked::ask;
use crate::page::Page;
use crate::setup::{Setup, add_line, end_router, make_network, make_questions};
use std::io;

fn take_order(out: &mut Page, setup: &mut Setup, order: &str) {
    let (word, rest) = order.split_once(' ').unwrap_or((order, ""));
    match word {
        "" => {}
        "router" => {
            let end = end_router(out.alloc(), &mut setup.text, &mut setup.files);
            out.note(end)
        }
        "network" => make_network(out.alloc(), setup),
        "questions" => make_questions(out.alloc(), setup),
        _ => ask(out, setup, word, rest),
    }
}

fn take_line(out: &mut Page, setup: &mut Setup, line: &str) {
    match line.strip_prefix('%') {
        Some(order) => take_order(out, setup, order),
        None => {
            let end = add_line(&mut setup.text, line);
            out.note(end)
        }
    }
}

/// Prints what the page holds, and clears it.
fn show(rt: &impl Print, out: &mut Page) -> io::Result<()> {
    out.memory()?;
    print!(rt; "{}", out.text())?;
    out.clear();
    Ok(())
}

fn read_script(
    rt: &(impl Input + Print + AllocGlobal),
    out: &mut Page,
    setup: &mut Setup,
) -> io::Result<()> {
    for line in rt.lines(rt.alloc()) {
        take_line(out, setup, line?.as_str());
        show(rt, out)?;
    }
    Ok(())
}

fn main(rt: HostRuntime) -> io::Result<()> {
    let mut out = Page::new(rt.alloc());
    let mut setup = Setup::new(rt.alloc());
    read_script(&rt, &mut out, &mut setup)
}
