//! Reads a script of worked examples, and prints what configurations, networks, questions, policies and protocols make
//! of them.
//!
//! A line without `%` is a line of the text; `%raw TEXT` adds a text in which `|` is the end of a line and `~` a carriage
//! return, and `%repeat FROM TO LINE` a line for each number. `%router` reads the text as a router's, `%routers FROM TO
//! LINE` a router of one line for each number, and `%network` makes the network of the routers so far. `%failed LINKS`
//! says which links have failed, `%track COMMUNITIES/NUMBERS/CLUSTERS` what the network tracks too, `%candidate ROUTE
//! IDENTIFIER OTHERS` adds a candidate, and `%clear` forgets the text, the routers that are in no network, and the
//! candidates. `%grammar` prints the table by which questions are read. `% TEXT` is a remark.
//!
//! Each other order asks: `%WORD NAME: WORDS = ANSWER`. What its words are stands where it is answered. Where the answer
//! is as it says, the program prints `ok NAME`, and else what it got; without an answer it prints what it got.
#![tactic(auto)]

mod asked;
mod cex;
mod each_word;
mod grammar;
mod lists;
mod page;
mod protocols;
mod reading;
mod rebuilding;
mod routes;
mod setup;
mod shown;
mod shown_network;
mod shown_policies;
mod shown_questions;
mod words;

use crate::asked::ask;
use crate::page::Page;
use crate::setup::{
    Setup, add_line, add_raw, add_repeated, add_routers, end_router, fail_links, forget,
    make_network, track,
};
use crate::words::cut;
use std::io;

fn take_candidate(out: &mut Page, setup: &mut Setup, order: &str) {
    let candidate = protocols::candidate(out, order);
    let end = setup::push_candidate(setup, candidate);
    out.note(end)
}

/// Adds to the text what the order says.
fn write_text(out: &mut Page, setup: &mut Setup, word: &str, rest: &str) {
    let end = match word {
        "raw" => add_raw(out.alloc(), &mut setup.text, rest),
        "repeat" => add_repeated(out.alloc(), &mut setup.text, rest),
        _ => end_router(out.alloc(), &mut setup.text, &mut setup.files),
    };
    out.note(end)
}

fn take_order(out: &mut Page, setup: &mut Setup, order: &str) {
    let (word, rest) = cut(order);
    match word {
        "" => {}
        "raw" | "repeat" | "router" => write_text(out, setup, word, rest),
        "routers" => add_routers(out, setup, rest),
        "network" => make_network(out.alloc(), setup),
        "failed" => fail_links(out, setup, rest),
        "track" => track(out, setup, rest),
        "candidate" => take_candidate(out, setup, rest),
        "clear" => forget(out.alloc(), setup),
        "grammar" => grammar::put_questions(out),
        _ => ask(out, setup, word, rest),
    }
}

fn take_line(out: &mut Page, setup: &mut Setup, line: &str) {
    match line.strip_prefix('%') {
        Some(order) => take_order(out, setup, order),
        None => {
            let end = add_line(&mut setup.text, line);
            out.note(end)
        }
    }
}

/// Prints what the page holds, and clears it.
fn show(rt: &impl Print, out: &mut Page) -> io::Result<()> {
    out.memory()?;
    print!(rt; "{}", out.text())?;
    out.clear();
    Ok(())
}

fn read_script(
    rt: &(impl Input + Print + AllocGlobal),
    out: &mut Page,
    setup: &mut Setup,
) -> io::Result<()> {
    for line in rt.lines(rt.alloc()) {
        take_line(out, setup, line?.as_str());
        show(rt, out)?;
    }
    Ok(())
}

fn main(rt: HostRuntime) -> io::Result<()> {
    let mut out = Page::new(rt.alloc());
    let mut setup = Setup::new(rt.alloc());
    read_script(&rt, &mut out, &mut setup)
}
