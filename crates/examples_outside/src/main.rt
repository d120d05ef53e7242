//! Calls the outside on a script, and prints what each call answers.
//!
//! `create NAME TEXT` creates a file with that text, `fill NAME N` one with N times `!`, and `absent` one in a folder that is
//! not there; `read NAME LIMIT` reads a file whole, `count NAME LIMIT` says how many bytes that gives, and `piece NAME AT`
//! reads four bytes; `rename NAME NAME`, `remove NAME` and `age NAME` change files; `copy NAME NAME` copies two files to the
//! standard output, `nowhere TEXT` writes to the sink that takes all, and `halting TEXT` to a writer that is interrupted at
//! its second call, takes three bytes at others, and fails at its fifth. `% TEXT` is printed.
#![tactic(auto)]

mod copies;
mod halting;
mod machine;

use crate::halting::show_halting;
use crate::machine::{age, copy, count, create, fill, piece, read, remove, rename};
use mw_outside::{DirFiles, Files, NoSink, Sink};
use std::io;

fn number(word: &str) -> u64 {
    word.parse::<u64>().unwrap_or(0)
}

fn show_nowhere(rt: &HostRuntime, text: &str) -> io::Result<()> {
    match NoSink::new().write(text.as_bytes()) {
        Ok(()) => println!(rt; "taken"),
        Err(_) => println!(rt; "failed"),
    }
}

// An order that reads.
fn take_read(
    rt: &HostRuntime,
    files: &mut impl Files,
    word: &str,
    name: &str,
    rest: &str,
) -> io::Result<()> {
    match word {
        "read" => read(rt, files, name, number(rest)),
        "count" => count(rt, files, name, number(rest)),
        "piece" => piece(rt, files, name, number(rest)),
        "copy" => copy(rt, files, name, rest),
        _ => println!(rt; "no order: {word}"),
    }
}

fn take_order(
    rt: &HostRuntime,
    files: &mut impl Files,
    word: &str,
    name: &str,
    rest: &str,
) -> io::Result<()> {
    match word {
        "%" => println!(rt; "% {name} {rest}"),
        "create" => create(rt, name, rest.as_bytes()),
        "fill" => fill(rt, name, number(rest)),
        "rename" => rename(rt, name, rest),
        "remove" => remove(rt, name),
        "age" => age(rt, name),
        "nowhere" => show_nowhere(rt, name),
        "halting" => show_halting(rt, name.as_bytes(), rest.as_bytes()),
        _ => take_read(rt, files, word, name, rest),
    }
}

fn take_line(rt: &HostRuntime, files: &mut impl Files, line: &str) -> io::Result<()> {
    let (word, rest) = line.split_once(' ').unwrap_or((line, ""));
    let (name, rest) = rest.split_once(' ').unwrap_or((rest, ""));
    take_order(rt, files, word, name, rest)
}

fn main(rt: HostRuntime) -> io::Result<()> {
    let mut files = DirFiles::new(rt);
    for line in rt.lines(rt.alloc()) {
        take_line(&rt, &mut files, line?.as_str())?;
    }
    Ok(())
}
