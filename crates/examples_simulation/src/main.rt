//! Reads configurations and events files, and prints what the events come to.
//!
//! A line without `%` is a line of the text. `%router` makes the text that of a router, `%keep` keeps it as the front
//! of each events file, and `%simulate NAME` prints what the text comes to, behind that front, over the network of the
//! routers. `%clear` forgets the routers and the front. `% TEXT` is a remark.
#![tactic(auto)]

mod answers;
mod networks;
mod orders;

use crate::networks::Setup;
use crate::orders::take_line;
use std::io;

fn read_script(
    rt: &(impl Input + Print + AllocGlobal),
    setup: &mut Setup,
    out: &mut String,
) -> io::Result<()> {
    for line in rt.lines(rt.alloc()) {
        take_line(rt.alloc(), setup, out, line?.as_str())?;
        print!(rt; "{out}")?;
        out.clear();
    }
    Ok(())
}

fn main(rt: HostRuntime) -> io::Result<()> {
    let mut setup = Setup::new(rt.alloc());
    let mut out = String::new(rt.alloc());
    read_script(&rt, &mut setup, &mut out)
}
