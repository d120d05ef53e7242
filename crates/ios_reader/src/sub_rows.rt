//! Puts the lines of the open block into the draft.

ghost use Rattle.std.specs.Prelude.{◌≡◌, ◌≢◌, IfOk, IfErr, Ok, Err};
ghost use Rattle.ios_reader.specs.SubRows.{in_last_interface, in_ospf, in_bgp, sub_row};

use crate::bgp_rows::put_in_bgp;
use crate::draft::{Block, Draft};
use crate::interface_rows::put_in_interface;
use crate::ospf_rows::put_in_ospf;
use ios_policy_reader::{Cause, Row, Said};
use mw_text::Line;
use std::alloc::Global;

/// Puts a line into the last interface.
fn put_in_last_interface(
    alloc: Global,
    row: Row,
    line: &Line,
    said: &[Said],
    draft: &mut Draft,
) -> Result<(), Cause>
    ensures ok { IfOk result (λ _. in_last_interface row line.now said.now draft.old ≡ Ok draft.new) }
    ensures refused { IfErr result (λ cause. cause ≢ Cause.Memory → in_last_interface row line.now said.now draft.old ≡ Err cause) }
{
    let count = draft.file.interfaces.items.len();
    if count == 0 {
        return Err(Cause::OutOfPlace);
    }
    let seen = draft.seen;
    let iface = &mut draft.file.interfaces.items[count - 1];
    draft.seen = put_in_interface(alloc, row, line, said, iface, seen)?;
    Ok(())
}

/// Puts a line into the OSPF process.
fn put_in_ospf_process(
    alloc: Global,
    row: Row,
    line: &Line,
    said: &[Said],
    draft: &mut Draft,
) -> Result<(), Cause>
    ensures ok { IfOk result (λ _. in_ospf row line.now said.now draft.old ≡ Ok draft.new) }
    ensures refused { IfErr result (λ cause. cause ≢ Cause.Memory → in_ospf row line.now said.now draft.old ≡ Err cause) }
{
    let seen = draft.seen;
    let Some(ospf) = &mut draft.file.ospf else {
        return Err(Cause::OutOfPlace);
    };
    draft.seen = put_in_ospf(alloc, row, line, said, ospf, seen)?;
    Ok(())
}

/// Puts a line into the BGP process.
fn put_in_bgp_process(
    alloc: Global,
    row: Row,
    line: &Line,
    said: &[Said],
    draft: &mut Draft,
) -> Result<(), Cause>
    ensures ok { IfOk result (λ _. in_bgp row line.now said.now draft.old ≡ Ok draft.new) }
    ensures refused { IfErr result (λ cause. cause ≢ Cause.Memory → in_bgp row line.now said.now draft.old ≡ Err cause) }
{
    let Some(bgp) = &mut draft.file.bgp else {
        return Err(Cause::OutOfPlace);
    };
    put_in_bgp(alloc, row, line, said, bgp)
}

/// Puts a line of the open block.
pub fn put_sub(
    alloc: Global,
    row: Row,
    line: &Line,
    said: &[Said],
    draft: &mut Draft,
) -> Result<(), Cause>
    ensures ok { IfOk result (λ _. sub_row row line.now said.now draft.old ≡ Ok draft.new) }
    ensures refused { IfErr result (λ cause. cause ≢ Cause.Memory → sub_row row line.now said.now draft.old ≡ Err cause) }
{
    match draft.block {
        Block::Interface => put_in_last_interface(alloc, row, line, said, draft),
        Block::Ospf => put_in_ospf_process(alloc, row, line, said, draft),
        Block::Bgp => put_in_bgp_process(alloc, row, line, said, draft),
        Block::Closed | Block::Ignored => Ok(()),
    }
}
