//! Puts the lines of an interface block into the interface.

ghost use Rattle.std.specs.Prelude.{◌≡◌, ◌≢◌, IfOk, IfErr, Ok, Err};
ghost use Rattle.ios_reader.specs.InterfaceRows.{with_address, with_bandwidth, with_cost, named_once, with_list, interface_row};

use crate::draft::Seen;
use crate::interfaces::interface_address;
use crate::names::use_said;
use ios_ast::{Iface, Use};
use ios_policy_reader::said::number_said;
use ios_policy_reader::{Cause, Row, Said, Tag};
use mw_text::Line;
use std::alloc::Global;

/// Sets the address, which is written once, also where it was taken away since.
fn put_address(line: u32, said: &[Said], iface: &mut Iface, seen: Seen) -> Result<Seen, Cause>
    ensures ok { IfOk result (λ next. with_address line said.now iface.old seen ≡ Ok (iface.new, next)) }
    ensures refused { IfErr result (λ cause. with_address line said.now iface.old seen ≡ Err cause) }
{
    if seen.address {
        return Err(Cause::Repeated);
    }
    iface.address = Some(interface_address(line, said));
    Ok(Seen {
        address: true,
        ..seen
    })
}

/// Sets the bandwidth, which is written once.
fn put_bandwidth(said: &[Said], iface: &mut Iface, seen: Seen) -> Result<Seen, Cause>
    ensures ok { IfOk result (λ next. with_bandwidth said.now iface.old seen ≡ Ok (iface.new, next)) }
    ensures refused { IfErr result (λ cause. with_bandwidth said.now iface.old seen ≡ Err cause) }
{
    if seen.bandwidth {
        return Err(Cause::Repeated);
    }
    iface.bandwidth = number_said(Tag::Number, said, 0);
    Ok(Seen {
        bandwidth: true,
        ..seen
    })
}

/// Sets the OSPF cost, which is written once.
fn put_cost(said: &[Said], iface: &mut Iface) -> Result<(), Cause>
    ensures ok { IfOk result (λ _. with_cost said.now iface.old ≡ Ok iface.new) }
    ensures refused { IfErr result (λ cause. with_cost said.now iface.old ≡ Err cause) }
{
    if iface.cost.is_some() {
        return Err(Cause::Repeated);
    }
    iface.cost = Some(number_said(Tag::Number, said, 0));
    Ok(())
}

/// The access list that a line names, where none was named before.
fn list_once(
    alloc: Global,
    line: &Line,
    said: &[Said],
    old: &Option<Use>,
) -> Result<Option<Use>, Cause>
    ensures ok { IfOk result (λ list. named_once line.now said.now old.now ≡ Ok list) }
    ensures refused { IfErr result (λ cause. cause ≢ Cause.Memory → named_once line.now said.now old.now ≡ Err cause) }
{
    if old.is_some() {
        return Err(Cause::Repeated);
    }
    Ok(Some(use_said(alloc, Tag::Name, said, line)?))
}

/// Sets the access list of a direction, which is written once.
fn put_list(alloc: Global, line: &Line, said: &[Said], iface: &mut Iface) -> Result<(), Cause>
    ensures ok { IfOk result (λ _. with_list line.now said.now iface.old ≡ Ok iface.new) }
    ensures refused { IfErr result (λ cause. cause ≢ Cause.Memory → with_list line.now said.now iface.old ≡ Err cause) }
{
    if number_said(Tag::Direction, said, 0) == 1 {
        iface.list_in = list_once(alloc, line, said, &iface.list_in)?;
    } else {
        iface.list_out = list_once(alloc, line, said, &iface.list_out)?;
    }
    Ok(())
}

/// Puts a line of an interface block.
pub fn put_in_interface(
    alloc: Global,
    row: Row,
    line: &Line,
    said: &[Said],
    iface: &mut Iface,
    seen: Seen,
) -> Result<Seen, Cause>
    ensures ok { IfOk result (λ next. interface_row row line.now said.now iface.old seen ≡ Ok (iface.new, next)) }
    ensures refused { IfErr result (λ cause. cause ≢ Cause.Memory → interface_row row line.now said.now iface.old seen ≡ Err cause) }
{
    match row {
        Row::Address => return put_address(line.number, said, iface, seen),
        Row::Bandwidth => return put_bandwidth(said, iface, seen),
        Row::NoAddress => iface.address = None,
        Row::Shutdown => iface.shutdown = true,
        Row::NoShutdown => iface.shutdown = false,
        Row::OspfCost => put_cost(said, iface)?,
        Row::AccessGroup => put_list(alloc, line, said, iface)?,
        _ => (),
    }
    Ok(seen)
}
