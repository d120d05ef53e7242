//! Puts the lines of an OSPF block into the process.

ghost use Rattle.std.specs.Prelude.{◌≡◌, ◌≢◌, IfOk, IfErr, Ok, Err};
ghost use Rattle.ios_reader.specs.OspfRows.{with_passive, with_active, with_network, with_redistribution, with_default, with_reference, once_router_id, ospf_row};

use crate::draft::Seen;
use crate::names::use_said;
use crate::ospf::{default_origin, ospf_network, redistribution};
use ios_ast::Ospf;
use ios_policy_reader::growing::add_to;
use ios_policy_reader::said::{is_said, number_said};
use ios_policy_reader::{Cause, Row, Said, Tag};
use mw_text::Line;
use std::alloc::Global;

/// The router id of OSPF has no effect, and is written once.
fn note_router_id(seen: Seen) -> Result<Seen, Cause>
    ensures { result ≡ once_router_id seen }
{
    if seen.router_id {
        return Err(Cause::Repeated);
    }
    Ok(Seen {
        router_id: true,
        ..seen
    })
}

fn put_network(line: &Line, said: &[Said], ospf: &mut Ospf) -> Result<(), Cause>
    ensures ok { IfOk result (λ _. ospf.new ≡ with_network line.now said.now ospf.old) }
    ensures refused { IfErr result (λ cause. cause ≡ Cause.Memory) }
{
    add_to(&mut ospf.networks, ospf_network(line.number, said))?;
    Ok(())
}

/// Makes an interface passive, or every interface.
fn put_passive(alloc: Global, line: &Line, said: &[Said], ospf: &mut Ospf) -> Result<(), Cause>
    ensures ok { IfOk result (λ _. ospf.new ≡ with_passive line.now said.now ospf.old) }
    ensures refused { IfErr result (λ cause. cause ≡ Cause.Memory) }
{
    if is_said(Tag::Every, said) {
        ospf.passive_default = true;
    } else {
        let name = use_said(alloc, Tag::Name, said, line)?;
        add_to(&mut ospf.passive, name)?;
    }
    Ok(())
}

/// Makes an interface active where every interface is passive.
fn put_active(alloc: Global, line: &Line, said: &[Said], ospf: &mut Ospf) -> Result<(), Cause>
    ensures ok { IfOk result (λ _. ospf.new ≡ with_active line.now said.now ospf.old) }
    ensures refused { IfErr result (λ cause. cause ≡ Cause.Memory) }
{
    let name = use_said(alloc, Tag::Name, said, line)?;
    add_to(&mut ospf.active, name)?;
    Ok(())
}

/// Sets the reference bandwidth, which is written once.
fn put_reference(said: &[Said], ospf: &mut Ospf, seen: Seen) -> Result<Seen, Cause>
    ensures ok { IfOk result (λ next. with_reference said.now ospf.old seen ≡ Ok (ospf.new, next)) }
    ensures refused { IfErr result (λ cause. with_reference said.now ospf.old seen ≡ Err cause) }
{
    if seen.reference {
        return Err(Cause::Repeated);
    }
    ospf.reference = number_said(Tag::Number, said, 0);
    Ok(Seen {
        reference: true,
        ..seen
    })
}

fn put_redistribution(
    alloc: Global,
    line: &Line,
    said: &[Said],
    ospf: &mut Ospf,
) -> Result<(), Cause>
    ensures ok { IfOk result (λ _. ospf.new ≡ with_redistribution line.now said.now ospf.old) }
    ensures refused { IfErr result (λ cause. cause ≡ Cause.Memory) }
{
    let redist = redistribution(alloc, line, said)?;
    add_to(&mut ospf.redistribute, redist)?;
    Ok(())
}

/// Sets the default origin, which is written once.
fn put_default(line: &Line, said: &[Said], ospf: &mut Ospf) -> Result<(), Cause>
    ensures ok { IfOk result (λ _. with_default line.now said.now ospf.old ≡ Ok ospf.new) }
    ensures refused { IfErr result (λ cause. with_default line.now said.now ospf.old ≡ Err cause) }
{
    if ospf.default.is_some() {
        return Err(Cause::Repeated);
    }
    ospf.default = Some(default_origin(line.number, said));
    Ok(())
}

/// Puts a line of an OSPF block.
pub fn put_in_ospf(
    alloc: Global,
    row: Row,
    line: &Line,
    said: &[Said],
    ospf: &mut Ospf,
    seen: Seen,
) -> Result<Seen, Cause>
    ensures ok { IfOk result (λ next. ospf_row row line.now said.now ospf.old seen ≡ Ok (ospf.new, next)) }
    ensures refused { IfErr result (λ cause. cause ≢ Cause.Memory → ospf_row row line.now said.now ospf.old seen ≡ Err cause) }
{
    match row {
        Row::RouterId => return note_router_id(seen),
        Row::ReferenceBandwidth => return put_reference(said, ospf, seen),
        Row::OspfNetwork => put_network(line, said, ospf)?,
        Row::Passive => put_passive(alloc, line, said, ospf)?,
        Row::NoPassive => put_active(alloc, line, said, ospf)?,
        Row::OspfRedistribute => put_redistribution(alloc, line, said, ospf)?,
        Row::Originate => put_default(line, said, ospf)?,
        _ => (),
    }
    Ok(seen)
}
