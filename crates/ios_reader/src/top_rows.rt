//! Puts the top lines of a router into the draft.

ghost use Rattle.std.specs.Prelude.{◌≡◌, ◌≢◌, IfOk, IfErr, Ok, Err};
ghost use Rattle.std.specs.List.{list_any};
ghost use Rattle.mw_text.specs.Text.{same_text};
ghost use Rattle.ios_reader.specs.TopRows.{with_hostname, with_interface, with_route, with_ospf, with_bgp, with_banner, top_row};

use crate::banner::{delimiter_of_line, ends_on_its_line, is_ended_in};
use crate::bgp::bgp_process;
use crate::draft::{Block, Draft, Seen};
use crate::interfaces::{interface_named, static_route};
use crate::names::name_said;
use crate::ospf::ospf_process;
use ios_ast::{Iface, MOST_INTERFACES};
use ios_policy_reader::growing::add_to;
use ios_policy_reader::said::number_said;
use ios_policy_reader::{Cause, Row, Said, Tag};
use mw_text::{Line, same_bytes};
use std::alloc::Global;

/// Sets the name of the router, which is written once.
fn put_hostname(alloc: Global, line: &Line, said: &[Said], draft: &mut Draft) -> Result<(), Cause>
    ensures ok { IfOk result (λ _. with_hostname line.now said.now draft.old ≡ Ok draft.new) }
    ensures refused { IfErr result (λ cause. cause ≢ Cause.Memory → with_hostname line.now said.now draft.old ≡ Err cause) }
{
    if !draft.file.hostname.items.is_empty() {
        return Err(Cause::Repeated);
    }
    draft.file.hostname = name_said(alloc, Tag::Name, said, line.words.as_slice())?;
    draft.file.hostname_line = line.number;
    Ok(())
}

fn has_interface(interfaces: &[Iface], name: &[u8]) -> bool
    ensures { result ≡ list_any (λ iface. same_text iface.name name.now) interfaces.now }
{
    interfaces
        .iter()
        .any(|iface| same_bytes(iface.name.as_slice(), name))
}

/// Opens the block of an interface with another name than each before.
fn put_interface(alloc: Global, line: &Line, said: &[Said], draft: &mut Draft) -> Result<(), Cause>
    ensures ok { IfOk result (λ _. with_interface line.now said.now draft.old ≡ Ok draft.new) }
    ensures refused { IfErr result (λ cause. cause ≢ Cause.Memory → with_interface line.now said.now draft.old ≡ Err cause) }
{
    let name = name_said(alloc, Tag::Name, said, line.words.as_slice())?;
    if has_interface(draft.file.interfaces.as_slice(), name.as_slice()) {
        return Err(Cause::Repeated);
    }
    if draft.file.interfaces.items.len() >= MOST_INTERFACES {
        return Err(Cause::Limit);
    }
    add_to(
        &mut draft.file.interfaces,
        interface_named(line.number, name),
    )?;
    draft.block = Block::Interface;
    draft.seen = Seen {
        address: false,
        bandwidth: false,
        ..draft.seen
    };
    Ok(())
}

fn put_route(alloc: Global, line: &Line, said: &[Said], draft: &mut Draft) -> Result<(), Cause>
    ensures ok { IfOk result (λ _. draft.new ≡ with_route line.now said.now draft.old) }
    ensures refused { IfErr result (λ cause. cause ≡ Cause.Memory) }
{
    let route = static_route(alloc, line, said)?;
    add_to(&mut draft.file.statics, route)?;
    Ok(())
}

/// Opens the block of the OSPF process, of which there is one.
fn put_ospf(alloc: Global, line: u32, said: &[Said], draft: &mut Draft) -> Result<(), Cause>
    ensures ok { IfOk result (λ _. with_ospf line said.now draft.old ≡ Ok draft.new) }
    ensures refused { IfErr result (λ cause. with_ospf line said.now draft.old ≡ Err cause) }
{
    if draft.file.ospf.is_some() {
        return Err(Cause::Repeated);
    }
    let process = number_said(Tag::Number, said, 0);
    draft.file.ospf = Some(ospf_process(alloc, line, process));
    draft.block = Block::Ospf;
    Ok(())
}

/// Opens the block of the BGP process, of which there is one.
fn put_bgp(alloc: Global, line: u32, said: &[Said], draft: &mut Draft) -> Result<(), Cause>
    ensures ok { IfOk result (λ _. with_bgp line said.now draft.old ≡ Ok draft.new) }
    ensures refused { IfErr result (λ cause. with_bgp line said.now draft.old ≡ Err cause) }
{
    if draft.file.bgp.is_some() {
        return Err(Cause::Repeated);
    }
    let asn = number_said(Tag::Number, said, 0);
    draft.file.bgp = Some(bgp_process(alloc, line, asn));
    draft.block = Block::Bgp;
    Ok(())
}

/// Opens a banner that does not end on its line. One that never ends is refused at its text.
fn put_banner(line: &Line, rest: &[Line], draft: &mut Draft) -> Result<(), Cause>
    ensures ok { IfOk result (λ _. with_banner line.now rest.now draft.old ≡ Ok draft.new) }
    ensures refused { IfErr result (λ cause. with_banner line.now rest.now draft.old ≡ Err cause) }
{
    let raw = line.raw.as_slice();
    if ends_on_its_line(raw) {
        return Ok(());
    }
    let delimiter = delimiter_of_line(raw);
    if !is_ended_in(delimiter, rest) {
        return Err(Cause::BadWord { word: 3 });
    }
    draft.banner = Some(delimiter);
    Ok(())
}

/// Puts a top line of a router.
pub fn put_top(
    alloc: Global,
    row: Row,
    line: &Line,
    rest: &[Line],
    said: &[Said],
    draft: &mut Draft,
) -> Result<(), Cause>
    ensures ok { IfOk result (λ _. top_row row line.now rest.now said.now draft.old ≡ Ok draft.new) }
    ensures refused { IfErr result (λ cause. cause ≢ Cause.Memory → top_row row line.now rest.now said.now draft.old ≡ Err cause) }
{
    match row {
        Row::Hostname => put_hostname(alloc, line, said, draft),
        Row::InterfaceBlock => put_interface(alloc, line, said, draft),
        Row::StaticRoute => put_route(alloc, line, said, draft),
        Row::OspfBlock => put_ospf(alloc, line.number, said, draft),
        Row::BgpBlock => put_bgp(alloc, line.number, said, draft),
        Row::Banner => put_banner(line, rest, draft),
        Row::IgnoredBlock => {
            draft.block = Block::Ignored;
            Ok(())
        }
        _ => Ok(()),
    }
}
