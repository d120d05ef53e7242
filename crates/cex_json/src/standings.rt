//! A walk, as it is read.

ghost use Rattle.std.specs.Prelude.{◌≡◌, ◌≢◌, ◌∷◌, ◌++◌, [], Some, None, Ok, Err, codes, option_and_then, option_map, position};
ghost use Rattle.mw_text.specs.Text.{same_text};
ghost use Rattle.serde_json.specs.View.{view, items_view};
ghost use Rattle.serde_json.specs.Find.{get};
ghost use Rattle.cex_json.specs.Entries.{entry_path};
ghost use Rattle.cex_json.specs.Fields as fields;
ghost use Rattle.cex_json.specs.Fields.{Reads, in_order};
ghost use Rattle.cex_json.specs.Standings as standings;
ghost use Rattle.mw_text.specs.Digits.{addr_of, cut_at};
ghost use Rattle.question_lang.specs.Asking as asking;

use crate::entries::router_in;
use crate::fields::{bad_field, members_in, place_of, required, text_in, text_of};
use crate::refused::CexRefused;
use crate::slots::check_object;
use ios_ast::{File, Iface};
use mw_text::digits::cut;
use mw_text::{List, read_addr, same_bytes};
use net_model::{IfaceId, Net};
use question_lang::{End, Kind, Start, Walk};
use serde_json::Value;
use std::alloc::Global;

fn position_of(interfaces: &[Iface], name: &[u8]) -> Option<usize>
    ensures { result ≡ position (λ iface. same_text iface.name name.now) interfaces.now }
{
    interfaces
        .iter()
        .position(|iface| same_bytes(iface.name.as_slice(), name))
}

#[tactic(auto, unfolding(crate::specs::Standings::iface_at, crate::specs::Fields::place_of))]
fn iface_at(file: &File, name: &[u8]) -> Option<u32>
    ensures { result ≡ standings.iface_at file.now name.now }
{
    match position_of(file.interfaces.as_slice(), name) {
        None => None,
        Some(at) => place_of(at),
    }
}

#[tactic(auto, unfolding(crate::specs::Standings::iface_named))]
fn iface_named(net: &Net, router: u32, name: &[u8]) -> Option<u32>
    ensures { result ≡ standings.iface_named net.now.files router name.now }
{
    match net.routers().get(router as usize) {
        None => None,
        Some(file) => iface_at(file, name),
    }
}

fn iface_or_any(net: &Net, router: Option<u32>, name: &[u8]) -> Option<u32>
    ensures { result ≡ standings.iface_or_any net.now.files router name.now }
{
    match router {
        None => Some(0),
        Some(router) => iface_named(net, router, name),
    }
}

fn denied_at(net: &Net, router: Option<u32>, name: &[u8]) -> Option<End>
    ensures { result ≡ standings.denied_at net.now.files router name.now }
{
    match router {
        None => None,
        Some(router) => match iface_named(net, router, name) {
            None => None,
            Some(at) => Some(End::DeniedIn(IfaceId { router, at })),
        },
    }
}

fn router_named(net: &Net, name: &[u8]) -> Option<u32>
    ensures { result ≡ asking.router_named net.now.files name.now }
{
    net.router_named(name)
}

fn denied_with(net: &Net, rest: &[u8]) -> Option<End>
    ensures { result ≡ option_and_then (λ cut. standings.denied_at net.now.files (asking.router_named net.now.files cut.0) cut.1) (cut_at 32 rest.now) }
{
    match cut(rest, b' ') {
        None => None,
        Some((router, name)) => denied_at(net, router_named(net, router), name),
    }
}

fn left_with(rest: &[u8]) -> Option<End>
    ensures { result ≡ option_map (λ a. End.Left a) (addr_of rest.now) }
{
    match read_addr(rest) {
        None => None,
        Some(a) => Some(End::Left(a)),
    }
}

fn end_with(net: &Net, word: &[u8], rest: &[u8]) -> Option<End>
    ensures { result ≡ standings.end_with net.now.files word.now rest.now }
{
    if same_bytes(word, b"left") {
        return left_with(rest);
    }
    if same_bytes(word, b"deniedin") {
        return denied_with(net, rest);
    }
    None
}

fn end_alone(word: &[u8]) -> Option<End>
    ensures { result ≡ standings.end_alone word.now }
{
    if same_bytes(word, b"delivered") {
        return Some(End::Delivered);
    }
    if same_bytes(word, b"noroute") {
        return Some(End::NoRoute);
    }
    if same_bytes(word, b"discarded") {
        return Some(End::Discarded);
    }
    if same_bytes(word, b"deniedout") {
        return Some(End::DeniedOut);
    }
    if same_bytes(word, b"loop") {
        return Some(End::Loop);
    }
    if same_bytes(word, b"open") {
        return Some(End::Open);
    }
    None
}

#[tactic(auto, unfolding(crate::specs::Standings::end_said))]
fn end_said(net: &Net, word: &[u8]) -> Option<End>
    ensures { result ≡ standings.end_said net.now.files word.now }
{
    match cut(word, b' ') {
        None => end_alone(word),
        Some((first, rest)) => end_with(net, first, rest),
    }
}

fn end_in(net: &Net, part: &Value) -> Option<End>
    ensures { result ≡ option_and_then (standings.end_said net.now.files) (fields.text_in (get (codes "end") (view part.now))) }
{
    match text_in(part, "end") {
        None => None,
        Some(word) => end_said(net, word),
    }
}

fn iface_of(net: &Net, router: Option<u32>, value: &Value) -> Option<u32>
    ensures { result ≡ standings.iface_in net.now.files router (Some (view value.now)) }
{
    match text_of(value) {
        None => None,
        Some(name) => iface_or_any(net, router, name),
    }
}

fn iface_or_absent(net: &Net, router: Option<u32>, hop: &Value) -> Option<Option<u32>>
    ensures { result ≡ fields.absent_or (standings.iface_in net.now.files router) (get (codes "in") (view hop.now)) }
{
    match hop.get("in") {
        None => Some(None),
        Some(value) => match iface_of(net, router, value) {
            None => None,
            Some(at) => Some(Some(at)),
        },
    }
}

#[tactic(auto, unfolding(crate::specs::Standings::hop_at))]
fn hop_at(alloc: Global, net: &Net, at: &str, hop: &Value) -> Result<Start, CexRefused>
    ensures { Reads result (standings.hop_at net.now.files at.now (view hop.now)) }
{
    let known = router_in(net, hop);
    let iface = required(alloc, at, "in", iface_or_absent(net, known, hop))?;
    let router = required(alloc, at, "router", known)?;
    Ok(Start { router, iface })
}

fn take_hop(
    alloc: Global,
    net: &Net,
    place: usize,
    mut so_far: List<Start>,
    hop: &Value,
) -> Result<List<Start>, CexRefused>
    ensures { Reads result (standings.hop_step net.now.files place so_far (view hop.now)) }
{
    let name = format!(in alloc; "{place}")?;
    check_object(alloc, "walk/hops/", name.as_str(), hop)?;
    let at = format!(in alloc; "walk/hops/{place}/")?;
    let stood = hop_at(alloc, net, at.as_str(), hop)?;
    so_far.items.push(stood)?;
    Ok(so_far)
}

fn take_hops(alloc: Global, net: &Net, members: &[Value]) -> Result<List<Start>, CexRefused>
    ensures { Reads result (in_order (standings.hop_step net.now.files) 0 [] (items_view members.now)) }
{
    let mut hops = List::new(alloc);
    for (place, hop) in members.iter().enumerate() {
        hops = take_hop(alloc, net, place, hops, hop)?;
    }
    Ok(hops)
}

#[tactic(auto, unfolding(crate::specs::Standings::walk_at))]
fn walk_at(alloc: Global, net: &Net, at: &str, part: &Value) -> Result<Walk, CexRefused>
    ensures { Reads result (standings.walk_at net.now.files at.now (view part.now)) }
{
    let end = required(alloc, at, "end", end_in(net, part))?;
    let members = members_in(alloc, at, "hops", part)?;
    let hops = take_hops(alloc, net, members)?;
    Ok(Walk { hops, end })
}

fn some_walk(alloc: Global, net: &Net, text: &Value) -> Result<Option<Walk>, CexRefused>
    ensures { Reads result (standings.some_walk net.now.files (view text.now)) }
{
    match text.get("walk") {
        None => Err(bad_field(alloc, "", "walk")),
        Some(part) => {
            check_object(alloc, "", "walk", part)?;
            Ok(Some(walk_at(alloc, net, "walk/", part)?))
        }
    }
}

fn asks_walk(kind: &Kind) -> bool
    ensures { result ≡ standings.asks_walk kind.now }
{
    !matches!(kind, Kind::NoStable)
}

/// The walk, where the question asks for one.
pub fn walk_in(
    alloc: Global,
    net: &Net,
    kind: &Kind,
    text: &Value,
) -> Result<Option<Walk>, CexRefused>
    ensures { Reads result (standings.walk_in net.now.files kind.now (view text.now)) }
{
    if asks_walk(kind) {
        some_walk(alloc, net, text)
    } else {
        Ok(None)
    }
}
