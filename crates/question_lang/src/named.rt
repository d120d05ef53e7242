//! The routers, interfaces and external peers that the words of a question name.

ghost use Rattle.std.specs.Prelude.{◌≡◌, ◌<◌, ◌≤◌, IfOk, IfSome, length, option_map, position, true};
ghost use Rattle.std.specs.List.{list_any};
ghost use Rattle.mw_text.specs.Text.{same_text};
ghost use Rattle.ios_policy_reader.specs.Said.{has_said};
ghost use Rattle.ios_policy_reader.specs.declared.said.Tag.TheVariants.{Router as RouterTag, Peer as PeerTag};
ghost use Rattle.question_lang.specs.Naming as naming;
ghost use Rattle.question_lang.specs.Known as known;
ghost use Rattle.question_lang.specs.declared.question.Target.TheVariants.{Peer};

use crate::packets::{addresses_in, value_said};
use crate::question::{Start, Target};
use ios_ast::{Iface, MOST_INTERFACES};
use ios_policy_reader::said::{address_said_under, is_said};
use ios_policy_reader::values::word_at;
use ios_policy_reader::{Said, Tag, Value};
use mw_text::{Addr, List, same_bytes};
use net_model::{Addressed, Net, Peering};
use net_parts::sessions::{is_external_peer, peerings};
use std::alloc::{AllocError, Global};

fn word_in(words: &[List<u8>], value: Value) -> &[u8]
    ensures { result.now ≡ naming.word_in words.now value }
{
    match value {
        Value::Word(at) => word_at(words, at),
        _ => &[],
    }
}

/// The word that was said last under a tag. No bytes where there is none.
pub fn word_said<'w>(tag: Tag, words: &'w [List<u8>], said: &[Said]) -> &'w [u8]
    ensures { result.now ≡ naming.word_under tag words.now said.now }
{
    word_in(words, value_said(tag, said))
}

/// The router that was said last under a tag. None where none has that name.
pub fn router_said(tag: Tag, net: &Net, words: &[List<u8>], said: &[Said]) -> Option<u32>
    ensures value { result ≡ naming.router_under tag net.now.files words.now said.now }
    ensures within { IfSome result (λ router. router < length net.now.files) }
{
    net.router_named(word_said(tag, words, said))
}

fn names_router(tag: Tag) -> bool
    ensures { result ≡ naming.names_router tag }
{
    matches!(
        tag,
        Tag::Start | Tag::Router | Tag::Waypoint | Tag::OtherStart
    )
}

fn is_known(net: &Net, words: &[List<u8>], one: Said) -> bool
    ensures { result ≡ naming.is_known net.now.files words.now one }
{
    !names_router(one.tag) || net.router_named(word_in(words, one.value)).is_some()
}

/// Whether each word that names a router names one of the network.
pub fn are_routers_known(net: &Net, words: &[List<u8>], said: &[Said]) -> bool
    ensures { result ≡ naming.are_routers_known net.now.files words.now said.now }
{
    said.iter().all(|one| is_known(net, words, *one))
}

fn place_named(interfaces: &[Iface], name: &[u8]) -> Option<usize>
    ensures place { result ≡ position (λ iface. same_text iface.name name.now) interfaces.now }
    ensures within { IfSome result (λ at. at < length interfaces.now) }
{
    interfaces
        .iter()
        .position(|iface| same_bytes(iface.name.as_slice(), name))
}

#[tactic(auto, using(crate::proofs::Places::few_interfaces))]
fn interfaces_at(net: &Net, router: u32) -> &[Iface]
    ensures all { result.now ≡ naming.interfaces_at net.entry.now.files router }
    ensures few { length result.now ≤ MOST_INTERFACES }
{
    match net.routers().get(router as usize) {
        None => &[],
        Some(file) => file.interfaces.as_slice(),
    }
}

fn iface_named(net: &Net, router: u32, name: &[u8]) -> Option<u32>
    ensures place { result ≡ naming.iface_named net.now.files router name.now }
    ensures within { IfSome result (λ at. at < length (naming.interfaces_at net.now.files router)) }
{
    match place_named(interfaces_at(net, router), name) {
        None => None,
        Some(at) => Some(at as u32),
    }
}

fn start_at(net: &Net, words: &[List<u8>], said: &[Said], router: u32) -> Option<Start>
    requires within { router < length net.now.files }
    ensures value { result ≡ naming.start_at net.now.files words.now said.now router }
    ensures known { IfSome result (known.IsStart net.now.files) }
{
    if !is_said(Tag::Entering, said) {
        return Some(Start {
            router,
            iface: None,
        });
    }
    let at = iface_named(net, router, word_said(Tag::Entering, words, said))?;
    Some(Start {
        router,
        iface: Some(at),
    })
}

/// Where the packets start. None where there is no such router, or the router has no such interface.
#[tactic(auto, unfolding(crate::specs::Naming::start_of))]
pub fn start_said(net: &Net, words: &[List<u8>], said: &[Said]) -> Option<Start>
    ensures value { result ≡ naming.start_of net.now.files words.now said.now }
    ensures known { IfSome result (known.IsStart net.now.files) }
{
    let router = router_said(Tag::Start, net, words, said)?;
    start_at(net, words, said, router)
}

fn is_peer_line(addresses: &[Addressed], router: u32, address: Addr, line: &Peering) -> bool
    ensures { result ≡ naming.is_peer_line addresses.now router address line.now }
{
    line.router == router && line.neighbour == address && is_external_peer(addresses, line)
}

fn some_peer(addresses: &[Addressed], lines: &[Peering], router: u32, address: Addr) -> bool
    ensures { result ≡ list_any (naming.is_peer_line addresses.now router address) lines.now }
{
    lines
        .iter()
        .any(|line| is_peer_line(addresses, router, address, line))
}

/// Whether an external peer of the router has the address.
#[tactic(auto, unfolding(crate::specs::Naming::is_peer))]
fn is_peer(alloc: Global, net: &Net, router: u32, address: Addr) -> Result<bool, AllocError>
    ensures { IfOk result (λ is. is ≡ naming.is_peer net.now.files router address) }
{
    let lines = peerings(alloc, net.routers(), net.addresses())?;
    Ok(some_peer(net.addresses(), lines.as_slice(), router, address))
}

fn peer_address(said: &[Said]) -> Addr
    ensures { result ≡ naming.peer_address said.now }
{
    address_said_under(Tag::Peer, said, Addr(0))
}

/// Whether a target that is a peer is an external peer of its router.
pub fn is_peer_known(
    alloc: Global,
    net: &Net,
    words: &[List<u8>],
    said: &[Said],
) -> Result<bool, AllocError>
    ensures { IfOk result (λ is. is ≡ naming.is_peer_known net.now.files words.now said.now) }
{
    if !is_said(Tag::Peer, said) {
        return Ok(true);
    }
    match router_said(Tag::Router, net, words, said) {
        None => Ok(false),
        Some(router) => is_peer(alloc, net, router, peer_address(said)),
    }
}

fn peer_said(net: &Net, words: &[List<u8>], said: &[Said]) -> Option<Target>
    requires said { has_said PeerTag said.now ≡ true }
    ensures value { result ≡ option_map (λ router. Peer router (naming.peer_address said.now)) (naming.router_under RouterTag net.now.files words.now said.now) }
    ensures known { naming.is_peer_known net.now.files words.now said.now ≡ true → IfSome result (known.IsTarget net.now.files) }
{
    let router = router_said(Tag::Router, net, words, said)?;
    Some(Target::Peer {
        router,
        addr: peer_address(said),
    })
}

/// Where the packets should end. None where there is no such router.
#[tactic(auto, unfolding(crate::specs::Naming::target_of))]
pub fn target_said(net: &Net, words: &[List<u8>], said: &[Said]) -> Option<Target>
    ensures value { result ≡ naming.target_of net.now.files words.now said.now }
    ensures known { naming.is_peer_known net.now.files words.now said.now ≡ true → IfSome result (known.IsTarget net.now.files) }
{
    if is_said(Tag::Peer, said) {
        return peer_said(net, words, said);
    }
    if is_said(Tag::Subnet, said) {
        return Some(Target::Subnet(addresses_in(value_said(Tag::Subnet, said))));
    }
    let router = router_said(Tag::Router, net, words, said)?;
    Some(Target::Router(router))
}
