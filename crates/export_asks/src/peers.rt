//! The external peers that the words of an ask name.

ghost use Rattle.std.specs.Prelude.{◌≡◌, IfOk};
ghost use Rattle.std.specs.List.{list_any};
ghost use Rattle.question_lang.specs.Naming as naming;
ghost use Rattle.export_asks.specs.Asking as asking;

use crate::ask::AskPeer;
use crate::forms::Form;
use ios_policy_reader::said::address_said_under;
use ios_policy_reader::{Said, Tag};
use mw_text::{Addr, List};
use net_model::{Addressed, Net, Peering};
use net_parts::sessions::{is_external_peer, peerings};
use question_lang::named::router_said;
use std::alloc::{AllocError, Global};

fn peer_said(
    router: Tag,
    address: Tag,
    net: &Net,
    words: &[List<u8>],
    said: &[Said],
) -> Option<AskPeer>
    ensures { result ≡ asking.peer_under router address net.now.files words.now said.now }
{
    let router = router_said(router, net, words, said)?;
    Some(AskPeer {
        router,
        addr: address_said_under(address, said, Addr(0)),
    })
}

/// The peer to which the routes go. None where there is no such router.
pub fn to_said(net: &Net, words: &[List<u8>], said: &[Said]) -> Option<AskPeer>
    ensures { result ≡ asking.to_under net.now.files words.now said.now }
{
    peer_said(Tag::Router, Tag::Peer, net, words, said)
}

/// The peer from which they were learnt. None where there is no such router.
pub fn from_said(net: &Net, words: &[List<u8>], said: &[Said]) -> Option<AskPeer>
    ensures { result ≡ asking.from_under net.now.files words.now said.now }
{
    peer_said(Tag::Start, Tag::Address, net, words, said)
}

fn is_peer_line(addresses: &[Addressed], router: u32, address: Addr, line: &Peering) -> bool
    ensures { result ≡ naming.is_peer_line addresses.now router address line.now }
{
    line.router == router && line.neighbour == address && is_external_peer(addresses, line)
}

fn some_peer(addresses: &[Addressed], lines: &[Peering], peer: &AskPeer) -> bool
    ensures { result ≡ list_any (naming.is_peer_line addresses.now peer.now.router peer.now.addr) lines.now }
{
    lines.iter().any(|line| is_peer_line(addresses, peer.router, peer.addr, line))
}

#[tactic(auto, unfolding(question_lang::specs::Naming::is_peer))]
fn is_peer(alloc: Global, net: &Net, peer: &AskPeer) -> Result<bool, AllocError>
    ensures { IfOk result (λ is. is ≡ naming.is_peer net.now.files peer.now.router peer.now.addr) }
{
    let lines = peerings(alloc, net.routers(), net.addresses())?;
    Ok(some_peer(net.addresses(), lines.as_slice(), peer))
}

fn is_known(alloc: Global, net: &Net, peer: Option<AskPeer>) -> Result<bool, AllocError>
    ensures { IfOk result (λ is. is ≡ asking.is_known net.now.files peer) }
{
    match peer {
        None => Ok(true),
        Some(peer) => is_peer(alloc, net, &peer),
    }
}

/// Whether each peer of an ask of the kind is an external one of its router, shut down or not.
#[tactic(auto, unfolding(crate::specs::Asking::are_peers_known))]
pub fn are_peers_known(
    alloc: Global,
    net: &Net,
    form: Form,
    words: &[List<u8>],
    said: &[Said],
) -> Result<bool, AllocError>
    ensures { IfOk result (λ are. are ≡ asking.are_peers_known net.now.files form words.now said.now) }
{
    let to = is_known(alloc, net, to_said(net, words, said))?;
    match form {
        Form::NoExport => Ok(to),
        Form::NoLeak => {
            let from = is_known(alloc, net, from_said(net, words, said))?;
            Ok(from && to)
        }
    }
}

/// The peer from which a route of the ask was learnt: any, or the one that is named. None where its router is not there.
#[tactic(auto, unfolding(crate::specs::Asking::learnt_of))]
pub fn learnt_said(
    net: &Net,
    form: Form,
    words: &[List<u8>],
    said: &[Said],
) -> Option<Option<AskPeer>>
    ensures { result ≡ asking.learnt_of net.now.files form words.now said.now }
{
    match form {
        Form::NoExport => Some(None),
        Form::NoLeak => {
            let peer = from_said(net, words, said)?;
            Some(Some(peer))
        }
    }
}
