//! The ends, adjacencies and links that a line names.

ghost use Rattle.std.specs.Prelude.{◌≡◌, ◌<◌, IfSome, length, position};
ghost use Rattle.event_lines.specs.Orders as orders;
ghost use Rattle.net_parts.specs.Exports as exports;
ghost use Rattle.net_parts.specs.Ospf as ospf;
ghost use Rattle.net_parts.specs.Sessions.{ends_of};

use async_machine::is_outside_at;
use ios_ast::File;
use ios_policy_reader::said::{address_said_under, last_prefix};
use ios_policy_reader::{Said, Tag};
use mw_text::{Addr, List};
use net_model::{Adjacency, IfaceId, Net, SessionEnd};
use net_parts::ends::is_towards;
use question_lang::named::router_said;

fn place_towards(files: &[File], ends: &[SessionEnd], router: u32, a: Addr) -> Option<usize>
    ensures value { result ≡ position (exports.is_towards files.now router a) ends.now }
    ensures within { IfSome result (λ at. at < length ends.now) }
{
    ends.iter()
        .position(|end| is_towards(files, router, a, end))
}

// The session end of the router whose neighbour has that address.
#[tactic(auto, using(route_candidates::proofs::FewEnds::few_ends))]
fn end_named(net: &Net, router: u32, a: Addr) -> Option<u32>
    ensures { result ≡ orders.end_named net.now.files router a }
{
    match place_towards(net.routers(), net.ends(), router, a) {
        None => None,
        Some(at) => Some(at as u32),
    }
}

/// The end that a line names. None where there is none.
pub fn end_said(net: &Net, words: &[List<u8>], said: &[Said]) -> Option<u32>
    ensures { result ≡ orders.end_said net.now.files words.now said.now }
{
    let router = router_said(Tag::Router, net, words, said)?;
    end_named(net, router, address_said_under(Tag::Peer, said, Addr(0)))
}

/// The end towards an external peer that a line names. None where there is none.
pub fn peer_said(net: &Net, words: &[List<u8>], said: &[Said]) -> Option<u32>
    ensures { result ≡ orders.peer_said net.now.files words.now said.now }
{
    let at = end_said(net, words, said)?;
    if is_outside_at(net, at) {
        Some(at)
    } else {
        None
    }
}

fn is_between(router: u32, i: IfaceId, a: &Adjacency) -> bool
    ensures { result ≡ orders.is_between router i a.now }
{
    a.from.router == router && a.to.router == i.router && a.to.at == i.at
}

fn place_between(adjacencies: &[Adjacency], router: u32, i: IfaceId) -> Option<usize>
    ensures value { result ≡ position (orders.is_between router i) adjacencies.now }
    ensures within { IfSome result (λ at. at < length adjacencies.now) }
{
    adjacencies.iter().position(|a| is_between(router, i, a))
}

// The adjacency of the router to the interface that has that address.
#[tactic(auto, using(async_machine::proofs::FewAdjacencies::few_adjacencies))]
fn adjacency_named(net: &Net, router: u32, a: Addr) -> Option<u32>
    ensures { result ≡ orders.adjacency_named net.now.files router a }
{
    let _routers = net.routers();
    let i = net.owner(a)?;
    match place_between(net.adjacencies(), router, i) {
        None => None,
        Some(at) => Some(at as u32),
    }
}

/// The adjacency that a line names. None where there is none.
pub fn adjacency_said(net: &Net, words: &[List<u8>], said: &[Said]) -> Option<u32>
    ensures { result ≡ orders.adjacency_said net.now.files words.now said.now }
{
    let router = router_said(Tag::Router, net, words, said)?;
    adjacency_named(net, router, address_said_under(Tag::Peer, said, Addr(0)))
}

/// The link that a line names. None where there is none.
pub fn link_said(net: &Net, said: &[Said]) -> Option<u32>
    ensures { result ≡ orders.link_said net.now.files said.now }
{
    net.link_at(&last_prefix(said))
}
