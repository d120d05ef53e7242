//! Where the routes of a routing come from.

ghost use Rattle.std.specs.Prelude.{◌≡◌, ℕ, Option as OptionOf, Some, option_and_then};
ghost use Rattle.std.specs.Option.{option_copied};
ghost use Rattle.export_asks.specs.declared.ask.AskPeer.{AskPeer as PeerOf};
ghost use Rattle.export_asks.specs.Exported as exports;
ghost use Rattle.export_asks.specs.Steps as steps;

use crate::ask::AskPeer;
use mw_text::Addr;
use net_model::{Far, Net, SessionEnd};
use route_record::{BgpRec, Learnt, Tables};

/// The BGP route that a router holds for a prefix length.
pub fn held_at(tables: &Tables, router: u32, len: u8) -> Option<&BgpRec>
    ensures { option_copied result ≡ exports.held_at tables.entry.now router len }
{
    match tables.slot(router, len) {
        None => None,
        Some(slot) => slot.bgp.as_ref(),
    }
}

/// What a step of a trace leads to.
#[derive(Clone, Copy)]
pub enum Next {
    /// The trace ends, at this peer or at none.
    Ends(Option<AskPeer>),
    /// It goes on with the route of this router.
    Goes(u32),
}

fn beyond(net: &Net, router: u32, address: Addr, end: &SessionEnd) -> Next
    ensures { (next : ℕ → OptionOf PeerOf) → steps.after next result ≡ exports.beyond net.now.files next router address end.now.far }
{
    match end.far {
        Far::Outside => Next::Ends(Some(AskPeer {
            router,
            addr: address,
        })),
        Far::Inside(at) => match net.ends().get(at as usize) {
            None => Next::Ends(None),
            Some(far) => Next::Goes(far.router),
        },
    }
}

fn source_of(net: &Net, router: u32, from: Learnt) -> Next
    ensures { (next : ℕ → OptionOf PeerOf) → steps.after next result ≡ exports.source_of net.now.files next router from }
{
    match from {
        Learnt::Local => Next::Ends(None),
        Learnt::Peer(address) => match net.learnt_over(router, from) {
            None => Next::Ends(None),
            Some(end) => beyond(net, router, address, &end),
        },
    }
}

fn step(net: &Net, tables: &Tables, len: u8, router: u32) -> Next
    ensures { (next : ℕ → OptionOf PeerOf) → steps.after next result
        ≡ option_and_then (λ held. exports.source_of net.now.files next router held.from) (exports.held_at tables.now router len) }
{
    match held_at(tables, router, len) {
        None => Next::Ends(None),
        Some(held) => source_of(net, router, held.from),
    }
}

/// The external peer at which the trace of a router's route for a prefix length ends. None where the router holds no such
/// route, or one that came from no external peer.
#[tactic(auto, using(crate::proofs::Traces::trace_end))]
pub fn trace(net: &Net, tables: &Tables, len: u8, router: u32) -> Option<AskPeer>
    ensures { result ≡ exports.trace net.now.files tables.now len router }
{
    let mut at = router;
    for _seen in 0..net.routers().len() {
        match step(net, tables, len, at) {
            Next::Ends(peer) => return peer,
            Next::Goes(next) => at = next,
        }
    }
    None
}

fn is_same_peer(a: &AskPeer, b: &AskPeer) -> bool
    ensures { result ≡ exports.same_peer a.now b.now }
{
    a.router == b.router && a.addr.0 == b.addr.0
}

fn comes_from(net: &Net, tables: &Tables, len: u8, router: u32, peer: &AskPeer) -> bool
    ensures { result ≡ exports.is_learnt net.now.files tables.now len router (Some peer.now) }
{
    match trace(net, tables, len, router) {
        None => false,
        Some(source) => is_same_peer(peer, &source),
    }
}

/// Whether the route of a router for a prefix length comes from that peer. It does where no peer is named.
pub fn is_learnt(net: &Net, tables: &Tables, len: u8, router: u32, learnt: &Option<AskPeer>) -> bool
    ensures { result ≡ exports.is_learnt net.now.files tables.now len router learnt.now }
{
    match learnt {
        None => true,
        Some(peer) => comes_from(net, tables, len, router, peer),
    }
}
