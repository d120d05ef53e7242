//! At which routers walks to the target of a question end, as a term.

ghost use Rattle.std.specs.Prelude.{◌≡◌, ℕ, ◌+◌, ◌<◌, ◌≤◌, ◌==◌, ◌&&◌, Bool, IfOk};
ghost use Rattle.mw_text.specs.Address.{covers, same_prefix};
ghost use Rattle.net_interfaces.specs.Interfaces.{addressed};
ghost use Rattle.net_parts.specs.Routing.{is_direct, up_interfaces};
ghost use Rattle.net_parts.specs.World.{is_up};
ghost use Rattle.sym_policy.specs.Held.{failures_of};
ghost use Rattle.sym_policy.specs.Records.{packet_end};
ghost use Rattle.sym_forwarding.specs.Here as targets;
ghost use Rattle.sym_policy.specs.Packets.{packet_of};
ghost use Rattle.term_store.specs.Terms.{Reading, size, at};
ghost use Rattle.term_store.specs.Reading.{Reads, Builds, Gives};
ghost use Rattle.term_arith.specs.Bits.{ids_end};

use crate::prefixes::sym_covers;
use mw_text::Prefix;
use net_model::{Addressed, Net};
use question_lang::{Kind, Target};
use std::alloc::{AllocError, Global};
use sym_ospf::sym_up;
use sym_policy::{SymNet, SymPacket};
use term_arith::gates::{both, constant_node, either};
use term_store::{NodeId, Terms};

// Whether the interface is one of the router, up, and on that subnet.
fn sym_on(
    alloc: Global,
    terms: &mut Terms,
    net: &Net,
    sym: &SymNet,
    router: u32,
    p: &Prefix,
    x: &Addressed,
) -> Result<NodeId, AllocError>
    requires downs { ids_end sym.now.down ≤ size terms.old }
    ensures builds { Builds terms.old terms.new }
    ensures within { IfOk result (λ r. r.0 < size terms.new) }
    ensures value { Gives terms.new result (λ w r. at w r ≡
        (((x.now.id.router == router) && is_up net.now.files (failures_of w sym.now) x.now) && same_prefix x.now.subnet
        p.now)) }
{
    if x.id.router == router && x.subnet == *p {
        sym_up(alloc, terms, net, sym, x)
    } else {
        constant_node(terms, false)
    }
}

// Whether an interface of the router that is up is on that subnet.
fn sym_direct(
    alloc: Global,
    terms: &mut Terms,
    net: &Net,
    sym: &SymNet,
    router: u32,
    p: &Prefix,
) -> Result<NodeId, AllocError>
    requires downs { ids_end sym.now.down ≤ size terms.old }
    ensures builds { Builds terms.old terms.new }
    ensures within { IfOk result (λ r. r.0 < size terms.new) }
    ensures value { Gives terms.new result (λ w r. at w r ≡ is_direct (up_interfaces net.now.files (failures_of w sym.now)
        router) p.now) }
{
    let mut any = constant_node(terms, false)?;
    for x in net.addresses() {
        let on = sym_on(alloc, terms, net, sym, router, p, x)?;
        any = either(terms, any, on)?;
    }
    Ok(any)
}

// Whether walks to the target end at that router.
fn sym_target(
    alloc: Global,
    terms: &mut Terms,
    net: &Net,
    sym: &SymNet,
    packet: &SymPacket,
    router: u32,
    target: Target,
) -> Result<NodeId, AllocError>
    requires downs { ids_end sym.now.down ≤ size terms.old }
    requires packet { packet_end packet.now ≤ size terms.old }
    ensures builds { Builds terms.old terms.new }
    ensures within { IfOk result (λ r. r.0 < size terms.new) }
    ensures value { Gives terms.new result (λ w r. at w r ≡
        targets.is_target_router net.now.files (failures_of w sym.now) (packet_of w packet.now) router target) }
{
    match target {
        Target::Router(r) => constant_node(terms, router == r),
        Target::Subnet(p) => {
            let direct = sym_direct(alloc, terms, net, sym, router, &p)?;
            let covered = sym_covers(terms, &p, &packet.dst)?;
            both(terms, direct, covered)
        }
        Target::Peer { router: r, .. } => constant_node(terms, router == r),
    }
}

/// Whether walks to the target of the question end at that router. Where it has no target, false.
pub fn sym_here(
    alloc: Global,
    terms: &mut Terms,
    net: &Net,
    sym: &SymNet,
    packet: &SymPacket,
    router: u32,
    kind: Kind,
) -> Result<NodeId, AllocError>
    requires downs { ids_end sym.now.down ≤ size terms.old }
    requires packet { packet_end packet.now ≤ size terms.old }
    ensures builds { Builds terms.old terms.new }
    ensures within { IfOk result (λ r. r.0 < size terms.new) }
    ensures value { Gives terms.new result (λ w r. at w r ≡
        targets.ends_here net.now.files (failures_of w sym.now) (packet_of w packet.now) router kind) }
{
    match kind {
        Kind::Reach(_, target) => sym_target(alloc, terms, net, sym, packet, router, target),
        Kind::Isolate(_, target) => sym_target(alloc, terms, net, sym, packet, router, target),
        Kind::Waypoint(_, target, _) => sym_target(alloc, terms, net, sym, packet, router, target),
        Kind::Alike(_, _, target) => sym_target(alloc, terms, net, sym, packet, router, target),
        Kind::NoLoop(_) => constant_node(terms, false),
        Kind::NoBlackHole(_) => constant_node(terms, false),
        Kind::Within(_, _) => constant_node(terms, false),
        Kind::NoStable => constant_node(terms, false),
    }
}
