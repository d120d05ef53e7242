//! Whether the packet of a routing is in its set, and no more links fail than may, as a term.

ghost use Rattle.std.specs.Prelude.{◌≡◌, ℕ, ◌≤◌, ◌<◌, ◌==◌, ◌&&◌, ◌||◌, not, nat_le, IfOk, length};
ghost use Rattle.sym_policy.specs.Held.{failures_of};
ghost use Rattle.sym_policy.specs.Records.{packet_end};
ghost use Rattle.sym_policy.specs.Packets.{packet_of};
ghost use Rattle.world_variables.specs.Packets.{is_in_set, is_portless, packet_from};
ghost use Rattle.routing_worlds.specs.Worlds.{failures_read_from};
ghost use Rattle.routing_encoder.specs.Opened.{ReadsAs, StandsIn};
ghost use Rattle.term_store.specs.Terms.{at, size};
ghost use Rattle.term_store.specs.Reading.{Builds, Gives};
ghost use Rattle.term_arith.specs.Bits.{number, ids_end};

use crate::opening::OpenRouting;
use net_model::Net;
use question_lang::{PacketSet, Question};
use route_record::Plan;
use std::alloc::{AllocError, Global};
use sym_policy::{SymNet, SymPacket};
use term_arith::gates::{both, either, negate};
use term_arith::{Bits, at_most, constant, equal_number, less};
use term_store::{NodeId, Terms};

// Whether a port is in its range.
#[tactic(auto, using(crate::proofs::AskedSteps::at_least, crate::proofs::AskedSteps::at_greatest))]
fn sym_in_range(
    alloc: Global,
    terms: &mut Terms,
    range: (u16, u16),
    port: &Bits,
) -> Result<NodeId, AllocError>
    requires wide { length port.now.nodes.items ≡ 16 }
    requires nodes { ids_end port.now.nodes.items ≤ size terms.old }
    ensures builds { Builds terms.old terms.new }
    ensures within { IfOk result (λ r. r.0 < size terms.new) }
    ensures value { Gives terms.new result (λ w r. at w r
        ≡ (nat_le range.0 (number w port.now.nodes.items) && nat_le (number w port.now.nodes.items) range.1)) }
{
    let first = constant(alloc, terms, u64::from(range.0), 16)?;
    let last = constant(alloc, terms, u64::from(range.1), 16)?;
    let below = less(terms, port, &first)?;
    let above = less(terms, &last, port)?;
    let least = negate(terms, below)?;
    let most = negate(terms, above)?;
    both(terms, least, most)
}

// Whether a packet has ports, or both are 0.
fn sym_ports_fit(terms: &mut Terms, packet: &SymPacket) -> Result<NodeId, AllocError>
    requires nodes { packet_end packet.now ≤ size terms.old }
    ensures builds { Builds terms.old terms.new }
    ensures within { IfOk result (λ r. r.0 < size terms.new) }
    ensures value { Gives terms.new result (λ w r. at w r
        ≡ (not (is_portless (packet_of w packet.now).proto)
        || ((packet_of w packet.now).sport == 0 && (packet_of w packet.now).dport == 0))) }
{
    let tcp = equal_number(terms, packet.proto.nodes.as_slice(), 6)?;
    let udp = equal_number(terms, packet.proto.nodes.as_slice(), 17)?;
    let has_ports = either(terms, tcp, udp)?;
    let sport = equal_number(terms, packet.sport.nodes.as_slice(), 0)?;
    let dport = equal_number(terms, packet.dport.nodes.as_slice(), 0)?;
    let none = both(terms, sport, dport)?;
    either(terms, has_ports, none)
}

// Whether a packet whose other fields are those of a set has ports that are in it.
#[tactic(auto, unfolding(world_variables::specs::Packets::is_in_set))]
fn sym_in_set(
    alloc: Global,
    terms: &mut Terms,
    set: &PacketSet,
    packet: &SymPacket,
) -> Result<NodeId, AllocError>
    requires nodes { packet_end packet.now ≤ size terms.old }
    ensures builds { Builds terms.old terms.new }
    ensures within { IfOk result (λ r. r.0 < size terms.new) }
    ensures value { Gives terms.new result (λ w r. at w r ≡ is_in_set set.now (packet_of w packet.now)) }
{
    let sport = sym_in_range(alloc, terms, set.sport, &packet.sport)?;
    let dport = sym_in_range(alloc, terms, set.dport, &packet.dport)?;
    let fit = sym_ports_fit(terms, packet)?;
    let rest = both(terms, dport, fit)?;
    both(terms, sport, rest)
}

// Whether at most so many links fail.
#[tactic(auto, using(crate::proofs::AskedSteps::as_many_fail), unfolding(sym_policy::specs::Held::failures_of))]
fn sym_few_fail(
    alloc: Global,
    terms: &mut Terms,
    sym: &SymNet,
    most: u32,
) -> Result<NodeId, AllocError>
    requires down { ids_end sym.now.down ≤ size terms.old }
    ensures builds { Builds terms.old terms.new }
    ensures within { IfOk result (λ r. r.0 < size terms.new) }
    ensures value { Gives terms.new result (λ w r. at w r ≡ nat_le (length (failures_of w sym.now).links) most) }
{
    at_most(alloc, terms, sym.down.as_slice(), most)
}

/// Whether the packet of a routing is in the question's set, and no more links fail than the question allows.
#[tactic(auto, using(crate::proofs::WorldSteps::stands_ready))]
pub fn sym_asked(
    alloc: Global,
    terms: &mut Terms,
    net: &Net,
    question: &Question,
    plan: &Plan,
    made: &OpenRouting,
) -> Result<NodeId, AllocError>
    requires stands { StandsIn net.now.files net.now.tracked question.now plan.now terms.old made.now }
    ensures builds { Builds terms.old terms.new }
    ensures within { IfOk result (λ r. r.0 < size terms.new) }
    ensures value { Gives terms.new result (λ w r. (from : ℕ) →
        ReadsAs net.now.files net.now.tracked question.now plan.now from w made.now →
        at w r ≡ (is_in_set question.now.packets (packet_from question.now.packets w.variable from)
        && nat_le (length (failures_read_from net.now.files question.now w.variable from).links) question.now.failures)) }
{
    let in_set = sym_in_set(alloc, terms, &question.packets, &made.packet)?;
    let few = sym_few_fail(alloc, terms, &made.net, question.failures)?;
    let asked = both(terms, in_set, few)?;
    Ok(asked)
}
