//! What breaks a question, from values of the variables of its formula.

ghost use Rattle.std.specs.Prelude.{◌≡◌, Option as OptionOf, IfOk, length, true};
ghost use Rattle.cex_json.specs.Counterexamples.{IsTrueCounterexample};
ghost use Rattle.routing_encoder.specs.Encoded.{IsEncoding};
ghost use Rattle.question_lang.specs.Breaking.{IsBreaking};
ghost use Rattle.question_lang.specs.declared.walk.Walk.{Walk as WalkOf};
ghost use Rattle.sliced_routings.specs.Plans.{IsFittingPlan};
ghost use Rattle.term_store.specs.Terms.{value_of};

use bgp_decoding::{Decoded, decode_routing};
use cex_json::Counterexample;
use net_model::Net;
use question_lang::Question;
use routing_encoder::Encoding;
use routing_worlds::read_network;
use slot_places::rooms_of;
use std::alloc::{AllocError, Global};
use walk_finder::find_walk;

// A counterexample of that routing, which something breaks.
#[tactic(auto, using(crate::proofs::TrueWorlds::true_from))]
fn broken_routing(
    alloc: Global,
    net: &Net,
    question: &Question,
    number: u32,
    decoded: Decoded,
) -> Result<Counterexample, AllocError>
    requires breaking { (walk : OptionOf WalkOf)
        × IsBreaking net.now.files question.now decoded.world decoded.environment walk }
    ensures { IfOk result (IsTrueCounterexample net.now.files number question.now) }
{
    let world = decoded.world;
    let walk = find_walk(alloc, net, &world, &question.kind)?;
    Ok(Counterexample {
        question: number,
        packet: world.packet,
        failures: world.failures,
        env: decoded.environment,
        tables: world.tables,
        walk,
    })
}

/// A true counterexample to a question, from values of all variables of its formula that make the root true, over a plan
/// that fits the network: the routing that the values say, with real announcements and routes, and what breaks the question
/// there. Err is want of memory.
pub fn decode(
    alloc: Global,
    net: &Net,
    question: &Question,
    number: u32,
    encoding: &Encoding,
    values: &[bool],
) -> Result<Counterexample, AllocError>
    requires encoding { IsEncoding net.now.files net.now.tracked question.now encoding.now }
    requires plan { IsFittingPlan net.now.files encoding.now.world.plan }
    requires width { length values.now ≡ encoding.now.terms.vars }
    requires root { value_of encoding.now.terms.nodes values.now encoding.now.root.0 ≡ true }
    ensures { IfOk result (IsTrueCounterexample net.now.files number question.now) }
{
    let rooms = rooms_of(alloc, net, &question.packets.dst)?;
    read_network(net, question, rooms.as_slice());
    let decoded = decode_routing(alloc, values, net, question, &encoding.world.plan)?;
    let cex = broken_routing(alloc, net, question, number, decoded)?;
    Ok(cex)
}
