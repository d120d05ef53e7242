//! The routing that exports a route of an ask, from values of the variables of its formula.

ghost use Rattle.std.specs.Prelude.{◌≡◌, ◌<◌, ℕ, Some, None, IfOk, length, true};
ghost use Rattle.export_asks.specs.Exported.{IsLeast, is_exported};
ghost use Rattle.route_record.specs.declared.TheConstants as constants;
ghost use Rattle.term_store.specs.Terms.{value_of};
ghost use Rattle.ask_search.specs.Encoded.{IsAskEncoding, IsExportedBy};
ghost use Rattle.ask_search.specs.Verdicts.{IsBroken, IsRight};

use crate::encoding::AskTerms;
use crate::question::question_for;
use crate::verdict::AskVerdict;
use bgp_decoding::{Decoded, decode_routing};
use cex_json::Counterexample;
use export_asks::{Ask, exported};
use net_model::Net;
use plan_places::single_plan;
use routing_worlds::read_network;
use slot_places::rooms_of;
use std::alloc::{AllocError, Global};

// The routing of values that make the root of an ask true.
fn routing_of(
    alloc: Global,
    net: &Net,
    ask: &Ask,
    encoding: &AskTerms,
    values: &[bool],
) -> Result<Decoded, AllocError>
    requires encoding { IsAskEncoding net.now.files net.now.tracked ask.now encoding.now }
    requires width { length values.now ≡ encoding.now.terms.vars }
    requires root { value_of encoding.now.terms.nodes values.now encoding.now.root.0 ≡ true }
    ensures { IfOk result (λ d. IsExportedBy net.now.files ask.now d.world d.environment) }
{
    let question = question_for(alloc, ask)?;
    let rooms = rooms_of(alloc, net, &question.packets.dst)?;
    read_network(net, &question, rooms.as_slice());
    let plan = single_plan(alloc)?;
    let decoded = decode_routing(alloc, values, net, &question, &plan)?;
    Ok(decoded)
}

// The counterexample of a routing.
fn cex_of(decoded: Decoded) -> Counterexample
    ensures { result ≡ record {
      question = 0;
      packet = decoded.world.packet;
      failures = decoded.world.failures;
      env = decoded.environment;
      tables = decoded.world.tables;
      walk = None;
    } }
{
    let world = decoded.world;
    Counterexample {
        question: 0,
        packet: world.packet,
        failures: world.failures,
        env: decoded.environment,
        tables: world.tables,
        walk: None,
    }
}

// The least length at which a route goes out, where one does.
fn least_length(alloc: Global, net: &Net, ask: &Ask, cex: &Counterexample) -> Result<u8, AllocError>
    requires { (len : ℕ) × (len < constants.LENGTHS)
        × (is_exported net.now.files ask.now cex.now.packet.dst cex.now.failures cex.now.tables len ≡ true) }
    ensures { IfOk result (λ len.
        IsLeast (is_exported net.now.files ask.now cex.now.packet.dst cex.now.failures cex.now.tables) (Some len)) }
{
    let least = exported(alloc, net, ask, cex.packet.dst, &cex.failures, &cex.tables)?;
    match least {
        Some(len) => Ok(len),
        None => unreachable!(),
    }
}

/// The verdict of values of all variables of an ask's formula that make the root true: the routing that they say, with real
/// announcements and routes, and the least prefix length at which it exports a route of the ask. Err is want of memory.
pub fn decode_ask(
    alloc: Global,
    net: &Net,
    ask: &Ask,
    encoding: &AskTerms,
    values: &[bool],
) -> Result<AskVerdict, AllocError>
    requires encoding { IsAskEncoding net.now.files net.now.tracked ask.now encoding.now }
    requires width { length values.now ≡ encoding.now.terms.vars }
    requires root { value_of encoding.now.terms.nodes values.now encoding.now.root.0 ≡ true }
    ensures right { IfOk result (IsRight net.now.files ask.now) }
    ensures broken { IfOk result IsBroken }
{
    let decoded = routing_of(alloc, net, ask, encoding, values)?;
    let cex = cex_of(decoded);
    let len = least_length(alloc, net, ask, &cex)?;
    Ok(AskVerdict::Broken { len, cex })
}
