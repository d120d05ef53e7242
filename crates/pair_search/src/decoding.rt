//! Two routings in which packets have other fates, from values of the variables of their formula.

ghost use Rattle.std.specs.Prelude.{◌≡◌, IfOk, length, true};
ghost use Rattle.compared_nets.specs.Compared.{FatesBeside, FatesIn};
ghost use Rattle.compared_terms.specs.Compared.{IsComparison};
ghost use Rattle.packet_fates.specs.Sides.{IsFirstApart};
ghost use Rattle.pair_search.specs.Decoded.{DifferSo, cex_of as counterexample_of};
ghost use Rattle.pair_search.specs.Verdicts.{IsDifferent, IsRight};
ghost use Rattle.plan_places.specs.Plans as plans;
ghost use Rattle.routing_worlds.specs.Worlds.{is_routing};
ghost use Rattle.routings_beside.specs.Pairs.{environment_by, question_of, width as width_of, world_by};
ghost use Rattle.same_asks.specs.Asking.{IsKnown};
ghost use Rattle.term_store.specs.Terms.{truth, value_of};

use crate::verdict::SameVerdict;
use bgp_decoding::{Decoded, decode_routing};
use cex_json::Counterexample;
use compared_nets::difference;
use compared_terms::ComparedTerms;
use net_model::Net;
use packet_fates::Apart;
use plan_places::single_plan;
use route_record::World;
use routing_worlds::read_network;
use routings_beside::question::question_for;
use same_asks::Same;
use slot_places::rooms_of;
use std::alloc::{AllocError, Global};

// A routing of each network.
#[derive(Drop)]
struct Two {
    one: Decoded,
    other: Decoded,
}

// The routing of values of all variables of one network.
fn routing_of(alloc: Global, net: &Net, ask: &Same, values: &[bool]) -> Result<Decoded, AllocError>
    requires width { length values.now ≡ width_of net.now ask.now }
    requires routing { is_routing net.now.files net.now.tracked (question_of ask.now) plans.single_plan
        (truth values.now) 0 ≡ true }
    ensures world { IfOk result (λ d. d.world ≡ world_by net.now ask.now values.now) }
    ensures environment { IfOk result (λ d. d.environment ≡ environment_by net.now ask.now values.now) }
{
    let question = question_for(alloc, ask)?;
    let rooms = rooms_of(alloc, net, &question.packets.dst)?;
    read_network(net, &question, rooms.as_slice());
    let plan = single_plan(alloc)?;
    let decoded = decode_routing(alloc, values, net, &question, &plan)?;
    Ok(decoded)
}

// The two routings of values that make the root true.
fn routings_of(
    alloc: Global,
    left: &Net,
    right: &Net,
    ask: &Same,
    encoding: &ComparedTerms,
    values: &[bool],
) -> Result<Two, AllocError>
    requires encoding { IsComparison left.now right.now ask.now encoding.now }
    requires width { length values.now ≡ encoding.now.terms.vars }
    requires root { value_of encoding.now.terms.nodes values.now encoding.now.root.0 ≡ true }
    ensures { IfOk result (λ two. DifferSo left.now.files right.now.files ask.now two.one two.other) }
{
    let (own, others) = values.split_at(encoding.split as usize);
    let one = routing_of(alloc, left, ask, own)?;
    let other = routing_of(alloc, right, ask, others)?;
    Ok(Two { one, other })
}

// The first fate that one of two routings alone has, where the fates are not the same.
fn apart_of(
    alloc: Global,
    left: &Net,
    right: &Net,
    ask: &Same,
    two: &Two,
) -> Result<Apart, AllocError>
    requires known { IsKnown left.now.files right.now.files ask.now }
    requires differ { DifferSo left.now.files right.now.files ask.now two.now.one two.now.other }
    ensures { IfOk result (λ apart. IsFirstApart (FatesIn left.now.files two.now.one.world ask.now)
        (FatesBeside right.now.files two.now.other.world ask.now) apart.side apart.fate) }
{
    let found = difference(alloc, left, right, ask, &two.one.world, &two.other.world)?;
    match found {
        Some(apart) => Ok(apart),
        None => unreachable!(),
    }
}

// A routing as a counterexample.
fn cex_of(decoded: Decoded) -> Counterexample
    ensures { result ≡ counterexample_of decoded }
{
    let world = decoded.world;
    Counterexample {
        question: 0,
        packet: world.packet,
        failures: world.failures,
        env: decoded.environment,
        tables: world.tables,
        walk: None,
    }
}

// The verdict that names these two routings.
fn different(two: Two, apart: Apart) -> SameVerdict
    ensures { result ≡ SameVerdict.Different (counterexample_of two.one) (counterexample_of two.other) apart }
{
    SameVerdict::Different {
        one: cex_of(two.one),
        other: cex_of(two.other),
        apart,
    }
}

/// The verdict of values of all variables of a formula that make the root true: the two routings that they say, with real
/// announcements and routes, and the first fate that one of them alone has. Err is want of memory.
pub fn decode_compared(
    alloc: Global,
    left: &Net,
    right: &Net,
    ask: &Same,
    encoding: &ComparedTerms,
    values: &[bool],
) -> Result<SameVerdict, AllocError>
    requires known { IsKnown left.now.files right.now.files ask.now }
    requires encoding { IsComparison left.now right.now ask.now encoding.now }
    requires width { length values.now ≡ encoding.now.terms.vars }
    requires root { value_of encoding.now.terms.nodes values.now encoding.now.root.0 ≡ true }
    ensures right { IfOk result (IsRight left.now.files right.now.files ask.now) }
    ensures different { IfOk result IsDifferent }
{
    let two = routings_of(alloc, left, right, ask, encoding, values)?;
    let apart = apart_of(alloc, left, right, ask, &two)?;
    Ok(different(two, apart))
}
