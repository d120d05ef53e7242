//! Whether the routers of a routing hold the BGP routes that the decision process leaves them, as a term.

ghost use Rattle.std.specs.Prelude.{◌≡◌, ℕ, ◌*◌, ◌≤◌, ◌<◌, IfOk, length, true};
ghost use Rattle.route_record.specs.declared.TheConstants as constants;
ghost use Rattle.plan_places.specs.Places.{has_place};
ghost use Rattle.sym_rib.specs.Worlds.{slots_end};
ghost use Rattle.world_variables.specs.Worlds.{places_in};
ghost use Rattle.bgp_equations.specs.Equations.{DistancesForSessions, HaveTracked, RowsForSessions};
ghost use Rattle.routing_worlds.specs.Worlds.{shape_world_from};
ghost use Rattle.routing_encoder.specs.Decided.{are_decided, is_heard_place};
ghost use Rattle.routing_encoder.specs.Opened.{ReadsAs, StandsIn};
ghost use Rattle.routing_encoder.specs.Shapes.{ReadAsShapes};
ghost use Rattle.term_store.specs.Terms.{at, size};
ghost use Rattle.term_store.specs.Reading.{Builds, Gives};

use crate::slots::is_used;
use crate::world::OpenWorld;
use bgp_equations::{Routing, sym_bgp_holds};
use net_model::Net;
use plan_places::Place;
use question_lang::Question;
use route_record::Plan;
use std::alloc::{AllocError, Global};
use sym_rib::SymTables;
use term_arith::gates::{both, constant_node};
use term_store::{NodeId, Terms};

/// Whether the slot at a place of the plan holds the BGP route that the decision process leaves its router, and true
/// where nothing can stand. What silent routers hold is not looked at. Where a session joins two routers of the files, the
/// rows of the routing are taken to be the interior distances.
#[tactic(auto, using(crate::proofs::WorldSteps::stands_ready))]
pub fn sym_decided(
    alloc: Global,
    terms: &mut Terms,
    net: &Net,
    question: &Question,
    plan: &Plan,
    made: &OpenWorld,
    tables: &SymTables<'_>,
    p: Place,
) -> Result<NodeId, AllocError>
    requires stands { StandsIn net.now.files net.now.tracked question.now plan.now terms.old made.now.routing }
    requires distances { RowsForSessions net.now.files made.now.routing.net }
    requires within { slots_end made.now.slots ≤ size terms.old }
    requires rows { HaveTracked net.now.tracked made.now.slots }
    requires lens { tables.now.lens.now ≡ made.now.routing.frame.lens.items }
    requires routers { tables.now.routers ≡ length net.now.files }
    requires slots { tables.now.slots.now ≡ made.now.slots }
    requires short { p.len < constants.LENGTHS }
    requires place { has_place (places_in net.now.files plan.now) p.router p.len ≡ true }
    ensures builds { Builds terms.old terms.new }
    ensures within { IfOk result (λ r. r.0 < size terms.new) }
    ensures value { Gives terms.new result (λ w r. (from : ℕ) →
        ReadsAs net.now.files net.now.tracked question.now plan.now from w made.now.routing →
        ReadAsShapes net.now.files net.now.tracked question.now plan.now from w made.now.slots →
        DistancesForSessions w net.now.files made.now.routing.net →
        at w r ≡ is_heard_place net.now.tracked net.now.files question.now.packets.dst
        (shape_world_from net.now.files net.now.tracked question.now plan.now w.variable from) p) }
{
    let routing = &made.routing;
    if !is_used(net, &routing.frame, plan, p) {
        let holds = constant_node(terms, true)?;
        return Ok(holds);
    }
    let whole = Routing {
        net,
        sym: &routing.net,
        env: &routing.env,
        tables,
        dst: &routing.packet.dst,
        len: p.len,
    };
    let holds = sym_bgp_holds(alloc, terms, &whole, p.router)?;
    Ok(holds)
}

// The slots of a routing, where they stand.
pub(crate) fn tables_of<'a>(net: &Net, made: &'a OpenWorld) -> SymTables<'a>
    requires few { length made.now.routing.frame.lens.items ≤ constants.LENGTHS }
    requires long { length made.now.slots ≡ length net.now.files * length made.now.routing.frame.lens.items }
    ensures lens { result.lens.now ≡ made.now.routing.frame.lens.items }
    ensures routers { result.routers ≡ length net.now.files }
    ensures slots { result.slots.now ≡ made.now.slots }
{
    let routers = net.routers();
    SymTables {
        lens: made.routing.frame.lens.as_slice(),
        routers: routers.len() as u32,
        slots: made.slots.as_slice(),
    }
}

/// Whether all slots of a routing hold the BGP routes that the decision process leaves their routers.
#[tactic(auto, using(crate::proofs::DecidedSteps::decided_steps))]
pub fn sym_all_decided(
    alloc: Global,
    terms: &mut Terms,
    net: &Net,
    question: &Question,
    plan: &Plan,
    made: &OpenWorld,
) -> Result<NodeId, AllocError>
    requires stands { StandsIn net.now.files net.now.tracked question.now plan.now terms.old made.now.routing }
    requires distances { RowsForSessions net.now.files made.now.routing.net }
    requires within { slots_end made.now.slots ≤ size terms.old }
    requires rows { HaveTracked net.now.tracked made.now.slots }
    requires long { length made.now.slots ≡ length made.now.routing.frame.places }
    ensures builds { Builds terms.old terms.new }
    ensures within { IfOk result (λ r. r.0 < size terms.new) }
    ensures value { Gives terms.new result (λ w r. (from : ℕ) →
        ReadsAs net.now.files net.now.tracked question.now plan.now from w made.now.routing →
        ReadAsShapes net.now.files net.now.tracked question.now plan.now from w made.now.slots →
        DistancesForSessions w net.now.files made.now.routing.net →
        at w r ≡ are_decided net.now.tracked net.now.files question.now.packets.dst
        (shape_world_from net.now.files net.now.tracked question.now plan.now w.variable from)
        made.now.routing.frame.places) }
{
    let tables = tables_of(net, made);
    let places = made.routing.frame.places.as_slice();
    let mut all = constant_node(terms, true)?;
    for at in 0..places.len() {
        let p = places[at];
        let holds = sym_decided(alloc, terms, net, question, plan, made, &tables, p)?;
        all = both(terms, all, holds)?;
    }
    Ok(all)
}
