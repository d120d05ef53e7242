//! That the routers of a routing which hold internal OSPF routes reach origins of these, and that these cost no less than the
//! nearest one is away, as terms: both follow from what is wanted of OSPF, and leave a search no routes to try that support
//! one another, and no costs that no route has.

ghost use Rattle.std.specs.Prelude.{◌≡◌, ℕ, ◌≤◌, ◌<◌, IfOk, length, true};
ghost use Rattle.route_record.specs.declared.Tables.{Tables as TablesOf};
ghost use Rattle.sym_rib.specs.Worlds.{slots_end};
ghost use Rattle.bgp_equations.specs.Equations.{HaveTracked};
ghost use Rattle.routing_worlds.specs.Worlds.{opens_from, shape_world_from};
ghost use Rattle.routing_encoder.specs.Opened.{ReadsAs, StandsIn};
ghost use Rattle.routing_encoder.specs.Shapes.{ReadAsShapes};
ghost use Rattle.routing_encoder.specs.Wanted.{HasShapes, are_wanted};
ghost use Rattle.term_store.specs.Terms.{at, size};
ghost use Rattle.term_store.specs.Reading.{Builds, Gives};

use crate::wanted::WorldTables;
use ospf_equations::{SlotPlace, reached_law, sym_dearer, sym_reached};
use route_record::LENGTHS;
use slot_places::Room;
use std::alloc::{AllocError, Global};
use term_arith::gates::{both, constant_node};
use term_store::{NodeId, Terms};

// Whether routes of OSPF can stand at a length above that of a question's destinations, so that some of them may have
// none there.
fn may_have_none(rooms: &[Option<Room>], destinations: u8, len: u8) -> bool {
    if len <= destinations {
        return false;
    }
    match rooms.get(len as usize) {
        Some(Some(_)) => true,
        _ => false,
    }
}

// Whether each router that holds an internal route at a length reaches an origin, where some destination may have none.
#[tactic(auto, using(crate::proofs::WantedSteps::place_steps))]
fn sym_reached_at(
    alloc: Global,
    terms: &mut Terms,
    world: &WorldTables<'_>,
    len: u8,
) -> Result<NodeId, AllocError>
    requires stands { StandsIn world.now.net.now.files world.now.net.now.tracked world.now.question.now
        world.now.plan.now terms.old world.now.made.now.routing }
    requires within { slots_end world.now.made.now.slots ≤ size terms.old }
    requires rows { HaveTracked world.now.net.now.tracked world.now.made.now.slots }
    requires long { length world.now.made.now.slots ≡ length world.now.made.now.routing.frame.places }
    requires lens { world.now.tables.now.lens.now ≡ world.now.made.now.routing.frame.lens.items }
    requires routers { world.now.tables.now.routers ≡ length world.now.net.now.files }
    requires slots { world.now.tables.now.slots.now ≡ world.now.made.now.slots }
    requires short { len ≤ 32 }
    ensures builds { Builds terms.old terms.new }
    ensures within { IfOk result (λ r. r.0 < size terms.new) }
    ensures value { Gives terms.new result (λ w r. (from : ℕ) (real : TablesOf) →
        ReadsAs world.now.net.now.files world.now.net.now.tracked world.now.question.now world.now.plan.now from w
        world.now.made.now.routing →
        ReadAsShapes world.now.net.now.files world.now.net.now.tracked world.now.question.now world.now.plan.now from w
        world.now.made.now.slots →
        HasShapes world.now.net.now.tracked real (shape_world_from world.now.net.now.files world.now.net.now.tracked
        world.now.question.now world.now.plan.now w.variable from) →
        are_wanted world.now.net.now.files world.now.question.now.packets.dst
        (shape_world_from world.now.net.now.files world.now.net.now.tracked world.now.question.now world.now.plan.now
        w.variable from) real world.now.made.now.routing.frame.places (opens_from world.now.net.now.files
        world.now.net.now.tracked world.now.question.now world.now.plan.now w.variable from) ≡ true → at w r ≡ true) }
{
    let routing = &world.made.routing;
    if !may_have_none(
        routing.frame.rooms.as_slice(),
        world.question.packets.dst.len,
        len,
    ) {
        let holds = constant_node(terms, true)?;
        return Ok(holds);
    }
    let place = SlotPlace {
        net: world.net,
        sym: &routing.net,
        router: 0,
        dst: &routing.packet.dst,
        len,
    };
    reached_law(world.net);
    let reached = sym_reached(alloc, terms, &place, world.tables)?;
    Ok(reached)
}

// Whether no router's internal route at a length costs less than one to the nearest origin while no link has failed.
#[tactic(auto, using(crate::proofs::WantedSteps::place_steps))]
fn sym_dearer_at(
    alloc: Global,
    terms: &mut Terms,
    world: &WorldTables<'_>,
    len: u8,
) -> Result<NodeId, AllocError>
    requires stands { StandsIn world.now.net.now.files world.now.net.now.tracked world.now.question.now
        world.now.plan.now terms.old world.now.made.now.routing }
    requires within { slots_end world.now.made.now.slots ≤ size terms.old }
    requires rows { HaveTracked world.now.net.now.tracked world.now.made.now.slots }
    requires long { length world.now.made.now.slots ≡ length world.now.made.now.routing.frame.places }
    requires lens { world.now.tables.now.lens.now ≡ world.now.made.now.routing.frame.lens.items }
    requires routers { world.now.tables.now.routers ≡ length world.now.net.now.files }
    requires slots { world.now.tables.now.slots.now ≡ world.now.made.now.slots }
    requires short { len ≤ 32 }
    ensures builds { Builds terms.old terms.new }
    ensures within { IfOk result (λ r. r.0 < size terms.new) }
    ensures value { Gives terms.new result (λ w r. (from : ℕ) (real : TablesOf) →
        ReadsAs world.now.net.now.files world.now.net.now.tracked world.now.question.now world.now.plan.now from w
        world.now.made.now.routing →
        ReadAsShapes world.now.net.now.files world.now.net.now.tracked world.now.question.now world.now.plan.now from w
        world.now.made.now.slots →
        HasShapes world.now.net.now.tracked real (shape_world_from world.now.net.now.files world.now.net.now.tracked
        world.now.question.now world.now.plan.now w.variable from) →
        are_wanted world.now.net.now.files world.now.question.now.packets.dst
        (shape_world_from world.now.net.now.files world.now.net.now.tracked world.now.question.now world.now.plan.now
        w.variable from) real world.now.made.now.routing.frame.places (opens_from world.now.net.now.files
        world.now.net.now.tracked world.now.question.now world.now.plan.now w.variable from) ≡ true → at w r ≡ true) }
{
    let routing = &world.made.routing;
    let place = SlotPlace {
        net: world.net,
        sym: &routing.net,
        router: 0,
        dst: &routing.packet.dst,
        len,
    };
    let dearer = sym_dearer(alloc, terms, &place, world.tables, world.limits)?;
    Ok(dearer)
}

// Both at a length.
fn sym_follows_at(
    alloc: Global,
    terms: &mut Terms,
    world: &WorldTables<'_>,
    len: u8,
) -> Result<NodeId, AllocError>
    requires stands { StandsIn world.now.net.now.files world.now.net.now.tracked world.now.question.now
        world.now.plan.now terms.old world.now.made.now.routing }
    requires within { slots_end world.now.made.now.slots ≤ size terms.old }
    requires rows { HaveTracked world.now.net.now.tracked world.now.made.now.slots }
    requires long { length world.now.made.now.slots ≡ length world.now.made.now.routing.frame.places }
    requires lens { world.now.tables.now.lens.now ≡ world.now.made.now.routing.frame.lens.items }
    requires routers { world.now.tables.now.routers ≡ length world.now.net.now.files }
    requires slots { world.now.tables.now.slots.now ≡ world.now.made.now.slots }
    requires short { len ≤ 32 }
    ensures builds { Builds terms.old terms.new }
    ensures within { IfOk result (λ r. r.0 < size terms.new) }
    ensures value { Gives terms.new result (λ w r. (from : ℕ) (real : TablesOf) →
        ReadsAs world.now.net.now.files world.now.net.now.tracked world.now.question.now world.now.plan.now from w
        world.now.made.now.routing →
        ReadAsShapes world.now.net.now.files world.now.net.now.tracked world.now.question.now world.now.plan.now from w
        world.now.made.now.slots →
        HasShapes world.now.net.now.tracked real (shape_world_from world.now.net.now.files world.now.net.now.tracked
        world.now.question.now world.now.plan.now w.variable from) →
        are_wanted world.now.net.now.files world.now.question.now.packets.dst
        (shape_world_from world.now.net.now.files world.now.net.now.tracked world.now.question.now world.now.plan.now
        w.variable from) real world.now.made.now.routing.frame.places (opens_from world.now.net.now.files
        world.now.net.now.tracked world.now.question.now world.now.plan.now w.variable from) ≡ true → at w r ≡ true) }
{
    let reached = sym_reached_at(alloc, terms, world, len)?;
    let dearer = sym_dearer_at(alloc, terms, world, len)?;
    both(terms, reached, dearer)
}

/// What follows of internal routes at all lengths: they lead to origins, and cost what these are away at least.
#[tactic(auto, using(crate::proofs::WantedSteps::wanted_steps))]
pub(crate) fn sym_all_following(
    alloc: Global,
    terms: &mut Terms,
    world: &WorldTables<'_>,
) -> Result<NodeId, AllocError>
    requires stands { StandsIn world.now.net.now.files world.now.net.now.tracked world.now.question.now
        world.now.plan.now terms.old world.now.made.now.routing }
    requires within { slots_end world.now.made.now.slots ≤ size terms.old }
    requires rows { HaveTracked world.now.net.now.tracked world.now.made.now.slots }
    requires long { length world.now.made.now.slots ≡ length world.now.made.now.routing.frame.places }
    requires lens { world.now.tables.now.lens.now ≡ world.now.made.now.routing.frame.lens.items }
    requires routers { world.now.tables.now.routers ≡ length world.now.net.now.files }
    requires slots { world.now.tables.now.slots.now ≡ world.now.made.now.slots }
    ensures builds { Builds terms.old terms.new }
    ensures within { IfOk result (λ r. r.0 < size terms.new) }
    ensures value { Gives terms.new result (λ w r. (from : ℕ) (real : TablesOf) →
        ReadsAs world.now.net.now.files world.now.net.now.tracked world.now.question.now world.now.plan.now from w
        world.now.made.now.routing →
        ReadAsShapes world.now.net.now.files world.now.net.now.tracked world.now.question.now world.now.plan.now from w
        world.now.made.now.slots →
        HasShapes world.now.net.now.tracked real (shape_world_from world.now.net.now.files world.now.net.now.tracked
        world.now.question.now world.now.plan.now w.variable from) →
        are_wanted world.now.net.now.files world.now.question.now.packets.dst
        (shape_world_from world.now.net.now.files world.now.net.now.tracked world.now.question.now world.now.plan.now
        w.variable from) real world.now.made.now.routing.frame.places (opens_from world.now.net.now.files
        world.now.net.now.tracked world.now.question.now world.now.plan.now w.variable from) ≡ true → at w r ≡ true) }
{
    let mut all = constant_node(terms, true)?;
    for len in 0..LENGTHS as u8 {
        let here = sym_follows_at(alloc, terms, world, len)?;
        all = both(terms, all, here)?;
    }
    Ok(all)
}
