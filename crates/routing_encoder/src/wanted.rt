//! Whether what is open of OSPF in a routing is as real tables of its shapes want it, as a term.

ghost use Rattle.std.specs.Prelude.{◌≡◌, ℕ, ◌≤◌, ◌<◌, IfOk, None, Option as OptionOf, Some, length, option_map, slice_get};
ghost use Rattle.std.specs.Option.{option_copied};
ghost use Rattle.route_record.specs.declared.Slot.{Slot as SlotOf};
ghost use Rattle.route_record.specs.declared.Tables.{Tables as TablesOf};
ghost use Rattle.route_record.specs.declared.TheConstants as constants;
ghost use Rattle.route_shapes.specs.Bgp.{BgpShape, bgp_shape};
ghost use Rattle.plan_places.specs.declared.places.Place.{Place as PlaceOf};
ghost use Rattle.sym_policy.specs.Held.{failures_of};
ghost use Rattle.sym_policy.specs.Records.{address_of};
ghost use Rattle.sym_rib.specs.Slots.{StandsForSlot, slot_end};
ghost use Rattle.sym_rib.specs.Worlds.{slots_end};
ghost use Rattle.world_variables.specs.declared.unknowns.Unknown.{Unknown};
ghost use Rattle.world_variables.specs.Symbols.{open_of, open_end};
ghost use Rattle.bgp_equations.specs.Equations.{HaveTracked};
ghost use Rattle.bgp_worlds.specs.Opens.{OpenSlot};
ghost use Rattle.routing_worlds.specs.Worlds.{open_with, opens_from, shape_world_from};
ghost use Rattle.routing_encoder.specs.Opened.{ReadsAs, StandsIn};
ghost use Rattle.routing_encoder.specs.Shapes.{ReadAsShapes};
ghost use Rattle.routing_encoder.specs.Wanted.{HasShapes, TellsWanted, are_wanted, is_wanted_place};
ghost use Rattle.term_store.specs.Terms.{at, size};
ghost use Rattle.term_store.specs.Reading.{Builds, Gives};
ghost use Rattle.term_arith.specs.Bits.{ids_end};

use crate::decided::tables_of;
use crate::following::sym_all_following;
use crate::slots::{Towards, is_used, place_at};
use crate::sought::sought;
use crate::world::OpenWorld;
use net_model::Net;
use ospf_equations::{AllLimits, SlotPlace, limits_of, sym_dynamic, sym_slot_holds};
use plan_places::Place;
use question_lang::Question;
use route_record::Plan;
use slot_places::{Room, room_for};
use std::alloc::{AllocError, Global};
use sym_rib::{SymSlot, SymTables, slot_for};
use term_arith::gates::{both, constant_node};
use term_store::{NodeId, Terms};
use world_variables::SymOpen;
use world_variables::opens::no_route;

/// An open world of a question over a plan, its slots as tables, and the limits of what routes cost that are looked at.
#[derive(Clone, Copy)]
pub(crate) struct WorldTables<'a> {
    pub net: &'a Net,
    pub question: &'a Question,
    pub plan: &'a Plan,
    pub made: &'a OpenWorld,
    pub tables: &'a SymTables<'a>,
    pub limits: &'a AllLimits,
}

// What is open of a slot without room for an OSPF route: none, and the bit of the entry by its other routes.
fn closed_part(
    alloc: Global,
    terms: &mut Terms,
    towards: &Towards<'_>,
    p: Place,
    slot: &SymSlot,
) -> Result<SymOpen, AllocError>
    requires short { p.len < constants.LENGTHS }
    requires wide { length towards.now.dst.now.nodes.items ≡ 32 }
    requires nodes { ids_end towards.now.dst.now.nodes.items ≤ size terms.old }
    requires down { ids_end towards.now.sym.now.down ≤ size terms.old }
    requires slot { slot_end slot.now ≤ size terms.old }
    ensures builds { Builds terms.old terms.new }
    ensures within { IfOk result (λ r. open_end r ≤ size terms.new) }
    ensures value { Gives terms.new result (λ w r. (held : SlotOf) (u : Unknown) (bgp : OptionOf BgpShape) →
        StandsForSlot w towards.now.net.now.tracked slot.now held → held.ospf ≡ None →
        option_map (bgp_shape towards.now.net.now.tracked) held.bgp ≡ bgp → open_of w r
        ≡ (open_with towards.now.net.now.files (failures_of w towards.now.sym.now) (address_of w towards.now.dst.now)
        None p u bgp).unknown) }
{
    let ospf = no_route(alloc, terms)?;
    let own = constant_node(terms, false)?;
    let place = SlotPlace {
        net: towards.net,
        sym: towards.sym,
        router: p.router,
        dst: towards.dst,
        len: p.len,
    };
    let dynamic = sym_dynamic(alloc, terms, &place, slot, own)?;
    Ok(SymOpen { ospf, dynamic })
}

// Whether a slot without room for an OSPF route is as the tables want it.
fn wanted_closed(
    alloc: Global,
    terms: &mut Terms,
    towards: &Towards<'_>,
    tables: &SymTables<'_>,
    p: Place,
    limits: &AllLimits,
) -> Result<NodeId, AllocError>
    requires short { p.len < constants.LENGTHS }
    requires wide { length towards.now.dst.now.nodes.items ≡ 32 }
    requires nodes { ids_end towards.now.dst.now.nodes.items ≤ size terms.old }
    requires down { ids_end towards.now.sym.now.down ≤ size terms.old }
    requires rows { HaveTracked towards.now.net.now.tracked tables.now.slots.now }
    requires slots { slots_end tables.now.slots.now ≤ size terms.old }
    ensures builds { Builds terms.old terms.new }
    ensures within { IfOk result (λ r. r.0 < size terms.new) }
    ensures value { Gives terms.new result (λ w r. (u : Unknown) (bgp : OptionOf BgpShape) →
        TellsWanted w towards.now.net.now.tracked towards.now.net.now.files (failures_of w towards.now.sym.now)
        (address_of w towards.now.dst.now) tables.now p (open_with towards.now.net.now.files
        (failures_of w towards.now.sym.now) (address_of w towards.now.dst.now) None p u bgp) r) }
{
    match slot_for(tables, p.router, p.len) {
        None => {
            let never = constant_node(terms, false)?;
            Ok(never)
        }
        Some(slot) => {
            let part = closed_part(alloc, terms, towards, p, slot)?;
            let place = SlotPlace {
                net: towards.net,
                sym: towards.sym,
                router: p.router,
                dst: towards.dst,
                len: p.len,
            };
            let holds = sym_slot_holds(alloc, terms, &place, tables, &part, limits)?;
            Ok(holds)
        }
    }
}

// Whether a slot with that room for an OSPF route is as the tables want it.
fn wanted_with(
    alloc: Global,
    terms: &mut Terms,
    towards: &Towards<'_>,
    tables: &SymTables<'_>,
    room: Option<&Room>,
    p: Place,
    part: &SymOpen,
    limits: &AllLimits,
) -> Result<NodeId, AllocError>
    requires short { p.len < constants.LENGTHS }
    requires wide { length towards.now.dst.now.nodes.items ≡ 32 }
    requires nodes { ids_end towards.now.dst.now.nodes.items ≤ size terms.old }
    requires down { ids_end towards.now.sym.now.down ≤ size terms.old }
    requires rows { HaveTracked towards.now.net.now.tracked tables.now.slots.now }
    requires slots { slots_end tables.now.slots.now ≤ size terms.old }
    requires part { open_end part.now ≤ size terms.old }
    ensures builds { Builds terms.old terms.new }
    ensures within { IfOk result (λ r. r.0 < size terms.new) }
    ensures value { Gives terms.new result (λ w r. (bgp : OptionOf BgpShape) →
        TellsWanted w towards.now.net.now.tracked towards.now.net.now.files (failures_of w towards.now.sym.now)
        (address_of w towards.now.dst.now) tables.now p (open_with towards.now.net.now.files
        (failures_of w towards.now.sym.now) (address_of w towards.now.dst.now) (option_copied room.entry) p
        (open_of w part.now) bgp) r) }
{
    match room {
        None => {
            let closed = wanted_closed(alloc, terms, towards, tables, p, limits)?;
            Ok(closed)
        }
        Some(_) => {
            let place = SlotPlace {
                net: towards.net,
                sym: towards.sym,
                router: p.router,
                dst: towards.dst,
                len: p.len,
            };
            let holds = sym_slot_holds(alloc, terms, &place, tables, part, limits)?;
            Ok(holds)
        }
    }
}

// Whether what is open of OSPF at the place of that number is as real tables of the routing's shapes want it, and true
// where nothing can stand.
#[tactic(auto, using(crate::proofs::WantedSteps::place_steps))]
fn sym_wanted(
    alloc: Global,
    terms: &mut Terms,
    world: &WorldTables<'_>,
    number: usize,
) -> Result<NodeId, AllocError>
    requires stands { StandsIn world.now.net.now.files world.now.net.now.tracked world.now.question.now
        world.now.plan.now terms.old world.now.made.now.routing }
    requires within { slots_end world.now.made.now.slots ≤ size terms.old }
    requires rows { HaveTracked world.now.net.now.tracked world.now.made.now.slots }
    requires long { length world.now.made.now.slots ≡ length world.now.made.now.routing.frame.places }
    requires lens { world.now.tables.now.lens.now ≡ world.now.made.now.routing.frame.lens.items }
    requires routers { world.now.tables.now.routers ≡ length world.now.net.now.files }
    requires slots { world.now.tables.now.slots.now ≡ world.now.made.now.slots }
    requires below { number < length world.now.made.now.routing.frame.places }
    ensures builds { Builds terms.old terms.new }
    ensures within { IfOk result (λ r. r.0 < size terms.new) }
    ensures value { Gives terms.new result (λ w r. (from : ℕ) (real : TablesOf) (p : PlaceOf) (o : OpenSlot) →
        ReadsAs world.now.net.now.files world.now.net.now.tracked world.now.question.now world.now.plan.now from w
        world.now.made.now.routing →
        ReadAsShapes world.now.net.now.files world.now.net.now.tracked world.now.question.now world.now.plan.now from w
        world.now.made.now.slots →
        HasShapes world.now.net.now.tracked real (shape_world_from world.now.net.now.files world.now.net.now.tracked
        world.now.question.now world.now.plan.now w.variable from) →
        slice_get world.now.made.now.routing.frame.places number ≡ Some p →
        slice_get (opens_from world.now.net.now.files world.now.net.now.tracked world.now.question.now
        world.now.plan.now w.variable from) number ≡ Some o →
        at w r ≡ is_wanted_place world.now.net.now.files world.now.question.now.packets.dst
        (shape_world_from world.now.net.now.files world.now.net.now.tracked world.now.question.now world.now.plan.now
        w.variable from) real p o) }
{
    let routing = &world.made.routing;
    let places = routing.frame.places.as_slice();
    let p = place_at(places, number);
    if !is_used(world.net, &routing.frame, world.plan, p) {
        let holds = constant_node(terms, true)?;
        return Ok(holds);
    }
    let parts = routing.parts.as_slice();
    let part = &parts[number];
    let rooms = routing.frame.rooms.as_slice();
    let room = room_for(world.net.routers(), rooms, p.router, p.len);
    let towards = Towards {
        net: world.net,
        sym: &routing.net,
        dst: &routing.packet.dst,
    };
    let holds = wanted_with(
        alloc,
        terms,
        &towards,
        world.tables,
        room,
        p,
        part,
        world.limits,
    )?;
    Ok(holds)
}

// The same at all places.
#[tactic(auto, using(crate::proofs::WantedSteps::wanted_steps))]
fn sym_each_wanted(
    alloc: Global,
    terms: &mut Terms,
    world: &WorldTables<'_>,
) -> Result<NodeId, AllocError>
    requires stands { StandsIn world.now.net.now.files world.now.net.now.tracked world.now.question.now
        world.now.plan.now terms.old world.now.made.now.routing }
    requires within { slots_end world.now.made.now.slots ≤ size terms.old }
    requires rows { HaveTracked world.now.net.now.tracked world.now.made.now.slots }
    requires long { length world.now.made.now.slots ≡ length world.now.made.now.routing.frame.places }
    requires lens { world.now.tables.now.lens.now ≡ world.now.made.now.routing.frame.lens.items }
    requires routers { world.now.tables.now.routers ≡ length world.now.net.now.files }
    requires slots { world.now.tables.now.slots.now ≡ world.now.made.now.slots }
    ensures builds { Builds terms.old terms.new }
    ensures within { IfOk result (λ r. r.0 < size terms.new) }
    ensures value { Gives terms.new result (λ w r. (from : ℕ) (real : TablesOf) →
        ReadsAs world.now.net.now.files world.now.net.now.tracked world.now.question.now world.now.plan.now from w
        world.now.made.now.routing →
        ReadAsShapes world.now.net.now.files world.now.net.now.tracked world.now.question.now world.now.plan.now from w
        world.now.made.now.slots →
        HasShapes world.now.net.now.tracked real (shape_world_from world.now.net.now.files world.now.net.now.tracked
        world.now.question.now world.now.plan.now w.variable from) →
        at w r ≡ are_wanted world.now.net.now.files world.now.question.now.packets.dst
        (shape_world_from world.now.net.now.files world.now.net.now.tracked world.now.question.now world.now.plan.now
        w.variable from) real world.now.made.now.routing.frame.places (opens_from world.now.net.now.files
        world.now.net.now.tracked world.now.question.now world.now.plan.now w.variable from)) }
{
    let places = world.made.routing.frame.places.as_slice();
    let mut all = constant_node(terms, true)?;
    for at in 0..places.len() {
        let holds = sym_wanted(alloc, terms, world, at)?;
        all = both(terms, all, holds)?;
    }
    Ok(all)
}

/// Whether what is open of OSPF in a routing is as tables want it that have the shapes of its slots: at each place the
/// OSPF route that the router holds, and the bit of its table's entry. Where nothing can stand, nothing is asked. That routers
/// with internal routes reach origins follows from this, and is said beside it for the search.
#[tactic(auto, using(crate::proofs::DecidedSteps::stands_long))]
pub fn sym_all_wanted(
    alloc: Global,
    terms: &mut Terms,
    net: &Net,
    question: &Question,
    plan: &Plan,
    made: &OpenWorld,
) -> Result<NodeId, AllocError>
    requires stands { StandsIn net.now.files net.now.tracked question.now plan.now terms.old made.now.routing }
    requires within { slots_end made.now.slots ≤ size terms.old }
    requires rows { HaveTracked net.now.tracked made.now.slots }
    requires long { length made.now.slots ≡ length made.now.routing.frame.places }
    ensures builds { Builds terms.old terms.new }
    ensures within { IfOk result (λ r. r.0 < size terms.new) }
    ensures value { Gives terms.new result (λ w r. (from : ℕ) (real : TablesOf) →
        ReadsAs net.now.files net.now.tracked question.now plan.now from w made.now.routing →
        ReadAsShapes net.now.files net.now.tracked question.now plan.now from w made.now.slots →
        HasShapes net.now.tracked real
        (shape_world_from net.now.files net.now.tracked question.now plan.now w.variable from) →
        at w r ≡ are_wanted net.now.files question.now.packets.dst
        (shape_world_from net.now.files net.now.tracked question.now plan.now w.variable from) real
        made.now.routing.frame.places (opens_from net.now.files net.now.tracked question.now plan.now w.variable
        from)) }
{
    let limits = limits_of(alloc, net, question.failures, sought(alloc, net, question)?)?;
    let tables = tables_of(net, made);
    let world = WorldTables {
        net,
        question,
        plan,
        made,
        tables: &tables,
        limits: &limits,
    };
    let all = sym_each_wanted(alloc, terms, &world)?;
    let following = sym_all_following(alloc, terms, &world)?;
    both(terms, all, following)
}
