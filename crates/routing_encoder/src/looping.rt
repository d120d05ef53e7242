//! Whether a world of terms breaks a question. Where only a loop breaks it, some table entry beside connected subnets and
//! OSPF is asked for too: over these alone no packet loops in a stable routing.

ghost use Rattle.std.specs.Prelude.{◌≡◌, ℕ, ◌≤◌, ◌<◌, IfOk, List as ListOf, Option as OptionOf, length, true, false};
ghost use Rattle.std.specs.List.{list_all};
ghost use Rattle.route_record.specs.declared.Environment.{Environment as EnvironmentOf};
ghost use Rattle.route_record.specs.declared.World.{World as WorldOf};
ghost use Rattle.route_record.specs.declared.tracked.Tracked.{Tracked as TrackedOf};
ghost use Rattle.net_parts.specs.Stable.{Stable};
ghost use Rattle.plan_places.specs.Plans.{lens_of};
ghost use Rattle.question_lang.specs.declared.walk.Walk.{Walk as WalkOf};
ghost use Rattle.question_lang.specs.Breaking.{Breaks};
ghost use Rattle.sym_rib.specs.Slots.{rib_end, rib_of};
ghost use Rattle.sym_rib.specs.Worlds.{StandForTables, slots_end};
ghost use Rattle.sym_walk.specs.Distances.{DistancesWhereNeeded};
ghost use Rattle.sym_walk.specs.Whole.{HasSlots, whole_end, whole_of};
ghost use Rattle.loop_free_walks.specs.Entries.{is_plain};
ghost use Rattle.routing_encoder.specs.Looping.{is_interior_entry, is_interior_read, only_loops};
ghost use Rattle.term_store.specs.Terms.{at, size};
ghost use Rattle.term_store.specs.Reading.{Builds, Gives};

use crate::ending::sym_walking;
use ios_ast::File;
use loop_free_walks::laws::{interior_law, loop_free_law};
use net_model::Net;
use question_lang::{Kind, Question};
use std::alloc::{AllocError, Global};
use sym_rib::{SymRib, SymSlot};
use sym_walk::SymWorld;
use term_arith::equal_number;
use term_arith::gates::{both, constant_node, either, implies, is_never, negate};
use term_store::{NodeId, Terms};

// Whether an entry is of a connected subnet or of OSPF, or there is none.
#[tactic(auto, using(crate::proofs::LoopingSteps::interior_is))]
fn sym_interior(terms: &mut Terms, entry: &SymRib) -> Result<NodeId, AllocError>
    requires nodes { rib_end entry.now ≤ size terms.old }
    ensures builds { Builds terms.old terms.new }
    ensures within { IfOk result (λ r. r.0 < size terms.new) }
    ensures value { Gives terms.new result (λ w r. at w r ≡ is_interior_entry (rib_of w entry.now)) }
{
    let connected = equal_number(terms, entry.source.nodes.as_slice(), 0)?;
    let ospf = equal_number(terms, entry.source.nodes.as_slice(), 3)?;
    let interior = either(terms, connected, ospf)?;
    implies(terms, entry.valid, interior)
}

// Whether the entries of all slots are.
#[tactic(auto, using(crate::proofs::LoopingSteps::slots_steps))]
fn sym_all_interior(terms: &mut Terms, slots: &[SymSlot]) -> Result<NodeId, AllocError>
    requires slots { slots_end slots.now ≤ size terms.old }
    ensures builds { Builds terms.old terms.new }
    ensures within { IfOk result (λ r. r.0 < size terms.new) }
    ensures value { Gives terms.new result (λ w r. at w r ≡ list_all (is_interior_read w) slots.now) }
{
    let mut all = constant_node(terms, true)?;
    for slot in slots {
        let here = sym_interior(terms, &slot.rib)?;
        all = both(terms, all, here)?;
    }
    Ok(all)
}

// Whether a question about so many routers is broken by loops alone: it asks for none, or for at least as many hops as a
// walk has that comes to each router once.
fn is_of_loops(kind: &Kind, routers: usize) -> bool
    ensures { result ≡ only_loops kind.now routers }
{
    match kind {
        Kind::NoLoop(_) => true,
        Kind::Within(most, _) => routers <= *most as usize + 1,
        _ => false,
    }
}

// Whether a file has neither static routes nor a BGP process.
fn is_plain_file(file: &File) -> bool
    ensures { result ≡ is_plain file.now }
{
    file.statics.items.is_empty() && file.bgp.is_none()
}

// Whether no file has any.
fn are_plain(files: &[File]) -> bool
    ensures { result ≡ list_all is_plain files.now }
{
    files.iter().all(|file| is_plain_file(file))
}

/// True where a stable routing breaks the question: where only a loop does, whether some entry is of another source, which
/// none can be where no file has static routes and none runs BGP.
pub(crate) fn sym_beyond(
    terms: &mut Terms,
    net: &Net,
    question: &Question,
    slots: &[SymSlot],
) -> Result<NodeId, AllocError>
    requires slots { slots_end slots.now ≤ size terms.old }
    ensures builds { Builds terms.old terms.new }
    ensures within { IfOk result (λ r. r.0 < size terms.new) }
    ensures value { Gives terms.new result (λ w r. (tracked : TrackedOf) (lens : ListOf ℕ) (real : WorldOf)
        (environment : EnvironmentOf) (walk : OptionOf WalkOf) →
        StandForTables w tracked lens (length net.now.files) slots.now real.tables →
        Stable net.now.files real.packet.dst real.failures environment real.tables →
        Breaks net.now.files real question.now.kind walk → at w r ≡ true) }
{
    let routers = net.routers();
    if !is_of_loops(&question.kind, routers.len()) {
        return constant_node(terms, true);
    }
    loop_free_law();
    if are_plain(routers) {
        interior_law();
        return constant_node(terms, false);
    }
    let interior = sym_all_interior(terms, slots)?;
    negate(terms, interior)
}

/// Whether a walk of the packet breaks the question in the world that the records stand for, and, where only a loop does,
/// whether some entry of its tables is neither of a connected subnet nor of OSPF. In a stable routing that the question's
/// walk breaks both are so.
pub(crate) fn sym_breaking(
    alloc: Global,
    terms: &mut Terms,
    net: &Net,
    question: &Question,
    world: &SymWorld,
) -> Result<NodeId, AllocError>
    requires slots { HasSlots net.now.files world.now }
    requires nodes { whole_end world.now ≤ size terms.old }
    ensures builds { Builds terms.old terms.new }
    ensures within { IfOk result (λ r. r.0 < size terms.new) }
    ensures sound { Gives terms.new result (λ w r. DistancesWhereNeeded w net.now.files world.now.net world.now.slots →
        at w r ≡ true →
        (walk : OptionOf WalkOf) × Breaks net.now.files (whole_of w net.now.files world.now) question.now.kind walk) }
    ensures complete { Gives terms.new result (λ w r. DistancesWhereNeeded w net.now.files world.now.net world.now.slots →
        (walk : OptionOf WalkOf) →
        Breaks net.now.files (whole_of w net.now.files world.now) question.now.kind walk →
        (tracked : TrackedOf) (real : WorldOf) (environment : EnvironmentOf) →
        StandForTables w tracked (lens_of world.now.plan) (length net.now.files) world.now.slots real.tables →
        Stable net.now.files real.packet.dst real.failures environment real.tables →
        Breaks net.now.files real question.now.kind walk → at w r ≡ true) }
{
    let beyond = sym_beyond(terms, net, question, world.slots.as_slice())?;
    if is_never(terms, beyond) {
        return Ok(beyond);
    }
    let broken = sym_walking(alloc, terms, net, question, world)?;
    both(terms, broken, beyond)
}
