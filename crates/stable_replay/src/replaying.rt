//! Whether a counterexample is true of its tables and its walk.

ghost use Rattle.std.specs.Prelude.{◌≡◌, ◌≢◌, ◌*◌, IfErr, IfOk, true, false, length};
ghost use Rattle.std.specs.Option.{option_copied};
ghost use Rattle.question_lang.specs.Breaking.{Breaks};
ghost use Rattle.cex_json.specs.Counterexamples.{world_of};
ghost use Rattle.stable_replay.specs.Replayed as replayed;

use crate::checking::check;
use crate::differs::ReplayNo;
use cex_json::Counterexample;
use mw_text::List;
use net_model::Net;
use policy_eval::{copy_list, copy_route};
use question_lang::{Question, Walk};
use route_record::{BgpRec, Failures, LENGTHS, Slot, Tables, World};
use std::alloc::{AllocError, Global};
use walk_def::{asks_no_stable, breaks, is_walk};

fn copy_held(alloc: Global, held: &Option<BgpRec>) -> Result<Option<BgpRec>, AllocError>
    ensures { IfOk result (λ made. made ≡ held.now) }
{
    match held {
        None => Ok(None),
        Some(rec) => Ok(Some(copy_route(alloc, rec)?)),
    }
}

fn copy_slot(alloc: Global, slot: &Slot) -> Result<Slot, AllocError>
    ensures { IfOk result (λ made. made ≡ slot.now) }
{
    let bgp = copy_held(alloc, &slot.bgp)?;
    Ok(Slot {
        ospf: slot.ospf,
        bgp,
        rib: slot.rib,
    })
}

fn copy_slots(alloc: Global, slots: &[Slot]) -> Result<List<Slot>, AllocError>
    ensures { IfOk result (λ made. made ≡ slots.now) }
{
    let mut made = List::new(alloc);
    for slot in slots {
        made.items.push(copy_slot(alloc, slot)?)?;
    }
    Ok(made)
}

// The world of a counterexample.
fn world_of(alloc: Global, cex: &Counterexample) -> Result<World, AllocError>
    ensures { IfOk result (λ world. world ≡ world_of cex.now) }
{
    let links = copy_list(alloc, &cex.failures.links)?;
    let slots = copy_slots(alloc, cex.tables.slots.as_slice())?;
    Ok(World {
        failures: Failures { links },
        packet: cex.packet,
        tables: Tables { slots },
    })
}

// Whether the walk, where there is one, is a walk of the packet; without one, whether the question speaks of none.
fn has_walk(
    alloc: Global,
    net: &Net,
    question: &Question,
    world: &World,
    walk: &Option<Walk>,
) -> Result<bool, AllocError>
    ensures yes { IfOk result (λ yes. yes ≡ true → replayed.IsNoWalkIn net.now.files question.now world.now walk.now → ⊥) }
    ensures no { IfOk result (λ yes. yes ≡ false → replayed.IsNoWalkIn net.now.files question.now world.now walk.now) }
{
    match walk {
        None => Ok(asks_no_stable(&question.kind)),
        Some(walk) => is_walk(alloc, net, world, walk),
    }
}

// Whether the world breaks the question by its walk, or without one.
fn breaks_so(
    alloc: Global,
    net: &Net,
    question: &Question,
    world: &World,
    walk: &Option<Walk>,
) -> Result<bool, AllocError>
    ensures yes { IfOk result (λ yes. yes ≡ true → Breaks net.now.files world.now question.now.kind walk.now) }
    ensures no { IfOk result (λ yes. yes ≡ false → Breaks net.now.files world.now question.now.kind walk.now → ⊥) }
{
    breaks(alloc, net, question, world, walk.as_ref())
}

impl From<AllocError> for ReplayNo {
    ghost use Rattle.stable_replay.specs.declared.differs.ReplayNo.TheVariants.{Memory};

    ghost from_gives = { λ _ why. why ≡ Memory };

    fn from(_error: AllocError) -> ReplayNo {
        ReplayNo::Memory
    }
}

/// Whether the tables of a counterexample are a stable routing for its packet's destination, its failures and its environment,
/// and its walk is a walk of its packet there that breaks the question; without a walk, whether the question asks for no
/// stable routing. That the packet, the failures and the environment are those that the question and the network allow is
/// what the reader of counterexamples has tested. The first of these that fails is answered.
pub fn replay(
    alloc: Global,
    net: &Net,
    question: &Question,
    cex: &Counterexample,
) -> Result<(), ReplayNo>
    requires size { length cex.now.tables.slots ≡ LENGTHS * length net.now.files }
    ensures ok { IfOk result (λ _. replayed.IsReplayed net.now.files question.now cex.now) }
    ensures refused { IfErr result (replayed.IsRefusedSo net.now.files question.now cex.now) }
    ensures untrue { IfErr result (λ why. why ≢ ReplayNo.Memory → replayed.IsReplayed net.now.files question.now cex.now → ⊥) }
{
    check(
        alloc,
        net,
        cex.packet.dst,
        &cex.failures,
        &cex.env,
        &cex.tables,
    )?;
    let world = world_of(alloc, cex)?;
    if !has_walk(alloc, net, question, &world, &cex.walk)? {
        return Err(ReplayNo::NotWalk);
    }
    if !breaks_so(alloc, net, question, &world, &cex.walk)? {
        return Err(ReplayNo::NotBreak);
    }
    Ok(())
}
