//! A question about a network as a formula: its solutions are the routings that break the question.

ghost use Rattle.std.specs.Prelude.{◌≡◌, ℕ, ◌≤◌, ◌<◌, ◌+◌, IfOk, length, true};
ghost use Rattle.sym_rib.specs.Worlds.{slots_end};
ghost use Rattle.sym_walk.specs.Distances.{DistancesWhereNeeded};
ghost use Rattle.bgp_equations.specs.Equations.{HaveTracked};
ghost use Rattle.routing_encoder.specs.Encoded.{HasEnvironment, HasWorld, IsEncoding, IsRoot, StandsForWorld};
ghost use Rattle.routing_encoder.specs.Opened.{ReadsAs, StandsIn, routing_width};
ghost use Rattle.routing_encoder.specs.Shapes.{ReadAsShapes};
ghost use Rattle.term_store.specs.Terms.{Reading, at, size};
ghost use Rattle.term_store.specs.Reading.{Builds, Gives, Reads};

use crate::looping::sym_breaking;
use crate::possible::sym_possible;
use crate::world::{OpenWorld, open_world};
use bgp_equations::SymEnv;
use igp_variables::laws::rows_law;
use mw_text::List;
use net_model::Net;
use question_lang::Question;
use route_record::Plan;
use routing_worlds::laws::{complete_law, sound_law};
use routing_worlds::read_network;
use slot_places::rooms_of;
use std::alloc::{AllocError, Global};
use sym_walk::SymWorld;
use sym_walk::laws::tables_law;
use term_arith::gates::both;
use term_store::{NodeId, Terms};
use world_variables::laws::row_law;

/// A formula: terms and the root among them that is true exactly of the routings that break the question, with the world
/// and the environment whose variables they are.
#[derive(Drop)]
pub struct Encoding {
    pub terms: Terms,
    pub root: NodeId,
    pub world: SymWorld,
    pub env: SymEnv,
}

// A plan of the same lengths.
fn copied(alloc: Global, plan: &Plan) -> Result<Plan, AllocError>
    ensures { IfOk result (λ p. p ≡ plan.now) }
{
    let class = Vec::from_slice(alloc, plan.class.as_slice())?;
    let slices = Vec::from_slice(alloc, plan.slices.as_slice())?;
    Ok(Plan {
        class: List { items: class },
        slices: List { items: slices },
    })
}

// What the variables of a question stand for.
#[derive(Drop)]
struct Opened {
    world: SymWorld,
    env: SymEnv,
}

// A routing as a world of terms and what comes from outside.
fn settled(made: OpenWorld, plan: Plan) -> Opened
    ensures packet { result.world.packet ≡ made.routing.packet }
    ensures net { result.world.net ≡ made.routing.net }
    ensures slots { result.world.slots ≡ made.slots }
    ensures plan { result.world.plan ≡ plan }
    ensures env { result.env ≡ made.routing.env }
{
    let routing = made.routing;
    Opened {
        world: SymWorld {
            packet: routing.packet,
            net: routing.net,
            slots: made.slots,
            plan,
        },
        env: routing.env,
    }
}

// The root, with the world and the environment whose variables it has.
#[derive(Drop)]
struct Rooted {
    root: NodeId,
    world: SymWorld,
    env: SymEnv,
}

// Whether the values of a question's variables are a routing of it that breaks it.
fn root_of(
    alloc: Global,
    terms: &mut Terms,
    net: &Net,
    question: &Question,
    plan: Plan,
    made: OpenWorld,
) -> Result<Rooted, AllocError>
    requires stands { StandsIn net.now.files net.now.tracked question.now plan terms.old made.routing }
    requires within { slots_end made.slots ≤ size terms.old }
    requires rows { HaveTracked net.now.tracked made.slots }
    requires long { length made.slots ≡ length made.routing.frame.places }
    ensures builds { Builds terms.old terms.new }
    ensures within { IfOk result (λ r. r.root.0 < size terms.new) }
    ensures stands { IfOk result (λ r. HasWorld net.now.files net.now.tracked terms.new r.world) }
    ensures outside { IfOk result (λ r. HasEnvironment net.now.files net.now.tracked plan terms.new r.env) }
    ensures plan { IfOk result (λ r. r.world.plan ≡ plan) }
    ensures world { Gives terms.new result (λ w r. (from : ℕ) →
        ReadsAs net.now.files net.now.tracked question.now plan from w made.routing →
        ReadAsShapes net.now.files net.now.tracked question.now plan from w made.slots →
        StandsForWorld net.now.files net.now.tracked question.now plan from w r.world r.env) }
    ensures distances { Gives terms.new result (λ w r. (from : ℕ) →
        ReadsAs net.now.files net.now.tracked question.now plan from w made.routing →
        ReadAsShapes net.now.files net.now.tracked question.now plan from w made.slots → at w r.root ≡ true →
        DistancesWhereNeeded w net.now.files r.world.net r.world.slots) }
    ensures value { Gives terms.new result (λ w r. (from : ℕ) →
        ReadsAs net.now.files net.now.tracked question.now plan from w made.routing →
        ReadAsShapes net.now.files net.now.tracked question.now plan from w made.slots →
        IsRoot net.now.files net.now.tracked question.now plan from w r.root) }
{
    let routing = sym_possible(alloc, terms, net, question, &plan, &made)?;
    let opened = settled(made, plan);
    let broken = sym_breaking(alloc, terms, net, question, &opened.world)?;
    let root = both(terms, routing, broken)?;
    tables_law();
    Ok(Rooted {
        root,
        world: opened.world,
        env: opened.env,
    })
}

// The variables of a question are new, and the root says whether their values are a routing that breaks it.
fn root_over_new(
    alloc: Global,
    terms: &mut Terms,
    net: &Net,
    question: &Question,
    plan: Plan,
) -> Result<Rooted, AllocError>
    ensures root { IfOk result (λ r. r.root.0 < size terms.new) }
    ensures stands { IfOk result (λ r. HasWorld net.now.files net.now.tracked terms.new r.world) }
    ensures outside { IfOk result (λ r. HasEnvironment net.now.files net.now.tracked plan terms.new r.env) }
    ensures plan { IfOk result (λ r. r.world.plan ≡ plan) }
    ensures vars { IfOk result (λ r. terms.new.vars
        ≡ terms.old.vars + routing_width net.now.files net.now.tracked question.now plan) }
    ensures world { Gives terms.new result (λ w r.
        StandsForWorld net.now.files net.now.tracked question.now plan terms.old.vars w r.world r.env) }
    ensures distances { Gives terms.new result (λ w r. at w r.root ≡ true →
        DistancesWhereNeeded w net.now.files r.world.net r.world.slots) }
    ensures value { Gives terms.new result (λ w r.
        IsRoot net.now.files net.now.tracked question.now plan terms.old.vars w r.root) }
{
    let made = open_world(alloc, terms, net, question, &plan)?;
    root_of(alloc, terms, net, question, plan, made)
}

/// A question about a network as a formula, over the places of a plan. For every plan that fits the network the root is
/// true under exactly those values of the variables whose world and environment are a stable routing that breaks the
/// question and stands at the slices of the plan alone: whatever values make it true, their world in their environment is
/// one; and where such a routing breaks the question its own bits make it true. The nodes of the world stand in the terms:
/// each router has a slot at each slice of the plan, whose BGP route has a node for each value that the network tracks; so
/// do those of the environment, which has an announcement of each external peer at each slice. Where the root is true, walks
/// read the interior distances of the network where they read any. Err is want of memory.
pub fn encode(
    alloc: Global,
    net: &Net,
    question: &Question,
    plan: &Plan,
) -> Result<Encoding, AllocError>
    ensures plan { IfOk result (λ e. e.world.plan ≡ plan.now) }
    ensures stands { IfOk result (λ e. HasWorld net.now.files net.now.tracked e.terms e.world) }
    ensures outside { IfOk result (λ e. HasEnvironment net.now.files net.now.tracked plan.now e.terms e.env) }
    ensures distances { IfOk result (λ e. (w : Reading) → Reads w e.terms → at w e.root ≡ true →
        DistancesWhereNeeded w net.now.files e.world.net e.world.slots) }
    ensures encoding { IfOk result (IsEncoding net.now.files net.now.tracked question.now) }
{
    let rooms = rooms_of(alloc, net, &question.packets.dst)?;
    read_network(net, question, rooms.as_slice());
    let lengths = copied(alloc, plan)?;
    let mut terms = Terms::new(alloc);
    let made = root_over_new(alloc, &mut terms, net, question, lengths)?;
    terms.valuation_reads();
    let _routers = net.routers();
    sound_law();
    complete_law();
    rows_law();
    row_law();
    Ok(Encoding {
        terms,
        root: made.root,
        world: made.world,
        env: made.env,
    })
}
