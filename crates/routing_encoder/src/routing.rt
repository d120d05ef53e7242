//! Whether the values of a question's variables are a routing of it, as a term.

ghost use Rattle.std.specs.Prelude.{◌≡◌, ℕ, ◌≤◌, ◌<◌, ◌&&◌, nat_le, IfOk, length, true};
ghost use Rattle.route_record.specs.declared.Tables.{Tables as TablesOf};
ghost use Rattle.sym_rib.specs.Worlds.{slots_end};
ghost use Rattle.sym_ospf.specs.Rows.{HasDistances};
ghost use Rattle.bgp_equations.specs.Equations.{DistancesForSessions, HaveTracked};
ghost use Rattle.igp_variables.specs.Rows.{runs_bgp};
ghost use Rattle.shape_worlds.specs.Worlds.{may_be_announced};
ghost use Rattle.world_variables.specs.Packets.{is_in_set, packet_from};
ghost use Rattle.routing_worlds.specs.Worlds.{HasWordNetwork, announced_by, failures_read_from, is_routing, opens_from, shape_world_from};
ghost use Rattle.routing_encoder.specs.Decided.{are_decided};
ghost use Rattle.routing_encoder.specs.Opened.{ReadsAs, StandsIn};
ghost use Rattle.routing_encoder.specs.Shapes.{ReadAsShapes};
ghost use Rattle.routing_encoder.specs.Wanted.{HasShapes, are_wanted};
ghost use Rattle.term_store.specs.Terms.{at, size};
ghost use Rattle.term_store.specs.Reading.{Builds, Gives};

use crate::announced::sym_all_announced;
use crate::asked::sym_asked;
use crate::decided::sym_all_decided;
use crate::wanted::sym_all_wanted;
use crate::world::OpenWorld;
use igp_variables::sym_distances;
use net_model::Net;
use question_lang::Question;
use route_record::Plan;
use routing_worlds::read_words;
use std::alloc::{AllocError, Global};
use term_arith::gates::both;
use term_store::{NodeId, Terms};

// Whether the peers may announce what they do, and the routers hold the BGP routes that are left them.
fn sym_bgp_half(
    alloc: Global,
    terms: &mut Terms,
    net: &Net,
    question: &Question,
    plan: &Plan,
    made: &OpenWorld,
) -> Result<NodeId, AllocError>
    requires stands { StandsIn net.now.files net.now.tracked question.now plan.now terms.old made.now.routing }
    requires within { slots_end made.now.slots ≤ size terms.old }
    requires rows { HaveTracked net.now.tracked made.now.slots }
    requires long { length made.now.slots ≡ length made.now.routing.frame.places }
    ensures builds { Builds terms.old terms.new }
    ensures within { IfOk result (λ r. r.0 < size terms.new) }
    ensures value { Gives terms.new result (λ w r. (from : ℕ) →
        ReadsAs net.now.files net.now.tracked question.now plan.now from w made.now.routing →
        ReadAsShapes net.now.files net.now.tracked question.now plan.now from w made.now.slots →
        DistancesForSessions w net.now.files made.now.routing.net →
        at w r ≡ (may_be_announced net.now.files net.now.tracked
        (announced_by net.now.files net.now.tracked question.now plan.now w.variable from)
        && are_decided net.now.tracked net.now.files question.now.packets.dst
        (shape_world_from net.now.files net.now.tracked question.now plan.now w.variable from)
        made.now.routing.frame.places)) }
{
    read_words(net.tracked().communities.as_slice());
    let announced = sym_all_announced(alloc, terms, net, question, plan, &made.routing)?;
    let decided = sym_all_decided(alloc, terms, net, question, plan, made)?;
    let bgp = both(terms, announced, decided)?;
    Ok(bgp)
}

// Whether the packet is in its set, few links fail, and tables of these shapes want what is open of OSPF.
fn sym_igp_half(
    alloc: Global,
    terms: &mut Terms,
    net: &Net,
    question: &Question,
    plan: &Plan,
    made: &OpenWorld,
) -> Result<NodeId, AllocError>
    requires stands { StandsIn net.now.files net.now.tracked question.now plan.now terms.old made.now.routing }
    requires within { slots_end made.now.slots ≤ size terms.old }
    requires rows { HaveTracked net.now.tracked made.now.slots }
    requires long { length made.now.slots ≡ length made.now.routing.frame.places }
    ensures builds { Builds terms.old terms.new }
    ensures within { IfOk result (λ r. r.0 < size terms.new) }
    ensures value { Gives terms.new result (λ w r. (from : ℕ) (real : TablesOf) →
        ReadsAs net.now.files net.now.tracked question.now plan.now from w made.now.routing →
        ReadAsShapes net.now.files net.now.tracked question.now plan.now from w made.now.slots →
        HasShapes net.now.tracked real
        (shape_world_from net.now.files net.now.tracked question.now plan.now w.variable from) →
        at w r ≡ ((is_in_set question.now.packets (packet_from question.now.packets w.variable from)
        && nat_le (length (failures_read_from net.now.files question.now w.variable from).links) question.now.failures)
        && are_wanted net.now.files question.now.packets.dst
        (shape_world_from net.now.files net.now.tracked question.now plan.now w.variable from) real
        made.now.routing.frame.places
        (opens_from net.now.files net.now.tracked question.now plan.now w.variable from))) }
{
    let asked = sym_asked(alloc, terms, net, question, plan, &made.routing)?;
    let wanted = sym_all_wanted(alloc, terms, net, question, plan, made)?;
    let igp = both(terms, asked, wanted)?;
    Ok(igp)
}

/// Whether the values of a question's variables are a routing of it, and those of the interior distances are these.
#[tactic(auto, using(crate::proofs::WorldSteps::stands_grown, crate::proofs::RootSteps::net_stands))]
pub fn sym_routing(
    alloc: Global,
    terms: &mut Terms,
    net: &Net,
    question: &Question,
    plan: &Plan,
    made: &OpenWorld,
) -> Result<NodeId, AllocError>
    requires stands { StandsIn net.now.files net.now.tracked question.now plan.now terms.old made.now.routing }
    requires within { slots_end made.now.slots ≤ size terms.old }
    requires rows { HaveTracked net.now.tracked made.now.slots }
    requires long { length made.now.slots ≡ length made.now.routing.frame.places }
    ensures builds { Builds terms.old terms.new }
    ensures within { IfOk result (λ r. r.0 < size terms.new) }
    ensures distances { Gives terms.new result (λ w r. at w r ≡ true → runs_bgp net.now.files ≡ true →
        HasDistances w net.now.files made.now.routing.net) }
    ensures sound { Gives terms.new result (λ w r. (from : ℕ) →
        ReadsAs net.now.files net.now.tracked question.now plan.now from w made.now.routing →
        ReadAsShapes net.now.files net.now.tracked question.now plan.now from w made.now.slots →
        HasWordNetwork net.now.files net.now.tracked question.now → at w r ≡ true →
        is_routing net.now.files net.now.tracked question.now plan.now w.variable from ≡ true) }
    ensures complete { Gives terms.new result (λ w r. (from : ℕ) →
        ReadsAs net.now.files net.now.tracked question.now plan.now from w made.now.routing →
        ReadAsShapes net.now.files net.now.tracked question.now plan.now from w made.now.slots →
        HasWordNetwork net.now.files net.now.tracked question.now →
        is_routing net.now.files net.now.tracked question.now plan.now w.variable from ≡ true →
        (runs_bgp net.now.files ≡ true → HasDistances w net.now.files made.now.routing.net) → at w r ≡ true) }
{
    let distances = sym_distances(alloc, terms, net, &made.routing.net)?;
    let bgp = sym_bgp_half(alloc, terms, net, question, plan, made)?;
    let igp = sym_igp_half(alloc, terms, net, question, plan, made)?;
    let halves = both(terms, bgp, igp)?;
    let routing = both(terms, distances, halves)?;
    Ok(routing)
}
