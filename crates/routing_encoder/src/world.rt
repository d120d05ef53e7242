//! A routing of a question's variables with the slots that follow.

ghost use Rattle.std.specs.Prelude.{◌≡◌, ◌+◌, ◌≤◌, IfOk, OnOk, length};
ghost use Rattle.sym_rib.specs.Worlds.{slots_end};
ghost use Rattle.bgp_equations.specs.Equations.{HaveTracked};
ghost use Rattle.routing_encoder.specs.Opened.{ReadsAs, StandsIn, routing_width};
ghost use Rattle.routing_encoder.specs.Shapes.{ReadAsShapes};
ghost use Rattle.term_store.specs.Reading.{Grows, Gives};
ghost use Rattle.term_store.specs.Terms.{size};

use crate::opening::{OpenRouting, open_routing};
use crate::slots::{Towards, slots};
use mw_text::List;
use net_model::Net;
use question_lang::Question;
use route_record::Plan;
use std::alloc::{AllocError, Global};
use sym_rib::SymSlot;
use term_store::Terms;

/// A routing as terms: what is open of it, and the slots at the places of its plan.
#[derive(Drop)]
pub struct OpenWorld {
    pub routing: OpenRouting,
    pub slots: List<SymSlot>,
}

/// The routing of a question's variables over a plan, which are new, with its slots: they read as those of the world by
/// shapes that these variables stand for.
#[tactic(auto, using(failed_links::proofs::Steps::grows_built, failed_links::proofs::Steps::grows_grown, crate::proofs::WorldSteps::stands_ready, crate::proofs::WorldSteps::stands_grown))]
pub fn open_world(
    alloc: Global,
    terms: &mut Terms,
    net: &Net,
    question: &Question,
    plan: &Plan,
) -> Result<OpenWorld, AllocError>
    ensures grows { Grows terms.old terms.new }
    ensures stands { IfOk result (λ r.
        StandsIn net.now.files net.now.tracked question.now plan.now terms.new r.routing) }
    ensures within { IfOk result (λ r. slots_end r.slots ≤ size terms.new) }
    ensures rows { IfOk result (λ r. HaveTracked net.now.tracked r.slots) }
    ensures long { IfOk result (λ r. length r.slots ≡ length r.routing.frame.places) }
    ensures vars { OnOk result (terms.new.vars
        ≡ terms.old.vars + routing_width net.now.files net.now.tracked question.now plan.now) }
    ensures value { Gives terms.new result (λ w r.
        ReadsAs net.now.files net.now.tracked question.now plan.now terms.old.vars w r.routing) }
    ensures shapes { Gives terms.new result (λ w r.
        ReadAsShapes net.now.files net.now.tracked question.now plan.now terms.old.vars w r.slots) }
{
    let routing = open_routing(alloc, terms, net, question, plan)?;
    let parts = routing.parts.as_slice();
    let routes = routing.routes.as_slice();
    let towards = Towards {
        net,
        sym: &routing.net,
        dst: &routing.packet.dst,
    };
    let slots = slots(
        alloc,
        terms,
        &towards,
        question,
        &routing.frame,
        plan,
        parts,
        routes,
    )?;
    Ok(OpenWorld { routing, slots })
}
