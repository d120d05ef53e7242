//! Whether a route of an ask goes out, as terms over the variables of its question.

ghost use Rattle.std.specs.Prelude.{◌≡◌, IfOk};
ghost use Rattle.routing_encoder.specs.Encoded.{StandsForWorld};
ghost use Rattle.routing_encoder.specs.Opened.{routing_width};
ghost use Rattle.term_store.specs.Reading.{Reads};
ghost use Rattle.term_store.specs.Terms.{Reading};
ghost use Rattle.ask_search.specs.Encoded.{HasWorld, IsExportTerm};
ghost use Rattle.ask_search.specs.Exporting.{question_of};

use crate::encoding::AskTerms;
use crate::terms::sym_exported;
use bgp_equations::SymEnv;
use export_asks::Ask;
use net_model::Net;
use plan_places::single_plan;
use question_lang::Question;
use route_record::Plan;
use routing_encoder::{OpenWorld, open_world};
use std::alloc::{AllocError, Global};
use sym_walk::SymWorld;
use term_store::Terms;

// A world of terms and what comes from outside, with the store of their nodes.
#[derive(Drop)]
struct OwnWorld {
    terms: Terms,
    world: SymWorld,
    env: SymEnv,
}

// A routing as a world of terms.
fn settled(terms: Terms, made: OpenWorld, plan: Plan) -> OwnWorld
    ensures terms { result.terms ≡ terms }
    ensures packet { result.world.packet ≡ made.routing.packet }
    ensures net { result.world.net ≡ made.routing.net }
    ensures slots { result.world.slots ≡ made.slots }
    ensures plan { result.world.plan ≡ plan }
    ensures env { result.env ≡ made.routing.env }
{
    let routing = made.routing;
    OwnWorld {
        terms,
        world: SymWorld {
            packet: routing.packet,
            net: routing.net,
            slots: made.slots,
            plan,
        },
        env: routing.env,
    }
}

// The world of the variables of a question, from the first on.
fn own_world(
    alloc: Global,
    net: &Net,
    question: &Question,
    plan: Plan,
) -> Result<OwnWorld, AllocError>
    ensures vars { IfOk result (λ o. o.terms.vars ≡ routing_width net.now.files net.now.tracked question.now plan) }
    ensures world { IfOk result (λ o. HasWorld net.now.files net.now.tracked o.terms o.world) }
    ensures plan { IfOk result (λ o. o.world.plan ≡ plan) }
    ensures stands { IfOk result (λ o. (w : Reading) → Reads w o.terms →
        StandsForWorld net.now.files net.now.tracked question.now plan 0 w o.world o.env) }
{
    let mut terms = Terms::new(alloc);
    let made = open_world(alloc, &mut terms, net, question, &plan)?;
    Ok(settled(terms, made, plan))
}

/// Whether a route of the ask goes out at some prefix length, over the variables of its question with slices at all of them.
pub fn export_term(
    alloc: Global,
    net: &Net,
    ask: &Ask,
    question: &Question,
) -> Result<AskTerms, AllocError>
    requires { question.now ≡ question_of ask.now }
    ensures { IfOk result (IsExportTerm net.now.files net.now.tracked ask.now) }
{
    let plan = single_plan(alloc)?;
    let own = own_world(alloc, net, question, plan)?;
    let mut terms = own.terms;
    let _tracked = net.tracked();
    let root = sym_exported(alloc, &mut terms, net, ask, &own.world)?;
    Ok(AskTerms { terms, root })
}
