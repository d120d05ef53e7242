//! Whether values are a routing that may break the question: where none can, no terms of the routing are made.

ghost use Rattle.std.specs.Prelude.{◌≡◌, ℕ, ◌≤◌, ◌<◌, IfOk, List as ListOf, Option as OptionOf, length, true};
ghost use Rattle.route_record.specs.declared.Environment.{Environment as EnvironmentOf};
ghost use Rattle.route_record.specs.declared.World.{World as WorldOf};
ghost use Rattle.route_record.specs.declared.tracked.Tracked.{Tracked as TrackedOf};
ghost use Rattle.net_parts.specs.Stable.{Stable};
ghost use Rattle.question_lang.specs.declared.walk.Walk.{Walk as WalkOf};
ghost use Rattle.question_lang.specs.Breaking.{Breaks};
ghost use Rattle.sym_ospf.specs.Rows.{HasDistances};
ghost use Rattle.sym_rib.specs.Worlds.{StandForTables, slots_end};
ghost use Rattle.bgp_equations.specs.Equations.{HaveTracked};
ghost use Rattle.igp_variables.specs.Rows.{runs_bgp};
ghost use Rattle.routing_worlds.specs.Worlds.{HasWordNetwork, is_routing};
ghost use Rattle.routing_encoder.specs.Opened.{ReadsAs, StandsIn};
ghost use Rattle.routing_encoder.specs.Shapes.{ReadAsShapes};
ghost use Rattle.term_store.specs.Terms.{at, size};
ghost use Rattle.term_store.specs.Reading.{Builds, Gives};

use crate::looping::sym_beyond;
use crate::routing::sym_routing;
use crate::world::OpenWorld;
use net_model::Net;
use question_lang::Question;
use route_record::Plan;
use std::alloc::{AllocError, Global};
use term_arith::gates::is_never;
use term_store::{NodeId, Terms};

/// Whether the values of a question's variables are a routing of it, and those of the interior distances are these, as
/// `sym_routing` says; the constant false where no stable routing breaks the question.
pub(crate) fn sym_possible(
    alloc: Global,
    terms: &mut Terms,
    net: &Net,
    question: &Question,
    plan: &Plan,
    made: &OpenWorld,
) -> Result<NodeId, AllocError>
    requires stands { StandsIn net.now.files net.now.tracked question.now plan.now terms.old made.now.routing }
    requires within { slots_end made.now.slots ≤ size terms.old }
    requires rows { HaveTracked net.now.tracked made.now.slots }
    requires long { length made.now.slots ≡ length made.now.routing.frame.places }
    ensures builds { Builds terms.old terms.new }
    ensures within { IfOk result (λ r. r.0 < size terms.new) }
    ensures distances { Gives terms.new result (λ w r. at w r ≡ true → runs_bgp net.now.files ≡ true →
        HasDistances w net.now.files made.now.routing.net) }
    ensures sound { Gives terms.new result (λ w r. (from : ℕ) →
        ReadsAs net.now.files net.now.tracked question.now plan.now from w made.now.routing →
        ReadAsShapes net.now.files net.now.tracked question.now plan.now from w made.now.slots →
        HasWordNetwork net.now.files net.now.tracked question.now → at w r ≡ true →
        is_routing net.now.files net.now.tracked question.now plan.now w.variable from ≡ true) }
    ensures complete { Gives terms.new result (λ w r. (from : ℕ) →
        ReadsAs net.now.files net.now.tracked question.now plan.now from w made.now.routing →
        ReadAsShapes net.now.files net.now.tracked question.now plan.now from w made.now.slots →
        HasWordNetwork net.now.files net.now.tracked question.now →
        is_routing net.now.files net.now.tracked question.now plan.now w.variable from ≡ true →
        (runs_bgp net.now.files ≡ true → HasDistances w net.now.files made.now.routing.net) →
        (tracked : TrackedOf) (lens : ListOf ℕ) (real : WorldOf) (environment : EnvironmentOf) (walk : OptionOf WalkOf) →
        StandForTables w tracked lens (length net.now.files) made.now.slots real.tables →
        Stable net.now.files real.packet.dst real.failures environment real.tables →
        Breaks net.now.files real question.now.kind walk → at w r ≡ true) }
{
    let beyond = sym_beyond(terms, net, question, made.slots.as_slice())?;
    if is_never(terms, beyond) {
        return Ok(beyond);
    }
    let routing = sym_routing(alloc, terms, net, question, plan, made)?;
    Ok(routing)
}
