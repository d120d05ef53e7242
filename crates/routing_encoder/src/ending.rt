//! Whether a walk breaks a question, and whether some router may end one as the question asks. A walk that breaks a
//! question by its end has one, so this says no more than the walks do, but says it of the destination at once.

ghost use Rattle.std.specs.Prelude.{◌≡◌, ◌≤◌, ◌<◌, IfOk, Option as OptionOf, true};
ghost use Rattle.std.specs.List.{list_any};
ghost use Rattle.question_lang.specs.declared.walk.Walk.{Walk as WalkOf};
ghost use Rattle.question_lang.specs.Breaking.{Breaks};
ghost use Rattle.sym_forwarding.specs.Symbolic.{table_end};
ghost use Rattle.sym_walk.specs.Distances.{DistancesWhereNeeded};
ghost use Rattle.sym_walk.specs.Whole.{HasSlots, whole_end, whole_of};
ghost use Rattle.routing_encoder.specs.Ending.{may_end_read, wants_end};
ghost use Rattle.term_store.specs.Terms.{at, size};
ghost use Rattle.term_store.specs.Reading.{Builds, Gives};

use net_model::Net;
use question_lang::{Kind, Question};
use std::alloc::{AllocError, Global};
use sym_walk::{SymForwarding, SymWorld, sym_breaks, world_table};
use term_arith::gates::{both, constant_node, either};
use term_store::{NodeId, Terms};

// Whether what breaks a question of the kind is how a walk ends.
fn is_of_ends(kind: &Kind) -> bool
    ensures { result ≡ wants_end kind.now }
{
    match kind {
        Kind::Isolate(_, _) => true,
        Kind::Waypoint(_, _, _) => true,
        Kind::NoBlackHole(_) => true,
        Kind::Alike(_, _, _) => true,
        _ => false,
    }
}

// Whether a walk may end at one of the routers.
#[tactic(auto, using(crate::proofs::EndingSteps::table_steps))]
fn sym_some_end(terms: &mut Terms, table: &[SymForwarding]) -> Result<NodeId, AllocError>
    requires nodes { table_end table.now ≤ size terms.old }
    ensures builds { Builds terms.old terms.new }
    ensures within { IfOk result (λ r. r.0 < size terms.new) }
    ensures value { Gives terms.new result (λ w r. at w r ≡ list_any (may_end_read w) table.now) }
{
    let mut any = constant_node(terms, false)?;
    for forwarding in table {
        any = either(terms, any, forwarding.ends)?;
    }
    Ok(any)
}

// True where a walk breaks the question: whether, of a question that is of how walks end, some router may end one so.
fn sym_ending(
    alloc: Global,
    terms: &mut Terms,
    net: &Net,
    question: &Question,
    world: &SymWorld,
) -> Result<NodeId, AllocError>
    requires slots { HasSlots net.now.files world.now }
    requires nodes { whole_end world.now ≤ size terms.old }
    ensures builds { Builds terms.old terms.new }
    ensures within { IfOk result (λ r. r.0 < size terms.new) }
    ensures value { Gives terms.new result (λ w r. DistancesWhereNeeded w net.now.files world.now.net world.now.slots →
        (walk : OptionOf WalkOf) →
        Breaks net.now.files (whole_of w net.now.files world.now) question.now.kind walk → at w r ≡ true) }
{
    if !is_of_ends(&question.kind) {
        return constant_node(terms, true);
    }
    let table = world_table(alloc, terms, net, world, question.kind)?;
    sym_some_end(terms, table.as_slice())
}

/// Whether a walk of the packet breaks the question in the world that the records stand for: as `sym_breaks` says, and, of a
/// question that is of how walks end, that some router may end one so.
pub(crate) fn sym_walking(
    alloc: Global,
    terms: &mut Terms,
    net: &Net,
    question: &Question,
    world: &SymWorld,
) -> Result<NodeId, AllocError>
    requires slots { HasSlots net.now.files world.now }
    requires nodes { whole_end world.now ≤ size terms.old }
    ensures builds { Builds terms.old terms.new }
    ensures within { IfOk result (λ r. r.0 < size terms.new) }
    ensures sound { Gives terms.new result (λ w r. DistancesWhereNeeded w net.now.files world.now.net world.now.slots →
        at w r ≡ true →
        (walk : OptionOf WalkOf) × Breaks net.now.files (whole_of w net.now.files world.now) question.now.kind walk) }
    ensures complete { Gives terms.new result (λ w r. DistancesWhereNeeded w net.now.files world.now.net world.now.slots →
        (walk : OptionOf WalkOf) →
        Breaks net.now.files (whole_of w net.now.files world.now) question.now.kind walk → at w r ≡ true) }
{
    let ending = sym_ending(alloc, terms, net, question, world)?;
    let broken = sym_breaks(alloc, terms, net, question, world)?;
    both(terms, ending, broken)
}
