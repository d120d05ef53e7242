//! An ask about a network as a formula: its solutions are the routings that export a route of the ask.

ghost use Rattle.std.specs.Prelude.{◌≡◌, ◌<◌, ◌≤◌, ◌&&◌, IfOk};
ghost use Rattle.term_store.specs.Reading.{Builds, Reads};
ghost use Rattle.term_store.specs.Terms.{Reading, size, at};
ghost use Rattle.ask_search.specs.Encoded.{IsAskEncoding};

use crate::question::question_for;
use crate::world::export_term;
use export_asks::Ask;
use joined_terms::join;
use net_encoder::{Encoding, encode};
use net_model::Net;
use plan_places::single_plan;
use routing_worlds::read_network;
use slot_places::rooms_of;
use std::alloc::{AllocError, Global};
use term_arith::gates::both;
use term_store::{NodeId, Terms};

/// An ask as terms, with the root that is true exactly of what breaks it.
#[derive(Drop)]
pub struct AskTerms {
    pub terms: Terms,
    pub root: NodeId,
}

// The root of a question and that of an export, over the same variables.
fn joined(alloc: Global, encoding: Encoding, export: &AskTerms) -> Result<AskTerms, AllocError>
    requires root { encoding.root.0 < size encoding.terms }
    requires export { export.now.root.0 < size export.now.terms }
    requires vars { export.now.terms.vars ≤ encoding.terms.vars }
    ensures builds { IfOk result (λ e. Builds encoding.terms e.terms) }
    ensures within { IfOk result (λ e. e.root.0 < size e.terms) }
    ensures value { IfOk result (λ e. (w : Reading) → Reads w e.terms →
        (u : Reading) × Reads u export.now.terms × (u.variable ≡ w.variable)
        × (at w e.root ≡ (at w encoding.root && at u export.now.root))) }
{
    let mut terms = encoding.terms;
    let places = join(alloc, &mut terms, &export.terms)?;
    let out = places[export.root.0 as usize];
    let root = both(&mut terms, encoding.root, out)?;
    Ok(AskTerms { terms, root })
}

/// An ask about a network as a formula, over slices at all prefix lengths: whatever values of the variables make the root
/// true, their routing is stable and exports a route of the ask (`sound`); and where there is such a routing, some values
/// make the root true (`complete`). Err is want of memory.
pub fn encode_ask(alloc: Global, net: &Net, ask: &Ask) -> Result<AskTerms, AllocError>
    ensures { IfOk result (IsAskEncoding net.now.files net.now.tracked ask.now) }
{
    let question = question_for(alloc, ask)?;
    let rooms = rooms_of(alloc, net, &question.packets.dst)?;
    read_network(net, &question, rooms.as_slice());
    let export = export_term(alloc, net, ask, &question)?;
    let plan = single_plan(alloc)?;
    let encoding = encode(alloc, net, &question, &plan)?;
    encoding.terms.reading_has_values();
    let made = joined(alloc, encoding, &export)?;
    made.terms.valuation_reads();
    Ok(made)
}
