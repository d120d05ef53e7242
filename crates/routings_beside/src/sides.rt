//! One network of two as a formula of its own, with the fates of its packets.

ghost use Rattle.std.specs.Prelude.{◌≡◌, IfOk, true};
ghost use Rattle.plan_places.specs.Plans as plans;
ghost use Rattle.routing_encoder.specs.Encoded.{HasEnvironment, HasWorld, IsEncoding};
ghost use Rattle.routing_worlds.specs.Worlds.{HasWordNetwork};
ghost use Rattle.routings_beside.specs.Pairs.{question_of};
ghost use Rattle.routings_beside.specs.Sides.{IsSideTerms};
ghost use Rattle.sym_walk.specs.Distances.{DistancesWhereNeeded};
ghost use Rattle.term_store.specs.Reading.{Reads};
ghost use Rattle.term_store.specs.Terms.{Reading, at};

use crate::question::question_for;
use bgp_equations::SymEnv;
use fate_terms::sym_fates;
use mw_text::List;
use net_encoder::{Encoding, encode};
use net_model::Net;
use packet_fates::Fate;
use plan_places::single_plan;
use routing_worlds::read_network;
use same_asks::Same;
use slot_places::rooms_of;
use std::alloc::{AllocError, Global};
use sym_walk::SymWorld;
use sym_walk::laws::tables_law;
use term_store::{NodeId, Terms};

/// What the variables of one network stand for, as terms, and of each fate whether packets have it.
#[derive(Drop)]
pub struct Side {
    pub world: SymWorld,
    pub env: SymEnv,
    pub fates: List<NodeId>,
}

/// One network as terms, with the root that is true exactly of its stable routings.
#[derive(Drop)]
pub struct SideTerms {
    pub terms: Terms,
    pub root: NodeId,
    pub side: Side,
}

// The stable routings of one network.
fn routings_of(alloc: Global, net: &Net, ask: &Same) -> Result<Encoding, AllocError>
    ensures encoding { IfOk result (IsEncoding net.now.files net.now.tracked (question_of ask.now)) }
    ensures plan { IfOk result (λ e. e.world.plan ≡ plans.single_plan) }
    ensures stands { IfOk result (λ e. HasWorld net.now.files net.now.tracked e.terms e.world) }
    ensures outside { IfOk result (λ e. HasEnvironment net.now.files net.now.tracked plans.single_plan e.terms e.env) }
    ensures distances { IfOk result (λ e. (w : Reading) → Reads w e.terms → at w e.root ≡ true →
        DistancesWhereNeeded w net.now.files e.world.net e.world.slots) }
    ensures words { IfOk result (λ e. HasWordNetwork net.now.files net.now.tracked (question_of ask.now)) }
{
    let question = question_for(alloc, ask)?;
    let rooms = rooms_of(alloc, net, &question.packets.dst)?;
    read_network(net, &question, rooms.as_slice());
    let plan = single_plan(alloc)?;
    encode(alloc, net, &question, &plan)
}

/// The stable routings of one network for an ask, with a node for each of these fates: whether packets of the routing
/// have it that begin at the router. Err is want of memory.
pub fn side_of(
    alloc: Global,
    net: &Net,
    ask: &Same,
    start: u32,
    fates: &[Fate],
) -> Result<SideTerms, AllocError>
    ensures { IfOk result (IsSideTerms net.now ask.now start fates.now) }
{
    let encoding = routings_of(alloc, net, ask)?;
    encoding.terms.reading_has_values();
    let mut terms = encoding.terms;
    let fates = sym_fates(alloc, &mut terms, net, start, fates, &encoding.world)?;
    terms.stands_in_order();
    terms.valuation_reads();
    tables_law();
    Ok(SideTerms {
        terms,
        root: encoding.root,
        side: Side {
            world: encoding.world,
            env: encoding.env,
            fates,
        },
    })
}
