//! Whether a walk of a packet breaks a question, as a term.

ghost use Rattle.std.specs.Prelude.{◌≡◌, ℕ, ◌+◌, ◌*◌, ◌<◌, ◌≤◌, Bool, true, IfOk, Option as OptionOf, Some};
ghost use Rattle.std.specs.Prelude.{None, length};
ghost use Rattle.question_lang.specs.declared.question.Start.{Start as StartOf};
ghost use Rattle.question_lang.specs.declared.walk.Walk.{Walk as WalkOf};
ghost use Rattle.question_lang.specs.Breaking.{Breaks};
ghost use Rattle.sym_policy.specs.Held.{failures_of};
ghost use Rattle.sym_policy.specs.Records.{packet_end};
ghost use Rattle.sym_forwarding.specs.Beginnings.{begins_at};
ghost use Rattle.sym_walk.specs.Distances.{DistancesWhereNeeded};
ghost use Rattle.sym_forwarding.specs.Forwardings.{start_asked};
ghost use Rattle.sym_policy.specs.Packets.{packet_of};
ghost use Rattle.sym_forwarding.specs.Symbolic.{beginning_of, beginning_end, table_end, table_of};
ghost use Rattle.sym_walk.specs.TwinTables.{AreTwins, may_end};
ghost use Rattle.route_record.specs.declared.TheConstants as constants;
ghost use Rattle.sym_walk.specs.Whole.{HasSlots, whole_of, whole_end};
ghost use Rattle.term_store.specs.Terms.{Reading, size, at};
ghost use Rattle.term_store.specs.Reading.{Reads, Builds, Gives};
ghost use Rattle.term_arith.specs.Bits.{ids_end};

use crate::routers::{router_count, sym_router, sym_table};
use crate::stop::Stop;
use mw_text::List;
use net_model::Net;
use plan_places::lens_of;
use question_lang::{Kind, Question, Start};
use route_record::Plan;
use std::alloc::{AllocError, Global};
use sym_forwarding::{SymBeginning, SymForwarding, sym_begin, sym_broken};
use sym_policy::{SymNet, SymPacket};
use sym_rib::{SymSlot, SymTables};
use term_arith::gates::constant_node;
use term_store::{NodeId, Terms};

/// What a packet meets, as terms: the packet itself, the failed links, and the slots, by router and then by slice: each
/// router has one at each prefix length at which a slice of the plan stands, in the order of these lengths.
#[derive(Drop)]
pub struct SymWorld {
    pub packet: SymPacket,
    pub net: SymNet,
    pub slots: List<SymSlot>,
    pub plan: Plan,
}

// The start of the question, where it has one.
fn start_of(kind: Kind) -> Option<Start>
    ensures { result ≡ start_asked kind }
{
    match kind {
        Kind::Reach(start, _) => Some(start),
        Kind::Isolate(start, _) => Some(start),
        Kind::Waypoint(start, _, _) => Some(start),
        Kind::NoLoop(start) => Some(start),
        Kind::NoBlackHole(start) => Some(start),
        Kind::Within(_, start) => Some(start),
        Kind::Alike(_, _, _) => None,
        Kind::NoStable => None,
    }
}

// No start.
fn no_start(terms: &mut Terms) -> Result<SymBeginning, AllocError>
    ensures builds { Builds terms.old terms.new }
    ensures within { IfOk result (λ r. beginning_end r ≤ size terms.new) }
{
    let never = constant_node(terms, false)?;
    Ok(SymBeginning {
        begins: never,
        denied: never,
    })
}

// What the interface of the start does, where the question has a start.
fn sym_start(
    alloc: Global,
    terms: &mut Terms,
    net: &Net,
    sym: &SymNet,
    packet: &SymPacket,
    kind: Kind,
) -> Result<SymBeginning, AllocError>
    requires downs { ids_end sym.now.down ≤ size terms.old }
    requires packet { packet_end packet.now ≤ size terms.old }
    ensures builds { Builds terms.old terms.new }
    ensures within { IfOk result (λ r. beginning_end r ≤ size terms.new) }
    ensures value { Gives terms.new result (λ w r. (start : StartOf) → start_asked kind ≡ Some start →
        beginning_of w r ≡ begins_at net.now.files (failures_of w sym.now) (packet_of w packet.now) start) }
{
    match start_of(kind) {
        None => no_start(terms),
        Some(first) => {
            let made = sym_begin(alloc, terms, net, sym, packet, first)?;
            Ok(made)
        }
    }
}

// The slots of a world, where they stand at these lengths of each router.
fn world_tables<'a>(net: &Net, lens: &'a [u8], world: &'a SymWorld) -> SymTables<'a>
    requires few { length lens.now ≤ constants.LENGTHS }
    requires long { length world.now.slots ≡ length net.now.files * length lens.now }
    ensures lens { result.lens.now ≡ lens.now }
    ensures routers { result.routers ≡ length net.now.files }
    ensures slots { result.slots.now ≡ world.now.slots }
{
    SymTables {
        lens,
        routers: router_count(net),
        slots: world.slots.as_slice(),
    }
}

/// What each router does with the packet of a world, for a question of that kind: where it may send the packet, and
/// whether a walk may end there as the question asks. The world has a slot for each router of the network at each prefix
/// length at which a slice of its plan stands. Where slots hold a BGP route, the interior distances are to be those of
/// the network.
///
/// # Errors
/// Memory was refused.
#[tactic(auto, using(plan_places::proofs::PlaceSteps::lens_few))]
pub fn world_table(
    alloc: Global,
    terms: &mut Terms,
    net: &Net,
    world: &SymWorld,
    kind: Kind,
) -> Result<List<SymForwarding>, AllocError>
    requires slots { HasSlots net.now.files world.now }
    requires nodes { whole_end world.now ≤ size terms.old }
    ensures builds { Builds terms.old terms.new }
    ensures within { IfOk result (λ r. table_end r ≤ size terms.new) }
    ensures long { IfOk result (λ r. length r ≡ length net.now.files) }
    ensures value { Gives terms.new result (λ w r. DistancesWhereNeeded w net.now.files world.now.net world.now.slots →
        AreTwins net.now.files (whole_of w net.now.files world.now) kind (length net.now.files) (table_of w r)) }
{
    let lens = lens_of(alloc, &world.plan)?;
    let tables = world_tables(net, lens.as_slice(), world);
    let made = sym_table(alloc, terms, net, &world.net, &tables, &world.packet, kind)?;
    Ok(made)
}

/// Whether a walk that comes to the router may end there as a question of that kind asks, in the world that the records
/// stand for, under what is said of `world_table`.
///
/// # Errors
/// Memory was refused.
#[tactic(auto, using(plan_places::proofs::PlaceSteps::lens_few))]
pub fn sym_ends_at(
    alloc: Global,
    terms: &mut Terms,
    net: &Net,
    world: &SymWorld,
    kind: Kind,
    router: u32,
) -> Result<NodeId, AllocError>
    requires slots { HasSlots net.now.files world.now }
    requires nodes { whole_end world.now ≤ size terms.old }
    ensures builds { Builds terms.old terms.new }
    ensures within { IfOk result (λ r. r.0 < size terms.new) }
    ensures value { Gives terms.new result (λ w r. DistancesWhereNeeded w net.now.files world.now.net world.now.slots →
        at w r ≡ may_end net.now.files (whole_of w net.now.files world.now) kind router) }
{
    let lengths = lens_of(alloc, &world.plan)?;
    let tables = world_tables(net, lengths.as_slice(), world);
    let stop = Stop {
        net,
        sym: &world.net,
        tables: &tables,
        packet: &world.packet,
        router,
    };
    let made = sym_router(alloc, terms, &stop, kind)?;
    Ok(made.ends)
}

/// Whether a walk of the packet breaks the question in the world that the records stand for. The world has a slot for
/// each router of the network at each prefix length at which a slice of its plan stands, and its tables have nothing at
/// all other lengths. Where slots hold a BGP route, the interior distances are to be those of the network. For a
/// question of no stable routing it is true.
pub fn sym_breaks(
    alloc: Global,
    terms: &mut Terms,
    net: &Net,
    question: &Question,
    world: &SymWorld,
) -> Result<NodeId, AllocError>
    requires slots { HasSlots net.now.files world.now }
    requires nodes { whole_end world.now ≤ size terms.old }
    ensures builds { Builds terms.old terms.new }
    ensures within { IfOk result (λ r. r.0 < size terms.new) }
    ensures sound { Gives terms.new result (λ w r. DistancesWhereNeeded w net.now.files world.now.net world.now.slots →
        at w r ≡ true →
        (walk : OptionOf WalkOf) × Breaks net.now.files (whole_of w net.now.files world.now) question.now.kind walk) }
    ensures complete { Gives terms.new result (λ w r. DistancesWhereNeeded w net.now.files world.now.net world.now.slots →
        (walk : OptionOf WalkOf) →
        Breaks net.now.files (whole_of w net.now.files world.now) question.now.kind walk → at w r ≡ true) }
{
    let kind = question.kind;
    let begin = sym_start(alloc, terms, net, &world.net, &world.packet, kind)?;
    let table = world_table(alloc, terms, net, world, kind)?;
    let made = sym_broken(alloc, terms, kind, &begin, table)?;
    Ok(made)
}
