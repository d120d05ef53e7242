//! Whether packets have a fate, as a term: it names the routers where they end.

ghost use Rattle.std.specs.Prelude.{◌≡◌, ◌↔◌, ◌≤◌, ◌<◌, false, length, true, IfOk};
ghost use Rattle.packet_fates.specs.Fates.{HasFate, IsCalled};
ghost use Rattle.sym_walk.specs.Distances.{DistancesWhereNeeded};
ghost use Rattle.sym_walk.specs.Whole.{HasSlots, whole_end, whole_of};
ghost use Rattle.term_arith.specs.Bits.{bits, ids_end};
ghost use Rattle.term_store.specs.Reading.{Builds, Gives};
ghost use Rattle.term_store.specs.Terms.{Reading, at, size};
ghost use Rattle.walk_def.specs.Marks.{known};
ghost use Rattle.fate_terms.specs.Named.{AreFateNodes, EndsAmongCalled, EndsAtCalled, IsWalked, KnowsWalks, world_of_walks};
ghost use Rattle.fate_terms.specs.Endings.{HasEnding};
ghost use Rattle.fate_terms.specs.Named as named;

use crate::ending::{Ending, at_router, kind_of};
use crate::reaching::{sym_ends, sym_reached};
use mw_text::{Addr, List, same_bytes};
use net_model::Net;
use packet_fates::Fate;
use question_lang::Kind;
use std::alloc::{AllocError, Global};
use sym_walk::{SymForwarding, SymWorld, sym_ends_at, sym_loops, world_table};
use term_arith::gates::{both, constant_node, either};
use term_arith::lists::put;
use term_store::{NodeId, Terms};

/// What is known of all walks of a packet of a world from a router: what each router does with it, where an end counts
/// at which it is lost, and to which routers it comes.
#[derive(Clone, Copy)]
pub(crate) struct Walked<'a> {
    pub(crate) net: &'a Net,
    pub(crate) world: &'a SymWorld,
    pub(crate) start: u32,
    pub(crate) table: &'a [SymForwarding],
    pub(crate) reached: &'a [NodeId],
}

// ---- at a router of a name

fn ending_by(leaves: Option<Addr>, router: u32) -> Ending
    ensures { result ≡ named.ending_by leaves router }
{
    match leaves {
        None => Ending::Delivered(router),
        Some(addr) => Ending::Left(router, addr),
    }
}

fn is_called(net: &Net, router: u32, name: &[u8]) -> bool
    ensures yes { result ≡ true → IsCalled net.now.files name.now router }
    ensures no { result ≡ false → IsCalled net.now.files name.now router → ⊥ }
{
    match net.routers().get(router as usize) {
        None => false,
        Some(file) => same_bytes(file.hostname.as_slice(), name),
    }
}

// The mark of a router.
#[tactic(auto, using(term_arith::proofs::NumberLemmas::ids_end_at, sym_forwarding::proofs::Tables::known_at))]
fn mark_at(reached: &[NodeId], router: u32) -> NodeId
    requires { router < length reached.now }
    ensures within { result.0 < ids_end reached.now }
    ensures value { (w : Reading) → at w result ≡ known (bits w reached.now) router }
{
    reached[router as usize]
}

// Whether the packet comes to the router and ends so there.
fn sym_ends_by(
    alloc: Global,
    terms: &mut Terms,
    walked: &Walked<'_>,
    leaves: Option<Addr>,
    router: u32,
) -> Result<NodeId, AllocError>
    requires walked { IsWalked walked.now (size terms.old) }
    requires there { router < length walked.now.net.now.files }
    ensures builds { Builds terms.old terms.new }
    ensures within { IfOk result (λ r. r.0 < size terms.new) }
    ensures value { Gives terms.new result (λ w r. KnowsWalks w walked.now → at w r ≡ true
        ↔ HasEnding walked.now.net.now.files (world_of_walks w walked.now) walked.now.start
        (named.ending_by leaves router)) }
{
    let kind = kind_of(walked.start, &ending_by(leaves, router));
    let ends = sym_ends_at(alloc, terms, walked.net, walked.world, kind, router)?;
    let mark = mark_at(walked.reached, router);
    let made = both(terms, mark, ends)?;
    Ok(made)
}

// The same, if the router has that name.
fn sym_there(
    alloc: Global,
    terms: &mut Terms,
    walked: &Walked<'_>,
    name: &[u8],
    leaves: Option<Addr>,
    router: u32,
) -> Result<NodeId, AllocError>
    requires walked { IsWalked walked.now (size terms.old) }
    requires there { router < length walked.now.net.now.files }
    ensures builds { Builds terms.old terms.new }
    ensures within { IfOk result (λ r. r.0 < size terms.new) }
    ensures value { Gives terms.new result (λ w r. KnowsWalks w walked.now → at w r ≡ true
        ↔ EndsAtCalled walked.now.net.now.files (world_of_walks w walked.now) walked.now.start name.now leaves router) }
{
    if !is_called(walked.net, router, name) {
        return constant_node(terms, false);
    }
    sym_ends_by(alloc, terms, walked, leaves, router)
}

// Whether some walk ends so at a router of that name.
fn sym_called(
    alloc: Global,
    terms: &mut Terms,
    walked: &Walked<'_>,
    name: &[u8],
    leaves: Option<Addr>,
) -> Result<NodeId, AllocError>
    requires walked { IsWalked walked.now (size terms.old) }
    ensures builds { Builds terms.old terms.new }
    ensures within { IfOk result (λ r. r.0 < size terms.new) }
    ensures value { Gives terms.new result (λ w r. KnowsWalks w walked.now → at w r ≡ true
        ↔ EndsAmongCalled walked.now.net.now.files (world_of_walks w walked.now) walked.now.start name.now leaves
        (length walked.now.net.now.files)) }
{
    let mut any = constant_node(terms, false)?;
    for router in 0..walked.net.routers().len() as u32 {
        let there = sym_there(alloc, terms, walked, name, leaves, router)?;
        let more = either(terms, any, there)?;
        any = more;
    }
    Ok(any)
}

// ---- fates

// Whether packets from the start have that fate.
fn sym_fate(
    alloc: Global,
    terms: &mut Terms,
    walked: &Walked<'_>,
    fate: &Fate,
) -> Result<NodeId, AllocError>
    requires walked { IsWalked walked.now (size terms.old) }
    ensures builds { Builds terms.old terms.new }
    ensures within { IfOk result (λ r. r.0 < size terms.new) }
    ensures value { Gives terms.new result (λ w r. KnowsWalks w walked.now → at w r ≡ true
        ↔ HasFate walked.now.net.now.files (world_of_walks w walked.now) walked.now.start fate.now) }
{
    match fate {
        Fate::Delivered(name) => sym_called(alloc, terms, walked, name.as_slice(), None),
        Fate::Left(name, addr) => sym_called(alloc, terms, walked, name.as_slice(), Some(*addr)),
        Fate::BlackHole => sym_ends(terms, walked.reached, walked.table),
        Fate::Loop => sym_loops(alloc, terms, walked.table, walked.start),
    }
}

// Which of these fates they have.
fn sym_each(
    alloc: Global,
    terms: &mut Terms,
    walked: &Walked<'_>,
    fates: &[Fate],
) -> Result<List<NodeId>, AllocError>
    requires walked { IsWalked walked.now (size terms.old) }
    ensures builds { Builds terms.old terms.new }
    ensures within { IfOk result (λ ids. ids_end ids ≤ size terms.new) }
    ensures long { IfOk result (λ ids. length ids ≡ length fates.now) }
    ensures value { Gives terms.new result (λ w ids. KnowsWalks w walked.now →
        AreFateNodes w walked.now.net.now.files (world_of_walks w walked.now) walked.now.start fates.now ids) }
{
    let mut ids = List::new(alloc);
    for fate in fates {
        let id = sym_fate(alloc, terms, walked, fate)?;
        put(&mut ids, id)?;
    }
    Ok(ids)
}

// How many routers there are.
fn router_count(net: &Net) -> u32
    ensures { result ≡ length net.now.files }
{
    net.routers().len() as u32
}

/// Which of these fates packets from a router have, in the world that the records stand for: a node for each, in their
/// order. What each router does and to which routers a packet comes is made once for all fates. The world has a slot for
/// each router of the network at each prefix length at which a slice of its plan stands, and its tables have nothing at
/// all other lengths. Where slots hold a BGP route, the interior distances are to be those of the network.
///
/// # Errors
/// Memory was refused.
pub fn sym_fates(
    alloc: Global,
    terms: &mut Terms,
    net: &Net,
    start: u32,
    fates: &[Fate],
    world: &SymWorld,
) -> Result<List<NodeId>, AllocError>
    requires slots { HasSlots net.now.files world.now }
    requires nodes { whole_end world.now ≤ size terms.old }
    ensures builds { Builds terms.old terms.new }
    ensures within { IfOk result (λ ids. ids_end ids ≤ size terms.new) }
    ensures long { IfOk result (λ ids. length ids ≡ length fates.now) }
    ensures value { Gives terms.new result (λ w ids.
        DistancesWhereNeeded w net.now.files world.now.net world.now.slots →
        AreFateNodes w net.now.files (whole_of w net.now.files world.now) start fates.now ids) }
{
    let table = world_table(
        alloc,
        terms,
        net,
        world,
        Kind::NoBlackHole(at_router(start)),
    )?;
    let reached = sym_reached(alloc, terms, table.as_slice(), start, router_count(net))?;
    let walked = Walked {
        net,
        world,
        start,
        table: table.as_slice(),
        reached: reached.as_slice(),
    };
    let ids = sym_each(alloc, terms, &walked, fates)?;
    Ok(ids)
}
