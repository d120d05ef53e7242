//! What ties two routings, as a term.

ghost use Rattle.std.specs.Prelude.{◌≡◌, ◌↔◌, ◌<◌, true, IfOk};
ghost use Rattle.compared_terms.specs.Ties.{AreTied, FailSo, IsAround, StandBoth};
ghost use Rattle.joined_terms.specs.Joining.{behind};
ghost use Rattle.paired_nets.specs.Ends.{AreEndPairs};
ghost use Rattle.paired_nets.specs.Links.{ArePairs};
ghost use Rattle.plan_places.specs.Plans as plans;
ghost use Rattle.sym_policy.specs.Held.{failures_of};
ghost use Rattle.term_store.specs.Reading.{Builds, Gives};
ghost use Rattle.term_store.specs.Terms.{at, size};

use crate::differing::some_differ;
use common_failures::laws::read_law;
use mw_text::List;
use net_model::Net;
use paired_nets::{EndPair, LinkPair, common_ends, common_links};
use peers_beside::{Sides, same_peers};
use plan_places::{lens_of, single_plan};
use routings_beside::Side;
use std::alloc::{AllocError, Global};
use term_arith::gates::both;
use term_store::{NodeId, Terms};
use ties_beside::laws::alike_law;
use ties_beside::{few_fail, same_links, same_packet};

/// Two networks whose routings stand side by side in one store: those of the right one at these places.
#[derive(Clone, Copy)]
pub struct Both<'a> {
    pub left: &'a Net,
    pub right: &'a Net,
    pub one: &'a Side,
    pub other: &'a Side,
    pub places: &'a [NodeId],
}

/// What both networks have: links and external peers, and all prefix lengths.
#[derive(Drop)]
pub struct Common {
    pub links: List<LinkPair>,
    pub ends: List<EndPair>,
    pub lens: Vec<u8>,
}

/// The links and external peers that two networks have. Err is want of memory.
pub fn common_of(alloc: Global, left: &Net, right: &Net) -> Result<Common, AllocError>
    ensures links { IfOk result (λ common. ArePairs left.now.files right.now.files common.links) }
    ensures ends { IfOk result (λ common. AreEndPairs left.now.files right.now.files common.ends) }
    ensures lens { IfOk result (λ common. common.lens.items ≡ plans.lens_of plans.single_plan) }
{
    let plan = single_plan(alloc)?;
    let lens = lens_of(alloc, &plan)?;
    let links = common_links(alloc, left, right)?;
    let ends = common_ends(alloc, left, right)?;
    Ok(Common { links, ends, lens })
}

// Whether the two have one packet and one environment.
fn sym_around(
    alloc: Global,
    terms: &mut Terms,
    two: Both<'_>,
    common: &Common,
) -> Result<NodeId, AllocError>
    requires stands { StandBoth two.left.now two.right.now terms.old two.places.now two.one.now two.other.now }
    requires ends { AreEndPairs two.left.now.files two.right.now.files common.now.ends }
    requires lens { common.now.lens.items ≡ plans.lens_of plans.single_plan }
    requires tracked { two.left.now.tracked ≡ two.right.now.tracked }
    ensures builds { Builds terms.old terms.new }
    ensures within { IfOk result (λ r. r.0 < size terms.new) }
    ensures value { Gives terms.new result (λ w r. at w r ≡ true
        ↔ IsAround two.entry.left.now two.entry.right.now two.entry.places.now two.entry.one.now two.entry.other.now
        w) }
{
    let packet = same_packet(
        alloc,
        terms,
        two.places,
        &two.one.world.packet,
        &two.other.world.packet,
    )?;
    let sides = Sides {
        places: two.places,
        left: two.left,
        right: two.right,
        lens: common.lens.as_slice(),
        a: &two.one.env,
        b: &two.other.env,
    };
    let peers = same_peers(alloc, terms, &sides, common.ends.as_slice())?;
    both(terms, packet, peers)
}

// Whether common links fail together, and of both networks' no more than may.
fn sym_failing(
    alloc: Global,
    terms: &mut Terms,
    two: Both<'_>,
    links: &[LinkPair],
    most: u32,
) -> Result<NodeId, AllocError>
    requires stands { StandBoth two.left.now two.right.now terms.old two.places.now two.one.now two.other.now }
    ensures builds { Builds terms.old terms.new }
    ensures within { IfOk result (λ r. r.0 < size terms.new) }
    ensures value { Gives terms.new result (λ w r. at w r ≡ true
        ↔ FailSo links.now most (failures_of w two.entry.one.now.world.net)
        (failures_of (behind two.entry.places.now w) two.entry.other.now.world.net)) }
{
    alike_law();
    read_law();
    let one = two.one.world.net.down.as_slice();
    let other = two.other.world.net.down.as_slice();
    let same = same_links(terms, two.places, one, other, links)?;
    let few = few_fail(alloc, terms, two.places, one, other, links, most)?;
    both(terms, same, few)
}

/// Whether the two have one packet, one environment and one set of at most so many failed links, and not the same fates.
/// Err is want of memory.
pub fn sym_tied(
    alloc: Global,
    terms: &mut Terms,
    two: Both<'_>,
    common: &Common,
    most: u32,
) -> Result<NodeId, AllocError>
    requires stands { StandBoth two.left.now two.right.now terms.old two.places.now two.one.now two.other.now }
    requires ends { AreEndPairs two.left.now.files two.right.now.files common.now.ends }
    requires lens { common.now.lens.items ≡ plans.lens_of plans.single_plan }
    requires tracked { two.left.now.tracked ≡ two.right.now.tracked }
    ensures builds { Builds terms.old terms.new }
    ensures within { IfOk result (λ r. r.0 < size terms.new) }
    ensures value { Gives terms.new result (λ w r. at w r ≡ true
        ↔ AreTied two.entry.left.now two.entry.right.now common.now.links most two.entry.places.now two.entry.one.now
        two.entry.other.now w) }
{
    let around = sym_around(alloc, terms, two, common)?;
    let failing = sym_failing(alloc, terms, two, common.links.as_slice(), most)?;
    let fates = some_differ(
        terms,
        two.places,
        two.one.fates.as_slice(),
        two.other.fates.as_slice(),
    )?;
    let inside = both(terms, failing, fates)?;
    both(terms, around, inside)
}
