//! Routes that are not there and slots that hold little, as terms.

ghost use Rattle.std.specs.Prelude.{◌≡◌, ℕ, ◌+◌, ◌≤◌, Bool, IfOk, None, max};
ghost use Rattle.sym_policy.specs.Held.{bgp_of, bgp_end, ospf_of, ospf_end};
ghost use Rattle.sym_policy.specs.MapRecs.{HasTracked, map_rec_end};
ghost use Rattle.sym_rib.specs.Slots.{slot_end, StandsForSlot};
ghost use Rattle.term_store.specs.Terms.{Reading, size, at};
ghost use Rattle.term_store.specs.Reading.{Reads, Builds, Gives};

use crate::known::{Known, known_rec, word};
use crate::ribs::no_entry;
use crate::slots::SymSlot;
use route_record::{Origin, Tracked};
use std::alloc::{AllocError, Global};
use sym_policy::{SymBgp, SymMapRec, SymOspf};
use term_arith::copy;
use term_arith::gates::constant_node;
use term_store::Terms;

// A record of no route.
fn no_rec(alloc: Global, terms: &mut Terms, tracked: &Tracked) -> Result<SymMapRec, AllocError>
    ensures builds { Builds terms.old terms.new }
    ensures within { IfOk result (λ r. map_rec_end r ≤ size terms.new) }
    ensures rows { IfOk result (λ r. HasTracked tracked.now r.bgp) }
    ensures value { Gives terms.new result (λ w r. bgp_of w r.bgp ≡ None) }
{
    let valid = constant_node(terms, false)?;
    let med = word(alloc, terms, 0)?;
    let known = Known {
        weight: 0,
        local_pref: 0,
        origin: Origin::Igp,
        type1: false,
    };
    known_rec(alloc, terms, tracked, valid, &known, med)
}

/// A BGP route that is not there. It has one node for each tracked number, community and cluster.
pub fn no_bgp(alloc: Global, terms: &mut Terms, tracked: &Tracked) -> Result<SymBgp, AllocError>
    ensures builds { Builds terms.old terms.new }
    ensures within { IfOk result (λ r. bgp_end r ≤ size terms.new) }
    ensures rows { IfOk result (λ r. HasTracked tracked.now r) }
    ensures value { Gives terms.new result (λ w r. bgp_of w r ≡ None) }
{
    let rec = no_rec(alloc, terms, tracked)?;
    let SymMapRec { bgp, .. } = rec;
    Ok(bgp)
}

// A route of the same nodes.
fn copy_ospf(alloc: Global, ospf: &SymOspf) -> Result<SymOspf, AllocError>
    ensures within { IfOk result (λ r. ospf_end r ≡ ospf_end ospf.now) }
    ensures value { IfOk result (λ r. (w : Reading) → ospf_of w r ≡ ospf_of w ospf.now) }
{
    let kind = copy(alloc, &ospf.kind)?;
    let metric = copy(alloc, &ospf.metric)?;
    let cost = copy(alloc, &ospf.cost)?;
    Ok(SymOspf {
        valid: ospf.valid,
        kind,
        metric,
        cost,
    })
}

/// A slot that holds that OSPF route, no BGP route and no entry.
pub fn bare_slot(
    alloc: Global,
    terms: &mut Terms,
    tracked: &Tracked,
    ospf: &SymOspf,
) -> Result<SymSlot, AllocError>
    requires { ospf_end ospf.now ≤ size terms.old }
    ensures builds { Builds terms.old terms.new }
    ensures within { IfOk result (λ r. slot_end r ≤ size terms.new) }
    ensures rows { IfOk result (λ r. HasTracked tracked.now r.bgp) }
    ensures value { Gives terms.new result (λ w r. StandsForSlot w tracked.now r
        (record { ospf = ospf_of w ospf.now; bgp = None; rib = None })) }
{
    let ospf = copy_ospf(alloc, ospf)?;
    let rib = no_entry(alloc, terms)?;
    let bgp = no_bgp(alloc, terms, tracked)?;
    Ok(SymSlot { ospf, bgp, rib })
}
