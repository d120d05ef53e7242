//! Entries of routing tables as terms: those that are known, choices, and the closer of two.

ghost use Rattle.std.specs.Prelude.{◌≡◌, ◌==◌, ℕ, ◌+◌, ◌^◌, ◌<◌, ◌≤◌, Bool, if◌then◌else◌, Some, None, IfOk, length};
ghost use Rattle.route_record.specs.declared.RibEntry.{RibEntry as Entry};
ghost use Rattle.sym_rib.specs.Slots.{number_of_source, rib_of, rib_end, IsNumbered};
ghost use Rattle.sym_rib.specs.Sources.{closer_of};
ghost use Rattle.term_store.specs.Terms.{Reading, size, at};
ghost use Rattle.term_store.specs.Reading.{Reads, Builds, Gives};
ghost use Rattle.term_arith.specs.Bits.{number, ids_end};

use crate::slots::SymRib;
use route_record::RibSource;
use std::alloc::{AllocError, Global};
use term_arith::gates::{both, constant_node, either, negate, select};
use term_arith::{choose, constant, less};
use term_store::{NodeId, Terms};

fn number_of(source: RibSource) -> u64
    ensures value { result ≡ number_of_source source }
    ensures small { result ≤ 4 }
{
    match source {
        RibSource::Connected => 0,
        RibSource::Static => 1,
        RibSource::Ebgp => 2,
        RibSource::Ospf => 3,
        RibSource::Ibgp => 4,
    }
}

/// An entry that is known, which is there where a node is true.
#[tactic(auto, using(crate::proofs::Entries::source_again))]
pub(crate) fn entry_where(
    alloc: Global,
    terms: &mut Terms,
    valid: NodeId,
    source: RibSource,
    distance: u8,
) -> Result<SymRib, AllocError>
    requires { valid.0 < size terms.old }
    ensures builds { Builds terms.old terms.new }
    ensures within { IfOk result (λ r. rib_end r ≤ size terms.new) }
    ensures numbered { Gives terms.new result (λ w r. IsNumbered w r) }
    ensures value { Gives terms.new result (λ w r. rib_of w r
        ≡ (if at w valid then Some (record { source = source; distance = distance }) else None)) }
{
    let source = constant(alloc, terms, number_of(source), 3)?;
    let distance = constant(alloc, terms, u64::from(distance), 8)?;
    Ok(SymRib {
        valid,
        source,
        distance,
    })
}

/// No entry.
pub fn no_entry(alloc: Global, terms: &mut Terms) -> Result<SymRib, AllocError>
    ensures builds { Builds terms.old terms.new }
    ensures within { IfOk result (λ r. rib_end r ≤ size terms.new) }
    ensures numbered { Gives terms.new result (λ w r. IsNumbered w r) }
    ensures value { Gives terms.new result (λ w r. rib_of w r ≡ None) }
{
    let valid = constant_node(terms, false)?;
    entry_where(alloc, terms, valid, RibSource::Connected, 0)
}

/// The first entry where `c` is true, else the second.
#[tactic(auto, using(crate::proofs::Entries::chosen_entry, crate::proofs::Entries::chosen_numbered))]
pub(crate) fn choose_rib(
    alloc: Global,
    terms: &mut Terms,
    c: NodeId,
    a: &SymRib,
    b: &SymRib,
) -> Result<SymRib, AllocError>
    requires test { c.0 < size terms.old }
    requires first { rib_end a.now ≤ size terms.old }
    requires second { rib_end b.now ≤ size terms.old }
    ensures builds { Builds terms.old terms.new }
    ensures within { IfOk result (λ r. rib_end r ≤ size terms.new) }
    ensures numbered { Gives terms.new result (λ w r. IsNumbered w a.now → IsNumbered w b.now → IsNumbered w r) }
    ensures value { Gives terms.new result (λ w r. rib_of w r ≡ (if at w c then rib_of w a.now else rib_of w b.now)) }
{
    let valid = select(terms, c, a.valid, b.valid)?;
    let source = choose(alloc, terms, c, &a.source, &b.source)?;
    let distance = choose(alloc, terms, c, &a.distance, &b.distance)?;
    Ok(SymRib {
        valid,
        source,
        distance,
    })
}

/// The closer of two entries: the later one only where its distance is less, or where there is no earlier one.
#[tactic(auto, using(crate::proofs::Entries::closer_chosen))]
pub(crate) fn closer_rib(
    alloc: Global,
    terms: &mut Terms,
    best: &SymRib,
    next: &SymRib,
) -> Result<SymRib, AllocError>
    requires first { rib_end best.now ≤ size terms.old }
    requires second { rib_end next.now ≤ size terms.old }
    ensures builds { Builds terms.old terms.new }
    ensures within { IfOk result (λ r. rib_end r ≤ size terms.new) }
    ensures numbered { Gives terms.new result (λ w r. IsNumbered w best.now → IsNumbered w next.now → IsNumbered w r) }
    ensures value { Gives terms.new result (λ w r. rib_of w r ≡ closer_of (rib_of w best.now) (rib_of w next.now)) }
{
    let nearer = less(terms, &next.distance, &best.distance)?;
    let missing = negate(terms, best.valid)?;
    let wins = either(terms, missing, nearer)?;
    let takes = both(terms, next.valid, wins)?;
    choose_rib(alloc, terms, takes, next, best)
}
