//! Which OSPF records are offered over adjacencies, as terms (RFC 2328, section 16.1).

ghost use Rattle.std.specs.Prelude.{◌≡◌, ℕ, ◌+◌, ◌*◌, ◌<◌, ◌≤◌, ◌==◌, ◌&&◌, ◌||◌, Bool, false, IfOk};
ghost use Rattle.std.specs.Prelude.{if◌then◌else◌, length, Some, None};
ghost use Rattle.std.specs.Option.{option_map_or};
ghost use Rattle.net_parts.specs.Sending as sent;
ghost use Rattle.sym_policy.specs.Held.{failures_of, ospf_of, ospf_end};
ghost use Rattle.sym_policy.specs.Records.{prefix_of as prefix_read};
ghost use Rattle.sym_forwarding.specs.Offers as defined;
ghost use Rattle.sym_rib.specs.Worlds.{read_tables, slots_end};
ghost use Rattle.term_store.specs.Terms.{size, at};
ghost use Rattle.term_store.specs.Reading.{Builds, Gives};
ghost use Rattle.term_arith.specs.Bits.{ids_end};

use crate::stop::Stop;
use net_model::Adjacency;
use std::alloc::{AllocError, Global};
use sym_forwarding::sym_up_from;
use sym_ospf::{sym_same_record, sym_transfer};
use sym_policy::SymOspf;
use sym_rib::{SymTables, slot_for};
use term_arith::Bits;
use term_arith::gates::{both, constant_node};
use term_store::{NodeId, Terms};

// Whether both routes are there and are one.
fn sym_is_held(terms: &mut Terms, held: &SymOspf, offer: &SymOspf) -> Result<NodeId, AllocError>
    requires first { ospf_end held.now ≤ size terms.old }
    requires second { ospf_end offer.now ≤ size terms.old }
    ensures builds { Builds terms.old terms.new }
    ensures within { IfOk result (λ r. r.0 < size terms.new) }
    ensures value { Gives terms.new result (λ w r. at w r ≡ option_map_or
        (λ h. option_map_or (sent.same_record h) (ospf_of w offer.now) false) (ospf_of w held.now) false) }
{
    let same = sym_same_record(terms, held, offer)?;
    let there = both(terms, held.valid, offer.valid)?;
    both(terms, there, same)
}

// Whether `up` is true and the far router of the adjacency offers the held route.
fn sym_offers(
    alloc: Global,
    terms: &mut Terms,
    tables: &SymTables<'_>,
    dst: &Bits,
    len: u8,
    held: &SymOspf,
    up: NodeId,
    a: &Adjacency,
) -> Result<NodeId, AllocError>
    requires long { len ≤ 32 }
    requires slots { slots_end tables.now.slots.now ≤ size terms.old }
    requires held { ospf_end held.now ≤ size terms.old }
    requires up { up.0 < size terms.old }
    ensures builds { Builds terms.old terms.new }
    ensures within { IfOk result (λ r. r.0 < size terms.new) }
    ensures value { Gives terms.new result (λ w r. at w r ≡ (at w up
        && defined.offers (read_tables w tables.now) (prefix_read w dst.now len) (ospf_of w held.now) a.now)) }
{
    match slot_for(tables, a.to.router, len) {
        None => constant_node(terms, false),
        Some(far) => {
            let offer = sym_transfer(alloc, terms, &far.ospf, up, a.cost)?;
            let same = sym_is_held(terms, held, &offer)?;
            Ok(same)
        }
    }
}

/// Whether the adjacency is one of the router that is up, and its far router offers the held route.
pub(crate) fn sym_sends_over(
    alloc: Global,
    terms: &mut Terms,
    stop: &Stop<'_>,
    len: u8,
    held: &SymOspf,
    a: &Adjacency,
) -> Result<NodeId, AllocError>
    requires long { len ≤ 32 }
    requires downs { ids_end stop.now.sym.now.down ≤ size terms.old }
    requires slots { slots_end stop.now.tables.now.slots.now ≤ size terms.old }
    requires held { ospf_end held.now ≤ size terms.old }
    ensures builds { Builds terms.old terms.new }
    ensures within { IfOk result (λ r. r.0 < size terms.new) }
    ensures value { Gives terms.new result (λ w r. at w r ≡
        (defined.is_up_from stop.now.net.now.files (failures_of w stop.now.sym.now) stop.now.router a.now
        && defined.offers (read_tables w stop.now.tables.now) (prefix_read w stop.now.packet.now.dst len)
        (ospf_of w held.now) a.now)) }
{
    if a.from.router != stop.router {
        return constant_node(terms, false);
    }
    let up = sym_up_from(alloc, terms, stop.net, stop.sym, stop.router, a)?;
    sym_offers(
        alloc,
        terms,
        stop.tables,
        &stop.packet.dst,
        len,
        held,
        up,
        a,
    )
}
