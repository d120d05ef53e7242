//! The next hops of OSPF entries, as forwardings.

ghost use Rattle.std.specs.Prelude.{◌+◌, ◌<◌, ◌≤◌, ◌&&◌, IfOk, [], ◌∷◌, ◌++◌};
ghost use Rattle.std.specs.Prelude.{if◌then◌else◌, length};
ghost use Rattle.std.specs.Prelude.{List as ListOf, map};
ghost use Rattle.std.specs.Option.{option_map_or};
ghost use Rattle.mw_text.specs.Address.{prefix_at};
ghost use Rattle.net_parts.specs.Ospf.{adjacencies};
ghost use Rattle.net_parts.specs.Sending.{sent_by_ospf};
ghost use Rattle.question_lang.specs.declared.walk.Hop.{Hop as HopOf};
ghost use Rattle.question_lang.specs.Hops as hops;
ghost use Rattle.sym_policy.specs.Held.{failures_of, ospf_of, ospf_end};
ghost use Rattle.sym_policy.specs.Records.{address_of, packet_end, prefix_of as prefix_read};
ghost use Rattle.sym_forwarding.specs.Aims.{sought_by};
ghost use Rattle.sym_forwarding.specs.Offers as defined;
ghost use Rattle.sym_policy.specs.Packets.{packet_of};
ghost use Rattle.sym_forwarding.specs.Symbolic.{forwarding_of, forwarding_end};
ghost use Rattle.sym_forwarding.specs.Twins.{IsTwin};
ghost use Rattle.sym_rib.specs.Worlds.{read_tables, slots_end};
ghost use Rattle.term_store.specs.Terms.{size};
ghost use Rattle.term_store.specs.Reading.{Builds, Gives};
ghost use Rattle.term_arith.specs.Bits.{ids_end};

use crate::offers::sym_sends_over;
use crate::stop::Stop;
use net_model::Adjacency;
use std::alloc::{AllocError, Global};
use sym_forwarding::{SymAim, SymForwarding, join_forwarding, sym_send_adjacent};
use sym_policy::SymOspf;
use term_arith::gates::{constant_node, is_never};
use term_store::Terms;

// Over the adjacency, where the entry sends over it, and where the rest does.
fn sym_adjacent_or(
    alloc: Global,
    terms: &mut Terms,
    stop: &Stop<'_>,
    aim: &SymAim,
    len: u8,
    held: &SymOspf,
    a: &Adjacency,
    rest: SymForwarding,
) -> Result<SymForwarding, AllocError>
    requires long { len ≤ 32 }
    requires downs { ids_end stop.now.sym.now.down ≤ size terms.old }
    requires slots { slots_end stop.now.tables.now.slots.now ≤ size terms.old }
    requires packet { packet_end stop.now.packet.now ≤ size terms.old }
    requires aim { aim.now.here.0 < size terms.old }
    requires held { ospf_end held.now ≤ size terms.old }
    requires rest { forwarding_end rest ≤ size terms.old }
    ensures builds { Builds terms.old terms.new }
    ensures within { IfOk result (λ r. forwarding_end r ≤ size terms.new) }
    ensures value { Gives terms.new result (λ w r. (others : ListOf HopOf) →
        IsTwin (sought_by w aim.now) others (forwarding_of w rest) →
        IsTwin (sought_by w aim.now)
        ((if defined.is_up_from stop.now.net.now.files (failures_of w stop.now.sym.now) stop.now.router a.now
        && defined.offers (read_tables w stop.now.tables.now) (prefix_read w stop.now.packet.now.dst len)
        (ospf_of w held.now) a.now
        then hops.send_adjacent stop.now.net.now.files (packet_of w stop.now.packet.now) a.now ∷ [] else []) ++ others)
        (forwarding_of w r)) }
{
    if a.from.router != stop.router {
        return Ok(rest);
    }
    let taken = sym_sends_over(alloc, terms, stop, len, held, a)?;
    if is_never(terms, taken) {
        return Ok(rest);
    }
    let to = sym_send_adjacent(alloc, terms, stop.net, stop.packet, aim, a)?;
    let made = join_forwarding(terms, taken, rest, &to)?;
    Ok(made)
}

/// Where an OSPF entry of that length leads: over each adjacency of the router that is up and offers the route it
/// holds.
pub(crate) fn sym_ospf_hops(
    alloc: Global,
    terms: &mut Terms,
    stop: &Stop<'_>,
    aim: &SymAim,
    len: u8,
    held: &SymOspf,
) -> Result<SymForwarding, AllocError>
    requires long { len ≤ 32 }
    requires downs { ids_end stop.now.sym.now.down ≤ size terms.old }
    requires slots { slots_end stop.now.tables.now.slots.now ≤ size terms.old }
    requires packet { packet_end stop.now.packet.now ≤ size terms.old }
    requires aim { aim.now.here.0 < size terms.old }
    requires held { ospf_end held.now ≤ size terms.old }
    ensures builds { Builds terms.old terms.new }
    ensures within { IfOk result (λ r. forwarding_end r ≤ size terms.new) }
    ensures value { Gives terms.new result (λ w r. IsTwin (sought_by w aim.now)
        (option_map_or (λ h. map (hops.send_adjacent stop.now.net.now.files (packet_of w stop.now.packet.now))
        (sent_by_ospf stop.now.net.now.files (failures_of w stop.now.sym.now) (read_tables w stop.now.tables.now)
        stop.now.router (prefix_at (address_of w stop.now.packet.now.dst) len) h))
        (ospf_of w held.now) []) (forwarding_of w r)) }
{
    let all = stop.net.adjacencies();
    let never = constant_node(terms, false)?;
    let mut rest = SymForwarding {
        next: Vec::new(alloc),
        ends: never,
    };
    for i in (0..all.len()).rev() {
        rest = sym_adjacent_or(alloc, terms, stop, aim, len, held, &all[i], rest)?;
    }
    Ok(rest)
}
