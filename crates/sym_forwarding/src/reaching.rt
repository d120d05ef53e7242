//! To an address that is open over an interface of a router whose subnet has it, as forwardings. Where the address is
//! known the tests of `over` fold to constants.

ghost use Rattle.std.specs.Prelude.{◌≡◌, ℕ, ◌+◌, ◌<◌, ◌≤◌, ◌==◌, ◌&&◌, Bool, IfOk, [], ◌∷◌, ◌++◌, length};
ghost use Rattle.std.specs.Prelude.{List as ListOf};
ghost use Rattle.net_interfaces.specs.declared.interfaces.Addressed.{Addressed as AddressedOf};
ghost use Rattle.net_interfaces.specs.Interfaces.{addressed};
ghost use Rattle.question_lang.specs.Hops as hops;
ghost use Rattle.sym_ospf.specs.Rows.{net_end};
ghost use Rattle.sym_policy.specs.Held.{failures_of};
ghost use Rattle.sym_policy.specs.Records.{address_of, packet_end};
ghost use Rattle.sym_forwarding.specs.Aims.{sought_by};
ghost use Rattle.sym_forwarding.specs.Firsts as firsts;
ghost use Rattle.sym_policy.specs.Packets.{packet_of};
ghost use Rattle.sym_forwarding.specs.Symbolic.{forwarding_of, forwarding_end};
ghost use Rattle.sym_forwarding.specs.Twins.{IsTwin};
ghost use Rattle.term_store.specs.Terms.{Reading, size, at};
ghost use Rattle.term_store.specs.Reading.{Reads, Builds, Gives};
ghost use Rattle.term_arith.specs.Bits.{ids_end};

use crate::firsts::{SymFirst, first_else, first_or, no_first};
use crate::forwarding::SymForwarding;
use crate::lists::{sym_arrive, sym_depart};
use crate::over::sym_reaches;
use crate::owners::sym_has;
use crate::sending::sym_leaves;
use crate::sent::Sent;
use mw_text::Prefix;
use net_model::Addressed;
use std::alloc::{AllocError, Global};
use term_arith::Bits;
use term_arith::gates::is_never;
use term_store::Terms;

// One more interface, which may have the address on the subnet.
fn sym_owner_also(
    alloc: Global,
    terms: &mut Terms,
    sent: &Sent<'_>,
    subnet: &Prefix,
    a: &Bits,
    x: &Addressed,
    before: SymFirst,
) -> Result<SymFirst, AllocError>
    requires downs { ids_end sent.now.sym.now.down ≤ size terms.old }
    requires packet { packet_end sent.now.packet.now ≤ size terms.old }
    requires aim { sent.now.aim.now.here.0 < size terms.old }
    requires nodes { ids_end a.now.nodes.items ≤ size terms.old }
    requires before { firsts.first_end before ≤ size terms.old }
    ensures builds { Builds terms.old terms.new }
    ensures within { IfOk result (λ r. firsts.first_end r ≤ size terms.new) }
    ensures value { Gives terms.new result (λ w r. (xs : ListOf AddressedOf) →
        firsts.IsFirstIn w (sought_by w sent.now.aim.now)
        (firsts.is_owner sent.now.net.now.files (failures_of w sent.now.sym.now) subnet.now (address_of w a.now))
        (firsts.owner_arrives sent.now.net.now.files (packet_of w sent.now.packet.now)) xs before →
        firsts.IsFirstIn w (sought_by w sent.now.aim.now)
        (firsts.is_owner sent.now.net.now.files (failures_of w sent.now.sym.now) subnet.now (address_of w a.now))
        (firsts.owner_arrives sent.now.net.now.files (packet_of w sent.now.packet.now)) (xs ++ x.now ∷ []) r) }
{
    if x.subnet != *subnet {
        return Ok(before);
    }
    let here = sym_has(alloc, terms, sent.net, sent.sym, subnet, a, x)?;
    let to = sym_arrive(alloc, terms, sent.net, sent.packet, sent.aim, x.id)?;
    let made = first_or(terms, before, here, &to)?;
    Ok(made)
}

// In at the first interface that has the address on the subnet.
fn sym_first_owner(
    alloc: Global,
    terms: &mut Terms,
    sent: &Sent<'_>,
    subnet: &Prefix,
    a: &Bits,
) -> Result<SymFirst, AllocError>
    requires downs { ids_end sent.now.sym.now.down ≤ size terms.old }
    requires packet { packet_end sent.now.packet.now ≤ size terms.old }
    requires aim { sent.now.aim.now.here.0 < size terms.old }
    requires nodes { ids_end a.now.nodes.items ≤ size terms.old }
    ensures builds { Builds terms.old terms.new }
    ensures within { IfOk result (λ r. firsts.first_end r ≤ size terms.new) }
    ensures value { Gives terms.new result (λ w r. firsts.IsFirstIn w (sought_by w sent.now.aim.now)
        (firsts.is_owner sent.now.net.now.files (failures_of w sent.now.sym.now) subnet.now (address_of w a.now))
        (firsts.owner_arrives sent.now.net.now.files (packet_of w sent.now.packet.now))
        (addressed sent.now.net.now.files) r) }
{
    let mut first = no_first(alloc, terms)?;
    for x in sent.net.addresses() {
        first = sym_owner_also(alloc, terms, sent, subnet, a, x, first)?;
    }
    Ok(first)
}

// Out of an interface to an address on its subnet: to the router that has it, or out of the network.
fn sym_send_out(
    alloc: Global,
    terms: &mut Terms,
    sent: &Sent<'_>,
    out: &Addressed,
    a: &Bits,
) -> Result<SymForwarding, AllocError>
    requires downs { ids_end sent.now.sym.now.down ≤ size terms.old }
    requires packet { packet_end sent.now.packet.now ≤ size terms.old }
    requires aim { sent.now.aim.now.here.0 < size terms.old }
    requires nodes { ids_end a.now.nodes.items ≤ size terms.old }
    ensures builds { Builds terms.old terms.new }
    ensures within { IfOk result (λ r. forwarding_end r ≤ size terms.new) }
    ensures value { Gives terms.new result (λ w r. IsTwin (sought_by w sent.now.aim.now)
        (hops.send_to sent.now.net.now.files (packet_of w sent.now.packet.now)
        (hops.all_up sent.now.net.now.files (failures_of w sent.now.sym.now)) out.now (address_of w a.now) ∷ [])
        (forwarding_of w r)) }
{
    let left = sym_leaves(alloc, terms, sent.aim, a)?;
    let first = sym_first_owner(alloc, terms, sent, &out.subnet, a)?;
    let on = first_else(terms, first, &left)?;
    let made = sym_depart(alloc, terms, sent.net, sent.packet, sent.aim, out.id, &on)?;
    Ok(made)
}

// One more interface, over which the router may reach the address.
fn sym_over_also(
    alloc: Global,
    terms: &mut Terms,
    sent: &Sent<'_>,
    router: u32,
    a: &Bits,
    x: &Addressed,
    before: SymFirst,
) -> Result<SymFirst, AllocError>
    requires downs { ids_end sent.now.sym.now.down ≤ size terms.old }
    requires packet { packet_end sent.now.packet.now ≤ size terms.old }
    requires aim { sent.now.aim.now.here.0 < size terms.old }
    requires wide { length a.now.nodes.items ≡ 32 }
    requires nodes { ids_end a.now.nodes.items ≤ size terms.old }
    requires before { firsts.first_end before ≤ size terms.old }
    ensures builds { Builds terms.old terms.new }
    ensures within { IfOk result (λ r. firsts.first_end r ≤ size terms.new) }
    ensures value { Gives terms.new result (λ w r. (xs : ListOf AddressedOf) →
        firsts.IsFirstIn w (sought_by w sent.now.aim.now)
        (firsts.reaches sent.now.net.now.files (failures_of w sent.now.sym.now) router (address_of w a.now))
        (firsts.sent_to sent.now.net.now.files (failures_of w sent.now.sym.now) (packet_of w sent.now.packet.now)
        (address_of w a.now)) xs before →
        firsts.IsFirstIn w (sought_by w sent.now.aim.now)
        (firsts.reaches sent.now.net.now.files (failures_of w sent.now.sym.now) router (address_of w a.now))
        (firsts.sent_to sent.now.net.now.files (failures_of w sent.now.sym.now) (packet_of w sent.now.packet.now)
        (address_of w a.now)) (xs ++ x.now ∷ []) r) }
{
    let here = sym_reaches(alloc, terms, sent.net, sent.sym, router, a, x)?;
    if is_never(terms, here) {
        return Ok(before);
    }
    let to = sym_send_out(alloc, terms, sent, x, a)?;
    let made = first_or(terms, before, here, &to)?;
    Ok(made)
}

/// To an address over the first interface of the router that is up and whose subnet has it.
pub(crate) fn sym_first_over(
    alloc: Global,
    terms: &mut Terms,
    sent: &Sent<'_>,
    router: u32,
    a: &Bits,
) -> Result<SymFirst, AllocError>
    requires downs { ids_end sent.now.sym.now.down ≤ size terms.old }
    requires packet { packet_end sent.now.packet.now ≤ size terms.old }
    requires aim { sent.now.aim.now.here.0 < size terms.old }
    requires wide { length a.now.nodes.items ≡ 32 }
    requires nodes { ids_end a.now.nodes.items ≤ size terms.old }
    ensures builds { Builds terms.old terms.new }
    ensures within { IfOk result (λ r. firsts.first_end r ≤ size terms.new) }
    ensures value { Gives terms.new result (λ w r. firsts.IsFirstIn w (sought_by w sent.now.aim.now)
        (firsts.reaches sent.now.net.now.files (failures_of w sent.now.sym.now) router (address_of w a.now))
        (firsts.sent_to sent.now.net.now.files (failures_of w sent.now.sym.now) (packet_of w sent.now.packet.now)
        (address_of w a.now)) (addressed sent.now.net.now.files) r) }
{
    let mut first = no_first(alloc, terms)?;
    for x in sent.net.addresses() {
        first = sym_over_also(alloc, terms, sent, router, a, x, first)?;
    }
    Ok(first)
}
