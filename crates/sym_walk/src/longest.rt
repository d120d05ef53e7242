//! What a router does with a packet, as a forwarding (RFC 1812, section 5.2.4).

ghost use Rattle.std.specs.Prelude.{◌≡◌, ℕ, ◌+◌, ◌*◌, ◌<◌, ◌≤◌, Bool, IfOk, [], ◌∷◌, if◌then◌else◌, length};
ghost use Rattle.std.specs.Prelude.{List as ListOf, Option as OptionOf, Some, None};
ghost use Rattle.std.specs.Option.{option_map_or};
ghost use Rattle.net_parts.specs.Routing.{up_interfaces};
ghost use Rattle.question_lang.specs.declared.walk.End.TheVariants.{NoRoute};
ghost use Rattle.question_lang.specs.declared.walk.Hop.{Hop as HopOf};
ghost use Rattle.question_lang.specs.declared.walk.Hop.TheVariants.{Ends};
ghost use Rattle.question_lang.specs.Hops as hops;
ghost use Rattle.route_record.specs.declared.RibEntry.{RibEntry};
ghost use Rattle.route_record.specs.declared.Slot.{Slot};
ghost use Rattle.route_record.specs.declared.TheConstants as constants;
ghost use Rattle.sym_ospf.specs.Rows.{net_end};
ghost use Rattle.sym_policy.specs.Held.{failures_of};
ghost use Rattle.sym_policy.specs.Records.{packet_end};
ghost use Rattle.sym_rib.specs.Slots.{slot_end};
ghost use Rattle.sym_forwarding.specs.Aims.{sought_by};
ghost use Rattle.sym_walk.specs.Distances.{DistancesIfNeeded, DistancesWhereNeeded};
ghost use Rattle.sym_walk.specs.Entries as defined;
ghost use Rattle.sym_forwarding.specs.Symbolic.{forwarding_of, forwarding_end};
ghost use Rattle.sym_forwarding.specs.Twins.{IsTwin};
ghost use Rattle.sym_rib.specs.Worlds.{read_tables, read_world, slots_end};
ghost use Rattle.term_store.specs.Terms.{Reading, size, at};
ghost use Rattle.term_store.specs.Reading.{Reads, Builds, Gives};

use crate::entries::sym_entry_hops;
use crate::stop::Stop;
use ios_ast::File;
use question_lang::End;
use route_record::LENGTHS;
use std::alloc::{AllocError, Global};
use sym_forwarding::{SymAim, SymForwarding, choose_forwarding, sym_ends, sym_own};
use sym_rib::{SymSlot, slot_for};
use term_arith::gates::is_never;
use term_store::Terms;

// By the entry of the slot where it has one, and else as given.
fn sym_by_slot(
    alloc: Global,
    terms: &mut Terms,
    stop: &Stop<'_>,
    aim: &SymAim,
    file: &File,
    len: u8,
    slot: &SymSlot,
    rest: SymForwarding,
) -> Result<SymForwarding, AllocError>
    requires net { net_end stop.now.sym.now ≤ size terms.old }
    requires slots { slots_end stop.now.tables.now.slots.now ≤ size terms.old }
    requires packet { packet_end stop.now.packet.now ≤ size terms.old }
    requires aim { aim.now.here.0 < size terms.old }
    requires long { len ≤ 32 }
    requires slot { slot_end slot.now ≤ size terms.old }
    requires rest { forwarding_end rest ≤ size terms.old }
    ensures builds { Builds terms.old terms.new }
    ensures within { IfOk result (λ r. forwarding_end r ≤ size terms.new) }
    ensures value { Gives terms.new result (λ w r. DistancesIfNeeded w stop.now.net.now.files stop.now.sym.now
        slot.now →
        (others : ListOf HopOf) →
        IsTwin (sought_by w aim.now) others (forwarding_of w rest) →
        IsTwin (sought_by w aim.now) (if at w slot.now.rib.valid then defined.entry_of w stop.now.net.now.files
        (read_world w stop.now.sym.now stop.now.packet.now stop.now.tables.now)
        (hops.all_up stop.now.net.now.files (failures_of w stop.now.sym.now))
        (up_interfaces stop.now.net.now.files (failures_of w stop.now.sym.now) stop.now.router) stop.now.router
        file.now len
        slot.now else others)
        (forwarding_of w r)) }
{
    if is_never(terms, slot.rib.valid) {
        return Ok(rest);
    }
    let to = sym_entry_hops(alloc, terms, stop, aim, file, len, slot)?;
    let made = choose_forwarding(alloc, terms, slot.rib.valid, &to, &rest)?;
    Ok(made)
}

// By the entry of that length where the router has one, and else as given.
fn sym_longer(
    alloc: Global,
    terms: &mut Terms,
    stop: &Stop<'_>,
    aim: &SymAim,
    file: &File,
    len: u8,
    rest: SymForwarding,
) -> Result<SymForwarding, AllocError>
    requires net { net_end stop.now.sym.now ≤ size terms.old }
    requires slots { slots_end stop.now.tables.now.slots.now ≤ size terms.old }
    requires packet { packet_end stop.now.packet.now ≤ size terms.old }
    requires aim { aim.now.here.0 < size terms.old }
    requires long { len ≤ 32 }
    requires rest { forwarding_end rest ≤ size terms.old }
    ensures builds { Builds terms.old terms.new }
    ensures within { IfOk result (λ r. forwarding_end r ≤ size terms.new) }
    ensures value { Gives terms.new result (λ w r.
        DistancesWhereNeeded w stop.now.net.now.files stop.now.sym.now stop.now.tables.now.slots.now →
        (shorter : OptionOf (ℕ × Slot × RibEntry)) →
        IsTwin (sought_by w aim.now)
        (defined.by_entry stop.now.net.now.files (read_world w stop.now.sym.now stop.now.packet.now stop.now.tables.now)
        stop.now.router file.now shorter) (forwarding_of w rest) →
        IsTwin (sought_by w aim.now)
        (defined.by_entry stop.now.net.now.files (read_world w stop.now.sym.now stop.now.packet.now stop.now.tables.now)
        stop.now.router file.now
        (defined.longer (read_tables w stop.now.tables.now) stop.now.router len shorter)) (forwarding_of w r)) }
{
    match slot_for(stop.tables, stop.router, len) {
        None => Ok(rest),
        Some(slot) => {
            let made = sym_by_slot(alloc, terms, stop, aim, file, len, slot, rest)?;
            Ok(made)
        }
    }
}

// By the longest prefix with an entry.
fn sym_longest(
    alloc: Global,
    terms: &mut Terms,
    stop: &Stop<'_>,
    aim: &SymAim,
    file: &File,
) -> Result<SymForwarding, AllocError>
    requires net { net_end stop.now.sym.now ≤ size terms.old }
    requires slots { slots_end stop.now.tables.now.slots.now ≤ size terms.old }
    requires packet { packet_end stop.now.packet.now ≤ size terms.old }
    requires aim { aim.now.here.0 < size terms.old }
    ensures builds { Builds terms.old terms.new }
    ensures within { IfOk result (λ r. forwarding_end r ≤ size terms.new) }
    ensures value { Gives terms.new result (λ w r.
        DistancesWhereNeeded w stop.now.net.now.files stop.now.sym.now stop.now.tables.now.slots.now →
        IsTwin (sought_by w aim.now)
        (defined.by_entry stop.now.net.now.files (read_world w stop.now.sym.now stop.now.packet.now stop.now.tables.now)
        stop.now.router file.now
        (hops.longest_below (read_tables w stop.now.tables.now) stop.now.router constants.LENGTHS))
        (forwarding_of w r)) }
{
    let mut rest = sym_ends(alloc, terms, aim, End::NoRoute)?;
    for len in 0..LENGTHS as u8 {
        rest = sym_longer(alloc, terms, stop, aim, file, len, rest)?;
    }
    Ok(rest)
}

/// What a router of the network does with the packet: it delivers it where the destination is an address of an
/// interface of its own that is up, else the entry of the longest prefix decides, and without one there is no route.
pub(crate) fn sym_hops(
    alloc: Global,
    terms: &mut Terms,
    stop: &Stop<'_>,
    aim: &SymAim,
    file: &File,
) -> Result<SymForwarding, AllocError>
    requires net { net_end stop.now.sym.now ≤ size terms.old }
    requires slots { slots_end stop.now.tables.now.slots.now ≤ size terms.old }
    requires packet { packet_end stop.now.packet.now ≤ size terms.old }
    requires aim { aim.now.here.0 < size terms.old }
    ensures builds { Builds terms.old terms.new }
    ensures within { IfOk result (λ r. forwarding_end r ≤ size terms.new) }
    ensures value { Gives terms.new result (λ w r. DistancesWhereNeeded w stop.now.net.now.files stop.now.sym.now
        stop.now.tables.now.slots.now →
        IsTwin (sought_by w aim.now)
        (hops.hops_over stop.now.net.now.files (read_world w stop.now.sym.now stop.now.packet.now stop.now.tables.now)
        (hops.all_up stop.now.net.now.files (failures_of w stop.now.sym.now))
        (up_interfaces stop.now.net.now.files (failures_of w stop.now.sym.now) stop.now.router) stop.now.router
        file.now) (forwarding_of w r)) }
{
    let own = sym_own(
        alloc,
        terms,
        stop.net,
        stop.sym,
        stop.router,
        &stop.packet.dst,
    )?;
    let here = sym_ends(alloc, terms, aim, End::Delivered)?;
    let on = sym_longest(alloc, terms, stop, aim, file)?;
    let made = choose_forwarding(alloc, terms, own, &here, &on)?;
    Ok(made)
}
