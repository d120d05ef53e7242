//! What each router of a network does with a packet, as a table of forwardings.

ghost use Rattle.std.specs.Prelude.{◌≡◌, ℕ, ◌+◌, ◌<◌, ◌≤◌, Bool, IfOk, [], ◌∷◌, ◌++◌, length};
ghost use Rattle.question_lang.specs.Hops as hops;
ghost use Rattle.sym_ospf.specs.Rows.{net_end};
ghost use Rattle.sym_policy.specs.Held.{failures_of};
ghost use Rattle.sym_policy.specs.Records.{packet_end};
ghost use Rattle.sym_forwarding.specs.Aims.{sought_by};
ghost use Rattle.sym_walk.specs.Distances.{DistancesWhereNeeded};
ghost use Rattle.sym_forwarding.specs.Here.{ends_here};
ghost use Rattle.sym_policy.specs.Packets.{packet_of};
ghost use Rattle.sym_forwarding.specs.Symbolic.{forwarding_of, forwarding_end, table_end, table_of};
ghost use Rattle.sym_walk.specs.TwinTables.{AreTwins};
ghost use Rattle.sym_forwarding.specs.Twins.{IsTwin, is_sought};
ghost use Rattle.sym_rib.specs.Worlds.{read_world, slots_end};
ghost use Rattle.term_store.specs.Terms.{Reading, size, at};
ghost use Rattle.term_store.specs.Reading.{Reads, Builds, Gives};

use crate::longest::sym_hops;
use crate::stop::Stop;
use mw_text::List;
use net_model::Net;
use net_parts::ends::file_of;
use question_lang::Kind;
use std::alloc::{AllocError, Global};
use sym_forwarding::{SymAim, SymForwarding, still_forwarding, sym_here};
use sym_policy::{SymNet, SymPacket};
use sym_rib::SymTables;
use term_store::Terms;

// What the router of that number does with the packet. A number that is no router's does nothing.
fn sym_next(
    alloc: Global,
    terms: &mut Terms,
    stop: &Stop<'_>,
    aim: &SymAim,
) -> Result<SymForwarding, AllocError>
    requires net { net_end stop.now.sym.now ≤ size terms.old }
    requires slots { slots_end stop.now.tables.now.slots.now ≤ size terms.old }
    requires packet { packet_end stop.now.packet.now ≤ size terms.old }
    requires aim { aim.now.here.0 < size terms.old }
    ensures builds { Builds terms.old terms.new }
    ensures within { IfOk result (λ r. forwarding_end r ≤ size terms.new) }
    ensures value { Gives terms.new result (λ w r.
        DistancesWhereNeeded w stop.now.net.now.files stop.now.sym.now stop.now.tables.now.slots.now →
        IsTwin (sought_by w aim.now)
        (hops.next_hops stop.now.net.now.files (read_world w stop.now.sym.now stop.now.packet.now stop.now.tables.now)
        stop.now.router) (forwarding_of w r)) }
{
    match file_of(stop.net.routers(), stop.router) {
        None => {
            let none = still_forwarding(alloc, terms)?;
            Ok(none)
        }
        Some(file) => {
            let made = sym_hops(alloc, terms, stop, aim, file)?;
            Ok(made)
        }
    }
}

/// The same, for a question of that kind.
pub(crate) fn sym_router(
    alloc: Global,
    terms: &mut Terms,
    stop: &Stop<'_>,
    kind: Kind,
) -> Result<SymForwarding, AllocError>
    requires net { net_end stop.now.sym.now ≤ size terms.old }
    requires slots { slots_end stop.now.tables.now.slots.now ≤ size terms.old }
    requires packet { packet_end stop.now.packet.now ≤ size terms.old }
    ensures builds { Builds terms.old terms.new }
    ensures within { IfOk result (λ r. forwarding_end r ≤ size terms.new) }
    ensures value { Gives terms.new result (λ w r.
        DistancesWhereNeeded w stop.now.net.now.files stop.now.sym.now stop.now.tables.now.slots.now →
        IsTwin
        (is_sought kind (ends_here stop.now.net.now.files (failures_of w stop.now.sym.now)
        (packet_of w stop.now.packet.now)
        stop.now.router kind))
        (hops.next_hops stop.now.net.now.files (read_world w stop.now.sym.now stop.now.packet.now stop.now.tables.now)
        stop.now.router) (forwarding_of w r)) }
{
    let here = sym_here(
        alloc,
        terms,
        stop.net,
        stop.sym,
        stop.packet,
        stop.router,
        kind,
    )?;
    let aim = SymAim { kind, here };
    let made = sym_next(alloc, terms, stop, &aim)?;
    Ok(made)
}

// The table with one router more.
fn with_one(
    table: List<SymForwarding>,
    one: SymForwarding,
) -> Result<List<SymForwarding>, AllocError>
    ensures { IfOk result (λ r. r ≡ table ++ one ∷ []) }
{
    let mut longer = table;
    longer.items.push(one)?;
    Ok(longer)
}

/// How many routers there are.
pub(crate) fn router_count(net: &Net) -> u32
    ensures { result ≡ length net.now.files }
{
    net.routers().len() as u32
}

// The table of the first routers, with that of the next number.
#[tactic(auto, using(crate::proofs::PushedTwins::table_end_push, crate::proofs::PushedTwins::longer_by_one))]
fn add_router(
    alloc: Global,
    terms: &mut Terms,
    stop: &Stop<'_>,
    kind: Kind,
    table: List<SymForwarding>,
) -> Result<List<SymForwarding>, AllocError>
    requires net { net_end stop.now.sym.now ≤ size terms.old }
    requires slots { slots_end stop.now.tables.now.slots.now ≤ size terms.old }
    requires packet { packet_end stop.now.packet.now ≤ size terms.old }
    requires table { table_end table ≤ size terms.old }
    ensures builds { Builds terms.old terms.new }
    ensures within { IfOk result (λ r. table_end r ≤ size terms.new) }
    ensures long { IfOk result (λ r. length r ≡ length table + 1) }
    ensures value { Gives terms.new result (λ w r.
        DistancesWhereNeeded w stop.now.net.now.files stop.now.sym.now stop.now.tables.now.slots.now →
        AreTwins stop.now.net.now.files (read_world w stop.now.sym.now stop.now.packet.now stop.now.tables.now) kind
        stop.now.router (table_of w table) →
        AreTwins stop.now.net.now.files (read_world w stop.now.sym.now stop.now.packet.now stop.now.tables.now) kind
        (stop.now.router + 1) (table_of w r)) }
{
    let one = sym_router(alloc, terms, stop, kind)?;
    let made = with_one(table, one)?;
    Ok(made)
}

/// What each router of the network does with the packet, for a question of that kind. Where slots hold a BGP route, the
/// rows of `sym` are to be the interior distances.
pub fn sym_table(
    alloc: Global,
    terms: &mut Terms,
    net: &Net,
    sym: &SymNet,
    tables: &SymTables<'_>,
    packet: &SymPacket,
    kind: Kind,
) -> Result<List<SymForwarding>, AllocError>
    requires net { net_end sym.now ≤ size terms.old }
    requires slots { slots_end tables.now.slots.now ≤ size terms.old }
    requires packet { packet_end packet.now ≤ size terms.old }
    ensures builds { Builds terms.old terms.new }
    ensures within { IfOk result (λ r. table_end r ≤ size terms.new) }
    ensures long { IfOk result (λ r. length r ≡ length net.now.files) }
    ensures value { Gives terms.new result (λ w r. DistancesWhereNeeded w net.now.files sym.now tables.now.slots.now →
        AreTwins net.now.files (read_world w sym.now packet.now tables.now) kind
        (length net.now.files) (table_of w r)) }
{
    let first = Stop {
        net,
        sym,
        tables,
        packet,
        router: 0,
    };
    let mut table = List::new(alloc);
    for router in 0..router_count(net) {
        let stop = Stop { router, ..first };
        table = add_router(alloc, terms, &stop, kind, table)?;
    }
    Ok(table)
}
