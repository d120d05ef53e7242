//! What the tables want of a slot, as terms: the OSPF route that the router holds, and whether an own origin is as good.

ghost use Rattle.std.specs.Prelude.{◌≡◌, ℕ, ◌+◌, ◌≤◌, ◌<◌, ◌*◌, ◌==◌, ◌&&◌, ◌||◌, Bool, not, false, IfOk, Some, None, ◌++◌, ◌∷◌, [], if◌then◌else◌, length, max, map, slice_get};
ghost use Rattle.std.specs.Bool.{beq};
ghost use Rattle.std.specs.List.{filter_map, list_any};
ghost use Rattle.std.specs.Option.{option_map_or};
ghost use Rattle.ios_ast.specs.declared.file.File.{File as FileOf};
ghost use Rattle.ios_ast.specs.declared.ospf.Ospf.{Ospf as OspfOf};
ghost use Rattle.net_parts.specs.OspfRoutes.{is_as_good};
ghost use Rattle.net_parts.specs.Entries.{entry_with};
ghost use Rattle.route_record.specs.declared.Slot.{Slot as SlotOf};
ghost use Rattle.route_record.specs.declared.Tables.{Tables as TablesOf};
ghost use Rattle.route_record.specs.Places.{slot_at};
ghost use Rattle.sym_policy.specs.Held.{failures_of, ospf_at, ospf_of, ospf_end};
ghost use Rattle.sym_policy.specs.Records.{address_of, prefix_of as prefix_read};
ghost use Rattle.sym_policy.specs.MapRecs.{HasTracked};
ghost use Rattle.sym_rib.specs.Into.{list_end};
ghost use Rattle.sym_rib.specs.Slots.{StandsForSlot, slot_end};
ghost use Rattle.sym_rib.specs.Worlds.{slots_end};
ghost use Rattle.ospf_equations.specs.Equations.{HaveTracked, IsOpenIn, StandFor};
ghost use Rattle.world_variables.specs.Slots.{has_dynamic, is_wanted, same_ospf};
ghost use Rattle.world_variables.specs.Symbols.{open_of, open_end};
ghost use Rattle.term_store.specs.Terms.{Reading, at, size};
ghost use Rattle.term_store.specs.Reading.{Reads, Builds, Gives};
ghost use Rattle.term_arith.specs.Bits.{ids_end};

use crate::dynamic::sym_dynamic;
use crate::levels::sym_held;
use crate::limits::AllLimits;
use crate::origins::{SlotPlace, own_routes};
use net_parts::ends::file_of;
use std::alloc::{AllocError, Global};
use sym_ospf::sym_better;
use sym_policy::SymOspf;
use sym_rib::{SymSlot, SymTables, slot_for};
use term_arith::gates::{agree, both, constant_node, either, negate};
use term_store::{NodeId, Terms};
use world_variables::SymOpen;

// Whether a route is there, and is as good as a held one.
#[tactic(auto, using(crate::proofs::HoldingSteps::good_is))]
fn sym_good(terms: &mut Terms, own: &SymOspf, held: &SymOspf) -> Result<NodeId, AllocError>
    requires own { ospf_end own.now ≤ size terms.old }
    requires held { ospf_end held.now ≤ size terms.old }
    ensures builds { Builds terms.old terms.new }
    ensures within { IfOk result (λ r. r.0 < size terms.new) }
    ensures value { Gives terms.new result (λ w r. at w r
        ≡ option_map_or (λ o. is_as_good o (ospf_at w held.now)) (ospf_of w own.now) false) }
{
    let better = sym_better(terms, held, own)?;
    let good = negate(terms, better)?;
    both(terms, own.valid, good)
}

// Whether one of some routes is as good as a held one, as if that were there.
#[tactic(auto, using(crate::proofs::HoldingSteps::any_steps))]
fn sym_some_good(terms: &mut Terms, own: &[SymOspf], held: &SymOspf) -> Result<NodeId, AllocError>
    requires own { list_end ospf_end own.now ≤ size terms.old }
    requires held { ospf_end held.now ≤ size terms.old }
    ensures builds { Builds terms.old terms.new }
    ensures within { IfOk result (λ r. r.0 < size terms.new) }
    ensures value { Gives terms.new result (λ w r. at w r
        ≡ list_any (λ o. is_as_good o (ospf_at w held.now)) (filter_map (ospf_of w) own.now)) }
{
    let mut any = constant_node(terms, false)?;
    for rec in own {
        let good = sym_good(terms, rec, held)?;
        any = either(terms, any, good)?;
    }
    Ok(any)
}

// Whether a held route is there, and one of some is as good.
fn sym_as_good(terms: &mut Terms, own: &[SymOspf], held: &SymOspf) -> Result<NodeId, AllocError>
    requires own { list_end ospf_end own.now ≤ size terms.old }
    requires held { ospf_end held.now ≤ size terms.old }
    ensures builds { Builds terms.old terms.new }
    ensures within { IfOk result (λ r. r.0 < size terms.new) }
    ensures value { Gives terms.new result (λ w r. at w r ≡ option_map_or (λ h. list_any (λ o. is_as_good o h)
        (filter_map (ospf_of w) own.now)) (ospf_of w held.now) false) }
{
    let any = sym_some_good(terms, own, held)?;
    let good = both(terms, held.valid, any)?;
    Ok(good)
}

// Whether what is open of the slot of a router that runs OSPF is as the tables want it.
fn sym_runs(
    alloc: Global,
    terms: &mut Terms,
    place: &SlotPlace<'_>,
    tables: &SymTables<'_>,
    slot: &SymSlot,
    part: &SymOpen,
    limits: &AllLimits,
) -> Result<NodeId, AllocError>
    requires long { place.now.len ≤ 32 }
    requires wide { length place.now.dst.now.nodes.items ≡ 32 }
    requires nodes { ids_end place.now.dst.now.nodes.items ≤ size terms.old }
    requires down { ids_end place.now.sym.now.down ≤ size terms.old }
    requires rows { HasTracked place.now.net.now.tracked slot.now.bgp }
    requires tables { slots_end tables.now.slots.now ≤ size terms.old }
    requires slot { slot_end slot.now ≤ size terms.old }
    requires part { open_end part.now ≤ size terms.old }
    ensures builds { Builds terms.old terms.new }
    ensures within { IfOk result (λ r. r.0 < size terms.new) }
    ensures value { Gives terms.new result (λ w r. (real : TablesOf) (held : SlotOf) (file : FileOf)
        (process : OspfOf) →
        StandFor w place.now.net.now.tracked tables.now real → StandsForSlot w place.now.net.now.tracked slot.now held →
        slot_at real place.now.router place.now.len ≡ Some held → ospf_of w part.now.ospf ≡ held.ospf →
        slice_get place.now.net.now.files place.now.router ≡ Some file → file.ospf ≡ Some process →
        at w r ≡ is_wanted place.now.net.now.files (failures_of w place.now.sym.now) (address_of w place.now.dst.now)
        real place.now.router place.now.len (open_of w part.now) held file) }
{
    let own = own_routes(alloc, terms, place, slot)?;
    let good = sym_as_good(terms, own.as_slice(), &part.ospf)?;
    let best = sym_held(alloc, terms, place, tables, own, &part.ospf, limits)?;
    let bit = sym_dynamic(alloc, terms, place, slot, good)?;
    let same = agree(terms, part.dynamic, bit)?;
    let wanted = both(terms, best, same)?;
    Ok(wanted)
}

// The same for a router without OSPF: there is no route, and the bit is that of an entry without OSPF's.
fn sym_closed(
    alloc: Global,
    terms: &mut Terms,
    place: &SlotPlace<'_>,
    slot: &SymSlot,
    part: &SymOpen,
) -> Result<NodeId, AllocError>
    requires long { place.now.len ≤ 32 }
    requires wide { length place.now.dst.now.nodes.items ≡ 32 }
    requires nodes { ids_end place.now.dst.now.nodes.items ≤ size terms.old }
    requires down { ids_end place.now.sym.now.down ≤ size terms.old }
    requires slot { slot_end slot.now ≤ size terms.old }
    requires part { open_end part.now ≤ size terms.old }
    ensures builds { Builds terms.old terms.new }
    ensures within { IfOk result (λ r. r.0 < size terms.new) }
    ensures value { Gives terms.new result (λ w r. (held : SlotOf) (file : FileOf) →
        StandsForSlot w place.now.net.now.tracked slot.now held →
        slice_get place.now.net.now.files place.now.router ≡ Some file →
        at w r ≡ (same_ospf (ospf_of w part.now.ospf) None && beq (at w part.now.dynamic) (has_dynamic (entry_with
        place.now.net.now.files (failures_of w place.now.sym.now) place.now.router file
        (prefix_read w place.now.dst.now place.now.len) held false)))) }
{
    let never = constant_node(terms, false)?;
    let bit = sym_dynamic(alloc, terms, place, slot, never)?;
    let same = agree(terms, part.dynamic, bit)?;
    let none = negate(terms, part.ospf.valid)?;
    let closed = both(terms, none, same)?;
    Ok(closed)
}

// The same for each router, whether it runs OSPF or not.
fn sym_wanted(
    alloc: Global,
    terms: &mut Terms,
    place: &SlotPlace<'_>,
    tables: &SymTables<'_>,
    slot: &SymSlot,
    part: &SymOpen,
    limits: &AllLimits,
) -> Result<NodeId, AllocError>
    requires long { place.now.len ≤ 32 }
    requires wide { length place.now.dst.now.nodes.items ≡ 32 }
    requires nodes { ids_end place.now.dst.now.nodes.items ≤ size terms.old }
    requires down { ids_end place.now.sym.now.down ≤ size terms.old }
    requires rows { HasTracked place.now.net.now.tracked slot.now.bgp }
    requires tables { slots_end tables.now.slots.now ≤ size terms.old }
    requires slot { slot_end slot.now ≤ size terms.old }
    requires part { open_end part.now ≤ size terms.old }
    ensures builds { Builds terms.old terms.new }
    ensures within { IfOk result (λ r. r.0 < size terms.new) }
    ensures value { Gives terms.new result (λ w r. (real : TablesOf) (held : SlotOf) →
        StandFor w place.now.net.now.tracked tables.now real → StandsForSlot w place.now.net.now.tracked slot.now held →
        slot_at real place.now.router place.now.len ≡ Some held → ospf_of w part.now.ospf ≡ held.ospf →
        at w r ≡ option_map_or (is_wanted place.now.net.now.files (failures_of w place.now.sym.now)
        (address_of w place.now.dst.now) real place.now.router place.now.len (open_of w part.now) held)
        (slice_get place.now.net.now.files place.now.router) false) }
{
    match file_of(place.net.routers(), place.router) {
        None => constant_node(terms, false),
        Some(file) => match &file.ospf {
            None => {
                let made = sym_closed(alloc, terms, place, slot, part)?;
                Ok(made)
            }
            Some(_) => {
                let made = sym_runs(alloc, terms, place, tables, slot, part, limits)?;
                Ok(made)
            }
        },
    }
}

/// Whether what is open of a slot is as the tables want it: its OSPF route is the one that its router holds, and its bit is
/// that of the entry of the router's table. The tables are real ones that the symbolic slots stand for; one of these stands
/// for the router's slot at that length, and what is open has its OSPF route.
pub fn sym_slot_holds(
    alloc: Global,
    terms: &mut Terms,
    place: &SlotPlace<'_>,
    tables: &SymTables<'_>,
    part: &SymOpen,
    limits: &AllLimits,
) -> Result<NodeId, AllocError>
    requires long { place.now.len ≤ 32 }
    requires wide { length place.now.dst.now.nodes.items ≡ 32 }
    requires nodes { ids_end place.now.dst.now.nodes.items ≤ size terms.old }
    requires down { ids_end place.now.sym.now.down ≤ size terms.old }
    requires rows { HaveTracked place.now.net.now.tracked tables.now.slots.now }
    requires tables { slots_end tables.now.slots.now ≤ size terms.old }
    requires part { open_end part.now ≤ size terms.old }
    ensures builds { Builds terms.old terms.new }
    ensures within { IfOk result (λ r. r.0 < size terms.new) }
    ensures value { Gives terms.new result (λ w r. (real : TablesOf) (held : SlotOf) →
        StandFor w place.now.net.now.tracked tables.now real → IsOpenIn w tables.now real place.now.router
        place.now.len part.now held →
        at w r ≡ option_map_or (is_wanted place.now.net.now.files (failures_of w place.now.sym.now)
        (address_of w place.now.dst.now) real place.now.router place.now.len
        (open_of w part.now) held) (slice_get place.now.net.now.files place.now.router) false) }
{
    match slot_for(tables, place.router, place.len) {
        None => constant_node(terms, false),
        Some(slot) => {
            let made = sym_wanted(alloc, terms, place, tables, slot, part, limits)?;
            Ok(made)
        }
    }
}
