//! The routes that a router originates into OSPF, as terms.

ghost use Rattle.std.specs.Prelude.{◌≡◌, ℕ, ◌+◌, ◌≤◌, ◌<◌, ◌==◌, ◌&&◌, IfOk, OnOk, Some, None, ◌++◌, ◌∷◌, [], if◌then◌else◌, length, max, slice_get};
ghost use Rattle.std.specs.List.{filter_map};
ghost use Rattle.std.specs.Option.{option_to_list, option_map_or};
ghost use Rattle.ios_ast.specs.declared.file.File.{File as FileOf};
ghost use Rattle.ios_ast.specs.declared.ospf.Ospf.{Ospf as OspfOf};
ghost use Rattle.net_parts.specs.Ospf as model;
ghost use Rattle.net_parts.specs.OspfRoutes.{own_origins};
ghost use Rattle.route_record.specs.declared.Slot.{Slot as SlotOf};
ghost use Rattle.sym_policy.specs.Held.{failures_of, internal_route, ospf_of, ospf_end};
ghost use Rattle.sym_policy.specs.Records.{prefix_of as prefix_read};
ghost use Rattle.sym_policy.specs.MapRecs.{HasTracked};
ghost use Rattle.sym_rib.specs.Into.{list_end};
ghost use Rattle.sym_rib.specs.Slots.{slot_end, StandsForSlot};
ghost use Rattle.ospf_equations.specs.Equations.{origin_by, origins_by};
ghost use Rattle.term_store.specs.Terms.{Reading, at, size};
ghost use Rattle.term_store.specs.Reading.{Reads, Builds, Gives};
ghost use Rattle.term_arith.specs.Bits.{ids_end};

use mw_text::List;
use net_model::{Net, OspfInterface};
use net_parts::ospf::advertisement;
use std::alloc::{AllocError, Global};
use sym_ospf::{known_ospf, sym_up};
use sym_policy::{SymNet, SymOspf};
use sym_rib::prefixes::sym_same_prefix;
use sym_rib::{SymSlot, sym_redistribute};
use term_arith::Bits;
use term_arith::gates::both;
use term_store::{NodeId, Terms};

/// The place of a slot in a network while the links of `sym` have failed: a router, and the prefix of that length of a
/// destination.
#[derive(Clone, Copy)]
pub struct SlotPlace<'a> {
    /// The network.
    pub net: &'a Net,
    /// Which of its links have failed.
    pub sym: &'a SymNet,
    /// The router's number.
    pub router: u32,
    /// The destination.
    pub dst: &'a Bits,
    /// The length of the prefix, at most 32.
    pub len: u8,
}

/// Puts a route at the end of some.
pub fn put_route(made: &mut List<SymOspf>, next: SymOspf) -> Result<(), AllocError>
    ensures { OnOk result (made.new ≡ made.old ++ next ∷ []) }
{
    made.items.push(next)?;
    Ok(())
}

// An internal route of that cost, which is there where a node is true.
fn origin(alloc: Global, terms: &mut Terms, valid: NodeId, cost: u32) -> Result<SymOspf, AllocError>
    requires valid { valid.0 < size terms.old }
    ensures builds { Builds terms.old terms.new }
    ensures within { IfOk result (λ r. ospf_end r ≤ size terms.new) }
    ensures value { Gives terms.new result (λ w r. ospf_of w r
        ≡ (if at w valid then Some (internal_route cost) else None)) }
{
    let mut made = known_ospf(alloc, terms, true, cost)?;
    made.valid = both(terms, valid, made.valid)?;
    Ok(made)
}

// Puts the route behind some that a router originates by an interface, if it does.
#[tactic(auto, using(crate::proofs::EquationSteps::routes_push, crate::proofs::EquationSteps::routes_end_push))]
fn put_origin(
    alloc: Global,
    terms: &mut Terms,
    place: &SlotPlace<'_>,
    x: &OspfInterface,
    made: &mut List<SymOspf>,
) -> Result<(), AllocError>
    requires long { place.now.len ≤ 32 }
    requires wide { length place.now.dst.now.nodes.items ≡ 32 }
    requires nodes { ids_end place.now.dst.now.nodes.items ≤ size terms.old }
    requires down { ids_end place.now.sym.now.down ≤ size terms.old }
    requires made { list_end ospf_end made.old ≤ size terms.old }
    ensures builds { Builds terms.old terms.new }
    ensures within { OnOk result (list_end ospf_end made.new ≤ size terms.new) }
    ensures value { Gives terms.new result (λ w _. filter_map (ospf_of w) made.new
        ≡ filter_map (ospf_of w) made.old ++ option_to_list (origin_by place.now.net.now.files
        (failures_of w place.now.sym.now) place.now.router (prefix_read w place.now.dst.now place.now.len) x.now)) }
{
    if x.at.id.router != place.router {
        return Ok(());
    }
    let here = sym_same_prefix(terms, &advertisement(x), place.dst, place.len)?;
    let up = sym_up(alloc, terms, place.net, place.sym, &x.at)?;
    let valid = both(terms, here, up)?;
    let next = origin(alloc, terms, valid, x.cost)?;
    put_route(made, next)?;
    Ok(())
}

// The routes that a router originates by its interfaces.
#[tactic(auto, using(crate::proofs::EquationSteps::origin_steps))]
fn by_interfaces(
    alloc: Global,
    terms: &mut Terms,
    place: &SlotPlace<'_>,
) -> Result<List<SymOspf>, AllocError>
    requires long { place.now.len ≤ 32 }
    requires wide { length place.now.dst.now.nodes.items ≡ 32 }
    requires nodes { ids_end place.now.dst.now.nodes.items ≤ size terms.old }
    requires down { ids_end place.now.sym.now.down ≤ size terms.old }
    ensures builds { Builds terms.old terms.new }
    ensures within { IfOk result (λ r. list_end ospf_end r ≤ size terms.new) }
    ensures value { Gives terms.new result (λ w r. filter_map (ospf_of w) r
        ≡ origins_by place.now.net.now.files (failures_of w place.now.sym.now) place.now.router
        (prefix_read w place.now.dst.now place.now.len) (model.ospf_interfaces place.now.net.now.files)) }
{
    let interfaces = place.net.ospf_interfaces();
    let mut made = List::new(alloc);
    for x in interfaces {
        put_origin(alloc, terms, place, x, &mut made)?;
    }
    Ok(made)
}

// Some routes, and then others.
#[tactic(auto, using(crate::proofs::EquationSteps::routes_joined))]
fn joined(first: List<SymOspf>, others: List<SymOspf>) -> Result<List<SymOspf>, AllocError>
    ensures { IfOk result (λ r. r ≡ first ++ others) }
{
    let mut all = first;
    for rec in others.items {
        put_route(&mut all, rec)?;
    }
    Ok(all)
}

/// The routes that the OSPF process of a router originates for the prefix of that length of a destination: by its
/// interfaces, and what it takes from its own table.
pub fn own_routes(
    alloc: Global,
    terms: &mut Terms,
    place: &SlotPlace<'_>,
    slot: &SymSlot,
) -> Result<List<SymOspf>, AllocError>
    requires long { place.now.len ≤ 32 }
    requires wide { length place.now.dst.now.nodes.items ≡ 32 }
    requires nodes { ids_end place.now.dst.now.nodes.items ≤ size terms.old }
    requires down { ids_end place.now.sym.now.down ≤ size terms.old }
    requires rows { HasTracked place.now.net.now.tracked slot.now.bgp }
    requires slot { slot_end slot.now ≤ size terms.old }
    ensures builds { Builds terms.old terms.new }
    ensures within { IfOk result (λ r. list_end ospf_end r ≤ size terms.new) }
    ensures value { Gives terms.new result (λ w r. (file : FileOf) (process : OspfOf) (held : SlotOf) →
        slice_get place.now.net.now.files place.now.router ≡ Some file → file.ospf ≡ Some process →
        StandsForSlot w place.now.net.now.tracked slot.now held → filter_map (ospf_of w) r
        ≡ own_origins place.now.net.now.files (failures_of w place.now.sym.now) place.now.router file process
        (prefix_read w place.now.dst.now place.now.len) held) }
{
    let own = by_interfaces(alloc, terms, place)?;
    let taken = sym_redistribute(
        alloc,
        terms,
        place.net,
        place.router,
        place.dst,
        place.len,
        slot,
    )?;
    let all = joined(own, taken)?;
    Ok(all)
}
