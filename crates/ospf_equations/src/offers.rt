//! The routes that a router is offered over its adjacencies, as terms (RFC 2328, section 16.1).

ghost use Rattle.std.specs.Prelude.{◌≡◌, ℕ, ◌+◌, ◌≤◌, ◌<◌, ◌*◌, ◌==◌, ◌&&◌, IfOk, OnOk, Some, None, ◌++◌, ◌∷◌, [], if◌then◌else◌, length, max, map, slice_get};
ghost use Rattle.std.specs.List.{filter_map};
ghost use Rattle.std.specs.Option.{option_to_list};
ghost use Rattle.net_parts.specs.OspfRoutes.{offer_over};
ghost use Rattle.route_record.specs.declared.Tables.{Tables as TablesOf};
ghost use Rattle.route_record.specs.declared.tracked.Tracked.{Tracked as TrackedOf};
ghost use Rattle.sym_policy.specs.Held.{ospf_of, ospf_end};
ghost use Rattle.sym_policy.specs.Records.{prefix_of as prefix_read};
ghost use Rattle.sym_rib.specs.Into.{list_end};
ghost use Rattle.sym_rib.specs.Worlds.{slots_end};
ghost use Rattle.ospf_equations.specs.Adjacent.{offers_read, ups_end};
ghost use Rattle.ospf_equations.specs.Equations.{StandFor};
ghost use Rattle.term_store.specs.Terms.{Reading, at, size};
ghost use Rattle.term_store.specs.Reading.{Reads, Builds, Gives};
ghost use Rattle.term_arith.specs.Bits.{ids_end};

use crate::adjacent::SymAdjacency;
use crate::origins::put_route;
use mw_text::List;
use net_model::Adjacency;
use std::alloc::{AllocError, Global};
use sym_ospf::sym_transfer;
use sym_policy::SymOspf;
use sym_rib::{SymTables, slot_for};
use term_arith::Bits;
use term_store::{NodeId, Terms};

// Puts the route behind some that the far router of an adjacency offers, where a node is true.
#[tactic(auto, using(crate::proofs::EquationSteps::routes_push, crate::proofs::EquationSteps::routes_end_push))]
fn put_far(
    alloc: Global,
    terms: &mut Terms,
    tables: &SymTables<'_>,
    dst: &Bits,
    len: u8,
    a: &Adjacency,
    up: NodeId,
    made: &mut List<SymOspf>,
) -> Result<(), AllocError>
    requires long { len ≤ 32 }
    requires tables { slots_end tables.now.slots.now ≤ size terms.old }
    requires up { up.0 < size terms.old }
    requires made { list_end ospf_end made.old ≤ size terms.old }
    ensures builds { Builds terms.old terms.new }
    ensures within { OnOk result (list_end ospf_end made.new ≤ size terms.new) }
    ensures value { Gives terms.new result (λ w _. (tracked : TrackedOf) (real : TablesOf) →
        StandFor w tracked tables.now real → filter_map (ospf_of w) made.new
        ≡ filter_map (ospf_of w) made.old ++ option_to_list (if at w up
        then offer_over real (prefix_read w dst.now len) a.now else None)) }
{
    match slot_for(tables, a.to.router, len) {
        None => Ok(()),
        Some(far) => {
            let offer = sym_transfer(alloc, terms, &far.ospf, up, a.cost)?;
            put_route(made, offer)?;
            Ok(())
        }
    }
}

/// Some routes, and behind them those that are offered over some adjacencies for the prefix of that length of a
/// destination.
#[tactic(auto, using(crate::proofs::AdjacentSteps::read_steps))]
pub fn with_offers(
    alloc: Global,
    terms: &mut Terms,
    tables: &SymTables<'_>,
    over: &[SymAdjacency],
    dst: &Bits,
    len: u8,
    own: List<SymOspf>,
) -> Result<List<SymOspf>, AllocError>
    requires long { len ≤ 32 }
    requires tables { slots_end tables.now.slots.now ≤ size terms.old }
    requires over { ups_end over.now ≤ size terms.old }
    requires own { list_end ospf_end own ≤ size terms.old }
    ensures builds { Builds terms.old terms.new }
    ensures within { IfOk result (λ r. list_end ospf_end r ≤ size terms.new) }
    ensures value { Gives terms.new result (λ w r. (tracked : TrackedOf) (real : TablesOf) →
        StandFor w tracked tables.now real → filter_map (ospf_of w) r ≡ filter_map (ospf_of w) own
        ++ offers_read w real (prefix_read w dst.now len) over.now) }
{
    let mut made = own;
    for s in over {
        put_far(
            alloc,
            terms,
            tables,
            dst,
            len,
            &s.adjacency,
            s.up,
            &mut made,
        )?;
    }
    Ok(made)
}
