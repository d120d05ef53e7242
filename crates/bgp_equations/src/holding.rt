//! Whether the BGP route of a slot is the one that its router holds, as a term.

ghost use Rattle.std.specs.Prelude.{◌≡◌, ◌<◌, ◌≤◌, ◌*◌, ◌+◌, ℕ, Bool, false, not, is_some, IfOk, length, None, Some, slice_get};
ghost use Rattle.std.specs.Option.{option_map_or};
ghost use Rattle.ios_ast.specs.declared.bgp.Bgp.{Bgp as BgpOf};
ghost use Rattle.ios_ast.specs.declared.file.File.{File as FileOf};
ghost use Rattle.term_store.specs.Terms.{Reading, size, at as node_at};
ghost use Rattle.term_store.specs.Reading.{Builds, Gives, Reads};
ghost use Rattle.term_arith.specs.Bits.{ids_end};
ghost use Rattle.bgp_shapes.specs.Candidates.{shape_candidates};
ghost use Rattle.bgp_shapes.specs.Held.{held_shape};
ghost use Rattle.rebuilt_routes.specs.Deciding.{is_decided_shape};
ghost use Rattle.announced_places.specs.Announced.{Ascend};
ghost use Rattle.sym_policy.specs.Held.{bgp_of, bgp_end, failures_of};
ghost use Rattle.sym_policy.specs.Records.{prefix_of};
ghost use Rattle.sym_ospf.specs.Rows.{net_end};
ghost use Rattle.sym_policy.specs.MapRecs.{HasTracked};
ghost use Rattle.sym_rib.specs.Slots.{slot_end};
ghost use Rattle.sym_rib.specs.Worlds.{slot_placed, slots_end};
ghost use Rattle.bgp_equations.specs.Environments.{FitsNet, env_end, environment_read};
ghost use Rattle.bgp_equations.specs.Equations.{DistancesForSessions, HaveTracked, RowsForSessions, is_decided_heard};
ghost use Rattle.bgp_equations.specs.Equations.{sending_read, slots_read};

use crate::candidates::sym_candidates;
use crate::routing::Routing;
use ios_ast::{Bgp, File};
use net_parts::ends::file_of;
use std::alloc::{AllocError, Global};
use sym_bgp::sym_survives;
use sym_rib::{SymSlot, slot_for};
use term_arith::gates::{constant_node, negate};
use term_store::{NodeId, Terms};

/// The same for a router that runs BGP, whose slot stands there.
#[tactic(auto, using(crate::proofs::CandidateSteps::same_marks))]
fn process_holds(
    alloc: Global,
    terms: &mut Terms,
    routing: &Routing<'_>,
    router: u32,
    process: &Bgp,
    slot: &SymSlot,
) -> Result<NodeId, AllocError>
    requires distances { RowsForSessions routing.now.net.now.files routing.now.sym.now }
    requires sym { net_end routing.now.sym.now ≤ size terms.old }
    requires long { routing.now.len ≤ 32 }
    requires wide { length routing.now.dst.now.nodes.items ≡ 32 }
    requires dst { ids_end routing.now.dst.now.nodes.items ≤ size terms.old }
    requires ascend { Ascend routing.now.tables.now.lens.now }
    requires fits { FitsNet routing.now.net.now.files routing.now.net.now.tracked routing.now.tables.now.lens.now
        routing.now.env.now }
    requires nodes { env_end routing.now.env.now ≤ size terms.old }
    requires rows { HaveTracked routing.now.net.now.tracked routing.now.tables.now.slots.now }
    requires slots { slots_end routing.now.tables.now.slots.now ≤ size terms.old }
    requires there { slot_placed routing.now.tables.now router routing.now.len ≡ Some slot.now }
    requires slot { slot_end slot.now ≤ size terms.old }
    requires row { HasTracked routing.now.net.now.tracked slot.now.bgp }
    ensures builds { Builds terms.old terms.new }
    ensures within { IfOk result (λ r. r.0 < size terms.new) }
    ensures value { Gives terms.new result (λ w r. (file : FileOf) →
        DistancesForSessions w routing.now.net.now.files routing.now.sym.now →
        slice_get routing.now.net.now.files router ≡ Some file → file.bgp ≡ Some process.now →
        node_at w r ≡ held_shape process.now.always_compare process.now.compare_routerid
        (shape_candidates routing.now.net.now.tracked routing.now.net.now.files (failures_of w routing.now.sym.now)
        (environment_read w routing.now.net.now.files routing.now.tables.now.lens.now routing.now.env.now)
        (sending_read w routing.now.net.now.files routing.now.tables.now routing.now.len) router file process.now
        (prefix_of w routing.now.dst.now routing.now.len)) (bgp_of w slot.now.bgp)) }
{
    let cands = sym_candidates(alloc, terms, routing, router, slot)?;
    sym_survives(
        alloc,
        terms,
        process.always_compare,
        process.compare_routerid,
        cands.as_slice(),
        &slot.bgp,
    )
}

/// Whether a route is missing.
#[tactic(auto, using(crate::proofs::LocalSteps::missing_is))]
fn missing(terms: &mut Terms, slot: &SymSlot) -> Result<NodeId, AllocError>
    requires { slot_end slot.now ≤ size terms.old }
    ensures builds { Builds terms.old terms.new }
    ensures within { IfOk result (λ r. r.0 < size terms.new) }
    ensures value { Gives terms.new result (λ w r. node_at w r ≡ not (is_some (bgp_of w slot.now.bgp))) }
{
    negate(terms, slot.bgp.valid)
}

/// The same for the router of a file, whose slot stands there.
fn file_holds(
    alloc: Global,
    terms: &mut Terms,
    routing: &Routing<'_>,
    router: u32,
    file: &File,
    slot: &SymSlot,
) -> Result<NodeId, AllocError>
    requires distances { RowsForSessions routing.now.net.now.files routing.now.sym.now }
    requires sym { net_end routing.now.sym.now ≤ size terms.old }
    requires long { routing.now.len ≤ 32 }
    requires wide { length routing.now.dst.now.nodes.items ≡ 32 }
    requires dst { ids_end routing.now.dst.now.nodes.items ≤ size terms.old }
    requires ascend { Ascend routing.now.tables.now.lens.now }
    requires fits { FitsNet routing.now.net.now.files routing.now.net.now.tracked routing.now.tables.now.lens.now
        routing.now.env.now }
    requires nodes { env_end routing.now.env.now ≤ size terms.old }
    requires rows { HaveTracked routing.now.net.now.tracked routing.now.tables.now.slots.now }
    requires slots { slots_end routing.now.tables.now.slots.now ≤ size terms.old }
    requires found { slice_get routing.now.net.now.files router ≡ Some file.now }
    requires there { slot_placed routing.now.tables.now router routing.now.len ≡ Some slot.now }
    requires slot { slot_end slot.now ≤ size terms.old }
    requires row { HasTracked routing.now.net.now.tracked slot.now.bgp }
    ensures builds { Builds terms.old terms.new }
    ensures within { IfOk result (λ r. r.0 < size terms.new) }
    ensures value { Gives terms.new result (λ w r.
        DistancesForSessions w routing.now.net.now.files routing.now.sym.now →
        node_at w r ≡ is_decided_shape routing.now.net.now.tracked routing.now.net.now.files
        (failures_of w routing.now.sym.now)
        (environment_read w routing.now.net.now.files routing.now.tables.now.lens.now routing.now.env.now)
        (sending_read w routing.now.net.now.files routing.now.tables.now routing.now.len) router file.now
        (prefix_of w routing.now.dst.now routing.now.len) (bgp_of w slot.now.bgp)) }
{
    match &file.bgp {
        None => missing(terms, slot),
        Some(process) => process_holds(alloc, terms, routing, router, process, slot),
    }
}

/// Whether a router holds in its slot for the prefix of that length of a destination the BGP route that the decision
/// process leaves of its local routes and of what arrives over its sessions, and none where it runs no BGP or has no
/// candidate (RFC 4271, section 9.1). What silent routers hold is not looked at: where each router holds what it is left
/// they send nothing of it. False where there is no such router or no such slot. This holds under each reading
/// in which the rows of `sym` are the interior distances; where no session joins two routers of the files none are
/// looked at, and `sym` need have none.
pub fn sym_bgp_holds(
    alloc: Global,
    terms: &mut Terms,
    routing: &Routing<'_>,
    router: u32,
) -> Result<NodeId, AllocError>
    requires distances { RowsForSessions routing.now.net.now.files routing.now.sym.now }
    requires sym { net_end routing.now.sym.now ≤ size terms.old }
    requires long { routing.now.len ≤ 32 }
    requires wide { length routing.now.dst.now.nodes.items ≡ 32 }
    requires dst { ids_end routing.now.dst.now.nodes.items ≤ size terms.old }
    requires ascend { Ascend routing.now.tables.now.lens.now }
    requires fits { FitsNet routing.now.net.now.files routing.now.net.now.tracked routing.now.tables.now.lens.now
        routing.now.env.now }
    requires nodes { env_end routing.now.env.now ≤ size terms.old }
    requires rows { HaveTracked routing.now.net.now.tracked routing.now.tables.now.slots.now }
    requires slots { slots_end routing.now.tables.now.slots.now ≤ size terms.old }
    ensures builds { Builds terms.old terms.new }
    ensures within { IfOk result (λ r. r.0 < size terms.new) }
    ensures value { Gives terms.new result (λ w r. DistancesForSessions w routing.now.net.now.files
        routing.now.sym.now →
        node_at w r ≡ is_decided_heard routing.now.net.now.tracked routing.now.net.now.files
        (failures_of w routing.now.sym.now)
        (environment_read w routing.now.net.now.files routing.now.tables.now.lens.now routing.now.env.now)
        (slots_read w routing.now.tables.now routing.now.len) router
        (prefix_of w routing.now.dst.now routing.now.len)) }
{
    let Some(file) = file_of(routing.net.routers(), router) else {
        return constant_node(terms, false);
    };
    match slot_for(routing.tables, router, routing.len) {
        None => constant_node(terms, false),
        Some(slot) => file_holds(alloc, terms, routing, router, file, slot),
    }
}
