//! Whether something goes out over the session with an external peer, as terms.

ghost use Rattle.std.specs.Prelude.{◌≡◌, ◌<◌, ◌≤◌, ◌&&◌, false, true, Some, IfOk, length, is_some, slice_get, option_copied};
ghost use Rattle.term_store.specs.Terms.{size, at};
ghost use Rattle.term_store.specs.Reading.{Builds, Gives};
ghost use Rattle.term_arith.specs.Bits.{ids_end};
ghost use Rattle.net_parts.specs.Resolution.{session_up};
ghost use Rattle.net_parts.specs.Sessions.{ends_of, is_outside};
ghost use Rattle.sym_policy.specs.Held.{failures_of};
ghost use Rattle.sym_policy.specs.Records.{prefix_of};
ghost use Rattle.sym_rib.specs.Worlds.{slots_end};
ghost use Rattle.export_terms.specs.Routes.{HaveTracked, routes_read};
ghost use Rattle.export_terms.specs.Shapes as shapes;

use crate::tracing::sym_learnt;
use export_asks::Ask;
use net_model::{Net, SessionEnd};
use std::alloc::{AllocError, Global};
use sym_bgp::sym_export;
use sym_interfaces::sym_up_at;
use sym_policy::SymNet;
use sym_rib::{SymTables, slot_for};
use term_arith::Bits;
use term_arith::gates::{both, constant_node};
use term_store::{NodeId, Terms};

/// What is asked: whether a route of this ask goes out for the prefixes of a destination, by these tables of the network,
/// while the links of `sym` have failed.
#[derive(Clone, Copy)]
pub(crate) struct Asked<'a> {
    pub(crate) net: &'a Net,
    pub(crate) ask: &'a Ask,
    pub(crate) sym: &'a SymNet,
    pub(crate) tables: &'a SymTables<'a>,
    pub(crate) dst: &'a Bits,
}

/// Whether the router of an end that stands at that place sends something over its session of the route that it holds at
/// a length.
fn sym_sent(
    alloc: Global,
    terms: &mut Terms,
    asked: &Asked<'_>,
    place: u32,
    end: &SessionEnd,
    len: u8,
) -> Result<NodeId, AllocError>
    requires there { slice_get (ends_of asked.now.net.now.files) place ≡ Some end.now }
    requires long { len ≤ 32 }
    requires wide { length asked.now.dst.now.nodes.items ≡ 32 }
    requires dst { ids_end asked.now.dst.now.nodes.items ≤ size terms.old }
    requires rows { HaveTracked asked.now.net.now.tracked asked.now.tables.now.slots.now }
    requires slots { slots_end asked.now.tables.now.slots.now ≤ size terms.old }
    ensures builds { Builds terms.old terms.new }
    ensures within { IfOk result (λ r. r.0 < size terms.new) }
    ensures value { Gives terms.new result (λ w r. at w r
        ≡ shapes.shape_sent asked.now.net.now.tracked asked.now.net.now.files (routes_read w asked.now.tables.now len)
        (prefix_of w asked.now.dst.now len) end.now) }
{
    match slot_for(asked.tables, end.router, len) {
        None => constant_node(terms, false),
        Some(slot) => {
            let message = sym_export(alloc, terms, asked.net, place, asked.dst, len, &slot.bgp)?;
            Ok(message.valid)
        }
    }
}

/// Whether the session of an end with an external peer is up.
#[tactic(auto, using(crate::proofs::Sent::up_outside))]
fn sym_outer_up(
    alloc: Global,
    terms: &mut Terms,
    net: &Net,
    sym: &SymNet,
    end: &SessionEnd,
) -> Result<NodeId, AllocError>
    requires outside { is_outside end.now.far ≡ true }
    requires down { ids_end sym.now.down ≤ size terms.old }
    ensures builds { Builds terms.old terms.new }
    ensures within { IfOk result (λ r. r.0 < size terms.new) }
    ensures value { Gives terms.new result (λ w r. at w r ≡ session_up net.now.files (failures_of w sym.now) end.now) }
{
    sym_up_at(alloc, terms, net, sym, end.own)
}

/// Whether over the end at that place, which is one with an external peer, a route of the ask goes out at a length.
pub(crate) fn sym_goes_out(
    alloc: Global,
    terms: &mut Terms,
    asked: &Asked<'_>,
    place: u32,
    end: &SessionEnd,
    len: u8,
) -> Result<NodeId, AllocError>
    requires there { slice_get (ends_of asked.now.net.now.files) place ≡ Some end.now }
    requires outside { is_outside end.now.far ≡ true }
    requires routers { asked.now.tables.now.routers ≡ length asked.now.net.now.files }
    requires long { len ≤ 32 }
    requires wide { length asked.now.dst.now.nodes.items ≡ 32 }
    requires dst { ids_end asked.now.dst.now.nodes.items ≤ size terms.old }
    requires down { ids_end asked.now.sym.now.down ≤ size terms.old }
    requires rows { HaveTracked asked.now.net.now.tracked asked.now.tables.now.slots.now }
    requires slots { slots_end asked.now.tables.now.slots.now ≤ size terms.old }
    ensures builds { Builds terms.old terms.new }
    ensures within { IfOk result (λ r. r.0 < size terms.new) }
    ensures value { Gives terms.new result (λ w r. at w r
        ≡ shapes.shape_goes_out asked.now.net.now.tracked asked.now.net.now.files asked.now.ask.now
        (failures_of w asked.now.sym.now) (routes_read w asked.now.tables.now len) (prefix_of w asked.now.dst.now len)
        end.now) }
{
    let up = sym_outer_up(alloc, terms, asked.net, asked.sym, end)?;
    let sent = sym_sent(alloc, terms, asked, place, end, len)?;
    let learnt = sym_learnt(
        alloc,
        terms,
        asked.net,
        &asked.ask.learnt,
        asked.tables,
        len,
        end.router,
    )?;
    let goes = both(terms, sent, learnt)?;
    both(terms, up, goes)
}
