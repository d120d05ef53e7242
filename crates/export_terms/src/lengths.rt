//! Whether a route of an ask goes out at some prefix length, as terms.

ghost use Rattle.std.specs.Prelude.{◌≡◌, ◌<◌, ◌≤◌, ◌&&◌, ◌∷◌, [], false, true, Some, IfOk, IfSome, length, slice_get, option_and_then};
ghost use Rattle.std.specs.Option.{option_map_or};
ghost use Rattle.net_parts.specs.declared.sessions.SessionEnd.{SessionEnd as EndOf};
ghost use Rattle.route_record.specs.declared.TheConstants as constants;
ghost use Rattle.term_store.specs.Terms.{size, at};
ghost use Rattle.term_store.specs.Reading.{Builds, Gives};
ghost use Rattle.term_arith.specs.Bits.{ids_end};
ghost use Rattle.ios_ast.specs.declared.policies.PrefixEntry.{PrefixEntry as EntryOf};
ghost use Rattle.net_parts.specs.Sessions.{ends_of, is_outside};
ghost use Rattle.sym_policy.specs.Held.{failures_of};
ghost use Rattle.sym_policy.specs.Records.{prefix_of};
ghost use Rattle.sym_rib.specs.Worlds.{slots_end};
ghost use Rattle.export_asks.specs.Exported.{is_asked};
ghost use Rattle.export_terms.specs.Routes.{HaveTracked, routes_read};
ghost use Rattle.export_terms.specs.Shapes as shapes;

use crate::sending::{Asked, sym_goes_out};
use export_asks::Ask;
use export_asks::exporting::end_to;
use ios_ast::{PrefixEntry, PrefixList};
use mw_text::List;
use net_model::Net;
use route_record::LENGTHS;
use std::alloc::{AllocError, Global};
use sym_policy::{SymNet, sym_prefix_list};
use sym_rib::SymTables;
use term_arith::Bits;
use term_arith::gates::{both, constant_node, either, is_never};
use term_store::{NodeId, Terms};

/// The range of an ask as a prefix list of one entry.
fn range_of(alloc: Global, ask: &Ask) -> Result<PrefixList, AllocError>
    ensures { IfOk result (λ list. list.entries ≡ record {
      line = 0;
      seq = 0;
      permit = true;
      prefix = ask.now.prefix;
      low = ask.now.low;
      high = ask.now.high;
    } ∷ []) }
{
    let mut entries = List::new(alloc);
    entries.items.push(PrefixEntry {
        line: 0,
        seq: 0,
        permit: true,
        prefix: ask.prefix,
        low: ask.low,
        high: ask.high,
    })?;
    let name = List::new(alloc);
    Ok(PrefixList { name, entries })
}

/// Whether the prefix of that length of an address is in the range of the ask.
#[tactic(auto, using(crate::proofs::Sent::one_entry))]
fn sym_asked(
    alloc: Global,
    terms: &mut Terms,
    ask: &Ask,
    dst: &Bits,
    len: u8,
) -> Result<NodeId, AllocError>
    requires long { len ≤ 32 }
    requires wide { length dst.now.nodes.items ≡ 32 }
    requires dst { ids_end dst.now.nodes.items ≤ size terms.old }
    ensures builds { Builds terms.old terms.new }
    ensures within { IfOk result (λ r. r.0 < size terms.new) }
    ensures value { Gives terms.new result (λ w r. at w r ≡ is_asked ask.now (prefix_of w dst.now len)) }
{
    let range = range_of(alloc, ask)?;
    let asked = sym_prefix_list(alloc, terms, &range, dst, len)?;
    Ok(asked)
}

/// Whether over the end at that place, if it is one, a route of the ask goes out at a length.
fn sym_over_end(
    alloc: Global,
    terms: &mut Terms,
    asked: &Asked<'_>,
    place: Option<u32>,
    len: u8,
) -> Result<NodeId, AllocError>
    requires outside { IfSome place (λ k. (end : EndOf) → slice_get (ends_of asked.now.net.now.files) k ≡ Some end →
        is_outside end.far ≡ true) }
    requires routers { asked.now.tables.now.routers ≡ length asked.now.net.now.files }
    requires long { len ≤ 32 }
    requires wide { length asked.now.dst.now.nodes.items ≡ 32 }
    requires dst { ids_end asked.now.dst.now.nodes.items ≤ size terms.old }
    requires down { ids_end asked.now.sym.now.down ≤ size terms.old }
    requires rows { HaveTracked asked.now.net.now.tracked asked.now.tables.now.slots.now }
    requires slots { slots_end asked.now.tables.now.slots.now ≤ size terms.old }
    ensures builds { Builds terms.old terms.new }
    ensures within { IfOk result (λ r. r.0 < size terms.new) }
    ensures value { Gives terms.new result (λ w r. at w r
        ≡ option_map_or (shapes.shape_goes_out asked.now.net.now.tracked asked.now.net.now.files asked.now.ask.now
        (failures_of w asked.now.sym.now) (routes_read w asked.now.tables.now len) (prefix_of w asked.now.dst.now len))
        (option_and_then (slice_get (ends_of asked.now.net.now.files)) place) false) }
{
    match place {
        None => constant_node(terms, false),
        Some(at) => match asked.net.ends().get(at as usize) {
            None => constant_node(terms, false),
            Some(end) => sym_goes_out(alloc, terms, asked, at, end, len),
        },
    }
}

/// Whether a route of the ask goes out at a length.
#[tactic(auto, unfolding(crate::specs::Shapes::shape_out))]
fn sym_out_at(
    alloc: Global,
    terms: &mut Terms,
    asked: &Asked<'_>,
    len: u8,
) -> Result<NodeId, AllocError>
    requires routers { asked.now.tables.now.routers ≡ length asked.now.net.now.files }
    requires long { len ≤ 32 }
    requires wide { length asked.now.dst.now.nodes.items ≡ 32 }
    requires dst { ids_end asked.now.dst.now.nodes.items ≤ size terms.old }
    requires down { ids_end asked.now.sym.now.down ≤ size terms.old }
    requires rows { HaveTracked asked.now.net.now.tracked asked.now.tables.now.slots.now }
    requires slots { slots_end asked.now.tables.now.slots.now ≤ size terms.old }
    ensures builds { Builds terms.old terms.new }
    ensures within { IfOk result (λ r. r.0 < size terms.new) }
    ensures value { Gives terms.new result (λ w r. at w r
        ≡ shapes.shape_out asked.now.net.now.tracked asked.now.net.now.files asked.now.ask.now
        (failures_of w asked.now.sym.now) (routes_read w asked.now.tables.now len) (prefix_of w asked.now.dst.now len)) }
{
    let within = sym_asked(alloc, terms, asked.ask, asked.dst, len)?;
    if is_never(terms, within) {
        return constant_node(terms, false);
    }
    let place = end_to(asked.net, &asked.ask.to);
    let goes = sym_over_end(alloc, terms, asked, place, len)?;
    both(terms, within, goes)
}

/// Whether in the tables, for the prefixes of the destination `dst`, a route of the ask goes out to its peer at some prefix
/// length, while the links of `sym` have failed. The tables have a slot for each router of the network, whose BGP routes
/// have a node for each value that the network tracks.
pub fn sym_out(
    alloc: Global,
    terms: &mut Terms,
    net: &Net,
    ask: &Ask,
    sym: &SymNet,
    tables: &SymTables<'_>,
    dst: &Bits,
) -> Result<NodeId, AllocError>
    requires routers { tables.now.routers ≡ length net.now.files }
    requires wide { length dst.now.nodes.items ≡ 32 }
    requires dst { ids_end dst.now.nodes.items ≤ size terms.old }
    requires down { ids_end sym.now.down ≤ size terms.old }
    requires rows { HaveTracked net.now.tracked tables.now.slots.now }
    requires slots { slots_end tables.now.slots.now ≤ size terms.old }
    ensures builds { Builds terms.old terms.new }
    ensures within { IfOk result (λ r. r.0 < size terms.new) }
    ensures value { Gives terms.new result (λ w r. at w r
        ≡ shapes.any_below constants.LENGTHS (λ len. shapes.shape_out net.now.tracked net.now.files ask.now
        (failures_of w sym.now) (routes_read w tables.now len) (prefix_of w dst.now len))) }
{
    let asked = Asked {
        net,
        ask,
        sym,
        tables,
        dst,
    };
    let mut any = constant_node(terms, false)?;
    for len in 0..LENGTHS as u8 {
        let out = sym_out_at(alloc, terms, &asked, len)?;
        any = either(terms, any, out)?;
    }
    Ok(any)
}
