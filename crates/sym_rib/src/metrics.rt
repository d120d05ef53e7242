//! The metrics with which a BGP process takes the entry of its router's table, as terms.

ghost use Rattle.std.specs.Prelude.{◌≡◌, ◌==◌, ◌&&◌, ◌||◌, ℕ, ◌+◌, ◌<◌, ◌≤◌, Bool, false, if◌then◌else◌, Some, None};
ghost use Rattle.std.specs.Prelude.{IfOk, length, max, option_and_then, option_map, unwrap_or};
ghost use Rattle.mw_text.specs.Address.{same_prefix};
ghost use Rattle.net_parts.specs.Origins as origins;
ghost use Rattle.route_record.specs.declared.Slot.{Slot};
ghost use Rattle.sym_policy.specs.Held.{kind_of_number, ospf_at, ospf_of, ospf_end};
ghost use Rattle.sym_policy.specs.Records.{prefix_of};
ghost use Rattle.sym_rib.specs.IntoBgp.{metric_of, metric_end};
ghost use Rattle.sym_rib.specs.Slots.{rib_of, rib_end, slot_end};
ghost use Rattle.term_store.specs.Terms.{Reading, size, at};
ghost use Rattle.term_store.specs.Reading.{Reads, Builds, Gives};
ghost use Rattle.term_arith.specs.Bits.{number, ids_end};

use crate::into_ospf::sym_from;
use crate::known::word;
use crate::metric::SymMetric;
use crate::prefixes::sym_same_prefix;
use crate::slots::{SymRib, SymSlot};
use ios_ast::{Redist, Source};
use net_model::{Net, OspfInterface};
use std::alloc::{AllocError, Global};
use sym_policy::SymOspf;
use term_arith::gates::{both, constant_node, either, select};
use term_arith::{Bits, choose, equal_number};
use term_store::{NodeId, Terms};

/// The metric 0 where a node is true.
fn zero_where(alloc: Global, terms: &mut Terms, valid: NodeId) -> Result<SymMetric, AllocError>
    requires { valid.0 < size terms.old }
    ensures builds { Builds terms.old terms.new }
    ensures within { IfOk result (λ r. metric_end r ≤ size terms.new) }
    ensures value { Gives terms.new result (λ w r. metric_of w r ≡ (if at w valid then Some 0 else None)) }
{
    let value = word(alloc, terms, 0)?;
    Ok(SymMetric { valid, value })
}

/// A metric where a node is true besides.
pub(crate) fn metric_where(
    terms: &mut Terms,
    metric: SymMetric,
    c: NodeId,
) -> Result<SymMetric, AllocError>
    requires metric { metric_end metric ≤ size terms.old }
    requires test { c.0 < size terms.old }
    ensures builds { Builds terms.old terms.new }
    ensures within { IfOk result (λ r. metric_end r ≤ size terms.new) }
    ensures value { Gives terms.new result (λ w r. metric_of w r ≡ (if at w c then metric_of w metric else None)) }
{
    let valid = both(terms, c, metric.valid)?;
    Ok(SymMetric {
        valid,
        value: metric.value,
    })
}

/// A metric with the number that a line names in its place, where it names one.
pub(crate) fn named_metric(
    alloc: Global,
    terms: &mut Terms,
    line: &Redist,
    metric: SymMetric,
) -> Result<SymMetric, AllocError>
    requires { metric_end metric ≤ size terms.old }
    ensures builds { Builds terms.old terms.new }
    ensures within { IfOk result (λ r. metric_end r ≤ size terms.new) }
    ensures value { Gives terms.new result (λ w r. metric_of w r
        ≡ option_map (unwrap_or line.now.metric) (metric_of w metric)) }
{
    match line.metric {
        None => Ok(metric),
        Some(named) => {
            let value = word(alloc, terms, named)?;
            Ok(SymMetric {
                valid: metric.valid,
                value,
            })
        }
    }
}

/// The metric of an OSPF route: the cost of an internal one and of one of type 1, the metric of one of type 2.
#[tactic(auto, using(crate::proofs::EntryMetrics::metric_chosen))]
fn ospf_metric(alloc: Global, terms: &mut Terms, ospf: &SymOspf) -> Result<Bits, AllocError>
    requires { ospf_end ospf.now ≤ size terms.old }
    ensures builds { Builds terms.old terms.new }
    ensures within { IfOk result (λ r. ids_end r.nodes.items ≤ size terms.new) }
    ensures width { IfOk result (λ r. length r.nodes.items ≡ 32) }
    ensures value { Gives terms.new result (λ w r. number w r.nodes.items ≡ origins.ospf_metric (ospf_at w ospf.now)) }
{
    let internal = equal_number(terms, ospf.kind.nodes.as_slice(), 0)?;
    let type1 = equal_number(terms, ospf.kind.nodes.as_slice(), 1)?;
    let by_cost = either(terms, internal, type1)?;
    choose(alloc, terms, by_cost, &ospf.cost, &ospf.metric)
}

/// Whether a line takes OSPF routes of the kind of a route.
#[tactic(auto, using(crate::proofs::EntryMetrics::kind_taken))]
fn sym_takes_kind(terms: &mut Terms, line: &Redist, ospf: &SymOspf) -> Result<NodeId, AllocError>
    requires { ospf_end ospf.now ≤ size terms.old }
    ensures builds { Builds terms.old terms.new }
    ensures within { IfOk result (λ r. r.0 < size terms.new) }
    ensures value { Gives terms.new result (λ w r. at w r
        ≡ origins.takes_kind line.now (kind_of_number (number w ospf.now.kind.nodes.items))) }
{
    let internal = equal_number(terms, ospf.kind.nodes.as_slice(), 0)?;
    let type1 = equal_number(terms, ospf.kind.nodes.as_slice(), 1)?;
    let on_internal = constant_node(terms, line.internal)?;
    let on_ext1 = constant_node(terms, line.ext1)?;
    let on_ext2 = constant_node(terms, line.ext2)?;
    let external = select(terms, type1, on_ext1, on_ext2)?;
    select(terms, internal, on_internal, external)
}

/// The metric of an OSPF route, where it is there.
#[tactic(auto, using(crate::proofs::EntryMetrics::held_stands))]
fn held_metric(alloc: Global, terms: &mut Terms, ospf: &SymOspf) -> Result<SymMetric, AllocError>
    requires { ospf_end ospf.now ≤ size terms.old }
    ensures builds { Builds terms.old terms.new }
    ensures within { IfOk result (λ r. metric_end r ≤ size terms.new) }
    ensures value { Gives terms.new result (λ w r. metric_of w r
        ≡ option_map origins.ospf_metric (ospf_of w ospf.now)) }
{
    let value = ospf_metric(alloc, terms, ospf)?;
    Ok(SymMetric {
        valid: ospf.valid,
        value,
    })
}

/// The metric of an OSPF route, where it is there and a line takes its kind.
#[tactic(auto, using(crate::proofs::EntryMetrics::kind_stands))]
fn kind_metric(
    alloc: Global,
    terms: &mut Terms,
    line: &Redist,
    ospf: &SymOspf,
) -> Result<SymMetric, AllocError>
    requires { ospf_end ospf.now ≤ size terms.old }
    ensures builds { Builds terms.old terms.new }
    ensures within { IfOk result (λ r. metric_end r ≤ size terms.new) }
    ensures value { Gives terms.new result (λ w r. metric_of w r ≡ option_and_then (λ held.
        if origins.takes_kind line.now held.kind then Some (origins.ospf_metric held) else None) (ospf_of w ospf.now)) }
{
    let taken = sym_takes_kind(terms, line, ospf)?;
    let valid = both(terms, ospf.valid, taken)?;
    let value = ospf_metric(alloc, terms, ospf)?;
    Ok(SymMetric { valid, value })
}

/// Whether an entry's source has that number.
fn is_from(terms: &mut Terms, rib: &SymRib, source: u64) -> Result<NodeId, AllocError>
    requires { rib_end rib.now ≤ size terms.old }
    ensures builds { Builds terms.old terms.new }
    ensures within { IfOk result (λ r. r.0 < size terms.new) }
    ensures value { Gives terms.new result (λ w r. at w r ≡ (number w rib.now.source.nodes.items == source)) }
{
    equal_number(terms, rib.source.nodes.as_slice(), source)
}

/// The metric of an entry: that of the OSPF route for an entry of OSPF, and 0 for another one where a node is true.
#[tactic(auto, using(crate::proofs::EntryMetrics::source_chosen))]
fn by_source(
    alloc: Global,
    terms: &mut Terms,
    rib: &SymRib,
    ospf: &SymMetric,
    zero: NodeId,
) -> Result<SymMetric, AllocError>
    requires rib { rib_end rib.now ≤ size terms.old }
    requires ospf { metric_end ospf.now ≤ size terms.old }
    requires zero { zero.0 < size terms.old }
    ensures builds { Builds terms.old terms.new }
    ensures within { IfOk result (λ r. metric_end r ≤ size terms.new) }
    ensures value { Gives terms.new result (λ w r. metric_of w r ≡ (if at w rib.now.valid
        then (if number w rib.now.source.nodes.items == 3 then metric_of w ospf.now
        else (if at w zero then Some 0 else None)) else None)) }
{
    let own = is_from(terms, rib, 3)?;
    let there = select(terms, own, ospf.valid, zero)?;
    let valid = both(terms, rib.valid, there)?;
    let none = word(alloc, terms, 0)?;
    let value = choose(alloc, terms, own, &ospf.value, &none)?;
    Ok(SymMetric { valid, value })
}

/// Whether an entry's source is connected or static.
fn sym_is_plain(terms: &mut Terms, rib: &SymRib) -> Result<NodeId, AllocError>
    requires { rib_end rib.now ≤ size terms.old }
    ensures builds { Builds terms.old terms.new }
    ensures within { IfOk result (λ r. r.0 < size terms.new) }
    ensures value { Gives terms.new result (λ w r. at w r
        ≡ ((number w rib.now.source.nodes.items == 0) || (number w rib.now.source.nodes.items == 1))) }
{
    let connected = is_from(terms, rib, 0)?;
    let fixed = is_from(terms, rib, 1)?;
    either(terms, connected, fixed)
}

/// The metric of the entry of a slot from connected, static or OSPF.
pub(crate) fn sym_entry_metric(
    alloc: Global,
    terms: &mut Terms,
    slot: &SymSlot,
) -> Result<SymMetric, AllocError>
    requires { slot_end slot.now ≤ size terms.old }
    ensures builds { Builds terms.old terms.new }
    ensures within { IfOk result (λ r. metric_end r ≤ size terms.new) }
    ensures value { Gives terms.new result (λ w r. (held : Slot)
        → ospf_of w slot.now.ospf ≡ held.ospf → rib_of w slot.now.rib ≡ held.rib
        → metric_of w r ≡ option_and_then (λ entry. origins.entry_metric held entry.source) held.rib) }
{
    let zero = sym_is_plain(terms, &slot.rib)?;
    let ospf = held_metric(alloc, terms, &slot.ospf)?;
    let made = by_source(alloc, terms, &slot.rib, &ospf, zero)?;
    Ok(made)
}

/// Whether an interface is one of the router and has as its subnet the prefix of that length of a destination.
fn sym_subnet_over(
    terms: &mut Terms,
    router: u32,
    dst: &Bits,
    len: u8,
    x: &OspfInterface,
) -> Result<NodeId, AllocError>
    requires long { len ≤ 32 }
    requires wide { length dst.now.nodes.items ≡ 32 }
    requires dst { ids_end dst.now.nodes.items ≤ size terms.old }
    ensures builds { Builds terms.old terms.new }
    ensures within { IfOk result (λ r. r.0 < size terms.new) }
    ensures value { Gives terms.new result (λ w r. at w r
        ≡ ((x.now.at.id.router == router) && same_prefix x.now.at.subnet (prefix_of w dst.now len))) }
{
    if x.at.id.router != router {
        return constant_node(terms, false);
    }
    let same = sym_same_prefix(terms, &x.at.subnet, dst, len)?;
    Ok(same)
}

/// Whether the prefix of that length of a destination is the subnet of an interface of the router that runs OSPF.
fn sym_ospf_subnet(
    terms: &mut Terms,
    net: &Net,
    router: u32,
    dst: &Bits,
    len: u8,
) -> Result<NodeId, AllocError>
    requires long { len ≤ 32 }
    requires wide { length dst.now.nodes.items ≡ 32 }
    requires dst { ids_end dst.now.nodes.items ≤ size terms.old }
    ensures builds { Builds terms.old terms.new }
    ensures within { IfOk result (λ r. r.0 < size terms.new) }
    ensures value { Gives terms.new result (λ w r. at w r
        ≡ origins.is_ospf_subnet net.now.files router (prefix_of w dst.now len)) }
{
    let mut any = constant_node(terms, false)?;
    for x in net.ospf_interfaces() {
        let here = sym_subnet_over(terms, router, dst, len, x)?;
        any = either(terms, any, here)?;
    }
    Ok(any)
}

/// Whether a line that takes OSPF routes takes the prefix as that of a connected subnet: one counts as internal where
/// it runs OSPF.
fn sym_internal_subnet(
    terms: &mut Terms,
    net: &Net,
    router: u32,
    line: &Redist,
    dst: &Bits,
    len: u8,
) -> Result<NodeId, AllocError>
    requires long { len ≤ 32 }
    requires wide { length dst.now.nodes.items ≡ 32 }
    requires dst { ids_end dst.now.nodes.items ≤ size terms.old }
    ensures builds { Builds terms.old terms.new }
    ensures within { IfOk result (λ r. r.0 < size terms.new) }
    ensures value { Gives terms.new result (λ w r. at w r
        ≡ (line.now.internal && origins.is_ospf_subnet net.now.files router (prefix_of w dst.now len))) }
{
    if !line.internal {
        return constant_node(terms, false);
    }
    let subnet = sym_ospf_subnet(terms, net, router, dst, len)?;
    Ok(subnet)
}

/// The metric with which a line takes an entry of OSPF, or of a connected subnet that runs OSPF.
fn taken_from_ospf(
    alloc: Global,
    terms: &mut Terms,
    net: &Net,
    router: u32,
    line: &Redist,
    dst: &Bits,
    len: u8,
    slot: &SymSlot,
) -> Result<SymMetric, AllocError>
    requires long { len ≤ 32 }
    requires wide { length dst.now.nodes.items ≡ 32 }
    requires dst { ids_end dst.now.nodes.items ≤ size terms.old }
    requires slot { slot_end slot.now ≤ size terms.old }
    ensures builds { Builds terms.old terms.new }
    ensures within { IfOk result (λ r. metric_end r ≤ size terms.new) }
    ensures value { Gives terms.new result (λ w r. (held : Slot) (process : ℕ)
        → ospf_of w slot.now.ospf ≡ held.ospf → rib_of w slot.now.rib ≡ held.rib
        → metric_of w r ≡ option_and_then (λ entry. origins.taken_metric net.now.files router (prefix_of w dst.now len) held
        (record line.now { source = Source.Ospf process }) entry.source) held.rib) }
{
    let connected = is_from(terms, &slot.rib, 0)?;
    let subnet = sym_internal_subnet(terms, net, router, line, dst, len)?;
    let zero = both(terms, connected, subnet)?;
    let ospf = kind_metric(alloc, terms, line, &slot.ospf)?;
    let made = by_source(alloc, terms, &slot.rib, &ospf, zero)?;
    Ok(made)
}

/// The metric 0 for an entry of a source.
#[tactic(auto, using(crate::proofs::EntryMetrics::plain_stands))]
fn taken_from(
    alloc: Global,
    terms: &mut Terms,
    source: Source,
    rib: &SymRib,
) -> Result<SymMetric, AllocError>
    requires { rib_end rib.now ≤ size terms.old }
    ensures builds { Builds terms.old terms.new }
    ensures within { IfOk result (λ r. metric_end r ≤ size terms.new) }
    ensures value { Gives terms.new result (λ w r. metric_of w r ≡ option_and_then (λ entry.
        if origins.is_from source entry.source then Some 0 else None) (rib_of w rib.now)) }
{
    let from = sym_from(terms, source, rib)?;
    let valid = both(terms, rib.valid, from)?;
    zero_where(alloc, terms, valid)
}

/// The metric with which a `redistribute` line takes the entry of a slot. Among OSPF routes a connected subnet that
/// runs OSPF counts as internal with metric 0.
pub(crate) fn sym_taken_metric(
    alloc: Global,
    terms: &mut Terms,
    net: &Net,
    router: u32,
    line: &Redist,
    dst: &Bits,
    len: u8,
    slot: &SymSlot,
) -> Result<SymMetric, AllocError>
    requires long { len ≤ 32 }
    requires wide { length dst.now.nodes.items ≡ 32 }
    requires dst { ids_end dst.now.nodes.items ≤ size terms.old }
    requires slot { slot_end slot.now ≤ size terms.old }
    ensures builds { Builds terms.old terms.new }
    ensures within { IfOk result (λ r. metric_end r ≤ size terms.new) }
    ensures value { Gives terms.new result (λ w r. (held : Slot)
        → ospf_of w slot.now.ospf ≡ held.ospf → rib_of w slot.now.rib ≡ held.rib
        → metric_of w r ≡ option_and_then (λ entry. origins.taken_metric net.now.files router (prefix_of w dst.now len) held
        line.now entry.source) held.rib) }
{
    match line.source {
        Source::Connected => taken_from(alloc, terms, Source::Connected, &slot.rib),
        Source::Static => taken_from(alloc, terms, Source::Static, &slot.rib),
        Source::Ospf(_) => {
            let made = taken_from_ospf(alloc, terms, net, router, line, dst, len, slot)?;
            Ok(made)
        }
        Source::Bgp(_) => {
            let never = constant_node(terms, false)?;
            zero_where(alloc, terms, never)
        }
    }
}
