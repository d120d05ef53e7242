//! What a router takes from its own table into OSPF, as terms (RFC 2328, section 12.4.4; Cisco IOS, `redistribute` and
//! `default-information originate`).

ghost use Rattle.std.specs.Prelude.{◌≡◌, ◌==◌, ◌&&◌, ◌||◌, ◌++◌, ◌∷◌, [], ℕ, ◌+◌, ◌<◌, ◌≤◌, Bool};
ghost use Rattle.std.specs.Prelude.{false, true, not, if◌then◌else◌, Some, None, IfOk, OnOk, length, max};
ghost use Rattle.std.specs.Prelude.{option_and_then, slice_get};
ghost use Rattle.std.specs.List.{filter_map};
ghost use Rattle.std.specs.Option.{option_map, option_map_or, option_to_list};
ghost use Rattle.net_parts.specs.Origins as origins;
ghost use Rattle.route_record.specs.declared.Slot.{Slot};
ghost use Rattle.sym_policy.specs.Held.{bgp_of, bgp_end, ospf_of, ospf_end};
ghost use Rattle.sym_policy.specs.MapRecs.{HasMarks, HasTracked, attributes_at, map_rec_at, map_rec_end};
ghost use Rattle.sym_policy.specs.Records.{prefix_of};
ghost use Rattle.route_shapes.specs.Shapes.{route_shape};
ghost use Rattle.sym_rib.specs.Brought.{brought_of, brought_end};
ghost use Rattle.sym_rib.specs.Into.{source_taken, list_end};
ghost use Rattle.sym_rib.specs.Redistributed.{entry_slot, shape_into_ospf, shape_left, shape_of_bgp, shape_seen};
ghost use Rattle.sym_rib.specs.Redistributed.{shape_redistributed};
ghost use Rattle.sym_rib.specs.Slots.{rib_of, rib_end, slot_end, source_of_number, StandsForSlot};
ghost use Rattle.term_store.specs.Terms.{Reading, size, at};
ghost use Rattle.term_store.specs.Reading.{Reads, Builds, Gives};
ghost use Rattle.term_arith.specs.Bits.{bits, number, ids_end};

use crate::brought::SymBrought;
use crate::known::{Known, held_parts, known_rec, put_held, word};
use crate::prefixes::sym_classful;
use crate::slots::{SymRib, SymSlot};
use ios_ast::{DefaultOrigin, File, Ospf, Redist, Source};
use mw_text::List;
use net_model::Net;
use net_parts::ends::file_of;
use route_record::{Origin, Side, Tracked};
use std::alloc::{AllocError, Global};
use sym_policy::{Grounds, SymBgp, SymMapRec, SymOspf, sym_through};
use term_arith::gates::{both, constant_node, negate};
use term_arith::{Bits, choose, constant, equal_number};
use term_store::{NodeId, Terms};

/// The number of the source of the entries that a line takes.
fn number_taken(source: Source) -> Option<u64>
    ensures { result ≡ source_taken source }
{
    match source {
        Source::Connected => Some(0),
        Source::Static => Some(1),
        Source::Bgp(_) => Some(2),
        Source::Ospf(_) => None,
    }
}

/// Whether an entry is of the source that a line takes.
#[tactic(auto, using(crate::proofs::SourceLaw::source_law))]
pub(crate) fn sym_from(
    terms: &mut Terms,
    source: Source,
    rib: &SymRib,
) -> Result<NodeId, AllocError>
    requires { rib_end rib.now ≤ size terms.old }
    ensures builds { Builds terms.old terms.new }
    ensures within { IfOk result (λ r. r.0 < size terms.new) }
    ensures value { Gives terms.new result (λ w r. at w r
        ≡ origins.is_from source (source_of_number (number w rib.now.source.nodes.items))) }
{
    match number_taken(source) {
        None => constant_node(terms, false),
        Some(number) => equal_number(terms, rib.source.nodes.as_slice(), number),
    }
}

/// Whether a line takes prefixes of that length: never the default route, and without `subnets` classful networks
/// alone.
fn sym_fits(terms: &mut Terms, line: &Redist, dst: &Bits, len: u8) -> Result<NodeId, AllocError>
    requires long { len ≤ 32 }
    requires wide { length dst.now.nodes.items ≡ 32 }
    requires dst { ids_end dst.now.nodes.items ≤ size terms.old }
    ensures builds { Builds terms.old terms.new }
    ensures within { IfOk result (λ r. r.0 < size terms.new) }
    ensures value { Gives terms.new result (λ w r. at w r ≡ (not (origins.is_default (prefix_of w dst.now len))
        && (line.now.subnets || origins.is_classful (prefix_of w dst.now len)))) }
{
    if len == 0 {
        return constant_node(terms, false);
    }
    if line.subnets {
        return constant_node(terms, true);
    }
    sym_classful(terms, dst, len)
}

/// Whether a line takes an entry for the prefix.
fn sym_taken(
    terms: &mut Terms,
    line: &Redist,
    dst: &Bits,
    len: u8,
    rib: &SymRib,
) -> Result<NodeId, AllocError>
    requires long { len ≤ 32 }
    requires wide { length dst.now.nodes.items ≡ 32 }
    requires dst { ids_end dst.now.nodes.items ≤ size terms.old }
    requires rib { rib_end rib.now ≤ size terms.old }
    ensures builds { Builds terms.old terms.new }
    ensures within { IfOk result (λ r. r.0 < size terms.new) }
    ensures value { Gives terms.new result (λ w r. at w r ≡ (at w rib.now.valid
        && origins.is_taken line.now (prefix_of w dst.now len)
        (source_of_number (number w rib.now.source.nodes.items)))) }
{
    let from = sym_from(terms, line.source, rib)?;
    let fits = sym_fits(terms, line, dst, len)?;
    let taken = both(terms, from, fits)?;
    both(terms, rib.valid, taken)
}

/// The kind of an external route: 1 where a node is true, else 2.
fn external_kind(alloc: Global, terms: &mut Terms, type1: NodeId) -> Result<Bits, AllocError>
    requires { type1.0 < size terms.old }
    ensures builds { Builds terms.old terms.new }
    ensures within { IfOk result (λ r. ids_end r.nodes.items ≤ size terms.new) }
    ensures width { IfOk result (λ r. length r.nodes.items ≡ 2) }
    ensures value { Gives terms.new result (λ w r. number w r.nodes.items ≡ (if at w type1 then 1 else 2)) }
{
    let one = constant(alloc, terms, 1, 2)?;
    let two = constant(alloc, terms, 2, 2)?;
    let kind = choose(alloc, terms, type1, &one, &two)?;
    Ok(kind)
}

/// An external route with that metric where a node is true: one of type 1 costs it, one of type 2 has it beside its
/// cost.
#[tactic(auto, using(crate::proofs::Redistribution::external_chosen))]
fn external_ospf(
    alloc: Global,
    terms: &mut Terms,
    valid: NodeId,
    type1: NodeId,
    metric: &Bits,
) -> Result<SymOspf, AllocError>
    requires wide { length metric.now.nodes.items ≡ 32 }
    requires valid { valid.0 < size terms.old }
    requires type1 { type1.0 < size terms.old }
    requires metric { ids_end metric.now.nodes.items ≤ size terms.old }
    ensures builds { Builds terms.old terms.new }
    ensures within { IfOk result (λ r. ospf_end r ≤ size terms.new) }
    ensures value { Gives terms.new result (λ w r. ospf_of w r
        ≡ (if at w valid
        then Some (origins.external_record (at w type1) (number w metric.now.nodes.items)) else None)) }
{
    let kind = external_kind(alloc, terms, type1)?;
    let none = word(alloc, terms, 0)?;
    let beside = choose(alloc, terms, type1, &none, metric)?;
    let cost = choose(alloc, terms, type1, metric, &none)?;
    Ok(SymOspf {
        valid,
        kind,
        metric: beside,
        cost,
    })
}

/// What the route map of a line sees of a route that is no BGP route, which is there where `there` is true.
fn plain_rec(
    alloc: Global,
    terms: &mut Terms,
    tracked: &Tracked,
    line: &Redist,
    there: bool,
    metric: u32,
) -> Result<SymMapRec, AllocError>
    ensures builds { Builds terms.old terms.new }
    ensures within { IfOk result (λ r. map_rec_end r ≤ size terms.new) }
    ensures marks { IfOk result (λ r. HasMarks tracked.now r) }
    ensures valid { Gives terms.new result (λ w r. at w r.bgp.valid ≡ there) }
    ensures value { Gives terms.new result (λ w r. attributes_at w r
        ≡ route_shape tracked.now (origins.plain_route line.now metric)) }
{
    let valid = constant_node(terms, there)?;
    let med = word(alloc, terms, line.metric.unwrap_or(metric))?;
    let known = Known {
        weight: 0,
        local_pref: 0,
        origin: Origin::Incomplete,
        type1: line.type1,
    };
    known_rec(alloc, terms, tracked, valid, &known, med)
}

/// What it sees of a held BGP route: its path and communities besides.
fn bgp_rec(
    alloc: Global,
    terms: &mut Terms,
    tracked: &Tracked,
    line: &Redist,
    held: &SymBgp,
) -> Result<SymMapRec, AllocError>
    requires rows { HasTracked tracked.now held.now }
    requires nodes { bgp_end held.now ≤ size terms.old }
    ensures builds { Builds terms.old terms.new }
    ensures within { IfOk result (λ r. map_rec_end r ≤ size terms.new) }
    ensures marks { IfOk result (λ r. HasMarks tracked.now r) }
    ensures value { Gives terms.new result (λ w r. map_rec_at w r
        ≡ option_map (shape_of_bgp tracked.now line.now) (bgp_of w held.now)) }
{
    let parts = held_parts(alloc, held)?;
    let plain = plain_rec(alloc, terms, tracked, line, true, 1)?;
    Ok(put_held(plain, held.valid, parts))
}

/// What the route map of a line sees of the routes of a slot.
fn seen_rec(
    alloc: Global,
    terms: &mut Terms,
    tracked: &Tracked,
    line: &Redist,
    bgp: &SymBgp,
) -> Result<SymMapRec, AllocError>
    requires rows { HasTracked tracked.now bgp.now }
    requires nodes { bgp_end bgp.now ≤ size terms.old }
    ensures builds { Builds terms.old terms.new }
    ensures within { IfOk result (λ r. map_rec_end r ≤ size terms.new) }
    ensures marks { IfOk result (λ r. HasMarks tracked.now r) }
    ensures value { Gives terms.new result (λ w r. map_rec_at w r
        ≡ shape_seen tracked.now line.now (bgp_of w bgp.now)) }
{
    match line.source {
        Source::Connected => plain_rec(alloc, terms, tracked, line, true, 20),
        Source::Static => plain_rec(alloc, terms, tracked, line, true, 20),
        Source::Bgp(_) => bgp_rec(alloc, terms, tracked, line, bgp),
        Source::Ospf(_) => plain_rec(alloc, terms, tracked, line, false, 20),
    }
}

/// What OSPF takes of what the route map of a line leaves of the routes of a slot.
fn left_part(
    alloc: Global,
    terms: &mut Terms,
    tracked: &Tracked,
    file: &File,
    line: &Redist,
    dst: &Bits,
    len: u8,
    bgp: &SymBgp,
) -> Result<SymBrought, AllocError>
    requires long { len ≤ 32 }
    requires wide { length dst.now.nodes.items ≡ 32 }
    requires dst { ids_end dst.now.nodes.items ≤ size terms.old }
    requires rows { HasTracked tracked.now bgp.now }
    requires nodes { bgp_end bgp.now ≤ size terms.old }
    ensures builds { Builds terms.old terms.new }
    ensures within { IfOk result (λ r. brought_end r ≤ size terms.new) }
    ensures value { Gives terms.new result (λ w r. brought_of w r
        ≡ shape_left tracked.now file.now (prefix_of w dst.now len) line.now (bgp_of w bgp.now)) }
{
    let seen = seen_rec(alloc, terms, tracked, line, bgp)?;
    let grounds = Grounds {
        policies: &file.policies,
        tracked,
        dst,
        len,
    };
    let left = sym_through(
        alloc,
        terms,
        &grounds,
        &line.map,
        seen,
        Side::Redistribution,
    )?;
    Ok(SymBrought {
        valid: left.bgp.valid,
        type1: left.type1,
        metric: left.bgp.med,
    })
}

/// The record that a line brings into OSPF.
fn line_ospf(
    alloc: Global,
    terms: &mut Terms,
    tracked: &Tracked,
    file: &File,
    line: &Redist,
    dst: &Bits,
    len: u8,
    slot: &SymSlot,
) -> Result<SymOspf, AllocError>
    requires long { len ≤ 32 }
    requires wide { length dst.now.nodes.items ≡ 32 }
    requires dst { ids_end dst.now.nodes.items ≤ size terms.old }
    requires rows { HasTracked tracked.now slot.now.bgp }
    requires slot { slot_end slot.now ≤ size terms.old }
    ensures builds { Builds terms.old terms.new }
    ensures within { IfOk result (λ r. ospf_end r ≤ size terms.new) }
    ensures value { Gives terms.new result (λ w r. ospf_of w r ≡ shape_into_ospf tracked.now file.now
        (prefix_of w dst.now len) (bgp_of w slot.now.bgp) (rib_of w slot.now.rib) line.now) }
{
    let taken = sym_taken(terms, line, dst, len, &slot.rib)?;
    let left = left_part(alloc, terms, tracked, file, line, dst, len, &slot.bgp)?;
    let valid = both(terms, taken, left.valid)?;
    let made = external_ospf(alloc, terms, valid, left.type1, &left.metric)?;
    Ok(made)
}

/// Whether the entry of a slot is there and is not OSPF's own.
#[tactic(auto, using(crate::proofs::SourceLaw::ospf_law))]
fn sym_other(terms: &mut Terms, rib: &SymRib) -> Result<NodeId, AllocError>
    requires { rib_end rib.now ≤ size terms.old }
    ensures builds { Builds terms.old terms.new }
    ensures within { IfOk result (λ r. r.0 < size terms.new) }
    ensures value { Gives terms.new result (λ w r. at w r ≡ (at w rib.now.valid
        && not (origins.is_ospf_entry (source_of_number (number w rib.now.source.nodes.items))))) }
{
    let own = equal_number(terms, rib.source.nodes.as_slice(), 3)?;
    let other = negate(terms, own)?;
    both(terms, rib.valid, other)
}

/// Whether a line gives the default route at that prefix length.
fn sym_gives(
    terms: &mut Terms,
    line: &DefaultOrigin,
    len: u8,
    rib: &SymRib,
) -> Result<NodeId, AllocError>
    requires { rib_end rib.now ≤ size terms.old }
    ensures builds { Builds terms.old terms.new }
    ensures within { IfOk result (λ r. r.0 < size terms.new) }
    ensures value { Gives terms.new result (λ w r. at w r ≡ ((len == 0) && (line.now.always || (at w rib.now.valid
        && not (origins.is_ospf_entry (source_of_number (number w rib.now.source.nodes.items))))))) }
{
    if len != 0 {
        return constant_node(terms, false);
    }
    if line.always {
        return constant_node(terms, true);
    }
    sym_other(terms, rib)
}

/// The default route that a line gives.
#[tactic(auto, using(crate::proofs::Redistribution::default_stands))]
fn default_ospf(
    alloc: Global,
    terms: &mut Terms,
    line: &DefaultOrigin,
    dst: &Bits,
    len: u8,
    rib: &SymRib,
) -> Result<SymOspf, AllocError>
    requires { rib_end rib.now ≤ size terms.old }
    ensures builds { Builds terms.old terms.new }
    ensures within { IfOk result (λ r. ospf_end r ≤ size terms.new) }
    ensures value { Gives terms.new result (λ w r. ospf_of w r
        ≡ origins.originated_default (prefix_of w dst.now len) (entry_slot (rib_of w rib.now)) line.now) }
{
    let _width = dst.nodes.as_slice().len();
    let valid = sym_gives(terms, line, len, rib)?;
    let type1 = constant_node(terms, line.type1)?;
    let metric = word(alloc, terms, line.metric)?;
    let made = external_ospf(alloc, terms, valid, type1, &metric)?;
    Ok(made)
}

/// Puts a record at the end.
fn put_ospf(made: &mut List<SymOspf>, rec: SymOspf) -> Result<(), AllocError>
    ensures { OnOk result (made.new ≡ made.old ++ rec ∷ []) }
{
    made.items.push(rec)?;
    Ok(())
}

/// The records that lines bring into OSPF, one for each line.
fn by_lines(
    alloc: Global,
    terms: &mut Terms,
    tracked: &Tracked,
    file: &File,
    lines: &[Redist],
    dst: &Bits,
    len: u8,
    slot: &SymSlot,
) -> Result<List<SymOspf>, AllocError>
    requires long { len ≤ 32 }
    requires wide { length dst.now.nodes.items ≡ 32 }
    requires dst { ids_end dst.now.nodes.items ≤ size terms.old }
    requires rows { HasTracked tracked.now slot.now.bgp }
    requires slot { slot_end slot.now ≤ size terms.old }
    ensures builds { Builds terms.old terms.new }
    ensures within { IfOk result (λ r. list_end ospf_end r ≤ size terms.new) }
    ensures value { Gives terms.new result (λ w r. filter_map (ospf_of w) r ≡ filter_map (shape_into_ospf tracked.now
        file.now (prefix_of w dst.now len) (bgp_of w slot.now.bgp) (rib_of w slot.now.rib)) lines.now) }
{
    let mut made = List::new(alloc);
    for line in lines {
        let rec = line_ospf(alloc, terms, tracked, file, line, dst, len, slot)?;
        put_ospf(&mut made, rec)?;
    }
    Ok(made)
}

/// Puts the default route of a line, if there is one, behind some records.
fn with_default(
    alloc: Global,
    terms: &mut Terms,
    default: &Option<DefaultOrigin>,
    dst: &Bits,
    len: u8,
    rib: &SymRib,
    made: List<SymOspf>,
) -> Result<List<SymOspf>, AllocError>
    requires rib { rib_end rib.now ≤ size terms.old }
    requires made { list_end ospf_end made ≤ size terms.old }
    ensures builds { Builds terms.old terms.new }
    ensures within { IfOk result (λ r. list_end ospf_end r ≤ size terms.new) }
    ensures value { Gives terms.new result (λ w r. filter_map (ospf_of w) r ≡ filter_map (ospf_of w) made
        ++ option_to_list (option_and_then (origins.originated_default (prefix_of w dst.now len)
        (entry_slot (rib_of w rib.now))) default.now)) }
{
    let mut all = made;
    match default {
        None => Ok(all),
        Some(line) => {
            let rec = default_ospf(alloc, terms, line, dst, len, rib)?;
            put_ospf(&mut all, rec)?;
            Ok(all)
        }
    }
}

/// What an OSPF process takes from the table of its router.
fn of_process(
    alloc: Global,
    terms: &mut Terms,
    tracked: &Tracked,
    file: &File,
    process: &Ospf,
    dst: &Bits,
    len: u8,
    slot: &SymSlot,
) -> Result<List<SymOspf>, AllocError>
    requires long { len ≤ 32 }
    requires wide { length dst.now.nodes.items ≡ 32 }
    requires dst { ids_end dst.now.nodes.items ≤ size terms.old }
    requires rows { HasTracked tracked.now slot.now.bgp }
    requires slot { slot_end slot.now ≤ size terms.old }
    ensures builds { Builds terms.old terms.new }
    ensures within { IfOk result (λ r. list_end ospf_end r ≤ size terms.new) }
    ensures value { Gives terms.new result (λ w r. filter_map (ospf_of w) r ≡ shape_redistributed tracked.now file.now
        process.now (prefix_of w dst.now len) (bgp_of w slot.now.bgp) (rib_of w slot.now.rib)) }
{
    let lines = process.redistribute.as_slice();
    let made = by_lines(alloc, terms, tracked, file, lines, dst, len, slot)?;
    let all = with_default(alloc, terms, &process.default, dst, len, &slot.rib, made)?;
    Ok(all)
}

/// What the OSPF process of a file takes, if it has one.
fn of_file(
    alloc: Global,
    terms: &mut Terms,
    tracked: &Tracked,
    file: &File,
    dst: &Bits,
    len: u8,
    slot: &SymSlot,
) -> Result<List<SymOspf>, AllocError>
    requires long { len ≤ 32 }
    requires wide { length dst.now.nodes.items ≡ 32 }
    requires dst { ids_end dst.now.nodes.items ≤ size terms.old }
    requires rows { HasTracked tracked.now slot.now.bgp }
    requires slot { slot_end slot.now ≤ size terms.old }
    ensures builds { Builds terms.old terms.new }
    ensures within { IfOk result (λ r. list_end ospf_end r ≤ size terms.new) }
    ensures value { Gives terms.new result (λ w r. filter_map (ospf_of w) r ≡ option_map_or (λ process.
        shape_redistributed tracked.now file.now process (prefix_of w dst.now len) (bgp_of w slot.now.bgp)
        (rib_of w slot.now.rib)) file.now.ospf []) }
{
    match &file.ospf {
        None => Ok(List::new(alloc)),
        Some(process) => {
            let made = of_process(alloc, terms, tracked, file, process, dst, len, slot)?;
            Ok(made)
        }
    }
}

/// What the OSPF process of a router takes from its own entry for the prefix of that length of a destination: by each
/// `redistribute` line through its route map, and the default route (RFC 2328, section 12.4.4). Each item is a record
/// that may be there. Nothing where there is no such router, or where it runs no OSPF. Of the slot it looks at the
/// shape of the BGP route and at the entry, so `value` says what is made of every slot, and `stands` what that is where
/// the slot stands for one.
pub fn sym_redistribute(
    alloc: Global,
    terms: &mut Terms,
    net: &Net,
    router: u32,
    dst: &Bits,
    len: u8,
    slot: &SymSlot,
) -> Result<List<SymOspf>, AllocError>
    requires long { len ≤ 32 }
    requires wide { length dst.now.nodes.items ≡ 32 }
    requires dst { ids_end dst.now.nodes.items ≤ size terms.old }
    requires rows { HasTracked net.now.tracked slot.now.bgp }
    requires slot { slot_end slot.now ≤ size terms.old }
    ensures builds { Builds terms.old terms.new }
    ensures within { IfOk result (λ r. list_end ospf_end r ≤ size terms.new) }
    ensures value { Gives terms.new result (λ w r. filter_map (ospf_of w) r ≡ option_map_or (λ file. option_map_or
        (λ process. shape_redistributed net.now.tracked file process (prefix_of w dst.now len) (bgp_of w slot.now.bgp)
        (rib_of w slot.now.rib)) file.ospf []) (slice_get net.now.files router) []) }
    ensures stands { Gives terms.new result (λ w r. (held : Slot) → StandsForSlot w net.now.tracked slot.now held
        → filter_map (ospf_of w) r ≡ option_map_or (λ file. option_map_or (λ process.
        origins.redistributed file process (prefix_of w dst.now len) held) file.ospf [])
        (slice_get net.now.files router) []) }
{
    match file_of(net.routers(), router) {
        None => Ok(List::new(alloc)),
        Some(file) => {
            let made = of_file(alloc, terms, net.tracked(), file, dst, len, slot)?;
            Ok(made)
        }
    }
}
