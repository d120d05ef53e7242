//! The values that the numbers of held BGP routes can have, and fields that tell them.

ghost use Rattle.std.specs.Prelude.{◌≡◌, ◌<◌, ◌-◌, ◌==◌, IfOk, None, OnOk, Some, fold, if◌then◌else◌, length, max, option_map, slice_get};
ghost use Rattle.std.specs.List.{filter_map, flat_map};
ghost use Rattle.std.specs.Option.{option_to_list};
ghost use Rattle.net_parts.specs.Exports.{router_id};
ghost use Rattle.held_values.specs.Rooms.{put_option, values_room};
ghost use Rattle.held_values.specs.Rooms as rooms;
ghost use Rattle.held_values.specs.Values as values;
ghost use Rattle.slot_places.specs.Values as fields;

use crate::numbers::HeldNumber;
use ios_ast::{Bgp, File, MapEntry, Neighbour, Ospf, Redist, RouteMap, SetAct};
use mw_text::List;
use net_model::Net;
use net_parts::ends::is_outside;
use slot_places::fields::{addresses_field, field_of, greatest, put_once};
use slot_places::rooms::{dearest_interface, dearest_walk};
use slot_places::{Field, width_for};
use std::alloc::{AllocError, Global};

/// Of whom a held route can be learnt, what its originator can be, and the values that its weight, its local preference,
/// its MED and its next hop can have and the first and the last AS number of its path.
#[derive(Drop)]
pub struct HeldValues {
    pub from: Field,
    pub originator: Field,
    pub weight: Field,
    pub local_pref: Field,
    pub med: Field,
    pub next_hop: Field,
    pub first: Field,
    pub last: Field,
}

// ---- what one line says

fn other_asn(process: &Bgp, neighbour: &Neighbour) -> Option<u32>
    ensures { result ≡ (if process.now.asn == neighbour.now.asn then None else Some neighbour.now.asn) }
{
    if process.asn == neighbour.asn {
        None
    } else {
        Some(neighbour.asn)
    }
}

fn neighbour_says(which: HeldNumber, process: &Bgp, neighbour: &Neighbour) -> Option<u32>
    ensures { result ≡ values.said_of_neighbour which process.now neighbour.now }
{
    match which {
        HeldNumber::Weight => Some(neighbour.weight),
        HeldNumber::LocalPref => None,
        HeldNumber::Med => None,
        HeldNumber::NextHop => Some(neighbour.addr.0),
        HeldNumber::FirstAs => other_asn(process, neighbour),
        HeldNumber::LastAs => other_asn(process, neighbour),
    }
}

fn redist_says(which: HeldNumber, line: &Redist) -> Option<u32>
    ensures { result ≡ values.said_of_redist which line.now }
{
    match which {
        HeldNumber::Med => line.metric,
        _ => None,
    }
}

fn first_number(numbers: &[u32]) -> Option<u32>
    ensures { result ≡ slice_get numbers.now 0 }
{
    match numbers.get(0) {
        None => None,
        Some(n) => Some(*n),
    }
}

fn last_number(numbers: &[u32]) -> Option<u32>
    ensures { result ≡ slice_get numbers.now (length numbers.now - 1) }
{
    match numbers.get(numbers.len().saturating_sub(1)) {
        None => None,
        Some(n) => Some(*n),
    }
}

fn set_says(which: HeldNumber, line: &SetAct) -> Option<u32>
    ensures { result ≡ values.said_of_set which line.now }
{
    match (which, line) {
        (HeldNumber::Weight, SetAct::Weight(n)) => Some(*n),
        (HeldNumber::LocalPref, SetAct::LocalPref(n)) => Some(*n),
        (HeldNumber::Med, SetAct::Metric(n)) => Some(*n),
        (HeldNumber::FirstAs, SetAct::Prepend(numbers)) => first_number(numbers.as_slice()),
        (HeldNumber::LastAs, SetAct::Prepend(numbers)) => last_number(numbers.as_slice()),
        _ => None,
    }
}

// ---- what lines say, each value once

fn put_said(held: &mut List<u32>, said: Option<u32>) -> Result<(), AllocError>
    ensures { OnOk result (held.new ≡ put_option held.old said) }
{
    match said {
        None => Ok(()),
        Some(n) => put_once(held, n),
    }
}

fn put_neighbours(held: &mut List<u32>, which: HeldNumber, process: &Bgp) -> Result<(), AllocError>
    ensures { OnOk result (held.new ≡ fold fields.put_once held.old
        (filter_map (values.said_of_neighbour which process.now) process.now.neighbours)) }
{
    for neighbour in process.neighbours.as_slice() {
        put_said(held, neighbour_says(which, process, neighbour))?;
    }
    Ok(())
}

fn put_redists(held: &mut List<u32>, which: HeldNumber, process: &Bgp) -> Result<(), AllocError>
    ensures { OnOk result (held.new
        ≡ fold fields.put_once held.old (filter_map (values.said_of_redist which) process.now.redistribute)) }
{
    for line in process.redistribute.as_slice() {
        put_said(held, redist_says(which, line))?;
    }
    Ok(())
}

fn put_entry(held: &mut List<u32>, which: HeldNumber, entry: &MapEntry) -> Result<(), AllocError>
    ensures { OnOk result (held.new ≡ fold fields.put_once held.old (values.said_in_entry which entry.now)) }
{
    for line in entry.sets.as_slice() {
        put_said(held, set_says(which, line))?;
    }
    Ok(())
}

fn put_map(held: &mut List<u32>, which: HeldNumber, map: &RouteMap) -> Result<(), AllocError>
    ensures { OnOk result (held.new ≡ fold fields.put_once held.old (values.said_in_map which map.now)) }
{
    for entry in map.entries.as_slice() {
        put_entry(held, which, entry)?;
    }
    Ok(())
}

fn put_maps(held: &mut List<u32>, which: HeldNumber, file: &File) -> Result<(), AllocError>
    ensures { OnOk result (held.new
        ≡ fold fields.put_once held.old (flat_map (values.said_in_map which) file.now.policies.maps)) }
{
    for map in file.policies.maps.as_slice() {
        put_map(held, which, map)?;
    }
    Ok(())
}

fn put_file(held: &mut List<u32>, which: HeldNumber, file: &File) -> Result<(), AllocError>
    ensures { OnOk result (held.new ≡ fold fields.put_once held.old (values.said_in_file which file.now)) }
{
    match &file.bgp {
        None => Ok(()),
        Some(process) => {
            put_neighbours(held, which, process)?;
            put_redists(held, which, process)?;
            put_maps(held, which, file)
        }
    }
}

fn put_files(held: &mut List<u32>, which: HeldNumber, files: &[File]) -> Result<(), AllocError>
    ensures { OnOk result (held.new
        ≡ fold fields.put_once held.old (flat_map (values.said_in_file which) files.now)) }
{
    for file in files {
        put_file(held, which, file)?;
    }
    Ok(())
}

fn put_unsaid(held: &mut List<u32>, which: HeldNumber) -> Result<(), AllocError>
    ensures { OnOk result (held.new ≡ fold fields.put_once held.old (values.unsaid which)) }
{
    match which {
        HeldNumber::Weight => {
            put_once(held, 0)?;
            put_once(held, 32768)
        }
        HeldNumber::LocalPref => put_once(held, 100),
        HeldNumber::Med => put_once(held, 0),
        HeldNumber::NextHop => put_once(held, 0),
        HeldNumber::FirstAs => put_once(held, 0),
        HeldNumber::LastAs => put_once(held, 0),
    }
}

// ---- fields

#[tactic(auto, using(crate::proofs::Fields::values_once))]
fn field_for(alloc: Global, which: HeldNumber, files: &[File]) -> Result<Field, AllocError>
    ensures { IfOk result (λ field. field ≡ fields.field_of (fields.once (values.values_of which files.now))) }
{
    let mut held = List::new(alloc);
    put_unsaid(&mut held, which)?;
    put_files(&mut held, which, files)?;
    Ok(field_of(held))
}

// A field for the peer of whom a route is learnt, if any: a neighbour line says its address.
fn peers_field(alloc: Global, files: &[File]) -> Result<Field, AllocError>
    ensures { IfOk result (λ field. field ≡ fields.addresses_field (fields.once (values.peers_of files.now))) }
{
    let mut peers = List::new(alloc);
    put_files(&mut peers, HeldNumber::NextHop, files)?;
    Ok(addresses_field(peers))
}

fn put_id(held: &mut List<u32>, net: &Net, router: u32) -> Result<(), AllocError>
    requires { router < length net.now.files }
    ensures { OnOk result (held.new ≡ fields.put_once held.old (router_id net.now.files router).0) }
{
    put_once(held, net.bgp_id(router).0)
}

fn put_ids(held: &mut List<u32>, net: &Net) -> Result<(), AllocError>
    ensures { OnOk result (held.new ≡ fold fields.put_once held.old (values.router_ids net.now.files)) }
{
    for router in 0..net.routers().len() as u32 {
        put_id(held, net, router)?;
    }
    Ok(())
}

// A field for the originator of a reflected route.
fn originators_field(alloc: Global, net: &Net) -> Result<Field, AllocError>
    ensures { IfOk result (λ field. field
        ≡ fields.addresses_field (fields.once (values.originators_of net.now.files))) }
{
    let mut ids = List::new(alloc);
    put_once(&mut ids, 0)?;
    put_ids(&mut ids, net)?;
    Ok(addresses_field(ids))
}

// What neighbour lines say of who sends a route, and the identifiers of routers of who originated it.
#[derive(Drop)]
struct Senders {
    from: Field,
    originator: Field,
}

fn senders_of(alloc: Global, net: &Net) -> Result<Senders, AllocError>
    ensures { IfOk result (λ r. r ≡ record {
      from = (values_room net.now.files).from;
      originator = (values_room net.now.files).originator;
    }) }
{
    let from = peers_field(alloc, net.routers())?;
    let originator = originators_field(alloc, net)?;
    Ok(Senders { from, originator })
}

// The values of the numbers that a message has.
#[derive(Drop)]
struct Sent {
    next_hop: Field,
    first: Field,
    last: Field,
}

fn has_peers(net: &Net) -> bool
    ensures { result ≡ values.has_peers net.now.files }
{
    net.ends().iter().any(|end| is_outside(end))
}

fn last_field(alloc: Global, net: &Net) -> Result<Field, AllocError>
    ensures { IfOk result (λ field. field ≡ (values_room net.now.files).last) }
{
    if has_peers(net) {
        Ok(Field::Bits(32))
    } else {
        field_for(alloc, HeldNumber::LastAs, net.routers())
    }
}

fn sent_values(alloc: Global, net: &Net) -> Result<Sent, AllocError>
    ensures { IfOk result (λ r. r ≡ record {
      next_hop = (values_room net.now.files).next_hop;
      first = (values_room net.now.files).first;
      last = (values_room net.now.files).last;
    }) }
{
    let next_hop = field_for(alloc, HeldNumber::NextHop, net.routers())?;
    let first = field_for(alloc, HeldNumber::FirstAs, net.routers())?;
    let last = last_field(alloc, net)?;
    Ok(Sent {
        next_hop,
        first,
        last,
    })
}

// ---- the MED

fn put_line(held: &mut List<u32>, line: &Redist) -> Result<(), AllocError>
    ensures { OnOk result (held.new ≡ fold fields.put_once held.old (values.brought_by_line line.now)) }
{
    put_once(held, 1)?;
    put_once(held, 20)?;
    match line.metric {
        None => Ok(()),
        Some(n) => put_once(held, n),
    }
}

fn put_lines(held: &mut List<u32>, process: &Ospf) -> Result<(), AllocError>
    ensures { OnOk result (held.new
        ≡ fold fields.put_once held.old (flat_map values.brought_by_line process.now.redistribute)) }
{
    for line in process.redistribute.as_slice() {
        put_line(held, line)?;
    }
    Ok(())
}

fn put_default(held: &mut List<u32>, process: &Ospf) -> Result<(), AllocError>
    ensures { OnOk result (held.new
        ≡ fold fields.put_once held.old (option_to_list (option_map (λ line. line.metric) process.now.default))) }
{
    match &process.default {
        None => Ok(()),
        Some(line) => put_once(held, line.metric),
    }
}

fn put_brought(held: &mut List<u32>, file: &File) -> Result<(), AllocError>
    ensures { OnOk result (held.new ≡ fold fields.put_once held.old (values.brought_by_file file.now)) }
{
    match &file.ospf {
        None => Ok(()),
        Some(process) => {
            put_lines(held, process)?;
            put_default(held, process)?;
            put_maps(held, HeldNumber::Med, file)
        }
    }
}

fn put_all_brought(held: &mut List<u32>, files: &[File]) -> Result<(), AllocError>
    ensures { OnOk result (held.new ≡ fold fields.put_once held.old (flat_map values.brought_by_file files.now)) }
{
    for file in files {
        put_brought(held, file)?;
    }
    Ok(())
}

// The greatest metric that lines bring into OSPF.
fn dearest_brought(alloc: Global, files: &[File]) -> Result<u32, AllocError>
    ensures { IfOk result (λ most. most ≡ values.dearest_brought files.now) }
{
    let mut held = List::new(alloc);
    put_all_brought(&mut held, files)?;
    Ok(greatest(held.as_slice()))
}

// In how many bits the metric of each OSPF route has room.
#[tactic(auto, unfolding(crate::specs::Values::ospf_bits))]
fn ospf_bits(alloc: Global, net: &Net) -> Result<u8, AllocError>
    ensures { IfOk result (λ bits. bits ≡ values.ospf_bits net.now.files) }
{
    let brought = dearest_brought(alloc, net.routers())?;
    let origin = dearest_interface(net.ospf_interfaces()).max(brought);
    let walk = dearest_walk(net.routers(), net.adjacencies());
    Ok(width_for(u64::from(origin) + walk))
}

// A field for the numbers of another and for all of so many bits.
fn with_bits(field: Field, bits: u8) -> Field
    ensures { result ≡ rooms.with_bits field bits }
{
    if bits == 0 {
        field
    } else {
        Field::Bits(field.bits().max(bits))
    }
}

// Of the MED of a route that no external peer announced.
fn inner_meds(alloc: Global, net: &Net) -> Result<Field, AllocError>
    ensures { IfOk result (λ field. field ≡ rooms.with_bits
        (fields.field_of (fields.once (values.meds_of net.now.files))) (values.ospf_bits net.now.files)) }
{
    let bits = ospf_bits(alloc, net)?;
    let said = field_for(alloc, HeldNumber::Med, net.routers())?;
    Ok(with_bits(said, bits))
}

fn meds_field(alloc: Global, net: &Net) -> Result<Field, AllocError>
    ensures { IfOk result (λ field. field ≡ rooms.meds_field net.now.files) }
{
    if has_peers(net) {
        Ok(Field::Bits(32))
    } else {
        inner_meds(alloc, net)
    }
}

// The values of the numbers that a router gives a route.
#[derive(Drop)]
struct Given {
    weight: Field,
    local_pref: Field,
    med: Field,
}

fn given_values(alloc: Global, net: &Net) -> Result<Given, AllocError>
    ensures { IfOk result (λ r. r ≡ record {
      weight = (values_room net.now.files).weight;
      local_pref = (values_room net.now.files).local_pref;
      med = (values_room net.now.files).med;
    }) }
{
    let weight = field_for(alloc, HeldNumber::Weight, net.routers())?;
    let local_pref = field_for(alloc, HeldNumber::LocalPref, net.routers())?;
    let med = meds_field(alloc, net)?;
    Ok(Given {
        weight,
        local_pref,
        med,
    })
}

/// Fields for the numbers of the BGP routes that routers of the network can hold in a stable routing, for the peers of
/// whom they are learnt and for their originators: few values and few addresses are told by their place among them, many
/// by their bits. The MED of a local route can be the metric of an OSPF route (RFC 4271, section 5.1.4).
pub fn held_values(alloc: Global, net: &Net) -> Result<HeldValues, AllocError>
    ensures { IfOk result (λ room. room ≡ values_room net.now.files) }
{
    let given = given_values(alloc, net)?;
    let sent = sent_values(alloc, net)?;
    let senders = senders_of(alloc, net)?;
    Ok(HeldValues {
        from: senders.from,
        originator: senders.originator,
        weight: given.weight,
        local_pref: given.local_pref,
        med: given.med,
        next_hop: sent.next_hop,
        first: sent.first,
        last: sent.last,
    })
}
