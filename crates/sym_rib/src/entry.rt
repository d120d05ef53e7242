//! The entry of a router's table for one prefix of a destination, as terms (RFC 1812, section 5.2.4).

ghost use Rattle.std.specs.Prelude.{◌≡◌, ◌==◌, ◌&&◌, ℕ, ◌+◌, ◌<◌, ◌≤◌, Bool, not, fold, map, if◌then◌else◌, Some};
ghost use Rattle.std.specs.Prelude.{None, IfOk, length, slice_get, option_and_then};
ghost use Rattle.net_parts.specs.Entries as entries;
ghost use Rattle.net_parts.specs.Routing as routing;
ghost use Rattle.route_record.specs.declared.Slot.{Slot};
ghost use Rattle.sym_policy.specs.Held.{failures_of, ospf_of, ospf_end};
ghost use Rattle.sym_policy.specs.Records.{prefix_of};
ghost use Rattle.sym_rib.specs.Slots.{learnt_of, rib_of, rib_end, slot_end, IsNumbered, StandsForSlot};
ghost use Rattle.sym_rib.specs.Sources.{closer_of, entry_from, entry_read, learnt_entry};
ghost use Rattle.term_store.specs.Terms.{Reading, size, at};
ghost use Rattle.term_store.specs.Reading.{Reads, Builds, Gives};
ghost use Rattle.term_arith.specs.Bits.{number, ids_end};

use crate::interfaces::sym_direct;
use crate::learnt::bgp_rib;
use crate::lookup::Lookup;
use crate::ribs::{closer_rib, entry_where, no_entry};
use crate::slots::{SymRib, SymSlot};
use crate::statics::best_static;
use net_model::Net;
use net_parts::ends::file_of;
use route_record::RibSource;
use std::alloc::{AllocError, Global};
use sym_policy::{SymNet, SymOspf};
use term_arith::Bits;
use term_arith::gates::{both, negate};
use term_store::{NodeId, Terms};

/// The entry of a connected subnet.
fn direct_rib(
    alloc: Global,
    terms: &mut Terms,
    lookup: &Lookup<'_>,
    sym: &SymNet,
) -> Result<SymRib, AllocError>
    requires long { lookup.now.len ≤ 32 }
    requires wide { length lookup.now.dst.now.nodes.items ≡ 32 }
    requires nodes { ids_end lookup.now.dst.now.nodes.items ≤ size terms.old }
    requires down { ids_end sym.now.down ≤ size terms.old }
    ensures builds { Builds terms.old terms.new }
    ensures within { IfOk result (λ r. rib_end r ≤ size terms.new) }
    ensures numbered { Gives terms.new result (λ w r. IsNumbered w r) }
    ensures value { Gives terms.new result (λ w r. rib_of w r
        ≡ (if routing.is_direct
        (routing.up_interfaces lookup.now.net.now.files (failures_of w sym.now) lookup.now.router)
        (prefix_of w lookup.now.dst.now lookup.now.len)
        then Some (record { source = RibSource.Connected; distance = 0 }) else None)) }
{
    let direct = sym_direct(
        alloc,
        terms,
        lookup.net,
        sym,
        lookup.router,
        lookup.dst,
        lookup.len,
    )?;
    entry_where(alloc, terms, direct, RibSource::Connected, 0)
}

/// The entry of a held OSPF route, where no own origin is as good.
fn ospf_rib(
    alloc: Global,
    terms: &mut Terms,
    ospf: &SymOspf,
    own: NodeId,
) -> Result<SymRib, AllocError>
    requires nodes { ospf_end ospf.now ≤ size terms.old }
    requires own { own.0 < size terms.old }
    ensures builds { Builds terms.old terms.new }
    ensures within { IfOk result (λ r. rib_end r ≤ size terms.new) }
    ensures numbered { Gives terms.new result (λ w r. IsNumbered w r) }
    ensures value { Gives terms.new result (λ w r. rib_of w r ≡ (if at w ospf.now.valid && not (at w own)
        then Some (record { source = RibSource.Ospf; distance = 110 }) else None)) }
{
    let other = negate(terms, own)?;
    let valid = both(terms, ospf.valid, other)?;
    entry_where(alloc, terms, valid, RibSource::Ospf, 110)
}

/// The best entry of the connected subnet and the static routes.
fn plain_rib(
    alloc: Global,
    terms: &mut Terms,
    lookup: &Lookup<'_>,
    sym: &SymNet,
) -> Result<SymRib, AllocError>
    requires long { lookup.now.len ≤ 32 }
    requires wide { length lookup.now.dst.now.nodes.items ≡ 32 }
    requires nodes { ids_end lookup.now.dst.now.nodes.items ≤ size terms.old }
    requires down { ids_end sym.now.down ≤ size terms.old }
    ensures builds { Builds terms.old terms.new }
    ensures within { IfOk result (λ r. rib_end r ≤ size terms.new) }
    ensures numbered { Gives terms.new result (λ w r. IsNumbered w r) }
    ensures value { Gives terms.new result (λ w r. rib_of w r ≡ routing.least_distance (routing.candidates
        (routing.up_interfaces lookup.now.net.now.files (failures_of w sym.now) lookup.now.router)
        lookup.now.file.now.statics (prefix_of w lookup.now.dst.now lookup.now.len))) }
{
    let direct = direct_rib(alloc, terms, lookup, sym)?;
    best_static(
        alloc,
        terms,
        lookup,
        sym,
        direct,
        lookup.file.statics.as_slice(),
    )
}

/// The entry of a router of the network, by the terms of its slot.
fn table_rib(
    alloc: Global,
    terms: &mut Terms,
    lookup: &Lookup<'_>,
    sym: &SymNet,
    slot: &SymSlot,
    own: NodeId,
) -> Result<SymRib, AllocError>
    requires long { lookup.now.len ≤ 32 }
    requires wide { length lookup.now.dst.now.nodes.items ≡ 32 }
    requires nodes { ids_end lookup.now.dst.now.nodes.items ≤ size terms.old }
    requires down { ids_end sym.now.down ≤ size terms.old }
    requires slot { slot_end slot.now ≤ size terms.old }
    requires own { own.0 < size terms.old }
    ensures builds { Builds terms.old terms.new }
    ensures within { IfOk result (λ r. rib_end r ≤ size terms.new) }
    ensures numbered { Gives terms.new result (λ w r. IsNumbered w r) }
    ensures value { Gives terms.new result (λ w r. rib_of w r
        ≡ entry_read lookup.now.net.now.files (failures_of w sym.now) lookup.now.router lookup.now.file.now
        (prefix_of w lookup.now.dst.now lookup.now.len)
        (if at w slot.now.bgp.valid then learnt_entry lookup.now.net.now.files lookup.now.router
        (number w slot.now.bgp.from.nodes.items) else None)
        (at w slot.now.ospf.valid && not (at w own))) }
{
    let plain = plain_rib(alloc, terms, lookup, sym)?;
    let bgp = bgp_rib(alloc, terms, lookup.net, lookup.router, &slot.bgp)?;
    let best = closer_rib(alloc, terms, &plain, &bgp)?;
    let ospf = ospf_rib(alloc, terms, &slot.ospf, own)?;
    closer_rib(alloc, terms, &best, &ospf)
}

/// The entry of a router's table for the prefix of that length of a destination: the candidate of least
/// administrative distance among its connected and static routes, the held BGP route and the held OSPF route, the
/// latter only where no own origin is as good (`own_ospf`). Equal distances go to the first of connected, static, BGP
/// and OSPF. Where there is no such router, there is no entry. Of the BGP route it looks at where it was learnt alone,
/// so `value` says what is made of every slot, and `stands` what that is where the slot stands for one.
pub fn sym_entry(
    alloc: Global,
    terms: &mut Terms,
    net: &Net,
    sym: &SymNet,
    router: u32,
    dst: &Bits,
    len: u8,
    slot: &SymSlot,
    own_ospf: NodeId,
) -> Result<SymRib, AllocError>
    requires long { len ≤ 32 }
    requires wide { length dst.now.nodes.items ≡ 32 }
    requires nodes { ids_end dst.now.nodes.items ≤ size terms.old }
    requires down { ids_end sym.now.down ≤ size terms.old }
    requires slot { slot_end slot.now ≤ size terms.old }
    requires own { own_ospf.0 < size terms.old }
    ensures builds { Builds terms.old terms.new }
    ensures within { IfOk result (λ r. rib_end r ≤ size terms.new) }
    ensures numbered { Gives terms.new result (λ w r. IsNumbered w r) }
    ensures value { Gives terms.new result (λ w r. rib_of w r ≡ option_and_then (λ file. entry_from net.now.files
        (failures_of w sym.now) router file (prefix_of w dst.now len) (learnt_of w slot.now.bgp)
        (ospf_of w slot.now.ospf) (at w own_ospf)) (slice_get net.now.files router)) }
    ensures stands { Gives terms.new result (λ w r. (held : Slot) → StandsForSlot w net.now.tracked slot.now held
        → rib_of w r ≡ option_and_then (λ file. entries.entry_with net.now.files (failures_of w sym.now) router file
        (prefix_of w dst.now len) held (at w own_ospf)) (slice_get net.now.files router)) }
{
    match file_of(net.routers(), router) {
        None => no_entry(alloc, terms),
        Some(file) => {
            let lookup = Lookup {
                net,
                router,
                file,
                dst,
                len,
            };
            let entry = table_rib(alloc, terms, &lookup, sym, slot, own_ospf)?;
            Ok(entry)
        }
    }
}
