//! The bit of value 2 in the number of an entry's source: OSPF is 3 and external BGP 2, and no other source has it.

ghost use Rattle.std.specs.Prelude.{◌≡◌, ℕ, ◌≤◌, ◌<◌, ◌&&◌, IfOk, Option as OptionOf, option_and_then, option_map, slice_get};
ghost use Rattle.net_parts.specs.Entries.{entry_with};
ghost use Rattle.route_record.specs.declared.Slot.{Slot as SlotOf};
ghost use Rattle.sym_policy.specs.Held.{failures_of};
ghost use Rattle.sym_policy.specs.Records.{prefix_of as prefix_read};
ghost use Rattle.sym_rib.specs.Slots.{IsNumbered, StandsForSlot, rib_end, rib_of, slot_end};
ghost use Rattle.world_variables.specs.Slots.{entry_of_bit, has_dynamic};
ghost use Rattle.term_store.specs.Terms.{Reading, at, size};
ghost use Rattle.term_store.specs.Reading.{Reads, Builds, Gives};
ghost use Rattle.term_arith.specs.Bits.{ids_end};
ghost use Rattle.std.specs.Prelude.{length};

use crate::origins::SlotPlace;
use std::alloc::{AllocError, Global};
use sym_rib::{SymRib, SymSlot, sym_entry};
use term_arith::gates::both;
use term_store::{NodeId, Terms};

// Whether an entry is there whose source has the bit.
#[tactic(auto, using(crate::proofs::SourceBits::bit_read))]
fn bit_of(terms: &mut Terms, entry: &SymRib) -> Result<NodeId, AllocError>
    requires nodes { rib_end entry.now ≤ size terms.old }
    ensures builds { Builds terms.old terms.new }
    ensures within { IfOk result (λ r. r.0 < size terms.new) }
    ensures value { Gives terms.new result (λ w r. IsNumbered w entry.now → at w r ≡ has_dynamic (rib_of w entry.now)) }
{
    let bit = entry.source.nodes[1];
    both(terms, entry.valid, bit)
}

/// Whether the entry of a router's table has the bit, for the prefix of that length of a destination, where a node says
/// whether an own origin is as good as the OSPF route of its slot.
pub fn sym_dynamic(
    alloc: Global,
    terms: &mut Terms,
    place: &SlotPlace<'_>,
    slot: &SymSlot,
    own: NodeId,
) -> Result<NodeId, AllocError>
    requires long { place.now.len ≤ 32 }
    requires wide { length place.now.dst.now.nodes.items ≡ 32 }
    requires nodes { ids_end place.now.dst.now.nodes.items ≤ size terms.old }
    requires down { ids_end place.now.sym.now.down ≤ size terms.old }
    requires slot { slot_end slot.now ≤ size terms.old }
    requires own { own.0 < size terms.old }
    ensures builds { Builds terms.old terms.new }
    ensures within { IfOk result (λ r. r.0 < size terms.new) }
    ensures value { Gives terms.new result (λ w r. (held : SlotOf) → StandsForSlot w place.now.net.now.tracked
        slot.now held →
        at w r ≡ has_dynamic (option_and_then (λ file. entry_with place.now.net.now.files
        (failures_of w place.now.sym.now) place.now.router file
        (prefix_read w place.now.dst.now place.now.len) held (at w own))
        (slice_get place.now.net.now.files place.now.router))) }
{
    let entry = sym_entry(
        alloc,
        terms,
        place.net,
        place.sym,
        place.router,
        place.dst,
        place.len,
        slot,
        own,
    )?;
    let bit = bit_of(terms, &entry)?;
    Ok(bit)
}

/// The entry with that node for the bit, and else of the same nodes.
#[tactic(auto, using(crate::proofs::SourceBits::bit_put))]
pub fn with_dynamic(entry: SymRib, dynamic: NodeId) -> SymRib
    ensures within { (n : ℕ) → rib_end entry ≤ n → dynamic.0 < n → rib_end result ≤ n }
    ensures value { (w : Reading) → IsNumbered w entry →
        rib_of w result ≡ option_map (entry_of_bit (at w dynamic)) (rib_of w entry) }
{
    let mut made = entry;
    made.source.nodes[1] = dynamic;
    made
}
