//! What every record that is there keeps: its numbers fit their fields. The functions only read.

ghost use Rattle.std.specs.Prelude.{◌<◌, ◌^◌, All, IfSome};
ghost use Rattle.route_record.specs.Fits.{IsAddress, IsWord, FitsBgp, FitsLearnt, FitsOspf, FitsRib, FitsSlot};

use crate::{BgpRec, Learnt, OspfRec, RibEntry, Slot, Tables};
use mw_text::Addr;

fn word(n: u32)
    ensures { IsWord n }
{}

fn byte(n: u8)
    ensures { n < 2 ^ 8 }
{}

fn read_words(words: &[u32])
    ensures { All IsWord words.now }
{
    for n in words {
        word(*n);
    }
}

fn read_address(address: &Addr)
    ensures { IsAddress address.now }
{
    word(address.0);
}

fn read_addresses(addresses: &[Addr])
    ensures { All IsAddress addresses.now }
{
    for address in addresses {
        read_address(address);
    }
}

fn read_learnt(from: &Learnt)
    ensures { FitsLearnt from.now }
{
    match from {
        Learnt::Local => {}
        Learnt::Peer(a) => {
            word(a.0);
        }
    }
}

fn read_originator(originator: &Option<Addr>)
    ensures { IfSome originator.now IsAddress }
{
    match originator {
        None => {}
        Some(a) => {
            word(a.0);
        }
    }
}

fn read_ospf(route: &Option<OspfRec>)
    ensures { IfSome route.now FitsOspf }
{
    match route {
        None => {}
        Some(route) => {
            word(route.metric);
            word(route.cost);
        }
    }
}

fn read_route(route: &BgpRec)
    ensures { FitsBgp route.now }
{
    word(route.weight);
    word(route.local_pref);
    word(route.med);
    word(route.next_hop.0);
    read_learnt(&route.from);
    read_words(route.path.as_slice());
    read_words(route.communities.as_slice());
    read_originator(&route.originator);
    read_addresses(route.clusters.as_slice());
}

fn read_bgp(route: &Option<BgpRec>)
    ensures { IfSome route.now FitsBgp }
{
    match route {
        None => {}
        Some(route) => read_route(route),
    }
}

fn read_rib(entry: &Option<RibEntry>)
    ensures { IfSome entry.now FitsRib }
{
    match entry {
        None => {}
        Some(entry) => {
            byte(entry.distance);
        }
    }
}

fn read_slot(slot: &Slot)
    ensures { FitsSlot slot.now }
{
    read_ospf(&slot.ospf);
    read_bgp(&slot.bgp);
    read_rib(&slot.rib);
}

fn read_slots(slots: &[Slot])
    ensures { All FitsSlot slots.now }
{
    for slot in slots {
        read_slot(slot);
    }
}

/// That the numbers of tables fit their fields, as a fact for the caller.
pub fn read_tables(tables: &Tables)
    ensures { All FitsSlot tables.now.slots }
{
    read_slots(tables.slots.as_slice());
}
