//! Whether the parts of two slots are the same.

ghost use Rattle.std.specs.Prelude.{◌≡◌};
ghost use Rattle.net_parts.specs.OspfRoutes.{kind_rank};
ghost use Rattle.net_parts.specs.Sending.{same_record};
ghost use Rattle.same_routes.specs.Slots as slots;

use crate::routes::same_route;
use route_record::{BgpRec, OspfKind, OspfRec, RibEntry, RibSource, Slot};

fn rank(kind: OspfKind) -> u8
    ensures { result ≡ kind_rank kind }
{
    match kind {
        OspfKind::Internal => 0,
        OspfKind::Ext1 => 1,
        OspfKind::Ext2 => 2,
    }
}

fn same_record(a: &OspfRec, b: &OspfRec) -> bool
    ensures { result ≡ same_record a.now b.now }
{
    rank(a.kind) == rank(b.kind) && a.metric == b.metric && a.cost == b.cost
}

/// Whether the OSPF parts are the same.
pub fn same_ospf(a: &Option<OspfRec>, b: &Option<OspfRec>) -> bool
    ensures { result ≡ slots.same_ospf a.now b.now }
{
    match (a, b) {
        (None, None) => true,
        (Some(a), Some(b)) => same_record(a, b),
        _ => false,
    }
}

/// Whether the BGP parts are the same.
pub fn same_bgp(a: &Option<BgpRec>, b: &Option<BgpRec>) -> bool
    ensures { result ≡ slots.same_bgp a.now b.now }
{
    match (a, b) {
        (None, None) => true,
        (Some(a), Some(b)) => same_route(a, b),
        _ => false,
    }
}

fn same_source(a: RibSource, b: RibSource) -> bool
    ensures { result ≡ slots.same_source a b }
{
    match (a, b) {
        (RibSource::Connected, RibSource::Connected) => true,
        (RibSource::Static, RibSource::Static) => true,
        (RibSource::Ebgp, RibSource::Ebgp) => true,
        (RibSource::Ospf, RibSource::Ospf) => true,
        (RibSource::Ibgp, RibSource::Ibgp) => true,
        _ => false,
    }
}

fn same_entry(a: &RibEntry, b: &RibEntry) -> bool
    ensures { result ≡ slots.same_entry a.now b.now }
{
    same_source(a.source, b.source) && a.distance == b.distance
}

/// Whether the table entries are the same.
pub fn same_rib(a: &Option<RibEntry>, b: &Option<RibEntry>) -> bool
    ensures { result ≡ slots.same_rib a.now b.now }
{
    match (a, b) {
        (None, None) => true,
        (Some(a), Some(b)) => same_entry(a, b),
        _ => false,
    }
}

/// Whether the slots are the same in all three parts.
pub fn same_slot(a: &Slot, b: &Slot) -> bool
    ensures { result ≡ slots.same_slot a.now b.now }
{
    same_ospf(&a.ospf, &b.ospf) && same_bgp(&a.bgp, &b.bgp) && same_rib(&a.rib, &b.rib)
}
