//! What a formula leaves open of a slot.

use route_record::OspfRec;

/// What is open of a slot: its OSPF route, and one bit of the source of its entry, which says that the entry is by OSPF or
/// by external BGP.
#[derive(Clone, Copy)]
pub struct Unknown {
    pub ospf: Option<OspfRec>,
    pub dynamic: bool,
}
