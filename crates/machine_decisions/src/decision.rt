//! What a router decides by.

use ios_ast::File;
use machine_laws::State;
use mw_text::Prefix;
use net_model::Net;
use route_candidates::Underlay;
use route_record::Slot;

/// What a router decides for a prefix by: its file and its slot as it stands, and the state of the network with what is up
/// and how far routers are from one another in it.
#[derive(Clone, Copy)]
pub(crate) struct Decision<'a> {
    pub(crate) net: &'a Net,
    pub(crate) state: &'a State,
    pub(crate) underlay: &'a Underlay,
    pub(crate) router: u32,
    pub(crate) file: &'a File,
    pub(crate) p: &'a Prefix,
    pub(crate) slot: &'a Slot,
}
