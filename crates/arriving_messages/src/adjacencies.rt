//! What far routers hold of OSPF.

ghost use Rattle.std.specs.Prelude.{◌≡◌};
ghost use Rattle.net_parts.specs.OspfRoutes as routes;

use mw_text::Prefix;
use net_model::Adjacency;
use route_record::{OspfRec, Tables};

/// The record that the far router of an adjacency holds for the prefix's length. None where it holds none.
pub fn far_record(tables: &Tables, p: &Prefix, a: &Adjacency) -> Option<OspfRec>
    ensures { result ≡ routes.far_record tables.now p.now a.now }
{
    match tables.slot(a.to.router, p.len) {
        None => None,
        Some(slot) => slot.ospf,
    }
}
