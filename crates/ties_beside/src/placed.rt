//! Nodes of a second store by the places where they stand.

ghost use Rattle.std.specs.Prelude.{◌≡◌, IfOk, map};
ghost use Rattle.joined_terms.specs.Joining as joining;

use mw_text::List;
use std::alloc::{AllocError, Global};
use term_arith::lists::put;
use term_store::NodeId;

/// Where a node stands.
pub fn place_of(places: &[NodeId], id: NodeId) -> NodeId
    ensures { result ≡ joining.place_of places.now id }
{
    match places.get(id.0 as usize) {
        Some(place) => *place,
        None => NodeId(0),
    }
}

/// Where nodes stand, in their order.
pub fn all_placed(
    alloc: Global,
    places: &[NodeId],
    ids: &[NodeId],
) -> Result<List<NodeId>, AllocError>
    ensures { IfOk result (λ all. all ≡ map (joining.place_of places.now) ids.now) }
{
    let mut all = List::new(alloc);
    for id in ids {
        put(&mut all, place_of(places, *id))?;
    }
    Ok(all)
}
