//! What a candidate has beside its route, as terms.

ghost use Rattle.std.specs.Prelude.{◌≡◌, length};

use term_arith::Bits;
use term_store::NodeId;

/// What a candidate has beside its route: whether it is there, whether it was learnt over an external session, the cost
/// to its next hop, and the identifier of the peer from which it came.
#[derive(Drop)]
pub(crate) struct SymBeside {
    pub there: NodeId,
    pub external: NodeId,
    pub cost: Bits,
    pub peer_id: Bits,
    pub ghost cost_wide: { length cost.nodes.items ≡ 32 },
    pub ghost peer_id_wide: { length peer_id.nodes.items ≡ 32 },
}
