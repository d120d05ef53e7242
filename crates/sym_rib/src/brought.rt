//! What OSPF takes of a route that the map of a line leaves, as terms.

ghost use Rattle.std.specs.Prelude.{◌≡◌, length};

use term_arith::Bits;
use term_store::NodeId;

/// A route's metric and whether it comes in as one of type 1, which is there where `valid` is true.
#[derive(Drop)]
pub(crate) struct SymBrought {
    pub valid: NodeId,
    pub type1: NodeId,
    pub metric: Bits,
    pub ghost wide: { length metric.nodes.items ≡ 32 },
}
