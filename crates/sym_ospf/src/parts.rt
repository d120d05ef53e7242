//! A distance as terms.

ghost use Rattle.std.specs.Prelude.{◌≡◌, length};

use term_arith::Bits;
use term_store::NodeId;

/// A distance as terms, which is there where `there` is true. It has a bit more than the cost of a route, so that no
/// sum of a route's cost and an interface's is cut.
#[derive(Drop)]
pub(crate) struct SymDistance {
    pub(crate) there: NodeId,
    pub(crate) sum: Bits,
    pub(crate) ghost wide: { length sum.nodes.items ≡ 33 },
}
