//! A metric that may be there, as terms.

ghost use Rattle.std.specs.Prelude.{◌≡◌, length};

use term_arith::Bits;
use term_store::NodeId;

/// A metric, which is there where `valid` is true.
#[derive(Drop)]
pub(crate) struct SymMetric {
    pub valid: NodeId,
    pub value: Bits,
    pub ghost wide: { length value.nodes.items ≡ 32 },
}
