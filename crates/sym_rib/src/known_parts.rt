//! What route maps see of a held BGP route, as terms.

use sym_policy::SymPath;
use term_arith::Bits;

/// What route maps see of a held BGP route beside its preferences.
#[derive(Drop)]
pub(crate) struct HeldParts {
    pub path: SymPath,
    pub communities: Bits,
}
