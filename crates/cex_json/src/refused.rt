//! Why a text states no counterexample.

ghost use Rattle.std.specs.Prelude.{◌≡◌};

use mw_text::List;
use std::alloc::{AllocError, AllocFailed};

/// Why a text states no counterexample: it is no JSON, or its first bad field stands at that path, as `tables/0/len`.
#[derive(Drop)]
pub enum CexRefused {
    NotJson,
    Field { path: List<u8> },
    Memory,
}

impl From<AllocError> for CexRefused {
    ghost use Rattle.cex_json.specs.declared.refused.CexRefused.TheVariants.{Memory};

    ghost from_gives = { λ _ refused. refused ≡ Memory };

    fn from(_error: AllocError) -> CexRefused {
        CexRefused::Memory
    }
}

impl<T: Drop> From<AllocFailed<T>> for CexRefused {
    ghost use Rattle.cex_json.specs.declared.refused.CexRefused.TheVariants.{Memory};

    ghost from_gives = { λ _ refused. refused ≡ Memory };

    fn from(_error: AllocFailed<T>) -> CexRefused {
        CexRefused::Memory
    }
}
