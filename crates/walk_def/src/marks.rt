//! Marks on routers.

ghost use Rattle.std.specs.Prelude.{◌≡◌, IfOk, false, replicate};
ghost use Rattle.walk_def.specs.Marks.{known};

use std::alloc::{AllocError, Global};

/// Whether the router is marked.
pub fn is_known(marks: &[bool], router: u32) -> bool
    ensures { result ≡ known marks.now router }
{
    match marks.get(router as usize) {
        None => false,
        Some(mark) => *mark,
    }
}

/// A mark for each router, none of them set.
pub fn no_marks(alloc: Global, count: usize) -> Result<Vec<bool>, AllocError>
    ensures { IfOk result (λ marks. marks.items ≡ replicate count false) }
{
    vec![in alloc; false; count]
}
