//! Lists that grow by one.

ghost use Rattle.std.specs.Prelude.{◌≡◌, ◌++◌, ◌∷◌, [], OnOk};

use mw_text::List;
use std::alloc::AllocError;

/// Puts an item last.
pub(crate) fn put_last<T: Drop>(list: &mut List<T>, item: T) -> Result<(), AllocError>
    ensures { OnOk result (list.new ≡ list.old ++ item ∷ []) }
{
    list.items.push(item)?;
    Ok(())
}
