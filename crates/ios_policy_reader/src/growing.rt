//! Lists that grow by one item.

ghost use Rattle.std.specs.Prelude.{◌≡◌, ◌∷◌, ◌++◌, [], IfOk, OnOk, OnErr};

use mw_text::List;
use std::alloc::{AllocError, Global};

/// Puts an item at the end.
pub fn add_to<T: Drop>(items: &mut List<T>, item: T) -> Result<(), AllocError>
    ensures ok { OnOk result (items.new ≡ items.old ++ item ∷ []) }
    ensures unchanged { OnErr result (items.new ≡ items.old) }
{
    match items.items.push(item) {
        Ok(()) => Ok(()),
        Err(_) => Err(AllocError),
    }
}

/// The list of one item.
pub fn list_of_one<T: Drop>(alloc: Global, item: T) -> Result<List<T>, AllocError>
    ensures { IfOk result (λ items. items ≡ item ∷ []) }
{
    let mut items = List::new(alloc);
    add_to(&mut items, item)?;
    Ok(items)
}
