//! A growable list whose contracts speak of a plain list.

ghost use Rattle.std.specs.Prelude.{◌≡◌, [], ◌∷◌, ◌++◌, OnOk, IfErr, IfOk, IsTrue, ◌↔◌};
ghost use Rattle.mw_text.specs.Text.{same_text};

use std::alloc::{AllocError, Global};
use std::marker::Model;

/// A list. Contracts see the list of its items; code may read and write `items` itself.
#[derive(Clone, Debug, Drop)]
pub struct List<T> {
    pub items: Vec<T>,
}

impl<T> Model for List<T> {
    ghost use Rattle.std.specs.Prelude.{List as ListOf};

    ghost Value = { ListOf T };

    ghost view = { λ list. list.items.items };
}

impl<T> List<T> {
    /// The empty list, which takes no memory.
    pub fn new(alloc: Global) -> List<T>
        ensures { result ≡ [] }
    {
        List {
            items: Vec::new(alloc),
        }
    }

    /// Puts an item at the end. Where memory is refused the list stays and the item comes back.
    pub fn push(&mut self, item: T) -> Result<(), T>
        ensures ok { OnOk result (self.new ≡ self.old ++ item ∷ []) }
        ensures unchanged { IfErr result (λ _. self.new ≡ self.old) }
        ensures returned { IfErr result (λ back. back ≡ item) }
    {
        match self.items.push(item) {
            Ok(()) => Ok(()),
            Err(failed) => Err(failed.value),
        }
    }

    /// All items in their order.
    pub fn as_slice(&self) -> &[T]
        ensures { result.now ≡ self.now }
    {
        self.items.as_slice()
    }
}

/// A list of these bytes.
pub fn list_of(alloc: Global, bytes: &[u8]) -> Result<List<u8>, AllocError>
    ensures { IfOk result (λ list. list ≡ bytes.now) }
{
    Ok(List {
        items: Vec::from_slice(alloc, bytes)?,
    })
}

/// Whether two texts are the same bytes.
pub fn same_bytes(a: &[u8], b: &[u8]) -> bool
    ensures value { result ≡ same_text a.now b.now }
    ensures same { IsTrue result ↔ (a.now ≡ b.now) }
{
    a == b
}
