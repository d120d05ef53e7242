//! Why files are refused, and the line that says so.

ghost use Rattle.std.specs.Prelude.{◌≡◌, IfOk};
ghost use Rattle.mw_load.specs.Refused.{refused_text};

use mw_text::{List, list_of};
use std::alloc::{AllocError, AllocFailed, Global};

/// Why the files that are named are no network.
#[derive(Drop)]
pub enum LoadRefused {
    /// A read of one of them failed.
    Fault,
    /// This one of them, by its place among the names, is refused at this line, for a cause with this number and these
    /// words.
    Refused {
        name: u64,
        line: u32,
        number: u32,
        cause: List<u8>,
    },
    /// Memory was refused.
    Memory,
}

impl From<AllocError> for LoadRefused {
    ghost use Rattle.mw_load.specs.declared.refused.LoadRefused.TheVariants.{Memory};

    ghost from_gives = { λ _ why. why ≡ Memory };

    fn from(_error: AllocError) -> LoadRefused {
        LoadRefused::Memory
    }
}

impl<T: Drop> From<AllocFailed<T>> for LoadRefused {
    ghost use Rattle.mw_load.specs.declared.refused.LoadRefused.TheVariants.{Memory};

    ghost from_gives = { λ _ why. why ≡ Memory };

    fn from(_error: AllocFailed<T>) -> LoadRefused {
        LoadRefused::Memory
    }
}

/// The line of a refusal, with its line feed.
///
/// # Errors
/// Memory was refused.
pub fn refusal_text(
    alloc: Global,
    name: &str,
    line: u32,
    number: u32,
    cause: &[u8],
) -> Result<List<u8>, AllocError>
    ensures { IfOk result (λ text. text ≡ refused_text name.now line number cause.now) }
{
    let line = line.to_string(alloc)?;
    let number = number.to_string(alloc)?;
    let mut text = list_of(alloc, b"refused ")?;
    text.items.extend_from_slice(name.as_bytes())?;
    text.items.push(b':')?;
    text.items.extend_from_slice(line.as_bytes())?;
    text.items.push(b' ')?;
    text.items.extend_from_slice(number.as_bytes())?;
    text.items.push(b' ')?;
    text.items.extend_from_slice(cause)?;
    text.items.push(b'\n')?;
    Ok(text)
}
