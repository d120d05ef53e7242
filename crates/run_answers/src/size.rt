//! The line that says how large a generated network is.

ghost use Rattle.std.specs.Prelude.{◌≡◌, IfOk, OnOk};
ghost use Rattle.mw_outside.specs.Faults.{Rose};
ghost use Rattle.mw_outside.specs.Taken.{Takes, TakesPart};
ghost use Rattle.run_answers.specs.Answering.{OnWriteFault, UnlessWriteFault};
ghost use Rattle.run_answers.specs.Lines.{size_text};

use crate::halt::Halt;
use mw_outside::Sink;
use mw_text::List;
use run_inputs::text::joined;
use std::alloc::{AllocError, Global};

fn size_line(alloc: Global, routers: u64) -> Result<List<u8>, AllocError>
    ensures { IfOk result (λ text. text ≡ size_text routers) }
{
    let count = routers.to_string(alloc)?;
    let pieces: [&[u8]; 5] = [
        b"routers ",
        count.as_bytes(),
        b" links ",
        count.as_bytes(),
        b"\n",
    ];
    joined(alloc, &pieces)
}

/// Prints the size of a ring of so many routers.
pub fn put_size<O: Sink>(alloc: Global, routers: u64, out: &mut O) -> Result<(), Halt>
    ensures takes { OnOk result (Takes (O.taken out.old) (O.taken out.new) (size_text routers)) }
    ensures part { TakesPart (O.taken out.old) (O.taken out.new) (size_text routers) }
    ensures fault { OnWriteFault result (Rose (O.faults out.old) (O.faults out.new)) }
    ensures writes { UnlessWriteFault result (O.faults out.new ≡ O.faults out.old) }
{
    let text = match size_line(alloc, routers) {
        Ok(text) => text,
        Err(_) => return Err(Halt::Memory),
    };
    match out.write(text.as_slice()) {
        Ok(()) => Ok(()),
        Err(_) => Err(Halt::WriteFault),
    }
}
