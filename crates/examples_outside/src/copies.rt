//! Copies files to a sink, as a caller of the outside.

ghost use Rattle.std.specs.Prelude.{◌≡◌, ◌≢◌, ◌≤◌, [], ◌∷◌, ◌++◌, IfSome, Contains};
ghost use Rattle.mw_outside.specs.Faults.{Rose};
ghost use Rattle.mw_outside.specs.Contents.{Has};
ghost use Rattle.mw_outside.specs.Taken.{Takes, TakesPart, takes_more, part_of_all, part_of_none, part_more, part_stops};

use mw_outside::{Files, ReadRefused, Sink, read_whole};
use std::alloc::Global;

#[derive(Clone, Copy)]
pub enum Copied {
    Done,
    ReadFault,
    TooLong,
    WriteFault,
    Memory,
}

fn refusal(refused: ReadRefused) -> Copied
    ensures failed { result ≡ Copied.ReadFault → refused ≡ ReadRefused.Failed }
    ensures too_long { result ≡ Copied.TooLong → refused ≡ ReadRefused.TooLong }
    ensures never_done { result ≢ Copied.Done }
    ensures never_written { result ≢ Copied.WriteFault }
{
    match refused {
        ReadRefused::Failed => Copied::ReadFault,
        ReadRefused::TooLong => Copied::TooLong,
        ReadRefused::Memory => Copied::Memory,
    }
}

pub fn copy_two<F: Files, O: Sink>(
    alloc: Global,
    files: &mut F,
    out: &mut O,
    first: &str,
    second: &str,
) -> Copied
    ensures done { result ≡ Copied.Done → Has (F.contents files.old) first.now (λ a.
        Has (F.contents files.old) second.now (λ b. Takes (O.taken out.old) (O.taken out.new) (a ++ b))) }
    ensures read_fault { result ≡ Copied.ReadFault → Rose (F.faults files.old) (F.faults files.new) }
    ensures named { result ≡ Copied.ReadFault → IfSome (F.last_failed files.new) (Contains (first.now ∷ second.now ∷ [])) }
    ensures unprinted { result ≡ Copied.ReadFault → O.taken out.new ≡ O.taken out.old }
    ensures write_fault { result ≡ Copied.WriteFault → Rose (O.faults out.old) (O.faults out.new) }
{
    let head = match read_whole(alloc, files, first, 100) {
        Ok(bytes) => bytes,
        Err(refused) => return refusal(refused),
    };
    let tail = match read_whole(alloc, files, second, 100) {
        Ok(bytes) => bytes,
        Err(refused) => return refusal(refused),
    };
    if out.write(&head.items).is_err() {
        return Copied::WriteFault;
    }
    if out.write(&tail.items).is_err() {
        return Copied::WriteFault;
    }
    Copied::Done
}
