//! A whole file, up to a limit.

ghost use Rattle.std.specs.Prelude.{◌≡◌, ◌+◌, ◌<◌, ◌≤◌, length, IfOk, OnOk};
ghost use Rattle.std.specs.Bool.{OnTrue, OnFalse};
ghost use Rattle.mw_outside.specs.Faults.{Rose};
ghost use Rattle.mw_outside.specs.Contents.{Has, IsFront, TellsOnly};
ghost use Rattle.mw_outside.specs.Asked.{AsksWithin};
ghost use Rattle.mw_outside.specs.Reads.{OnFailed, UnlessFailed, OnTooLong};

use crate::Files;
use mw_text::List;
use std::alloc::Global;
use thiserror::Error;

/// Why a file could not be read whole.
#[derive(Clone, Copy, Debug, Error)]
pub enum ReadRefused {
    /// A read failed.
    #[error("a read failed")]
    Failed,
    /// The file has more bytes than the limit.
    #[error("the file is too long")]
    TooLong,
    /// Memory was refused.
    #[error("out of memory")]
    Memory,
}

/// The longest piece that one read asks for, in bytes.
const PIECE: usize = 4096;

/// All bytes of a file, of which there are at most `limit`. It asks for no more than its first `limit + 1` bytes.
#[tactic(auto, using(crate::specs::Asked::asks_again, crate::specs::Asked::asks_nothing))]
pub fn read_whole<F: Files>(
    alloc: Global,
    files: &mut F,
    name: &str,
    limit: u64,
) -> Result<List<u8>, ReadRefused>
    ensures kept { F.contents files.new ≡ F.contents files.old }
    ensures later { F.faults files.old ≤ F.faults files.new }

    ensures whole { IfOk result (λ bytes. Has (F.contents files.old) name.now (λ file. file ≡ bytes)) }
    ensures within { IfOk result (λ bytes. length bytes ≤ limit) }
    ensures asks { AsksWithin (F.reach files.old) (F.reach files.new) (limit + 1) }
    ensures too_long { OnTooLong result (Has (F.contents files.old) name.now (λ file. limit < length file)) }

    ensures cause { OnFailed result (Rose (F.faults files.old) (F.faults files.new)) }
    ensures stays { UnlessFailed result (F.faults files.new ≡ F.faults files.old) }
    ensures failed_name { OnFailed result (TellsOnly name.now (F.last_failed files.new)) }
    ensures name_stays { UnlessFailed result (F.last_failed files.new ≡ F.last_failed files.old) }
{
    let mut bytes = List::new(alloc);
    let mut piece = [0u8; PIECE];
    loop {
        match read_piece(files, name, limit, &mut bytes, &mut piece) {
            Ok(true) => {}
            Ok(false) => return Ok(bytes),
            Err(refused) => return Err(refused),
        }
    }
}

// Reads the next piece of a file, behind the bytes that stand there. Answers whether there was one.
#[tactic(auto, using(crate::proofs::Fronts::front_more, crate::specs::Asked::asks_once))]
fn read_piece<F: Files>(
    files: &mut F,
    name: &str,
    limit: u64,
    bytes: &mut List<u8>,
    piece: &mut [u8; PIECE],
) -> Result<bool, ReadRefused>
    requires within { length bytes.old ≤ limit }
    requires front { IsFront (F.contents files.old) name.now bytes.old }

    ensures kept { F.contents files.new ≡ F.contents files.old }
    ensures later { F.faults files.old ≤ F.faults files.new }

    ensures front { OnOk result (IsFront (F.contents files.old) name.now bytes.new) }
    ensures within { OnOk result (length bytes.new ≤ limit) }
    ensures grows { IfOk result (λ more. OnTrue more (length bytes.old < length bytes.new)) }
    ensures whole { IfOk result (λ more. OnFalse more (Has (F.contents files.old) name.now (λ file. file ≡ bytes.new))) }
    ensures asks { AsksWithin (F.reach files.old) (F.reach files.new) (limit + 1) }
    ensures too_long { OnTooLong result (Has (F.contents files.old) name.now (λ file. limit < length file)) }

    ensures cause { OnFailed result (Rose (F.faults files.old) (F.faults files.new)) }
    ensures stays { UnlessFailed result (F.faults files.new ≡ F.faults files.old) }
    ensures failed_name { OnFailed result (TellsOnly name.now (F.last_failed files.new)) }
    ensures name_stays { UnlessFailed result (F.last_failed files.new ≡ F.last_failed files.old) }
{
    let at = bytes.items.len() as u64;
    let wanted = (limit - at).min(PIECE as u64 - 1) as usize + 1;
    let asked = &mut piece[..wanted];
    match files.read_at(name, at, asked) {
        Err(_) => Err(ReadRefused::Failed),
        Ok(0) => Ok(false),
        Ok(count) if (count as u64) > limit - at => Err(ReadRefused::TooLong),
        Ok(count) => match bytes.items.extend_from_slice(&asked[..count]) {
            Ok(()) => Ok(true),
            Err(_) => Err(ReadRefused::Memory),
        },
    }
}
