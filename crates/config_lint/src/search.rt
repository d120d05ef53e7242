//! The refusals of a file, one after another.

ghost use Rattle.std.specs.Prelude.{◌≡◌, ◌<◌, ◌^◌, [], IfOk, MatchOption, IsOk, Err, false, length, map};
ghost use Rattle.bstr.specs.Text.{lines_of as pieces_in};
ghost use Rattle.mw_text.specs.Words.{text_lines};
ghost use Rattle.ios_reader.specs.Reading.{reading};
ghost use Rattle.config_lint.specs.Asides.{asides, cut_lines, without};
ghost use Rattle.config_lint.specs.Listed.{AreListed, Notes, ends_by, is_last};

use crate::asides::{cut_text, leave_aside};
use config_prepare::lines::pieces_of;
use ios_ast::MOST_LINES;
use ios_policy_reader::{Cause, Refused};
use ios_reader::read_file;
use mw_text::{Line, List, lines_of};
use std::alloc::{AllocError, Global};

/// Whether there is nothing to go on with after a refusal at that line for that cause.
fn is_end(cause: Cause, line: u32) -> bool
    ensures { result ≡ ends_by cause line }
{
    match cause {
        Cause::NoHostname => true,
        Cause::Limit => MOST_LINES < line as usize,
        _ => false,
    }
}

/// How the reader refuses the text of these lines, of which each that is left aside is empty; none where it takes it.
fn refusal_in(alloc: Global, lines: &[&[u8]], flags: &[bool]) -> Result<Option<Refused>, AllocError>
    requires fit { length lines.now ≡ length flags.now }
    requires small { length (cut_lines (map (λ line. line.now) lines.now) flags.now) < 2 ^ 32 }
    ensures { IfOk result (λ found. MatchOption found
        (IsOk (reading (cut_lines (map (λ line. line.now) lines.now) flags.now)))
        (λ refused. reading (cut_lines (map (λ line. line.now) lines.now) flags.now) ≡ Err refused)) }
{
    let text = cut_text(alloc, lines, flags)?;
    match read_file(alloc, text.as_slice()) {
        Ok(_) => Ok(None),
        Err(refused) => match refused.cause {
            Cause::Memory => Err(AllocError),
            _ => Ok(Some(refused)),
        },
    }
}

/// Notes a refusal, and leaves its lines aside. Answers whether there may be more.
fn note(
    bytes: &[u8],
    lines: &[Line],
    flags: &mut [bool],
    told: &mut List<Refused>,
    refused: Refused,
) -> Result<bool, AllocError>
    requires lines { lines.now ≡ text_lines bytes.now }
    requires flags { flags.old ≡ asides lines.now told.old }
    requires refused { reading (without bytes.now told.old) ≡ Err refused }
    ensures { IfOk result (Notes bytes.now told.old told.new flags.old flags.new) }
{
    told.items.push(refused)?;
    if is_end(refused.cause, refused.line) {
        return Ok(false);
    }
    leave_aside(lines, refused.line as usize, flags);
    Ok(true)
}

/// Notes the next refusal, where there is one, and leaves its lines aside. Answers whether there may be more.
fn note_next(
    alloc: Global,
    bytes: &[u8],
    lines: &[Line],
    pieces: &[&[u8]],
    flags: &mut [bool],
    told: &mut List<Refused>,
) -> Result<bool, AllocError>
    requires small { length bytes.now < 2 ^ 32 }
    requires lines { lines.now ≡ text_lines bytes.now }
    requires pieces { map (λ piece. piece.now) pieces.now ≡ pieces_in bytes.now }
    requires flags { flags.old ≡ asides lines.now told.old }
    ensures { IfOk result (Notes bytes.now told.old told.new flags.old flags.new) }
{
    match refusal_in(alloc, pieces, flags)? {
        None => Ok(false),
        Some(refused) => note(bytes, lines, flags, told, refused),
    }
}

/// All refusals of the text of these lines, of which none is left aside yet.
fn find_all(
    alloc: Global,
    bytes: &[u8],
    lines: &[Line],
    pieces: &[&[u8]],
    flags: &mut [bool],
) -> Result<List<Refused>, AllocError>
    requires small { length bytes.now < 2 ^ 32 }
    requires lines { lines.now ≡ text_lines bytes.now }
    requires pieces { map (λ piece. piece.now) pieces.now ≡ pieces_in bytes.now }
    requires flags { flags.old ≡ asides lines.now [] }
    ensures { IfOk result (AreListed bytes.now []) }
{
    let mut told = List::new(alloc);
    'search: loop {
        if !note_next(alloc, bytes, lines, pieces, flags, &mut told)? {
            return Ok(told);
        }
    }
}

/// No line is left aside.
#[tactic(auto, using(crate::proofs::Marks::asides_none))]
fn no_flags(alloc: Global, lines: &[Line]) -> Result<Vec<bool>, AllocError>
    ensures { IfOk result (λ flags. flags.items ≡ asides lines.now []) }
{
    Ok(vec![in alloc; false; lines.len()]?)
}

/// All refusals of a file, in their order: each is how the reader refuses the file without the lines that are left aside
/// with those before it. With a line its block is left aside, and with a `remote-as` line the other lines on its
/// neighbour. Without the lines of all of them the reader takes the file, unless the last says that it has no hostname, or
/// more lines than a file can have.
pub fn refusals_of(alloc: Global, bytes: &[u8]) -> Result<List<Refused>, AllocError>
    requires { length bytes.now < 2 ^ 32 }
    ensures { IfOk result (AreListed bytes.now []) }
{
    let lines = lines_of(alloc, bytes)?;
    let pieces = pieces_of(alloc, bytes)?;
    let mut flags = no_flags(alloc, lines.as_slice())?;
    find_all(
        alloc,
        bytes,
        lines.as_slice(),
        pieces.as_slice(),
        flags.as_mut_slice(),
    )
}
