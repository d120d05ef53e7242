//! The lines of a text with what ends them, and by which kinds they are left out.

ghost use Rattle.std.specs.Prelude.{◌≡◌, ◌<◌, ◌^◌, IfOk, length, map};
ghost use Rattle.bstr.specs.Text.{lines_of as pieces_in};
ghost use Rattle.mw_text.specs.Words.{text_lines};
ghost use Rattle.config_prepare.specs.Places.{at_start, left_out_from, marks_in};

use crate::places::{after_line, left_out, start};
use bstr::ByteSlice;
use mw_text::{Line, List, lines_of};
use std::alloc::{AllocError, Global};

/// The lines of a text as its bytes, each with what ends it.
pub fn pieces_of(alloc: Global, bytes: &[u8]) -> Result<Vec<&[u8]>, AllocError>
    ensures { IfOk result (λ pieces. map (λ piece. piece.now) pieces.items ≡ pieces_in bytes.now) }
{
    bytes.lines_with_terminator().collect(alloc)
}

/// For each of these lines the kind by which it is left out.
#[tactic(auto, using(crate::proofs::Steps::marks_step, crate::proofs::Steps::marks_done))]
pub fn marks_of_lines(alloc: Global, lines: &[Line]) -> Result<List<Option<usize>>, AllocError>
    ensures { IfOk result (λ marks. marks ≡ left_out_from at_start lines.now) }
{
    let mut marks = List::new(alloc);
    let mut place = start();
    for line in lines {
        marks.items.push(left_out(place, line))?;
        place = after_line(place, line);
    }
    Ok(marks)
}

/// For each line of a text the kind by which it is left out.
pub fn marks_of(alloc: Global, bytes: &[u8]) -> Result<List<Option<usize>>, AllocError>
    requires { length bytes.now < 2 ^ 32 }
    ensures { IfOk result (λ marks. marks ≡ marks_in bytes.now) }
{
    let lines = lines_of(alloc, bytes)?;
    marks_of_lines(alloc, lines.as_slice())
}
