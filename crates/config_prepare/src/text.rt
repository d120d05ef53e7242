//! The text that is made ready.

ghost use Rattle.std.specs.Prelude.{◌≡◌, ◌++◌, ◌<◌, ◌^◌, IfOk, OnOk, codes, length, map};
ghost use Rattle.std.specs.List.{flat_map};
ghost use Rattle.config_prepare.specs.Prepared.{out_line, prepared_lines, prepared};

use crate::lines::pieces_of;
use mw_text::List;
use std::alloc::{AllocError, Global};

/// Pieces joined in their order.
pub fn joined(alloc: Global, pieces: &[&[u8]]) -> Result<List<u8>, AllocError>
    ensures { IfOk result (λ text. text ≡ flat_map (λ piece. piece.now) pieces.now) }
{
    let mut text = List::new(alloc);
    for piece in pieces {
        text.items.extend_from_slice(piece)?;
    }
    Ok(text)
}

/// Puts a piece behind a text.
pub fn put_piece(text: &mut List<u8>, piece: &[u8]) -> Result<(), AllocError>
    ensures { OnOk result (text.new ≡ text.old ++ piece.now) }
{
    text.items.extend_from_slice(piece)?;
    Ok(())
}

/// Puts the comment that a line becomes behind a text.
fn put_comment(text: &mut List<u8>, line: &[u8]) -> Result<(), AllocError>
    ensures { OnOk result (text.new ≡ text.old ++ (codes "! left out: " ++ line.now)) }
{
    put_piece(text, b"! left out: ")?;
    put_piece(text, line)?;
    Ok(())
}

/// Puts a line behind a text, or the comment that it becomes.
fn put_line(text: &mut List<u8>, mark: Option<usize>, line: &[u8]) -> Result<(), AllocError>
    ensures { OnOk result (text.new ≡ text.old ++ out_line mark line.now) }
{
    match mark {
        Some(_) => put_comment(text, line),
        None => put_piece(text, line),
    }
}

/// The text of these lines, each as it stands or as a comment.
#[tactic(auto, using(crate::proofs::Steps::lines_done))]
pub fn text_of(
    alloc: Global,
    lines: &[&[u8]],
    marks: &[Option<usize>],
) -> Result<List<u8>, AllocError>
    requires { length lines.now ≡ length marks.now }
    ensures { IfOk result (λ text. text ≡ prepared_lines (map (λ line. line.now) lines.now) marks.now) }
{
    let mut text = List::new(alloc);
    for at in 0..lines.len() {
        put_line(&mut text, marks[at], lines[at])?;
    }
    Ok(text)
}
