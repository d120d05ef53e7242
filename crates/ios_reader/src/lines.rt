//! Takes one line of a configuration.

ghost use Rattle.std.specs.Prelude.{◌≡◌, ◌≢◌, ◌≤◌, ◌<◌, ◌-◌, ◌^◌, IfOk, IfErr, Ok, Err, length, nat_eq};
ghost use Rattle.std.specs.List.{starts_with};
ghost use Rattle.ios_reader.specs.Drafts.{closed};
ghost use Rattle.ios_reader.specs.Reading.{is_preamble, line_context, is_misplaced, found_in, put_row, in_ignored, row_line, own_line, from_policies, policy_first, in_banner, with_line};

use crate::banner::contains_delimiter;
use crate::bgp_rows::is_unnamed_neighbour;
use crate::draft::{Block, Delimiter, Draft};
use crate::sub_rows::put_sub;
use crate::top_rows::put_top;
use ios_ast::MOST_LINES;
use ios_policy_reader::policies::context_in;
use ios_policy_reader::{
    Cause, Context, Found, PolicyBlock, Row, Said, find_row, policy_line, read_row,
};
use mw_text::{Line, List, same_bytes, says_nothing};
use std::alloc::Global;

fn begins_with(text: &[u8], front: &[u8]) -> bool
    ensures { result ≡ starts_with nat_eq text.now front.now }
{
    text.starts_with(front)
}

/// Whether it is one of the lines that stand before a configuration that was shown.
fn is_shown_before(raw: &[u8]) -> bool
    ensures { result ≡ is_preamble raw.now }
{
    same_bytes(raw, b"Building configuration...") || begins_with(raw, b"Current configuration")
}

/// Where a line stands. None in a block whose lines are ignored, and where no block is open.
fn context_of_line(line: &Line, draft: &Draft) -> Option<Context>
    ensures { result ≡ line_context line.now draft.now }
{
    if !line.indented {
        return Some(Context::Top);
    }
    match draft.block {
        Block::Closed => context_in(draft.policy_block, &draft.file.policies),
        Block::Interface => Some(Context::InInterface),
        Block::Ospf => Some(Context::InOspf),
        Block::Bgp => Some(Context::InBgp),
        Block::Ignored => None,
    }
}

/// Whether a line on a neighbour stands before the `remote-as` line of its address.
fn is_before_remote_as(row: Row, words: &[List<u8>], draft: &Draft) -> bool
    ensures { result ≡ is_misplaced row words.now draft.now }
{
    if row != Row::Neighbor {
        return false;
    }
    match &draft.file.bgp {
        Some(bgp) => is_unnamed_neighbour(words, bgp.neighbours.as_slice()),
        None => false,
    }
}

/// The row of a line of a router.
fn find_own(line: &Line, draft: &Draft) -> Result<Found, Cause>
    requires few { length line.now.words < 2 ^ 32 - 1 }
    ensures value { result ≡ found_in line.now draft.now }
    ensures within { IfOk result (λ found. found.head ≤ length line.now.words) }
{
    let words = line.words.as_slice();
    let Some(context) = context_of_line(line, draft) else {
        return Err(Cause::OutOfPlace);
    };
    let found = find_row(context, words)?;
    if is_before_remote_as(found.row, words, draft) {
        return Err(Cause::OutOfPlace);
    }
    Ok(found)
}

/// Closes the open block.
fn close(draft: &mut Draft)
    ensures { draft.new ≡ closed draft.old }
{
    draft.block = Block::Closed;
    draft.policy_block = PolicyBlock::Outside;
}

/// Puts a line of a router. A top line closes the open block.
fn put(
    alloc: Global,
    row: Row,
    line: &Line,
    rest: &[Line],
    said: &[Said],
    draft: &mut Draft,
) -> Result<(), Cause>
    ensures ok { IfOk result (λ _. put_row row line.now rest.now said.now draft.old ≡ Ok draft.new) }
    ensures refused { IfErr result (λ cause. cause ≢ Cause.Memory → put_row row line.now rest.now said.now draft.old ≡ Err cause) }
{
    if line.indented {
        return put_sub(alloc, row, line, said, draft);
    }
    close(draft);
    put_top(alloc, row, line, rest, said, draft)
}

/// Whether the line stands in a block whose lines are ignored.
fn is_in_ignored_block(line: &Line, draft: &Draft) -> bool
    ensures { result ≡ in_ignored line.now draft.now }
{
    line.indented && draft.block == Block::Ignored
}

/// Takes a line of a row of a router.
fn take_row(alloc: Global, line: &Line, rest: &[Line], draft: &mut Draft) -> Result<(), Cause>
    requires few { length line.now.words < 2 ^ 32 - 1 }
    ensures ok { IfOk result (λ _. row_line line.now rest.now draft.old ≡ Ok draft.new) }
    ensures refused { IfErr result (λ cause. cause ≢ Cause.Memory → row_line line.now rest.now draft.old ≡ Err cause) }
{
    let found = find_own(line, draft)?;
    let said = read_row(alloc, found, line.words.as_slice())?;
    put(alloc, found.row, line, rest, said.as_slice(), draft)
}

/// Takes a line that is no policy's.
fn take_own(alloc: Global, line: &Line, rest: &[Line], draft: &mut Draft) -> Result<(), Cause>
    requires few { length line.now.words < 2 ^ 32 - 1 }
    ensures ok { IfOk result (λ _. own_line line.now rest.now draft.old ≡ Ok draft.new) }
    ensures refused { IfErr result (λ cause. cause ≢ Cause.Memory → own_line line.now rest.now draft.old ≡ Err cause) }
{
    if is_in_ignored_block(line, draft) {
        return Ok(());
    }
    if is_shown_before(line.raw.as_slice()) {
        close(draft);
        return Ok(());
    }
    take_row(alloc, line, rest, draft)
}

/// Takes a line that says something: a policy's, or else a router's.
fn take_words(alloc: Global, line: &Line, rest: &[Line], draft: &mut Draft) -> Result<(), Cause>
    requires few { length line.now.words < 2 ^ 32 - 1 }
    ensures ok { IfOk result (λ _. policy_first line.now rest.now draft.old ≡ Ok draft.new) }
    ensures refused { IfErr result (λ cause. cause ≢ Cause.Memory → policy_first line.now rest.now draft.old ≡ Err cause) }
{
    match policy_line(
        alloc,
        line,
        &mut draft.policy_block,
        &mut draft.file.policies,
    ) {
        Err(refused) => Err(refused.cause),
        Ok(true) => {
            draft.block = Block::Closed;
            Ok(())
        }
        Ok(false) => take_own(alloc, line, rest, draft),
    }
}

/// Takes a line of an open banner.
fn take_of_banner(delimiter: Delimiter, line: &Line, draft: &mut Draft)
    ensures { draft.new ≡ in_banner delimiter line.now draft.old }
{
    if contains_delimiter(delimiter, line.raw.as_slice()) {
        draft.banner = None;
    }
}

/// Takes a line; `rest` are the lines after it.
pub fn take_line(alloc: Global, line: &Line, rest: &[Line], draft: &mut Draft) -> Result<(), Cause>
    requires few { length line.now.words < 2 ^ 32 - 1 }
    ensures ok { IfOk result (λ _. with_line line.now rest.now draft.old ≡ Ok draft.new) }
    ensures refused { IfErr result (λ cause. cause ≢ Cause.Memory → with_line line.now rest.now draft.old ≡ Err cause) }
{
    if line.number as usize > MOST_LINES {
        return Err(Cause::Limit);
    }
    if let Some(delimiter) = draft.banner {
        take_of_banner(delimiter, line, draft);
        return Ok(());
    }
    if says_nothing(line.words.as_slice()) {
        return Ok(());
    }
    take_words(alloc, line, rest, draft)
}
