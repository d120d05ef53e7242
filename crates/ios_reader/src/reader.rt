//! Reads a configuration file.

ghost use Rattle.std.specs.Prelude.{◌≡◌, ◌≢◌, ◌+◌, ◌-◌, ◌≤◌, ◌<◌, ◌^◌, IfOk, IfErr, OnOk, Ok, Err, drop, length, true};
ghost use Rattle.std.specs.List.{All};
ghost use Rattle.ios_ast.specs.Limits.{keeps_limits};
ghost use Rattle.ios_ast.specs.declared.file.TheConstants.{MOST_POLICY_ENTRIES};
ghost use Rattle.ios_policy_reader.specs.Lists.{policy_entries};
ghost use Rattle.ios_reader.specs.Drafts.{empty_draft};
ghost use Rattle.ios_reader.specs.Reading.{at_line, with_line, finished, read_lines, reading};

use crate::draft::{Draft, new_draft};
use crate::lines::take_line;
use ios_ast::File;
use ios_policy_reader::{Cause, Refused};
use mw_text::{Line, lines_of};
use std::alloc::Global;

const MEMORY: Refused = Refused {
    line: 0,
    cause: Cause::Memory,
};

/// Takes a line, and says of a refusal at which line it is.
fn take_numbered(
    alloc: Global,
    line: &Line,
    rest: &[Line],
    draft: &mut Draft,
) -> Result<(), Refused>
    requires few { length line.now.words < 2 ^ 32 - 1 }
    ensures ok { IfOk result (λ _. at_line line.now.number (with_line line.now rest.now draft.old) ≡ Ok draft.new) }
    ensures refused { IfErr result (λ refused. refused.cause ≢ Cause.Memory → at_line line.now.number (with_line line.now rest.now draft.old) ≡ Err refused) }
{
    match take_line(alloc, line, rest, draft) {
        Ok(()) => Ok(()),
        Err(Cause::Memory) => Err(MEMORY),
        Err(cause) => Err(Refused {
            line: line.number,
            cause,
        }),
    }
}

/// Refuses a draft without a hostname.
fn check_hostname(draft: &Draft) -> Result<(), Refused>
    ensures ok { OnOk result (finished draft.now ≡ Ok draft.now.file) }
    ensures refused { IfErr result (λ refused. finished draft.now ≡ Err refused) }
{
    if draft.file.hostname.items.is_empty() {
        Err(Refused {
            line: 1,
            cause: Cause::NoHostname,
        })
    } else {
        Ok(())
    }
}

/// The lines after a place.
fn lines_after(lines: &[Line], at: usize) -> &[Line]
    requires { at < length lines.now }
    ensures { result.now ≡ drop (at + 1) lines.now }
{
    &lines[at + 1..]
}

/// Takes the line at a place.
#[tactic(auto, using(crate::proofs::LineByLine::read_lines_taken, crate::proofs::LineByLine::read_lines_refused))]
fn take_at(alloc: Global, lines: &[Line], at: usize, draft: &mut Draft) -> Result<(), Refused>
    requires within { at < length lines.now }
    requires few { All (λ line. length line.words < 2 ^ 32 - 1) lines.now }
    ensures ok { IfOk result (λ _. read_lines draft.old (drop at lines.now) ≡ read_lines draft.new (drop (at + 1) lines.now)) }
    ensures refused { IfErr result (λ refused. refused.cause ≢ Cause.Memory → read_lines draft.old (drop at lines.now) ≡ Err refused) }
{
    match take_numbered(alloc, &lines[at], lines_after(lines, at), draft) {
        Ok(()) => Ok(()),
        Err(refused) => Err(refused),
    }
}

/// Takes all lines into the draft, whose file is then theirs.
#[tactic(auto, using(crate::proofs::LineByLine::read_lines_done))]
fn take_all(alloc: Global, lines: &[Line], draft: &mut Draft) -> Result<(), Refused>
    requires few { All (λ line. length line.words < 2 ^ 32 - 1) lines.now }
    ensures ok { IfOk result (λ _. read_lines draft.old lines.now ≡ Ok draft.new.file) }
    ensures refused { IfErr result (λ refused. refused.cause ≢ Cause.Memory → read_lines draft.old lines.now ≡ Err refused) }
{
    for at in 0..lines.len() {
        take_at(alloc, lines, at, draft)?;
    }
    check_hostname(draft)
}

/// The file of these lines.
fn read_all(alloc: Global, lines: &[Line]) -> Result<File, Refused>
    requires few { All (λ line. length line.words < 2 ^ 32 - 1) lines.now }
    ensures ok { IfOk result (λ file. read_lines empty_draft lines.now ≡ Ok file) }
    ensures refused { IfErr result (λ refused. refused.cause ≢ Cause.Memory → read_lines empty_draft lines.now ≡ Err refused) }
{
    let mut draft = new_draft(alloc);
    take_all(alloc, lines, &mut draft)?;
    Ok(draft.file)
}

/// The file that a text reads as. Each line is of the row with the longest head that fits where the line stands. A text
/// is refused at its first line with a cause: of several causes at a line the first counts in the order too many lines,
/// out of place, unknown command, bad word, repeated, over a limit. A text without a hostname is refused at line 1. The
/// file keeps the limits of a file: interfaces, neighbours, entries of lists and maps, the range of OSPF costs, and the
/// order of a prefix list's lengths. It names each neighbour once, and has its addresses by different lines.
#[tactic(auto, using(crate::proofs::KeptLimits::read_limits, crate::proofs::KeptLimits::read_entries))]
pub fn read_file(alloc: Global, bytes: &[u8]) -> Result<File, Refused>
    requires { length bytes.now < 2 ^ 32 }
    ensures ok { IfOk result (λ file. reading bytes.now ≡ Ok file) }
    ensures refused { IfErr result (λ refused. refused.cause ≢ Cause.Memory → reading bytes.now ≡ Err refused) }
    ensures limits { IfOk result (λ file. keeps_limits file ≡ true) }
    ensures entries { IfOk result (λ file. policy_entries file.policies ≤ MOST_POLICY_ENTRIES) }
{
    let lines = lines_of(alloc, bytes)?;
    read_all(alloc, lines.as_slice())
}
