//! Reads an asks file.

ghost use Rattle.std.specs.Prelude.{◌≡◌, ◌≢◌, ◌-◌, ◌<◌, ◌≤◌, ◌^◌, ◌++◌, ◌∷◌, All, IfOk, IfErr, Ok, Err, [], length};
ghost use Rattle.mw_text.specs.Reading.{in_turn};
ghost use Rattle.same_asks.specs.Asking as asking;

use crate::asking::read_ask;
use crate::same::Same;
use ios_policy_reader::{Cause, Refused};
use mw_text::{Line, List, lines_of, says_nothing};
use net_model::Net;
use std::alloc::{AllocError, Global};

/// How many asks a file has at most.
pub const MOST_ASKS: usize = 64;

const MEMORY: Refused = Refused {
    line: 0,
    cause: Cause::Memory,
};

/// The ask of a line, and of a refusal its line.
fn ask_at(
    alloc: Global,
    left: &Net,
    right: &Net,
    asks: &[Same],
    line: &Line,
) -> Result<Same, Refused>
    requires words { length line.now.words < 2 ^ 32 - 1 }
    ensures ok { IfOk result (λ ask. asking.ask_at left.now.files right.now.files asks.now line.now ≡ Ok ask) }
    ensures refused { IfErr result (λ refused. refused.cause ≢ Cause.Memory →
        asking.ask_at left.now.files right.now.files asks.now line.now ≡ Err refused) }
    ensures known { IfOk result (asking.IsKnown left.now.files right.now.files) }
    ensures few { IfOk result (λ _. length asks.now < MOST_ASKS) }
{
    match read_ask(alloc, left, right, asks, line.words.as_slice()) {
        Ok(ask) => Ok(ask),
        Err(Cause::Memory) => Err(MEMORY),
        Err(cause) => Err(Refused {
            line: line.number,
            cause,
        }),
    }
}

fn with_ask(mut asks: List<Same>, ask: Same) -> Result<List<Same>, AllocError>
    ensures { IfOk result (λ next. next ≡ asks ++ ask ∷ []) }
{
    asks.items.push(ask)?;
    Ok(asks)
}

/// The asks with a line more.
#[tactic(auto, unfolding(crate::specs::Asking::next_asked))]
fn next_asks(
    alloc: Global,
    left: &Net,
    right: &Net,
    asks: List<Same>,
    line: &Line,
) -> Result<List<Same>, Refused>
    requires words { length line.now.words < 2 ^ 32 - 1 }
    requires known { asking.AreKnown left.now.files right.now.files asks }
    requires few { length asks ≤ MOST_ASKS }
    ensures ok { IfOk result (λ next. asking.next_asked left.now.files right.now.files asks line.now ≡ Ok next) }
    ensures refused { IfErr result (λ refused. refused.cause ≢ Cause.Memory →
        asking.next_asked left.now.files right.now.files asks line.now ≡ Err refused) }
    ensures known { IfOk result (asking.AreKnown left.now.files right.now.files) }
    ensures few { IfOk result (λ next. length next ≤ MOST_ASKS) }
{
    if says_nothing(line.words.as_slice()) {
        return Ok(asks);
    }
    let ask = ask_at(alloc, left, right, asks.as_slice(), line)?;
    Ok(with_ask(asks, ask)?)
}

// The asks of all lines.
fn read_all(alloc: Global, left: &Net, right: &Net, lines: &[Line]) -> Result<List<Same>, Refused>
    requires words { All (λ line. length line.words < 2 ^ 32 - 1) lines.now }
    ensures ok { IfOk result (λ asks.
        in_turn (asking.next_asked left.now.files right.now.files) [] lines.now ≡ Ok asks) }
    ensures refused { IfErr result (λ refused. refused.cause ≢ Cause.Memory →
        in_turn (asking.next_asked left.now.files right.now.files) [] lines.now ≡ Err refused) }
    ensures known { IfOk result (asking.AreKnown left.now.files right.now.files) }
    ensures few { IfOk result (λ asks. length asks ≤ MOST_ASKS) }
{
    let mut asks = List::new(alloc);
    for line in lines {
        asks = next_asks(alloc, left, right, asks, line)?;
    }
    Ok(asks)
}

/// The asks that a text makes over two networks, one a line.
///
/// # Errors
///
/// A text is refused at its first line with a cause. Of several causes at a line the first counts in this order:
/// unknown kind (`UnknownCommand`), bad word, repeated name, a router that one of the networks does not have
/// (`UnknownRouter`), an ask too many (`TooManyQuestions`). Want of memory is at line 0.
pub fn read_same(
    alloc: Global,
    bytes: &[u8],
    left: &Net,
    right: &Net,
) -> Result<List<Same>, Refused>
    requires { length bytes.now < 2 ^ 32 }
    ensures ok { IfOk result (λ asks. asking.asking left.now.files right.now.files bytes.now ≡ Ok asks) }
    ensures refused { IfErr result (λ refused. refused.cause ≢ Cause.Memory →
        asking.asking left.now.files right.now.files bytes.now ≡ Err refused) }
    ensures known { IfOk result (asking.AreKnown left.now.files right.now.files) }
    ensures few { IfOk result (λ asks. length asks ≤ MOST_ASKS) }
{
    let lines = lines_of(alloc, bytes)?;
    read_all(alloc, left, right, lines.as_slice())
}
