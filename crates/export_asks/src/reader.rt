//! Reads an asks file.

ghost use Rattle.std.specs.Prelude.{◌≡◌, ◌≢◌, ◌-◌, ◌<◌, ◌≤◌, ◌^◌, ◌++◌, ◌∷◌, All, IfOk, IfErr, Ok, Err, [], length};
ghost use Rattle.mw_text.specs.Reading.{in_turn};
ghost use Rattle.export_asks.specs.Asking as asking;

use crate::ask::Ask;
use crate::asking::read_ask;
use ios_policy_reader::{Cause, Refused};
use mw_text::{Line, List, lines_of, says_nothing};
use net_model::Net;
use std::alloc::{AllocError, Global};

/// How many asks a file has at most.
pub const MOST_ASKS: usize = 64;

const MEMORY: Refused = Refused {
    line: 0,
    cause: Cause::Memory,
};

/// The ask of a line, and of a refusal its line.
fn ask_at(alloc: Global, net: &Net, asks: &[Ask], line: &Line) -> Result<Ask, Refused>
    requires words { length line.now.words < 2 ^ 32 - 1 }
    ensures ok { IfOk result (λ ask. asking.ask_at net.now.files asks.now line.now ≡ Ok ask) }
    ensures refused { IfErr result (λ refused. refused.cause ≢ Cause.Memory → asking.ask_at net.now.files asks.now line.now ≡ Err refused) }
    ensures few { IfOk result (λ _. length asks.now < MOST_ASKS) }
{
    match read_ask(alloc, net, asks, line.words.as_slice()) {
        Ok(ask) => Ok(ask),
        Err(Cause::Memory) => Err(MEMORY),
        Err(cause) => Err(Refused {
            line: line.number,
            cause,
        }),
    }
}

fn with_ask(mut asks: List<Ask>, ask: Ask) -> Result<List<Ask>, AllocError>
    ensures { IfOk result (λ next. next ≡ asks ++ ask ∷ []) }
{
    asks.items.push(ask)?;
    Ok(asks)
}

/// The asks with a line more.
#[tactic(auto, unfolding(crate::specs::Asking::next_asked))]
fn next_asks(alloc: Global, net: &Net, asks: List<Ask>, line: &Line) -> Result<List<Ask>, Refused>
    requires words { length line.now.words < 2 ^ 32 - 1 }
    requires few { length asks ≤ MOST_ASKS }
    ensures ok { IfOk result (λ next. asking.next_asked net.now.files asks line.now ≡ Ok next) }
    ensures refused { IfErr result (λ refused. refused.cause ≢ Cause.Memory → asking.next_asked net.now.files asks line.now ≡ Err refused) }
    ensures few { IfOk result (λ next. length next ≤ MOST_ASKS) }
{
    if says_nothing(line.words.as_slice()) {
        return Ok(asks);
    }
    let ask = ask_at(alloc, net, asks.as_slice(), line)?;
    Ok(with_ask(asks, ask)?)
}

// The asks of all lines.
fn read_all(alloc: Global, net: &Net, lines: &[Line]) -> Result<List<Ask>, Refused>
    requires words { All (λ line. length line.words < 2 ^ 32 - 1) lines.now }
    ensures ok { IfOk result (λ asks. in_turn (asking.next_asked net.now.files) [] lines.now ≡ Ok asks) }
    ensures refused { IfErr result (λ refused. refused.cause ≢ Cause.Memory → in_turn (asking.next_asked net.now.files) [] lines.now ≡ Err refused) }
    ensures few { IfOk result (λ asks. length asks ≤ MOST_ASKS) }
{
    let mut asks = List::new(alloc);
    for line in lines {
        asks = next_asks(alloc, net, asks, line)?;
    }
    Ok(asks)
}

/// The asks that a text makes over a network, one a line.
///
/// # Errors
///
/// A text is refused at its first line with a cause. Of several causes at a line the first counts in this order: unknown
/// kind (`UnknownCommand`), bad word, repeated name, unknown router, no external peer of its router (`UnknownPeer`), an
/// ask too many (`TooManyQuestions`). Want of memory is at line 0.
pub fn read_asks(alloc: Global, bytes: &[u8], net: &Net) -> Result<List<Ask>, Refused>
    requires { length bytes.now < 2 ^ 32 }
    ensures ok { IfOk result (λ asks. asking.asking net.now.files bytes.now ≡ Ok asks) }
    ensures refused { IfErr result (λ refused. refused.cause ≢ Cause.Memory → asking.asking net.now.files bytes.now ≡ Err refused) }
    ensures few { IfOk result (λ asks. length asks ≤ MOST_ASKS) }
{
    let lines = lines_of(alloc, bytes)?;
    read_all(alloc, net, lines.as_slice())
}
